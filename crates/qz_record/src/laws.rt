//! What spellings of records mean.

ghost use Rattle.qz_record.specs.Lengths.{AreNoLonger};
ghost use Rattle.qz_record.specs.Records.{HasOneSpelling};

/// Two records with the same spelling are the same, and no spelling is a proper prefix of another.
pub fn one_spelling()
    ensures { HasOneSpelling }
{}

/// No record but an import is longer than a list takes, where its names are short and it learns no more than it binds.
pub fn no_longer()
    ensures { AreNoLonger }
{}
