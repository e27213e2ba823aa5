//! What reading GIFT and writing it mean together: the laws of reading back.
#![tactic(auto)]

ghost use Rattle.gift_laws.specs.Written.{ReadsAgain, ReadsBack, ReadsWritten};

/// The canonical text of a bank of written questions, of every kind, is read as that bank, with its categories. `IsWritten`
/// says what a written question is.
pub fn reads_back()
    ensures { ReadsBack }
{}

/// Each text that has a reading is read as a bank of written questions, each in a category with written names: `IsItem` says
/// what these are. So `reads_back` speaks of every bank that comes from a text.
pub fn reads_written()
    ensures { ReadsWritten }
{}

/// Whatever text has a reading, the canonical text of the bank that it is read as is read as that bank again, with its
/// categories. So a bank that is written and read back has lost nothing, and `gift fmt` of its own output changes nothing.
pub fn reads_again()
    ensures { ReadsAgain }
{}
