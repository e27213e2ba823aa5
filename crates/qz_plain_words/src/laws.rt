//! How the words of replies stand on a line.

ghost use Rattle.qz_plain_words.specs.Plain.{PlainWordsStand};

/// Any number, each word of a refusal, and each word of any other reply but a page and a question's text stands on the line as it
/// is, without an escape.
pub fn plain_words_stand()
    ensures { PlainWordsStand }
{}
