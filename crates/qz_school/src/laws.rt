//! What stays true while the catalogue and the shards of a school grow.

ghost use Rattle.qz_school.specs.Agreement.{AgreesUnderAnOlder, AttemptsAreKnown, GoesOnAgreeing, NeedsNoQuestions, UsersHaveTokens};
ghost use Rattle.qz_school.specs.Alike.{AlikeInASchool};
ghost use Rattle.qz_school.specs.Working.{GoesOnWorking};

/// A user who is found by a token has the place of the number in the list of users, and is the one who is found by the own token where
/// the catalogue is legal.
pub fn users_have_tokens()
    ensures { UsersHaveTokens }
{}

/// The records of a shard that agree with a catalogue agree with each longer one, and the record that a request puts under
/// the plan of its catalogue agrees too.
pub fn goes_on_agreeing()
    ensures { GoesOnAgreeing }
{}

/// What a request puts under the plan that a catalogue gave agrees with each longer one with which the shard's records agree, where the quiz of
/// the attempt that it names was ready there; and so it was where the attempt was there when the shard agreed with that catalogue.
pub fn agrees_under_an_older()
    ensures { AgreesUnderAnOlder }
{}

/// A job that the catalogue has can be worked in a shard that agrees, and what its steps put agrees too; and no plan over the whole
/// catalogue is older than a job that is done in such a shard.
pub fn goes_on_working()
    ensures { GoesOnWorking }
{}

/// An attempt of a shard that agrees with a catalogue has its quiz and its user there.
pub fn attempts_are_known()
    ensures { AttemptsAreKnown }
{}

/// A shard answers every request but a start without the questions of the plan.
pub fn needs_no_questions()
    ensures { NeedsNoQuestions }
{}

/// Two lists of a shard that agree with one catalogue are alike for a user who asked only of own attempts, once they have the same records
/// of this user but for what was learned: the catalogue has one question for each version.
pub fn alike_in_a_school()
    ensures { AlikeInASchool }
{}
