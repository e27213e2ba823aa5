//! What the definitions of records and answers mean.

ghost use Rattle.qz_terms.specs.Laws.{ActsOnce, AddsNothing, AnsweredHere, AnswersAreOwn, HighestIsHighest, NotedChangesNothing, OwnReadingsAgree, SameBoundChangesNothing, SaveKeepsTheEnd};

/// A record of a step that was the same as before changes no step, bound, state, mark, total or grade.
pub fn noted_changes_nothing()
    ensures { NotedChangesNothing }
{}

/// A request that is refused, one that repeats a kept one, and one that puts no record leave a shard's list as it
/// was.
pub fn adds_nothing()
    ensures { AddsNothing }
{}

/// A request with a key that a shard accepts stands in its list from then on, whatever comes later. Asked again, it has the reply
/// that it had, and adds nothing.
pub fn acts_once()
    ensures { ActsOnce }
{}

/// The answer over the catalogue and a shard is that over the shard's list alone, with the user and the plan that
/// the catalogue gives.
pub fn answered_here()
    ensures { AnsweredHere }
{}

/// No answer is that the keeper of a list failed or that memory was wanting, whatever the lists and the request are.
pub fn answers_are_own()
    ensures { AnswersAreOwn }
{}

/// A job that binds the version and the max mark that are bound already changes neither the state nor the mark of
/// the slot.
pub fn same_bound_changes_nothing()
    ensures { SameBoundChangesNothing }
{}

/// A response that is saved behind the end of a slot changes neither its mark nor its state.
pub fn save_keeps_the_end()
    ensures { SaveKeepsTheEnd }
{}

/// The grade by the highest total is at least that of each attempt's total alone.
pub fn highest_is_highest()
    ensures { HighestIsHighest }
{}

/// What is read of a user's attempts depends on this user's own records and on the versions bound in them, whatever
/// the records of others are.
pub fn own_readings_agree()
    ensures { OwnReadingsAgree }
{}
