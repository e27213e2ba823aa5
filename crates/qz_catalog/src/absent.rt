//! The first of what a request names that isn't there.

ghost use Rattle.std.specs.Prelude.{◌≡◌, is_none, true};
ghost use Rattle.qz_grading.specs.declared.refusal.Refusal.TheVariants as refusal;
ghost use Rattle.qz_grading.specs.declared.refusal.Thing.TheVariants as thing;
ghost use Rattle.qz_grading.specs.Behaviours.{when};
ghost use Rattle.qz_grading.specs.Grading.{at_place};
ghost use Rattle.qz_terms.specs.Catalog.{slots};
ghost use Rattle.qz_terms.specs.CatalogAnswer.{asks_catalog};
ghost use Rattle.qz_terms.specs.Cause.{missing_in, missing_whom};
ghost use Rattle.qz_bank.specs.Banks.{version};
ghost use Rattle.qz_catalog.specs.Holdings.{IsIndexed};

use crate::book::Book;
use crate::missing::{missing, missing_group, missing_quiz, missing_user};
use crate::quizzes::slot_count;
use qz_bank::Entries;
use qz_grading::{Refusal, Thing};
use qz_terms::{Request, Whom};

fn missing_slot(book: &Book, quiz: u32, slot: u16) -> Option<Refusal>
    requires { IsIndexed book.now }
    ensures { result ≡ when (is_none (at_place (slots book.now.records.items quiz) slot)) (refusal.Unknown thing.Slot) }
{
    missing(slot_count(book, quiz), u32::from(slot), Thing::Slot)
}

fn missing_whom(book: &Book, whom: Whom, number: u32) -> Option<Refusal>
    requires { IsIndexed book.now }
    ensures { result ≡ missing_whom book.now.records.items whom number }
{
    match whom {
        Whom::User => missing_user(book, number),
        Whom::Group => missing_group(book, number),
    }
}

/// The refusal of an entry that the bank doesn't have.
fn missing_entry(entries: &Entries, entry: u32) -> Option<Refusal>
    ensures { result ≡ when (is_none (at_place entries.now entry)) (refusal.Unknown thing.Entry) }
{
    match entries.latest(entry) {
        Some(_) => None,
        None => Some(Refusal::Unknown { what: Thing::Entry }),
    }
}

fn missing_version(entries: &Entries, entry: u32, number: u32) -> Option<Refusal>
    ensures { result ≡ when (is_none (version entries.now entry number)) (refusal.Unknown thing.Version) }
{
    match entries.version(entry, number) {
        Some(_) => None,
        None => Some(Refusal::Unknown {
            what: Thing::Version,
        }),
    }
}

/// The refusal of a request that names what the catalogue doesn't have (`Unknown`), the first in the order of its words.
pub(crate) fn missing_in(book: &Book, request: &Request) -> Option<Refusal>
    requires indexed { IsIndexed book.now }
    requires here { asks_catalog request.now ≡ true }
    ensures { result ≡ missing_in book.now.records.items request.now }
{
    match request {
        Request::Member { group, user } => {
            missing_group(book, *group).or(missing_user(book, *user))
        }
        Request::Edit { entry, .. } => missing_entry(&book.entries, *entry),
        Request::Tune { entry, .. } => missing_entry(&book.entries, *entry),
        Request::Slot { quiz, entry, .. } => {
            missing_quiz(book, *quiz).or(missing_entry(&book.entries, *entry))
        }
        Request::Ready { quiz }
        | Request::Policy { quiz, .. }
        | Request::Times { quiz, .. }
        | Request::Regrade { quiz } => missing_quiz(book, *quiz),
        Request::Remax { quiz, slot, .. } => {
            missing_quiz(book, *quiz).or(missing_slot(book, *quiz, *slot))
        }
        Request::Override {
            quiz,
            whom,
            number,
            ..
        } => missing_quiz(book, *quiz).or(missing_whom(book, *whom, *number)),
        Request::Bank { entry, version } => {
            missing_entry(&book.entries, *entry).or(missing_version(
                &book.entries,
                *entry,
                *version,
            ))
        }
        _ => None,
    }
}
