//! Why a request is refused, behind the test of its key.

ghost use Rattle.std.specs.Prelude.{◌≡◌, ◌≤◌, [], ◌∷◌, not, length, option_map};
ghost use Rattle.qz_grading.specs.declared.refusal.Refusal.TheVariants as refusal;
ghost use Rattle.qz_grading.specs.Behaviours.{first_some, when};
ghost use Rattle.qz_terms.specs.declared.limits.TheConstants.{MOST_ENTRIES, MOST_JOBS, MOST_SLOTS, MOST_USERS};
ghost use Rattle.qz_terms.specs.declared.request.Request.TheVariants as request;
ghost use Rattle.qz_terms.specs.Catalog.{is_ready, jobs, slots, token_place, users};
ghost use Rattle.qz_terms.specs.Catalog as catalog;
ghost use Rattle.qz_terms.specs.Cause.{already_ready, bad_max, import_cause, slot_entry, too_many};
ghost use Rattle.qz_catalog.specs.Holdings.{IsIndexed};
ghost use Rattle.qz_catalog.specs.Applying.{bad_for, early_cause, greatest_of, stand_in};

use crate::book::Book;
use crate::people::token_place;
use crate::quizzes::{is_ready, ready_at, slot_count, slot_entry};
use crate::sizes::import_fits;
use qz_bank::Entries;
use qz_decimal::{Mark, ONE};
use qz_grading::{Bank, Kind, Refusal};
use qz_terms::{
    MOST_ENTRIES, MOST_GROUPS, MOST_JOBS, MOST_OVERRIDES, MOST_QUIZZES, MOST_RECORD, MOST_SLOTS,
    MOST_USERS, Request,
};
use qz_text::Text;

/// The greatest max mark for a question that isn't a description.
const GREATEST_MAX: Mark = Mark(10_000 * ONE);

/// The refusal of one more where there are so many.
fn too_many(most: u32, count: usize) -> Option<Refusal>
    ensures { result ≡ too_many most count }
{
    if count < most as usize {
        return None;
    }
    Some(Refusal::TooMany { limit: most })
}

/// A user's token isn't another's.
fn user_cause(book: &Book, token: &Text) -> Option<Refusal>
    requires { IsIndexed book.now }
    ensures { result ≡ first_some (option_map refusal.KeyReused (token_place book.now.records.items token.now) ∷ too_many MOST_USERS (length (users book.now.records.items)) ∷ []) }
{
    if let Some(place) = token_place(book, token) {
        return Some(Refusal::KeyReused { place });
    }
    too_many(MOST_USERS, book.roster.people.count())
}

fn import_cause(book: &Book, key: &Option<Text>, gift: &Bank) -> Option<Refusal>
    requires indexed { IsIndexed book.now }
    requires few { length (catalog.entries book.now.records.items) ≤ MOST_ENTRIES }
    ensures { result ≡ import_cause book.now.records.items gift.now (stand_in key.now (request.Import gift.now)) }
{
    let room = MOST_ENTRIES as usize - book.roster.counts.entries();
    if gift.items.as_slice().len() > room {
        return Some(Refusal::TooMany {
            limit: MOST_ENTRIES,
        });
    }
    if !import_fits(key, gift) {
        return Some(Refusal::TooMany {
            limit: MOST_RECORD as u32,
        });
    }
    None
}

/// The greatest max mark for an entry's latest version, and 0 for a description or where there is no such entry.
fn greatest_max(entries: &Entries, entry: u32) -> Mark
    ensures { result ≡ greatest_of entries.now entry }
{
    let Some(latest) = entries.latest(entry) else {
        return Mark(0);
    };
    match entries.version(entry, latest) {
        Some(question) => match question.kind {
            Kind::Description => Mark(0),
            _ => GREATEST_MAX,
        },
        None => Mark(0),
    }
}

/// The refusal of a max mark below 0 or above the greatest.
fn bad_max(entries: &Entries, entry: u32, max: Mark) -> Option<Refusal>
    ensures { result ≡ bad_for entries.now entry max }
{
    let greatest = greatest_max(entries, entry);
    if max.0 < 0 || greatest.0 < max.0 {
        return Some(Refusal::OutOfRange { max: greatest });
    }
    None
}

/// The slots of a quiz that is ready stay.
fn already_ready(book: &Book, quiz: u32) -> Option<Refusal>
    requires { IsIndexed book.now }
    ensures { result ≡ already_ready book.now.records.items quiz }
{
    match ready_at(book, quiz) {
        Some(place) => Some(Refusal::Closed { place }),
        None => None,
    }
}

fn slot_cause(book: &Book, quiz: u32, entry: u32, max: Mark) -> Option<Refusal>
    requires { IsIndexed book.now }
    ensures { result ≡ first_some (already_ready book.now.records.items quiz ∷ bad_max book.now.records.items entry max ∷ too_many MOST_SLOTS (length (slots book.now.records.items quiz)) ∷ []) }
{
    already_ready(book, quiz)
        .or(bad_max(&book.entries, entry, max))
        .or(too_many(MOST_SLOTS, slot_count(book, quiz)))
}

fn remax_cause(book: &Book, quiz: u32, slot: u16, max: Mark) -> Option<Refusal>
    requires { IsIndexed book.now }
    ensures { result ≡ bad_max book.now.records.items (slot_entry book.now.records.items quiz slot) max }
{
    bad_max(&book.entries, slot_entry(book, quiz, slot), max)
}

/// A quiz that isn't ready has nothing to bind anew.
fn regrade_cause(book: &Book, quiz: u32) -> Option<Refusal>
    requires { IsIndexed book.now }
    ensures { result ≡ first_some (when (not (is_ready book.now.records.items quiz)) (refusal.NotOpen 0) ∷ too_many MOST_JOBS (length (jobs book.now.records.items)) ∷ []) }
{
    if !is_ready(book, quiz) {
        return Some(Refusal::NotOpen { opens: 0 });
    }
    too_many(MOST_JOBS, book.roster.counts.jobs())
}

/// The first cause for which a request is refused under this key, but for those of an entry's new version.
pub(crate) fn early_cause(book: &Book, key: &Option<Text>, request: &Request) -> Option<Refusal>
    requires indexed { IsIndexed book.now }
    requires few { length (catalog.entries book.now.records.items) ≤ MOST_ENTRIES }
    ensures { result ≡ early_cause book.now.records.items key.now request.now }
{
    match request {
        Request::User { token, .. } => user_cause(book, token),
        Request::Group { .. } => too_many(MOST_GROUPS, book.roster.counts.groups()),
        Request::Import { gift } => import_cause(book, key, gift),
        Request::Quiz { .. } => too_many(MOST_QUIZZES, book.roster.quizzes.count()),
        Request::Slot { quiz, entry, max } => slot_cause(book, *quiz, *entry, *max),
        Request::Ready { quiz } => already_ready(book, *quiz),
        Request::Remax { quiz, slot, max } => remax_cause(book, *quiz, *slot, *max),
        Request::Override { .. } => too_many(MOST_OVERRIDES, book.roster.overrides.count()),
        Request::Regrade { quiz } => regrade_cause(book, *quiz),
        _ => None,
    }
}
