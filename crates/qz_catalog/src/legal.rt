//! Whether a record may stand behind those of a catalogue: some user's request would put it there.

ghost use Rattle.std.specs.Bool.{Decides};
ghost use Rattle.std.specs.Prelude.{◌≡◌, ◌≤◌, ◌∷◌, [], length, is_none, None, true, IfOk};
ghost use Rattle.qz_terms.specs.Catalog.{entries};
ghost use Rattle.qz_terms.specs.CatalogAnswer.{keeps_record};
ghost use Rattle.qz_terms.specs.Cause.{cause_in, missing_in};
ghost use Rattle.qz_terms.specs.Kept.{IsKept};
ghost use Rattle.qz_terms.specs.Legal.{IsAllowedInCatalog};
ghost use Rattle.qz_catalog.specs.Allowed.{can_be_asked, can_stand, is_change, is_permitted};
ghost use Rattle.qz_catalog.specs.Applying.{bank_cause, stand_in};
ghost use Rattle.qz_catalog.specs.Holdings.{IsIndexed};

use crate::absent::missing_in;
use crate::book::Book;
use crate::causes::early_cause;
use crate::keys::by_key;
use crate::putting::{moment_of, prepare};
use qz_bank::Entries;
use qz_grading::Refusal;
use qz_terms::{Event, Record, Request, Role, User, forbidden};
use qz_text::{NoMemory, Text};
use std::alloc::Global;

/// A user of this number and this role, without a name or a token: what a user may ask depends on neither.
fn nameless(alloc: Global, number: u32, role: Role) -> Result<User, NoMemory>
    ensures { IfOk result (λ user. (user.number ≡ number) × (user.role ≡ role)) }
{
    Ok(User {
        number,
        name: Text::of(alloc, "")?,
        role,
        token: Text::of(alloc, "")?,
    })
}

/// Whether the user of this number is there and may ask this.
fn is_permitted(
    alloc: Global,
    book: &Book,
    number: u32,
    request: &Request,
) -> Result<bool, NoMemory>
    requires { IsIndexed book.now }
    ensures { IfOk result (λ b. b ≡ is_permitted book.now.records.items number request.now) }
{
    let Some(role) = book.roster.people.role(number) else {
        return Ok(false);
    };
    let user = nameless(alloc, number, role)?;
    Ok(forbidden(&user, request).is_none())
}

/// Whether a request gives an entry a new version.
fn is_change(request: &Request) -> bool
    ensures { result ≡ is_change request.now }
{
    matches!(request, Request::Edit { .. } | Request::Tune { .. })
}

/// Whether the bank can be changed so.
fn can_change(alloc: Global, entries: &Entries, request: &Request) -> Result<bool, NoMemory>
    ensures { IfOk result (λ b. Decides b (bank_cause entries.now request.now ≡ None)) }
{
    match prepare(alloc, entries, request) {
        Ok(prepared) => {
            drop(prepared);
            Ok(true)
        }
        Err(Refusal::Memory) => Err(NoMemory),
        Err(_) => Ok(false),
    }
}

/// Whether a request that names what is there has no cause to be refused under this key. Only a new version's own causes take memory.
fn is_causeless(
    alloc: Global,
    book: &Book,
    key: &Option<Text>,
    request: &Request,
) -> Result<bool, NoMemory>
    requires indexed { IsIndexed book.now }
    requires few { length (entries book.now.records.items) ≤ 20000 }
    requires there { missing_in book.now.records.items request.now ≡ None }
    ensures { IfOk result (λ b. b ≡ is_none (cause_in book.now.records.items (stand_in key.now request.now) request.now)) }
{
    if early_cause(book, key, request).is_some() {
        return Ok(false);
    }
    if !is_change(request) {
        return Ok(true);
    }
    can_change(alloc, &book.entries, request)
}

/// Whether nothing stands against a request of this caller under this key.
fn can_be_asked(
    alloc: Global,
    book: &Book,
    caller: u32,
    key: &Option<Text>,
    request: &Request,
) -> Result<bool, NoMemory>
    requires indexed { IsIndexed book.now }
    requires keeps { keeps_record request.now ≡ true }
    ensures { IfOk result (λ b. b ≡ can_be_asked book.now.records.items caller key.now request.now) }
{
    if key.is_none() || !is_permitted(alloc, book, caller, request)? {
        return Ok(false);
    }
    if missing_in(book, request).is_some() || by_key(book, caller, key, request).is_some() {
        return Ok(false);
    }
    is_causeless(alloc, book, key, request)
}

/// Whether a record may stand behind the list: the tests that take no memory come first.
fn can_stand(alloc: Global, book: &Book, made: &Record) -> Result<bool, NoMemory>
    requires indexed { IsIndexed book.now }
    requires kept { IsKept made.now }
    ensures { IfOk result (λ b. b ≡ can_stand book.now.records.items made.now) }
{
    let Event::Asked { request } = &made.event else {
        return Ok(false);
    };
    if made.owner != 0
        || made.terms.is_some()
        || moment_of(&book.records, made.moment) != made.moment
    {
        return Ok(false);
    }
    can_be_asked(alloc, book, made.caller, &made.key, request)
}

/// Whether a record is allowed behind the list, which isn't empty.
pub(crate) fn is_allowed(alloc: Global, book: &Book, made: &Record) -> Result<bool, NoMemory>
    requires indexed { IsIndexed book.now }
    requires kept { IsKept made.now }
    ensures { IfOk result (λ b. Decides b (IsAllowedInCatalog book.now.records.items made.now)) }
{
    can_stand(alloc, book, made)
}

/// Whether a record may stand behind no record.
pub(crate) fn can_begin(made: &Record) -> bool
    ensures { Decides result (IsAllowedInCatalog [] made.now) }
{
    made.owner == 0 && made.terms.is_none() && matches!(made.event, Event::Founded { .. })
}
