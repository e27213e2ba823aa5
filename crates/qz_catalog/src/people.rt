//! What a catalogue tells of users.

ghost use Rattle.std.specs.Prelude.{◌≡◌, map, option_copied, option_map, IfOk};
ghost use Rattle.qz_terms.specs.declared.people.User.{User};
ghost use Rattle.qz_terms.specs.Catalog.{made_user, token_place, user_of_token, user_with, users};
ghost use Rattle.qz_catalog.specs.Holdings.{IsIndexed};
ghost use Rattle.qz_catalog.specs.Readings.{made_name, user_in};

use crate::book::Book;
use qz_terms::{Event, Record, Request, Role, User};
use qz_text::{Listed, NoMemory, Text, TryCopy};
use std::alloc::Global;

/// The name of the manager of the founding.
const MANAGER: &str = "admin";

/// A user, as its record made it.
#[derive(Clone, Copy)]
pub(crate) struct Made<'a> {
    pub number: u32,
    pub name: &'a str,
    pub role: Role,
    pub token: &'a Text,
}

/// A copy of a user.
pub(crate) fn user(alloc: Global, made: &Made) -> Result<User, NoMemory>
    ensures { IfOk result (λ user. user ≡ user_in made.now) }
{
    Ok(User {
        number: made.number,
        name: Text::of(alloc, made.name)?,
        role: made.role,
        token: made.token.try_copy(alloc)?,
    })
}

/// The user that a record makes, with this number. The first is the manager of the founding.
fn made_user(number: u32, record: &Record) -> Option<Made>
    ensures { option_map user_in result ≡ option_map (user_with number) (made_user «record».now) }
{
    match &record.event {
        Event::Founded { token, .. } => Some(Made {
            number,
            name: MANAGER,
            role: Role::Manager,
            token,
        }),
        Event::Asked {
            request: Request::User { name, role, token },
        } => Some(Made {
            number,
            name: name.as_str(),
            role: *role,
            token,
        }),
        _ => None,
    }
}

/// The name of the user that a record makes.
fn made_name(record: &Record) -> Option<&str>
    ensures { option_copied result ≡ made_name «record».now }
{
    match &record.event {
        Event::Founded { .. } => Some(MANAGER),
        Event::Asked {
            request: Request::User { name, .. },
        } => Some(name.as_str()),
        _ => None,
    }
}

/// The users' names, in order of number.
pub(crate) fn names(alloc: Global, records: &[Record]) -> Result<Listed<Text>, NoMemory>
    ensures { IfOk result (λ found. found ≡ map (λ (u : User). u.name) (users records.now)) }
{
    let mut items = Vec::new(alloc);
    for record in records {
        if let Some(name) = made_name(record) {
            items.push(Text::of(alloc, name)?)?;
        }
    }
    Ok(Listed { items })
}

/// The user who is known by a token.
pub(crate) fn user_of_token<'a>(book: &'a Book, token: &Text) -> Option<Made<'a>>
    requires { IsIndexed book.now }
    ensures { option_map user_in result ≡ user_of_token book.now.records.items token.now }
{
    let owner = book.roster.people.owner(token)?;
    made_user(owner.number, &book.records[owner.at])
}

/// The place, from 1, of the record that made the user of a token, if there is one.
pub(crate) fn token_place(book: &Book, token: &Text) -> Option<u64>
    requires { IsIndexed book.now }
    ensures { result ≡ token_place book.now.records.items token.now }
{
    let owner = book.roster.people.owner(token)?;
    Some(owner.at as u64 + 1)
}
