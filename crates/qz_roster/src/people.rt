//! Users by token, and the keys of their requests.

ghost use Rattle.std.specs.Prelude.{◌≡◌, ℕ, ◌+◌, ◌-◌, ◌<◌, ◌≤◌, ◌^◌, List, [], ◌∷◌, ◌++◌, length, option_map, option_to_list, is_some, position, true, Some, None, OnOk, vec_len, vec_capacity};
ghost use Rattle.std.specs.Int.{from_bool};
ghost use Rattle.std.specs.Option.{option_or};
ghost use Rattle.qz_terms.specs.declared.record.Record.{Record};
ghost use Rattle.qz_terms.specs.Catalog.{Person, made_user, users};
ghost use Rattle.qz_terms.specs.Legal.{IsAllowedInCatalog};

use crate::texts;
use crate::texts::Texts;
use crate::told::{asked_key, made_role, made_token};
use qz_terms::{Record, Role};
use qz_text::{NoMemory, Text};
use std::alloc::Global;
use std::collections::BTreeMap;

/// A user's number, from 1, and the place, from 0, of the record that made the user.
#[derive(Clone, Copy)]
pub struct Owner {
    pub number: u32,
    pub at: usize,
}

/// Whose token it is, by token, and for each user, in order of number, the role and the places, from 0, of the keys of the user's
/// requests. Of two records the first counts.
#[derive(Drop)]
pub struct People {
    tokens: Texts<Owner>,
    keys: Vec<Texts<usize>>,
    roles: Vec<Role>,
}

impl People {
    ghost use Rattle.qz_roster.specs.People.{ArePeopleOf, HasKeyRoom, HasPeopleRoom, HasUserRoom, asked_key, is_asked_with, is_called, key_at, key_told, owner_of, owner_told, role_of, role_told};

    /// No users. It takes no memory.
    pub(crate) fn new(alloc: Global) -> People
        ensures { ArePeopleOf [] result }
    {
        People {
            tokens: BTreeMap::new(alloc),
            keys: Vec::new(alloc),
            roles: Vec::new(alloc),
        }
    }

    /// How many users there are.
    pub fn count(&self) -> usize
        ensures value { (c : List Record) → ArePeopleOf c self.now → result ≡ length (users c) }
        ensures few { (c : List Record) → ArePeopleOf c self.now → result ≤ length c }
    {
        self.keys.len()
    }

    /// Whose token it is.
    pub fn owner(&self, token: &Text) -> Option<Owner>
        ensures { result ≡ owner_of self.now token.now }
    {
        texts::value_at(&self.tokens, token)
    }

    /// The role of a user, if the user is there.
    pub fn role(&self, number: u32) -> Option<Role>
        ensures { result ≡ role_of self.now number }
    {
        self.roles.get((number as usize).checked_sub(1)?).copied()
    }

    /// The place, from 0, of the first record that a request with this caller and key made.
    pub fn place_of(&self, caller: u32, key: &Text) -> Option<usize>
        ensures { (c : List Record) → ArePeopleOf c self.now → result ≡ position (is_asked_with caller key.now) c }
    {
        let before = (caller as usize).checked_sub(1)?;
        texts::value_at(self.keys.get(before)?, key)
    }

    /// Makes room for what a record tells.
    pub(crate) fn make_room(&mut self, alloc: Global, record: &Record) -> Result<(), NoMemory>
        requires { is_called (length self.old.keys.items) «record».now ≡ true }
        ensures room { OnOk result (HasPeopleRoom self.new «record».now) }
        ensures unchanged { (c : List Record) → ArePeopleOf c self.old → ArePeopleOf c self.new }
    {
        self.roles.reserve(1)?;
        self.make_user_room(alloc, record)?;
        self.make_key_room(alloc, record)
    }

    fn make_user_room(&mut self, alloc: Global, record: &Record) -> Result<(), NoMemory>
        ensures room { OnOk result ((t : List ℕ) → option_map (λ (u : Person). u.token) (made_user «record».now) ≡ Some t → HasUserRoom self.new t) }
        ensures keys { self.new.keys.items ≡ self.old.keys.items }
        ensures roles { self.new.roles ≡ self.old.roles }
        ensures tokens { (t : List ℕ) → owner_of self.new t ≡ owner_of self.old t }
    {
        let Some(token) = made_token(record) else {
            return Ok(());
        };
        self.keys.reserve(1)?;
        texts::make_room(alloc, &mut self.tokens, token)
    }

    fn make_key_room(&mut self, alloc: Global, record: &Record) -> Result<(), NoMemory>
        requires { is_called (length self.old.keys.items) «record».now ≡ true }
        ensures room { OnOk result ((k : List ℕ) → asked_key «record».now ≡ Some k → HasKeyRoom self.new «record».now.caller k) }
        ensures count { length self.new.keys.items ≡ length self.old.keys.items }
        ensures capacity { vec_capacity self.new.keys ≡ vec_capacity self.old.keys }
        ensures keys { (caller : ℕ) (k : List ℕ) → key_at self.new caller k ≡ key_at self.old caller k }
        ensures roles { self.new.roles ≡ self.old.roles }
        ensures tokens { self.new.tokens ≡ self.old.tokens }
    {
        match asked_key(record) {
            Some(key) => {
                texts::make_room(alloc, &mut self.keys[record.caller as usize - 1], key)
            }
            None => Ok(()),
        }
    }

    /// Keeps what a record tells that stands behind these. It takes no memory.
    pub(crate) fn keep(&mut self, alloc: Global, records: &[Record], record: &Record)
        requires people { ArePeopleOf records.now self.old }
        requires few { length records.now < 2 ^ 32 - 1 }
        requires room { HasPeopleRoom self.old «record».now }
        ensures { ArePeopleOf (records.now ++ «record».now ∷ []) self.new }
    {
        self.keep_key(record, records.len());
        self.keep_user(alloc, record, records.len());
        self.keep_role(record);
    }

    fn keep_role(&mut self, record: &Record)
        requires { vec_len self.old.roles < vec_capacity self.old.roles }
        ensures roles { self.new.roles.items ≡ self.old.roles.items ++ option_to_list (role_told «record».now) }
        ensures keys { self.new.keys.items ≡ self.old.keys.items }
        ensures tokens { self.new.tokens ≡ self.old.tokens }
    {
        if let Some(role) = made_role(record) {
            self.roles.push(role).unwrap();
        }
    }

    fn keep_key(&mut self, record: &Record, place: usize)
        requires { (k : List ℕ) → asked_key «record».now ≡ Some k → HasKeyRoom self.old «record».now.caller k }
        ensures keys { (n : ℕ) (k : List ℕ) → key_at self.new n k ≡ option_or (key_at self.old n k) (key_told «record».now place n k) }
        ensures count { length self.new.keys.items ≡ length self.old.keys.items }
        ensures capacity { vec_capacity self.new.keys ≡ vec_capacity self.old.keys }
        ensures roles { self.new.roles ≡ self.old.roles }
        ensures tokens { self.new.tokens ≡ self.old.tokens }
    {
        if let Some(key) = asked_key(record) {
            texts::give(&mut self.keys[record.caller as usize - 1], key, place);
        }
    }

    fn keep_user(&mut self, alloc: Global, record: &Record, place: usize)
        requires few { length self.old.keys.items < 2 ^ 32 - 1 }
        requires room { (t : List ℕ) → option_map (λ (u : Person). u.token) (made_user «record».now) ≡ Some t → HasUserRoom self.old t }
        ensures keys { (n : ℕ) (k : List ℕ) → key_at self.new n k ≡ key_at self.old n k }
        ensures roles { self.new.roles ≡ self.old.roles }
        ensures count { length self.new.keys.items ≡ length self.old.keys.items + from_bool (is_some (made_user «record».now)) }
        ensures tokens { (t : List ℕ) → owner_of self.new t ≡ option_or (owner_of self.old t) (owner_told «record».now (1 + length self.old.keys.items) place t) }
    {
        if let Some(token) = made_token(record) {
            self.keys.push(BTreeMap::new(alloc)).unwrap();
            let owner = Owner {
                number: self.keys.len() as u32,
                at: place,
            };
            texts::give(&mut self.tokens, token, owner);
        }
    }
}
