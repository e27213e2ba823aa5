//! Whether a database has the tables, and nothing else.

ghost use Rattle.std.specs.Prelude.{◌≡◌, ◌↔◌, ◌∷◌, [], codes, Some, None, true, IsTrue};
ghost use Rattle.sqlite_schema.specs.declared.schema.Kind.TheVariants.{Integer};
ghost use Rattle.qz_sqltables.specs.Schema.{
  attempts_at,
  column_of,
  first_two,
  index_of,
  keeper_schema,
  key_indexes,
  no_schema,
  no_stamps,
  record_table,
  replies_at,
  rising,
  steps_at,
  table_of,
  to_attempt,
};

use sqlite_items::Items;
use sqlite_schema::code::Terms;
use sqlite_schema::schema::{Action, Column, Index, Kind, Reference, Schema, Stamps, Table};
use sqlite_value::keys::{Collation, Order};
use sqlite_value::value::{Bytes, Value};

// ---- columns

fn is_null(value: &Value) -> bool
    ensures { IsTrue result ↔ (value.now ≡ Value.Null) }
{
    matches!(value, Value::Null)
}

fn is_name(bytes: &Bytes, name: &str) -> bool
    ensures { IsTrue result ↔ (bytes.now ≡ name.now) }
{
    bytes.as_slice() == name.as_bytes()
}

// A column of a table that isn't strict.
fn is_column(column: &Column, name: &str, kind: Kind, not_null: bool) -> bool
    ensures { IsTrue result ↔ (column.now ≡ column_of name.now kind not_null) }
{
    is_name(&column.name, name)
        && column.kind == kind
        && !column.is_strict
        && column.not_null == not_null
        && is_null(&column.default)
        && column.collation == Collation::Binary
}

// A column of numbers that are always there.
fn is_number(column: &Column, name: &str) -> bool
    ensures { IsTrue result ↔ (column.now ≡ column_of name.now Integer true) }
{
    is_column(column, name, Kind::Integer, true)
}

// ---- keys

fn is_first_two(places: &Items<usize>) -> bool
    ensures { IsTrue result ↔ (places.now ≡ first_two) }
{
    places.as_slice() == [1, 2].as_slice()
}

fn is_first(places: &Items<usize>) -> bool
    ensures { IsTrue result ↔ (places.now ≡ 0 ∷ []) }
{
    places.as_slice() == [0].as_slice()
}

// No two rows have the same first two columns.
fn has_first_two(keys: &Items<Items<usize>>) -> bool
    ensures { IsTrue result ↔ (keys.now ≡ first_two ∷ []) }
{
    match keys.as_slice() {
        [key] => is_first_two(key),
        _ => false,
    }
}

fn has_rising(orders: &Items<Order>) -> bool
    ensures { IsTrue result ↔ (orders.now ≡ rising ∷ []) }
{
    match orders.as_slice() {
        [order] => order.digits == 0,
        _ => false,
    }
}

fn refers_to_attempt(reference: &Reference) -> bool
    ensures { IsTrue result ↔ (reference.now ≡ to_attempt) }
{
    reference.columns.as_slice() == [2, 3].as_slice()
        && is_name(&reference.parent, "attempt")
        && are_owner_and_nth(&reference.parent_columns)
        && reference.on_delete == Action::NoAction
        && reference.on_update == Action::NoAction
        && !reference.is_deferred
}

fn are_owner_and_nth(names: &Items<Bytes>) -> bool
    ensures { IsTrue result ↔ (names.now ≡ codes "owner" ∷ codes "nth" ∷ []) }
{
    match names.as_slice() {
        [owner, nth] => is_name(owner, "owner") && is_name(nth, "nth"),
        _ => false,
    }
}

// ---- tables

// A table without another key than its rowid.
fn is_keyed_by_place(table: &Table) -> bool
    ensures { IsTrue result ↔ ((table.now.key ≡ Some 0) × (table.now.primary ≡ 0 ∷ [])
        × (table.now.uniques ≡ []) × (table.now.orders ≡ [])) }
{
    table.key == Some(0)
        && is_first(&table.primary)
        && table.uniques.is_empty()
        && table.orders.is_empty()
}

fn is_keyed_by_first_two(table: &Table) -> bool
    ensures { IsTrue result ↔ ((table.now.key ≡ None) × (table.now.primary ≡ first_two)
        × (table.now.uniques ≡ first_two ∷ []) × (table.now.orders ≡ rising ∷ [])) }
{
    table.key.is_none()
        && is_first_two(&table.primary)
        && has_first_two(&table.uniques)
        && has_rising(&table.orders)
}

fn is_nothing(terms: &Terms) -> bool
    ensures { IsTrue result ↔ (terms.now ≡ []) }
{
    terms.roots.is_empty()
}

fn reads_no_time(stamps: &Stamps) -> bool
    ensures { IsTrue result ↔ (stamps.now ≡ no_stamps) }
{
    stamps.places.is_empty() && is_nothing(&stamps.terms) && stamps.formats.is_empty()
}

// A table of this name that checks, computes and counts nothing.
fn is_plain(table: &Table, name: &str, tree: u32) -> bool
    ensures { IsTrue result ↔ (table.now ≡ record (table_of name.now table.now.columns
        table.now.key table.now.primary table.now.uniques table.now.orders table.now.references)
        { tree = tree }) }
{
    is_name(&table.name, name)
        && table.tree == tree
        && is_nothing(&table.checks)
        && table.computed.is_empty()
        && reads_no_time(&table.stamps)
        && !table.is_counted
}

fn is_record(table: &Table) -> bool
    ensures { IsTrue result ↔ (table.now ≡ record_table) }
{
    let [place, payload] = table.columns.as_slice() else {
        return false;
    };
    is_plain(table, "record", 0)
        && is_keyed_by_place(table)
        && table.references.is_empty()
        && is_column(place, "place", Kind::Integer, false)
        && is_column(payload, "payload", Kind::Any, true)
}

fn is_attempt(table: &Table) -> bool
    ensures { IsTrue result ↔ (table.now ≡ attempts_at) }
{
    let [owner, nth, quiz, status] = table.columns.as_slice() else {
        return false;
    };
    is_plain(table, "attempt", 1)
        && is_keyed_by_first_two(table)
        && table.references.is_empty()
        && is_number(owner, "owner")
        && is_number(nth, "nth")
        && is_number(quiz, "quiz")
        && is_number(status, "status")
}

fn is_step(table: &Table) -> bool
    ensures { IsTrue result ↔ (table.now ≡ steps_at) }
{
    let [place, owner, nth, slot] = table.columns.as_slice() else {
        return false;
    };
    let [reference] = table.references.as_slice() else {
        return false;
    };
    is_plain(table, "step", 3)
        && is_keyed_by_place(table)
        && refers_to_attempt(reference)
        && is_column(place, "place", Kind::Integer, false)
        && is_number(owner, "owner")
        && is_number(nth, "nth")
        && is_number(slot, "slot")
}

fn is_reply(table: &Table) -> bool
    ensures { IsTrue result ↔ (table.now ≡ replies_at) }
{
    let [caller, word, place] = table.columns.as_slice() else {
        return false;
    };
    is_plain(table, "reply", 4)
        && is_keyed_by_first_two(table)
        && table.references.is_empty()
        && is_number(caller, "caller")
        && is_column(word, "word", Kind::Text, true)
        && is_number(place, "place")
}

// ---- schemas

// The index of the first two columns of a table.
fn is_index(index: &Index, name: &str, tree: u32, table: u32) -> bool
    ensures { IsTrue result ↔ (index.now ≡ index_of name.now tree table) }
{
    is_name(&index.name, name)
        && index.tree == tree
        && index.table == table
        && is_first_two(&index.columns)
        && index.order.digits == 0
        && index.is_unique
}

// The indexes of the keys of `attempt` and `reply`, which SQLite makes and names.
fn has_indexes(schema: &Schema) -> bool
    ensures { IsTrue result ↔ (schema.now.indexes ≡ key_indexes) }
{
    let [attempts, replies] = schema.indexes.as_slice() else {
        return false;
    };
    is_index(attempts, "sqlite_autoindex_attempt_1", 2, 1)
        && is_index(replies, "sqlite_autoindex_reply_1", 5, 4)
}

fn has_tables(schema: &Schema) -> bool
    ensures { IsTrue result ↔ (schema.now.tables ≡ keeper_schema.tables) }
{
    let [records, attempts, steps, replies] = schema.tables.as_slice() else {
        return false;
    };
    is_record(records) && is_attempt(attempts) && is_step(steps) && is_reply(replies)
}

/// Whether a database has the tables of a keeper, and nothing else.
pub fn is_keepers(schema: &Schema) -> bool
    ensures { IsTrue result ↔ (schema.now ≡ keeper_schema) }
{
    has_tables(schema) && has_indexes(schema) && schema.views.is_empty()
}

/// Whether a database has nothing yet.
pub fn is_blank(schema: &Schema) -> bool
    ensures { IsTrue result ↔ (schema.now ≡ no_schema) }
{
    schema.tables.is_empty() && schema.indexes.is_empty() && schema.views.is_empty()
}
