//! Values by text. A text may have room before it has a value.

ghost use Rattle.std.specs.Prelude.{◌≡◌, ℕ, List, Some, None, true, if◌then◌else◌, bytes_eq, OnOk};
ghost use Rattle.std.specs.Option.{option_or};
ghost use Rattle.qz_roster.specs.Texts.{has_room, value_at};

use qz_text::{NoMemory, Text};
use std::alloc::Global;
use std::collections::BTreeMap;

/// Values by text.
pub(crate) type Texts<V> = BTreeMap<String, Option<V>>;

/// The value of a text, if it has one.
pub(crate) fn value_at<V: Copy>(texts: &Texts<V>, text: &Text) -> Option<V>
    ensures { result ≡ value_at texts.now text.now }
{
    match texts.get(text.as_str()) {
        Some(value) => *value,
        None => None,
    }
}

/// Makes room for the value of a text.
pub(crate) fn make_room<V: Copy>(
    alloc: Global,
    texts: &mut Texts<V>,
    text: &Text,
) -> Result<(), NoMemory>
    ensures room { OnOk result (has_room texts.new text.now ≡ true) }
    ensures unchanged { (t : List ℕ) → value_at texts.new t ≡ value_at texts.old t }
{
    if texts.contains_key(text.as_str()) {
        return Ok(());
    }
    texts.insert(String::from_str(alloc, text.as_str())?, None)?;
    Ok(())
}

/// Gives a text a value, if it has none yet. It takes no memory.
pub(crate) fn give<V: Copy>(texts: &mut Texts<V>, text: &Text, value: V)
    requires { has_room texts.old text.now ≡ true }
    ensures { (t : List ℕ) → value_at texts.new t ≡ option_or (value_at texts.old t) (if bytes_eq text.now t then Some value else None) }
{
    match texts.get_mut(text.as_str()) {
        Some(place) => *place = place.or(Some(value)),
        None => unreachable!(),
    }
}
