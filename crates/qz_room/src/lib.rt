//! Room in a map: an entry that is made before it is needed, with a value that says nothing yet.
#![tactic(auto)]

ghost use Rattle.std.specs.Prelude.{◌≡◌, IsSome, OnOk, Some, unwrap_or};
ghost use Rattle.std.specs.BTreeMap.{Updates, get};

use qz_text::NoMemory;
use std::collections::BTreeMap;

/// Makes an entry, if the key has none. To one who reads `value` where there is no entry, nothing changes.
pub fn make<K: Ord + Drop, V: Drop>(
    map: &mut BTreeMap<K, V>,
    key: K,
    value: V,
) -> Result<(), NoMemory>
    ensures room { OnOk result (IsSome (get K.cmp map.new key)) }
    ensures kept { (q : K) → IsSome (get K.cmp map.old q) → IsSome (get K.cmp map.new q) }
    ensures same { (q : K) → unwrap_or (get K.cmp map.new q) value ≡ unwrap_or (get K.cmp map.old q) value }
{
    if !map.contains_key(&key) {
        map.insert(key, value)?;
    }
    Ok(())
}

/// Changes the value of a key that has an entry. It takes no memory.
pub fn fill<K: Ord + Drop, V: Drop>(map: &mut BTreeMap<K, V>, key: K, value: V)
    requires { IsSome (get K.cmp map.old key) }
    ensures { Updates K.cmp map.old map.new key (Some value) }
{
    match map.insert(key, value) {
        Ok(_) => {}
        Err(_) => unreachable!(),
    }
}
