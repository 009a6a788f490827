//! Maps by the identity of a command, by another number and by a text.

ghost use Rattle.std.specs.Prelude.{◌≡◌, ◌≢◌, ℕ, List, OnOk, Some};
ghost use Rattle.std.specs.BTreeMap.{Updates, get_by_text};
ghost use Rattle.std.specs.Ordering.{nat_cmp};
ghost use Rattle.mencius_judge.specs.Tables.{identity_key};

use mencius_base::{CommandId, NoMemory};
use std::alloc::Global;
use std::collections::BTreeMap;

// The number of different command numbers of a client.
const NUMBER_COUNT: u64 = 1 << 32;

/// Returns an identity as a single number.
pub fn identity_key(id: CommandId) -> u64
    ensures { result ≡ identity_key id }
{
    u64::from(id.client) * NUMBER_COUNT + u64::from(id.number)
}

/// Binds a number to `value`, or fails with `NoMemory`.
pub fn put<V: Drop>(map: &mut BTreeMap<u64, V>, key: u64, value: V) -> Result<(), NoMemory>
    ensures { OnOk result (Updates nat_cmp map.old map.new key (Some value)) }
{
    map.insert(key, value)?;
    Ok(())
}

/// Binds `text` to `value`, or fails with `NoMemory`.
pub fn put_text<V: Drop>(
    alloc: Global,
    map: &mut BTreeMap<String, V>,
    text: &str,
    value: V,
) -> Result<(), NoMemory>
    ensures own { OnOk result (get_by_text map.new text.now ≡ Some value) }
    ensures others { OnOk result ((x : List ℕ) → x ≢ text.now
        → get_by_text map.new x ≡ get_by_text map.old x) }
{
    let text = String::from_str(alloc, text)?;
    map.insert(text, value)?;
    Ok(())
}
