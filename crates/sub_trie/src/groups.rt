//! Serials in order of opening, each under a key.

ghost use Rattle.std.specs.Prelude.{◌≡◌, true, [], ◌∷◌, ◌++◌, filter, OnOk, OnErr, if◌then◌else◌};
ghost use Rattle.sub_trie.specs.Groups.{list_at, first_of, is_other};

use std::alloc::{AllocError, Global};
use std::collections::HashMap;
use std::hash::Hash;

/// Puts a serial behind those of the key. Want of memory leaves all as it was.
pub(crate) fn push_serial<K: Eq + Hash + Drop>(
    alloc: Global,
    groups: &mut HashMap<K, Vec<u64>>,
    key: K,
    serial: u64,
) -> Result<(), AllocError>
    ensures ok { OnOk result ((q : K)
        → list_at K.eq groups.new q
        ≡ (if K.eq key q then list_at K.eq groups.old key ++ serial ∷ []
        else list_at K.eq groups.old q)) }
    ensures err { OnErr result ((q : K) → list_at K.eq groups.new q ≡ list_at K.eq groups.old q) }
{
    if let Some(list) = groups.get_mut(&key) {
        if list.push(serial).is_err() {
            return Err(AllocError);
        }
        return Ok(());
    }
    let mut list = Vec::new(alloc);
    list.push(serial)?;
    groups.insert(key, list)?;
    Ok(())
}

/// Whether the serial is all that there is under the key.
fn is_alone<K: Eq + Hash + Drop>(groups: &HashMap<K, Vec<u64>>, key: &K, serial: u64) -> bool
    ensures { result ≡ true → list_at K.eq groups.now key.now ≡ serial ∷ [] }
{
    match groups.get(key) {
        Some(list) => list.as_slice() == [serial].as_slice(),
        None => false,
    }
}

/// Takes a serial out of a list.
fn take_out(list: &mut Vec<u64>, serial: u64)
    ensures { list.new.items ≡ filter (is_other serial) list.old.items }
{
    list.retain(|held| *held != serial);
}

/// Takes the serial away from the key, and the key with its last. Takes no memory.
pub(crate) fn take_serial<K: Eq + Hash + Drop>(
    groups: &mut HashMap<K, Vec<u64>>,
    key: &K,
    serial: u64,
)
    ensures { (q : K)
        → list_at K.eq groups.new q
        ≡ (if K.eq key.now q then filter (is_other serial) (list_at K.eq groups.old key.now)
        else list_at K.eq groups.old q) }
{
    if is_alone(groups, key, serial) {
        groups.remove(key);
        return;
    }
    if let Some(list) = groups.get_mut(key) {
        take_out(list, serial);
    }
}

/// Takes the key away with its serials, and gives these. Takes no memory.
pub(crate) fn take_all<K: Eq + Hash + Drop>(
    alloc: Global,
    groups: &mut HashMap<K, Vec<u64>>,
    key: &K,
) -> Vec<u64>
    ensures given { result.items ≡ list_at K.eq groups.old key.now }
    ensures left { (q : K)
        → list_at K.eq groups.new q ≡ (if K.eq key.now q then [] else list_at K.eq groups.old q) }
{
    match groups.remove(key) {
        Some(list) => list,
        None => Vec::new(alloc),
    }
}

/// The serials under the key, in order. Takes no memory.
pub(crate) fn serials_under<'a, K: Eq + Hash + Drop>(
    groups: &'a HashMap<K, Vec<u64>>,
    key: &K,
) -> &'a [u64]
    ensures { result.now ≡ list_at K.eq groups.now key.now }
{
    match groups.get(key) {
        Some(list) => list.as_slice(),
        None => &[],
    }
}

/// The first serial under the key. Takes no memory.
pub(crate) fn first_serial<K: Eq + Hash + Drop>(
    groups: &HashMap<K, Vec<u64>>,
    key: &K,
) -> Option<u64>
    ensures { result ≡ first_of (list_at K.eq groups.now key.now) }
{
    match groups.get(key) {
        Some(list) => list.first().copied(),
        None => None,
    }
}

/// Puts the serials under the key behind those that are there. Want of memory leaves the list as it was.
pub(crate) fn copy_serials<K: Eq + Hash + Drop>(
    groups: &HashMap<K, Vec<u64>>,
    key: &K,
    serials: &mut Vec<u64>,
) -> Result<(), AllocError>
    ensures ok { OnOk result
        (serials.new.items ≡ serials.old.items ++ list_at K.eq groups.now key.now) }
    ensures err { OnErr result (serials.new.items ≡ serials.old.items) }
{
    match groups.get(key) {
        Some(list) => serials.extend_from_slice(list),
        None => Ok(()),
    }
}
