//! Many keys take their numbers at once.

ghost use Rattle.std.specs.Prelude.{◌≡◌, ◌≤◌, ◌+◌, ◌++◌, [], length, is_some, option_to_list, vec_len, vec_capacity};
ghost use Rattle.std.specs.List.Sorted.{IsStrictlySortedBy};
ghost use Rattle.std.specs.Map.{keys_of};
ghost use Rattle.subj.specs.Keys.{key_cmp};
ghost use Rattle.interest.specs.Recounts.{is_first_below, is_first_at, below, from_key, without_first, one_if, with_numbers};

use crate::ordered_keys::OrderedKey;
use std::cmp::Ordering;
use std::collections::{BTreeMap, VecDeque};
use subj::Key;

/// A key with the number of its open subscriptions.
pub(crate) type Entry = (Key, u64);

/// What deltas make of counts, found before anything is changed.
#[derive(Drop)]
pub enum Recount {
    /// Few deltas are counted one by one: the keys that they open and that had no open subscription, in
    /// order.
    Few(VecDeque<Key>),
    /// Many deltas are counted at once.
    Many(Numbers),
}

/// What many deltas make of counts.
#[derive(Drop)]
pub struct Numbers {
    /// The number of each key that they tell of, as it is after all of them.
    pub(crate) numbers: BTreeMap<OrderedKey, u64>,
    /// What all keys count together then.
    pub(crate) bytes: u64,
    /// Room for all keys.
    pub(crate) room: Vec<Entry>,
}

/// Whether the first key is below this one.
fn is_below(entries: &VecDeque<Entry>, key: &Key) -> bool
    ensures { result ≡ is_first_below key.now entries.now.items }
{
    match entries.front() {
        Some(entry) => entry.0.order(key) == Ordering::Less,
        None => false,
    }
}

/// Whether the first key is this one.
fn is_at(entries: &VecDeque<Entry>, key: &Key) -> bool
    ensures { result ≡ is_first_at key.now entries.now.items }
{
    match entries.front() {
        Some(entry) => entry.0.order(key) == Ordering::Equal,
        None => false,
    }
}

/// Takes the first entry where it is below the key.
fn pop_below(entries: &mut VecDeque<Entry>, key: &Key) -> Option<Entry>
    ensures items { entries.old.items ≡ option_to_list result ++ entries.new.items }
    ensures which { is_some result ≡ is_first_below key.now entries.old.items }
{
    if is_below(entries, key) {
        return entries.pop_front();
    }
    None
}

/// Moves the entries below the key behind those that are done, which have room for them.
#[tactic(auto, using(crate::proofs::Counting::Recounted::one_below, crate::proofs::Counting::Recounted::none_below))]
fn move_below(entries: &mut VecDeque<Entry>, key: &Key, done: &mut Vec<Entry>)
    requires { vec_len done.old + length entries.old.items ≤ vec_capacity done.old }
    ensures done { done.new.items ≡ done.old.items ++ below key.now entries.old.items }
    ensures left { entries.new.items ≡ from_key key.now entries.old.items }
    ensures len { vec_len done.new + length entries.new.items
        ≡ vec_len done.old + length entries.old.items }
    ensures capacity { vec_capacity done.new ≡ vec_capacity done.old }
{
    while let Some(entry) = pop_below(entries, key) {
        done.push_reserved(entry);
    }
}

/// Takes the first entry away where it is of the key.
#[tactic(auto, using(crate::proofs::Counting::Recounted::without_fewer))]
fn drop_first(entries: &mut VecDeque<Entry>, key: &Key)
    ensures left { entries.new.items ≡ without_first key.now entries.old.items }
    ensures fewer { length entries.new.items ≤ length entries.old.items }
{
    if is_at(entries, key) {
        let _ = entries.pop_front();
    }
}

/// Moves the entries below the key behind those that are done, and then the key with its number, where
/// that is not 0, in place of the one that it had.
fn put_number(entries: &mut VecDeque<Entry>, key: Key, number: u64, done: &mut Vec<Entry>)
    requires { vec_len done.old + length entries.old.items + 1 ≤ vec_capacity done.old }
    ensures done { done.new.items
        ≡ done.old.items ++ (below key entries.old.items ++ one_if key number) }
    ensures left { entries.new.items ≡ without_first key (from_key key entries.old.items) }
    ensures room { vec_len done.new + length entries.new.items
        ≤ vec_len done.old + length entries.old.items + 1 }
    ensures capacity { vec_capacity done.new ≡ vec_capacity done.old }
{
    move_below(entries, &key, done);
    drop_first(entries, &key);
    if number != 0 {
        done.push_reserved((key, number));
    }
}

/// Moves all entries behind those that are done, which have room for them.
fn move_all(entries: &mut VecDeque<Entry>, done: &mut Vec<Entry>)
    requires { vec_len done.old + length entries.old.items ≤ vec_capacity done.old }
    ensures done { done.new.items ≡ done.old.items ++ entries.old.items }
    ensures capacity { vec_capacity done.new ≡ vec_capacity done.old }
{
    while let Some(entry) = entries.pop_front() {
        done.push_reserved(entry);
    }
}

/// The entries after each of these keys has taken its number, in the room for them. Takes no memory, and
/// no more time than there are entries and numbers.
pub(crate) fn entries_after(
    entries: Vec<Entry>,
    numbers: BTreeMap<OrderedKey, u64>,
    room: Vec<Entry>,
) -> Vec<Entry>
    requires rising { IsStrictlySortedBy key_cmp (keys_of entries.items) }
    requires empty { room.items ≡ [] }
    requires fits { length entries.items + length numbers.entries ≤ vec_capacity room }
    ensures items { result.items ≡ with_numbers entries.items numbers.entries }
    ensures capacity { vec_capacity result ≡ vec_capacity room }
{
    let mut left = VecDeque::from_vec(entries);
    let mut numbers = numbers;
    let mut done = room;
    let _count = numbers.len();
    while let Some((key, number)) = numbers.pop_first() {
        put_number(&mut left, key.into_key(), number, &mut done);
    }
    move_all(&mut left, &mut done);
    done
}
