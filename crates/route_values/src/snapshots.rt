//! Keys with their weights, and the keys of a snapshot.

ghost use Rattle.std.specs.Prelude.{◌≡◌, ◌+◌, ◌^◌, ◌<◌, ◌≤◌, ◌++◌, true, [], length, Some, IfOk, IsOk, is_ok, vec_len, vec_capacity, if◌then◌else◌};
ghost use Rattle.subj.specs.Keys.{cost_of, queue_bytes};
ghost use Rattle.route_values.specs.ValidKeys.{IsKey, IsWeighted, AreWeighted, AreSnapshotKeys};
ghost use Rattle.route_values.specs.Snapshots.{is_weight as weighs, weighted_key, queue_fields, key_line, is_before_first as before_first, are_rising as rising, is_short as short, are_snapshot_keys, snapshot_of, IsKept, snapshot_text};

use itoa::Buffer;
use line_fields::{CR_LF, append_reserved};
use std::alloc::{AllocError, Global};
use std::marker::Model;
use subj::{Key, MAX_SNAPSHOT, MAX_WEIGHT, QueueName};

/// A key with the number of its members, as peers are told it: 1 for a plain key, 1 to [`MAX_WEIGHT`]
/// for one with a queue name. (Profile.)
///
/// Seen as the pair of the key and the weight.
pub struct WeightedKey {
    key: Key,
    weight: u64,
}

/// One call, also for crates above: `docs/PROVING.md`, "What a proof costs".
impl Drop for WeightedKey {
    fn drop(self) {
        let WeightedKey { key: _, weight: _ } = self;
    }
}

impl Model for WeightedKey {
    ghost use Rattle.std.specs.Prelude.{ℕ};
    ghost use Rattle.subj.specs.declared.keys.Key.{Key};
    ghost use Rattle.route_values.specs.ValidKeys.{IsWeighted};

    ghost Value = { Key × ℕ };

    ghost view = { λ weighted. (weighted.key, weighted.weight) };

    ghost invariant = { λ weighted. IsWeighted (weighted.key, weighted.weight) };
}

/// A key holds names by its type. The call does nothing: its contract says this.
pub(crate) fn key_holds_names(key: &Key)
    ensures { IsKey key.now }
{
    let _pattern = key.pattern.bytes();
    if let Some(queue) = &key.queue {
        let _queue = queue.bytes();
    }
}

/// Whether a key may have the weight.
fn is_weight(key: &Key, weight: u64) -> bool
    ensures { result ≡ weighs key.now weight }
{
    match key.queue {
        None => weight == 1,
        Some(_) => 1 <= weight && weight <= MAX_WEIGHT,
    }
}

impl WeightedKey {
    /// None just where a plain key has another weight than 1, or one with a queue name 0 or more than
    /// [`MAX_WEIGHT`].
    pub fn new(key: Key, weight: u64) -> Option<WeightedKey>
        ensures { result ≡ weighted_key key weight }
    {
        key_holds_names(&key);
        if !is_weight(&key, weight) {
            return None;
        }
        Some(WeightedKey { key, weight })
    }

    /// The key.
    pub fn key(&self) -> &Key
        ensures same { result.now ≡ self.now.0 }
        ensures valid { IsKey self.now.0 }
    {
        &self.key
    }

    /// Its weight.
    pub fn weight(&self) -> u64
        ensures same { result ≡ self.now.1 }
        ensures valid { weighs self.now.0 self.now.1 ≡ true }
    {
        self.weight
    }

    /// The key and its weight, without a copy.
    pub fn into_parts(self) -> (Key, u64)
        ensures same { result ≡ self }
        ensures valid { IsWeighted self }
    {
        let WeightedKey { key, weight } = self;
        (key, weight)
    }

    /// A copy.
    pub fn try_clone(&self, alloc: Global) -> Result<WeightedKey, AllocError>
        ensures { IfOk result (λ copy. copy ≡ self.now) }
    {
        let key = self.key.try_clone(alloc)?;
        Ok(WeightedKey {
            key,
            weight: self.weight,
        })
    }
}

/// How many bytes the queue name and the weight take in the line of a key.
fn queue_len(queue: &Option<QueueName>, weight: u64) -> usize
    ensures same { result ≡ length (queue_fields queue.now weight) }
    ensures small { result ≤ queue_bytes queue.now + 22 }
    ensures bounded { result < 2 ^ 32 }
{
    match queue {
        None => 0,
        Some(queue) => 1 + queue.bytes().len() + 1 + Buffer::new().format(weight).len(),
    }
}

/// How many bytes the line of a key has, its CR LF among them. The key counts as many or more towards
/// the limit of bytes.
#[tactic(auto, unfolding(crate::specs::Snapshots::key_line))]
fn line_len(entry: &WeightedKey) -> usize
    ensures same { result ≡ length (key_line entry.now) }
    ensures small { result ≤ cost_of entry.now.0 }
{
    entry.key.pattern.bytes().len() + queue_len(&entry.key.queue, entry.weight) + CR_LF.len()
}

/// Appends the queue name and the weight in the line of a key, for which there is room.
fn put_queue(out: &mut Vec<u8>, queue: &Option<QueueName>, weight: u64)
    requires { vec_len out.old + length (queue_fields queue.now weight) ≤ vec_capacity out.old }
    ensures items { out.new.items ≡ out.old.items ++ queue_fields queue.now weight }
    ensures len { vec_len out.new ≡ vec_len out.old + length (queue_fields queue.now weight) }
    ensures capacity { vec_capacity out.old ≤ vec_capacity out.new }
{
    if let Some(queue) = queue {
        append_reserved(out, b" ");
        append_reserved(out, queue.bytes());
        append_reserved(out, b" ");
        append_reserved(out, Buffer::new().format(weight).as_bytes());
    }
}

/// Appends the line of a key, for which there is room.
#[tactic(auto, unfolding(crate::specs::Snapshots::key_line))]
fn put_line(out: &mut Vec<u8>, entry: &WeightedKey)
    requires { vec_len out.old + length (key_line entry.now) ≤ vec_capacity out.old }
    ensures items { out.new.items ≡ out.old.items ++ key_line entry.now }
    ensures len { vec_len out.new ≡ vec_len out.old + length (key_line entry.now) }
    ensures capacity { vec_capacity out.old ≤ vec_capacity out.new }
{
    append_reserved(out, entry.key.pattern.bytes());
    put_queue(out, &entry.key.queue, entry.weight);
    append_reserved(out, CR_LF);
}

/// Appends the lines of the keys, for which there is room.
#[tactic(auto, using(crate::proofs::Texts::one_line_more, crate::proofs::Texts::part_of_text))]
fn put_lines(out: &mut Vec<u8>, keys: &[WeightedKey])
    requires { vec_len out.old + length (snapshot_text keys.now) ≤ vec_capacity out.old }
    ensures items { out.new.items ≡ out.old.items ++ snapshot_text keys.now }
    ensures len { vec_len out.new ≡ vec_len out.old + length (snapshot_text keys.now) }
    ensures capacity { vec_capacity out.old ≤ vec_capacity out.new }
{
    for entry in keys {
        put_line(out, entry);
    }
}

/// Whether the text of the keys is not longer than that of a snapshot may be. It is not where the keys
/// are within the limit of bytes.
#[tactic(auto, using(crate::proofs::Texts::one_line_more, crate::proofs::Texts::part_of_text, crate::proofs::Texts::one_cost_more, crate::proofs::Texts::part_of_cost))]
fn is_short(keys: &[WeightedKey]) -> bool
    ensures same { result ≡ short keys.now }
    ensures kept { IsKept keys.now → result ≡ true }
{
    let mut left = MAX_SNAPSHOT;
    for entry in keys {
        let len = line_len(entry);
        if len > left {
            return false;
        }
        left -= len;
    }
    true
}

/// Whether the key stands before the first of the others.
fn is_before_first(entry: &WeightedKey, others: &[WeightedKey]) -> bool
    ensures same { result ≡ before_first entry.now others.now }
    ensures valid { IsWeighted entry.now }
{
    let key = &entry.key;
    match others.first() {
        None => true,
        Some(other) => key.order(&other.key).is_lt(),
    }
}

/// Whether the keys stand in strictly rising order.
fn are_rising(keys: &[WeightedKey]) -> bool
    ensures same { result ≡ rising keys.now }
    ensures valid { result ≡ true → AreWeighted keys.now }
{
    let mut keys = keys;
    while let Some((entry, others)) = keys.split_first() {
        if !is_before_first(entry, others) {
            return false;
        }
        keys = others;
    }
    true
}

/// All keys of a server that it tells a peer at once: each once, in the order of [`Key::order`], and
/// with a text of at most [`MAX_SNAPSHOT`] bytes. The text has a line for each key, ended by CR LF: its
/// pattern, or its pattern, its queue name and its weight with one space between them. (Profile.)
///
/// Seen as the list of the keys with their weights.
#[derive(Drop)]
pub struct SnapshotKeys {
    keys: Vec<WeightedKey>,
}

impl Model for SnapshotKeys {
    ghost use Rattle.std.specs.Prelude.{ℕ, List};
    ghost use Rattle.subj.specs.declared.keys.Key.{Key};
    ghost use Rattle.route_values.specs.ValidKeys.{AreSnapshotKeys};

    ghost Value = { List (Key × ℕ) };

    ghost view = { λ snapshot. snapshot.keys.items };

    ghost invariant = { λ snapshot. AreSnapshotKeys snapshot.keys.items };
}

impl SnapshotKeys {
    /// No keys.
    pub fn new(alloc: Global) -> SnapshotKeys
        ensures { result ≡ [] }
    {
        SnapshotKeys {
            keys: Vec::new(alloc),
        }
    }

    /// None just where the keys are not in strictly rising order, or their text has more than
    /// [`MAX_SNAPSHOT`] bytes.
    ///
    /// Keys in strictly rising order within the limits of interest, [`MAX_KEYS`](subj::MAX_KEYS) and
    /// [`SUBSCRIPTION_BYTES`](subj::SUBSCRIPTION_BYTES), are always taken: so a peer that comes up can
    /// be told what a server has. (Profile.)
    pub fn from_keys(keys: Vec<WeightedKey>) -> Option<SnapshotKeys>
        ensures same { result ≡ snapshot_of keys.items }
        ensures kept { IsKept keys.items → result ≡ Some keys.items }
    {
        if !is_short(&keys) {
            return None;
        }
        if !are_rising(&keys) {
            return None;
        }
        Some(SnapshotKeys { keys })
    }

    /// How many bytes the text of the keys has, at most [`MAX_SNAPSHOT`].
    #[tactic(auto, using(crate::proofs::Texts::one_line_more, crate::proofs::Texts::part_of_text))]
    pub fn text_len(&self) -> usize
        ensures same { result ≡ length (snapshot_text self.now) }
        ensures short { result ≤ MAX_SNAPSHOT }
    {
        let mut len = 0;
        for entry in self.as_slice() {
            len += line_len(entry);
        }
        len
    }

    /// Appends the text of the keys. After want of memory the bytes are as they were, and where there
    /// is room for [`SnapshotKeys::text_len`] bytes none is wanted.
    pub fn append_text(&self, out: &mut Vec<u8>) -> Result<(), AllocError>
        ensures items { out.new.items
            ≡ (if is_ok result then out.old.items ++ snapshot_text self.now else out.old.items) }
        ensures len { vec_len out.new
            ≡ (if is_ok result then vec_len out.old + length (snapshot_text self.now)
            else vec_len out.old) }
        ensures capacity { vec_capacity out.old ≤ vec_capacity out.new }
        ensures succeeds { vec_len out.old + length (snapshot_text self.now) ≤ vec_capacity out.old
            → IsOk result }
    {
        out.reserve(self.text_len())?;
        put_lines(out, self.as_slice());
        Ok(())
    }

    /// The keys, in order.
    pub fn as_slice(&self) -> &[WeightedKey]
        ensures same { result.now ≡ self.now }
        ensures valid { are_snapshot_keys self.now ≡ true }
        ensures keys { AreWeighted self.now }
    {
        self.keys.as_slice()
    }

    /// The keys, without a copy.
    pub fn into_keys(self) -> Vec<WeightedKey>
        ensures { result.items ≡ self }
    {
        let SnapshotKeys { keys } = self;
        keys
    }

    /// A copy of the keys.
    pub fn try_clone(&self, alloc: Global) -> Result<SnapshotKeys, AllocError>
        ensures { IfOk result (λ copy. copy ≡ self.now) }
    {
        let mut keys = Vec::with_capacity(alloc, self.keys.len())?;
        for entry in &self.keys {
            keys.push(entry.try_clone(alloc)?)?;
        }
        Ok(SnapshotKeys { keys })
    }
}
