//! How many subscriptions of each key are open.

ghost use Rattle.std.specs.Prelude.{◌≡◌, ◌*◌, ◌^◌, ◌<◌, ◌≤◌, [], ◌++◌, None, Some, true, false, length, slice_get, MatchResult, IfOk, OnErr};
ghost use Rattle.std.specs.List.{list_any};
ghost use Rattle.std.specs.BTreeMap.{insert_entry};
ghost use Rattle.std.specs.List.Sorted.{IsStrictlySortedBy};
ghost use Rattle.std.specs.Map.{keys_of};
ghost use Rattle.interest.specs.Places.{IsPlaceOf, IsGapFor};
ghost use Rattle.subj.specs.Answers.{IsAnswered};
ghost use Rattle.subj.specs.Keys.{key_cmp};
ghost use Rattle.interest.specs.KeysLeft.{keys_left};
ghost use Rattle.interest.specs.Matches.{has_queue_match, weight_in, names_in as names_of, AreGathered};
ghost use Rattle.interest.specs.Tally.{opens_key, key_if};
ghost use Rattle.interest.specs.Counts.{count_after, with_count, count_of, change_between, is_plain_match, IsInterest, is_full, too_many_if, counts_after, delta_fault, change_of, told_weight as weight_told};

use crate::changes::Change;
use crate::faults::InterestFault;
use crate::keys::Keys;
use crate::matches::{has_match, names_in, weight_of};
use crate::names::{FoundNames, TooManyNames};
use crate::seeks::next_match;
use route_values::WeightedKey;
use std::alloc::{AllocError, Global};
use std::collections::VecDeque;
use std::marker::Model;
use subj::{Delta, Failure, Key, LentSubject, MAX_KEYS, MAX_WEIGHT, QueueName, SUBSCRIPTION_BYTES};

/// The places for keys, as the length of a list.
pub(crate) const PLACES: usize = MAX_KEYS as usize;

/// The number of a key's open subscriptions once one more has opened, or one has closed.
pub(crate) fn number_after(up: bool, count: u64) -> u64
    requires { count < 2 ^ 63 }
    ensures { result ≡ count_after up count }
{
    if up {
        count + 1
    } else {
        count.saturating_sub(1)
    }
}

/// What the other servers are told that a key with so many open subscriptions weighs. (Profile.)
pub fn told_weight(key: &Key, count: u64) -> u64
    ensures { result ≡ weight_told key.now count }
{
    if key.queue.is_none() { 1 } else { count }
}

/// What the other servers are told where the number of a key's open subscriptions changes.
pub(crate) fn change(
    alloc: Global,
    key: &Key,
    before: u64,
    after: u64,
) -> Result<Option<Change>, AllocError>
    requires { after ≤ MAX_WEIGHT }
    ensures { IfOk result (λ change. change ≡ change_between key.now before after) }
{
    if after == 0 {
        return Ok(Some(Change::Gone(key.try_clone(alloc)?)));
    }
    if key.queue.is_none() && 0 < before {
        return Ok(None);
    }
    let weight = told_weight(key, after);
    let key = key.try_clone(alloc)?;
    Ok(WeightedKey::new(key, weight).map(Change::Up))
}

/// The place of the key, or the one where it would stand.
fn place_of(entries: &[(Key, u64)], key: &Key) -> Result<usize, usize>
    requires { IsStrictlySortedBy key_cmp (keys_of entries.now) }
    ensures { MatchResult result (IsPlaceOf key_cmp key.now entries.now)
        (IsGapFor key_cmp key.now entries.now) }
{
    entries.binary_search_by(|entry| entry.0.order(key))
}

/// How many open subscriptions of this queue name the subject matches.
fn weight_among(entries: &[(Key, u64)], subject: &LentSubject<'_>, name: &QueueName) -> u64
    requires { IsInterest entries.now }
    ensures same { result ≡ weight_in subject.now name.now entries.now }
    ensures most { result ≤ MAX_KEYS * MAX_WEIGHT }
{
    let mut total = 0;
    let mut place = next_match(entries, 0, subject);
    while place < entries.len() {
        let (key, count) = &entries[place];
        total += weight_of(name, key, *count);
        place = next_match(entries, place + 1, subject);
    }
    total
}

/// How many subscriptions of each key are open, by the deltas that it was told.
///
/// Seen as the list of the keys with an open subscription, each with the number of them, in the order
/// of [`Key::order`]. It has at most [`MAX_KEYS`] keys, at most [`MAX_WEIGHT`] open subscriptions of
/// each, and its keys count at most [`SUBSCRIPTION_BYTES`] together by [`Key::cost`]. (Profile.)
pub struct Local {
    pub(crate) alloc: Global,
    /// It has taken the memory for [`MAX_KEYS`] keys when it was made.
    pub(crate) entries: Vec<(Key, u64)>,
    /// What the keys count together.
    pub(crate) bytes: u64,
}

/// One call, also for crates above: `docs/PROVING.md`, "What a proof costs".
impl Drop for Local {
    fn drop(self) {
        let Local {
            alloc: _,
            entries: _,
            bytes: _,
        } = self;
    }
}

impl Model for Local {
    ghost use Rattle.std.specs.Prelude.{◌≡◌, ℕ, List};
    ghost use Rattle.subj.specs.declared.keys.Key.{Key};
    ghost use Rattle.interest.specs.KeysLeft.{keys_left};
    ghost use Rattle.std.specs.Prelude.{vec_capacity};
    ghost use Rattle.interest.specs.Counts.{IsKept};

    ghost Value = { List (Key × ℕ) };

    ghost view = { λ local. local.entries.items };

    ghost invariant = { λ local.
        IsKept local.entries.items local.bytes (vec_capacity local.entries) };
}

impl Local {
    /// No subscription is open. Takes the memory for the places of all keys that may come.
    pub fn new(alloc: Global) -> Result<Local, AllocError>
        ensures { IfOk result (λ local. local ≡ []) }
    {
        Ok(Local {
            alloc,
            entries: Vec::with_capacity(alloc, PLACES)?,
            bytes: 0,
        })
    }

    /// Counts one subscription that opened or closed, and answers what the other servers are told.
    ///
    /// A plain key is told of on its first opening and on its last closing; a key with a queue name
    /// each time, with the number now open, or as gone. (NATS documentation, "Cluster Protocol".)
    ///
    /// Refused: 43 where an opening would make a key beyond [`MAX_KEYS`], or a number beyond
    /// [`MAX_WEIGHT`], or keys of more bytes than [`SUBSCRIPTION_BYTES`]; 42 where a closing is of a
    /// key that has no open subscription. Any `Err` leaves all as it was.
    pub fn apply(&mut self, delta: &Delta) -> Result<Option<Change>, Failure<InterestFault>>
        ensures { IsAnswered (delta_fault self.old delta.now)
            (λ change.
            (change ≡ change_of self.old delta.now) × (self.new ≡ counts_after self.old delta.now))
            (self.new ≡ self.old) result }
    {
        match (place_of(&self.entries, &delta.key), delta.up) {
            (Err(place), true) => self.add(place, &delta.key),
            (Err(_), false) => Err(Failure::Refused(InterestFault::UnknownKey)),
            (Ok(place), _) => self.recount(place, delta),
        }
    }

    /// The first opening of a key.
    fn add(&mut self, place: usize, key: &Key) -> Result<Option<Change>, Failure<InterestFault>>
        requires { IsGapFor key_cmp key.now self.old place }
        ensures { IsAnswered (too_many_if (is_full self.old key.now))
            (λ change.
            (change ≡ change_between key.now 0 1)
            × (self.new ≡ insert_entry key_cmp self.old key.now 1))
            (self.new ≡ self.old) result }
    {
        let bytes = self.bytes + key.cost();
        if self.entries.len() as u64 >= MAX_KEYS || bytes > SUBSCRIPTION_BYTES {
            return Err(Failure::Refused(InterestFault::TooManyKeys));
        }
        let copy = key.try_clone(self.alloc)?;
        let change = change(self.alloc, key, 0, 1)?;
        self.put_new(place, copy);
        Ok(change)
    }

    /// The first opening of a key that has room. Takes no memory.
    fn put_new(&mut self, place: usize, key: Key)
        requires gap { IsGapFor key_cmp key self.old place }
        requires room { is_full self.old key ≡ false }
        ensures { self.new ≡ insert_entry key_cmp self.old key 1 }
    {
        self.bytes += key.cost();
        let Ok(()) = self.entries.insert(place, (key, 1)) else {
            // the places of all keys were taken when it was made
            unreachable!()
        };
    }

    /// Another opening, or a closing, of a key that is there.
    fn recount(
        &mut self,
        place: usize,
        delta: &Delta,
    ) -> Result<Option<Change>, Failure<InterestFault>>
        requires { IsPlaceOf key_cmp delta.now.key self.old place }
        ensures { IsAnswered (delta_fault self.old delta.now)
            (λ change.
            (change ≡ change_of self.old delta.now) × (self.new ≡ counts_after self.old delta.now))
            (self.new ≡ self.old) result }
    {
        let count = self.entries[place].1;
        if delta.up && count >= MAX_WEIGHT {
            return Err(Failure::Refused(InterestFault::TooManyKeys));
        }
        let count = number_after(delta.up, count);
        let change = self.set_count(place, &delta.key, count)?;
        Ok(change)
    }

    /// Another number for a key that is there.
    fn set_count(
        &mut self,
        place: usize,
        key: &Key,
        count: u64,
    ) -> Result<Option<Change>, AllocError>
        requires place { IsPlaceOf key_cmp key.now self.old place }
        requires most { count ≤ MAX_WEIGHT }
        ensures ok { IfOk result (λ change.
            (change ≡ change_between key.now (count_of self.old key.now) count)
            × (self.new ≡ with_count self.old key.now count)) }
        ensures err { OnErr result (self.new ≡ self.old) }
    {
        let before = self.entries[place].1;
        let change = change(self.alloc, key, before, count)?;
        self.write_count(place, key, count);
        Ok(change)
    }

    /// The same where nothing is told. Takes no memory.
    fn write_count(&mut self, place: usize, key: &Key, count: u64)
        requires place { IsPlaceOf key_cmp key.now self.old place }
        requires most { count ≤ MAX_WEIGHT }
        ensures { self.new ≡ with_count self.old key.now count }
    {
        if count == 0 {
            self.entries.remove(place);
            self.bytes -= key.cost();
            return;
        }
        self.entries[place].1 = count;
    }

    /// Counts a delta that is not refused, of which nothing is told; a key that it opens anew is the next
    /// of these. Takes no memory.
    pub(crate) fn count(&mut self, delta: &Delta, opened: &mut VecDeque<Key>)
        requires taken { delta_fault self.old delta.now ≡ None }
        requires next { opens_key self.old delta.now ≡ true
            → slice_get opened.old.items 0 ≡ Some delta.now.key }
        ensures counts { self.new ≡ counts_after self.old delta.now }
        ensures left { opened.old.items
            ≡ key_if (opens_key self.old delta.now) delta.now.key ++ opened.new.items }
    {
        match place_of(&self.entries, &delta.key) {
            Ok(place) => {
                let count = number_after(delta.up, self.entries[place].1);
                self.write_count(place, &delta.key, count);
            }
            Err(place) => {
                if let Some(key) = opened.pop_front() {
                    self.put_new(place, key);
                }
            }
        }
    }

    /// The number of open subscriptions of the key: its weight where it has a queue name.
    pub fn weight(&self, key: &Key) -> u64
        ensures weight { result ≡ count_of self.now key.now }
        ensures most { result ≤ MAX_WEIGHT }
    {
        match place_of(&self.entries, key) {
            Ok(place) => self.entries[place].1,
            Err(_) => 0,
        }
    }

    /// Whether a plain key matches the subject: whether some subscription without a queue name wants
    /// what is published there.
    pub fn has_plain(&self, subject: &LentSubject<'_>) -> bool
        ensures { result ≡ list_any (is_plain_match subject.now) self.now }
    {
        has_match(&self.entries, subject, true)
    }

    /// Whether a key with a queue name matches the subject: whether [`Local::names_in`] finds any name.
    pub fn has_queue(&self, subject: &LentSubject<'_>) -> bool
        ensures { result ≡ has_queue_match subject.now self.now }
    {
        has_match(&self.entries, subject, false)
    }

    /// How many open subscriptions of this queue name the subject matches. (Profile.)
    pub fn weight_in(&self, subject: &LentSubject<'_>, name: &QueueName) -> u64
        ensures same { result ≡ weight_in subject.now name.now self.now }
        ensures most { result ≤ MAX_KEYS * MAX_WEIGHT }
    {
        weight_among(&self.entries, subject, name)
    }

    /// Adds the queue names that the subject matches. Refused where there would be more names than have
    /// their place; then some of them were added. Takes no memory.
    pub fn names_in<'a>(
        &'a self,
        subject: &LentSubject<'_>,
        names: &mut FoundNames<'a>,
    ) -> Result<(), TooManyNames>
        ensures { AreGathered (names_of subject.now self.now names.old) names.new result }
    {
        names_in(&self.entries, subject, names)
    }

    /// How many keys have an open subscription.
    pub fn len(&self) -> usize
        ensures { result ≡ length self.now }
    {
        self.entries.len()
    }

    /// The keys that have an open subscription, each with the number of them, in the order of
    /// [`Key::order`].
    pub fn keys(&self) -> Keys<'_>
        ensures same { keys_left result ≡ self.now }
        ensures valid { IsInterest self.now }
    {
        Keys {
            left: &self.entries,
        }
    }
}
