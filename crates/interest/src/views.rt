//! What a peer has told of its interest.

ghost use Rattle.std.specs.Prelude.{◌≡◌, ◌+◌, ◌*◌, ◌≤◌, ◌&&◌, nat_eq, nat_lt, nat_le, None, Some, MatchResult, OnOk, OnErr, if◌then◌else◌};
ghost use Rattle.std.specs.BTreeMap.{is_at, insert_entry};
ghost use Rattle.std.specs.List.Sorted.{IsStrictlySortedBy};
ghost use Rattle.std.specs.Map.{keys_of, remove_entry};
ghost use Rattle.subj.specs.Answers.{IsAnswered, IsDecided};
ghost use Rattle.subj.specs.Keys.{key_cmp};
ghost use Rattle.interest.specs.Places.{IsPlaceOf, IsGapFor};
ghost use Rattle.interest.specs.Heard.{Changed, Whole, IsHeard, nothing_heard, news_fault, heard_after};
ghost use Rattle.interest.specs.Matches.{has_plain_match, has_queue_match, weight_in, names_in as names_of, AreGathered};
ghost use Rattle.std.specs.Ordering.{is_eq};
ghost use Rattle.interest.specs.Counts.{told_weight as weight_told};
ghost use Rattle.interest.specs.Views.{follow_fault as fault_of_following, view_with_change, has_key, same_views, told_view};
ghost use Rattle.interest.specs.declared.changes.Change.TheVariants.{Up, Gone};
ghost use Rattle.interest.specs.declared.faults.InterestFault.TheVariants.{Late, Gap};

use crate::changes::Change;
use crate::faults::InterestFault;
use crate::local::{Local, told_weight};
use crate::matches::{has_match, names_in, weight_of};
use crate::names::{FoundNames, TooManyNames};
use crate::seeks::next_match;
use route_values::{SnapshotKeys, WeightedKey};
use std::alloc::{AllocError, Global};
use std::cmp::Ordering;
use std::marker::Model;
use subj::{Failure, Key, LentSubject, MAX_KEYS, MAX_WEIGHT, QueueName};

/// The place of the key, or the one where it would stand.
fn place_of(keys: &[WeightedKey], key: &Key) -> Result<usize, usize>
    requires { IsStrictlySortedBy key_cmp (keys_of keys.now) }
    ensures { MatchResult result (IsPlaceOf key_cmp key.now keys.now)
        (IsGapFor key_cmp key.now keys.now) }
{
    keys.binary_search_by(|entry| entry.key().order(key))
}

/// Gives the key this weight, in place of the one that it has. Memory is wanted for a new key alone.
fn put(keys: &mut Vec<WeightedKey>, weighted: WeightedKey) -> Result<(), AllocError>
    requires { IsStrictlySortedBy key_cmp (keys_of keys.old.items) }
    ensures ok { OnOk result
        (keys.new.items ≡ insert_entry key_cmp keys.old.items weighted.0 weighted.1) }
    ensures err { OnErr result (keys.new.items ≡ keys.old.items) }
{
    match place_of(keys, weighted.key()) {
        Ok(place) => keys[place] = weighted,
        Err(place) => keys.insert(place, weighted)?,
    }
    Ok(())
}

/// Takes the key away, where it is there. Takes no memory.
fn take_away(keys: &mut Vec<WeightedKey>, key: &Key)
    requires { IsStrictlySortedBy key_cmp (keys_of keys.old.items) }
    ensures { keys.new.items ≡ remove_entry (is_at (key_cmp key.now)) keys.old.items }
{
    if let Ok(place) = place_of(keys, key) {
        keys.remove(place);
    }
}

/// Lets a change that can act on the keys do so. Memory is wanted for a new key alone.
fn follow(keys: &mut Vec<WeightedKey>, change: Change) -> Result<(), AllocError>
    requires heard { IsHeard keys.old.items }
    requires taken { fault_of_following keys.old.items change ≡ None }
    ensures ok { OnOk result (keys.new.items ≡ view_with_change change keys.old.items) }
    ensures err { OnErr result (keys.new.items ≡ keys.old.items) }
    ensures heard { IsHeard keys.new.items }
{
    match change {
        Change::Up(weighted) => put(keys, weighted),
        Change::Gone(key) => {
            take_away(keys, &key);
            Ok(())
        }
        Change::Clear => {
            keys.clear();
            Ok(())
        }
    }
}

/// What the keys of this queue name that match the subject weigh together.
fn weight_among(keys: &[WeightedKey], subject: &LentSubject<'_>, name: &QueueName) -> u64
    requires { IsHeard keys.now }
    ensures same { result ≡ weight_in subject.now name.now keys.now }
    ensures most { result ≤ MAX_KEYS * MAX_WEIGHT }
{
    let mut total = 0;
    let mut place = next_match(keys, 0, subject);
    while place < keys.len() {
        let weighted = &keys[place];
        total += weight_of(name, weighted.key(), weighted.weight());
        place = next_match(keys, place + 1, subject);
    }
    total
}

/// Whether the key was told just as it is counted.
fn is_as_counted(weighted: &WeightedKey, entry: &(Key, u64)) -> bool
    ensures { result
        ≡ (is_eq (key_cmp weighted.now.0 entry.now.0)
        && nat_eq weighted.now.1 (weight_told entry.now.0 entry.now.1)) }
{
    weighted.key().order(&entry.0) == Ordering::Equal
        && weighted.weight() == told_weight(&entry.0, entry.1)
}

/// What a server has heard of the interest of one peer's life: its keys with their weights, in the order
/// of [`Key::order`], and the number of the last change that they stand for. (Profile.)
///
/// Seen as these. There are at most [`MAX_KEYS`] keys.
pub struct View {
    mark: u64,
    keys: Vec<WeightedKey>,
}

/// One call, also for crates above: `docs/PROVING.md`, "What a proof costs".
impl Drop for View {
    fn drop(self) {
        let View { mark: _, keys: _ } = self;
    }
}

impl Model for View {
    ghost use Rattle.interest.specs.Heard.{Heard, IsHeard};

    ghost Value = { Heard };

    ghost view = { λ view. record { mark = view.mark; keys = view.keys.items } };

    ghost invariant = { λ view. IsHeard view.keys.items };
}

impl View {
    /// Nothing was heard: no change, and no key.
    pub fn new(alloc: Global) -> View
        ensures { result ≡ nothing_heard }
    {
        View {
            mark: 0,
            keys: Vec::new(alloc),
        }
    }

    /// The number of the last change heard, 0 before the first.
    pub fn mark(&self) -> u64
        ensures { result ≡ self.now.mark }
    {
        self.mark
    }

    /// The keys with their weights, in order.
    pub fn keys(&self) -> &[WeightedKey]
        ensures same { result.now ≡ self.now.keys }
        ensures valid { IsHeard self.now.keys }
    {
        &self.keys
    }

    /// Whether the keys are just those that are counted, each with the weight that it is told to have. Takes no memory.
    pub fn tells(&self, counts: &Local) -> bool
        ensures { result ≡ same_views self.now.keys (told_view counts.now) }
    {
        if self.keys.len() != counts.entries.len() {
            return false;
        }
        for (place, weighted) in self.keys.iter().enumerate() {
            let entry = &counts.entries[place];
            if !is_as_counted(weighted, entry) {
                return false;
            }
        }
        true
    }

    /// Whether a plain key matches the subject. (NATS documentation, "Queue Groups".)
    pub fn has_plain(&self, subject: &LentSubject<'_>) -> bool
        ensures { result ≡ has_plain_match subject.now self.now.keys }
    {
        has_match(&self.keys, subject, true)
    }

    /// Whether a key with a queue name matches the subject: whether [`View::names_in`] finds any name.
    pub fn has_queue(&self, subject: &LentSubject<'_>) -> bool
        ensures { result ≡ has_queue_match subject.now self.now.keys }
    {
        has_match(&self.keys, subject, false)
    }

    /// What the keys of this queue name that match the subject weigh together. (Profile.)
    pub fn weight_in(&self, subject: &LentSubject<'_>, name: &QueueName) -> u64
        ensures same { result ≡ weight_in subject.now name.now self.now.keys }
        ensures most { result ≤ MAX_KEYS * MAX_WEIGHT }
    {
        weight_among(&self.keys, subject, name)
    }

    /// Adds the queue names of keys that match the subject. Refused where there would be more names than
    /// have their place; then some of them were added. Takes no memory.
    pub fn names_in<'a>(
        &'a self,
        subject: &LentSubject<'_>,
        names: &mut FoundNames<'a>,
    ) -> Result<(), TooManyNames>
        ensures { AreGathered (names_of subject.now self.now.keys names.old) names.new result }
    {
        names_in(&self.keys, subject, names)
    }

    /// Why the change of this number is refused, or None where it is taken: 40 where the number is not
    /// above the mark; 41 where it is not the next one; 42 where a key that is not there is gone; 43 where
    /// there would be more than [`MAX_KEYS`] keys. Takes no memory. (Profile.)
    pub fn change_fault(&self, number: u64, change: &Change) -> Option<InterestFault>
        ensures { result ≡ news_fault self.now (Changed number change.now) }
    {
        match change {
            Change::Up(weighted) => self.up_fault(number, weighted),
            Change::Gone(key) => self.gone_fault(number, key),
            Change::Clear => self.order_fault(number),
        }
    }

    /// Why a snapshot of this number is refused, or None where it is taken: 40 where the number is below
    /// the mark; 43 where it has more than [`MAX_KEYS`] keys. Takes no memory. (Profile.)
    pub fn snapshot_fault(&self, number: u64, keys: &SnapshotKeys) -> Option<InterestFault>
        ensures { result ≡ news_fault self.now (Whole number keys.now) }
    {
        if number < self.mark {
            return Some(InterestFault::Late);
        }
        if keys.as_slice().len() as u64 > MAX_KEYS {
            return Some(InterestFault::TooManyKeys);
        }
        None
    }

    /// Takes the change of this number. Refused by the cause that [`View::change_fault`] tells. Any `Err`
    /// leaves all as it was; memory is wanted for a new key alone.
    pub fn apply_update(
        &mut self,
        number: u64,
        change: Change,
    ) -> Result<(), Failure<InterestFault>>
        ensures { IsAnswered (news_fault self.old (Changed number change))
            (λ _. self.new ≡ heard_after self.old (Changed number change)) (self.new ≡ self.old)
            result }
    {
        if let Some(fault) = self.change_fault(number, &change) {
            return Err(Failure::Refused(fault));
        }
        follow(&mut self.keys, change)?;
        self.mark = number;
        Ok(())
    }

    /// Takes these keys in place of all that was heard, as after the change of this number. Refused by the
    /// cause that [`View::snapshot_fault`] tells, with all as it was. Takes no memory.
    pub fn apply_snapshot(&mut self, number: u64, keys: SnapshotKeys) -> Result<(), InterestFault>
        ensures { IsDecided (news_fault self.old (Whole number keys))
            (λ _. self.new ≡ heard_after self.old (Whole number keys)) (self.new ≡ self.old)
            result }
    {
        if let Some(fault) = self.snapshot_fault(number, &keys) {
            return Err(fault);
        }
        self.keys = keys.into_keys();
        self.mark = number;
        Ok(())
    }
}

impl View {
    /// Whether the key is there.
    fn has(&self, key: &Key) -> bool
        ensures { result ≡ has_key self.now.keys key.now }
    {
        place_of(&self.keys, key).is_ok()
    }

    /// Why a change of this number is not the next one, or None where it is.
    fn order_fault(&self, number: u64) -> Option<InterestFault>
        ensures { result
            ≡ (if nat_le number self.now.mark then Some Late
            else (if nat_lt (self.now.mark + 1) number then Some Gap else None)) }
    {
        if number <= self.mark {
            return Some(InterestFault::Late);
        }
        if self.mark + 1 < number {
            return Some(InterestFault::Gap);
        }
        None
    }

    /// [`View::change_fault`] of a key that is there with this weight.
    pub fn up_fault(&self, number: u64, weighted: &WeightedKey) -> Option<InterestFault>
        ensures { result ≡ news_fault self.now (Changed number (Up weighted.now)) }
    {
        if let Some(fault) = self.order_fault(number) {
            return Some(fault);
        }
        if !self.has(weighted.key()) && self.keys.len() as u64 >= MAX_KEYS {
            return Some(InterestFault::TooManyKeys);
        }
        None
    }

    /// [`View::change_fault`] of a key that is gone.
    pub fn gone_fault(&self, number: u64, key: &Key) -> Option<InterestFault>
        ensures { result ≡ news_fault self.now (Changed number (Gone key.now)) }
    {
        if let Some(fault) = self.order_fault(number) {
            return Some(fault);
        }
        if !self.has(key) {
            return Some(InterestFault::UnknownKey);
        }
        None
    }
}
