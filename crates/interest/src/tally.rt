//! What deltas would do, counted in order without memory.

ghost use Rattle.std.specs.Prelude.{◌≡◌, ◌+◌, ◌^◌, ◌<◌, ◌≤◌, ◌&&◌, nat_eq, ◌++◌, [], false, length, option_to_list, IfOk, OnOk, if◌then◌else◌};
ghost use Rattle.std.specs.BTreeMap.{insert_entry};
ghost use Rattle.subj.specs.Keys.{key_cmp, cost_of};
ghost use Rattle.interest.specs.Tally.{changes_counted, number_behind as behind, is_refused_of, total_after, is_told_of, key_if, keys_opened};
ghost use Rattle.interest.specs.Counts.{count_of, count_after, change_between, IsInterest};
ghost use Rattle.interest.specs.Recounts.{IsPlanOf, IsRecountOf, IsPlanOfNone, AreCounted, IsOneMore, number_among};
ghost use Rattle.interest.specs.declared.recounts.Recount.TheVariants.{Many};
ghost use Rattle.interest.specs.Told.{counts_told, changes_told as told, are_refused};

use crate::changes::Change;
use crate::local::{Local, PLACES, change, number_after};
use crate::ordered_keys::OrderedKey;
use crate::recounts::{Entry, Numbers, Recount, entries_after};
use std::alloc::{AllocError, Global};
use std::cmp::Ordering;
use std::collections::{BTreeMap, VecDeque};
use std::mem::replace;
use subj::{Delta, Key, MAX_KEYS, MAX_WEIGHT, SUBSCRIPTION_BYTES};

/// The number of the key's open subscriptions after these deltas, where it was this one before.
fn number_behind(deltas: &[Delta], key: &Key, number: u64) -> u64
    requires { number ≤ MAX_WEIGHT }
    ensures same { result ≡ behind deltas.now key.now number }
    ensures most { result ≤ MAX_WEIGHT + length deltas.now }
{
    let mut number = number;
    for delta in deltas {
        if key.order(&delta.key) == Ordering::Equal {
            number = number_after(delta.up, number);
        }
    }
    number
}

/// Whether a delta would be refused, with so many keys of so many bytes and this number of its key.
fn is_refused(keys: u64, bytes: u64, delta: &Delta, number: u64) -> bool
    requires { bytes ≤ SUBSCRIPTION_BYTES }
    ensures { result ≡ is_refused_of keys bytes delta.now number }
{
    if !delta.up {
        return number == 0;
    }
    if number == 0 {
        keys >= MAX_KEYS || bytes + delta.key.cost() > SUBSCRIPTION_BYTES
    } else {
        number >= MAX_WEIGHT
    }
}

/// A total over the keys, where a key that weighs so much comes or goes.
fn total(up: bool, number: u64, total: u64, weight: u64) -> u64
    requires { total + weight < 2 ^ 63 }
    ensures { result ≡ total_after up number total weight }
{
    if up && number == 0 {
        total + weight
    } else if !up && number == 1 {
        total.saturating_sub(weight)
    } else {
        total
    }
}

/// How many changes the other servers are told of a delta of a key that had this number: 1 or none.
fn changes_told(delta: &Delta, number: u64) -> u64
    requires { number < 2 ^ 63 }
    ensures { result
        ≡ (if is_told_of delta.now.key number (count_after delta.now.up number) then 1 else 0) }
{
    let after = number_after(delta.up, number);
    if after == 0 || !(delta.key.queue.is_none() && 0 < number) {
        1
    } else {
        0
    }
}

/// So many deltas are few.
const FEW: usize = 16;

/// What deltas do, found before anything is changed.
#[derive(Drop)]
pub struct DeltaPlan {
    /// What they make of the counts.
    pub recount: Recount,
    /// What the other servers are told, in order.
    pub changes: Vec<Change>,
}

/// What few deltas do.
#[derive(Drop)]
struct FewPlan {
    opened: VecDeque<Key>,
    changes: Vec<Change>,
}

/// What many deltas do, as far as they are counted.
#[derive(Drop)]
struct ManyPlan {
    /// The number of each key that they tell of.
    numbers: BTreeMap<OrderedKey, u64>,
    /// What the other servers are told, in order.
    changes: Vec<Change>,
    /// How many keys are open then.
    keys: u64,
    /// What these count together.
    bytes: u64,
}

/// The key of a delta, where it opens it and there was this number of open subscriptions, none.
fn opened_key(alloc: Global, delta: &Delta, number: u64) -> Result<Option<Key>, AllocError>
    ensures { IfOk result (λ key.
        option_to_list key ≡ key_if (delta.now.up && nat_eq number 0) delta.now.key) }
{
    if !delta.up || number != 0 {
        return Ok(None);
    }
    Ok(Some(delta.key.try_clone(alloc)?))
}

/// Puts the key behind the others, where there is one.
fn push_key(keys: &mut VecDeque<Key>, key: Option<Key>) -> Result<(), AllocError>
    ensures { OnOk result (keys.new.items ≡ keys.old.items ++ option_to_list key) }
{
    if let Some(key) = key {
        keys.push_back(key)?;
    }
    Ok(())
}

/// Puts the change behind the others, where there is one.
fn push_change(changes: &mut Vec<Change>, change: Option<Change>) -> Result<(), AllocError>
    ensures { OnOk result (changes.new.items ≡ changes.old.items ++ option_to_list change) }
{
    if let Some(change) = change {
        changes.push(change)?;
    }
    Ok(())
}

/// Gives the key this number, in place of the one that it has.
fn put(
    numbers: &mut BTreeMap<OrderedKey, u64>,
    key: OrderedKey,
    number: u64,
) -> Result<(), AllocError>
    ensures { OnOk result
        (numbers.new.entries ≡ insert_entry key_cmp numbers.old.entries key number) }
{
    match numbers.insert(key, number) {
        Ok(_) => Ok(()),
        Err(_) => Err(AllocError),
    }
}

impl FewPlan {
    /// Of no deltas.
    fn new(alloc: Global) -> FewPlan
        ensures opened { result.opened.items ≡ [] }
        ensures changes { result.changes.items ≡ [] }
    {
        FewPlan {
            opened: VecDeque::new(alloc),
            changes: Vec::new(alloc),
        }
    }

    /// Of one delta more, whose key had this number of open subscriptions.
    fn add(&mut self, alloc: Global, delta: &Delta, number: u64) -> Result<(), AllocError>
        requires fits { count_after delta.now.up number ≤ MAX_WEIGHT }
        requires few { number ≤ MAX_WEIGHT }
        ensures opened { OnOk result (self.new.opened.items
            ≡ self.old.opened.items ++ key_if (delta.now.up && nat_eq number 0) delta.now.key) }
        ensures changes { OnOk result (self.new.changes.items
            ≡ self.old.changes.items
            ++ option_to_list
            (change_between delta.now.key number (count_after delta.now.up number))) }
    {
        let after = number_after(delta.up, number);
        push_key(&mut self.opened, opened_key(alloc, delta, number)?)?;
        push_change(&mut self.changes, change(alloc, &delta.key, number, after)?)
    }
}

impl ManyPlan {
    /// Of no deltas, where so many keys of so many bytes are open.
    fn new(alloc: Global, keys: u64, bytes: u64) -> ManyPlan
        ensures numbers { result.numbers.entries ≡ [] }
        ensures changes { result.changes.items ≡ [] }
        ensures keys { result.keys ≡ keys }
        ensures bytes { result.bytes ≡ bytes }
    {
        ManyPlan {
            numbers: BTreeMap::new(alloc),
            changes: Vec::new(alloc),
            keys,
            bytes,
        }
    }

    /// Of one delta more, whose key had this number of open subscriptions.
    fn add(
        &mut self,
        alloc: Global,
        delta: &Delta,
        key: OrderedKey,
        number: u64,
    ) -> Result<(), AllocError>
        requires fits { count_after delta.now.up number ≤ MAX_WEIGHT }
        requires few { number ≤ MAX_WEIGHT }
        requires keys { self.old.keys ≤ MAX_KEYS }
        requires bytes { self.old.bytes ≤ SUBSCRIPTION_BYTES }
        ensures numbers { OnOk result (self.new.numbers.entries
            ≡ insert_entry key_cmp self.old.numbers.entries key (count_after delta.now.up number)) }
        ensures changes { OnOk result (self.new.changes.items
            ≡ self.old.changes.items
            ++ option_to_list
            (change_between delta.now.key number (count_after delta.now.up number))) }
        ensures keys { OnOk result
            (self.new.keys ≡ total_after delta.now.up number self.old.keys 1) }
        ensures bytes { OnOk result (self.new.bytes
            ≡ total_after delta.now.up number self.old.bytes (cost_of delta.now.key)) }
    {
        let after = number_after(delta.up, number);
        put(&mut self.numbers, key, after)?;
        self.keys = total(delta.up, number, self.keys, 1);
        self.bytes = total(delta.up, number, self.bytes, delta.key.cost());
        push_change(&mut self.changes, change(alloc, &delta.key, number, after)?)
    }

    /// What the deltas do, with this room for all keys.
    fn with_room(self, room: Vec<Entry>) -> DeltaPlan
        ensures recount { result.recount
            ≡ Many record { numbers = self.numbers; bytes = self.bytes; room = room } }
        ensures changes { result.changes ≡ self.changes }
    {
        let ManyPlan {
            numbers,
            changes,
            bytes,
            ..
        } = self;
        let many = Numbers {
            numbers,
            bytes,
            room,
        };
        DeltaPlan {
            recount: Recount::Many(many),
            changes,
        }
    }
}

impl Local {
    /// How many changes the other servers are told of these deltas, were each counted in its turn by
    /// [`Local::apply`]; None where one of them would be refused. It counts nothing and keeps no memory. The
    /// time grows with the deltas; where there is no memory for a table of their keys, with their square.
    pub fn changes_of(&self, deltas: &[Delta]) -> Option<u64>
        ensures { result ≡ changes_counted self.now deltas.now }
    {
        if deltas.len() > FEW {
            match self.plan_many(deltas) {
                Ok(Some(plan)) => return Some(plan.changes.len() as u64),
                Ok(None) => return None,
                Err(_) => {}
            }
        }
        self.changes_one_by_one(deltas)
    }

    /// The same without memory: the number of each key is found by going over the deltas before.
    fn changes_one_by_one(&self, deltas: &[Delta]) -> Option<u64>
        ensures { result ≡ changes_counted self.now deltas.now }
    {
        let mut keys = self.entries.len() as u64;
        let mut bytes = self.bytes;
        let mut changes = 0;
        for place in 0..deltas.len() {
            let delta = &deltas[place];
            let number = number_behind(&deltas[..place], &delta.key, self.weight(&delta.key));
            if is_refused(keys, bytes, delta, number) {
                return None;
            }
            keys = total(delta.up, number, keys, 1);
            bytes = total(delta.up, number, bytes, delta.key.cost());
            changes += changes_told(delta, number);
        }
        Some(changes)
    }

    /// What these deltas do, one by one. Required: none of them is refused.
    fn plan_few(&self, deltas: &[Delta]) -> Result<FewPlan, AllocError>
        requires { are_refused self.now deltas.now ≡ false }
        ensures { IfOk result (λ plan.
            (plan.opened.items ≡ keys_opened self.now deltas.now)
            × (plan.changes.items ≡ told self.now deltas.now)) }
    {
        let mut plan = FewPlan::new(self.alloc);
        for place in 0..deltas.len() {
            let delta = &deltas[place];
            let before = number_behind(&deltas[..place], &delta.key, self.weight(&delta.key));
            plan.add(self.alloc, delta, before)?;
        }
        Ok(plan)
    }

    /// The number of the key so far: the one that it has among these, or the one that is counted.
    fn number_so_far(&self, numbers: &BTreeMap<OrderedKey, u64>, key: &OrderedKey) -> u64
        ensures { result ≡ number_among self.now numbers.now.entries key.now }
    {
        match numbers.get(key) {
            Some(number) => *number,
            None => self.weight(key.key()),
        }
    }

    /// Counts one delta more in the plan, and answers whether it is taken: false where it is refused.
    fn count_one(&self, delta: &Delta, plan: &mut ManyPlan) -> Result<bool, AllocError>
        requires few { number_among self.now plan.old.numbers.entries delta.now.key ≤ MAX_WEIGHT }
        requires keys { plan.old.keys ≤ MAX_KEYS }
        requires bytes { plan.old.bytes ≤ SUBSCRIPTION_BYTES }
        ensures { IfOk result (IsOneMore self.now delta.now plan.old plan.new) }
    {
        let key = OrderedKey::copy_of(self.alloc, &delta.key)?;
        let number = self.number_so_far(&plan.numbers, &key);
        if is_refused(plan.keys, plan.bytes, delta, number) {
            return Ok(false);
        }
        plan.add(self.alloc, delta, key, number)?;
        Ok(true)
    }

    /// Counts these deltas in a plan of none, and answers whether all are taken: false where one of them is
    /// refused.
    fn count_many(&self, deltas: &[Delta], plan: &mut ManyPlan) -> Result<bool, AllocError>
        requires valid { IsInterest self.now }
        requires none { IsPlanOfNone self.now plan.old }
        ensures { IfOk result (AreCounted self.now deltas.now plan.new) }
    {
        for place in 0..deltas.len() {
            if !self.count_one(&deltas[place], plan)? {
                return Ok(false);
            }
        }
        Ok(true)
    }

    /// What these deltas do, for each of their keys; None where one of them is refused.
    fn plan_many(&self, deltas: &[Delta]) -> Result<Option<DeltaPlan>, AllocError>
        ensures { IfOk result (IsPlanOf self.now deltas.now) }
    {
        let mut plan = ManyPlan::new(self.alloc, self.entries.len() as u64, self.bytes);
        if !self.count_many(deltas, &mut plan)? {
            return Ok(None);
        }
        let room = Vec::with_capacity(self.alloc, PLACES + plan.numbers.len())?;
        Ok(Some(plan.with_room(room)))
    }

    /// What these deltas do; None where one of them is refused, were each counted in its turn by
    /// [`Local::apply`]. It counts nothing. The time grows with the deltas, and hardly with the keys.
    pub fn plan(&self, deltas: &[Delta]) -> Result<Option<DeltaPlan>, AllocError>
        ensures { IfOk result (IsPlanOf self.now deltas.now) }
    {
        if deltas.len() > FEW {
            return self.plan_many(deltas);
        }
        if self.changes_of(deltas).is_none() {
            return Ok(None);
        }
        let FewPlan { opened, changes } = self.plan_few(deltas)?;
        Ok(Some(DeltaPlan {
            recount: Recount::Few(opened),
            changes,
        }))
    }

    /// Counts these deltas one by one. Required: none of them is refused, and the keys are those that they
    /// open. Takes no memory.
    fn commit_few(&mut self, deltas: &[Delta], opened: VecDeque<Key>)
        requires taken { are_refused self.old deltas.now ≡ false }
        requires planned { opened.items ≡ keys_opened self.old deltas.now }
        ensures { self.new ≡ counts_told self.old deltas.now }
    {
        let mut opened = opened;
        for delta in deltas {
            self.count(delta, &mut opened);
        }
    }

    /// Gives each of these keys its number. Required: these are the numbers after deltas of which none is
    /// refused. Takes no memory.
    fn commit_many(&mut self, deltas: &[Delta], many: Numbers)
        requires taken { are_refused self.old deltas.now ≡ false }
        requires planned { IsRecountOf self.old deltas.now (Many many) }
        ensures { self.new ≡ counts_told self.old deltas.now }
    {
        let Numbers {
            numbers,
            bytes,
            room,
        } = many;
        let entries = replace(&mut self.entries, Vec::new(self.alloc));
        self.entries = entries_after(entries, numbers, room);
        self.bytes = bytes;
    }

    /// Counts these deltas, in order. Required: none of them is refused, and the recount is the one that
    /// [`Local::plan`] gives for them. Takes no memory.
    pub fn commit(&mut self, deltas: &[Delta], recount: Recount)
        requires taken { are_refused self.old deltas.now ≡ false }
        requires planned { IsRecountOf self.old deltas.now recount }
        ensures { self.new ≡ counts_told self.old deltas.now }
    {
        match recount {
            Recount::Few(opened) => self.commit_few(deltas, opened),
            Recount::Many(many) => self.commit_many(deltas, many),
        }
    }
}
