//! What recent subjects matched.

ghost use Rattle.std.specs.Prelude.{◌≡◌, ◌<◌, ◌≤◌, List, IfOk, IfSome, All};
ghost use Rattle.sub_table.specs.declared.Subscription.{Subscription};
ghost use Rattle.sub_trie.specs.declared.recent.TheConstants.{PLACES, WAYS};
ghost use Rattle.sub_trie.specs.Recalls.{AreRight, serials_for};

use crate::slot::Slot;
use std::alloc::{AllocError, Global};
use std::hash::{FoldHasher, Hasher};

/// How many places there are that a subject may begin at.
const PLACES: u64 = 16_384;

/// A subject is kept in one of so many slots from its place on.
const WAYS: usize = 4;

/// How many slots there are: so many from the last place on, too.
const SLOTS: usize = 16_387;

/// Of the subjects that are told, one in so many is looked for, and kept where it is not: one that comes once
/// costs little, and one that comes often is soon there.
const TOLD_FOR_EACH_KEPT: u64 = 8;

/// A subject that matches more is not kept: looking it up again costs little beside what it matches.
const MOST_SERIALS: usize = 32;

/// The serials that recent subjects matched. Whatever is opened or closed begins a new generation, and what
/// was written in an earlier one counts no longer.
#[derive(Drop)]
pub(crate) struct Recent {
    alloc: Global,
    /// None before the first subject is kept, and then all of them.
    slots: Vec<Slot>,
    /// The hash of the subject in each slot, side by side: one look tells where a subject may be.
    hashes: Vec<u64>,
    /// Counted from 1.
    generation: u64,
    /// How many subjects were told.
    told: u64,
    /// How many subjects were kept, which says the way of the next one.
    kept: usize,
    ghost counted: { 0 < generation },
    ghost older: { All (λ slot. slot.generation ≤ generation) slots.items },
}

fn hash_of(subject: &[u8]) -> u64 {
    let mut hasher = FoldHasher::default();
    hasher.write(subject);
    hasher.finish()
}

/// The first of the slots that a subject of this hash may be kept in.
fn first_place(hash: u64) -> usize
    ensures { result < PLACES }
{
    (hash % PLACES) as usize
}

/// The first of the slots from this place on that has this hash. A slot that never had a subject has 0.
fn place_of(hashes: &[u64], first: usize, hash: u64) -> Option<usize>
    requires { first < PLACES }
{
    let ways = hashes.get(first..first + WAYS)?;
    let way = ways.iter().position(|kept| *kept == hash)?;
    first.checked_add(way)
}

/// The slot for a subject of this hash: the one that has such a subject, or else one that never had any, or else this one of its own.
/// The hash is noted where there is memory.
fn take_place(hashes: &mut Vec<u64>, hash: u64, way: usize) -> usize
    requires { way < WAYS }
{
    let first = first_place(hash);
    let same = place_of(hashes, first, hash);
    let free = place_of(hashes, first, 0);
    let place = same.or(free).unwrap_or(first + way);
    if hashes.is_empty() && hashes.resize(SLOTS, 0).is_err() {
        return place;
    }
    if let Some(kept) = hashes.get_mut(place) {
        *kept = hash;
    }
    place
}

/// All slots, with no subject in any.
fn empty_slots(alloc: Global) -> Result<Vec<Slot>, AllocError>
    ensures { IfOk result (λ slots. All (λ slot. slot.generation ≡ 0) slots.items) }
{
    let mut slots = Vec::with_capacity(alloc, SLOTS)?;
    for _ in 0..SLOTS {
        slots.push(Slot::new(alloc))?;
    }
    Ok(slots)
}

impl Recent {
    /// No subject is kept.
    pub(crate) fn new(alloc: Global) -> Recent
        ensures { (subs : List Subscription) → AreRight subs result.generation result.slots.items }
    {
        Recent {
            alloc,
            slots: Vec::new(alloc),
            hashes: Vec::new(alloc),
            generation: 1,
            told: 0,
            kept: 0,
        }
    }

    /// What was kept counts no longer. Takes no memory.
    pub(crate) fn forget(&mut self)
        ensures { (subs : List Subscription)
            → AreRight subs self.new.generation self.new.slots.items }
    {
        match self.generation.checked_add(1) {
            Some(next) => self.generation = next,
            None => self.slots.clear(),
        }
    }

    /// The serials of what the subject matches, where they are kept. Takes no memory.
    pub(crate) fn recall(&self, subject: &[u8]) -> Option<&[u64]>
        ensures { (subs : List Subscription)
            → AreRight subs self.now.generation self.now.slots.items
            → IfSome result (λ serials. serials.now ≡ serials_for subject.now subs) }
    {
        let hash = hash_of(subject);
        let place = place_of(&self.hashes, first_place(hash), hash)?;
        let slot = self.slots.get(place)?;
        if slot.is_of(self.generation, subject) {
            Some(slot.serials())
        } else {
            None
        }
    }

    /// Whether a subject is to be kept that is told now: it is one of many.
    pub(crate) fn is_due(&mut self) -> bool
        ensures { (subs : List Subscription)
            → AreRight subs self.old.generation self.old.slots.items
            → AreRight subs self.new.generation self.new.slots.items }
    {
        self.told = self.told.wrapping_add(1);
        self.told % TOLD_FOR_EACH_KEPT == 0
    }

    /// Keeps what the subject matches, where these are few and there is memory.
    pub(crate) fn keep(&mut self, subject: &[u8], serials: &[u64])
        ensures { (subs : List Subscription)
            → AreRight subs self.old.generation self.old.slots.items
            → serials.now ≡ serials_for subject.now subs
            → AreRight subs self.new.generation self.new.slots.items }
    {
        if serials.len() > MOST_SERIALS {
            return;
        }
        if self.slots.is_empty() {
            match empty_slots(self.alloc) {
                Ok(slots) => self.slots = slots,
                Err(_) => return,
            }
        }
        self.kept = self.kept.wrapping_add(1);
        let place = take_place(&mut self.hashes, hash_of(subject), self.kept % WAYS);
        if let Some(slot) = self.slots.get_mut(place) {
            slot.fill(self.generation, subject, serials);
        }
    }
}
