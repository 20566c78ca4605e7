//! The open subscriptions by their serials, and a trie of these.

ghost use Rattle.std.specs.Prelude.{◌≡◌, ◌<◌, ◌+◌, nat_le, true, [], ◌∷◌, ◌++◌, length, map, filter, IfOk, OnOk, OnErr, All};
ghost use Rattle.std.specs.List.{find as find_in};
ghost use Rattle.std.specs.Option.{option_copied};
ghost use Rattle.std.proofs.Props.{props};
ghost use Rattle.sub_table.specs.Subscriptions.{total_cost, gets, has_serial, without_serial, CountsFit, with_more, with_max, matching_of, is_room};
ghost use Rattle.pattern_trie.specs.Held.{Holds};
ghost use Rattle.pattern_trie.specs.Starts.{node_count};
ghost use Rattle.sub_trie.specs.Rising.{is_keyed, is_rising, held_of, rows, subs_in_order};
ghost use Rattle.sub_trie.specs.Recalls.{AreRight, serials_for, subs_of_serials};

use crate::recent::Recent;
use pattern_trie::PatternTrie;
use std::alloc::{AllocError, Global};
use std::collections::HashMap;
use sub_table::{Room, Subscription, room_left};
use subj::{ConnId, LentSubject};

/// Open subscriptions, each under its serial, and their serials in a trie of patterns.
#[derive(Drop)]
pub(crate) struct Opened {
    alloc: Global,
    pub(crate) subs: HashMap<u64, Subscription>,
    trie: PatternTrie<u64>,
    /// What they count together.
    cost: u64,
    recent: Recent,
    ghost keyed: { is_keyed (rows subs) ≡ true },
    ghost rising: { is_rising (subs_in_order subs) ≡ true },
    ghost held: { Holds (held_of (subs_in_order subs)) trie.nodes } by { Prim.hlevel props },
    ghost counted: { cost ≡ total_cost (subs_in_order subs) },
    ghost right: { AreRight (subs_in_order subs) recent.generation recent.slots.items },
}

impl Opened {
    pub(crate) fn new(alloc: Global) -> Opened
        ensures { subs_in_order result.subs ≡ [] }
    {
        Opened {
            alloc,
            subs: HashMap::new(alloc),
            trie: PatternTrie::new(alloc),
            cost: 0,
            recent: Recent::new(alloc),
        }
    }

    pub(crate) fn len(&self) -> usize
        ensures { result ≡ length (subs_in_order self.now.subs) }
    {
        self.subs.len()
    }

    /// Whether they and one more that counts so much count at most so many bytes together.
    pub(crate) fn fits(&self, cost: u64, limit: u64) -> bool
        ensures { result ≡ nat_le (total_cost (subs_in_order self.now.subs) + cost) limit }
    {
        match self.cost.checked_add(cost) {
            Some(sum) => sum <= limit,
            None => false,
        }
    }

    /// Opens one more, whose serial is above all others. Want of memory leaves all as it was.
    pub(crate) fn add(&mut self, sub: Subscription) -> Result<(), AllocError>
        requires { All (λ other. other.serial < sub.serial) (subs_in_order self.old.subs) }
        ensures ok { OnOk result
            (subs_in_order self.new.subs ≡ subs_in_order self.old.subs ++ sub ∷ []) }
        ensures err { OnErr result (subs_in_order self.new.subs ≡ subs_in_order self.old.subs) }
    {
        let cost = self.cost.checked_add(sub.key.cost()).ok_or(AllocError)?;
        let serial = sub.serial;
        self.recent.forget();
        self.trie.insert(&sub.key.pattern, serial)?;
        match self.subs.insert(serial, sub) {
            Ok(_) => {
                self.cost = cost;
                Ok(())
            }
            Err(failed) => {
                let (_, sub) = failed.value;
                self.trie.remove(&sub.key.pattern, serial);
                Err(AllocError)
            }
        }
    }

    /// The one of this serial. Takes no memory.
    pub(crate) fn get(&self, serial: u64) -> Option<&Subscription>
        ensures { option_copied result ≡ find_in (has_serial serial) (subs_in_order self.now.subs) }
    {
        self.subs.get(&serial)
    }

    /// The serials of those whose pattern matches the subject, in order of opening.
    fn serials_for(&self, subject: &LentSubject<'_>) -> Result<Vec<u64>, AllocError>
        ensures { IfOk result (λ serials.
            serials.items ≡ serials_for subject.now (subs_in_order self.now.subs)) }
    {
        let mut serials = Vec::new(self.alloc);
        self.trie.matching(subject, &mut serials)?;
        serials.sort_unstable();
        Ok(serials)
    }

    /// Those of these serials.
    fn look_up(&self, serials: &[u64]) -> Result<Vec<&Subscription>, AllocError>
        ensures { IfOk result (λ subs.
            map (λ sub. sub.now) subs.items
            ≡ subs_of_serials (subs_in_order self.now.subs) serials.now) }
    {
        let mut subs = Vec::with_capacity(self.alloc, serials.len())?;
        for serial in serials {
            if let Some(sub) = self.get(*serial) {
                subs.push(sub)?;
            }
        }
        Ok(subs)
    }

    /// Whether there is room for a message to those of these serials that are of the connection and match the subject. The
    /// message has so many bytes beside the id of the subscription. Takes no memory.
    pub(crate) fn has_room(
        &self,
        serials: &[u64],
        conn: ConnId,
        subject: &LentSubject<'_>,
        len: usize,
        room: Room,
    ) -> bool
        ensures { result
            ≡ is_room len room
            (matching_of conn subject.now
            (subs_of_serials (subs_in_order self.now.subs) serials.now)) }
    {
        let mut room = room;
        for serial in serials {
            let Some(sub) = self.get(*serial) else {
                continue;
            };
            let Some(left) = room_left(conn, subject, len, sub, room) else {
                return false;
            };
            room = left;
        }
        true
    }

    /// Those whose pattern matches the subject, in order of opening.
    pub(crate) fn matching(
        &self,
        subject: &LentSubject<'_>,
    ) -> Result<Vec<&Subscription>, AllocError>
        ensures { IfOk result (λ subs.
            map (λ sub. sub.now) subs.items
            ≡ filter (gets subject.now) (subs_in_order self.now.subs)) }
    {
        if self.len() == 0 {
            return Ok(Vec::new(self.alloc));
        }
        if let Some(serials) = self.recent.recall(subject.bytes()) {
            return self.look_up(serials);
        }
        let serials = self.serials_for(subject)?;
        self.look_up(&serials)
    }

    /// Keeps in mind which match the subject, where it was told often and there is memory.
    pub(crate) fn remember(&mut self, subject: &LentSubject<'_>)
        ensures { subs_in_order self.new.subs ≡ subs_in_order self.old.subs }
    {
        if self.len() > 0 && self.recent.is_due() {
            self.keep_in_mind(subject);
        }
    }

    /// Keeps in mind which match the subject, where there is memory.
    #[inline(never)]
    fn keep_in_mind(&mut self, subject: &LentSubject<'_>)
        ensures { subs_in_order self.new.subs ≡ subs_in_order self.old.subs }
    {
        if self.recent.recall(subject.bytes()).is_some() {
            return;
        }
        if let Ok(serials) = self.serials_for(subject) {
            self.recent.keep(subject.bytes(), &serials);
        }
    }

    /// Counts so many messages more that the one of this serial got. Takes no memory.
    pub(crate) fn count_many(&mut self, serial: u64, count: u64)
        requires { CountsFit serial count (subs_in_order self.old.subs) }
        ensures { subs_in_order self.new.subs
            ≡ with_more serial count (subs_in_order self.old.subs) }
    {
        if let Some(sub) = self.subs.get_mut(&serial) {
            sub.delivered += count;
        }
    }

    /// Notes how many messages the one of this serial is to get. Takes no memory.
    pub(crate) fn set_max(&mut self, serial: u64, max: Option<u64>)
        ensures { subs_in_order self.new.subs ≡ with_max serial max (subs_in_order self.old.subs) }
    {
        if let Some(sub) = self.subs.get_mut(&serial) {
            sub.max = max;
        }
    }

    /// Closes the one of this serial, and gives it. Takes no memory.
    pub(crate) fn remove(&mut self, serial: u64) -> Option<Subscription>
        ensures closed { result ≡ find_in (has_serial serial) (subs_in_order self.old.subs) }
        ensures rest { subs_in_order self.new.subs
            ≡ without_serial serial (subs_in_order self.old.subs) }
    {
        match self.subs.remove(&serial) {
            None => None,
            Some(sub) => {
                self.trie.remove(&sub.key.pattern, sub.serial);
                self.cost -= sub.key.cost();
                self.recent.forget();
                Some(sub)
            }
        }
    }

    /// How many beginnings the token lists of their patterns have, the empty one counted.
    pub(crate) fn nodes(&self) -> usize
        ensures { result ≡ node_count (held_of (subs_in_order self.now.subs)) }
    {
        self.trie.nodes()
    }
}
