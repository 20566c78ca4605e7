//! Open subscriptions, and the openings and closings that the hub was not told of yet.

ghost use Rattle.std.specs.Prelude.{◌≡◌, ◌+◌, ◌≤◌, [], ◌∷◌, filter, length, map, vec_capacity, IfOk, IfSome, OnOk, OnErr};
ghost use Rattle.std.specs.Option.{option_copied};
ghost use Rattle.list_laws.specs.Lists.{Each};
ghost use Rattle.sub_table.specs.Subscriptions.{gets, with_max};
ghost use Rattle.shard_core.specs.Members.{found_at as at_mark, found_of, is_in_group_of};
ghost use Rattle.shard_core.specs.Received.{receivers_of};
ghost use Rattle.shard_core.specs.RunReceivers.{sub_with_more};
ghost use Rattle.shard_core.specs.RunSteps.{CanCountMore, subs_by_serials};
ghost use Rattle.shard_core.specs.Tallies.{lent_subs};
ghost use Rattle.shard_core.specs.Closings.{left_of};
ghost use Rattle.shard_core.specs.Opened.{AreRising, AreApart, IsNext, CanCount, CanCountEach, none_opened, with_opening, with_counts, with_closings, all_told};

use crate::members::{Member, mark_of};
use crate::notes::Notes;
use crate::receiver::Receiver;
use std::alloc::{AllocError, Global};
use std::marker::Model;
use sub_table::{SubTable, Subscription};
use subj::{ConnId, Delta, LentSubject, QueueName};

/// Takes the memory of so many closing deltas, of an opening one, and of the closing one that is to follow it.
fn reserve_for(deltas: &mut Vec<Delta>, closings: usize) -> Result<(), AllocError>
    ensures items { deltas.new.items ≡ deltas.old.items }
    ensures places { OnOk result
        (length deltas.old.items + closings + 2 ≤ vec_capacity deltas.new) }
    ensures kept { vec_capacity deltas.old ≤ vec_capacity deltas.new }
{
    let Some(places) = closings.checked_add(2) else {
        return Err(AllocError);
    };
    deltas.reserve(places)
}

/// The open subscriptions of a shard, over any table of them, with the openings and closings that the
/// hub was not told of yet: each opening and each closing leaves one [`Delta`], in order. (Profile.)
///
/// Seen as the list of the subscriptions in order of opening, which is that of their serials, and the list
/// of the deltas. An opening takes the memory of its own delta and of the closing one, so that a closing
/// takes none.
pub struct Openings<T: SubTable> {
    alloc: Global,
    table: T,
    deltas: Vec<Delta>,
    /// What is noted of a subject.
    notes: Notes,
}

/// One call for whoever lets it go: `docs/PROVING.md`, "What a proof costs".
impl<T: SubTable> Drop for Openings<T> {
    fn drop(self) {
        let Openings {
            alloc: _,
            table: _,
            deltas: _,
            notes: _,
        } = self;
    }
}

impl<T: SubTable> Model for Openings<T> {
    ghost use Rattle.shard_core.specs.Opened.{Opened, IsOpened};

    ghost Value = { Opened };

    ghost use Rattle.std.specs.Prelude.{vec_capacity};

    ghost view = { λ o. record { subs = T.contents o.table; deltas = o.deltas.items } };

    ghost invariant = { λ o.
        IsOpened (T.contents o.table) o.deltas.items (vec_capacity o.deltas) o.notes };
}

impl<T: SubTable> Openings<T> {
    /// No subscription is open.
    pub fn new(alloc: Global) -> Result<Self, AllocError>
        ensures { IfOk result (λ openings. openings ≡ none_opened) }
    {
        Ok(Openings {
            alloc,
            table: T::new(alloc)?,
            deltas: Vec::new(alloc),
            notes: Notes::new(alloc),
        })
    }

    /// The table of the open subscriptions.
    pub fn table(&self) -> &T
        ensures subs { T.contents result.now ≡ self.now.subs }
        ensures rising { AreRising self.now.subs }
    {
        &self.table
    }

    /// What the hub was not told of yet, in order.
    pub fn deltas(&self) -> &[Delta]
        ensures { result.now ≡ self.now.deltas }
    {
        &self.deltas
    }

    /// Opens one more, whose serial is above all others. Want of memory leaves all as it was.
    pub fn open(&mut self, sub: Subscription) -> Result<(), AllocError>
        requires { IsNext sub.serial self.old.subs }
        ensures ok { OnOk result (self.new ≡ with_opening sub self.old) }
        ensures err { OnErr result (self.new ≡ self.old) }
    {
        let key = sub.key.try_clone(self.alloc)?;
        reserve_for(&mut self.deltas, self.table.len())?;
        self.table.add(sub)?;
        self.notes.forget(); // one more may receive the subject
        self.deltas.push_reserved(Delta { key, up: true });
        Ok(())
    }

    /// Counts one more message that the one of this serial got, where it is open. Takes no memory.
    pub fn count(&mut self, serial: u64)
        requires { CanCount serial self.old.subs }
        ensures { self.new ≡ with_counts (serial ∷ []) self.old }
    {
        self.table.count(serial);
    }

    /// Counts one more message that each of these serials got, where it is open. Takes no memory.
    pub fn count_all(&mut self, given: &[u64])
        requires apart { AreApart given.now }
        requires room { CanCountEach given.now self.old.subs }
        ensures { self.new ≡ with_counts given.now self.old }
    {
        for serial in given {
            self.count(*serial);
        }
    }

    /// Counts so many messages more that the one of this serial got, where it is open. Takes no memory.
    pub fn count_many(&mut self, serial: u64, count: u64)
        requires { CanCountMore count serial self.old.subs }
        ensures { self.new
            ≡ record self.old { subs = map (sub_with_more serial count) self.old.subs } }
    {
        self.table.count_many(serial, count);
    }

    /// Counts so many messages more that each of these serials got, where it is open. Takes no memory.
    pub fn count_run(&mut self, given: &[u64], count: u64)
        requires apart { AreApart given.now }
        requires room { Each (λ serial. CanCountMore count serial self.old.subs) given.now }
        ensures { self.new
            ≡ record self.old { subs = subs_by_serials count given.now self.old.subs } }
    {
        for serial in given {
            self.count_many(*serial, count);
        }
    }

    /// Notes how many messages the one of this serial is to get, where it is open. Takes no memory.
    pub fn set_max(&mut self, serial: u64, max: Option<u64>)
        ensures { self.new ≡ record self.old { subs = with_max serial max self.old.subs } }
    {
        self.notes.forget(); // a receiver may have a maximum now
        self.table.set_max(serial, max);
    }

    /// Closes the one of this serial, where it is open. Takes no memory.
    pub fn close(&mut self, serial: u64)
        ensures { self.new ≡ with_closings (serial ∷ []) self.old }
    {
        self.notes.forget(); // a receiver may be gone
        if let Some(sub) = self.table.remove(serial) {
            let Subscription { key, .. } = sub;
            self.deltas.push_reserved(Delta { key, up: false });
        }
    }

    /// Closes those of these serials that are open, in this order. Takes no memory.
    pub fn close_all(&mut self, ended: &[u64])
        requires { AreApart ended.now }
        ensures { self.new ≡ with_closings ended.now self.old }
    {
        for serial in ended {
            self.close(*serial);
        }
    }

    /// Tells that the subject will be looked up. Where its jobs come in a row, and there is memory, [`Openings::receivers`] has
    /// those who receive it from here on, and else the table may find them sooner.
    pub fn remember(&mut self, subject: &LentSubject<'_>)
        ensures { self.new ≡ self.old }
    {
        self.notes.receivers.turn_to(subject.bytes());
        if self.notes.receivers.of(subject.bytes()).is_some() {
            return;
        }
        self.table.remember(subject);
        if self.notes.receivers.is_second(subject) {
            self.note_receivers(subject);
        }
    }

    /// Notes who receives the subject, where they are few, and who of these are members of queue groups; where there is memory.
    fn note_receivers(&mut self, subject: &LentSubject<'_>)
        ensures { self.new ≡ self.old }
    {
        if let Ok(matching) = self.table.matching(subject) {
            let _ = self.notes.receivers.note(self.alloc, subject, &matching);
            let _ = self.notes.members.note(subject, &matching);
        }
    }

    /// Tells that jobs of the subject will be worked in one call: [`Openings::receivers`] has those who receive it from here on, where they
    /// are few and there is memory.
    pub fn note_for_run(&mut self, subject: &LentSubject<'_>)
        ensures { self.new ≡ self.old }
    {
        self.notes.receivers.turn_to(subject.bytes());
        if self.notes.receivers.of(subject.bytes()).is_some() {
            return;
        }
        self.table.remember(subject);
        if let Ok(matching) = self.table.matching(subject) {
            let _ = self.notes.receivers.note(self.alloc, subject, &matching);
        }
    }

    /// All who receive the subject, in order of opening, where they are noted and this is the subject that was told of last
    /// ([`Openings::remember`], [`Openings::note_for_run`]).
    pub fn receivers(&self, subject: &[u8]) -> Option<&[Receiver]>
        ensures all { IfSome result (λ receivers.
            receivers.now ≡ receivers_of subject.now (filter (gets subject.now) self.now.subs)) }
        ensures rising { AreRising self.now.subs }
    {
        self.notes.receivers.of(subject)
    }

    /// Notes the members of queue groups that match the subject, where there is memory: [`Openings::members`]
    /// finds them sooner then.
    pub fn note_members(&mut self, subject: &LentSubject<'_>)
        ensures { self.new ≡ self.old }
    {
        if self.notes.members.of(subject).is_some() {
            return;
        }
        if let Ok(matching) = self.table.matching(subject) {
            let _ = self.notes.members.note(subject, &matching);
        }
    }

    /// Those that match the subject and may be members of the queue group of this name: all that are, in
    /// order of opening, and perhaps others.
    pub fn members(
        &self,
        subject: &LentSubject<'_>,
        name: &QueueName,
    ) -> Result<Vec<&Subscription>, AllocError>
        ensures all { IfOk result (λ subs.
            filter (is_in_group_of name.now) (lent_subs subs.items)
            ≡ filter (is_in_group_of name.now) (filter (gets subject.now) self.now.subs)) }
        ensures rising { AreRising self.now.subs }
    {
        match self.notes.members.of(subject) {
            None => self.table.matching(subject),
            Some(members) => {
                let subs = self.subs_of_mark(members, mark_of(name.bytes()))?;
                Ok(subs)
            }
        }
    }

    /// The open ones among the members of this mark, in order.
    fn subs_of_mark(&self, members: &[Member], mark: u64) -> Result<Vec<&Subscription>, AllocError>
        ensures { IfOk result (λ subs.
            lent_subs subs.items ≡ found_of self.now.subs mark members.now) }
    {
        let mut subs = Vec::new(self.alloc);
        for member in members {
            if let Some(sub) = self.found_at(*member, mark) {
                subs.push(sub)?;
            }
        }
        Ok(subs)
    }

    /// The open subscription of a member of this mark.
    fn found_at(&self, member: Member, mark: u64) -> Option<&Subscription>
        ensures { option_copied result ≡ at_mark self.now.subs mark member }
    {
        if member.mark != mark {
            return None;
        }
        self.table.get(member.serial)
    }

    /// The serials of a connection's subscriptions but these, in order of opening.
    pub fn left_of(&self, conn: ConnId, ended: &[u64]) -> Result<Vec<u64>, AllocError>
        ensures { IfOk result (λ left. left.items ≡ left_of conn ended.now self.now.subs) }
    {
        let mut left = Vec::new(self.alloc);
        self.table.serials_of(conn, &mut left)?;
        left.retain(|serial| !ended.contains(serial));
        Ok(left)
    }

    /// The hub was told of all. Takes no memory, and keeps what closings need.
    pub fn take_deltas(&mut self)
        ensures { self.new ≡ all_told self.old }
    {
        self.deltas.clear();
    }
}
