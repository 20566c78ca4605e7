//! The open subscriptions of a shard: the trait that every table of them implements, and the simplest table, a
//! list.
//!
//! ```text
//! let mut table = ListTable::new(alloc)?;
//! table.add(Subscription { serial: 1, conn, key, sid, delivered: 0, max: None })?;
//! let found = table.matching(&subject.lent())?;
//! ```
//!
//! Read first: [`Subscription`], [`SubTable`], [`ListTable`].
#![tactic(auto)]

ghost use Rattle.std.specs.Prelude.{◌≡◌, ◌<◌, ◌+◌, nat_le, [], ◌∷◌, ◌++◌, length, map, filter, position, IfOk, OnOk, OnErr, All};
ghost use Rattle.std.specs.List.{find as find_in};
ghost use Rattle.std.specs.Option.{option_copied};
ghost use Rattle.sub_table.specs.Subscriptions.{total_cost, gets, is_of_another, has_serial, without_serial, serial_called, serials_of, CountFits, CountsFit, with_more, with_one_more, with_max, matching_of, is_room, room_left as left_of_room};

use std::alloc::{AllocError, Global};
use subj::{ConnId, Key, LentSubject, Sid};

/// An open subscription. (NATS documentation, "Client Protocol": `SUB`.)
#[derive(Drop)]
pub struct Subscription {
    /// Its place in the order of opening, counted from 1 in each shard.
    pub serial: u64,
    /// The connection that it belongs to.
    pub conn: ConnId,
    /// What it asks for, and as a member of which queue group.
    pub key: Key,
    /// What its client calls it.
    pub sid: Sid,
    /// How many messages were delivered to it.
    pub delivered: u64,
    /// How many messages it is to get in all, where there is a limit.
    pub max: Option<u64>,
}

/// How many entries, and how many bytes, may still be put for a connection.
#[derive(Clone, Copy)]
pub struct Room {
    pub entries: usize,
    pub bytes: usize,
}

/// What is left of the room behind a message for the subscription, where it is one of the connection that gets the subject; else
/// all of it. The message has so many bytes beside the id of the subscription. None where there is no room for it.
pub fn room_left(
    conn: ConnId,
    subject: &LentSubject<'_>,
    len: usize,
    sub: &Subscription,
    room: Room,
) -> Option<Room>
    ensures { result ≡ left_of_room conn subject.now len sub.now room }
{
    if sub.conn != conn || !sub.key.pattern.matches(subject) {
        return Some(room);
    }
    let entries = room.entries.checked_sub(1)?;
    let behind_len = room.bytes.checked_sub(len)?;
    let bytes = behind_len.checked_sub(sub.sid.bytes().len())?;
    Some(Room { entries, bytes })
}

/// The open subscriptions of a shard, however they are kept.
///
/// Seen as their list in order of opening, which is that of their serials.
pub trait SubTable: Sized + Drop {
    ghost use Rattle.std.specs.Prelude.{List};
    ghost use Rattle.sub_table.specs.declared.Subscription.{Subscription};

    /// In order of opening.
    ghost contents: { Self → List Subscription };

    /// A table without subscriptions.
    fn new(alloc: Global) -> Result<Self, AllocError>
        ensures { IfOk result (λ table. contents table ≡ []) };

    /// How many are open.
    fn len(&self) -> usize
        ensures { result ≡ length (contents self.now) };

    /// Whether the open subscriptions and one more that counts so much count at most so many bytes
    /// together. Takes no memory.
    fn fits(&self, cost: u64, limit: u64) -> bool
        ensures { result ≡ nat_le (total_cost (contents self.now) + cost) limit };

    /// Opens one more, whose serial is above all others. Want of memory leaves the table as it was.
    fn add(&mut self, sub: Subscription) -> Result<(), AllocError>
        requires { All (λ other. other.serial < sub.serial) (contents self.old) }
        ensures ok { OnOk result (contents self.new ≡ contents self.old ++ sub ∷ []) }
        ensures err { OnErr result (contents self.new ≡ contents self.old) };

    /// The one of this serial. Takes no memory.
    fn get(&self, serial: u64) -> Option<&Subscription>
        ensures { option_copied result ≡ find_in (has_serial serial) (contents self.now) };

    /// The serial of what the connection calls by this id. Takes no memory.
    fn find(&self, conn: ConnId, sid: &Sid) -> Option<u64>
        ensures { result ≡ serial_called conn sid.now (contents self.now) };

    /// Tells that the subject will be looked up. A table may keep in mind what matches it until
    /// another is opened or closed, and finds that sooner; where memory is wanting it doesn't.
    fn remember(&mut self, subject: &LentSubject<'_>)
        ensures { contents self.new ≡ contents self.old };

    /// Those whose pattern matches the subject, in order of opening.
    fn matching(&self, subject: &LentSubject<'_>) -> Result<Vec<&Subscription>, AllocError>
        ensures { IfOk result (λ subs.
            map (λ sub. sub.now) subs.items ≡ filter (gets subject.now) (contents self.now)) };

    /// Whether there is room for a message to each subscription of the connection whose pattern matches the subject. The
    /// message has so many bytes beside the id of the subscription. Takes no memory.
    fn has_room(&self, conn: ConnId, subject: &LentSubject<'_>, len: usize, room: Room) -> bool
        ensures { result ≡ is_room len room (matching_of conn subject.now (contents self.now)) };

    /// Puts the serials of a connection's subscriptions behind those that are there, in order of
    /// opening. Want of memory leaves the list as it was.
    fn serials_of(&self, conn: ConnId, serials: &mut Vec<u64>) -> Result<(), AllocError>
        ensures ok { OnOk result
            (serials.new.items ≡ serials.old.items ++ serials_of conn (contents self.now)) }
        ensures err { OnErr result (serials.new.items ≡ serials.old.items) };

    /// Counts one more message that the one of this serial got. Takes no memory.
    fn count(&mut self, serial: u64)
        requires { CountFits serial (contents self.old) }
        ensures { contents self.new ≡ with_one_more serial (contents self.old) };

    /// Counts so many messages more that the one of this serial got. Takes no memory.
    fn count_many(&mut self, serial: u64, count: u64)
        requires { CountsFit serial count (contents self.old) }
        ensures { contents self.new ≡ with_more serial count (contents self.old) };

    /// Notes how many messages the one of this serial is to get. Takes no memory.
    fn set_max(&mut self, serial: u64, max: Option<u64>)
        ensures { contents self.new ≡ with_max serial max (contents self.old) };

    /// Closes the one of this serial, and gives it. Takes no memory.
    fn remove(&mut self, serial: u64) -> Option<Subscription>
        ensures closed { result ≡ find_in (has_serial serial) (contents self.old) }
        ensures rest { contents self.new ≡ without_serial serial (contents self.old) };

    /// Closes those of a connection. Takes no memory.
    fn close(&mut self, conn: ConnId)
        ensures { contents self.new ≡ filter (is_of_another conn) (contents self.old) };
}

/// Where the subscription of this serial stands.
fn place_of(subs: &[Subscription], serial: u64) -> Option<usize>
    ensures { result ≡ position (has_serial serial) subs.now }
{
    subs.iter().position(|sub| sub.serial == serial)
}

/// A list that is scanned.
pub struct ListTable {
    alloc: Global,
    subs: Vec<Subscription>,
}

/// One call, also for crates above: `docs/PROVING.md`, "What a proof costs".
impl Drop for ListTable {
    fn drop(self) {
        let ListTable { alloc: _, subs: _ } = self;
    }
}

impl SubTable for ListTable {
    ghost contents = { λ table. table.subs.items };

    fn new(alloc: Global) -> Result<Self, AllocError> {
        Ok(ListTable {
            alloc,
            subs: Vec::new(alloc),
        })
    }

    fn len(&self) -> usize {
        self.subs.len()
    }

    fn fits(&self, cost: u64, limit: u64) -> bool {
        let Some(mut left) = limit.checked_sub(cost) else {
            return false;
        };
        for sub in &self.subs {
            let Some(rest) = left.checked_sub(sub.key.cost()) else {
                return false;
            };
            left = rest;
        }
        true
    }

    fn add(&mut self, sub: Subscription) -> Result<(), AllocError> {
        self.subs.push(sub)?;
        Ok(())
    }

    fn get(&self, serial: u64) -> Option<&Subscription> {
        self.subs.iter().find(|sub| sub.serial == serial)
    }

    fn find(&self, conn: ConnId, sid: &Sid) -> Option<u64> {
        for sub in &self.subs {
            if sub.conn == conn && sub.sid.bytes() == sid.bytes() {
                return Some(sub.serial);
            }
        }
        None
    }

    fn remember(&mut self, _subject: &LentSubject<'_>) {}

    fn matching(&self, subject: &LentSubject<'_>) -> Result<Vec<&Subscription>, AllocError> {
        let mut subs = Vec::new(self.alloc);
        for sub in &self.subs {
            if sub.key.pattern.matches(subject) {
                subs.push(sub)?;
            }
        }
        Ok(subs)
    }

    fn has_room(&self, conn: ConnId, subject: &LentSubject<'_>, len: usize, room: Room) -> bool {
        let mut room = room;
        for sub in &self.subs {
            let Some(left) = room_left(conn, subject, len, sub, room) else {
                return false;
            };
            room = left;
        }
        true
    }

    fn serials_of(&self, conn: ConnId, serials: &mut Vec<u64>) -> Result<(), AllocError> {
        let before = serials.len();
        for sub in &self.subs {
            if sub.conn == conn && serials.push(sub.serial).is_err() {
                serials.truncate(before);
                return Err(AllocError);
            }
        }
        Ok(())
    }

    fn count(&mut self, serial: u64) {
        self.count_many(serial, 1);
    }

    #[tactic(auto, using(crate::proofs::Places::changed_none))]
    fn count_many(&mut self, serial: u64, count: u64) {
        if let Some(place) = place_of(&self.subs, serial) {
            let sub = &mut self.subs[place];
            sub.delivered += count;
        }
    }

    #[tactic(auto, using(crate::proofs::Places::changed_none, crate::proofs::Places::changed_some))]
    fn set_max(&mut self, serial: u64, max: Option<u64>) {
        if let Some(place) = place_of(&self.subs, serial) {
            let sub = &mut self.subs[place];
            sub.max = max;
        }
    }

    #[tactic(auto, using(crate::proofs::Places::without_none, crate::proofs::Places::without_some, crate::proofs::Places::find_none, crate::proofs::Places::find_some))]
    fn remove(&mut self, serial: u64) -> Option<Subscription> {
        match place_of(&self.subs, serial) {
            None => None,
            Some(place) => Some(self.subs.remove(place)),
        }
    }

    fn close(&mut self, conn: ConnId) {
        self.subs.retain(|sub| sub.conn != conn);
    }
}
