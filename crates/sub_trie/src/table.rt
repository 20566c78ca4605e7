//! The table.

ghost use Rattle.std.specs.Prelude.{◌≡◌, ℕ};
ghost use Rattle.std.specs.Bool.{nat_eq};
ghost use Rattle.sub_table.specs.Subscriptions.{serials_of, without_serial};
ghost use Rattle.pattern_trie.specs.Starts.{node_count};
ghost use Rattle.sub_trie.specs.Groups.{list_at, AreCalled, without_each};
ghost use Rattle.sub_trie.specs.Rising.{held_of, subs_in_order};

use crate::groups::{
    copy_serials, first_serial, push_serial, serials_under, take_all, take_serial,
};
use crate::opened::Opened;
use arrayvec::ArrayVec;
use std::alloc::{AllocError, Global};
use std::collections::HashMap;
use sub_table::{Room, SubTable, Subscription};
use subj::{ConnId, LentSubject, MAX_SID, Sid};

/// A connection, and what it calls a subscription.
type Called = (u64, ArrayVec<u8, MAX_SID>);

/// The serials of what each connection calls by an id.
type BySid = HashMap<Called, Vec<u64>>;

fn call_key(conn: ConnId, sid: &Sid) -> Called
    ensures conn { result.0 ≡ conn }
    ensures sid { result.1.items ≡ sid.now }
{
    (conn.get(), ArrayVec::try_from(sid.bytes()).unwrap())
}

/// Closes the one of this serial, and takes it away from its connection's id. Takes no memory.
fn close_one(opened: &mut Opened, by_sid: &mut BySid, serial: u64)
    requires { AreCalled by_sid.old (subs_in_order opened.old.subs) }
    ensures closed { subs_in_order opened.new.subs
        ≡ without_serial serial (subs_in_order opened.old.subs) }
    ensures called { AreCalled by_sid.new (subs_in_order opened.new.subs) }
{
    match opened.remove(serial) {
        None => {}
        Some(sub) => take_serial(by_sid, &call_key(sub.conn, &sub.sid), serial),
    }
}

/// Closes those of these serials, and takes each away from its connection's id. Takes no memory.
fn close_each(opened: &mut Opened, by_sid: &mut BySid, serials: &[u64])
    requires { AreCalled by_sid.old (subs_in_order opened.old.subs) }
    ensures closed { subs_in_order opened.new.subs
        ≡ without_each serials.now (subs_in_order opened.old.subs) }
    ensures called { AreCalled by_sid.new (subs_in_order opened.new.subs) }
{
    for serial in serials {
        close_one(opened, by_sid, *serial);
    }
}

/// A table that finds what a subject matches, what a connection calls by an id, and all of a
/// connection by what is found, and not by going through what is open.
pub struct TrieTable {
    alloc: Global,
    opened: Opened,
    /// The serials of each connection's subscriptions.
    by_conn: HashMap<u64, Vec<u64>>,
    /// The serials of what a connection calls by an id.
    by_sid: BySid,
    ghost owned: { (conn : ℕ)
        → list_at nat_eq by_conn conn ≡ serials_of conn (subs_in_order opened.subs) },
    ghost called: { AreCalled by_sid (subs_in_order opened.subs) },
}

/// One call, also for crates above: `docs/PROVING.md`, "What a proof costs".
impl Drop for TrieTable {
    fn drop(self) {
        let TrieTable {
            alloc: _,
            opened: _,
            by_conn: _,
            by_sid: _,
        } = self;
    }
}

impl TrieTable {
    /// How many nodes the trie of the patterns has: one for each beginning of their token lists,
    /// the one without a token counted. Takes no memory.
    pub fn nodes(&self) -> usize
        ensures { result ≡ node_count (held_of (⟦<TrieTable as SubTable>⟧.contents self.now)) }
    {
        self.opened.nodes()
    }
}

impl SubTable for TrieTable {
    ghost contents = { λ table. subs_in_order table.opened.subs };

    fn new(alloc: Global) -> Result<Self, AllocError> {
        Ok(TrieTable {
            alloc,
            opened: Opened::new(alloc),
            by_conn: HashMap::new(alloc),
            by_sid: HashMap::new(alloc),
        })
    }

    fn len(&self) -> usize {
        self.opened.len()
    }

    fn fits(&self, cost: u64, limit: u64) -> bool {
        self.opened.fits(cost, limit)
    }

    fn add(&mut self, sub: Subscription) -> Result<(), AllocError> {
        let conn = sub.conn.get();
        let key = call_key(sub.conn, &sub.sid);
        let serial = sub.serial;
        self.opened.add(sub)?;
        if push_serial(self.alloc, &mut self.by_conn, conn, serial).is_err() {
            self.opened.remove(serial);
            return Err(AllocError);
        }
        if push_serial(self.alloc, &mut self.by_sid, key, serial).is_err() {
            take_serial(&mut self.by_conn, &conn, serial);
            self.opened.remove(serial);
            return Err(AllocError);
        }
        Ok(())
    }

    fn get(&self, serial: u64) -> Option<&Subscription> {
        self.opened.get(serial)
    }

    fn find(&self, conn: ConnId, sid: &Sid) -> Option<u64> {
        first_serial(&self.by_sid, &call_key(conn, sid))
    }

    fn remember(&mut self, subject: &LentSubject<'_>) {
        self.opened.remember(subject);
    }

    fn matching(&self, subject: &LentSubject<'_>) -> Result<Vec<&Subscription>, AllocError> {
        self.opened.matching(subject)
    }

    fn has_room(&self, conn: ConnId, subject: &LentSubject<'_>, len: usize, room: Room) -> bool {
        let serials = serials_under(&self.by_conn, &conn.get());
        self.opened.has_room(serials, conn, subject, len, room)
    }

    fn serials_of(&self, conn: ConnId, serials: &mut Vec<u64>) -> Result<(), AllocError> {
        copy_serials(&self.by_conn, &conn.get(), serials)
    }

    fn count(&mut self, serial: u64) {
        self.count_many(serial, 1);
    }

    fn count_many(&mut self, serial: u64, count: u64) {
        self.opened.count_many(serial, count);
    }

    fn set_max(&mut self, serial: u64, max: Option<u64>) {
        self.opened.set_max(serial, max);
    }

    fn remove(&mut self, serial: u64) -> Option<Subscription> {
        match self.opened.remove(serial) {
            None => None,
            Some(sub) => {
                take_serial(&mut self.by_conn, &sub.conn.get(), serial);
                take_serial(&mut self.by_sid, &call_key(sub.conn, &sub.sid), serial);
                Some(sub)
            }
        }
    }

    fn close(&mut self, conn: ConnId) {
        let serials = take_all(self.alloc, &mut self.by_conn, &conn.get());
        close_each(&mut self.opened, &mut self.by_sid, &serials);
    }
}
