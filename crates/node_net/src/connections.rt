//! The connections of a server, and what is noted of them until it is done: which are to be served, written to and closed, and until when one may
//! stay as it is. That is a client that is closed once its last bytes are written, a route that has not told who it is, and one that takes nothing
//! of what waits for it. No deadline waits for a stream.

ghost use Rattle.std.specs.Prelude.{◌≡◌, IfSome};
ghost use Rattle.node_net.specs.Keyed.{ChangesAt, Behind};
ghost use Rattle.node_net.specs.Sending.{SendsWhole, Rests, IsNoted, IsBlamed, GivesUp, IsGivenUp, IsGivenUpFor};
ghost use Rattle.node_net.specs.Telling.{ReachesAt, SendsMail};

use crate::connection::{Cause, Connection, Ending};
use crate::limits::{IDLE, IDLE_STEP, LAST_BYTES, RETRY, ROUTE_STALL};
use crate::loops::Mail;
use net_streams::Stream;
use server_events::{Events, RefusalCause};
use slab::Slab;
use std::alloc::{AllocError, Global};
use std::collections::VecDeque;

/// The connections of a server, by their keys. In each list of keys but `awaited` each stands once, and there is room for all.
#[derive(Drop)]
pub(crate) struct Connections<S: Stream> {
    pub table: Slab<Connection<S>>,
    /// Connections for which something may wait.
    pub awaited: Vec<usize>,
    /// Whether something may wait for any client.
    pub awaits_any: bool,
    /// Whether something may wait for other servers.
    pub has_told: bool,
    /// Connections that are to be served in the next turn, although nothing tells of them, and those of this turn.
    pub again: Vec<usize>,
    pub serving: Vec<usize>,
    /// Connections that are held until a shard has finished a turn, in the order in which they were.
    pub held: VecDeque<usize>,
    /// Connections that go at the end of the turn, and those that are going.
    pub leaving: Vec<usize>,
    pub going: Vec<usize>,
    /// Milliseconds since the loop began.
    pub now: u64,
    /// No connection's deadline comes before this time; the greatest number where none comes.
    next_deadline: u64,
    /// How many turns were made.
    pub turns: u64,
    /// How many bytes came in the last one.
    pub came: usize,
    /// Whether there was no memory for something, which is tried again.
    pub is_short: bool,
    /// Whether clients are closed once nothing waits for them.
    pub drains: bool,
    /// Clients that were served or written to since it was looked last for which of them nothing waits, where they are closed then; and
    /// whether all are to be looked at.
    pub quiet: Vec<usize>,
    pub looks_at_all: bool,
    /// What has happened since it was told last.
    pub events: Events,
}

/// Puts a key behind the others. Whether there was memory for it.
fn keep(keys: &mut Vec<usize>, key: usize) -> bool {
    keys.push(key).is_ok()
}

/// The keys that were noted are seen to now, and the list of those that were is there for others. Gives how many there are.
pub(crate) fn swapped(noted: &mut Vec<usize>, now: &mut Vec<usize>) -> usize {
    std::mem::swap(noted, now);
    now.len()
}

/// Puts a value among others. Gives its key.
fn insert<T: Drop>(table: &mut Slab<T>, value: T) -> Result<usize, AllocError> {
    match table.insert(value) {
        Ok(key) => Ok(key),
        Err(_) => Err(AllocError),
    }
}

/// Until when a connection that is shut at this time may stay.
pub(crate) fn last_bytes(now: u64) -> u64 {
    now.saturating_add(LAST_BYTES)
}

impl<S: Stream> Connections<S> {
    /// There are none.
    pub fn new(alloc: Global) -> Connections<S> {
        Connections {
            table: Slab::new(alloc),
            awaited: Vec::new(alloc),
            awaits_any: false,
            has_told: false,
            again: Vec::new(alloc),
            serving: Vec::new(alloc),
            held: VecDeque::new(alloc),
            leaving: Vec::new(alloc),
            going: Vec::new(alloc),
            now: 0,
            next_deadline: u64::MAX,
            turns: 0,
            came: 0,
            is_short: false,
            drains: false,
            quiet: Vec::new(alloc),
            looks_at_all: false,
            events: Events::new(alloc),
        }
    }

    /// Makes room for one more, wherever it may stand.
    pub fn reserve(&mut self) -> Result<(), AllocError> {
        self.table.reserve(1)?;
        let all = self.table.len().saturating_add(1);
        self.again.reserve(all)?;
        self.serving.reserve(all)?;
        self.held.reserve(all)?;
        self.leaving.reserve(all)?;
        self.going.reserve(all)
    }

    /// Puts one among the others, which is served in the next turn. Gives its key.
    pub fn add(&mut self, connection: Connection<S>) -> Result<usize, AllocError> {
        let key = insert(&mut self.table, connection)?;
        self.serve_later(key);
        self.await_deadline(key);
        Ok(key)
    }

    /// The connection is served in the next turn, although nothing may tell of it.
    fn serve_later(&mut self, key: usize) {
        if let Some(connection) = self.table.get_mut(key) {
            if !connection.stands_again {
                connection.stands_again = keep(&mut self.again, key);
            }
        }
    }

    /// Whether something is to be done although no stream is ready.
    pub fn goes_on(&self) -> bool {
        !self.again.is_empty() || !self.leaving.is_empty()
    }

    /// When another turn is to be made although no stream is ready: at once where something is to be done, soon where there was no memory for
    /// something, and else at the next deadline. None where there is no need.
    pub fn next_turn(&self) -> Option<u64> {
        if self.is_short {
            return Some(self.next_deadline.min(self.now.saturating_add(RETRY)));
        }
        if self.goes_on() {
            return Some(self.now);
        }
        (self.next_deadline < u64::MAX).then_some(self.next_deadline)
    }

    /// Reads of a connection once, and once a turn. Whether it did.
    pub fn read(&mut self, key: usize) -> bool {
        let Some(connection) = self.table.get_mut(key) else {
            return false;
        };
        if connection.served_in == self.turns {
            return false;
        }
        connection.stands_again = false;
        if connection.is_held {
            return false;
        }
        connection.served_in = self.turns;
        let was_short = connection.is_short;
        self.came = self.came.saturating_add(connection.read());
        self.is_short |= connection.is_short && !was_short;
        self.rest_later(key);
        true
    }

    /// Whether it is a route whose other end is to tell still who it is.
    pub fn is_unknown(&self, key: usize) -> bool {
        match self.table.get(key) {
            None => false,
            Some(connection) => connection.is_unknown(),
        }
    }

    /// Writes what was kept for a connection, as far as its stream takes it.
    pub fn write_kept(&mut self, key: usize) {
        let Some(connection) = self.table.get_mut(key) else {
            return;
        };
        if connection.is_flushed() {
            return;
        }
        connection.resume();
        self.has_told |= connection.client().is_none();
        self.note_quiet(key);
        self.leave_if_gone(key);
    }

    /// Something may wait for the connection, or its stream may take more of what was kept for it.
    pub fn await_bytes(&mut self, key: usize) {
        if !keep(&mut self.awaited, key) {
            self.awaits_any = true;
        }
    }

    /// Notes what is to become of a connection that was served.
    pub fn settle(&mut self, key: usize) {
        let Some(connection) = self.table.get(key) else {
            return;
        };
        if connection.goes_on() {
            self.serve_later(key);
        }
        self.await_bytes(key);
        self.note_quiet(key);
        self.leave_if_gone(key);
    }

    /// What a connection waits for had no memory, and is tried again.
    pub fn postpone(&mut self, key: usize) {
        self.is_short = true;
        if let Some(connection) = self.table.get_mut(key) {
            connection.is_short = true;
        }
    }

    /// What a connection asks next finds no room: it is held until a shard has finished a turn.
    pub fn hold(&mut self, key: usize) {
        let Some(connection) = self.table.get_mut(key) else {
            return;
        };
        if connection.stands_held || self.held.push_back(key).is_ok() {
            connection.stands_held = true;
            connection.hold();
        } else {
            self.postpone(key);
        }
    }

    /// The connection that was held first is held no more. It stays the first one of those that are.
    pub fn release_first(&mut self) -> Option<usize> {
        let key = self.held.front().copied()?;
        if let Some(connection) = self.table.get_mut(key) {
            connection.is_held = false;
        }
        Some(key)
    }

    /// Whether the connection that was held first is held no more: then it is the first one no more.
    pub fn is_released(&mut self, key: usize) -> bool {
        if let Some(connection) = self.table.get_mut(key) {
            if connection.is_held {
                return false;
            }
            connection.stands_held = false;
        }
        let _first = self.held.pop_front();
        true
    }

    /// Sends what was encoded for a connection, where there was memory for all of it.
    #[tactic(auto, using(crate::proofs::KeyedLemmas::changes_none, crate::proofs::KeyedLemmas::changes_some))]
    pub fn send_encoded(&mut self, key: usize, encoded: &[u8], is_whole: bool)
        ensures { ChangesAt (SendsWhole S.gave S.wrote encoded.now is_whole) key self.old.table
            self.new.table }
    {
        if let Some(connection) = self.table.get_mut(key) {
            connection.send_encoded(encoded, is_whole);
        }
    }

    /// Sends what stands in the mail of the server that is reached over a connection.
    pub fn send_mail(&mut self, key: usize, mail: &Mail)
        ensures { SendsMail S.gave S.wrote key mail.now self.old.table self.new.table }
    {
        if !mail.is_lost && mail.bytes.is_empty() {
            return;
        }
        self.send_noted(key, &mail.bytes, !mail.is_lost);
    }

    /// Sends what was encoded for a connection, where there was memory for all of it, and notes it where it is to be closed then.
    #[tactic(auto, using(crate::proofs::KeyedLemmas::changes_twice))]
    fn send_noted(&mut self, key: usize, encoded: &[u8], is_whole: bool)
        ensures { ChangesAt (Behind (SendsWhole S.gave S.wrote encoded.now is_whole) IsNoted) key
            self.old.table self.new.table }
    {
        self.send_encoded(key, encoded, is_whole);
        self.leave_if_gone(key);
    }

    /// How many bytes that were sent are not written, of the connection of this key, where the server at this place is reached over it.
    pub fn backlog(&self, peer: usize, key: usize) -> Option<usize>
        ensures { IfSome result (λ backlog. ReachesAt peer key self.entry.now.table) }
    {
        let connection = self.table.get(key)?;
        connection.reaches(peer).then_some(connection.backlog())
    }

    /// The server ends a connection for this cause. Of a client it is told at once, with how many bytes wait for it, beside so many that are
    /// about to be written. The first cause of a connection stays.
    #[tactic(auto, using(crate::proofs::KeyedLemmas::changes_none, crate::proofs::KeyedLemmas::changes_some))]
    pub fn blame(&mut self, key: usize, cause: Cause, taken: usize)
        ensures { ChangesAt IsBlamed key self.old.table self.new.table }
    {
        if let Some(connection) = self.table.get_mut(key) {
            if let Some(event) = connection.blame(cause, taken) {
                self.events.note(event);
            }
        }
    }

    /// The connection is closed at the end of the turn.
    #[tactic(auto, using(crate::proofs::KeyedLemmas::changes_twice))]
    pub fn give_up(&mut self, key: usize)
        ensures { ChangesAt IsGivenUp key self.old.table self.new.table }
    {
        self.end_now(key);
        self.leave_if_gone(key);
    }

    /// The same, where it is noted later.
    #[tactic(auto, using(crate::proofs::KeyedLemmas::changes_none, crate::proofs::KeyedLemmas::changes_some))]
    fn end_now(&mut self, key: usize)
        ensures { ChangesAt GivesUp key self.old.table self.new.table }
    {
        if let Some(connection) = self.table.get_mut(key) {
            connection.give_up();
        }
    }

    /// The connection is closed at the end of the turn, for this cause.
    #[tactic(auto, using(crate::proofs::KeyedLemmas::changes_twice))]
    pub fn give_up_for(&mut self, key: usize, cause: Cause)
        ensures { ChangesAt IsGivenUpFor key self.old.table self.new.table }
    {
        self.blame(key, cause, 0);
        self.give_up(key);
    }

    /// Notes a connection that is to be closed at the end of the turn.
    #[tactic(auto, using(crate::proofs::KeyedLemmas::changes_none, crate::proofs::KeyedLemmas::changes_some))]
    pub fn leave_if_gone(&mut self, key: usize)
        ensures { ChangesAt IsNoted key self.old.table self.new.table }
    {
        if let Some(connection) = self.table.get_mut(key) {
            if connection.is_to_leave() {
                connection.is_leaving = keep(&mut self.leaving, key);
            }
        }
    }

    /// The connection at this place among those that go, where it goes still.
    pub fn going(&mut self, place: usize) -> Option<usize> {
        let key = self.going.get(place).copied()?;
        let connection = self.table.get_mut(key)?;
        connection.is_leaving = false;
        (connection.ending() == Ending::Gone).then_some(key)
    }

    /// The connection's deadline is looked at when it comes, and whether its buffers are to be given back.
    pub fn await_deadline(&mut self, key: usize)
        ensures { self.new.table ≡ self.old.table }
    {
        if let Some(connection) = self.table.get(key) {
            let next = connection.deadline().min(connection.rests_at);
            self.next_deadline = self.next_deadline.min(next);
        }
    }

    /// A connection is closed once all that waits for it is written, and at the latest [`LAST_BYTES`] from now.
    pub fn shut(&mut self, key: usize) {
        let deadline = last_bytes(self.now);
        if let Some(connection) = self.table.get_mut(key) {
            connection.shut(deadline);
        }
        self.await_deadline(key);
    }

    /// A connection that is to be closed once all is written is closed at the end of the turn, where it is.
    pub fn close_if_written(&mut self, key: usize) {
        if let Some(connection) = self.table.get_mut(key) {
            connection.close_if_written();
        }
        self.await_bytes(key);
        self.leave_if_gone(key);
    }

    /// A route for which something waits has [`ROUTE_STALL`] from when its stream took a byte of it. That deadline is awaited later.
    pub fn watch(&mut self, key: usize) {
        let deadline = self.now.saturating_add(ROUTE_STALL);
        if let Some(connection) = self.table.get_mut(key) {
            connection.watch(deadline);
        }
    }

    /// The buffers of a connection are given back where nothing more is read of it or sent to it for [`IDLE`], or a little longer: so
    /// many connections rest at one time.
    #[tactic(auto, using(crate::proofs::KeyedLemmas::changes_none, crate::proofs::KeyedLemmas::changes_some))]
    pub fn rest_later(&mut self, key: usize)
        ensures { ChangesAt Rests key self.old.table self.new.table }
    {
        let steps = self.now.saturating_add(IDLE).saturating_add(IDLE_STEP - 1) / IDLE_STEP;
        let time = steps.saturating_mul(IDLE_STEP);
        if let Some(connection) = self.table.get_mut(key) {
            connection.rest_at(time);
        }
        self.await_deadline(key);
    }

    /// Gives up the connections whose deadlines have come, and has those that are idle give back their buffers. Whether there were such.
    pub fn end_overdue(&mut self) -> bool {
        if self.now < self.next_deadline {
            return false;
        }
        self.next_deadline = u64::MAX;
        let mut is_any_idle = false;
        for key in 0..self.table.capacity() {
            self.end_if_overdue(key);
            is_any_idle |= self.rest_if_idle(key);
            self.await_deadline(key);
        }
        is_any_idle
    }

    /// Whether the deadline of a connection has come.
    fn is_overdue(&self, key: usize) -> bool {
        match self.table.get(key) {
            None => false,
            Some(connection) => connection.deadline() <= self.now,
        }
    }

    /// Gives up a connection whose deadline has come, once its stream has taken what it takes by now: where the turn comes late, a route
    /// may go on.
    fn end_if_overdue(&mut self, key: usize) {
        if !self.is_overdue(key) {
            return;
        }
        self.write_kept(key);
        self.watch(key);
        if self.is_overdue(key) {
            if let Some(connection) = self.table.get(key) {
                // it is a route whose other end could tell who it is, and has not
                if connection.is_unknown() && !connection.awaits_stream {
                    self.events.note(connection.refused(RefusalCause::Silent));
                }
            }
            self.give_up_for(key, Cause::Overdue);
        }
    }

    /// Gives back the buffers of a connection that is idle. It is served, since a client's are given back by a read of few bytes and where
    /// nothing is taken out of its outbox. Whether it is idle.
    fn rest_if_idle(&mut self, key: usize) -> bool {
        let is_idle = match self.table.get_mut(key) {
            None => false,
            Some(connection) => connection.rest_if_idle(self.now),
        };
        if is_idle {
            self.serve_later(key);
        }
        is_idle
    }
}
