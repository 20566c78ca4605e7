//! A connection of a server: its stream, and what is read of it and written to it.

ghost use Rattle.std.specs.Prelude.{◌≡◌, ℕ, List, ◌++◌, ◌↔◌, ◌⊎◌, ◌-◌, ◌^◌, min, if◌then◌else◌, true, false, ◌||◌, nat_lt, [], length, IfSome, IfNone, IsTrue};
ghost use Rattle.std.specs.Bool.{OnTrue, OnFalse};
ghost use Rattle.net_streams.specs.Writes.{HasWritten};
ghost use Rattle.node_net.specs.Taking.{client_in, Lends};
ghost use Rattle.node_net.specs.Telling.{peer_of, Reaches};
ghost use Rattle.node_net.specs.Holds.{is_proving as proving, LinkAdvances, LinkDetaches, LinkLeaves, LinkCloses, LeavesAndSends};
ghost use Rattle.node_net.specs.Sending.{ending_of, Sends, SendsTaken, SendsWhole, KeepsOrLoses, IsBlamed, IsLimited, Rests, out_of_memory, closed_if_written};

use crate::client_link::ClientLink;
use crate::handshake::Proving;
use crate::limits::IDLE_BYTES;
use crate::read_size::ReadSize;
use crate::route_link::{RouteLink, Stepped};
use client_conn::ReadFault;
use net_streams::{Outgoing, Stream, Wire};
use peer_proof::Secret;
use rand_pcg::Pcg64;
use route_session::SessionId;
use server_calls::{ServerCalls, ShardCalls};
use server_events::{Caller, ClientCause, Event, RefusalCause};
use std::alloc::{AllocError, Global};
use std::sync::Wait;
use subj::{ConnId, Failure, ServerIdentity as Life};
use wire_cut::FillFault;

/// Who is at the other end.
#[derive(Drop)]
pub(crate) enum Link {
    Client(ClientLink),
    Route(RouteLink),
}

impl Link {
    /// Reads at most so many bytes. Where none came, whether that is for want of memory.
    fn read_from<S: Stream>(&mut self, wire: &mut Wire<S>, part: usize) -> Result<usize, bool> {
        match self {
            Link::Client(client) => match client.read_from(wire, part) {
                Ok(count) => Ok(count),
                Err(fault) => Err(fault == ReadFault::OutOfMemory),
            },
            Link::Route(route) => match route.read_from(wire, part) {
                Ok(count) => Ok(count),
                Err(fault) => Err(fault == FillFault::OutOfMemory),
            },
        }
    }

    /// The memory of what was read of a route is given back, where all of it is used up.
    fn rest(&mut self) {
        if let Link::Route(route) = self {
            route.rest();
        }
    }
}

/// Whether a connection goes on.
#[derive(Clone, Copy, PartialEq, Eq)]
pub(crate) enum Ending {
    /// It goes on.
    Open,
    /// It is closed once all that waits for it is written.
    Shut,
    /// It is closed at the end of the turn.
    Gone,
}

/// Why the server ends a connection.
#[derive(Clone, Copy)]
pub(crate) enum Cause {
    /// More waited for a client than its outbox has room for.
    Slow,
    /// What came is refused.
    Refused,
    /// Its deadline came.
    Overdue,
    /// More waited for another server than is kept, or a change of interest had no room there.
    Full,
    /// There was no memory for what it was owed.
    OutOfMemory,
    /// Its stream cannot be watched.
    Unwatched,
    /// Its server drains, and waits no longer.
    CutOff,
}

/// What is told of a client whose connection was ended for this cause.
fn client_cause(cause: Cause) -> ClientCause {
    match cause {
        Cause::Slow => ClientCause::Slow,
        Cause::Refused | Cause::Full => ClientCause::Refused,
        Cause::Overdue => ClientCause::Unread,
        Cause::OutOfMemory => ClientCause::OutOfMemory,
        Cause::Unwatched => ClientCause::Unwatched,
        Cause::CutOff => ClientCause::CutOff,
    }
}

/// The connection of a client is closed for this cause, and so many bytes wait for it.
fn closed(client: ConnId, cause: Cause, waiting: usize) -> Event {
    Event::ClientClosed {
        client,
        cause: client_cause(cause),
        waiting: waiting as u64,
    }
}

/// A connection.
#[derive(Drop)]
pub(crate) struct Connection<S: Stream> {
    pub wire: Wire<S>,
    link: Link,
    out: Outgoing,
    ending: Ending,
    /// How many bytes are read at once.
    part: ReadSize,
    /// How many bytes were read and sent since its buffers were given back.
    moved: usize,
    /// When its buffers are given back, in milliseconds since the loop began; never for the greatest number.
    pub rests_at: u64,
    /// Whether there may be more to read.
    has_more: bool,
    /// Whether the other end is known to send nothing any more, so that it is read until its end.
    pub hangs_up: bool,
    /// Whether what was read waits for memory.
    pub is_short: bool,
    /// Whether it is held until a shard has finished a turn, and whether it stands among those that are.
    pub is_held: bool,
    pub stands_held: bool,
    /// Whether it is to be served in the next turn, although nothing may tell of it.
    pub stands_again: bool,
    /// The turn in which it was served last, counted from 1.
    pub served_in: u64,
    /// Whether it is to be closed at the end of the turn.
    pub is_leaving: bool,
    /// Why the server ends it, where it does.
    pub cause: Option<Cause>,
    /// Whether it is told that it ends.
    is_told: bool,
    /// Whether bytes that were sent are lost: it is sent nothing more.
    has_gap: bool,
    /// Whether its stream is to be connected still.
    pub awaits_stream: bool,
    /// When it is given up, in milliseconds since the loop began; never for the greatest number.
    deadline: u64,
    /// Whether its stream took a byte of what waited, since it was last watched.
    has_moved: bool,
}

impl<S: Stream> Connection<S> {
    /// A connection of which nothing was read.
    pub fn new(alloc: Global, stream: S, link: Link) -> Connection<S>
        ensures stream { result.wire.stream ≡ stream }
        ensures failed { result.wire.has_failed ≡ false }
        ensures ended { result.wire.has_ended ≡ false }
        ensures link { result.link ≡ link }
        ensures out { result.out ≡ [] }
        ensures ending { result.ending ≡ Ending.Open }
        ensures gap { result.has_gap ≡ false }
        ensures connecting { result.awaits_stream ≡ false }
    {
        Connection {
            wire: Wire::new(stream),
            link,
            out: Outgoing::new(alloc),
            ending: Ending::Open,
            part: ReadSize::first(),
            moved: 0,
            rests_at: u64::MAX,
            has_more: false,
            hangs_up: false,
            is_short: false,
            is_held: false,
            stands_held: false,
            stands_again: false,
            served_in: 0,
            is_leaving: false,
            cause: None,
            is_told: false,
            has_gap: false,
            awaits_stream: false,
            deadline: u64::MAX,
            has_moved: false,
        }
    }

    /// A connection that is sent this first. A route is to tell who it is by this time.
    pub fn greeted(
        alloc: Global,
        stream: S,
        link: Link,
        deadline: u64,
        greeting: &[u8],
    ) -> Connection<S> {
        let mut connection = Connection::new(alloc, stream, link);
        if connection.is_unknown() {
            connection.limit(deadline);
        }
        connection.send(greeting);
        connection
    }

    /// Its stream, of which nothing more is asked.
    pub fn into_stream(self) -> S
        ensures { result ≡ self.wire.stream }
    {
        let Connection {
            wire,
            link,
            out,
            ..
        } = self;
        drop(link);
        drop(out);
        wire.into_stream()
    }

    /// Reads once, unless what was read before waits for memory. How many bytes came.
    pub fn read(&mut self) -> usize {
        if self.ending != Ending::Open {
            return 0;
        }
        if self.is_short {
            self.has_more = true;
            return 0;
        }
        let part = self.part.bytes();
        let came = self.link.read_from(&mut self.wire, part);
        match came {
            Ok(count) => {
                self.has_more = count == part || self.hangs_up;
                self.part = self.part.behind(count);
                self.moved = self.moved.saturating_add(count);
            }
            Err(is_short) => {
                self.is_short = is_short;
                self.has_more = is_short;
                self.hangs_up = false;
            }
        }
        if self.wire.has_failed() || self.wire.has_ended() {
            self.has_more = false;
        }
        came.unwrap_or(0)
    }

    /// It is held: it is read again once it is not.
    pub fn hold(&mut self) {
        self.is_held = true;
        self.has_more = true;
    }

    /// Its buffers are given back at this time, where one may be large, unless this is told again before.
    pub fn rest_at(&mut self, time: u64)
        ensures { Rests self.old self.new }
    {
        if self.moved > IDLE_BYTES || self.part.has_grown() {
            self.rests_at = time;
        }
    }

    /// Its buffers are given back where the time has come, a client's once it is served. Whether they were.
    pub fn rest_if_idle(&mut self, now: u64) -> bool {
        if self.rests_at > now {
            return false;
        }
        self.part = ReadSize::first();
        self.moved = 0;
        self.rests_at = u64::MAX;
        self.link.rest();
        true
    }

    /// Does what was read asks next, where it goes on.
    pub fn step<C: ServerCalls, R: Wait>(
        &mut self,
        rt: &R,
        node: C,
        life: &Life,
        words: &mut Pcg64,
    ) -> Option<Stepped>
        ensures calls { IfSome result (λ stepped.
            LinkAdvances C.Shard.made C.Shard.number (C.lacks node) C.Hub.published C.Hub.pushed
            C.Hub.routed life.now self.old.link stepped self.new.link) }
        ensures none { IfNone result ((self.new ≡ self.old)
            × ((proving self.old.link ≡ true) ⊎ ¬ (ending_of self.old ≡ Ending.Open))) }
        ensures same { self.new
            ≡ record self.old { link = self.new.link; is_short = self.new.is_short } }
    {
        if self.ending() != Ending::Open {
            return None;
        }
        if self.is_proving() {
            return None;
        }
        self.is_short = false;
        Some(match &mut self.link {
            Link::Client(client) => Stepped::Ran(client.advance(rt, node, words)),
            Link::Route(route) => route.advance(rt, node, life),
        })
    }

    /// Whether it is a route whose handshake is not over.
    pub fn is_proving(&self) -> bool
        ensures { result ≡ proving self.now.link }
    {
        match &self.link {
            Link::Client(_) => false,
            Link::Route(route) => route.is_proving(),
        }
    }

    /// Whether it is one that another server has dialed, or who would be one, which is to prove still which one it is.
    pub fn is_of_stranger(&self) -> bool {
        match &self.link {
            Link::Client(_) => false,
            Link::Route(route) => route.is_of_stranger(),
        }
    }

    /// Goes on with the handshake of a route: what the next line comes to.
    pub fn hear(&mut self, secret: &Secret, life: &Life) -> Proving {
        if self.ending() != Ending::Open {
            return Proving::Waits;
        }
        match &mut self.link {
            Link::Client(_) => Proving::Waits,
            Link::Route(route) => route.hear(secret, life),
        }
    }

    /// A route of the server at this place, which dialed and has proved itself, gets this session.
    pub fn admit(&mut self, place: usize, session: SessionId) {
        if let Link::Route(route) = &mut self.link {
            route.admit(place, session);
        }
    }

    /// Whether it goes on, with something to be done although nothing may tell of it.
    pub fn goes_on(&self) -> bool {
        self.ending() == Ending::Open && !self.is_held && (self.has_more || self.is_short)
    }

    /// Whether it is of a client that goes on, of which all that has come was done, and all that was sent is written.
    pub fn is_quiet(&self) -> bool {
        let is_done = !self.has_more && !self.is_short && !self.is_held && self.is_flushed();
        is_done && self.ending() == Ending::Open && self.client().is_some()
    }

    /// Whether it is of a client, and does not go at the end of the turn.
    pub fn is_client(&self) -> bool {
        self.client().is_some() && self.ending() != Ending::Gone
    }

    /// Whether it goes on.
    pub fn ending(&self) -> Ending
        ensures { result ≡ ending_of self.now }
    {
        if self.wire.has_failed() {
            return Ending::Gone;
        }
        self.ending
    }

    /// Where its other end sends nothing any more, a route is closed, and a client is given up at this time, or earlier where it would have been.
    /// Whether it is a client that goes on.
    pub fn end(&mut self, deadline: u64) -> bool {
        if !self.wire.has_ended() || self.ending() != Ending::Open {
            return false;
        }
        if self.client().is_none() {
            self.give_up();
            return false;
        }
        self.limit(deadline);
        true
    }

    /// A client leaves its shard, and has what waits for it sent to it, which stands in the list then.
    #[tactic(auto, using(crate::proofs::HoldLemmas::leaves_and_sends))]
    pub fn leave<C: ServerCalls, R: Wait>(
        &mut self,
        rt: &R,
        node: C,
        waiting: &mut Vec<u8>,
    ) -> Result<(), AllocError>
        ensures { LeavesAndSends C.Shard.made C.Shard.number (C.lacks node) S.gave S.wrote self.old
            result waiting.new.items self.new }
    {
        let left = match &mut self.link {
            Link::Client(client) => client.leave(rt, node, waiting),
            Link::Route(_) => Ok(()),
        };
        self.send(waiting);
        left
    }

    /// Closes some of the subscriptions of a client that has many. Whether it did.
    pub fn close_some<C: ServerCalls, R: Wait>(&mut self, rt: &R, node: C) -> bool
        ensures closed { LinkCloses C.Shard.made C.Shard.number (C.lacks node) self.old.link result
            self.new.link }
        ensures same { self.new ≡ record self.old { link = self.new.link } }
    {
        match &mut self.link {
            Link::Client(client) => client.close_some(rt, node),
            Link::Route(_) => false,
        }
    }

    /// It is closed once all that waits for it is written, and at the latest at this time.
    pub fn shut(&mut self, deadline: u64)
        ensures deadline { self.new.deadline ≡ min self.old.deadline deadline }
        ensures others { IsLimited self.old self.new }
    {
        self.limit(deadline);
        if self.ending == Ending::Open {
            self.ending = Ending::Shut;
        }
    }

    /// When it is given up, in milliseconds since the loop began; never for the greatest number, and where it was given up.
    pub fn deadline(&self) -> u64 {
        if self.ending() == Ending::Gone {
            return u64::MAX;
        }
        self.deadline
    }

    /// It is given up at this time, or earlier where it would have been.
    pub fn limit(&mut self, deadline: u64)
        ensures { self.new ≡ record self.old { deadline = min self.old.deadline deadline } }
    {
        self.deadline = self.deadline.min(deadline);
    }

    /// Its session is kept: it is not given up for having none. Its stream is connected by then, whether the loop was told so or not.
    pub fn lift_limit(&mut self)
        ensures { self.new ≡ record self.old { awaits_stream = false; deadline = 2 ^ 64 - 1 } }
    {
        self.awaits_stream = false;
        self.deadline = u64::MAX;
    }

    /// A route whose session is kept is given up at this time, counted from when its stream took a byte, where something waits for it.
    pub fn watch(&mut self, deadline: u64) {
        let has_moved = std::mem::replace(&mut self.has_moved, false);
        if self.peer().is_none() {
            return;
        }
        if self.is_flushed() {
            self.deadline = u64::MAX;
        } else if has_moved || self.deadline == u64::MAX {
            self.deadline = deadline;
        }
    }

    /// The place of the server at its other end, where it is a route whose session is kept with one.
    fn peer(&self) -> Option<usize>
        ensures { result ≡ peer_of self.now.link }
    {
        match &self.link {
            Link::Client(_) => None,
            Link::Route(route) => route.kept_with(),
        }
    }

    /// Whether the server at this place is reached over it: it is a route whose session is kept with that one, and it does not go at the end
    /// of the turn.
    pub fn reaches(&self, place: usize) -> bool
        ensures { OnTrue result (Reaches place self.now) }
    {
        match self.peer() {
            Some(peer) => peer == place && self.ending() != Ending::Gone,
            None => false,
        }
    }

    /// It is closed at the end of the turn.
    pub fn give_up(&mut self)
        ensures { self.new ≡ record self.old { ending = Ending.Gone } }
    {
        self.ending = Ending::Gone;
    }

    /// There is no memory for what it is owed: it is sent nothing more, and closed at the end of the turn.
    pub fn want_memory(&mut self)
        ensures { self.new ≡ out_of_memory self.old }
    {
        self.has_gap = true;
        self.cause = self.cause.or(Some(Cause::OutOfMemory));
        self.give_up();
    }

    /// The server ends it for this cause, unless there was another before. What is to be told of a client then, with how many bytes wait for
    /// it, beside so many that are about to be written.
    pub fn blame(&mut self, cause: Cause, taken: usize) -> Option<Event>
        ensures { IsBlamed self.old self.new }
    {
        if self.cause.is_some() {
            return None;
        }
        self.cause = Some(cause);
        let client = self.client()?;
        self.is_told = true;
        Some(closed(client, cause, self.backlog().saturating_add(taken)))
    }

    /// What is to be told of a client that is gone, of its own accord, or for a cause that was not told.
    pub fn farewell(&self, client: ConnId) -> Option<Event> {
        match self.cause {
            None => Some(Event::ClientGone { client }),
            Some(cause) if !self.is_told => Some(closed(client, cause, self.backlog())),
            Some(_) => None,
        }
    }

    /// Its stream is to be connected still: it is given up at this time, or earlier where it would have been.
    pub fn await_stream(&mut self, deadline: u64)
        ensures { self.new
            ≡ record self.old { awaits_stream = true; deadline = min self.old.deadline deadline } }
    {
        self.awaits_stream = true;
        self.limit(deadline);
    }

    /// Its stream is connected. Where it was to be still, it is given up at this time in place of the one before.
    pub fn connected(&mut self, deadline: u64)
        ensures { self.new
            ≡ (if self.old.awaits_stream
            then record self.old { awaits_stream = false; deadline = deadline }
            else self.old) }
    {
        if std::mem::replace(&mut self.awaits_stream, false) {
            self.deadline = deadline;
        }
    }

    /// What is told of its other end, which has dialed, or would be another server, and is refused for this cause.
    pub fn refused(&self, cause: RefusalCause) -> Event {
        let from = match &self.link {
            Link::Client(_) => None,
            Link::Route(route) => route.came_from(),
        };
        Event::ConnectionRefused {
            caller: Caller::Server { from },
            cause,
        }
    }

    /// Whether it is a route whose other end is to tell still who it is.
    pub fn is_unknown(&self) -> bool {
        match &self.link {
            Link::Client(_) => false,
            Link::Route(route) => route.kept_with().is_none(),
        }
    }

    /// Whether it is to be closed at the end of the turn, and is not noted among those.
    pub fn is_to_leave(&self) -> bool {
        self.ending() == Ending::Gone && !self.is_leaving
    }

    /// A client is detached, the session of a route is cut. Want of memory changes nothing.
    pub fn detach<C: ServerCalls, R: Wait>(&self, rt: &R, node: C) -> Result<(), AllocError>
        ensures { LinkDetaches C.Shard.made C.Shard.number (C.lacks node) C.Hub.routed self.now.link
            result }
    {
        match &self.link {
            Link::Client(client) => client.detach(rt, node),
            Link::Route(route) => {
                route.end(rt, node);
                Ok(())
            }
        }
    }

    /// The shard that a client is of, counted from 1.
    pub fn shard(&self) -> Option<u64> {
        match &self.link {
            Link::Client(client) => Some(client.shard),
            Link::Route(_) => None,
        }
    }

    /// The client at the other end, where there is one.
    pub fn client(&self) -> Option<ConnId> {
        match &self.link {
            Link::Client(client) => Some(client.calls.id()),
            Link::Route(_) => None,
        }
    }

    /// The client at the other end, where it is one of this shard.
    pub fn client_of(&self, shard: u64) -> Option<ConnId>
        ensures { result ≡ client_in shard self.now.link }
    {
        match &self.link {
            Link::Client(client) if client.shard == shard => Some(client.calls.id()),
            _ => None,
        }
    }

    /// A client of this shard that is shut there is closed once its last bytes are written, and at the latest at this time, whatever its
    /// stream takes. Whether it was open before.
    pub fn shut_if_slow<H: ShardCalls>(&mut self, shard: &H, deadline: u64) -> bool
        ensures { IsLimited self.old self.new }
    {
        let Some(client) = self.client_of(shard.shard()) else {
            return false;
        };
        if shard.is_open(client) {
            return false;
        }
        let was_open = self.ending() == Ending::Open;
        self.shut(deadline);
        was_open
    }

    /// Takes what waits for a client of this shard, where all that was taken for it before is written. Where it is much, and nothing stands
    /// in `lent`, it comes in the outbox's own buffer: so no outbox keeps a large one.
    #[tactic(auto, using(crate::proofs::TakingLemmas::lends_other, crate::proofs::TakingLemmas::lends_some))]
    pub fn take_from<H: ShardCalls>(
        &self,
        shard: &mut H,
        lent: &mut Vec<u8>,
    ) -> Result<(), AllocError>
        ensures { Lends H.takes H.number self.now lent.old.items shard.old lent.new.items
            shard.new }
    {
        let Some(client) = self.client_of(shard.shard()) else {
            return Ok(());
        };
        if !self.is_flushed() || self.wire.has_failed() {
            return Ok(());
        }
        match shard.take_bytes(client, usize::MAX, lent) {
            Err(Failure::OutOfMemory) => Err(AllocError),
            _ => Ok(()),
        }
    }

    /// Whether all bytes that were sent are written.
    pub fn is_flushed(&self) -> bool
        ensures { IsTrue result ↔ (self.now.out ≡ []) }
    {
        self.out.is_empty()
    }

    /// How many bytes that were sent are not written.
    pub fn backlog(&self) -> usize
        ensures { result ≡ length self.now.out }
    {
        self.out.len()
    }

    /// Sends bytes: those that the stream does not take now are kept. For want of memory to keep them the
    /// connection is given up, since it would miss them, and is sent nothing more.
    pub fn send(&mut self, bytes: &[u8])
        ensures { Sends S.gave S.wrote self.old bytes.now self.new }
    {
        if !self.has_gap {
            self.send_next(bytes);
        }
    }

    /// The same behind bytes of which none is lost.
    fn send_next(&mut self, bytes: &[u8])
        ensures { KeepsOrLoses S.gave S.wrote self.old bytes.now self.new }
    {
        self.moved = self.moved.saturating_add(bytes.len());
        let rest = if self.out.is_empty() {
            self.wire.write(bytes)
        } else {
            bytes
        };
        if self.out.append(rest).is_err() {
            self.want_memory();
        }
    }

    /// Sends what was taken for it. It is given up once it is to be closed and all is written.
    pub fn send_taken(&mut self, bytes: &[u8])
        ensures { SendsTaken S.gave S.wrote bytes.now self.old self.new }
    {
        self.send(bytes);
        self.close_if_written();
    }

    /// It is given up where it is to be closed and all is written.
    pub fn close_if_written(&mut self)
        ensures { self.new ≡ closed_if_written self.old }
    {
        if self.ending == Ending::Shut && self.is_flushed() {
            self.give_up();
        }
    }

    /// Sends what was encoded, where there was memory for it.
    pub fn send_encoded(&mut self, encoded: &[u8], is_whole: bool)
        ensures { SendsWhole S.gave S.wrote encoded.now is_whole self.old self.new }
    {
        if is_whole {
            self.send(encoded);
        } else {
            self.want_memory();
        }
    }

    /// Writes what was kept, as far as the stream takes it.
    pub fn resume(&mut self)
        ensures written { HasWritten S.wrote self.old.out self.old.wire.has_failed
            self.old.wire.stream self.new.out self.new.wire.has_failed self.new.wire.stream }
        ensures moved { self.new.has_moved
            ≡ (self.old.has_moved || nat_lt (length self.new.out) (length self.old.out)) }
        ensures others { self.new ≡ record self.old {
          wire = record self.old.wire {
            stream = self.new.wire.stream;
            has_failed = self.new.wire.has_failed;
          };
          out = self.new.out;
          has_moved = self.new.has_moved;
        } }
    {
        let before = self.out.len();
        self.out.write_to(&mut self.wire);
        self.has_moved |= self.out.len() < before;
    }
}
