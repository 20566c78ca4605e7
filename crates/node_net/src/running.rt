//! The loop of a server's thread: it polls, accepts, dials, and turns.

use crate::addresses::PeerAddresses;
use crate::connection::Cause;
use crate::control::{CONTROL, CONTROL_LINK, Control};
use crate::faults::AddFault;
use crate::limits::{ACCEPTS, ASKED_EVERY, EVENTS, LOOK_BYTES, LOOKS, RETRY, UNANSWERED};
use crate::loops::Loops;
use crate::peers::{Peers, Redials};
use crate::server::{Server, Side};
use crate::shutdown::Shutdown;
use mio::event::Event as Ready;
use mio::net::{TcpListener, TcpStream};
use mio::{Events, Interest, Poll, Token};
use net_streams::end_unanswered;
use server_calls::{LoopPlace, ServerCalls, loop_of_client};
use server_events::{Caller, Event, EventSink, Events as ServerEvents, RefusalCause, SystemCause};
use std::alloc::{AllocError, Global};
use std::io;
use std::net::{Net, SocketAddr};
use std::random::RandomSource;
use std::rt::Clock;
use std::sync::Wait;
use std::time::{Duration, Instant};
use subj::{NodeId, ServerIdentity as Life};

/// The token of the socket where clients connect.
const CLIENTS: Token = Token(usize::MAX);

/// The token of the socket where other servers connect.
const ROUTES: Token = Token(usize::MAX - 1);

/// The token by which another thread wakes the loop.
pub const WAKER: Token = Token(usize::MAX - 2);

/// The sockets of a server.
#[derive(Drop)]
pub struct Sockets {
    /// What the server waits on.
    pub poll: Poll,
    /// Where clients connect.
    pub clients: TcpListener,
    /// Where other servers connect.
    pub routes: TcpListener,
    /// Where operators connect, at one server of the process.
    pub control: Option<Control>,
}

/// Whether a client is at the other end.
fn is_client(side: Side) -> bool {
    matches!(side, Side::Client)
}

/// Where connections come in.
#[derive(Drop)]
struct Door {
    /// None once nobody is taken any more.
    listener: Option<TcpListener>,
    /// Who is at the other end.
    side: Side,
    /// Whether there may be more to accept.
    has_more: bool,
    /// Whether whoever comes is taken, from wherever.
    is_open: bool,
}

impl Door {
    fn new(listener: TcpListener, side: Side) -> Door {
        Door {
            listener: Some(listener),
            side,
            has_more: true,
            is_open: is_client(side),
        }
    }

    /// Nobody comes in here.
    fn closed(side: Side) -> Door {
        Door {
            listener: None,
            side,
            has_more: false,
            is_open: false,
        }
    }

    /// Who is at the other end of a connection that came in here from this address.
    fn side_from(&self, from: SocketAddr) -> Side {
        match self.side {
            Side::Accepted(_) => Side::Accepted(Some(from)),
            side => side,
        }
    }

    /// Nobody is taken any more: the socket is closed.
    fn close(&mut self) {
        self.listener = None;
        self.has_more = false;
    }

    /// Whether whoever comes from this address is taken: a client from everywhere, and another server too where the mesh has a secret; without one
    /// from where one of the cluster's servers is. (Profile.)
    fn takes<R: Wait>(&self, rt: &R, from: SocketAddr, addresses: &PeerAddresses) -> bool {
        self.is_open || addresses.are_at(rt, from.ip())
    }

    /// The next connection. The servers of the cluster are at these addresses.
    fn accept<R: Wait>(&self, rt: &R, addresses: &PeerAddresses) -> Accepted {
        let Some(listener) = &self.listener else {
            return Accepted::Nothing;
        };
        match listener.accept() {
            Ok((stream, from)) if self.takes(rt, from, addresses) => {
                Accepted::Stream(stream, self.side_from(from))
            }
            Ok((_, from)) => Accepted::Stranger(self.side_from(from)),
            Err(error) if error.kind() == io::ErrorKind::WouldBlock => Accepted::Nothing,
            Err(error) => Accepted::Failed(SystemCause::of(&error)),
        }
    }
}

/// What accepting came to.
enum Accepted {
    /// Somebody who is taken, and is at the other end.
    Stream(TcpStream, Side),
    /// Somebody who is not taken, and whose connection is closed.
    Stranger(Side),
    Nothing,
    Failed(SystemCause),
}

/// What the loop keeps beside the connections.
struct Rounds {
    start: Instant,
    poll: Poll,
    clients: Door,
    routes: Door,
    redials: Redials,
    /// How often the addresses of servers had changed when they were dialed last.
    changes: u64,
    /// The connections that are ready.
    ready: Vec<usize>,
    /// Whether one was ready in the last turn.
    is_busy: bool,
    /// Whether accepting failed for another cause than that there is none.
    has_failed: bool,
    /// Where operators connect, at one server of the process, and whether something may have come from them.
    control: Option<Control>,
    is_controlled: bool,
    /// How often the server was asked to drain, as far as it has heard.
    heard: u64,
    /// Whether the others know that the server has drained.
    has_finished: bool,
}

/// One call, also for crates above: `docs/PROVING.md`, "What a proof costs".
impl Drop for Rounds {
    fn drop(self) {
        let Rounds {
            start: _,
            poll: _,
            clients: _,
            routes: _,
            redials: _,
            changes: _,
            ready: _,
            is_busy: _,
            has_failed: _,
            control: _,
            is_controlled: _,
            heard: _,
            has_finished: _,
        } = self;
    }
}

/// The mesh that the server is of.
#[derive(Clone, Copy)]
struct Mesh<'a> {
    /// Where other servers reach each of its servers, and whence they come.
    addresses: &'a PeerAddresses,
    /// When the servers of the process stop.
    shutdown: &'a Shutdown,
}

/// Has the sockets tell when connections come in.
fn register(sockets: &mut Sockets) -> io::Result<()> {
    let registry = sockets.poll.registry();
    registry.register(&mut sockets.clients, CLIENTS, Interest::READABLE)?;
    registry.register(&mut sockets.routes, ROUTES, Interest::READABLE)?;
    match &mut sockets.control {
        None => Ok(()),
        Some(control) => control.register(&sockets.poll),
    }
}

/// A stream to this address, where one is known and the system begins to connect to it.
fn connect<R: Net>(rt: &R, address: Option<SocketAddr>) -> Option<TcpStream> {
    TcpStream::connect(rt, address?).ok()
}

/// Has the system tell when the stream of a connection is ready; whether it does. It is also to end a route whose other end answers nothing any
/// more: a system that does not leaves a route as it was, and a lost server is noticed later.
fn watch(poll: &Poll, stream: &mut TcpStream, key: usize, side: Side) -> bool {
    if !is_client(side) {
        let _ = end_unanswered(&*stream, UNANSWERED, ASKED_EVERY);
    }
    let both = Interest::READABLE | Interest::WRITABLE;
    poll.registry().register(stream, Token(key), both).is_ok()
}

impl Rounds {
    /// Those of a loop that is not the first: nobody connects to it, and no operator.
    fn beside(alloc: Global, start: Instant, poll: Poll) -> Rounds {
        Rounds {
            start,
            poll,
            clients: Door::closed(Side::Client),
            routes: Door::closed(Side::Accepted(None)),
            redials: Redials::new(alloc),
            changes: 0,
            ready: Vec::new(alloc),
            is_busy: false,
            has_failed: false,
            control: None,
            is_controlled: false,
            heard: 0,
            has_finished: false,
        }
    }

    fn new(alloc: Global, start: Instant, sockets: Sockets) -> Rounds {
        let Sockets {
            poll,
            clients,
            routes,
            control,
        } = sockets;
        Rounds {
            start,
            poll,
            clients: Door::new(clients, Side::Client),
            routes: Door::new(routes, Side::Accepted(None)),
            redials: Redials::new(alloc),
            changes: 0,
            ready: Vec::new(alloc),
            is_busy: false,
            has_failed: false,
            control,
            is_controlled: true,
            heard: 0,
            has_finished: false,
        }
    }

    /// Milliseconds since the start.
    fn time<R: Clock>(&self, rt: &R) -> io::Result<u64> {
        let passed = self.start.elapsed(rt)?.as_millis();
        Ok(passed.min(u64::MAX as u128) as u64)
    }

    /// Has all servers dialed at once whose addresses may have changed so often by now.
    fn hear_changes(&mut self, changes: u64) {
        if std::mem::replace(&mut self.changes, changes) != changes {
            self.redials.hurry();
        }
    }

    /// Whether something may be accepted at once.
    fn may_accept(&self) -> bool {
        (self.clients.has_more || self.routes.has_more) && !self.has_failed
    }

    /// Looks a few times whether a socket is ready, where one was in the last turn, in which so many bytes came, or whether the loop was told to look.
    /// Whether it is so.
    fn look(
        &mut self,
        events: &mut Events,
        came: usize,
        loops: Option<&Loops<'_>>,
        place: LoopPlace,
    ) -> io::Result<bool> {
        if !self.is_busy || came > LOOK_BYTES || self.may_accept() {
            return Ok(false);
        }
        for _look in 0..LOOKS {
            self.poll.poll(events, Some(Duration::from_millis(0)))?;
            if !events.is_empty() {
                return Ok(true);
            }
            if let Some(loops) = loops {
                if loops.is_told(place) {
                    return Ok(true);
                }
            }
        }
        Ok(false)
    }

    /// How long to wait for a socket now, where the next turn of this server is due then; None is for ever.
    fn patience(
        &self,
        now: u64,
        next_turn: Option<u64>,
        peers: &Peers,
        life: &Life,
    ) -> Option<Duration> {
        if self.may_accept() {
            return Some(Duration::from_millis(0));
        }
        let mut until = next_turn.unwrap_or(u64::MAX);
        for place in 0..peers.count() {
            if peers.is_missing(life, place) {
                until = until.min(self.redials.due(place));
            }
        }
        if self.has_failed {
            until = until.min(now.saturating_add(RETRY));
        }
        if until == u64::MAX {
            return None;
        }
        Some(Duration::from_millis(until.saturating_sub(now)))
    }

    /// Does what operators say who have come. The servers have these names, in their order.
    fn hear_operators(&mut self, names: &[NodeId], shutdown: &Shutdown) {
        if !std::mem::replace(&mut self.is_controlled, false) {
            return;
        }
        if let Some(control) = &mut self.control {
            control.hear(&self.poll, names, shutdown);
        }
    }

    /// Notes what this token stands for, where that is no connection. Whether it is one.
    fn is_of_connection(&mut self, token: Token) -> bool {
        if token == CLIENTS {
            self.clients.has_more = true;
        } else if token == ROUTES {
            self.routes.has_more = true;
        } else if token == CONTROL || token == CONTROL_LINK {
            self.is_controlled = true;
        } else {
            return token != WAKER;
        }
        false
    }
}

/// Who connected, where another end did.
fn caller_of(side: Side) -> Option<Caller> {
    match side {
        Side::Client => Some(Caller::Client),
        Side::Accepted(from) => Some(Caller::Server { from }),
        Side::Dialed(_) => None,
    }
}

/// Notes that a connection was not taken for this cause.
fn note_refused(events: &mut ServerEvents, side: Side, cause: RefusalCause) {
    if let Some(caller) = caller_of(side) {
        events.note(Event::ConnectionRefused { caller, cause });
    }
}

/// Why a connection was not taken.
fn refusal_of(fault: AddFault) -> RefusalCause {
    match fault {
        AddFault::Client(_) => RefusalCause::NumbersSpent,
        AddFault::Route(_) => RefusalCause::TooManyRoutes,
        AddFault::TooManyStrangers => RefusalCause::TooManyStrangers,
        AddFault::NoWord => RefusalCause::NoWord,
        AddFault::OutOfMemory => RefusalCause::OutOfMemory,
    }
}

impl<'l, C: ServerCalls> Server<'l, TcpStream, C> {
    /// Serves until all servers of the process stop, or have drained: waits until a socket is ready, takes clients and routes,
    /// dials each other server of the cluster that is not reached, where its address is known, and makes a turn. Where the mesh has a secret, a
    /// route is taken from everywhere, and is that of another server once it has proved that; without one it is taken from the host of one of the
    /// addresses alone. They may change meanwhile: whoever changes them wakes the loop. What happens is told to the log. May wait, and for ever.
    pub fn run<R: Wait + Net + Clock + RandomSource, L: EventSink>(
        &mut self,
        rt: &R,
        mut sockets: Sockets,
        addresses: &PeerAddresses,
        shutdown: &Shutdown,
        log: &L,
    ) -> io::Result<()> {
        register(&mut sockets)?;
        let mut rounds = Rounds::new(self.alloc, Instant::now(rt)?, sockets);
        rounds.routes.is_open = self.has_secret();
        rounds.redials.start(addresses.count())?;
        let mesh = Mesh {
            addresses,
            shutdown,
        };
        self.run_rounds(rt, &mut rounds, mesh, log)
    }

    /// The same of a loop that is not the first of its server's, and polls here: it serves the clients that the first loop hands to it, and takes
    /// nobody else.
    pub fn run_beside<R: Wait + Net + Clock + RandomSource, L: EventSink>(
        &mut self,
        rt: &R,
        poll: Poll,
        addresses: &PeerAddresses,
        shutdown: &Shutdown,
        log: &L,
    ) -> io::Result<()> {
        let mut rounds = Rounds::beside(self.alloc, Instant::now(rt)?, poll);
        let mesh = Mesh {
            addresses,
            shutdown,
        };
        self.run_rounds(rt, &mut rounds, mesh, log)
    }

    /// Goes round, until all servers of the process stop: takes clients and routes, dials, and makes a turn for the connections that are ready.
    fn run_rounds<R: Wait + Net + Clock + RandomSource, L: EventSink>(
        &mut self,
        rt: &R,
        rounds: &mut Rounds,
        mesh: Mesh<'_>,
        log: &L,
    ) -> io::Result<()> {
        self.connections.events.set_filter(log.filter());
        rounds.ready.reserve(EVENTS)?;
        let mut events = Events::with_capacity(self.alloc, EVENTS)?;
        for _round in rt.forever() {
            if mesh.shutdown.is_over() {
                return Ok(());
            }
            rounds.hear_operators(self.life.names(), mesh.shutdown);
            self.hear_drain(rounds, mesh.shutdown);
            self.accept_all(rt, rounds, mesh);
            self.take_streams(rt, &rounds.poll, mesh.shutdown);
            if self.is_first() {
                self.dial_all(rt, rounds, mesh.addresses);
            }
            self.turn(rt, &rounds.ready);
            rounds.ready.clear();
            self.tell(rt, rounds, mesh.shutdown, log);
            if mesh.shutdown.is_over() {
                return Ok(());
            }
            self.wait(rt, rounds, &mut events)?;
        }
        Ok(())
    }

    /// Begins a drain where the server was asked for one, and takes no more clients; a further ask ends it.
    fn hear_drain(&mut self, rounds: &mut Rounds, shutdown: &Shutdown) {
        let asks = shutdown.asks(self.life.me());
        if asks == rounds.heard {
            return;
        }
        rounds.clients.close();
        if let Some(loops) = self.loops {
            if self.place.is_first() {
                loops.close_doors(self.place);
            }
        }
        if !self.drains() {
            self.drain(shutdown.drain_seconds());
            rounds.heard = rounds.heard.saturating_add(1);
        }
        if asks > rounds.heard {
            self.drain(shutdown.drain_seconds());
        }
        rounds.heard = asks;
    }

    /// Tells the log what has happened, and the other servers who is gone, and once that this one has drained.
    fn tell<R: Wait + Clock, L: EventSink>(
        &mut self,
        rt: &R,
        rounds: &mut Rounds,
        shutdown: &Shutdown,
        log: &L,
    ) {
        log.take(rt, self.life.name(), &mut self.connections.events);
        shutdown.lose(std::mem::replace(&mut self.gone, 0));
        if self.is_first() && self.has_drained() && !rounds.has_finished {
            rounds.has_finished = true;
            shutdown.finish_drain();
        }
    }

    /// Waits until a socket is ready, or something is to be done, and notes which connections are ready. May wait, and for ever.
    fn wait<R: Clock>(
        &mut self,
        rt: &R,
        rounds: &mut Rounds,
        events: &mut Events,
    ) -> io::Result<()> {
        self.set_time(rounds.time(rt)?);
        let next_turn = self.next_turn();
        let now = self.connections.now;
        let patience = rounds.patience(now, next_turn, &self.peers, &self.life);
        if self.is_left {
            rounds.poll.poll(events, Some(Duration::from_millis(0)))?;
        } else if !rounds.look(events, self.connections.came, self.loops, self.place)? {
            rounds.poll.poll(events, self.sleep(patience))?;
        }
        self.wake_up();
        self.set_time(rounds.time(rt)?);
        for event in &*events {
            if rounds.is_of_connection(event.token()) {
                self.note_ready(event, rounds)?;
            }
        }
        rounds.is_busy = !rounds.ready.is_empty();
        Ok(())
    }

    /// How long the loop may sleep that may sleep so long: not at all where it was told to look.
    fn sleep(&self, patience: Option<Duration>) -> Option<Duration> {
        match self.loops {
            Some(loops) if !loops.sleep(self.place) => Some(Duration::from_millis(0)),
            _ => patience,
        }
    }

    /// Begins to look, behind a poll.
    fn wake_up(&mut self) {
        if let Some(loops) = self.loops {
            if loops.clear(self.place) {
                self.connections.has_told = true;
            }
        }
    }

    /// Takes the clients that the first loop has handed over.
    fn take_streams<R: Wait + Clock + RandomSource>(
        &mut self,
        rt: &R,
        poll: &Poll,
        shutdown: &Shutdown,
    ) {
        let Some(loops) = self.loops else {
            return;
        };
        if self.place.is_first() {
            return;
        }
        // read before the last stream is taken: none is put once this is so
        let has_closed = loops.has_closed();
        for _stream in rt.forever() {
            let Some(stream) = loops.take_stream(rt, self.place) else {
                break;
            };
            // a drain that is late has closed all clients, and waits for none
            if !self.drain.is_late() && self.take(rt, poll, stream, Side::Client) {
                shutdown.take();
            }
        }
        self.may_come = !has_closed;
    }

    /// Takes a client, or hands it to another loop. Whether this one takes it.
    fn take_client<R: Wait + RandomSource>(
        &mut self,
        rt: &R,
        poll: &Poll,
        stream: TcpStream,
    ) -> bool {
        self.accepted = self.accepted.saturating_add(1);
        let place = loop_of_client(self.accepted, self.life.shards(), self.place.loops());
        match self.loops {
            Some(loops) if place > 0 => {
                if !loops.put_stream(rt, place as usize, stream) {
                    let cause = RefusalCause::OutOfMemory;
                    note_refused(&mut self.connections.events, Side::Client, cause);
                }
                false
            }
            _ => self.take(rt, poll, stream, Side::Client),
        }
    }

    /// Takes all clients and routes that wait.
    fn accept_all<R: Wait + RandomSource>(&mut self, rt: &R, rounds: &mut Rounds, mesh: Mesh<'_>) {
        let had_failed = rounds.has_failed;
        let clients_fail = self.accept_from(
            rt,
            &rounds.poll,
            &mut rounds.clients,
            mesh,
            had_failed,
        );
        let has_failed = had_failed || clients_fail;
        let routes_fail = self.accept_from(rt, &rounds.poll, &mut rounds.routes, mesh, has_failed);
        rounds.has_failed = clients_fail || routes_fail;
    }

    /// Takes all that wait here, and counts those that are clients. Whether accepting failed, which is told where it had not failed before.
    fn accept_from<R: Wait + RandomSource>(
        &mut self,
        rt: &R,
        poll: &Poll,
        door: &mut Door,
        mesh: Mesh<'_>,
        had_failed: bool,
    ) -> bool {
        for _accept in 0..ACCEPTS {
            if !door.has_more {
                return false;
            }
            match door.accept(rt, mesh.addresses) {
                Accepted::Stream(stream, side) if is_client(side) => {
                    if self.take_client(rt, poll, stream) {
                        mesh.shutdown.take();
                    }
                }
                Accepted::Stream(stream, side) => {
                    let _is_taken = self.take(rt, poll, stream, side);
                }
                Accepted::Stranger(side) => {
                    note_refused(&mut self.connections.events, side, RefusalCause::Stranger);
                }
                Accepted::Nothing => door.has_more = false,
                Accepted::Failed(cause) => {
                    if !had_failed {
                        let cause = RefusalCause::System(cause);
                        note_refused(&mut self.connections.events, door.side, cause);
                    }
                    return true;
                }
            }
        }
        false
    }

    /// Takes a stream. Whether it is not refused.
    fn take<R: Wait + RandomSource>(
        &mut self,
        rt: &R,
        poll: &Poll,
        stream: TcpStream,
        side: Side,
    ) -> bool {
        let _ = stream.set_nodelay(true);
        // where the system gives none, the route is refused
        if !is_client(side) && self.wants_word() {
            self.guard.draw_word(rt);
        }
        match self.add(rt, stream, side) {
            Ok(key) => {
                self.begin(poll, key, side);
                true
            }
            Err(fault) => {
                note_refused(&mut self.connections.events, side, refusal_of(fault));
                false
            }
        }
    }

    /// Begins to watch a connection that was taken. One that was dialed is to be connected still.
    fn begin(&mut self, poll: &Poll, key: usize, side: Side) {
        if matches!(side, Side::Dialed(_)) {
            self.await_stream(key);
        }
        let is_watched = match self.stream_mut(key) {
            None => false,
            Some(stream) => watch(poll, stream, key, side),
        };
        if !is_watched {
            self.connections.give_up_for(key, Cause::Unwatched);
        }
    }

    /// Dials the servers of the cluster that are not reached and are due.
    fn dial_all<R: Wait + Net + RandomSource>(
        &mut self,
        rt: &R,
        rounds: &mut Rounds,
        addresses: &PeerAddresses,
    ) {
        rounds.hear_changes(addresses.changes());
        for place in 0..addresses.count() {
            let is_reached = self.peers.kept_connection(place).is_some();
            let now = self.connections.now;
            rounds.redials.look(place, now, is_reached);
            addresses.note(place, is_reached);
            if self.peers.is_missing(&self.life, place) && rounds.redials.due(place) <= now {
                rounds.redials.dial(place, now);
                if let Some(stream) = connect(rt, addresses.dial(rt, place)) {
                    let _is_taken = self.take(rt, &rounds.poll, stream, Side::Dialed(place));
                }
            }
        }
    }

    /// Notes that a connection is ready.
    fn note_ready(&mut self, event: &Ready, rounds: &mut Rounds) -> Result<(), AllocError> {
        let Token(key) = event.token();
        let has_closed = event.is_read_closed() || event.is_error();
        if !has_closed {
            self.connected(key);
        } else if let Some(connection) = self.connections.table.get_mut(key) {
            connection.hangs_up = true;
        }
        if has_closed || event.is_readable() {
            rounds.ready.push(key)?;
        } else {
            self.connections.await_bytes(key);
        }
        Ok(())
    }
}
