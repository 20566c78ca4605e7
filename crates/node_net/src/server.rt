//! The connections of one server, over any kind of stream.

ghost use Rattle.std.specs.Prelude.{◌≡◌, ◌≤◌, ◌+◌, ◌-◌, ◌%◌, None, OnOk, OnErr};
ghost use Rattle.std.specs.Prelude.{IfSome, Ok};
ghost use Rattle.node_net.specs.Holds.{LinkDetaches};
ghost use Rattle.slab.specs.Slab.{Updates, get};

use crate::clients::Clients;
use crate::connection::{Cause, Connection, Link};
use crate::connections::Connections;
use crate::draining::Drain;
use crate::faults::AddFault;
use crate::handshake::Said;
use crate::holds::{accept, attach, cut, dial};
use crate::limits::{DIAL, GREETING};
use crate::loops::Loops;
use crate::peers::{Peers, name_at};
use crate::proving::Guard;
use crate::route_link::{RouteLink, Stage};
use crate::taken::Taken;
use client_conn::Refusal;
use client_frames::ServerInfo;
use net_streams::Stream;
use rand_core::SeedableRng;
use rand_pcg::Pcg64;
use server_calls::{LoopPlace, ServerCalls};
use server_events::{Event, Events, PeerCause, RefusalCause};
use shard_core::DirtyConns;
use std::alloc::{AllocError, Global};
use std::net::SocketAddr;
use std::sync::Wait;
use subj::{ConnId, HostText, ServerIdentity as Life};

/// Who is at the other end of a stream.
#[derive(Clone, Copy)]
pub enum Side {
    /// A client.
    Client,
    /// Another server, which has dialed, from this address where it is known.
    Accepted(Option<SocketAddr>),
    /// The server at this place of the cluster, which this one has dialed.
    Dialed(usize),
}

/// The shard of a client: those of a server go to its shards in turn. The client is counted from 1, and so
/// is the shard. (Profile.)
pub fn shard_of_client(client: u64, shards: u64) -> u64
    requires { 1 ≤ shards }
    ensures { result ≡ (client - 1) % shards + 1 }
{
    client.saturating_sub(1) % shards + 1
}

/// A server that has dialed. What it is told first is encoded.
fn accepted<C: ServerCalls, R: Wait>(
    rt: &R,
    node: C,
    alloc: Global,
    from: Option<SocketAddr>,
    encoded: &mut Vec<u8>,
) -> Result<Link, AddFault> {
    let (session, info) = accept(rt, node)?;
    if Said::Info(info).encode(encoded).is_err() {
        cut(rt, node, session);
        return Err(AddFault::OutOfMemory);
    }
    let stage = Stage::Accepted { from, proved: None };
    Ok(Link::Route(RouteLink::new(alloc, Some(session), stage, None)))
}

/// What is told of another server whose route ended for this cause; without one its connection broke.
fn peer_cause(cause: Option<Cause>) -> PeerCause {
    match cause {
        None | Some(Cause::CutOff) => PeerCause::Broken,
        Some(Cause::Refused) => PeerCause::Refused,
        Some(Cause::Slow | Cause::Overdue) => PeerCause::Stalled,
        Some(Cause::Full) => PeerCause::Full,
        Some(Cause::OutOfMemory) => PeerCause::OutOfMemory,
        Some(Cause::Unwatched) => PeerCause::Unwatched,
    }
}

/// The connections of one server, over any kind of stream: what comes in on them becomes calls of the server,
/// and what these have put for clients and other servers goes out. Only the thread that has it works the
/// server's shards. (Profile.)
pub struct Server<'l, S: Stream, C: ServerCalls> {
    pub(crate) alloc: Global,
    pub(crate) node: C,
    pub(crate) life: Life,
    /// What its clients are told of it.
    info: ServerInfo,
    pub(crate) words: Pcg64,
    pub(crate) connections: Connections<S>,
    pub(crate) peers: Peers,
    pub(crate) clients: Clients,
    /// How many clients were taken.
    came: u64,
    /// How many clients are gone.
    pub(crate) gone: u64,
    /// Which shard is worked first in the next round.
    pub(crate) first: u64,
    /// How much was put since the last time that what waits for clients was taken, as bytes.
    pub(crate) put: usize,
    /// The clients of a shard that something was put for.
    pub(crate) dirty_conns: DirtyConns,
    /// Whether jobs are left that were not handed to all shards, for want of memory.
    pub(crate) is_unpushed: bool,
    /// Whether a shard was left in this turn although jobs may wait there, since as many were worked as can wait.
    pub(crate) is_left: bool,
    /// Whether jobs may wait at the loop's shards since these were worked last: a shard was left, or there was no memory.
    pub(crate) has_jobs_left: bool,
    /// Whether a shard was left since what it has put is to be taken first.
    pub(crate) is_urgent: bool,
    /// What it shares with the other loops of its server, where there are several.
    pub(crate) loops: Option<&'l Loops<'l>>,
    /// Which of them it is.
    pub(crate) place: LoopPlace,
    /// Whether clients may come that the first loop has accepted: so it is of every loop but the first until that accepts nobody any more.
    pub(crate) may_come: bool,
    /// How often the publication, or the frame, was tried that finds no room now.
    pub(crate) tries: u32,
    /// How many clients were accepted.
    pub(crate) accepted: u64,
    /// What was taken for clients and is about to be written.
    pub(crate) taken: Taken,
    /// Frames that are encoded and about to be written.
    pub(crate) encoded: Vec<u8>,
    /// How far it has come with its drain, where it was asked for one.
    pub(crate) drain: Drain,
    /// What it knows its peers by, where the mesh has a secret.
    pub(crate) guard: Guard,
}

/// One call, also for crates above: `docs/PROVING.md`, "What a proof costs".
impl<'l, S: Stream, C: ServerCalls> Drop for Server<'l, S, C> {
    fn drop(self) {
        let Server {
            alloc: _,
            node: _,
            life: _,
            info: _,
            words: _,
            connections: _,
            peers: _,
            clients: _,
            came: _,
            gone: _,
            first: _,
            put: _,
            dirty_conns: _,
            is_unpushed: _,
            is_left: _,
            has_jobs_left: _,
            is_urgent: _,
            loops: _,
            place: _,
            may_come: _,
            tries: _,
            accepted: _,
            taken: _,
            encoded: _,
            drain: _,
            guard: _,
        } = self;
    }
}

impl<'l, S: Stream, C: ServerCalls> Server<'l, S, C> {
    /// The connections of this node, which is this life of a server and tells its clients this host and this port.
    /// There are none. The seed begins the words that decide which server serves a queue group.
    pub fn new(
        alloc: Global,
        node: C,
        life: Life,
        host: HostText,
        port: u16,
        seed: u64,
    ) -> Result<Server<'l, S, C>, AllocError> {
        let peers = Peers::new(alloc, life.names().len())?;
        let info = ServerInfo::new(alloc, life.name(), life.inc(), host, port)?;
        Ok(Server {
            alloc,
            node,
            life,
            info,
            words: Pcg64::seed_from_u64(seed),
            connections: Connections::new(alloc),
            peers,
            clients: Clients::new(alloc),
            came: 0,
            gone: 0,
            first: 0,
            put: 0,
            dirty_conns: DirtyConns::new(alloc),
            is_unpushed: false,
            is_left: false,
            has_jobs_left: false,
            is_urgent: false,
            loops: None,
            place: LoopPlace::alone(),
            may_come: true,
            tries: 0,
            accepted: 0,
            taken: Taken::new(alloc),
            encoded: Vec::new(alloc),
            drain: Drain::new(),
            guard: Guard::new(),
        })
    }

    /// It is one of several loops of its server, the one at this place, whose shards are those of the loop. The words that decide which server serves
    /// a queue group are 2^64 words further on for each loop before it. Once, and before a connection is added.
    pub fn set_loops(&mut self, loops: &'l Loops<'l>, place: LoopPlace) {
        self.words.advance(u128::from(place.place()) << 64);
        self.loops = Some(loops);
        self.place = place;
    }

    /// Whether it is the first of its server's loops, or the only one.
    pub(crate) fn is_first(&self) -> bool {
        self.place.is_first()
    }

    /// Whether the shard of this number belongs to the loop.
    pub(crate) fn owns(&self, shard: u64) -> bool {
        self.place.owns(shard)
    }

    /// The stream of a connection.
    pub fn stream(&self, key: usize) -> Option<&S> {
        Some(self.connections.table.get(key)?.wire.stream())
    }

    /// The stream of a connection, to be changed.
    pub fn stream_mut(&mut self, key: usize) -> Option<&mut S> {
        Some(self.connections.table.get_mut(key)?.wire.stream_mut())
    }

    /// The shard that a client's connection is of, counted from 1.
    pub fn shard(&self, key: usize) -> Option<u64> {
        self.connections.table.get(key)?.shard()
    }

    /// What has happened since it was told last.
    pub fn events(&self) -> &Events {
        &self.connections.events
    }

    /// Takes a stream, with this end at its other side, and answers its key. What a client or a server that
    /// dialed is told first goes out with the next turn. A stream that is refused is closed. May wait.
    pub fn add<R: Wait>(&mut self, rt: &R, stream: S, side: Side) -> Result<usize, AddFault> {
        let deadline = self.connections.now.saturating_add(GREETING);
        let link = self.link(rt, side)?;
        let connection = Connection::greeted(self.alloc, stream, link, deadline, &self.encoded);
        let client = connection.client();
        let key = self.connections.add(connection)?;
        match side {
            Side::Client => {}
            Side::Accepted(_) => self.note_stranger(key),
            Side::Dialed(peer) => self.peers.dial(peer, key),
        }
        if let Some(client) = client {
            self.clients.add(client, key);
            self.connections.events.note(Event::ClientCame { client });
        }
        Ok(key)
    }

    /// The stream of a connection, which was dialed, is to be connected still. It is given up where it is not within [`DIAL`], and no line tells of
    /// it.
    pub fn await_stream(&mut self, key: usize) {
        let deadline = self.connections.now.saturating_add(DIAL);
        if let Some(connection) = self.connections.table.get_mut(key) {
            connection.await_stream(deadline);
        }
        self.connections.await_deadline(key);
    }

    /// The stream of a connection is connected. Where it was to be still, its other end has [`GREETING`] from now to tell who it is.
    pub fn connected(&mut self, key: usize) {
        let deadline = self.connections.now.saturating_add(GREETING);
        if let Some(connection) = self.connections.table.get_mut(key) {
            connection.connected(deadline);
        }
    }

    /// What is known of whoever is at the other end, once there is room for one connection more. What that is told first is encoded.
    fn link<R: Wait>(&mut self, rt: &R, side: Side) -> Result<Link, AddFault> {
        self.connections.reserve()?;
        self.encoded.clear();
        match side {
            Side::Client => self.client(rt),
            Side::Accepted(_) if self.has_secret() && !self.has_place() => {
                Err(AddFault::TooManyStrangers)
            }
            Side::Accepted(from) if self.has_secret() => self.guard.stranger(self.alloc, from),
            Side::Accepted(from) => accepted(rt, self.node, self.alloc, from, &mut self.encoded),
            Side::Dialed(peer) => self.dialed(rt, peer),
        }
    }

    /// The next client, who is told first by its shard.
    fn client<R: Wait>(&mut self, rt: &R) -> Result<Link, AddFault> {
        self.clients.reserve()?;
        let number = self.came.saturating_add(1);
        let Some(shard) = self.place.shard_of_client(number, self.life.shards()) else {
            return Err(AddFault::Client(Refusal::Other));
        };
        let link = attach(rt, self.node, self.alloc, shard, &self.info)?;
        self.came = number;
        Ok(Link::Client(link))
    }

    /// The server at this place, which is dialed.
    fn dialed<R: Wait>(&mut self, rt: &R, peer: usize) -> Result<Link, AddFault> {
        let encoded = &mut self.encoded;
        let proof = self.guard.greeting(self.alloc, &self.life, peer, encoded)?;
        match dial(rt, self.node, peer) {
            Err(fault) => Err(AddFault::from(fault)),
            Ok(session) => {
                let stage = Stage::Dialed(peer);
                Ok(Link::Route(RouteLink::new(self.alloc, Some(session), stage, proof)))
            }
        }
    }

    /// Takes a connection out: a client's is detached, the session of a route is cut. No other connection
    /// changes. Gives its stream, which is closed when it is dropped, or None where there is no connection
    /// of that key. Want of memory changes nothing. May wait.
    pub fn remove<R: Wait>(&mut self, rt: &R, key: usize) -> Result<Option<S>, AllocError>
        ensures detached { OnOk result (IfSome (get self.old.connections.table key) (λ connection.
            LinkDetaches C.Shard.made C.Shard.number (C.lacks self.old.node) C.Hub.routed
            connection.link (Ok tt))) }
        ensures taken { OnOk result
            (Updates self.old.connections.table self.new.connections.table key None) }
        ensures err { OnErr result (self.new ≡ self.old) }
    {
        match self.connections.table.get(key) {
            None => return Ok(None),
            Some(connection) => connection.detach(rt, self.node)?,
        }
        self.end_mail(rt, key);
        Ok(self.take_out(key))
    }

    /// Nothing is on its way any more to the server whose session is kept over the connection, where one is.
    fn end_mail<R: Wait>(&self, rt: &R, key: usize) {
        let Some(loops) = self.loops else {
            return;
        };
        if let Some(place) = self.peers.place_of(key) {
            loops.reset_mail(rt, place, false);
        }
    }

    /// Takes a connection out that is detached or cut.
    fn take_out(&mut self, key: usize) -> Option<S>
        ensures { Updates self.old.connections.table self.new.connections.table key None }
    {
        let connection = self.connections.table.try_remove(key)?;
        self.forget(key, &connection);
        Some(connection.into_stream())
    }

    /// Nothing leads any more to a connection that was taken out, and it is told that it is gone.
    fn forget(&mut self, key: usize, connection: &Connection<S>)
        ensures { self.new.connections.table ≡ self.old.connections.table }
    {
        match connection.client() {
            Some(client) => self.forget_client(client, connection),
            None => self.forget_route(key, connection),
        }
    }

    /// The same of a client.
    fn forget_client(&mut self, client: ConnId, connection: &Connection<S>)
        ensures { self.new.connections.table ≡ self.old.connections.table }
    {
        self.gone = self.gone.saturating_add(1);
        self.clients.lose(client);
        if let Some(event) = connection.farewell(client) {
            self.connections.events.note(event);
        }
    }

    /// The same of a route, over which another server may have been reached.
    fn forget_route(&mut self, key: usize, connection: &Connection<S>)
        ensures { self.new.connections.table ≡ self.old.connections.table }
    {
        self.forget_stranger(key, connection);
        let Some(place) = self.peers.lose(key) else {
            return;
        };
        if let Some(peer) = name_at(&self.life, place) {
            let cause = peer_cause(connection.cause);
            self.connections
                .events
                .note(Event::PeerDown { peer, cause });
        }
    }

    /// The same of somebody who has not proved which server it is, where it is one. That it went of its own accord is told.
    fn forget_stranger(&mut self, key: usize, connection: &Connection<S>)
        ensures { self.new.connections.table ≡ self.old.connections.table }
    {
        if !connection.is_of_stranger() {
            return;
        }
        self.guard.lose_stranger(key);
        if connection.cause.is_none() {
            self.connections
                .events
                .note(connection.refused(RefusalCause::Left));
        }
    }
}
