//! Servers of one process run, each in threads of its own: one for each of its loops.

ghost use Rattle.std.specs.Prelude.{◌≡◌};

use crate::faults::ServeFault;
use crate::planned::PlannedServer;
use crate::serving::{BoundServer, Shared, SidePoll};
use event_log::EventLog;
use mio::Poll;
use mio::net::TcpStream;
use node_net::{LoopWord, Loops, PeerAddresses, Server as Connections, Shutdown, Sockets};
use peer_proof::Secret;
use server_calls::{LoopPlace, LoopView, ServerCalls};
use server_events::{Event, SystemCause};
use std::alloc::{AllocError, Global};
use std::marker::Brand;
use std::net::{Net, TcpListener as Listener, TcpStream as Stream};
use std::random::RandomSource;
use std::rt::Clock;
use std::sync::{OnceLock, Wait};
use std::thread::Threads;
use std::{io, thread};
use sub_trie::TrieTable;
use subj::{HostText, NodeId, ServerIdentity};
use thread_node::{NodeName, Parts, ThreadNode};

/// What the servers of a mesh share.
#[derive(Clone, Copy)]
struct Mesh<'a> {
    /// Where other servers connect to each server.
    addresses: &'a PeerAddresses,
    shutdown: &'a Shutdown,
    /// Why all of them stop, where one could not go on: the first cause.
    cause: &'a OnceLock<ServeFault>,
    /// What tells of them.
    log: &'a EventLog,
}

impl Mesh<'_> {
    /// All servers stop, for this cause where there was none before.
    fn stop<R: Wait>(&self, rt: &R, cause: ServeFault) {
        let _ = self.cause.set(rt, cause);
        self.shutdown.fail();
    }

    /// The server of this name ended so. Where it could not go on, all of them stop.
    fn hear_end<R: Wait + Clock>(&self, rt: &R, server: NodeId, ended: io::Result<()>) {
        match ended {
            Ok(()) => self.log.tell(rt, server, Event::Stopped),
            Err(error) => self.hear_fault(rt, server, error),
        }
    }

    /// A loop of the server of this name, not the first one, ended so. Where it could not go on, all servers stop.
    fn hear_loop<R: Wait + Clock>(&self, rt: &R, server: NodeId, ended: io::Result<()>) {
        if let Err(error) = ended {
            self.hear_fault(rt, server, error);
        }
    }

    /// The server of this name could not go on: all of them stop.
    fn hear_fault<R: Wait + Clock>(&self, rt: &R, server: NodeId, error: io::Error) {
        let cause = SystemCause::of(&error);
        self.log.tell(rt, server, Event::Failed { cause });
        self.stop(rt, ServeFault::Stopped { server, error });
    }
}

/// What one loop of a server begins with: which loop it is, whose server's, what its clients are told, and the seed of the server's words.
#[derive(Drop)]
struct LoopStart {
    place: LoopPlace,
    life: ServerIdentity,
    host: HostText,
    port: u16,
    word: u64,
}

/// The first loop of a server before it runs, with what it has besides: the server's sockets, and the secret by which the server knows others, where the
/// mesh has one.
#[derive(Drop)]
struct FirstLoop {
    start: LoopStart,
    sockets: Sockets,
    secret: Option<Secret>,
}

/// A loop that is not the first of its server's, before it runs, and what it polls.
#[derive(Drop)]
struct SideLoop {
    start: LoopStart,
    poll: Poll,
}

/// All loops of a server before they run.
#[derive(Drop)]
struct ServerLoops {
    first: FirstLoop,
    sides: Vec<SideLoop>,
}

/// The loop at this place of a server that is planned.
fn loop_start(
    alloc: Global,
    planned: &PlannedServer,
    place: LoopPlace,
) -> Result<LoopStart, AllocError> {
    Ok(LoopStart {
        place,
        life: planned.life.try_clone(alloc)?,
        host: planned.host,
        port: planned.ends.clients.port(),
        word: planned.word,
    })
}

/// All loops of a server but the first.
fn side_loops(
    alloc: Global,
    planned: &PlannedServer,
    sides: Vec<SidePoll>,
) -> Result<Vec<SideLoop>, AllocError> {
    let mut all = Vec::new(alloc);
    for side in sides {
        let SidePoll { place, poll } = side;
        let start = loop_start(alloc, planned, place)?;
        all.push(SideLoop { start, poll })?;
    }
    Ok(all)
}

/// The loops of a server that is bound.
fn server_loops(alloc: Global, server: BoundServer) -> Result<ServerLoops, AllocError> {
    let BoundServer {
        planned,
        first,
        sockets,
        sides,
    } = server;
    let start = loop_start(alloc, &planned, first)?;
    let sides = side_loops(alloc, &planned, sides)?;
    let PlannedServer {
        life: _,
        ends: _,
        host: _,
        word: _,
        secret,
    } = planned;
    Ok(ServerLoops {
        first: FirstLoop {
            start,
            sockets,
            secret,
        },
        sides,
    })
}

/// The connections of a loop, of which there are none, and which shares this with other loops, where its server has some.
fn connections_of<'l, C: ServerCalls>(
    alloc: Global,
    node: C,
    start: LoopStart,
    loops: Option<&'l Loops<'l>>,
) -> Result<Connections<'l, TcpStream, LoopView<C>>, AllocError> {
    let LoopStart {
        place,
        life,
        host,
        port,
        word,
    } = start;
    let view = LoopView::new(node, place);
    let mut connections = Connections::new(alloc, view, life, host, port, word)?;
    if let Some(loops) = loops {
        connections.set_loops(loops, place);
    }
    Ok(connections)
}

/// Runs a loop that is not the first of its server's.
fn run_beside<'l, C: ServerCalls, R: Wait + Net + RandomSource + Clock>(
    rt: &R,
    alloc: Global,
    node: C,
    side: SideLoop,
    loops: &'l Loops<'l>,
    mesh: Mesh<'_>,
) -> io::Result<()> {
    let SideLoop { start, poll } = side;
    let mut connections = connections_of(alloc, node, start, Some(loops))?;
    connections.run_beside(rt, poll, mesh.addresses, mesh.shutdown, mesh.log)
}

/// Runs the first loop of a server.
fn run_first<'l, C: ServerCalls, R: Wait + Net + RandomSource + Clock>(
    rt: &R,
    alloc: Global,
    node: C,
    first: FirstLoop,
    loops: Option<&'l Loops<'l>>,
    mesh: Mesh<'_>,
) -> io::Result<()> {
    let FirstLoop {
        start,
        sockets,
        secret,
    } = first;
    let mut connections = connections_of(alloc, node, start, loops)?;
    if let Some(secret) = secret {
        connections.set_secret(secret);
    }
    connections.run(rt, sockets, mesh.addresses, mesh.shutdown, mesh.log)
}

/// Runs the loops of a server, which these words wake: the first one here, and each other one in a thread of its own. Where one ends, for whatever
/// cause, all servers stop.
fn run_loops<
    'w,
    N: NodeName + Send + Sync,
    R: Threads + Sync + Wait + Net<Listener = Listener, Stream = Stream> + RandomSource + Clock,
>(
    rt: &R,
    alloc: Global,
    node: &ThreadNode<TrieTable, N>,
    server: BoundServer,
    words: &'w [LoopWord],
    mesh: Mesh<'_>,
) -> io::Result<()> {
    let name = server.planned.life.name();
    let loops = Loops::new(alloc, words, server.planned.life.names().len())?;
    let all = &loops;
    let ServerLoops { first, sides } = server_loops(alloc, server)?;
    let shared = (!sides.is_empty()).then_some(all);
    thread::scope(thread::scope_env(), rt, |scope| {
        for side in sides {
            let run = move || mesh.hear_loop(
                rt,
                name,
                run_beside(rt, alloc, node, side, all, mesh),
            );
            if scope.spawn(run).is_err() {
                mesh.stop(rt, ServeFault::NoThread { server: name });
            }
        }
        let ended = run_first(rt, alloc, node, first, shared, mesh);
        if ended.is_err() {
            mesh.shutdown.fail();
        }
        ended
    })
}

/// Runs a server of these parts.
fn run_named<
    N: NodeName + Send + Sync,
    R: Threads + Sync + Wait + Net<Listener = Listener, Stream = Stream> + RandomSource + Clock,
>(rt: &R, alloc: Global, parts: Parts, server: BoundServer, mesh: Mesh<'_>) -> io::Result<()>
    requires { (parts.race ≡ N.race) × (parts.lanes ≡ N.lanes) × (parts.keep ≡ N.keep) }
{
    let node: ThreadNode<TrieTable, N> = ThreadNode::start(alloc, parts)?;
    let words = mesh.shutdown.words(server.planned.life.me());
    run_loops(rt, alloc, &node, server, words, mesh)
}

/// Runs a server.
fn run_server<
    R: Threads + Sync + Wait + Net<Listener = Listener, Stream = Stream> + RandomSource + Clock,
>(rt: &R, alloc: Global, server: BoundServer, mesh: Mesh<'_>) -> io::Result<()> {
    let life = server.planned.life.try_clone(alloc)?;
    let (parts, _parkers) = Parts::new(alloc, life, false)?;
    run_named::<Brand, _>(rt, alloc, parts, server, mesh)
}

/// Runs all servers, each in threads of its own. The error is the first cause for which they stop.
pub(crate) fn run_all<
    'm,
    R: Threads + Wait + Net<Listener = Listener, Stream = Stream> + RandomSource + Clock + Sync,
>(
    rt: &R,
    alloc: Global,
    servers: Vec<BoundServer>,
    shared: &'m Shared,
    log: &'m EventLog,
) -> Result<(), ServeFault> {
    let cause = OnceLock::new();
    let mesh = Mesh {
        addresses: &shared.addresses,
        shutdown: &shared.shutdown,
        cause: &cause,
        log,
    };
    thread::scope(thread::scope_env(), rt, |scope| {
        for server in servers {
            let name = server.planned.life.name();
            let run = move || mesh.hear_end(rt, name, run_server(rt, alloc, server, mesh));
            if scope.spawn(run).is_err() {
                mesh.stop(rt, ServeFault::NoThread { server: name });
            }
        }
    });
    match cause.into_inner() {
        Some(cause) => Err(cause),
        None => Ok(()),
    }
}
