//! The loop of a server's thread over sockets, where nobody can be accepted and another server takes no route: it pauses, and tells once. Where the
//! other server is, it learns late.

ghost use Rattle.std.specs.Prelude.{◌≡◌};

use crate::node_tests::{Node, list_of};
use mio::net::{TcpListener, TcpStream};
use mio::{Poll, Waker};
use node_net::{
    LoopWord, PeerAddresses, Server as Connections, ServerControl, Shutdown, Sockets, WAKER,
};
use server_calls::ServerCalls;
use server_events::{Caller, Event, EventSink, Events, LevelFilter, RefusalCause};
use std::alloc::Global;
use std::marker::Brand;
use std::net::{Ipv4Addr, Net, SocketAddr};
use std::os::fd::OwnedFd;
use std::process::Abort;
use std::random::RandomSource;
use std::rt::Clock;
use std::sync::Wait;
use std::sync::atomic::{AtomicU64, Ordering};
use std::thread;
use std::thread::join;
use std::time::{Duration, Instant};
use subj::{HostText, Incarnation, NodeId, ServerIdentity};
use thread_node::{NodeName, Parts, ThreadNode};
use thread_report::finish;

/// Where the server's own routes come in, and where the other server is to be reached.
const OWN: u16 = 17_460;

const OTHER: u16 = 17_461;

/// How often a dial is looked for, and how long between two looks, in milliseconds.
const LOOKS: usize = 4_000;

const PAUSE: u64 = 5;

/// How long dials are counted behind the third one, in milliseconds. Pauses of 100, 200 and 400 follow it.
const COUNTED: u64 = 500;

/// How long a dial stays open, in milliseconds: longer than the longest pause.
const OPEN: u64 = 1_200;

/// How many rounds the loop has made, and how many times a client was refused for what the system said.
#[derive(Drop)]
struct Watch {
    rounds: AtomicU64,
    refused: AtomicU64,
}

impl EventSink for Watch {
    fn filter(&self) -> LevelFilter {
        LevelFilter::Info
    }

    fn take<R: Wait + Clock>(&self, _rt: &R, _server: NodeId, events: &mut Events) {
        self.rounds.fetch_add(1, Ordering::SeqCst);
        for event in events.noted() {
            if matches!(
                event,
                Event::ConnectionRefused {
                    caller: Caller::Client,
                    cause: RefusalCause::System(_),
                }
            ) {
                self.refused.fetch_add(1, Ordering::SeqCst);
            }
        }
        events.clear();
    }
}

fn address_of(port: u16) -> SocketAddr {
    SocketAddr::from((Ipv4Addr::LOCALHOST, port))
}

fn listener<R: Net + Abort>(rt: &R, port: u16) -> TcpListener {
    let listener = TcpListener::bind(rt, address_of(port)).ok();
    listener.expect(rt, "a port")
}

/// The sockets of a server. The listener for clients is the socket of a stream: so accepting fails each time.
fn sockets<R: Net + Abort>(rt: &R) -> Sockets {
    let routes = listener(rt, OWN);
    let stream = TcpStream::connect(rt, address_of(OWN)).ok();
    let poll = Poll::new(rt).ok();
    Sockets {
        poll: poll.expect(rt, "a poll"),
        clients: TcpListener::from(OwnedFd::from(stream.expect(rt, "a stream"))),
        routes,
        control: None,
    }
}

/// A process with the one server that waits on this.
fn shutdown<R: Abort>(rt: &R, alloc: Global, poll: &Poll) -> Shutdown {
    let waker = Waker::new(poll.registry(), WAKER)
        .ok()
        .expect(rt, "a waker");
    let words = list_of(rt, alloc, LoopWord::new(waker));
    Shutdown::new(None, list_of(rt, alloc, ServerControl::new(words)))
}

/// The server n1 of n1 and n2.
fn life<R: Abort>(rt: &R, alloc: Global) -> ServerIdentity {
    let first = NodeId::read(b"n1").ok().expect(rt, "a name");
    let second = NodeId::read(b"n2").ok().expect(rt, "a name");
    let inc = Incarnation::new(1).expect(rt, "an incarnation");
    let mut names = list_of(rt, alloc, first);
    assert!(rt; names.push(second).is_ok());
    ServerIdentity::new(names, 0, inc, 1).expect(rt, "a server")
}

/// What the loop of n1 has in common with the test: where the other server listens, where the servers are, how n1 is stopped, and what it told.
#[derive(Drop)]
struct Shared {
    other: TcpListener,
    addresses: PeerAddresses,
    shutdown: Shutdown,
    watch: Watch,
}

/// The same before the loop runs, which is to wait on this.
fn new_shared<R: Net + Abort>(rt: &R, alloc: Global, poll: &Poll) -> Shared {
    Shared {
        other: listener(rt, OTHER),
        addresses: addresses(rt, alloc),
        shutdown: shutdown(rt, alloc, poll),
        watch: Watch {
            rounds: AtomicU64::new(0),
            refused: AtomicU64::new(0),
        },
    }
}

/// Whether a server has streams, and each sends small messages without a pause.
fn has_prompt_streams<C: ServerCalls>(connections: &Connections<'_, TcpStream, C>) -> bool {
    let (mut prompt, mut all) = (0_u64, 0_u64);
    for key in 0..16 {
        if let Some(stream) = connections.stream(key) {
            all = all.saturating_add(1);
            prompt = prompt.saturating_add(u64::from(matches!(stream.nodelay(), Ok(true))));
        }
    }
    all > 0 && prompt == all
}

/// Runs the loop until its servers stop. Whether its streams are as they are to be then.
fn run_on<C: ServerCalls, R: Abort + Wait + Net + Clock + RandomSource>(
    rt: &R,
    alloc: Global,
    node: C,
    sockets: Sockets,
    shared: &Shared,
) -> bool {
    let host = HostText::new();
    let connections = Connections::new(alloc, node, life(rt, alloc), host, OWN, 0).ok();
    let mut connections = connections.expect(rt, "memory");
    let ran = connections.run(
        rt,
        sockets,
        &shared.addresses,
        &shared.shutdown,
        &shared.watch,
    );
    assert!(rt; ran.is_ok());
    has_prompt_streams(&connections)
}

/// Ends a server that has issued nothing.
fn ends_unused<N: NodeName, R: Abort + Wait>(rt: &R, alloc: Global, node: Node<N>) {
    let report = finish(rt, alloc, node, Vec::new(alloc)).ok();
    assert!(rt; report.expect(rt, "a report").issued.get() == 0);
}

/// The same of a server of these parts, which has issued nothing at its end.
fn run_named<N: NodeName, R: Abort + Wait + Net + Clock + RandomSource>(
    rt: &R,
    alloc: Global,
    parts: Parts,
    sockets: Sockets,
    shared: &Shared,
) -> bool
    requires { (parts.race ≡ N.race) × (parts.lanes ≡ N.lanes) × (parts.keep ≡ N.keep) }
{
    let node: Node<N> = ThreadNode::start(alloc, parts).ok().expect(rt, "memory");
    let is_prompt = run_on(rt, alloc, &node, sockets, shared);
    ends_unused(rt, alloc, node);
    is_prompt
}

/// The same of a server that has just started.
fn run<R: Abort + Wait + Net + Clock + RandomSource>(
    rt: &R,
    alloc: Global,
    sockets: Sockets,
    shared: &Shared,
) -> bool {
    let made = Parts::new(alloc, life(rt, alloc), false).ok();
    let (parts, _parkers) = made.expect(rt, "memory");
    run_named::<Brand, _>(rt, alloc, parts, sockets, shared)
}

/// Closes each dial that has come by now. How many there were.
fn close_dials(other: &TcpListener) -> u64 {
    let mut count = 0_u64;
    for _dial in 0..LOOKS {
        if other.accept().is_err() {
            break;
        }
        count = count.saturating_add(1);
    }
    count
}

/// The next dial, which stays open.
fn next_dial<R: Clock + Abort>(rt: &R, other: &TcpListener) -> TcpStream {
    for _look in 0..LOOKS {
        if let Ok((stream, _)) = other.accept() {
            return stream;
        }
        thread::sleep(rt, Duration::from_millis(PAUSE));
    }
    panic!(rt; "no dial comes any more")
}

/// The addresses of both servers, of which that of the other one is not known yet.
fn addresses<R: Abort>(rt: &R, alloc: Global) -> PeerAddresses {
    let known = [Some(address_of(OWN)), None];
    let addresses = PeerAddresses::new(alloc, &known).ok();
    addresses.expect(rt, "memory")
}

/// The other server has its address from now on. Whether that is another one than before.
fn tell_address<R: Wait + Abort>(rt: &R, alloc: Global, addresses: &PeerAddresses) -> bool {
    addresses.set(rt, 1, list_of(rt, alloc, address_of(OTHER)))
}

/// The other server has its address after a while, which is told once. No dial comes before that.
fn learns_address<R: Clock + Wait + Abort>(rt: &R, alloc: Global, shared: &Shared) {
    thread::sleep(rt, Duration::from_millis(COUNTED));
    assert!(rt; close_dials(&shared.other) == 0);
    assert!(rt; tell_address(rt, alloc, &shared.addresses));
    assert!(rt; !tell_address(rt, alloc, &shared.addresses));
    shared.shutdown.wake_all();
}

/// Holds the next dial for a while, in which no other one comes, and has all servers stop.
fn holds_route<R: Clock + Abort>(rt: &R, shared: &Shared) {
    let open = next_dial(rt, &shared.other);
    thread::sleep(rt, Duration::from_millis(OPEN));
    assert!(rt; close_dials(&shared.other) == 0);
    shared.shutdown.fail();
    drop(open);
}

/// The other server has its address after a while, closes each route for another while, and holds one at last; then all servers stop. No dial
/// comes before there is an address, three to eight are closed, and none comes while one is open.
fn refuses_routes<R: Clock + Wait + Abort>(rt: &R, alloc: Global, shared: &Shared) {
    learns_address(rt, alloc, shared);
    for _dial in 0..3 {
        drop(next_dial(rt, &shared.other));
    }
    thread::sleep(rt, Duration::from_millis(COUNTED));
    assert!(rt; close_dials(&shared.other) <= 5);
    holds_route(rt, shared);
}

/// The loop that has run since then has told once that nobody can be accepted, and has made no more rounds than one in a millisecond.
fn assert_has_paused<R: Clock + Abort>(rt: &R, watch: &Watch, start: Instant) {
    assert_eq!(rt; watch.refused.load(Ordering::SeqCst), 1);
    let took = start.elapsed(rt).ok().expect(rt, "a time");
    let rounds = u128::from(watch.rounds.load(Ordering::SeqCst));
    assert!(rt; rounds <= took.as_millis().saturating_add(100));
}

/// The loop stops at once in the end, has told once that nobody can be accepted, has waited between its dials, and has made no more rounds
/// than one in a millisecond.
#[test]
fn a_loop_pauses_where_accepting_fails_and_each_route_is_refused(rt: HostRuntime) {
    let alloc = rt.alloc();
    let start = Instant::now(&rt).ok().expect(&rt, "a time");
    let sockets = sockets(&rt);
    let shared = new_shared(&rt, alloc, &sockets.poll);
    let (is_prompt, ()) = join(
        &rt,
        || run(&rt, alloc, sockets, &shared),
        || refuses_routes(&rt, alloc, &shared),
    );
    assert!(rt; is_prompt);
    assert_has_paused(&rt, &shared.watch, start);
}

/// The one server of a process that stands at the third place of its cluster is asked to drain by that place, and no other is.
#[test]
fn a_server_is_asked_to_drain_by_its_place_in_the_cluster(rt: HostRuntime) {
    let poll = Poll::new(&rt).ok().expect(&rt, "a poll");
    let mut shutdown = shutdown(&rt, rt.alloc(), &poll);
    shutdown.set_first_place(2);
    assert!(rt; !shutdown.ask_drain(0) && !shutdown.ask_drain(1) && !shutdown.ask_drain(3));
    assert!(rt; shutdown.ask_drain(2));
    assert!(rt; shutdown.asks(0) == 0 && shutdown.asks(1) == 0 && shutdown.asks(2) == 1);
}
