//! The words, bits and lists by which the loops of one server tell each other. Each order of steps that might lose something is made step by step, by
//! one thread: `docs/LOOPS.md` has the table of them.

ghost use Rattle.std.specs.Prelude.{◌≡◌};

use crate::node_tests::list_of;
use mio::net::{TcpListener, TcpStream};
use mio::{Events, Poll, Waker};
use node_net::{LoopWord, Loops, WAKER};
use server_calls::LoopPlace;
use std::alloc::Global;
use std::net::{Ipv4Addr, Net, SocketAddr};
use std::process::Abort;
use std::sync::Wait;
use std::time::Duration;

/// Where streams come in that one loop hands to the other.
const PORT: u16 = 17_462;

fn new_poll<R: Net + Abort>(rt: &R) -> Poll {
    let poll = Poll::new(rt).ok();
    poll.expect(rt, "a poll")
}

/// The word of a loop that waits on this.
fn word<R: Abort>(rt: &R, poll: &Poll) -> LoopWord {
    let waker = Waker::new(poll.registry(), WAKER).ok();
    LoopWord::new(waker.expect(rt, "a waker"))
}

/// Two loops of one server: what each of them polls, and their words.
#[derive(Drop)]
struct Pair {
    first: Poll,
    second: Poll,
    words: Vec<LoopWord>,
}

/// Two loops that are told nothing yet.
fn new_pair<R: Net + Abort>(rt: &R, alloc: Global) -> Pair {
    let first = new_poll(rt);
    let second = new_poll(rt);
    let words = words(rt, alloc, &first, &second);
    Pair {
        first,
        second,
        words,
    }
}

/// The words of two loops that wait on these.
fn words<R: Abort>(rt: &R, alloc: Global, first: &Poll, second: &Poll) -> Vec<LoopWord> {
    let mut words = list_of(rt, alloc, word(rt, first));
    assert!(rt; words.push(word(rt, second)).is_ok());
    words
}

/// What the loops share that these wake, of a server that is alone in its cluster.
fn loops<'l, R: Abort>(rt: &R, alloc: Global, words: &'l [LoopWord]) -> Loops<'l> {
    let loops = Loops::new(alloc, words, 1).ok();
    loops.expect(rt, "memory")
}

/// The loop at this place, of two.
fn place<R: Abort>(rt: &R, place: u64) -> LoopPlace {
    let place = LoopPlace::new(place, 2);
    place.expect(rt, "a place")
}

/// Whether a loop is woken that polls now.
fn is_rung<R: Abort>(rt: &R, alloc: Global, poll: &mut Poll) -> bool {
    let events = Events::with_capacity(alloc, 4).ok();
    let mut events = events.expect(rt, "memory");
    let polled = poll.poll(&mut events, Some(Duration::from_millis(0)));
    assert!(rt; polled.is_ok());
    !events.is_empty()
}

/// The second loop is told before it looks, before it sleeps, before it polls, and twice while it waits: it is rung only where it sleeps, and once.
fn tells_in_time<R: Abort>(rt: &R, alloc: Global, loops: &Loops<'_>, poll: &mut Poll) {
    let (first, second) = (place(rt, 0), place(rt, 1));
    // before it looks
    loops.tell_others(first);
    assert!(rt; loops.is_told(second) && loops.clear(second));
    // between its looks and its sleep
    loops.tell_others(first);
    assert!(rt; !loops.sleep(second) && !is_rung(rt, alloc, poll) && loops.clear(second));
    // between its sleep and its poll, twice
    assert!(rt; loops.sleep(second));
    loops.tell_others(first);
    assert!(rt; is_rung(rt, alloc, poll));
    loops.tell_others(first);
    assert!(rt; !is_rung(rt, alloc, poll) && loops.clear(second));
    // never
    assert!(rt; loops.sleep(second) && !is_rung(rt, alloc, poll) && !loops.clear(second));
    assert!(rt; !loops.is_told(first) && !loops.clear(first));
}

/// Whatever is put for a loop is told before it looks, before it sleeps, before it polls, or while it waits; it is looked at each time, and the loop is
/// rung only where it sleeps, and once.
#[test]
fn a_loop_does_not_sleep_over_what_is_put_for_it(rt: HostRuntime) {
    let mut pair = new_pair(&rt, rt.alloc());
    let loops = loops(&rt, rt.alloc(), &pair.words);
    tells_in_time(&rt, rt.alloc(), &loops, &mut pair.second);
}

/// Turns end while no loop waits for one, while one does, and while both do.
fn finishes_turns<R: Abort>(rt: &R, loops: &Loops<'_>) {
    let (first, second) = (place(rt, 0), place(rt, 1));
    loops.finish_turn();
    assert!(rt; !loops.is_told(first) && !loops.is_told(second));
    loops.wait_for_turn(second);
    assert!(rt; loops.waits_for_turn(second) && !loops.waits_for_turn(first));
    loops.finish_turn();
    assert!(rt; !loops.waits_for_turn(second) && !loops.is_told(first) && loops.clear(second));
    loops.finish_turn();
    assert!(rt; !loops.is_told(second));
    loops.wait_for_turn(first);
    loops.wait_for_turn(second);
    loops.finish_turn();
    assert!(rt; loops.is_told(first) && loops.is_told(second));
}

/// A finished turn tells just the loops that wait for one, and each of them once.
#[test]
fn a_finished_turn_tells_those_who_wait_for_one(rt: HostRuntime) {
    let pair = new_pair(&rt, rt.alloc());
    let loops = loops(&rt, rt.alloc(), &pair.words);
    finishes_turns(&rt, &loops);
}

/// The first loop drains, and then the second one, which cuts off three clients.
fn drains<R: Abort>(rt: &R, loops: &Loops<'_>) {
    let (first, second) = (place(rt, 0), place(rt, 1));
    assert!(rt; !loops.has_closed() && !loops.has_told() && loops.others_done().is_none());
    loops.close_doors(first);
    assert!(rt; loops.has_closed() && loops.clear(second));
    loops.note_told(first);
    assert!(rt; loops.has_told() && loops.clear(second) && !loops.is_told(first));
    loops.finish_drain(3);
    assert!(rt; loops.others_done() == Some(3) && loops.is_told(first));
}

/// A drain is heard by the other loop, which tells when it is done and how many clients it has cut off.
#[test]
fn a_drain_is_over_once_the_other_loop_is_done(rt: HostRuntime) {
    let pair = new_pair(&rt, rt.alloc());
    let loops = loops(&rt, rt.alloc(), &pair.words);
    drains(&rt, &loops);
}

/// Where the streams of these tests go.
fn address() -> SocketAddr {
    SocketAddr::from((Ipv4Addr::LOCALHOST, PORT))
}

/// What listens there.
fn listener<R: Net + Abort>(rt: &R) -> TcpListener {
    let listener = TcpListener::bind(rt, address()).ok();
    listener.expect(rt, "a port")
}

/// A stream to the port of these tests.
fn stream<R: Net + Abort>(rt: &R) -> TcpStream {
    let stream = TcpStream::connect(rt, address()).ok();
    stream.expect(rt, "a stream")
}

/// The port at this end of a stream.
fn port_of<R: Abort>(rt: &R, stream: &TcpStream) -> u16 {
    let address = stream.local_addr().ok();
    address.expect(rt, "an address").port()
}

/// Puts a new stream for the second loop, which alone is told: the port at this end of it.
fn put_port<R: Net + Wait + Abort>(rt: &R, loops: &Loops<'_>) -> u16 {
    let stream = stream(rt);
    let port = port_of(rt, &stream);
    assert!(rt; loops.put_stream(rt, 1, stream));
    assert!(rt; loops.clear(place(rt, 1)) && !loops.is_told(place(rt, 0)));
    port
}

/// The port at this end of the stream that comes to the second loop next.
fn take_port<R: Wait + Abort>(rt: &R, loops: &Loops<'_>) -> u16 {
    let stream = loops.take_stream(rt, place(rt, 1));
    port_of(rt, &stream.expect(rt, "a stream"))
}

/// Puts two streams for the second loop, and one for a loop that is not there; the first loop gets none, and the second one both.
fn hands_over<R: Net + Wait + Abort>(rt: &R, loops: &Loops<'_>) {
    let one = put_port(rt, loops);
    let other = put_port(rt, loops);
    assert!(rt; !loops.put_stream(rt, 2, stream(rt)));
    assert!(rt; loops.take_stream(rt, place(rt, 0)).is_none());
    assert!(rt; take_port(rt, loops) == one && take_port(rt, loops) == other);
    assert!(rt; loops.take_stream(rt, place(rt, 1)).is_none());
}

/// A loop takes the streams that are put for it, oldest first, and no other ones.
#[test]
fn streams_come_to_their_loop_in_order(rt: HostRuntime) {
    let _listener = listener(&rt);
    let pair = new_pair(&rt, rt.alloc());
    let loops = loops(&rt, rt.alloc(), &pair.words);
    hands_over(&rt, &loops);
}
