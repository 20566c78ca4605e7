//! One server on several threads: what it does, what it tells at its end of all that was done under its locks, that members may leave in
//! between, and what it refuses once it drains.

ghost use Rattle.std.specs.Prelude.{◌≡◌};

use bytes::Bytes;
use crossbeam_utils::sync::Parker;
use hub_core::HubFault;
use node_law::NodeFault;
use shard_core::ShardFault;
use std::alloc::Global;
use std::marker::Brand;
use std::process::Abort;
use std::sync::atomic::{AtomicU64, Ordering};
use std::sync::{Mutex, Wait};
use std::thread;
use std::thread::Threads;
use sub_trie::TrieTable;
use subj::{
    ConnId, Failure, Incarnation, Key, MAX_SHARDS, Message, NodeId, Pattern, Pub, QueueName,
    ServerIdentity, Sid, Subject, Turn,
};
use thread_node::{Gate, NodeName, Parts, ShardEntry, ShardEvent, ThreadNode};
use thread_report::{Pass, Report, finish};

/// A server with the table of subscriptions that servers have.
pub(crate) type Node<N> = ThreadNode<TrieTable, N>;

/// What one thread does at a server.
#[derive(Clone, Copy)]
enum Part {
    /// Publishes for the connection of this number, and then has the workers that sleep stop.
    Publishes(u64),
    /// Works the lanes by a thread for each shard, from the first publication on.
    Works,
    /// The same once all was published, with a million tries at most.
    WorksBehind,
    /// Works the lane of one shard, and sleeps until it is woken.
    Sleeps,
    /// Has the second connections of both shards leave once half was published.
    Leaves,
    /// Has the hub and both shards drain.
    Drains,
    /// Has all drain where the first shard does already, and the hub too where this is true.
    DrainsTheRest(bool),
}

/// What is played at a server of so many shards, which writes down what it does where that is to be kept.
#[derive(Clone, Copy)]
struct Play {
    shards: u64,
    kept: bool,
    /// How many members the first shard and the last shard have each.
    members: u64,
    /// How often each thread publishes that does, and how often all do.
    each: u64,
    all: u64,
    /// What its threads do, all at once.
    parts: &'static [Part],
}

/// A play, and what its threads have in common.
#[derive(Drop)]
struct Scene {
    play: Play,
    publication: Pub,
    /// How many publications came.
    published: AtomicU64,
    /// On what the workers sleep, that of shard 1 first.
    parkers: Mutex<Vec<Parker>>,
    /// Which of the first and the last shard were ever in their turn: shard 1 counts 1, the other one 2.
    came: AtomicU64,
    /// The same of those that have seen both there.
    met: AtomicU64,
}

/// How often a shard looks for the other one, and how often a worker tries that does not begin with the first publication.
const LOOKS: u64 = 1_000_000;

// Holds the first and the last shard in their first turn until the other one is in its own, for so many looks at most.
impl Gate for Scene {
    fn hold(&self, shard: u64, _turn: Turn, _index: u64) {
        let sign = u64::min(shard, 2);
        self.came.fetch_or(sign, Ordering::SeqCst);
        for _look in 0..LOOKS {
            if self.came.load(Ordering::SeqCst) == 3 {
                self.met.fetch_or(sign, Ordering::SeqCst);
                return;
            }
            thread::yield_now();
        }
    }
}

/// A list of this alone.
pub(crate) fn list_of<T: Drop>(rt: &impl Abort, alloc: Global, item: T) -> Vec<T> {
    let mut list = Vec::new(alloc);
    assert!(rt; list.push(item).is_ok());
    list
}

/// The server n1, alone, of so many shards.
fn server(rt: &impl Abort, alloc: Global, shards: u64) -> ServerIdentity {
    let name = NodeId::read(b"n1").ok().expect(rt, "a name");
    let inc = Incarnation::new(1).expect(rt, "an incarnation");
    ServerIdentity::new(list_of(rt, alloc, name), 0, inc, shards).expect(rt, "a server")
}

/// `hello` on `foo` behind a header block, as a client says it.
fn hello(rt: &impl Abort, alloc: Global) -> Pub {
    let subject = Subject::read(alloc, b"foo").ok().expect(rt, "a subject");
    let block = Some(Bytes::from_static(b"NATS/1.0\r\n\r\n"));
    let message = Message::new(alloc, subject, None, block, Bytes::from_static(b"hello")).ok();
    Pub {
        message: message.expect(rt, "memory").expect(rt, "a message"),
        echo: true,
    }
}

/// The key of `foo`, in the queue group `work`.
fn work_of_foo(rt: &impl Abort, alloc: Global) -> Key {
    let queue = QueueName::read(alloc, b"work").ok();
    let pattern = Pattern::read(alloc, b"foo").ok();
    Key {
        pattern: pattern.expect(rt, "a pattern"),
        queue: Some(queue.expect(rt, "a name")),
    }
}

/// Opens a subscription of the connection to `foo`, in the queue group `work`: why not, where it is refused.
fn refusal<N: NodeName, R: Abort + Wait>(
    rt: &R,
    alloc: Global,
    node: &Node<N>,
    pass: &mut Pass<N>,
    shard: u64,
    conn: ConnId,
) -> Option<Failure<NodeFault>> {
    let key = work_of_foo(rt, alloc);
    let sid = Sid::read(alloc, b"1").ok().expect(rt, "an id");
    pass.subscribe(rt, node, shard, conn, key, sid).err()
}

/// Opens a subscription of a new connection of the shard to `foo`, in the queue group `work`, and has the hub collect it, which tells the
/// peers of one change.
fn member<N: NodeName, R: Abort + Wait>(
    rt: &R,
    alloc: Global,
    node: &Node<N>,
    pass: &mut Pass<N>,
    shard: u64,
) -> ConnId {
    let conn = pass.attach(rt, node, shard).ok().expect(rt, "a connection");
    assert!(rt; refusal(rt, alloc, node, pass, shard, conn).is_none());
    assert!(rt; pass.collect(rt, node, shard).is_ok());
    assert!(rt; pass.hub_lists().expect(rt, "lists").changes().len() == 1);
    conn
}

/// A member in the first and one in the last shard, which takes headers.
fn pair<N: NodeName, R: Abort + Wait>(rt: &R, alloc: Global, node: &Node<N>, pass: &mut Pass<N>) {
    let shards = node.shards();
    member(rt, alloc, node, pass, 1);
    let last = member(rt, alloc, node, pass, shards);
    assert!(rt; pass.set_headers(rt, node, shards, last, true).is_ok());
}

/// Whether a publication was answered so for which there was room: no shard was a window behind.
fn is_published<T: Drop>(rt: &impl Abort, answer: Result<T, Failure<HubFault>>) -> bool {
    match answer {
        Ok(_) => true,
        Err(Failure::Refused(HubFault::Busy(_))) => false,
        Err(_) => panic!(rt; "a publication is refused"),
    }
}

/// How often a publisher for which there was no room lets other threads run before it asks again: each refusal is written down.
const YIELDS: u64 = 1_000;

/// Lets other threads run.
fn let_others_run() {
    for _ in 0..YIELDS {
        thread::yield_now();
    }
}

/// Publishes for the connection of this number, each time as soon as the server has room for one more.
fn publish_all<N: NodeName, R: Abort + Wait>(
    rt: &R,
    node: &Node<N>,
    pass: &mut Pass<N>,
    scene: &Scene,
    conn: u64,
) {
    let mut published = 0_u64;
    for _try in rt.forever() {
        if published >= scene.play.each {
            return;
        }
        let answer = pass.publish(rt, node, ConnId::new(conn), &scene.publication, 0);
        if is_published(rt, answer) {
            published = published.saturating_add(1);
            scene.published.fetch_add(1, Ordering::SeqCst);
        } else {
            let_others_run();
        }
    }
}

/// Waits until so many publications came.
fn wait_for<R: Wait>(rt: &R, scene: &Scene, least: u64) {
    for _look in rt.forever() {
        if scene.published.load(Ordering::SeqCst) >= least {
            return;
        }
        thread::yield_now();
    }
}

/// Once so many publications came, works the lanes until each shard has finished the last turn, or has made so many tries. The first and the
/// last shard are in their first turn at once.
fn work<N: NodeName + Send + Sync, R: Abort + Threads + Wait + Sync>(
    rt: &R,
    node: &Node<N>,
    scene: &Scene,
    least: u64,
    tries: u64,
) {
    wait_for(rt, scene, least);
    let until = Turn::new(scene.play.all).expect(rt, "a turn");
    node.workers(rt, scene, until, tries);
    assert_eq!(rt; scene.met.load(Ordering::SeqCst), 3);
}

/// Works the lane of the last shard that has no worker yet, and sleeps until it is woken.
fn sleep<N: NodeName, R: Wait>(rt: &R, node: &Node<N>, scene: &Scene) {
    let mut parkers = scene.parkers.lock(rt);
    let shard = parkers.len() as u64;
    let parker = parkers.pop();
    drop(parkers);
    if let Some(parker) = parker {
        node.worker_until_stopped(rt, shard, &parker, scene);
    }
}

/// The second connections of both shards go once half was published, and the hub hears of it.
fn leave<N: NodeName, R: Abort + Wait>(rt: &R, node: &Node<N>, pass: &mut Pass<N>, scene: &Scene) {
    wait_for(rt, scene, scene.play.each);
    for shard in 1..3 {
        assert!(rt; pass.detach(rt, node, shard, ConnId::new(shard + 2)).is_ok());
        assert!(rt; pass.collect(rt, node, shard).is_ok());
    }
}

/// The hub and both shards drain once, and no more; a connection of each shard gets no subscription behind that.
fn drain<N: NodeName, R: Abort + Wait>(rt: &R, alloc: Global, node: &Node<N>, pass: &mut Pass<N>) {
    assert!(rt; pass.drain_hub(rt, node).is_ok());
    assert!(rt; pass.drain_hub(rt, node).is_err());
    for shard in 1..3 {
        assert!(rt; pass.drain_shard(rt, node, shard).is_ok());
        assert!(rt; pass.drain_shard(rt, node, shard).is_err());
        let refusal = refusal(rt, alloc, node, pass, shard, ConnId::new(shard));
        assert!(rt;
            matches!(
                refusal,
                Some(Failure::Refused(NodeFault::Shard(ShardFault::Draining)))
            )
        );
    }
}

/// Whether the hub drained only by this drain of all, which had a shard to drain at least.
fn is_hub_new(rt: &impl Abort, drained: Result<Option<Vec<usize>>, Failure<NodeFault>>) -> bool {
    drained.ok().expect(rt, "a drain").is_some()
}

/// Whether all drained already.
fn did_drain(drained: Result<Option<Vec<usize>>, Failure<NodeFault>>) -> bool {
    matches!(
        drained,
        Err(Failure::Refused(NodeFault::Hub(HubFault::Draining)))
    )
}

/// Two shards, of which the first drains already, and the hub too where that is so: the drain of all goes past what does, and the second
/// shard drains too. Behind it all drain, and the next is refused.
fn drain_the_rest<N: NodeName, R: Abort + Wait>(rt: &R, node: &Node<N>, has_hub: bool) {
    assert!(rt; !has_hub || node.drain_hub(rt).is_ok());
    assert!(rt; node.drain_shard(rt, 1).is_ok());
    assert!(rt; is_hub_new(rt, node.drain(rt)) != has_hub);
    assert!(rt; node.drain_shard(rt, 2).is_err());
    assert!(rt; did_drain(node.drain(rt)));
}

/// Plays the part at this place: what its calls were answered.
fn act<N: NodeName + Send + Sync, R: Abort + Threads + Wait + Sync>(
    rt: &R,
    alloc: Global,
    node: &Node<N>,
    scene: &Scene,
    place: usize,
) -> Pass<N> {
    let mut pass = Pass::new(alloc);
    match scene.play.parts.get(place) {
        Some(Part::Publishes(conn)) => {
            publish_all(rt, node, &mut pass, scene, *conn);
            node.stop();
        }
        Some(Part::Works) => work(rt, node, scene, 0, u64::MAX),
        Some(Part::WorksBehind) => work(rt, node, scene, scene.play.all, LOOKS),
        Some(Part::Sleeps) => sleep(rt, node, scene),
        Some(Part::Leaves) => leave(rt, node, &mut pass, scene),
        Some(Part::Drains) => drain(rt, alloc, node, &mut pass),
        Some(Part::DrainsTheRest(has_hub)) => drain_the_rest(rt, node, *has_hub),
        None => {}
    }
    pass
}

/// Takes all that waits for the first connection of a shard: how many entries.
fn take_count<N: NodeName, R: Abort + Wait>(
    rt: &R,
    node: &Node<N>,
    pass: &mut Pass<N>,
    shard: u64,
) -> u64 {
    assert!(rt;
        pass.take(rt, node, shard, ConnId::new(shard), usize::MAX)
            .is_ok()
    );
    pass.lists().expect(rt, "lists").taken().len() as u64
}

/// Whether so many publications reached both members. Where no member leaves, each publication reached one of them.
fn is_reached(play: &Play, taken: u64) -> bool {
    play.members > 1 || taken == play.all
}

/// Plays all parts, between the first calls of clients and their last ones: what the calls of all were answered.
fn perform<N: NodeName + Send + Sync, R: Abort + Threads + Wait + Sync>(
    rt: &R,
    alloc: Global,
    node: &Node<N>,
    scene: &Scene,
) -> Vec<Pass<N>> {
    let mut clients = Pass::new(alloc);
    for _pair in 0..scene.play.members {
        pair(rt, alloc, node, &mut clients);
    }
    let count = scene.play.parts.len();
    let passes = thread::map_indices(
        rt,
        alloc,
        count,
        &|place| act(rt, alloc, node, scene, place),
    );
    let mut passes = passes.ok().expect(rt, "memory");
    let of_first = take_count(rt, node, &mut clients, 1);
    let of_last = take_count(rt, node, &mut clients, node.shards());
    assert!(rt; is_reached(&scene.play, of_first.saturating_add(of_last)));
    assert!(rt; passes.push(clients).is_ok());
    passes
}

/// Plays at the server of these parts, and ends it: its report.
fn stage<N: NodeName + Send + Sync, R: Abort + Threads + Wait + Sync>(
    rt: &R,
    alloc: Global,
    parts: Parts,
    scene: &Scene,
) -> Report
    requires { (parts.race ≡ N.race) × (parts.lanes ≡ N.lanes) × (parts.keep ≡ N.keep) }
{
    let node: Node<N> = ThreadNode::start(alloc, parts).ok().expect(rt, "memory");
    let passes = perform(rt, alloc, &node, scene);
    let report = finish(rt, alloc, node, passes).ok();
    report.expect(rt, "a report")
}

/// How many jobs the shard worked to their end. Of which turns it won the first queue name, and placed a message for it, is counted by turn.
fn end_count(tape: &[ShardEntry], wins: &mut [u64]) -> u64 {
    let mut ends = 0_u64;
    let mut in_hand = 0_usize;
    for entry in tape {
        match &entry.event {
            ShardEvent::Begin { job, .. } => in_hand = job.turn.get() as usize,
            ShardEvent::Claim {
                index: 0,
                won: true,
                placed: Some(_),
            } => {
                if let Some(count) = wins.get_mut(in_hand) {
                    *count = count.saturating_add(1);
                }
            }
            ShardEvent::End => ends = ends.saturating_add(1),
            _ => {}
        }
    }
    ends
}

/// The report has this last turn, issued by the hub, and finished by the first and the last shard.
fn is_last(rt: &impl Abort, report: &Report, play: Play) {
    let first_finished = report.finished.of(1).get();
    let last_finished = report.finished.of(play.shards).get();
    assert_eq!(rt;
        [report.issued.get(), first_finished, last_finished],
        [play.all, play.all, play.all]
    );
}

/// The report has all jobs, and each shard worked all of them to their end.
fn has_all(rt: &impl Abort, report: &Report, play: Play) {
    assert!(rt; report.kept);
    assert_eq!(rt; report.jobs.len() as u64, play.all);
    assert_eq!(rt; report.worked.len() as u64, play.shards);
}

/// How many shards won the first queue name of each turn, and placed a message for it. Each has worked so many jobs to their end.
fn wins_of(rt: &impl Abort, alloc: Global, worked: &[Vec<ShardEntry>], all: u64) -> Vec<u64> {
    let wins = vec![in alloc; 0; all.saturating_add(1) as usize].ok();
    let mut wins = wins.expect(rt, "memory");
    for tape in worked {
        assert!(rt; end_count(tape.as_slice(), wins.as_mut_slice()) == all);
    }
    wins
}

/// The report has all jobs, each shard worked all of them to their end, and each was won by one. Where members leave, more is published than
/// they have room for, and what nobody has room for is won by nobody.
fn is_whole(rt: &impl Abort, alloc: Global, report: &Report, play: Play) {
    has_all(rt, report, play);
    let wins = wins_of(rt, alloc, report.worked.as_slice(), play.all);
    let least = if play.members > 1 { 0 } else { 1 };
    assert!(rt;
        wins.iter()
            .skip(1)
            .all(|count| *count >= least && *count <= 1)
    );
}

/// Plays at a server of its own, whose report has all.
fn played<R: Abort + Threads + Wait + Sync>(rt: &R, alloc: Global, play: Play) {
    let made = Parts::new(alloc, server(rt, alloc, play.shards), play.kept).ok();
    let (parts, parkers) = made.expect(rt, "memory");
    let scene = Scene {
        play,
        publication: hello(rt, alloc),
        published: AtomicU64::new(0),
        parkers: Mutex::new(parkers),
        came: AtomicU64::new(0),
        met: AtomicU64::new(0),
    };
    let report = stage::<Brand, _>(rt, alloc, parts, &scene);
    is_last(rt, &report, play);
    if play.kept {
        is_whole(rt, alloc, &report, play);
    }
}

/// A play whose jobs all wait before they are worked: each is told, and so is what each shard did with it.
fn all_at_once(shards: u64, all: u64) -> Play {
    Play {
        shards,
        kept: true,
        members: 1,
        each: all,
        all,
        parts: &[Part::Publishes(1), Part::WorksBehind],
    }
}

/// The first and the last shard are in the first turn at once, and each job is won by one of them.
#[test]
fn each_job_is_won_once(rt: HostRuntime) {
    played(&rt, rt.alloc(), all_at_once(2, 1));
    played(&rt, rt.alloc(), all_at_once(2, 3));
    played(&rt, rt.alloc(), all_at_once(2, 10));
    played(&rt, rt.alloc(), all_at_once(MAX_SHARDS, 1));
    played(&rt, rt.alloc(), all_at_once(MAX_SHARDS, 10));
}

/// Each publication of two threads reaches one of the two members, while two others work the lanes.
#[test]
fn two_publish_and_two_work(rt: HostRuntime) {
    let play = Play {
        shards: 2,
        kept: false,
        members: 1,
        each: 500,
        all: 1_000,
        parts: &[Part::Publishes(1), Part::Publishes(2), Part::Works],
    };
    played(&rt, rt.alloc(), play);
}

/// Two workers sleep until they are woken, and stop when they are told to: no publication is lost.
#[test]
fn workers_sleep_and_stop(rt: HostRuntime) {
    let play = Play {
        shards: 2,
        kept: false,
        members: 1,
        each: 500,
        all: 500,
        parts: &[
            Part::Publishes(1),
            Part::Sleeps,
            Part::Sleeps,
            Part::WorksBehind,
        ],
    };
    played(&rt, rt.alloc(), play);
}

/// Two members in each of two shards, of which one each leaves in between: each shard worked each publication.
#[test]
fn members_leave_in_between(rt: HostRuntime) {
    let play = Play {
        shards: 2,
        kept: true,
        members: 2,
        each: 5_000,
        all: 10_000,
        parts: &[
            Part::Publishes(1),
            Part::Publishes(2),
            Part::Works,
            Part::Leaves,
        ],
    };
    played(&rt, rt.alloc(), play);
}

/// A play in which nothing is published.
fn unpublished(kept: bool, parts: &'static [Part]) -> Play {
    Play {
        shards: 2,
        kept,
        members: 1,
        each: 0,
        all: 0,
        parts,
    }
}

#[test]
fn a_server_that_drains_has_its_report(rt: HostRuntime) {
    played(&rt, rt.alloc(), unpublished(true, &[Part::Drains]));
}

#[test]
fn a_drain_goes_past_what_drains_already(rt: HostRuntime) {
    played(
        &rt,
        rt.alloc(),
        unpublished(false, &[Part::DrainsTheRest(false)]),
    );
    played(
        &rt,
        rt.alloc(),
        unpublished(false, &[Part::DrainsTheRest(true)]),
    );
}
