//! A server that has just started, the calls of a case on it, and its report. Callers tell in their passes what they asked and were answered: each
//! makes the calls of a list, and each call comes to what the list says. What owns much is let go of by a call of [`drop`]: at the end of a function
//! each of its parts would be proved to be let go of.

ghost use Rattle.std.specs.Prelude.{◌≡◌};

use crate::lanes::{NO_MEMORY, busy_told, turned_told};
use client_frames::{ErrText, ReplyFrame};
use golden::{Answer, Call, Words, call_of, key_of, life_of, message_with, server_of, sid_of};
use hub_core::HubFault;
use node_law::NodeFault;
use node_parts::Issued;
use node_threads::ShardEntry;
use outbox::Entry;
use route_session::SessionId;
use route_values::{Body, Numbered, RouteConnect, RouteInfo, SnapshotKeys};
use std::alloc::Global;
use std::marker::Brand;
use std::sync::Wait;
use sub_trie::TrieTable;
use subj::{ConnId, Failure, Key, Pub, QueueNames, Sid, WINDOW};
use thread_node::{NodeName, Open, Parts, ThreadNode};
use thread_report::{IssuedJob, Pass, Report, Unfinished, finish};

/// The server.
type Node<N> = ThreadNode<TrieTable, N>;

/// `hello` on `foo`, as a client says it, with a header block or none.
fn hello(alloc: Global, block: &str) -> Option<Pub> {
    Some(Pub {
        message: message_with(alloc, "foo", "", block, "hello")?,
        echo: true,
    })
}

/// What opens a subscription to `foo`, in the queue group `work`, with the id 1.
fn opening(alloc: Global) -> Option<(Key, Sid)> {
    let key = key_of(alloc, "foo", "work")?;
    let sid = sid_of(alloc, "1")?;
    Some((key, sid))
}

/// The snapshot of n2 to n1, both in their first lives: it has no interest.
fn snapshot(alloc: Global) -> Option<Numbered> {
    let (from, to) = (life_of("n2", 1)?, life_of("n1", 1)?);
    let body = Body::Snapshot(SnapshotKeys::new(alloc));
    Numbered::new(from.name, from.inc, to.name, to.inc, 0, body)
}

/// The first message of a server to another one, both in their first lives.
fn message(alloc: Global, from: &str, to: &str) -> Option<Numbered> {
    let (from, to) = (life_of(from, 1)?, life_of(to, 1)?);
    let Pub { message, .. } = hello(alloc, "")?;
    let queues = QueueNames::new();
    let body = Body::Msg { message, queues };
    Numbered::new(from.name, from.inc, to.name, to.inc, 1, body)
}

/// The `CONNECT` of n2 to n1, both in their first lives.
fn connecting() -> Option<RouteConnect> {
    let (from, to) = (life_of("n2", 1)?, life_of("n1", 1)?);
    RouteConnect::new(from.name, from.inc, to.name, to.inc, 1)
}

/// What a call of a caller comes to.
#[derive(Clone, Copy, PartialEq)]
enum Came {
    /// It is done.
    Done,
    /// It is refused under a lock.
    Refused,
    /// It is refused for the connection of another shard.
    Away,
    /// There is no memory for it.
    Short,
}

/// What a call on a shard came to; what it gave is let go of here, since it would be proved anew wherever this is done.
fn at_shard<X: Drop>(answer: Result<X, Failure<NodeFault>>) -> Came {
    match answer {
        Ok(_given) => Came::Done,
        Err(Failure::Refused(NodeFault::NoShard)) => Came::Away,
        Err(Failure::Refused(_)) => Came::Refused,
        Err(Failure::OutOfMemory) => Came::Short,
    }
}

/// The same of a call on the hub.
fn at_hub<X: Drop, E: Drop>(answer: Result<X, Failure<E>>) -> Came {
    match answer {
        Ok(_given) => Came::Done,
        Err(Failure::Refused(_fault)) => Came::Refused,
        Err(Failure::OutOfMemory) => Came::Short,
    }
}

/// A call of a caller, the shard or the peer that it names, or how many publications it is, and what it comes to.
type Step = (&'static str, u64, Came);

/// Each call of a client: a subscription, headers, an answer, and the end of a connection in both ways.
static CLIENT: [Step; 12] = [
    ("attach", 1, Came::Done),
    ("subscribe", 1, Came::Done),
    ("collect", 1, Came::Done),
    ("unsubscribe", 1, Came::Done),
    ("headers", 1, Came::Done),
    ("reply", 1, Came::Done),
    ("take", 1, Came::Done),
    ("shut", 1, Came::Done),
    ("attach", 1, Came::Done),
    ("publish", 1, Came::Done),
    ("drop", 1, Came::Done),
    ("detach", 1, Came::Done),
];

/// A client of the first shard, whose connection the second one is asked for.
static STRAY: [Step; 6] = [
    ("attach", 1, Came::Done),
    ("headers", 2, Came::Away),
    ("reply", 2, Came::Away),
    ("take", 2, Came::Away),
    ("shut", 2, Came::Away),
    ("detach", 2, Came::Away),
];

/// Each call of a route: n1 dials n2, hears it, and ends the session; and n2 dials n1.
static PEER: [Step; 8] = [
    ("dial", 1, Came::Done),
    ("info", 1, Came::Done),
    ("snapshot", 1, Came::Done),
    ("message", 1, Came::Done),
    ("take_frames", 1, Came::Done),
    ("cut", 1, Came::Done),
    ("accept", 1, Came::Done),
    ("connect", 1, Came::Done),
];

/// A caller that is refused each call: no connection has the number 9, and no session stands; no job is there to drop; n1 is asked to dial itself,
/// for frames to a server that is not there, and to receive a message that is for n2.
static IN_VAIN: [Step; 14] = [
    ("headers", 1, Came::Refused),
    ("reply", 1, Came::Refused),
    ("take", 1, Came::Refused),
    ("shut", 1, Came::Refused),
    ("detach", 1, Came::Refused),
    ("subscribe", 1, Came::Refused),
    ("unsubscribe", 1, Came::Refused),
    ("drop", 1, Came::Refused),
    ("info", 1, Came::Refused),
    ("connect", 1, Came::Refused),
    ("cut", 1, Came::Refused),
    ("dial", 0, Came::Refused),
    ("take_frames", 2, Came::Refused),
    ("misled", 1, Came::Refused),
];

/// A client that publishes a window of publications, and one more, which is refused.
static BURST: [Step; 3] = [
    ("attach", 1, Came::Done),
    ("publish", WINDOW, Came::Done),
    ("publish", 1, Came::Refused),
];

/// The calls of the caller of this name; none where there is no such one.
fn steps_of(name: &str) -> &'static [Step] {
    match name {
        "clients" => &CLIENT,
        "stray" => &STRAY,
        "peer" => &PEER,
        "in_vain" => &IN_VAIN,
        "burst" => &BURST,
        _ => &[],
    }
}

/// A caller: its pass, and the connection and the session that it names.
#[derive(Drop)]
struct Caller<N: NodeName> {
    alloc: Global,
    pass: Pass<N>,
    conn: ConnId,
    session: SessionId,
}

impl<N: NodeName> Caller<N> {
    /// Has made no call. It names a connection and a session that nobody has made.
    fn new(alloc: Global) -> Caller<N> {
        Caller {
            alloc,
            pass: Pass::new(alloc),
            conn: ConnId::new(9),
            session: SessionId::new(1),
        }
    }

    /// Attaches the connection that it names from now on.
    fn attach<R: Wait>(&mut self, rt: &R, node: &Node<N>, shard: u64) -> Came {
        match self.pass.attach(rt, node, shard) {
            Ok(conn) => {
                self.conn = conn;
                Came::Done
            }
            Err(_) => Came::Refused,
        }
    }

    /// Opens a subscription of its connection.
    fn subscribe<R: Wait>(&mut self, rt: &R, node: &Node<N>, shard: u64) -> Came {
        match opening(self.alloc) {
            Some((key, sid)) => {
                at_shard(self.pass.subscribe(rt, node, shard, self.conn, key, sid))
            }
            None => Came::Short,
        }
    }

    /// Ends that subscription.
    fn unsubscribe<R: Wait>(&mut self, rt: &R, node: &Node<N>, shard: u64) -> Came {
        match sid_of(self.alloc, "1") {
            Some(sid) => at_shard(
                self.pass
                    .unsubscribe(rt, node, shard, self.conn, &sid, None),
            ),
            None => Came::Short,
        }
    }

    /// Publishes so often, up to where it is not done.
    fn publish<R: Wait>(&mut self, rt: &R, node: &Node<N>, count: u64) -> Came {
        let Some(publication) = hello(self.alloc, "") else {
            return Came::Short;
        };
        let mut came = Came::Done;
        for _made in 0..count {
            came = at_hub(self.pass.publish(rt, node, self.conn, &publication, 7));
            if came != Came::Done {
                break;
            }
        }
        drop(publication);
        came
    }

    /// Makes a call on its connection.
    fn on_conn<R: Wait>(&mut self, rt: &R, node: &Node<N>, call: &str, shard: u64) -> Came {
        let conn = self.conn;
        match call {
            "headers" => at_shard(self.pass.set_headers(rt, node, shard, conn, true)),
            "reply" => at_shard(self.pass.reply(rt, node, shard, conn, &ReplyFrame::Pong)),
            "take" => at_shard(self.pass.take(rt, node, shard, conn, 1)),
            "shut" => at_shard(self.pass.shut(rt, node, shard, conn, ErrText::ParserError)),
            _ => at_shard(self.pass.detach(rt, node, shard, conn)),
        }
    }

    /// Dials the peer at this place: names the session from now on.
    fn dial<R: Wait>(&mut self, rt: &R, node: &Node<N>, peer: usize) -> Came {
        match self.pass.dial(rt, node, peer) {
            Ok(session) => {
                self.session = session;
                Came::Done
            }
            Err(_) => Came::Refused,
        }
    }

    /// Accepts a session, which it names from now on.
    fn accept<R: Wait>(&mut self, rt: &R, node: &Node<N>) -> Came {
        match self.pass.accept(rt, node) {
            Ok((session, _info)) => {
                self.session = session;
                Came::Done
            }
            Err(_) => Came::Refused,
        }
    }

    /// Tells the `INFO` of n2 in its first life.
    fn info<R: Wait>(&mut self, rt: &R, node: &Node<N>) -> Came {
        match life_of("n2", 1) {
            Some(peer) => {
                let info = RouteInfo::new(peer.name, peer.inc);
                at_hub(self.pass.info(rt, node, self.session, &info))
            }
            None => Came::Short,
        }
    }

    /// Tells the `CONNECT` of n2 on its session.
    fn connect<R: Wait>(&mut self, rt: &R, node: &Node<N>) -> Came {
        match connecting() {
            Some(connect) => at_hub(self.pass.connect(rt, node, self.session, &connect)),
            None => Came::Short,
        }
    }

    /// Receives a frame.
    fn receive<R: Wait>(&mut self, rt: &R, node: &Node<N>, frame: Option<Numbered>) -> Came {
        match frame {
            Some(frame) => {
                let came = at_hub(self.pass.receive(rt, node, &frame));
                drop(frame);
                came
            }
            None => Came::Short,
        }
    }

    /// Makes a call of a route.
    fn on_route<R: Wait>(&mut self, rt: &R, node: &Node<N>, call: &str, peer: usize) -> Came {
        match call {
            "dial" => self.dial(rt, node, peer),
            "accept" => self.accept(rt, node),
            "info" => self.info(rt, node),
            "connect" => self.connect(rt, node),
            "snapshot" => self.receive(rt, node, snapshot(self.alloc)),
            "message" => self.receive(rt, node, message(self.alloc, "n2", "n1")),
            "misled" => self.receive(rt, node, message(self.alloc, "n1", "n2")),
            "cut" => at_hub(self.pass.cut(rt, node, self.session)),
            "take_frames" => at_hub(self.pass.take_frames(rt, node, peer, 1)),
            _ => self.on_conn(rt, node, call, peer as u64),
        }
    }

    /// Makes a call.
    fn makes<R: Wait>(&mut self, rt: &R, node: &Node<N>, call: &str, number: u64) -> Came {
        match call {
            "attach" => self.attach(rt, node, number),
            "subscribe" => self.subscribe(rt, node, number),
            "unsubscribe" => self.unsubscribe(rt, node, number),
            "collect" => at_shard(self.pass.collect(rt, node, number)),
            "drop" => at_shard(self.pass.drop_job(rt, node, number)),
            "publish" => self.publish(rt, node, number),
            _ => self.on_route(rt, node, call, number as usize),
        }
    }

    /// Makes these calls. Whether there are some, and each comes to what it is to come to.
    fn is_served<R: Wait>(&mut self, rt: &R, node: &Node<N>, steps: &[Step]) -> bool {
        for (call, number, comes_to) in steps {
            if self.makes(rt, node, call, *number) != *comes_to {
                return false;
            }
        }
        !steps.is_empty()
    }
}

/// The caller of this name makes its calls, and its pass is put behind the others.
fn serve<N: NodeName, R: Wait>(
    answer: &mut Answer,
    rt: &R,
    alloc: Global,
    node: &Node<N>,
    passes: &mut Vec<Pass<N>>,
    name: &str,
) -> Option<()> {
    let mut caller = Caller::new(alloc);
    let is_served = caller.is_served(rt, node, steps_of(name));
    let Caller { pass, .. } = caller;
    passes.push(pass).ok()?;
    answer.tell(if is_served { "ok" } else { "refused" })
}

/// Tells why a call failed: a refusal by its number.
fn failure_told(answer: &mut Answer, failure: Failure<NodeFault>) -> Option<()> {
    match failure {
        Failure::Refused(fault) => answer.tell_refusal(fault.number()),
        Failure::OutOfMemory => answer.tell(NO_MEMORY),
    }
}

/// Tells whether a call was done.
fn told<X: Drop>(answer: &mut Answer, came: Result<X, Failure<NodeFault>>) -> Option<()> {
    match came {
        Ok(_given) => answer.tell("ok"),
        Err(failure) => failure_told(answer, failure),
    }
}

/// The same of a call that takes no memory.
fn decided_told<X: Drop>(answer: &mut Answer, came: Result<X, NodeFault>) -> Option<()> {
    match came {
        Ok(_given) => answer.tell("ok"),
        Err(fault) => answer.tell_refusal(fault.number()),
    }
}

/// Tells the bytes of these entries.
fn bytes_told(answer: &mut Answer, alloc: Global, entries: &[Entry]) -> Option<()> {
    let mut bytes = Vec::new(alloc);
    for entry in entries {
        entry.append_to(&mut bytes).ok()?;
    }
    answer.tell_bytes("", &bytes)
}

/// Tells how many entries were taken, or their bytes.
fn taken_told(
    answer: &mut Answer,
    alloc: Global,
    call: &str,
    taken: Result<Vec<Entry>, Failure<NodeFault>>,
) -> Option<()> {
    match taken {
        Ok(entries) if call == "take" => answer.tell_number("entries ", entries.len() as u64),
        Ok(entries) => bytes_told(answer, alloc, &entries),
        Err(failure) => failure_told(answer, failure),
    }
}

/// Tells the turn of a publication, or which shard the server is busy with and the last turn that it finished.
fn published_told(answer: &mut Answer, published: Result<Issued, Failure<HubFault>>) -> Option<()> {
    match published {
        Ok(issued) => answer.tell_number("turn ", issued.turn.get()),
        Err(Failure::Refused(HubFault::Busy(busy))) => busy_told(answer, busy),
        Err(Failure::Refused(_)) => answer.tell("refused"),
        Err(Failure::OutOfMemory) => answer.tell(NO_MEMORY),
    }
}

/// Opens a subscription to `foo`, in the queue group `work`.
fn subscribe<N: NodeName, R: Wait>(
    answer: &mut Answer,
    rt: &R,
    alloc: Global,
    node: &Node<N>,
    shard: u64,
    conn: ConnId,
) -> Option<()> {
    let (key, sid) = opening(alloc)?;
    told(answer, node.subscribe(rt, shard, conn, key, sid))
}

/// Ends that subscription.
fn unsubscribe<N: NodeName, R: Wait>(
    answer: &mut Answer,
    rt: &R,
    alloc: Global,
    node: &Node<N>,
    shard: u64,
    conn: ConnId,
) -> Option<()> {
    let sid = sid_of(alloc, "1")?;
    decided_told(answer, node.unsubscribe(rt, shard, conn, &sid, None))
}

/// Publishes `hello` on `foo` for a connection, with a header block or none.
fn publish<N: NodeName, R: Wait>(
    answer: &mut Answer,
    rt: &R,
    alloc: Global,
    node: &Node<N>,
    words: &Words<'_>,
) -> Option<()> {
    let publication = hello(alloc, words.at(1))?;
    let conn = ConnId::new(words.number(0));
    let published = node.publish(rt, conn, &publication, 0);
    drop(publication);
    published_told(answer, published)
}

/// Hands the shards the jobs that they were not handed for want of memory.
fn push_jobs<N: NodeName, R: Wait>(answer: &mut Answer, rt: &R, node: &Node<N>) -> Option<()> {
    let mut hub = node.hub(rt);
    hub.push_jobs(rt);
    drop(hub);
    answer.tell("ok")
}

/// A call on a connection of a shard.
fn on_conn<N: NodeName, R: Wait>(
    answer: &mut Answer,
    rt: &R,
    alloc: Global,
    node: &Node<N>,
    call: &str,
    words: &Words<'_>,
) -> Option<()> {
    let (shard, conn) = (words.number(0), ConnId::new(words.number(1)));
    match call {
        "subscribe" => subscribe(answer, rt, alloc, node, shard, conn),
        "unsubscribe" => unsubscribe(answer, rt, alloc, node, shard, conn),
        "headers" => decided_told(
            answer,
            node.set_headers(rt, shard, conn, words.at(2) == "on"),
        ),
        "take" | "text" => {
            taken_told(answer, alloc, call, node.take(rt, shard, conn, usize::MAX))
        }
        "reply" => told(answer, node.reply(rt, shard, conn, &ReplyFrame::Pong)),
        "shut" => told(answer, node.shut(rt, shard, conn, ErrText::SlowConsumer)),
        "detach" => told(answer, node.detach(rt, shard, conn)),
        _ => answer.tell("no such call"),
    }
}

/// Works a shard, where it is there.
fn turn<N: NodeName, R: Wait>(
    answer: &mut Answer,
    rt: &R,
    node: &Node<N>,
    shard: u64,
) -> Option<()> {
    match node.turn(rt, shard, &Open) {
        Some(turned) => turned_told(answer, turned),
        None => answer.tell("no shard"),
    }
}

/// A call on the server, on a shard, or on one of its connections.
fn node_call<N: NodeName, R: Wait>(
    answer: &mut Answer,
    rt: &R,
    alloc: Global,
    node: &Node<N>,
    line: &Call<'_>,
) -> Option<()> {
    let (words, shard) = (&line.words, line.words.number(0));
    match line.name {
        "new" | "finish" => answer.tell("ok"),
        "shards" => answer.tell_number("shards ", node.shards()),
        "has_shard" => answer.tell_whether(node.shard(rt, shard).is_some()),
        "publish" => publish(answer, rt, alloc, node, words),
        "push_jobs" => push_jobs(answer, rt, node),
        "attach" => told(answer, node.attach(rt, shard)),
        "collect" => told(answer, node.collect(rt, shard)),
        "drop" => told(answer, node.drop_job(rt, shard)),
        "turn" => turn(answer, rt, node, shard),
        call => on_conn(answer, rt, alloc, node, call, words),
    }
}

/// The same. A call for which there was no memory is made once more: it has changed nothing, or left work over.
fn sure_call<N: NodeName, R: Wait>(
    answer: &mut Answer,
    rt: &R,
    alloc: Global,
    node: &Node<N>,
    line: &Call<'_>,
) -> Option<()> {
    node_call(answer, rt, alloc, node, line)?;
    if answer.as_str() != NO_MEMORY {
        return Some(());
    }
    answer.clear();
    node_call(answer, rt, alloc, node, line)
}

/// Makes these calls. Tells the last one's answer.
fn play_calls<N: NodeName, R: Wait>(
    answer: &mut Answer,
    rt: &R,
    alloc: Global,
    node: &Node<N>,
    passes: &mut Vec<Pass<N>>,
    calls: &str,
) -> Option<()> {
    for line in calls.lines() {
        let line = call_of(line);
        answer.clear();
        match line.of {
            "pass" => serve(answer, rt, alloc, node, passes, line.name)?,
            _ => sure_call(answer, rt, alloc, node, &line)?,
        }
    }
    Some(())
}

/// Tells how many publications a report names, and the last one.
fn jobs_told(answer: &mut Answer, jobs: &[IssuedJob]) -> Option<()> {
    answer.tell_number("jobs ", jobs.len() as u64);
    let Some(last) = jobs.last() else {
        return Some(());
    };
    let (turn, whose, number) = match *last {
        IssuedJob::Own { turn, number } => (turn, " is its own publication ", number),
        IssuedJob::Routed { turn, id } => (turn, " is a peer's publication ", id.number),
    };
    answer.tell_number(", turn ", turn.get());
    answer.tell_number(whose, number)
}

/// Tells the last turns that a report tells, of the hub and of two shards.
fn turns_told(answer: &mut Answer, report: &Report) -> Option<()> {
    answer.tell_number("issued ", report.issued.get());
    answer.tell_number(", finished ", report.finished.of(1).get());
    answer.tell_number(" ", report.finished.of(2).get())
}

/// Tells how many shards a report tells of, and how much of the first.
fn worked_told(answer: &mut Answer, worked: &[Vec<ShardEntry>]) -> Option<()> {
    let entries = worked.first().map_or(0, Vec::len);
    answer.tell_number("shards ", worked.len() as u64);
    answer.tell_number(", entries of the first ", entries as u64)
}

/// Tells what is asked of a report.
fn report_told(answer: &mut Answer, report: &Report, what: &str) -> Option<()> {
    match what {
        "turns" => turns_told(answer, report),
        "jobs" => jobs_told(answer, report.jobs.as_slice()),
        "kept" => answer.tell_whether(report.kept),
        "hub" => answer.tell_number("entries ", report.hub.len() as u64),
        "worked" => worked_told(answer, report.worked.as_slice()),
        _ => answer.tell("reported"),
    }
}

/// Tells what is asked of a report, where there is one.
fn end_told(answer: &mut Answer, ended: Result<Report, Unfinished>, what: &str) -> Option<()> {
    match ended {
        Ok(report) => {
            let is_told = report_told(answer, &report, what);
            drop(report);
            is_told
        }
        Err(Unfinished::Untold) => answer.tell("untold"),
        Err(_) => answer.tell("no report"),
    }
}

/// Ends the server, where the last call does. The pass that comes last is left out where that is asked for.
fn end<N: NodeName, R: Wait>(
    answer: &mut Answer,
    rt: &R,
    alloc: Global,
    node: Node<N>,
    mut passes: Vec<Pass<N>>,
    last: &Call<'_>,
) -> Option<()> {
    if last.name != "finish" {
        drop(node);
        drop(passes);
        return Some(());
    }
    let what = last.words.at(0);
    if what == "without_last" {
        drop(passes.pop());
    }
    answer.clear();
    end_told(answer, finish(rt, alloc, node, passes), what)
}

/// Makes these calls on the server of these parts. Tells the last one's answer.
fn play<N: NodeName, R: Wait>(
    answer: &mut Answer,
    rt: &R,
    alloc: Global,
    parts: Parts,
    calls: &String,
) -> Option<()>
    requires { (parts.race ≡ N.race) × (parts.lanes ≡ N.lanes) × (parts.keep ≡ N.keep) }
{
    let node: Node<N> = ThreadNode::start(alloc, parts).ok()?;
    let mut passes = Vec::new(alloc);
    let is_told = play_calls(answer, rt, alloc, &node, &mut passes, calls.as_str());
    let last = call_of(calls.as_str().lines().last().unwrap_or(""));
    end(answer, rt, alloc, node, passes, &last)?;
    is_told
}

/// The parts of the server n1, which has just started: the names of the servers in the cluster, how many shards each has, and whether what is
/// done is written down.
fn parts_of(alloc: Global, words: &Words<'_>) -> Option<Parts> {
    let life = server_of(alloc, words.at(0), 0, 1, words.number(1))?;
    let (parts, _parkers) = Parts::new(alloc, life, words.at(2) == "kept").ok()?;
    Some(parts)
}

/// Makes these calls, of which the first one says what server there is. Tells the last one's answer.
fn first_answer<R: Wait>(answer: &mut Answer, rt: &R, alloc: Global, calls: &String) -> Option<()> {
    let first = call_of(calls.as_str().lines().next().unwrap_or(""));
    match parts_of(alloc, &first.words) {
        Some(parts) => play::<Brand, _>(answer, rt, alloc, parts, calls),
        None => answer.tell("no server"),
    }
}

/// The same, from the first call again where no server or no report came of them, as for want of memory.
pub fn node_answer<R: Wait>(
    answer: &mut Answer,
    rt: &R,
    alloc: Global,
    calls: &String,
) -> Option<()> {
    first_answer(answer, rt, alloc, calls)?;
    if !matches!(answer.as_str(), "no server" | "no report") {
        return Some(());
    }
    answer.clear();
    first_answer(answer, rt, alloc, calls)
}
