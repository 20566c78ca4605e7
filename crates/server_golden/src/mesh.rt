//! Two servers that have just started, with streams in memory, and the calls of a case on them; the lanes of the first one take nothing for a while,
//! as where there is no memory. What owns much is let go of by a call of [`drop`]: at the end of a function each of its parts would be proved to be
//! let go of.

ghost use Rattle.std.specs.Prelude.{⊤, ◌≡◌};

use crate::ends::{Course, ENTRIES, End};
use client_calls::Outcome;
use golden::{Answer, Words, call_of, server_of};
use hub_core::{CollectResult, HubFault};
use publication_runs::LentRun;
use route_session::{SessionFault, SessionId};
use route_values::{Numbered, RouteConnect, RouteInfo};
use server_calls::{HubCalls, ServerCalls};
use std::alloc::{AllocError, Global};
use std::marker::Brand;
use std::sync::Wait;
use std::sync::atomic::{AtomicU64, Ordering};
use sub_trie::TrieTable;
use subj::{ConnId, Failure, Pub, ServerIdentity as Life};
use thread_node::{NodeName, Parts, ThreadNode};

/// How many servers are in the cluster and how many shards each has, whether what they do is written down, how many times the first one's lanes
/// take nothing, and the numbers with which a case is played, from the one to before the other.
#[derive(Clone, Copy)]
pub struct Mesh {
    nodes: u64,
    shards: u64,
    keeps: bool,
    refusals: u64,
    from: u64,
    to: u64,
}

/// How many entries stand on the tape of the shard of this number.
fn entries_of<N: NodeName, R: Wait>(rt: &R, node: &ThreadNode<TrieTable, N>, number: u64) -> u64 {
    match node.shard(rt, number) {
        Some(shard) => shard.entries_kept() as u64,
        None => 0,
    }
}

/// Tells how many entries stand on the tapes of a server: on the hub's, and on each shard's, in their order.
fn tell_entries<N: NodeName, R: Wait>(
    answer: &mut Answer,
    rt: &R,
    node: &ThreadNode<TrieTable, N>,
) -> Option<()> {
    let entries = node.hub(rt).entries_kept();
    answer.tell_number("hub ", entries as u64);
    answer.tell(", shards");
    for place in 0..node.shards() {
        answer.tell_number(" ", entries_of(rt, node, place + 1));
    }
    Some(())
}

/// Whether calls that were answered so end with one that asks how many entries stand on the tapes of n1.
fn asks_for_entries(calls: &str, answer: &str) -> bool {
    let last = call_of(calls.lines().last().unwrap_or(""));
    last.of == "n1" && answer == ENTRIES
}

/// Tells of this server's tapes, where the last one of these calls asks for that.
fn with_entries<N: NodeName, R: Wait>(
    answer: &mut Answer,
    rt: &R,
    node: &ThreadNode<TrieTable, N>,
    calls: &str,
) -> Option<()> {
    if !asks_for_entries(calls, answer.as_str()) {
        return Some(());
    }
    answer.clear();
    tell_entries(answer, rt, node)
}

/// Two servers without connections.
fn course<C: ServerCalls, D: ServerCalls>(
    alloc: Global,
    mesh: &Mesh,
    first: C,
    second: D,
) -> Result<Course<C, D>, AllocError> {
    let first = End::new(alloc, first, mesh.life(alloc, 0), 4222)?;
    let Ok(second) = End::new(alloc, second, mesh.life(alloc, 1), 4223) else {
        drop(first);
        return Err(AllocError);
    };
    Ok(Course::new(alloc, first, second))
}

/// Makes the calls on two servers without connections.
fn play_on<C: ServerCalls, D: ServerCalls, R: Wait>(
    answer: &mut Answer,
    rt: &R,
    alloc: Global,
    mesh: &Mesh,
    first: C,
    second: D,
    calls: &str,
) -> Option<()> {
    let mut course = course(alloc, mesh, first, second).ok()?;
    let is_told = course.play(answer, rt, calls);
    drop(course);
    is_told
}

/// The same, where the first one's lanes may take nothing for a while.
fn play_laned<C: ServerCalls, D: ServerCalls, R: Wait>(
    answer: &mut Answer,
    rt: &R,
    alloc: Global,
    mesh: &Mesh,
    first: C,
    second: D,
    calls: &str,
) -> Option<()> {
    let laned = LanedNode::new(first, mesh.refusals);
    play_on(answer, rt, alloc, mesh, &laned, second, calls)
}

/// The same on the first server and one of these parts.
fn play_started<C: ServerCalls, N: NodeName, R: Wait>(
    answer: &mut Answer,
    rt: &R,
    alloc: Global,
    mesh: &Mesh,
    first: C,
    others: Parts,
    calls: &str,
) -> Option<()>
    requires { (others.race ≡ N.race) × (others.lanes ≡ N.lanes) × (others.keep ≡ N.keep) }
{
    let second: ThreadNode<TrieTable, N> = ThreadNode::start(alloc, others).ok()?;
    let is_told = play_laned(answer, rt, alloc, mesh, first, &second, calls);
    drop(second);
    is_told
}

/// The same on the servers of these parts.
fn play_with<M: NodeName, N: NodeName, R: Wait>(
    answer: &mut Answer,
    rt: &R,
    alloc: Global,
    mesh: &Mesh,
    parts: Parts,
    others: Parts,
    calls: &String,
) -> Option<()>
    requires first { (parts.race ≡ M.race) × (parts.lanes ≡ M.lanes) × (parts.keep ≡ M.keep) }
    requires second { (others.race ≡ N.race) × (others.lanes ≡ N.lanes) × (others.keep ≡ N.keep) }
{
    let first: ThreadNode<TrieTable, M> = ThreadNode::start(alloc, parts).ok()?;
    let is_played = play_started::<_, N, _>(
        answer,
        rt,
        alloc,
        mesh,
        &first,
        others,
        calls.as_str(),
    );
    let is_told = with_entries(answer, rt, &first, calls.as_str());
    drop(first);
    is_played.and(is_told)
}

/// The same on servers that have just started, the first one of these parts.
fn play_anew<R: Wait>(
    answer: &mut Answer,
    rt: &R,
    alloc: Global,
    mesh: &Mesh,
    parts: Parts,
    calls: &String,
) -> Option<()> {
    match mesh.parts(alloc, 1) {
        Some(others) => {
            play_with::<Brand, Brand, _>(answer, rt, alloc, mesh, parts, others, calls)
        }
        None => answer.tell("no servers"),
    }
}

/// The calls with the number in place of each `%`.
fn with_number(alloc: Global, calls: &str, number: u64) -> Result<String, AllocError> {
    let digits = number.to_string(alloc)?;
    calls.replace(alloc, '%', digits.as_str())
}

/// The same, with the number in place of each `%`.
fn play_numbered<R: Wait>(
    answer: &mut Answer,
    rt: &R,
    alloc: Global,
    mesh: &Mesh,
    calls: &str,
    number: u64,
) -> Option<()> {
    let calls = with_number(alloc, calls, number).ok()?;
    match mesh.parts(alloc, 0) {
        Some(parts) => play_anew(answer, rt, alloc, mesh, parts, &calls),
        None => answer.tell("no servers"),
    }
}

impl Mesh {
    /// There is no server yet.
    pub fn new() -> Mesh {
        Mesh {
            nodes: 0,
            shards: 0,
            keeps: false,
            refusals: 0,
            from: 0,
            to: 1,
        }
    }

    /// Sets what is to be played. Tells whether there is such a call.
    pub fn set(&mut self, call: &str, words: &Words<'_>) -> &'static str {
        let (first, second) = (words.number(0), words.number(1));
        match call {
            "new" => {
                (self.nodes, self.shards) = (first, second);
                self.keeps = words.at(2) == "kept";
            }
            "lanes_refuse" => self.refusals = first,
            "for_each" => (self.from, self.to) = (first, second),
            _ => return "no such call",
        }
        "ok"
    }

    /// The server at this place of a cluster of three at most, or at the last one, in its first life.
    fn life(&self, alloc: Global, place: u64) -> Option<Life> {
        let names = match self.nodes {
            1 => "n1",
            2 => "n1,n2",
            _ => "n1,n2,n3",
        };
        let place = place.min(self.nodes.checked_sub(1)?) as usize;
        server_of(alloc, names, place, 1, self.shards)
    }

    /// What it is made of.
    fn parts(&self, alloc: Global, place: u64) -> Option<Parts> {
        let life = self.life(alloc, place)?;
        let (parts, _parkers) = Parts::new(alloc, life, self.keeps).ok()?;
        Some(parts)
    }

    /// Plays these calls, with each number. Tells the last one's answer, where all are alike; and else that which differs from the first.
    pub fn play<R: Wait>(
        &self,
        answer: &mut Answer,
        rt: &R,
        alloc: Global,
        calls: &str,
    ) -> Option<()> {
        play_numbered(answer, rt, alloc, self, calls, self.from)?;
        let mut other = Answer::new(alloc);
        for number in self.from.saturating_add(1)..self.to {
            other.clear();
            play_numbered(&mut other, rt, alloc, self, calls, number)?;
            if other.as_str() != answer.as_str() {
                answer.tell_number(", and for ", number);
                answer.tell(" ");
                return answer.tell(other.as_str());
            }
        }
        Some(())
    }
}

/// A server, and how many times its hub can hand no jobs to the shards.
#[derive(Drop)]
pub struct LanedNode<C: ServerCalls> {
    node: C,
    refusals: AtomicU64,
}

/// Its hub, held.
#[derive(Drop)]
pub struct LanedHub<'n, H: HubCalls> {
    hub: H,
    refusals: &'n AtomicU64,
}

impl<C: ServerCalls> LanedNode<C> {
    /// This server, whose lanes take nothing so many times.
    pub fn new(node: C, refusals: u64) -> LanedNode<C> {
        LanedNode {
            node,
            refusals: AtomicU64::new(refusals),
        }
    }
}

impl<'n, H: HubCalls> HubCalls for LanedHub<'n, H> {
    ghost published = { λ before conn publication word came after.
        H.published before.hub conn publication word came after.hub };

    // Now and then none are.
    ghost pushed = { λ _ _. ⊤ };

    ghost routed = { λ before call after. H.routed before.hub call after.hub };

    fn publish(&mut self, conn: ConnId, publication: &Pub, word: u64) -> Outcome {
        self.hub.publish(conn, publication, word)
    }

    fn publish_run(&mut self, conn: ConnId, run: &mut LentRun<'_>) -> u64 {
        self.hub.publish_run(conn, run)
    }

    fn receive(&mut self, frame: &Numbered) -> Result<(), Failure<HubFault>> {
        self.hub.receive(frame)
    }

    fn push_jobs<R: Wait>(&mut self, rt: &R) -> bool {
        let left = self.refusals.load(Ordering::SeqCst);
        if left == 0 {
            return self.hub.push_jobs(rt);
        }
        self.refusals.store(left - 1, Ordering::SeqCst);
        true
    }

    fn accept(&mut self) -> Result<(SessionId, RouteInfo), Failure<SessionFault>> {
        self.hub.accept()
    }

    fn dial(&mut self, peer: usize) -> Result<SessionId, Failure<SessionFault>> {
        self.hub.dial(peer)
    }

    fn info(
        &mut self,
        session: SessionId,
        info: &RouteInfo,
    ) -> Result<RouteConnect, Failure<SessionFault>> {
        self.hub.info(session, info)
    }

    fn connect(
        &mut self,
        session: SessionId,
        connect: &RouteConnect,
    ) -> Result<(), Failure<SessionFault>> {
        self.hub.connect(session, connect)
    }

    fn cut(&mut self, session: SessionId) {
        self.hub.cut(session);
    }

    fn take_frames(
        &mut self,
        peer: usize,
        count: usize,
    ) -> Result<Vec<Numbered>, Failure<HubFault>> {
        self.hub.take_frames(peer, count)
    }
}

impl<'n, C: ServerCalls> ServerCalls for &'n LanedNode<C> {
    type Shard = C::Shard;

    type Hub = LanedHub<'n, C::Hub>;

    ghost count = { λ laned. C.count laned.now.node };

    ghost lacks = { λ laned number. C.lacks laned.now.node number };

    ghost collected = { λ laned number came. C.collected laned.now.node number came };

    fn shards(&self) -> u64 {
        let laned: &'n LanedNode<C> = *self;
        laned.node.shards()
    }

    fn shard<R: Wait>(&self, rt: &R, number: u64) -> Option<C::Shard> {
        let laned: &'n LanedNode<C> = *self;
        laned.node.shard(rt, number)
    }

    fn hub<R: Wait>(&self, rt: &R) -> LanedHub<'n, C::Hub> {
        let laned: &'n LanedNode<C> = *self;
        LanedHub {
            hub: laned.node.hub(rt),
            refusals: &laned.refusals,
        }
    }

    fn collect<R: Wait>(&self, rt: &R, shard: u64) -> Result<Option<CollectResult>, AllocError> {
        let laned: &'n LanedNode<C> = *self;
        laned.node.collect(rt, shard)
    }

    fn drain<R: Wait>(&self, rt: &R) -> Result<Option<Vec<usize>>, AllocError> {
        let laned: &'n LanedNode<C> = *self;
        laned.node.drain(rt)
    }
}
