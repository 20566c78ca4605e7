//! A server on threads: what it is made of, its hub and its shards, each under a lock of its own, the calls that take a lock, make one call and give
//! its answer, how all of it drains, and the threads that work lanes.

ghost use Rattle.std.specs.Prelude.{◌≡◌, ◌+◌, ◌≤◌, ◌<◌, [], All, map, length, vec_len, IfOk, IfSome, OnOk, is_some, true};
ghost use Rattle.std.specs.Arc.{arc_value};
ghost use Rattle.subj.specs.declared.limits.TheConstants.{MAX_SHARDS};
ghost use Rattle.claim_cells.specs.Rule.{fresh_hub};
ghost use Rattle.node_law.specs.declared.faults.NodeFault.TheVariants.{Hub, Shard};
ghost use Rattle.thread_node.specs.Drains.{DrainsAll, hub_failure};
ghost use Rattle.thread_node.specs.Parts.{AreFresh, IsFreshLane, IsNamed};
ghost use Rattle.thread_node.specs.Refusing.{AnswersAt, DecidesAt, at_server, has_conn, has_shard, is_own};

use crate::locked::{LockedHub, LockedShard};
use claim_cells::{Cells, HubSeat, ShardSeat};
use client_frames::{ErrText, ReplyFrame};
use crossbeam_utils::sync::{Parker, Unparker};
use hub_core::{CollectResult, HubFault};
use job_lane::{LANE_CAPACITY, LaneIn, LaneOut, lane};
use node_law::NodeFault;
use node_parts::{Issued, place_of_conn, place_of_shard};
use node_threads::{Gate, HubState, LaneSender, NodeName, ShardState, Turned};
use outbox::Entry;
use shard_core::{Closed, ShardFault, Subscribed};
use std::alloc::{AllocError, Global};
use std::marker::Model;
use std::sync::atomic::{AtomicBool, Ordering};
use std::sync::{Arc, Mutex, MutexGuard, Wait};
use std::thread;
use std::thread::Threads;
use sub_table::SubTable;
use subj::{ConnId, Failure, Key, Pub, ServerIdentity, Sid, SubId, Turn};

/// What a shard has: its seat at the race, and both ends of its lane.
#[derive(Drop)]
pub(crate) struct ShardParts {
    pub seat: ShardSeat,
    pub near: LaneIn,
    pub far: LaneOut,
}

/// What a server on threads is made of: the race of its shards with all seats, a lane for each shard, and
/// what wakes each shard's worker. (Profile.)
///
/// Seen as the server, its race, its lanes, that of shard 1 first, and whether what it does is to be
/// written down.
#[derive(Drop)]
pub struct Parts {
    pub(crate) server: ServerIdentity,
    pub(crate) keep: bool,
    pub(crate) cells: Cells,
    pub(crate) hub: HubSeat,
    pub(crate) shards: Vec<ShardParts>,
    pub(crate) unparkers: Vec<Unparker>,
}

impl Model for Parts {
    ghost use Rattle.std.specs.Prelude.{map};
    ghost use Rattle.thread_node.specs.Parts.{Given, AreFresh};

    ghost Value = { Given };

    ghost view = { λ p. record {
      server = p.server;
      race = p.cells;
      lanes = map (λ s. s.near.lane) p.shards.items;
      keep = p.keep;
    } };

    ghost invariant = { λ p. AreFresh p.server p.cells p.hub p.shards.items };
}

/// What a shard with this seat has: a new lane comes with it.
fn shard_part(alloc: Global, seat: ShardSeat) -> Result<ShardParts, AllocError>
    ensures { IfOk result (λ part. (part.seat ≡ seat) × IsFreshLane part.near part.far) }
{
    let (near, far) = lane(alloc, LANE_CAPACITY)?;
    Ok(ShardParts { seat, near, far })
}

/// A seat and a new lane for each shard, in their order.
fn shard_parts(alloc: Global, seats: Vec<ShardSeat>) -> Result<Vec<ShardParts>, AllocError>
    ensures { IfOk result (λ shards.
        (map (λ p. p.seat) shards.items ≡ seats.items)
        × All (λ p. IsFreshLane p.near p.far) shards.items) }
{
    let mut shards = Vec::with_capacity(alloc, seats.len())?;
    for seat in seats {
        let part = shard_part(alloc, seat)?;
        shards.push(part)?;
    }
    Ok(shards)
}

/// The race of a server that has done nothing: its cells, the hub's seat, and what each shard has, in their order.
fn fresh_race(
    alloc: Global,
    server: &ServerIdentity,
) -> Result<(Cells, HubSeat, Vec<ShardParts>), AllocError>
    ensures { IfOk result (λ made. AreFresh server.now made.0 made.1 made.2.items) }
{
    let (cells, hub, seats) = Cells::new(alloc, server.shards())?;
    let shards = shard_parts(alloc, seats)?;
    Ok((cells, hub, shards))
}

/// A parker for each shard.
fn parkers(alloc: Global, shards: u64) -> Result<Vec<Parker>, AllocError> {
    let mut parkers = Vec::new(alloc);
    for _shard in 0..shards {
        parkers.push(Parker::new(alloc)?)?;
    }
    Ok(parkers)
}

/// What wakes each of these, in their order.
fn unparkers_of(alloc: Global, parkers: &[Parker]) -> Result<Vec<Unparker>, AllocError> {
    let mut unparkers = Vec::new(alloc);
    for parker in parkers {
        unparkers.push(parker.unparker().clone()?)?;
    }
    Ok(unparkers)
}

impl Parts {
    /// The parts of this server, which has done nothing, and a parker for the worker of each shard, that of
    /// shard 1 first. `keep` says whether what is done under its locks is to be written down: each step then takes
    /// memory, for as long as the server lives, and stands on the tapes of what [`ThreadNode::into_locked`](crate::ThreadNode::into_locked) gives.
    pub fn new(
        alloc: Global,
        server: ServerIdentity,
        keep: bool,
    ) -> Result<(Parts, Vec<Parker>), AllocError>
        ensures { IfOk result (λ made. (made.0.server ≡ server) × (made.0.keep ≡ keep)) }
    {
        let parkers = parkers(alloc, server.shards())?;
        let parts = Parts::woken_by(alloc, server, keep, parkers.as_slice())?;
        Ok((parts, parkers))
    }

    /// The parts of this server, whose workers sleep on these parkers.
    fn woken_by(
        alloc: Global,
        server: ServerIdentity,
        keep: bool,
        parkers: &[Parker],
    ) -> Result<Parts, AllocError>
        ensures { IfOk result (λ parts. (parts.server ≡ server) × (parts.keep ≡ keep)) }
    {
        let unparkers = unparkers_of(alloc, parkers)?;
        let (cells, hub, shards) = fresh_race(alloc, &server)?;
        Ok(Parts {
            server,
            keep,
            cells,
            hub,
            shards,
            unparkers,
        })
    }

    /// How many shards the server has, from 1.
    pub fn shards(&self) -> u64
        ensures { result ≡ self.now.server.shards }
    {
        self.server.shards()
    }
}

/// The hub's lock, held.
pub type HubSection<'a, N> = MutexGuard<'a, LockedHub<N>>;

/// A shard's lock, held.
pub type ShardSection<'a, T, N> = MutexGuard<'a, LockedShard<T, N>>;

/// One server whose calls any thread may make. (Profile.)
///
/// The hub and each shard stand under a lock of their own. [`ThreadNode::hub`] and [`ThreadNode::shard`]
/// hold one of them for many calls; each other call takes its lock, makes that one call, and gives its
/// answer. Whoever holds locks of both kinds has taken the hub's first, and no two shards' at once.
pub struct ThreadNode<T: SubTable, N: NodeName> {
    hub: Mutex<LockedHub<N>>,
    shards: Vec<Mutex<LockedShard<T, N>>>,
    unparkers: Vec<Unparker>,
    stopped: AtomicBool,
    keep: bool,
    ghost keeps: { keep ≡ N.keep },
    ghost all: { vec_len shards ≡ N.race.shards },
}

/// One call, also for crates above: `docs/PROVING.md`, "What a proof costs".
impl<T: SubTable, N: NodeName> Drop for ThreadNode<T, N> {
    fn drop(self) {
        let ThreadNode {
            hub: _,
            shards: _,
            unparkers: _,
            stopped: _,
            keep: _,
        } = self;
    }
}

/// Puts the hub's end of the lane of these parts behind the others, and the shard under its lock, of so many.
fn add_shard<T: SubTable, N: NodeName>(
    alloc: Global,
    cells: &Arc<Cells, Global>,
    count: u64,
    keep: bool,
    parts: ShardParts,
    lines: &mut Vec<LaneSender<N>>,
    shards: &mut Vec<Mutex<LockedShard<T, N>>>,
) -> Result<(), AllocError>
    requires race { (arc_value cells.now ≡ N.race) × (count ≡ N.race.shards) }
    requires few { count ≤ MAX_SHARDS }
    requires parts { IsNamed N.race N.lanes parts }
    ensures line { OnOk result (vec_len lines.new ≡ vec_len lines.old + 1) }
    ensures shard { OnOk result (vec_len shards.new ≡ vec_len shards.old + 1) }
    ensures fresh { OnOk result (All (λ line. line.pushed ≡ []) lines.old.items
        → All (λ line. line.pushed ≡ []) lines.new.items) }
{
    let ShardParts { seat, near, far } = parts;
    let line = LaneSender::new(seat.shard(), near);
    lines.push(line)?;
    let cells = Arc::try_clone(cells)?;
    let state = ShardState::new(alloc, seat, count, far)?;
    let shard = LockedShard::new(alloc, state, cells, keep);
    shards.push(Mutex::new(shard))?;
    Ok(())
}

/// The hub's ends of the lanes, and the shards under their locks, in their order.
type Shards<T, N> = (Vec<LaneSender<N>>, Vec<Mutex<LockedShard<T, N>>>);

/// The same of all these parts.
fn locked_shards<T: SubTable, N: NodeName>(
    alloc: Global,
    cells: &Arc<Cells, Global>,
    count: u64,
    keep: bool,
    parts: Vec<ShardParts>,
) -> Result<Shards<T, N>, AllocError>
    requires race { (arc_value cells.now ≡ N.race) × (count ≡ N.race.shards) }
    requires few { count ≤ MAX_SHARDS }
    requires parts { All (IsNamed N.race N.lanes) parts.items }
    ensures lines { IfOk result (λ made.
        (vec_len made.0 ≡ vec_len parts) × All (λ line. line.pushed ≡ []) made.0.items) }
    ensures shards { IfOk result (λ made. vec_len made.1 ≡ vec_len parts) }
{
    let mut lines = Vec::new(alloc);
    let mut shards = Vec::new(alloc);
    for part in parts {
        add_shard(alloc, cells, count, keep, part, &mut lines, &mut shards)?;
    }
    Ok((lines, shards))
}

/// The hub of this server under its lock, with its ends of the lanes.
fn locked_hub<N: NodeName>(
    alloc: Global,
    server: ServerIdentity,
    cells: Arc<Cells, Global>,
    seat: HubSeat,
    keep: bool,
    lines: Vec<LaneSender<N>>,
) -> Result<Mutex<LockedHub<N>>, AllocError>
    requires race { (arc_value cells ≡ N.race) × (seat.race ≡ N.race) }
    requires shards { server.shards ≡ N.race.shards }
    requires fresh { seat.part ≡ fresh_hub }
    requires some { 0 < length lines.items }
    requires lines { All (λ line. line.pushed ≡ []) lines.items }
{
    let state = HubState::new(alloc, server.try_clone(alloc)?, &cells, seat, lines)?;
    Ok(Mutex::new(LockedHub::new(alloc, server, state, cells, keep)))
}

/// What stands under the locks of a server: the hub, and the shards in their order.
type Locked<T, N> = (Mutex<LockedHub<N>>, Vec<Mutex<LockedShard<T, N>>>);

/// The hub and the shards of these parts, each under its lock.
fn locked<T: SubTable, N: NodeName>(
    alloc: Global,
    server: ServerIdentity,
    keep: bool,
    cells: Cells,
    seat: HubSeat,
    parts: Vec<ShardParts>,
) -> Result<Locked<T, N>, AllocError>
    requires race { (cells ≡ N.race) × (seat.race ≡ N.race) }
    requires shards { server.shards ≡ N.race.shards }
    requires fresh { seat.part ≡ fresh_hub }
    requires each { vec_len parts ≡ N.race.shards }
    requires parts { All (IsNamed N.race N.lanes) parts.items }
    ensures { IfOk result (λ made. vec_len made.1 ≡ N.race.shards) }
{
    let count = server.shards();
    let cells = Arc::new(alloc, cells)?;
    let (lines, shards) = locked_shards(alloc, &cells, count, keep, parts)?;
    let hub = locked_hub(alloc, server, cells, seat, keep, lines)?;
    Ok((hub, shards))
}

/// Why the hub does not drain, as its server tells it.
fn failure_of_hub(failure: Failure<HubFault>) -> Failure<NodeFault>
    ensures { result ≡ hub_failure failure }
{
    match failure {
        Failure::Refused(fault) => Failure::Refused(NodeFault::Hub(fault)),
        Failure::OutOfMemory => Failure::OutOfMemory,
    }
}

/// Drains each shard, from the first to the last, where the hub has answered so: the call says whether a shard drains only
/// now. Those that drain already are passed over. Gives what the hub told, and nothing where it drained already. Refused
/// with [`HubFault::Draining`] where the hub and all shards did. A hub that is refused for another cause, or that has no
/// memory, stops it before any shard drains.
pub fn drain_shards<F: FnMut(u64) -> bool>(
    told: Result<Vec<usize>, Failure<HubFault>>,
    shards: u64,
    mut drain: F,
) -> Result<Option<Vec<usize>>, Failure<NodeFault>>
    requires { F.IsAlwaysCallable drain }
    ensures { DrainsAll F.step drain shards told result }
{
    let cut = match told {
        Ok(cut) => Some(cut),
        Err(Failure::Refused(HubFault::Draining)) => None,
        Err(failure) => return Err(failure_of_hub(failure)),
    };
    let mut is_new = cut.is_some();
    for place in 0..shards {
        if drain(place + 1) {
            is_new = true;
        }
    }
    if !is_new {
        return Err(Failure::Refused(NodeFault::Hub(HubFault::Draining)));
    }
    Ok(cut)
}

/// The place of the shard of this number, of so many, where the connection is of that shard.
fn place_of_own(count: usize, shard: u64, conn: ConnId) -> Option<usize>
    ensures own { is_some result ≡ is_own count shard conn }
    ensures within { IfSome result (λ place. place < count) }
{
    let place = place_of_shard(count, shard)?;
    if place_of_conn(count, conn)? != place {
        return None;
    }
    Some(place)
}

/// The server has no such shard, or the connection is of another one.
pub const NO_SHARD: Failure<NodeFault> = Failure::Refused(NodeFault::NoShard);

/// What a call of a shard came to, as its server tells it.
pub fn answered_by_shard<X>(done: Result<X, Failure<ShardFault>>) -> Result<X, Failure<NodeFault>>
    ensures same { result ≡ at_server (λ fault. Shard fault) done }
    ensures answers { AnswersAt true result }
{
    match done {
        Ok(done) => Ok(done),
        Err(Failure::Refused(fault)) => Err(Failure::Refused(NodeFault::Shard(fault))),
        Err(Failure::OutOfMemory) => Err(Failure::OutOfMemory),
    }
}

/// The same of a call that takes no memory.
pub fn decided_by_shard<X>(done: Result<X, ShardFault>) -> Result<X, NodeFault>
    ensures { DecidesAt true result }
{
    match done {
        Ok(done) => Ok(done),
        Err(fault) => Err(NodeFault::Shard(fault)),
    }
}

/// What a call of the hub came to, as its server tells it.
pub fn answered_by_hub<X>(done: Result<X, Failure<HubFault>>) -> Result<X, Failure<NodeFault>>
    ensures same { result ≡ at_server (λ fault. Hub fault) done }
    ensures answers { AnswersAt true result }
{
    match done {
        Ok(done) => Ok(done),
        Err(Failure::Refused(fault)) => Err(Failure::Refused(NodeFault::Hub(fault))),
        Err(Failure::OutOfMemory) => Err(Failure::OutOfMemory),
    }
}

/// The number of the turn that was worked, or of the last of several.
fn worked_turn(turned: Turned) -> Option<u64> {
    match turned {
        Turned::Worked(turn) | Turned::WorkedRun { last: turn, .. } => Some(turn.get()),
        Turned::Idle | Turned::Short => None,
    }
}

/// Makes turns of a shard until it has finished this one, or has made so many.
fn work<T: SubTable, N: NodeName, G: Gate, R: Wait>(
    rt: &R,
    node: &ThreadNode<T, N>,
    gate: &G,
    shard: u64,
    until: u64,
    tries: u64,
) {
    for _try in 0..tries {
        let Some(turned) = node.turn(rt, shard, gate) else {
            return;
        };
        match worked_turn(turned) {
            None => thread::yield_now(),
            Some(turn) if turn >= until => return,
            Some(_) => {}
        }
    }
}

impl<T: SubTable, N: NodeName> ThreadNode<T, N> {
    /// A server of these parts. Required: its name names them.
    pub fn start(alloc: Global, parts: Parts) -> Result<ThreadNode<T, N>, AllocError>
        requires race { parts.race ≡ N.race }
        requires lanes { parts.lanes ≡ N.lanes }
        requires keep { parts.keep ≡ N.keep }
    {
        let Parts {
            server,
            keep,
            cells,
            hub,
            shards,
            unparkers,
        } = parts;
        let (hub, shards) = locked(alloc, server, keep, cells, hub, shards)?;
        Ok(ThreadNode {
            hub,
            shards,
            unparkers,
            stopped: AtomicBool::new(false),
            keep,
        })
    }

    /// How many shards the server has.
    pub fn shards(&self) -> u64
        ensures { result ≡ N.race.shards }
    {
        self.shards.len() as u64
    }

    /// Whether what is done under its locks is written down.
    pub fn keeps_tapes(&self) -> bool
        ensures { result ≡ N.keep }
    {
        self.keep
    }

    /// Takes the hub's lock. May wait.
    pub fn hub<R: Wait>(&self, rt: &R) -> HubSection<'_, N> {
        self.hub.lock(rt)
    }

    /// Takes the lock of the shard of this number, from 1. None where the server has no such shard. May
    /// wait.
    pub fn shard<R: Wait>(&self, rt: &R, number: u64) -> Option<ShardSection<'_, T, N>>
        ensures { is_some result ≡ has_shard N.race number }
    {
        let place = place_of_shard(self.shards.len(), number)?;
        Some(self.shards[place].lock(rt))
    }

    /// The same for a call on a connection: None too where the connection is of another shard, as its number tells. May wait.
    pub fn shard_of_conn<R: Wait>(
        &self,
        rt: &R,
        number: u64,
        conn: ConnId,
    ) -> Option<ShardSection<'_, T, N>>
        ensures { is_some result ≡ has_conn N.race number conn }
    {
        let place = place_of_own(self.shards.len(), number, conn)?;
        Some(self.shards[place].lock(rt))
    }

    /// Wakes the worker of each shard.
    pub fn unpark_workers(&self) {
        for unparker in &self.unparkers {
            unparker.unpark();
        }
    }

    /// Tells all workers to stop, and wakes them. A worker that begins later stops at once.
    pub fn stop(&self) {
        self.stopped.store(true, Ordering::SeqCst);
        self.unpark_workers();
    }

    /// Whether the workers were told to stop.
    pub fn is_stopped(&self) -> bool {
        self.stopped.load(Ordering::SeqCst)
    }

    /// What stands under its locks, at its end: under the hub's, and under that of each shard, in their order.
    pub fn into_locked(self) -> (LockedHub<N>, Vec<Mutex<LockedShard<T, N>>>)
        ensures { vec_len result.1 ≡ N.race.shards }
    {
        let ThreadNode {
            hub,
            shards,
            unparkers: _,
            stopped: _,
            keep: _,
        } = self;
        (hub.into_inner(), shards)
    }

    /// [`HubState::publish`](node_threads::HubState::publish), after which the job is pushed to the lanes and the workers are woken.
    /// May wait.
    pub fn publish<R: Wait>(
        &self,
        rt: &R,
        conn: ConnId,
        publication: &Pub,
        word: u64,
    ) -> Result<Issued, Failure<HubFault>> {
        let mut hub = self.hub(rt);
        let issued = hub.publish(conn, publication, word)?;
        hub.push_jobs(rt);
        drop(hub);
        self.unpark_workers();
        Ok(issued)
    }

    /// [`HubState::collect`](node_threads::HubState::collect), of the shard of this number; the only call that takes two locks, the
    /// hub's and then the shard's. Refused with [`NodeFault::NoShard`] first. May wait.
    pub fn collect<R: Wait>(&self, rt: &R, shard: u64) -> Result<CollectResult, Failure<NodeFault>>
        ensures { AnswersAt (has_shard N.race shard) result }
    {
        let mut hub = self.hub(rt);
        let Some(mut shard) = self.shard(rt, shard) else {
            return Err(NO_SHARD);
        };
        answered_by_hub(hub.collect(&mut shard))
    }

    /// [`HubState::drain`](node_threads::HubState::drain). May wait.
    pub fn drain_hub<R: Wait>(&self, rt: &R) -> Result<Vec<usize>, Failure<HubFault>> {
        self.hub(rt).drain()
    }

    /// [`ShardState::drain`](node_threads::ShardState::drain), of the shard of this number. Refused with
    /// [`NodeFault::NoShard`] first. May wait.
    pub fn drain_shard<R: Wait>(&self, rt: &R, shard: u64) -> Result<(), NodeFault>
        ensures { DecidesAt (has_shard N.race shard) result }
    {
        let Some(mut shard) = self.shard(rt, shard) else {
            return Err(NodeFault::NoShard);
        };
        decided_by_shard(shard.drain())
    }

    /// Drains the hub, and then each shard, each under a lock of its own: [`drain_shards`]. Those that drain already are
    /// passed over, so a later call makes the rest. Gives the peers that the hub cut, and None where it drained already. Refused with
    /// [`HubFault::Draining`] where all did, and with [`HubFault::Spent`] as the hub is; that, and want of memory, come
    /// before any shard drains. May wait.
    pub fn drain<R: Wait>(&self, rt: &R) -> Result<Option<Vec<usize>>, Failure<NodeFault>> {
        let told = self.drain_hub(rt);
        drain_shards(
            told,
            self.shards(),
            |shard| self.drain_shard(rt, shard).is_ok(),
        )
    }

    /// [`ShardState::turn`](node_threads::ShardState::turn), of the shard of this number; None where the server has no such shard.
    /// May wait.
    pub fn turn<G: Gate, R: Wait>(&self, rt: &R, shard: u64, gate: &G) -> Option<Turned>
        ensures { is_some result ≡ has_shard N.race shard }
    {
        Some(self.shard(rt, shard)?.turn(rt, gate))
    }

    /// [`ShardState::drop_job`](node_threads::ShardState::drop_job), of the shard of this number. Refused with
    /// [`NodeFault::NoShard`] first. May wait.
    pub fn drop_job<R: Wait>(&self, rt: &R, shard: u64) -> Result<Turn, Failure<NodeFault>>
        ensures { AnswersAt (has_shard N.race shard) result }
    {
        let Some(mut shard) = self.shard(rt, shard) else {
            return Err(NO_SHARD);
        };
        answered_by_shard(shard.drop_job(rt))
    }

    /// [`ShardState::attach`](node_threads::ShardState::attach), of the shard of this number. Refused with
    /// [`NodeFault::NoShard`] first. May wait.
    pub fn attach<R: Wait>(&self, rt: &R, shard: u64) -> Result<ConnId, Failure<NodeFault>>
        ensures { AnswersAt (has_shard N.race shard) result }
    {
        let Some(mut shard) = self.shard(rt, shard) else {
            return Err(NO_SHARD);
        };
        answered_by_shard(shard.attach())
    }

    /// [`ShardState::subscribe`](node_threads::ShardState::subscribe), of the shard of this number. Refused with
    /// [`NodeFault::NoShard`] first, where that is not there or the connection is of another. May wait.
    pub fn subscribe<R: Wait>(
        &self,
        rt: &R,
        shard: u64,
        conn: ConnId,
        key: Key,
        sid: Sid,
    ) -> Result<Subscribed, Failure<NodeFault>>
        ensures { AnswersAt (has_conn N.race shard conn) result }
    {
        let Some(mut shard) = self.shard_of_conn(rt, shard, conn) else {
            return Err(NO_SHARD);
        };
        answered_by_shard(shard.subscribe(conn, key, sid))
    }

    /// [`ShardState::unsubscribe`](node_threads::ShardState::unsubscribe), of the shard of this number. Refused with
    /// [`NodeFault::NoShard`] first, where that is not there or the connection is of another. May wait.
    pub fn unsubscribe<R: Wait>(
        &self,
        rt: &R,
        shard: u64,
        conn: ConnId,
        sid: &Sid,
        max: Option<u64>,
    ) -> Result<Option<SubId>, NodeFault>
        ensures { DecidesAt (has_conn N.race shard conn) result }
    {
        let Some(mut shard) = self.shard_of_conn(rt, shard, conn) else {
            return Err(NodeFault::NoShard);
        };
        decided_by_shard(shard.unsubscribe(conn, sid, max))
    }

    /// [`ShardState::reply`](node_threads::ShardState::reply), of the shard of this number. Refused with
    /// [`NodeFault::NoShard`] first, where that is not there or the connection is of another. May wait.
    pub fn reply<R: Wait>(
        &self,
        rt: &R,
        shard: u64,
        conn: ConnId,
        frame: &ReplyFrame,
    ) -> Result<Closed, Failure<NodeFault>>
        ensures { AnswersAt (has_conn N.race shard conn) result }
    {
        let Some(mut shard) = self.shard_of_conn(rt, shard, conn) else {
            return Err(NO_SHARD);
        };
        answered_by_shard(shard.reply(conn, frame))
    }

    /// [`ShardState::set_headers`](node_threads::ShardState::set_headers), of the shard of this number. Refused with
    /// [`NodeFault::NoShard`] first, where that is not there or the connection is of another. May wait.
    pub fn set_headers<R: Wait>(
        &self,
        rt: &R,
        shard: u64,
        conn: ConnId,
        on: bool,
    ) -> Result<(), NodeFault>
        ensures { DecidesAt (has_conn N.race shard conn) result }
    {
        let Some(mut shard) = self.shard_of_conn(rt, shard, conn) else {
            return Err(NodeFault::NoShard);
        };
        decided_by_shard(shard.set_headers(conn, on))
    }

    /// [`ShardState::shut`](node_threads::ShardState::shut), of the shard of this number. Refused with
    /// [`NodeFault::NoShard`] first, where that is not there or the connection is of another. May wait.
    pub fn shut<R: Wait>(
        &self,
        rt: &R,
        shard: u64,
        conn: ConnId,
        text: ErrText,
    ) -> Result<Vec<SubId>, Failure<NodeFault>>
        ensures { AnswersAt (has_conn N.race shard conn) result }
    {
        let Some(mut shard) = self.shard_of_conn(rt, shard, conn) else {
            return Err(NO_SHARD);
        };
        answered_by_shard(shard.shut(conn, text))
    }

    /// [`ShardState::detach`](node_threads::ShardState::detach), of the shard of this number. Refused with
    /// [`NodeFault::NoShard`] first, where that is not there or the connection is of another. May wait.
    pub fn detach<R: Wait>(
        &self,
        rt: &R,
        shard: u64,
        conn: ConnId,
    ) -> Result<Vec<SubId>, Failure<NodeFault>>
        ensures { AnswersAt (has_conn N.race shard conn) result }
    {
        let Some(mut shard) = self.shard_of_conn(rt, shard, conn) else {
            return Err(NO_SHARD);
        };
        answered_by_shard(shard.detach(conn))
    }

    /// [`ShardState::take`](node_threads::ShardState::take), of the shard of this number. Refused with
    /// [`NodeFault::NoShard`] first, where that is not there or the connection is of another. May wait.
    pub fn take<R: Wait>(
        &self,
        rt: &R,
        shard: u64,
        conn: ConnId,
        count: usize,
    ) -> Result<Vec<Entry>, Failure<NodeFault>>
        ensures { AnswersAt (has_conn N.race shard conn) result }
    {
        let Some(mut shard) = self.shard_of_conn(rt, shard, conn) else {
            return Err(NO_SHARD);
        };
        answered_by_shard(shard.take(conn, count))
    }

    /// Makes turns of each shard in a thread of its own, until the shard has finished turn `until` in this
    /// call, or has made `tries` turns; one that comes to nothing counts as a try. Where no thread is to be had for a
    /// shard, this one works it. Comes back when all are done. May wait.
    pub fn workers<G: Gate, R: Threads + Wait + Sync>(
        &self,
        rt: &R,
        gate: &G,
        until: Turn,
        tries: u64,
    )
    where
        T: Send + Sync,
        N: Send + Sync,
    {
        let until = until.get();
        thread::scope(thread::scope_env(), rt, |scope| {
            for place in 0..self.shards() {
                let shard = place + 1;
                if scope
                    .spawn(move || work(rt, self, gate, shard, until, tries))
                    .is_err()
                {
                    work(rt, self, gate, shard, until, tries);
                }
            }
        });
    }

    /// Makes turns of the shard of this number until [`ThreadNode::stop`]; after one that is
    /// [`Turned::Idle`] it sleeps until it is woken. The parker is the one that came with the shard's
    /// parts. Comes back at once where the server has no such shard. May wait.
    pub fn worker_until_stopped<G: Gate, R: Wait>(
        &self,
        rt: &R,
        shard: u64,
        parker: &Parker,
        gate: &G,
    ) {
        for _turn in rt.forever() {
            if self.is_stopped() {
                return;
            }
            match self.turn(rt, shard, gate) {
                Some(Turned::Worked(_) | Turned::WorkedRun { .. }) => {}
                Some(Turned::Idle) => parker.park(rt),
                Some(Turned::Short) => thread::yield_now(),
                None => return,
            }
        }
    }
}
