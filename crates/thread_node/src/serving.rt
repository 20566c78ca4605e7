//! The calls that the connections of a server make of it: of its shards and its hub, each while its lock is held.

ghost use Rattle.std.specs.Prelude.{◌≡◌, ◌⊎◌, None, Ok, IfOk, IfSome, IfNone};
ghost use Rattle.std.specs.Sync.Mutex.{mutex_guard_value};
ghost use Rattle.thread_node.specs.Held.{came_to, was_decided, was_replied, was_published, was_received, was_turned, not_attached};
ghost use Rattle.thread_node.specs.Held.{MadeByHub, MadeByShard, RoutedByHub, WorksNext, Takes, Lacks, CollectsAll, IsCounted, WasCollected};
ghost use Rattle.std.specs.Bool.{OnFalse};

use crate::locked::{LockedHub, LockedShard};
use crate::node::{HubSection, ShardSection, ThreadNode};
use client_calls::{ClientCalls, Outcome};
use client_conn::Refusal;
use client_frames::{ErrText, ReplyFrame};
use client_refusals::{refusal_of_hub, refusal_of_shard};
use hub_core::{CollectResult, HubFault};
use node_parts::{Issued, Received};
use node_threads::{NodeName, Open, Turned};
use publication_runs::LentRun;
use route_session::{SessionFault, SessionId};
use route_values::{Numbered, RouteConnect, RouteInfo};
use server_calls::{HubCalls, NextJob, ServerCalls, ShardCalls};
use shard_core::{Closed, DirtyConns, ShardFault};
use std::alloc::{AllocError, Global};
use std::sync::Wait;
use sub_table::SubTable;
use subj::{ConnId, Failure, Key, Pub, Sid};

/// A shard whose lock is held.
#[derive(Drop)]
pub struct HeldShard<'n, T: SubTable, N: NodeName> {
    guard: ShardSection<'n, T, N>,
}

/// The hub, whose lock is held.
#[derive(Drop)]
pub struct HeldHub<'n, N: NodeName> {
    guard: HubSection<'n, N>,
}

/// What a call of a shard came to.
fn outcome_of<X: Drop>(done: Result<X, Failure<ShardFault>>) -> Outcome
    ensures { result ≡ came_to done }
{
    match done {
        Ok(_) => Outcome::Done,
        Err(Failure::Refused(fault)) => Outcome::Refused(refusal_of_shard(fault)),
        Err(Failure::OutOfMemory) => Outcome::Short,
    }
}

/// The same of a call that takes no memory.
fn outcome_of_decision<X: Drop>(done: Result<X, ShardFault>) -> Outcome
    ensures { result ≡ was_decided done }
{
    match done {
        Ok(_) => Outcome::Done,
        Err(fault) => Outcome::Refused(refusal_of_shard(fault)),
    }
}

/// The same of a reply, by which the connection may be shut.
fn outcome_of_reply(done: Result<Closed, Failure<ShardFault>>) -> Outcome
    ensures { result ≡ was_replied done }
{
    match done {
        Ok(closed) if closed.shut => Outcome::Shut,
        Ok(_) => Outcome::Done,
        Err(Failure::Refused(fault)) => Outcome::Refused(refusal_of_shard(fault)),
        Err(Failure::OutOfMemory) => Outcome::Short,
    }
}

/// What a publication made of the hub came to.
fn outcome_of_publish(done: Result<Issued, Failure<HubFault>>) -> Outcome
    ensures { result ≡ was_published done }
{
    match done {
        Ok(_) => Outcome::Done,
        Err(Failure::Refused(fault)) => Outcome::Refused(refusal_of_hub(fault)),
        Err(Failure::OutOfMemory) => Outcome::Short,
    }
}

/// Copies of what opens a subscription.
fn copies_of(alloc: Global, key: &Key, sid: &Sid) -> Result<(Key, Sid), AllocError>
    ensures { IfOk result (λ copies. (copies.0 ≡ key.now) × (copies.1 ≡ sid.now)) }
{
    let key = key.try_clone(alloc)?;
    let sid = sid.try_clone(alloc)?;
    Ok((key, sid))
}

/// What a turn of a shard came to.
fn turned_so(turned: Turned) -> NextJob
    ensures { result ≡ was_turned turned }
{
    match turned {
        Turned::Worked(_) => NextJob::Worked(1),
        Turned::WorkedRun { jobs, .. } => NextJob::Worked(jobs),
        Turned::Idle => NextJob::Nothing,
        Turned::Short => NextJob::Short,
    }
}

/// What a frame of another server came to.
fn received_so(done: Result<Received, Failure<HubFault>>) -> Result<(), Failure<HubFault>>
    ensures { result ≡ was_received done }
{
    match done {
        Ok(_) => Ok(()),
        Err(fault) => Err(fault),
    }
}

/// Has the hub collect the deltas of the shard: what it told the peers, or None where there are none, or it is refused.
fn collected<T: SubTable, N: NodeName>(
    hub: &mut LockedHub<N>,
    shard: &mut LockedShard<T, N>,
) -> Result<Option<CollectResult>, AllocError>
    ensures { CollectsAll hub.old shard.old result hub.new shard.new }
{
    if shard.deltas().is_empty() {
        return Ok(None);
    }
    match hub.collect(shard) {
        Ok(told) => Ok(Some(told)),
        Err(Failure::Refused(_)) => Ok(None),
        Err(Failure::OutOfMemory) => Err(AllocError),
    }
}

/// A refusal of a shard, as a client is told of it.
fn refused(fault: Failure<ShardFault>) -> Failure<Refusal>
    ensures { result ≡ not_attached fault }
{
    match fault {
        Failure::Refused(fault) => Failure::Refused(refusal_of_shard(fault)),
        Failure::OutOfMemory => Failure::OutOfMemory,
    }
}

// Each call is what the contract of `LockedShard` says of it, of the shard under the lock.
impl<'n, T: SubTable, N: NodeName> ClientCalls for HeldShard<'n, T, N> {
    ghost made = { λ before called after.
        MadeByShard (mutex_guard_value before.guard) called (mutex_guard_value after.guard) };

    fn attach(&mut self) -> Result<ConnId, Failure<Refusal>> {
        let shard = &mut *self.guard;
        match shard.attach() {
            Ok(id) => Ok(id),
            Err(fault) => Err(refused(fault)),
        }
    }

    fn reply(&mut self, conn: ConnId, frame: &ReplyFrame) -> Outcome {
        let shard = &mut *self.guard;
        outcome_of_reply(shard.reply(conn, frame))
    }

    fn set_headers(&mut self, conn: ConnId, on: bool) -> Outcome {
        let shard = &mut *self.guard;
        outcome_of_decision(shard.set_headers(conn, on))
    }

    fn shut(&mut self, conn: ConnId, text: ErrText) -> Outcome {
        let shard = &mut *self.guard;
        match shard.shut(conn, text) {
            Err(Failure::OutOfMemory) => Outcome::Short,
            _ => Outcome::Shut,
        }
    }

    fn subscribe(&mut self, conn: ConnId, key: &Key, sid: &Sid) -> Outcome {
        let shard = &mut *self.guard;
        match copies_of(shard.alloc(), key, sid) {
            Ok((key, sid)) => outcome_of(shard.subscribe(conn, key, sid)),
            Err(_) => Outcome::Short,
        }
    }

    fn unsubscribe(&mut self, conn: ConnId, sid: &Sid, max: Option<u64>) -> Outcome {
        let shard = &mut *self.guard;
        outcome_of_decision(shard.unsubscribe(conn, sid, max))
    }

    fn publish(&mut self, _conn: ConnId, _said: &Pub) -> Outcome {
        Outcome::Elsewhere
    }

    fn publish_run(&mut self, _conn: ConnId, _said: &mut LentRun<'_>) -> u64 {
        0
    }

    fn detach(&mut self, conn: ConnId) -> Result<(), AllocError> {
        let shard = &mut *self.guard;
        match shard.detach(conn) {
            Err(Failure::OutOfMemory) => Err(AllocError),
            _ => Ok(()),
        }
    }
}

impl<'n, T: SubTable, N: NodeName> ShardCalls for HeldShard<'n, T, N> {
    ghost number = { λ held. (mutex_guard_value held.guard).part.shard };

    ghost worked = { λ before came after.
        WorksNext (mutex_guard_value before.guard) came (mutex_guard_value after.guard) };

    ghost takes = { λ before conn count bytes after.
        Takes (mutex_guard_value before.guard) conn count bytes (mutex_guard_value after.guard) };

    fn shard(&self) -> u64 {
        self.guard.shard()
    }

    fn work_next<R: Wait>(&mut self, rt: &R) -> NextJob {
        let shard = &mut *self.guard;
        turned_so(shard.turn(rt, &Open))
    }

    fn is_urgent(&self) -> bool {
        self.guard.is_urgent()
    }

    fn has_deltas(&self) -> bool {
        !self.guard.deltas().is_empty()
    }

    fn take_bytes(
        &mut self,
        conn: ConnId,
        count: usize,
        out: &mut Vec<u8>,
    ) -> Result<usize, Failure<ShardFault>> {
        let shard = &mut *self.guard;
        shard.take_bytes(conn, count, out)
    }

    fn is_open(&self, conn: ConnId) -> bool {
        self.guard.is_open(conn)
    }

    fn swap_dirty_conns(&mut self, dirty_conns: &mut DirtyConns) {
        let shard = &mut *self.guard;
        shard.swap_dirty_conns(dirty_conns);
    }
}

// A publication is what the contract of `LockedHub` says of it, of the hub under the lock; the lanes of the shards are not seen.
impl<'n, N: NodeName> HubCalls for HeldHub<'n, N> {
    ghost published = { λ before conn publication word came after.
        MadeByHub N.race.shards (mutex_guard_value before.guard) conn publication word came
        (mutex_guard_value after.guard) };

    ghost pushed = { λ before after.
        mutex_guard_value after.guard ≡ mutex_guard_value before.guard };

    ghost routed = { λ before call after.
        RoutedByHub N.race.shards (mutex_guard_value before.guard) call
        (mutex_guard_value after.guard) };

    fn publish(&mut self, conn: ConnId, publication: &Pub, word: u64) -> Outcome {
        let hub = &mut *self.guard;
        outcome_of_publish(hub.publish(conn, publication, word))
    }

    fn publish_run(&mut self, conn: ConnId, run: &mut LentRun<'_>) -> u64 {
        let hub = &mut *self.guard;
        hub.publish_run(conn, run)
    }

    fn receive(&mut self, frame: &Numbered) -> Result<(), Failure<HubFault>> {
        let hub = &mut *self.guard;
        received_so(hub.receive(frame))
    }

    fn push_jobs<R: Wait>(&mut self, rt: &R) -> bool {
        let hub = &mut *self.guard;
        hub.push_jobs(rt)
    }

    fn accept(&mut self) -> Result<(SessionId, RouteInfo), Failure<SessionFault>> {
        let hub = &mut *self.guard;
        hub.accept()
    }

    fn dial(&mut self, peer: usize) -> Result<SessionId, Failure<SessionFault>> {
        let hub = &mut *self.guard;
        hub.dial(peer)
    }

    fn info(
        &mut self,
        session: SessionId,
        info: &RouteInfo,
    ) -> Result<RouteConnect, Failure<SessionFault>> {
        let hub = &mut *self.guard;
        match hub.info(session, info) {
            Ok((_kept, connect)) => Ok(connect),
            Err(fault) => Err(fault),
        }
    }

    fn connect(
        &mut self,
        session: SessionId,
        connect: &RouteConnect,
    ) -> Result<(), Failure<SessionFault>> {
        let hub = &mut *self.guard;
        match hub.connect(session, connect) {
            Ok(_kept) => Ok(()),
            Err(fault) => Err(fault),
        }
    }

    fn cut(&mut self, session: SessionId) {
        let hub = &mut *self.guard;
        let _ = hub.cut(session);
    }

    fn take_frames(
        &mut self,
        peer: usize,
        count: usize,
    ) -> Result<Vec<Numbered>, Failure<HubFault>> {
        let hub = &mut *self.guard;
        hub.take_frames(peer, count)
    }
}

/// Takes the lock of the shard of this number, from 1. None where there is no such shard: no clause says which shard stands under which lock, so
/// each hold asks the one that it finds there. May wait.
fn own_section<'n, T: SubTable, N: NodeName, R: Wait>(
    node: &'n ThreadNode<T, N>,
    rt: &R,
    number: u64,
) -> Option<ShardSection<'n, T, N>>
    ensures own { IfSome result (λ guard. (mutex_guard_value guard).part.shard ≡ number) }
    ensures none { IfNone result (Lacks N.race number) }
{
    match node.shard(rt, number) {
        None => None,
        Some(guard) => {
            if guard.shard() == number {
                Some(guard)
            } else {
                None
            }
        }
    }
}

/// Whether the hub has not counted all that was opened and closed at the shard of this number, where there is one. The hub is not held, so that
/// loops of a server that have nothing to tell do not wait for each other. May wait.
fn has_deltas<T: SubTable, N: NodeName, R: Wait>(
    node: &ThreadNode<T, N>,
    rt: &R,
    number: u64,
) -> bool
    ensures { OnFalse result (Lacks N.race number ⊎ IsCounted number) }
{
    match own_section(node, rt, number) {
        None => false,
        Some(guard) => !guard.deltas().is_empty(),
    }
}

impl<'n, T: SubTable, N: NodeName> ServerCalls for &'n ThreadNode<T, N> {
    type Shard = HeldShard<'n, T, N>;

    type Hub = HeldHub<'n, N>;

    ghost count = { λ _. N.race.shards };

    ghost lacks = { λ _ number. Lacks N.race number };

    ghost collected = { λ _ number came.
        WasCollected number came
        ⊎ ((Lacks N.race number ⊎ IsCounted number) × (came ≡ Ok None)) };

    fn shards(&self) -> u64 {
        let node: &'n ThreadNode<T, N> = *self;
        node.shards()
    }

    fn shard<R: Wait>(&self, rt: &R, number: u64) -> Option<HeldShard<'n, T, N>> {
        let node: &'n ThreadNode<T, N> = *self;
        match own_section(node, rt, number) {
            None => None,
            Some(guard) => Some(HeldShard { guard }),
        }
    }

    fn hub<R: Wait>(&self, rt: &R) -> HeldHub<'n, N> {
        let node: &'n ThreadNode<T, N> = *self;
        HeldHub {
            guard: node.hub(rt),
        }
    }

    fn collect<R: Wait>(&self, rt: &R, shard: u64) -> Result<Option<CollectResult>, AllocError> {
        let node: &'n ThreadNode<T, N> = *self;
        if !has_deltas(node, rt, shard) {
            return Ok(None);
        }
        let mut hub_guard = node.hub(rt);
        match own_section(node, rt, shard) {
            None => Ok(None),
            Some(mut shard_guard) => collected(&mut hub_guard, &mut shard_guard),
        }
    }

    fn drain<R: Wait>(&self, rt: &R) -> Result<Option<Vec<usize>>, AllocError> {
        let node: &'n ThreadNode<T, N> = *self;
        match node.drain(rt) {
            Ok(cut) => Ok(cut),
            Err(Failure::Refused(_)) => Ok(None),
            Err(Failure::OutOfMemory) => Err(AllocError),
        }
    }
}
