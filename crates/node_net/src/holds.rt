//! Where the loop holds a shard or the hub of its server: each function here takes the lock, hands on what it holds, and lets go of it.
//!
//! No contract can say that a function which takes a lock takes no other and makes no further call. So little else is done here, and cases count the
//! calls that each makes.

ghost use Rattle.std.specs.Prelude.{◌≡◌, ◌⊎◌, MatchOption};
ghost use Rattle.server_calls.specs.Routed.{informed, connected, was_cut, took, taken_of, WasRouted};
ghost use Rattle.node_net.specs.Holds.{RunsAtHub, RunsAtShard, HasNoShard, names_of, ClosesSome, Detaches, LeavesShard, KeepsPlace};
ghost use Rattle.node_net.specs.Routes.{ReceivesAtHub};
ghost use Rattle.node_net.specs.Taking.{all_parts, keys_of, TakesParts};
ghost use Rattle.node_net.specs.Turning.{IsWorked};

use crate::client_link::{ClientLink, HubTally, ShardTally, Sids, close_some};
use crate::connections::Connections;
use crate::faults::AddFault;
use crate::flushing::{Awaited, frames_of};
use crate::limits::SHARD_RUN;
use crate::route_link::RouteLink;
use crate::runs::{Ran, RunOutcome};
use crate::taken::Taken;
use crate::turning::{Worked, work_held};
use client_conn::Refusal;
use client_frames::ServerInfo;
use net_streams::Stream;
use rand_pcg::Pcg64;
use route_session::{SessionFault, SessionId};
use route_values::{Numbered, RouteConnect, RouteInfo};
use server_calls::{HubCalls, ServerCalls, ShardCalls};
use shard_core::DirtyConns;
use std::alloc::{AllocError, Global};
use std::sync::Wait;
use subj::{Failure, ServerIdentity as Life};

/// A session with a server that has dialed, and what that is told first.
pub(crate) fn accept<C: ServerCalls, R: Wait>(
    rt: &R,
    node: C,
) -> Result<(SessionId, RouteInfo), Failure<SessionFault>> {
    let mut hub = node.hub(rt);
    hub.accept()
}

/// A session with the server at this place, which was dialed.
pub(crate) fn dial<C: ServerCalls, R: Wait>(
    rt: &R,
    node: C,
    peer: usize,
) -> Result<SessionId, Failure<SessionFault>> {
    let mut hub = node.hub(rt);
    hub.dial(peer)
}

/// What the server that was dialed and has told who it is is told back.
pub(crate) fn answer_to<C: ServerCalls, R: Wait>(
    rt: &R,
    node: C,
    session: SessionId,
    info: &RouteInfo,
) -> Result<RouteConnect, Failure<SessionFault>>
    ensures { WasRouted C.Hub.routed (informed session info.now result) }
{
    let mut hub = node.hub(rt);
    hub.info(session, info)
}

/// The server that has dialed has told who it is.
pub(crate) fn connect<C: ServerCalls, R: Wait>(
    rt: &R,
    node: C,
    session: SessionId,
    connect: &RouteConnect,
) -> Result<(), Failure<SessionFault>>
    ensures { WasRouted C.Hub.routed (connected session connect.now result) }
{
    let mut hub = node.hub(rt);
    hub.connect(session, connect)
}

/// The session ends, where it stands.
pub(crate) fn cut<C: ServerCalls, R: Wait>(rt: &R, node: C, session: SessionId)
    ensures { WasRouted C.Hub.routed (was_cut session) }
{
    let mut hub = node.hub(rt);
    hub.cut(session);
}

/// Hands the jobs to the shards that some of these do not have. Whether some are left.
pub(crate) fn push_jobs<C: ServerCalls, R: Wait>(rt: &R, node: C) -> bool {
    let mut hub = node.hub(rt);
    hub.push_jobs(rt)
}

/// Whether the hub has not counted all that was opened and closed at the shard of this number, where there is one.
pub(crate) fn has_deltas<C: ServerCalls, R: Wait>(rt: &R, node: C, number: u64) -> bool {
    match node.shard(rt, number) {
        None => false,
        Some(shard) => shard.has_deltas(),
    }
}

/// Takes at most so many frames that wait for the server at this place; none where there is no such one.
pub(crate) fn take_frames<C: ServerCalls, R: Wait>(
    rt: &R,
    node: C,
    alloc: Global,
    peer: usize,
    count: usize,
) -> Result<Vec<Numbered>, AllocError>
    ensures { WasRouted C.Hub.routed (took peer count (taken_of (λ frames. frames.items) result)) }
{
    let mut hub = node.hub(rt);
    frames_of(&mut hub, alloc, peer, count)
}

/// The next client of this shard, who is told first of this server.
pub(crate) fn attach<C: ServerCalls, R: Wait>(
    rt: &R,
    node: C,
    alloc: Global,
    shard: u64,
    server: &ServerInfo,
) -> Result<ClientLink, AddFault> {
    match node.shard(rt, shard) {
        None => Err(AddFault::Client(Refusal::Other)),
        Some(mut shard) => Ok(ClientLink::attach(alloc, &mut shard, server)?),
    }
}

/// Works the shard of this number, where there is one.
pub(crate) fn work_shard<C: ServerCalls, R: Wait>(rt: &R, node: C, number: u64) -> Option<Worked>
    ensures { MatchOption result (C.lacks node number)
        (λ worked. IsWorked C.Shard.worked C.Shard.number worked.is_unfinished number) }
{
    match node.shard(rt, number) {
        None => None,
        Some(mut shard) => Some(work_held(rt, &mut shard)),
    }
}

/// Hands out for which clients of a shard something was put since the last time, for those that were handed out then.
pub(crate) fn swap_dirty_conns<C: ServerCalls, R: Wait>(
    rt: &R,
    node: C,
    shard: u64,
    dirty_conns: &mut DirtyConns,
) {
    if let Some(mut shard) = node.shard(rt, shard) {
        shard.swap_dirty_conns(dirty_conns);
    }
}

impl RouteLink {
    /// Takes numbered frames, at most a window.
    pub fn receive<C: ServerCalls, R: Wait>(&mut self, rt: &R, node: C, life: &Life) -> RunOutcome
        ensures { ReceivesAtHub C.Hub.routed C.Hub.pushed life.now result.end self.old self.new }
    {
        let mut hub = node.hub(rt);
        let mut run = self.receive_all(&mut hub, life);
        run.is_unpushed = hub.push_jobs(rt);
        run
    }
}

impl ClientLink {
    /// Asks its shard, up to a publication.
    pub fn ask<C: ServerCalls, R: Wait>(&mut self, rt: &R, node: C) -> RunOutcome
        ensures calls { RunsAtShard C.Shard.made C.Shard.number self.old.place self.new.place
            self.old.shard self.old.calls.id result.end self.old.calls.conn.asking
            self.new.calls.conn.asking
            ⊎ HasNoShard (C.lacks node) self.old.place self.new.place self.old.shard result.end
            self.old.calls.conn.asking self.new.calls.conn.asking }
        ensures same { KeepsPlace self.old self.new }
    {
        let held = node.shard(rt, self.shard);
        match held {
            None => RunOutcome::of(Ran::Refused),
            Some(shard) => {
                let sids = std::mem::replace(&mut self.sids, Sids::new(self.alloc));
                let mut tally = ShardTally::new(shard, sids);
                self.ask_held(&mut tally)
            }
        }
    }

    /// Publishes what is asked up to another ask, at most a window.
    pub fn publish<C: ServerCalls, R: Wait>(
        &mut self,
        rt: &R,
        node: C,
        words: &mut Pcg64,
    ) -> RunOutcome
        ensures calls { RunsAtHub C.Hub.published C.Hub.pushed self.old.place self.new.place
            self.old.calls.id result.end self.old.calls.conn.asking self.new.calls.conn.asking }
        ensures same { KeepsPlace self.old self.new }
    {
        let own = Pcg64::from_state(words.state(), words.stream());
        let mut tally = HubTally::new(node.hub(rt), own);
        let mut run = self.publish_held(&mut tally);
        if !run.is_empty {
            run.is_unpushed = tally.hub.push_jobs(rt);
        }
        *words = tally.words;
        run
    }

    /// Closes some of its subscriptions, where there are more than its server tells at once. Whether it did.
    pub fn close_some<C: ServerCalls, R: Wait>(&mut self, rt: &R, node: C) -> bool
        ensures closed { ClosesSome C.Shard.made C.Shard.number (C.lacks node) self.old.shard
            self.old.calls.id self.old.has_left (names_of self.old.sids) result
            (names_of self.new.sids) }
        ensures same { self.new ≡ record self.old { sids = self.new.sids } }
    {
        if self.has_left || self.sids.len() as u64 <= SHARD_RUN {
            return false;
        }
        let Some(mut shard) = node.shard(rt, self.shard) else {
            return false;
        };
        close_some(&mut shard, self.calls.id(), &mut self.sids, SHARD_RUN);
        true
    }

    /// Takes all that waits for the client behind what stands there, and has its shard forget it: from here on it is a member of
    /// nothing. For want of memory it has not left, and what was taken stands there all the same.
    pub fn leave<C: ServerCalls, R: Wait>(
        &mut self,
        rt: &R,
        node: C,
        waiting: &mut Vec<u8>,
    ) -> Result<(), AllocError>
        ensures left { LeavesShard C.Shard.made C.Shard.number (C.lacks node) self.old.shard
            self.old.calls.id self.old.has_left result self.new.has_left }
        ensures same { self.new ≡ record self.old { has_left = self.new.has_left } }
    {
        match node.shard(rt, self.shard) {
            None => Ok(()),
            Some(mut shard) => self.leave_shard(&mut shard, waiting),
        }
    }

    /// The client goes with all that waits for it, unless it has left.
    pub fn detach<C: ServerCalls, R: Wait>(&self, rt: &R, node: C) -> Result<(), AllocError>
        ensures { Detaches C.Shard.made C.Shard.number (C.lacks node) self.now.shard
            self.now.calls.id self.now.has_left result }
    {
        if self.has_left {
            return Ok(());
        }
        let Some(mut shard) = node.shard(rt, self.shard) else {
            return Ok(());
        };
        self.calls.detach(&mut shard)
    }
}

impl<S: Stream> Connections<S> {
    /// Takes what waits for clients of the shard of this number, from this place among these on, until enough is taken. The place where it
    /// goes on.
    #[tactic(auto, using(crate::proofs::TakingLemmas::takes_parts))]
    pub fn take_some<C: ServerCalls, R: Wait>(
        &mut self,
        rt: &R,
        node: C,
        number: u64,
        awaited: Awaited<'_>,
        place: usize,
        taken: &mut Taken,
    ) -> Result<usize, AllocError>
        ensures { TakesParts C.Shard.takes C.Shard.number (C.lacks node) number
            (keys_of awaited.entry) place result self.old.table (all_parts taken.new)
            self.new.table }
    {
        taken.clear();
        match node.shard(rt, number) {
            None => Ok(awaited.count()),
            Some(mut shard) => self.take_from(&mut shard, awaited, place, taken),
        }
    }
}
