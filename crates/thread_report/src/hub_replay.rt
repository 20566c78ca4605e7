//! A hub with its sessions that does again what stands on a tape, so that its answers are known whole: the tape has
//! their lists in numbers.

ghost use Rattle.std.specs.Prelude.{◌≡◌, IfOk};
ghost use Rattle.hub_core.specs.Chosen.{publication_by};
ghost use Rattle.hub_core.specs.Events as of_hub;
ghost use Rattle.node_parts.specs.Sides.{ByHub, BySessions, seen_name};
ghost use Rattle.route_session.specs.Events as of_sessions;
ghost use Rattle.thread_report.specs.HubAnswers.{DoesAgain, asked, is_made as was_made, lists_at, state_behind};

use crate::faults::Unfinished;
use crate::hub_lists::HubLists;
use hub_core::PublishPlan;
use node_parts::{HubWithSessions, take_in};
use route_session::SessionId;
use route_values::{Numbered, RouteConnect, RouteInfo};
use std::alloc::Global;
use subj::{ConnId, Delta, Finished, Pub};
use thread_node::{HubEntry, HubEvent, HubTold};

/// A publication.
fn publish(
    alloc: Global,
    side: &mut HubWithSessions,
    conn: ConnId,
    publication: &Pub,
    word: u64,
    finished: &Finished,
) -> Result<HubLists, Unfinished>
    ensures { let p = publication_by conn publication.now word in
        IfOk result (λ lists.
        DoesAgain side.old (ByHub (of_hub.Publish p finished.now)) lists side.new) }
{
    let PublishPlan { frames, .. } = side.plan_publish(conn, publication, word, finished)?;
    side.commit_publish(frames);
    Ok(HubLists::none(alloc))
}

/// A frame of a peer.
fn receive(
    alloc: Global,
    side: &mut HubWithSessions,
    frame: &Numbered,
    finished: &Finished,
) -> Result<HubLists, Unfinished>
    ensures { IfOk result (λ lists.
        DoesAgain side.old (ByHub (of_hub.Receive frame.now finished.now)) lists side.new) }
{
    let mut jobs = Vec::new(alloc);
    let _received = take_in(side, frame, finished, &mut jobs, 1)?;
    Ok(HubLists::none(alloc))
}

/// Deltas of a shard.
fn collect(
    alloc: Global,
    side: &mut HubWithSessions,
    shard: u64,
    deltas: &[Delta],
) -> Result<HubLists, Unfinished>
    ensures { IfOk result (λ lists.
        DoesAgain side.old (ByHub (of_hub.Collect shard deltas.now)) lists side.new) }
{
    let told = side.collect(shard, deltas)?;
    Ok(HubLists::of_collect(alloc, told))
}

/// A hub that drains.
fn drain(alloc: Global, side: &mut HubWithSessions) -> Result<HubLists, Unfinished>
    ensures { IfOk result (λ lists. DoesAgain side.old (ByHub of_hub.Drain) lists side.new) }
{
    let cut = side.drain()?;
    Ok(HubLists::of_cut(alloc, cut))
}

/// Frames that are taken for a peer.
fn take_frames(
    alloc: Global,
    side: &mut HubWithSessions,
    peer: usize,
    count: usize,
) -> Result<HubLists, Unfinished>
    ensures { IfOk result (λ lists.
        DoesAgain side.old (ByHub (of_hub.TakeFrom peer count)) lists side.new) }
{
    let frames = side.take_frames(peer, count)?;
    Ok(HubLists::of_frames(alloc, frames))
}

/// A session that is dialed.
fn dial(alloc: Global, side: &mut HubWithSessions, peer: usize) -> Result<HubLists, Unfinished>
    ensures { IfOk result (λ lists.
        DoesAgain side.old (BySessions (of_sessions.Dial peer)) lists side.new) }
{
    let _session = side.dial(peer)?;
    Ok(HubLists::none(alloc))
}

/// A session that is accepted.
fn accept(alloc: Global, side: &mut HubWithSessions) -> Result<HubLists, Unfinished>
    ensures { IfOk result (λ lists.
        DoesAgain side.old (BySessions of_sessions.Accept) lists side.new) }
{
    let _given = side.accept()?;
    Ok(HubLists::none(alloc))
}

/// An `INFO`.
fn info(
    alloc: Global,
    side: &mut HubWithSessions,
    session: SessionId,
    info: &RouteInfo,
) -> Result<HubLists, Unfinished>
    ensures { let e =
        of_sessions.OnInfo session info.now (seen_name side.old info.now.server_name) in
        IfOk result (λ lists. DoesAgain side.old (BySessions e) lists side.new) }
{
    match side.info(session, info) {
        Ok(_kept) => Ok(HubLists::none(alloc)),
        Err(failure) => Err(Unfinished::from(failure)),
    }
}

/// A `CONNECT`.
fn connect(
    alloc: Global,
    side: &mut HubWithSessions,
    session: SessionId,
    connect: &RouteConnect,
) -> Result<HubLists, Unfinished>
    ensures { let e =
        of_sessions.OnConnect session connect.now (seen_name side.old connect.now.server_name) in
        IfOk result (λ lists. DoesAgain side.old (BySessions e) lists side.new) }
{
    match side.connect(session, connect) {
        Ok(_kept) => Ok(HubLists::none(alloc)),
        Err(failure) => Err(Unfinished::from(failure)),
    }
}

/// The end of a session.
fn cut(
    alloc: Global,
    side: &mut HubWithSessions,
    session: SessionId,
) -> Result<HubLists, Unfinished>
    ensures { IfOk result (λ lists.
        DoesAgain side.old (BySessions (of_sessions.Cut session)) lists side.new) }
{
    let Ok(_peer) = side.cut(session) else {
        return Err(Unfinished::Untold);
    };
    Ok(HubLists::none(alloc))
}

/// What the hub or the sessions were asked.
fn redo(alloc: Global, side: &mut HubWithSessions, event: &HubEvent) -> Result<HubLists, Unfinished>
    ensures { IfOk result (λ lists.
        DoesAgain side.old (asked side.old event.now) lists side.new) }
{
    match event {
        HubEvent::Publish {
            conn,
            publication,
            word,
            finished,
        } => publish(alloc, side, *conn, publication, *word, finished),
        HubEvent::Receive { frame, finished } => receive(alloc, side, frame, finished),
        HubEvent::Collect { shard, deltas } => collect(alloc, side, *shard, deltas.as_slice()),
        HubEvent::Drain => drain(alloc, side),
        HubEvent::TakeFrames { peer, count } => take_frames(alloc, side, *peer, *count),
        HubEvent::Dial { peer } => dial(alloc, side, *peer),
        HubEvent::Accept => accept(alloc, side),
        HubEvent::Info { session, info: of } => info(alloc, side, *session, of),
        HubEvent::Connect {
            session,
            connect: of,
        } => connect(alloc, side, *session, of),
        HubEvent::Cut { session } => cut(alloc, side, *session),
    }
}

/// Whether it tells of a step, and of no refusal.
fn is_made(told: HubTold) -> bool
    ensures { result ≡ was_made told }
{
    !matches!(told, HubTold::Refused(_))
}

/// Does again what an entry tells, and gives the lists that are answered; what was refused is left. An `Err` is
/// [`Unfinished::OutOfMemory`], or [`Unfinished::Untold`] where the hub or the sessions refuse it now.
pub(crate) fn again(
    alloc: Global,
    side: &mut HubWithSessions,
    entry: &HubEntry,
) -> Result<HubLists, Unfinished>
    ensures lists { IfOk result (λ lists. lists ≡ lists_at side.old entry.now) }
    ensures state { IfOk result (λ _. side.new ≡ state_behind side.old entry.now) }
{
    if !is_made(entry.told) {
        return Ok(HubLists::none(alloc));
    }
    redo(alloc, side, &entry.event)
}
