//! What a collect and a drain tell: the changes of the server's own interest, in frames for the peers that have room for all of them.

ghost use Rattle.std.specs.Prelude.{◌≡◌, IfOk, ◌≤◌, ◌<◌, ◌+◌, ◌++◌, map, length, OnOk};
ghost use Rattle.hub_core.specs.Telling.{is_told as told, is_slow as slow, slow_from, without_slow, frames_of_change, frames_behind, body_of as told_as};
ghost use Rattle.hub_core.specs.Calls.{WereSeen, HasRoomFor, change_to};
ghost use Rattle.hub_core.specs.Publishing.{with_frames};
ghost use Rattle.subj.specs.Servers.{IsListed};
ghost use Rattle.subj.specs.declared.limits.TheConstants.{MAX_COUNTER};

use crate::peers::{Peer, frame_to, put_all};
use interest::{Change, Recount};
use route_values::{Body, Numbered, SnapshotKeys};
use std::alloc::{AllocError, Global};
use subj::{ROUTE_FRAMES, ServerIdentity};

/// What a collect does, found before anything is changed.
#[derive(Drop)]
pub struct CollectPlan {
    /// What it makes of the counts.
    pub recount: Recount,
    /// The changes that the peers are told, in their order.
    pub changes: Vec<Change>,
    /// The frames that tell the peers of them, in order of change and then of peer.
    pub frames: Vec<Numbered>,
    /// The peers that are cut since they have no room for all of them, by their places.
    pub cut: Vec<usize>,
}

/// Whether the peer is up, with room for so many frames more.
fn is_told(peer: &Peer, count: usize) -> bool
    ensures { result ≡ told count peer.now }
{
    peer.up && count <= ROUTE_FRAMES && peer.outbox.len() + count <= ROUTE_FRAMES
}

/// Whether the peer is up, without room for so many frames more.
fn is_slow(peer: &Peer, count: usize) -> bool
    ensures { result ≡ slow count peer.now }
{
    peer.up && !is_told(peer, count)
}

/// What a peer is told of a change; a copy.
fn body_of(alloc: Global, change: &Change) -> Result<Body, AllocError>
    ensures { IfOk result (λ body. body ≡ told_as change.now) }
{
    match change {
        Change::Up(weighted) => Ok(Body::Plus(weighted.try_clone(alloc)?)),
        Change::Gone(key) => Ok(Body::Minus(key.try_clone(alloc)?)),
        Change::Clear => Ok(Body::Snapshot(SnapshotKeys::new(alloc))),
    }
}

/// The frame that tells the peer at the place of a change.
fn frame_of_change(
    alloc: Global,
    server: &ServerIdentity,
    place: usize,
    peer: &Peer,
    number: u64,
    change: &Change,
) -> Result<Numbered, AllocError>
    requires place { place < length server.now.names }
    requires seen { 1 ≤ peer.now.seen }
    requires first { 1 ≤ number }
    requires last { number ≤ MAX_COUNTER }
    ensures { IfOk result (λ frame. frame ≡ change_to server.now number change.now place peer.now) }
{
    let body = body_of(alloc, change)?;
    let inc = peer.incarnation();
    Ok(frame_to(server, place, inc, number, body))
}

/// The peers that are up without room for so many frames more, by their places.
pub(crate) fn slow_peers(
    alloc: Global,
    peers: &[Peer],
    count: usize,
) -> Result<Vec<usize>, AllocError>
    ensures { IfOk result (λ places. places.items ≡ slow_from count 0 peers.now) }
{
    let mut places = Vec::new(alloc);
    for place in 0..peers.len() {
        if is_slow(&peers[place], count) {
            places.push(place)?;
        }
    }
    Ok(places)
}

/// A peer that is up without room for so many frames more is so no longer.
fn cut_if_slow(peer: &mut Peer, count: usize)
    ensures { peer.new ≡ without_slow count peer.old }
{
    peer.up = is_told(peer, count);
}

/// The peers that are up without room for so many frames more are so no longer.
fn cut_slow(peers: &mut [Peer], count: usize)
    ensures { peers.new ≡ map (without_slow count) peers.old }
{
    for peer in peers {
        cut_if_slow(peer, count);
    }
}

/// Tells the peers so many changes by these frames: those that are up without room for all of them are so no longer, and
/// the frames wait for the others. Takes no memory.
pub(crate) fn tell_peers(
    server: &ServerIdentity,
    peers: &mut [Peer],
    count: usize,
    frames: Vec<Numbered>,
)
    requires known { IsListed server.now }
    requires placed { length peers.old ≡ length server.now.names }
    requires room { HasRoomFor server.now frames.items (map (without_slow count) peers.old) }
    ensures { peers.new
        ≡ with_frames server.now frames.items 0 (map (without_slow count) peers.old) }
{
    cut_slow(peers, count);
    put_all(server, peers, frames);
}

/// Adds the frames that tell of the change of this number, of so many, to each peer that is told all.
fn add_frames(
    server: &ServerIdentity,
    peers: &[Peer],
    count: usize,
    number: u64,
    change: &Change,
    frames: &mut Vec<Numbered>,
) -> Result<(), AllocError>
    requires placed { length peers.now ≡ length server.now.names }
    requires seen { WereSeen peers.now }
    requires first { 1 ≤ number }
    requires last { number ≤ MAX_COUNTER }
    ensures { OnOk result (frames.new.items
        ≡ frames.old.items ++ frames_of_change server.now count number change.now 0 peers.now) }
{
    let alloc = *frames.allocator();
    for place in 0..peers.len() {
        let peer = &peers[place];
        if is_told(peer, count) {
            let frame = frame_of_change(alloc, server, place, peer, number, change)?;
            frames.push(frame)?;
        }
    }
    Ok(())
}

/// The frames that tell of these changes, which follow the one of this number, in order of change and
/// then of peer.
pub(crate) fn frames_of_changes(
    alloc: Global,
    server: &ServerIdentity,
    peers: &[Peer],
    changed: u64,
    changes: &[Change],
) -> Result<Vec<Numbered>, AllocError>
    requires placed { length peers.now ≡ length server.now.names }
    requires seen { WereSeen peers.now }
    requires numbers { changed + length changes.now ≤ MAX_COUNTER }
    ensures { IfOk result (λ frames.
        frames.items
        ≡ frames_behind server.now (length changes.now) changed changes.now peers.now) }
{
    let mut frames = Vec::new(alloc);
    let mut number = changed;
    for change in changes {
        number += 1;
        add_frames(server, peers, changes.len(), number, change, &mut frames)?;
    }
    Ok(frames)
}
