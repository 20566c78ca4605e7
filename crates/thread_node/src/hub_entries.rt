//! What is kept in writing of what a hub and its sessions did.

use node_law::NodeFault;
use node_threads::Deltas;
use route_session::SessionId;
use route_values::{Numbered, RouteConnect, RouteInfo};
use subj::{ConnId, Finished, Pub, Turn};

/// What a hub or its sessions were asked. (Profile.)
///
/// Peers are named by their places in the cluster, from 0. What crosses a lock comes along: the last turns that the
/// shards finished, as the hub had loaded them last, or a shard's deltas.
pub enum HubEvent {
    /// A client published, on the connection of this number; the word decided who serves each queue name.
    Publish {
        conn: ConnId,
        publication: Pub,
        word: u64,
        finished: Finished,
    },
    /// A frame of a peer.
    Receive {
        frame: Numbered,
        finished: Finished,
    },
    /// The deltas of the shard of this number.
    Collect {
        shard: u64,
        deltas: Deltas,
    },
    /// The peers were told that the server has no interest any more.
    Drain,
    /// The first frames that waited for the peer were taken, at most so many.
    TakeFrames {
        peer: usize,
        count: usize,
    },
    /// The peer was dialed.
    Dial {
        peer: usize,
    },
    /// A session was accepted.
    Accept,
    /// The `INFO` of the server that was dialed.
    Info {
        session: SessionId,
        info: RouteInfo,
    },
    /// The `CONNECT` of the server that dialed.
    Connect {
        session: SessionId,
        connect: RouteConnect,
    },
    /// The session was ended.
    Cut {
        session: SessionId,
    },
}

/// One call, also for crates above: `docs/PROVING.md`, "What a proof costs".
impl Drop for HubEvent {
    #[inline(always)]
    fn drop(self) {
        match self {
            HubEvent::Publish {
                conn: _,
                publication: _,
                word: _,
                finished: _,
            } => {}
            HubEvent::Receive {
                frame: _,
                finished: _,
            } => {}
            HubEvent::Collect {
                shard: _,
                deltas: _,
            } => {}
            HubEvent::Drain | HubEvent::Accept => {}
            HubEvent::TakeFrames { peer: _, count: _ } => {}
            HubEvent::Dial { peer: _ } => {}
            HubEvent::Info {
                session: _,
                info: _,
            } => {}
            HubEvent::Connect {
                session: _,
                connect: _,
            } => {}
            HubEvent::Cut { session: _ } => {}
        }
    }
}

/// What a hub or its sessions answered: values, and of lists how long they are. (Profile.)
///
/// The rest of an answer is not kept: it follows from the events.
#[derive(Clone, Copy)]
pub enum HubTold {
    /// A publication: the turn of its job, and how many frames were put for peers.
    Issued {
        turn: Turn,
        frames: usize,
    },
    /// A message of a peer: the turn of its job.
    Routed(Turn),
    /// News of a peer: the number of the last change of interest that is known now.
    Heard(u64),
    /// The deltas of a shard, or a drain: how many changes of interest the peers are told, and how many peers were cut.
    Collected {
        changes: usize,
        cut: usize,
    },
    /// How many frames were taken for a peer.
    Taken(usize),
    /// The session that was dialed.
    Dialed(SessionId),
    /// The session that was accepted, and the `INFO` for it.
    Accepted {
        session: SessionId,
        info: RouteInfo,
    },
    /// An `INFO`: the session that was kept for the peer before, and the `CONNECT` that answers it.
    KeptAfterInfo {
        instead_of: Option<SessionId>,
        connect: RouteConnect,
    },
    /// A `CONNECT`: the session that was kept for the peer before.
    Kept(Option<SessionId>),
    /// The end of a session: the peer that is cut with it.
    WasCut(Option<usize>),
    /// Nothing was done, for this cause.
    Refused(NodeFault),
}

/// A step of a hub and its sessions, or a refusal: what they were asked, and what they answered. (Profile.)
#[derive(Drop)]
pub struct HubEntry {
    pub event: HubEvent,
    pub told: HubTold,
}
