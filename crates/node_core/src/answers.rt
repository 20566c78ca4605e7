//! What a server answers.

use outbox::Entry;
use route_session::SessionId;
use route_values::Numbered;
use subj::{ConnId, SubId, Turn};

/// What a server answers to an event that it does not refuse. (Profile.)
#[derive(Drop)]
pub enum Answer {
    /// An attach: the connection.
    Attached(ConnId),
    /// A subscribe: the subscription that it opened.
    Opened(SubId),
    /// A subscribe that changed nothing: the connection has a subscription of this id open.
    AlreadyOpen,
    /// A publish.
    Issued {
        /// The turn of its job.
        turn: Turn,
        /// How many frames were put for peers.
        frames: usize,
    },
    /// A received message: the turn of its job.
    Routed(Turn),
    /// Received news: the number of the last change of interest that is known now.
    Heard(u64),
    /// A collect; and a drain, which is one change.
    Collected {
        /// How many changes of interest the peers are told.
        changes: usize,
        /// How many frames were put for peers.
        frames: usize,
        /// The peers that were cut since they had no room for all changes, by their places.
        cut: Vec<usize>,
    },
    /// A begin.
    Began {
        /// How many messages were placed.
        placed: usize,
        /// How many connections were shut for want of room.
        shut: usize,
    },
    /// A claim that was won: the member of the queue group that got the message.
    Won(SubId),
    /// A claim that another shard has won.
    Lost,
    /// A claim of a queue name without a candidate at the shard.
    Nobody,
    /// A dial or an accept: the session.
    OnSession(SessionId),
    /// An `INFO` or a `CONNECT`: the session is kept now.
    Kept {
        /// The session that was kept for the peer before, and stands no more.
        instead_of: Option<SessionId>,
    },
    /// What was taken of a connection.
    TakenEntries(Vec<Entry>),
    /// What was taken of a peer.
    TakenFrames(Vec<Numbered>),
    /// Anything else.
    Nothing,
}
