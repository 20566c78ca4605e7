//! What a cluster is asked.

use node_core::OwnEvent;
use route_session::SessionId;
use subj::Incarnation;

/// What a cluster is asked. (Profile.)
///
/// Servers are named by their places in the cluster, from 0, and frames by their numbers among all that were
/// sent, from 1; each may be any number, and one that is not there is refused.
#[derive(Drop)]
pub enum Event {
    /// The server starts. It knows nothing.
    Start {
        node: usize,
        inc: Incarnation,
    },
    /// The server stops: all that it knew is lost, and its subscriptions close.
    Stop {
        node: usize,
    },
    /// The server is handed a numbered frame that was sent, at any time and any number of times.
    Receive {
        node: usize,
        frame: usize,
    },
    /// The server is handed an `INFO` that was sent, on this session.
    OnInfo {
        node: usize,
        session: SessionId,
        frame: usize,
    },
    /// The server is handed a `CONNECT` that was sent, on this session.
    OnConnect {
        node: usize,
        session: SessionId,
        frame: usize,
    },
    /// What the server is asked by its own side.
    At {
        node: usize,
        event: OwnEvent,
    },
}
