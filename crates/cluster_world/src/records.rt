//! What was done in a cluster, entry by entry. Steps are counted from 1.

use shard_core::Placed;
use subj::{ConnId, Incarnation, Key, Message, PubId, Sid, SubId};

/// A publish that a server accepted.
#[derive(Drop)]
pub struct Publication {
    /// The step that accepted it.
    pub step: u64,
    /// What it is called.
    pub id: PubId,
    /// What it says; its bytes are shared.
    pub message: Message,
    /// The connection that published it, at the server that it came from.
    pub publisher: ConnId,
    /// Whether that connection's own subscriptions may get it.
    pub echo: bool,
}

/// A subscription in the whole cluster.
#[derive(Clone, Copy, PartialEq, Eq)]
pub struct LifeId {
    /// The place of its server.
    pub node: usize,
    /// The incarnation of its server.
    pub inc: Incarnation,
    /// Its name there.
    pub sub: SubId,
}

/// A subscription from its opening on.
#[derive(Drop)]
pub struct Life {
    /// What it is called.
    pub id: LifeId,
    /// The connection that opened it.
    pub conn: ConnId,
    /// Its pattern, and its queue name, if any.
    pub key: Key,
    /// What its client calls it.
    pub sid: Sid,
    /// The step that opened it.
    pub opened: u64,
    /// The step that closed it; none while it is open.
    pub closed: Option<u64>,
}

/// What one step put into outboxes of connections at a server, in order. The messages among the entries are
/// the placements; answers and last lines are none.
#[derive(Drop)]
pub struct Placements {
    /// The step.
    pub step: u64,
    /// The place of the server.
    pub node: usize,
    /// The incarnation of the server.
    pub inc: Incarnation,
    /// The entries, each with its connection.
    pub entries: Vec<Placed>,
}

/// An incarnation that was started at a server.
#[derive(Clone, Copy, PartialEq, Eq)]
pub(crate) struct Started {
    pub(crate) node: usize,
    pub(crate) inc: Incarnation,
}
