//! What the calls of a server tell.

use subj::Turn;

/// A publication that was issued.
#[derive(Clone, Copy)]
pub struct Issued {
    /// The turn of its job.
    pub turn: Turn,
    /// How many frames were put for peers.
    pub frames: usize,
}

/// What has become of a frame of a peer.
#[derive(Clone, Copy)]
pub enum Received {
    /// Of a message, the turn of its job.
    Routed(Turn),
    /// Of news, the number of the last change of interest that was heard.
    Heard(u64),
}

/// What the peers were told of a shard's subscriptions.
#[derive(Drop)]
pub struct CollectResult {
    /// How many changes of interest.
    pub changes: usize,
    /// How many frames were put.
    pub frames: usize,
    /// The peers that were cut, since they had no room for all of the changes; by their places, in order.
    pub cut: Vec<usize>,
}
