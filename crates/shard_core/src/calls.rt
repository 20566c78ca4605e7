//! What the calls of a shard answer.

use crate::faults::ShardFault;
use outbox::Entry;
use subj::{ConnId, Failure, Job, SubId};

/// What a subscribe did.
#[derive(Clone, Copy, PartialEq, Eq)]
pub enum Subscribed {
    /// It opened this subscription.
    New(SubId),
    /// Nothing: the connection has a subscription of this id open.
    Same,
}

/// What a reply closed.
#[derive(Drop)]
pub struct Closed {
    /// Whether the connection was shut for want of room.
    pub shut: bool,
    /// The subscriptions that closed with it, in order.
    pub ended: Vec<SubId>,
}

/// An entry, and the connection that it was put for.
#[derive(Drop)]
pub struct Placed {
    pub conn: ConnId,
    pub entry: Entry,
    /// Whether the connection took headers when a message was put for it; false for an answer or a last line.
    pub headers: bool,
}

/// What a begin did.
#[derive(Drop)]
pub struct Begun {
    /// How many messages were placed.
    pub given: usize,
    /// Copies of the entries that were put, where they were asked for; else none. They are the messages, in
    /// the order of placing, and behind them the last lines of the connections that were shut, in order.
    pub put: Vec<Placed>,
    /// The connections that were shut for want of room, in order.
    pub closed: Vec<ConnId>,
    /// The subscriptions that closed, in order: with the message that reached their maximum, or with
    /// their connections.
    pub ended: Vec<SubId>,
}

/// A member of a queue group that was chosen, and stands until the next call.
#[derive(Drop)]
pub struct Candidate {
    pub sub: SubId,
    /// A copy of the entry that is kept for it, where it was asked for; else none.
    pub placed: Option<Placed>,
}

/// A job that was not begun, as it was handed in.
#[derive(Drop)]
pub struct BeginFault {
    pub job: Job,
    pub cause: Failure<ShardFault>,
}
