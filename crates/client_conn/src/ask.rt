//! What a connection asks of its server, and what comes back.

use client_frames::{ErrText, ReplyFrame};
use subj::{Key, Pub, Sid};
use thiserror::Error;

/// What a connection asks of its server. Whoever hands it on knows which connection asks.
#[derive(Drop)]
pub enum ClientAction {
    /// To put this line for the client.
    Reply(ReplyFrame),
    /// To note whether the client takes headers from here on. (NATS documentation, "Client Protocol", "CONNECT": `headers`.)
    SetHeaders(bool),
    /// To put this text, and to close the connection behind it.
    Shut(ErrText),
    /// To open a subscription, alone or as a member of a queue group.
    Subscribe { key: Key, sid: Sid },
    /// To close a subscription, at once or behind the message that makes so many since it was opened.
    Unsubscribe { sid: Sid, max: Option<u64> },
    /// To publish.
    Publish(Pub),
}

/// Why a server refuses an ask, as far as the connection cares. (Profile.)
#[derive(Clone, Copy, Debug, PartialEq, Eq, Error)]
pub enum Refusal {
    /// Too many publications are under way: the same is asked again.
    #[error("too many publications are under way")]
    Busy,
    /// There is no place for one more subscription, which the client is told.
    #[error("there is no place for one more subscription")]
    TooManySubscriptions,
    /// A counter has come to its limit, which the client is told.
    #[error("a counter has come to its limit")]
    NumbersSpent,
    /// The publication would reach more queue groups than one may, which the client is told.
    #[error("the publication would reach too many queue groups")]
    TooManyQueueGroups,
    /// The server drains and takes no subscription any more, which the client is told.
    #[error("the server drains")]
    Draining,
    /// Any other: nothing is asked any more.
    #[error("the server refuses it")]
    Other,
}
