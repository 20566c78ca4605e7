//! What a server sends to its clients.

ghost use Rattle.std.specs.Prelude.{◌≡◌, IfOk};

use crate::err_texts::ErrText;
use crate::info::InfoData;
use std::alloc::AllocError;
use subj::{Message, Sid};

/// A line that answers a client. (NATS documentation, "Client Protocol".)
#[derive(Drop)]
pub enum ReplyFrame {
    /// The first line of a connection.
    Info(InfoData),
    /// The answer to `PING`.
    Pong,
    /// `+OK`, where the client wants it.
    Ok,
    /// `-ERR`.
    Err(ErrText),
}

impl ReplyFrame {
    /// A copy, which shares what it tells of a server.
    pub fn try_clone(&self) -> Result<ReplyFrame, AllocError>
        ensures { IfOk result (λ frame. frame ≡ self.now) }
    {
        match self {
            ReplyFrame::Info(info) => Ok(ReplyFrame::Info(info.try_clone()?)),
            ReplyFrame::Pong => Ok(ReplyFrame::Pong),
            ReplyFrame::Ok => Ok(ReplyFrame::Ok),
            ReplyFrame::Err(text) => Ok(ReplyFrame::Err(*text)),
        }
    }
}

/// A message on its way to one subscription.
#[derive(Drop)]
pub struct Delivery {
    /// What was published.
    pub message: Message,
    /// What the subscriber calls its subscription.
    pub sid: Sid,
    /// Whether a header block goes with it, where there is one.
    pub takes_headers: bool,
}

/// What a server sends to a client.
#[derive(Drop)]
pub enum ServerFrame {
    Reply(ReplyFrame),
    /// A message, by `MSG` or `HMSG`.
    Msg(Delivery),
}
