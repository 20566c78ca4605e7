//! The lines that clients and a server send each other: it reads `PUB`, `SUB` and the like, and writes `MSG`, `+OK`
//! and `-ERR`.
//!
//! ```text
//! let mut texts = SharedTexts::new(alloc);
//! let mut out = Vec::new(alloc);
//! if let ClientLine::Ping = decode_line(&mut texts, b"PING")? {
//!     encode(&ServerFrame::Reply(ReplyFrame::Pong), &mut out)?;
//! }
//! ```
//!
//! Read first: [`ClientLine`], [`ReplyFrame`], [`ErrText`]. The files in reading order: `decoding` reads a line, as
//! a `client_line` or one of the `faults`, unless it is the `last_line` again; `err_texts` says what is told of
//! these. `server_frames` are what is sent, which `server_info`, `info`, `encoding` and `message_parts` write.
#![tactic(auto)]

mod client_line;
mod decoding;
mod encoding;
mod err_texts;
mod faults;
mod info;
mod last_line;
mod laws;
mod message_parts;
mod server_frames;
mod server_info;

pub use client_line::{Awaited, ClientLine, Options, PubHead};
pub use decoding::{SharedTexts, decode_line};
pub use encoding::{
    MAX_MESSAGE_LINE, MessageLines, encode, message_body, message_len, message_line, reply_line,
};
pub use err_texts::ErrText;
pub use faults::LineFault;
pub use info::{InfoData, info_text};
pub use laws::{line_has_one_meaning, stream_is_read_in_parts};
pub use message_parts::{MAX_HEAD, MAX_TAIL, MessageTails, message_head};
pub use server_frames::{Delivery, ReplyFrame, ServerFrame};
pub use server_info::ServerInfo;
