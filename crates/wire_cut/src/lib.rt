//! Cuts a stream of bytes into lines and payloads; its traits [`Source`] and [`Sink`] are where bytes come from and
//! go to.
//!
//! ```text
//! let mut cutter = Cutter::new(alloc, 4_096, 1_048_576);
//! cutter.feed(b"PING\r\n")?;
//! if let Some(Piece::Line(line)) = cutter.next()? {
//!     assert_eq!(rt; line, b"PING".as_slice());
//! }
//! ```
//!
//! Read first: [`Cutter`], [`Piece`], [`Source`]. The files in reading order: `piece` and `faults` are what a
//! cutter gives, `window` is its buffer, and `cutter` cuts. `source` and `sink` are where bytes come from and go
//! to, in memory (`mem_source`, `mem_sink`) or over `std` (`raw`).
#![tactic(auto)]

mod count;
mod cutter;
mod faults;
mod laws;
mod mem_sink;
mod mem_source;
mod piece;
mod raw;
mod sink;
mod source;
mod window;

pub use count::Count;
pub use cutter::Cutter;
pub use faults::{CutFault, FeedFault, FillFault};
pub use laws::{cutter_follows_grammar, stream_is_read_in_parts};
pub use mem_sink::MemSink;
pub use mem_source::MemSource;
pub use piece::Piece;
pub use raw::Raw;
pub use sink::{Sink, WriteFailed};
pub use source::{ReadFailed, Source};
