//! What waits to be written to a client: a list of entries within limits.
//!
//! ```text
//! let mut outbox = Outbox::new(alloc, OUTBOX_ENTRIES, OUTBOX_BYTES)?;
//! if outbox.room_for(b"PONG") {
//!     outbox.stage_reply(b"PONG")?;
//!     outbox.commit();
//! }
//! ```
//!
//! Read first: [`Entry`], [`Outbox`], [`RunTails`]. The files in reading order: `entries` is what waits,
//! `run_tails` what the messages of a run have of their own, `kept` how one entry is kept, `byte_queue` how the
//! bytes of all are, `tail_marks`, `kept_runs`, `kept_queue` and `kept_entries` what they are, `entry_queue` is
//! both, and `outbox` is the outbox.
#![tactic(auto)]

mod byte_queue;
mod entries;
mod entry_queue;
mod kept;
mod kept_entries;
mod kept_queue;
mod kept_runs;
mod outbox;
mod run_tails;
mod tail_marks;

pub use entries::{Entry, Mode, Tag};
pub use entry_queue::COPIED_BYTES;
pub use outbox::{LAST_LINE_TEXT, Outbox};
pub use run_tails::RunTails;
