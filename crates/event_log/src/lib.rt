//! Writes the events of a process's servers to standard error: one line for each event, with the time, the level,
//! the server and what happened.
//!
//! ```text
//! let log = EventLog::start(rt, alloc, LevelFilter::Info)?;
//! log.tell(rt, server, Event::Stopped);
//! log.end(rt);
//! ```
//!
//! Servers push lines to a queue and wait for nothing but its lock; a thread of its own writes them. Of one kind at
//! most ten lines are told in a second, and a line for which the queue has no room is lost: both are counted, and
//! the counts are told.
//!
//! Read first: [`EventLog`], [`Backlog`], [`Form`]. The files in reading order: `backlog` says how many lines of a
//! kind are told, and is the queue with its counts, `lines` how a line is written, and `writing` is the lock, the
//! thread that writes, and the end.
#![tactic(auto)]

mod backlog;
mod lines;
mod writing;

pub use backlog::{
    Backlog, Counts, Fate, LINES, LINES_A_SECOND, Line, Rate, Rates, at_most_ten_in_a_second,
};
pub use lines::{CountText, EventText, Form, LostText, PROCESS, Stamp, count_form, lost_form};
pub use writing::{EventLog, StartFault};
