//! The words of a program's command line, and the message if they are not a command.
//!
//! ```text
//! let words = words(&rt)?;
//! match command_of(rt.alloc(), &words) {
//!     Ok(command) => run(&rt, command),
//!     Err(error) => tell_line(&rt, &error),
//! }
//! ```
//!
//! Read first: [`words`].
#![tactic(auto)]

mod line;

pub use line::{
    BAD_LINE, line_status, report, status_of, tell_elsewhere, tell_line, tell_unreadable, words,
};
