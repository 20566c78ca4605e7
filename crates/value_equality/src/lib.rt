//! Tells whether two values are the same: keys, messages and numbered frames, which own their bytes and have no
//! `==`, and lines of clients and of routes.
//!
//! ```text
//! let copy = key.try_clone(alloc)?;
//! assert!(rt; is_same_key(&key, &copy));
//! let copy = message.try_clone()?;
//! assert!(rt; is_same_message(&message, &copy));
//! ```
//!
//! Each function answers true just where its two values are one to every contract. None takes memory.
//!
//! In reading order: `keys` and `messages` are compared part by part, and `frames` by these; `lines` is apart.
#![tactic(auto)]

mod frames;
mod keys;
mod lines;
mod messages;

pub use frames::is_same_frame;
pub use keys::{is_same_key, is_same_sid};
pub use lines::{is_same_answer, is_same_connect, is_same_info};
pub use messages::{is_same_message, is_same_pub};
