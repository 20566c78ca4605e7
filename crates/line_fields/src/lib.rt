//! Reads the fields of a line of a client or a route, and helps to write such lines.
//!
//! ```text
//! let (first, rest) = split_line(b"UNSUB 7").ok_or("a word")?;
//! assert!(rt; is_word(b"UNSUB", first));
//! let (second, _) = split_field(rest).ok_or("an id")?;
//! assert_eq!(rt; read_digits(second, MAX_DIGITS), Some(7));
//! ```
//!
//! Read first: [`split_line`], [`read_digits`], [`is_word`]. The files in reading order: `splitting` has the fields
//! of a line, `digits` the numbers in them, and `laws` what holds of both; `appending` is what lines are written
//! with.
#![tactic(auto)]

mod appending;
mod digits;
mod laws;
mod splitting;

pub use appending::{CR_LF, append_reserved};
pub use digits::{MAX_DIGITS, read_digits};
pub use laws::line_is_its_fields;
pub use splitting::{fields, is_word, split_field, split_line};
