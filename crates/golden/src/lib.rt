//! Cases as data: files in which each line has a call and the answer that was worked out by hand for it. A program
//! makes the calls; this crate reads the files, compares, and tells what differs.
//!
//! ```text
//! # subjects are read just where they are valid
//! case a_subject_has_limits
//! subject.read foo.bar => ok
//! subject.read <<a*1025>> => refused 4
//! case an_outbox_ends_at_its_room
//! outbox.new 2|100
//! times 2 outbox.put +OK => put
//! times 3..9 outbox.put +OK => put ; outbox.room # => no
//! ```
//!
//! - `case NAME` begins a case, in which nothing stands that an earlier one has made.
//! - Any other line is a call, ` => `, and its answer; a call alone is answered `ok`.
//! - Behind `times FIRST..LAST` calls with ` ; ` between them are made for each of these numbers, which stands for
//!   `#` in them and in their answers. `times N` is `times 1..N`. The first call that is answered otherwise ends
//!   the line.
//! - A call is its name, a blank, and its arguments with `|` between them.
//! - `<<TEXT*N>>` stands for the text N times, in calls and in answers.
//! - Bytes are written as text in which `\r`, `\n` and `\\` are CR, LF and a backslash, and `\xHH` is any other
//!   byte.
//! - Empty lines are passed over, and lines that begin with `#`.
//!
//! Read first: [`Call`], [`Answer`], [`Rig`]. The files in reading order: `lines` cuts a line, `words` its
//! arguments and what stands in tables, `calls` the name of a call, `texts` reads bytes and tells answers, `values`
//! reads names, messages and servers, and `playing` plays the files.
#![tactic(auto)]

mod calls;
mod lines;
mod playing;
mod texts;
mod values;
mod words;

pub use calls::{Call, call_of, push_line};
pub use playing::{Rig, play};
pub use texts::{Answer, bytes_of, put, shown, tell, tell_number, text, yes_or_no};
pub use values::{
    Life, headed_message_of, key_in, key_of, life_in, life_of, message_of, message_with,
    pattern_of, payload_of, queue_of, queues_of, server_of, sid_of, subject_of,
};
pub use words::{Words, named, number};
