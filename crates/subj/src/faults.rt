//! Why bytes are not a name.

ghost use Rattle.std.specs.Prelude.{◌≡◌};
ghost use Rattle.subj.specs.Faults.{name_fault_number};

use crate::limits::{MAX_NODE_NAME, MAX_QUEUE_NAME, MAX_SID, MAX_SUBJECT};
use thiserror::Error;

/// Why bytes are not a name.
///
/// The causes are looked for in the order `Empty`, `TooLong`, `BadByte`, `EmptyToken`, and then
/// `WildNotLast` in a pattern or `Wild` in a subject: the first that holds is told. (Profile.)
#[derive(Clone, Copy, Debug, PartialEq, Eq, Error)]
pub enum NameFault {
    /// There are no bytes.
    #[error("a name is empty")]
    Empty = 1,
    /// A subject or a pattern has a token without bytes.
    #[error("a token between dots is empty")]
    EmptyToken = 2,
    /// There is a byte that this kind of name may not have.
    #[error("a name has a byte that it may not have: NUL, a space, a tab, CR or LF, or in that of a server any but letters, digits, - and _")]
    BadByte = 3,
    /// There are more bytes than this kind of name may have.
    #[error("a name is too long: at most {subject} bytes for a subject or a pattern, {sid} for a subscription id, {queue} for a queue group, {server} for a server", subject = MAX_SUBJECT, sid = MAX_SID, queue = MAX_QUEUE_NAME, server = MAX_NODE_NAME)]
    TooLong = 4,
    /// A pattern has the token `>` before its last.
    #[error("the wildcard > is not the last token of a pattern")]
    WildNotLast = 5,
    /// A subject has a token `*` or `>`.
    #[error("a subject has a wildcard")]
    Wild = 6,
}

impl NameFault {
    /// The number that the router tells of this refusal.
    pub fn number(self) -> u16
        ensures { result ≡ name_fault_number self }
    {
        self as u16
    }
}
