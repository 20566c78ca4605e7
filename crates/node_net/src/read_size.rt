//! How many bytes are read of a connection at once.

use crate::limits::{FIRST_READ, READ_GROWTH};
use subj::READ_BYTES;

/// How many bytes are read of a connection at once: few of one that sends little, so that its buffer is small.
#[derive(Clone, Copy)]
pub(crate) struct ReadSize {
    bytes: usize,
    /// Whether the last read gave little of what it might.
    was_little: bool,
}

impl ReadSize {
    /// That of a connection that is new, or has rested.
    pub fn first() -> ReadSize {
        ReadSize {
            bytes: FIRST_READ,
            was_little: false,
        }
    }

    /// At most so many bytes.
    pub fn bytes(self) -> usize {
        self.bytes
    }

    /// Whether it is greater than at first.
    pub fn has_grown(self) -> bool {
        self.bytes > FIRST_READ
    }

    /// The next one, behind a read that gave so many bytes. It is greater where these are all that it might give. It is smaller only behind a
    /// second read in a row that gave little: messages that are just longer than a read would else be read in two parts each.
    pub fn behind(self, count: usize) -> ReadSize {
        if count >= self.bytes {
            return ReadSize {
                bytes: self.bytes.saturating_mul(READ_GROWTH).min(READ_BYTES),
                was_little: false,
            };
        }
        let is_little = count < self.bytes / READ_GROWTH;
        if is_little && self.was_little {
            return ReadSize {
                bytes: (self.bytes / READ_GROWTH).max(FIRST_READ),
                was_little: false,
            };
        }
        ReadSize {
            bytes: self.bytes,
            was_little: is_little,
        }
    }
}
