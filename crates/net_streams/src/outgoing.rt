//! What is on its way to a stream.

ghost use Rattle.std.specs.Prelude.{◌≡◌, ◌↔◌, ℕ, ◌≤◌, List, [], ◌++◌, length, drop, vec_len, vec_capacity, OnOk, OnErr, IsTrue};
ghost use Rattle.net_streams.specs.Writes.{HasWritten};

use crate::stream::Stream;
use crate::wire::Wire;
use std::alloc::{AllocError, Global};
use std::marker::Model;

/// The most bytes of a buffer that stays while nothing is unwritten.
const KEPT_BYTES: usize = 1_024;

/// Bytes that a stream did not take yet. It takes no memory while there are none, but for a small buffer.
pub struct Outgoing {
    bytes: Vec<u8>,
    start: usize,
}

/// One call, also for crates above: `docs/PROVING.md`, "What a proof costs".
impl Drop for Outgoing {
    fn drop(self) {
        let Outgoing { bytes: _, start: _ } = self;
    }
}

impl Model for Outgoing {
    ghost Value = { List ℕ };

    ghost view = { λ o. drop o.start o.bytes.items };

    ghost invariant = { λ o. o.start ≤ vec_len o.bytes };
}

impl Outgoing {
    /// Nothing is unwritten.
    pub fn new(alloc: Global) -> Outgoing
        ensures { result ≡ [] }
    {
        Outgoing {
            bytes: Vec::new(alloc),
            start: 0,
        }
    }

    /// Whether nothing is unwritten.
    pub fn is_empty(&self) -> bool
        ensures { IsTrue result ↔ (self.now ≡ []) }
    {
        self.start >= self.bytes.len()
    }

    /// How many bytes are unwritten.
    pub fn len(&self) -> usize
        ensures { result ≡ length self.now }
    {
        self.bytes.len() - self.start
    }

    /// Puts bytes behind those that are unwritten. Want of memory changes nothing.
    pub fn append(&mut self, bytes: &[u8]) -> Result<(), AllocError>
        ensures ok { OnOk result (self.new ≡ self.old ++ bytes.now) }
        ensures err { OnErr result (self.new ≡ self.old) }
    {
        if bytes.is_empty() {
            return Ok(());
        }
        self.close_up();
        self.bytes.extend_from_slice(bytes)
    }

    /// Forgets the bytes that are written, once they are as many as those that are not: so each byte is moved
    /// once for one that was written.
    fn close_up(&mut self)
        ensures { self.new ≡ self.old }
    {
        let unwritten = self.len();
        if self.start > 0 && self.start >= unwritten {
            self.bytes.copy_within(self.start.., 0);
            self.bytes.truncate(unwritten);
            self.start = 0;
        }
    }

    /// Writes what the stream takes: a front of the bytes that are unwritten, and the others stay, in order. It stops as
    /// [`Wire::write`] does.
    pub fn write_to<S: Stream>(&mut self, wire: &mut Wire<S>)
        ensures written { HasWritten S.wrote self.old wire.old.has_failed wire.old.stream self.new
            wire.new.has_failed wire.new.stream }
        ensures others { wire.new
            ≡ record wire.old { stream = wire.new.stream; has_failed = wire.new.has_failed } }
    {
        let left = wire.write(&self.bytes[self.start..]).len();
        self.start = self.bytes.len() - left;
        if left == 0 {
            self.start = 0;
            let_go(&mut self.bytes);
        }
    }
}

/// Empties a buffer, and gives its memory back where it has much.
fn let_go(bytes: &mut Vec<u8>)
    ensures items { bytes.new.items ≡ [] }
    ensures few { vec_capacity bytes.new ≤ KEPT_BYTES }
{
    if bytes.capacity() > KEPT_BYTES {
        *bytes = Vec::new(*bytes.allocator());
    } else {
        bytes.clear();
    }
}
