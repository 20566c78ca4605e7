//! A sink in memory, which can be made to fail.
ghost use Rattle.std.specs.Prelude.{◌≡◌, ◌-◌, ◌<◌, length, min, Some, IsErr, IfOk};
ghost use Rattle.std.specs.Io.{WritesAtMost};
ghost use Rattle.std.specs.Io.KnownBytes.{WriteAppends};
ghost use Rattle.wire_cut.specs.Flow.{CountsFailure};

use crate::count::Count;
use crate::sink::{Sink, WriteFailed};
use std::alloc::Global;
use std::marker::Model;

/// A sink that keeps what is written in memory. One of its writes can be made to fail; the writes
/// after it work again. A write for which no memory is left fails too.
pub struct MemSink {
    bytes: Vec<u8>,
    most: usize,
    fails_in: u64,
    failures: Count,
}

/// One call, also for crates above: `docs/PROVING.md`, "What a proof costs".
impl Drop for MemSink {
    fn drop(self) {
        let MemSink {
            bytes: _,
            most: _,
            fails_in: _,
            failures: _,
        } = self;
    }
}

impl Model for MemSink {
    ghost use Rattle.std.specs.Prelude.{◌<◌};
    ghost use Rattle.wire_cut.specs.Memory.{MemSinkState};

    ghost Value = { MemSinkState };

    ghost view = { λ s. record {
      bytes = s.bytes.items;
      most = s.most;
      fails_in = s.fails_in;
      failures = s.failures.value;
    } };

    ghost invariant = { λ s. 0 < s.most };
}

impl MemSink {
    ghost use Rattle.wire_cut.specs.Memory.{fresh_sink};

    /// A sink without bytes, which takes all the bytes of a write and fails only for want of
    /// memory.
    pub fn new(alloc: Global) -> MemSink
        ensures { result ≡ fresh_sink }
    {
        MemSink {
            bytes: Vec::new(alloc),
            most: usize::MAX,
            fails_in: 0,
            failures: Count::new(),
        }
    }

    /// The same sink, which takes at most `most` bytes a write.
    pub fn at_most(mut self, most: usize) -> MemSink
        requires { 0 < most }
        ensures { result ≡ record self { most = most } }
    {
        self.most = most;
        self
    }

    /// The same sink, whose write number `write` fails, counted from the next one as 1. None does
    /// for 0.
    pub fn failing_at(mut self, write: u64) -> MemSink
        ensures { result ≡ record self { fails_in = write } }
    {
        self.fails_in = write;
        self
    }

    /// The bytes that were written.
    pub fn bytes(&self) -> &[u8]
        ensures { result.now ≡ self.now.bytes }
    {
        &self.bytes
    }
}

impl Sink for MemSink {
    ghost written = { λ s. Some s.bytes };

    ghost failures = { λ s. s.failures };

    fn write(&mut self, bytes: &[u8]) -> Result<usize, WriteFailed>
        ensures bound { WritesAtMost result bytes.now }
        ensures some { 0 < length bytes.now → IfOk result (λ n. 0 < n) }
        ensures bytes { WriteAppends (Some self.old.bytes) (Some self.new.bytes) result bytes.now }
        ensures failures { CountsFailure result self.old.failures self.new.failures }
        ensures fails { self.old.fails_in ≡ 1 → IsErr result }
        ensures countdown { self.new.fails_in ≡ self.old.fails_in - 1 }
        ensures count { IfOk result (λ n. n ≡ min (length bytes.now) self.old.most) }
    {
        let fails = self.fails_in == 1;
        self.fails_in = self.fails_in.saturating_sub(1);
        let count = bytes.len().min(self.most);
        if fails || self.bytes.extend_from_slice(&bytes[..count]).is_err() {
            self.failures.rise();
            return Err(WriteFailed);
        }
        Ok(count)
    }
}
