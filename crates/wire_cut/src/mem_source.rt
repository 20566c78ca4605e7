//! A source in memory, which can be made to fail.
ghost use Rattle.std.specs.Prelude.{◌≡◌, ◌+◌, ◌-◌, ◌<◌, ◌↔◌, length, min, Some, IsErr, IfOk};
ghost use Rattle.std.specs.Io.{ReadsAtMost};
ghost use Rattle.std.specs.Io.KnownBytes.{ReadConsumes};
ghost use Rattle.wire_cut.specs.Flow.{CountsFailure};

use crate::count::Count;
use crate::source::{ReadFailed, Source};
use std::marker::Model;

/// A source of bytes in memory. One of its reads can be made to fail; the reads after it work
/// again.
pub struct MemSource {
    bytes: Vec<u8>,
    at: usize,
    most: usize,
    fails_in: u64,
    reads: Count,
    failures: Count,
}

/// One call, also for crates above: `docs/PROVING.md`, "What a proof costs".
impl Drop for MemSource {
    fn drop(self) {
        let MemSource {
            bytes: _,
            at: _,
            most: _,
            fails_in: _,
            reads: _,
            failures: _,
        } = self;
    }
}

impl Model for MemSource {
    ghost use Rattle.std.specs.Prelude.{◌<◌, ◌≤◌, drop, vec_len};
    ghost use Rattle.wire_cut.specs.Memory.{MemSourceState};

    ghost Value = { MemSourceState };

    ghost view = { λ s. record {
      rest = drop s.at s.bytes.items;
      most = s.most;
      fails_in = s.fails_in;
      reads = s.reads.value;
      failures = s.failures.value;
    } };

    ghost invariant = { λ s. (s.at ≤ vec_len s.bytes) × (0 < s.most) };
}

impl MemSource {
    ghost use Rattle.wire_cut.specs.Memory.{fresh_source};

    /// A source of these bytes, which never fails and gives as many bytes a read as there is room
    /// for.
    pub fn new(bytes: Vec<u8>) -> MemSource
        ensures { result ≡ fresh_source bytes.items }
    {
        MemSource {
            bytes,
            at: 0,
            most: usize::MAX,
            fails_in: 0,
            reads: Count::new(),
            failures: Count::new(),
        }
    }

    /// The same source, which gives at most `most` bytes a read.
    pub fn at_most(mut self, most: usize) -> MemSource
        requires { 0 < most }
        ensures { result ≡ record self { most = most } }
    {
        self.most = most;
        self
    }

    /// The same source, whose read number `read` fails, counted from the next one as 1. None does
    /// for 0.
    pub fn failing_at(mut self, read: u64) -> MemSource
        ensures { result ≡ record self { fails_in = read } }
    {
        self.fails_in = read;
        self
    }
}

impl Source for MemSource {
    ghost remaining = { λ s. Some s.rest };

    ghost reads = { λ s. s.reads };

    ghost failures = { λ s. s.failures };

    fn read(&mut self, buffer: &mut [u8]) -> Result<usize, ReadFailed>
        ensures bound { ReadsAtMost result buffer.new }
        ensures bytes { ReadConsumes (Some self.old.rest) (Some self.new.rest) result buffer.new }
        ensures reads { self.new.reads ≡ self.old.reads + 1 }
        ensures failures { CountsFailure result self.old.failures self.new.failures }
        ensures fails { IsErr result ↔ (self.old.fails_in ≡ 1) }
        ensures countdown { self.new.fails_in ≡ self.old.fails_in - 1 }
        ensures count { IfOk result (λ n.
            n ≡ min (min (length self.old.rest) (length buffer.old)) self.old.most) }
    {
        self.reads.rise();
        let fails = self.fails_in == 1;
        self.fails_in = self.fails_in.saturating_sub(1);
        if fails {
            self.failures.rise();
            return Err(ReadFailed);
        }
        let rest = &self.bytes[self.at..];
        let count = rest.len().min(buffer.len()).min(self.most);
        buffer[..count].copy_from_slice(&rest[..count]);
        self.at += count;
        Ok(count)
    }
}
