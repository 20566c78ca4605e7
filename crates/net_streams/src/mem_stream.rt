//! A stream in memory, which can be made to fail.

ghost use Rattle.std.specs.Prelude.{◌≡◌, ◌↔◌, ◌+◌, ◌-◌, ◌<◌, ◌++◌, length, min, take, drop, true, false, Err, IfOk, IfErr, OnOk, OnErr};
ghost use Rattle.std.specs.Io.{ReadsAtMost, WritesAtMost};
ghost use Rattle.net_streams.specs.Writes.{came_of};
ghost use Rattle.net_streams.specs.Memory.{any_count, after_call, after_failure, after_fault, Gave, Wrote};

use crate::stream::{Stream, StreamFault};
use std::alloc::{AllocError, Global};
use std::marker::Model;

/// A stream in memory: it is fed what the other end sends, and keeps what was written. One of its calls can
/// be made to fail, and all calls behind it fail then too; those that failed are counted. It may take only so
/// many bytes altogether, as if its other end read no more.
pub struct MemStream {
    input: Vec<u8>,
    at: usize,
    has_ended: bool,
    written: Vec<u8>,
    room: usize,
    most: usize,
    fails_in: u64,
    has_failed: bool,
    failed_calls: u64,
}

/// One call, also for crates above: `docs/PROVING.md`, "What a proof costs".
impl Drop for MemStream {
    fn drop(self) {
        let MemStream {
            input: _,
            at: _,
            has_ended: _,
            written: _,
            room: _,
            most: _,
            fails_in: _,
            has_failed: _,
            failed_calls: _,
        } = self;
    }
}

impl Model for MemStream {
    ghost use Rattle.std.specs.Prelude.{◌≤◌, drop, vec_len};
    ghost use Rattle.net_streams.specs.Memory.{MemStreamState};

    ghost Value = { MemStreamState };

    ghost view = { λ s. record {
      unread = drop s.at s.input.items;
      has_ended = s.has_ended;
      written = s.written.items;
      room = s.room;
      most = s.most;
      fails_in = s.fails_in;
      has_failed = s.has_failed;
      failed_calls = s.failed_calls;
    } };

    ghost invariant = { λ s. s.at ≤ vec_len s.input };
}

impl MemStream {
    ghost use Rattle.net_streams.specs.Memory.{fresh_stream};

    /// A stream that gives nothing yet, takes all, and never fails.
    pub fn new(alloc: Global) -> MemStream
        ensures { result ≡ fresh_stream }
    {
        MemStream {
            input: Vec::new(alloc),
            at: 0,
            has_ended: false,
            written: Vec::new(alloc),
            room: usize::MAX,
            most: usize::MAX,
            fails_in: 0,
            has_failed: false,
            failed_calls: 0,
        }
    }

    /// The same stream, whose call number `call` fails, reads and writes counted together and the next one
    /// as 1. None does for 0.
    pub fn failing_at(mut self, call: u64) -> MemStream
        ensures { result ≡ record self { fails_in = call } }
    {
        self.fails_in = call;
        self
    }

    /// The same stream, which gives and takes at most so many bytes a call.
    pub fn at_most(mut self, most: usize) -> MemStream
        ensures { result ≡ record self { most = most } }
    {
        self.most = most;
        self
    }

    /// The same stream, which takes only so many bytes more until [`MemStream::grant`] gives more room.
    pub fn with_room(mut self, room: usize) -> MemStream
        ensures { result ≡ record self { room = room } }
    {
        self.room = room;
        self
    }

    /// Takes so many bytes more, up to the largest `usize`.
    pub fn grant(&mut self, room: usize)
        ensures { self.new ≡ record self.old { room = min (self.old.room + room) any_count } }
    {
        self.room = self.room.saturating_add(room);
    }

    /// The other end sends these bytes. Want of memory changes nothing.
    pub fn feed(&mut self, bytes: &[u8]) -> Result<(), AllocError>
        ensures ok { OnOk result
            (self.new ≡ record self.old { unread = self.old.unread ++ bytes.now }) }
        ensures err { OnErr result (self.new ≡ self.old) }
    {
        self.input.extend_from_slice(bytes)
    }

    /// The other end sends nothing any more.
    pub fn end(&mut self)
        ensures { self.new ≡ record self.old { has_ended = true } }
    {
        self.has_ended = true;
    }

    /// What was written, in order.
    pub fn written(&self) -> &[u8]
        ensures { result.now ≡ self.now.written }
    {
        self.written.as_slice()
    }

    /// How many of its calls have failed. One that would have to wait has not.
    pub fn failed_calls(&self) -> u64
        ensures { result ≡ self.now.failed_calls }
    {
        self.failed_calls
    }

    /// Counts a call that fails.
    fn failed(&mut self) -> StreamFault
        ensures fault { result ≡ StreamFault.Failed }
        ensures counted { self.new ≡ after_failure self.old }
    {
        self.failed_calls = self.failed_calls.saturating_add(1);
        StreamFault::Failed
    }

    /// Counts a call that is made now, and answers whether it fails.
    fn fails(&mut self) -> bool
        ensures counted { self.new ≡ after_call self.old }
        ensures fails { result ≡ self.new.has_failed }
    {
        if self.fails_in == 1 {
            self.has_failed = true;
        }
        self.fails_in = self.fails_in.saturating_sub(1);
        self.has_failed
    }
}

impl Stream for MemStream {
    ghost gave = { Gave };

    ghost wrote = { Wrote };

    fn read(&mut self, buffer: &mut [u8]) -> Result<usize, StreamFault>
        ensures bound { ReadsAtMost result buffer.new }
        ensures gave { Gave self.old (came_of result buffer.new) self.new }
        ensures fails { (result ≡ Err StreamFault.Failed)
            ↔ ((after_call self.old).has_failed ≡ true) }
        ensures waits { result ≡ Err StreamFault.WouldBlock
            → (min (min (length self.old.unread) (length buffer.old)) self.old.most ≡ 0)
            × (self.old.has_ended ≡ false) }
        ensures count { IfOk result (λ n.
            n ≡ min (min (length self.old.unread) (length buffer.old)) self.old.most) }
        ensures ok { IfOk result (λ n.
            self.new ≡ record (after_call self.old) { unread = drop n self.old.unread }) }
        ensures err { IfErr result (λ fault. self.new ≡ after_fault fault (after_call self.old)) }
    {
        if self.fails() {
            return Err(self.failed());
        }
        let unread = &self.input[self.at..];
        let count = unread.len().min(buffer.len()).min(self.most);
        if count == 0 && !self.has_ended {
            return Err(StreamFault::WouldBlock);
        }
        buffer[..count].copy_from_slice(&unread[..count]);
        self.at += count;
        Ok(count)
    }

    fn write(&mut self, bytes: &[u8]) -> Result<usize, StreamFault>
        ensures bound { WritesAtMost result bytes.now }
        ensures wrote { Wrote self.old (came_of result bytes.now) self.new }
        ensures fails { (after_call self.old).has_failed ≡ true → result ≡ Err StreamFault.Failed }
        ensures waits { result ≡ Err StreamFault.WouldBlock
            → (min (min (length bytes.now) self.old.room) self.old.most ≡ 0)
            × (0 < length bytes.now) }
        ensures count { IfOk result (λ n.
            n ≡ min (min (length bytes.now) self.old.room) self.old.most) }
        ensures ok { IfOk result (λ n.
            self.new ≡ record (after_call self.old) {
              written = self.old.written ++ take n bytes.now;
              room = self.old.room - n;
            }) }
        ensures err { IfErr result (λ fault. self.new ≡ after_fault fault (after_call self.old)) }
    {
        if self.fails() {
            return Err(self.failed());
        }
        let count = bytes.len().min(self.room).min(self.most);
        if count == 0 && !bytes.is_empty() {
            return Err(StreamFault::WouldBlock);
        }
        if self.written.extend_from_slice(&bytes[..count]).is_err() {
            return Err(self.failed());
        }
        self.room = self.room.saturating_sub(count);
        Ok(count)
    }
}
