//! Bytes in order, put behind and dropped in front.

ghost use Rattle.std.specs.Prelude.{◌≡◌, ◌+◌, ◌<◌, ◌≤◌, ◌^◌, ◌*◌, ◌++◌, [], vec_len, vec_capacity, length, take, drop, Some, None, IfOk, OnOk, OnErr};
ghost use Rattle.outbox.specs.Bytes.{bytes_of};
ghost use Rattle.outbox.specs.Views.{tail_bytes, run_text};

use crate::entries::Entry;
use crate::run_tails::RunTails;
use line_fields::{CR_LF, append_reserved};
use std::alloc::{AllocError, Global};
use std::marker::Model;
use std::mem;

/// From how many bytes on they are handed over in their buffer, where all are moved: fewer are copied, so
/// that large buffers don't go around for little.
const HANDED_OVER: usize = 4_096;

/// The most bytes of room that stay while nothing waits.
const KEPT_BYTES: usize = 1_024;

/// The most bytes of room that stay where all bytes were moved, for those that come next.
const MOVED_BYTES: usize = 65_536;

/// Puts a line or a payload with its CR LF behind the bytes that are there, where there is room for it.
#[inline(always)]
fn append_ended(bytes: &[u8], out: &mut Vec<u8>)
    requires { vec_len out.old + length bytes.now + 2 ≤ vec_capacity out.old }
    ensures items { out.new.items ≡ out.old.items ++ bytes_of bytes.now None }
    ensures len { vec_len out.new ≡ vec_len out.old + length bytes.now + 2 }
    ensures capacity { vec_capacity out.old ≤ vec_capacity out.new }
{
    append_reserved(out, bytes);
    out.push_reserved(b'\r');
    out.push_reserved(b'\n');
}

/// Moves the bytes from this place on to the front, and drops those that are left behind.
fn move_to_front(bytes: &mut Vec<u8>, start: usize)
    requires { start ≤ vec_len bytes.old }
    ensures { bytes.new.items ≡ drop start bytes.old.items }
{
    let kept = bytes.len() - start;
    bytes.copy_within(start.., 0);
    bytes.truncate(kept);
}

/// Bytes that are put behind one another and dropped in front, in one buffer that is used again.
///
/// Seen as the list of the bytes.
#[derive(Drop)]
pub(crate) struct ByteQueue {
    bytes: Vec<u8>,
    /// Where the first one stands.
    start: usize,
}

impl Model for ByteQueue {
    ghost use Rattle.std.specs.Prelude.{◌≤◌, ℕ, List, drop, vec_len};

    ghost Value = { List ℕ };

    ghost view = { λ q. drop q.start q.bytes.items };

    ghost invariant = { λ q. q.start ≤ vec_len q.bytes };
}

impl ByteQueue {
    /// No bytes.
    pub(crate) fn new(alloc: Global) -> ByteQueue
        ensures { result ≡ [] }
    {
        ByteQueue {
            bytes: Vec::new(alloc),
            start: 0,
        }
    }

    /// All bytes.
    pub(crate) fn as_slice(&self) -> &[u8]
        ensures { result.now ≡ self.now }
    {
        &self.bytes[self.start..]
    }

    /// Puts the bytes of an entry behind. Want of memory leaves all as it was.
    pub(crate) fn push_entry(&mut self, entry: &Entry) -> Result<(), AllocError>
        ensures ok { OnOk result (self.new ≡ self.old ++ entry.now.bytes) }
        ensures err { OnErr result (self.new ≡ self.old) }
    {
        entry.append_to(&mut self.bytes)
    }

    /// Puts a line behind, given without its CR LF. Gives how many bytes it has. Want of memory leaves all as it
    /// was.
    pub(crate) fn push_line(&mut self, line: &[u8]) -> Result<usize, AllocError>
        requires { length line.now + 2 < 2 ^ 64 }
        ensures len { IfOk result (λ len. len ≡ length (bytes_of line.now None)) }
        ensures ok { OnOk result (self.new ≡ self.old ++ bytes_of line.now None) }
        ensures err { OnErr result (self.new ≡ self.old) }
    {
        let len = line.len() + CR_LF.len();
        self.bytes.reserve(len)?;
        append_ended(line, &mut self.bytes);
        Ok(len)
    }

    /// Puts a message behind: its line and its payload, given without their CR LF. Gives how many bytes it
    /// has. Want of memory leaves all as it was.
    #[inline(always)]
    pub(crate) fn push_message(&mut self, line: &[u8], payload: &[u8]) -> Result<usize, AllocError>
        requires { length line.now + length payload.now + 4 < 2 ^ 64 }
        ensures len { IfOk result (λ len. len ≡ length (bytes_of line.now (Some payload.now))) }
        ensures ok { OnOk result (self.new ≡ self.old ++ bytes_of line.now (Some payload.now)) }
        ensures err { OnErr result (self.new ≡ self.old) }
    {
        let len = line.len() + payload.len() + 2 * CR_LF.len();
        self.bytes.reserve(len)?;
        append_ended(line, &mut self.bytes);
        append_ended(payload, &mut self.bytes);
        Ok(len)
    }

    /// Puts these bytes behind, given in two parts. Gives how many they are together. Want of memory leaves all as it
    /// was.
    #[inline(always)]
    pub(crate) fn push_parts(&mut self, head: &[u8], tail: &[u8]) -> Result<usize, AllocError>
        requires { length head.now + length tail.now < 2 ^ 64 }
        ensures len { IfOk result (λ len. len ≡ length (head.now ++ tail.now)) }
        ensures ok { OnOk result (self.new ≡ self.old ++ (head.now ++ tail.now)) }
        ensures err { OnErr result (self.new ≡ self.old) }
    {
        let len = head.len() + tail.len();
        self.bytes.reserve(len)?;
        append_reserved(&mut self.bytes, head);
        append_reserved(&mut self.bytes, tail);
        Ok(len)
    }

    /// Puts the messages of a run behind, each with this head. Gives how many bytes they have together. Want of memory leaves
    /// all as it was.
    pub(crate) fn push_run(&mut self, head: &[u8], tails: &RunTails) -> Result<usize, AllocError>
        requires { length head.now * length tails.now + tail_bytes tails.now < 2 ^ 64 }
        ensures len { IfOk result (λ len.
            len ≡ length head.now * length tails.now + tail_bytes tails.now) }
        ensures ok { OnOk result (self.new ≡ self.old ++ run_text head.now tails.now) }
        ensures err { OnErr result (self.new ≡ self.old) }
    {
        let len = tails.run_len(head.len()).unwrap();
        self.bytes.reserve(len)?;
        tails.append_run(head, &mut self.bytes);
        Ok(len)
    }

    /// Keeps the first bytes.
    pub(crate) fn truncate(&mut self, kept: usize)
        requires { kept ≤ length self.old }
        ensures { self.new ≡ take kept self.old }
    {
        self.bytes.truncate(self.start + kept);
    }

    /// Drops the first bytes.
    pub(crate) fn drop_front(&mut self, count: usize)
        requires { count ≤ length self.old }
        ensures { self.new ≡ drop count self.old }
    {
        self.start += count;
        if self.start > self.bytes.len() - self.start {
            move_to_front(&mut self.bytes, self.start);
            self.start = 0;
        }
    }

    /// Drops all bytes. The memory of a large buffer is given back.
    pub(crate) fn clear(&mut self)
        ensures { self.new ≡ [] }
    {
        self.bytes.clear();
        self.start = 0;
        self.give_back(MOVED_BYTES);
    }

    /// Gives back the memory of a buffer with room for more than so many bytes, where there are no bytes.
    fn give_back(&mut self, kept: usize)
        ensures { self.new ≡ self.old }
    {
        if self.bytes.is_empty() && self.bytes.capacity() > kept {
            self.bytes.shrink_to_fit();
        }
    }

    /// Gives back the memory of a buffer that is no longer small, where there are no bytes.
    pub(crate) fn rest(&mut self)
        ensures { self.new ≡ self.old }
    {
        self.give_back(KEPT_BYTES);
    }

    /// Hands all bytes over in their buffer, in place of one without bytes, whose memory is used from here
    /// on, unless it is large. Takes no memory.
    fn hand_over(&mut self, out: &mut Vec<u8>)
        requires { out.old.items ≡ [] }
        ensures given { out.new.items ≡ self.old }
        ensures left { self.new ≡ [] }
    {
        if self.start > 0 {
            move_to_front(&mut self.bytes, self.start);
            self.start = 0;
        }
        mem::swap(&mut self.bytes, out);
        self.give_back(MOVED_BYTES);
    }

    /// Moves all bytes behind those that are in `out`. Want of memory leaves both as they were. Where they are
    /// many, and nothing is in `out`, the two buffers are swapped: no byte is copied, and no memory is taken. No large
    /// buffer stays.
    pub(crate) fn move_all(&mut self, out: &mut Vec<u8>) -> Result<(), AllocError>
        ensures moved { OnOk result (out.new.items ≡ out.old.items ++ self.old) }
        ensures left { OnOk result (self.new ≡ []) }
        ensures same { OnErr result (self.new ≡ self.old) }
        ensures out { OnErr result (out.new.items ≡ out.old.items) }
    {
        if out.is_empty() && self.as_slice().len() >= HANDED_OVER {
            self.hand_over(out);
            return Ok(());
        }
        out.extend_from_slice(self.as_slice())?;
        self.clear();
        Ok(())
    }
}
