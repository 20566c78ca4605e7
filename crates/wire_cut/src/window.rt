//! Bytes that came in and were not used yet.
ghost use Rattle.std.specs.Prelude.{◌≡◌, ◌+◌, ◌-◌, ◌*◌, ◌≤◌, [], ◌++◌, None, IfOk, OnOk, OnErr};
ghost use Rattle.std.specs.Prelude.{length, max, take, drop, slice_range, vec_len};
ghost use Rattle.std.specs.Io.KnownBytes.{Keeps};
ghost use Rattle.wire_cut.specs.Flow.{Gains, ReadsOnce};

use crate::faults::FillFault;
use crate::source::Source;
use std::alloc::{AllocError, Global};
use std::marker::Model;

/// The most bytes of a buffer that stays while nothing is unread.
const KEPT_BYTES: usize = 524_288;

/// A read of so many bytes or fewer gives memory back: of a buffer with more than [`MUCH`] times the room that is needed then no more
/// stays than that, or than so many bytes.
const FEW_BYTES: usize = 512;

const MUCH: usize = 4;

/// The unread bytes lie at `start..end` of one buffer, which is used again.
pub struct Window {
    buffer: Vec<u8>,
    start: usize,
    end: usize,
}

/// One call, also for crates above: `docs/PROVING.md`, "What a proof costs".
impl Drop for Window {
    fn drop(self) {
        let Window {
            buffer: _,
            start: _,
            end: _,
        } = self;
    }
}

impl Model for Window {
    ghost use Rattle.std.specs.Prelude.{◌≤◌, take, slice_range, vec_len};
    ghost use Rattle.wire_cut.specs.Window.{WindowState};

    ghost Value = { WindowState };

    ghost view = { λ w. record {
      used = take w.start w.buffer.items;
      unread = slice_range w.buffer.items w.start w.end;
    } };

    ghost invariant = { λ w. (w.start ≤ w.end) × (w.end ≤ vec_len w.buffer) };
}

impl Window {
    ghost use Rattle.wire_cut.specs.Answers.{FillAnswers};

    pub fn new(alloc: Global) -> Window
        ensures { result.unread ≡ [] }
    {
        Window {
            buffer: Vec::new(alloc),
            start: 0,
            end: 0,
        }
    }

    /// Adds bytes behind the unread ones. After want of memory these have not changed.
    pub fn append(&mut self, bytes: &[u8]) -> Result<(), AllocError>
        ensures ok { OnOk result (self.new.unread ≡ self.old.unread ++ bytes.now) }
        ensures err { OnErr result (self.new.unread ≡ self.old.unread) }
    {
        let kept = self.end - self.start;
        self.start = make_room(&mut self.buffer, self.start, self.end, bytes.len())?;
        let end = self.start + kept;
        self.buffer[end..end + bytes.len()].copy_from_slice(bytes);
        self.end = end + bytes.len();
        Ok(())
    }

    /// Reads at most `most` bytes behind the unread ones, and answers how many. These have not
    /// changed where none come. Where few are read at most, a large buffer is given back before.
    pub fn read_from<S: Source>(&mut self, source: &mut S, most: usize) -> Result<usize, FillFault>
        ensures ok { IfOk result (λ n. Gains self.old.unread self.new.unread
            (S.remaining source.old) (S.remaining source.new) most n) }
        ensures err { OnErr result (self.new.unread ≡ self.old.unread) }
        ensures kept { OnErr result (Keeps (S.remaining source.old) (S.remaining source.new)) }
        ensures read { ReadsOnce result (source.new ≡ source.old)
            (S.reads source.old) (S.reads source.new)
            (S.failures source.old) (S.failures source.new) }
        ensures no_cut { FillAnswers None result }
    {
        let kept = self.end - self.start;
        self.start = make_room(&mut self.buffer, self.start, self.end, most)?;
        self.end = self.start + kept;
        let end = self.end;
        let count = source.read(&mut self.buffer[end..end + most])?;
        self.end = end + count;
        Ok(count)
    }

    /// The unread bytes.
    #[inline]
    pub fn unread(&self) -> &[u8]
        ensures { result.now ≡ self.now.unread }
    {
        &self.buffer[self.start..self.end]
    }

    /// Consumes the next `count` bytes.
    #[inline]
    pub fn advance(&mut self, count: usize)
        requires { count ≤ length self.old.unread }
        ensures used { self.new.used ≡ self.old.used ++ take count self.old.unread }
        ensures unread { self.new.unread ≡ drop count self.old.unread }
    {
        self.start += count;
    }

    /// The first `count` of the `back` bytes that were used up last.
    #[inline]
    pub fn used_bytes(&self, back: usize, count: usize) -> &[u8]
        requires back { back ≤ length self.now.used }
        requires count { count ≤ back }
        ensures { result.now ≡ take count (drop (length self.now.used - back) self.now.used) }
    {
        let at = self.start - back;
        &self.buffer[at..at + count]
    }
}

/// Makes room for `count` bytes behind `start..end`, by moving these to the front or by growing,
/// and answers where they begin then. What is not needed may be given back. After want of memory the buffer
/// has not changed.
fn make_room(
    buffer: &mut Vec<u8>,
    start: usize,
    end: usize,
    count: usize,
) -> Result<usize, AllocError>
    requires ordered { start ≤ end }
    requires within { end ≤ vec_len buffer.old }
    ensures kept { IfOk result (λ at.
        slice_range buffer.new.items at (at + (end - start))
        ≡ slice_range buffer.old.items start end) }
    ensures room { IfOk result (λ at. at + (end - start) + count ≤ vec_len buffer.new) }
    ensures small { start ≡ end → count ≤ vec_len buffer.old →
        OnOk result (vec_len buffer.new ≤ max count KEPT_BYTES) }
    ensures few { count ≤ FEW_BYTES → (end - start) + count ≤ vec_len buffer.old →
        OnOk result (vec_len buffer.new ≤ MUCH * max ((end - start) + count) FEW_BYTES) }
    ensures err { OnErr result (buffer.new.items ≡ buffer.old.items) }
{
    let unread = end - start;
    let needed = unread.checked_add(count).ok_or(AllocError)?;
    if needed > buffer.len() {
        buffer.resize(needed.saturating_mul(2), 0)?;
        buffer.copy_within(start..end, 0);
        return Ok(0);
    }
    let kept = kept_of(buffer.len(), unread, count);
    if unread > 0 && kept == buffer.len() && count <= buffer.len() - end {
        return Ok(start);
    }
    buffer.copy_within(start..end, 0);
    shorten(buffer, kept);
    Ok(0)
}

/// How many bytes of a buffer of `len` stay, of which so many are unread, and behind which `count` more are read.
fn kept_of(len: usize, unread: usize, count: usize) -> usize
    requires { unread + count ≤ len }
    ensures enough { unread + count ≤ result }
    ensures within { result ≤ len }
    ensures small { unread ≡ 0 → result ≤ max count KEPT_BYTES }
    ensures few { count ≤ FEW_BYTES → result ≤ MUCH * max (unread + count) FEW_BYTES }
{
    if count <= FEW_BYTES {
        let few = (unread + count).max(FEW_BYTES);
        if len > few.saturating_mul(MUCH) {
            few
        } else {
            len
        }
    } else if unread == 0 {
        len.min(count.max(KEPT_BYTES))
    } else {
        len
    }
}

/// Keeps the first bytes of a buffer, and gives back the memory of the others. Few bytes move to a buffer of their size, where there is memory
/// for one: a large buffer that were made smaller where it stands would keep a page of its own.
fn shorten(buffer: &mut Vec<u8>, kept: usize)
    requires { kept ≤ vec_len buffer.old }
    ensures { buffer.new.items ≡ take kept buffer.old.items }
{
    if kept >= buffer.len() {
        return;
    }
    buffer.truncate(kept);
    if kept > FEW_BYTES {
        buffer.shrink_to_fit();
    } else {
        move_few(buffer);
    }
}

/// Moves the bytes of a buffer to one of their size, where there is memory for it.
fn move_few(buffer: &mut Vec<u8>)
    ensures { buffer.new.items ≡ buffer.old.items }
{
    let mut few = Vec::new(*buffer.allocator());
    if few.extend_from_slice(buffer).is_ok() {
        *buffer = few;
    }
}
