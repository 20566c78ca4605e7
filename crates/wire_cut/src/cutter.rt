//! Cuts a stream into lines and payloads.
ghost use Rattle.std.specs.Prelude.{◌≡◌, ◌-◌, ◌^◌, ◌<◌, ◌≤◌, None, Some, Ok, length, drop, false};
ghost use Rattle.std.specs.Prelude.{IsTrue, IfNone, IfSome, IfOk, OnOk, OnErr, take};
ghost use Rattle.std.specs.Result.{result_err};
ghost use Rattle.std.specs.Borrow.{sem};
ghost use Rattle.std.specs.Io.KnownBytes.{Keeps};
ghost use Rattle.wire_cut.specs.Flow.{Gains, ReadsOnce};
ghost use Rattle.wire_cut.specs.Search.{HasNoCrLf};
ghost use Rattle.wire_cut.specs.Cut.{cut_of, cr_lf_at, first_cr_lf, after_feed};
ghost use Rattle.wire_cut.specs.Cut.{new_cutter, after_next, after_expect, expect_fault, piece_length, IsUnfinished, IsWithinUnread, IsDue};

use crate::faults::{CutFault, FeedFault, FillFault};
use crate::piece::Piece;
use crate::source::Source;
use crate::window::Window;
use line_fields::CR_LF;
use memchr::memchr;
use std::alloc::Global;
use std::marker::Model;

const CR: u8 = b'\r';

const LF: u8 = b'\n';

/// Cuts a stream into lines and payloads. A control line ends with the first CR LF, and so does a
/// payload, whose size its line announces (NATS documentation, "Client Protocol"). That a lone CR
/// or LF is a byte like any other, the limits, and when a fault comes are this project's profile.
///
/// What is fed is kept in one buffer, from which the pieces are lent. They are a function of the
/// bytes, however these were cut into feeds. Once a fault was told every call answers it again.
pub struct Cutter {
    window: Window,
    /// No CR LF begins so that it ends within this many unread bytes.
    searched: usize,
    expected: Option<usize>,
    after_line: bool,
    fault: Option<CutFault>,
    line_max: usize,
    payload_max: u64,
}

/// One call, also for crates above: `docs/PROVING.md`, "What a proof costs".
impl Drop for Cutter {
    fn drop(self) {
        let Cutter {
            window: _,
            searched: _,
            expected: _,
            after_line: _,
            fault: _,
            line_max: _,
            payload_max: _,
        } = self;
    }
}

impl Model for Cutter {
    ghost use Rattle.std.specs.Prelude.{◌≤◌, ◌<◌, ◌^◌};
    ghost use Rattle.wire_cut.specs.Cut.{CutterState};
    ghost use Rattle.wire_cut.specs.Search.{IsCutter};

    ghost Value = { CutterState };

    ghost view = { λ c. record {
      unread = c.window.unread;
      expected = c.expected;
      after_line = c.after_line;
      fault = c.fault;
      line_max = c.line_max;
      payload_max = c.payload_max;
    } };

    ghost invariant = { λ c.
        IsCutter c.window.unread c.searched c.expected c.line_max c.payload_max };
}

impl Cutter {
    ghost use Rattle.wire_cut.specs.Answers.{FeedAnswers, FillAnswers};
    ghost use Rattle.wire_cut.specs.Shown.{next_answer, stream_piece, LeavesNext};

    /// A cutter to which nothing was fed, for lines of up to `line_max` bytes without their CR LF
    /// and payloads of up to `payload_max` bytes. Both are below 2^32. It takes no memory before
    /// bytes come.
    pub fn new(alloc: Global, line_max: usize, payload_max: u64) -> Cutter
        requires line { line_max < 2 ^ 32 }
        requires payload { payload_max < 2 ^ 32 }
        ensures { result ≡ new_cutter line_max payload_max }
    {
        Cutter {
            window: Window::new(alloc),
            searched: 0,
            expected: None,
            after_line: false,
            fault: None,
            line_max,
            payload_max,
        }
    }

    /// Takes the next bytes of the stream, of any number. Where a fault was told it is answered
    /// again and nothing is kept; only want of memory comes besides, and changes nothing.
    pub fn feed(&mut self, bytes: &[u8]) -> Result<(), FeedFault>
        ensures ok { OnOk result (self.new ≡ after_feed self.old bytes.now) }
        ensures answer { FeedAnswers self.old.fault result }
        ensures err { OnErr result (self.new ≡ self.old) }
    {
        if let Some(fault) = self.fault {
            return Err(FeedFault::Cut(fault));
        }
        self.window.append(bytes)?;
        Ok(())
    }

    /// Reads the next bytes of the stream from a source, at most `most`, and answers how many: 0,
    /// where `most` is not, is the source's end. They come straight into the cutter's buffer. Where
    /// a fault was told it is answered again and nothing is read. An error leaves the cutter as it
    /// was, and tells whether the source failed or was not asked.
    pub fn read_from<S: Source>(&mut self, source: &mut S, most: usize) -> Result<usize, FillFault>
        ensures ok { IfOk result (λ n. Gains self.old.unread self.new.unread
            (S.remaining source.old) (S.remaining source.new) most n) }
        ensures state { self.new ≡ record self.old { unread = self.new.unread } }
        ensures answer { FillAnswers self.old.fault result }
        ensures err { OnErr result (self.new ≡ self.old) }
        ensures kept { OnErr result (Keeps (S.remaining source.old) (S.remaining source.new)) }
        ensures read { ReadsOnce result (source.new ≡ source.old)
            (S.reads source.old) (S.reads source.new)
            (S.failures source.old) (S.failures source.new) }
    {
        if let Some(fault) = self.fault {
            return Err(FillFault::Cut(fault));
        }
        self.window.read_from(source, most)
    }

    /// The next piece of what was fed, lent from the cutter, or `None` where more bytes are needed.
    ///
    /// The faults stay: `LineTooLong`, where a line is due and the next `line_max + 2` bytes hold
    /// no CR LF; `NoCrLfAfterPayload`, once both bytes behind the expected payload are there and
    /// are not CR LF; and each that was told before.
    pub fn next(&mut self) -> Result<Option<Piece<'_>>, CutFault>
        ensures answer { next_answer result ≡ cut_of self.old }
        ensures held { IfOk result (λ piece.
            IfNone piece (IsUnfinished self.old.expected self.old)) }
        ensures within { IfOk result (λ piece.
            IfSome piece (λ piece. IsWithinUnread (stream_piece piece) self.old)) }
        ensures* rest { sem 𝓛 (LeavesNext self.entry) }
    {
        if let Some(fault) = self.fault {
            return Err(fault);
        }
        match self.expected {
            None => self.next_line(),
            Some(size) => self.next_payload(size),
        }
    }

    fn next_line(&mut self) -> Result<Option<Piece<'_>>, CutFault>
        requires no_fault { self.old.fault ≡ None }
        requires line { self.old.expected ≡ None }
        ensures answer { next_answer result ≡ cut_of self.old }
        ensures* rest { sem 𝓛 (LeavesNext self.entry) }
    {
        let unread = self.window.unread();
        let reach = unread.len().min(self.line_max + CR_LF.len());
        match find_cr_lf(&unread[..reach], self.searched) {
            Some(length) => Ok(Some(Piece::Line(self.next_piece(length)))),
            None if reach == self.line_max + CR_LF.len() => {
                self.fault = Some(CutFault::LineTooLong);
                Err(CutFault::LineTooLong)
            }
            None => {
                self.searched = reach;
                Ok(None)
            }
        }
    }

    fn next_payload(&mut self, size: usize) -> Result<Option<Piece<'_>>, CutFault>
        requires no_fault { self.old.fault ≡ None }
        requires payload { self.old.expected ≡ Some size }
        requires size { size < 2 ^ 32 }
        ensures answer { next_answer result ≡ cut_of self.old }
        ensures* rest { sem 𝓛 (LeavesNext self.entry) }
    {
        match has_cr_lf_at(self.window.unread(), size) {
            Some(true) => Ok(Some(Piece::Payload(self.next_piece(size)))),
            Some(false) => {
                self.fault = Some(CutFault::NoCrLfAfterPayload);
                Err(CutFault::NoCrLfAfterPayload)
            }
            None => Ok(None),
        }
    }

    /// What [`Cutter::next`] would answer, and will still: nothing is used up, and no fault is kept. A
    /// piece is of the kind that has to come, and within the cutter's limits.
    pub fn peek(&self) -> Result<Option<Piece<'_>>, CutFault>
        ensures answer { next_answer result ≡ cut_of self.now }
        ensures due { IfOk result (λ piece.
            IfSome piece (λ piece. IsDue (stream_piece piece) self.now)) }
    {
        if let Some(fault) = self.fault {
            return Err(fault);
        }
        match self.expected {
            None => self.peek_line(),
            Some(size) => self.peek_payload(size),
        }
    }

    fn peek_line(&self) -> Result<Option<Piece<'_>>, CutFault>
        requires no_fault { self.now.fault ≡ None }
        requires line { self.now.expected ≡ None }
        ensures answer { next_answer result ≡ cut_of self.now }
        ensures due { IfOk result (λ piece.
            IfSome piece (λ piece. IsDue (stream_piece piece) self.now)) }
    {
        let unread = self.window.unread();
        let longest = self.line_max + CR_LF.len();
        let reach = unread.len().min(longest);
        match find_cr_lf(&unread[..reach], self.searched) {
            Some(length) => Ok(Some(Piece::Line(&unread[..length]))),
            None if reach == longest => Err(CutFault::LineTooLong),
            None => Ok(None),
        }
    }

    fn peek_payload(&self, size: usize) -> Result<Option<Piece<'_>>, CutFault>
        requires no_fault { self.now.fault ≡ None }
        requires payload { self.now.expected ≡ Some size }
        requires size { size < 2 ^ 32 }
        ensures answer { next_answer result ≡ cut_of self.now }
        ensures due { IfOk result (λ piece.
            IfSome piece (λ piece. IsDue (stream_piece piece) self.now)) }
    {
        let unread = self.window.unread();
        match has_cr_lf_at(unread, size) {
            Some(true) => Ok(Some(Piece::Payload(&unread[..size]))),
            Some(false) => Err(CutFault::NoCrLfAfterPayload),
            None => Ok(None),
        }
    }

    /// Consumes the piece of `size` bytes that [`Cutter::peek`] gives, with its CR LF: what [`Cutter::next`] does, without
    /// another look for its end.
    pub fn consume(&mut self, size: usize)
        requires { piece_length (cut_of self.old) ≡ Some size }
        ensures { self.new ≡ after_next self.old }
    {
        self.next_piece(size);
    }

    /// Consumes the piece that is due, of `size` bytes, with its CR LF, and lends its bytes.
    #[inline]
    fn next_piece(&mut self, size: usize) -> &[u8]
        requires { piece_length (cut_of self.old) ≡ Some size }
        ensures piece { result.now ≡ take size self.old.unread }
        ensures* rest { sem 𝓛 (LeavesNext self.entry) }
    {
        self.after_line = self.expected.is_none();
        self.expected = None;
        self.searched = 0;
        let with_cr_lf = size + CR_LF.len();
        self.window.advance(with_cr_lf);
        self.window.used_bytes(with_cr_lf, size)
    }

    /// Announces that a payload of `size` bytes follows the line given last, as `after_line` tells; a
    /// second call replaces the size. A fault that was told is answered again, and a size above the
    /// cutter's limit is the fault `PayloadTooLong`, which stays.
    pub fn expect(&mut self, size: u64) -> Result<(), CutFault>
        requires { IsTrue self.old.after_line }
        ensures answer { result_err result ≡ expect_fault self.old.fault self.old.payload_max size }
        ensures state { self.new ≡ after_expect self.old size }
    {
        if let Some(fault) = self.fault {
            return Err(fault);
        }
        if size > self.payload_max {
            self.fault = Some(CutFault::PayloadTooLong);
            return Err(CutFault::PayloadTooLong);
        }
        self.expected = Some(size as usize);
        Ok(())
    }

    /// The bytes that were fed and not given yet.
    pub fn unread(&self) -> &[u8]
        ensures { result.now ≡ self.now.unread }
    {
        self.window.unread()
    }

    /// Consumes what was fed and not given yet, but for so many bytes: pieces that whoever asks for it has cut by themselves, of which
    /// the last is a payload. Required: a line has to come next, and there are so many bytes.
    pub fn consume_to(&mut self, left: usize)
        requires no_fault { self.old.fault ≡ None }
        requires line { self.old.expected ≡ None }
        requires left { left ≤ length self.old.unread }
        ensures { self.new ≡ record self.old {
          unread = drop (length self.old.unread - left) self.old.unread;
          after_line = false;
        } }
    {
        let count = self.window.unread().len() - left;
        self.after_line = false;
        self.searched = 0;
        self.window.advance(count);
    }

    /// How many bytes were fed and not given yet: those of what is unfinished. Where more bytes are
    /// needed, as after `next` gave `None`, they are fewer than the longest line and its CR LF take,
    /// or than the expected payload and its CR LF do. Behind a fault none of them is given any more.
    pub fn held(&self) -> usize
        ensures count { result ≡ length self.now.unread }
        ensures bound { cut_of self.now ≡ Ok None → IsUnfinished self.now.expected self.now }
    {
        self.window.unread().len()
    }

    /// Whether the piece that `next` gave last was a line. It is false at first and after a
    /// payload, and neither `expect` nor a fault changes it.
    pub fn after_line(&self) -> bool
        ensures { result ≡ self.now.after_line }
    {
        self.after_line
    }
}

/// Where the first CR LF of `bytes` begins. None lies within the first `searched` bytes.
fn find_cr_lf(bytes: &[u8], searched: usize) -> Option<usize>
    requires within { searched ≤ length bytes.now }
    requires none { HasNoCrLf bytes.now searched }
    ensures { result ≡ first_cr_lf bytes.now }
{
    let mut from = searched;
    while let Some(offset) = memchr(LF, &bytes[from..]) {
        let at = from + offset;
        if at > 0 && bytes[at - 1] == CR {
            return Some(at - 1);
        }
        from = at + 1;
    }
    None
}

/// Whether CR LF stands at place `at` of `bytes`; `None` where these end before it would.
fn has_cr_lf_at(bytes: &[u8], at: usize) -> Option<bool>
    requires { at < 2 ^ 32 }
    ensures { result ≡ cr_lf_at bytes.now at }
{
    if bytes.len() < at + CR_LF.len() {
        return None;
    }
    Some(bytes[at] == CR && bytes[at + 1] == LF)
}
