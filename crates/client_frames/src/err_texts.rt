//! The texts of `-ERR`.

ghost use Rattle.std.specs.Prelude.{◌≡◌, ◌+◌, ◌≤◌, length};
ghost use Rattle.client_frames.specs.ErrTexts.{err_line, text_closes, line_fault_text, cut_fault_text};

use crate::faults::LineFault;
use subj::LAST_LINE;
use wire_cut::CutFault;

/// What `-ERR` tells a client. (NATS documentation, "Client Protocol"; the last five are this project's own.)
#[derive(Clone, Copy, PartialEq, Eq)]
pub enum ErrText {
    /// A control line is longer than its limit.
    MaximumControlLineExceeded,
    /// A payload is announced above its limit.
    MaximumPayloadViolation,
    /// A payload without CR LF behind it, or the arguments or the options of a line that are none.
    ParserError,
    /// A line that names no operation.
    UnknownProtocolOperation,
    /// The outbox has no room.
    SlowConsumer,
    /// A pattern, a subject or a reply that is none.
    InvalidSubject,
    /// A header block that is none.
    BadHeaders,
    /// A publication would reach more queue groups than one may.
    TooManyQueueGroups,
    /// There is no place for one more subscription.
    TooManySubscriptions,
    /// A counter has come to its limit.
    NumbersSpent,
    /// The server drains: it takes no subscription any more.
    Draining,
}

impl ErrText {
    /// What a client is told of a line that is refused. (Profile.)
    pub fn of_line(fault: LineFault) -> ErrText
        ensures { result ≡ line_fault_text fault }
    {
        match fault {
            LineFault::UnknownOp => ErrText::UnknownProtocolOperation,
            LineFault::BadArgs | LineFault::BadJson => ErrText::ParserError,
            LineFault::BadSubject => ErrText::InvalidSubject,
            LineFault::BadHeader => ErrText::BadHeaders,
        }
    }

    /// What a client is told of bytes that are no line or no payload. (Profile.)
    pub fn of_cut(fault: CutFault) -> ErrText
        ensures { result ≡ cut_fault_text fault }
    {
        match fault {
            CutFault::LineTooLong => ErrText::MaximumControlLineExceeded,
            CutFault::PayloadTooLong => ErrText::MaximumPayloadViolation,
            CutFault::NoCrLfAfterPayload => ErrText::ParserError,
        }
    }

    /// The whole line without its CR LF; with it, it fits the last line of an outbox. Takes no memory.
    pub fn line(self) -> &'static [u8]
        ensures same { result.now ≡ err_line self }
        ensures fits { length result.now + 2 ≤ LAST_LINE }
    {
        match self {
            ErrText::MaximumControlLineExceeded => b"-ERR 'Maximum Control Line Exceeded'",
            ErrText::MaximumPayloadViolation => b"-ERR 'Maximum Payload Violation'",
            ErrText::ParserError => b"-ERR 'Parser Error'",
            ErrText::UnknownProtocolOperation => b"-ERR 'Unknown Protocol Operation'",
            ErrText::SlowConsumer => b"-ERR 'Slow Consumer'",
            ErrText::InvalidSubject => b"-ERR 'Invalid Subject'",
            ErrText::BadHeaders => b"-ERR 'Bad Headers'",
            ErrText::TooManyQueueGroups => b"-ERR 'Too Many Queue Groups'",
            ErrText::TooManySubscriptions => b"-ERR 'Too Many Subscriptions'",
            ErrText::NumbersSpent => b"-ERR 'Numbers Spent'",
            ErrText::Draining => b"-ERR 'Draining'",
        }
    }

    /// Whether the connection ends behind it. (Profile.)
    pub fn closes(self) -> bool
        ensures { result ≡ text_closes self }
    {
        match self {
            ErrText::MaximumControlLineExceeded
            | ErrText::MaximumPayloadViolation
            | ErrText::ParserError
            | ErrText::UnknownProtocolOperation
            | ErrText::SlowConsumer => true,
            ErrText::InvalidSubject
            | ErrText::BadHeaders
            | ErrText::TooManyQueueGroups
            | ErrText::TooManySubscriptions
            | ErrText::NumbersSpent
            | ErrText::Draining => false,
        }
    }
}
