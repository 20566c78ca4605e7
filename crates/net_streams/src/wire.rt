//! A stream, with what its calls have come to.

ghost use Rattle.std.specs.Prelude.{◌≡◌, ◌+◌, false, None};
ghost use Rattle.std.specs.Io.{ReadsAtMost};
ghost use Rattle.std.specs.Io.KnownBytes.{ReadConsumes};
ghost use Rattle.wire_cut.specs.Flow.{CountsFailure};
ghost use Rattle.net_streams.specs.Writes.{HasRead, HasWritten, ended_after};

use crate::stream::{Stream, StreamFault};
use wire_cut::{Count, ReadFailed, Source};

/// A stream, and whether it has ended or failed. It is read as a source, of which a read that would have to
/// wait fails.
#[derive(Drop)]
pub struct Wire<S: Stream> {
    stream: S,
    has_failed: bool,
    has_ended: bool,
    reads: Count,
    failures: Count,
}

impl<S: Stream> Wire<S> {
    ghost use Rattle.std.specs.Borrow.{Lends, sem};
    ghost use Rattle.net_streams.specs.contracts.wire.Wire.{the_row};

    /// A stream of which no call was made.
    pub fn new(stream: S) -> Wire<S>
        ensures stream { result.stream ≡ stream }
        ensures failed { result.has_failed ≡ false }
        ensures ended { result.has_ended ≡ false }
    {
        Wire {
            stream,
            has_failed: false,
            has_ended: false,
            reads: Count::new(),
            failures: Count::new(),
        }
    }

    /// The stream itself.
    pub fn stream(&self) -> &S
        ensures { result.now ≡ self.now.stream }
    {
        &self.stream
    }

    /// The stream itself, to be changed.
    pub fn stream_mut(&mut self) -> &mut S
        ensures stream { result.now ≡ self.old.stream }
        ensures* writes_back { sem 𝓛
            (Lends (the_row S.row) S.row self.entry result (λ w. record self.old { stream = w })) }
    {
        &mut self.stream
    }

    /// The stream itself, as it is by now.
    pub fn into_stream(self) -> S
        ensures { result ≡ self.stream }
    {
        self.stream
    }

    /// Whether a call has failed.
    pub fn has_failed(&self) -> bool
        ensures { result ≡ self.now.has_failed }
    {
        self.has_failed
    }

    /// Whether the other end sends nothing any more.
    pub fn has_ended(&self) -> bool
        ensures { result ≡ self.now.has_ended }
    {
        self.has_ended
    }

    /// Writes as many of the bytes as the stream takes, and gives the others: so what the stream took and what is given back are together
    /// the bytes, in order.
    ///
    /// It stops where nothing is left, where the stream would have to wait, and where it fails; a stream that takes none of some bytes
    /// has failed. Of a stream that has failed before nothing is asked, and all bytes are given back.
    pub fn write<'a>(&mut self, bytes: &'a [u8]) -> &'a [u8]
        ensures written { HasWritten S.wrote bytes.now self.old.has_failed self.old.stream
            result.now self.new.has_failed self.new.stream }
        ensures others { self.new
            ≡ record self.old { stream = self.new.stream; has_failed = self.new.has_failed } }
    {
        if self.has_failed {
            return bytes;
        }
        let mut rest = bytes;
        while !rest.is_empty() {
            match self.stream.write(rest) {
                Ok(0) | Err(StreamFault::Failed) => {
                    self.has_failed = true;
                    return rest;
                }
                Ok(count) => rest = &rest[count..],
                Err(StreamFault::WouldBlock) => return rest,
            }
        }
        rest
    }
}

impl<S: Stream> Source for Wire<S> {
    ghost remaining = { λ _. None };

    ghost reads = { λ w. w.reads.value };

    ghost failures = { λ w. w.failures.value };

    fn read(&mut self, buffer: &mut [u8]) -> Result<usize, ReadFailed>
        ensures bound { ReadsAtMost result buffer.new }
        ensures bytes { ReadConsumes None None result buffer.new }
        ensures reads { self.new.reads.value ≡ self.old.reads.value + 1 }
        ensures failures { CountsFailure result self.old.failures.value self.new.failures.value }
        ensures ended { self.new.has_ended ≡ ended_after result buffer.new self.old.has_ended }
        ensures gave { HasRead S.gave buffer.new result self.old.has_failed self.old.stream
            self.new.has_failed self.new.stream }
    {
        self.reads.rise();
        match self.stream.read(buffer) {
            Ok(count) => {
                if count == 0 && !buffer.is_empty() {
                    self.has_ended = true;
                }
                Ok(count)
            }
            Err(fault) => {
                if fault == StreamFault::Failed {
                    self.has_failed = true;
                }
                self.failures.rise();
                Err(ReadFailed)
            }
        }
    }
}
