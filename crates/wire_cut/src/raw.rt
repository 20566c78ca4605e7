//! The readers and writers of std as sources and sinks.
ghost use Rattle.std.specs.Prelude.{◌≡◌};

use crate::count::Count;
use crate::sink::{Sink, WriteFailed};
use crate::source::{ReadFailed, Source};
use std::io::{Read, Write};

/// A reader or a writer of std, such as standard input or output, with a count of its failures. It
/// makes one call of std for each of its own: one that was interrupted counts as failed, and so does
/// a write that takes none of some bytes. What a writer keeps back is not flushed.
#[derive(Drop)]
pub struct Raw<T> {
    inner: T,
    reads: Count,
    failures: Count,
}

impl<T> Raw<T> {
    ghost use Rattle.wire_cut.specs.Raw.{raw_inner, raw_reads, raw_failures};

    /// `inner`, of which no call was made and none has failed yet.
    pub fn new(inner: T) -> Raw<T>
        ensures inner { raw_inner result ≡ inner }
        ensures reads { raw_reads result ≡ 0 }
        ensures failures { raw_failures result ≡ 0 }
    {
        Raw {
            inner,
            reads: Count::new(),
            failures: Count::new(),
        }
    }

    /// The reader or writer itself, as it is by now.
    pub fn into_inner(self) -> T
        ensures { result ≡ raw_inner self }
    {
        self.inner
    }
}

impl<R: Read> Source for Raw<R> {
    ghost use Rattle.wire_cut.specs.Raw.{raw_inner, raw_reads, raw_failures};

    ghost remaining = { λ r. R.remaining (raw_inner r) };

    ghost reads = { raw_reads };

    ghost failures = { raw_failures };

    fn read(&mut self, buffer: &mut [u8]) -> Result<usize, ReadFailed> {
        self.reads.rise();
        match self.inner.read(buffer) {
            Ok(count) => Ok(count),
            Err(_) => {
                self.failures.rise();
                Err(ReadFailed)
            }
        }
    }
}

impl<W: Write> Sink for Raw<W> {
    ghost use Rattle.wire_cut.specs.Raw.{raw_inner, raw_failures};

    ghost written = { λ w. W.contents (raw_inner w) };

    ghost failures = { raw_failures };

    fn write(&mut self, bytes: &[u8]) -> Result<usize, WriteFailed> {
        match self.inner.write(bytes) {
            Ok(count) if count > 0 || bytes.is_empty() => Ok(count),
            _ => {
                self.failures.rise();
                Err(WriteFailed)
            }
        }
    }
}
