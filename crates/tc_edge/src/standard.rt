//! Sources and sinks over std's readers and writers.

ghost use Rattle.std.specs.Prelude.{◌≡◌, ℕ, ◌<◌, List, Option, None, Ok, length, is_err};
ghost use Rattle.std.specs.Io.{ReadsAtMost, WritesAtMost};
ghost use Rattle.std.specs.Io.KnownBytes.{ReadConsumes, WriteAppends};
ghost use Rattle.tc_edge.specs.Faults.{count_after, is_failed_write, HasCause};
ghost use Rattle.tc_bytes.specs.Counts.{Rose};
ghost use Rattle.tc_edge.specs.Standard.{reader_of, read_faults, writer_of, write_faults};

use crate::streams::{EdgeFault, Sink, Source};
use std::io::{ErrorKind, Read, Write};

/// A source over a reader of std. It tells the bytes that the reader tells.
#[derive(Drop)]
pub struct StdSource<R> {
    inner: R,
    faults: u64,
}

impl<R> StdSource<R> {
    /// A source that has not failed yet.
    pub fn new(inner: R) -> StdSource<R>
        ensures reader { reader_of result ≡ inner }
        ensures faults { read_faults result ≡ 0 }
    {
        StdSource { inner, faults: 0 }
    }

    /// The reader, at the place that it was read to.
    pub fn into_inner(self) -> R
        ensures { result ≡ reader_of self }
    {
        let StdSource { inner, faults: _ } = self;
        inner
    }
}

impl<R: Read, O: Sink> Source<O> for StdSource<R> {
    ghost left = { λ s. R.remaining s.inner };

    ghost faults = { λ s. s.faults };

    ghost moments = { λ s. None };

    fn read(&mut self, into: &mut [u8], _beside: &O) -> Result<usize, EdgeFault>
        ensures bound { ReadsAtMost result into.new }
        ensures bytes { ReadConsumes (R.remaining (reader_of self.old))
            (R.remaining (reader_of self.new)) result into.new }
        ensures cause { HasCause (read_faults self.old) (read_faults self.new) result }

        ensures counted { read_faults self.new
            ≡ count_after (is_err result) (read_faults self.old) }
    {
        let result = read_uninterrupted(&mut self.inner, into);
        if result.is_err() {
            self.faults = self.faults.saturating_add(1);
        }
        result
    }
}

// A read that a signal interrupted is made again, at most 2^64 - 1 times in all.
fn read_uninterrupted<R: Read>(reader: &mut R, into: &mut [u8]) -> Result<usize, EdgeFault>
    ensures bound { ReadsAtMost result into.new }
    ensures bytes { ReadConsumes (R.remaining reader.old) (R.remaining reader.new) result into.new }
{
    for _ in 0..u64::MAX {
        match reader.read(into) {
            Ok(count) => return Ok(count),
            Err(error) => {
                if error.kind() != ErrorKind::Interrupted {
                    break;
                }
            }
        }
    }
    Err(EdgeFault)
}

/// A sink over a writer of std. It tells the bytes that the writer tells, and flushes nothing.
#[derive(Drop)]
pub struct StdSink<W> {
    inner: W,
    faults: u64,
}

impl<W> StdSink<W> {
    /// A sink that has not failed yet.
    pub fn new(inner: W) -> StdSink<W>
        ensures writer { writer_of result ≡ inner }
        ensures faults { write_faults result ≡ 0 }
    {
        StdSink { inner, faults: 0 }
    }

    /// The writer, with what it was given.
    pub fn into_inner(self) -> W
        ensures { result ≡ writer_of self }
    {
        let StdSink { inner, faults: _ } = self;
        inner
    }
}

impl<W: Write> Sink for StdSink<W> {
    ghost taken = { λ s. W.contents s.inner };

    ghost faults = { λ s. s.faults };

    fn write(&mut self, from: &[u8]) -> Result<usize, EdgeFault>
        ensures bound { WritesAtMost result from.now }
        ensures bytes { WriteAppends (W.contents (writer_of self.old))
            (W.contents (writer_of self.new)) result from.now }
        ensures cause { HasCause (write_faults self.old) (write_faults self.new) result }
        ensures none { result ≡ Ok 0 → 0 < length from.now
            → Rose (write_faults self.old) (write_faults self.new) }

        ensures counted { write_faults self.new
            ≡ count_after (is_failed_write result from.now) (write_faults self.old) }
    {
        let result = write_uninterrupted(&mut self.inner, from);
        let failed = match result {
            Ok(count) => count == 0 && !from.is_empty(),
            Err(_) => true,
        };
        if failed {
            self.faults = self.faults.saturating_add(1);
        }
        result
    }
}

// A write that a signal interrupted is made again, at most 2^64 - 1 times in all.
fn write_uninterrupted<W: Write>(writer: &mut W, from: &[u8]) -> Result<usize, EdgeFault>
    ensures bound { WritesAtMost result from.now }
    ensures bytes { WriteAppends (W.contents writer.old) (W.contents writer.new) result from.now }
{
    for _ in 0..u64::MAX {
        match writer.write(from) {
            Ok(count) => return Ok(count),
            Err(error) => {
                if error.kind() != ErrorKind::Interrupted {
                    break;
                }
            }
        }
    }
    Err(EdgeFault)
}
