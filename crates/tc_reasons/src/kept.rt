//! Streams of std that keep why their last call failed, which no fault has room for.

ghost use Rattle.std.specs.Prelude.{◌≡◌, Some, None, IfErr, OnOk};
ghost use Rattle.std.specs.Io.{ReadsAtMost, WritesAtMost};
ghost use Rattle.std.specs.Io.KnownBytes.{Keeps, ReadConsumes, WriteAppends};
ghost use Rattle.tc_reasons.specs.Kept.{stream_of, error_of};

use std::io::{Error, Read, Result, Write};

/// A stream, and why the last of its calls failed that did. It tells the bytes that the stream tells.
#[derive(Drop)]
pub struct Kept<S> {
    inner: S,
    last_error: Option<Error>,
}

impl<S> Kept<S> {
    /// A stream of which no call failed yet.
    pub fn new(inner: S) -> Kept<S>
        ensures stream { stream_of result ≡ inner }
        ensures error { error_of result ≡ None }
    {
        Kept {
            inner,
            last_error: None,
        }
    }

    /// Why the last call failed of those that did.
    pub fn last_error(&self) -> Option<Error>
        ensures { result ≡ error_of self.now }
    {
        self.last_error
    }
}

impl<R: Read> Read for Kept<R> {
    ghost remaining = { λ s. R.remaining s.inner };

    fn read(&mut self, buf: &mut [u8]) -> Result<usize>
        ensures bound { ReadsAtMost result buf.new }
        ensures bytes { ReadConsumes (R.remaining (stream_of self.old)) (R.remaining (stream_of self.new)) result buf.new }

        ensures kept { IfErr result (λ error. error_of self.new ≡ Some error) }
        ensures same { OnOk result (error_of self.new ≡ error_of self.old) }
    {
        let result = self.inner.read(buf);
        if let Err(error) = &result {
            self.last_error = Some(*error);
        }
        result
    }
}

impl<W: Write> Write for Kept<W> {
    ghost contents = { λ s. W.contents s.inner };

    fn write(&mut self, buf: &[u8]) -> Result<usize>
        ensures bound { WritesAtMost result buf.now }
        ensures bytes { WriteAppends (W.contents (stream_of self.old)) (W.contents (stream_of self.new)) result buf.now }

        ensures kept { IfErr result (λ error. error_of self.new ≡ Some error) }
        ensures same { OnOk result (error_of self.new ≡ error_of self.old) }
    {
        let result = self.inner.write(buf);
        if let Err(error) = &result {
            self.last_error = Some(*error);
        }
        result
    }

    fn flush(&mut self) -> Result<()>
        ensures bytes { Keeps (W.contents (stream_of self.old)) (W.contents (stream_of self.new)) }

        ensures kept { IfErr result (λ error. error_of self.new ≡ Some error) }
        ensures same { OnOk result (error_of self.new ≡ error_of self.old) }
    {
        let result = self.inner.flush();
        if let Err(error) = &result {
            self.last_error = Some(*error);
        }
        result
    }
}

/// Says why the system refused the last call on a stream, where it did.
pub fn say_stream(rt: HostRuntime, name: &str, error: Option<Error>) -> Result<()> {
    match error {
        Some(error) => eprintln!(rt; "{name}: {error}"),
        None => Ok(()),
    }
}
