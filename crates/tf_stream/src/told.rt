//! A reader or writer that records whether a call of it failed.

ghost use Rattle.std.specs.Prelude.{◌≡◌, false};
ghost use Rattle.std.specs.Io.{ReadsAtMost, WritesAtMost};
ghost use Rattle.std.specs.Io.KnownBytes.{Keeps, ReadConsumes, WriteAppends};
ghost use Rattle.tf_stream.specs.Told.{inner_of, has_failed, RecordsFailure, RecordsWriteFailure};

use std::io;
use std::io::{Read, Write};

/// A reader or writer that passes each call on, and records whether one failed or a write took
/// nothing.
#[derive(Drop)]
pub struct Told<T> {
    inner: T,
    failed: bool,
}

impl<T> Told<T> {
    /// Wraps a reader or writer of which no call has failed yet.
    pub fn new(inner: T) -> Told<T>
        ensures inner { inner_of result ≡ inner }
        ensures not_failed { has_failed result ≡ false }
    {
        Told {
            inner,
            failed: false,
        }
    }

    /// Returns whether a call failed, or a write took none of the bytes that it was given.
    pub fn failed(&self) -> bool
        ensures { result ≡ has_failed self.now }
    {
        let Told { inner: _, failed } = self;
        *failed
    }

    /// Returns the reader or writer itself.
    pub fn into_inner(self) -> T
        ensures { result ≡ inner_of self }
    {
        self.inner
    }
}

impl<R: Read> Read for Told<R> {
    ghost remaining = { λ t. R.remaining (inner_of t) };

    fn read(&mut self, buf: &mut [u8]) -> io::Result<usize>
        ensures bound { ReadsAtMost result buf.new }
        ensures bytes { ReadConsumes (R.remaining (inner_of self.old))
            (R.remaining (inner_of self.new)) result buf.new }
        ensures failed { RecordsFailure (has_failed self.old) (has_failed self.new) result }
    {
        let answer = self.inner.read(buf);
        record_failure(&mut self.failed, answer)
    }
}

impl<W: Write> Write for Told<W> {
    ghost contents = { λ t. W.contents (inner_of t) };

    fn write(&mut self, buf: &[u8]) -> io::Result<usize>
        ensures bound { WritesAtMost result buf.now }
        ensures bytes { WriteAppends (W.contents (inner_of self.old))
            (W.contents (inner_of self.new)) result buf.now }
        ensures failed { RecordsWriteFailure (has_failed self.old) (has_failed self.new) result buf.now }
    {
        let answer = self.inner.write(buf);
        if matches!(answer, Ok(0)) && !buf.is_empty() {
            self.failed = true;
        }
        record_failure(&mut self.failed, answer)
    }

    fn flush(&mut self) -> io::Result<()>
        ensures bytes { Keeps (W.contents (inner_of self.old)) (W.contents (inner_of self.new)) }
        ensures failed { RecordsFailure (has_failed self.old) (has_failed self.new) result }
    {
        let answer = self.inner.flush();
        record_failure(&mut self.failed, answer)
    }
}

/// Returns the answer of an inner call, and records that it failed.
fn record_failure<X>(failed: &mut bool, answer: io::Result<X>) -> io::Result<X>
    ensures same { result ≡ answer }
    ensures failed { RecordsFailure failed.old failed.new result }
{
    if answer.is_err() {
        *failed = true;
    }
    answer
}
