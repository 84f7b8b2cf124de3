//! Readers and writers that fail at a place.

use std::alloc::Global;
use std::io::{self, Error, ErrorKind, Read, Write};

/// What follows the bytes of a reader.
#[derive(Clone, Copy, Debug, PartialEq, Eq)]
pub enum After {
    Nothing,
    /// A read that fails.
    Failure,
    /// `#` for ever.
    Hashes,
}

/// Gives these bytes one by one, and then what follows them.
#[derive(Clone, Copy)]
pub struct Drops<'a> {
    left: &'a [u8],
    following: After,
    /// How many bytes were given of those that follow.
    pub given: usize,
}

impl<'a> Drops<'a> {
    pub fn new(bytes: &'a [u8], following: After) -> Drops<'a> {
        Drops {
            left: bytes,
            following,
            given: 0,
        }
    }
}

impl Read for Drops<'_> {
    fn read(&mut self, buf: &mut [u8]) -> io::Result<usize> {
        if self.left.is_empty() && self.following == After::Failure {
            return Err(Error::from(ErrorKind::Interrupted));
        }
        if self.left.is_empty() && self.following == After::Hashes {
            for byte in buf.iter_mut() {
                *byte = b'#';
            }
            self.given = self.given.saturating_add(buf.len());
            return Ok(buf.len());
        }
        let n = buf.len().min(1).min(self.left.len());
        buf[..n].copy_from_slice(&self.left[..n]);
        self.left = &self.left[n..];
        Ok(n)
    }
}

/// What a writer does once it is full.
#[derive(Clone, Copy, Debug, PartialEq, Eq)]
pub enum Full {
    /// It fails.
    Fails,
    /// It takes nothing.
    TakesNothing,
    /// It takes all bytes, and its flush fails.
    FailsToFlush,
}

/// Takes a number of bytes, one by one.
#[derive(Drop)]
pub struct LimitedWriter {
    pub received: Vec<u8>,
    limit: usize,
    full: Full,
}

impl LimitedWriter {
    pub fn new(alloc: Global, limit: usize, full: Full) -> LimitedWriter {
        LimitedWriter {
            received: Vec::new(alloc),
            limit,
            full,
        }
    }

    /// Takes all.
    pub fn ample(alloc: Global) -> LimitedWriter {
        LimitedWriter::new(alloc, usize::MAX, Full::TakesNothing)
    }
}

impl Write for LimitedWriter {
    fn write(&mut self, buf: &[u8]) -> io::Result<usize> {
        let n = buf.len().min(self.limit).min(1);
        if n == 0 && self.full == Full::Fails && !buf.is_empty() {
            return Err(Error::from(ErrorKind::Other));
        }
        if self.received.extend_from_slice(&buf[..n]).is_err() {
            return Err(Error::from(ErrorKind::OutOfMemory));
        }
        self.limit -= n;
        Ok(n)
    }

    fn flush(&mut self) -> io::Result<()> {
        if self.full == Full::FailsToFlush {
            return Err(Error::from(ErrorKind::BrokenPipe));
        }
        Ok(())
    }
}
