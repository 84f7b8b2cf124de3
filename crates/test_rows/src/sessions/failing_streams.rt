//! Readers and writers that fail at one call.

use std::alloc::Global;
use std::io;
use std::io::{Error, ErrorKind, Read, Write};

/// Gives these bytes, at most three a read; the read of number `fails_at` fails.
#[derive(Drop)]
pub struct Slow<'a> {
    left: &'a [u8],
    reads: usize,
    fails_at: usize,
}

impl<'a> Slow<'a> {
    pub fn new(left: &'a [u8], fails_at: usize) -> Self {
        Slow {
            left,
            reads: 0,
            fails_at,
        }
    }
}

impl Read for Slow<'_> {
    fn read(&mut self, buf: &mut [u8]) -> io::Result<usize> {
        self.reads = self.reads.wrapping_add(1);
        if self.reads == self.fails_at {
            return Err(Error::from(ErrorKind::Interrupted));
        }
        let n = buf.len().min(3).min(self.left.len());
        buf[..n].copy_from_slice(&self.left[..n]);
        self.left = &self.left[n..];
        Ok(n)
    }
}

/// Takes `capacity` bytes in all, at most five a write, and then nothing.
#[derive(Drop)]
pub struct Bounded {
    pub written: Vec<u8>,
    capacity: usize,
}

impl Bounded {
    pub fn new(alloc: Global, capacity: usize) -> Self {
        Bounded {
            written: Vec::new(alloc),
            capacity,
        }
    }
}

impl Write for Bounded {
    fn write(&mut self, buf: &[u8]) -> io::Result<usize> {
        let n = buf.len().min(self.capacity).min(5);
        if self.written.extend_from_slice(&buf[..n]).is_err() {
            return Err(Error::from(ErrorKind::OutOfMemory));
        }
        self.capacity -= n;
        Ok(n)
    }

    fn flush(&mut self) -> io::Result<()> {
        Ok(())
    }
}
