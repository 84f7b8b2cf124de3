//! Readers and writers that fail at one call and then work, and the tests over them.

mod journals;
mod squashing;
mod told;
mod whole_texts;

use std::io;
use std::io::{Error, ErrorKind, Read, Write};

/// Gives at most `step` bytes a read, `left` in all; the read of number `fails_at` fails, and the
/// later ones work.
#[derive(Drop)]
pub struct Hashes {
    pub left: usize,
    pub step: usize,
    pub reads: u64,
    pub fails_at: u64,
    pub interrupted: bool,
}

impl Hashes {
    pub fn new(left: usize, step: usize) -> Self {
        Hashes {
            left,
            step,
            reads: 0,
            fails_at: 0,
            interrupted: false,
        }
    }
}

impl Read for Hashes {
    fn read(&mut self, buf: &mut [u8]) -> io::Result<usize> {
        self.reads = self.reads.wrapping_add(1);
        if self.reads == self.fails_at {
            return Err(Error::from(if self.interrupted {
                ErrorKind::Interrupted
            } else {
                ErrorKind::Other
            }));
        }
        let n = buf.len().min(self.step).min(self.left);
        for byte in buf[..n].iter_mut() {
            *byte = b'#';
        }
        self.left -= n;
        Ok(n)
    }
}

/// Takes `capacity` bytes in all, at most `step` a write, and then nothing; one write and one flush
/// fail, and the later ones work.
#[derive(Drop)]
pub struct ShortWrites {
    pub written: Vec<u8>,
    pub capacity: usize,
    pub step: usize,
    pub writes: u64,
    pub flushes: u64,
    pub write_fails_at: u64,
    pub flush_fails_at: u64,
}

impl ShortWrites {
    pub fn new(written: Vec<u8>, capacity: usize, step: usize) -> Self {
        ShortWrites {
            written,
            capacity,
            step,
            writes: 0,
            flushes: 0,
            write_fails_at: 0,
            flush_fails_at: 0,
        }
    }
}

impl Write for ShortWrites {
    fn write(&mut self, buf: &[u8]) -> io::Result<usize> {
        self.writes = self.writes.wrapping_add(1);
        if self.writes == self.write_fails_at {
            return Err(Error::from(ErrorKind::Interrupted));
        }
        let n = buf.len().min(self.capacity).min(self.step);
        if self.written.extend_from_slice(&buf[..n]).is_err() {
            return Err(Error::from(ErrorKind::OutOfMemory));
        }
        self.capacity -= n;
        Ok(n)
    }

    fn flush(&mut self) -> io::Result<()> {
        self.flushes = self.flushes.wrapping_add(1);
        if self.flushes == self.flush_fails_at {
            return Err(Error::from(ErrorKind::BrokenPipe));
        }
        Ok(())
    }
}
