//! Why bytes were not read from a reader, or not written to a writer.

use thiserror::Error;

/// Why the bytes of a reader were not read.
#[derive(Clone, Copy, Debug, PartialEq, Eq, Error)]
pub enum ReadFault {
    /// A read failed, whatever its error.
    #[error("cannot read")]
    Read,
    /// The reader has more bytes than the limit allows.
    #[error("text or journal is too long")]
    Endless,
    /// Memory ran out.
    #[error("out of memory")]
    Memory,
}

/// A write or a flush failed, or a write took nothing, after `sent` bytes were sent.
#[derive(Clone, Copy, Debug, PartialEq, Eq, Error)]
#[error("cannot write, {sent} bytes sent")]
pub struct WriteFault {
    pub sent: usize,
}
