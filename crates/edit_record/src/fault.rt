//! Errors of a journal's text, for callers and for the readers of its parts.
ghost use Rattle.std.specs.Prelude.{◌≡◌};
ghost use Rattle.edit_record.specs.declared.fault.DecodeStop.TheVariants.{Memory, Bad};

use std::alloc::{AllocError, AllocFailed};
use thiserror::Error;

/// Why bytes are no text of a journal: the first error from left to right. Its place counts bytes
/// from 0.
#[derive(Clone, Copy, Debug, PartialEq, Eq, Error)]
pub enum RecordFault {
    /// Other bytes where a record's or a step's head, a word, or the space or line end after a word
    /// or number is expected.
    #[error("byte {at}: bad head")]
    BadHead { at: usize },
    /// No digit, a leading zero, or a number that is too great or too small. The place is where the
    /// number begins.
    #[error("byte {at}: bad number")]
    BadNumber { at: usize },
    /// The text ends within a record. The place is its length.
    #[error("byte {at}: cut short")]
    CutShort { at: usize },
    /// The edits of the record (or step, in version 1) at this place are no list of edits, as
    /// `Edits::make` says.
    #[error("byte {at}: bad edits")]
    BadEdits { at: usize },
    /// Other bytes where the line end after an edit, or the end of a record, is expected. The place
    /// is where that begins.
    #[error("byte {at}: bad end")]
    BadEnd { at: usize },
    /// There was no memory for the journal.
    #[error("out of memory")]
    Memory,
    /// The step at this place, of a record of version 1, cannot follow the steps before it.
    #[error("byte {at}: bad steps")]
    BadSteps { at: usize },
}

/// The kind of an error.
#[derive(Clone, Copy)]
pub(crate) enum FaultKind {
    Head,
    Number,
    CutShort,
    Edits,
    End,
    Steps,
}

/// An error of a text, with the number of bytes from there to the end of the text.
#[derive(Clone, Copy)]
pub(crate) struct TextError {
    pub(crate) kind: FaultKind,
    pub(crate) left: usize,
}

/// Why a reader that allocates stopped.
#[derive(Clone, Copy)]
pub(crate) enum DecodeStop {
    Memory,
    Bad(TextError),
}

impl DecodeStop {
    ghost use Rattle.edit_record.specs.Inner.Faults.{fault_of};

    /// Returns the public error, for a text of `len` bytes.
    pub(crate) fn into_fault(self, len: usize) -> RecordFault
        ensures { result ≡ fault_of self len }
    {
        match self {
            DecodeStop::Memory => RecordFault::Memory,
            DecodeStop::Bad(TextError { kind, left }) => {
                let at = len.saturating_sub(left);
                match kind {
                    FaultKind::Head => RecordFault::BadHead { at },
                    FaultKind::Number => RecordFault::BadNumber { at },
                    FaultKind::CutShort => RecordFault::CutShort { at },
                    FaultKind::Edits => RecordFault::BadEdits { at },
                    FaultKind::End => RecordFault::BadEnd { at },
                    FaultKind::Steps => RecordFault::BadSteps { at },
                }
            }
        }
    }
}

impl From<TextError> for DecodeStop {
    ghost from_gives = { λ error e. e ≡ Bad error };

    fn from(error: TextError) -> DecodeStop {
        DecodeStop::Bad(error)
    }
}

impl From<AllocError> for DecodeStop {
    ghost from_gives = { λ _ e. e ≡ Memory };

    fn from(_e: AllocError) -> DecodeStop {
        DecodeStop::Memory
    }
}

impl<T: Drop> From<AllocFailed<T>> for DecodeStop {
    ghost from_gives = { λ _ e. e ≡ Memory };

    fn from(_e: AllocFailed<T>) -> DecodeStop {
        DecodeStop::Memory
    }
}
