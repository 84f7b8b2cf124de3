//! Why a text has no tokens.

ghost use Rattle.std.specs.Prelude.{◌≡◌};
ghost use Rattle.hcl_scan.specs.Fault.{byte_of_fault};

use hcl_token::MAX_TEXT;
use std::alloc::{AllocError, AllocFailed};
use thiserror::Error;

/// Why a text has no tokens, and where. All places are in bytes, from 0.
///
/// HCL native syntax specification, Lexical Elements; the order of the errors and their places are
/// this project's own.
#[derive(Clone, Copy, Debug, PartialEq, Eq, Error)]
pub enum ScanFault {
    /// The text has more than `MAX_TEXT` bytes.
    #[error("the text has more than {} bytes", MAX_TEXT)]
    TooLong,
    /// The first byte of the first ill-formed sequence.
    #[error("byte {at}: not UTF-8")]
    NotUtf8 { at: usize },
    /// No token begins here.
    #[error("byte {at}: unexpected character")]
    BadCharacter { at: usize },
    /// A `\` with no escape after it.
    #[error("byte {at}: unknown escape")]
    BadEscape { at: usize },
    /// The opening quote of a string that is not closed on its line.
    #[error("byte {at}: string is not closed")]
    OpenString { at: usize },
    /// The opening of a template sequence that is not closed.
    #[error("byte {at}: template sequence is not closed")]
    OpenTemplate { at: usize },
    /// The opening of a heredoc that is not closed.
    #[error("byte {at}: heredoc is not closed")]
    OpenHeredoc { at: usize },
    /// The opening of an inline comment that is not closed.
    #[error("byte {at}: comment is not closed")]
    OpenComment { at: usize },
    /// An allocation failed.
    #[error("out of memory")]
    Memory,
}

impl ScanFault {
    /// Returns its byte, from 0, if it is at one.
    pub fn at(&self) -> Option<usize>
        ensures { result ≡ byte_of_fault self.now }
    {
        match self {
            ScanFault::NotUtf8 { at }
            | ScanFault::BadCharacter { at }
            | ScanFault::BadEscape { at }
            | ScanFault::OpenString { at }
            | ScanFault::OpenTemplate { at }
            | ScanFault::OpenHeredoc { at }
            | ScanFault::OpenComment { at } => Some(*at),
            ScanFault::TooLong | ScanFault::Memory => None,
        }
    }
}

impl From<AllocError> for ScanFault {
    ghost use Rattle.hcl_scan.specs.declared.fault.ScanFault.TheVariants.{Memory};

    ghost from_gives = { λ _ e. e ≡ Memory };

    fn from(_: AllocError) -> Self {
        ScanFault::Memory
    }
}

impl<T: Drop> From<AllocFailed<T>> for ScanFault {
    ghost use Rattle.hcl_scan.specs.declared.fault.ScanFault.TheVariants.{Memory};

    ghost from_gives = { λ _ e. e ≡ Memory };

    fn from(_: AllocFailed<T>) -> Self {
        ScanFault::Memory
    }
}
