//! Why the findings of a text are not reported, or not fixed.

ghost use Rattle.std.specs.Prelude.{◌≡◌};
ghost use Rattle.tf_fix.specs.declared.fault.LintFault.TheVariants.{Memory};

use hcl_scan::MAX_TEXT;
use std::alloc::{AllocError, AllocFailed};
use thiserror::Error;

/// Why the findings of a text are not reported, or not fixed.
#[derive(Clone, Copy, Debug, PartialEq, Eq, Error)]
pub enum LintFault {
    /// The fixed text would have more than `MAX_TEXT` bytes.
    #[error("the text has more than {} bytes", MAX_TEXT)]
    TooLong,
    /// Memory ran out.
    #[error("out of memory")]
    Memory,
}

impl From<AllocError> for LintFault {
    ghost from_gives = { λ _ e. e ≡ Memory };

    fn from(_: AllocError) -> Self {
        LintFault::Memory
    }
}

impl<T: Drop> From<AllocFailed<T>> for LintFault {
    ghost from_gives = { λ _ e. e ≡ Memory };

    fn from(_: AllocFailed<T>) -> Self {
        LintFault::Memory
    }
}
