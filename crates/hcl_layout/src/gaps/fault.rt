//! Why a text is not formatted.

ghost use Rattle.std.specs.Prelude.{◌≡◌};
ghost use Rattle.hcl_layout.specs.declared.gaps.fault.LayoutFault.TheVariants.{Memory};

use hcl_scan::MAX_TEXT;
use std::alloc::{AllocError, AllocFailed};
use thiserror::Error;

/// Why a text is not formatted.
#[derive(Clone, Copy, Debug, PartialEq, Eq, Error)]
pub enum LayoutFault {
    /// The layout has more than `MAX_TEXT` bytes.
    #[error("the text has more than {} bytes", MAX_TEXT)]
    TooLong,
    /// An allocation failed.
    #[error("out of memory")]
    Memory,
}

impl From<AllocError> for LayoutFault {
    ghost from_gives = { λ _ e. e ≡ Memory };

    fn from(_: AllocError) -> Self {
        LayoutFault::Memory
    }
}

impl<T: Drop> From<AllocFailed<T>> for LayoutFault {
    ghost from_gives = { λ _ e. e ≡ Memory };

    fn from(_: AllocFailed<T>) -> Self {
        LayoutFault::Memory
    }
}
