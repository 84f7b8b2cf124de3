//! Why the tokens of a text are not found by those of an old one.

ghost use Rattle.std.specs.Prelude.{◌≡◌};

use std::alloc::AllocError;

/// Why the tokens of a text are not found by those of an old one.
#[derive(Clone, Copy)]
pub(crate) enum RescanFault {
    /// An allocation failed.
    Memory,
    /// The text does not consist of old lines and of lines that can be scanned by themselves.
    Mismatch,
}

impl From<AllocError> for RescanFault {
    ghost use Rattle.hcl_rescan.specs.declared.fault.RescanFault.TheVariants.{Memory};

    ghost from_gives = { λ _ e. e ≡ Memory };

    fn from(_: AllocError) -> Self {
        RescanFault::Memory
    }
}
