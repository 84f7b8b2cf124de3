//! Why no tree is made, by the numbers of tokens.

use std::alloc::{AllocError, AllocFailed};

/// Why no tree is made of a list of tokens. The number is that of a token in the list, from 0.
#[derive(Clone, Copy)]
pub enum TokenFault {
    /// The first token that cannot go on; the length of the list, where it ends too early.
    Syntax(u32),
    /// The token that opens the construct which is nested too deep.
    TooDeep(u32),
    /// An allocation failed.
    Memory,
}

impl From<AllocError> for TokenFault {
    ghost use Rattle.std.specs.Prelude.{◌≡◌};
    ghost use Rattle.hcl_grammar.specs.declared.fault.TokenFault.TheVariants.{Memory};

    ghost from_gives = { λ _ e. e ≡ Memory };

    fn from(_error: AllocError) -> TokenFault {
        TokenFault::Memory
    }
}

impl<T: Drop> From<AllocFailed<T>> for TokenFault {
    ghost use Rattle.std.specs.Prelude.{◌≡◌};
    ghost use Rattle.hcl_grammar.specs.declared.fault.TokenFault.TheVariants.{Memory};

    ghost from_gives = { λ _ e. e ≡ Memory };

    fn from(_error: AllocFailed<T>) -> TokenFault {
        TokenFault::Memory
    }
}
