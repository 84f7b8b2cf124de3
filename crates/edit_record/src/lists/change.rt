//! Changes of a text that can be applied and undone, and why one is refused.

ghost use Rattle.std.specs.Prelude.{◌≡◌, ◌≢◌, ◌↔◌, List, ℕ, Result, Ok, Err};
ghost use Rattle.edit_record.specs.declared.lists.change.Refused.TheVariants.{Memory};
ghost use Rattle.edit_record.specs.declared.lists.change.Refused.{Refused};
ghost use Rattle.edit_record.specs.Lists.ChangeResults.{AgreesWith};

use std::alloc::{AllocError, AllocFailed, Global};
use std::error::Error;
use std::fmt;

/// Why a change was not applied or undone.
#[derive(Clone, Copy, Debug, PartialEq, Eq)]
pub enum Refused {
    /// The text has another length than the change requires, in bytes.
    Length { expected: usize, found: usize },
    /// The text does not have the bytes that an edit expects. `edit` is the first such edit; steps
    /// and edits are numbered from 0.
    Differs { step: usize, edit: usize },
    /// Memory for the other text ran out.
    Memory,
}

// By hand, since a derived one does not state the message.
impl fmt::Display for Refused {
    ghost use Rattle.std.specs.Prelude.{Some};
    ghost use Rattle.edit_record.specs.Lists.ChangeResults.{refused_message};

    ghost output = { λ refused. Some (refused_message refused) };

    fn fmt<W: fmt::Write>(&self, f: &mut fmt::Formatter<W>) -> fmt::Result {
        match self {
            Refused::Length { expected, found } => {
                write!(f, "record expects {expected} bytes, found {found}")
            }
            Refused::Differs { step, edit } => {
                write!(f, "record does not stand, step {step} edit {edit}")
            }
            Refused::Memory => f.write_str("out of memory"),
        }
    }
}

impl Error for Refused {}

impl From<AllocError> for Refused {
    ghost from_gives = { λ _ e. e ≡ Memory };

    fn from(_e: AllocError) -> Refused {
        Refused::Memory
    }
}

impl<T: Drop> From<AllocFailed<T>> for Refused {
    ghost from_gives = { λ _ e. e ≡ Memory };

    fn from(_e: AllocFailed<T>) -> Refused {
        Refused::Memory
    }
}

/// A change of a text that can be applied and undone.
///
/// A change is one-to-one: `apply` has at most one result for a text, and so has `undo`, and each
/// returns it if there is one. Neither changes the text that it borrows.
pub trait Change {
    /// The change turns the first text into the second.
    ghost turns: { Self → List ℕ → List ℕ → Type 0 };

    /// The new text of an old one, or why there is none, as a function.
    ghost forward: { Self → List ℕ → Result (List ℕ) Refused };

    /// The old text of a new one, or why there is none, as a function.
    ghost backward: { Self → List ℕ → Result (List ℕ) Refused };

    /// Returns the new text of this old one.
    ///
    /// # Errors
    ///
    /// `Length` or `Differs` if there is none; `Memory` if an allocation fails.
    fn apply(&self, alloc: Global, text: &[u8]) -> Result<Vec<u8>, Refused>
        ensures { AgreesWith result (forward self.now text.now) };

    /// Returns the old text of this new one.
    ///
    /// # Errors
    ///
    /// `Length` or `Differs` if there is none; `Memory` if an allocation fails.
    fn undo(&self, alloc: Global, text: &[u8]) -> Result<Vec<u8>, Refused>
        ensures { AgreesWith result (backward self.now text.now) };

    /// A text has a new one if and only if the change turns it into that.
    ghost applies: { (c : Self) (t u : List ℕ) → (forward c t ≡ Ok u) ↔ turns c t u };

    /// A text has an old one if and only if the change turns that into it.
    ghost undoes: { (c : Self) (t u : List ℕ) → (backward c u ≡ Ok t) ↔ turns c t u };

    /// The functions of texts never return Memory: only a call does, whose allocation failed.
    ghost never_memory: { (c : Self) (t : List ℕ)
        → (forward c t ≢ Err Memory) × (backward c t ≢ Err Memory) };
}
