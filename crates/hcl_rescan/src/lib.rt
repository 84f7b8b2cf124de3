//! The tokens of an edited text, by those of the text before the edit.
#![tactic(auto)]

mod anew;
mod fault;
mod incremental;
mod line_starts;
mod moved;
mod rescanned;
mod reuse;
mod sequences;
mod stretches;

pub use incremental::{ReplacedRange, rescan};
