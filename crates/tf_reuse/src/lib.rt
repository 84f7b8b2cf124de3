//! Attributes and blocks whose tokens are also those of another text, and their findings with other
//! token numbers.
#![tactic(auto)]

pub mod laws;
mod renumber;

pub use renumber::renumber_findings;
