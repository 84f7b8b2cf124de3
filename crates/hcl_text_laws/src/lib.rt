//! Texts that parse: their tokens follow the grammar of the HCL native syntax.
#![tactic(auto)]

mod fault;
pub mod laws;

pub use fault::{ParseFault, to_parse_fault};
