//! Laws of the grammar: it is unambiguous, a parser answers exactly its trees, and each node is
//! derived by its own tokens.
#![tactic(auto)]

pub mod laws;
