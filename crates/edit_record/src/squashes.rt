//! The composition of two lists of edits, the second of which follows the first.

pub mod laws;
mod merge;
mod squash_lists;

pub use squash_lists::{Unmet, squash};
