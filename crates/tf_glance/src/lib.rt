//! A glance at one attribute or block: whether it is clean, that is, no rule finds anything in it,
//! with no tree made.
#![tactic(auto)]

mod block_type;
mod builder;
mod members;
mod skipping;
mod summary;

pub use skipping::skip_clean_member;
