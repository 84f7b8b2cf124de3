//! The layout of Terraform texts by the Terraform style conventions: gaps between tokens change,
//! and nothing else.
//!
//! `gaps` formats any list of tokens; the functions at the root format a text that parses, which
//! keeps its tokens and its tree. `laws` states what holds of every layout.
#![tactic(auto)]

mod format;
pub mod gaps;
pub mod laws;

pub use format::{formatted_text, is_laid_out, is_parsed_laid_out, layout, layout_of_parsed};
pub use gaps::LayoutFault;
