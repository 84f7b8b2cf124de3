//! The layout of Terraform texts: gaps between tokens, and nothing else, by the Terraform style
//! conventions.
//!
//! `layout` returns the edits that format a text, `formatted_text` the formatted text, and
//! `is_laid_out` whether there are no edits. They read its tokens alone. `laws` states what holds
//! of every layout.

mod base_gaps;
mod cell_starts;
mod cells;
mod changes;
mod edits;
mod fault;
mod format;
mod gap_numbers;
mod gaps;
mod indent;
mod kinds;
pub mod laws;
mod limit;
mod line_flags;
mod line_pass;
mod line_spans;
mod lines;
mod space;
mod spacing_flags;
mod text;
mod text_bytes;

pub use fault::LayoutFault;
pub use format::{formatted_text, is_laid_out, layout};
