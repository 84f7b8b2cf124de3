//! One step of a fix: from what a rule finds in a text to the exact edits that fix it.
//!
//! `fix_step` makes the edits of one rule's step over a text and its tree, `fix_step_of_findings`
//! those over what was found already. `selected_count` counts the findings that one step fixes,
//! `fix_step_edits` makes its edits. `laws` says to what text they lead.
#![tactic(auto)]

mod boundary;
mod comment;
mod fault;
mod insertion;
pub mod laws;
mod packed;
mod parsed;
mod prev_token;
mod replacement_list;
mod rule_edits;
mod selection;
mod splice;
mod step;

pub use fault::LintFault;
pub use parsed::Parsed;
pub use rule_edits::fix_step_edits;
pub use selection::selected_count;
pub use step::{StepEdits, fix_step, fix_step_of_findings};
