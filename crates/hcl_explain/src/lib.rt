//! Says of a text that does not parse where the mistake is, what was found there, and what was
//! expected or is not closed.
//!
//! `explain` and `explain_scan` return an explanation as a value, which contracts speak of;
//! its sentence is made last.
#![tactic(auto)]

mod advice;
mod beginning;
mod character;
mod context;
mod directives;
mod escape;
mod expected;
mod explanation;
mod found;
mod head;
mod heredoc;
mod indents;
mod joined;
mod lines;
mod marker;
mod near;
mod openings;
mod said;
mod scan_character;
mod scan_error;
mod scan_sentence;
mod sentence;
mod sequence;
mod unclosed;
mod without;

pub use advice::Advice;
pub use expected::Expected;
pub use explanation::{Explanation, Reason, explain};
pub use head::HeadAdvice;
pub use said::{Said, say_parse_fault, say_scan_fault};
pub use scan_error::{ScanExplanation, ScanReason, explain_scan};
