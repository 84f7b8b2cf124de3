//! Sessions over a Terraform text and its journal, and whole texts and journals from readers and to
//! writers.
//!
//! A `Session` is a text with the journal of the commands that changed it; `run` does several
//! commands. The streams read a text, or a text and its journal, run a command, and write the
//! result, the journal first. Every reader and writer is handed over in a fresh `Told`, which keeps
//! whether a call of it failed. `laws` states what holds of whole runs.
#![tactic(auto)]

mod command;
mod fault;
mod fixing;
mod formatting;
mod invocation;
pub mod journal_laws;
mod journaled_streams;
pub mod laws;
mod linting;
mod loader;
mod reading;
mod running;
mod saver;
mod session;
mod streaming;
mod taking;
mod text_io;

pub use command::{Command, Done, Fault, Reply};
pub use edit_record::RecordFault;
pub use edit_record::lists::{Journal, Refused};
pub use fault::{RunFault, SessionPart};
pub use fixing::{fix_alone, fix_without_session};
pub use formatting::{format_without_session, is_formatted};
pub use hcl_scan::ScanFault;
pub use hcl_tree::ParseFault;
pub use invocation::{Effect, invoke};
pub use journaled_streams::{fix_stream, fmt_stream, revert_stream};
pub use linting::{issue_lines, lint_stream};
pub use loader::{MAX_JOURNAL, load, take_journal};
pub use running::run;
pub use saver::{SavedTexts, journal_text, save, saved_texts};
pub use session::Session;
pub use streaming::{check_stream, format_text_stream, step_text_stream};
pub use text_io::{put_journal, put_text, take_text};
pub use tf_lint::{Remaining, Rule, RuleSet};
pub use tf_stream::Told;
