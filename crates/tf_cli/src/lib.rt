//! The command line of `tfk`: its arguments to a task, the texts of its help, and an outcome to an
//! exit status.
#![tactic(auto)]

mod advice;
mod clap_commands;
mod command_line;
mod counterparts;
mod dry_run;
mod exits;
mod help;
mod options;
mod outcome;
mod rule_choice;
mod similar;
mod tasks;
mod tracked;

pub use command_line::CommandLine;
pub use exits::Exit;
pub use options::Action;
pub use outcome::{FileOutcome, RunOutcome};
pub use tasks::Task;
