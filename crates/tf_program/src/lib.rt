//! The work of the program `tfk`, from its arguments to its exit status.
#![tactic(auto)]

mod answer;
mod batch;
mod entry;
mod file_error;
mod files;
mod finish;
mod hint;
pub mod laws;
mod location;
mod printing;
mod read_only;
mod record_list;
mod report;
mod run;
mod streams;

pub use run::{work, work_in};
pub use streams::Streams;
