//! The order of the system calls that save a file with its journal, and of those that recover from
//! a save that was interrupted. The machine makes no call itself: [`Step::call`] returns the next
//! one, and [`Step::after`] takes the system's reply. So a law can speak of a crash, a failure or a
//! power loss at each call (`laws`).
#![tactic(auto)]

mod call;
mod laws;
mod step;

pub use call::{Reply, SavedFile, Syscall};
pub use laws::{
    a_recovery_ends, a_stray_is_not_adopted, a_success_is_durable, an_edit_is_kept,
    an_error_changes_nothing, nothing_is_lost,
};
pub use step::{End, Step};
