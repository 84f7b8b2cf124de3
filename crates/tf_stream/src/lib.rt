//! Whole texts from readers and to writers, and what was read or sent when a call failed.
#![tactic(auto)]

mod fault;
mod reading;
mod told;
mod writing;

pub use fault::{ReadFault, WriteFault};
pub use reading::read_to_limit;
pub use told::Told;
pub use writing::write_and_flush;
