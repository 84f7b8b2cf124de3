//! Swapping two lists of edits, the second of which follows the first.
//!
//! This is how one command is undone out of order: its edits are swapped with those of each later
//! command, are then the last, and can be undone. Places and lengths count bytes from 0; edits and
//! records are numbered from 0.

pub mod laws;
mod moving_edits;
mod relative_ends;
mod reorder;
mod swap_lists;
mod swap_state;

pub use reorder::{MoveFault, move_to_end};
pub use swap_lists::{SwapFault, swap};
