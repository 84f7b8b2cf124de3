//! Exact edits of a text, the journal of the commands that made them, and the journal's text.
//!
//! A list of edits (`lists`) says which bytes of a text of a known length become which, and can be
//! applied and undone. Two lists become one (`squashes`), or change their order (`swaps`), so that
//! a command in the middle can be undone. The journal's text has a format of its own; version 2 is
//! written, versions 1 and 2 are read. Offsets and lengths count bytes from 0; steps, edits and
//! records are numbered from 0.
#![tactic(auto)]

mod columns;
mod decoder;
mod digits;
mod edit_sums;
mod encoder;
mod fault;
pub mod laws;
mod list_capacity;
pub mod lists;
mod readers;
mod short_edits;
mod short_texts;
pub mod squashes;
pub mod swaps;
mod version_1;

pub use decoder::{decode, decode_owned};
pub use encoder::{encode, encode_owned, encode_with_len, encoded_len};
pub use fault::RecordFault;
pub use lists::{
    BadEdits, Change, Direction, Edit, Edits, Journal, MAX_TEXT, Record, Refused, Word, apply_all,
    undo_all,
};
pub use squashes::{Unmet, squash};
pub use swaps::{MoveFault, SwapFault, move_to_end, swap};
