//! Lists of exact edits of a text, which can be applied and undone.
//!
//! A list of edits says which bytes of a text of a known length are replaced by which. It is
//! applied only to a text that has the bytes that each edit removes, and undone only in a text that
//! has the bytes that each edit adds; any other text is refused. All places and lengths count bytes
//! from 0, and steps and edits are numbered from 0.

mod change;
mod direction;
mod edit;
mod edits;
mod journal;
mod known_text;
pub mod laws;
mod pass;
mod record;
mod sequence;
mod two_lists;

pub use change::{Change, Refused};
pub use direction::Direction;
pub(crate) use edit::INLINE_CAPACITY;
pub use edit::{BadEdits, Edit};
pub use edits::{Edits, MAX_TEXT};
pub use journal::Journal;
pub use record::{Record, Word};
pub use sequence::{apply_all, undo_all};
pub(crate) use two_lists::has_more;
