//! Edits, records and sessions that are the same, seen without taking memory.

use edit_record::{Edit, Edits, Record};
use tf_session::Session;

fn is_same_edit(one: &Edit, other: &Edit) -> bool {
    one.at() == other.at() && one.removed() == other.removed() && one.added() == other.added()
}

/// Whether these are the same edits.
pub fn are_same_edits(one: &Edits, other: &Edits) -> bool {
    one.old_len() == other.old_len()
        && one.new_len() == other.new_len()
        && one.edits().len() == other.edits().len()
        && one
            .edits()
            .iter()
            .zip(other.edits())
            .all(|(a, b)| is_same_edit(a, b))
}

/// Whether this is the same record.
pub fn is_same_record(one: &Record, other: &Record) -> bool {
    one.word() == other.word() && are_same_edits(one.edits(), other.edits())
}

/// Whether both begin with the same records, as far as both have some.
pub fn begin_alike(one: &[Record], other: &[Record]) -> bool {
    one.iter().zip(other).all(|(a, b)| is_same_record(a, b))
}

/// Whether these are the same records.
pub fn are_same_records(one: &[Record], other: &[Record]) -> bool {
    one.len() == other.len() && begin_alike(one, other)
}

/// Whether these sessions are in the same state.
pub fn are_same_sessions(one: &Session, other: &Session) -> bool {
    one.text() == other.text()
        && are_same_records(one.journal().records(), other.journal().records())
}
