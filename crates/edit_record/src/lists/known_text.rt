//! The text that the first records of a journal were read from, kept for speed alone: where these
//! records are written again it is copied, or what follows is written after it.
ghost use Rattle.std.specs.Prelude.{◌≡◌, ◌≤◌, ◌/◌, length, IfSome, vec_capacity};
ghost use Rattle.edit_record.specs.Inner.KnownText.{IsKnownText};
ghost use Rattle.edit_record.specs.declared.lists.known_text.TheConstants.{MOST_SPARE};

use crate::encoder::records_len;
use crate::lists::Record;

/// A text is kept while its memory is at most this many times its length.
pub(crate) const MOST_SPARE: usize = 4;

/// Returns a text if it is to be kept.
pub(crate) fn text_to_keep(text: Vec<u8>) -> Option<Vec<u8>>
    ensures is { IfSome result (λ kept. kept.items ≡ text.items) }
    ensures spare { IfSome result (λ kept. vec_capacity kept / MOST_SPARE ≤ length kept.items) }
{
    if text.len() < text.capacity() / MOST_SPARE {
        return None;
    }
    Some(text)
}

/// Shortens the text of the first `known` records to that of the first `to` of them, if these are
/// fewer. Returns how many records the text has then.
pub(crate) fn shorten_known_text(
    records: &[Record],
    known: usize,
    text: &mut Vec<u8>,
    to: usize,
) -> usize
    requires { IsKnownText records.now known text.old.items }
    ensures known { IsKnownText records.now result text.new.items }
    ensures within { result ≤ to }
    ensures spare { vec_capacity text.old / MOST_SPARE ≤ length text.old.items
        → vec_capacity text.new / MOST_SPARE ≤ length text.new.items }
{
    if known <= to {
        return known;
    }
    let len = text.len() - records_len(&records[to..known]);
    if len < text.capacity() / MOST_SPARE {
        *text = Vec::new(*text.allocator());
        return 0;
    }
    text.truncate(len);
    to
}
