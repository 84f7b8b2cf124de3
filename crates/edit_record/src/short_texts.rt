//! Writing heads and short edits into memory that is reserved already, for speed alone.
//!
//! Of the columns in encoder.rt `push_edit` repeats all those of an edit that stores its bytes
//! inline, and `short_len` adds their lengths; `push_edit_head` repeats the three numbers of an
//! edit, `write_long_edit` its bytes and its end after them, and `push_list_head` the two numbers of
//! a list.
ghost use Rattle.std.specs.Prelude.{◌≡◌, ◌+◌, ◌++◌, ◌<◌, ◌≤◌, length, take, drop, vec_len, vec_capacity};
ghost use Rattle.std.specs.Prelude.{OnOk};
ghost use Rattle.edit_record.specs.Text.{edit_text, edit_head, list_head};
ghost use Rattle.edit_record.specs.declared.columns.TheConstants.{MOST_BYTES};
ghost use Rattle.edit_record.specs.declared.digits.TheConstants.{NINE_DIGITS};
ghost use Rattle.edit_record.specs.declared.lists.edit.TheConstants.{INLINE_CAPACITY};

use crate::columns::EDIT_ENDS;
use crate::digits::{digit_count, push_number_text, push_short, short_count};
use crate::lists::INLINE_CAPACITY;
use std::alloc::AllocError;

/// Pushes the first bytes of an array. All its bytes are copied, since that is faster than to copy
/// only these, and the others are cut off.
#[inline(always)]
fn push_first(out: &mut Vec<u8>, bytes: &[u8; INLINE_CAPACITY], count: usize)
    requires few { count ≤ INLINE_CAPACITY }
    requires spare { vec_len out.old + INLINE_CAPACITY ≤ vec_capacity out.old }
    ensures text { out.new.items ≡ out.old.items ++ take count bytes.now }
    ensures len { vec_len out.new ≡ vec_len out.old + count }
    ensures capacity { vec_capacity out.old ≤ vec_capacity out.new }
{
    let end = out.len() + count;
    let _ = out.extend_from_slice(bytes);
    out.truncate(end);
}

/// Pushes the text of an edit. Its removed bytes and then its added ones begin the array.
#[inline(always)]
pub(crate) fn push_edit(
    out: &mut Vec<u8>,
    at: usize,
    removed: usize,
    added: usize,
    texts: &[u8; INLINE_CAPACITY],
)
    requires near { at < NINE_DIGITS }
    requires few { removed + added ≤ INLINE_CAPACITY }
    requires spare { vec_len out.old + MOST_BYTES ≤ vec_capacity out.old }
    ensures { out.new.items
        ≡ out.old.items
        ++ edit_text (record {
          at = at;
          removed = take removed texts.now;
          added = take added (drop removed texts.now);
        }) }
{
    let len = removed + added;
    push_number_text(out, at, b' ');
    push_short(out, removed);
    out.push_reserved(b' ');
    push_short(out, added);
    out.push_reserved(b'\n');
    push_first(out, texts, len);
    out.push_reserved(b'\n');
}

/// Returns the length of the text of an edit. Its removed bytes and then its added ones begin the
/// array. For the proof: the array is named in clauses alone.
#[inline(always)]
pub(crate) fn short_len(
    at: usize,
    removed: usize,
    added: usize,
    texts: &[u8; INLINE_CAPACITY],
) -> usize
    requires few { removed + added ≤ INLINE_CAPACITY }
    ensures is { result
        ≡ length (edit_text (record {
          at = at;
          removed = take removed texts.now;
          added = take added (drop removed texts.now);
        })) }
    ensures small { result ≤ 100 }
{
    let _ = texts;
    let digits = digit_count(at) + short_count(removed) + short_count(added);
    digits + removed + added + EDIT_ENDS
}

/// Pushes the head of an edit.
pub(crate) fn push_edit_head(out: &mut Vec<u8>, at: usize, removed: usize, added: usize)
    requires at { at < NINE_DIGITS }
    requires removed { removed < NINE_DIGITS }
    requires added { added < NINE_DIGITS }
    requires spare { vec_len out.old + MOST_BYTES ≤ vec_capacity out.old }
    ensures { out.new.items ≡ out.old.items ++ edit_head at removed added }
{
    push_number_text(out, at, b' ');
    push_number_text(out, removed, b' ');
    push_number_text(out, added, b'\n');
}

/// Writes the text of an edit: its head at once, and then its bytes and the line end.
pub(crate) fn write_long_edit(
    out: &mut Vec<u8>,
    at: usize,
    removed: &[u8],
    added: &[u8],
) -> Result<(), AllocError>
    requires at { at < NINE_DIGITS }
    requires removed { length removed.now < NINE_DIGITS }
    requires added { length added.now < NINE_DIGITS }
    requires spare { vec_len out.old + MOST_BYTES ≤ vec_capacity out.old }
    ensures { OnOk result (out.new.items
        ≡ out.old.items
        ++ edit_text (record {
          at = at;
          removed = removed.now;
          added = added.now;
        })) }
{
    push_edit_head(out, at, removed.len(), added.len());
    out.extend_from_slice(removed)?;
    out.extend_from_slice(added)?;
    out.push(b'\n')?;
    Ok(())
}

/// Pushes the head of a list of edits.
pub(crate) fn push_list_head(out: &mut Vec<u8>, old_len: usize, count: usize)
    requires old_len { old_len < NINE_DIGITS }
    requires count { count < NINE_DIGITS }
    requires spare { vec_len out.old + MOST_BYTES ≤ vec_capacity out.old }
    ensures { out.new.items ≡ out.old.items ++ list_head old_len count }
{
    push_number_text(out, old_len, b' ');
    push_number_text(out, count, b'\n');
}
