//! One pass over a text and the edits, in either direction.
ghost use Rattle.std.specs.Prelude.{◌≡◌, IfErr};
ghost use Rattle.edit_record.specs.Lists.Pieces.{as_list};
ghost use Rattle.edit_record.specs.Lists.Validity.{AreValidEdits};
ghost use Rattle.edit_record.specs.Lists.ChangeResults.{AgreesWith, HasExpectedLen};
ghost use Rattle.edit_record.specs.Lists.Apply.{read_bytes, written_bytes, apply_edits};
ghost use Rattle.edit_record.specs.declared.lists.change.Refused.TheVariants.{Memory};

use crate::lists::direction::Direction;
use crate::lists::{Edit, Refused};
use std::alloc::Global;

/// Returns the bytes of an edit that the text must have.
fn read_bytes(direction: Direction, edit: &Edit) -> &[u8]
    ensures { result.now ≡ read_bytes direction edit.now }
{
    match direction {
        Direction::Forward => edit.removed(),
        Direction::Backward => edit.added(),
    }
}

/// Returns the bytes of an edit that replace these.
fn written_bytes(direction: Direction, edit: &Edit) -> &[u8]
    ensures { result.now ≡ written_bytes direction edit.now }
{
    match direction {
        Direction::Forward => edit.added(),
        Direction::Backward => edit.removed(),
    }
}

/// Applies the edits to `text`, or undoes them if `direction` is `Backward`.
///
/// The bytes between two edits are the same in both texts, so the distance to the next edit is
/// enough: no offset has to be adjusted.
pub(crate) fn apply_edits(
    alloc: Global,
    direction: Direction,
    old_len: usize,
    new_len: usize,
    edits: &[Edit],
    text: &[u8],
) -> Result<Vec<u8>, Refused>
    requires { AreValidEdits old_len new_len edits.now }
    ensures agrees { AgreesWith result (apply_edits direction (as_list old_len edits.now) text.now) }
    ensures memory { IfErr result
        (λ e. e ≡ Memory → HasExpectedLen direction (as_list old_len edits.now) text.now) }
{
    let (expected, len) = match direction {
        Direction::Forward => (old_len, new_len),
        Direction::Backward => (new_len, old_len),
    };
    if text.len() != expected {
        return Err(Refused::Length {
            expected,
            found: text.len(),
        });
    }
    let mut out = Vec::with_capacity(alloc, len)?;
    let mut rest = text;
    let mut old_end = 0;
    for (i, edit) in edits.iter().enumerate() {
        let (kept, after) = rest.split_at(edit.at() - old_end);
        let read = read_bytes(direction, edit);
        if !after.starts_with(read) {
            return Err(Refused::Differs { step: 0, edit: i });
        }
        out.extend_from_slice(kept)?;
        out.extend_from_slice(written_bytes(direction, edit))?;
        rest = &after[read.len()..];
        old_end = edit.at() + edit.removed().len();
    }
    out.extend_from_slice(rest)?;
    Ok(out)
}
