//! Squashing two lists of edits.

ghost use Rattle.std.specs.Prelude.{◌≡◌, ◌+◌, ◌<◌, length, IfErr};
ghost use Rattle.edit_record.specs.Lists.Validity.{new_len};
ghost use Rattle.edit_record.specs.Squashes.Inner.MergeResult.{IsMergeResult};
ghost use Rattle.edit_record.specs.Squashes.Squash.{IsSquashResult};
ghost use Rattle.edit_record.specs.declared.squashes.squash_lists.Unmet.TheVariants.{Memory};

use crate::lists::{Edit, Edits, has_more};
use crate::squashes::merge::Merge;
use std::alloc::{AllocError, Global};
use thiserror::Error;

/// Why two lists of edits do not squash.
#[derive(Clone, Copy, Debug, PartialEq, Eq, Error)]
pub enum Unmet {
    /// The texts that the first list makes have another length than those that the second applies
    /// to.
    #[error("the lengths of the two lists of edits do not follow")]
    LengthsDiffer,
    /// This edit of the second list, counted from 0, removes bytes that differ from those that the
    /// first added there. It is the lowest such edit.
    #[error("edit {edit} of the second list contradicts the first")]
    Contradicts { edit: usize },
    /// Memory for the edits ran out.
    #[error("out of memory")]
    Memory,
}

impl From<AllocError> for Unmet {
    ghost from_gives = { λ _ e. e ≡ Memory };

    fn from(_e: AllocError) -> Unmet {
        Unmet::Memory
    }
}

/// Returns one list of edits that does what `first` and then `second` do.
///
/// Edits of the one list and of the other that overlap or touch in the text between become one
/// edit; the others stay, with offsets in the first text. An edit that removes nothing and adds
/// nothing is dropped. One that adds the bytes that it removes is kept, since it says which bytes
/// the text has there. The result is never too long.
///
/// It takes one pass over both lists, and builds no text. If neither has an edit it allocates
/// nothing.
///
/// # Errors
///
/// `LengthsDiffer` if the texts that `first` makes have another length than those that `second`
/// applies to; `Contradicts`, with the lowest such edit, if an edit of `second` removes bytes that
/// differ from those that `first` added there; `Memory` if an allocation fails before that.
pub fn squash(alloc: Global, first: &Edits, second: &Edits) -> Result<Edits, Unmet>
    ensures { IsSquashResult first.now second.now result }
{
    if first.new_len() != second.old_len() {
        return Err(Unmet::LengthsDiffer);
    }
    let edits = merge_lists(alloc, first, second)?;
    Ok(Edits::from_valid(first.old_len(), second.new_len(), edits))
}

/// Merges the edits of both lists. If these have none, nothing is allocated.
fn merge_lists(alloc: Global, first: &Edits, second: &Edits) -> Result<Vec<Edit>, Unmet>
    requires { new_len first.now ≡ second.now.old_len }
    ensures merges { IsMergeResult first.now second.now result }
    ensures memory { IfErr result
        (λ e. e ≡ Memory → 0 < length first.now.entries + length second.now.entries) }
{
    if !has_more(first.edits(), second.edits()) {
        return Ok(Vec::new(alloc));
    }
    merge_nonempty(alloc, first, second)
}

/// Merges the edits of both lists.
fn merge_nonempty<'a>(
    alloc: Global,
    first: &'a Edits,
    second: &'a Edits,
) -> Result<Vec<Edit>, Unmet>
    requires { new_len first.now ≡ second.now.old_len }
    ensures { IsMergeResult first.now second.now result }
{
    let mut merge = Merge::new(alloc);
    let seconds = second.edits();
    let mut xs = first.edits();
    let mut ys = seconds;
    // for the proof: the label names the loop's invariant
    'edits: while has_more(xs, ys) {
        let is_first = merge.prepare_next(alloc, xs, ys)?;
        (xs, ys) = merge.take_next(xs, ys, is_first)?;
        if !merge.cancel_common() {
            return Err(Unmet::Contradicts {
                edit: seconds.len() - ys.len() - 1,
            });
        }
    }
    merge.finish_edit(alloc)?;
    Ok(merge.into_edits())
}
