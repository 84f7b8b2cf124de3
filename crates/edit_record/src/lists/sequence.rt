//! Changes one after another.
ghost use Rattle.std.specs.Prelude.{◌≡◌, IfErr};
ghost use Rattle.edit_record.specs.Lists.Sequence.{forward_all, backward_all};
ghost use Rattle.edit_record.specs.Lists.Journal.{journal_forward, journal_backward};
ghost use Rattle.edit_record.specs.Lists.JournalResults.{JournalMayAllocate};
ghost use Rattle.edit_record.specs.Lists.ChangeResults.{AgreesWith};
ghost use Rattle.edit_record.specs.declared.lists.change.Refused.TheVariants.{Memory};
ghost use Rattle.edit_record.specs.declared.lists.direction.Direction.TheVariants.{Forward, Backward};

use crate::lists::{Change, Record, Refused};
use std::alloc::Global;

/// Applies the changes in order, each to what the one before made.
///
/// # Errors
///
/// The error of the first change that has no new text; `Memory` if an allocation fails before that.
pub fn apply_all<C: Change>(alloc: Global, changes: &[C], text: &[u8]) -> Result<Vec<u8>, Refused>
    ensures { AgreesWith result (forward_all C.forward changes.now text.now) }
{
    let mut now = Vec::from_slice(alloc, text)?;
    for change in changes {
        now = change.apply(alloc, &now)?;
    }
    Ok(now)
}

/// Undoes the changes from the last to the first.
///
/// # Errors
///
/// The error of the first change in that order that has no old text; `Memory` if an allocation
/// fails before that.
pub fn undo_all<C: Change>(alloc: Global, changes: &[C], text: &[u8]) -> Result<Vec<u8>, Refused>
    ensures { AgreesWith result (backward_all C.backward changes.now text.now) }
{
    let mut now = Vec::from_slice(alloc, text)?;
    let mut remaining = changes;
    while let [before @ .., change] = remaining {
        now = change.undo(alloc, &now)?;
        remaining = before;
    }
    Ok(now)
}

/// Applies `records` in order, as [`apply_all`] does, but does not copy `text` first: if its length
/// is not the one that the first record expects, nothing is allocated.
pub(crate) fn apply_records(
    alloc: Global,
    records: &[Record],
    text: &[u8],
) -> Result<Vec<u8>, Refused>
    ensures agrees { AgreesWith result (journal_forward records.now text.now) }
    ensures memory { IfErr result (λ e. e ≡ Memory
        → JournalMayAllocate Forward records.now text.now) }
{
    match records {
        [] => Ok(Vec::from_slice(alloc, text)?),
        [first, others @ ..] => {
            let now = first.apply(alloc, text)?;
            apply_all(alloc, others, &now)
        }
    }
}

/// Undoes `records` from the last to the first, as [`undo_all`] does, but does not copy `text`
/// first: if its length is not the one that the last record expects, nothing is allocated.
pub(crate) fn undo_records(
    alloc: Global,
    records: &[Record],
    text: &[u8],
) -> Result<Vec<u8>, Refused>
    ensures agrees { AgreesWith result (journal_backward records.now text.now) }
    ensures memory { IfErr result (λ e. e ≡ Memory
        → JournalMayAllocate Backward records.now text.now) }
{
    match records {
        [] => Ok(Vec::from_slice(alloc, text)?),
        [others @ .., last] => {
            let now = last.undo(alloc, text)?;
            undo_all(alloc, others, &now)
        }
    }
}
