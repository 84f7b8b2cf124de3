//! Memory for the edits of a list that is read, reserved at once, for speed alone.
ghost use Rattle.std.specs.Prelude.{◌≡◌, ◌<◌, ◌≤◌, ◌+◌, ◌/◌, ◌++◌, ◌∷◌, [], true, OnOk, is_ok, vec_len};
ghost use Rattle.std.specs.Prelude.{vec_capacity};
ghost use Rattle.edit_record.specs.Inner.ListCapacity.{HasFewSpare};
ghost use Rattle.edit_record.specs.declared.columns.TheConstants.{LEAST_BYTES};
ghost use Rattle.edit_record.specs.declared.list_capacity.TheConstants.{MOST_RESERVED};

use crate::columns::LEAST_BYTES;
use crate::lists::Edit;
use std::alloc::AllocError;

/// The most edits for which memory is reserved since the head of a list says that they follow.
const MOST_RESERVED: usize = 1024;

/// Pushes an edit, for which memory is reserved.
#[inline(always)]
pub(crate) fn push_edit(
    edits: &mut Vec<Edit>,
    next: Edit,
    count: usize,
    left: usize,
) -> Result<(), AllocError>
    ensures items { OnOk result (edits.new.items ≡ edits.old.items ++ next ∷ []) }
    ensures few { HasFewSpare (vec_len edits.old) (vec_capacity edits.old)
        → HasFewSpare (vec_len edits.new) (vec_capacity edits.new) }
{
    reserve_next(edits, count, left)?;
    edits.push_reserved(next);
    Ok(())
}

/// Reserves memory for one edit more, if the list has none left: at the first edit for `count`
/// edits, but for no more than can be in the `left` bytes after it.
#[inline(always)]
pub(crate) fn reserve_next(
    edits: &mut Vec<Edit>,
    count: usize,
    left: usize,
) -> Result<(), AllocError>
    ensures items { edits.new.items ≡ edits.old.items }
    ensures spare { OnOk result (vec_len edits.new < vec_capacity edits.new) }
    ensures capacity { vec_len edits.old < vec_capacity edits.old → is_ok result ≡ true }
    ensures few { HasFewSpare (vec_len edits.old) (vec_capacity edits.old)
        → HasFewSpare (vec_len edits.new) (vec_capacity edits.new) }
{
    if edits.len() >= edits.capacity() {
        reserve_edits(edits, count, left)?;
    }
    Ok(())
}

/// Returns for how many edits memory is reserved at the first one: for `count`, but for no more
/// than can be in the `left` bytes after it, and for 1,024 at most.
fn first_capacity(count: usize, left: usize) -> usize
    ensures some { 0 < result }
    ensures few { result ≤ MOST_RESERVED }
    ensures within { result ≤ left / LEAST_BYTES + 1 }
{
    count.min(MOST_RESERVED).min(left / LEAST_BYTES + 1).max(1)
}

/// Reserves capacity: for the edits that follow if the list is empty, else for as many more as it
/// has.
#[cold]
#[inline(never)]
fn reserve_edits(edits: &mut Vec<Edit>, count: usize, left: usize) -> Result<(), AllocError>
    ensures items { edits.new.items ≡ edits.old.items }
    ensures spare { OnOk result (vec_len edits.new < vec_capacity edits.new) }
    ensures few { HasFewSpare (vec_len edits.old) (vec_capacity edits.old)
        → HasFewSpare (vec_len edits.new) (vec_capacity edits.new) }
{
    if !edits.is_empty() {
        return edits.reserve_exact(edits.len());
    }
    edits.reserve_exact(first_capacity(count, left))
}
