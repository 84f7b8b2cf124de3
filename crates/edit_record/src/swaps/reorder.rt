//! Moving one record's edits to the end of the records that follow it.
ghost use Rattle.std.specs.Prelude.{◌≡◌, ◌<◌, ◌≤◌, length, Err, IfErr, IfOk};
ghost use Rattle.edit_record.specs.Swaps.Swap.{IsSwapResult};
ghost use Rattle.edit_record.specs.Swaps.Inner.MovePastResult.{IsMovePastResult};
ghost use Rattle.edit_record.specs.Swaps.Inner.MovingEditsView.{edits_now, IsWellFormed};
ghost use Rattle.edit_record.specs.Swaps.MoveToEndResult.{IsMoveToEndResult};
ghost use Rattle.edit_record.specs.declared.swaps.reorder.MoveFault.TheVariants.{Memory};

use crate::lists::{Edits, Record};
use crate::swaps::moving_edits::MovingEdits;
use crate::swaps::swap_lists::check_swap;
use crate::swaps::{SwapFault, swap};
use std::alloc::{AllocError, AllocFailed, Global};
use thiserror::Error;

/// Why edits cannot be moved after the records that follow them.
#[derive(Clone, Copy, Debug, PartialEq, Eq, Error)]
pub enum MoveFault {
    /// A record applies to texts of another length than the one before it makes.
    #[error("record expects {expected} bytes, found {found}")]
    Length { expected: usize, found: usize },
    /// An edit meets one of this record, counted from 0.
    #[error("blocked by record {number}")]
    Blocked { number: usize },
    /// A text without the edits is too long.
    #[error("the text is too long")]
    TooLong,
    /// Memory for the records ran out.
    #[error("out of memory")]
    Memory,
}

impl From<AllocError> for MoveFault {
    ghost from_gives = { λ _ e. e ≡ Memory };

    fn from(_e: AllocError) -> MoveFault {
        MoveFault::Memory
    }
}

impl<T: Drop> From<AllocFailed<T>> for MoveFault {
    ghost from_gives = { λ _ e. e ≡ Memory };

    fn from(_e: AllocFailed<T>) -> MoveFault {
        MoveFault::Memory
    }
}

/// Returns the records that follow `first`, as they are without it, and the edits of `first` as
/// they are after them all (`None`: unchanged, since no record follows).
///
/// The edits are swapped with those of each record in turn, and each record keeps its command.
/// Undoing the moved edits on the last text gives the text without `first`.
///
/// There is one pass over the edits of `first` for the first record, for each record after it that
/// is as large, and one more for the first that is smaller; from this on each edit of a record
/// takes a binary search among the edits of `first`.
///
/// # Errors
///
/// Of the first record that refuses, counted from 0. Nothing is allocated for a record that
/// refuses.
pub fn move_to_end(
    alloc: Global,
    first: &Edits,
    records: &[Record],
) -> Result<(Vec<Record>, Option<Edits>), MoveFault>
    ensures { IsMoveToEndResult first.now records.now result }
{
    let mut reordered = Vec::new(alloc);
    let [next, ..] = records else {
        return Ok((reordered, None));
    };
    let (before, after) = move_past(alloc, first, next, 0)?;
    reordered.push(before)?;
    let large = leading(first, records);
    let mut moved = after;
    for i in 1..large {
        let (before, after) = move_past(alloc, &moved, &records[i], i)?;
        reordered.push(before)?;
        moved = after;
    }
    if large == records.len() {
        return Ok((reordered, Some(moved)));
    }
    let mut moving = start_moving(alloc, moved, &records[large], large)?;
    for i in large..records.len() {
        let before = moving.move_past(alloc, &records[i], i)?;
        reordered.push(before)?;
    }
    Ok((reordered, Some(moving.into_edits())))
}

/// Returns the number of records before one with fewer edits than a tenth of those that are moved:
/// for these a pass over both lists is faster than a search. The first record is one of them.
fn leading(first: &Edits, records: &[Record]) -> usize
    requires { 0 < length records.now }
    ensures some { 0 < result }
    ensures within { result ≤ length records.now }
{
    let few = first.edits().len() / 10;
    for i in 1..records.len() {
        if records[i].edits().edits().len() < few {
            return i;
        }
    }
    records.len()
}

/// Returns the edits in the form in which they are moved after small records, of which this is the
/// first. Nothing is allocated if the edits cannot be swapped with those of this record.
fn start_moving(
    alloc: Global,
    moved: Edits,
    next: &Record,
    number: usize,
) -> Result<MovingEdits, MoveFault>
    ensures edits { IfOk result (λ m. edits_now m ≡ moved) }
    ensures well_formed { IfOk result IsWellFormed }
    ensures refused { IfErr result (λ e. IsMovePastResult moved next.now number (Err e)) }
{
    if let Err(fault) = check_swap(alloc, &moved, next.edits()) {
        return Err(move_fault(fault, &moved, next, number));
    }
    Ok(MovingEdits::new(alloc, moved)?)
}

/// Swaps the edits and a record: returns the record without them before it, and the edits after it.
fn move_past(
    alloc: Global,
    edits: &Edits,
    rec: &Record,
    number: usize,
) -> Result<(Record, Edits), MoveFault>
    ensures { IsMovePastResult edits.now rec.now number result }
{
    match swap(alloc, edits, rec.edits()) {
        Ok((before, after)) => Ok((Record::make(rec.word(), before), after)),
        Err(fault) => Err(move_fault(fault, edits, rec, number)),
    }
}

/// Returns why the edits are not moved after a record, from why the two are not swapped.
fn move_fault(fault: SwapFault, edits: &Edits, rec: &Record, number: usize) -> MoveFault
    requires { IsSwapResult edits.now rec.now.edits (Err fault) }
    ensures { IsMovePastResult edits.now rec.now number (Err result) }
{
    match fault {
        SwapFault::LengthsDiffer => MoveFault::Length {
            expected: rec.edits().old_len(),
            found: edits.new_len(),
        },
        SwapFault::Meets {
            first: _,
            second: _,
        } => MoveFault::Blocked { number },
        SwapFault::TooLong => MoveFault::TooLong,
        SwapFault::Memory => MoveFault::Memory,
    }
}
