//! Swapping two lists of edits.
ghost use Rattle.std.specs.Prelude.{◌≡◌, ◌≢◌, ◌↔◌, ◌+◌, ◌<◌, ◌≤◌, length, Err, IfErr, IfOk, IfSome, IsNone};
ghost use Rattle.std.specs.Prelude.{IsTrue};
ghost use Rattle.edit_record.specs.Lists.Pieces.{removed_len, added_len};
ghost use Rattle.edit_record.specs.Lists.Validity.{new_len};
ghost use Rattle.edit_record.specs.Swaps.Swap.{IsSwapResult, NoneMeet, SwapTo, FirstMeeting, IsWithinLimit};
ghost use Rattle.edit_record.specs.Swaps.MoveToEndResult.{CanSwap};
ghost use Rattle.edit_record.specs.Swaps.Inner.SwapState.{IsSwapDone};
ghost use Rattle.edit_record.specs.Swaps.Inner.SwapStateView.{state};
ghost use Rattle.edit_record.specs.declared.swaps.swap_lists.SwapFault.TheVariants.{Memory};
ghost use Rattle.edit_record.specs.declared.lists.edits.TheConstants.{MAX_TEXT};

use crate::lists::{Edits, MAX_TEXT, has_more};
use crate::swaps::swap_state::SwapState;
use std::alloc::{AllocError, AllocFailed, Global};
use thiserror::Error;

/// Why two lists of edits cannot be swapped.
#[derive(Clone, Copy, Debug, PartialEq, Eq, Error)]
pub enum SwapFault {
    /// The texts that the first list makes have another length than those that the second applies
    /// to.
    #[error("the lengths of the two lists of edits do not follow")]
    LengthsDiffer,
    /// These edits overlap or touch in the text between. Of all such edits they have the lowest
    /// number in the second list, and then in the first.
    #[error("edit {first} of the first list meets edit {second} of the second")]
    Meets { first: usize, second: usize },
    /// The text between, in the other order, is too long.
    #[error("the text between is too long")]
    TooLong,
    /// Memory for the edits ran out.
    #[error("out of memory")]
    Memory,
}

impl From<AllocError> for SwapFault {
    ghost from_gives = { λ _ e. e ≡ Memory };

    fn from(_e: AllocError) -> SwapFault {
        SwapFault::Memory
    }
}

impl<T: Drop> From<AllocFailed<T>> for SwapFault {
    ghost from_gives = { λ _ e. e ≡ Memory };

    fn from(_e: AllocFailed<T>) -> SwapFault {
        SwapFault::Memory
    }
}

/// Returns the two lists in the other order: what `second` does, for the texts that `first` applies
/// to, and then what `first` does.
///
/// Each edit removes and adds the same bytes as before; its place (bytes from 0) is moved by the
/// bytes that the edits of the other list before it remove and add.
///
/// It takes one pass over both lists, and, if they can be swapped, another, which alone allocates.
/// It builds no text.
///
/// # Errors
///
/// `LengthsDiffer` means that the texts that `first` makes have another length than those that
/// `second` applies to. If an edit of the one list overlaps or touches one of the other in the text
/// between, `Meets` names the two, each numbered from 0 in its list. `TooLong` means that the text
/// between would have more than [`MAX_TEXT`] bytes in the other order, `Memory` that an allocation
/// failed.
pub fn swap(alloc: Global, first: &Edits, second: &Edits) -> Result<(Edits, Edits), SwapFault>
    ensures { IsSwapResult first.now second.now result }
{
    check_swap(alloc, first, second)?;
    Ok(swap_disjoint(alloc, first, second)?)
}

/// Returns an error if the two lists cannot be swapped. It allocates nothing.
pub(crate) fn check_swap(alloc: Global, first: &Edits, second: &Edits) -> Result<(), SwapFault>
    ensures swappable { IfOk result (λ _. CanSwap first.now second.now) }
    ensures refused { IfErr result (λ e. IsSwapResult first.now second.now (Err e)) }
    ensures memory { IfErr result (λ e. e ≢ Memory) }
{
    if first.new_len() != second.old_len() {
        return Err(SwapFault::LengthsDiffer);
    }
    if let Some((one, other)) = first_meeting(alloc, first, second) {
        return Err(SwapFault::Meets {
            first: one,
            second: other,
        });
    }
    // for the proof: `edits` says that the lengths of a list are within the limit
    let _firsts = first.edits();
    if exceeds_limit(first.old_len(), second) {
        return Err(SwapFault::TooLong);
    }
    Ok(())
}

/// Returns the lowest edits that meet, if any do: by their number in the second list, and then in
/// the first. It allocates nothing.
fn first_meeting(alloc: Global, first: &Edits, second: &Edits) -> Option<(usize, usize)>
    requires { new_len first.now ≡ second.now.old_len }
    ensures meet { IfSome result (λ m. FirstMeeting first.now second.now m.0 m.1) }
    ensures apart { IsNone result → NoneMeet first.now second.now }
{
    let mut state = SwapState::new(alloc);
    let firsts = first.edits();
    let seconds = second.edits();
    let mut xs = firsts;
    let mut ys = seconds;
    // for the proof: the label names the loop's invariant
    'edits: while has_more(xs, ys) {
        if state.first_is_next(xs, ys) {
            xs = state.skip_first(xs, ys);
        } else if state.second_is_next(xs, ys) {
            ys = state.skip_second(xs, ys);
        } else {
            return Some((firsts.len() - xs.len(), seconds.len() - ys.len()));
        }
    }
    None
}

/// Returns whether texts of `old_len` bytes are too long after the edits of `second`.
#[inline(always)]
pub(crate) fn exceeds_limit(old_len: usize, second: &Edits) -> bool
    requires { old_len ≤ MAX_TEXT }
    ensures { IsTrue result
        ↔ (MAX_TEXT + removed_len second.now.entries < old_len + added_len second.now.entries) }
{
    // for the proof: `edits` says that the lengths of a list are within the limit
    let _seconds = second.edits();
    old_len + second.new_len() > MAX_TEXT + second.old_len()
}

/// Returns two lists that can be swapped in the other order.
fn swap_disjoint(alloc: Global, first: &Edits, second: &Edits) -> Result<(Edits, Edits), AllocError>
    requires lengths_match { new_len first.now ≡ second.now.old_len }
    requires apart { NoneMeet first.now second.now }
    requires within { IsWithinLimit first.now second.now }
    ensures swapped { IfOk result (λ x. SwapTo first.now second.now x.0 x.1) }
    ensures memory { IfErr result (λ _. 0 < length first.now.entries + length second.now.entries) }
{
    let state = swap_edits(alloc, first, second)?;
    let len = state.swapped_len(first.old_len());
    let (seconds, firsts) = state.into_edits();
    let before = Edits::from_valid(first.old_len(), len, seconds);
    let after = Edits::from_valid(len, second.new_len(), firsts);
    Ok((before, after))
}

/// Swaps both lists, edit by edit.
fn swap_edits<'a>(
    alloc: Global,
    first: &'a Edits,
    second: &'a Edits,
) -> Result<SwapState, AllocError>
    requires lengths_match { new_len first.now ≡ second.now.old_len }
    requires apart { NoneMeet first.now second.now }
    ensures done { IfOk result (λ e. IsSwapDone first.now second.now (state e)) }
    ensures memory { IfErr result (λ _. 0 < length first.now.entries + length second.now.entries) }
{
    let firsts = first.edits();
    let seconds = second.edits();
    let mut state = SwapState::with_capacity(alloc, firsts.len(), seconds.len())?;
    let mut xs = firsts;
    let mut ys = seconds;
    // for the proof: the label names the loop's invariant
    'edits: while has_more(xs, ys) {
        if state.first_is_next(xs, ys) {
            xs = state.take_first(xs, ys)?;
        } else {
            ys = state.take_second(xs, ys)?;
        }
    }
    Ok(state)
}
