//! Laws of swapping. The functions do nothing: a call makes a law's clause available to the proof
//! of its caller.
ghost use Rattle.edit_record.specs.Swaps.Swap.{SwapIsUnique};
ghost use Rattle.edit_record.specs.Swaps.MoveToEnd.{MoveToEndIsUnique};

/// Two lists can be swapped in one way at most.
pub fn swap_is_unique()
    ensures { SwapIsUnique }
{}

/// There is at most one way to move a list after those that follow it, and both sequences transform
/// the same texts. So the text without the list is unique, and the other lists still lead to it
/// from the first text.
pub fn move_to_end_is_unique()
    ensures { MoveToEndIsUnique }
{}
