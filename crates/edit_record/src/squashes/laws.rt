//! Laws of squashing. The functions do nothing: a call makes a law's clause available to the proof
//! of its caller.
ghost use Rattle.std.specs.Prelude.{◌≡◌, List};
ghost use Rattle.edit_record.specs.Lists.Pieces.{EditList};
ghost use Rattle.edit_record.specs.Squashes.SquashLists.{SquashIsAssociative, SquashAllIsUnique};
ghost use Rattle.edit_record.specs.Squashes.Squash.{ComposableListsSquash, IsSquash};
ghost use Rattle.edit_record.specs.Lists.Validity.{IsValidList};

use crate::lists::Edits;

/// Two lists squash to one list at most.
pub fn squash_is_unique(first: &Edits, second: &Edits)
    ensures { (c d : EditList) → IsSquash first.now second.now c → IsSquash first.now second.now d
        → c ≡ d }
{}

/// The value of an `Edits` is a valid list of edits.
pub fn edits_are_valid(edits: &Edits)
    ensures { IsValidList edits.now }
{
    // for the proof: a clause of `edits` says so
    let _ = edits.edits();
}

/// Two valid lists squash to a valid list if the first turns some text into one that the second
/// turns.
pub fn composable_lists_squash()
    ensures { ComposableListsSquash }
{}

/// Squashing is associative: both groupings of three lists turn the same texts into each other, and
/// if the one exists so does the other.
pub fn squash_is_associative(a: &Edits, b: &Edits, c: &Edits)
    ensures { SquashIsAssociative a.now b.now c.now }
{}

/// A list and any others that follow it, squashed in order, become one list at most. It turns a
/// text into another if and only if all of them in order do.
pub fn squash_all_is_unique()
    ensures { (first : EditList) (others : List EditList) → SquashAllIsUnique first others }
{}
