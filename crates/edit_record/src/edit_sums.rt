//! Sums over the edits of a list, added while they are read, so that no second pass has to test
//! whether they are valid; for speed alone.
ghost use Rattle.std.specs.Prelude.{◌≡◌, ◌+◌, ◌<◌, ◌≤◌, [], ◌∷◌, ◌++◌, List, length, take, drop, IfSome};
ghost use Rattle.edit_record.specs.Lists.Pieces.{EditEntry};
ghost use Rattle.edit_record.specs.Lists.Validity.{AreValidEdits};
ghost use Rattle.edit_record.specs.Inner.EditSums.{AreSummedUp, Follows};
ghost use Rattle.edit_record.specs.declared.digits.TheConstants.{EIGHT_DIGITS};
ghost use Rattle.edit_record.specs.declared.lists.edit.TheConstants.{INLINE_CAPACITY};

use crate::lists::{Edit, INLINE_CAPACITY, MAX_TEXT};

/// Where the last edit ends, and how many bytes all remove and add.
#[derive(Clone, Copy)]
pub(crate) struct EditSums {
    /// The greatest `usize` if an edit is empty or begins before the end of the one before.
    pub(crate) end: usize,
    pub(crate) removed: usize,
    pub(crate) added: usize,
}

impl EditSums {
    /// Returns the sums of no edits.
    pub(crate) fn none() -> EditSums
        ensures fewer { result.removed ≤ result.end }
        ensures summed { AreSummedUp [] result }
    {
        EditSums {
            end: 0,
            removed: 0,
            added: 0,
        }
    }

    /// Returns the sums after one more edit, of any kind.
    #[inline(always)]
    fn with(self, at: usize, removes: usize, adds: usize) -> EditSums
        ensures fewer { self.removed ≤ self.end → result.removed ≤ result.end }
        ensures summed { (es : List EditEntry) (x : EditEntry) → x.at ≡ at
            → length x.removed ≡ removes
            → length x.added ≡ adds
            → AreSummedUp es self
            → AreSummedUp (es ++ x ∷ []) result }
    {
        if at < self.end || removes == 0 && adds == 0 {
            return EditSums {
                end: usize::MAX,
                removed: 0,
                added: 0,
            };
        }
        EditSums {
            end: at.saturating_add(removes),
            removed: self.removed.saturating_add(removes),
            added: self.added.saturating_add(adds),
        }
    }

    /// Returns the sums after one more edit, which is not empty and begins where the last one ends
    /// or later. Its removed bytes and then its added ones begin the array. For the proof: the
    /// array is named in clauses alone.
    #[inline(always)]
    pub(crate) fn with_next(
        self,
        at: usize,
        removed: usize,
        added: usize,
        texts: &[u8; INLINE_CAPACITY],
    ) -> EditSums
        requires fewer { self.removed ≤ self.end }
        requires near { at < EIGHT_DIGITS }
        requires few { removed + added ≤ INLINE_CAPACITY }
        requires follows { Follows self at removed added }
        ensures fewer { result.removed ≤ result.end }
        ensures summed { (es : List EditEntry) → AreSummedUp es self
            → AreSummedUp (es ++ record {
              at = at;
              removed = take removed texts.now;
              added = take added (drop removed texts.now);
            } ∷ []) result }
    {
        let _ = texts;
        EditSums {
            end: at + removed,
            removed: self.removed + removed,
            added: self.added + added,
        }
    }

    /// Returns the sums after one more edit, which is the last of these.
    #[inline(always)]
    pub(crate) fn with_last(self, edits: &[Edit]) -> EditSums
        ensures fewer { self.removed ≤ self.end → result.removed ≤ result.end }
        ensures summed { (es : List EditEntry) (x : EditEntry) → edits.now ≡ es ++ x ∷ []
            → AreSummedUp es self
            → AreSummedUp edits.now result }
    {
        match edits {
            [.., last] => self.with(last.at(), last.removed().len(), last.added().len()),
            [] => self,
        }
    }

    /// Returns the length of the texts that the edits make of texts of this length, if the sums
    /// show that they are valid.
    #[inline(always)]
    pub(crate) fn new_len(self, old_len: usize) -> Option<usize>
        ensures { (es : List EditEntry) → AreSummedUp es self
            → IfSome result (λ len. AreValidEdits old_len len es) }
    {
        if old_len > MAX_TEXT || self.end > old_len {
            return None;
        }
        let kept = old_len.saturating_sub(self.removed);
        if self.added > MAX_TEXT - kept {
            return None;
        }
        Some(kept + self.added)
    }
}
