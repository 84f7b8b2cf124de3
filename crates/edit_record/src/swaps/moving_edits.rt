//! Edits that are moved after many small records.
ghost use Rattle.std.specs.Prelude.{◌≡◌, ℕ, true, false, length, IfOk};
ghost use Rattle.std.specs.List.{AllByRecursion};
ghost use Rattle.edit_record.specs.Lists.Validity.{new_len};
ghost use Rattle.edit_record.specs.Swaps.Inner.RelativeEnds.{ends_of, IsSmall};
ghost use Rattle.edit_record.specs.Swaps.Inner.EditEnds.{ends_at, with_ends, FitRemoved};

use crate::lists::{Edit, Edits, Record};
use crate::swaps::MoveFault;
use crate::swaps::relative_ends::{EndOffset, Partition, end_of, partition_before, shift_from};
use crate::swaps::swap_lists::exceeds_limit;
use std::alloc::{AllocError, Global};

/// Edits that are moved after records.
///
/// The ends of the edits are stored apart from them, so that an edit of a record moves all edits
/// that follow it in a few steps.
#[derive(Drop)]
pub(crate) struct MovingEdits {
    old_len: usize,
    new_len: usize,
    edits: Vec<Edit>,
    ends: Vec<EndOffset>,
}

impl MovingEdits {
    ghost use Rattle.edit_record.specs.Swaps.Inner.MovingEditsView.{IsWellFormed, edits_now, HasMovedPast};
    ghost use Rattle.edit_record.specs.Swaps.Inner.MovingEditsView.{MovesPastRecord};
    ghost use Rattle.edit_record.specs.Swaps.Swap.{NoneMeet, FirstMeeting};

    /// Makes of edits the form in which they are moved.
    pub(crate) fn new(alloc: Global, edits: Edits) -> Result<Self, AllocError>
        ensures list { IfOk result (λ m. edits_now m ≡ edits) }
        ensures well_formed { IfOk result IsWellFormed }
    {
        let old_len = edits.old_len();
        let new_len = edits.new_len();
        let ends = ends(alloc, &edits)?;
        let edits = edits.into_edits();
        Ok(MovingEdits {
            old_len,
            new_len,
            edits,
            ends,
        })
    }

    /// Moves the edits after one record, and returns the record without them before it.
    pub(crate) fn move_past(
        &mut self,
        alloc: Global,
        rec: &Record,
        number: usize,
    ) -> Result<Record, MoveFault>
        requires { IsWellFormed self.old }
        ensures { MovesPastRecord (edits_now self.old) rec.now number self.new result }
    {
        let second = rec.edits();
        if self.new_len != second.old_len() {
            return Err(MoveFault::Length {
                expected: second.old_len(),
                found: self.new_len,
            });
        }
        if self.meets(second) {
            return Err(MoveFault::Blocked { number });
        }
        if exceeds_limit(self.old_len, second) {
            return Err(MoveFault::TooLong);
        }
        let seconds = self.move_past_each(alloc, second)?;
        let len = self.old_len + second.new_len() - second.old_len();
        let before = Edits::from_valid(self.old_len, len, seconds);
        self.old_len = len;
        self.new_len = second.new_len();
        Ok(Record::make(rec.word(), before))
    }

    /// Returns whether an edit of a list meets one of these. It takes no memory.
    fn meets(&self, second: &Edits) -> bool
        requires { IsWellFormed self.now }
        ensures met { result ≡ true
            → (i : ℕ) × (j : ℕ) × FirstMeeting (edits_now self.now) second.now i j }
        ensures apart { result ≡ false → NoneMeet (edits_now self.now) second.now }
    {
        for edit in second.edits() {
            let at = edit.at();
            let Partition {
                count,
                last: _,
                next,
            } = partition_before(&self.ends, at);
            let touches = match next {
                Some(end) => end - self.edits[count].added().len() <= at + edit.removed().len(),
                None => false,
            };
            if touches {
                return true;
            }
        }
        false
    }

    /// Moves these edits after those of a list, and returns the list's edits in their new places.
    fn move_past_each(&mut self, alloc: Global, second: &Edits) -> Result<Vec<Edit>, AllocError>
        requires well_formed { IsWellFormed self.old }
        requires lengths_match { new_len (edits_now self.old) ≡ second.now.old_len }
        requires apart { NoneMeet (edits_now self.old) second.now }
        ensures { IfOk result
            (λ us. HasMovedPast (edits_now self.old) second.now us.items self.old self.new) }
    {
        let mut seconds = Vec::with_capacity(alloc, second.edits().len())?;
        let mut added = 0;
        let mut removed = 0;
        for edit in second.edits() {
            let at = edit.at() + added - removed;
            let Partition {
                count,
                last,
                next: _,
            } = partition_before(&self.ends, at);
            let more = edit.added().len();
            let less = edit.removed().len();
            let place = last.old + (at - last.new) + removed - added;
            seconds.push(edit.copy_at(place)?)?;
            let later = EndOffset {
                old: more,
                new: more,
            };
            shift_from(&mut self.ends, count, later, less);
            added += more;
            removed += less;
        }
        Ok(seconds)
    }

    /// Returns the edits in their present places.
    pub(crate) fn into_edits(self) -> Edits
        requires { IsWellFormed self }
        ensures { result ≡ edits_now self }
    {
        let MovingEdits {
            old_len,
            new_len,
            mut edits,
            ends,
        } = self;
        set_places(&mut edits, &ends);
        Edits::from_valid(old_len, new_len, edits)
    }
}

/// Returns the ends of the edits of a list.
fn ends(alloc: Global, edits: &Edits) -> Result<Vec<EndOffset>, AllocError>
    ensures ends { IfOk result (λ v. ends_of v.items ≡ ends_at 0 0 edits.now.entries) }
    ensures len { IfOk result (λ v. length v.items ≡ length edits.now.entries) }
{
    let mut ends = vec![in alloc; EndOffset { old: 0, new: 0 }; edits.edits().len()]?;
    let mut old = 0;
    for (i, edit) in edits.edits().iter().enumerate() {
        let gap = edit.at() - old;
        let later = EndOffset {
            old: gap + edit.removed().len(),
            new: gap + edit.added().len(),
        };
        shift_from(&mut ends, i, later, 0);
        old = edit.at() + edit.removed().len();
    }
    Ok(ends)
}

/// Sets the place of each edit by its end.
fn set_places(edits: &mut [Edit], ends: &[EndOffset])
    requires len { length ends.now ≡ length edits.old }
    requires small { AllByRecursion IsSmall (ends_of ends.now) }
    requires fit { FitRemoved edits.old (ends_of ends.now) }
    ensures { edits.new ≡ with_ends edits.old (ends_of ends.now) }
{
    for (i, edit) in edits.iter_mut().enumerate() {
        let end = end_of(ends, i);
        let at = end.old - edit.removed().len();
        edit.set_at(at);
    }
}
