//! The ends of the edits of a list, in a form in which all from one on move in a few steps.
//!
//! The middle edit of a run of edits is written by how far it ends after the run's start, that is
//! after the end of the last edit before the run; the edits before and after it are two runs in
//! the same form, of which the second starts where the middle edit ends. So a search by halves
//! comes to each edit by adding up, and an edit that moves takes along what starts at its end.
ghost use Rattle.std.specs.Prelude.{◌≡◌, ◌+◌, ◌^◌, ◌<◌, length};
ghost use Rattle.std.specs.List.{AllByRecursion};
ghost use Rattle.edit_record.specs.Swaps.Inner.RelativeEnds.{plus, ends_of, IsSmall, IsPartition, IsEndOf};
ghost use Rattle.edit_record.specs.Swaps.Inner.RelativeEnds.{shifted_from, CanShift};

/// How far after another place an edit ends: in the text that it applies to, and in the text that
/// it makes.
#[derive(Clone, Copy, Debug, Drop)]
pub(crate) struct EndOffset {
    pub(crate) old: usize,
    pub(crate) new: usize,
}

impl EndOffset {
    /// Returns the offset that is `more` after this one.
    fn plus(self, more: EndOffset) -> EndOffset
        requires old { self.old + more.old < 2 ^ 64 }
        requires new { self.new + more.new < 2 ^ 64 }
        ensures { result ≡ plus self more }
    {
        EndOffset {
            old: self.old + more.old,
            new: self.new + more.new,
        }
    }
}

/// The edits that end before a place: how many, where the last of them ends, and where the next
/// edit ends in the text that it makes.
#[derive(Clone, Copy, Debug, Drop)]
pub(crate) struct Partition {
    pub(crate) count: usize,
    pub(crate) last: EndOffset,
    pub(crate) next: Option<usize>,
}

/// Returns the edits that end before this place of the text that they make.
pub(crate) fn partition_before(run: &[EndOffset], at: usize) -> Partition
    requires { AllByRecursion IsSmall (ends_of run.now) }
    ensures { IsPartition at (ends_of run.now) result.count result.last result.next }
{
    let mut left = run;
    let mut count = 0;
    let mut last = EndOffset { old: 0, new: 0 };
    let mut next = None;
    // for the proof: the label names the loop's invariant
    'halves: loop {
        let (before, after) = left.split_at(left.len() / 2);
        match after {
            [] => return Partition { count, last, next },
            [middle, after @ ..] => {
                let end = last.plus(*middle);
                if end.new < at {
                    count += before.len() + 1;
                    last = end;
                    left = after;
                } else {
                    next = Some(end.new);
                    left = before;
                }
            }
        }
    }
}

/// Returns the end of the edit of this number.
pub(crate) fn end_of(run: &[EndOffset], number: usize) -> EndOffset
    requires in_range { number < length run.now }
    requires small { AllByRecursion IsSmall (ends_of run.now) }
    ensures { IsEndOf (ends_of run.now) number result }
{
    let mut left = run;
    let mut i = number;
    let mut last = EndOffset { old: 0, new: 0 };
    // for the proof: the label names the loop's invariant
    'halves: loop {
        let (before, after) = left.split_at(left.len() / 2);
        match after {
            [] => return last,
            [middle, after @ ..] => {
                let end = last.plus(*middle);
                if i == before.len() {
                    return end;
                }
                if before.len() < i {
                    i -= before.len() + 1;
                    last = end;
                    left = after;
                } else {
                    left = before;
                }
            }
        }
    }
}

/// Moves the ends of the edits from this one on: `later` bytes later, and `earlier` bytes earlier
/// in both texts.
pub(crate) fn shift_from(run: &mut [EndOffset], from: usize, later: EndOffset, earlier: usize)
    requires small { AllByRecursion IsSmall (ends_of run.old) }
    requires later { IsSmall later }
    requires can_shift { CanShift earlier from (ends_of run.old) }
    ensures { ends_of run.new ≡ shifted_from from later earlier (ends_of run.old) }
{
    if run.is_empty() {
        return;
    }
    let middle = run.len() / 2;
    if from <= middle {
        let end = run[middle].plus(later);
        run[middle] = EndOffset {
            old: end.old - earlier,
            new: end.new - earlier,
        };
        shift_from(&mut run[..middle], from, later, earlier);
    } else {
        shift_from(&mut run[middle + 1..], from - (middle + 1), later, earlier);
    }
}
