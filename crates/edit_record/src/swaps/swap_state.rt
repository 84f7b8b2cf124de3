//! Swapping two lists of edits: the state between two steps, and the steps.
ghost use Rattle.std.specs.Prelude.{◌≡◌, ◌+◌, ◌-◌, ◌^◌, ◌<◌, ◌≤◌, length, IfOk, IfErr};
ghost use Rattle.edit_record.specs.Swaps.Inner.SwapState.{relocate, first_is_next, second_is_next};
ghost use Rattle.edit_record.specs.Swaps.Inner.SwapState.{take_first, take_second, skip_first, skip_second};
ghost use Rattle.edit_record.specs.Swaps.Inner.SwapState.{HoldsInvariant, initial};
ghost use Rattle.edit_record.specs.Swaps.Inner.SwapStateView.{state};

use crate::lists::Edit;
use std::alloc::{AllocError, Global};

/// The state between two steps: the edits that are done, and the offsets after them.
#[derive(Drop)]
pub(crate) struct SwapState {
    old_at: usize,
    mid_at: usize,
    other_at: usize,
    seconds: Vec<Edit>,
    firsts: Vec<Edit>,
}

/// Returns the edit as far after `to` as it was after `from`.
fn relocate(edit: &Edit, from: usize, to: usize) -> Result<Edit, AllocError>
    requires later { from ≤ edit.now.at }
    requires fits { to + (edit.now.at - from) < 2 ^ 64 }
    ensures { IfOk result (λ e. e ≡ relocate from edit.now to) }
{
    edit.copy_at(to + (edit.at() - from))
}

impl SwapState {
    /// Makes the state before the first step, with capacity for no edit. It allocates nothing.
    pub(crate) fn new(alloc: Global) -> Self
        ensures { state result ≡ initial }
    {
        SwapState {
            old_at: 0,
            mid_at: 0,
            other_at: 0,
            seconds: Vec::new(alloc),
            firsts: Vec::new(alloc),
        }
    }

    /// Makes the state before the first step, with capacity for all edits of both lists.
    pub(crate) fn with_capacity(
        alloc: Global,
        firsts: usize,
        seconds: usize,
    ) -> Result<Self, AllocError>
        ensures starts { IfOk result (λ s. state s ≡ initial) }
        ensures memory { IfErr result (λ _. 0 < firsts + seconds) }
    {
        let seconds = Vec::with_capacity(alloc, seconds)?;
        let firsts = Vec::with_capacity(alloc, firsts)?;
        Ok(SwapState {
            old_at: 0,
            mid_at: 0,
            other_at: 0,
            seconds,
            firsts,
        })
    }

    /// Returns whether the next edit of the first list ends before the next one of the second
    /// begins.
    pub(crate) fn first_is_next(&self, xs: &[Edit], ys: &[Edit]) -> bool
        requires { HoldsInvariant (state self.now) xs.now ys.now }
        ensures { result ≡ first_is_next (state self.now) xs.now ys.now }
    {
        match (xs, ys) {
            ([], _) => false,
            ([_, ..], []) => true,
            ([x, ..], [y, ..]) => {
                x.added().len() < (y.at() - self.mid_at).saturating_sub(x.at() - self.old_at)
            }
        }
    }

    /// Returns whether the next edit of the second list ends before the next one of the first
    /// begins.
    pub(crate) fn second_is_next(&self, xs: &[Edit], ys: &[Edit]) -> bool
        requires { HoldsInvariant (state self.now) xs.now ys.now }
        ensures { result ≡ second_is_next (state self.now) xs.now ys.now }
    {
        match (xs, ys) {
            (_, []) => false,
            ([], [_, ..]) => true,
            ([x, ..], [y, ..]) => {
                y.removed().len() < (x.at() - self.old_at).saturating_sub(y.at() - self.mid_at)
            }
        }
    }

    /// Takes the next edit of the first list, and returns the edits after it.
    pub(crate) fn take_first<'a>(
        &mut self,
        xs: &'a [Edit],
        ys: &[Edit],
    ) -> Result<&'a [Edit], AllocError>
        requires { HoldsInvariant (state self.old) xs.now ys.now }
        ensures { IfOk result
            (λ left. (state self.new, left.now)
            ≡ take_first (state self.old) xs.now ys.now) }
    {
        match xs {
            [] => Ok(xs),
            [x, ..] => {
                let edit = relocate(x, self.old_at, self.other_at)?;
                self.firsts.push(edit)?;
                Ok(self.skip_first(xs, ys))
            }
        }
    }

    /// Takes the next edit of the second list, and returns the edits after it.
    pub(crate) fn take_second<'a>(
        &mut self,
        xs: &[Edit],
        ys: &'a [Edit],
    ) -> Result<&'a [Edit], AllocError>
        requires { HoldsInvariant (state self.old) xs.now ys.now }
        ensures { IfOk result
            (λ left. (state self.new, left.now)
            ≡ take_second (state self.old) xs.now ys.now) }
    {
        match ys {
            [] => Ok(ys),
            [y, ..] => {
                let edit = relocate(y, self.mid_at, self.old_at)?;
                self.seconds.push(edit)?;
                Ok(self.skip_second(xs, ys))
            }
        }
    }

    /// Skips the next edit of the first list without storing it, and returns the edits after it.
    pub(crate) fn skip_first<'a>(&mut self, xs: &'a [Edit], ys: &[Edit]) -> &'a [Edit]
        requires { HoldsInvariant (state self.old) xs.now ys.now }
        ensures { (state self.new, result.now)
            ≡ skip_first (state self.old) xs.now }
    {
        match xs {
            [] => xs,
            [x, left @ ..] => {
                let gap = x.at() - self.old_at;
                self.old_at = x.at() + x.removed().len();
                self.mid_at = self.mid_at + gap + x.added().len();
                self.other_at = self.other_at + gap + x.removed().len();
                left
            }
        }
    }

    /// Skips the next edit of the second list without storing it, and returns the edits after it.
    pub(crate) fn skip_second<'a>(&mut self, xs: &[Edit], ys: &'a [Edit]) -> &'a [Edit]
        requires { HoldsInvariant (state self.old) xs.now ys.now }
        ensures { (state self.new, result.now)
            ≡ skip_second (state self.old) ys.now }
    {
        match ys {
            [] => ys,
            [y, left @ ..] => {
                let gap = y.at() - self.mid_at;
                self.old_at = self.old_at + gap + y.removed().len();
                self.mid_at = y.at() + y.removed().len();
                self.other_at = self.other_at + gap + y.added().len();
                left
            }
        }
    }

    /// Returns the length of the text between in the other order, once both lists are done.
    pub(crate) fn swapped_len(&self, old_len: usize) -> usize
        requires within { self.now.old_at ≤ old_len }
        requires small { old_len + self.now.other_at < 2 ^ 64 }
        ensures { result ≡ old_len - self.now.old_at + self.now.other_at }
    {
        old_len - self.old_at + self.other_at
    }

    /// Returns the edits in the other order: those of the second list, and those of the first.
    pub(crate) fn into_edits(self) -> (Vec<Edit>, Vec<Edit>)
        ensures seconds { result.0.items ≡ self.seconds.items }
        ensures firsts { result.1.items ≡ self.firsts.items }
    {
        (self.seconds, self.firsts)
    }
}
