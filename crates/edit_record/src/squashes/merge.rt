//! The merge of two lists of edits: the state between two steps, and the steps.
ghost use Rattle.std.specs.Prelude.{◌≡◌, ◌↔◌, ◌+◌, ◌-◌, ◌^◌, ◌<◌, ◌≤◌, length, take, IfOk, OnOk, IsTrue};
ghost use Rattle.edit_record.specs.Squashes.Inner.Merge.{finish_edit, skip_kept, with_first, with_second};
ghost use Rattle.edit_record.specs.Squashes.Inner.Merge.{common_len, cancel_common, reaches, gap, StartsFrom};
ghost use Rattle.edit_record.specs.Squashes.Inner.Merge.{IsReady, prepare_next, start_edit, joins_first};
ghost use Rattle.edit_record.specs.Squashes.Inner.Merge.{joins_second, first_is_next, take_next, IsReadyFor};
ghost use Rattle.edit_record.specs.Squashes.Inner.Merge.{initial};
ghost use Rattle.edit_record.specs.Squashes.Inner.MergeState.{state};

use crate::lists::Edit;
use std::alloc::{AllocError, Global};

/// The state of a merge of two edit lists: the finished edits, the edit being built, and the bytes
/// that only one of the lists has reached.
#[derive(Drop)]
pub(crate) struct Merge<'a> {
    out: Vec<Edit>,
    at: usize,
    removed: Vec<u8>,
    added: Vec<u8>,
    first_pending: &'a [u8],
    second_pending: &'a [u8],
    first_end: usize,
    second_end: usize,
    has_first: bool,
    has_second: bool,
}

impl<'a> Merge<'a> {
    /// Makes the state before the first step. It allocates nothing.
    pub(crate) fn new(alloc: Global) -> Self
        ensures { state result ≡ initial }
    {
        Merge {
            out: Vec::new(alloc),
            at: 0,
            removed: Vec::new(alloc),
            added: Vec::new(alloc),
            first_pending: &[],
            second_pending: &[],
            first_end: 0,
            second_end: 0,
            has_first: false,
            has_second: false,
        }
    }

    /// Returns the finished edits.
    pub(crate) fn into_edits(self) -> Vec<Edit>
        ensures { result.items ≡ self.entry.out.items }
    {
        self.out
    }

    /// Takes the next edit, and returns the edits that are left of both lists.
    pub(crate) fn take_next(
        &mut self,
        xs: &'a [Edit],
        ys: &'a [Edit],
        first: bool,
    ) -> Result<(&'a [Edit], &'a [Edit]), AllocError>
        requires { IsReadyFor first (state self.old) xs.now ys.now }
        ensures { IfOk result (λ left.
            (state self.new, left.0.now, left.1.now)
            ≡ take_next first (state self.old) xs.now ys.now) }
    {
        if first {
            match xs {
                [] => Ok((xs, ys)),
                [x, rest @ ..] => {
                    self.take_first(x)?;
                    Ok((rest, ys))
                }
            }
        } else {
            match ys {
                [] => Ok((xs, ys)),
                [y, rest @ ..] => {
                    self.take_second(y)?;
                    Ok((xs, rest))
                }
            }
        }
    }

    /// Finishes the edit that is being built.
    pub(crate) fn finish_edit(&mut self, alloc: Global) -> Result<(), AllocError>
        requires first_fits { self.old.first_end + length self.old.second_pending.now < 2 ^ 64 }
        requires second_fits { self.old.second_end + length self.old.first_pending.now < 2 ^ 64 }
        ensures { OnOk result (state self.new ≡ finish_edit (state self.old)) }
    {
        self.removed.extend_from_slice(self.second_pending)?;
        self.added.extend_from_slice(self.first_pending)?;
        self.first_end += self.second_pending.len();
        self.second_end += self.first_pending.len();
        self.first_pending = &[];
        self.second_pending = &[];
        if !(self.removed.is_empty() && self.added.is_empty()) {
            let edit = Edit::new(alloc, self.at, &self.removed, &self.added)?;
            self.out.push(edit)?;
            self.removed.clear();
            self.added.clear();
        }
        self.at = self.first_end;
        self.has_first = false;
        self.has_second = false;
        Ok(())
    }

    /// Skips bytes that both lists keep.
    fn skip_kept(&mut self, n: usize)
        requires at_fits { self.old.at + n < 2 ^ 64 }
        requires first_fits { self.old.first_end + n < 2 ^ 64 }
        requires second_fits { self.old.second_end + n < 2 ^ 64 }
        ensures { state self.new ≡ skip_kept n (state self.old) }
    {
        self.at += n;
        self.first_end += n;
        self.second_end += n;
    }

    /// Prepares for the next edit and returns whether it is one of the first list. If no next edit
    /// touches the edit being built, finishes that one and starts another.
    pub(crate) fn prepare_next(
        &mut self,
        alloc: Global,
        xs: &[Edit],
        ys: &[Edit],
    ) -> Result<bool, AllocError>
        requires { IsReady (state self.old) xs.now ys.now }
        ensures { IfOk result (λ first.
            (first, state self.new) ≡ prepare_next (state self.old) xs.now ys.now) }
    {
        if self.joins_first(xs) {
            return Ok(true);
        }
        if self.joins_second(ys) {
            return Ok(false);
        }
        self.finish_edit(alloc)?;
        Ok(self.start_edit(xs, ys))
    }

    /// Returns whether the next edit of the first list overlaps or touches the last edit of the
    /// second in the edit being built, and so becomes a part of that one.
    fn joins_first(&self, xs: &[Edit]) -> bool
        requires { StartsFrom self.now.first_end xs.now }
        ensures { result ≡ joins_first (state self.now) xs.now }
    {
        self.has_second
            && (self.first_pending.is_empty() && reaches(xs, self.first_end, self.second_pending))
    }

    /// Returns whether the next edit of the second list overlaps or touches the last edit of the
    /// first in the edit being built, and so becomes a part of that one.
    fn joins_second(&self, ys: &[Edit]) -> bool
        requires { StartsFrom self.now.second_end ys.now }
        ensures { result ≡ joins_second (state self.now) ys.now }
    {
        self.has_first
            && (self.second_pending.is_empty() && reaches(ys, self.second_end, self.first_pending))
    }

    /// Begins an edit at the next edit of either list.
    fn start_edit(&mut self, xs: &[Edit], ys: &[Edit]) -> bool
        requires { IsReady (state self.old) xs.now ys.now }
        ensures { (result, state self.new)
            ≡ start_edit (state self.old) xs.now ys.now }
    {
        if self.first_is_next(xs, ys) {
            self.skip_kept(gap(self.first_end, xs));
            true
        } else {
            self.skip_kept(gap(self.second_end, ys));
            false
        }
    }

    /// Returns whether the next edit of both lists is one of the first, in the text between.
    fn first_is_next(&self, xs: &[Edit], ys: &[Edit]) -> bool
        requires { IsReady (state self.now) xs.now ys.now }
        ensures { result ≡ first_is_next (state self.now) xs.now ys.now }
    {
        match (xs, ys) {
            ([], _) => false,
            ([_, ..], []) => true,
            ([x, ..], [y, ..]) => x.at() - self.first_end <= y.at() - self.second_end,
        }
    }

    /// Takes the next edit of the first list, which begins among the bytes that the second removed.
    fn take_first(&mut self, edit: &'a Edit) -> Result<(), AllocError>
        requires later { self.old.first_end ≤ edit.now.at }
        requires within { edit.now.at - self.old.first_end ≤ length self.old.second_pending.now }
        requires fits { edit.now.at + length edit.now.removed < 2 ^ 64 }
        ensures { OnOk result (state self.new ≡ with_first edit.now (state self.old)) }
    {
        let (kept, left) = self.second_pending.split_at(edit.at() - self.first_end);
        self.removed.extend_from_slice(kept)?;
        self.removed.extend_from_slice(edit.removed())?;
        self.first_pending = edit.added();
        self.second_pending = left;
        self.first_end = edit.at() + edit.removed().len();
        self.has_first = true;
        Ok(())
    }

    /// Takes the next edit of the second list, which begins among the bytes that the first added.
    fn take_second(&mut self, edit: &'a Edit) -> Result<(), AllocError>
        requires later { self.old.second_end ≤ edit.now.at }
        requires within { edit.now.at - self.old.second_end ≤ length self.old.first_pending.now }
        requires fits { edit.now.at + length edit.now.removed < 2 ^ 64 }
        ensures { OnOk result (state self.new ≡ with_second edit.now (state self.old)) }
    {
        let (kept, left) = self.first_pending.split_at(edit.at() - self.second_end);
        self.added.extend_from_slice(kept)?;
        self.added.extend_from_slice(edit.added())?;
        self.first_pending = left;
        self.second_pending = edit.removed();
        self.second_end = edit.at() + edit.removed().len();
        self.has_second = true;
        Ok(())
    }

    /// Consumes the bytes that the first list added and the second removes again. Returns false if
    /// they differ.
    pub(crate) fn cancel_common(&mut self) -> bool
        ensures same { let n = common_len (state self.old) in
            IsTrue result
            ↔ (take n self.old.first_pending.now ≡ take n self.old.second_pending.now) }
        ensures cancelled { IsTrue result → state self.new ≡ cancel_common (state self.old) }
    {
        let n = self.first_pending.len().min(self.second_pending.len());
        let (first_meets, first_pending) = self.first_pending.split_at(n);
        let (second_meets, second_pending) = self.second_pending.split_at(n);
        if first_meets != second_meets {
            return false;
        }
        self.first_pending = first_pending;
        self.second_pending = second_pending;
        true
    }
}

/// Returns whether the next edit begins within these bytes, or at their end.
fn reaches(edits: &[Edit], from: usize, left: &[u8]) -> bool
    requires { StartsFrom from edits.now }
    ensures { result ≡ reaches edits.now from (length left.now) }
{
    match edits {
        [] => false,
        [edit, ..] => edit.at() - from <= left.len(),
    }
}

/// Returns the number of bytes before the next edit.
fn gap(from: usize, edits: &[Edit]) -> usize
    requires { StartsFrom from edits.now }
    ensures { result ≡ gap from edits.now }
{
    match edits {
        [] => 0,
        [edit, ..] => edit.at() - from,
    }
}
