//! The next gap that changes. For speed alone: `edits::is_unchanged` tests one gap, and the
//! processor compares the lengths of several at once.

ghost use Rattle.std.specs.Prelude.{true, false, ◌≡◌, ◌≤◌, ◌<◌, ◌+◌, ◌&&◌, length, nat_lt, slice_range};
ghost use Rattle.hcl_layout.specs.Gaps.Inner.CodeViews.{AreSpaces};
ghost use Rattle.hcl_layout.specs.Gaps.Inner.Stages.{AreUnchanged, IsChanged, have_lengths};

use crate::gaps::edits::{have_lengths, is_unchanged};
use hcl_scan::Scanned;

/// How many gaps are compared at once, after as many that stay.
const BLOCK: usize = 16;

/// Returns the first of the tokens `from..to` whose gap changes, or `to`.
pub(crate) fn first_change(
    scanned: &Scanned<'_>,
    gaps: &[u32],
    from: usize,
    to: usize,
    all_spaces: bool,
) -> usize
    requires spaces { AreSpaces all_spaces scanned.now.pairs }
    requires same { length gaps.now ≡ length scanned.now.pairs }
    requires ordered { from ≤ to }
    requires within { to ≤ length scanned.now.pairs }
    ensures later { from ≤ result }
    ensures within { result ≤ to }
    ensures stay { AreUnchanged scanned.now.pairs gaps.now from result }
    ensures changes { result < to → IsChanged scanned.now.pairs gaps.now result }
{
    for i in from..to {
        if !is_unchanged(scanned.gap(i), gaps[i], all_spaces) {
            return i;
        }
    }
    to
}

/// Returns a token up to which all gaps from token `from` on stay, which are compared by blocks.
fn end_of_blocks(scanned: &Scanned<'_>, gaps: &[u32], from: usize) -> usize
    requires spaces { AreSpaces true scanned.now.pairs }
    requires same { length gaps.now ≡ length scanned.now.pairs }
    requires within { from ≤ length scanned.now.pairs }
    ensures later { from ≤ result }
    ensures within { result ≤ length scanned.now.pairs }
    ensures stay { AreUnchanged scanned.now.pairs gaps.now from result }
    ensures end { result + 16 ≤ length scanned.now.pairs
        → (nat_lt 0 result
        && have_lengths (slice_range gaps.now result (result + 16))
        (slice_range scanned.now.pairs result (result + 16))) ≡ false }
{
    let mut at = from;
    while BLOCK <= scanned.len() - at {
        if !have_lengths(scanned, gaps, at, at + BLOCK) {
            return at;
        }
        at += BLOCK;
    }
    at
}

/// Returns the first token from number `from` on whose gap changes, or the number of tokens.
#[inline(never)]
pub(crate) fn next_change(
    scanned: &Scanned<'_>,
    gaps: &[u32],
    from: usize,
    all_spaces: bool,
) -> usize
    requires spaces { AreSpaces all_spaces scanned.now.pairs }
    requires same { length gaps.now ≡ length scanned.now.pairs }
    requires within { from ≤ length scanned.now.pairs }
    ensures later { from ≤ result }
    ensures within { result ≤ length scanned.now.pairs }
    ensures stay { AreUnchanged scanned.now.pairs gaps.now from result }
    ensures changes { result < length scanned.now.pairs
        → IsChanged scanned.now.pairs gaps.now result }
{
    let len = scanned.len();
    // most gaps that change are near the one before
    let near = len.min(from + BLOCK);
    let change = first_change(scanned, gaps, from, near, all_spaces);
    if change < near {
        return change;
    }
    // after this each gap has a token before it, so the loops need not ask for one
    if near == 0 {
        return near;
    }
    if !all_spaces {
        return first_change(scanned, gaps, near, len, false);
    }
    let far = end_of_blocks(scanned, gaps, near);
    first_change(scanned, gaps, far, len, true)
}
