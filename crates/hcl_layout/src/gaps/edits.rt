//! The edits that give a text its new gaps.

ghost use Rattle.std.specs.Prelude.{true, ◌≡◌, ◌≤◌, ◌<◌, ◌&&◌, ◌++◌, [], ◌∷◌, Some, length, nat_lt};
ghost use Rattle.std.specs.Prelude.{slice_get, slice_range, IfOk, OnOk};
ghost use Rattle.std.specs.Str.{bytes_eq};
ghost use Rattle.std.specs.Option.{option_map};
ghost use Rattle.hcl_token.specs.Tokens.{Pair};
ghost use Rattle.edit_record.specs.Lists.Pieces.{changed_entries};
ghost use Rattle.hcl_layout.specs.Gaps.Space.{spaces};
ghost use Rattle.hcl_layout.specs.Gaps.Layout.{gap_piece, pieces};
ghost use Rattle.hcl_layout.specs.Gaps.Inner.CodeViews.{AreSpaces};
ghost use Rattle.hcl_layout.specs.Gaps.Inner.Stages.{unchanged, resolved_gap, with_gaps, have_lengths};

use crate::gaps::changes::{first_change, next_change};
use crate::gaps::gap_numbers::KEEP_GAP;
use crate::gaps::text_bytes::are_spaces;
use edit_record::lists::Edit;
use hcl_scan::Scanned;
use std::alloc::{AllocError, Global};

/// Returns whether a gap is `len` spaces. Its bytes are not read if it is known to be spaces.
fn is_spaces(gap: &[u8], len: u32, all_spaces: bool) -> bool
    requires { all_spaces ≡ true → gap.now ≡ spaces (length gap.now) }
    ensures { result ≡ bytes_eq gap.now (spaces len) }
{
    if gap.len() != len as usize {
        return false;
    }
    if all_spaces {
        return true;
    }
    for b in gap {
        if *b != b' ' {
            return false;
        }
    }
    true
}

/// Returns whether a gap stays; its bytes are not read if it is known to be spaces.
pub(crate) fn is_unchanged(gap: &[u8], new: u32, all_spaces: bool) -> bool
    requires { all_spaces ≡ true → gap.now ≡ spaces (length gap.now) }
    ensures { result ≡ bytes_eq gap.now (resolved_gap new gap.now) }
{
    // of few gaps the number is `KEEP_GAP`, so that is tested last
    if is_spaces(gap, new, all_spaces) {
        return true;
    }
    new == KEEP_GAP
}

/// Returns `len` spaces.
fn spaces(alloc: Global, len: u32) -> Result<Vec<u8>, AllocError>
    ensures { IfOk result (λ gap. gap.items ≡ spaces len) }
{
    let mut gap = Vec::with_capacity(alloc, len as usize)?;
    for _ in 0..len {
        gap.push(b' ')?;
    }
    Ok(gap)
}

/// Pushes the edit that makes a gap another, unless it stays.
fn push_gap(
    alloc: Global,
    edits: &mut Vec<Edit>,
    at: usize,
    gap: &[u8],
    new: u32,
) -> Result<(), AllocError>
    ensures { OnOk result
        (edits.new.items
        ≡ edits.old.items
        ++ changed_entries at (gap_piece gap.now (resolved_gap new gap.now) ∷ [])) }
{
    if is_unchanged(gap, new, false) {
        return Ok(());
    }
    let spaces = spaces(alloc, new)?;
    edits.push(Edit::new(alloc, at, gap, &spaces)?)?;
    Ok(())
}

/// Returns the gaps that differ, as edits.
pub(crate) fn gap_edits(
    alloc: Global,
    scanned: &Scanned<'_>,
    gaps: &[u32],
    all_spaces: bool,
) -> Result<Vec<Edit>, AllocError>
    requires spaces { AreSpaces all_spaces scanned.now.pairs }
    requires same { length gaps.now ≡ length scanned.now.pairs }
    ensures { IfOk result
        (λ edits. edits.items
        ≡ changed_entries 0 (pieces scanned.now.pairs
        (with_gaps gaps.now scanned.now.pairs) scanned.now.last)) }
{
    let mut edits = Vec::new(alloc);
    let mut i = next_change(scanned, gaps, 0, all_spaces);
    while i < scanned.len() {
        let item = scanned.item(i);
        push_gap(
            alloc,
            &mut edits,
            item.gap_at as usize,
            scanned.gap(i),
            gaps[i],
        )?;
        let next = next_change(scanned, gaps, i + 1, all_spaces);
        i = next;
    }
    let last = scanned.last_gap();
    push_gap(
        alloc,
        &mut edits,
        scanned.text().len() - last.len(),
        last,
        0,
    )?;
    Ok(edits)
}

/// Returns the number of bytes of the gap before token `i`.
fn old_gap_len(scanned: &Scanned<'_>, i: usize) -> u32
    requires { i < length scanned.now.pairs }
    ensures { Some result
        ≡ option_map (λ (p : Pair). length p.gap) (slice_get scanned.now.pairs i) }
{
    let item = scanned.item(i);
    item.start - item.gap_at
}

/// Returns whether the gaps of the tokens `from..to` stay or have as many bytes as they have spaces
/// in the layout; false where the first token is among them.
pub(crate) fn have_lengths(scanned: &Scanned<'_>, gaps: &[u32], from: usize, to: usize) -> bool
    requires same { length gaps.now ≡ length scanned.now.pairs }
    requires ordered { from ≤ to }
    requires within { to ≤ length scanned.now.pairs }
    ensures { result ≡ (nat_lt 0 from
        && have_lengths (slice_range gaps.now from to) (slice_range scanned.now.pairs from to)) }
{
    // so that the loop need not ask whether a token is before the gap
    if from == 0 {
        return false;
    }
    // no early end, so that several are compared at once
    let mut same = true;
    for i in from..to {
        same &= (old_gap_len(scanned, i) == gaps[i]) | (gaps[i] == KEEP_GAP);
    }
    same
}

/// How many gaps are compared before a text is read for tabs.
const NEAR: usize = 16;

/// Returns whether no gap differs. Bytes are compared where the text has a tab or is not read for
/// one, else lengths alone.
pub(crate) fn all_unchanged(scanned: &Scanned<'_>, gaps: &[u32], all_spaces: bool) -> bool
    requires spaces { AreSpaces all_spaces scanned.now.pairs }
    requires same { length gaps.now ≡ length scanned.now.pairs }
    ensures { result ≡ unchanged scanned.now.pairs
        (with_gaps gaps.now scanned.now.pairs) scanned.now.last }
{
    // many a text that changes does so near its first token: its bytes need not be read
    let near = if all_spaces {
        0
    } else {
        scanned.len().min(NEAR)
    };
    if first_change(scanned, gaps, 0, near, all_spaces) < near {
        return false;
    }
    let all_spaces = are_spaces(scanned, all_spaces);
    if next_change(scanned, gaps, near, all_spaces) < scanned.len() {
        return false;
    }
    scanned.last_gap().is_empty()
}
