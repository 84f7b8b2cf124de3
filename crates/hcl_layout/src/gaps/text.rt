//! The formatted text, copied from the old one range by range. For speed alone: the edits of a
//! layout make the same text.

ghost use Rattle.std.specs.Prelude.{◌≡◌, ◌≤◌, ◌++◌, [], length, slice_range, OnOk, IfOk};
ghost use Rattle.hcl_token.specs.Tokens.{whole_text};
ghost use Rattle.hcl_layout.specs.Gaps.Space.{spaces};
ghost use Rattle.hcl_layout.specs.Gaps.Inner.CodeViews.{AreSpaces};
ghost use Rattle.hcl_layout.specs.Gaps.Inner.Stages.{resolved_gap, with_gaps};

use crate::gaps::changes::next_change;
use crate::gaps::gap_numbers::KEEP_GAP;
use hcl_scan::Scanned;
use std::alloc::{AllocError, Global};

/// Pushes `len` spaces.
fn push_spaces(out: &mut Vec<u8>, len: u32) -> Result<(), AllocError>
    ensures { OnOk result (out.new.items ≡ out.old.items ++ spaces len) }
{
    for _ in 0..len {
        out.push(b' ')?;
    }
    Ok(())
}

/// Pushes the gap that a number means, where `gap` is the old one.
fn push_gap(out: &mut Vec<u8>, gap: &[u8], new: u32) -> Result<(), AllocError>
    ensures { OnOk result (out.new.items ≡ out.old.items ++ resolved_gap new gap.now) }
{
    if new == KEEP_GAP {
        out.extend_from_slice(gap)
    } else {
        push_spaces(out, new)
    }
}

/// Returns the bytes `from..to` of a text.
fn slice(text: &[u8], from: usize, to: usize) -> &[u8]
    requires ordered { from ≤ to }
    requires within { to ≤ length text.now }
    ensures { result.now ≡ slice_range text.now from to }
{
    &text[from..to]
}

/// Returns the text with its new gaps, with this capacity. What is between two gaps that change is
/// copied in one call.
pub(crate) fn text_with_gaps(
    alloc: Global,
    scanned: &Scanned<'_>,
    gaps: &[u32],
    capacity: usize,
    all_spaces: bool,
) -> Result<Vec<u8>, AllocError>
    requires spaces { AreSpaces all_spaces scanned.now.pairs }
    requires same { length gaps.now ≡ length scanned.now.pairs }
    ensures { IfOk result (λ text.
        text.items ≡ whole_text (with_gaps gaps.now scanned.now.pairs) []) }
{
    let source = scanned.text();
    let mut text = Vec::with_capacity(alloc, capacity)?;
    let mut from = 0;
    let mut i = next_change(scanned, gaps, 0, all_spaces);
    while i < scanned.len() {
        let gap = scanned.gap(i);
        let item = scanned.item(i);
        text.extend_from_slice(slice(source, from, item.gap_at as usize))?;
        push_gap(&mut text, gap, gaps[i])?;
        from = item.start as usize;
        let next = next_change(scanned, gaps, i + 1, all_spaces);
        i = next;
    }
    let end = source.len() - scanned.last_gap().len();
    text.extend_from_slice(slice(source, from, end))?;
    Ok(text)
}
