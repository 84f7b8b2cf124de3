//! The gaps of the layout.

ghost use Rattle.std.specs.Prelude.{◌≡◌, ◌≤◌, length, IfOk};
ghost use Rattle.hcl_token.specs.TokenizedText.{AreUtf8};
ghost use Rattle.hcl_scan.specs.Tokenization.{IsTokenization};
ghost use Rattle.hcl_layout.specs.Gaps.Layout.{layout_pairs};
ghost use Rattle.hcl_layout.specs.Gaps.Inner.CodeViews.{AreByteClusters};
ghost use Rattle.hcl_layout.specs.Gaps.Inner.Stages.{with_gaps, mark_count};

use crate::gaps::base_gaps::fill_base_gaps;
use crate::gaps::cells::{Cell, align};
use crate::gaps::gap_numbers::kept_gaps;
use hcl_scan::Scanned;
use hcl_token::Kind;
use std::alloc::{AllocError, Global};

/// Returns how many tokens belong to no line: the byte order mark.
fn mark_count(scanned: &Scanned<'_>) -> usize
    ensures value { result ≡ mark_count scanned.now.pairs }
    ensures within { result ≤ length scanned.now.pairs }
{
    if scanned.is_empty() {
        return 0;
    }
    match scanned.kind(0) {
        Kind::Mark => 1,
        _ => 0,
    }
}

/// Returns the gaps of the layout of a text.
pub(crate) fn layout_gaps(
    alloc: Global,
    scanned: &Scanned<'_>,
    is_plain: bool,
) -> Result<Vec<u32>, AllocError>
    requires clusters { AreByteClusters is_plain scanned.now.pairs }
    requires tokenization { IsTokenization scanned.now.text scanned.now.pairs scanned.now.last }
    requires utf8 { AreUtf8 scanned.now.pairs }
    ensures layout { IfOk result
        (λ gaps. with_gaps gaps.items scanned.now.pairs ≡ layout_pairs scanned.now.pairs) }
    ensures same { IfOk result (λ gaps. length gaps.items ≡ length scanned.now.pairs) }
{
    let first = mark_count(scanned);
    let mut gaps = kept_gaps(alloc, scanned)?;
    let spans = fill_base_gaps(alloc, scanned, &mut gaps, first)?;
    align(
        alloc,
        scanned,
        Cell::Assignment,
        &spans,
        &mut gaps,
        first,
        is_plain,
    )?;
    align(
        alloc,
        scanned,
        Cell::ClosingComment,
        &spans,
        &mut gaps,
        first,
        is_plain,
    )?;
    Ok(gaps)
}
