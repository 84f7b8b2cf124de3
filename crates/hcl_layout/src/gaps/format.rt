//! The layout of a text: as edits, as a text, and whether the text has it.

ghost use Rattle.std.specs.Prelude.{◌≡◌, ◌<◌, ◌≤◌, ◌↔◌, length, IsTrue, IfOk, IfErr};
ghost use Rattle.edit_record.specs.Lists.Pieces.{Transforms};
ghost use Rattle.hcl_token.specs.TokenizedText.{AreUtf8};
ghost use Rattle.hcl_scan.specs.Tokenization.{IsTokenization, MAX_TEXT};
ghost use Rattle.hcl_layout.specs.Gaps.Layout.{layout_pairs, layout_text, layout_edits, IsLaidOut};
ghost use Rattle.hcl_layout.specs.Gaps.Inner.CodeViews.{AreByteClusters};
ghost use Rattle.hcl_layout.specs.Gaps.Inner.Stages.{with_gaps};
ghost use Rattle.hcl_layout.specs.Gaps.Errors.{IsMemoryOrTooLong};

use crate::gaps::edits::{all_unchanged, gap_edits};
use crate::gaps::fault::LayoutFault;
use crate::gaps::gaps::layout_gaps;
use crate::gaps::limit::capacity_within_limit;
use crate::gaps::text::text_with_gaps;
use crate::gaps::text_bytes::is_plain_text;
use edit_record::lists::{Edit, Edits};
use hcl_scan::Scanned;
use std::alloc::Global;

/// Returns the gaps of the layout, as numbers.
///
/// # Errors
///
/// `TooLong` if the layout has more than `MAX_TEXT` bytes; `Memory` if an allocation fails.
fn gaps_within_limit(
    alloc: Global,
    scanned: &Scanned<'_>,
    is_plain: bool,
) -> Result<Vec<u32>, LayoutFault>
    requires clusters { AreByteClusters is_plain scanned.now.pairs }
    requires tokenization { IsTokenization scanned.now.text scanned.now.pairs scanned.now.last }
    requires utf8 { AreUtf8 scanned.now.pairs }
    ensures layout { IfOk result
        (λ gaps. with_gaps gaps.items scanned.now.pairs ≡ layout_pairs scanned.now.pairs) }
    ensures same { IfOk result (λ gaps. length gaps.items ≡ length scanned.now.pairs) }
    ensures short { IfOk result (λ gaps. length (layout_text scanned.now) ≤ MAX_TEXT) }
    ensures err { IfErr result
        (IsMemoryOrTooLong (MAX_TEXT < length (layout_text scanned.now))) }
{
    let gaps = layout_gaps(alloc, scanned, is_plain)?;
    capacity_within_limit(scanned, &gaps)?;
    Ok(gaps)
}

/// Returns the gaps that differ, as edits.
///
/// # Errors
///
/// As for [`gaps_within_limit`].
fn edits_of(alloc: Global, scanned: &Scanned<'_>) -> Result<Vec<Edit>, LayoutFault>
    requires tokenization { IsTokenization scanned.now.text scanned.now.pairs scanned.now.last }
    requires utf8 { AreUtf8 scanned.now.pairs }
    ensures ok { IfOk result (λ edits. edits.items ≡ (layout_edits scanned.now).entries) }
    ensures short { IfOk result (λ edits. length (layout_text scanned.now) ≤ MAX_TEXT) }
    ensures err { IfErr result
        (IsMemoryOrTooLong (MAX_TEXT < length (layout_text scanned.now))) }
{
    let is_plain = is_plain_text(scanned);
    let gaps = gaps_within_limit(alloc, scanned, is_plain)?;
    Ok(gap_edits(alloc, scanned, &gaps, is_plain)?)
}

/// Returns the edits that format a text: the gaps that differ, each from the whole old one to the
/// whole new one. They change no token, and so no comment and no line end.
///
/// # Errors
///
/// `TooLong` if the layout has more than `MAX_TEXT` bytes; `Memory` if an allocation fails.
///
/// Terraform style conventions.
pub fn layout(alloc: Global, scanned: &Scanned<'_>) -> Result<Edits, LayoutFault>
    ensures edits { IfOk result (λ edits. edits ≡ layout_edits scanned.now) }
    ensures turns { IfOk result (λ edits. Transforms edits scanned.now.text (layout_text scanned.now)) }
    ensures short { IfOk result (λ edits. length (layout_text scanned.now) ≤ MAX_TEXT) }
    ensures err { IfErr result
        (IsMemoryOrTooLong (MAX_TEXT < length (layout_text scanned.now))) }
{
    let text = scanned.text();
    let edits = edits_of(alloc, scanned)?;
    edit_record::laws::pieces_make_valid_edits();
    match Edits::make(text.len(), edits) {
        Ok(edits) => Ok(edits),
        Err(_) => unreachable!(),
    }
}

/// Returns the formatted text, which the edits of [`layout`] make, without making edits.
///
/// # Errors
///
/// As for [`layout`].
pub fn formatted_text(alloc: Global, scanned: &Scanned<'_>) -> Result<Vec<u8>, LayoutFault>
    ensures text { IfOk result (λ text. text.items ≡ layout_text scanned.now) }
    ensures turns { IfOk result (λ text.
        Transforms (layout_edits scanned.now) scanned.now.text text.items) }
    ensures short { IfOk result (λ text. length (layout_text scanned.now) ≤ MAX_TEXT) }
    ensures err { IfErr result
        (IsMemoryOrTooLong (MAX_TEXT < length (layout_text scanned.now))) }
{
    // for the proof: the clauses of `text` say that these are the tokens of the text
    let _text = scanned.text();
    let is_plain = is_plain_text(scanned);
    let gaps = layout_gaps(alloc, scanned, is_plain)?;
    let capacity = capacity_within_limit(scanned, &gaps)?;
    Ok(text_with_gaps(alloc, scanned, &gaps, capacity, is_plain)?)
}

/// Returns whether a text is formatted: whether each gap is that of its layout.
///
/// # Errors
///
/// As for [`layout`].
pub fn is_laid_out(alloc: Global, scanned: &Scanned<'_>) -> Result<bool, LayoutFault>
    ensures answer { IfOk result (λ yes. IsTrue yes ↔ IsLaidOut scanned.now) }
    ensures short { IfOk result (λ yes. length (layout_text scanned.now) ≤ MAX_TEXT) }
    ensures err { IfErr result
        (IsMemoryOrTooLong (MAX_TEXT < length (layout_text scanned.now))) }
{
    // for the proof: the clauses of `text` say that these are the tokens of the text
    let _text = scanned.text();
    let is_plain = is_plain_text(scanned);
    let gaps = layout_gaps(alloc, scanned, is_plain)?;
    // a layout that is the text is no longer than the text
    if all_unchanged(scanned, &gaps, is_plain) {
        return Ok(true);
    }
    capacity_within_limit(scanned, &gaps)?;
    Ok(false)
}
