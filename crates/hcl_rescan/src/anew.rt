//! What is scanned anew: the lines in which something changed, as texts of their own.

ghost use Rattle.std.specs.Prelude.{◌≡◌, ◌<◌, ◌≤◌, ◌+◌, ◌-◌, ◌∷◌, true, false, Some, [], length};
ghost use Rattle.std.specs.Prelude.{slice_get, IfOk, IfErr, OnOk};
ghost use Rattle.hcl_token.specs.Tokens.{Pair};
ghost use Rattle.hcl_scan.specs.Tokenization.{IsTokenization, MAX_TEXT};
ghost use Rattle.hcl_scan.specs.declared.fault.ScanFault.{ScanFault};
ghost use Rattle.hcl_scan.specs.ScanResult.{IsScanFault};
ghost use Rattle.hcl_scan.specs.Follows.{AreApart, FollowsFrom, IsApart};
ghost use Rattle.hcl_rescan.specs.Inner.Pieces.{fault_of_part};
ghost use Rattle.hcl_rescan.specs.Inner.WholeLines.{AreSelfContained, EndsWithLineEnd, IsRescannedTo};

use crate::fault::RescanFault;
use crate::line_starts::{LineStart, is_line_end};
use crate::moved::push_relocated;
use crate::rescanned::Rescanned;
use crate::stretches::slice;
use hcl_scan::{Kind, ScanFault, Scanned, Span, scan_in};
use std::alloc::Global;

/// Adds the tokens of the next `len` bytes, and returns the buffer that they took.
///
/// # Errors
///
/// `Memory`, or `Mismatch` if these bytes are not whole lines.
pub(crate) fn scan_lines(
    alloc: Global,
    text: &[u8],
    rescanned: &mut Rescanned,
    len: usize,
    scratch: Vec<Span>,
) -> Result<Vec<Span>, RescanFault>
    requires rescanned { IsRescannedTo text.now rescanned.old.tokens.items rescanned.old.at }
    requires short { length text.now ≤ MAX_TEXT }
    ensures rescanned { OnOk result
        (IsRescannedTo text.now rescanned.new.tokens.items rescanned.new.at) }
    ensures end { OnOk result (rescanned.new.at ≡ rescanned.old.at + len) }
{
    let at = rescanned.at;
    if len > text.len() - at {
        return Err(RescanFault::Mismatch);
    }
    let lines = scan_part(alloc, scratch, slice(text, at, at + len))?;
    if !ends_with_line_end(&lines) || !can_follow_lines(&lines) {
        return Err(RescanFault::Mismatch);
    }
    push_relocated(
        &mut rescanned.tokens,
        at,
        &lines,
        LineStart { index: 0, at: 0 },
        lines.len(),
    )?;
    rescanned.at = at + len;
    Ok(lines.into_buffer())
}

/// Returns the tokens of a piece of a text by itself.
///
/// # Errors
///
/// `Memory`, or `Mismatch` if the piece has no tokens.
fn scan_part<'t>(
    alloc: Global,
    buffer: Vec<Span>,
    text: &'t [u8],
) -> Result<Scanned<'t>, RescanFault>
    ensures text { IfOk result (λ s. s.text ≡ text.now) }
    ensures tokenization { IfOk result (λ s. IsTokenization text.now s.pairs s.last) }
    ensures fault { IfErr result (λ e. (fault : ScanFault) × IsScanFault text.now fault
        × (e ≡ fault_of_part fault)) }
{
    match scan_in(alloc, buffer, text) {
        Ok(scanned) => Ok(scanned),
        Err(fault) => Err(fault_of_part(fault)),
    }
}

/// Returns why a text can't be tokenized by its pieces, by the error of one that was scanned by
/// itself.
fn fault_of_part(fault: ScanFault) -> RescanFault
    ensures { result ≡ fault_of_part fault }
{
    match fault {
        ScanFault::Memory => RescanFault::Memory,
        _ => RescanFault::Mismatch,
    }
}

/// Whether a text ends with a token that ends a line.
fn ends_with_line_end(scanned: &Scanned<'_>) -> bool
    ensures ended { result ≡ true → EndsWithLineEnd scanned.now.pairs }
    ensures none { result ≡ true → scanned.now.last ≡ [] }
{
    let count = scanned.len();
    if count == 0 {
        return false;
    }
    is_line_end(scanned.kind(count - 1)) && scanned.last_gap().is_empty()
}

/// Whether a text that was scanned by itself has the same tokens after whole lines.
fn can_follow_lines(scanned: &Scanned<'_>) -> bool
    ensures { result ≡ true → AreSelfContained scanned.now.pairs scanned.now.last }
{
    !has_mark(scanned) && are_apart(scanned)
}

/// Whether a text's first token is a byte order mark.
pub(crate) fn has_mark(scanned: &Scanned<'_>) -> bool
    ensures { result ≡ false → FollowsFrom [] scanned.now.pairs scanned.now.last [] }
{
    // for the proof: without a mark the tokens follow the modes from the first on
    hcl_scan::laws::tokenization_follows_modes();
    let count = scanned.len();
    count > 0 && matches!(scanned.kind(0), Kind::Mark)
}

/// Whether no gap between two tokens that join is empty.
fn are_apart(scanned: &Scanned<'_>) -> bool
    ensures { result ≡ true → AreApart scanned.now.pairs }
{
    for i in 1..scanned.len() {
        if joins_previous(scanned, i) {
            return false;
        }
    }
    true
}

/// Whether a token follows the one before it after an empty gap and joins with it.
fn joins_previous(scanned: &Scanned<'_>, i: usize) -> bool
    requires first { 0 < i }
    requires within { i < length scanned.now.pairs }
    ensures { result ≡ false → (p q : Pair) → slice_get scanned.now.pairs (i - 1) ≡ Some p
        → slice_get scanned.now.pairs i ≡ Some q → IsApart p.kind p.spelling (q ∷ []) }
{
    scanned.gap(i).is_empty() && scanned.joins(i - 1, i)
}
