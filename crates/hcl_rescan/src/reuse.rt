//! What is kept of the old text: the tokens of lines whose bytes are in the new text at the start
//! of a line.

ghost use Rattle.std.specs.Prelude.{◌≡◌, ◌≤◌, ◌+◌, ◌++◌, true, length, drop, IfOk, OnOk};
ghost use Rattle.hcl_scan.specs.Tokenization.{MAX_TEXT};
ghost use Rattle.hcl_rescan.specs.Inner.WholeLines.{IsLineRange, IsLineStart, IsRescanned};
ghost use Rattle.hcl_rescan.specs.Inner.WholeLines.{IsRescannedTo};

use crate::fault::RescanFault;
use crate::line_starts::{LineStart, last_line_start};
use crate::moved::push_relocated;
use crate::rescanned::Rescanned;
use crate::stretches::slice;
use hcl_scan::Scanned;

/// Adds the tokens of the unchanged lines from `from` on up to byte `limit` of the old text, and
/// returns where they end there.
///
/// # Errors
///
/// `Memory`, or `Mismatch` if the new text has other bytes there.
pub(crate) fn reuse_unchanged(
    text: &[u8],
    rescanned: &mut Rescanned,
    old: &Scanned<'_>,
    from: LineStart,
    limit: usize,
) -> Result<LineStart, RescanFault>
    requires rescanned { IsRescannedTo text.now rescanned.old.tokens.items rescanned.old.at }
    requires short { length text.now ≤ MAX_TEXT }
    requires line_start { IsLineStart old.now from.index from.at }
    ensures rescanned { OnOk result
        (IsRescannedTo text.now rescanned.new.tokens.items rescanned.new.at) }
    ensures line_start { IfOk result (λ to. IsLineStart old.now to.index to.at) }
{
    let to = last_line_start(old, from, limit);
    reuse_lines(text, rescanned, old, from, to)?;
    Ok(to)
}

/// Adds the tokens of whole lines of the old text to those of the new one.
///
/// # Errors
///
/// `Memory`, or `Mismatch` if the new text has other bytes there.
fn reuse_lines(
    text: &[u8],
    rescanned: &mut Rescanned,
    old: &Scanned<'_>,
    from: LineStart,
    to: LineStart,
) -> Result<(), RescanFault>
    requires rescanned { IsRescannedTo text.now rescanned.old.tokens.items rescanned.old.at }
    requires short { length text.now ≤ MAX_TEXT }
    requires line_start { IsLineStart old.now from.index from.at }
    requires end_line_start { IsLineStart old.now to.index to.at }
    requires lines { IsLineRange old.now.pairs from.index to.index }
    ensures { OnOk result (IsRescannedTo text.now rescanned.new.tokens.items rescanned.new.at) }
{
    let at = rescanned.at;
    let bytes = slice(old.text(), from.at, to.at);
    if !has_bytes_at(text, at, bytes) {
        return Err(RescanFault::Mismatch);
    }
    push_relocated(&mut rescanned.tokens, at, old, from, to.index)?;
    rescanned.at = at + bytes.len();
    Ok(())
}

/// Adds the tokens of the rest of the old text to those of the new one, and returns where the last
/// gap begins.
///
/// # Errors
///
/// `Memory`, or `Mismatch` if the new text has other bytes from there on.
pub(crate) fn reuse_rest(
    text: &[u8],
    rescanned: &mut Rescanned,
    old: &Scanned<'_>,
    from: LineStart,
) -> Result<usize, RescanFault>
    requires rescanned { IsRescannedTo text.now rescanned.old.tokens.items rescanned.old.at }
    requires short { length text.now ≤ MAX_TEXT }
    requires line_start { IsLineStart old.now from.index from.at }
    ensures { IfOk result
        (λ last_gap_at. IsRescanned text.now rescanned.new.tokens.items last_gap_at) }
{
    let at = rescanned.at;
    let bytes = slice(old.text(), from.at, old.text().len());
    if !same_bytes(slice(text, at, text.len()), bytes) {
        return Err(RescanFault::Mismatch);
    }
    push_relocated(&mut rescanned.tokens, at, old, from, old.len())?;
    Ok(text.len() - old.last_gap().len())
}

/// Whether a text has the bytes at a place.
fn has_bytes_at(text: &[u8], at: usize, bytes: &[u8]) -> bool
    requires { at ≤ length text.now }
    ensures { result ≡ true
        → drop at text.now ≡ bytes.now ++ drop (at + length bytes.now) text.now }
{
    if bytes.len() > text.len() - at {
        return false;
    }
    same_bytes(slice(text, at, at + bytes.len()), bytes)
}

/// Whether two pieces of text are equal.
fn same_bytes(a: &[u8], b: &[u8]) -> bool
    ensures { result ≡ true → a.now ≡ b.now }
{
    a == b
}
