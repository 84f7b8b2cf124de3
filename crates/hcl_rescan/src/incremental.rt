//! The tokens of an edited text, by those of the text before the edit: lines that did not change
//! are not scanned again.
//!
//! A line here is the tokens up to a line end after which no opening is open. They don't depend on
//! what precedes and follows the line, so if its bytes are in the new text at the start of a line,
//! they have the same tokens there. The lines in which something changed are scanned as texts of
//! their own; what follows the last of them has to be as it was.

ghost use Rattle.std.specs.Prelude.{◌<◌, ◌≤◌, length, IfOk, IfSome};
ghost use Rattle.hcl_scan.specs.Tokenization.{MAX_TEXT};
ghost use Rattle.hcl_scan.specs.ScanResult.{IsScanFault, IsScanResult};
ghost use Rattle.hcl_scan.specs.Follows.{AreApart};
ghost use Rattle.hcl_rescan.specs.Inner.Pieces.{AreBefore};
ghost use Rattle.hcl_rescan.specs.Inner.WholeLines.{IsLineStart, IsRescanned};

use crate::anew::{has_mark, scan_lines};
use crate::fault::RescanFault;
use crate::line_starts::{LineStart, next_line_start};
use crate::rescanned::Rescanned;
use crate::reuse::{reuse_rest, reuse_unchanged};
use hcl_scan::{MAX_TEXT, ScanFault, Scanned, Span, scan_in};
use std::alloc::Global;

/// Bytes of an old text that were replaced: where they begin in the old text, in bytes from 0, how
/// many they were, and how many are in their place in the new text.
#[derive(Clone, Copy, Debug, PartialEq, Eq)]
pub struct ReplacedRange {
    pub at: u32,
    pub removed: u32,
    pub added: u32,
}

/// Returns the tokens of an edited text, as `scan_in` does; lines that did not change are not
/// scanned again. No gap between two tokens of the old text that join may be empty. `replaced` has
/// the pieces that were replaced, in order; if more was changed than they say, the whole text is
/// scanned.
///
/// # Errors
///
/// Those of `scan_in`.
pub fn rescan<'t>(
    alloc: Global,
    buffer: Vec<Span>,
    text: &'t [u8],
    old: &Scanned<'_>,
    replaced: &[ReplacedRange],
) -> Result<Scanned<'t>, ScanFault>
    requires { AreApart old.now.pairs }
    ensures { IsScanResult text.now result }
{
    if text.is_empty() {
        return scan_in(alloc, buffer, text);
    }
    if text.len() > MAX_TEXT {
        return scan_in(alloc, buffer, text);
    }
    let mut rescanned = Rescanned {
        tokens: buffer,
        at: 0,
    };
    match rescan_tokens(alloc, text, old, replaced, &mut rescanned) {
        Ok(last_gap_at) => { Ok(Scanned::of_tokens(text, rescanned.tokens, last_gap_at)) }
        Err(RescanFault::Memory) => Err(memory_fault(text)),
        Err(RescanFault::Mismatch) => scan_in(alloc, rescanned.tokens, text),
    }
}

/// Returns the error of a text for whose tokens memory ran out: bytes that are not UTF-8 are
/// reported before that.
fn memory_fault(text: &[u8]) -> ScanFault
    requires { length text.now ≤ MAX_TEXT }
    ensures { IsScanFault text.now result }
{
    match simdutf8::compat::from_utf8(text) {
        Err(e) => ScanFault::NotUtf8 {
            at: e.valid_up_to(),
        },
        Ok(_) => ScanFault::Memory,
    }
}

/// Returns the tokens of an edited text, and where its last gap begins, in bytes from 0.
///
/// # Errors
///
/// `Memory`; `Mismatch` if more was changed than the replaced pieces say, or if what was changed
/// can't be scanned by itself.
fn rescan_tokens(
    alloc: Global,
    text: &[u8],
    old: &Scanned<'_>,
    replaced: &[ReplacedRange],
    rescanned: &mut Rescanned,
) -> Result<usize, RescanFault>
    requires apart { AreApart old.now.pairs }
    requires short { length text.now ≤ MAX_TEXT }
    ensures { IfOk result
        (λ last_gap_at. IsRescanned text.now rescanned.new.tokens.items last_gap_at) }
{
    rescanned.tokens.clear();
    rescanned.at = 0;
    if has_mark(old) {
        return Err(RescanFault::Mismatch);
    }
    rescanned.tokens.reserve(text.len() / 8)?;
    let mut scratch = Vec::new(alloc);
    let mut line_start = LineStart { index: 0, at: 0 };
    let mut first = 0;
    while first < replaced.len() {
        let limit = replaced[first].at as usize;
        line_start = reuse_unchanged(text, rescanned, old, line_start, limit)?;
        let changed = changed_lines(old, line_start, replaced, first);
        let Some(ChangedLines { to, len, count }) = changed else {
            return Err(RescanFault::Mismatch);
        };
        if len > text.len() / 2 {
            // The changed lines have a list of tokens of their own, which would be as long as that
            // of the whole text.
            return Err(RescanFault::Mismatch);
        }
        scratch = scan_lines(alloc, text, rescanned, len, scratch)?;
        line_start = to;
        first = count;
    }
    reuse_rest(text, rescanned, old, line_start)
}

/// Lines of the old text in which bytes are replaced: where the next unchanged line begins, how
/// many bytes the new text has in their place, and how many pieces were replaced up to there.
struct ChangedLines {
    to: LineStart,
    len: usize,
    count: usize,
}

/// Returns the lines from `from` on in which piece `first` and those after it are replaced, if a
/// line starts after each of these pieces.
fn changed_lines(
    old: &Scanned<'_>,
    from: LineStart,
    replaced: &[ReplacedRange],
    first: usize,
) -> Option<ChangedLines>
    requires line_start { IsLineStart old.now from.index from.at }
    requires some { first < length replaced.now }
    ensures line_start { IfSome result
        (λ changed. IsLineStart old.now changed.to.index changed.to.at) }
    ensures count { IfSome result
        (λ changed. (first < changed.count) × (changed.count ≤ length replaced.now)) }
    ensures pieces { IfSome result
        (λ changed. AreBefore replaced.now first changed.count changed.to.at) }
{
    let mut count = first;
    let mut to = from;
    let mut removed: usize = 0;
    let mut added: usize = 0;
    while count < replaced.len() && (count == first || (replaced[count].at as usize) < to.at) {
        let piece = replaced[count];
        removed = removed.saturating_add(piece.removed as usize);
        added = added.saturating_add(piece.added as usize);
        to = next_line_start(old, to, piece.at as usize + piece.removed as usize)?;
        count += 1;
    }
    let before = to.at.saturating_sub(from.at);
    let len = before.saturating_add(added).saturating_sub(removed);
    Some(ChangedLines { to, len, count })
}
