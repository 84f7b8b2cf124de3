//! Tokens of lines that moved: they are copied as they are, and then moved in place, so that the
//! processor does several at once.

ghost use Rattle.std.specs.Prelude.{◌≡◌, ◌≤◌, ◌+◌, ◌++◌, [], length, slice_range, OnOk};
ghost use Rattle.hcl_token.specs.Pairs.{spans_from};
ghost use Rattle.hcl_token.specs.Tokens.{whole_text};
ghost use Rattle.hcl_scan.specs.Tokenization.{MAX_TEXT};
ghost use Rattle.hcl_rescan.specs.Inner.MovedSpans.{AreMovable, moved_spans};
ghost use Rattle.hcl_rescan.specs.Inner.WholeLines.{IsLineStart};

use crate::line_starts::LineStart;
use crate::stretches::span_range;
use hcl_scan::{Scanned, Span};
use std::alloc::AllocError;

/// Adds tokens of a text, with their places in another one, where they begin at byte `at`.
///
/// # Errors
///
/// Returns `AllocError` if memory runs out.
pub(crate) fn push_relocated(
    tokens: &mut Vec<Span>,
    at: usize,
    old: &Scanned<'_>,
    from: LineStart,
    to: usize,
) -> Result<(), AllocError>
    requires line_start { IsLineStart old.now from.index from.at }
    requires ordered { from.index ≤ to }
    requires within { to ≤ length old.now.pairs }
    requires fits { at + length (whole_text (slice_range old.now.pairs from.index to) [])
        ≤ MAX_TEXT }
    ensures { OnOk result (tokens.new.items
        ≡ tokens.old.items ++ spans_from at (slice_range old.now.pairs from.index to)) }
{
    // for the proof: the clauses of `text` say that the old text is short
    let _text = old.text();
    let begin = tokens.len();
    tokens.extend_from_slice(span_range(old.places().spans(), from.index, to))?;
    move_spans(tokens.slice_mut(begin..), from.at as u32, at as u32);
    Ok(())
}

/// Moves tokens by the distance from one place to another.
fn move_spans(spans: &mut [Span], from: u32, to: u32)
    requires { AreMovable from to spans.old }
    ensures { spans.new ≡ moved_spans from to spans.old }
{
    for k in 0..spans.len() {
        spans[k] = spans[k].moved(from, to);
    }
}
