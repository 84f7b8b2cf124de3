//! Where lines of a text begin: after the line ends in which no opening is open.

ghost use Rattle.std.specs.Prelude.{◌≡◌, ◌<◌, ◌≤◌, ◌+◌, ◌^◌, true, Some, length, IfSome};
ghost use Rattle.hcl_token.specs.declared.kind.Kind.TheVariants.{LineEnd};
ghost use Rattle.hcl_token.specs.TokenizedText.{kind_of};
ghost use Rattle.hcl_rescan.specs.Inner.WholeLines.{IsLineRange, IsLineStart, openings_after};

use crate::sequences::{close_what_they_open, first_beyond};
use crate::stretches::span_range;
use hcl_scan::{Kind, Scanned};

/// Where a line of a text begins: the number of its first token, and the bytes before it.
#[derive(Clone, Copy)]
pub(crate) struct LineStart {
    pub index: usize,
    pub at: usize,
}

/// Returns the last start of a line at or before byte `limit`, of whole lines from `from` on.
///
/// Few line ends are in a template sequence, so that the last one nearly always ends a line.
pub(crate) fn last_line_start(old: &Scanned<'_>, from: LineStart, limit: usize) -> LineStart
    requires { IsLineStart old.now from.index from.at }
    ensures line_start { IsLineStart old.now result.index result.at }
    ensures lines { IsLineRange old.now.pairs from.index result.index }
{
    // by a cursor, which is free: `Scanned` has no other way to its tokens
    let spans = old.places().spans();
    let past = first_beyond(spans, from.index, limit);
    let Some(end) = last_line_end(old, from.index, past) else {
        return from;
    };
    if !close_what_they_open(span_range(spans, from.index, end)) {
        return last_line_start_by_depth(old, from, limit);
    }
    LineStart {
        index: end + 1,
        at: old.item(end).stop as usize,
    }
}

/// Returns the number of the last token of `past` that ends a line, if there is one from number
/// `from` on.
fn last_line_end(old: &Scanned<'_>, from: usize, past: usize) -> Option<usize>
    requires { past ≤ length old.now.pairs }
    ensures { IfSome result (λ i. (from ≤ i) × (i < past)
        × (kind_of old.now.pairs i ≡ Some LineEnd)) }
{
    let mut left = past;
    while from < left {
        left -= 1;
        if is_line_end(old.kind(left)) {
            return Some(left);
        }
    }
    None
}

/// Returns the last start of a line at or before byte `limit`, of whole lines from `from` on: what
/// is open is counted from token to token.
fn last_line_start_by_depth(old: &Scanned<'_>, from: LineStart, limit: usize) -> LineStart
    requires { IsLineStart old.now from.index from.at }
    ensures line_start { IsLineStart old.now result.index result.at }
    ensures lines { IsLineRange old.now.pairs from.index result.index }
{
    let mut to = from;
    let mut depth = 0;
    for i in from.index..old.len() {
        let kind = old.kind(i);
        if ends_top_level_line(kind, depth) {
            let at = old.item(i).stop as usize;
            if at > limit {
                return to;
            }
            to = LineStart { index: i + 1, at };
        } else {
            depth = openings_after(kind, depth);
        }
    }
    to
}

/// Returns the first start of a line after byte `limit` of the old text, from `from` on, if there
/// is one.
pub(crate) fn next_line_start(old: &Scanned<'_>, from: LineStart, limit: usize) -> Option<LineStart>
    requires { IsLineStart old.now from.index from.at }
    ensures line_start { IfSome result (λ to. IsLineStart old.now to.index to.at) }
    ensures after { IfSome result (λ to. limit < to.at) }
    ensures onward { IfSome result (λ to. from.at ≤ to.at) }
    ensures here { limit < from.at → result ≡ Some from }
{
    if from.at > limit {
        return Some(from);
    }
    let mut depth = 0;
    for i in from.index..old.len() {
        let kind = old.kind(i);
        if ends_top_level_line(kind, depth) {
            let at = old.item(i).stop as usize;
            if at > limit {
                return Some(LineStart { index: i + 1, at });
            }
        } else {
            depth = openings_after(kind, depth);
        }
    }
    None
}

/// Whether a token ends a line, if `depth` openings are open.
fn ends_top_level_line(kind: Kind, depth: usize) -> bool
    ensures kind { result ≡ true → kind ≡ LineEnd }
    ensures none { result ≡ true → depth ≡ 0 }
{
    is_line_end(kind) && depth == 0
}

/// Whether a token ends a line.
pub(crate) fn is_line_end(kind: Kind) -> bool
    ensures { result ≡ true → kind ≡ LineEnd }
{
    matches!(kind, Kind::LineEnd)
}

/// Returns how many openings are open after a token of the kind, if `depth` are before it. A brace
/// opens something in a template alone.
fn openings_after(kind: Kind, depth: usize) -> usize
    requires { depth + 1 < 2 ^ 64 }
    ensures value { result ≡ openings_after kind depth }
    ensures small { result ≤ depth + 1 }
{
    match kind {
        Kind::QuoteOpen | Kind::HereOpen | Kind::InterpOpen | Kind::DirectiveOpen => depth + 1,
        Kind::OpenBrace => { if depth == 0 { 0 } else { depth + 1 } }
        Kind::QuoteClose | Kind::HereClose | Kind::SeqClose | Kind::CloseBrace => {
            depth.saturating_sub(1)
        }
        _ => depth,
    }
}
