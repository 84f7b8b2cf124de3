//! Whether the innermost opening is not closed, where something else than its end was found.

ghost use Rattle.std.specs.Prelude.{◌≡◌, ◌≤◌, true, length, Some};
ghost use Rattle.std.specs.Bool.{Decides};
ghost use Rattle.hcl_token.specs.TokenizedText.{kind_of};
ghost use Rattle.hcl_token.specs.declared.kind.Kind.{Kind};
ghost use Rattle.hcl_explain.specs.Openings.{closes, ClosesOuter};

use crate::context::{Context, context_of};
use crate::head::is_after_name;
use crate::near::{is_kind, is_line_start, kind_at};
use crate::openings::{closes, closes_any, closing_after, innermost_open, is_closed_by};
use hcl_scan::{Kind, Scanned};

/// Whether token `found` shows that this opening, the innermost, is not closed.
pub fn is_not_closed(scanned: &Scanned<'_>, opening: usize, found: usize) -> bool
    requires { opening ≤ length scanned.now.pairs }
    ensures end { found ≡ length scanned.now.pairs → result ≡ true }
    ensures closing { (kind : Kind) → kind_of scanned.now.pairs found ≡ Some kind
        → closes kind ≡ true → Decides result (ClosesOuter scanned.now.pairs opening kind) }
{
    match kind_at(scanned, found) {
        Some(kind) => {
            if closes(kind) {
                return closes_outer(scanned, opening, kind);
            }
            begins_outside(scanned, opening, found)
        }
        None => true,
    }
}

/// Whether a token of this kind closes not the innermost opening, but one around it.
fn closes_outer(scanned: &Scanned<'_>, opening: usize, kind: Kind) -> bool
    requires { opening ≤ length scanned.now.pairs }
    ensures { Decides result (ClosesOuter scanned.now.pairs opening kind) }
{
    if is_closed_by(scanned, opening, kind) {
        return false;
    }
    closes_any(scanned, opening, kind)
}

/// Whether token `found` shows that the line of it is outside of this construct.
fn begins_outside(scanned: &Scanned<'_>, opening: usize, found: usize) -> bool {
    match context_of(scanned, Some(opening)) {
        Context::Object => {
            is_block_in_object(scanned, found) && is_open_at_end(scanned, opening, found)
        }
        Context::ObjectFor => {
            is_member(scanned, found) && is_open_at_end(scanned, opening, found)
        }
        Context::Interpolation => is_word_alone(scanned, found),
        Context::Tuple
        | Context::TupleFor
        | Context::Index
        | Context::Arguments
        | Context::Parens => is_member(scanned, found) && !is_closed_after(scanned, opening, found),
        _ => false,
    }
}

/// Whether token `i` is a word alone on its line, as the marker that ends a heredoc.
fn is_word_alone(scanned: &Scanned<'_>, i: usize) -> bool {
    is_kind(scanned, i, Kind::Identifier)
        && is_line_start(scanned, i)
        && is_kind(scanned, i.saturating_add(1), Kind::LineEnd)
}

/// Whether the line of token `found` begins as an attribute or a block does: with this token, or
/// with a name before it.
fn is_member(scanned: &Scanned<'_>, found: usize) -> bool {
    if is_kind(scanned, found, Kind::Equal) {
        return is_after_name(scanned, found);
    }
    let next = found.saturating_add(1);
    is_kind(scanned, found, Kind::Identifier)
        && is_line_start(scanned, found)
        && (is_kind(scanned, next, Kind::Equal) || are_labels(scanned, next))
}

/// Whether labels and a `{` follow from token `from` on.
fn are_labels(scanned: &Scanned<'_>, from: usize) -> bool {
    for i in from..scanned.len() {
        match scanned.kind(i) {
            Kind::Identifier | Kind::QuoteOpen | Kind::QuoteLit | Kind::QuoteClose => {}
            kind => return matches!(kind, Kind::OpenBrace),
        }
    }
    false
}

/// Whether the first token from number `found` on that closes more than was opened from there on
/// closes this opening.
fn is_closed_after(scanned: &Scanned<'_>, opening: usize, found: usize) -> bool {
    match kind_at(scanned, closing_after(scanned, found)) {
        Some(kind) => is_closed_by(scanned, opening, kind),
        None => false,
    }
}

/// Whether the line of token `found`, in an object, is the head of a block: a name before it, and
/// with it the labels, if any, and the `{`.
fn is_block_in_object(scanned: &Scanned<'_>, found: usize) -> bool {
    is_after_name(scanned, found) && are_labels(scanned, found)
}

/// Whether nothing from token `found` on closes this opening, the innermost there, or one around it
/// is the innermost at the end of the text.
fn is_open_at_end(scanned: &Scanned<'_>, opening: usize, found: usize) -> bool {
    if closing_after(scanned, found) >= scanned.len() {
        return true;
    }
    match innermost_open(scanned, scanned.len()) {
        Some(last) => last <= opening,
        None => false,
    }
}
