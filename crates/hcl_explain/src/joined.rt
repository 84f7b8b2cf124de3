//! Text and values one after the other, with nothing between them that joins them.

use crate::context::{Context, context_of};
use crate::expected::Expected;
use crate::head::after_string;
use crate::near::{is_adjacent, is_kind, is_next};
use crate::openings::{closing_after, innermost_open, opens};
use hcl_scan::{Kind, Scanned};

/// Whether token `found` begins text after a value, or a value after text, and nothing but an
/// operator could be there.
pub fn is_joined(scanned: &Scanned<'_>, found: usize, last: usize, expected: Expected) -> bool {
    matches!(
        expected,
        Expected::ValueEnd | Expected::Paren | Expected::Bracket | Expected::SequenceEnd
    ) && (is_value_after_text(scanned, found, last) || is_text_after_value(scanned, found, last))
}

/// Whether a name with a `.` or a `(` right after it is after a string, and sets nothing.
fn is_value_after_text(scanned: &Scanned<'_>, found: usize, last: usize) -> bool {
    is_kind(scanned, last, Kind::QuoteClose)
        && is_kind(scanned, found, Kind::Identifier)
        && (is_next(scanned, Kind::Dot, found) || is_next(scanned, Kind::OpenParen, found))
        && !is_before_equal(scanned, found)
}

/// Whether an `=` is in the line from token `i` on, before anything opens.
fn is_before_equal(scanned: &Scanned<'_>, i: usize) -> bool {
    for k in i..scanned.len() {
        match scanned.kind(k) {
            Kind::Equal => return true,
            Kind::LineEnd | Kind::LineComment => return false,
            kind => {
                if opens(kind) {
                    return false;
                }
            }
        }
    }
    false
}

/// Whether a string, which is no name of a block or of what is set, is after such a value.
fn is_text_after_value(scanned: &Scanned<'_>, found: usize, last: usize) -> bool {
    is_kind(scanned, found, Kind::QuoteOpen)
        && (is_kind(scanned, last, Kind::CloseParen)
            || is_index(scanned, last)
            || is_attribute(scanned, last))
        && !is_before_equal(scanned, after_string(scanned, found))
        && !is_kind(scanned, after_string(scanned, found), Kind::OpenBrace)
}

/// Whether token `last` is a name after a `.`.
fn is_attribute(scanned: &Scanned<'_>, last: usize) -> bool {
    is_kind(scanned, last, Kind::Identifier) && is_kind(scanned, last.saturating_sub(1), Kind::Dot)
}

/// Whether token `last` ends an index.
fn is_index(scanned: &Scanned<'_>, last: usize) -> bool {
    last < scanned.len()
        && is_kind(scanned, last, Kind::CloseBracket)
        && matches!(
            context_of(scanned, innermost_open(scanned, last)),
            Context::Index
        )
}

/// Whether a word is right before the string that begins with token `found`, and one right after
/// it.
pub fn is_between_words(scanned: &Scanned<'_>, found: usize, last: usize) -> bool {
    is_kind(scanned, last, Kind::Identifier)
        && is_adjacent(scanned, found)
        && is_next(
            scanned,
            Kind::Identifier,
            closing_after(scanned, found.saturating_add(1)),
        )
}
