//! What is at the start of a line where an attribute or a block should begin.

use crate::advice::Advice;
use crate::head::{HeadAdvice, after_string, quoted_name};
use crate::near::{ends_value, first_from, is_kind, is_next, is_operator, last_before};
use hcl_scan::{Kind, Scanned};

/// Returns the advice for a token where an attribute or a block should begin.
pub fn at_line_start(scanned: &Scanned<'_>, kind: Kind, found: usize) -> Option<Advice> {
    match kind {
        Kind::Number => Some(Advice::Head(HeadAdvice::NameDigit)),
        Kind::QuoteOpen => Some(Advice::Head(quoted_name(scanned, found))),
        Kind::OpenBrace | Kind::OpenBracket if is_json(scanned, found) => Some(Advice::Json),
        Kind::Minus if is_next(scanned, kind, found) => Some(Advice::CommentSign),
        Kind::Less if is_next(scanned, Kind::Bang, found) => Some(Advice::CommentSign),
        _ if is_operator(kind) && follows_attribute(scanned, found) => Some(Advice::OperatorFirst),
        _ => None,
    }
}

/// Whether token `found` is the first, and begins a text of JSON: a `{` with a string and a `:`, or
/// a `}`, after it, or a `[` before such a one.
fn is_json(scanned: &Scanned<'_>, found: usize) -> bool {
    let start = if is_kind(scanned, 0, Kind::Mark) {
        1
    } else {
        0
    };
    let brace = if is_kind(scanned, found, Kind::OpenBracket) {
        first_from(scanned, found.saturating_add(1), true)
    } else {
        found
    };
    let next = first_from(scanned, brace.saturating_add(1), true);
    first_from(scanned, start, true) == found
        && is_kind(scanned, brace, Kind::OpenBrace)
        && (is_json_name(scanned, next) || is_kind(scanned, next, Kind::CloseBrace))
}

/// Whether token `i` begins a string with a `:` after it.
fn is_json_name(scanned: &Scanned<'_>, i: usize) -> bool {
    is_kind(scanned, i, Kind::QuoteOpen) && is_kind(scanned, after_string(scanned, i), Kind::Colon)
}

/// Whether a value ends in a line before token `i`.
fn follows_attribute(scanned: &Scanned<'_>, i: usize) -> bool {
    match last_before(scanned, i, true) {
        Some(last) => ends_value(scanned, last),
        None => false,
    }
}
