//! What is in a value, and where one should begin.

use crate::advice::Advice;
use crate::advice::value_ends::{after_value, string_after};
use crate::advice::words::{
    after_word, is_if_before_value, is_not, is_value_after_if, word_in_for,
};
use crate::context::{Context, has_keywords};
use crate::expected::Expected;
use crate::near::{is_adjacent, is_after, is_kind, is_line_end, is_next, kind_at, last_before};
use hcl_scan::{Kind, Scanned};

/// Returns the advice for a token in a value.
pub fn in_value(
    scanned: &Scanned<'_>,
    kind: Kind,
    found: usize,
    context: Context,
    expected: Expected,
) -> Option<Advice> {
    match last_before(scanned, found, false) {
        Some(last) => match kind {
            Kind::Less if is_next(scanned, kind, found) => heredoc(scanned, found),
            Kind::Identifier if !has_keywords(context) => {
                after_word(scanned, last, found, expected)
            }
            _ if is_if_before_value(scanned, context, last) => Some(Advice::ForIf),
            Kind::Identifier => word_in_for(scanned, last, found, expected),
            _ if is_not(scanned, last) => Some(Advice::Not),
            _ if is_value(expected) => at_value(scanned, kind, found, last),
            _ if is_value_after_if(scanned, context, kind, last) => Some(Advice::Conditional),
            Kind::QuoteOpen if !has_keywords(context) => string_after(
                scanned, found, last, expected,
            ),
            _ => after_value(scanned, kind, found, last, expected),
        },
        None => None,
    }
}

/// Whether a value was expected.
fn is_value(expected: Expected) -> bool {
    matches!(
        expected,
        Expected::Value | Expected::ItemOrBracket | Expected::ArgumentOrParen
    )
}

/// Returns the advice for a token where a value should begin.
fn at_value(scanned: &Scanned<'_>, kind: Kind, found: usize, last: usize) -> Option<Advice> {
    match kind {
        Kind::DotIndex => Some(Advice::NumberDot),
        Kind::Dot if is_path(scanned, found) => Some(Advice::BareText),
        Kind::Slash if is_next(scanned, Kind::Identifier, found) => Some(Advice::BareText),
        Kind::Greater if is_after(scanned, Kind::Less, last, found) => Some(Advice::NotEqual),
        Kind::Equal if is_after(scanned, Kind::DoubleEqual, last, found) => Some(Advice::Equal),
        Kind::Equal if is_after(scanned, Kind::NotEqual, last, found) => Some(Advice::NotEqual),
        Kind::Star if is_after(scanned, Kind::Star, last, found) => Some(Advice::Power),
        Kind::Plus if is_doubled(scanned, kind, found, last) => Some(Advice::Increment),
        Kind::Question | Kind::Colon if is_after(scanned, Kind::Question, last, found) => {
            Some(Advice::Coalesce)
        }
        Kind::Less if is_before_marker(scanned, found) => Some(Advice::HeredocSign),
        _ if is_constraint(scanned, kind, found, last) => Some(Advice::BareText),
        _ => None,
    }
}

/// Whether a value begins with an operator that compares, and a number or a string after it: the
/// constraint of a version, as `>= 1.0`.
fn is_constraint(scanned: &Scanned<'_>, kind: Kind, found: usize, last: usize) -> bool {
    let next = found.saturating_add(1);
    matches!(
        kind,
        Kind::GreaterEqual | Kind::LessEqual | Kind::Greater | Kind::Less | Kind::NotEqual
    ) && is_kind(scanned, last, Kind::Equal)
        && (is_kind(scanned, next, Kind::Number) || is_kind(scanned, next, Kind::QuoteOpen))
}

/// Whether an operator of this kind is right before token `found`, or right after it.
fn is_doubled(scanned: &Scanned<'_>, kind: Kind, found: usize, last: usize) -> bool {
    is_after(scanned, kind, last, found) || is_next(scanned, kind, found)
}

/// Whether the line ends after a name that is right after this `<`, or after a `-` there.
fn is_before_marker(scanned: &Scanned<'_>, found: usize) -> bool {
    let next = found.saturating_add(1);
    let sign = if is_next(scanned, Kind::Minus, found) {
        next
    } else {
        found
    };
    is_next(scanned, Kind::Identifier, sign) && is_line_end(scanned, sign.saturating_add(2))
}

/// Whether a path begins with this `.`: `./` or `..`.
fn is_path(scanned: &Scanned<'_>, found: usize) -> bool {
    is_next(scanned, Kind::Slash, found) || is_next(scanned, Kind::Dot, found)
}

/// Returns the advice for the operator `<` with another one after it.
fn heredoc(scanned: &Scanned<'_>, found: usize) -> Option<Advice> {
    let second = found.saturating_add(1);
    let is_indented = is_next(scanned, Kind::Minus, second);
    let marker = second.saturating_add(if is_indented { 2 } else { 1 });
    match kind_at(scanned, marker) {
        Some(Kind::QuoteOpen) if is_adjacent(scanned, marker) => Some(Advice::HeredocQuotes),
        Some(Kind::Identifier) if is_adjacent(scanned, marker) => Some(Advice::HeredocLine),
        Some(Kind::Identifier) => Some(Advice::HeredocSpace),
        _ => None,
    }
}
