//! What is after a value and is no word.

use crate::advice::Advice;
use crate::expected::Expected;
use crate::head::HeadAdvice;
use crate::joined::{is_between_words, is_joined};
use crate::near::{
    first_from, is_adjacent, is_after, is_kind, is_line_end, is_next, is_word, last_before,
};
use crate::openings::innermost_open;
use hcl_scan::{Kind, Scanned};

/// Returns the advice for a token after a value.
pub fn after_value(
    scanned: &Scanned<'_>,
    kind: Kind,
    found: usize,
    last: usize,
    expected: Expected,
) -> Option<Advice> {
    match kind {
        Kind::Colon if is_text(expected) && is_in_text(scanned, last, found) => {
            Some(Advice::BareText)
        }
        Kind::Comma if is_in_number(scanned, last, found, expected) => Some(Advice::Digits),
        Kind::Comma if is_after_attribute(scanned, found, expected) => {
            Some(Advice::AttributeComma)
        }
        Kind::QuoteOpen => of_quotes(scanned, found, last, expected),
        Kind::OpenParen if is_after_dot(scanned, last) => Some(Advice::Method),
        Kind::OpenBrace if is_after_dollar(scanned, last, found) => Some(Advice::SequenceOutside),
        Kind::Comma if is_in_called(scanned, found, expected) => Some(Advice::CallBracket),
        Kind::OpenBrace if is_after_text(scanned, last, expected) => {
            Some(Advice::Head(HeadAdvice::BlockEqual))
        }
        Kind::Equal if is_key_with_colon(scanned, last, expected) => Some(Advice::KeyColon),
        Kind::Equal if is_double_equal(scanned, found, expected) => Some(Advice::Equal),
        Kind::Equal if is_next(scanned, Kind::Bang, found) => Some(Advice::NotEqual),
        Kind::Equal if is_next(scanned, Kind::Less, found) => Some(Advice::AtMost),
        Kind::Equal if is_named_argument(scanned, last, expected) => Some(Advice::NamedArgument),
        Kind::Equal if is_condition(scanned, found, expected) => Some(Advice::Equal),
        Kind::FatArrow if is_condition(scanned, found, expected) => Some(Advice::AtLeast),
        _ => None,
    }
}

/// Returns the advice for a string after a value.
pub fn string_after(
    scanned: &Scanned<'_>,
    found: usize,
    last: usize,
    expected: Expected,
) -> Option<Advice> {
    match of_quotes(scanned, found, last, expected) {
        Some(advice) => Some(advice),
        None if is_joined(scanned, found, last, expected) => Some(Advice::Joined),
        None => None,
    }
}

/// Returns the advice for a string whose quotes are right after a value.
fn of_quotes(
    scanned: &Scanned<'_>,
    found: usize,
    last: usize,
    expected: Expected,
) -> Option<Advice> {
    if is_after_string(scanned, last, found, expected) {
        Some(Advice::QuoteInString)
    } else if is_between_words(scanned, found, last) {
        Some(Advice::BetweenWords)
    } else {
        None
    }
}

/// Whether token `found` is right after a string whose text ends in `$`.
fn is_after_dollar(scanned: &Scanned<'_>, last: usize, found: usize) -> bool {
    let text = last.saturating_sub(1);
    is_after(scanned, Kind::QuoteClose, last, found)
        && is_kind(scanned, text, Kind::QuoteLit)
        && text < scanned.len()
        && scanned.spelling(text).ends_with(b"$")
}

/// Whether this `=` is after the name of an argument.
fn is_named_argument(scanned: &Scanned<'_>, last: usize, expected: Expected) -> bool {
    if !matches!(expected, Expected::CommaOrParen) || !is_kind(scanned, last, Kind::Identifier) {
        return false;
    }
    match last_before(scanned, last, true) {
        Some(k) => is_kind(scanned, k, Kind::OpenParen) || is_kind(scanned, k, Kind::Comma),
        None => false,
    }
}

/// Whether the name of a function is before the `[` in which this comma is.
fn is_in_called(scanned: &Scanned<'_>, found: usize, expected: Expected) -> bool {
    if !matches!(expected, Expected::Bracket) || found >= scanned.len() {
        return false;
    }
    match innermost_open(scanned, found) {
        Some(open) => {
            is_function(scanned, open.saturating_sub(1))
                && !is_kind(scanned, open.saturating_sub(2), Kind::Dot)
        }
        None => false,
    }
}

/// Whether token `i` is the name of a function that is often called with a list, or with several
/// values.
fn is_function(scanned: &Scanned<'_>, i: usize) -> bool {
    is_word(scanned, i, b"toset")
        || is_word(scanned, i, b"tolist")
        || is_word(scanned, i, b"concat")
        || is_word(scanned, i, b"merge")
        || is_word(scanned, i, b"max")
        || is_word(scanned, i, b"min")
        || is_word(scanned, i, b"join")
        || is_word(scanned, i, b"format")
        || is_word(scanned, i, b"lookup")
}

/// Whether this comma is in a number: with digits right before and after it.
fn is_in_number(scanned: &Scanned<'_>, last: usize, found: usize, expected: Expected) -> bool {
    matches!(expected, Expected::ValueEnd)
        && is_after(scanned, Kind::Number, last, found)
        && is_next(scanned, Kind::Number, found)
}

/// Whether a string, the value of an attribute, ends right before token `found`.
fn is_after_string(scanned: &Scanned<'_>, last: usize, found: usize, expected: Expected) -> bool {
    matches!(expected, Expected::ValueEnd) && is_after(scanned, Kind::QuoteClose, last, found)
}

/// Whether token `last` is a name after a `.`.
fn is_after_dot(scanned: &Scanned<'_>, last: usize) -> bool {
    last > 0 && is_kind(scanned, last, Kind::Identifier) && is_kind(scanned, last - 1, Kind::Dot)
}

/// Whether the value of an attribute is a string, which ends with token `last`.
fn is_after_text(scanned: &Scanned<'_>, last: usize, expected: Expected) -> bool {
    matches!(expected, Expected::ValueEnd)
        && last > 1
        && is_kind(scanned, last, Kind::QuoteClose)
        && is_kind(scanned, last - 1, Kind::QuoteLit)
        && follows_sign(scanned, last - 2)
}

/// Whether an `=` is right before token `i`, but for a gap.
fn follows_sign(scanned: &Scanned<'_>, i: usize) -> bool {
    i > 0 && is_kind(scanned, i, Kind::QuoteOpen) && is_kind(scanned, i - 1, Kind::Equal)
}

/// Whether the element of an object before a token is two names with a `:` between, and no gap.
fn is_key_with_colon(scanned: &Scanned<'_>, last: usize, expected: Expected) -> bool {
    matches!(expected, Expected::ElementEnd)
        && last > 1
        && is_kind(scanned, last, Kind::Identifier)
        && is_adjacent(scanned, last)
        && is_kind(scanned, last - 1, Kind::Colon)
        && is_adjacent(scanned, last - 1)
        && is_kind(scanned, last - 2, Kind::Identifier)
}

/// Whether this `=` is the first of two after the value of an attribute.
fn is_double_equal(scanned: &Scanned<'_>, found: usize, expected: Expected) -> bool {
    matches!(expected, Expected::ValueEnd) && is_kind(scanned, found.saturating_add(1), Kind::Equal)
}

/// Whether this comma is after an attribute's value: with the end of the line, or another
/// attribute, after it.
fn is_after_attribute(scanned: &Scanned<'_>, found: usize, expected: Expected) -> bool {
    let next = first_from(scanned, found.saturating_add(1), false);
    matches!(expected, Expected::ValueEnd)
        && (is_line_end(scanned, next)
            || (is_kind(scanned, next, Kind::Identifier)
                && is_kind(scanned, next.saturating_add(1), Kind::Equal)))
}

/// Whether a value that ends here may be text without quotes: no `:` can follow it.
fn is_text(expected: Expected) -> bool {
    matches!(
        expected,
        Expected::ValueEnd
            | Expected::ElementEnd
            | Expected::CommaOrBracket
            | Expected::FunctionCall
    )
}

/// Whether this `:` is in text without quotes, as an address: with a name before it, and no gap.
fn is_in_text(scanned: &Scanned<'_>, last: usize, found: usize) -> bool {
    is_after(scanned, Kind::Identifier, last, found)
        && is_adjacent(scanned, found.saturating_add(1))
}

/// Whether the value before token `found` is a condition: one in brackets, of an `if` or a template
/// sequence, or with a `?` after it in the line.
fn is_condition(scanned: &Scanned<'_>, found: usize, expected: Expected) -> bool {
    match expected {
        Expected::Paren | Expected::Bracket | Expected::Brace | Expected::SequenceEnd => true,
        _ => has_question(scanned, found),
    }
}

/// Whether a `?` follows token `i` in its line.
fn has_question(scanned: &Scanned<'_>, i: usize) -> bool {
    for k in i..scanned.len() {
        match scanned.kind(k) {
            Kind::Question => return true,
            Kind::LineEnd | Kind::LineComment => return false,
            _ => {}
        }
    }
    false
}
