//! Words in a value, as `and` and `if`, that other languages have there.

use crate::advice::Advice;
use crate::context::{Context, has_keywords};
use crate::expected::Expected;
use crate::joined::is_joined;
use crate::near::{after_words, is_adjacent, is_kind, is_word, last_before};
use crate::openings::innermost_open;
use hcl_scan::{Kind, Scanned};

/// Whether this token and words after it are in a string, whose quotes end it before them and begin
/// another one after them.
fn is_between_quotes(scanned: &Scanned<'_>, last: usize, found: usize) -> bool {
    let end = after_words(scanned, found);
    is_kind(scanned, last, Kind::QuoteClose)
        && is_adjacent(scanned, found)
        && is_kind(scanned, end, Kind::QuoteOpen)
        && is_adjacent(scanned, end)
}

/// Whether token `i` is the word `not`.
pub fn is_not(scanned: &Scanned<'_>, i: usize) -> bool {
    is_word(scanned, i, b"not") || is_word(scanned, i, b"NOT")
}

/// Returns the number of the `if` that is token `last`, or after which a condition in parentheses
/// ends with that token.
fn if_before(scanned: &Scanned<'_>, last: usize) -> Option<usize> {
    if is_word(scanned, last, b"if") {
        return Some(last);
    }
    if last >= scanned.len() || !is_kind(scanned, last, Kind::CloseParen) {
        return None;
    }
    match innermost_open(scanned, last) {
        Some(open) if is_word(scanned, open.saturating_sub(1), b"if") => {
            Some(open.saturating_sub(1))
        }
        _ => None,
    }
}

/// Whether the `if` of a `for` is before the value of that, and ends with token `last`.
pub fn is_if_before_value(scanned: &Scanned<'_>, context: Context, last: usize) -> bool {
    if !matches!(context, Context::TupleFor | Context::ObjectFor) {
        return false;
    }
    match if_before(scanned, last) {
        Some(word) => match last_before(scanned, word, true) {
            Some(k) => is_kind(scanned, k, Kind::Colon) || is_kind(scanned, k, Kind::FatArrow),
            None => false,
        },
        None => false,
    }
}

/// Whether a value begins with a token of this kind, which is no word, after an `if` that has no
/// meaning.
pub fn is_value_after_if(scanned: &Scanned<'_>, context: Context, kind: Kind, last: usize) -> bool {
    !has_keywords(context)
        && matches!(
            kind,
            Kind::Number | Kind::QuoteOpen | Kind::HereOpen | Kind::OpenBrace | Kind::Bang
        )
        && if_before(scanned, last).is_some()
}

/// Returns the advice for a word after token `last`, in a `for` or a directive.
pub fn word_in_for(
    scanned: &Scanned<'_>,
    last: usize,
    found: usize,
    expected: Expected,
) -> Option<Advice> {
    if !is_after_part(expected) {
        return None;
    }
    match operator_word(scanned, last, found) {
        Some(advice) => Some(advice),
        None => match comparing_word(scanned, found) {
            Some(advice) => Some(advice),
            None => after_condition(scanned, found, expected),
        },
    }
}

/// Whether a value in a `for` or a directive ends where this was expected.
fn is_after_part(expected: Expected) -> bool {
    matches!(
        expected,
        Expected::Else
            | Expected::ForColon
            | Expected::ForArrow
            | Expected::ForBracket
            | Expected::ForEllipsis
            | Expected::Bracket
            | Expected::Brace
            | Expected::SequenceEnd
    )
}

/// Returns the advice for a word after the condition of a `for`, or in a directive.
fn after_condition(scanned: &Scanned<'_>, found: usize, expected: Expected) -> Option<Advice> {
    match expected {
        Expected::Bracket | Expected::Brace if is_word(scanned, found, b"else") => {
            Some(Advice::Conditional)
        }
        Expected::Bracket | Expected::Brace | Expected::SequenceEnd
            if is_word(scanned, found, b"then") => { Some(Advice::NoThen) }
        _ => None,
    }
}

/// Whether this word is one of a conditional in another language, or follows its `if`.
fn is_of_conditional(scanned: &Scanned<'_>, last: usize, found: usize) -> bool {
    is_word(scanned, found, b"if")
        || is_word(scanned, found, b"then")
        || is_word(scanned, found, b"else")
        || if_before(scanned, last).is_some()
}

/// Returns the advice for a word after token `last`, where `if` has no meaning.
pub fn after_word(
    scanned: &Scanned<'_>,
    last: usize,
    found: usize,
    expected: Expected,
) -> Option<Advice> {
    match operator_word(scanned, last, found) {
        Some(advice) => Some(advice),
        None if is_of_conditional(scanned, last, found) => Some(Advice::Conditional),
        None if is_between_quotes(scanned, last, found) => Some(Advice::QuoteInString),
        None if matches!(expected, Expected::KeySign) => None,
        None if is_word(scanned, last, b"for") && is_of_for(scanned, found) => {
            Some(Advice::ForBrackets)
        }
        None if is_word(scanned, found, b"for") && is_of_for(scanned, found.saturating_add(1)) => {
            Some(Advice::ForFirst)
        }
        None if is_joined(scanned, found, last, expected) => Some(Advice::Joined),
        None => comparing_word(scanned, found),
    }
}

/// Whether a name begins with token `i`, or two with a comma, and `in` follows.
fn is_of_for(scanned: &Scanned<'_>, i: usize) -> bool {
    let next = i.saturating_add(1);
    is_kind(scanned, i, Kind::Identifier)
        && (is_word(scanned, next, b"in")
            || (is_kind(scanned, next, Kind::Comma)
                && is_word(scanned, next.saturating_add(2), b"in")))
}

/// Returns the advice for a word that compares in another language.
fn comparing_word(scanned: &Scanned<'_>, found: usize) -> Option<Advice> {
    let next = found.saturating_add(1);
    if is_word(scanned, found, b"xor") {
        Some(Advice::Xor)
    } else if !is_word(scanned, found, b"is") {
        None
    } else if is_word(scanned, next, b"not") {
        Some(Advice::NotEqual)
    } else if is_prose(scanned, next) {
        None
    } else {
        Some(Advice::Equal)
    }
}

/// Whether a word is after the word that is token `i`, and can't continue a value.
fn is_prose(scanned: &Scanned<'_>, i: usize) -> bool {
    let next = i.saturating_add(1);
    is_kind(scanned, i, Kind::Identifier)
        && is_kind(scanned, next, Kind::Identifier)
        && !is_word(scanned, next, b"if")
        && !is_word(scanned, next, b"and")
        && !is_word(scanned, next, b"or")
}

/// Returns the advice for a word after token `last` that is an operator in another language, or
/// follows one, or continues a number.
fn operator_word(scanned: &Scanned<'_>, last: usize, found: usize) -> Option<Advice> {
    if is_kind(scanned, last, Kind::Number) && is_adjacent(scanned, found) {
        Some(Advice::Digits)
    } else if is_word(scanned, found, b"and") || is_word(scanned, found, b"AND") {
        Some(Advice::And)
    } else if is_word(scanned, found, b"or") || is_word(scanned, found, b"OR") {
        Some(Advice::Or)
    } else if is_not(scanned, last) {
        Some(Advice::Not)
    } else {
        None
    }
}
