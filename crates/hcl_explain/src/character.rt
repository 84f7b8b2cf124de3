//! The sentence of a character with which no token begins.

use crate::advice::Advice;
use crate::advice::types::is_type_name;
use crate::context::{Context, context_of, drops_lines};
use crate::expected::{Expected, expected_after};
use crate::found::ends_at_token;
use crate::head::{HeadAdvice, is_after_name};
use crate::lines::{bytes_from, is_at_line_end_or_eof, line_start, prefix, whitespace_len};
use crate::near::{ends_value, is_adjacent, is_kind, is_line_start, last_before};
use crate::openings::innermost_open;
use crate::sequence::sequence_text;
use hcl_scan::{Kind, ScanFault, Scanned, scan};
use std::alloc::{AllocError, Global};
use std::fmt::Write;
use std::str::from_utf8;

/// What is said of three backquotes with which a line begins.
const FENCE: &str = "this line is a fence of Markdown: delete it";

/// What is written in place of the `$(` of a shell.
const SHELL_COMMAND: &str = ": a command of a shell is text, in double quotes, `\"`";

/// What is said of a `${` in a template sequence.
const NESTED: &str = "unexpected `${`: in `${ }` and `%{ }` write the value alone";

/// What is said of a `${` outside of a template.
const TEMPLATE_OUTSIDE: &str =
    "unexpected `${`: a template is in quotes; outside of them write the value alone";

/// Adds what is said of the character at byte `at`, with which no token begins, in the template
/// sequence that begins at byte `opened`, or in none.
pub fn push_character(
    out: &mut String,
    alloc: Global,
    text: &[u8],
    at: usize,
    opened: Option<usize>,
) -> Result<(), AllocError> {
    if is_fence(text, at) {
        return out.push_str(FENCE);
    }
    let before = match opened {
        Some(opened) => sequence_text(bytes_from(prefix(text, at), opened)),
        None => prefix(text, at),
    };
    let found = Found {
        rest: bytes_from(text, at),
        is_in_sequence: opened.is_some(),
        is_in_interpolation: match opened {
            Some(opened) => bytes_from(text, opened).starts_with(b"${"),
            None => false,
        },
    };
    match scan(alloc, before) {
        Ok(scanned) => push_found(out, found, advice_after(&scanned, found)),
        Err(ScanFault::Memory) => Err(AllocError),
        Err(_) => push_found(out, found, None),
    }
}

/// The text from a character on with which no token begins, and where that is.
#[derive(Clone, Copy)]
struct Found<'t> {
    rest: &'t [u8],
    is_in_sequence: bool,
    /// In a `${`, and not in a `%{`.
    is_in_interpolation: bool,
}

/// Adds that a character is unexpected, and this advice, or its own.
fn push_found(
    out: &mut String,
    found: Found<'_>,
    advice: Option<Advice>,
) -> Result<(), AllocError> {
    match first_character(found.rest) {
        Some(c) => match advice {
            Some(advice) => push_with(out, c, found.rest, advice),
            None if !found.rest.starts_with(b"${") => push_unexpected(out, c, found.rest),
            None if found.is_in_sequence => out.push_str(NESTED),
            None => out.push_str(TEMPLATE_OUTSIDE),
        },
        None => out.push_str("unexpected character"),
    }
}

/// Adds that a character is unexpected, and this advice.
fn push_with(out: &mut String, c: char, rest: &[u8], advice: Advice) -> Result<(), AllocError> {
    out.push_str("unexpected ")?;
    if rest.starts_with(b"${") {
        out.push_str("`${`")?;
    } else {
        push_shown(out, c)?;
    }
    out.push_str(": ")?;
    out.push_str(advice.sentence())
}

fn first_character(rest: &[u8]) -> Option<char> {
    match from_utf8(rest) {
        Ok(rest) => rest.chars().next(),
        Err(_) => None,
    }
}

/// Whether a fence of Markdown is at this byte: three backquotes with which a line begins.
fn is_fence(text: &[u8], at: usize) -> bool {
    let line = bytes_from(text, line_start(text, at));
    bytes_from(text, at).starts_with(b"```")
        && bytes_from(line, whitespace_len(line)).starts_with(b"```")
}

/// Returns the advice that these tokens show, of the template sequence or of the text in which this
/// character is the next.
fn advice_after(scanned: &Scanned<'_>, found: Found<'_>) -> Option<Advice> {
    if found.is_in_interpolation && is_other_language(scanned, found.rest) {
        return Some(Advice::OtherLanguage);
    }
    match found.rest {
        [b'$', b'{', ..] if is_key_next(scanned) => Some(Advice::ComputedKey),
        [b'\\', b'"', ..] => Some(Advice::EscapedQuote),
        [b'\'', ..] | [0xe2, 0x80, 0x98..=0x9f, ..] if is_heredoc_next(scanned) => {
            Some(Advice::HeredocQuotes)
        }
        [b'~', ..] if is_heredoc_next(scanned) => Some(Advice::HeredocTilde),
        _ if is_after_marker(scanned) => Some(Advice::HeredocLine),
        [b'\\', rest @ ..] if is_line_end_next(rest) => Some(at_backslash(scanned, found)),
        [b'$', next, ..] if is_name_start(*next) && is_line_of_body(scanned, found) => {
            Some(Advice::Head(HeadAdvice::NameDollar))
        }
        [b';', ..] if is_line_of_body(scanned, found) => Some(Advice::CommentSign),
        [b';', ..] if found.is_in_interpolation => Some(Advice::OpenHere),
        [b';', ..] if found.is_in_sequence => Some(Advice::DirectiveHere),
        [b'|', b'>', ..] => Some(Advice::Pipe),
        [b'|', next, ..] if *next != b'|' && is_after_type(scanned) => Some(Advice::OneType),
        [b'|' | b'&', b'=', ..] if is_after_name(scanned, scanned.len()) => {
            Some(Advice::Head(HeadAdvice::SetOnce))
        }
        [b'|', ..] if found.is_in_interpolation => Some(Advice::Pipe),
        [b'\'', ..] | [0xe2, 0x80, 0x98..=0x9f, ..] if is_line_of_body(scanned, found) => {
            Some(Advice::Head(HeadAdvice::NameQuoted))
        }
        _ => in_value(scanned, found),
    }
}

/// Returns the advice for a character where a value begins, or after one.
fn in_value(scanned: &Scanned<'_>, found: Found<'_>) -> Option<Advice> {
    match found.rest {
        [b'~', ..] if is_match(scanned, found) => Some(Advice::Match),
        [b'$', next, ..] if next.is_ascii_digit() && !is_line_of_body(scanned, found) => {
            Some(Advice::DollarNumber)
        }
        [b'&', next, ..]
            if is_name_start(*next)
                && entity_form(found.rest).is_none()
                && !is_line_of_body(scanned, found)
                && !is_value_before(scanned, scanned.len()) => { Some(Advice::Reference) }
        _ => None,
    }
}

/// Whether the `~` with which a text begins is in `=~`, `!~` or `~=`, after the value of an
/// attribute.
fn is_match(scanned: &Scanned<'_>, found: Found<'_>) -> bool {
    let count = scanned.len();
    let sign = count.saturating_sub(1);
    if found.rest.starts_with(b"~=") {
        is_operand_before(scanned, found, count)
    } else {
        ends_at_token(scanned, sign)
            && (is_kind(scanned, sign, Kind::Equal) || is_kind(scanned, sign, Kind::Bang))
            && is_operand_before(scanned, found, sign)
    }
}

/// Whether a value ends before token `i`, and is not the name with which a line of a body begins.
fn is_operand_before(scanned: &Scanned<'_>, found: Found<'_>, i: usize) -> bool {
    is_value_before(scanned, i) && (found.is_in_sequence || !is_after_name(scanned, i))
}

/// Whether a value ends before token `i`.
fn is_value_before(scanned: &Scanned<'_>, i: usize) -> bool {
    match last_before(scanned, i, true) {
        Some(last) => ends_value(scanned, last),
        None => false,
    }
}

/// Whether nothing but spaces and tabs is before the end of the line.
fn is_line_end_next(rest: &[u8]) -> bool {
    is_at_line_end_or_eof(bytes_from(rest, whitespace_len(rest)))
}

/// Returns the advice for a `\` with which the line ends, after these tokens.
fn at_backslash(scanned: &Scanned<'_>, found: Found<'_>) -> Advice {
    let drops_newline = match innermost_open(scanned, scanned.len()) {
        Some(open) => drops_lines(context_of(scanned, Some(open))),
        None => found.is_in_sequence,
    };
    if drops_newline {
        Advice::DroppedNewline
    } else {
        Advice::NoContinuation
    }
}

/// Whether a line of a body begins with what was found after the tokens.
fn is_line_of_body(scanned: &Scanned<'_>, found: Found<'_>) -> bool {
    let count = scanned.len();
    !found.is_in_sequence
        && is_line_start(scanned, count)
        && matches!(
            context_of(scanned, innermost_open(scanned, count)),
            Context::File | Context::Block
        )
}

/// Whether the name of a simple type is the last token.
fn is_after_type(scanned: &Scanned<'_>) -> bool {
    is_type_name(scanned, scanned.len().saturating_sub(1))
}

/// Whether the tokens end with `<<` or `<<-` and a marker.
fn is_after_marker(scanned: &Scanned<'_>) -> bool {
    let last = scanned.len().saturating_sub(1);
    is_kind(scanned, last, Kind::Identifier)
        && is_adjacent(scanned, last)
        && is_heredoc_at(scanned, last.saturating_sub(1))
}

/// Whether a key of an object begins after the tokens.
fn is_key_next(scanned: &Scanned<'_>) -> bool {
    let count = scanned.len();
    match innermost_open(scanned, count) {
        Some(open) => match context_of(scanned, Some(open)) {
            Context::Object => matches!(
                expected_after(scanned, Context::Object, open.saturating_add(1), count),
                Expected::KeyOrBrace
            ),
            _ => false,
        },
        None => false,
    }
}

/// Whether the last tokens are `<<` or `<<-`.
fn is_heredoc_next(scanned: &Scanned<'_>) -> bool {
    is_heredoc_at(scanned, scanned.len().saturating_sub(1))
}

/// Whether `<<` or `<<-` ends with token `last`.
fn is_heredoc_at(scanned: &Scanned<'_>, last: usize) -> bool {
    if is_kind(scanned, last, Kind::Minus) {
        is_adjacent(scanned, last) && is_double(scanned, last.saturating_sub(1))
    } else {
        is_double(scanned, last)
    }
}

/// Whether token `i` is the second `<` of `<<`.
fn is_double(scanned: &Scanned<'_>, i: usize) -> bool {
    i > 0
        && is_kind(scanned, i, Kind::Less)
        && is_adjacent(scanned, i)
        && is_kind(scanned, i - 1, Kind::Less)
}

/// Whether these tokens of a template sequence, with what follows them, are of a shell: a name with
/// a `:` after it, or an `@`, `^` or `$` where a shell has it.
fn is_other_language(scanned: &Scanned<'_>, rest: &[u8]) -> bool {
    let last = scanned.len().saturating_sub(1);
    if is_kind(scanned, 0, Kind::Identifier) && is_kind(scanned, 1, Kind::Colon) {
        return true;
    }
    match rest {
        [b'@', ..] if scanned.is_empty() || is_kind(scanned, last, Kind::OpenBracket) => true,
        [b'@' | b'^', ..] => last == 0 && is_kind(scanned, 0, Kind::Identifier),
        [b'$', next, ..] => scanned.is_empty() && !is_name_start(*next) && *next != b'{',
        _ => false,
    }
}

fn is_name_start(byte: u8) -> bool {
    byte.is_ascii_alphabetic() || byte == b'_'
}

/// Adds that the character with which a text begins is unexpected, and what is written in its
/// place.
fn push_unexpected(out: &mut String, c: char, rest: &[u8]) -> Result<(), AllocError> {
    out.push_str("unexpected ")?;
    push_shown(out, c)?;
    match entity_form(rest) {
        Some(ascii) => write!(out, " of an HTML entity: write a plain `{ascii}`"),
        None => push_in_place(out, c, rest),
    }
}

/// Adds what is written in place of a character, with which a text begins.
fn push_in_place(out: &mut String, c: char, rest: &[u8]) -> Result<(), AllocError> {
    match ascii_form(c) {
        Some(ascii) => write!(out, ": write a plain `{ascii}`"),
        None if rest.starts_with(b"$(") => out.push_str(SHELL_COMMAND),
        None => out.push_str(character_advice(c)),
    }
}

/// Returns the character of the HTML entity with which a text begins.
fn entity_form(rest: &[u8]) -> Option<char> {
    if rest.starts_with(b"&quot;") || rest.starts_with(b"&#34;") {
        Some('"')
    } else if rest.starts_with(b"&amp;") || rest.starts_with(b"&#38;") {
        Some('&')
    } else if rest.starts_with(b"&lt;") || rest.starts_with(b"&#60;") {
        Some('<')
    } else if rest.starts_with(b"&gt;") || rest.starts_with(b"&#62;") {
        Some('>')
    } else {
        None
    }
}

/// Returns the character of ASCII that has a fullwidth form.
fn ascii_form(c: char) -> Option<char> {
    match c {
        '\u{ff01}'..='\u{ff5e}' => char::from_u32((c as u32).saturating_sub(0xfee0)),
        _ => None,
    }
}

/// Adds a character in backquotes; its number, if it can't be seen.
fn push_shown(out: &mut String, c: char) -> Result<(), AllocError> {
    if is_invisible(c) {
        let code = c as u32;
        write!(out, "character U+{code:04X}")
    } else {
        write!(out, "`{c}`")
    }
}

/// Whether a character is a control character or looks like a space or like nothing.
fn is_invisible(c: char) -> bool {
    matches!(
        c,
        '\0'..=' '
            | '\u{7f}'..='\u{a0}'
            | '\u{ad}'
            | '\u{1680}'
            | '\u{2000}'..='\u{200f}'
            | '\u{2028}'..='\u{202f}'
            | '\u{205f}'..='\u{206f}'
            | '\u{3000}'
            | '\u{feff}'
    )
}

/// Returns what is to be written in place of a character.
fn character_advice(c: char) -> &'static str {
    match c {
        '\u{2018}'..='\u{201f}' | '\u{ab}' | '\u{bb}' | '\'' | '`' => {
            ": a string is in plain double quotes, `\"`"
        }
        ';' => ": a newline ends an attribute, a `,` an element",
        '~' => ": text is in double quotes, `\"`",
        '$' => ": a variable is written `var.NAME`",
        '&' => ": `and` is written `&&`",
        '|' => ": `or` is written `||`",
        '\u{feff}' => ", a byte order mark: it can only begin a file",
        '\r' | '\u{b}' | '\u{c}' | '\u{85}' | '\u{2028}' | '\u{2029}' => {
            ": a line ends with LF, or CR LF"
        }
        '\0'
        | '\u{ad}'
        | '\u{200b}'..='\u{200f}'
        | '\u{202a}'..='\u{202e}'
        | '\u{2060}'..='\u{206f}' => ": delete it",
        '\u{a0}' | '\u{1680}' | '\u{2000}'..='\u{200a}' | '\u{202f}' | '\u{205f}' | '\u{3000}' => {
            ", which is no space: write a plain one"
        }
        _ => symbol_advice(c),
    }
}

/// Returns what is written in place of a symbol that looks like an operator.
fn symbol_advice(c: char) -> &'static str {
    match c {
        '\u{2010}'..='\u{2015}' | '\u{2212}' => ": a minus is written `-`",
        '\u{2026}' => ": write three dots, `...`",
        '\u{d7}' | '\u{22c5}' => ": times is written `*`",
        '\u{f7}' => ": a division is written `/`",
        '\u{2260}' => ": not equal is written `!=`",
        '\u{2264}' => ": less or equal is written `<=`",
        '\u{2265}' => ": greater or equal is written `>=`",
        '\u{2192}' | '\u{21d2}' => ": an arrow is written `=>`",
        _ => "",
    }
}
