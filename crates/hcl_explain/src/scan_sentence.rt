//! The sentence of an error of a text that has no tokens, in one line.

use crate::advice::Advice;
use crate::character::push_character;
use crate::escape::push_escape;
use crate::found::ends_at_token;
use crate::heredoc::opening_advice;
use crate::lines::{bytes_from, closing_place, first_line, line_end, marker_of, prefix};
use crate::near::{ends_value, is_adjacent, is_kind};
use crate::scan_error::{ScanExplanation, ScanReason};
use crate::sequence::{is_closed_in_comment, sequence_text};
use hcl_scan::{Kind, ScanFault, Scanned, scan};
use std::alloc::{AllocError, Global};
use std::fmt::Write;
use std::str::from_utf8;

/// A marker, or the text of a string, of more bytes is not quoted.
const MAX_QUOTED: usize = 40;

/// What is said of a string that is not closed.
const OPEN_STRING: &str = "this string is not closed on its line";

/// What is said of a string in whose template a comment begins, and does not end in its line.
const COMMENT_IN_STRING: &str = "; in `${ }` and `%{ }` a `/*` begins a comment";

impl ScanExplanation {
    /// Returns the sentence. It has no line end.
    ///
    /// # Errors
    ///
    /// `AllocError` if memory runs out.
    pub fn sentence(&self, alloc: Global, text: &[u8]) -> Result<String, AllocError> {
        let mut out = String::new(alloc);
        let rest = bytes_from(text, self.at);
        match self.reason {
            ScanReason::NotUtf8 => out.push_str(encoding_sentence(rest))?,
            ScanReason::Character => push_character(&mut out, alloc, text, self.at, None)?,
            ScanReason::InSequence(opened) => {
                push_character(&mut out, alloc, text, self.at, Some(opened))?
            }
            ScanReason::Marker => out.push_str(Advice::ConflictMarker.sentence())?,
            ScanReason::Escape => push_escape(&mut out, rest)?,
            ScanReason::String => push_string(&mut out, alloc, text, self.at)?,
            ScanReason::Sequence => {
                out.push_str(sequence_sentence(rest))?;
                push_swallowed(&mut out, alloc, rest, "it")?;
            }
            ScanReason::Foreign => push_foreign(&mut out, alloc, rest)?,
            ScanReason::Opening => out.push_str(opening_advice(rest).sentence())?,
            ScanReason::Heredoc => push_heredoc(&mut out, text, self.at)?,
            ScanReason::Comment => out.push_str("this `/*` is not closed")?,
        }
        Ok(out)
    }
}

fn encoding_sentence(rest: &[u8]) -> &'static str {
    if rest.starts_with(b"\xff\xfe") || rest.starts_with(b"\xfe\xff") {
        "not UTF-8 but UTF-16: save the file as UTF-8"
    } else {
        "not UTF-8: save the file as UTF-8"
    }
}

fn sequence_sentence(rest: &[u8]) -> &'static str {
    if rest.starts_with(b"%") {
        "this `%{` is not closed"
    } else {
        "this `${` is not closed"
    }
}

/// Returns what is said of a template sequence that may not be meant as one.
fn foreign_sentence(rest: &[u8]) -> &'static str {
    if rest.starts_with(b"%") {
        "this `%{` is not closed; one that is not for Terraform is written `%%{`"
    } else {
        "this `${` is not closed; one that is not for Terraform is written `$${`"
    }
}

/// Adds what is said of such a sequence: where its `}` is, if a string has it.
fn push_foreign(out: &mut String, alloc: Global, sequence: &[u8]) -> Result<(), AllocError> {
    let mut why = String::new(alloc);
    if !is_closed_in_comment(alloc, sequence)? {
        push_swallowed(&mut why, alloc, sequence, "it")?;
    }
    if why.as_str().is_empty() {
        return out.push_str(foreign_sentence(sequence));
    }
    out.push_str(sequence_sentence(sequence))?;
    out.push_str(why.as_str())
}

/// Adds that a `}` after the template sequence with which a text begins is in a string of its line,
/// or after a quote there that has no partner, if that is so. `of` is what the sequence is called.
fn push_swallowed(
    out: &mut String,
    alloc: Global,
    sequence: &[u8],
    of: &str,
) -> Result<(), AllocError> {
    let line = sequence_text(first_line(sequence));
    match scan(alloc, line) {
        Ok(scanned) => push_in_string(out, &scanned, of),
        Err(ScanFault::OpenString { at: quote }) if bytes_from(line, quote).contains(&b'}') => {
            write!(
                out,
                "; a `}}` after {of} is after a `\"` that has no partner"
            )
        }
        Err(ScanFault::OpenString { at: quote }) => {
            push_before_quote(out, alloc, prefix(line, quote), of)
        }
        Err(ScanFault::Memory) => Err(AllocError),
        Err(_) => Ok(()),
    }
}

/// Adds it of a line up to a quote that has no partner.
fn push_before_quote(
    out: &mut String,
    alloc: Global,
    line: &[u8],
    of: &str,
) -> Result<(), AllocError> {
    match scan(alloc, line) {
        Ok(scanned) => push_in_string(out, &scanned, of),
        Err(ScanFault::Memory) => Err(AllocError),
        Err(_) => Ok(()),
    }
}

/// Adds that a `}` is in a string of these tokens, if one has it.
fn push_in_string(out: &mut String, scanned: &Scanned<'_>, of: &str) -> Result<(), AllocError> {
    match string_with_brace(scanned) {
        Some(text) => write!(out, "; a `}}` after {of} is in the string `\"{text}\"`"),
        None => Ok(()),
    }
}

/// Returns the text of the last string that has a `}`, is short and has no template.
fn string_with_brace<'t>(scanned: &Scanned<'t>) -> Option<&'t str> {
    for i in (0..scanned.len()).rev() {
        if is_kind(scanned, i.saturating_add(1), Kind::QuoteClose) {
            match short_text(scanned, i) {
                Some(text) if text.as_bytes().contains(&b'}') => return Some(text),
                _ => {}
            }
        }
    }
    None
}

/// Adds that the string at a byte is not closed, and what to write if the tokens before it, or its
/// line, show it.
fn push_string(out: &mut String, alloc: Global, text: &[u8], at: usize) -> Result<(), AllocError> {
    match scan(alloc, prefix(text, at)) {
        Ok(scanned) if is_after_value(&scanned) => push_string_after(out, &scanned),
        Err(ScanFault::Memory) => Err(AllocError),
        _ => {
            out.push_str(OPEN_STRING)?;
            push_of_line(out, alloc, text, at)
        }
    }
}

/// Adds what in the line of a string that is not closed shows why.
fn push_of_line(out: &mut String, alloc: Global, text: &[u8], at: usize) -> Result<(), AllocError> {
    match scan(alloc, prefix(text, line_end(text, at))) {
        Err(ScanFault::OpenComment { at: comment }) if comment > at => out.push_str(
            COMMENT_IN_STRING,
        ),
        Err(ScanFault::OpenTemplate { at: opened }) if opened > at => {
            let sequence = bytes_from(text, opened);
            push_swallowed(out, alloc, sequence, its_opening(sequence))
        }
        Err(ScanFault::Memory) => Err(AllocError),
        _ => push_typographic(out, first_line(bytes_from(text, at))),
    }
}

/// Returns what the template sequence with which a text begins is called, in its string.
fn its_opening(sequence: &[u8]) -> &'static str {
    if sequence.starts_with(b"%") {
        "its `%{`"
    } else {
        "its `${`"
    }
}

/// Adds that the typographic quote in a line, if it has one, does not close a string.
fn push_typographic(out: &mut String, line: &[u8]) -> Result<(), AllocError> {
    match typographic_in(line) {
        Some(quote) => write!(out, "; `{quote}` is no plain `\"`"),
        None => Ok(()),
    }
}

/// Returns the first typographic double quote of a line.
fn typographic_in(line: &[u8]) -> Option<char> {
    match from_utf8(line) {
        Ok(line) => {
            for c in line.chars() {
                if matches!(c, '\u{201c}'..='\u{201f}') {
                    return Some(c);
                }
            }
            None
        }
        Err(_) => None,
    }
}

/// Whether a value ends right before the string that follows these tokens.
fn is_after_value(before: &Scanned<'_>) -> bool {
    let last = before.len().saturating_sub(1);
    ends_at_token(before, last) && ends_value(before, last)
}

/// Adds what is said of a string that is not closed after these tokens, with which a value ends.
fn push_string_after(out: &mut String, before: &Scanned<'_>) -> Result<(), AllocError> {
    let last = before.len().saturating_sub(1);
    if is_empty_string(before, last) {
        out.push_str(OPEN_STRING)?;
        out.push_str(": text of several lines is a heredoc, `<<-EOT`")
    } else {
        out.push_str("this `\"` has no partner on its line")?;
        push_string_before(out, before)
    }
}

/// Adds that a string is before words with which the tokens end, right before the first one.
fn push_string_before(out: &mut String, before: &Scanned<'_>) -> Result<(), AllocError> {
    match string_before_words(before) {
        Some(text) => write!(out, "; `\"{text}\"` before it is a string"),
        None => Ok(()),
    }
}

/// Returns the text of that string, if it is short and has no template.
fn string_before_words<'t>(before: &Scanned<'t>) -> Option<&'t str> {
    match last_no_word(before) {
        Some(end) => {
            if is_kind(before, end, Kind::QuoteClose)
                && is_adjacent(before, end.saturating_add(1))
            {
                short_text(before, end.saturating_sub(1))
            } else {
                None
            }
        }
        None => None,
    }
}

/// Returns the number of the last token that is no word.
fn last_no_word(scanned: &Scanned<'_>) -> Option<usize> {
    for i in (0..scanned.len()).rev() {
        if !is_kind(scanned, i, Kind::Identifier) {
            return Some(i);
        }
    }
    None
}

/// Returns the text of a string that is all of it and token `i`, if it is short.
fn short_text<'t>(scanned: &Scanned<'t>, i: usize) -> Option<&'t str> {
    if i >= scanned.len()
        || !is_kind(scanned, i, Kind::QuoteLit)
        || !is_kind(scanned, i.saturating_sub(1), Kind::QuoteOpen)
    {
        return None;
    }
    match from_utf8(scanned.spelling(i)) {
        Ok(text) if text.len() <= MAX_QUOTED => Some(text),
        _ => None,
    }
}

/// Whether token `last` ends a string without text.
fn is_empty_string(scanned: &Scanned<'_>, last: usize) -> bool {
    is_kind(scanned, last, Kind::QuoteClose)
        && is_kind(scanned, last.saturating_sub(1), Kind::QuoteOpen)
}

/// Adds that the heredoc at a byte is not closed, and why: with its marker, if that is short.
fn push_heredoc(out: &mut String, text: &[u8], at: usize) -> Result<(), AllocError> {
    out.push_str("this heredoc is not closed")?;
    if closing_place(text, at) < text.len() {
        return Ok(());
    }
    match from_utf8(marker_of(bytes_from(text, at))) {
        Ok(marker) if marker.len() <= MAX_QUOTED => {
            write!(out, ": no line after it is `{marker}` alone")
        }
        _ => Ok(()),
    }
}
