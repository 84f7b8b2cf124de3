//! The sentence of an explanation, in one line.

use crate::context::{Context, context_of};
use crate::directives::word_of;
use crate::explanation::{Explanation, Reason};
use crate::found::byte_of;
use crate::indents::{Braces, early_braces, late_braces};
use crate::lines::line_number;
use crate::near::{first_from, is_kind, kind_at};
use hcl_grammar::MAX_NESTING;
use hcl_scan::{Kind, Scanned};
use std::alloc::{AllocError, Global};
use std::fmt::Write;
use std::str::from_utf8;

/// A spelling of more bytes is not quoted in a sentence.
const MAX_SPELLING: usize = 40;

/// The type and the labels of a block are not quoted if they have more bytes.
const MAX_HEAD: usize = 120;

impl Explanation {
    /// Returns the sentence. It has no line end.
    ///
    /// # Errors
    ///
    /// `AllocError` if memory runs out.
    pub fn sentence(&self, alloc: Global, scanned: &Scanned<'_>) -> Result<String, AllocError> {
        let mut out = String::new(alloc);
        match self.reason {
            Reason::NotClosed => {
                push_not_closed(&mut out, scanned, self.token)?;
                push_braces(&mut out, scanned, early_braces(alloc, scanned, *self)?)?;
            }
            Reason::NoEnd => push_no_end(&mut out, scanned, self.token)?,
            Reason::TooDeep => write!(out, "nested more than {} deep", MAX_NESTING)?,
            Reason::Expected(expected) => {
                push_expected(&mut out, scanned, expected.name(), self.found)?
            }
            Reason::ClosesNothing => {
                push_closes_nothing(&mut out, scanned, self.found)?;
                push_braces(&mut out, scanned, late_braces(alloc, scanned, self.found)?)?;
            }
            Reason::Advice(advice) | Reason::Before(advice) => out.push_str(advice.sentence())?,
        }
        Ok(out)
    }
}

/// Adds that something was expected, and what was found.
fn push_expected(
    out: &mut String,
    scanned: &Scanned<'_>,
    expected: &str,
    found: usize,
) -> Result<(), AllocError> {
    out.push_str("expected ")?;
    out.push_str(expected)?;
    out.push_str(", found ")?;
    push_name(out, scanned, found)
}

fn push_closes_nothing(
    out: &mut String,
    scanned: &Scanned<'_>,
    found: usize,
) -> Result<(), AllocError> {
    out.push_str("this ")?;
    push_name(out, scanned, found)?;
    out.push_str(" closes nothing")
}

/// Adds that the opening is not closed, with the head of its block, if it is one.
fn push_not_closed(out: &mut String, scanned: &Scanned<'_>, open: usize) -> Result<(), AllocError> {
    out.push_str("this ")?;
    push_name(out, scanned, open)?;
    match context_of(scanned, Some(open)) {
        Context::Block | Context::OneLineBlock => push_head(out, scanned, open)?,
        _ => {}
    }
    out.push_str(" is not closed")
}

/// Adds which `{` a `}` closes, where these were found.
fn push_braces(
    out: &mut String,
    scanned: &Scanned<'_>,
    braces: Option<Braces>,
) -> Result<(), AllocError> {
    match braces {
        Some(braces) => {
            let closing = line_of(scanned, braces.closing);
            let opening = line_of(scanned, braces.opening);
            write!(
                out,
                "; the `}}` in line {closing} closes the `{{` in line {opening}"
            )
        }
        None => Ok(()),
    }
}

/// Returns the number of the line of a token, from 1.
fn line_of(scanned: &Scanned<'_>, i: usize) -> usize {
    line_number(scanned.text(), byte_of(scanned, i))
}

/// Adds that a directive has no end.
fn push_no_end(out: &mut String, scanned: &Scanned<'_>, token: usize) -> Result<(), AllocError> {
    let word = word_of(scanned, token);
    out.push_str("this `%{ ")?;
    push_spelling(out, scanned, word)?;
    out.push_str(" }` has no `%{ end")?;
    push_spelling(out, scanned, word)?;
    out.push_str(" }`")
}

/// Adds the spelling of a token.
fn push_spelling(out: &mut String, scanned: &Scanned<'_>, i: usize) -> Result<(), AllocError> {
    if i < scanned.len() {
        match from_utf8(scanned.spelling(i)) {
            Ok(spelling) => out.push_str(spelling)?,
            Err(_) => {}
        }
    }
    Ok(())
}

/// Adds what a token is called: its spelling in backquotes, or a name for it.
fn push_name(out: &mut String, scanned: &Scanned<'_>, i: usize) -> Result<(), AllocError> {
    match name_of(scanned, i) {
        Some(name) => out.push_str(name),
        None => push_quoted(out, scanned, i),
    }
}

/// Returns a name for a token that is not quoted.
fn name_of(scanned: &Scanned<'_>, i: usize) -> Option<&'static str> {
    match kind_at(scanned, i) {
        Some(Kind::Mark) => Some("a byte order mark"),
        Some(Kind::LineEnd) => Some("a newline"),
        Some(Kind::LineComment) | Some(Kind::InlineComment) => Some("a comment"),
        Some(Kind::QuoteClose) => Some("the end of the string"),
        Some(Kind::HereOpen) => Some("a heredoc"),
        Some(Kind::HereClose) => Some("the end of the heredoc"),
        Some(Kind::QuoteLit) | Some(Kind::HereLit) => Some("text"),
        Some(Kind::QuoteOpen) if !is_short(scanned, i, string_end(scanned, i)) => Some("a string"),
        Some(Kind::Number) if !is_short(scanned, i, i.saturating_add(1)) => Some("a number"),
        Some(_) if !is_short(scanned, i, i.saturating_add(1)) => Some("a name"),
        Some(_) => None,
        None => Some("the end of the file"),
    }
}

/// Adds a token in backquotes; the whole string, if one begins with it.
fn push_quoted(out: &mut String, scanned: &Scanned<'_>, i: usize) -> Result<(), AllocError> {
    out.push_str("`")?;
    for k in i..string_end(scanned, i) {
        push_spelling(out, scanned, k)?;
    }
    out.push_str("`")
}

/// Returns the number after the string without a template that begins with token `i`; the number
/// after the token, if none does.
fn string_end(scanned: &Scanned<'_>, i: usize) -> usize {
    let next = i.saturating_add(1);
    if !is_kind(scanned, i, Kind::QuoteOpen) {
        return next;
    }
    let second = next.saturating_add(1);
    if is_kind(scanned, next, Kind::QuoteClose) {
        second
    } else if is_kind(scanned, next, Kind::QuoteLit) && is_kind(scanned, second, Kind::QuoteClose) {
        second.saturating_add(1)
    } else {
        i
    }
}

/// Whether the tokens from number `from` up to `until` are any, and short enough to be quoted.
fn is_short(scanned: &Scanned<'_>, from: usize, until: usize) -> bool {
    from < until && len_of(scanned, from, until) <= MAX_SPELLING
}

/// Returns how many bytes the spellings of these tokens have.
fn len_of(scanned: &Scanned<'_>, from: usize, until: usize) -> usize {
    let mut len = 0usize;
    for k in from..until {
        if k < scanned.len() {
            len = len.saturating_add(scanned.spelling(k).len());
        }
    }
    len
}

/// Adds the type and the labels of the block of this `{`, if they are short.
fn push_head(out: &mut String, scanned: &Scanned<'_>, open: usize) -> Result<(), AllocError> {
    let from = first_from(scanned, head_start(scanned, open), false);
    if len_of(scanned, from, open) > MAX_HEAD {
        return Ok(());
    }
    out.push_str(" of `")?;
    for i in from..open {
        push_head_token(out, scanned, i, i > from)?;
    }
    out.push_str("`")
}

/// Adds a token of the head of a block, after a space if it begins a label.
fn push_head_token(
    out: &mut String,
    scanned: &Scanned<'_>,
    i: usize,
    is_label: bool,
) -> Result<(), AllocError> {
    match kind_at(scanned, i) {
        Some(Kind::InlineComment) => Ok(()),
        Some(kind) => {
            if is_label && matches!(kind, Kind::Identifier | Kind::QuoteOpen) {
                out.push_str(" ")?;
            }
            push_spelling(out, scanned, i)
        }
        None => Ok(()),
    }
}

/// Returns the number of the first token of the head of the block of this `{`, or of a comment
/// right before it.
fn head_start(scanned: &Scanned<'_>, open: usize) -> usize {
    for i in (0..open).rev() {
        match kind_at(scanned, i) {
            Some(Kind::Identifier)
            | Some(Kind::QuoteOpen)
            | Some(Kind::QuoteLit)
            | Some(Kind::QuoteClose)
            | Some(Kind::InlineComment) => {}
            _ => return i.saturating_add(1),
        }
    }
    0
}
