//! The explanation of an error of a text that has no tokens.

ghost use Rattle.std.specs.Prelude.{◌≡◌, IfOk, Some, drop};
ghost use Rattle.std.specs.Bool.{Decides};
ghost use Rattle.hcl_explain.specs.Sequences as spec;
ghost use Rattle.hcl_explain.specs.Sequences.{IsBlamed, IsClosedInComment, IsEnded};
ghost use Rattle.hcl_explain.specs.ScanExplanations.{IsScanExplanation, IsStringExplanation};
ghost use Rattle.hcl_explain.specs.ScanExplanations.{IsStringAfter, IsStringIn, HiddenOr};
ghost use Rattle.hcl_explain.specs.ScanExplanations.{IsSequenceExplanation, IsHeredocExplanation};
ghost use Rattle.hcl_explain.specs.ScanExplanations.{IsCommentExplanation, IsCommentIn};
ghost use Rattle.hcl_explain.specs.ScanExplanations.{IsCommentAfter, of, OpeningOr};
ghost use Rattle.hcl_explain.specs.ScanExplanations.{IsExplanationHere, place_in_values};

use crate::heredoc::opening_before;
use crate::lines::{bytes_from, closing_place, line_end, prefix};
use crate::scan_character::bad_character;
use crate::sequence::{ends_in_value, is_closed_in_comment, open_sequence};
use crate::without::is_unclosed;
use hcl_scan::ScanFault;
use std::alloc::{AllocError, Global};

/// Why a text has no tokens.
#[derive(Clone, Copy)]
pub enum ScanReason {
    NotUtf8,
    /// A character with which no token begins.
    Character,
    /// One in the template sequence that begins at this byte.
    InSequence(usize),
    /// One in a line that git writes where a merge has a conflict.
    Marker,
    Escape,
    /// A string that is not closed in its line.
    String,
    /// A template sequence that is not closed.
    Sequence,
    /// One that may not be meant as one: its `}` is in a comment, or the heredoc or the comment in
    /// which the text ends begins in it.
    Foreign,
    Heredoc,
    /// The opening of a heredoc that is a mistake, in a line before the error.
    Opening,
    Comment,
}

/// Why a text has no tokens, and the byte to be printed.
#[derive(Clone, Copy)]
pub struct ScanExplanation {
    pub at: usize,
    pub reason: ScanReason,
}

/// Explains the error of a text that `scan` refuses, if the error is at a byte.
///
/// Where a `${` is not closed, what follows it is read as a value, and the error may be after it: at
/// the quote that should close its string, which opens another one, or at the heredoc that it is in.
/// So the `${` that is the error of the text before that place is blamed, as the definitions say;
/// and so is the opening of a heredoc that is a mistake, for an error in a line after it.
///
/// # Errors
///
/// `AllocError` if memory runs out.
pub fn explain_scan(
    alloc: Global,
    text: &[u8],
    fault: ScanFault,
) -> Result<Option<ScanExplanation>, AllocError>
    ensures { IfOk result (IsScanExplanation text.now fault) }
{
    match place_in_values(fault) {
        Some(at) => by_opening(alloc, text, fault, at),
        None => explain_here(alloc, text, fault),
    }
}

/// Explains an error at byte `at`, which may be in the lines of a heredoc that are read as values,
/// since its opening is a mistake.
fn by_opening(
    alloc: Global,
    text: &[u8],
    fault: ScanFault,
    at: usize,
) -> Result<Option<ScanExplanation>, AllocError>
    ensures { IfOk result
        (λ o. OpeningOr text.now (Some at) o (IsExplanationHere text.now fault o)) }
{
    match opening_before(alloc, text, at)? {
        Some(opened) => Ok(Some(explanation(opened, ScanReason::Opening))),
        None => explain_here(alloc, text, fault),
    }
}

/// Returns the byte of an error that may be in such lines.
fn place_in_values(fault: ScanFault) -> Option<usize>
    ensures { result ≡ place_in_values fault }
{
    match fault {
        ScanFault::NotUtf8 { .. } => None,
        fault => fault.at(),
    }
}

/// Explains an error by what is at its byte, and by the template sequence around that.
fn explain_here(
    alloc: Global,
    text: &[u8],
    fault: ScanFault,
) -> Result<Option<ScanExplanation>, AllocError>
    ensures { IfOk result (IsExplanationHere text.now fault) }
{
    let (at, reason) = match fault {
        ScanFault::OpenString { at } => return Ok(Some(open_string(alloc, text, at)?)),
        ScanFault::OpenTemplate { at } => return Ok(Some(open_template(alloc, text, at)?)),
        ScanFault::OpenHeredoc { at } => return Ok(Some(open_heredoc(alloc, text, at)?)),
        ScanFault::OpenComment { at } => return Ok(Some(open_comment(alloc, text, at)?)),
        ScanFault::BadCharacter { at } => return Ok(Some(bad_character(alloc, text, at)?)),
        ScanFault::NotUtf8 { at } => (at, ScanReason::NotUtf8),
        ScanFault::BadEscape { at } => (at, ScanReason::Escape),
        ScanFault::TooLong | ScanFault::Memory => return Ok(None),
    };
    Ok(Some(ScanExplanation { at, reason }))
}

/// Whether the `}` of the template sequence that begins at a byte is in a comment.
pub fn is_hidden(alloc: Global, text: &[u8], opened: usize) -> Result<bool, AllocError>
    ensures { IfOk result (λ b. Decides b (IsClosedInComment (drop opened text.now))) }
{
    is_closed_in_comment(alloc, bytes_from(text, opened))
}

/// Explains that the template sequence which begins at a byte is not closed.
fn open_template(alloc: Global, text: &[u8], opened: usize) -> Result<ScanExplanation, AllocError>
    ensures { IfOk result (IsSequenceExplanation text.now opened) }
{
    if is_hidden(alloc, text, opened)? {
        Ok(explanation(opened, ScanReason::Foreign))
    } else {
        Ok(explanation(opened, ScanReason::Sequence))
    }
}

/// Explains that the heredoc which begins at a byte is not closed.
fn open_heredoc(alloc: Global, text: &[u8], at: usize) -> Result<ScanExplanation, AllocError>
    ensures { IfOk result (IsHeredocExplanation text.now at) }
{
    match open_sequence(alloc, prefix(text, closing_place(text, at)))? {
        Some(opened) => Ok(explanation(opened, ScanReason::Foreign)),
        None => Ok(explanation(at, ScanReason::Heredoc)),
    }
}

/// Explains that the comment which begins at a byte is not closed.
fn open_comment(alloc: Global, text: &[u8], at: usize) -> Result<ScanExplanation, AllocError>
    ensures { IfOk result (IsCommentExplanation text.now at) }
{
    match open_sequence(alloc, prefix(text, at))? {
        Some(opened) => comment_in(alloc, text, opened, at),
        None => Ok(explanation(at, ScanReason::Comment)),
    }
}

/// Explains it in this template sequence.
fn comment_in(
    alloc: Global,
    text: &[u8],
    opened: usize,
    at: usize,
) -> Result<ScanExplanation, AllocError>
    ensures { IfOk result (IsCommentIn text.now opened at) }
{
    if is_ended(alloc, text, opened, at)? {
        comment_after(alloc, text, opened, at)
    } else {
        Ok(explanation(opened, ScanReason::Foreign))
    }
}

/// Explains it after a value in this template sequence.
fn comment_after(
    alloc: Global,
    text: &[u8],
    opened: usize,
    at: usize,
) -> Result<ScanExplanation, AllocError>
    ensures { IfOk result (IsCommentAfter text.now opened at) }
{
    if is_unclosed(alloc, text, opened, at, 2)? {
        Ok(explanation(opened, ScanReason::Sequence))
    } else {
        Ok(explanation(at, ScanReason::Comment))
    }
}

/// Whether the template sequence that begins at byte `opened` ends in a value before byte `at`.
pub fn is_ended(alloc: Global, text: &[u8], opened: usize, at: usize) -> Result<bool, AllocError>
    ensures { IfOk result (λ b. Decides b (IsEnded text.now opened at)) }
{
    ends_in_value(alloc, bytes_from(prefix(text, at), opened))
}

/// Explains that the string which begins at a byte is not closed.
fn open_string(alloc: Global, text: &[u8], at: usize) -> Result<ScanExplanation, AllocError>
    ensures { IfOk result (IsStringExplanation text.now at) }
{
    match open_sequence(alloc, prefix(text, line_end(text, at)))? {
        Some(opened) => string_around(alloc, text, opened, at),
        None => string_after(alloc, text, at),
    }
}

/// Explains that a string is not closed, at the end of whose line this template sequence is open.
fn string_around(
    alloc: Global,
    text: &[u8],
    opened: usize,
    at: usize,
) -> Result<ScanExplanation, AllocError>
    ensures { IfOk result (λ e. HiddenOr text.now opened e (IsStringAfter text.now at e)) }
{
    if is_hidden(alloc, text, opened)? {
        Ok(explanation(opened, ScanReason::Foreign))
    } else {
        string_after(alloc, text, at)
    }
}

/// Explains that a string is not closed, by what is before it.
fn string_after(alloc: Global, text: &[u8], at: usize) -> Result<ScanExplanation, AllocError>
    ensures { IfOk result (IsStringAfter text.now at) }
{
    match open_sequence(alloc, prefix(text, at))? {
        Some(opened) => string_in(alloc, text, opened, at),
        None => Ok(explanation(at, ScanReason::String)),
    }
}

/// Explains that a string is not closed, which begins in this template sequence.
fn string_in(
    alloc: Global,
    text: &[u8],
    opened: usize,
    at: usize,
) -> Result<ScanExplanation, AllocError>
    ensures { IfOk result (λ e. HiddenOr text.now opened e (IsStringIn text.now opened at e)) }
{
    if is_hidden(alloc, text, opened)? {
        Ok(explanation(opened, ScanReason::Foreign))
    } else {
        other_string_in(alloc, text, opened, at)
    }
}

/// Explains it in one whose `}` is in no comment.
fn other_string_in(
    alloc: Global,
    text: &[u8],
    opened: usize,
    at: usize,
) -> Result<ScanExplanation, AllocError>
    ensures { IfOk result (IsStringIn text.now opened at) }
{
    if is_blamed(alloc, text, opened, at)? {
        Ok(explanation(opened, ScanReason::Sequence))
    } else {
        Ok(explanation(at, ScanReason::String))
    }
}

/// Whether the template sequence that begins at byte `opened` is the mistake, and not the string
/// that begins at byte `at`.
pub fn is_blamed(alloc: Global, text: &[u8], opened: usize, at: usize) -> Result<bool, AllocError>
    ensures { IfOk result (λ b. Decides b (IsBlamed text.now opened at)) }
{
    let sequence = bytes_from(prefix(text, at), opened);
    if !sequence.contains(&b'\n') {
        return Ok(true);
    }
    if is_line_end(bytes_from(bytes_from(text, at), 1)) {
        return Ok(true);
    }
    ends_in_value(alloc, sequence)
}

/// Returns the explanation that this is so at a byte.
pub fn explanation(at: usize, reason: ScanReason) -> ScanExplanation
    ensures { result ≡ of at reason }
{
    ScanExplanation { at, reason }
}

/// Whether nothing follows in the line.
pub fn is_line_end(text: &[u8]) -> bool
    ensures { result ≡ spec.is_line_end text.now }
{
    match text {
        [] => true,
        [first, ..] => *first == b'\n' || *first == b'\r',
    }
}
