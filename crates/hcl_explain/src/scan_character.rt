//! The explanation of a character with which no token begins.

ghost use Rattle.std.specs.Prelude.{IfOk, Some};
ghost use Rattle.hcl_explain.specs.ScanExplanations.{HiddenOr, IsByUnclosed, IsByLine};
ghost use Rattle.hcl_explain.specs.ScanExplanations.{IsCharacterExplanation, IsCharacterIn};
ghost use Rattle.hcl_explain.specs.ScanExplanations.{IsNestedIn, IsOtherIn, IsByDollars, IsMarkerOr};

use crate::lines::{bytes_from, line_start, prefix};
use crate::marker::is_conflict_marker;
use crate::scan_error::{ScanExplanation, ScanReason, explanation, is_ended, is_hidden};
use crate::sequence::open_sequence;
use crate::without::{ends_with_line, is_unclosed, is_unclosed_without_dollars};
use std::alloc::{AllocError, Global};

/// Explains that no token begins at a byte, by the line of it if that shows a conflict of a merge.
pub fn bad_character(alloc: Global, text: &[u8], at: usize) -> Result<ScanExplanation, AllocError>
    ensures { IfOk result (IsMarkerOr text.now at) }
{
    let start = line_start(text, at);
    if is_conflict_marker(bytes_from(text, start)) {
        Ok(explanation(start, ScanReason::Marker))
    } else {
        character(alloc, text, at)
    }
}

/// Explains that no token begins at a byte.
fn character(alloc: Global, text: &[u8], at: usize) -> Result<ScanExplanation, AllocError>
    ensures { IfOk result (IsCharacterExplanation text.now at) }
{
    match open_sequence(alloc, prefix(text, at))? {
        Some(opened) => character_in(alloc, text, opened, at),
        None => Ok(explanation(at, ScanReason::Character)),
    }
}

/// Explains that no token begins at a byte in this template sequence.
fn character_in(
    alloc: Global,
    text: &[u8],
    opened: usize,
    at: usize,
) -> Result<ScanExplanation, AllocError>
    ensures { IfOk result (λ e. HiddenOr text.now opened e (IsCharacterIn text.now opened at e)) }
{
    if is_hidden(alloc, text, opened)? {
        Ok(explanation(opened, ScanReason::Foreign))
    } else {
        other_character_in(alloc, text, opened, at)
    }
}

/// Explains it in one whose `}` is in no comment.
fn other_character_in(
    alloc: Global,
    text: &[u8],
    opened: usize,
    at: usize,
) -> Result<ScanExplanation, AllocError>
    ensures { IfOk result (IsCharacterIn text.now opened at) }
{
    if bytes_from(text, at).starts_with(b"${") {
        nested(alloc, text, opened, at)
    } else {
        other_in(alloc, text, opened, at)
    }
}

/// Explains that no token begins with a character that is no `${`, in this template sequence.
fn other_in(
    alloc: Global,
    text: &[u8],
    opened: usize,
    at: usize,
) -> Result<ScanExplanation, AllocError>
    ensures { IfOk result (IsOtherIn text.now opened at) }
{
    if is_ended(alloc, text, opened, at)? {
        by_unclosed(alloc, text, opened, at)
    } else {
        by_line(alloc, text, opened, at)
    }
}

/// Explains that no token begins with the `${` at a byte, in this template sequence.
fn nested(
    alloc: Global,
    text: &[u8],
    opened: usize,
    at: usize,
) -> Result<ScanExplanation, AllocError>
    ensures { IfOk result (IsNestedIn text.now opened at) }
{
    if is_ended(alloc, text, opened, at)? {
        Ok(explanation(opened, ScanReason::Sequence))
    } else {
        by_dollars(alloc, text, opened, at)
    }
}

/// Explains it by whether this template sequence is closed without the character.
fn by_unclosed(
    alloc: Global,
    text: &[u8],
    opened: usize,
    at: usize,
) -> Result<ScanExplanation, AllocError>
    ensures { IfOk result (IsByUnclosed text.now opened at) }
{
    if is_unclosed(alloc, text, opened, at, 1)? {
        Ok(explanation(opened, ScanReason::Sequence))
    } else {
        Ok(explanation(at, ScanReason::InSequence(opened)))
    }
}

/// Explains it by whether this template sequence is closed without the `$` of each `${` in the line.
fn by_dollars(
    alloc: Global,
    text: &[u8],
    opened: usize,
    at: usize,
) -> Result<ScanExplanation, AllocError>
    ensures { IfOk result (IsByDollars text.now opened at) }
{
    if is_unclosed_without_dollars(alloc, text, opened, at)? {
        Ok(explanation(opened, ScanReason::Sequence))
    } else {
        Ok(explanation(at, ScanReason::InSequence(opened)))
    }
}

/// Explains it by whether another line of the template sequence begins where it should be closed.
fn by_line(
    alloc: Global,
    text: &[u8],
    opened: usize,
    at: usize,
) -> Result<ScanExplanation, AllocError>
    ensures { IfOk result (IsByLine text.now opened at) }
{
    if ends_with_line(alloc, text, opened)? {
        Ok(explanation(opened, ScanReason::Sequence))
    } else {
        Ok(explanation(at, ScanReason::InSequence(opened)))
    }
}
