//! Whether a template sequence is not closed, where another error is in it: by its lines, and by
//! the text without the bytes at which the error is.

ghost use Rattle.std.specs.Prelude.{◌≡◌, ◌++◌, ◌+◌, ◌<◌, IfOk, OnOk, IsErr, drop, length, true};
ghost use Rattle.std.specs.Bool.{Decides};
ghost use Rattle.hcl_scan.specs.Fault.{IsFault};
ghost use Rattle.hcl_scan.specs.declared.fault.ScanFault.TheVariants.{OpenTemplate, Memory};
ghost use Rattle.hcl_scan.specs.declared.fault.ScanFault.TheVariants.{BadCharacter};
ghost use Rattle.hcl_explain.specs.Lines.{closing_place};
ghost use Rattle.hcl_explain.specs.Sequences as spec;
ghost use Rattle.hcl_explain.specs.Sequences.{EndsWithLine, IsMadeBy, MakesError, IsShownOpen, IsUnclosed};
ghost use Rattle.hcl_explain.specs.Sequences.{IsOpenBefore, IsBlamed, IsEnded};
ghost use Rattle.hcl_explain.specs.Sequences.{IsUnclosedWithoutDollars};

use crate::lines::{
    after_line, bytes_from, closing_place, first_line, line_end, prefix, whitespace_len,
};
use crate::scan_error::{is_blamed, is_ended};
use crate::sequence::ends_line_in_value;
use hcl_scan::{ScanFault, scan};
use std::alloc::{AllocError, Global};

/// Whether the template sequence that begins at byte `opened` is not closed, by the text, or by the
/// text without `count` bytes from byte `at` on, at which its error is.
pub fn is_unclosed(
    alloc: Global,
    text: &[u8],
    opened: usize,
    at: usize,
    count: usize,
) -> Result<bool, AllocError>
    ensures { IfOk result (λ b. Decides b (IsUnclosed text.now opened at count)) }
{
    if ends_with_line(alloc, text, opened)? {
        return Ok(true);
    }
    is_unclosed_without(alloc, text, opened, at, count)
}

/// Whether it is not, by the text without these bytes.
fn is_unclosed_without(
    alloc: Global,
    text: &[u8],
    opened: usize,
    at: usize,
    count: usize,
) -> Result<bool, AllocError>
    ensures { IfOk result
        (λ b. Decides b (IsShownOpen (spec.without text.now at count) opened)) }
{
    let shorter = without(alloc, text, at, count)?;
    is_shown_open(alloc, shorter.as_slice(), opened)
}

/// Returns a text without `count` bytes from byte `at` on.
fn without(alloc: Global, text: &[u8], at: usize, count: usize) -> Result<Vec<u8>, AllocError>
    ensures { IfOk result (λ shorter. shorter.items ≡ spec.without text.now at count) }
{
    let mut shorter = Vec::with_capacity(alloc, text.len())?;
    shorter.extend_from_slice(prefix(text, at))?;
    shorter.extend_from_slice(bytes_from(bytes_from(text, at), count))?;
    Ok(shorter)
}

/// Whether the template sequence that begins at byte `opened` is not closed, by the text, or by the
/// text without the `$` of each `${` in the line of byte `at`, from there on.
pub fn is_unclosed_without_dollars(
    alloc: Global,
    text: &[u8],
    opened: usize,
    at: usize,
) -> Result<bool, AllocError>
    ensures { IfOk result (λ b. Decides b (IsUnclosedWithoutDollars text.now opened at)) }
{
    if ends_with_line(alloc, text, opened)? {
        return Ok(true);
    }
    is_shown_without_dollars(alloc, text, opened, at)
}

/// Whether it is not, by the text without these.
fn is_shown_without_dollars(
    alloc: Global,
    text: &[u8],
    opened: usize,
    at: usize,
) -> Result<bool, AllocError>
    ensures { IfOk result (λ b. Decides b (IsShownOpen (spec.without_dollars text.now at) opened)) }
{
    let shorter = without_dollars(alloc, text, at)?;
    is_shown_open(alloc, shorter.as_slice(), opened)
}

/// Returns a text without these.
fn without_dollars(alloc: Global, text: &[u8], at: usize) -> Result<Vec<u8>, AllocError>
    ensures { IfOk result (λ shorter. shorter.items ≡ spec.without_dollars text.now at) }
{
    let rest = bytes_from(text, at);
    let mut shorter = Vec::with_capacity(alloc, text.len())?;
    shorter.extend_from_slice(prefix(text, at))?;
    push_without_dollars(&mut shorter, first_line(rest))?;
    shorter.extend_from_slice(after_line(rest))?;
    Ok(shorter)
}

/// Adds a line without the `$` of each `${`.
fn push_without_dollars(out: &mut Vec<u8>, line: &[u8]) -> Result<(), AllocError>
    ensures { OnOk result (out.new.items ≡ out.old.items ++ spec.line_without_dollars line.now) }
{
    let mut at = 0usize;
    while at < line.len() {
        push_unless_dollar(out, line, at)?;
        at += 1;
    }
    Ok(())
}

/// Adds this byte of a line, if it is not the `$` of a `${`.
#[tactic(auto, using(crate::proofs::DollarLemmas::skipped, crate::proofs::DollarLemmas::added))]
fn push_unless_dollar(out: &mut Vec<u8>, line: &[u8], at: usize) -> Result<(), AllocError>
    requires { at < length line.now }
    ensures { OnOk result (out.new.items ++ spec.line_without_dollars (drop (at + 1) line.now)
        ≡ out.old.items ++ spec.line_without_dollars (drop at line.now)) }
{
    if is_interpolation_at(line, at) {
        return Ok(());
    }
    out.push(line[at])?;
    Ok(())
}

/// Whether a `${` is at this byte of a line.
fn is_interpolation_at(line: &[u8], at: usize) -> bool
    ensures { result ≡ spec.is_interpolation (drop at line.now) }
{
    bytes_from(line, at).starts_with(b"${")
}

/// Whether a text shows that the template sequence which begins at byte `opened` is not closed.
fn is_shown_open(alloc: Global, text: &[u8], opened: usize) -> Result<bool, AllocError>
    ensures { IfOk result (λ b. Decides b (IsShownOpen text.now opened)) }
{
    if ends_with_line(alloc, text, opened)? {
        return Ok(true);
    }
    makes_error(alloc, text, opened)
}

/// Whether a line of the `${` at byte `opened` ends in a value, and the next begins with a letter.
pub fn ends_with_line(alloc: Global, text: &[u8], opened: usize) -> Result<bool, AllocError>
    ensures { IfOk result (λ b. Decides b (EndsWithLine text.now opened)) }
{
    if !is_before_letter(bytes_from(text, opened)) {
        return Ok(false);
    }
    if !is_open_at(alloc, prefix(text, line_end(text, opened)), opened)? {
        return Ok(false);
    }
    ends_line_in_value(alloc, bytes_from(text, opened))
}

/// Whether a letter begins the line after the one in which this `${` begins.
fn is_before_letter(sequence: &[u8]) -> bool
    ensures { result ≡ spec.is_before_letter sequence.now }
{
    sequence.starts_with(b"${") && begins_with_letter(bytes_from(after_line(sequence), 1))
}

/// Whether a letter is the first byte of a line that is neither a space nor a tab.
pub fn begins_with_letter(line: &[u8]) -> bool
    ensures { result ≡ spec.begins_with_letter line.now }
{
    match bytes_from(line, whitespace_len(line)) {
        [first, ..] => first.is_ascii_alphabetic(),
        [] => false,
    }
}

/// Whether the error of a text is that it ends in the template sequence which begins at byte
/// `opened`.
fn is_open_at(alloc: Global, text: &[u8], opened: usize) -> Result<bool, AllocError>
    ensures { IfOk result (λ b. Decides b (IsFault text.now (OpenTemplate opened))) }
{
    hcl_scan::laws::one_fault();
    hcl_scan::laws::no_tokenization_with_fault();
    match scan(alloc, text) {
        Ok(_scanned) => Ok(false),
        Err(fault) => is_of(fault, opened),
    }
}

/// Whether this error is that a text ends in the template sequence which begins at byte `opened`.
fn is_of(fault: ScanFault, opened: usize) -> Result<bool, AllocError>
    ensures is { IfOk result (λ b. Decides b (fault ≡ OpenTemplate opened)) }
    ensures memory { fault ≡ Memory → IsErr result }
{
    match fault {
        ScanFault::OpenTemplate { at } => Ok(at == opened),
        ScanFault::Memory => Err(AllocError),
        _ => Ok(false),
    }
}

/// Whether a text has an error that the template sequence which begins at byte `opened` makes.
fn makes_error(alloc: Global, text: &[u8], opened: usize) -> Result<bool, AllocError>
    ensures { IfOk result (λ b. Decides b (MakesError text.now opened)) }
{
    hcl_scan::laws::one_fault();
    hcl_scan::laws::no_tokenization_with_fault();
    match scan(alloc, text) {
        Ok(_scanned) => Ok(false),
        Err(fault) => makes(alloc, text, opened, fault),
    }
}

/// Whether it makes this error.
fn makes(alloc: Global, text: &[u8], opened: usize, fault: ScanFault) -> Result<bool, AllocError>
    ensures made { IfOk result (λ b. Decides b (IsMadeBy text.now opened fault)) }
    ensures memory { fault ≡ Memory → IsErr result }
{
    match fault {
        ScanFault::OpenTemplate { at } => Ok(at == opened),
        ScanFault::OpenString { at } => makes_string(alloc, text, opened, at),
        ScanFault::OpenHeredoc { at } => makes_heredoc(alloc, text, opened, at),
        ScanFault::BadCharacter { at } => makes_character(alloc, text, opened, at),
        ScanFault::Memory => Err(AllocError),
        _ => Ok(false),
    }
}

/// Whether it is open where this string begins, which is not the mistake.
fn makes_string(alloc: Global, text: &[u8], opened: usize, at: usize) -> Result<bool, AllocError>
    ensures { IfOk result
        (λ b. Decides b (IsOpenBefore text.now at opened × IsBlamed text.now opened at)) }
{
    if !is_open_at(alloc, prefix(text, at), opened)? {
        return Ok(false);
    }
    is_blamed(alloc, text, opened, at)
}

/// Whether it is open where this heredoc should be closed.
fn makes_heredoc(alloc: Global, text: &[u8], opened: usize, at: usize) -> Result<bool, AllocError>
    ensures { IfOk result
        (λ b. Decides b (IsOpenBefore text.now (closing_place text.now at) opened)) }
{
    is_open_at(alloc, prefix(text, closing_place(text, at)), opened)
}

/// Whether it is open where this character is, and that is a `${` after a value.
fn makes_character(alloc: Global, text: &[u8], opened: usize, at: usize) -> Result<bool, AllocError>
    ensures { IfOk result (λ b. Decides b (IsMadeBy text.now opened (BadCharacter at))) }
{
    if !is_open_at(alloc, prefix(text, at), opened)? {
        return Ok(false);
    }
    is_after_value(alloc, text, opened, at)
}

/// Whether a `${` is at byte `at`, before which this template sequence ends in a value.
fn is_after_value(alloc: Global, text: &[u8], opened: usize, at: usize) -> Result<bool, AllocError>
    ensures { IfOk result (λ b. Decides b
        ((spec.is_interpolation (drop at text.now) ≡ true) × IsEnded text.now opened at)) }
{
    if !bytes_from(text, at).starts_with(b"${") {
        return Ok(false);
    }
    is_ended(alloc, text, opened, at)
}
