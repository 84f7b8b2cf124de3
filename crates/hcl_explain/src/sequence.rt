//! A template sequence, `${` or `%{`, that is not closed at the end of a text.

ghost use Rattle.std.specs.Prelude.{◌≡◌, ℕ, IfOk, IfSome, IfNone, IsErr, false, length, drop};
ghost use Rattle.std.specs.Bool.{Decides};
ghost use Rattle.hcl_scan.specs.Fault.{IsFault};
ghost use Rattle.hcl_scan.specs.declared.fault.ScanFault.TheVariants.{OpenTemplate, Memory};
ghost use Rattle.hcl_explain.specs.Sequences as spec;
ghost use Rattle.hcl_explain.specs.Sequences.{EndsInValue, IsClosedInComment, sequence_text};
ghost use Rattle.hcl_explain.specs.Sequences.{HasTokens};
ghost use Rattle.hcl_explain.specs.Lines as lines;

use crate::lines::first_line;
use crate::near::{ends_value, is_keyword, kind_at, last_before};
use crate::openings::innermost_open;
use hcl_scan::{Kind, ScanFault, Scanned, scan};
use std::alloc::{AllocError, Global};

/// Returns where a template sequence begins in which the text ends, if that is its error.
pub fn open_sequence(alloc: Global, text: &[u8]) -> Result<Option<usize>, AllocError>
    ensures some { IfOk result (λ o. IfSome o (λ at. IsFault text.now (OpenTemplate at))) }
    ensures none { IfOk result
        (λ o. IfNone o ((at : ℕ) → IsFault text.now (OpenTemplate at) → ⊥)) }
{
    hcl_scan::laws::one_fault();
    hcl_scan::laws::no_tokenization_with_fault();
    match scan(alloc, text) {
        Ok(_scanned) => Ok(None),
        Err(fault) => opened_at(fault),
    }
}

/// Returns where the template sequence begins that is the error, if it is one.
fn opened_at(fault: ScanFault) -> Result<Option<usize>, AllocError>
    ensures some { IfOk result (λ o. IfSome o (λ at. fault ≡ OpenTemplate at)) }
    ensures none { IfOk result (λ o. IfNone o ((at : ℕ) → fault ≡ OpenTemplate at → ⊥)) }
    ensures memory { fault ≡ Memory → IsErr result }
{
    match fault {
        ScanFault::OpenTemplate { at } => Ok(Some(at)),
        ScanFault::Memory => Err(AllocError),
        _ => Ok(None),
    }
}

/// Returns what follows `${`, `%{`, `${~` or `%{~` with which a text begins.
pub fn sequence_text(sequence: &[u8]) -> &[u8]
    ensures { result.now ≡ sequence_text sequence.now }
{
    match sequence {
        [_, _, b'~', rest @ ..] => rest,
        [_, _, rest @ ..] => rest,
        _ => &[],
    }
}

/// Whether a value ends with the text of the template sequence that begins here, so that neither a
/// string nor another sequence can follow.
pub fn ends_in_value(alloc: Global, sequence: &[u8]) -> Result<bool, AllocError>
    ensures { IfOk result (λ b. Decides b (EndsInValue (sequence_text sequence.now))) }
{
    hcl_scan::laws::one_tokenization();
    hcl_scan::laws::no_tokenization_with_fault();
    match scan(alloc, sequence_text(sequence)) {
        Ok(scanned) => Ok(has_value_last(&scanned)),
        Err(fault) => no_unless_memory(fault),
    }
}

/// Whether the line in which the template sequence begins ends in a value, outside of brackets.
pub fn ends_line_in_value(alloc: Global, sequence: &[u8]) -> Result<bool, AllocError>
    ensures { IfOk result (λ b. Decides b
        (HasTokens spec.has_value_alone (sequence_text (lines.first_line sequence.now)))) }
{
    hcl_scan::laws::one_tokenization();
    hcl_scan::laws::no_tokenization_with_fault();
    match scan(alloc, sequence_text(first_line(sequence))) {
        Ok(scanned) => Ok(has_value_alone(&scanned)),
        Err(fault) => no_unless_memory(fault),
    }
}

/// Whether the first line of the template sequence that begins here ends in a comment with a `}`.
pub fn is_closed_in_comment(alloc: Global, sequence: &[u8]) -> Result<bool, AllocError>
    ensures { IfOk result (λ b. Decides b (IsClosedInComment sequence.now)) }
{
    hcl_scan::laws::one_tokenization();
    hcl_scan::laws::no_tokenization_with_fault();
    match scan(alloc, sequence_text(first_line(sequence))) {
        Ok(scanned) => Ok(has_brace_in_comment(&scanned)),
        Err(fault) => no_unless_memory(fault),
    }
}

/// Whether the last token is a comment up to the end of its line, and has a `}`.
fn has_brace_in_comment(scanned: &Scanned<'_>) -> bool
    ensures { result ≡ spec.has_brace_in_comment scanned.now.pairs }
{
    let last = scanned.len().saturating_sub(1);
    match kind_at(scanned, last) {
        Some(Kind::LineComment) => scanned.spelling(last).contains(&b'}'),
        _ => false,
    }
}

/// Returns no, or that memory ran out if that is the error.
fn no_unless_memory(fault: ScanFault) -> Result<bool, AllocError>
    ensures no { IfOk result (λ b. b ≡ false) }
    ensures memory { fault ≡ Memory → IsErr result }
{
    match fault {
        ScanFault::Memory => Err(AllocError),
        _ => Ok(false),
    }
}

/// Whether a value ends with the last token, in a template sequence.
fn has_value_last(scanned: &Scanned<'_>) -> bool
    ensures { result ≡ spec.has_value_last scanned.now.pairs }
{
    let count = scanned.len();
    match last_before(scanned, count, drops_lines_at_end(scanned)) {
        Some(last) => ends_value(scanned, last) && !is_keyword(scanned, last),
        None => false,
    }
}

/// Whether a value ends with the last token, outside of brackets.
fn has_value_alone(scanned: &Scanned<'_>) -> bool
    ensures { result ≡ spec.has_value_alone scanned.now.pairs }
{
    match innermost_open(scanned, scanned.len()) {
        Some(_open) => false,
        None => has_value_last(scanned),
    }
}

/// Whether line ends are dropped after the last token, in a template sequence: not in braces.
fn drops_lines_at_end(scanned: &Scanned<'_>) -> bool
    ensures { result ≡ spec.drops_lines_at_end scanned.now.pairs }
{
    match innermost_open(scanned, scanned.len()) {
        Some(open) => !matches!(kind_at(scanned, open), Some(Kind::OpenBrace)),
        None => true,
    }
}
