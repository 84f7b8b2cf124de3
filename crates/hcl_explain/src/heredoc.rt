//! The opening of a heredoc that is a mistake, where another error is in a line after it.

ghost use Rattle.std.specs.Prelude.{◌≡◌, ℕ, ◌||◌, ◌==◌, IfOk, IfSome, IfNone, IsErr, Some, None};
ghost use Rattle.std.specs.Prelude.{length, drop, slice_index, true};
ghost use Rattle.std.specs.Str.{byte};
ghost use Rattle.std.specs.List.{prefix_len};
ghost use Rattle.hcl_token.specs.TokenizedText.{kind_of};
ghost use Rattle.hcl_scan.specs.declared.fault.ScanFault.TheVariants.{Memory};
ghost use Rattle.hcl_text_laws.specs.Faults.{byte_offset};
ghost use Rattle.hcl_explain.specs.Heredocs as spec;
ghost use Rattle.hcl_explain.specs.Sequences.{last_before, begins_with_letter};

use crate::advice::Advice;
use crate::found::byte_of;
use crate::lines::{after_opening, bytes_from, line_start, prefix};
use crate::near::{kind_at, last_before};
use crate::scan_error::is_line_end;
use crate::without::begins_with_letter;
use hcl_scan::{Kind, ScanFault, Scanned, scan};
use std::alloc::{AllocError, Global};

/// Returns where the opening of a heredoc begins that is a mistake, in a line before that of a
/// byte, if one does. After it, the lines of the heredoc are read as values.
pub fn opening_before(alloc: Global, text: &[u8], at: usize) -> Result<Option<usize>, AllocError>
    ensures some { IfOk result
        (λ o. IfSome o (λ opened. spec.IsOpeningBefore text.now at opened)) }
    ensures none { IfOk result
        (λ o. IfNone o ((opened : ℕ) → spec.IsOpeningBefore text.now at opened → ⊥)) }
{
    let less = last_less(alloc, prefix(text, line_start(text, at)))?;
    match less {
        Some(opened) => Ok(opening_at(text, opened)),
        None => Ok(None),
    }
}

/// Returns this byte of a text, if the opening of a heredoc is there.
fn opening_at(text: &[u8], opened: usize) -> Option<usize>
    ensures some { IfSome result
        (λ at. (at ≡ opened) × (spec.is_opening_text (drop opened text.now) ≡ true)) }
    ensures none { IfNone result (spec.is_opening_text (drop opened text.now) ≡ true → ⊥) }
{
    if is_opening_text(bytes_from(text, opened)) {
        Some(opened)
    } else {
        None
    }
}

/// Returns where the last `<` of a text begins that is where a value should, if the text has tokens.
fn last_less(alloc: Global, text: &[u8]) -> Result<Option<usize>, AllocError>
    ensures some { IfOk result (λ o. IfSome o (λ at. spec.IsLastLess text.now at)) }
    ensures only { IfOk result
        (λ o. IfSome o (λ at. (other : ℕ) → spec.IsLastLess text.now other → other ≡ at)) }
    ensures none { IfOk result (λ o. IfNone o ((at : ℕ) → spec.IsLastLess text.now at → ⊥)) }
{
    hcl_scan::laws::one_tokenization();
    hcl_scan::laws::no_tokenization_with_fault();
    match scan(alloc, text) {
        Ok(scanned) => Ok(place_of_less(&scanned)),
        Err(fault) => none_unless_memory(fault),
    }
}

/// Returns that there is nothing to say, or that memory ran out if that is the error.
pub fn none_unless_memory<T>(fault: ScanFault) -> Result<Option<T>, AllocError>
    ensures none { IfOk result (λ o. o ≡ None) }
    ensures memory { fault ≡ Memory → IsErr result }
{
    match fault {
        ScanFault::Memory => Err(AllocError),
        _ => Ok(None),
    }
}

/// Returns where the last `<` begins that is where a value should.
fn place_of_less(scanned: &Scanned<'_>) -> Option<usize>
    ensures some { IfSome result (λ at. (i : ℕ)
        × (spec.less_before scanned.now.pairs (length scanned.now.pairs) ≡ Some i)
        × (byte_offset scanned.now i ≡ at)) }
    ensures none { IfNone result
        (spec.less_before scanned.now.pairs (length scanned.now.pairs) ≡ None) }
{
    match less_before(scanned, scanned.len()) {
        Some(i) => Some(byte_of(scanned, i)),
        None => None,
    }
}

/// Returns the number of the last `<` before token `i` that is where a value should begin.
fn less_before(scanned: &Scanned<'_>, i: usize) -> Option<usize>
    ensures { result ≡ spec.less_before scanned.now.pairs i }
{
    let mut k = i;
    while k > 0 {
        k -= 1;
        if is_less_for_value(scanned, k) {
            return Some(k);
        }
    }
    None
}

/// Whether token `i` is a `<` where a value should begin.
fn is_less_for_value(scanned: &Scanned<'_>, i: usize) -> bool
    ensures { result ≡ spec.is_less_for_value scanned.now.pairs i }
{
    match kind_at(scanned, i) {
        Some(Kind::Less) => is_value_next(scanned, i),
        _ => false,
    }
}

/// Whether a value should begin with token `i`.
fn is_value_next(scanned: &Scanned<'_>, i: usize) -> bool
    ensures { result
        ≡ spec.begins_after scanned.now.pairs (last_before scanned.now.pairs true i) }
{
    match last_before(scanned, i, true) {
        Some(last) => is_before_value(scanned, last),
        None => false,
    }
}

/// Whether a value begins after token `i`.
fn is_before_value(scanned: &Scanned<'_>, i: usize) -> bool
    ensures { result ≡ spec.is_before_value (kind_of scanned.now.pairs i) }
{
    matches!(
        kind_at(scanned, i),
        Some(
            Kind::Equal
                | Kind::FatArrow
                | Kind::Comma
                | Kind::Colon
                | Kind::Question
                | Kind::OpenParen
                | Kind::OpenBracket
                | Kind::DoubleEqual
                | Kind::NotEqual
                | Kind::Plus
        )
    )
}

/// Whether a text begins as a heredoc does, with `<<` or `<`.
fn is_opening_text(text: &[u8]) -> bool
    ensures { result ≡ spec.is_opening_text text.now }
{
    if text.starts_with(b"<<") {
        is_before_marker(after_opening(text))
    } else {
        is_name_alone(after_single(text))
    }
}

/// Whether a name, or one in quotes, follows.
fn is_before_marker(text: &[u8]) -> bool
    ensures { result
        ≡ (begins_with_letter text.now || slice_index text.now 0 == byte "\"") }
{
    begins_with_letter(text) || is_quote(text)
}

/// Whether a text begins with a quote.
fn is_quote(text: &[u8]) -> bool
    ensures { result ≡ (slice_index text.now 0 == byte "\"") }
{
    match text {
        [first, ..] => *first == b'"',
        [] => false,
    }
}

/// Returns what follows the `<` or `<-` with which a text begins.
fn after_single(text: &[u8]) -> &[u8]
    ensures { result.now ≡ spec.after_single text.now }
{
    match text {
        [_, b'-', rest @ ..] => rest,
        [_, rest @ ..] => rest,
        [] => &[],
    }
}

/// Whether a name is all that the first line of a text has.
fn is_name_alone(text: &[u8]) -> bool
    ensures { result ≡ spec.is_name_alone text.now }
{
    let len = name_len(text);
    len != 0 && is_line_end(bytes_from(text, len))
}

fn is_name_byte(b: u8) -> bool
    ensures { result ≡ spec.is_name_byte b }
{
    b.is_ascii_alphanumeric() | (b == b'_')
}

/// Returns how many bytes of a name a text begins with.
fn name_len(text: &[u8]) -> usize
    ensures { result ≡ prefix_len spec.is_name_byte text.now }
{
    let mut at = 0usize;
    while at < text.len() && is_name_byte(text[at]) {
        at += 1;
    }
    at
}

/// Returns what is said of the opening with which a text begins.
pub fn opening_advice(text: &[u8]) -> Advice {
    if !text.starts_with(b"<<") {
        return Advice::HeredocSign;
    }
    match after_opening(text) {
        [b'"', ..] => Advice::HeredocQuotes,
        [b' ' | b'\t', ..] => Advice::HeredocSpace,
        _ => Advice::HeredocLine,
    }
}
