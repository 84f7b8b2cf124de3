//! The tokens of a whole text.

ghost use Rattle.std.specs.Prelude.{◌≡◌, ◌+◌, ◌<◌, ◌≤◌, ◌++◌, ◌∷◌, length, drop, vec_len, vec_capacity, IfOk};
ghost use Rattle.std.specs.Prelude.{IfErr, IsOk, OnOk, IsTrue, ◌↔◌, [], ◌⊎◌};
ghost use Rattle.hcl_token.specs.Pairs.{pairs_of, InOrder};
ghost use Rattle.hcl_scan.specs.Characters.{is_prefix_of};
ghost use Rattle.hcl_scan.specs.Tokenization.{IsTokenization, MAX_TEXT, byte_order_mark};
ghost use Rattle.hcl_scan.specs.declared.fault.ScanFault.TheVariants.{Memory};
ghost use Rattle.hcl_scan.specs.Fault.{EndsInFault, token_fault, fault_at};
ghost use Rattle.hcl_scan.specs.ScanResult.{IsScanFault};
ghost use Rattle.hcl_scan.specs.Inner.Openings.{mode_view};
ghost use Rattle.hcl_scan.specs.Inner.MarkToken.{mark_tokens, mark_length, token_at};

use crate::bytes::{byte_at, slice};
use crate::fault::ScanFault;
use crate::mode::{
    Mode, Opening, Region, can_change_openings, innermost_template_start, mode_in, update_openings,
};
use crate::plain::{PlainTokens, push_plain_tokens, put};
use hcl_token::{Kind, MAX_TEXT, Span};
use std::alloc::{AllocError, Global};

/// Returns the error outside of literal text, at a place where no token begins.
fn token_fault(text: &[u8], at: usize) -> ScanFault
    requires { at ≤ length text.now }
    ensures { result ≡ token_fault at (drop at text.now) }
{
    if byte_at(text, at) == b'/' && byte_at(text, at + 1) == b'*' {
        ScanFault::OpenComment { at }
    } else {
        ScanFault::BadCharacter { at }
    }
}

/// Returns the error at a place where no token begins, in a template that begins at `opened`.
fn fault_at(text: &[u8], mode: Mode<'_>, opened: usize, at: usize) -> ScanFault
    requires { at ≤ length text.now }
    ensures { result ≡ fault_at (mode_view mode.entry) opened at (drop at text.now) }
{
    match mode {
        Mode::Quoted => {
            if byte_at(text, at) == b'\\' {
                ScanFault::BadEscape { at }
            } else {
                ScanFault::OpenString { at: opened }
            }
        }
        Mode::Heredoc {
            marker: _,
            at_line_start: _,
        } => ScanFault::OpenHeredoc { at: opened },
        Mode::Expression => token_fault(text, at),
        _ => {
            if at == text.len() {
                ScanFault::OpenTemplate { at: opened }
            } else {
                token_fault(text, at)
            }
        }
    }
}

/// Whether the tokens are those of the whole text: they stop at its end, and no opening is open.
fn is_done(openings: &[Opening<'_>], start: usize, len: usize) -> bool
    ensures { IsTrue result ↔ ((start ≡ len) × (openings.now ≡ [])) }
{
    // for the proof: a function of its own, so that each branch after it has one fact
    start == len && openings.is_empty()
}

/// Whether the text begins with a byte order mark.
fn starts_with_mark(text: &[u8]) -> bool
    ensures { result ≡ is_prefix_of byte_order_mark text.now }
{
    byte_at(text, 0) == 0xef && byte_at(text, 1) == 0xbb && byte_at(text, 2) == 0xbf
}

/// Adds the byte order mark, if the text begins with one, as the first token, and returns the
/// number of its bytes, else 0.
///
/// # Errors
///
/// Returns `AllocError` if memory runs out.
fn push_mark(tokens: &mut Vec<Span>, text: &[u8]) -> Result<usize, AllocError>
    ensures tokens { OnOk result (tokens.new.items ≡ tokens.old.items ++ mark_tokens text.now) }
    ensures length { IfOk result (λ at. at ≡ mark_length text.now) }
{
    if !starts_with_mark(text) {
        return Ok(0);
    }
    tokens.push(Span::new(0, 3, Kind::Mark))?;
    Ok(3)
}

/// Returns a list with memory for one more token.
///
/// # Errors
///
/// Returns `AllocError` if memory runs out.
#[inline(never)]
fn reserve_one(buffer: Vec<Span>) -> Result<Vec<Span>, AllocError>
    ensures items { IfOk result (λ tokens. tokens.items ≡ buffer.items) }
    ensures reserved { IfOk result (λ tokens. vec_len tokens < vec_capacity tokens) }
{
    let mut tokens = buffer;
    tokens.reserve(1)?;
    Ok(tokens)
}

/// Adds a token.
///
/// The list is handed on by value, so that it is in registers where it need not grow.
///
/// # Errors
///
/// Returns `AllocError` if memory runs out.
#[inline(always)]
fn push_token(
    buffer: Vec<Span>,
    start: usize,
    stop: usize,
    kind: Kind,
) -> Result<Vec<Span>, AllocError>
    requires start { start < MAX_TEXT }
    requires stop { stop ≤ MAX_TEXT }
    ensures { IfOk result (λ tokens. tokens.items ≡ buffer.items ++ token_at start stop kind ∷ []) }
{
    let mut tokens = buffer;
    // the token is added in both branches, so that a list with spare capacity stays in registers
    if tokens.len() == tokens.capacity() {
        tokens = reserve_one(tokens)?;
        put(&mut tokens, start, stop, kind);
    } else {
        put(&mut tokens, start, stop, kind);
    }
    Ok(tokens)
}

/// Returns the tokens of a text, in a buffer, and where its last gap begins, in bytes from 0.
///
/// # Errors
///
/// The text's own error, or `Memory`.
fn tokenize_str(
    alloc: Global,
    buffer: Vec<Span>,
    text: &str,
) -> Result<(Vec<Span>, usize), ScanFault>
    requires { length text.now ≤ MAX_TEXT }
    ensures tokenization { IfOk result
        (λ r. IsTokenization text.now (pairs_of text.now r.0.items) (drop r.1 text.now)) }
    ensures order { IfOk result (λ r. InOrder 0 r.0.items r.1 × (r.1 ≤ length text.now)) }
    ensures fault { IfErr result (λ e. (e ≡ Memory) ⊎ EndsInFault text.now e) }
{
    let bytes = text.as_bytes();
    let mut tokens = buffer;
    tokens.clear();
    tokens.reserve(text.len() / 8)?;
    let mut openings: Vec<Opening<'_>> = Vec::new(alloc);
    let mut at = push_mark(&mut tokens, bytes)?;
    let mut region = Region::Expression;
    // for the proof: the label names the loop's invariant
    'scan: loop {
        let PlainTokens {
            tokens: list,
            at: from,
            next,
            text_len,
        } = push_plain_tokens(tokens, text, at, region, &openings);
        tokens = list;
        at = from;
        let start = next.start;
        match next.token {
            None => {
                if is_done(&openings, start, bytes.len()) {
                    return Ok((tokens, at));
                }
                let mode = mode_in(region, &openings);
                let opened = innermost_template_start(&openings);
                return Err(fault_at(bytes, mode, opened, start));
            }
            Some((kind, len)) => {
                at = start + len;
                tokens = push_token(tokens, start, at, kind)?;
                if can_change_openings(kind) {
                    let spelling = slice(bytes, start, at);
                    update_openings(&mut openings, &mut region, kind, spelling, start)?;
                    if text_len > 0 {
                        tokens = push_token(tokens, at, at + text_len, Kind::QuoteLit)?;
                        at += text_len;
                    }
                }
            }
        }
    }
}

/// Returns a list without its elements.
fn cleared(buffer: Vec<Span>) -> Vec<Span>
    ensures { result.items ≡ [] }
{
    let mut tokens = buffer;
    tokens.clear();
    tokens
}

/// Returns the tokens of a text, in the memory of a list, and where its last gap begins, in bytes
/// from 0. Nothing is allocated for a text that is empty, too long or not UTF-8.
///
/// # Errors
///
/// The text's own error, or `Memory`.
pub fn tokenize(
    alloc: Global,
    buffer: Vec<Span>,
    text: &[u8],
) -> Result<(Vec<Span>, usize), ScanFault>
    ensures tokenization { IfOk result
        (λ r. IsTokenization text.now (pairs_of text.now r.0.items) (drop r.1 text.now)) }
    ensures order { IfOk result (λ r. InOrder 0 r.0.items r.1 × (r.1 ≤ length text.now)) }
    ensures fault { IfErr result (λ e. IsScanFault text.now e) }
    ensures empty { text.now ≡ [] → IsOk result }
{
    if text.is_empty() {
        return Ok((cleared(buffer), 0));
    }
    if text.len() > MAX_TEXT {
        return Err(ScanFault::TooLong);
    }
    match simdutf8::compat::from_utf8(text) {
        Err(e) => Err(ScanFault::NotUtf8 {
            at: e.valid_up_to(),
        }),
        Ok(text) => tokenize_str(alloc, buffer, text),
    }
}
