//! Whether tokens of two texts are the same, by their bytes and their places.

ghost use Rattle.std.specs.Prelude.{◌≡◌, ◌≤◌, ◌+◌, ◌-◌, ◌*◌, ◌%◌, ◌^◌, ◌↔◌, [], IsTrue, length};
ghost use Rattle.hcl_token.specs.declared.limit.TheConstants.{MAX_TEXT};
ghost use Rattle.hcl_token.specs.Pairs.{IsTokenRun, token_run};
ghost use Rattle.hcl_token.specs.Inner.SameTokens.{AreWordsShiftedBy, IsWordShiftedBy};
ghost use Rattle.hcl_token.specs.Tokens.{whole_text};

use crate::line_column::slice;
use crate::span::{STEP, Span};

/// Returns the distance, modulo 2^64, of the words of two tokens of one kind, where one lies as far
/// after byte `to` of its text as the other after byte `from` of its own: there their first tokens
/// start.
fn shift_of(to: u32, from: u32) -> u64
    requires to { to ≤ MAX_TEXT }
    requires from { from ≤ MAX_TEXT }
    ensures { result ≡ (4294967552 * to + 2 ^ 64 - 4294967552 * from) % 2 ^ 64 }
{
    (STEP * u64::from(to)).wrapping_sub(STEP * u64::from(from))
}

/// Whether the word of a token is `shift` greater than that of another, modulo 2^64.
fn is_shifted_by(one: Span, other: Span, shift: u64) -> bool
    ensures { IsTrue result ↔ IsWordShiftedBy shift one other }
{
    one.word_distance(other) == shift
}

/// Whether the word of each token is `shift` greater than that of the other one of its number,
/// modulo 2^64.
fn are_shifted_by(tokens: &[Span], others: &[Span], shift: u64) -> bool
    requires { length tokens.now ≡ length others.now }
    ensures { IsTrue result ↔ AreWordsShiftedBy shift tokens.now others.now }
{
    // no early end: the processor does several tokens at once
    let mut are_shifted = true;
    for k in 0..tokens.len() {
        are_shifted &= is_shifted_by(tokens[k], others[k], shift);
    }
    are_shifted
}

/// Returns the bytes of tokens and of the gaps between them.
fn token_bytes<'t>(text: &'t [u8], tokens: &[Span]) -> &'t [u8]
    requires { IsTokenRun text.now tokens.now }
    ensures { result.now ≡ whole_text (token_run text.now tokens.now) [] }
{
    slice(text, tokens[0].start(), tokens[tokens.len() - 1].stop())
}

/// Whether two pieces of text are equal.
fn same_bytes(bytes: &[u8], others: &[u8]) -> bool
    ensures { IsTrue result ↔ (bytes.now ≡ others.now) }
{
    bytes == others
}

/// Whether tokens are the same, with the same gaps between them.
///
/// All their bytes are compared at once: then kinds and places are left, which are in one word for
/// each token.
pub fn are_same_tokens(text: &[u8], tokens: &[Span], other: &[u8], others: &[Span]) -> bool
    requires self_run { IsTokenRun text.now tokens.now }
    requires other_run { IsTokenRun other.now others.now }
    requires number { length tokens.now ≡ length others.now }
    ensures { IsTrue result ↔ (token_run text.now tokens.now ≡ token_run other.now others.now) }
{
    if !same_bytes(token_bytes(text, tokens), token_bytes(other, others)) {
        return false;
    }
    are_shifted_by(
        tokens,
        others,
        shift_of(tokens[0].start(), others[0].start()),
    )
}
