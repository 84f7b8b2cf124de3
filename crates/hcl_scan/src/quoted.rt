//! The end of quoted text. For speed alone: the plain form is `runs::run_end` over a `QuoteUnit`.

ghost use Rattle.std.specs.Prelude.{◌≡◌, ◌==◌, ◌||◌, ◌+◌, ◌≤◌, true, false, length, drop, slice_index};
ghost use Rattle.hcl_scan.specs.Lexeme.{quote_unit};
ghost use Rattle.hcl_scan.specs.Inner.LexemeStarts.{is_at_opening};
ghost use Rattle.hcl_scan.specs.Inner.RunLength.{run_length};

use crate::bytes::byte_at;
use crate::heredoc::is_at_opening;
use crate::runs::{QuoteUnit, Unit, ordinary_end};

/// Whether a `"` or the opening of a template sequence is at the place, where quoted text ends.
#[inline(always)]
pub fn is_at_end(text: &[u8], at: usize) -> bool
    requires { at ≤ length text.now }
    ensures value { result
        ≡ ((slice_index (drop at text.now) 0 == 34) || is_at_opening (drop at text.now)) }
    ensures unit { result ≡ true → quote_unit false (drop at text.now) ≡ 0 }
{
    byte_at(text, at) == b'"' || is_at_opening(text, at)
}

/// Skips bytes that are units of quoted text whatever follows them, up to 16, and returns where
/// they end.
#[inline(always)]
fn skip_ordinary(text: &[u8], from: usize) -> usize
    requires { from ≤ length text.now }
    ensures run { result + run_length quote_unit false (drop result text.now)
        ≡ from + run_length quote_unit false (drop from text.now) }
    ensures within { (from ≤ result) × (result ≤ length text.now) }
{
    if from + 16 <= text.len() {
        from + QuoteUnit.count_ordinary_of_16(text, from)
    } else {
        from
    }
}

/// Skips bytes that are units of quoted text whatever follows them, after another unit, and returns
/// where they end.
///
/// Two escapes most often have few bytes between them, so after one no more than 16 are looked at.
#[inline(always)]
fn skip_ordinary_after(text: &[u8], from: usize, is_after_escape: bool) -> usize
    requires { from ≤ length text.now }
    ensures run { result + run_length quote_unit false (drop result text.now)
        ≡ from + run_length quote_unit false (drop from text.now) }
    ensures within { (from ≤ result) × (result ≤ length text.now) }
{
    if is_after_escape {
        skip_ordinary(text, from)
    } else {
        ordinary_end(&QuoteUnit, text, from)
    }
}

/// Returns the end of the longest run of units of quoted text from a place on.
#[inline(never)]
pub fn rest_end(text: &[u8], from: usize) -> usize
    requires { from ≤ length text.now }
    ensures value { result ≡ from + run_length quote_unit false (drop from text.now) }
    ensures within { result ≤ length text.now }
{
    let mut at = ordinary_end(&QuoteUnit, text, from);
    while at < text.len() {
        let len = QuoteUnit.len_at(text, at, false);
        if len == 0 {
            return at;
        }
        at = skip_ordinary_after(text, at + len, text[at] == b'\\');
    }
    at
}

/// Returns the end of the longest run of units of quoted text from a place on.
#[inline(always)]
fn quoted_end(text: &[u8], from: usize) -> usize
    requires { from ≤ length text.now }
    ensures value { result ≡ from + run_length quote_unit false (drop from text.now) }
    ensures within { result ≤ length text.now }
{
    let at = skip_ordinary(text, from);
    if is_at_end(text, at) {
        at
    } else {
        rest_end(text, at)
    }
}

/// Returns the number of bytes of the longest run of units of quoted text at a place.
///
/// Most such texts are short, so the first 16 bytes are looked at before a call.
#[inline(always)]
pub fn quoted_len(text: &[u8], at: usize) -> usize
    requires { at ≤ length text.now }
    ensures value { result ≡ run_length quote_unit false (drop at text.now) }
    ensures within { at + result ≤ length text.now }
{
    quoted_end(text, at) - at
}
