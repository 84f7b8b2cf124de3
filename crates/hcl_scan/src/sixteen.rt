//! Runs of bytes by tables, 16 bytes at a time. For speed alone: the plain forms test a byte at a
//! time, those with `_bytewise` in `bytes`, `ident` and `runs`, and `number_len`.

ghost use Rattle.std.specs.Prelude.{◌≡◌, ℕ, ◌+◌, ◌==◌, ◌<◌, ◌≤◌, not, true, false, length, slice_index};
ghost use Rattle.std.specs.Char.{is_ascii_digit};
ghost use Rattle.std.specs.List.{prefix_len};
ghost use Rattle.hcl_scan.specs.Inner.Flags.{flags_of, difference_at};
ghost use Rattle.hcl_scan.specs.Inner.LexemeStarts.{is_ascii_id_continue};
ghost use Rattle.hcl_scan.specs.Inner.Openings.{is_not_line_break};
ghost use Rattle.hcl_scan.specs.Inner.RunLength.{is_ordinary_inline, is_ordinary_quoted, is_ordinary_heredoc};

use std::simd::prelude::*;

// A byte continues an identifier where the number for its low four bits and that for its high four
// bits have a bit in common; each bit stands for the rows of ASCII with one pattern.
const ID_LOW: [u8; 16] = [26, 30, 30, 30, 30, 30, 30, 30, 30, 30, 28, 4, 4, 5, 4, 12];

const ID_HIGH: [u8; 16] = [0, 0, 1, 2, 4, 8, 4, 16, 0, 0, 0, 0, 0, 0, 0, 0];

// So with bytes that are text of a comment that ends at `*/`: neither `*` nor LF.
const INLINE_LOW: [u8; 16] = [3, 3, 3, 3, 3, 3, 3, 3, 3, 3, 2, 3, 3, 3, 3, 3];

const INLINE_HIGH: [u8; 16] = [1, 2, 1, 2, 2, 2, 2, 2, 2, 2, 2, 2, 2, 2, 2, 2];

// Of the digits of a number.
const DIGIT_LOW: [u8; 16] = [1, 1, 1, 1, 1, 1, 1, 1, 1, 1, 0, 0, 0, 0, 0, 0];

const DIGIT_HIGH: [u8; 16] = [0, 0, 0, 1, 0, 0, 0, 0, 0, 0, 0, 0, 0, 0, 0, 0];

// Bytes at which text stops. No two bytes of a set have the same low four bits, so one table is
// enough: at these bits it has the byte, or a number whose low four bits are others.
//
// Of a comment that ends with its line: LF and CR.
const COMMENT_STOPS: [u8; 16] = [1, 0, 0, 0, 0, 0, 0, 0, 0, 0, b'\n', 0, 0, b'\r', 0, 0];

// Of quoted text: `"`, `$`, `%`, LF, `\` and CR.
const QUOTED_STOPS: [u8; 16] = [
    1, 0, b'"', 0, b'$', b'%', 0, 0, 0, 0, b'\n', 0, b'\\', b'\r', 0, 0,
];

// Of a heredoc: `$`, `%` and LF.
const HEREDOC_STOPS: [u8; 16] = [1, 0, 0, 0, b'$', b'%', 0, 0, 0, 0, b'\n', 0, 0, 0, 0, 0];

/// Returns the bits that the two tables have in common at each byte.
#[inline(always)]
fn flags(v: u8x16, low: u8x16, high: u8x16) -> u8x16
    requires { (length v ≡ 16) × (length low ≡ 16) × (length high ≡ 16) }
    ensures { (length result ≡ 16)
        × ((i : ℕ) → i < 16 → slice_index result i ≡ flags_of low high (slice_index v i)) }
{
    low.swizzle_dyn(v & u8x16::splat(15)) & high.swizzle_dyn(v >> u8x16::splat(4))
}

/// Returns the number of lanes before the first that is 0.
#[inline(always)]
fn count_nonzero(v: u8x16) -> usize
    requires { length v ≡ 16 }
    ensures { result ≡ prefix_len (λ x. not (x == 0)) v }
{
    let zeros = v.simd_eq(u8x16::splat(0)).to_bitmask();
    if zeros == 0 {
        16
    } else {
        zeros.trailing_zeros() as usize
    }
}

/// Returns how many of the 16 bytes at a place have a flag in both tables, up to the first that has
/// none.
#[inline(always)]
fn count_flagged(text: &[u8], at: usize, low: u8x16, high: u8x16) -> usize
    requires within { at + 16 ≤ length text.now }
    requires tables { (length low ≡ 16) × (length high ≡ 16) }
    ensures within { result ≤ 16 }
    ensures flagged { (k : ℕ) → at ≤ k → k < at + result
        → (flags_of low high (slice_index text.now k) == 0) ≡ false }
    ensures stops { result < 16
        → (flags_of low high (slice_index text.now (at + result)) == 0) ≡ true }
{
    count_nonzero(flags(u8x16::from_slice(&text[at..]), low, high))
}

/// Returns the bits in which each byte differs from what the table has at its low four bits.
#[inline(always)]
fn differences(v: u8x16, table: u8x16) -> u8x16
    requires { (length v ≡ 16) × (length table ≡ 16) }
    ensures { (length result ≡ 16)
        × ((i : ℕ) → i < 16
        → slice_index result i ≡ difference_at table (slice_index v i)) }
{
    v ^ table.swizzle_dyn(v & u8x16::splat(15))
}

/// Returns how many of the 16 bytes at a place are not in the table, up to the first that is.
#[inline(always)]
fn count_unlisted(text: &[u8], at: usize, table: u8x16) -> usize
    requires within { at + 16 ≤ length text.now }
    requires table { length table ≡ 16 }
    ensures within { result ≤ 16 }
    ensures unlisted { (k : ℕ) → at ≤ k → k < at + result
        → (difference_at table (slice_index text.now k) == 0) ≡ false }
    ensures stops { result < 16
        → (difference_at table (slice_index text.now (at + result)) == 0) ≡ true }
{
    count_nonzero(differences(u8x16::from_slice(&text[at..]), table))
}

/// Returns how many of the 16 bytes at a place continue an identifier, up to the first that does
/// not.
#[inline(always)]
pub fn count_id_bytes(text: &[u8], at: usize) -> usize
    requires { at + 16 ≤ length text.now }
    ensures within { result ≤ 16 }
    ensures id { (k : ℕ) → at ≤ k → k < at + result
        → is_ascii_id_continue (slice_index text.now k) ≡ true }
    ensures stops { result < 16
        → is_ascii_id_continue (slice_index text.now (at + result)) ≡ false }
{
    let low = u8x16::from_array(ID_LOW);
    let high = u8x16::from_array(ID_HIGH);
    count_flagged(text, at, low, high)
}

/// Returns how many of the 16 bytes at a place are neither LF nor CR, up to one that is.
#[inline(always)]
pub fn count_comment_bytes(text: &[u8], at: usize) -> usize
    requires { at + 16 ≤ length text.now }
    ensures within { result ≤ 16 }
    ensures ordinary { (k : ℕ) → at ≤ k → k < at + result
        → is_not_line_break (slice_index text.now k) ≡ true }
{
    let stops = u8x16::from_array(COMMENT_STOPS);
    count_unlisted(text, at, stops)
}

/// Returns how many of the 16 bytes at a place are neither `*` nor LF, up to one that is.
#[inline(always)]
pub fn count_inline_bytes(text: &[u8], at: usize) -> usize
    requires { at + 16 ≤ length text.now }
    ensures within { result ≤ 16 }
    ensures ordinary { (k : ℕ) → at ≤ k → k < at + result
        → is_ordinary_inline (slice_index text.now k) ≡ true }
{
    let low = u8x16::from_array(INLINE_LOW);
    let high = u8x16::from_array(INLINE_HIGH);
    count_flagged(text, at, low, high)
}

/// Returns how many of the 16 bytes at a place are neither `"`, `$`, `%`, `\`, LF nor CR, up to one
/// that is.
#[inline(always)]
pub fn count_quoted_bytes(text: &[u8], at: usize) -> usize
    requires { at + 16 ≤ length text.now }
    ensures within { result ≤ 16 }
    ensures ordinary { (k : ℕ) → at ≤ k → k < at + result
        → is_ordinary_quoted (slice_index text.now k) ≡ true }
{
    let stops = u8x16::from_array(QUOTED_STOPS);
    count_unlisted(text, at, stops)
}

/// Returns how many of the 16 bytes at a place are neither `$`, `%` nor LF, up to one that is.
#[inline(always)]
pub fn count_heredoc_bytes(text: &[u8], at: usize) -> usize
    requires { at + 16 ≤ length text.now }
    ensures within { result ≤ 16 }
    ensures ordinary { (k : ℕ) → at ≤ k → k < at + result
        → is_ordinary_heredoc (slice_index text.now k) ≡ true }
{
    let stops = u8x16::from_array(HEREDOC_STOPS);
    count_unlisted(text, at, stops)
}

/// Returns how many of the 16 bytes at a place are digits, up to the first that is not.
#[inline(always)]
pub fn count_digits(text: &[u8], at: usize) -> usize
    requires { at + 16 ≤ length text.now }
    ensures within { result ≤ 16 }
    ensures digits { (k : ℕ) → at ≤ k → k < at + result
        → is_ascii_digit (slice_index text.now k) ≡ true }
{
    let low = u8x16::from_array(DIGIT_LOW);
    let high = u8x16::from_array(DIGIT_HIGH);
    count_flagged(text, at, low, high)
}

/// Returns how many of the 16 bytes at a place are spaces, up to the first that is not.
#[inline(always)]
pub fn count_spaces(text: &[u8], at: usize) -> usize
    requires { at + 16 ≤ length text.now }
    ensures within { result ≤ 16 }
    ensures spaces { (k : ℕ) → at ≤ k → k < at + result → slice_index text.now k ≡ 32 }
{
    let others = u8x16::from_slice(&text[at..])
        .simd_ne(u8x16::splat(b' '))
        .to_bitmask();
    if others == 0 {
        16
    } else {
        others.trailing_zeros() as usize
    }
}
