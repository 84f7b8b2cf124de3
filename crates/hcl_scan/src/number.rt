//! Numbers. `short_number_len` is for speed alone: it returns what `number_len` does.

ghost use Rattle.std.specs.Prelude.{◌≡◌, ◌==◌, ◌&&◌, ◌+◌, ◌≤◌, not, length, drop};
ghost use Rattle.std.specs.Char.{is_ascii_digit};
ghost use Rattle.hcl_scan.specs.Inner.NextToken.{is_sign, is_exponent_letter, fraction_length};
ghost use Rattle.hcl_scan.specs.Inner.NextToken.{exponent_length, number_length};

use crate::bytes::{byte_at, digits_end};
use crate::sixteen::count_digits;

/// Returns the number of bytes of the `.` and the digits at a place, 0 if there are none.
fn fraction_len(text: &[u8], at: usize) -> usize
    requires { at ≤ length text.now }
    ensures value { result ≡ fraction_length (drop at text.now) }
    ensures within { at + result ≤ length text.now }
{
    if byte_at(text, at) == b'.' && byte_at(text, at + 1).is_ascii_digit() {
        digits_end(text, at + 1) - at
    } else {
        0
    }
}

/// Whether a byte is `+` or `-`.
fn is_sign(b: u8) -> bool
    ensures { result ≡ is_sign b }
{
    (b == b'+') | (b == b'-')
}

/// Whether a byte is `e` or `E`.
fn is_exponent_letter(b: u8) -> bool
    ensures { result ≡ is_exponent_letter b }
{
    (b == b'e') | (b == b'E')
}

/// Returns the number of bytes of the exponent at a place, 0 if there is none.
fn exponent_len(text: &[u8], at: usize) -> usize
    requires { at ≤ length text.now }
    ensures value { result ≡ exponent_length (drop at text.now) }
    ensures within { at + result ≤ length text.now }
{
    if !is_exponent_letter(byte_at(text, at)) {
        return 0;
    }
    let second = byte_at(text, at + 1);
    if second.is_ascii_digit() {
        digits_end(text, at + 1) - at
    } else if is_sign(second) && byte_at(text, at + 2).is_ascii_digit() {
        digits_end(text, at + 2) - at
    } else {
        0
    }
}

/// Returns the number of bytes of the number at a place, 0 if there is none.
///
/// HCL native syntax specification, Numeric Literals.
#[inline(never)]
pub fn number_len(text: &[u8], at: usize) -> usize
    requires { at ≤ length text.now }
    ensures value { result ≡ number_length (drop at text.now) }
    ensures within { at + result ≤ length text.now }
{
    let point = digits_end(text, at);
    let letter = point + fraction_len(text, point);
    letter + exponent_len(text, letter) - at
}

/// Whether a byte continues no number: it is neither a digit, `.`, `e` nor `E`.
fn ends_number(b: u8) -> bool
    ensures { result
        ≡ (not (is_ascii_digit b) && (not (b == 46) && not (is_exponent_letter b))) }
{
    !(b.is_ascii_digit() | ((b == b'.') | is_exponent_letter(b)))
}

/// Returns what `number_len` does, without a call if the number is whole and short, as most are.
#[inline(always)]
pub fn short_number_len(text: &[u8], at: usize) -> usize
    requires { at ≤ length text.now }
    ensures value { result ≡ number_length (drop at text.now) }
    ensures within { at + result ≤ length text.now }
{
    if at + 16 <= text.len() {
        let len = count_digits(text, at);
        if ends_number(byte_at(text, at + len)) {
            return len;
        }
    }
    number_len(text, at)
}
