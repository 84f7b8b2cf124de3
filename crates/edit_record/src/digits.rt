//! Numbers in decimal, a few digits at once, for speed alone.
ghost use Rattle.std.specs.Prelude.{◌≡◌, ◌+◌, ◌++◌, ◌<◌, ◌≤◌, [], ◌∷◌, length, decimal, vec_len};
ghost use Rattle.std.specs.Prelude.{vec_capacity};
ghost use Rattle.edit_record.specs.Inner.Digits.{two_digits};
ghost use Rattle.edit_record.specs.Text.{number_text};

use itoa::Buffer;

/// The least number of eight digits.
pub(crate) const EIGHT_DIGITS: usize = 10_000_000;

/// The most digits of a number that is written at once.
pub(crate) const MOST_DIGITS: usize = 8;

/// The least number of nine digits, which are more.
pub(crate) const NINE_DIGITS: usize = 100_000_000;

/// Returns the number of decimal digits.
#[inline(always)]
pub(crate) fn digit_count(number: usize) -> usize
    ensures is { result ≡ length (decimal number) }
    ensures short { result ≤ 40 }
{
    if number < 10_000 {
        few_digits(number)
    } else if number < NINE_DIGITS {
        few_digits(number / 10_000) + 4
    } else {
        Buffer::new().format(number).len()
    }
}

/// Returns the number of digits of a number with two of them at most.
#[inline(always)]
pub(crate) fn short_count(number: usize) -> usize
    requires { number < 100 }
    ensures is { result ≡ length (decimal number) }
    ensures short { result ≤ 2 }
{
    if number < 10 { 1 } else { 2 }
}

/// Returns the number of digits of a number with four of them at most.
#[inline(always)]
fn few_digits(number: usize) -> usize
    requires { number < 10000 }
    ensures is { result ≡ length (decimal number) }
    ensures short { result ≤ 4 }
{
    if number < 10 {
        1
    } else if number < 100 {
        2
    } else if number < 1000 {
        3
    } else {
        4
    }
}

/// Pushes a digit.
#[inline(always)]
fn push_digit(out: &mut Vec<u8>, digit: usize)
    requires small { digit < 10 }
    requires spare { vec_len out.old < vec_capacity out.old }
    ensures text { out.new.items ≡ out.old.items ++ (48 + digit) ∷ [] }
    ensures len { vec_len out.new ≡ vec_len out.old + 1 }
    ensures capacity { vec_capacity out.new ≡ vec_capacity out.old }
{
    out.push_reserved(b'0' + digit as u8);
}

/// The two digits of each number below 100, one number after another.
static PAIRS: [u8; 200] = *b"\
    00010203040506070809\
    10111213141516171819\
    20212223242526272829\
    30313233343536373839\
    40414243444546474849\
    50515253545556575859\
    60616263646566676869\
    70717273747576777879\
    80818283848586878889\
    90919293949596979899";

/// Pushes two digits of a number, the first of which may be 0.
#[inline(always)]
fn push_pair(out: &mut Vec<u8>, number: usize)
    requires small { number < 100 }
    requires spare { vec_len out.old + 2 ≤ vec_capacity out.old }
    ensures text { out.new.items ≡ out.old.items ++ two_digits number }
    ensures len { vec_len out.new ≡ vec_len out.old + 2 }
    ensures capacity { vec_capacity out.new ≡ vec_capacity out.old }
{
    out.push_reserved(PAIRS[number * 2]);
    out.push_reserved(PAIRS[number * 2 + 1]);
}

/// Pushes a number with two digits at most.
#[inline(always)]
pub(crate) fn push_short(out: &mut Vec<u8>, number: usize)
    requires small { number < 100 }
    requires spare { vec_len out.old + 2 ≤ vec_capacity out.old }
    ensures text { out.new.items ≡ out.old.items ++ decimal number }
    ensures len { vec_len out.new ≤ vec_len out.old + 2 }
    ensures capacity { vec_capacity out.new ≡ vec_capacity out.old }
{
    if number < 10 {
        push_digit(out, number);
    } else {
        push_pair(out, number);
    }
}

/// Pushes a number with four digits at most.
#[inline(always)]
fn push_few(out: &mut Vec<u8>, number: usize)
    requires small { number < 10000 }
    requires spare { vec_len out.old + 4 ≤ vec_capacity out.old }
    ensures text { out.new.items ≡ out.old.items ++ decimal number }
    ensures len { vec_len out.new ≤ vec_len out.old + 4 }
    ensures capacity { vec_capacity out.new ≡ vec_capacity out.old }
{
    if number < 100 {
        push_short(out, number);
    } else {
        push_short(out, number / 100);
        push_pair(out, number % 100);
    }
}

/// Pushes a number with eight digits at most.
#[inline(always)]
pub(crate) fn push_number(out: &mut Vec<u8>, number: usize)
    requires small { number < NINE_DIGITS }
    requires spare { vec_len out.old + MOST_DIGITS ≤ vec_capacity out.old }
    ensures text { out.new.items ≡ out.old.items ++ decimal number }
    ensures len { vec_len out.new ≤ vec_len out.old + MOST_DIGITS }
    ensures capacity { vec_capacity out.new ≡ vec_capacity out.old }
{
    if number < 10_000 {
        push_few(out, number);
    } else {
        let last = number % 10_000;
        push_few(out, number / 10_000);
        push_pair(out, last / 100);
        push_pair(out, last % 100);
    }
}

/// Pushes a number with eight digits at most, and the byte that ends it.
#[inline(always)]
pub(crate) fn push_number_text(out: &mut Vec<u8>, number: usize, stop: u8)
    requires small { number < NINE_DIGITS }
    requires spare { vec_len out.old + MOST_DIGITS < vec_capacity out.old }
    ensures text { out.new.items ≡ out.old.items ++ number_text stop number }
    ensures len { vec_len out.new ≤ vec_len out.old + MOST_DIGITS + 1 }
    ensures capacity { vec_capacity out.new ≡ vec_capacity out.old }
{
    push_number(out, number);
    out.push_reserved(stop);
}
