//! Bytes of a text, and the pieces of it that single bytes delimit. A `_bytewise`
//! function is the plain form; what takes 16 bytes at a time before it is for speed alone.

ghost use Rattle.std.specs.Prelude.{◌≡◌, ◌+◌, ◌<◌, ◌≤◌, length, drop, slice_index, slice_range};
ghost use Rattle.std.specs.List.{prefix_len};
ghost use Rattle.std.specs.Char.{is_ascii_digit};
ghost use Rattle.hcl_scan.specs.Characters.{is_whitespace, is_at_line_end};
ghost use Rattle.hcl_scan.specs.Inner.LexemeStarts.{is_letter, is_ascii_id_continue};
ghost use Rattle.hcl_scan.specs.Inner.RunLength.{is_ordinary_quoted};

use crate::sixteen::count_spaces;

/// Flag of a byte that continues an identifier.
const ID_CONTINUE: u8 = 1;

/// Flag of a byte that begins an identifier.
const LETTER: u8 = 2;

/// Flag of a byte that is a unit of quoted text whatever follows it.
const ORDINARY: u8 = 4;

// For each byte a digit, whose low three bits are the flags above.
static CLASS: [u8; 256] = *b"\
    44444444440440444444444444444444\
    44040044444445445555555555444444\
    47777777777777777777777777740447\
    47777777777777777777777777744444\
    44444444444444444444444444444444\
    44444444444444444444444444444444\
    44444444444444444444444444444444\
    44444444444444444444444444444444";

/// Whether a byte is an ASCII letter or `_`.
pub fn is_letter(b: u8) -> bool
    ensures { result ≡ is_letter b }
{
    CLASS[b as usize] & LETTER != 0
}

/// Whether a byte is an ASCII letter or digit, `_` or `-`.
pub fn is_ascii_id_continue(b: u8) -> bool
    ensures { result ≡ is_ascii_id_continue b }
{
    CLASS[b as usize] & ID_CONTINUE != 0
}

/// Whether a byte is neither `"`, `$`, `%`, `\`, LF nor CR: a unit of quoted text whatever follows
/// it.
pub fn is_ordinary_quoted(b: u8) -> bool
    ensures { result ≡ is_ordinary_quoted b }
{
    CLASS[b as usize] & ORDINARY != 0
}

/// Returns the byte at a place, 0 at the end and after it.
pub fn byte_at(text: &[u8], at: usize) -> u8
    ensures value { result ≡ slice_index text.now at }
    ensures within { 0 < result → at < length text.now }
{
    if at < text.len() { text[at] } else { 0 }
}

/// Whether an LF or a CR LF is at the place.
pub fn is_at_line_end(text: &[u8], at: usize) -> bool
    requires { at ≤ length text.now }
    ensures { result ≡ is_at_line_end (drop at text.now) }
{
    let b = byte_at(text, at);
    b == b'\n' || (b == b'\r' && byte_at(text, at + 1) == b'\n')
}

/// Returns the bytes of a text between two places.
pub fn slice(text: &[u8], from: usize, to: usize) -> &[u8]
    requires ordered { from ≤ to }
    requires within { to ≤ length text.now }
    ensures { result.now ≡ slice_range text.now from to }
{
    &text[from..to]
}

/// Whether a byte is a space or a tab.
///
/// HCL native syntax specification, Comments and Whitespace.
fn is_whitespace(b: u8) -> bool
    ensures { result ≡ is_whitespace b }
{
    (b == b' ') | (b == b'\t')
}

/// Returns the end of the spaces and tabs from a place on.
pub fn whitespace_end(text: &[u8], from: usize) -> usize
    requires { from ≤ length text.now }
    ensures value { result ≡ from + prefix_len is_whitespace (drop from text.now) }
    ensures within { result ≤ length text.now }
{
    let mut at = from;
    while at < text.len() && is_whitespace(text[at]) {
        at += 1;
    }
    at
}

/// Returns the end of the spaces and tabs from a place on and the byte there, 0 at the end.
///
/// Most tokens have no whitespace before them, so the first byte is compared before the loop.
pub fn skip_whitespace(text: &[u8], from: usize) -> (usize, u8)
    requires { from ≤ length text.now }
    ensures value { result.0 ≡ from + prefix_len is_whitespace (drop from text.now) }
    ensures within { result.0 ≤ length text.now }
    ensures byte { result.1 ≡ slice_index text.now result.0 }
    ensures byte_within { 0 < result.1 → result.0 < length text.now }
{
    let first = byte_at(text, from);
    if is_whitespace(first) {
        skip_more_whitespace(text, from + 1)
    } else {
        (from, first)
    }
}

/// Returns what `skip_whitespace` does, after the first space or tab. Most often there is one
/// alone.
fn skip_more_whitespace(text: &[u8], from: usize) -> (usize, u8)
    requires { from ≤ length text.now }
    ensures value { result.0 ≡ from + prefix_len is_whitespace (drop from text.now) }
    ensures within { result.0 ≤ length text.now }
    ensures byte { result.1 ≡ slice_index text.now result.0 }
    ensures byte_within { 0 < result.1 → result.0 < length text.now }
{
    let first = byte_at(text, from);
    if is_whitespace(first) {
        skip_indentation(text, from + 1)
    } else {
        (from, first)
    }
}

/// Returns what `skip_whitespace` does, after two spaces or tabs. Many lines have no more of them.
fn skip_indentation(text: &[u8], from: usize) -> (usize, u8)
    requires { from ≤ length text.now }
    ensures value { result.0 ≡ from + prefix_len is_whitespace (drop from text.now) }
    ensures within { result.0 ≤ length text.now }
    ensures byte { result.1 ≡ slice_index text.now result.0 }
    ensures byte_within { 0 < result.1 → result.0 < length text.now }
{
    let first = byte_at(text, from);
    if is_whitespace(first) {
        skip_whitespace_bytewise(text, skip_spaces(text, from))
    } else {
        (from, first)
    }
}

/// Skips spaces from a place on, up to 16.
fn skip_spaces(text: &[u8], from: usize) -> usize
    requires { from ≤ length text.now }
    ensures value { result + prefix_len is_whitespace (drop result text.now)
        ≡ from + prefix_len is_whitespace (drop from text.now) }
    ensures within { result ≤ length text.now }
{
    if from + 16 <= text.len() {
        from + count_spaces(text, from)
    } else {
        from
    }
}

/// Returns what `skip_whitespace` does, byte by byte.
fn skip_whitespace_bytewise(text: &[u8], from: usize) -> (usize, u8)
    requires { from ≤ length text.now }
    ensures value { result.0 ≡ from + prefix_len is_whitespace (drop from text.now) }
    ensures within { result.0 ≤ length text.now }
    ensures byte { result.1 ≡ slice_index text.now result.0 }
    ensures byte_within { 0 < result.1 → result.0 < length text.now }
{
    let mut at = from;
    let mut first = byte_at(text, from);
    while is_whitespace(first) {
        at += 1;
        first = byte_at(text, at);
    }
    (at, first)
}

/// Returns the end of the digits from a place on.
pub fn digits_end(text: &[u8], from: usize) -> usize
    requires { from ≤ length text.now }
    ensures value { result ≡ from + prefix_len is_ascii_digit (drop from text.now) }
    ensures within { result ≤ length text.now }
{
    let mut at = from;
    while at < text.len() && text[at].is_ascii_digit() {
        at += 1;
    }
    at
}
