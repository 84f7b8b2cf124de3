//! Identifiers. A `_bytewise` function is the plain form; `_of_16` is for speed alone: it passes 16
//! bytes at a time.

ghost use Rattle.std.specs.Prelude.{◌≡◌, ◌∷◌, ◌+◌, ◌<◌, ◌≤◌, length, drop, true, false, Some, IsUtf8};
ghost use Rattle.std.specs.Prelude.{slice_index};
ghost use Rattle.std.specs.Char.{len_utf8};
ghost use Rattle.std.specs.Str.{chars};
ghost use Rattle.hcl_token.specs.declared.kind.Kind.TheVariants.{Identifier};
ghost use Rattle.hcl_scan.specs.Characters.{is_id_start, is_id_continue};
ghost use Rattle.hcl_scan.specs.Inner.LexemeStarts.{is_letter, is_ascii_id_continue, is_word_start};
ghost use Rattle.hcl_scan.specs.Inner.LexemeStarts.{id_continue_length, identifier};

use crate::bytes::{byte_at, is_ascii_id_continue};
use crate::sixteen::count_id_bytes;
use hcl_token::Kind;
use unicode_ident::{is_xid_continue, is_xid_start};

/// Returns the character at a place.
fn char_at(text: &str, at: usize) -> char
    requires within { at < length text.now }
    requires utf8 { IsUtf8 (drop at text.now) }
    ensures chars { chars (drop at text.now)
        ≡ result ∷ chars (drop (at + len_utf8 result) text.now) }
    ensures rest { IsUtf8 (drop (at + len_utf8 result) text.now) }
    ensures within { at + len_utf8 result ≤ length text.now }
{
    let rest = &text[at..];
    rest.chars().next().unwrap()
}

/// Whether a character begins an identifier: XID_Start (Unicode Standard Annex #31), or `_`.
///
/// HCL native syntax specification, Identifiers; the `_` is this project's choice.
fn is_id_start(c: char) -> bool
    ensures { result ≡ is_id_start c }
{
    is_xid_start(c) | (c == '_')
}

/// Whether a character continues an identifier: XID_Continue (Unicode Standard Annex #31), or `-`.
///
/// HCL native syntax specification, Identifiers.
fn is_id_continue(c: char) -> bool
    ensures { result ≡ is_id_continue c }
{
    is_xid_continue(c) | (c == '-')
}

/// Whether a byte is an ASCII letter, `_`, or the first byte of a character that is not ASCII.
pub fn is_word_start(b: u8) -> bool
    ensures { result ≡ is_word_start b }
{
    b.is_ascii_alphabetic() | (b == b'_') | (128 <= b)
}

/// Returns how many of the 16 bytes at a place continue an identifier, up to the first that does
/// not.
#[inline(always)]
fn count_id_bytes_of_16(text: &str, at: usize) -> usize
    requires within { at + 16 ≤ length text.now }
    requires utf8 { IsUtf8 (drop at text.now) }
    ensures value { result + id_continue_length (chars (drop (at + result) text.now))
        ≡ id_continue_length (chars (drop at text.now)) }
    ensures within { result ≤ 16 }
    ensures rest { IsUtf8 (drop (at + result) text.now) }
    ensures stops { result < 16
        → is_ascii_id_continue (slice_index text.now (at + result)) ≡ false }
{
    count_id_bytes(text.as_bytes(), at)
}

/// Returns the end of the ASCII characters from a place on that continue an identifier.
fn ascii_id_end(text: &str, from: usize) -> usize
    requires within { from ≤ length text.now }
    requires utf8 { IsUtf8 (drop from text.now) }
    ensures value { result + id_continue_length (chars (drop result text.now))
        ≡ from + id_continue_length (chars (drop from text.now)) }
    ensures within { result ≤ length text.now }
    ensures rest { IsUtf8 (drop result text.now) }
    ensures stops { is_ascii_id_continue (slice_index text.now result) ≡ false }
{
    let mut at = from;
    while at + 16 <= text.len() {
        let count = count_id_bytes_of_16(text, at);
        at += count;
        if count < 16 {
            return at;
        }
    }
    ascii_id_end_bytewise(text, at)
}

/// Returns what `ascii_id_end` does, byte by byte.
fn ascii_id_end_bytewise(text: &str, from: usize) -> usize
    requires within { from ≤ length text.now }
    requires utf8 { IsUtf8 (drop from text.now) }
    ensures value { result + id_continue_length (chars (drop result text.now))
        ≡ from + id_continue_length (chars (drop from text.now)) }
    ensures within { result ≤ length text.now }
    ensures rest { IsUtf8 (drop result text.now) }
    ensures stops { is_ascii_id_continue (slice_index text.now result) ≡ false }
{
    let bytes = text.as_bytes();
    let mut at = from;
    while at < bytes.len() && is_ascii_id_continue(bytes[at]) {
        at += 1;
    }
    at
}

/// Returns the end of the characters from a place on that continue an identifier.
#[inline(always)]
pub fn id_end(text: &str, from: usize) -> usize
    requires within { from ≤ length text.now }
    requires utf8 { IsUtf8 (drop from text.now) }
    ensures value { result ≡ from + id_continue_length (chars (drop from text.now)) }
    ensures within { result ≤ length text.now }
    ensures rest { IsUtf8 (drop result text.now) }
{
    let end = ascii_id_end(text, from);
    if byte_at(text.as_bytes(), end) < 128 {
        end
    } else {
        unicode_id_end(text, end)
    }
}

/// Returns what `id_end` does, where not all characters are ASCII.
#[cold]
#[inline(never)]
fn unicode_id_end(text: &str, from: usize) -> usize
    requires within { from ≤ length text.now }
    requires utf8 { IsUtf8 (drop from text.now) }
    ensures value { result ≡ from + id_continue_length (chars (drop from text.now)) }
    ensures within { result ≤ length text.now }
    ensures rest { IsUtf8 (drop result text.now) }
{
    let mut at = from;
    while at < text.len() {
        let c = char_at(text, at);
        if !is_id_continue(c) {
            return at;
        }
        at += c.len_utf8();
    }
    at
}

/// Returns the number of bytes of the identifier that begins with an ASCII letter or `_` at the
/// place.
#[inline(always)]
pub fn word_len(text: &str, at: usize) -> usize
    requires within { at < length text.now }
    requires utf8 { IsUtf8 (drop at text.now) }
    requires letter { is_letter (slice_index text.now at) ≡ true }
    ensures { Some (Identifier, result) ≡ identifier (drop at text.now) }
{
    id_end(text, at + 1) - at
}

/// Returns the identifier at the place where a word begins, as its kind and its length in bytes;
/// none if its first character begins no identifier.
///
/// HCL native syntax specification, Identifiers.
#[inline(never)]
pub fn identifier(text: &str, at: usize) -> Option<(Kind, usize)>
    requires within { at < length text.now }
    requires utf8 { IsUtf8 (drop at text.now) }
    requires word { is_word_start (slice_index text.now at) ≡ true }
    ensures { result ≡ identifier (drop at text.now) }
{
    if text.as_bytes()[at] < 128 {
        return Some((Kind::Identifier, word_len(text, at)));
    }
    let c = char_at(text, at);
    if !is_id_start(c) {
        return None;
    }
    Some((Kind::Identifier, id_end(text, at + c.len_utf8()) - at))
}
