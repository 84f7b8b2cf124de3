//! Runs of units. A `_bytewise` function is the plain form; `_of_16` is for speed alone: it
//! passes 16 bytes at a time.

ghost use Rattle.std.specs.Prelude.{◌≡◌, ◌==◌, ◌∷◌, ◌+◌, ◌<◌, ◌≤◌, ℕ, List, length, drop, true, false, ◌&&◌};
ghost use Rattle.std.specs.Prelude.{slice_index};
ghost use Rattle.std.specs.Char.{is_ascii_hexdigit};
ghost use Rattle.hcl_scan.specs.Characters.{is_at_line_end, is_sigil, sigil_length};
ghost use Rattle.hcl_scan.specs.Lexeme.{comment_unit, inline_unit, quote_unit, is_simple_escape};
ghost use Rattle.hcl_scan.specs.Lexeme.{has_four_hex, escape_length};
ghost use Rattle.hcl_scan.specs.Runs.{UnitLength};
ghost use Rattle.hcl_scan.specs.Inner.RunLength.{run_length, IsOrdinary};

use crate::bytes::{byte_at, is_at_line_end, is_ordinary_quoted};
use crate::sixteen::{count_comment_bytes, count_inline_bytes, count_quoted_bytes};

/// A unit, given by its length.
pub trait Unit {
    ghost len: { Self → UnitLength };

    /// Returns the number of bytes of the unit at the place, 0 if there is none; `at_line_start`
    /// says whether a line begins there.
    fn len_at(&self, text: &[u8], at: usize, at_line_start: bool) -> usize
        requires { at < length text.now }
        ensures value { result ≡ len self.now at_line_start (drop at text.now) }
        ensures within { at + result ≤ length text.now };

    /// Whether the byte is a unit wherever no line begins, and ends no line. Another byte can be a
    /// unit too, by `len_at`.
    fn is_ordinary(&self, b: u8) -> bool
        ensures unit { result ≡ true → (t : List ℕ) → len self.now false (b ∷ t) ≡ 1 }
        ensures line { result ≡ true → (b == 10) ≡ false };

    /// Returns how many of the 16 bytes at a place are ordinary, up to one that need not be.
    fn count_ordinary_of_16(&self, text: &[u8], at: usize) -> usize
        requires { at + 16 ≤ length text.now }
        ensures within { result ≤ 16 }
        ensures ordinary { (k : ℕ) → at ≤ k → k < at + result
            → IsOrdinary (len self.now) (slice_index text.now k) };
}

/// Returns the end of the ordinary bytes from a place on, at which no line begins.
pub fn ordinary_end<U: Unit>(unit: &U, text: &[u8], from: usize) -> usize
    requires { from ≤ length text.now }
    ensures run { result + run_length (U.len unit.now) false (drop result text.now)
        ≡ from + run_length (U.len unit.now) false (drop from text.now) }
    ensures within { result ≤ length text.now }
    ensures onward { from ≤ result }
{
    // so that 16 bytes are not looked at for each of many that are not ordinary
    if !unit.is_ordinary(byte_at(text, from)) {
        return from;
    }
    let mut at = from;
    while at + 16 <= text.len() {
        let count = unit.count_ordinary_of_16(text, at);
        at += count;
        if count < 16 {
            return at;
        }
    }
    ordinary_end_bytewise(unit, text, at)
}

/// Returns what `ordinary_end` does, byte by byte.
fn ordinary_end_bytewise<U: Unit>(unit: &U, text: &[u8], from: usize) -> usize
    requires { from ≤ length text.now }
    ensures run { result + run_length (U.len unit.now) false (drop result text.now)
        ≡ from + run_length (U.len unit.now) false (drop from text.now) }
    ensures within { result ≤ length text.now }
    ensures onward { from ≤ result }
{
    let mut at = from;
    while at < text.len() && unit.is_ordinary(text[at]) {
        at += 1;
    }
    at
}

/// Returns what `ordinary_end` does if no line begins at the place, else the place.
fn skip_ordinary<U: Unit>(unit: &U, text: &[u8], from: usize, at_line_start: bool) -> usize
    requires { from ≤ length text.now }
    ensures run { result + run_length (U.len unit.now) at_line_start (drop result text.now)
        ≡ from + run_length (U.len unit.now) at_line_start (drop from text.now) }
    ensures within { result ≤ length text.now }
    ensures onward { from ≤ result }
{
    // for the proof: a function of its own, since the fact is lost where an `if` joins
    if at_line_start {
        from
    } else {
        ordinary_end(unit, text, from)
    }
}

/// Returns the end of the longest run of units from a place on; `at_line_start` says whether a line
/// begins there.
pub fn run_end<U: Unit>(unit: &U, text: &[u8], from: usize, at_line_start: bool) -> usize
    requires { from ≤ length text.now }
    ensures value { result ≡ from + run_length (U.len unit.now) at_line_start (drop from text.now) }
    ensures within { result ≤ length text.now }
{
    let mut at = from;
    let mut is_line_start = at_line_start;
    // for the proof: the label names the loop's invariant
    'units: loop {
        let on = skip_ordinary(unit, text, at, is_line_start);
        if on == text.len() {
            return on;
        }
        let len = unit.len_at(text, on, is_line_start);
        if len == 0 {
            return on;
        }
        at = on + len;
        is_line_start = text[at - 1] == b'\n';
    }
}

/// A unit of the text of a comment that ends with its line.
pub struct CommentUnit;

impl Unit for CommentUnit {
    ghost len = { λ _. comment_unit };

    fn len_at(&self, text: &[u8], at: usize, _at_line_start: bool) -> usize {
        if is_at_line_end(text, at) { 0 } else { 1 }
    }

    fn is_ordinary(&self, b: u8) -> bool {
        !((b == b'\n') | (b == b'\r'))
    }

    #[inline(always)]
    fn count_ordinary_of_16(&self, text: &[u8], at: usize) -> usize {
        count_comment_bytes(text, at)
    }
}

/// A unit of the text of a comment that ends at `*/`.
pub struct InlineUnit;

impl Unit for InlineUnit {
    ghost len = { λ _. inline_unit };

    fn len_at(&self, text: &[u8], at: usize, _at_line_start: bool) -> usize {
        if text[at] == b'*' && byte_at(text, at + 1) == b'/' {
            0
        } else {
            1
        }
    }

    fn is_ordinary(&self, b: u8) -> bool {
        !((b == b'*') | (b == b'\n'))
    }

    #[inline(always)]
    fn count_ordinary_of_16(&self, text: &[u8], at: usize) -> usize {
        count_inline_bytes(text, at)
    }
}

/// Whether a hexadecimal digit is at the place.
fn is_hex(text: &[u8], at: usize) -> bool
    ensures { result ≡ is_ascii_hexdigit (slice_index text.now at) }
{
    byte_at(text, at).is_ascii_hexdigit()
}

/// Whether a `\` and this byte are an escape.
fn is_simple_escape(b: u8) -> bool
    ensures { result ≡ is_simple_escape b }
{
    (b == b'n') | (b == b'r') | (b == b't') | (b == b'"') | (b == b'\\')
}

/// Whether four hexadecimal digits are at the place.
fn has_four_hex(text: &[u8], at: usize) -> bool
    requires { at ≤ length text.now }
    ensures value { result ≡ has_four_hex (drop at text.now) }
    ensures within { result ≡ true → at + 4 ≤ length text.now }
{
    is_hex(text, at) && is_hex(text, at + 1) && is_hex(text, at + 2) && is_hex(text, at + 3)
}

/// Whether eight hexadecimal digits are at the place.
fn has_eight_hex(text: &[u8], at: usize) -> bool
    requires { at ≤ length text.now }
    ensures value { result
        ≡ (has_four_hex (drop at text.now) && has_four_hex (drop (at + 4) text.now)) }
    ensures within { result ≡ true → at + 8 ≤ length text.now }
{
    has_four_hex(text, at) && has_four_hex(text, at + 4)
}

/// Returns the number of bytes of the escape after a `\`, 0 if there is none.
///
/// HCL native syntax specification, Template Expressions.
fn escape_len(text: &[u8], at: usize) -> usize
    requires { at ≤ length text.now }
    ensures value { result ≡ escape_length (drop at text.now) }
    ensures within { at + result ≤ length text.now }
{
    let b = byte_at(text, at);
    // for the proof: `if` in `if` in place of `&&`, so that no branches join
    if is_simple_escape(b) {
        1
    } else if b == b'u' {
        if has_four_hex(text, at + 1) { 5 } else { 0 }
    } else if b == b'U' {
        if has_eight_hex(text, at + 1) { 9 } else { 0 }
    } else {
        0
    }
}

/// Returns the number of bytes of the unit that begins with a `$` or a `%` before the place, 0 if
/// that is an opening.
///
/// HCL native syntax specification, Template Literals.
pub fn sigil_len(text: &[u8], at: usize, sigil: u8) -> usize
    requires within { at ≤ length text.now }
    requires sigil { 0 < sigil }
    ensures value { result ≡ sigil_length sigil (drop at text.now) }
    ensures within { at + result ≤ length text.now + 1 }
{
    let next = byte_at(text, at);
    if next == sigil && byte_at(text, at + 1) == b'{' {
        3
    } else if next == b'{' {
        0
    } else {
        1
    }
}

/// Whether a byte is `$` or `%`.
pub fn is_sigil(b: u8) -> bool
    ensures { result ≡ is_sigil b }
{
    (b == b'$') | (b == b'%')
}

/// A unit of text in quotes.
///
/// HCL native syntax specification, Template Expressions and Template Literals.
pub struct QuoteUnit;

impl Unit for QuoteUnit {
    ghost len = { λ _. quote_unit };

    #[tactic(auto, using(crate::proofs::UnitLemmas::quote_unit_at))]
    fn len_at(&self, text: &[u8], at: usize, _at_line_start: bool) -> usize {
        let b = text[at];
        if b == b'\\' {
            let len = escape_len(text, at + 1);
            if len == 0 { 0 } else { len + 1 }
        } else if is_sigil(b) {
            sigil_len(text, at + 1, b)
        } else if b == b'"' {
            0
        } else if is_at_line_end(text, at) {
            0
        } else {
            1
        }
    }

    fn is_ordinary(&self, b: u8) -> bool {
        is_ordinary_quoted(b)
    }

    #[inline(always)]
    fn count_ordinary_of_16(&self, text: &[u8], at: usize) -> usize {
        count_quoted_bytes(text, at)
    }
}
