//! Lines and columns, counted forward over the tokens.

ghost use Rattle.std.specs.Prelude.{◌≡◌, ℕ, true, ◌+◌, ◌^◌, ◌<◌, ◌≤◌, [], ◌∷◌, length, slice_range, take};
ghost use Rattle.std.specs.Prelude.{count_by, drop, false, IsUtf8};
ghost use Rattle.std.specs.List.{All};
ghost use Rattle.hcl_token.specs.Pairs.{pair_at, pairs_from, pairs_of, gap_at, gap_from};
ghost use Rattle.hcl_token.specs.Inner.LineColumn.{IsGapPlace, IsLastLine, IsOnLine, IsPlaceBounded};
ghost use Rattle.hcl_token.specs.Inner.LineColumn.{IsTokenRange};
ghost use Rattle.hcl_token.specs.Inner.LineColumn.{place_after_pair, place_after_piece, place_after_pairs};
ghost use Rattle.hcl_token.specs.Inner.LineColumn.{first_place, has_mark};
ghost use Rattle.hcl_token.specs.Inner.AsciiText.{is_ascii_without_cr};
ghost use Rattle.hcl_token.specs.Place.{is_lf, is_mark, last_line, line_of, place_of};

use crate::graphemes::{clusters, is_ascii_without_cr};
use crate::kind::Kind;
use crate::place::Place;
use crate::span::Span;
use memchr::memrchr;

/// The greatest number of bytes whose line ends are counted in 8 bits.
const MAX_U8_COUNT: usize = 255;

/// How many bytes of a longer piece are counted at a time: a multiple of 32, so that the processor
/// counts none of them by itself.
const CHUNK: usize = 224;

/// The place at the beginning of a text.
pub(crate) const FIRST_PLACE: Place = Place { line: 1, column: 1 };

/// Returns the bytes of a text from one offset up to another.
pub fn slice(text: &[u8], from: u32, to: u32) -> &[u8]
    requires ordered { from ≤ to }
    requires within { to ≤ length text.now }
    ensures { result.now ≡ slice_range text.now from to }
{
    &text[from as usize..to as usize]
}

/// Returns where the gap before token `i` begins, or the gap after the last token, if the gap before
/// the first token begins at byte `from`.
fn gap_from(tokens: &[Span], from: u32, i: usize) -> u32
    requires { i ≤ length tokens.now }
    ensures { result ≡ gap_from from tokens.now i }
{
    if i == 0 { from } else { tokens[i - 1].stop() }
}

/// Returns where the gap before token `i` begins, or the gap after the last token, in bytes from 0.
pub fn gap_at(tokens: &[Span], i: usize) -> u32
    requires { i ≤ length tokens.now }
    ensures { result ≡ gap_at tokens.now i }
{
    gap_from(tokens, 0, i)
}

/// Returns the tokens from one number up to another.
pub fn token_range(tokens: &[Span], from: usize, to: usize) -> &[Span]
    requires ordered { from ≤ to }
    requires within { to ≤ length tokens.now }
    ensures { result.now ≡ slice_range tokens.now from to }
{
    &tokens[from..to]
}

/// Whether a token is a byte order mark, which counts for nothing in a place.
fn is_mark(kind: Kind) -> bool
    ensures { result ≡ is_mark kind }
{
    matches!(kind, Kind::Mark)
}

/// Whether one of the tokens is a byte order mark.
fn has_mark(tokens: &[Span]) -> bool
    ensures { result ≡ has_mark tokens.now }
{
    // no early end: the processor does many tokens at once
    let mut marked = false;
    for token in tokens {
        marked |= is_mark(token.kind());
    }
    marked
}

/// Whether the first token is a byte order mark.
pub(crate) fn begins_with_mark(tokens: &[Span]) -> bool
    ensures { result ≡ has_mark (take 1 tokens.now) }
{
    !tokens.is_empty() && is_mark(tokens[0].kind())
}

/// Returns the number of line feeds of a piece of text that has at most `MAX_U8_COUNT` bytes.
///
/// It is counted in 8 bits, of which the processor adds sixteen at once.
fn count_line_feeds_u8(piece: &[u8]) -> u8
    requires { length piece.now < 2 ^ 8 }
    ensures { result ≡ count_by is_lf piece.now }
{
    let mut count: u8 = 0;
    for byte in piece {
        count += u8::from(*byte == 10);
    }
    count
}

/// Returns the number of line feeds of a piece of text.
fn count_line_feeds(piece: &[u8]) -> usize
    ensures value { result ≡ count_by is_lf piece.now }
    ensures within { result ≤ length piece.now }
{
    let mut count = 0;
    let mut from = 0;
    while piece.len() - from > MAX_U8_COUNT {
        count += usize::from(count_line_feeds_u8(&piece[from..from + CHUNK]));
        from += CHUNK;
    }
    count + usize::from(count_line_feeds_u8(&piece[from..]))
}

/// Returns what follows the last line feed of a piece of text, or all of it if it has none.
fn last_line(piece: &[u8]) -> &[u8]
    ensures { result.now ≡ last_line piece.now }
{
    match memrchr(b'\n', piece) {
        Some(at) => &piece[at + 1..],
        None => piece,
    }
}

/// Returns the place after a piece of text that begins at `at`.
fn place_after_piece(at: Place, piece: &[u8]) -> Place
    requires utf8 { IsUtf8 piece.now }
    requires line { at.line + length piece.now < 2 ^ 32 }
    requires column { at.column + length piece.now < 2 ^ 32 }
    ensures value { result ≡ place_after_piece at piece.now }
    ensures line { result.line ≤ at.line + length piece.now }
    ensures column { result.column ≤ at.column + length piece.now }
{
    let count = count_line_feeds(piece);
    let column = if count == 0 {
        at.column + clusters(piece)
    } else {
        1 + clusters(last_line(piece))
    };
    Place {
        line: at.line + count,
        column,
    }
}

/// Returns the place after a token and the gap before it, which begins at byte `from`.
fn place_after_token(text: &[u8], token: Span, from: u32, at: Place) -> Place
    requires { IsTokenRange text.now (token ∷ []) from token.stop at }
    ensures value { result ≡ place_after_pair at (pair_at text.now from token) }
    ensures bounded { IsPlaceBounded result token.stop }
{
    let at_start = place_after_piece(at, slice(text, from, token.start()));
    if is_mark(token.kind()) {
        at_start
    } else {
        place_after_piece(at_start, slice(text, token.start(), token.stop()))
    }
}

/// Returns the place after tokens, one by one; the gap before the first begins at byte `from`.
fn place_after_each(text: &[u8], tokens: &[Span], from: u32, at: Place) -> Place
    requires { (to : ℕ) × IsTokenRange text.now tokens.now from to at }
    ensures { result ≡ place_after_pairs at (pairs_from text.now from tokens.now) }
{
    let mut gap_at = from;
    let mut place = at;
    for token in tokens {
        place = place_after_token(text, *token, gap_at, place);
        gap_at = token.stop();
    }
    place
}

/// Returns the place after a piece of text in whose last line each byte is a column.
fn place_after_ascii(at: Place, piece: &[u8], last: &[u8]) -> Place
    requires last { last.now ≡ last_line piece.now }
    requires ascii { is_ascii_without_cr last.now ≡ true }
    requires line { at.line + length piece.now < 2 ^ 32 }
    requires column { at.column + length piece.now < 2 ^ 32 }
    ensures { result ≡ place_after_piece at piece.now }
{
    if last.len() == piece.len() {
        Place {
            line: at.line,
            column: at.column + piece.len(),
        }
    } else {
        Place {
            line: at.line + count_line_feeds(piece),
            column: 1 + last.len(),
        }
    }
}

/// Returns the number of the first token that stops at byte `begin` or after it, or the number of
/// tokens if none does; the gap before the first token begins at byte `from`.
///
/// It is searched for from the end, since few tokens follow it.
fn token_reaching(tokens: &[Span], from: u32, begin: u32) -> usize
    requires { from < begin }
    ensures within { result ≤ length tokens.now }
    ensures before { gap_from from tokens.now result < begin }
    ensures following { All (λ token. begin ≤ token.stop) (drop result tokens.now) }
{
    let mut i = tokens.len();
    while gap_from(tokens, from, i) >= begin {
        i -= 1;
    }
    i
}

/// Returns the place after tokens of which none is a byte order mark, if the last line of their
/// bytes begins at byte `begin`.
///
/// Only the tokens of the last line are counted one by one, from the one with the line feed. The
/// column before that one does not matter, since the line feed begins it anew.
fn place_by_last_line(text: &[u8], tokens: &[Span], from: u32, begin: u32, at: Place) -> Place
    requires { (to : ℕ) × IsLastLine text.now tokens.now from to begin at }
    ensures { result ≡ place_after_pairs at (pairs_from text.now from tokens.now) }
{
    if begin == from {
        return place_after_each(text, tokens, from, at);
    }
    let first = token_reaching(tokens, from, begin);
    let gap_at = gap_from(tokens, from, first);
    let line_begin = Place {
        line: at.line + count_line_feeds(slice(text, from, gap_at)),
        column: 1,
    };
    place_after_each(text, &tokens[first..], gap_at, line_begin)
}

/// Returns the place after tokens that take the bytes between two offsets.
///
/// A column counts only what follows the last line feed. If that is ASCII without CR, the bytes are
/// counted as one piece, whatever is before it. Of the tokens only the kinds are read then.
fn place_after_tokens(text: &[u8], tokens: &[Span], from: u32, to: u32, at: Place) -> Place
    requires { IsTokenRange text.now tokens.now from to at }
    ensures value { result ≡ place_after_pairs at (pairs_from text.now from tokens.now) }
    ensures bounded { IsPlaceBounded result to }
{
    let bytes = slice(text, from, to);
    let last = last_line(bytes);
    if has_mark(tokens) {
        place_after_each(text, tokens, from, at)
    } else if is_ascii_without_cr(last) {
        place_after_ascii(at, bytes, last)
    } else {
        place_by_last_line(text, tokens, from, to - last.len() as u32, at)
    }
}

/// Returns the place of the gap before token `to`, if that of the gap before token `from` is `at`.
pub(crate) fn gap_place(text: &[u8], tokens: &[Span], from: usize, at: Place, to: usize) -> Place
    requires at { (last : ℕ) × IsGapPlace text.now tokens.now last from at }
    requires order { from ≤ to }
    requires within { to ≤ length tokens.now }
    ensures { result ≡ place_after_pairs first_place (take to (pairs_of text.now tokens.now)) }
{
    let token_range = token_range(tokens, from, to);
    place_after_tokens(
        text,
        token_range,
        gap_at(tokens, from),
        gap_at(tokens, to),
        at,
    )
}

/// Returns the place of token `i`, if that of the gap before it is `at`.
pub(crate) fn token_place(text: &[u8], tokens: &[Span], i: usize, at: Place) -> Place
    requires at { (last : ℕ) × IsGapPlace text.now tokens.now last i at }
    requires within { i < length tokens.now }
    ensures { result ≡ place_of (pairs_of text.now tokens.now) i }
{
    let token = tokens[i];
    let begins = gap_at(tokens, i);
    place_after_piece(at, slice(text, begins, token.start()))
}

/// Returns the line of the gap before token `to`, if that of the gap before token `from` is `line`;
/// lines are counted from 1.
///
/// No byte order mark has a line feed, so no look at the kinds of the tokens is needed.
pub(crate) fn gap_line(text: &[u8], tokens: &[Span], from: usize, line: usize, to: usize) -> usize
    requires at { (last : ℕ) × IsOnLine text.now tokens.now last from line }
    requires order { from ≤ to }
    requires within { to ≤ length tokens.now }
    ensures { result
        ≡ (place_after_pairs first_place (take to (pairs_of text.now tokens.now))).line }
{
    line + count_line_feeds(slice(text, gap_at(tokens, from), gap_at(tokens, to)))
}

/// Returns the line of token `i`, if that of the gap before it is `line`; lines are counted from 1.
pub(crate) fn token_line(text: &[u8], tokens: &[Span], i: usize, line: usize) -> usize
    requires at { (last : ℕ) × IsOnLine text.now tokens.now last i line }
    requires within { i < length tokens.now }
    ensures { result ≡ line_of (pairs_of text.now tokens.now) i }
{
    let token = tokens[i];
    let begins = gap_at(tokens, i);
    line + count_line_feeds(slice(text, begins, token.start()))
}
