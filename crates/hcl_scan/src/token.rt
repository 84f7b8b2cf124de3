//! The token at a place. For speed alone: `expression_token` tests the first byte before
//! `any_expression_token`, and `next_plain_token_apart` is `next_plain_token` by a call.

ghost use Rattle.std.specs.Prelude.{◌≡◌, ◌==◌, ◌+◌, ◌<◌, ◌≤◌, true, false, length, drop, slice_index, IsUtf8};
ghost use Rattle.std.specs.Prelude.{Some, IfSome, if◌then◌else◌};
ghost use Rattle.hcl_token.specs.declared.kind.Kind.TheVariants.{SeqClose, CloseBrace};
ghost use Rattle.hcl_scan.specs.Lexeme.{comment_unit};
ghost use Rattle.hcl_scan.specs.Inner.RunLength.{run_length};
ghost use Rattle.hcl_scan.specs.Inner.NextToken.{inline_comment, dot_token, punctuation, heredoc_or_less};
ghost use Rattle.hcl_scan.specs.Inner.NextToken.{expression_token, quoted_token, gap_length, token};
ghost use Rattle.hcl_scan.specs.Inner.Markers.{HasMarker};
ghost use Rattle.hcl_scan.specs.Inner.Openings.{mode_view};
ghost use Rattle.hcl_scan.specs.Inner.OpeningPlaces.{LeavesOpenings};
ghost use Rattle.hcl_scan.specs.Modes.{can_close_sequence, is_literal};
ghost use Rattle.hcl_scan.specs.Modes.Mode.{Quoted, Heredoc};

use crate::bytes::{byte_at, digits_end, is_letter, skip_whitespace};
use crate::heredoc::{here_open, heredoc_token, is_at_heredoc_start, is_at_opening, opening};
use crate::ident::{identifier, is_word_start, word_len};
use crate::mode::Mode;
use crate::number::{number_len, short_number_len};
use crate::operator::{both, either, equal, operator};
use crate::quoted::rest_end;
use crate::runs::{CommentUnit, InlineUnit, run_end};
use hcl_token::Kind;

/// Returns the comment whose `/*` is before the place, if it is closed.
///
/// HCL native syntax specification, Comments and Whitespace.
fn inline_comment(text: &[u8], body: usize) -> Option<(Kind, usize)>
    requires { body ≤ length text.now }
    ensures { result ≡ inline_comment (drop body text.now) }
{
    let end = run_end(&InlineUnit, text, body, false);
    if end < text.len() {
        Some((Kind::InlineComment, end - body + 4))
    } else {
        None
    }
}

/// Returns the token that begins with neither a letter nor a digit. A `}` closes a template
/// sequence if `can_close`.
fn punctuation(text: &[u8], at: usize, can_close: bool) -> Option<(Kind, usize)>
    requires { at < length text.now }
    ensures { result ≡ punctuation can_close (drop at text.now) }
{
    let first = text[at];
    let second = byte_at(text, at + 1);
    match first {
        b'\n' => Some((Kind::LineEnd, 1)),
        b'\r' => {
            if second == b'\n' {
                Some((Kind::LineEnd, 2))
            } else {
                None
            }
        }
        b'"' => Some((Kind::QuoteOpen, 1)),
        b'#' => Some((
            Kind::LineComment,
            run_end(&CommentUnit, text, at + 1, false) - at,
        )),
        b'/' if second == b'/' => {
            Some((
                Kind::LineComment,
                run_end(&CommentUnit, text, at + 2, false) - at,
            ))
        }
        b'/' if second == b'*' => inline_comment(text, at + 2),
        b'.' if second.is_ascii_digit() => Some((Kind::DotIndex, digits_end(text, at + 1) - at)),
        b'}' => close_brace_token(can_close),
        b'~' => {
            if second == b'}' && can_close {
                Some((Kind::SeqClose, 2))
            } else {
                None
            }
        }
        _ => operator(first, second, byte_at(text, at + 2)),
    }
}

/// Returns the number of bytes of the comment that begins with a `#` at a place.
#[inline(never)]
fn comment_len(text: &[u8], at: usize) -> usize
    requires { at < length text.now }
    ensures { result ≡ 1 + run_length comment_unit false (drop 1 (drop at text.now)) }
{
    run_end(&CommentUnit, text, at + 1, false) - at
}

/// Returns the token that begins with a `.`.
fn dot_token(text: &[u8], at: usize) -> Option<(Kind, usize)>
    requires { at < length text.now }
    ensures value { result ≡ dot_token (drop at text.now) }
    ensures kind { IfSome result (λ found. LeavesOpenings found.0) }
{
    let second = byte_at(text, at + 1);
    if second.is_ascii_digit() {
        return Some((Kind::DotIndex, digits_end(text, at + 1) - at));
    }
    if second == b'.' && byte_at(text, at + 2) == b'.' {
        Some((Kind::Ellipsis, 3))
    } else {
        Some((Kind::Dot, 1))
    }
}

/// A token or none, and whether its first byte shows that it leaves the openings as they are.
#[derive(Clone, Copy)]
struct Found {
    token: Option<(Kind, usize)>,
    is_free: bool,
}

/// Returns what is found: a token that leaves the openings as they are, or none.
#[inline(always)]
fn free(token: Option<(Kind, usize)>) -> Found
    requires { IfSome token (λ found. LeavesOpenings found.0) }
    ensures token { result.token ≡ token }
    ensures free { IfSome result.token (λ found. result.is_free ≡ true → LeavesOpenings found.0) }
{
    Found {
        token,
        is_free: true,
    }
}

/// Returns what is found: a token that may change the openings, or none.
#[inline(always)]
fn other(token: Option<(Kind, usize)>) -> Found
    ensures token { result.token ≡ token }
    ensures free { IfSome result.token (λ found. result.is_free ≡ true → LeavesOpenings found.0) }
{
    Found {
        token,
        is_free: false,
    }
}

/// Whether the byte after a place is this one.
fn is_next(text: &[u8], at: usize, b: u8) -> bool
    requires { at ≤ length text.now }
    ensures { result ≡ (slice_index text.now (at + 1) == b) }
{
    byte_at(text, at + 1) == b
}

/// Returns the token outside of literal text. `first` is its first byte, 0 at the end. A `}` closes
/// a template sequence if `can_close`.
///
/// The tokens that most texts are made of need no more than their first byte. Of most of these it
/// shows too that they leave the openings as they are, so that their kind is not tested for it.
#[inline(always)]
fn expression_token(text: &str, at: usize, first: u8, can_close: bool) -> Found
    requires within { at ≤ length text.now }
    requires utf8 { IsUtf8 (drop at text.now) }
    requires first { first ≡ slice_index text.now at }
    requires first_within { 0 < first → at < length text.now }
    ensures token { result.token ≡ expression_token can_close (drop at text.now) }
    ensures free { IfSome result.token (λ found. result.is_free ≡ true → LeavesOpenings found.0) }
{
    if is_letter(first) {
        return free(Some((Kind::Identifier, word_len(text, at))));
    }
    let bytes = text.as_bytes();
    match first {
        b'\n' => free(Some((Kind::LineEnd, 1))),
        b'\r' => free(both(is_next(bytes, at, b'\n'), Kind::LineEnd)),
        b'"' => other(Some((Kind::QuoteOpen, 1))),
        b'=' => free(equal(byte_at(bytes, at + 1))),
        b'.' => free(dot_token(bytes, at)),
        b',' => free(Some((Kind::Comma, 1))),
        b'{' => other(Some((Kind::OpenBrace, 1))),
        b'}' => other(close_brace_token(can_close)),
        b'[' => free(Some((Kind::OpenBracket, 1))),
        b']' => free(Some((Kind::CloseBracket, 1))),
        b'(' => free(Some((Kind::OpenParen, 1))),
        b')' => free(Some((Kind::CloseParen, 1))),
        b'?' => free(Some((Kind::Question, 1))),
        b'+' => free(Some((Kind::Plus, 1))),
        b'-' => free(Some((Kind::Minus, 1))),
        b'*' => free(Some((Kind::Star, 1))),
        b'%' => free(Some((Kind::Percent, 1))),
        b'0'..=b'9' => free(Some((Kind::Number, short_number_len(bytes, at)))),
        b'#' => free(Some((Kind::LineComment, comment_len(bytes, at)))),
        b':' => free(either(is_next(bytes, at, b':'), Kind::DoubleColon, Kind::Colon)),
        b'!' => free(either(is_next(bytes, at, b'='), Kind::NotEqual, Kind::Bang)),
        b'>' => free(either(is_next(bytes, at, b'='), Kind::GreaterEqual, Kind::Greater)),
        b'&' => free(both(is_next(bytes, at, b'&'), Kind::And)),
        b'|' => free(both(is_next(bytes, at, b'|'), Kind::Or)),
        _ => other(slow_expression_token(text, at, can_close)),
    }
}

/// Returns the token that begins with a `}`.
fn close_brace_token(can_close: bool) -> Option<(Kind, usize)>
    ensures { result ≡ (if can_close then Some (SeqClose, 1) else Some (CloseBrace, 1)) }
{
    if can_close {
        Some((Kind::SeqClose, 1))
    } else {
        Some((Kind::CloseBrace, 1))
    }
}

/// Returns the token outside of literal text for any first byte; none at the end.
#[inline(always)]
fn slow_expression_token(text: &str, at: usize, can_close: bool) -> Option<(Kind, usize)>
    requires within { at ≤ length text.now }
    requires utf8 { IsUtf8 (drop at text.now) }
    ensures { result ≡ expression_token can_close (drop at text.now) }
{
    if at == text.len() {
        None
    } else {
        any_expression_token(text, at, can_close)
    }
}

/// Returns the token outside of literal text for any first byte, where the text does not end.
///
/// `expression_token` has arms of its own for many bytes.
#[inline(always)]
fn any_expression_token(text: &str, at: usize, can_close: bool) -> Option<(Kind, usize)>
    requires within { at < length text.now }
    requires utf8 { IsUtf8 (drop at text.now) }
    ensures { result ≡ expression_token can_close (drop at text.now) }
{
    let bytes = text.as_bytes();
    let first = bytes[at];
    if is_word_start(first) {
        identifier(text, at)
    } else if first.is_ascii_digit() {
        Some((Kind::Number, number_len(bytes, at)))
    } else if is_at_heredoc_start(bytes, at) {
        heredoc_or_less(here_open(text, at))
    } else {
        punctuation(bytes, at, can_close)
    }
}

/// Returns the opening of a heredoc, or the operator `<` where `<<` opens none.
fn heredoc_or_less(found: Option<(Kind, usize)>) -> Option<(Kind, usize)>
    ensures { result ≡ heredoc_or_less found }
{
    match found {
        Some(opening) => Some(opening),
        None => Some((Kind::Less, 1)),
    }
}

/// Returns the token in quoted text.
///
/// HCL native syntax specification, Template Expressions and Templates.
#[inline(always)]
fn quoted_token(text: &[u8], at: usize) -> Option<(Kind, usize)>
    requires { at ≤ length text.now }
    ensures { result ≡ quoted_token (drop at text.now) }
{
    if byte_at(text, at) == b'"' {
        return Some((Kind::QuoteClose, 1));
    }
    if is_at_opening(text, at) {
        return Some(opening(text, at));
    }
    let end = rest_end(text, at);
    if end == at {
        None
    } else {
        Some((Kind::QuoteLit, end - at))
    }
}

/// Whether a `}` here closes a template sequence.
fn can_close_sequence(mode: Mode<'_>) -> bool
    ensures { result ≡ can_close_sequence (mode_view mode.entry) }
{
    matches!(mode, Mode::Sequence)
}

/// What follows a place: a gap, and a token or none.
#[derive(Clone, Copy)]
pub struct NextToken {
    /// Where the gap ends.
    pub start: usize,
    /// The kind of the token and its length.
    pub token: Option<(Kind, usize)>,
}

/// Returns the token at a place in the text of a heredoc with this marker, where there are no gaps;
/// no token if none begins there. `at_line_start` says whether a line begins at the place.
pub fn next_heredoc_token(text: &str, at: usize, marker: &[u8], at_line_start: bool) -> NextToken
    requires within { at ≤ length text.now }
    requires utf8 { IsUtf8 (drop at text.now) }
    requires marker { HasMarker (Heredoc marker.now at_line_start) }
    ensures gap { result.start
        ≡ at + gap_length (Heredoc marker.now at_line_start) (drop at text.now) }
    ensures start { result.start ≤ length text.now }
    ensures token { result.token
        ≡ token (Heredoc marker.now at_line_start) (drop result.start text.now) }
    ensures within { IfSome result.token
        (λ found. (0 < found.1) × (result.start + found.1 ≤ length text.now)) }
{
    let token = heredoc_token(text.as_bytes(), at, marker, at_line_start);
    NextToken { start: at, token }
}

/// Returns the token at a place in quoted text, where there are no gaps; no token if none begins
/// there.
#[inline(always)]
pub fn next_quoted_token(text: &str, at: usize) -> NextToken
    requires within { at ≤ length text.now }
    requires utf8 { IsUtf8 (drop at text.now) }
    ensures gap { result.start ≡ at + gap_length Quoted (drop at text.now) }
    ensures start { result.start ≤ length text.now }
    ensures token { result.token ≡ token Quoted (drop result.start text.now) }
    ensures within { IfSome result.token
        (λ found. (0 < found.1) × (result.start + found.1 ≤ length text.now)) }
{
    let token = quoted_token(text.as_bytes(), at);
    NextToken { start: at, token }
}

/// Returns the gap from a place outside of literal text on and the token after it, no token if none
/// begins there, and whether the token's first byte shows that it leaves the openings as they are.
#[inline(always)]
pub fn next_plain_token(text: &str, at: usize, mode: Mode<'_>) -> (NextToken, bool)
    requires within { at ≤ length text.now }
    requires utf8 { IsUtf8 (drop at text.now) }
    requires plain { is_literal (mode_view mode) ≡ false }
    ensures gap { result.0.start ≡ at + gap_length (mode_view mode.entry) (drop at text.now) }
    ensures start { result.0.start ≤ length text.now }
    ensures token { result.0.token ≡ token (mode_view mode.entry) (drop result.0.start text.now) }
    ensures within { IfSome result.0.token
        (λ found. (0 < found.1) × (result.0.start + found.1 ≤ length text.now)) }
    ensures free { IfSome result.0.token (λ found. result.1 ≡ true → LeavesOpenings found.0) }
{
    let bytes = text.as_bytes();
    let (start, first) = skip_whitespace(bytes, at);
    let found = expression_token(text, start, first, can_close_sequence(mode));
    let token = found.token;
    (NextToken { start, token }, found.is_free)
}

/// Returns the gap and the token that `next_plain_token` does, by a call where that is rare.
#[inline(never)]
pub fn next_plain_token_apart(text: &str, at: usize, mode: Mode<'_>) -> NextToken
    requires within { at ≤ length text.now }
    requires utf8 { IsUtf8 (drop at text.now) }
    requires plain { is_literal (mode_view mode) ≡ false }
    ensures gap { result.start ≡ at + gap_length (mode_view mode.entry) (drop at text.now) }
    ensures start { result.start ≤ length text.now }
    ensures token { result.token ≡ token (mode_view mode.entry) (drop result.start text.now) }
    ensures within { IfSome result.token
        (λ found. (0 < found.1) × (result.start + found.1 ≤ length text.now)) }
{
    next_plain_token(text, at, mode).0
}
