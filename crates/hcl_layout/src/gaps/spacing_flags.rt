//! The gaps inside a line by flags of two kinds. For speed alone: `space::is_spaced_at` says the
//! same, but most pairs of kinds say what the gap is without the rows of its table.

ghost use Rattle.std.specs.Prelude.{◌≡◌, ◌<◌, ◌≤◌, ◌-◌, [], length, slice_range, Some};
ghost use Rattle.hcl_token.specs.TokenizedText.{kind_of};
ghost use Rattle.hcl_layout.specs.Gaps.Space.{prev_after_all};
ghost use Rattle.hcl_layout.specs.Gaps.Inner.Stages.{token, space_len_at};
ghost use Rattle.hcl_layout.specs.Gaps.Inner.SpacingFlags.{flags_after, flags_before, closes_or_indexes_name};

use crate::gaps::kinds::{closes_tight, is_identifier, is_open_bracket};
use crate::gaps::space::{has_no_gap_before, is_in_keyword, is_spaced_at};
use hcl_scan::Scanned;
use hcl_token::Kind;

/// A flag that a token shares with the one after it: there is a space between the two.
const SPACE: u16 = 1;

/// A flag of a space after an opening brace.
const IN_BRACES: u16 = 2;

/// A flag of a space before `(` and `[` that call and index nothing.
const OPENS: u16 = 4;

/// A flag of no space before literal text.
const LITERAL: u16 = 8;

/// A flag of no space before a line end, `,` and the like.
const CLOSE: u16 = 16;

/// A flag of no space after an opening that has none inside.
const INSIDE: u16 = 32;

/// A flag of no space in `.name`.
const NAME: u16 = 64;

/// A flag of no space in `name(`.
const CALL: u16 = 128;

/// A flag of no space before a closing, or an index.
const END: u16 = 256;

/// The flags by which there is a space; by the others there is none.
const SPACED: u16 = SPACE | IN_BRACES | OPENS;

/// Returns what a token's kind says of the gap after it. It shares a flag with `flags_before` of
/// the next token if the two kinds alone say what the gap is.
fn flags_after(kind: Kind) -> u16
    ensures { result ≡ flags_after kind }
{
    match kind {
        Kind::Identifier => SPACE | LITERAL | CLOSE | CALL,
        Kind::Number | Kind::DotIndex | Kind::CloseParen | Kind::CloseBracket | Kind::QuoteClose =>
            SPACE | LITERAL | CLOSE | END,
        Kind::Dot => LITERAL | NAME,
        Kind::OpenBrace => IN_BRACES | LITERAL | CLOSE,
        Kind::OpenParen | Kind::OpenBracket | Kind::InterpOpen | Kind::DirectiveOpen => LITERAL
            | CLOSE
            | INSIDE,
        Kind::Minus | Kind::DoubleColon => LITERAL | CLOSE,
        Kind::Mark | Kind::Bang | Kind::HereLit => LITERAL,
        Kind::Less | Kind::Greater | Kind::Equal | Kind::Colon | Kind::Slash => SPACE
            | OPENS
            | LITERAL,
        Kind::Star | Kind::CloseBrace => SPACE | LITERAL | CLOSE,
        _ => SPACE | OPENS | LITERAL | CLOSE,
    }
}

/// Returns what a token's kind says of the gap before it.
fn flags_before(kind: Kind) -> u16
    ensures { result ≡ flags_before kind }
{
    match kind {
        Kind::Mark
        | Kind::QuoteClose
        | Kind::QuoteLit
        | Kind::InterpOpen
        | Kind::DirectiveOpen
        | Kind::HereClose
        | Kind::HereLit => LITERAL,
        Kind::LineEnd | Kind::DoubleColon | Kind::Comma | Kind::Dot | Kind::Ellipsis => CLOSE
            | INSIDE,
        Kind::Identifier => SPACE | IN_BRACES | INSIDE | NAME,
        Kind::OpenParen => OPENS | INSIDE | CALL,
        Kind::OpenBracket => OPENS | INSIDE | END,
        Kind::CloseParen | Kind::CloseBracket => INSIDE | END,
        Kind::SeqClose => END,
        Kind::CloseBrace => SPACE,
        Kind::LineComment | Kind::OpenBrace => SPACE | IN_BRACES,
        Kind::DotIndex => INSIDE,
        _ => SPACE | IN_BRACES | INSIDE,
    }
}

/// Returns whether a token of kind `b` closes or indexes a name, which is not `in`.
fn closes_or_indexes_name(a: Kind, spelling: &[u8], b: Kind) -> bool
    ensures { result ≡ closes_or_indexes_name (token a spelling.now) b }
{
    is_identifier(a) && (closes_tight(b) | is_open_bracket(b)) && !is_in_keyword(a, spelling)
}

/// Returns the number of spaces of a gap that depends on more than the two kinds.
#[inline(never)]
fn gap_len_by_context(scanned: &Scanned<'_>, first: usize, a: Kind, b: Kind, i: usize) -> u32
    requires after_first { first < i }
    requires within { i < length scanned.now.pairs }
    requires a { Some a ≡ kind_of scanned.now.pairs (i - 1) }
    requires b { Some b ≡ kind_of scanned.now.pairs i }
    ensures value { Some result ≡ space_len_at
        (prev_after_all (slice_range scanned.now.pairs first (i - 1)) []) scanned.now.pairs i }
    ensures bounded { result ≤ 1 }
{
    if has_no_gap_before(b) {
        return 0;
    }
    if closes_or_indexes_name(a, scanned.spelling(i - 1), b) {
        return 0;
    }
    if is_spaced_at(scanned, first, a, b, i) {
        return 1;
    }
    u32::from(scanned.joins(i - 1, i))
}

/// Returns the number of spaces between token `i`, of kind `b`, and the one before it, of kind `a`,
/// on a line, in a text whose lines begin at token `first`.
pub(crate) fn gap_len(scanned: &Scanned<'_>, first: usize, a: Kind, b: Kind, i: usize) -> u32
    requires after_first { first < i }
    requires within { i < length scanned.now.pairs }
    requires a { Some a ≡ kind_of scanned.now.pairs (i - 1) }
    requires b { Some b ≡ kind_of scanned.now.pairs i }
    ensures value { Some result ≡ space_len_at
        (prev_after_all (slice_range scanned.now.pairs first (i - 1)) []) scanned.now.pairs i }
    ensures bounded { result ≤ 1 }
{
    let flags = flags_after(a) & flags_before(b);
    if flags == 0 {
        return gap_len_by_context(scanned, first, a, b, i);
    }
    if flags & SPACED == 0 { 0 } else { 1 }
}
