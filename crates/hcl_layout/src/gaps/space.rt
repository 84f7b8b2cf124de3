//! The gaps inside a line: the table of spaces.

ghost use Rattle.std.specs.Prelude.{◌≡◌, None, ◌<◌, ◌≤◌, ◌-◌, [], take, length, slice_range, Some};
ghost use Rattle.hcl_token.specs.TokenizedText.{kind_of};
ghost use Rattle.hcl_scan.specs.Follows.{has_no_gap_before};
ghost use Rattle.hcl_layout.specs.Gaps.Space.{is_splat_star, is_after_identifier, is_after_operand};
ghost use Rattle.hcl_layout.specs.Gaps.Space.{is_in_keyword, is_spaced, prev_after_all};
ghost use Rattle.hcl_layout.specs.Gaps.Inner.Stages.{prev_kinds_of, token};
ghost use Rattle.hcl_layout.specs.Gaps.Inner.CodeViews.{prev_kinds};
ghost use Rattle.hcl_layout.specs.Gaps.Inner.SpacingFlags.{needs_context, spaced_at, IsEndOfNearest};

use crate::gaps::kinds::{
    can_be_indexed, closes_tight, ends_operand, is_bang, is_close_brace, is_comma,
    is_comma_or_ellipsis, is_dot, is_dot_or_index, is_double_colon, is_identifier, is_line_comment,
    is_line_end, is_minus, is_open_brace, is_open_bracket, is_open_paren, is_seq_close,
    is_sequence_open, is_skipped_by_spacing, is_star, opens_tight,
};
use hcl_scan::Scanned;
use hcl_token::Kind;

/// The two nearest tokens before a place, without comments, line ends and the byte order mark.
#[derive(Clone, Copy)]
pub(crate) struct PrevKinds {
    pub nearest: Option<Kind>,
    pub second: Option<Kind>,
}

/// The tokens before the first one: none.
const NO_PREV: PrevKinds = PrevKinds {
    nearest: None,
    second: None,
};

impl PrevKinds {
    /// Returns whether the nearest token is an identifier.
    fn is_after_identifier(self) -> bool
        ensures { result ≡ is_after_identifier (prev_kinds self) }
    {
        match self.nearest {
            Some(kind) => is_identifier(kind),
            None => false,
        }
    }

    /// Returns whether a `*` that follows is a splat's.
    fn is_splat_star(self, kind: Kind) -> bool
        ensures { result ≡ is_splat_star (prev_kinds self) kind }
    {
        match self.nearest {
            Some(nearest) => is_dot(nearest) & is_star(kind),
            None => false,
        }
    }

    /// Returns whether the nearest token ends an operand; the `*` of a splat does.
    fn is_after_operand(self) -> bool
        ensures { result ≡ is_after_operand (prev_kinds self) }
    {
        match self.nearest {
            Some(kind) => ends_operand(kind) | is_splat_star_after(self.second, kind),
            None => false,
        }
    }
}

/// Returns whether a token of this kind is the `*` of a splat, after this second one.
fn is_splat_star_after(second: Option<Kind>, kind: Kind) -> bool
    ensures { result ≡ is_splat_star (prev_kinds_of second None) kind }
{
    match second {
        Some(second) => is_dot(second) & is_star(kind),
        None => false,
    }
}

/// Returns whether a token of this kind never has a gap before it.
pub(crate) fn has_no_gap_before(kind: Kind) -> bool
    ensures { result ≡ has_no_gap_before kind }
{
    matches!(
        kind,
        Kind::Mark
            | Kind::QuoteClose
            | Kind::QuoteLit
            | Kind::InterpOpen
            | Kind::DirectiveOpen
            | Kind::HereClose
            | Kind::HereLit
    )
}

/// Returns whether a token is the keyword `in`.
pub(crate) fn is_in_keyword(kind: Kind, spelling: &[u8]) -> bool
    ensures { result ≡ is_in_keyword (token kind spelling.now) }
{
    is_identifier(kind) && (spelling == b"in".as_slice())
}

/// Returns whether there is a space between two neighbors on a line, by the first row of the table
/// that fits.
fn is_spaced(before: PrevKinds, a: Kind, a_spelling: &[u8], b: Kind) -> bool
    ensures { result ≡ is_spaced (prev_kinds before) (token a a_spelling.now) (token b []) }
{
    if is_line_end(b) {
        return false;
    }
    if is_line_comment(b) {
        return true;
    }
    if is_identifier(a) & is_open_paren(b) {
        return false;
    }
    if is_double_colon(a) | is_double_colon(b) {
        return false;
    }
    if is_dot(a) | is_dot_or_index(b) {
        return false;
    }
    if is_comma_or_ellipsis(b) {
        return false;
    }
    if is_comma(a) {
        return true;
    }
    if is_in_keyword(a, a_spelling) && before.is_after_identifier() {
        return true;
    }
    if is_open_bracket(b) && (can_be_indexed(a) | before.is_splat_star(a)) {
        return false;
    }
    if is_bang(a) {
        return false;
    }
    if is_minus(a) && !before.is_after_operand() {
        return false;
    }
    if is_open_brace(a) & is_close_brace(b) {
        return false;
    }
    if is_open_brace(a) | is_close_brace(b) {
        return true;
    }
    if (is_sequence_open(a) & is_open_brace(b)) | (is_close_brace(a) & is_seq_close(b)) {
        return true;
    }
    if opens_tight(a) | closes_tight(b) {
        return false;
    }
    true
}

/// Returns whether a row of the table depends on the tokens before this one.
fn needs_context(kind: Kind, spelling: &[u8]) -> bool
    ensures { result ≡ needs_context (token kind spelling.now) }
{
    is_minus(kind) || is_star(kind) || is_in_keyword(kind, spelling)
}

/// Returns the number after that of the nearest token among `first..to` that is not skipped, or
/// `first`.
fn end_of_nearest(scanned: &Scanned<'_>, first: usize, to: usize) -> usize
    requires ordered { first ≤ to }
    requires within { to ≤ length scanned.now.pairs }
    ensures { IsEndOfNearest scanned.now.pairs first to result }
{
    let mut past = to;
    while past > first {
        if !is_skipped_by_spacing(scanned.kind(past - 1)) {
            return past;
        }
        past -= 1;
    }
    past
}

/// Returns the two nearest tokens before token `to`, from token `first` on. Few tokens depend on
/// them, so they are searched for each of these.
fn prev_kinds_at(scanned: &Scanned<'_>, first: usize, to: usize) -> PrevKinds
    requires ordered { first ≤ to }
    requires within { to ≤ length scanned.now.pairs }
    ensures { prev_kinds result
        ≡ take 2 (prev_after_all (slice_range scanned.now.pairs first to) []) }
{
    let nearest = end_of_nearest(scanned, first, to);
    if nearest == first {
        return NO_PREV;
    }
    let second = end_of_nearest(scanned, first, nearest - 1);
    if second == first {
        return PrevKinds {
            nearest: Some(scanned.kind(nearest - 1)),
            second: None,
        };
    }
    PrevKinds {
        nearest: Some(scanned.kind(nearest - 1)),
        second: Some(scanned.kind(second - 1)),
    }
}

/// Returns whether there is a space between token `i`, which is not the first, and the one before
/// it.
pub(crate) fn is_spaced_at(scanned: &Scanned<'_>, first: usize, a: Kind, b: Kind, i: usize) -> bool
    requires after_first { first < i }
    requires within { i < length scanned.now.pairs }
    requires a { Some a ≡ kind_of scanned.now.pairs (i - 1) }
    ensures { Some result ≡ spaced_at (prev_after_all (slice_range scanned.now.pairs first (i - 1)) [])
        scanned.now.pairs i b }
{
    let spelling = scanned.spelling(i - 1);
    if needs_context(a, spelling) {
        return is_spaced(prev_kinds_at(scanned, first, i - 1), a, spelling, b);
    }
    is_spaced(NO_PREV, a, spelling, b)
}
