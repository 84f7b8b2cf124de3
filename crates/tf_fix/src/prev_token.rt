//! The token right before a place.

ghost use Rattle.std.specs.Prelude.{◌≡◌, ◌≤◌, ◌<◌, ◌+◌, ◌*◌, length, slice_range, slice_get, Some};
ghost use Rattle.std.specs.Option.{option_map};
ghost use Rattle.tf_fix.specs.Edits.Parts.{parts, boundary_index};
ghost use Rattle.tf_fix.specs.Edits.SettledSpaces.{prev_of_parts, is_glued};
ghost use Rattle.tf_fix.specs.JoinedTokens.{joins_prev};
ghost use Rattle.tf_fix.specs.Inner.Views.{prev_view, prev_at};

use crate::boundary::{Boundary, is_after, is_before_gap, is_before_token};
use hcl_scan::Scanned;
use hcl_token::{Kind, joins};

/// The token right before a place.
#[derive(Clone, Copy)]
pub enum PrevToken<'t> {
    /// There is whitespace before it, or it is the start of the text.
    Nothing,
    Token { kind: Kind, spelling: &'t [u8] },
}

/// Returns token `i`, as the one right before a place.
fn token_at<'t>(scanned: &Scanned<'t>, i: u32) -> PrevToken<'t>
    requires { i < length scanned.now.pairs }
    ensures { Some (prev_view result) ≡ option_map prev_at (slice_get scanned.now.pairs i) }
{
    PrevToken::Token {
        kind: scanned.kind(i as usize),
        spelling: scanned.spelling(i as usize),
    }
}

/// Whether the token joins with this one.
pub fn joins_prev(prev: PrevToken<'_>, kind: Kind, spelling: &[u8]) -> bool
    ensures { result ≡ joins_prev (prev_view prev.entry) kind spelling.now }
{
    match prev {
        PrevToken::Nothing => false,
        PrevToken::Token {
            kind: first,
            spelling: letters,
        } => joins(first, letters, kind, spelling),
    }
}

/// Returns the token before gap `i`, if `prev` is the one before `from`.
fn prev_before_gap<'t>(
    scanned: &Scanned<'t>,
    prev: PrevToken<'t>,
    from: Boundary,
    i: u32,
) -> PrevToken<'t>
    requires order { boundary_index from ≤ 2 * i }
    requires within { i ≤ length scanned.now.pairs }
    ensures { prev_view result ≡ prev_of_parts (prev_view prev.entry)
        (slice_range (parts scanned.now) (boundary_index from) (2 * i)) }
{
    if is_before_gap(from, i) {
        prev
    } else {
        token_at(scanned, i - 1)
    }
}

/// Returns the token directly before `to`, or `Nothing` if whitespace separates them. `prev` is the
/// token directly before `from`, for the case that there is no token between the two places.
pub fn prev_before<'t>(
    scanned: &Scanned<'t>,
    prev: PrevToken<'t>,
    from: Boundary,
    to: Boundary,
) -> PrevToken<'t>
    requires order { boundary_index from ≤ boundary_index to }
    requires within { boundary_index to ≤ 2 * length scanned.now.pairs }
    ensures { prev_view result
        ≡ prev_of_parts (prev_view prev.entry)
        (slice_range (parts scanned.now) (boundary_index from) (boundary_index to)) }
{
    match to {
        Boundary::Gap(i) => prev_before_gap(scanned, prev, from, i),
        Boundary::Token(i) => {
            if is_before_token(from, i) {
                prev
            } else if scanned.gap(i as usize).is_empty() {
                prev_before_gap(scanned, prev, from, i)
            } else {
                PrevToken::Nothing
            }
        }
    }
}

/// Returns whether `prev`, the token before `from`, joins with the first token up to `to`, with
/// nothing between.
pub fn is_glued(scanned: &Scanned<'_>, prev: PrevToken<'_>, from: Boundary, to: Boundary) -> bool
    requires order { boundary_index from ≤ boundary_index to }
    requires within { boundary_index to ≤ 2 * length scanned.now.pairs + 1 }
    ensures { result ≡ is_glued (prev_view prev.entry)
        (slice_range (parts scanned.now) (boundary_index from) (boundary_index to)) }
{
    match from {
        Boundary::Gap(i) => {
            if is_after(to, i) {
                if scanned.gap(i as usize).is_empty() {
                    joins_prev(prev, scanned.kind(i as usize), scanned.spelling(i as usize))
                } else {
                    false
                }
            } else {
                false
            }
        }
        Boundary::Token(i) => {
            if is_after(to, i) {
                joins_prev(prev, scanned.kind(i as usize), scanned.spelling(i as usize))
            } else {
                false
            }
        }
    }
}
