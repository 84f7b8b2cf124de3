//! Where a mistake begins that shows only at a later token of its line.

ghost use Rattle.std.specs.Prelude.{◌≡◌, ◌<◌, ◌≤◌, IfSome};
ghost use Rattle.hcl_token.specs.TokenizedText.{kind_of};
ghost use Rattle.hcl_explain.specs.Explanations as spec;

use crate::advice::Advice;
use crate::head::HeadAdvice;
use crate::near::{first_from, kind_at, last_before};
use hcl_scan::{Kind, Scanned};

/// Returns the token with which this mistake begins, if that is before the token found, in its
/// line: the first of the line, or where an `=` is missing after it, or the word before.
pub fn beginning_of(scanned: &Scanned<'_>, advice: Advice, found: usize) -> Option<usize>
    ensures first { IfSome result (λ token. spec.first_in_line scanned.now.pairs found ≤ token) }
    ensures before { IfSome result (λ token. token < found) }
{
    let first = first_in_line(scanned, found);
    let token = match advice {
        Advice::ConflictMarker => first,
        Advice::Head(HeadAdvice::NoEqual | HeadAdvice::EqualOrBrace) => {
            first_from(scanned, first.saturating_add(1), false)
        }
        Advice::ForBrackets => word_before(scanned, found),
        _ => found,
    };
    if first <= token && token < found {
        Some(token)
    } else {
        None
    }
}

/// Returns the number of the token before token `found`, without comments.
fn word_before(scanned: &Scanned<'_>, found: usize) -> usize {
    match last_before(scanned, found, false) {
        Some(last) => last,
        None => found,
    }
}

/// Whether a line begins after token `i`.
fn is_before_line(scanned: &Scanned<'_>, i: usize) -> bool
    ensures { result ≡ spec.is_before_line (kind_of scanned.now.pairs i) }
{
    matches!(
        kind_at(scanned, i),
        Some(Kind::LineEnd | Kind::LineComment | Kind::Mark)
    )
}

/// Returns the number of the first token of the line in which token `i` is, or which it ends.
fn first_in_line(scanned: &Scanned<'_>, i: usize) -> usize
    ensures { result ≡ spec.first_in_line scanned.now.pairs i }
{
    let mut k = i;
    while k > 0 {
        let before = k - 1;
        if is_before_line(scanned, before) {
            return k;
        }
        k = before;
    }
    0
}
