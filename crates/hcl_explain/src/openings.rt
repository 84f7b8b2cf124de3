//! What opens, what closes, and what is not closed before a token.

ghost use Rattle.std.specs.Prelude.{◌≡◌, ◌<◌, ◌≤◌, IfSome, length};
ghost use Rattle.hcl_explain.specs.Openings as spec;
ghost use Rattle.std.specs.Bool.{Decides};
ghost use Rattle.hcl_explain.specs.Openings.{innermost_open, IsClosedBy, ClosesAny};

use crate::near::kind_at;
use hcl_scan::{Kind, Scanned};

/// Whether a token of the kind opens something: a bracket, a template sequence, quotes, a heredoc.
pub fn opens(kind: Kind) -> bool
    ensures { result ≡ spec.opens kind }
{
    matches!(
        kind,
        Kind::OpenParen
            | Kind::OpenBracket
            | Kind::OpenBrace
            | Kind::InterpOpen
            | Kind::DirectiveOpen
            | Kind::QuoteOpen
            | Kind::HereOpen
    )
}

/// Whether a token of the kind closes something.
pub fn closes(kind: Kind) -> bool
    ensures { result ≡ spec.closes kind }
{
    matches!(
        kind,
        Kind::CloseParen
            | Kind::CloseBracket
            | Kind::CloseBrace
            | Kind::SeqClose
            | Kind::QuoteClose
            | Kind::HereClose
    )
}

/// Returns the kind that closes an opening of this kind.
fn closing_of(opening: Kind) -> Option<Kind>
    ensures { result ≡ spec.closing_of opening }
{
    match opening {
        Kind::OpenParen => Some(Kind::CloseParen),
        Kind::OpenBracket => Some(Kind::CloseBracket),
        Kind::OpenBrace => Some(Kind::CloseBrace),
        Kind::InterpOpen | Kind::DirectiveOpen => Some(Kind::SeqClose),
        Kind::QuoteOpen => Some(Kind::QuoteClose),
        Kind::HereOpen => Some(Kind::HereClose),
        _ => None,
    }
}

/// Whether a token of this kind closes this opening.
pub fn is_closed_by(scanned: &Scanned<'_>, opening: usize, closing: Kind) -> bool
    ensures { Decides result (IsClosedBy scanned.now.pairs opening closing) }
{
    match kind_at(scanned, opening) {
        Some(kind) => match closing_of(kind) {
            Some(other) => other == closing,
            None => false,
        },
        None => false,
    }
}

/// Returns the number of the innermost opening that is not closed before token `before`. It is one
/// pass back over the tokens, which ends there.
pub fn innermost_open(scanned: &Scanned<'_>, before: usize) -> Option<usize>
    requires { before ≤ length scanned.now.pairs }
    ensures value { result ≡ innermost_open scanned.now.pairs before }
    ensures within { IfSome result (λ i. i < before) }
{
    let mut closed = 0usize;
    let mut i = before;
    while i > 0 {
        i -= 1;
        let kind = scanned.kind(i);
        if opens(kind) {
            if closed == 0 {
                return Some(i);
            }
            closed -= 1;
        } else if closes(kind) {
            closed += 1;
        }
    }
    None
}

/// Returns the number of the first token from number `from` on that closes more than was opened
/// from there on; how many tokens there are, if there is none.
pub fn closing_after(scanned: &Scanned<'_>, from: usize) -> usize {
    let mut opened = 0usize;
    for i in from..scanned.len() {
        let kind = scanned.kind(i);
        if opens(kind) {
            opened = opened.saturating_add(1);
        } else if closes(kind) {
            if opened == 0 {
                return i;
            }
            opened -= 1;
        }
    }
    scanned.len()
}

/// Whether a token of this kind closes one of the openings that are not closed before token
/// `before`.
pub fn closes_any(scanned: &Scanned<'_>, before: usize, closing: Kind) -> bool
    requires { before ≤ length scanned.now.pairs }
    ensures { Decides result (ClosesAny scanned.now.pairs before closing) }
{
    let mut at = before;
    while at > 0 {
        match innermost_open(scanned, at) {
            Some(opening) => {
                if is_closed_by(scanned, opening, closing) {
                    return true;
                }
                at = opening;
            }
            None => return false,
        }
    }
    false
}
