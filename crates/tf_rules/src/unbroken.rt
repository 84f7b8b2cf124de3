//! Tokens that are known to have no line end among them. Interpolations and lookups nest, so each
//! token is looked at for the outermost of them alone.

ghost use Rattle.std.specs.Prelude.{◌≡◌, List};
ghost use Rattle.hcl_token.specs.Tokens.{Pair};
ghost use Rattle.tf_rules.specs.Trivia.{token_range, has_line_break};
ghost use Rattle.tf_rules.specs.Unbroken.{AreUnbroken};

use crate::trivia::{has_line_break, is_line_break};
use hcl_scan::Scanned;

/// The tokens from number `first` to number `past` (exclusive). None of them is a line end or a
/// line comment.
#[derive(Clone, Copy)]
pub struct Unbroken {
    pub first: u32,
    pub past: u32,
}

impl Unbroken {
    /// Returns an empty range of tokens.
    pub fn none() -> Unbroken
        ensures { (pairs : List Pair) → AreUnbroken pairs result.first result.past }
    {
        Unbroken { first: 0, past: 0 }
    }
}

/// Returns the number of the first line end or line comment among the tokens, or the number after
/// the last of them.
#[tactic(auto, using(crate::proofs::UnbrokenLemmas::one_more, crate::proofs::UnbrokenLemmas::fewer))]
fn first_break(scanned: &Scanned<'_>, first: u32, past: u32) -> u32
    ensures { AreUnbroken scanned.now.pairs first result }
{
    let end = past.min(scanned.count());
    for i in first..end {
        if is_line_break(true, scanned.kind(i as usize)) {
            return i;
        }
    }
    end
}

/// Returns the known tokens, or, if token `first` is after them or before, those from it on.
fn unbroken_from(scanned: &Scanned<'_>, known: Unbroken, first: u32, past: u32) -> Unbroken
    requires { AreUnbroken scanned.now.pairs known.first known.past }
    ensures { AreUnbroken scanned.now.pairs result.first result.past }
{
    if known.first <= first && first < known.past {
        return known;
    }
    Unbroken {
        first,
        past: first_break(scanned, first, past),
    }
}

/// Returns what `has_line_break` returns, and updates `unbroken`, the tokens that are known to have
/// no line break among them, so that nested ones are not looked at again.
#[tactic(auto, using(crate::proofs::UnbrokenLemmas::has_none))]
pub fn has_line_break_beyond(
    unbroken: &mut Unbroken,
    scanned: &Scanned<'_>,
    count_comments: bool,
    first: u32,
    past: u32,
) -> bool
    requires { AreUnbroken scanned.now.pairs unbroken.old.first unbroken.old.past }
    ensures value { result ≡ has_line_break count_comments 0 (token_range scanned.now.pairs first past) }
    ensures unbroken { AreUnbroken scanned.now.pairs unbroken.new.first unbroken.new.past }
{
    let known = unbroken_from(scanned, *unbroken, first, past);
    *unbroken = known;
    if known.first <= first && past <= known.past {
        return false;
    }
    has_line_break(scanned, count_comments, first, past)
}
