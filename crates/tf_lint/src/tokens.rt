//! Tokens that are in two texts.

ghost use Rattle.std.specs.Prelude.{◌≡◌, ◌≢◌, ◌<◌, ◌≤◌, ◌+◌, true, false, length, take, drop, slice_get};
ghost use Rattle.hcl_scan.specs.Follows.{tokens_of};
ghost use Rattle.tf_reuse.specs.SameTokens.{SameTokens};

use hcl_reader::same_kind;
use hcl_scan::Scanned;

/// Whether two spellings are one.
fn same_spelling(a: &[u8], b: &[u8]) -> bool
    ensures same { result ≡ true → a.now ≡ b.now }
    ensures other { result ≡ false → a.now ≢ b.now }
{
    a == b
}

/// Whether a token of the one text is of the same kind as one of the other, and spelled alike.
fn same_token(old: &Scanned<'_>, new: &Scanned<'_>, i: usize, j: usize) -> bool
    requires old { i < length old.now.pairs }
    requires new { j < length new.now.pairs }
    ensures same { result ≡ true
        → slice_get (tokens_of old.now.pairs) i ≡ slice_get (tokens_of new.now.pairs) j }
    ensures other { result ≡ false
        → slice_get (tokens_of old.now.pairs) i ≢ slice_get (tokens_of new.now.pairs) j }
{
    if !same_kind(old.kind(i), new.kind(j)) {
        return false;
    }
    same_spelling(old.spelling(i), new.spelling(j))
}

/// Returns whether `count` tokens are the same with the gaps between them: their bytes are compared
/// at once.
#[tactic(auto, using(crate::proofs::TokenLemmas::stretch_tokens))]
fn same_stretch(old: &Scanned<'_>, new: &Scanned<'_>, from: usize, to: usize, count: usize) -> bool
    requires old { from + count ≤ length old.now.pairs }
    requires new { to + count ≤ length new.now.pairs }
    ensures { result ≡ true
        → take count (drop from (tokens_of old.now.pairs))
        ≡ take count (drop to (tokens_of new.now.pairs)) }
{
    old.has_same_tokens(from, new, to, count)
}

/// Returns whether `count` tokens are the same, one by one, whatever the gaps between them.
fn same_each(old: &Scanned<'_>, new: &Scanned<'_>, from: usize, to: usize, count: usize) -> bool
    requires old { from + count ≤ length old.now.pairs }
    requires new { to + count ≤ length new.now.pairs }
    ensures same { result ≡ true
        → SameTokens (tokens_of old.now.pairs) (tokens_of new.now.pairs) from to count }
    ensures other { result ≡ false
        → ¬ (SameTokens (tokens_of old.now.pairs) (tokens_of new.now.pairs) from to count) }
{
    // for the proof: the numbers of tokens fit 32 bits
    let _all = old.count();
    let _all = new.count();
    for k in 0..count {
        if !same_token(old, new, from + k, to + k) {
            return false;
        }
    }
    true
}

/// Returns whether the `count` tokens of the old text from number `from` on are those of the new
/// one from number `to` on.
pub fn same_tokens(old: &Scanned<'_>, new: &Scanned<'_>, from: u32, to: u32, count: u32) -> bool
    ensures same { result ≡ true
        → SameTokens (tokens_of old.now.pairs) (tokens_of new.now.pairs) from to count }
    ensures other { result ≡ false
        → ¬ (SameTokens (tokens_of old.now.pairs) (tokens_of new.now.pairs) from to count) }
{
    if count > old.count() || from > old.count() - count {
        return false;
    }
    if count > new.count() || to > new.count() - count {
        return false;
    }
    same_stretch(old, new, from as usize, to as usize, count as usize)
        || same_each(old, new, from as usize, to as usize, count as usize)
}
