//! The next token that counts, over the tokens of a text.

ghost use Rattle.std.specs.Prelude.{◌≡◌, ◌≢◌, ◌<◌, ◌+◌, ◌^◌, true, false, length, slice_get, OnSome};
ghost use Rattle.hcl_grammar.specs.Tokens as tokens;
ghost use Rattle.hcl_scan.specs.Follows.{tokens_of};

use hcl_scan::Scanned;
use hcl_token::Kind;

/// Whether two kinds are the same: `==`, with what each answer means.
#[tactic(auto, unfolding(hcl_grammar::specs::Tokens::same_kind))]
pub fn same_kind(a: Kind, b: Kind) -> bool
    ensures value { result ≡ tokens.same_kind a b }
    ensures same { result ≡ true → a ≡ b }
    ensures other { result ≡ false → a ≢ b }
{
    a == b
}

/// Whether a token of this kind is skipped.
fn is_skipped(skip_newlines: bool, kind: Kind) -> bool
    ensures { result ≡ tokens.is_skipped skip_newlines kind }
{
    match kind {
        Kind::InlineComment => true,
        Kind::LineEnd | Kind::LineComment => skip_newlines,
        _ => false,
    }
}

/// Returns the number of the next token that is not dropped, and its kind; the number of tokens, if
/// there is none.
#[tactic(auto, using(crate::proofs::Places::places), unfolding(hcl_grammar::specs::Tokens::next_kind, hcl_grammar::specs::Tokens::next_token))]
pub fn next_token(scanned: &Scanned<'_>, skip_newlines: bool, at: usize) -> (usize, Option<Kind>)
    ensures number { result.0 ≡ tokens.next_index (tokens_of scanned.now.pairs) skip_newlines at }
    ensures kind { result.1 ≡ tokens.next_kind (tokens_of scanned.now.pairs) skip_newlines at }
    ensures within { OnSome result.1 (result.0 < length (tokens_of scanned.now.pairs)) }
    ensures fits { OnSome result.1 (result.0 + 1 < 2 ^ 32) }
    ensures place { at < 2 ^ 32 → result.0 < 2 ^ 32 }
{
    let end = scanned.count() as usize;
    let mut i = at;
    // for the proof: the label names the loop's invariant
    'skip: while i < end {
        let kind = scanned.kind(i);
        if !is_skipped(skip_newlines, kind) {
            return (i, Some(kind));
        }
        i += 1;
    }
    (i, None)
}

/// Returns the same as `next_token` where line ends count. Most often it is the token at this
/// place, as one look shows.
#[inline(always)]
#[tactic(auto, using(crate::proofs::Places::places), unfolding(hcl_grammar::specs::Tokens::next_kind, hcl_grammar::specs::Tokens::next_token, hcl_grammar::specs::Tokens::same_kind))]
pub fn next_outside(scanned: &Scanned<'_>, at: u32) -> (u32, Option<Kind>)
    ensures number { result.0 ≡ tokens.next_index (tokens_of scanned.now.pairs) false at }
    ensures kind { result.1 ≡ tokens.next_kind (tokens_of scanned.now.pairs) false at }
    ensures fits { OnSome result.1 (result.0 + 1 < 2 ^ 32) }
{
    if at < scanned.count() {
        let kind = scanned.kind(at as usize);
        if !same_kind(kind, Kind::InlineComment) {
            return (at, Some(kind));
        }
    }
    skip_outside(scanned, at)
}

/// Returns the same as `next_token` where line ends count.
#[inline(never)]
fn skip_outside(scanned: &Scanned<'_>, at: u32) -> (u32, Option<Kind>)
    ensures number { result.0 ≡ tokens.next_index (tokens_of scanned.now.pairs) false at }
    ensures kind { result.1 ≡ tokens.next_kind (tokens_of scanned.now.pairs) false at }
    ensures fits { OnSome result.1 (result.0 + 1 < 2 ^ 32) }
{
    let (number, kind) = next_token(scanned, false, at as usize);
    (number as u32, kind)
}

/// Whether token `number` is an identifier with this spelling.
pub fn is_word(scanned: &Scanned<'_>, number: u32, word: &[u8]) -> bool
    requires { number < length (tokens_of scanned.now.pairs) }
    ensures { result ≡ tokens.is_word word.now (slice_get (tokens_of scanned.now.pairs) number) }
{
    let number = number as usize;
    same_kind(scanned.kind(number), Kind::Identifier) && scanned.spelling(number) == word
}
