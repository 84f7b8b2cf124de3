//! The next comment of a text, for speed alone: most tokens are none, and a loop that calls nothing
//! keeps what it reads in registers.

ghost use Rattle.std.specs.Prelude.{◌≡◌, ◌<◌, ◌≤◌, ◌+◌, ℕ, Some, true, false, length};
ghost use Rattle.hcl_token.specs.TokenizedText.{kind_of};
ghost use Rattle.hcl_token.specs.declared.kind.Kind.{Kind};
ghost use Rattle.hcl_token.specs.Kinds.{is_comment};
ghost use Rattle.tf_findings.specs.declared.next_comment.TheConstants.{BLOCK};
ghost use Rattle.tf_findings.specs.Inner.NextComment.{IsNoComment, AreNoComments, HasComment};

use crate::silencing::is_comment;
use hcl_scan::Scanned;
use hcl_token::Kind;

/// Whether a token of the kind is a comment.
fn is_comment_kind(kind: Kind) -> bool
    ensures value { result ≡ is_comment kind }
    ensures none { result ≡ false → IsNoComment kind }
{
    is_comment(kind)
}

/// Returns the number of the first comment from token `from` on, or `to` if there is none before
/// that.
#[inline(always)]
fn first_comment(scanned: &Scanned<'_>, from: usize, to: usize) -> usize
    requires order { from ≤ to }
    requires within { to ≤ length scanned.now.pairs }
    ensures later { from ≤ result }
    ensures within { result ≤ to }
    ensures none { AreNoComments scanned.now.pairs from result }
    ensures comment { result < to → (kind : Kind) → Some kind ≡ kind_of scanned.now.pairs result
        → is_comment kind ≡ true }
{
    for i in from..to {
        if is_comment_kind(scanned.kind(i)) {
            return i;
        }
    }
    to
}

/// How many tokens are looked at one by one before others are looked at together.
const NEAR: usize = 8;

/// How many tokens are looked at together.
const BLOCK: usize = 32;

/// Whether none of the tokens of a block is a comment, which begins with token `from`. No early
/// end: the processor looks at several at once.
#[inline(always)]
fn is_free_block(scanned: &Scanned<'_>, from: usize) -> bool
    requires { from + BLOCK ≤ length scanned.now.pairs }
    ensures free { result ≡ true → AreNoComments scanned.now.pairs from (from + BLOCK) }
    ensures comment { result ≡ false → HasComment scanned.now.pairs from (from + BLOCK) }
{
    // for the proof: the number of tokens fits a usize
    let _count = scanned.len();
    let mut is_free = true;
    for i in 0..BLOCK {
        is_free &= !is_comment_kind(scanned.kind(from + i));
    }
    is_free
}

/// Passes blocks without a comment from token `from` on. Returns the number at which a block with
/// one begins, or after which fewer tokens are left than a block has.
fn past_blocks(scanned: &Scanned<'_>, from: usize) -> usize
    requires { from ≤ length scanned.now.pairs }
    ensures later { from ≤ result }
    ensures within { result ≤ length scanned.now.pairs }
    ensures none { AreNoComments scanned.now.pairs from result }
    ensures all { result + BLOCK ≤ length scanned.now.pairs
        → HasComment scanned.now.pairs result (result + BLOCK) }
{
    let mut at = from;
    // for the proof: the label names the loop's invariant
    'free: while scanned.len() - at >= BLOCK {
        if !is_free_block(scanned, at) {
            return at;
        }
        at += BLOCK;
    }
    at
}

/// Returns the number of the first comment from token `from` on, or how many tokens there are. The
/// next tokens are looked at one by one, so that no block is looked at where comments are close.
pub fn next_comment(scanned: &Scanned<'_>, from: usize) -> usize
    requires { from ≤ length scanned.now.pairs }
    ensures later { from ≤ result }
    ensures within { result ≤ length scanned.now.pairs }
    ensures none { AreNoComments scanned.now.pairs from result }
    ensures comment { (kind : Kind) → Some kind ≡ kind_of scanned.now.pairs result
        → is_comment kind ≡ true }
{
    let count = scanned.len();
    let near = from + (count - from).min(NEAR);
    let first = first_comment(scanned, from, near);
    if first < near {
        return first;
    }
    let start = past_blocks(scanned, near);
    first_comment(scanned, start, count)
}
