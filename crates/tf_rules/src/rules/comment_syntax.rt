//! Comments that begin with `//`.

ghost use Rattle.std.specs.Prelude.{◌≡◌, ◌<◌, ◌==◌, ◌&&◌, Some, slice_get, slice_index, length, OnOk};
ghost use Rattle.std.specs.Option.{option_map};
ghost use Rattle.tf_rules.specs.Findings.{Adds};
ghost use Rattle.hcl_token.specs.Tokens.{Pair};
ghost use Rattle.tf_rules.specs.Rules.CommentSyntax.{is_slash_comment, comment_finding, comment_finding_at};

use crate::{Finding, Fix, Message, Rule, RuleSet, add_finding};
use hcl_scan::Scanned;
use hcl_token::Kind;
use std::alloc::AllocError;

/// Whether a comment begins with `//`.
fn begins_with_slashes(spelling: &[u8]) -> bool
    ensures { result ≡ (slice_index spelling.now 0 == 47 && slice_index spelling.now 1 == 47) }
{
    spelling.starts_with(b"//")
}

/// Whether the token is a line comment that begins with `//`.
fn is_slash_comment(scanned: &Scanned<'_>, i: usize) -> bool
    requires { i < length scanned.now.pairs }
    ensures { Some result ≡ option_map is_slash_comment (slice_get scanned.now.pairs i) }
{
    scanned.kind(i) == Kind::LineComment && begins_with_slashes(scanned.spelling(i))
}

/// Adds the finding at token `i`, if `has_slashes` says that it is such a comment.
fn add_comment_finding(
    scanned: &Scanned<'_>,
    i: usize,
    has_slashes: bool,
    found: &mut Vec<Finding>,
) -> Result<(), AllocError>
    requires { i < length scanned.now.pairs }
    ensures { OnOk result (Adds scanned.now.pairs found.old.items found.new.items
        (comment_finding i has_slashes)) }
{
    let count = scanned.count();
    if !has_slashes {
        return Ok(());
    }
    let first = i as u32;
    let fix = Some(Fix::CommentMarker);
    let finding = Finding::new(Rule::CommentSyntax, first, first + 1, Message::PLAIN, fix);
    add_finding(found, count, finding)
}

/// Adds token `i`, if it is a comment that begins with `//` and the rule is in the set.
///
/// # Errors
///
/// `AllocError` if memory runs out.
pub fn check_comment(
    scanned: &Scanned<'_>,
    rules: RuleSet,
    i: usize,
    found: &mut Vec<Finding>,
) -> Result<(), AllocError>
    requires { i < length scanned.now.pairs }
    ensures { (p : Pair) → slice_get scanned.now.pairs i ≡ Some p
        → OnOk result (Adds scanned.now.pairs found.old.items found.new.items
        (comment_finding_at rules i p)) }
{
    if !rules.has(Rule::CommentSyntax) {
        return Ok(());
    }
    let has_slashes = is_slash_comment(scanned, i);
    add_comment_finding(scanned, i, has_slashes, found)
}
