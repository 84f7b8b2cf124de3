//! One member of a text's body, and what the rules find in it.

ghost use Rattle.std.specs.Prelude.{◌≡◌, ◌≢◌, ◌+◌, ◌-◌, ◌<◌, ◌^◌, ◌∷◌};
ghost use Rattle.std.specs.Prelude.{[], length, true, false, None, Ok, IfOk};
ghost use Rattle.std.specs.Prelude.{IfErr, IfSome, Err};
ghost use Rattle.hcl_grammar.specs.Pure.BodyParser as spec;
ghost use Rattle.hcl_grammar.specs.Pure.NodeMakers.{nodes};
ghost use Rattle.hcl_grammar.specs.Tokens as tokens;
ghost use Rattle.hcl_grammar.specs.declared.fault.TokenFault.TheVariants as fault;
ghost use Rattle.hcl_grammar.specs.declared.bounds.TheConstants.{MAX_NESTING};
ghost use Rattle.hcl_scan.specs.Follows.{tokens_of};
ghost use Rattle.tf_rules.specs.Preorder as node;
ghost use Rattle.tf_findings.specs.TreeFindings.{AreTreeFindings};
ghost use Rattle.tf_glance.specs.CleanMember.{IsCleanMember, IsMemberFault};
ghost use Rattle.tf_reuse.specs.SameTokens.{SameTokens};
ghost use Rattle.tf_lint.specs.Inner.BodyFindings.{IsNextMember};
ghost use Rattle.tf_lint.specs.LintedMembers.{IsLintedMember, AreLintedMembers};
ghost use Rattle.tf_rules.specs.Findings.{valid_findings};
ghost use Rattle.tf_rules.specs.declared.rule_set.RuleSet.{RuleSet};
ghost use Rattle.tf_rules.specs.Rules.{top_level_member_findings};

use crate::search::Search;
use crate::tokens::same_tokens;
use hcl_grammar::fault::TokenFault;
use hcl_grammar::tree::Member;
use hcl_scan::Scanned;
use hcl_tree::MAX_NESTING;
use hcl_tree::reading::{Reader, member};
use std::alloc::{AllocError, Global};
use tf_glance::skip_clean_member;
use tf_reuse::renumber_findings;
use tf_rules::{Finding, RuleSet};
use tf_rules_laws::laws::unchanged_members_keep_findings;

/// A member of a text's body: where it was read, and what the rules find in it.
#[derive(Drop)]
pub struct LintedMember {
    /// The number of the token that it was read from, at or before its first token: the tokens
    /// between are skipped.
    pub from: u32,
    /// One more than the number of its last token.
    pub past: u32,
    /// What is found at its nodes.
    pub node_findings: Vec<Finding>,
    /// What is found at it, if it is a block.
    pub block_findings: Vec<Finding>,
}

/// The least capacity of a vector that `push` has allocated.
const MIN_GROWN_CAPACITY: usize = 4;

/// Returns the same findings, without spare capacity if they are few: most members have one or two,
/// and are kept while their text is fixed.
fn shrink(alloc: Global, found: Vec<Finding>) -> Result<Vec<Finding>, AllocError>
    ensures { IfOk result (λ list. list.items ≡ found.items) }
{
    if found.is_empty() || found.len() >= MIN_GROWN_CAPACITY {
        return Ok(found);
    }
    let mut list = Vec::with_capacity(alloc, found.len())?;
    list.extend_from_slice(&found)?;
    Ok(list)
}

/// Lints a member that was read from token `from` up to token `past` (exclusive).
fn lint_member(
    alloc: Global,
    scanned: &Scanned<'_>,
    rules: RuleSet,
    from: u32,
    past: u32,
    x: &Member,
) -> Result<LintedMember, AllocError>
    ensures place { IfOk result (λ linted. (linted.from ≡ from) × (linted.past ≡ past)) }
    ensures at_nodes { IfOk result
        (λ linted. AreTreeFindings rules scanned.now.pairs
        (node.member x.now ∷ []) linted.node_findings.items) }
    ensures at_block { IfOk result
        (λ linted. linted.block_findings.items
        ≡ valid_findings (length scanned.now.pairs)
        (top_level_member_findings rules scanned.now.pairs x.now)) }
{
    let mut node_findings = Vec::new(alloc);
    tf_findings::add_node_findings(scanned, rules, x, &mut node_findings)?;
    let mut block_findings = Vec::new(alloc);
    tf_rules::add_top_level_member_findings(scanned, rules, x, &mut block_findings)?;
    let node_findings = shrink(alloc, node_findings)?;
    let block_findings = shrink(alloc, block_findings)?;
    Ok(LintedMember {
        from,
        past,
        node_findings,
        block_findings,
    })
}

/// Returns a clean member that was skipped from token `from` up to token `past` (exclusive).
fn clean_member(alloc: Global, from: u32, past: u32) -> LintedMember
    ensures from { result.from ≡ from }
    ensures past { result.past ≡ past }
    ensures nodes { result.node_findings.items ≡ [] }
    ensures blocks { result.block_findings.items ≡ [] }
{
    LintedMember {
        from,
        past,
        node_findings: Vec::new(alloc),
        block_findings: Vec::new(alloc),
    }
}

/// Skips the next member if it is clean, and returns whether it did; else the place stays. Where a
/// finding is likely the member is not looked at.
fn skip_unlikely_member(
    alloc: Global,
    scanned: &Scanned<'_>,
    is_likely: bool,
    at: &mut u32,
) -> Result<bool, TokenFault>
    ensures passed { result ≡ Ok true → IsCleanMember scanned.now.pairs at.old at.new }
    ensures stays { result ≡ Ok false → at.new ≡ at.old }
    ensures fault { IfErr result (λ e. IsMemberFault scanned.now.pairs at.old e) }
{
    if is_likely {
        return Ok(false);
    }
    skip_clean_member(alloc, scanned, at)
}

/// Reads the next member from token `at` on and returns it with its findings, or `None` if there is
/// none. Moves `at` to the end of what was read. No tree is made of a clean member, unless a finding
/// was likely.
fn lint_next_member(
    alloc: Global,
    scanned: &Scanned<'_>,
    rules: RuleSet,
    is_likely: bool,
    at: &mut u32,
) -> Result<Option<LintedMember>, TokenFault>
    ensures next { IfOk result (λ x. IsNextMember rules scanned.now.pairs at.old x at.new) }
    ensures fault { let ts = tokens_of scanned.now.pairs in
        IfErr result (λ e. e ≢ fault.Memory
        → spec.member_of nodes ts MAX_NESTING (spec.deeper_members nodes ts MAX_NESTING) at.old
        ≡ Err e) }
{
    let from = *at;
    if skip_unlikely_member(alloc, scanned, is_likely, at)? {
        return Ok(Some(clean_member(alloc, from, *at)));
    }
    let Some(x) = member(&Reader::new(alloc, scanned), at)? else {
        return Ok(None);
    };
    Ok(Some(lint_member(alloc, scanned, rules, from, *at, &x)?))
}

/// Returns whether the tokens of a member of the old text are in the new one from number `at` on.
/// One that no token follows is read again: what ends it may be the end of the text.
fn is_unchanged(
    alloc: Global,
    old: &Scanned<'_>,
    scanned: &Scanned<'_>,
    old_member: &LintedMember,
    at: u32,
) -> bool
    ensures same { result ≡ true
        → SameTokens (tokens_of old.now.pairs) (tokens_of scanned.now.pairs) old_member.now.from at
        (old_member.now.past - old_member.now.from) }
    ensures whole { result ≡ true
        → old_member.now.from + (old_member.now.past - old_member.now.from) ≡ old_member.now.past }
    ensures more { result ≡ true
        → tokens.next_kind (tokens_of old.now.pairs) false old_member.now.past ≢ None }
    ensures fits { result ≡ true → at + (old_member.now.past - old_member.now.from) < 2 ^ 32 }
{
    // for the proof: the number of tokens fits 32 bits
    let _all = scanned.count();
    if old_member.past < old_member.from {
        return false;
    }
    if Reader::new(alloc, old).next_kind(old_member.past).is_none() {
        return false;
    }
    same_tokens(
        old,
        scanned,
        old_member.from,
        at,
        old_member.past - old_member.from,
    )
}

/// Returns a member of the old text with its numbers in the new one, if its tokens are there from
/// number `at` on.
fn reuse_member(
    alloc: Global,
    old: &Scanned<'_>,
    scanned: &Scanned<'_>,
    old_member: &LintedMember,
    at: u32,
) -> Result<Option<LintedMember>, AllocError>
    ensures { (rules : RuleSet) → IsLintedMember rules old.now.pairs old_member.now
        → IfOk result (λ o. IfSome o (λ x. (x.from ≡ at) × IsLintedMember rules scanned.now.pairs x)) }
{
    unchanged_members_keep_findings();
    if !is_unchanged(alloc, old, scanned, old_member, at) {
        return Ok(None);
    }
    let node_findings = renumber_findings(alloc, &old_member.node_findings, old_member.from, at)?;
    let block_findings = renumber_findings(alloc, &old_member.block_findings, old_member.from, at)?;
    Ok(Some(LintedMember {
        from: at,
        past: at + (old_member.past - old_member.from),
        node_findings,
        block_findings,
    }))
}

/// Returns the member with this index of the old text, if there is one and its tokens are in the
/// new one from number `at` on.
fn reuse_member_at(
    alloc: Global,
    search: &Search<'_, '_, '_>,
    index: usize,
    at: u32,
) -> Result<Option<LintedMember>, AllocError>
    ensures { (rules : RuleSet)
        → AreLintedMembers rules search.now.old.now.pairs search.now.old_members.now
        → IfOk result (λ o. IfSome o (λ x. (x.from ≡ at)
        × IsLintedMember rules search.now.scanned.now.pairs x)) }
{
    if index >= search.old_members.len() {
        return Ok(None);
    }
    reuse_member(
        alloc,
        search.old,
        search.scanned,
        &search.old_members[index],
        at,
    )
}

/// Returns the next member, if there is one: that of the old text with this index, if its tokens
/// are here, else as it is read. For speed alone it is given whether a finding is likely in it.
///
/// # Errors
///
/// That of the parser at the member, if it has one, and `Memory`.
pub fn next_member(
    alloc: Global,
    search: &Search<'_, '_, '_>,
    index: usize,
    is_likely: bool,
    at: &mut u32,
) -> Result<Option<LintedMember>, TokenFault>
    requires { AreLintedMembers search.now.rules search.now.old.now.pairs search.now.old_members.now }
    ensures next { IfOk result
        (λ x. IsNextMember search.now.rules search.now.scanned.now.pairs at.old x at.new) }
    ensures fault { let ts = tokens_of search.now.scanned.now.pairs in
        IfErr result (λ e. e ≢ fault.Memory
        → spec.member_of nodes ts MAX_NESTING (spec.deeper_members nodes ts MAX_NESTING) at.old
        ≡ Err e) }
{
    let Some(x) = reuse_member_at(alloc, search, index, *at)? else {
        return lint_next_member(alloc, search.scanned, search.rules, is_likely, at);
    };
    *at = x.past;
    Ok(Some(x))
}
