//! The members of a text's body, read and looked at one by one.
//!
//! HCL native syntax specification, Structural Elements.

ghost use Rattle.std.specs.Prelude.{◌≡◌, ◌≢◌, ◌∷◌, [], ◌++◌, true, List, OnOk, IfOk, IfErr, Err};
ghost use Rattle.hcl_grammar.specs.Pure.BodyParser as spec;
ghost use Rattle.hcl_grammar.specs.Pure.NodeMakers.{nodes};
ghost use Rattle.hcl_grammar.specs.declared.fault.TokenFault.TheVariants as fault;
ghost use Rattle.hcl_grammar.specs.declared.tree.Member.{Member};
ghost use Rattle.hcl_grammar.specs.declared.bounds.TheConstants.{MAX_NESTING};
ghost use Rattle.hcl_scan.specs.Follows.{tokens_of};
ghost use Rattle.hcl_token.specs.Tokens.{Pair};
ghost use Rattle.tf_lint.specs.Inner.BodyFindings.{AreBodyFindings, IsBodyRead};
ghost use Rattle.tf_lint.specs.LintedMembers.{IsLintedMember, AreLintedMembers};
ghost use Rattle.tf_rules.specs.declared.rule_set.RuleSet.{RuleSet};

use crate::member::{LintedMember, next_member};
use crate::search::Search;
use hcl_grammar::fault::TokenFault;
use hcl_tree::reading::Reader;
use std::alloc::{AllocError, Global};
use tf_rules::Finding;

/// What was read of a body.
#[derive(Drop)]
pub struct BodyFindings {
    /// Its members, each with what was found in it, as far as they are kept.
    pub members: Vec<LintedMember>,
    /// What was found at the nodes of its members.
    pub node_findings: Vec<Finding>,
    /// What was found at those of them that are blocks.
    pub block_findings: Vec<Finding>,
}

/// Appends findings; if there are none yet, without a copy.
pub fn append_findings(found: &mut Vec<Finding>, more: Vec<Finding>) -> Result<(), AllocError>
    ensures { OnOk result (found.new.items ≡ found.old.items ++ more.items) }
{
    if found.is_empty() {
        *found = more;
        return Ok(());
    }
    found.extend_from_slice(&more)
}

/// Adds a member and what was found in it, and keeps the member.
fn keep_member(body: &mut BodyFindings, x: LintedMember) -> Result<(), AllocError>
    ensures members { OnOk result (body.new.members.items ≡ body.old.members.items ++ x ∷ []) }
    ensures nodes { OnOk result
        (body.new.node_findings.items ≡ body.old.node_findings.items ++ x.node_findings.items) }
    ensures blocks { OnOk result
        (body.new.block_findings.items ≡ body.old.block_findings.items ++ x.block_findings.items) }
{
    body.node_findings.extend_from_slice(&x.node_findings)?;
    body.block_findings.extend_from_slice(&x.block_findings)?;
    body.members.push(x)?;
    Ok(())
}

/// Adds what was found in a member, which is given up.
fn merge_member(body: &mut BodyFindings, x: LintedMember) -> Result<(), AllocError>
    ensures members { OnOk result (body.new.members.items ≡ body.old.members.items) }
    ensures nodes { OnOk result
        (body.new.node_findings.items ≡ body.old.node_findings.items ++ x.node_findings.items) }
    ensures blocks { OnOk result
        (body.new.block_findings.items ≡ body.old.block_findings.items ++ x.block_findings.items) }
{
    append_findings(&mut body.node_findings, x.node_findings)?;
    append_findings(&mut body.block_findings, x.block_findings)
}

/// In a member that is kept no more is found than this.
const MAX_KEPT_FINDINGS: usize = 4096;

/// Returns whether a member is worth keeping. Where very much is found in one, a fix changes it in
/// nearly each step, so that it is read again; and a second list of that would be most of the
/// memory.
fn is_worth_keeping(x: &LintedMember) -> bool {
    x.node_findings.len() <= MAX_KEPT_FINDINGS && x.block_findings.len() <= MAX_KEPT_FINDINGS
}

/// Adds a member that may be kept.
fn add_member(
    body: &mut BodyFindings,
    x: LintedMember,
    keep_members: bool,
) -> Result<(), AllocError>
    ensures { (rules : RuleSet) (pairs : List Pair) (ms : List Member)
        → AreBodyFindings rules pairs ms body.old → (is : IsLintedMember rules pairs x)
        → OnOk result (AreBodyFindings rules pairs (ms ++ is.member ∷ []) body.new) }
{
    if keep_members && is_worth_keeping(&x) {
        keep_member(body, x)
    } else {
        merge_member(body, x)
    }
}

/// After this number of members in a row with findings, one is likely in the next.
const LIKELY: u32 = 2;

/// Returns how many members in a row have findings, with one more after this number of them.
fn count_in_a_row(before: u32, x: &LintedMember) -> u32 {
    if x.node_findings.is_empty() && x.block_findings.is_empty() {
        return 0;
    }
    before.saturating_add(1)
}

/// Reads the members of a body and returns what the rules find in them.
///
/// # Errors
///
/// That of the parser at the first member that has one, and `Memory`.
pub fn lint_body(
    alloc: Global,
    search: &Search<'_, '_, '_>,
    at: &mut u32,
) -> Result<BodyFindings, TokenFault>
    requires { AreLintedMembers search.now.rules search.now.old.now.pairs search.now.old_members.now }
    ensures members_linted { IfOk result
        (λ found. IsBodyRead search.now.rules search.now.scanned.now.pairs
        (spec.members nodes (tokens_of search.now.scanned.now.pairs) MAX_NESTING at.old) at.new found) }
    ensures fault { IfErr result
        (λ e. e ≢ fault.Memory
        → spec.members nodes (tokens_of search.now.scanned.now.pairs) MAX_NESTING at.old ≡ Err e) }
{
    let reader = Reader::new(alloc, search.scanned);
    let mut found = BodyFindings {
        members: Vec::new(alloc),
        node_findings: Vec::new(alloc),
        block_findings: Vec::new(alloc),
    };
    let mut in_a_row = 0;
    for _turn in 0..search.scanned.len() {
        if reader.eat_newline(at) {
            continue;
        }
        let is_likely = in_a_row >= LIKELY;
        let Some(x) = next_member(alloc, search, found.members.len(), is_likely, at)? else {
            return Ok(found);
        };
        in_a_row = count_in_a_row(in_a_row, &x);
        add_member(&mut found, x, search.keep_members)?;
    }
    Ok(found)
}
