//! The walk over bodies, and over a whole tree.

ghost use Rattle.std.specs.Prelude.{◌≡◌, ◌∷◌, [], map, OnOk, IfOk};
ghost use Rattle.hcl_grammar.specs.declared.tree.Content.{out-Content};
ghost use Rattle.hcl_grammar.specs.declared.tree.Member.{out-Member};
ghost use Rattle.tf_rules.specs.Unbroken.{AreUnbroken};
ghost use Rattle.tf_findings.specs.Inner.Collects.{Walked};
ghost use Rattle.tf_findings.specs.TreeFindings.{AreAddedFindings, AreTreeFindings};
ghost use Rattle.tf_rules.specs.Preorder.{member, member_children, content_children, option_children};

use crate::expressions::walk_expr;
use crate::walk::WalkContext;
use hcl_grammar::tree::{Attribute, Content, Member, Tree};
use hcl_grammar::{Boxed, Items};
use hcl_scan::Scanned;
use std::alloc::{AllocError, Global};
use tf_rules::{Finding, LintContext, Role, RuleSet, Unbroken};

/// Adds what the rules find at the nodes of these members, one after the other.
#[cycle(bodies)]
fn walk_members(
    cx: &WalkContext<'_, '_>,
    members: &Items<Member>,
    found: &mut Vec<Finding>,
) -> Result<(), AllocError>
    requires { AreUnbroken cx.now.lint.scanned.now.pairs cx.now.unbroken.first cx.now.unbroken.past }
    ensures { OnOk result (Walked cx.now (map member members.now) found.old.items found.new.items) }
{
    for x in members.as_slice() {
        walk_member(cx, x, found)?;
    }
    Ok(())
}

/// Adds what the rules find at the nodes of an attribute or a block.
#[cycle(bodies)]
fn walk_member(
    cx: &WalkContext<'_, '_>,
    x: &Member,
    found: &mut Vec<Finding>,
) -> Result<(), AllocError>
    requires { AreUnbroken cx.now.lint.scanned.now.pairs cx.now.unbroken.first cx.now.unbroken.past }
    ensures { OnOk result
        (Walked cx.now (member_children (out-Member x.now)) found.old.items found.new.items) }
{
    match x {
        Member::Attribute(a) => walk_expr(cx, Role::AttributeValue, a.value.get(), found),
        Member::Block(b) => walk_content(cx, &b.content, found),
    }
}

/// Adds what the rules find at the nodes between the braces of a block.
#[cycle(bodies)]
fn walk_content(
    cx: &WalkContext<'_, '_>,
    content: &Content,
    found: &mut Vec<Finding>,
) -> Result<(), AllocError>
    requires { AreUnbroken cx.now.lint.scanned.now.pairs cx.now.unbroken.first cx.now.unbroken.past }
    ensures { OnOk result
        (Walked cx.now (content_children (out-Content content.now)) found.old.items found.new.items) }
{
    match content {
        Content::Body(body) => walk_members(cx, &body.get().members, found),
        Content::OneLine(a) => walk_optional_attribute(cx, a, found),
    }
}

/// Adds what the rules find at the nodes of the attribute that a block on one line may have.
fn walk_optional_attribute(
    cx: &WalkContext<'_, '_>,
    a: &Option<Boxed<Attribute>>,
    found: &mut Vec<Finding>,
) -> Result<(), AllocError>
    requires { AreUnbroken cx.now.lint.scanned.now.pairs cx.now.unbroken.first cx.now.unbroken.past }
    ensures { OnOk result (Walked cx.now (option_children a.now) found.old.items found.new.items) }
{
    match a {
        Some(a) => walk_expr(cx, Role::AttributeValue, a.get().value.get(), found),
        None => Ok(()),
    }
}

/// Returns what the rules of the set on expressions find in a tree, in preorder.
///
/// TFLint ruleset for the Terraform language.
///
/// # Errors
///
/// `AllocError` if memory runs out.
pub fn tree_findings(
    alloc: Global,
    scanned: &Scanned<'_>,
    tree: &Tree,
    rules: RuleSet,
) -> Result<Vec<Finding>, AllocError>
    ensures { IfOk result
        (λ found. AreTreeFindings rules scanned.now.pairs
        (map member tree.now.body.members) found.items) }
{
    let cx = WalkContext {
        lint: LintContext { scanned, rules },
        unbroken: Unbroken::none(),
    };
    let mut found = Vec::new(alloc);
    walk_members(&cx, &tree.body.members, &mut found)?;
    Ok(found)
}

/// Adds what the rules of the set find in an attribute or a block, as `tree_findings` finds it in a
/// whole tree.
///
/// TFLint ruleset for the Terraform language.
///
/// # Errors
///
/// `AllocError` if memory runs out.
pub fn add_node_findings(
    scanned: &Scanned<'_>,
    rules: RuleSet,
    x: &Member,
    found: &mut Vec<Finding>,
) -> Result<(), AllocError>
    ensures { OnOk result
        (AreAddedFindings rules scanned.now.pairs (member x.now ∷ []) found.old.items found.new.items) }
{
    let cx = WalkContext {
        lint: LintContext { scanned, rules },
        unbroken: Unbroken::none(),
    };
    walk_member(&cx, x, found)
}
