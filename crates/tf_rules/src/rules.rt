//! The rules, a module each, and what they find: at a node, without the nodes inside of it, and at
//! the blocks of a text at top level.

ghost use Rattle.std.specs.Prelude.{◌≡◌, OnOk};
ghost use Rattle.tf_rules.specs.Rules.{node_findings, top_level_block_findings};
ghost use Rattle.tf_rules.specs.Rules.{top_level_member_findings, top_level_findings};
ghost use Rattle.tf_rules.specs.Rules.{may_find_at_call, may_find_at_quoted, may_find_at_operand};
ghost use Rattle.tf_rules.specs.Preorder.{expr, term, tail};
ghost use Rattle.tf_rules.specs.Findings.{Adds};
ghost use Rattle.tf_rules.specs.Unbroken.{AreUnbroken};

pub mod comment_syntax;
pub mod equality;
pub mod index;
pub mod interpolation;
pub mod lookup;
pub mod missing;
pub mod naming;

use crate::context::LintContext;
use crate::role::Role;
use crate::summary::{Count, Pieces, Value};
use crate::unbroken::Unbroken;
use crate::{Finding, RuleSet};
use hcl_grammar::tree::{Block, Expr, ExprKind, Member, Primary, Tail, Term, Tree};
use hcl_scan::Scanned;
use std::alloc::AllocError;

/// Adds what the rules find at an expression in this role.
///
/// # Errors
///
/// `AllocError` if memory runs out.
pub fn check_expr(
    cx: &LintContext<'_, '_>,
    role: Role,
    e: &Expr,
    found: &mut Vec<Finding>,
) -> Result<(), AllocError>
    ensures { OnOk result (Adds cx.now.scanned.now.pairs found.old.items found.new.items
        (node_findings cx.now.rules cx.now.scanned.now.pairs (expr role e.now))) }
{
    match &e.kind {
        ExprKind::Conditional(_, _, _) => Ok(()),
        ExprKind::Binary(head, operations) => {
            let operations = operations.get().as_slice();
            equality::check(cx, e.first, head.get(), operations, found)
        }
        ExprKind::Unary(_, _) => Ok(()),
        ExprKind::Postfix(_, _) => Ok(()),
        ExprKind::Term(_) => Ok(()),
    }
}

/// Adds what the rules find at a term. `role` is the role of the expression if it is this term
/// alone, else `Elsewhere`. `unbroken` has what is known of the tokens, and takes what is found out
/// of them here, so that the terms inside this one need not look at them again.
///
/// # Errors
///
/// `AllocError` if memory runs out.
pub fn check_term_beyond(
    cx: &LintContext<'_, '_>,
    unbroken: &mut Unbroken,
    role: Role,
    t: &Term,
    found: &mut Vec<Finding>,
) -> Result<(), AllocError>
    requires { AreUnbroken cx.now.scanned.now.pairs unbroken.old.first unbroken.old.past }
    ensures found { OnOk result (Adds cx.now.scanned.now.pairs found.old.items found.new.items
        (node_findings cx.now.rules cx.now.scanned.now.pairs (term role t.now))) }
    ensures unbroken { AreUnbroken cx.now.scanned.now.pairs unbroken.new.first unbroken.new.past }
{
    let (first, past) = (t.first, t.past);
    match &t.kind {
        Primary::Number => Ok(()),
        Primary::Identifier => Ok(()),
        Primary::Call(c) => lookup::check(cx, unbroken, first, past, c.get(), found),
        Primary::Tuple(_) => Ok(()),
        Primary::Object(_) => Ok(()),
        Primary::ForTuple(_) => Ok(()),
        Primary::ForObject(_) => Ok(()),
        Primary::Quoted(text) => {
            interpolation::check(cx, unbroken, role, first, past, text.get(), found)
        }
        Primary::Heredoc(_) => Ok(()),
        Primary::Parens(_) => Ok(()),
    }
}

/// Adds what the rules find at a tail of a term. `splat` says that `.*` precedes it, with only
/// attribute names and legacy indices in between.
///
/// # Errors
///
/// `AllocError` if memory runs out.
pub fn check_tail(
    cx: &LintContext<'_, '_>,
    splat: bool,
    t: &Tail,
    found: &mut Vec<Finding>,
) -> Result<(), AllocError>
    ensures { OnOk result (Adds cx.now.scanned.now.pairs found.old.items found.new.items
        (node_findings cx.now.rules cx.now.scanned.now.pairs (tail splat t.now))) }
{
    match t {
        Tail::Name(_) => Ok(()),
        Tail::LegacyIndex(n) => index::check(cx, splat, *n, found),
        Tail::AttributeSplat => Ok(()),
        Tail::FullSplat => Ok(()),
        Tail::Index(_) => Ok(()),
    }
}

/// Whether a rule may find something at a call of the function that token `name` names, if its name
/// is one token, by how many arguments it has, and whether the last is expanded (`...`).
#[inline(always)]
pub fn may_find_at_call(
    scanned: &Scanned<'_>,
    name: Option<u32>,
    arguments: Count,
    expands: bool,
) -> bool
    ensures { result ≡ may_find_at_call scanned.now.pairs name arguments expands }
{
    lookup::may_find(scanned, name, arguments, expands)
}

/// Whether a rule may find something at quoted text with these parts.
#[inline(always)]
pub fn may_find_at_quoted(parts: Pieces) -> bool
    ensures { result ≡ may_find_at_quoted parts }
{
    interpolation::may_find(parts)
}

/// Whether a rule may find something at an operator one of whose operands has this summary.
#[inline(always)]
pub fn may_find_at_operand(operand: Value) -> bool
    ensures { result ≡ may_find_at_operand operand }
{
    equality::may_find(operand)
}

/// Adds what the rules of the set find at a block of a text's body.
fn check_block(
    cx: &LintContext<'_, '_>,
    b: &Block,
    found: &mut Vec<Finding>,
) -> Result<(), AllocError>
    ensures { OnOk result (Adds cx.now.scanned.now.pairs found.old.items found.new.items
        (top_level_block_findings cx.now.rules cx.now.scanned.now.pairs b.now)) }
{
    naming::check(cx, b, found)?;
    missing::check(cx, b, found)?;
    Ok(())
}

/// Adds what the rules of the set find at a member of a text's body: nothing at an attribute.
fn check_member(
    cx: &LintContext<'_, '_>,
    m: &Member,
    found: &mut Vec<Finding>,
) -> Result<(), AllocError>
    ensures { OnOk result (Adds cx.now.scanned.now.pairs found.old.items found.new.items
        (top_level_member_findings cx.now.rules cx.now.scanned.now.pairs m.now)) }
{
    match m {
        Member::Attribute(_) => Ok(()),
        Member::Block(b) => check_block(cx, b, found),
    }
}

/// Adds what the rules of the set find at these members, from the first to the last.
fn check_members(
    cx: &LintContext<'_, '_>,
    members: &[Member],
    found: &mut Vec<Finding>,
) -> Result<(), AllocError>
    ensures { OnOk result (Adds cx.now.scanned.now.pairs found.old.items found.new.items
        (top_level_findings cx.now.rules cx.now.scanned.now.pairs members.now)) }
{
    for m in members {
        check_member(cx, m, found)?;
    }
    Ok(())
}

/// Adds what the rules of the set find at the blocks of a text's body, from the first to the last.
///
/// TFLint ruleset for the Terraform language.
///
/// # Errors
///
/// `AllocError` if memory runs out.
pub fn add_top_level_findings(
    scanned: &Scanned<'_>,
    tree: &Tree,
    rules: RuleSet,
    found: &mut Vec<Finding>,
) -> Result<(), AllocError>
    ensures { OnOk result (Adds scanned.now.pairs found.old.items found.new.items
        (top_level_findings rules scanned.now.pairs tree.now.body.members)) }
{
    check_members(
        &LintContext { scanned, rules },
        tree.body.members.as_slice(),
        found,
    )
}

/// Adds what the rules of the set find at an attribute or a block of a text's body, as
/// `add_top_level_findings` adds it for all of them.
///
/// TFLint ruleset for the Terraform language.
///
/// # Errors
///
/// `AllocError` if memory runs out.
pub fn add_top_level_member_findings(
    scanned: &Scanned<'_>,
    rules: RuleSet,
    m: &Member,
    found: &mut Vec<Finding>,
) -> Result<(), AllocError>
    ensures { OnOk result (Adds scanned.now.pairs found.old.items found.new.items
        (top_level_member_findings rules scanned.now.pairs m.now)) }
{
    check_member(&LintContext { scanned, rules }, m, found)
}
