//! The walk over expressions and templates.

ghost use Rattle.std.specs.Prelude.{◌≡◌, [], ◌∷◌, map, false, OnOk};
ghost use Rattle.std.specs.List.{flat_map};
ghost use Rattle.hcl_grammar.specs.declared.tree.ExprKind.{out-ExprKind};
ghost use Rattle.hcl_grammar.specs.declared.tree.Operation.{Operation};
ghost use Rattle.hcl_grammar.specs.declared.tree.Primary.{out-Primary};
ghost use Rattle.hcl_grammar.specs.declared.tree.Tail.{out-Tail};
ghost use Rattle.hcl_grammar.specs.declared.tree.Part.{out-Part};
ghost use Rattle.tf_rules.specs.declared.role.Role.TheVariants as role;
ghost use Rattle.tf_rules.specs.Unbroken.{AreUnbroken};
ghost use Rattle.tf_findings.specs.Inner.Collects.{Walked};
ghost use Rattle.tf_rules.specs.Preorder.{Node, expr, term, tail, part, elem_children, expr_kind_children};
ghost use Rattle.tf_rules.specs.Preorder.{primary_children, nodes_of_tails, filter_children, else_children};
ghost use Rattle.tf_rules.specs.Preorder.{part_children, for_tuple_children, for_object_children};
ghost use Rattle.tf_rules.specs.Preorder.{if_children, splat_after, tail_children};

use crate::walk::WalkContext;
use hcl_grammar::tree::{
    Elem, Expr, ExprKind, ForDirective, ForObject, ForTuple, IfDirective, Operation, Part, Primary,
    Tail, Template, Term,
};
use hcl_grammar::{Boxed, Items};
use std::alloc::AllocError;
use tf_rules::{Finding, Role, check_expr, check_tail, check_term_beyond};

/// Adds what the rules find at an expression in this role, and then at the nodes inside of it.
#[cycle(expressions)]
pub fn walk_expr(
    cx: &WalkContext<'_, '_>,
    role: Role,
    e: &Expr,
    found: &mut Vec<Finding>,
) -> Result<(), AllocError>
    requires { AreUnbroken cx.now.lint.scanned.now.pairs cx.now.unbroken.first cx.now.unbroken.past }
    ensures { OnOk result (Walked cx.now (expr role e.now ∷ []) found.old.items found.new.items) }
{
    check_expr(&cx.lint, role, e, found)?;
    walk_expr_kind(cx, role, &e.kind, found)?;
    Ok(())
}

/// Adds what the rules find at the nodes inside of an expression in this role.
#[cycle(expressions)]
fn walk_expr_kind(
    cx: &WalkContext<'_, '_>,
    role: Role,
    kind: &ExprKind,
    found: &mut Vec<Finding>,
) -> Result<(), AllocError>
    requires { AreUnbroken cx.now.lint.scanned.now.pairs cx.now.unbroken.first cx.now.unbroken.past }
    ensures { OnOk result
        (Walked cx.now (expr_kind_children role (out-ExprKind kind.now)) found.old.items found.new.items) }
{
    match kind {
        ExprKind::Conditional(c, then_branch, else_branch) => {
            walk_boxed(cx, Role::Elsewhere, c, found)?;
            walk_boxed(cx, Role::Elsewhere, then_branch, found)?;
            walk_boxed(cx, Role::Elsewhere, else_branch, found)?;
            Ok(())
        }
        ExprKind::Binary(head, rest) => {
            walk_boxed(cx, Role::Elsewhere, head, found)?;
            walk_operations(cx, rest.get(), found)?;
            Ok(())
        }
        ExprKind::Unary(_, operand) => {
            walk_boxed(cx, Role::Elsewhere, operand, found)?;
            Ok(())
        }
        ExprKind::Postfix(t, other_tails) => {
            walk_term(cx, Role::Elsewhere, t.get(), found)?;
            walk_tails(cx, other_tails.get(), found)?;
            Ok(())
        }
        ExprKind::Term(t) => {
            walk_term(cx, role, t, found)?;
            Ok(())
        }
    }
}

/// Adds what the rules find in a boxed expression of this role.
#[cycle(expressions)]
fn walk_boxed(
    cx: &WalkContext<'_, '_>,
    role: Role,
    e: &Boxed<Expr>,
    found: &mut Vec<Finding>,
) -> Result<(), AllocError>
    requires { AreUnbroken cx.now.lint.scanned.now.pairs cx.now.unbroken.first cx.now.unbroken.past }
    ensures { OnOk result (Walked cx.now (expr role e.now ∷ []) found.old.items found.new.items) }
{
    walk_expr(cx, role, e.get(), found)
}

/// Adds what the rules find at the operands of a chain after the first, and inside of them.
#[cycle(expressions)]
fn walk_operations(
    cx: &WalkContext<'_, '_>,
    operations: &Items<Operation>,
    found: &mut Vec<Finding>,
) -> Result<(), AllocError>
    requires { AreUnbroken cx.now.lint.scanned.now.pairs cx.now.unbroken.first cx.now.unbroken.past }
    ensures { OnOk result
        (Walked cx.now (map (λ (l : Operation). expr role.Elsewhere l.operand) operations.now)
        found.old.items found.new.items) }
{
    for link in operations.as_slice() {
        walk_expr(cx, Role::Elsewhere, &link.operand, found)?;
    }
    Ok(())
}

/// Adds what the rules find at the tails of a term and inside of them, in order.
#[cycle(expressions)]
fn walk_tails(
    cx: &WalkContext<'_, '_>,
    tails: &Items<Tail>,
    found: &mut Vec<Finding>,
) -> Result<(), AllocError>
    requires { AreUnbroken cx.now.lint.scanned.now.pairs cx.now.unbroken.first cx.now.unbroken.past }
    ensures { OnOk result
        (Walked cx.now (nodes_of_tails false tails.now) found.old.items found.new.items) }
{
    let mut splat = false;
    for t in tails.as_slice() {
        walk_tail(cx, splat, t, found)?;
        splat = splat_after(splat, t);
    }
    Ok(())
}

/// Adds what the rules find at a tail, and then inside of it. `splat` is as for `check_tail`.
#[cycle(expressions)]
fn walk_tail(
    cx: &WalkContext<'_, '_>,
    splat: bool,
    t: &Tail,
    found: &mut Vec<Finding>,
) -> Result<(), AllocError>
    requires { AreUnbroken cx.now.lint.scanned.now.pairs cx.now.unbroken.first cx.now.unbroken.past }
    ensures { OnOk result (Walked cx.now (tail splat t.now ∷ []) found.old.items found.new.items) }
{
    check_tail(&cx.lint, splat, t, found)?;
    walk_tail_children(cx, t, found)?;
    Ok(())
}

/// Adds what the rules find at the nodes inside of a tail: an index has an expression.
#[cycle(expressions)]
fn walk_tail_children(
    cx: &WalkContext<'_, '_>,
    t: &Tail,
    found: &mut Vec<Finding>,
) -> Result<(), AllocError>
    requires { AreUnbroken cx.now.lint.scanned.now.pairs cx.now.unbroken.first cx.now.unbroken.past }
    ensures { OnOk result
        (Walked cx.now (tail_children (out-Tail t.now)) found.old.items found.new.items) }
{
    match t {
        Tail::Name(_) => Ok(()),
        Tail::LegacyIndex(_) => Ok(()),
        Tail::AttributeSplat => Ok(()),
        Tail::FullSplat => Ok(()),
        Tail::Index(e) => walk_boxed(cx, Role::Index, e, found),
    }
}

/// Adds what the rules find at expressions that have one role, and inside of them.
#[cycle(expressions)]
fn walk_exprs(
    cx: &WalkContext<'_, '_>,
    role: Role,
    es: &Items<Expr>,
    found: &mut Vec<Finding>,
) -> Result<(), AllocError>
    requires { AreUnbroken cx.now.lint.scanned.now.pairs cx.now.unbroken.first cx.now.unbroken.past }
    ensures { OnOk result (Walked cx.now (map (expr role) es.now) found.old.items found.new.items) }
{
    for e in es.as_slice() {
        walk_expr(cx, role, e, found)?;
    }
    Ok(())
}

/// Adds what the rules find at the elements of an object, at each key and then at its value.
#[cycle(expressions)]
fn walk_elems(
    cx: &WalkContext<'_, '_>,
    xs: &Items<Elem>,
    found: &mut Vec<Finding>,
) -> Result<(), AllocError>
    requires { AreUnbroken cx.now.lint.scanned.now.pairs cx.now.unbroken.first cx.now.unbroken.past }
    ensures { OnOk result
        (Walked cx.now (flat_map elem_children xs.now) found.old.items found.new.items) }
{
    for x in xs.as_slice() {
        walk_expr(cx, Role::ObjectKey, &x.key, found)?;
        walk_expr(cx, Role::ObjectValue, &x.value, found)?;
    }
    Ok(())
}

/// Adds what the rules find at the condition that a `for` may have, and inside of it.
#[cycle(expressions)]
fn walk_filter(
    cx: &WalkContext<'_, '_>,
    filter: &Option<Boxed<Expr>>,
    found: &mut Vec<Finding>,
) -> Result<(), AllocError>
    requires { AreUnbroken cx.now.lint.scanned.now.pairs cx.now.unbroken.first cx.now.unbroken.past }
    ensures { OnOk result
        (Walked cx.now (filter_children filter.now) found.old.items found.new.items) }
{
    match filter {
        Some(e) => walk_expr(cx, Role::Elsewhere, e.get(), found),
        None => Ok(()),
    }
}

/// Adds what the rules find at a term, and then inside of it. `role` is as for
/// `check_term_beyond`.
#[cycle(expressions)]
fn walk_term(
    cx: &WalkContext<'_, '_>,
    role: Role,
    t: &Term,
    found: &mut Vec<Finding>,
) -> Result<(), AllocError>
    requires { AreUnbroken cx.now.lint.scanned.now.pairs cx.now.unbroken.first cx.now.unbroken.past }
    ensures { OnOk result (Walked cx.now (term role t.now ∷ []) found.old.items found.new.items) }
{
    match &t.kind {
        // no rule finds anything here, and no nodes are inside
        Primary::Number => Ok(()),
        Primary::Identifier => Ok(()),
        // nor here, and what is known of the tokens stays
        Primary::Tuple(elements) => walk_exprs(cx, Role::Element, elements.get(), found),
        Primary::Object(elements) => walk_elems(cx, elements.get(), found),
        Primary::Parens(inner) => walk_boxed(cx, Role::Parentheses, inner, found),
        _ => {
            let mut unbroken = cx.unbroken;
            check_term_beyond(&cx.lint, &mut unbroken, role, t, found)?;
            let inside = WalkContext {
                lint: cx.lint,
                unbroken,
            };
            walk_primary(&inside, &t.kind, found)?;
            Ok(())
        }
    }
}

/// Adds what the rules find at the nodes inside of a term.
///
/// `walk_term` alone calls it, and not at numbers, names, tuples, objects and parentheses: their
/// arms are there since a `match` has all of them, and its clause speaks of each node.
#[cycle(expressions)]
fn walk_primary(
    cx: &WalkContext<'_, '_>,
    primary: &Primary,
    found: &mut Vec<Finding>,
) -> Result<(), AllocError>
    requires { AreUnbroken cx.now.lint.scanned.now.pairs cx.now.unbroken.first cx.now.unbroken.past }
    ensures { OnOk result
        (Walked cx.now (primary_children (out-Primary primary.now)) found.old.items found.new.items) }
{
    match primary {
        Primary::Number => Ok(()),
        Primary::Identifier => Ok(()),
        Primary::Call(c) => walk_exprs(cx, Role::Argument, &c.get().arguments, found),
        Primary::Tuple(es) => walk_exprs(cx, Role::Element, es.get(), found),
        Primary::Object(xs) => walk_elems(cx, xs.get(), found),
        Primary::ForTuple(f) => walk_for_tuple(cx, f.get(), found),
        Primary::ForObject(f) => walk_for_object(cx, f.get(), found),
        Primary::Quoted(t) => walk_parts(cx, &t.get().parts, found),
        Primary::Heredoc(t) => walk_parts(cx, &t.get().parts, found),
        Primary::Parens(e) => walk_boxed(cx, Role::Parentheses, e, found),
    }
}

/// Adds what the rules find in a `for` in square brackets.
#[cycle(expressions)]
fn walk_for_tuple(
    cx: &WalkContext<'_, '_>,
    f: &ForTuple,
    found: &mut Vec<Finding>,
) -> Result<(), AllocError>
    requires { AreUnbroken cx.now.lint.scanned.now.pairs cx.now.unbroken.first cx.now.unbroken.past }
    ensures { OnOk result
        (Walked cx.now (for_tuple_children f.now) found.old.items found.new.items) }
{
    walk_expr(cx, Role::Elsewhere, &f.intro.collection, found)?;
    walk_expr(cx, Role::Elsewhere, &f.value, found)?;
    walk_filter(cx, &f.filter, found)?;
    Ok(())
}

/// Adds what the rules find in a `for` in braces.
#[cycle(expressions)]
fn walk_for_object(
    cx: &WalkContext<'_, '_>,
    f: &ForObject,
    found: &mut Vec<Finding>,
) -> Result<(), AllocError>
    requires { AreUnbroken cx.now.lint.scanned.now.pairs cx.now.unbroken.first cx.now.unbroken.past }
    ensures { OnOk result
        (Walked cx.now (for_object_children f.now) found.old.items found.new.items) }
{
    walk_expr(cx, Role::Elsewhere, &f.intro.collection, found)?;
    walk_expr(cx, Role::Elsewhere, &f.key, found)?;
    walk_expr(cx, Role::Elsewhere, &f.value, found)?;
    walk_filter(cx, &f.filter, found)?;
    Ok(())
}

/// Adds what the rules find in the parts of a template, in order.
#[cycle(expressions)]
fn walk_parts(
    cx: &WalkContext<'_, '_>,
    parts: &Items<Part>,
    found: &mut Vec<Finding>,
) -> Result<(), AllocError>
    requires { AreUnbroken cx.now.lint.scanned.now.pairs cx.now.unbroken.first cx.now.unbroken.past }
    ensures { OnOk result (Walked cx.now (map part parts.now) found.old.items found.new.items) }
{
    for x in parts.as_slice() {
        walk_part(cx, x, found)?;
    }
    Ok(())
}

/// Adds what the rules find in a part of a template: in literal text nothing.
#[cycle(expressions)]
fn walk_part(cx: &WalkContext<'_, '_>, x: &Part, found: &mut Vec<Finding>) -> Result<(), AllocError>
    requires { AreUnbroken cx.now.lint.scanned.now.pairs cx.now.unbroken.first cx.now.unbroken.past }
    ensures { OnOk result
        (Walked cx.now (part_children (out-Part x.now)) found.old.items found.new.items) }
{
    match x {
        Part::Literal(_) => Ok(()),
        Part::Interp(e) => walk_boxed(cx, Role::Interpolation, e, found),
        Part::If(d) => walk_if_directive(cx, d.get(), found),
        Part::For(d) => walk_for_directive(cx, d.get(), found),
    }
}

/// Adds what the rules find in an `if` directive: in its condition and its branches.
#[cycle(expressions)]
fn walk_if_directive(
    cx: &WalkContext<'_, '_>,
    d: &IfDirective,
    found: &mut Vec<Finding>,
) -> Result<(), AllocError>
    requires { AreUnbroken cx.now.lint.scanned.now.pairs cx.now.unbroken.first cx.now.unbroken.past }
    ensures { OnOk result (Walked cx.now (if_children d.now) found.old.items found.new.items) }
{
    walk_expr(cx, Role::Elsewhere, &d.condition, found)?;
    walk_parts(cx, &d.then_branch.parts, found)?;
    walk_else_branch(cx, &d.else_branch, found)?;
    Ok(())
}

/// Adds what the rules find after the `else` that an `if` directive may have.
#[cycle(expressions)]
fn walk_else_branch(
    cx: &WalkContext<'_, '_>,
    else_branch: &Option<Template>,
    found: &mut Vec<Finding>,
) -> Result<(), AllocError>
    requires { AreUnbroken cx.now.lint.scanned.now.pairs cx.now.unbroken.first cx.now.unbroken.past }
    ensures { OnOk result
        (Walked cx.now (else_children else_branch.now) found.old.items found.new.items) }
{
    match else_branch {
        Some(t) => walk_parts(cx, &t.parts, found),
        None => Ok(()),
    }
}

/// Adds what the rules find in a `for` directive: in its collection and its body.
#[cycle(expressions)]
fn walk_for_directive(
    cx: &WalkContext<'_, '_>,
    d: &ForDirective,
    found: &mut Vec<Finding>,
) -> Result<(), AllocError>
    requires { AreUnbroken cx.now.lint.scanned.now.pairs cx.now.unbroken.first cx.now.unbroken.past }
    ensures { OnOk result
        (Walked cx.now (expr role.Elsewhere d.now.intro.collection ∷ map part d.now.body.parts)
        found.old.items found.new.items) }
{
    walk_expr(cx, Role::Elsewhere, &d.intro.collection, found)?;
    walk_parts(cx, &d.body.parts, found)?;
    Ok(())
}

/// Whether `.*` precedes the place after a tail, with only attribute names and legacy indices in
/// between; `splat` says so of the place before the tail.
fn splat_after(splat: bool, tail: &Tail) -> bool
    ensures { result ≡ splat_after splat (out-Tail tail.now) }
{
    match tail {
        Tail::Name(_) => splat,
        Tail::LegacyIndex(_) => splat,
        Tail::AttributeSplat => true,
        Tail::FullSplat => false,
        Tail::Index(_) => false,
    }
}
