//! Quoted text that is one interpolation.

ghost use Rattle.std.specs.Prelude.{◌≡◌, ◌+◌, ◌-◌, false, Some, OnOk, option_map, []};
ghost use Rattle.std.specs.Prelude.{if◌then◌else◌};
ghost use Rattle.hcl_grammar.specs.declared.tree.Part.{out-Part};
ghost use Rattle.tf_rules.specs.Rules.Interpolation.{is_post, is_object_key, is_elsewhere, sole_part};
ghost use Rattle.tf_rules.specs.Rules.Interpolation.{part_interpolation, quoted_findings, may_find};
ghost use Rattle.tf_rules.specs.Rules.Interpolation.{is_interpolation_fixable, interpolation_findings};
ghost use Rattle.tf_rules.specs.Trivia.{token_range, has_line_end};
ghost use Rattle.tf_rules.specs.Unbroken.{AreUnbroken};
ghost use Rattle.tf_rules.specs.RuleSets.{has_rule};
ghost use Rattle.tf_rules.specs.Findings.{plain_message, finding_at, Adds};
ghost use Rattle.tf_rules.specs.declared.rule.Rule.TheVariants.{DeprecatedInterpolation};

use crate::context::LintContext;
use crate::role::Role;
use crate::summary::Pieces;
use crate::unbroken::{Unbroken, has_line_break_beyond};
use crate::{Finding, Fix, Insertion, KeptTokens, Message, Rule};
use hcl_grammar::tree::{Expr, ExprKind, Part, Template};
use std::alloc::AllocError;

/// Whether an expression of this role is the key of an object.
fn is_object_key(role: Role) -> bool
    ensures { result ≡ is_object_key role }
{
    match role {
        Role::ObjectKey => true,
        _ => false,
    }
}

/// Whether an expression of this role is a part of a larger one.
fn is_elsewhere(role: Role) -> bool
    ensures { result ≡ is_elsewhere role }
{
    match role {
        Role::Elsewhere => true,
        _ => false,
    }
}

/// Returns the expression of the only part if this is an interpolation, and otherwise `None`.
fn sole_part(parts: &[Part]) -> Option<&Expr>
    ensures { option_map (λ e. e.now) result ≡ sole_part parts.now }
{
    match parts {
        [part] => interpolated_expr(part),
        _ => None,
    }
}

/// Returns the expression of a part that is an interpolation, or `None` for another part.
fn interpolated_expr(part: &Part) -> Option<&Expr>
    ensures { option_map (λ e. e.now) result ≡ part_interpolation (out-Part part.now) }
{
    match part {
        Part::Literal(_) => None,
        Part::Interp(e) => Some(e.get()),
        Part::If(_) => None,
        Part::For(_) => None,
    }
}

/// Whether an expression is a term with its tails, if any: no operator and no conditional.
fn is_post(e: &Expr) -> bool
    ensures { result ≡ is_post e.now }
{
    match &e.kind {
        ExprKind::Postfix(_, _) => true,
        ExprKind::Term(_) => true,
        _ => false,
    }
}

/// Adds a finding of the rule at these tokens.
fn report(
    cx: &LintContext<'_, '_>,
    first: u32,
    past: u32,
    fix: Option<Fix>,
    found: &mut Vec<Finding>,
) -> Result<(), AllocError>
    ensures { OnOk result (Adds cx.now.scanned.now.pairs found.old.items found.new.items
        (finding_at DeprecatedInterpolation first past plain_message fix)) }
{
    let rule = Rule::DeprecatedInterpolation;
    cx.report(rule, first, past, Message::PLAIN, fix, found)
}

/// Adds quoted text with one interpolation and nothing else, but for the key of an object.
fn check_quoted(
    cx: &LintContext<'_, '_>,
    unbroken: &mut Unbroken,
    role: Role,
    first: u32,
    past: u32,
    t: &Template,
    found: &mut Vec<Finding>,
) -> Result<(), AllocError>
    requires { AreUnbroken cx.now.scanned.now.pairs unbroken.old.first unbroken.old.past }
    ensures found { OnOk result (Adds cx.now.scanned.now.pairs found.old.items found.new.items
        (quoted_findings cx.now.scanned.now.pairs role first past t.now)) }
    ensures unbroken { AreUnbroken cx.now.scanned.now.pairs unbroken.new.first unbroken.new.past }
{
    match sole_part(t.parts.as_slice()) {
        None => Ok(()),
        Some(e) => check_interpolation(cx, unbroken, role, first, past, e, found),
    }
}

/// Adds the quoted text that is the interpolation of `e`, but for the key of an object.
fn check_interpolation(
    cx: &LintContext<'_, '_>,
    unbroken: &mut Unbroken,
    role: Role,
    first: u32,
    past: u32,
    e: &Expr,
    found: &mut Vec<Finding>,
) -> Result<(), AllocError>
    requires { AreUnbroken cx.now.scanned.now.pairs unbroken.old.first unbroken.old.past }
    ensures found { OnOk result (Adds cx.now.scanned.now.pairs found.old.items found.new.items
        (interpolation_findings cx.now.scanned.now.pairs role first past (Some e.now))) }
    ensures unbroken { AreUnbroken cx.now.scanned.now.pairs unbroken.new.first unbroken.new.past }
{
    if is_object_key(role) {
        return Ok(());
    }
    if !is_interpolation_fixable(cx, unbroken, role, first, past, e) {
        return report(cx, first, past, None, found);
    }
    if past < 2 || first >= past - 2 {
        return Ok(());
    }
    let kept = KeptTokens {
        from: first + 2,
        to: past - 2,
        after: Insertion::Nothing,
    };
    let fix = Fix::Tokens {
        before: Insertion::Nothing,
        kept: [Some(kept), None],
    };
    report(cx, first, past, Some(fix), found)
}

/// Whether the quotes and braces can go: no line end would then be outside of brackets, and what
/// is inside is a term with its tails or the whole value at its place.
fn is_interpolation_fixable(
    cx: &LintContext<'_, '_>,
    unbroken: &mut Unbroken,
    role: Role,
    first: u32,
    past: u32,
    e: &Expr,
) -> bool
    requires { AreUnbroken cx.now.scanned.now.pairs unbroken.old.first unbroken.old.past }
    ensures value { result ≡ is_interpolation_fixable cx.now.scanned.now.pairs role first past e.now }
    ensures unbroken { AreUnbroken cx.now.scanned.now.pairs unbroken.new.first unbroken.new.past }
{
    if has_line_break_inside(cx, unbroken, first, past) {
        return false;
    }
    is_post(e) || !is_elsewhere(role)
}

/// Whether a line end is between the braces, outside of brackets.
fn has_line_break_inside(
    cx: &LintContext<'_, '_>,
    unbroken: &mut Unbroken,
    first: u32,
    past: u32,
) -> bool
    requires { AreUnbroken cx.now.scanned.now.pairs unbroken.old.first unbroken.old.past }
    ensures value { result
        ≡ has_line_end (token_range cx.now.scanned.now.pairs (first + 2) (past - 2)) }
    ensures unbroken { AreUnbroken cx.now.scanned.now.pairs unbroken.new.first unbroken.new.past }
{
    if past <= 2 || first >= past - 2 {
        return false;
    }
    if past - 2 - first <= 2 {
        return false;
    }
    has_line_break_beyond(unbroken, cx.scanned, false, first + 2, past - 2)
}

/// Adds quoted text with one interpolation and nothing else, but for the key of an object, if the
/// rule is enabled.
pub fn check(
    cx: &LintContext<'_, '_>,
    unbroken: &mut Unbroken,
    role: Role,
    first: u32,
    past: u32,
    t: &Template,
    found: &mut Vec<Finding>,
) -> Result<(), AllocError>
    requires { AreUnbroken cx.now.scanned.now.pairs unbroken.old.first unbroken.old.past }
    ensures found { OnOk result (Adds cx.now.scanned.now.pairs found.old.items found.new.items
        ((if has_rule cx.now.rules DeprecatedInterpolation
        then quoted_findings cx.now.scanned.now.pairs role first past t.now else []))) }
    ensures unbroken { AreUnbroken cx.now.scanned.now.pairs unbroken.new.first unbroken.new.past }
{
    if !cx.rules.has(Rule::DeprecatedInterpolation) {
        return Ok(());
    }
    check_quoted(cx, unbroken, role, first, past, t, found)
}

/// Whether the rule may find something at quoted text with these parts.
#[inline(always)]
pub fn may_find(parts: Pieces) -> bool
    ensures { result ≡ may_find parts }
{
    match parts {
        Pieces::Sole => true,
        _ => false,
    }
}
