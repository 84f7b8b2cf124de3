//! Comparisons with an empty list.

ghost use Rattle.std.specs.Prelude.{◌≡◌, ◌+◌, ◌-◌, ◌==◌, ◌&&◌, not, true, OnOk, length, []};
ghost use Rattle.std.specs.Prelude.{if◌then◌else◌};
ghost use Rattle.tf_rules.specs.Rules.Equality.{is_empty_list, is_equality, is_double_equal, length_fix};
ghost use Rattle.tf_rules.specs.Rules.Equality.{operation_findings, chain_findings, may_find};
ghost use Rattle.tf_rules.specs.Fixes.{when};
ghost use Rattle.tf_rules.specs.declared.rule.Rule.TheVariants.{EmptyListEquality};
ghost use Rattle.tf_rules.specs.RuleSets.{has_rule};
ghost use Rattle.tf_rules.specs.Findings.{plain_message, finding_at, Adds};
ghost use Rattle.tf_rules.specs.Trivia.{token_range, has_trivia, is_here_close};

use crate::context::LintContext;
use crate::summary::Value;
use crate::trivia::{has_trivia, is_here_close};
use crate::{Finding, Fix, Insertion, KeptTokens, Message, Rule};
use hcl_grammar::tree::{BinaryOperator, Expr, ExprKind, Operation, Primary};
use hcl_scan::Scanned;
use std::alloc::AllocError;

/// Whether the comparison of the empty list with the operand that ends before token `past` can be
/// written as a length, if tokens `from` to `to` (exclusive) are between the two.
fn is_comparison_fixable(scanned: &Scanned<'_>, empty: &Expr, past: u32, from: u32, to: u32) -> bool
    ensures { result
        ≡ ((empty.now.past == empty.now.first + 2)
        && (not (has_trivia (token_range scanned.now.pairs from to))
        && not (is_here_close scanned.now.pairs (past - 1)))) }
{
    empty.past >= 2
        && empty.past - 2 == empty.first
        && !has_trivia(scanned, from, to)
        && !is_here_close(scanned, past.saturating_sub(1))
}

/// Whether an operator is `==` or `!=`.
fn is_equality(operator: BinaryOperator) -> bool
    ensures { result ≡ is_equality operator }
{
    match operator {
        BinaryOperator::Equal | BinaryOperator::NotEqual => true,
        _ => false,
    }
}

/// Whether an operator is `==`.
fn is_double_equal(operator: BinaryOperator) -> bool
    ensures { result ≡ is_double_equal operator }
{
    match operator {
        BinaryOperator::Equal => true,
        _ => false,
    }
}

/// Whether an expression is an empty list by itself, without tails and parentheses.
fn is_empty_list(e: &Expr) -> bool
    ensures { result ≡ is_empty_list e.now }
{
    match &e.kind {
        ExprKind::Term(t) => match &t.kind {
            Primary::Tuple(es) => es.get().is_empty(),
            _ => false,
        },
        _ => false,
    }
}

/// Returns the fix that writes `length(`, the tokens of the operand, and `) == 0` or `) > 0`.
fn length_fix(from: u32, to: u32, is_zero_test: bool) -> Fix
    ensures { result ≡ length_fix from to is_zero_test }
{
    let after = if is_zero_test {
        Insertion::IsZero
    } else {
        Insertion::IsPositive
    };
    let kept = KeptTokens { from, to, after };
    Fix::Tokens {
        before: Insertion::Length,
        kept: [Some(kept), None],
    }
}

/// Adds the comparison at an operator, if it is `==` or `!=` and the operand on its right is an
/// empty list, or, at the first operator of a chain, the one on its left.
fn check_operation(
    cx: &LintContext<'_, '_>,
    first: u32,
    is_first: bool,
    left: &Expr,
    operation: &Operation,
    found: &mut Vec<Finding>,
) -> Result<(), AllocError>
    ensures { OnOk result (Adds cx.now.scanned.now.pairs found.old.items found.new.items
        (operation_findings cx.now.scanned.now.pairs first is_first left.now operation.now)) }
{
    if !is_equality(operation.operator) {
        return Ok(());
    }
    let right = &operation.operand;
    let left_past = left.past;
    let (right_first, right_past) = (right.first, right.past);
    let is_zero_test = is_double_equal(operation.operator);
    if is_empty_list(right) {
        let fixable = is_comparison_fixable(cx.scanned, right, left_past, left_past, right_first);
        let operand = (first, left_past);
        return add_comparison(cx, first, right_past, fixable, operand, is_zero_test, found);
    }
    if is_first && is_empty_list(left) {
        let fixable = is_comparison_fixable(cx.scanned, left, right_past, left_past, right_first);
        let operand = (right_first, right_past);
        return add_comparison(cx, first, right_past, fixable, operand, is_zero_test, found);
    }
    Ok(())
}

/// Adds a comparison of the tokens of `operand` with an empty list.
fn add_comparison(
    cx: &LintContext<'_, '_>,
    first: u32,
    past: u32,
    fixable: bool,
    operand: (u32, u32),
    is_zero_test: bool,
    found: &mut Vec<Finding>,
) -> Result<(), AllocError>
    ensures { OnOk result (Adds cx.now.scanned.now.pairs found.old.items found.new.items
        (finding_at EmptyListEquality first past plain_message
        (when fixable (length_fix operand.0 operand.1 is_zero_test)))) }
{
    let (from, to) = operand;
    let fix = length_fix(from, to, is_zero_test).when(fixable);
    let rule = Rule::EmptyListEquality;
    cx.report(rule, first, past, Message::PLAIN, fix, found)
}

/// Adds the comparisons at the operators of a chain that begins at token `first`.
fn check_chain(
    cx: &LintContext<'_, '_>,
    first: u32,
    head: &Expr,
    operations: &[Operation],
    found: &mut Vec<Finding>,
) -> Result<(), AllocError>
    ensures { OnOk result (Adds cx.now.scanned.now.pairs found.old.items found.new.items
        (chain_findings cx.now.scanned.now.pairs first true head.now operations.now)) }
{
    let mut is_first = true;
    let mut left = head;
    for operation in operations {
        check_operation(cx, first, is_first, left, operation, found)?;
        is_first = false;
        left = &operation.operand;
    }
    Ok(())
}

/// Adds the comparisons with an empty list at the operators of a chain that begins at token `first`,
/// if the rule is enabled.
pub fn check(
    cx: &LintContext<'_, '_>,
    first: u32,
    head: &Expr,
    operations: &[Operation],
    found: &mut Vec<Finding>,
) -> Result<(), AllocError>
    ensures { OnOk result (Adds cx.now.scanned.now.pairs found.old.items found.new.items
        ((if has_rule cx.now.rules EmptyListEquality
        then chain_findings cx.now.scanned.now.pairs first true head.now operations.now
        else []))) }
{
    if !cx.rules.has(Rule::EmptyListEquality) {
        return Ok(());
    }
    check_chain(cx, first, head, operations, found)
}

/// Whether the rule may find something at an operator one of whose operands has this summary.
#[inline(always)]
pub fn may_find(operand: Value) -> bool
    ensures { result ≡ may_find operand }
{
    match operand {
        Value::EmptyList => true,
        _ => false,
    }
}
