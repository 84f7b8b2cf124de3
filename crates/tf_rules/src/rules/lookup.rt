//! Calls of `lookup` with two arguments.

ghost use Rattle.std.specs.Prelude.{◌≡◌, Some, OnOk, option_map, [], if◌then◌else◌};
ghost use Rattle.hcl_grammar.specs.declared.tree.Call.{out-Call};
ghost use Rattle.hcl_grammar.specs.declared.tree.ExprKind.{out-ExprKind};
ghost use Rattle.hcl_token.specs.TokenizedText.{spelling_of};
ghost use Rattle.tf_rules.specs.Arguments.{two_arguments, is_two};
ghost use Rattle.tf_rules.specs.Rules.Lookup.{is_splat, has_splat, is_indexable_kind, is_lookup};
ghost use Rattle.tf_rules.specs.Rules.Lookup.{is_lookup_token, is_lookup_fixable, pair_findings};
ghost use Rattle.tf_rules.specs.Rules.Lookup.{call_findings, is_lookup_name, may_find};
ghost use Rattle.tf_rules.specs.Unbroken.{AreUnbroken};
ghost use Rattle.tf_rules.specs.RuleSets.{has_rule};
ghost use Rattle.tf_rules.specs.declared.rule.Rule.TheVariants.{DeprecatedLookup};
ghost use Rattle.tf_rules.specs.Findings.{Adds};

use crate::context::LintContext;
use crate::summary::Count;
use crate::trivia::has_trivia;
use crate::unbroken::{Unbroken, has_line_break_beyond};
use crate::{Finding, Fix, Insertion, KeptTokens, Message, Rule};
use hcl_grammar::tree::{Call, Expr, ExprKind, Tail};
use hcl_scan::Scanned;
use std::alloc::AllocError;

/// Whether a tail is `.*` or `[*]`.
fn is_splat(t: &Tail) -> bool
    ensures { result ≡ is_splat t.now }
{
    match t {
        Tail::Name(_) => false,
        Tail::LegacyIndex(_) => false,
        Tail::AttributeSplat => true,
        Tail::FullSplat => true,
        Tail::Index(_) => false,
    }
}

/// Whether one of the tails is a splat.
fn has_splat(tails: &[Tail]) -> bool
    ensures { result ≡ has_splat tails.now }
{
    tails.iter().any(|t| is_splat(t))
}

/// Whether an index can follow: a term, with tails if any, but no splat.
fn is_indexable(kind: &ExprKind) -> bool
    ensures { result ≡ is_indexable_kind (out-ExprKind kind.now) }
{
    match kind {
        ExprKind::Conditional(_, _, _) => false,
        ExprKind::Binary(_, _) => false,
        ExprKind::Unary(_, _) => false,
        ExprKind::Postfix(_, tails) => !has_splat(tails.get().as_slice()),
        ExprKind::Term(_) => true,
    }
}

/// Whether the name of a call is `lookup`, by itself.
fn is_lookup(scanned: &Scanned<'_>, names: &[u32]) -> bool
    ensures { result ≡ is_lookup scanned.now.pairs names.now }
{
    match names {
        [n] => is_lookup_token(scanned, *n),
        _ => false,
    }
}

/// Whether a name that is one token is `lookup`.
fn is_lookup_name(scanned: &Scanned<'_>, name: Option<u32>) -> bool
    ensures { result ≡ is_lookup_name scanned.now.pairs name }
{
    match name {
        Some(n) => is_lookup_token(scanned, n),
        None => false,
    }
}

/// Whether there are two.
fn is_two(arguments: Count) -> bool
    ensures { result ≡ is_two arguments }
{
    match arguments {
        Count::Two => true,
        _ => false,
    }
}

/// Whether a token is spelled `lookup`.
fn is_lookup_token(scanned: &Scanned<'_>, n: u32) -> bool
    ensures { result ≡ is_lookup_token (spelling_of scanned.now.pairs n) }
{
    n < scanned.count() && scanned.spelling(n as usize) == b"lookup".as_slice()
}

/// Returns the arguments of a call that has exactly two, or `None` if it has fewer or more.
fn two_arguments(es: &[Expr]) -> Option<(&Expr, &Expr)>
    ensures { option_map (λ p. (p.0.now, p.1.now)) result ≡ two_arguments es.now }
{
    match es {
        [a, b] => Some((a, b)),
        _ => None,
    }
}

/// Whether the call can be written with brackets: no comment and no line end is in it outside of
/// its arguments, and an index can follow the first of them.
fn is_lookup_fixable(
    unbroken: &mut Unbroken,
    scanned: &Scanned<'_>,
    first: u32,
    past: u32,
    a: &Expr,
    b: &Expr,
) -> bool
    requires { AreUnbroken scanned.now.pairs unbroken.old.first unbroken.old.past }
    ensures value { result ≡ is_lookup_fixable scanned.now.pairs first past a.now b.now }
    ensures unbroken { AreUnbroken scanned.now.pairs unbroken.new.first unbroken.new.past }
{
    is_indexable(&a.kind)
        && !has_line_break_beyond(unbroken, scanned, true, a.first, a.past)
        && !has_trivia(scanned, first, a.first)
        && !has_trivia(scanned, a.past, b.first)
        && !has_trivia(scanned, b.past, past)
}

/// Adds a call, if it is one of `lookup` with two arguments.
fn check_call(
    cx: &LintContext<'_, '_>,
    unbroken: &mut Unbroken,
    first: u32,
    past: u32,
    c: &Call,
    found: &mut Vec<Finding>,
) -> Result<(), AllocError>
    requires { AreUnbroken cx.now.scanned.now.pairs unbroken.old.first unbroken.old.past }
    ensures found { OnOk result (Adds cx.now.scanned.now.pairs found.old.items found.new.items
        (call_findings cx.now.scanned.now.pairs first past (out-Call c.now))) }
    ensures unbroken { AreUnbroken cx.now.scanned.now.pairs unbroken.new.first unbroken.new.past }
{
    if c.expand_final || !is_lookup(cx.scanned, c.names.as_slice()) {
        return Ok(());
    }
    match two_arguments(c.arguments.as_slice()) {
        None => Ok(()),
        Some((a, b)) => check_arguments(cx, unbroken, first, past, a, b, found),
    }
}

/// Adds the call of `lookup` with these arguments, `a[b]`.
fn check_arguments(
    cx: &LintContext<'_, '_>,
    unbroken: &mut Unbroken,
    first: u32,
    past: u32,
    a: &Expr,
    b: &Expr,
    found: &mut Vec<Finding>,
) -> Result<(), AllocError>
    requires { AreUnbroken cx.now.scanned.now.pairs unbroken.old.first unbroken.old.past }
    ensures found { OnOk result (Adds cx.now.scanned.now.pairs found.old.items found.new.items
        (pair_findings cx.now.scanned.now.pairs first past (Some (a.now, b.now)))) }
    ensures unbroken { AreUnbroken cx.now.scanned.now.pairs unbroken.new.first unbroken.new.past }
{
    let fixable = is_lookup_fixable(unbroken, cx.scanned, first, past, a, b);
    let kept = KeptTokens {
        from: a.first,
        to: a.past,
        after: Insertion::OpenBracket,
    };
    let key = KeptTokens {
        from: b.first,
        to: b.past,
        after: Insertion::CloseBracket,
    };
    let fix = Fix::Tokens {
        before: Insertion::Nothing,
        kept: [Some(kept), Some(key)],
    };
    let fix = fix.when(fixable);
    let rule = Rule::DeprecatedLookup;
    cx.report(rule, first, past, Message::PLAIN, fix, found)
}

/// Adds a call, if it is one of `lookup` with two arguments and the rule is enabled.
pub fn check(
    cx: &LintContext<'_, '_>,
    unbroken: &mut Unbroken,
    first: u32,
    past: u32,
    c: &Call,
    found: &mut Vec<Finding>,
) -> Result<(), AllocError>
    requires { AreUnbroken cx.now.scanned.now.pairs unbroken.old.first unbroken.old.past }
    ensures found { OnOk result (Adds cx.now.scanned.now.pairs found.old.items found.new.items
        ((if has_rule cx.now.rules DeprecatedLookup
        then call_findings cx.now.scanned.now.pairs first past (out-Call c.now) else []))) }
    ensures unbroken { AreUnbroken cx.now.scanned.now.pairs unbroken.new.first unbroken.new.past }
{
    if !cx.rules.has(Rule::DeprecatedLookup) {
        return Ok(());
    }
    check_call(cx, unbroken, first, past, c, found)
}

/// Whether the rule may find something at a call of the function that token `name` names, if its
/// name is one token, by how many arguments it has, and whether the last is expanded (`...`).
#[inline(always)]
pub fn may_find(scanned: &Scanned<'_>, name: Option<u32>, arguments: Count, expands: bool) -> bool
    ensures { result ≡ may_find scanned.now.pairs name arguments expands }
{
    is_two(arguments) && !expands && is_lookup_name(scanned, name)
}
