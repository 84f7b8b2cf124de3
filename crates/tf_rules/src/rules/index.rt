//! Legacy indices.

ghost use Rattle.std.specs.Prelude.{OnOk, [], if◌then◌else◌};
ghost use Rattle.tf_rules.specs.Rules.Index.{index_findings};
ghost use Rattle.tf_rules.specs.RuleSets.{has_rule};
ghost use Rattle.tf_rules.specs.declared.rule.Rule.TheVariants.{DeprecatedIndex};
ghost use Rattle.tf_rules.specs.Findings.{Adds};

use crate::context::LintContext;
use crate::{Finding, Fix, Insertion, Message, Rule};
use std::alloc::AllocError;

/// Adds the legacy index that is token `n`.
fn check_legacy_index(
    cx: &LintContext<'_, '_>,
    splat: bool,
    n: u32,
    found: &mut Vec<Finding>,
) -> Result<(), AllocError>
    ensures { OnOk result (Adds cx.now.scanned.now.pairs found.old.items found.new.items
        (index_findings cx.now.scanned.now.pairs splat n)) }
{
    if n >= cx.scanned.count() {
        return Ok(());
    }
    let fix = Fix::Tokens {
        before: Insertion::Index,
        kept: [None, None],
    };
    let fix = fix.when(!splat);
    cx.report(Rule::DeprecatedIndex, n, n + 1, Message::PLAIN, fix, found)
}

/// Adds the legacy index that is token `n`, if the rule is enabled. `splat` says that it follows
/// `.*`.
pub fn check(
    cx: &LintContext<'_, '_>,
    splat: bool,
    n: u32,
    found: &mut Vec<Finding>,
) -> Result<(), AllocError>
    ensures { OnOk result (Adds cx.now.scanned.now.pairs found.old.items found.new.items
        ((if has_rule cx.now.rules DeprecatedIndex
        then index_findings cx.now.scanned.now.pairs splat n else []))) }
{
    if !cx.rules.has(Rule::DeprecatedIndex) {
        return Ok(());
    }
    check_legacy_index(cx, splat, n, found)
}
