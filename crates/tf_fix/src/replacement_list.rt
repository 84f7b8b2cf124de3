//! The replacements that fix the findings which one step selects.

ghost use Rattle.std.specs.Prelude.{◌≡◌, ◌++◌, ◌<◌, length, filter, IfOk, IfErr};
ghost use Rattle.tf_findings.specs.RuleFilter.{is_found_by};
ghost use Rattle.tf_rules.specs.ValidFindings.{AreValidFindings};
ghost use Rattle.tf_fix.specs.Edits.FindingReplacements.{replacements_from, finding_replacements};
ghost use Rattle.tf_fix.specs.Edits.FindingReplacements.{step_replacements};
ghost use Rattle.tf_fix.specs.Selection.{selected};
ghost use Rattle.tf_fix.specs.Inner.Nonempty.{AreNonempty, IsFixableWithin};
ghost use Rattle.tf_fix.specs.Inner.Views.{replacements, HasByte, HaveBytes};

use crate::boundary::Boundary;
use crate::packed::{PackedReplacement, push_packed};
use crate::selection::{is_selected, selected_count};
use crate::splice::Replacement;
use hcl_scan::Scanned;
use std::alloc::{AllocError, Global};
use tf_findings::is_found_by;
use tf_rules::{Finding, Fix, Insertion, KeptTokens, Rule};

/// Appends the replacements of the fix of a finding from `from` on: it inserts `written` there,
/// keeps each range of `kept` and inserts what follows it, and removes all other tokens up to
/// `past`. `first` is the number of the finding's first token.
fn push_kept_replacements(
    all: &mut Vec<PackedReplacement>,
    scanned: &Scanned<'_>,
    first: u32,
    from: Boundary,
    written: Insertion,
    kept: &[Option<KeptTokens>],
    past: u32,
) -> Result<(), AllocError>
    requires byte { HasByte scanned.now.pairs first }
    ensures items { IfOk result
        (λ _. replacements scanned.now.pairs all.new.items
        ≡ replacements scanned.now.pairs all.old.items
        ++ replacements_from scanned.now.pairs first from written kept.now past) }
    ensures bytes { IfOk result
        (λ _. HaveBytes scanned.now.pairs all.old.items
        → HaveBytes scanned.now.pairs all.new.items) }
{
    match kept {
        [] => {
            let one = Replacement {
                from,
                to: Boundary::Gap(past),
                first,
                insertion: written,
            };
            push_packed(all, one)
        }
        [None, rest @ ..] => push_kept_replacements(all, scanned, first, from, written, rest, past),
        [Some(one), rest @ ..] => {
            let replacement = Replacement {
                from,
                to: Boundary::Token(one.from),
                first,
                insertion: written,
            };
            push_packed(all, replacement)?;
            push_kept_replacements(
                all,
                scanned,
                first,
                Boundary::Gap(one.to),
                one.after,
                rest,
                past,
            )
        }
    }
}

/// Appends the replacements that fix the finding.
fn push_finding_replacements(
    all: &mut Vec<PackedReplacement>,
    scanned: &Scanned<'_>,
    one: &Finding,
) -> Result<(), AllocError>
    requires nonempty { AreNonempty scanned.now.pairs }
    requires fits { IsFixableWithin (length scanned.now.pairs) one.now }
    ensures items { IfOk result
        (λ _. replacements scanned.now.pairs all.new.items
        ≡ replacements scanned.now.pairs all.old.items
        ++ finding_replacements scanned.now.pairs one.now) }
    ensures bytes { IfOk result
        (λ _. HaveBytes scanned.now.pairs all.old.items
        → HaveBytes scanned.now.pairs all.new.items) }
{
    match one.fix() {
        Some(fix) => match fix {
            Fix::Tokens { before, kept } => {
                push_kept_replacements(
                    all,
                    scanned,
                    one.first(),
                    Boundary::Token(one.first()),
                    before,
                    &kept,
                    one.past(),
                )
            }
            // A comment is fixed inside its token.
            Fix::CommentMarker => Ok(()),
        },
        None => Ok(()),
    }
}

/// Returns the replacements that fix the findings which one step of the rule selects, in order. If
/// it selects none, it allocates nothing.
pub fn selected_replacements(
    alloc: Global,
    scanned: &Scanned<'_>,
    rule: Rule,
    findings: &[Finding],
) -> Result<Vec<PackedReplacement>, AllocError>
    requires nonempty { AreNonempty scanned.now.pairs }
    requires valid { AreValidFindings (length scanned.now.pairs) (filter (is_found_by rule) findings.now) }
    ensures items { IfOk result
        (λ all. replacements scanned.now.pairs all.items
        ≡ step_replacements scanned.now.pairs (filter (is_found_by rule) findings.now)) }
    ensures bytes { IfOk result (λ all. HaveBytes scanned.now.pairs all.items) }
    ensures allocates { IfErr result (λ _. 0 < length (selected (filter (is_found_by rule) findings.now))) }
{
    // Each selected finding has one or more; comments, which have none, are fixed elsewhere.
    let mut all = Vec::with_capacity(alloc, selected_count(findings, rule))?;
    let mut past = 0;
    for one in findings {
        if is_found_by(rule, one) && is_selected(one, past) {
            push_finding_replacements(&mut all, scanned, one)?;
            past = one.past();
        }
    }
    Ok(all)
}
