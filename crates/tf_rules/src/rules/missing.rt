//! Variables without a type, variables and outputs without a description.

ghost use Rattle.std.specs.Prelude.{◌≡◌, Some, slice_get, OnOk};
ghost use Rattle.tf_rules.specs.Attributes.{attributes};
ghost use Rattle.tf_rules.specs.Rules.Missing.{is_undocumented, missing_finding, untyped_findings};
ghost use Rattle.tf_rules.specs.Rules.Missing.{undocumented_findings, missing_findings};
ghost use Rattle.tf_rules.specs.Findings.{Adds};

use crate::attributes::{has_attribute, has_empty_attribute};
use crate::context::LintContext;
use crate::spelling::{is_spelled, token_text};
use crate::{Finding, Message, Rule};
use hcl_grammar::tree::{Block, Label};
use hcl_scan::Scanned;
use std::alloc::AllocError;

/// Whether a block has no description, or one that is `""`.
fn is_undocumented(scanned: &Scanned<'_>, b: &Block) -> bool
    ensures { result ≡ is_undocumented scanned.now.pairs (attributes b.now) }
{
    !has_attribute(scanned, b"description", b) || has_empty_attribute(scanned, b"description", b)
}

/// Adds a finding at the word that a block begins with. Its message names `name`.
fn add_missing(
    cx: &LintContext<'_, '_>,
    rule: Rule,
    b: &Block,
    name: Option<u32>,
    found: &mut Vec<Finding>,
) -> Result<(), AllocError>
    ensures { OnOk result (Adds cx.now.scanned.now.pairs found.old.items found.new.items
        (missing_finding rule b.now name)) }
{
    let word = b.block_type;
    if word >= cx.scanned.count() {
        return Ok(());
    }
    let message = Message { kind: None, name };
    cx.report(rule, word, word + 1, message, None, found)
}

/// Adds a variable that has no type.
fn check_type(
    cx: &LintContext<'_, '_>,
    b: &Block,
    l: &Label,
    found: &mut Vec<Finding>,
) -> Result<(), AllocError>
    ensures { OnOk result (Adds cx.now.scanned.now.pairs found.old.items found.new.items
        (untyped_findings cx.now.rules cx.now.scanned.now.pairs b.now l.now)) }
{
    if !cx.rules.has(Rule::TypedVariables) {
        return Ok(());
    }
    if !is_spelled(token_text(cx.scanned, b.block_type), b"variable") {
        return Ok(());
    }
    if has_attribute(cx.scanned, b"type", b) {
        return Ok(());
    }
    add_missing(cx, Rule::TypedVariables, b, l.name, found)
}

/// Adds a block that begins with this word and has no description, for the rule on such blocks.
fn check_description(
    cx: &LintContext<'_, '_>,
    rule: Rule,
    block_type: &[u8],
    b: &Block,
    l: &Label,
    found: &mut Vec<Finding>,
) -> Result<(), AllocError>
    ensures { OnOk result (Adds cx.now.scanned.now.pairs found.old.items found.new.items
        (undocumented_findings cx.now.rules cx.now.scanned.now.pairs rule block_type.now b.now
        l.now)) }
{
    if !cx.rules.has(rule) {
        return Ok(());
    }
    if !is_spelled(token_text(cx.scanned, b.block_type), block_type) {
        return Ok(());
    }
    if !is_undocumented(cx.scanned, b) {
        return Ok(());
    }
    add_missing(cx, rule, b, l.name, found)
}

/// Adds what a block lacks whose first label is `l`.
fn check_labelled(
    cx: &LintContext<'_, '_>,
    b: &Block,
    l: &Label,
    found: &mut Vec<Finding>,
) -> Result<(), AllocError>
    ensures { OnOk result (Adds cx.now.scanned.now.pairs found.old.items found.new.items
        (missing_findings cx.now.rules cx.now.scanned.now.pairs b.now (Some l.now))) }
{
    check_type(cx, b, l, found)?;
    check_description(cx, Rule::DocumentedVariables, b"variable", b, l, found)?;
    check_description(cx, Rule::DocumentedOutputs, b"output", b, l, found)?;
    Ok(())
}

/// Adds what a block of a text's body lacks by the rules that are enabled: a type, a description.
pub fn check(
    cx: &LintContext<'_, '_>,
    b: &Block,
    found: &mut Vec<Finding>,
) -> Result<(), AllocError>
    ensures { OnOk result (Adds cx.now.scanned.now.pairs found.old.items found.new.items
        (missing_findings cx.now.rules cx.now.scanned.now.pairs b.now
        (slice_get b.now.labels 0))) }
{
    match b.labels.as_slice().get(0) {
        None => Ok(()),
        Some(l) => check_labelled(cx, b, l, found),
    }
}
