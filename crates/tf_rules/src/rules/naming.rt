//! Names that are not in snake_case.

ghost use Rattle.std.specs.Prelude.{◌≡◌, [], Some, OnOk, option_map, if◌then◌else◌};
ghost use Rattle.std.specs.List.{flat_map};
ghost use Rattle.tf_rules.specs.Attributes.{member_attributes, optional_attribute, attributes};
ghost use Rattle.tf_rules.specs.Spelling.{token_text};
ghost use Rattle.tf_rules.specs.Rules.Naming.{naming_finding, declared_name, label_findings};
ghost use Rattle.tf_rules.specs.Rules.Naming.{declared_findings, local_findings, locals_findings};
ghost use Rattle.tf_rules.specs.Rules.Naming.{naming_findings};
ghost use Rattle.tf_rules.specs.RuleSets.{has_rule};
ghost use Rattle.tf_rules.specs.declared.rule.Rule.TheVariants.{NamingConvention};
ghost use Rattle.tf_rules.specs.Findings.{Adds};

use crate::context::LintContext;
use crate::snake_case::is_snake_case;
use crate::spelling::{is_spelled, name_text, token_text};
use crate::{Finding, Message, NameKind, Rule};
use hcl_grammar::Boxed;
use hcl_grammar::tree::{Attribute, Block, Content, Label, Member};
use std::alloc::AllocError;

/// Returns what a block that begins with this word declares, and the number, from 0, of the label
/// that names it, or `None` if the rule checks no label of such a block.
fn declared_name(block_type: &[u8]) -> Option<(NameKind, usize)>
    ensures { result ≡ declared_name block_type.now }
{
    if is_spelled(block_type, b"resource") {
        return Some((NameKind::Resource, 1));
    }
    if is_spelled(block_type, b"data") {
        return Some((NameKind::Data, 1));
    }
    if is_spelled(block_type, b"variable") {
        return Some((NameKind::Variable, 0));
    }
    if is_spelled(block_type, b"output") {
        return Some((NameKind::Output, 0));
    }
    if is_spelled(block_type, b"module") {
        return Some((NameKind::Module, 0));
    }
    None
}

/// Adds these tokens, if the name is not in snake_case.
fn check_name(
    cx: &LintContext<'_, '_>,
    named: NameKind,
    name: Option<u32>,
    first: u32,
    past: u32,
    found: &mut Vec<Finding>,
) -> Result<(), AllocError>
    ensures { OnOk result (Adds cx.now.scanned.now.pairs found.old.items found.new.items
        (naming_finding cx.now.scanned.now.pairs named name first past)) }
{
    if is_snake_case(name_text(cx.scanned, name)) {
        return Ok(());
    }
    let message = Message {
        kind: Some(named),
        name,
    };
    cx.report(Rule::NamingConvention, first, past, message, None, found)
}

/// Adds a label, if there is one and its name is not in snake_case.
fn check_label(
    cx: &LintContext<'_, '_>,
    named: NameKind,
    l: Option<&Label>,
    found: &mut Vec<Finding>,
) -> Result<(), AllocError>
    ensures { OnOk result (Adds cx.now.scanned.now.pairs found.old.items found.new.items
        (label_findings cx.now.scanned.now.pairs named (option_map (λ x. x.now) l.entry))) }
{
    match l {
        None => Ok(()),
        Some(l) => check_name(cx, named, l.name, l.first, l.past, found),
    }
}

/// Adds the label that names what a block declares, if it is not in snake_case.
fn check_declaration(
    cx: &LintContext<'_, '_>,
    b: &Block,
    found: &mut Vec<Finding>,
) -> Result<(), AllocError>
    ensures { OnOk result (Adds cx.now.scanned.now.pairs found.old.items found.new.items
        (declared_findings cx.now.scanned.now.pairs b.now
        (declared_name (token_text cx.now.scanned.now.pairs b.now.block_type)))) }
{
    match declared_name(token_text(cx.scanned, b.block_type)) {
        None => Ok(()),
        Some((named, i)) => check_label(cx, named, b.labels.as_slice().get(i), found),
    }
}

/// Adds the name of an attribute, if it is not in snake_case.
fn check_local(
    cx: &LintContext<'_, '_>,
    a: &Attribute,
    found: &mut Vec<Finding>,
) -> Result<(), AllocError>
    ensures { OnOk result (Adds cx.now.scanned.now.pairs found.old.items found.new.items
        (local_findings cx.now.scanned.now.pairs a.now)) }
{
    if a.name >= cx.scanned.count() {
        return Ok(());
    }
    check_name(cx, NameKind::Local, Some(a.name), a.name, a.name + 1, found)
}

/// Adds the name of the attribute that a block on one line may have, if it is not in snake_case.
fn check_optional_local(
    cx: &LintContext<'_, '_>,
    a: &Option<Boxed<Attribute>>,
    found: &mut Vec<Finding>,
) -> Result<(), AllocError>
    ensures { OnOk result (Adds cx.now.scanned.now.pairs found.old.items found.new.items
        (flat_map (local_findings cx.now.scanned.now.pairs) (optional_attribute a.now))) }
{
    match a {
        None => Ok(()),
        Some(a) => check_local(cx, a.get(), found),
    }
}

/// Adds the name of a member that is an attribute, if it is not in snake_case.
fn check_local_member(
    cx: &LintContext<'_, '_>,
    m: &Member,
    found: &mut Vec<Finding>,
) -> Result<(), AllocError>
    ensures { OnOk result (Adds cx.now.scanned.now.pairs found.old.items found.new.items
        (flat_map (local_findings cx.now.scanned.now.pairs) (member_attributes m.now))) }
{
    match m {
        Member::Attribute(a) => check_local(cx, a, found),
        Member::Block(_) => Ok(()),
    }
}

/// Adds the names of members that are attributes and not in snake_case.
fn check_local_members(
    cx: &LintContext<'_, '_>,
    members: &[Member],
    found: &mut Vec<Finding>,
) -> Result<(), AllocError>
    ensures { OnOk result (Adds cx.now.scanned.now.pairs found.old.items found.new.items
        (flat_map (local_findings cx.now.scanned.now.pairs)
        (flat_map member_attributes members.now))) }
{
    for m in members {
        check_local_member(cx, m, found)?;
    }
    Ok(())
}

/// Adds the names of a block's attributes that are not in snake_case.
fn check_local_attributes(
    cx: &LintContext<'_, '_>,
    b: &Block,
    found: &mut Vec<Finding>,
) -> Result<(), AllocError>
    ensures { OnOk result (Adds cx.now.scanned.now.pairs found.old.items found.new.items
        (flat_map (local_findings cx.now.scanned.now.pairs) (attributes b.now))) }
{
    match &b.content {
        Content::Body(body) => check_local_members(cx, body.get().members.as_slice(), found),
        Content::OneLine(a) => check_optional_local(cx, a, found),
    }
}

/// Adds the names in a block `locals` that are not in snake_case.
fn check_locals(
    cx: &LintContext<'_, '_>,
    b: &Block,
    found: &mut Vec<Finding>,
) -> Result<(), AllocError>
    ensures { OnOk result (Adds cx.now.scanned.now.pairs found.old.items found.new.items
        (locals_findings cx.now.scanned.now.pairs b.now)) }
{
    if !is_spelled(token_text(cx.scanned, b.block_type), b"locals") {
        return Ok(());
    }
    check_local_attributes(cx, b, found)
}

/// Adds the names that a block declares and that are not in snake_case.
fn check_block(
    cx: &LintContext<'_, '_>,
    b: &Block,
    found: &mut Vec<Finding>,
) -> Result<(), AllocError>
    ensures { OnOk result (Adds cx.now.scanned.now.pairs found.old.items found.new.items
        (naming_findings cx.now.scanned.now.pairs b.now)) }
{
    check_declaration(cx, b, found)?;
    check_locals(cx, b, found)?;
    Ok(())
}

/// Adds the names that a block of a text's body declares and that are not in snake_case, if the
/// rule is enabled.
pub fn check(
    cx: &LintContext<'_, '_>,
    b: &Block,
    found: &mut Vec<Finding>,
) -> Result<(), AllocError>
    ensures { OnOk result (Adds cx.now.scanned.now.pairs found.old.items found.new.items
        ((if has_rule cx.now.rules NamingConvention
        then naming_findings cx.now.scanned.now.pairs b.now else []))) }
{
    if !cx.rules.has(Rule::NamingConvention) {
        return Ok(());
    }
    check_block(cx, b, found)
}
