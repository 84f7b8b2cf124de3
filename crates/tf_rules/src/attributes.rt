//! The attributes of a block.

ghost use Rattle.std.specs.Prelude.{◌≡◌};
ghost use Rattle.std.specs.List.{flat_map, list_any};
ghost use Rattle.tf_rules.specs.Attributes.{is_empty_string, is_attribute, has_attribute};
ghost use Rattle.tf_rules.specs.Attributes.{has_empty_attribute, member_attributes, optional_attribute};
ghost use Rattle.tf_rules.specs.Attributes.{attributes};

use crate::spelling::{is_spelled, token_text};
use hcl_grammar::Boxed;
use hcl_grammar::tree::{Attribute, Block, Content, Expr, ExprKind, Member, Primary};
use hcl_scan::Scanned;

/// Whether an expression is `""`.
fn is_empty_string(e: &Expr) -> bool
    ensures { result ≡ is_empty_string e.now }
{
    match &e.kind {
        ExprKind::Term(t) => match &t.kind {
            Primary::Quoted(q) => q.get().parts.is_empty(),
            _ => false,
        },
        _ => false,
    }
}

/// Whether an attribute has this name and, if `must_be_empty`, the value `""`.
fn is_attribute(scanned: &Scanned<'_>, name: &[u8], must_be_empty: bool, a: &Attribute) -> bool
    ensures { result ≡ is_attribute scanned.now.pairs name.now must_be_empty a.now }
{
    is_spelled(token_text(scanned, a.name), name)
        && (!must_be_empty || is_empty_string(a.value.get()))
}

/// Whether a member of a body is an attribute with this name and, if `must_be_empty`, the value
/// `""`.
fn member_has_attribute(scanned: &Scanned<'_>, name: &[u8], must_be_empty: bool, m: &Member) -> bool
    ensures { result ≡ list_any (is_attribute scanned.now.pairs name.now must_be_empty)
        (member_attributes m.now) }
{
    match m {
        Member::Attribute(a) => is_attribute(scanned, name, must_be_empty, a),
        Member::Block(_) => false,
    }
}

/// Whether one of the members of a body is an attribute with this name and, if `must_be_empty`, the
/// value `""`.
fn members_have_attribute(
    scanned: &Scanned<'_>,
    name: &[u8],
    must_be_empty: bool,
    members: &[Member],
) -> bool
    ensures { result ≡ list_any (is_attribute scanned.now.pairs name.now must_be_empty)
        (flat_map member_attributes members.now) }
{
    for m in members {
        if member_has_attribute(scanned, name, must_be_empty, m) {
            return true;
        }
    }
    false
}

/// Whether the attribute that a block on one line may have is there, and has this name and, if
/// `must_be_empty`, the value `""`.
fn optional_has_attribute(
    scanned: &Scanned<'_>,
    name: &[u8],
    must_be_empty: bool,
    a: &Option<Boxed<Attribute>>,
) -> bool
    ensures { result ≡ list_any (is_attribute scanned.now.pairs name.now must_be_empty)
        (optional_attribute a.now) }
{
    match a {
        Some(a) => is_attribute(scanned, name, must_be_empty, a.get()),
        None => false,
    }
}

/// Whether a block has an attribute with this name and, if `must_be_empty`, the value `""`.
fn block_has_attribute(scanned: &Scanned<'_>, name: &[u8], must_be_empty: bool, b: &Block) -> bool
    ensures { result ≡ list_any (is_attribute scanned.now.pairs name.now must_be_empty)
        (attributes b.now) }
{
    match &b.content {
        Content::Body(body) => members_have_attribute(
            scanned,
            name,
            must_be_empty,
            body.get().members.as_slice(),
        ),
        Content::OneLine(a) => optional_has_attribute(scanned, name, must_be_empty, a),
    }
}

/// Returns whether a block has an attribute of this name.
pub fn has_attribute(scanned: &Scanned<'_>, name: &[u8], b: &Block) -> bool
    ensures { result ≡ has_attribute scanned.now.pairs name.now (attributes b.now) }
{
    block_has_attribute(scanned, name, false, b)
}

/// Returns whether a block has an attribute of this name whose value is `""`.
pub fn has_empty_attribute(scanned: &Scanned<'_>, name: &[u8], b: &Block) -> bool
    ensures { result ≡ has_empty_attribute scanned.now.pairs name.now (attributes b.now) }
{
    block_has_attribute(scanned, name, true, b)
}
