//! What a fmt makes of a text.

ghost use Rattle.std.specs.Prelude.{◌≡◌, ◌≤◌, ◌⊎◌, ◌↔◌, true, Ok, length, IsTrue, IfOk, IfErr, OnOk, IfSome};
ghost use Rattle.edit_record.specs.Lists.Pieces.{Transforms};
ghost use Rattle.hcl_layout.specs.Layouts.{IsLayout, IsTooLong};
ghost use Rattle.hcl_grammar.specs.Bodies.{IsFile};
ghost use Rattle.hcl_grammar.specs.declared.tree.Tree as tree;
ghost use Rattle.hcl_layout.specs.Gaps.Layout.{layout_edits};
ghost use Rattle.hcl_grammar.specs.declared.bounds.TheConstants.{MAX_NESTING};
ghost use Rattle.hcl_scan.specs.Tokenization.{MAX_TEXT};
ghost use Rattle.hcl_scan.specs.Follows.{tokens_of};
ghost use Rattle.tf_session.specs.Parsing.{DoesParse};
ghost use Rattle.tf_session.specs.Inner.Changes.{fmt_rewrite};
ghost use Rattle.tf_lint.specs.FixResult.{changed_text, changed_edits};
ghost use Rattle.tf_session.specs.Records.{StepsTo};
ghost use Rattle.tf_session.specs.Rewrites.{Rewrites, RefusesText};
ghost use Rattle.tf_session.specs.declared.command.Command.TheVariants.{Fmt};
ghost use Rattle.tf_session.specs.declared.command.Fault.TheVariants.{TooLong, Memory};

use crate::command::Fault;
use crate::reading::check_syntax;
use edit_record::laws::{apply_is_exact, change_is_one_to_one};
use edit_record::lists::Change as _;
use hcl_layout::{formatted_text, is_parsed_laid_out, layout_of_parsed};
use hcl_scan::Scanned;
use std::alloc::Global;
use tf_lint::NewText;

/// Returns the layout of a text, with the edits that make it; none if the text is its own layout.
///
/// # Errors
///
/// `Scan` or `Parse` if the text does not parse, `TooLong` if its layout has more than `MAX_TEXT`
/// bytes; `Memory`.
pub fn fmt_text(alloc: Global, text: &[u8]) -> Result<Option<NewText>, Fault>
    ensures rewrites { IfOk result (λ change. Rewrites Fmt text.now (Ok (fmt_rewrite text.now change))) }
    ensures change { IfOk result
        (λ o. IfSome o (λ change. Transforms change.edits text.now change.text.items)) }
    ensures fault { IfErr result (λ fault. RefusesText Fmt text.now fault) }
{
    let scanned = check_syntax(alloc, text)?;
    let change = layout_change(alloc, &scanned)?;
    Ok(change)
}

/// Returns the layout of a text that parses, with its edits; none if there are no edits, so that no
/// copy of the text is made.
fn layout_change(alloc: Global, scanned: &Scanned<'_>) -> Result<Option<NewText>, Fault>
    requires { (t : tree.Tree) × IsFile (tokens_of scanned.now.pairs) MAX_NESTING t }
    ensures layout { IfOk result
        (λ change. IsLayout scanned.now.text (changed_text scanned.now.text change)) }
    ensures short { IfOk result (λ change. length (changed_text scanned.now.text change) ≤ MAX_TEXT) }
    ensures edits { IfOk result
        (λ change. changed_edits scanned.now.text change ≡ layout_edits scanned.now) }
    ensures transforms { IfOk result
        (λ o. IfSome o (λ change. Transforms change.edits scanned.now.text change.text.items)) }
    ensures fault { IfErr result
        (λ fault. (fault ≡ Memory) ⊎ ((fault ≡ TooLong) × IsTooLong scanned.now.text)) }
{
    let edits = layout_of_parsed(alloc, scanned)?;
    if edits.edits().is_empty() {
        return Ok(None);
    }
    apply_is_exact(&edits);
    change_is_one_to_one(&edits);
    match edits.apply(alloc, scanned.text()) {
        Ok(text) => Ok(Some(NewText { text, edits })),
        Err(refused) => Err(Fault::from(refused)),
    }
}

/// Formats a text as a session with no journal does, but makes no edits.
///
/// # Errors
///
/// As for [`fmt_text`].
pub fn format_without_session(alloc: Global, text: &[u8]) -> Result<Vec<u8>, Fault>
    ensures rewrites { IfOk result (λ new. StepsTo Fmt text.now new.items) }
    ensures fault { IfErr result (λ fault. RefusesText Fmt text.now fault) }
{
    let scanned = check_syntax(alloc, text)?;
    let new = formatted_text(alloc, &scanned)?;
    Ok(new)
}

/// Returns whether the text is its own layout.
///
/// # Errors
///
/// As for [`fmt_text`].
pub fn is_formatted(alloc: Global, text: &[u8]) -> Result<bool, Fault>
    ensures parses { OnOk result (DoesParse text.now) }
    ensures short { OnOk result (¬ (IsTooLong text.now)) }
    ensures answer { IfOk result (λ yes. IsTrue yes ↔ IsLayout text.now text.now) }
    ensures fault { IfErr result (λ fault. RefusesText Fmt text.now fault) }
{
    let scanned = check_syntax(alloc, text)?;
    let yes = is_parsed_laid_out(alloc, &scanned)?;
    Ok(yes)
}
