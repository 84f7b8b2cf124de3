//! The layout of a text that parses.
//!
//! No function reads the tree: that there is one is a premise of the laws.

ghost use Rattle.std.specs.Prelude.{◌≡◌, ◌≤◌, ◌↔◌, length, IsTrue, IfOk, IfErr, OnOk};
ghost use Rattle.edit_record.specs.Lists.Pieces.{Transforms};
ghost use Rattle.hcl_scan.specs.Tokenization.{MAX_TEXT};
ghost use Rattle.hcl_text_laws.specs.Parses.{Parses};
ghost use Rattle.hcl_scan.specs.Follows.{tokens_of};
ghost use Rattle.hcl_grammar.specs.Bodies.{IsFile};
ghost use Rattle.hcl_grammar.specs.declared.tree.Tree as tree;
ghost use Rattle.hcl_grammar.specs.declared.bounds.TheConstants.{MAX_NESTING};
ghost use Rattle.hcl_layout.specs.Gaps.Layout.{layout_edits};
ghost use Rattle.hcl_layout.specs.Gaps.Errors.{IsMemoryOrTooLong};
ghost use Rattle.hcl_layout.specs.Layouts.{IsLayout, IsTooLong, IsLayoutEdits};

use crate::gaps::LayoutFault;
use crate::laws;
use edit_record::lists::Edits;
use hcl_grammar::tree::Tree;
use hcl_scan::Scanned;
use std::alloc::Global;

/// Returns the edits that format a text that parses: the gaps that differ, each from the whole old
/// one to the whole new one. The new text has the same tokens, comments and line ends among them,
/// parses to the same tree, and is its own layout.
///
/// # Errors
///
/// `TooLong` if the layout has more than `MAX_TEXT` bytes; `Memory` if an allocation fails.
///
/// Terraform style conventions.
pub fn layout_of_parsed(alloc: Global, scanned: &Scanned<'_>) -> Result<Edits, LayoutFault>
    requires { (t : tree.Tree) × IsFile (tokens_of scanned.now.pairs) MAX_NESTING t }
    ensures edits { (t : tree.Tree) → IsFile (tokens_of scanned.now.pairs) MAX_NESTING t
        → IfOk result (λ edits. IsLayoutEdits edits scanned.now.text t) }
    ensures exact { IfOk result (λ edits. edits ≡ layout_edits scanned.now) }
    ensures err { IfErr result (IsMemoryOrTooLong (IsTooLong scanned.now.text)) }
{
    laws::layout_parses();
    laws::layout_keeps_tokens();
    laws::layout_is_laid_out();
    // for the proof: the clauses of `text` say that these are the tokens of the text
    let _text = scanned.text();
    crate::gaps::layout(alloc, scanned)
}

/// Returns what [`layout_of_parsed`] does, for a text with its tree.
///
/// # Errors
///
/// As for [`layout_of_parsed`].
pub fn layout(alloc: Global, scanned: &Scanned<'_>, tree: &Tree) -> Result<Edits, LayoutFault>
    requires { IsFile (tokens_of scanned.now.pairs) MAX_NESTING tree.now }
    ensures edits { IfOk result (λ edits. IsLayoutEdits edits scanned.now.text tree.now) }
    ensures exact { IfOk result (λ edits. edits ≡ layout_edits scanned.now) }
    ensures err { IfErr result (IsMemoryOrTooLong (IsTooLong scanned.now.text)) }
{
    layout_of_parsed(alloc, scanned)
}

/// Returns the formatted text of a text that parses, which the edits of [`layout_of_parsed`] make,
/// without making edits.
///
/// # Errors
///
/// As for [`layout_of_parsed`].
pub fn formatted_text(alloc: Global, scanned: &Scanned<'_>) -> Result<Vec<u8>, LayoutFault>
    requires { (t : tree.Tree) × IsFile (tokens_of scanned.now.pairs) MAX_NESTING t }
    ensures layout { IfOk result (λ text. IsLayout scanned.now.text text.items) }
    ensures turns { IfOk result (λ text.
        Transforms (layout_edits scanned.now) scanned.now.text text.items) }
    ensures parses { (t : tree.Tree) → IsFile (tokens_of scanned.now.pairs) MAX_NESTING t
        → IfOk result (λ text. Parses text.items t) }
    ensures short { IfOk result (λ text. length text.items ≤ MAX_TEXT) }
    ensures err { IfErr result (IsMemoryOrTooLong (IsTooLong scanned.now.text)) }
{
    laws::layout_parses();
    // for the proof: the clauses of `text` say that these are the tokens of the text
    let _text = scanned.text();
    crate::gaps::formatted_text(alloc, scanned)
}

/// Returns whether a text that parses is its own layout.
///
/// # Errors
///
/// As for [`layout_of_parsed`]: there is no answer if the layout has more than `MAX_TEXT` bytes.
pub fn is_parsed_laid_out(alloc: Global, scanned: &Scanned<'_>) -> Result<bool, LayoutFault>
    requires { (t : tree.Tree) × IsFile (tokens_of scanned.now.pairs) MAX_NESTING t }
    ensures answer { IfOk result (λ yes. IsTrue yes ↔ IsLayout scanned.now.text scanned.now.text) }
    ensures short { OnOk result (¬ (IsTooLong scanned.now.text)) }
    ensures err { IfErr result (IsMemoryOrTooLong (IsTooLong scanned.now.text)) }
{
    laws::laid_out_is_text();
    laws::one_layout();
    hcl_text_laws::laws::parsed_tokens_are_apart();
    // for the proof: the clauses of `text` say that these are the tokens of the text
    let _text = scanned.text();
    crate::gaps::is_laid_out(alloc, scanned)
}

/// Returns what [`is_parsed_laid_out`] does, for a text with its tree.
///
/// # Errors
///
/// As for [`layout_of_parsed`].
pub fn is_laid_out(alloc: Global, scanned: &Scanned<'_>, tree: &Tree) -> Result<bool, LayoutFault>
    requires { IsFile (tokens_of scanned.now.pairs) MAX_NESTING tree.now }
    ensures answer { IfOk result (λ yes. IsTrue yes ↔ IsLayout scanned.now.text scanned.now.text) }
    ensures short { OnOk result (¬ (IsTooLong scanned.now.text)) }
    ensures err { IfErr result (IsMemoryOrTooLong (IsTooLong scanned.now.text)) }
{
    is_parsed_laid_out(alloc, scanned)
}
