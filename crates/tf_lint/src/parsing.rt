//! The tokens of a text that parses.

ghost use Rattle.std.specs.Prelude.{IfOk, IfErr};
ghost use Rattle.hcl_grammar.specs.declared.tree.Tree as tree;
ghost use Rattle.tf_fix.specs.ParsedTexts.{IsParseOf};
ghost use Rattle.tf_lint.specs.ParseFaults.{IsReadFault};

use crate::fault::FixFault;
use hcl_scan::{Scanned, scan};
use hcl_tree::check;
use std::alloc::Global;

/// Returns the tokens of a text, if it parses. No tree of it is kept.
///
/// # Errors
///
/// `Scan` if the text can't be tokenized; `Parse` if its tokens have no tree within `MAX_NESTING`;
/// `Memory`.
pub fn check_syntax<'t>(alloc: Global, text: &'t [u8]) -> Result<Scanned<'t>, FixFault>
    ensures reads { IfOk result
        (λ scanned. (t : tree.Tree) × IsParseOf text.now (record { scanned = scanned; tree = t })) }
    ensures fault { IfErr result (λ fault. IsReadFault text.now fault) }
{
    let scanned = scan(alloc, text)?;
    check(alloc, &scanned)?;
    Ok(scanned)
}
