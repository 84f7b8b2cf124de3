//! The tokens of a text that parses.

ghost use Rattle.std.specs.Prelude.{◌≡◌, IfOk, IfErr, OnOk};
ghost use Rattle.hcl_grammar.specs.Bodies.{IsFile};
ghost use Rattle.hcl_grammar.specs.declared.bounds.TheConstants.{MAX_NESTING};
ghost use Rattle.hcl_grammar.specs.declared.tree.Tree as tree;
ghost use Rattle.hcl_scan.specs.Follows.{tokens_of};
ghost use Rattle.tf_session.specs.Rewrites.{IsSyntaxFault};
ghost use Rattle.tf_session.specs.Parsing.{DoesParse};
ghost use Rattle.tf_fix.specs.ParsedTexts.{IsParseOf};

use crate::command::Fault;
use hcl_scan::Scanned;
use std::alloc::Global;

/// Returns the tokens of a text, if it parses.
///
/// # Errors
///
/// `Scan` if the text has no tokens, `Parse` if they do not follow the grammar or nest too deep;
/// `Memory`.
pub fn check_syntax<'t>(alloc: Global, text: &'t [u8]) -> Result<Scanned<'t>, Fault>
    ensures reads { IfOk result
        (λ scanned. (t : tree.Tree) × IsParseOf text.now (record { scanned = scanned; tree = t })) }
    ensures text { IfOk result (λ scanned. scanned.text ≡ text.now) }
    ensures derived { IfOk result
        (λ scanned. (t : tree.Tree) × IsFile (tokens_of scanned.pairs) MAX_NESTING t) }
    ensures parses { OnOk result (DoesParse text.now) }
    ensures fault { IfErr result (λ fault. IsSyntaxFault text.now fault) }
{
    match tf_lint::check_syntax(alloc, text) {
        Ok(scanned) => Ok(scanned),
        Err(fault) => Err(Fault::from(fault)),
    }
}
