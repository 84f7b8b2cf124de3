//! The tree of a text.
//!
//! HCL native syntax specification, Structural Elements.

ghost use Rattle.std.specs.Prelude.{◌≡◌, ◌≢◌, ℕ, Ok, Err, IfOk, IfErr, MatchResult};
ghost use Rattle.hcl_grammar.specs.Bodies.{IsFile};
ghost use Rattle.hcl_grammar.specs.declared.tree.Tree as tree;
ghost use Rattle.hcl_text_laws.specs.Parses.{Parses};
ghost use Rattle.hcl_scan.specs.Follows.{tokens_of};
ghost use Rattle.hcl_text_laws.specs.Faults.{IsAtToken, IsMemory, IsMemoryOrDeep, to_parse_fault};
ghost use Rattle.hcl_text_laws.specs.declared.fault.ParseFault.TheVariants.{Memory};
ghost use Rattle.hcl_tree.specs.FirstError.{IsFirstError};

use hcl_grammar::MAX_NESTING;
use hcl_grammar::fault::TokenFault;
use hcl_grammar::tree::Tree;
use hcl_reader::Reader;
use hcl_scan::Scanned;
use hcl_text_laws::{ParseFault, to_parse_fault};
use std::alloc::Global;

/// Returns what was read of a text, with an error at its byte. No memory is taken.
fn to_parse_result(
    scanned: &Scanned<'_>,
    read: Result<Tree, TokenFault>,
) -> Result<Tree, ParseFault>
    ensures tree { IfOk read (λ t. result ≡ Ok t) }
    ensures fault { IfErr read (λ f. result ≡ Err (to_parse_fault scanned.now f)) }
{
    match read {
        Ok(tree) => Ok(tree),
        Err(fault) => Err(to_parse_fault(scanned, fault)),
    }
}

/// Returns the tree of a text that parses: its tokens follow the grammar, with constructs nested at
/// most `MAX_NESTING` deep.
///
/// Each node has the number of its first token and the number after its last. The text is read
/// once, from left to right.
///
/// # Errors
///
/// The first error, reading from left to right: `Syntax`, or `TooDeep` for constructs that are
/// nested more than `MAX_NESTING` deep; `Memory` if an allocation fails before that.
pub fn parse(alloc: Global, scanned: &Scanned<'_>) -> Result<Tree, ParseFault>
    // The text parses, and this is its tree.
    ensures parses { IfOk result (λ t. Parses scanned.now.text t) }
    ensures derived { IfOk result (λ t. IsFile (tokens_of scanned.now.pairs) MAX_NESTING t) }
    // A text that parses is not refused, unless memory runs out.
    ensures only { (t : tree.Tree) → Parses scanned.now.text t
        → MatchResult result (λ x. x ≡ t) IsMemory }
    // Where the tokens follow the grammar with constructs nested deeper, that is the error.
    ensures deeper { (d : ℕ) (t : tree.Tree) → IsFile (tokens_of scanned.now.pairs) d t
        → MatchResult result (λ x. x ≡ t) IsMemoryOrDeep }
    // The place of an error is where a token begins, or the length of the text.
    ensures place { IfErr result (λ e. IsAtToken scanned.now e) }
    // Unless memory runs out, the error is the first, which `check` returns too.
    ensures fault { IfErr result (λ e. e ≢ Memory → IsFirstError scanned.now e) }
{
    hcl_grammar_laws::laws::file_parser_is_exact();
    hcl_scan::laws::one_tokenization();
    // for the proof: a clause of `len` says that these are the tokens of the text
    let _count = scanned.len();
    let mut at = 0;
    let read = hcl_parse::parse(&Reader::new(alloc, scanned), &mut at);
    to_parse_result(scanned, read)
}
