//! What the rules find in a text that parses.

ghost use Rattle.std.specs.Prelude.{◌≡◌, ◌≢◌, ◌++◌, ℕ, true, List, length, IfOk, IfErr, Ok, Err};
ghost use Rattle.hcl_grammar.specs.Bodies.{IsFile};
ghost use Rattle.hcl_grammar.specs.Pure.BodyParser as spec;
ghost use Rattle.hcl_grammar.specs.Pure.NodeMakers.{nodes};
ghost use Rattle.hcl_grammar.specs.declared.fault.TokenFault.{TokenFault};
ghost use Rattle.hcl_grammar.specs.declared.fault.TokenFault.TheVariants as fault;
ghost use Rattle.hcl_grammar.specs.declared.tree.Member.{Member};
ghost use Rattle.hcl_grammar.specs.declared.tree.Tree.{Tree};
ghost use Rattle.hcl_grammar.specs.declared.bounds.TheConstants.{MAX_NESTING};
ghost use Rattle.hcl_text_laws.specs.Parses.{Parses};
ghost use Rattle.hcl_scan.specs.Follows.{tokens_of};
ghost use Rattle.hcl_text_laws.specs.Faults.{IsMemory, IsMemoryOrDeep, to_parse_fault};
ghost use Rattle.hcl_text_laws.specs.declared.fault.ParseFault.TheVariants.{Memory};
ghost use Rattle.tf_findings.specs.Findings.{AreNodeAndBlockFindings, AreFindings};
ghost use Rattle.tf_lint.specs.Inner.BodyFindings.{AreBodyFindings};
ghost use Rattle.tf_lint.specs.LintedMembers.{AreLintedMembers};
ghost use Rattle.tf_rules.specs.ValidFindings.{AreValidFindings};

use crate::body::{BodyFindings, append_findings, lint_body};
use crate::member::LintedMember;
use crate::search::Search;
use hcl_grammar::fault::TokenFault;
use hcl_scan::Scanned;
use hcl_text_laws::to_parse_fault;
use hcl_token::Kind;
use hcl_tree::reading::Reader;
use hcl_tree::{MAX_NESTING, ParseFault};
use std::alloc::Global;
use tf_findings::complete_findings;
use tf_rules::{Finding, RuleSet};

/// What the rules find in a text, and in each member of its body.
#[derive(Drop)]
pub struct TextFindings {
    /// The members of its body, in order, as far as they are kept.
    pub members: Vec<LintedMember>,
    /// What is found in the text, in the order of a report, without what comments silence.
    pub found: Vec<Finding>,
}

/// Reads a text's body from token `at` to the text's end, and returns what the rules find in it.
fn lint_file(
    alloc: Global,
    search: &Search<'_, '_, '_>,
    at: &mut u32,
) -> Result<BodyFindings, TokenFault>
    requires { AreLintedMembers search.now.rules search.now.old.now.pairs search.now.old_members.now }
    ensures found { IfOk result
        (λ found. (t : Tree)
        × (spec.file nodes (tokens_of search.now.scanned.now.pairs) MAX_NESTING at.old ≡ Ok (t, at.new))
        × AreBodyFindings search.now.rules search.now.scanned.now.pairs t.body.members found) }
    ensures fault { IfErr result
        (λ e. e ≢ fault.Memory
        → spec.file nodes (tokens_of search.now.scanned.now.pairs) MAX_NESTING at.old ≡ Err e) }
{
    let reader = Reader::new(alloc, search.scanned);
    let _is_mark = reader.eat(Kind::Mark, at);
    let members = lint_body(alloc, search, at)?;
    let _is_comment = reader.eat(Kind::LineComment, at);
    reader.expect_end(at)?;
    Ok(members)
}

/// Returns what was read of a text, with an error at its byte.
fn to_parse_result(
    scanned: &Scanned<'_>,
    read: Result<BodyFindings, TokenFault>,
) -> Result<BodyFindings, ParseFault>
    ensures ok { IfOk result (λ found. read ≡ Ok found) }
    ensures fault { IfErr result (λ f. (why : TokenFault)
        × (read ≡ Err why) × (f ≡ to_parse_fault scanned.now why)) }
{
    match read {
        Ok(found) => Ok(found),
        Err(fault) => Err(to_parse_fault(scanned, fault)),
    }
}

/// Completes what was found at the nodes and then at the blocks of a text: adds what is found at
/// comments, sorts it in the order of a report, and removes what comments silence.
fn finish_findings(
    alloc: Global,
    scanned: &Scanned<'_>,
    rules: RuleSet,
    found: Vec<Finding>,
) -> Result<Vec<Finding>, ParseFault>
    requires { (members : List Member)
        × AreNodeAndBlockFindings rules scanned.now.pairs members found.items }
    ensures are { (members : List Member)
        → AreNodeAndBlockFindings rules scanned.now.pairs members found.items
        → IfOk result (λ findings. AreFindings rules scanned.now.pairs members findings.items) }
    ensures valid { IfOk result
        (λ findings. AreValidFindings (length scanned.now.pairs) findings.items) }
    ensures fault { IfErr result (λ fault. fault ≡ Memory) }
{
    match complete_findings(alloc, scanned, rules, found) {
        Ok(found) => Ok(found),
        Err(_) => Err(ParseFault::Memory),
    }
}

/// Completes what was found in the members of a text: adds what is found at comments, sorts it in
/// the order of a report, and removes what comments silence.
fn finish_body(
    alloc: Global,
    scanned: &Scanned<'_>,
    rules: RuleSet,
    read: BodyFindings,
) -> Result<TextFindings, ParseFault>
    requires { (ms : List Member) × AreBodyFindings rules scanned.now.pairs ms read }
    ensures are { (ms : List Member) → AreBodyFindings rules scanned.now.pairs ms read
        → IfOk result (λ linted. AreFindings rules scanned.now.pairs ms linted.found.items) }
    ensures members { IfOk result (λ linted. linted.members ≡ read.members) }
    ensures valid { IfOk result (λ linted. AreValidFindings (length scanned.now.pairs) linted.found.items) }
    ensures fault { IfErr result (λ fault. fault ≡ Memory) }
{
    let members = read.members;
    let mut found = read.node_findings;
    match append_findings(&mut found, read.block_findings) {
        Ok(()) => {
            let found = finish_findings(alloc, scanned, rules, found)?;
            Ok(TextFindings { members, found })
        }
        Err(_) => Err(ParseFault::Memory),
    }
}

/// Returns what the rules of the set find in a text, if it parses, as `tf_findings::findings` finds
/// it in its tree.
///
/// The text is read once, from left to right. Of its tree no more is kept at a time than one
/// attribute or block of its body. If the tokens of the next of the old members are here too, its
/// findings are reused, with their numbers moved, and it is not read again. The members are kept for
/// a next text, or freed, and then their findings are not copied.
///
/// # Errors
///
/// Why the text does not parse, as `hcl_tree::parse` says it, and `Memory`.
pub fn lint_tokens(alloc: Global, search: &Search<'_, '_, '_>) -> Result<TextFindings, ParseFault>
    requires { AreLintedMembers search.now.rules search.now.old.now.pairs search.now.old_members.now }
    // The text parses, and this is what the rules find in its tree.
    ensures found { IfOk result
        (λ linted. (t : Tree) × IsFile (tokens_of search.now.scanned.now.pairs) MAX_NESTING t
        × AreFindings search.now.rules search.now.scanned.now.pairs t.body.members linted.found.items) }
    ensures members { IfOk result
        (λ linted. AreLintedMembers search.now.rules search.now.scanned.now.pairs linted.members.items) }
    ensures valid { IfOk result
        (λ linted. AreValidFindings (length search.now.scanned.now.pairs) linted.found.items) }
    // A text that parses is not refused, unless memory runs out.
    ensures only { (t : Tree) → Parses search.now.scanned.now.text t → IfErr result IsMemory }
    // If the tokens follow the grammar with more constructs nested, the error is TooDeep.
    ensures too_deep { (d : ℕ) (t : Tree) → IsFile (tokens_of search.now.scanned.now.pairs) d t
        → IfErr result IsMemoryOrDeep }
{
    hcl_grammar_laws::laws::file_parser_is_exact();
    hcl_scan::laws::one_tokenization();
    // for the proof: the tokens are those that the text has
    let _count = search.scanned.len();
    let mut at = 0;
    let outcome = lint_file(alloc, search, &mut at);
    let read = to_parse_result(search.scanned, outcome)?;
    finish_body(alloc, search.scanned, search.rules, read)
}
