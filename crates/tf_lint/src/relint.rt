//! A text with what the rules find in it.

ghost use Rattle.std.specs.Prelude.{◌≡◌, ◌≢◌, ◌⊎◌, ◌<◌, ◌^◌, ℕ, List, length, Ok, Err, IfOk, IfErr};
ghost use Rattle.tf_fix.specs.ParsedTexts.{IsParseOf};
ghost use Rattle.tf_lint.specs.ParseFaults.{DoesNotParse, IsReadFault};
ghost use Rattle.hcl_scan.specs.Tokenization.{IsTokenization};
ghost use Rattle.tf_lint.specs.LintedText.{IsPreviousOf, IsLintOf};
ghost use Rattle.tf_lint.specs.LintedMembers.{AreLintedMembers};
ghost use Rattle.tf_lint.specs.declared.fault.FixFault.{FixFault};
ghost use Rattle.tf_fix.specs.declared.parsed.Parsed.{Parsed};

use crate::fault::FixFault;
use crate::linted_text::{LintedText, PreviousText};
use crate::member::LintedMember;
use crate::search::Search;
use crate::text_findings::{TextFindings, lint_tokens};
use edit_record::lists::{Edit, Edits};
use hcl_rescan::{ReplacedRange, rescan};
use hcl_scan::laws::{no_tokenization_with_fault, one_tokenization};
use hcl_scan::{Scanned, Span, scan};
use hcl_text_laws::laws::parsed_tokens_are_apart;
use std::alloc::{AllocError, Global};
use tf_rules::{Finding, Rule, RuleSet};

/// Returns the tokens of a text, if it parses, and what the rules of the set find in it.
///
/// The text is read once, and no tree of it is kept. Its attributes and blocks are kept where the
/// steps of a fix will make another text of it.
///
/// # Errors
///
/// `Scan` if the text can't be tokenized; `Parse` if its tokens have no tree within `MAX_NESTING`;
/// `Memory`.
pub fn lint_text<'t>(
    alloc: Global,
    text: &'t [u8],
    rules: RuleSet,
    keep_members: bool,
) -> Result<LintedText<'t>, FixFault>
    ensures linted { IfOk result (λ linted. (p : Parsed) × IsParseOf text.now p × IsLintOf p linted) }
    ensures rules { IfOk result (λ linted. linted.rules ≡ rules) }
    ensures fault { IfErr result (λ fault. IsReadFault text.now fault) }
{
    let scanned = scan(alloc, text)?;
    lint_scanned(alloc, scanned, rules, keep_members)
}

/// Lints a text that is scanned already.
fn lint_scanned<'t>(
    alloc: Global,
    scanned: Scanned<'t>,
    rules: RuleSet,
    keep_members: bool,
) -> Result<LintedText<'t>, FixFault>
    requires { IsTokenization scanned.text scanned.pairs scanned.last }
    ensures linted { (text : List ℕ) → scanned.entry.text ≡ text
        → IfOk result (λ linted. (p : Parsed) × IsParseOf text p × IsLintOf p linted) }
    ensures rules { IfOk result (λ linted. linted.rules ≡ rules) }
    ensures fault { (text : List ℕ) → scanned.entry.text ≡ text
        → IfErr result (λ fault. IsReadFault text fault) }
{
    let search = Search {
        scanned: &scanned,
        rules,
        old: &scanned,
        old_members: &[],
        keep_members,
    };
    let TextFindings { members, found } = lint_tokens(alloc, &search)?;
    Ok(LintedText {
        scanned,
        rules,
        found,
        members,
    })
}

/// Returns what an edit replaces.
fn replaced_range(edit: &Edit) -> ReplacedRange
    requires at { edit.now.at < 2 ^ 32 }
    requires removed { length edit.now.removed < 2 ^ 32 }
    requires added { length edit.now.added < 2 ^ 32 }
{
    ReplacedRange {
        at: edit.at() as u32,
        removed: edit.removed().len() as u32,
        added: edit.added().len() as u32,
    }
}

/// Returns the pieces of a text that edits replace, for `rescan`.
pub fn replaced_ranges(alloc: Global, edits: &Edits) -> Result<Vec<ReplacedRange>, AllocError> {
    let all = edits.edits();
    let mut pieces = Vec::with_capacity(alloc, all.len())?;
    for edit in all {
        pieces.push(replaced_range(edit))?;
    }
    Ok(pieces)
}

/// Lints a text that a step of a fix made from another. Members whose tokens are unchanged are not
/// parsed again; their findings are reused.
fn relint_scanned<'t>(
    alloc: Global,
    scanned: Scanned<'t>,
    rules: RuleSet,
    old: &Scanned<'_>,
    old_members: &[LintedMember],
) -> Result<LintedText<'t>, FixFault>
    requires tokenization { IsTokenization scanned.text scanned.pairs scanned.last }
    requires members_linted { AreLintedMembers rules old.now.pairs old_members.now }
    ensures linted { (text : List ℕ) → scanned.entry.text ≡ text
        → IfOk result (λ linted. (p : Parsed) × IsParseOf text p × IsLintOf p linted) }
    ensures rules { IfOk result (λ linted. linted.rules ≡ rules) }
    ensures fault { (text : List ℕ) → scanned.entry.text ≡ text
        → IfErr result (λ fault. IsReadFault text fault) }
{
    let search = Search {
        scanned: &scanned,
        rules,
        old,
        old_members,
        keep_members: true,
    };
    let TextFindings { members, found } = lint_tokens(alloc, &search)?;
    Ok(LintedText {
        scanned,
        rules,
        found,
        members,
    })
}

/// What the text that a step makes is linted from: the text before it, and the memory for the new
/// tokens.
#[derive(Drop)]
pub struct RelintSource<'o> {
    /// The text before the step.
    pub old_text: &'o [u8],
    /// What is kept of that text.
    pub previous: PreviousText,
    /// The new tokens are stored in it.
    pub token_buffer: Vec<Span>,
    /// The ranges that the step replaced.
    pub replaced: Vec<ReplacedRange>,
}

/// A text that was searched, and the memory of the tokens of the one before it, as far as there
/// still is any.
#[derive(Drop)]
pub struct RelintedText<'t> {
    pub linted: LintedText<'t>,
    pub token_buffer: Vec<Span>,
}

/// Lints the text that an edit made from the source's, reusing the old tokens and findings. Of the
/// old text only its token buffer is kept; if it has no members to reuse, its tokens are freed
/// before the new text is parsed.
fn relint_text<'t>(
    alloc: Global,
    text: &'t [u8],
    source: RelintSource<'_>,
) -> Result<RelintedText<'t>, FixFault>
    requires { (p : Parsed) × (p.scanned.text ≡ source.old_text.now) × IsPreviousOf p source.previous }
    ensures linted { IfOk result
        (λ made. (p : Parsed) × IsParseOf text.now p × IsLintOf p made.linted) }
    ensures rules { IfOk result (λ made. made.linted.rules ≡ source.entry.previous.rules) }
    ensures fault { IfErr result (λ fault. IsReadFault text.now fault) }
{
    parsed_tokens_are_apart();
    let RelintSource {
        old_text,
        previous,
        token_buffer,
        replaced,
    } = source;
    let PreviousText {
        tokens,
        rules,
        members,
        ..
    } = previous;
    let old = Scanned::attach(old_text, tokens);
    let scanned = rescan(alloc, token_buffer, text, &old, &replaced)?;
    drop(replaced);
    if members.is_empty() {
        drop(old);
        let linted = lint_scanned(alloc, scanned, rules, true)?;
        let token_buffer = Vec::new(alloc);
        return Ok(RelintedText {
            linted,
            token_buffer,
        });
    }
    let linted = relint_scanned(alloc, scanned, rules, &old, &members)?;
    drop(members);
    Ok(RelintedText {
        linted,
        token_buffer: old.into_buffer(),
    })
}

/// Returns a buffer large enough for the tokens of `text`: the old text had `count`, and each new
/// token contains an added byte. The buffer is reserved at once, since a vector that grows would
/// leave smaller freed blocks.
fn token_buffer_for(
    alloc: Global,
    token_buffer: Vec<Span>,
    text: &[u8],
    count: usize,
    replaced: &[ReplacedRange],
) -> Result<Vec<Span>, AllocError> {
    let mut most = count;
    for piece in replaced {
        most = most.saturating_add(piece.added as usize);
    }
    // `scan` allocates a token for each eight bytes at once
    let most = most.min(text.len()).max(text.len() / 8);
    if most <= token_buffer.capacity() {
        return Ok(token_buffer);
    }
    drop(token_buffer);
    Vec::with_capacity(alloc, most)
}

/// Returns why a text that the step of a rule made is not linted: `Memory`, or else `FixBroken`.
fn step_fault(fault: FixFault, rule: Rule) -> FixFault
    ensures { ((fault ≡ FixFault.Memory) × (result ≡ FixFault.Memory))
        ⊎ ((fault ≢ FixFault.Memory) × (result ≡ FixFault.FixBroken rule)) }
{
    match fault {
        FixFault::Memory => FixFault::Memory,
        _ => FixFault::FixBroken { rule },
    }
}

/// Names the rule whose step made a text that can't be linted, as the reason why it can't.
fn name_broken_step(
    relinted: Result<RelintedText<'_>, FixFault>,
    rule: Rule,
) -> Result<RelintedText<'_>, FixFault>
    ensures ok { IfOk result (λ made. relinted.entry ≡ Ok made) }
    ensures err { IfErr result (λ e. (why : FixFault) × (relinted.entry ≡ Err why)
        × (((why ≡ FixFault.Memory) × (e ≡ FixFault.Memory))
        ⊎ ((why ≢ FixFault.Memory) × (e ≡ FixFault.FixBroken rule)))) }
{
    match relinted {
        Ok(made) => Ok(made),
        Err(fault) => Err(step_fault(fault, rule)),
    }
}

/// Lints the text that the step of this rule made of the source's, which was linted.
///
/// # Errors
///
/// `FixBroken` if the text does not parse, and `Memory`.
pub fn relint_step<'t>(
    alloc: Global,
    text: &'t [u8],
    source: RelintSource<'_>,
    rule: Rule,
) -> Result<RelintedText<'t>, FixFault>
    requires { (p : Parsed) × (p.scanned.text ≡ source.old_text.now) × IsPreviousOf p source.previous }
    ensures linted { IfOk result
        (λ made. (p : Parsed) × IsParseOf text.now p × IsLintOf p made.linted) }
    ensures rules { IfOk result (λ made. made.linted.rules ≡ source.entry.previous.rules) }
    ensures fault { IfErr result
        (λ fault. (fault ≡ FixFault.Memory)
        ⊎ ((fault ≡ FixFault.FixBroken rule) × DoesNotParse text.now)) }
{
    no_tokenization_with_fault();
    one_tokenization();
    let RelintSource {
        old_text,
        previous,
        token_buffer,
        replaced,
    } = source;
    let token_buffer = token_buffer_for(alloc, token_buffer, text, previous.count, &replaced)?;
    let source = RelintSource {
        old_text,
        previous,
        token_buffer,
        replaced,
    };
    let relinted = relint_text(alloc, text, source);
    name_broken_step(relinted, rule)
}

/// Splits a linted text into what the next one can reuse and its findings, without the text itself.
pub fn into_previous(linted: LintedText<'_>) -> (PreviousText, Vec<Finding>)
    ensures before { (p : Parsed) → IsLintOf p linted.entry → IsPreviousOf p result.0 }
    ensures rules { result.0.rules ≡ linted.entry.rules }
    ensures found { result.1.items ≡ linted.entry.found.items }
{
    let count = linted.scanned.len();
    let previous = PreviousText {
        tokens: linted.scanned.detach(),
        count,
        rules: linted.rules,
        members: linted.members,
    };
    (previous, linted.found)
}
