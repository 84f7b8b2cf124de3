//! One step of a fix.

ghost use Rattle.std.specs.Prelude.{◌≡◌, ◌<◌, ◌≤◌, ◌⊎◌, Ok, Err, length, filter, IfOk, IfErr};
ghost use Rattle.edit_record.specs.Lists.Pieces.{Transforms};
ghost use Rattle.edit_record.specs.Lists.Validity.{make_edits};
ghost use Rattle.edit_record.specs.declared.lists.edit.BadEdits.{BadEdits};
ghost use Rattle.hcl_scan.specs.Tokenization.{MAX_TEXT};
ghost use Rattle.hcl_scan.specs.Follows.{AreApart};
ghost use Rattle.tf_findings.specs.RuleFilter.{is_found_by};
ghost use Rattle.tf_rules.specs.ValidFindings.{AreValidFindings};
ghost use Rattle.tf_fix.specs.StepText.{fix_step_text};
ghost use Rattle.tf_fix.specs.Edits.StepEdits.{fix_step_entries, fix_step_edits};
ghost use Rattle.tf_rules.specs.Table.{is_comment_rule};
ghost use Rattle.tf_fix.specs.OfRule.{AreOfRule};
ghost use Rattle.tf_fix.specs.Inner.Nonempty.{AreNonempty};
ghost use Rattle.tf_fix.specs.declared.fault.LintFault.TheVariants.{TooLong, Memory};

use crate::comment::comment_edits;
use crate::fault::LintFault;
use crate::replacement_list::selected_replacements;
use crate::splice::replacement_edits;
use edit_record::laws::{pieces_make_valid_edits, pieces_transform};
use edit_record::lists::{Edit, Edits};
use hcl_scan::Scanned;
use std::alloc::Global;
use tf_rules::{Finding, Rule};

/// Whether the rule is about comments: its edits are inside of tokens.
fn is_comment_rule(rule: Rule) -> bool
    ensures { result ≡ is_comment_rule rule }
{
    matches!(rule, Rule::CommentSyntax)
}

/// Returns the edits of the step, in order: inside of comments, or of whole tokens and gaps.
fn fix_step_entries(
    alloc: Global,
    scanned: &Scanned<'_>,
    rule: Rule,
    findings: &[Finding],
) -> Result<Vec<Edit>, LintFault>
    requires nonempty { AreNonempty scanned.now.pairs }
    requires valid { AreValidFindings (length scanned.now.pairs) (filter (is_found_by rule) findings.now) }
    ensures ok { IfOk result
        (λ edits. edits.items
        ≡ fix_step_entries rule scanned.now (filter (is_found_by rule) findings.now)) }
    ensures err { IfErr result (λ e. e ≡ Memory) }
{
    if is_comment_rule(rule) {
        return Ok(comment_edits(alloc, scanned, rule, findings)?);
    }
    let all = selected_replacements(alloc, scanned, rule, findings)?;
    Ok(replacement_edits(alloc, scanned, &all)?)
}

/// Makes a list of edits of a text of `old_len` bytes. A list that `Edits::make` refuses is
/// reported as `TooLong`: the edits of a step are in order and inside the text, so that only the
/// length of the new text can be wrong. It allocates nothing.
fn list_within_limit(old_len: usize, edits: Vec<Edit>) -> Result<Edits, LintFault>
    ensures ok { IfOk result (λ list. make_edits old_len edits.items ≡ Ok list) }
    ensures err { IfErr result
        (λ e. (e ≡ TooLong) × (why : BadEdits) × (make_edits old_len edits.items ≡ Err why)) }
{
    match Edits::make(old_len, edits) {
        Ok(list) => Ok(list),
        Err(_) => Err(LintFault::TooLong),
    }
}

/// Returns the edits that fix the findings which one step of the rule selects. They transform the
/// text into the fixed one. In a text that parses, no two tokens that join are adjacent, as the
/// contract requires.
///
/// # Errors
///
/// `TooLong` if the fixed text would have more than `MAX_TEXT` bytes, and `Memory`.
pub fn fix_step_edits(
    alloc: Global,
    scanned: &Scanned<'_>,
    rule: Rule,
    findings: &[Finding],
) -> Result<Edits, LintFault>
    requires apart { AreApart scanned.now.pairs }
    requires of_rule { AreOfRule rule scanned.now.pairs (filter (is_found_by rule) findings.now) }
    requires valid { AreValidFindings (length scanned.now.pairs) (filter (is_found_by rule) findings.now) }
    ensures edits { IfOk result
        (λ edits. edits ≡ fix_step_edits rule scanned.now (filter (is_found_by rule) findings.now)) }
    ensures transforms { IfOk result
        (λ edits. Transforms edits scanned.now.text
        (fix_step_text scanned.now (filter (is_found_by rule) findings.now))) }
    ensures short { IfOk result
        (λ edits. length (fix_step_text scanned.now (filter (is_found_by rule) findings.now)) ≤ MAX_TEXT) }
    ensures err { IfErr result
        (λ e. (e ≡ Memory)
        ⊎ ((e ≡ TooLong)
        × (MAX_TEXT < length (fix_step_text scanned.now (filter (is_found_by rule) findings.now))))) }
{
    let text = scanned.text();
    let edits = fix_step_entries(alloc, scanned, rule, findings)?;
    pieces_make_valid_edits();
    pieces_transform();
    let list = list_within_limit(text.len(), edits)?;
    Ok(list)
}
