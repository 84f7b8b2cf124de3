//! The step of one rule.

ghost use Rattle.std.specs.Prelude.{◌≡◌, ◌≤◌, ◌⊎◌, ℕ, true, List, [], IfOk, IfErr};
ghost use Rattle.hcl_scan.specs.Tokenization.{MAX_TEXT};
ghost use Rattle.edit_record.specs.Lists.Pieces.{Transforms};
ghost use Rattle.tf_rules.specs.RuleSets.{has_rule};
ghost use Rattle.tf_lint.specs.LintedText.{IsLintOf};
ghost use Rattle.tf_fix.specs.declared.parsed.Parsed.{Parsed};
ghost use Rattle.tf_fix.specs.OneStep.{IsFixStep};
ghost use Rattle.tf_lint.specs.Steps.{CannotStep};
ghost use Rattle.tf_lint.specs.Inner.FirstChange.{IsStep};
ghost use Rattle.tf_lint.specs.declared.fault.FixFault.{FixFault};

use crate::fault::FixFault;
use crate::linted_text::LintedText;
use edit_record::laws::apply_is_exact;
use edit_record::lists::{Change as _, Edits};
use std::alloc::Global;
use tf_fix::{StepEdits, fix_step_of_findings};
use tf_rules::Rule;

/// A new text, and the edits that lead to it.
#[derive(Drop)]
pub struct NewText {
    pub text: Vec<u8>,
    pub edits: Edits,
}

/// The result of the step of a rule over a text.
#[derive(Drop)]
pub struct StepResult {
    /// How many findings it fixed.
    pub count: usize,
    /// None if the text is unchanged.
    pub change: Option<NewText>,
}

/// Returns the edits of the step of a rule over a text that was linted with a set that has it.
fn step_edits(alloc: Global, linted: &LintedText<'_>, rule: Rule) -> Result<StepEdits, FixFault>
    requires linted { (p : Parsed) × IsLintOf p linted.now }
    requires rule_in_set { has_rule linted.now.rules rule ≡ true }
    ensures step { (p : Parsed) → IsLintOf p linted.now
        → IfOk result (λ step. IsFixStep rule p step.count step.edits) }
    ensures count_within_limit { IfOk result (λ step. step.count ≤ MAX_TEXT) }
    ensures fault { (p : Parsed) → IsLintOf p linted.now
        → IfErr result (λ fault. (fault ≡ FixFault.Memory)
        ⊎ ((fault ≡ FixFault.TooLong) × CannotStep rule p fault)) }
{
    let found = linted.found.as_slice();
    let edits = fix_step_of_findings(alloc, &linted.scanned, linted.rules, found, rule)?;
    Ok(edits)
}

/// Whether nothing is edited.
fn is_without_edits(edits: &Edits) -> bool
    ensures { result ≡ true → edits.now.entries ≡ [] }
{
    matches!(edits.edits(), [])
}

/// Makes the step of a rule over a text that was linted with a set that has it.
///
/// # Errors
///
/// `TooLong` if the new text would have more than `MAX_TEXT` bytes, and `Memory`.
pub fn apply_step(
    alloc: Global,
    linted: &LintedText<'_>,
    rule: Rule,
) -> Result<StepResult, FixFault>
    requires linted { (p : Parsed) × IsLintOf p linted.now }
    requires rule_in_set { has_rule linted.now.rules rule ≡ true }
    ensures step { (p : Parsed) → IsLintOf p linted.now → IfOk result (λ step. IsStep rule p step) }
    ensures fault { (p : Parsed) → IsLintOf p linted.now
        → IfErr result (λ fault. (fault ≡ FixFault.Memory) ⊎ CannotStep rule p fault) }
{
    let StepEdits { count, edits } = step_edits(alloc, linted, rule)?;
    if is_without_edits(&edits) {
        // the text is neither copied nor compared
        return Ok(StepResult {
            count,
            change: None,
        });
    }
    let text = apply_step_edits(alloc, linted.scanned.text(), &edits)?;
    if text.as_slice() == linted.scanned.text() {
        return Ok(StepResult {
            count,
            change: None,
        });
    }
    Ok(StepResult {
        count,
        change: Some(NewText { text, edits }),
    })
}

/// Applies the edits to a text to which they belong.
fn apply_step_edits(alloc: Global, text: &[u8], edits: &Edits) -> Result<Vec<u8>, FixFault>
    requires { (new : List ℕ) × Transforms edits.now text.now new }
    ensures made { (new : List ℕ) → Transforms edits.now text.now new
        → IfOk result (λ made. made.items ≡ new) }
    ensures fault { IfErr result (λ fault. fault ≡ FixFault.Memory) }
{
    apply_is_exact(edits);
    match edits.apply(alloc, text) {
        Ok(made) => Ok(made),
        Err(_) => Err(FixFault::Memory),
    }
}
