//! The step of one rule.

ghost use Rattle.std.specs.Prelude.{◌≡◌, ◌≤◌, ◌⊎◌, ℕ, true, length, IfOk, IfErr};
ghost use Rattle.hcl_scan.specs.Tokenization.{MAX_TEXT};
ghost use Rattle.tf_fix.specs.ParsedTexts.{IsParseOf};
ghost use Rattle.tf_rules.specs.ValidFindings.{AreValidFindings};
ghost use Rattle.tf_rules.specs.RuleSets.{has_rule};
ghost use Rattle.tf_fix.specs.declared.parsed.Parsed.{Parsed};
ghost use Rattle.tf_fix.specs.OneStep.{AreFindingsOf, IsTooLong, IsFixStep};
ghost use Rattle.tf_fix.specs.declared.fault.LintFault.TheVariants.{TooLong, Memory};

use crate::fault::LintFault;
use crate::laws::selected_are_within_limit;
use crate::rule_edits::fix_step_edits;
use crate::selection::selected_count;
use edit_record::lists::Edits;
use hcl_grammar::tree::Tree;
use hcl_scan::Scanned;
use hcl_text_laws::laws::parsed_tokens_are_apart;
use std::alloc::Global;
use tf_findings::findings;
use tf_rules::{Finding, Rule, RuleSet};
use tf_rules_laws::laws::{findings_match_their_rule, findings_of_one_rule};

/// The edits of one rule's step, and how many findings they fix.
#[derive(Drop)]
pub struct StepEdits {
    /// How many findings are fixed.
    pub count: usize,
    /// The edits that transform the text into the fixed one.
    pub edits: Edits,
}

/// Returns the edits of one rule's fix of a text that parses and its tree: each finding of the rule
/// is fixed that can be and shares no token with one fixed before it, in the order of a report.
///
/// # Errors
///
/// `TooLong` if the new text would have more than `MAX_TEXT` bytes, and `Memory`. It is not an
/// error that the new text does not parse.
pub fn fix_step(
    alloc: Global,
    scanned: &Scanned<'_>,
    tree: &Tree,
    rule: Rule,
) -> Result<Edits, LintFault>
    requires { IsParseOf scanned.now.text (record { scanned = scanned.now; tree = tree.now }) }
    ensures step { IfOk result
        (λ edits. (count : ℕ)
        × IsFixStep rule (record { scanned = scanned.now; tree = tree.now }) count edits) }
    ensures fault { IfErr result (λ fault. (fault ≡ Memory)
        ⊎ ((fault ≡ TooLong)
        × IsTooLong rule (record { scanned = scanned.now; tree = tree.now }))) }
{
    let only = RuleSet::only(rule);
    let found = findings(alloc, scanned, tree, only)?;
    let step = fix_step_of_findings(alloc, scanned, only, &found, rule)?;
    Ok(step.edits)
}

/// Returns the edits of one rule's fix of a text, and how many findings they fix. `found` is what
/// the rules of a set find in the text, which has the rule.
///
/// # Errors
///
/// `TooLong` if the new text would have more than `MAX_TEXT` bytes, and `Memory`.
pub fn fix_step_of_findings(
    alloc: Global,
    scanned: &Scanned<'_>,
    rules: RuleSet,
    found: &[Finding],
    rule: Rule,
) -> Result<StepEdits, LintFault>
    requires found { (p : Parsed) × AreFindingsOf rules p scanned.now found.now }
    requires valid { AreValidFindings (length scanned.now.pairs) found.now }
    requires rule_in_set { has_rule rules rule ≡ true }
    ensures step { (p : Parsed) → AreFindingsOf rules p scanned.now found.now
        → IfOk result (λ step. IsFixStep rule p step.count step.edits) }
    ensures few { IfOk result (λ step. step.count ≤ MAX_TEXT) }
    ensures fault { (p : Parsed) → AreFindingsOf rules p scanned.now found.now
        → IfErr result (λ fault. (fault ≡ Memory) ⊎ ((fault ≡ TooLong) × IsTooLong rule p)) }
{
    findings_of_one_rule();
    findings_match_their_rule();
    parsed_tokens_are_apart();
    selected_are_within_limit();
    let count = selected_count(found, rule);
    let edits = fix_step_edits(alloc, scanned, rule, found)?;
    Ok(StepEdits { count, edits })
}
