//! What a fix leaves.

ghost use Rattle.std.specs.Prelude.{◌≡◌, ◌<◌, List, IfOk, IfErr, string_bytes};
ghost use Rattle.tf_lint.specs.Remaining.{remaining_count, IsRemaining};
ghost use Rattle.tf_lint.specs.Reports.{Report, report_lines};
ghost use Rattle.tf_lint.specs.Steps.{IsReport};
ghost use Rattle.tf_rules.specs.declared.rule_set.RuleSet.{RuleSet};

use crate::issue_list::lines_of_findings;
use hcl_scan::{Scanned, TokenList};
use std::alloc::{AllocError, Global};
use tf_rules::Finding;

/// What the rules of a fix still find in the new text. The lines of a report are made of it only
/// when they are needed.
#[derive(Drop)]
pub struct Remaining {
    pub(crate) tokens: TokenList,
    /// In the order of a report, without what comments silence.
    pub(crate) found: Vec<Finding>,
}

impl Remaining {
    /// Returns how many issues are left.
    pub fn len(&self) -> usize
        ensures { result ≡ remaining_count self.now }
    {
        self.found.len()
    }

    /// Returns the line of each issue that is left, in a report on the file of this name, each
    /// followed by LF. The text is the new one. If nothing is left, nothing is allocated.
    ///
    /// # Errors
    ///
    /// `AllocError` if memory runs out.
    pub fn lines(self, alloc: Global, name: &str, text: &[u8]) -> Result<String, AllocError>
        requires { (rules : RuleSet) × IsRemaining rules text.now self }
        ensures lines { (rules : RuleSet) → IsRemaining rules text.now self
            → IfOk result (λ lines. (reported : List Report) × IsReport rules text.now reported
            × (string_bytes lines ≡ report_lines name.now reported)) }
        ensures allocates { IfErr result (λ _. 0 < remaining_count self) }
    {
        let scanned = Scanned::attach(text, self.tokens);
        lines_of_findings(alloc, name, &scanned, &self.found)
    }
}
