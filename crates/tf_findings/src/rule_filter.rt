//! Which rule has found something.

ghost use Rattle.std.specs.Prelude.{◌≡◌};
ghost use Rattle.tf_findings.specs.RuleFilter.{is_found_by};

use crate::order::rank;
use tf_rules::{Finding, Rule};

/// Whether a finding is one of this rule.
#[inline]
pub fn is_found_by(rule: Rule, finding: &Finding) -> bool
    ensures { result ≡ is_found_by rule finding.now }
{
    rank(finding.rule()) == rank(rule)
}
