//! Which findings one step of a fix selects.

ghost use Rattle.std.specs.Prelude.{◌≡◌, ◌&&◌, not, nat_lt, length, filter};
ghost use Rattle.tf_findings.specs.RuleFilter.{is_found_by};
ghost use Rattle.tf_rules.specs.Findings.{is_fixable};
ghost use Rattle.tf_fix.specs.Selection.{selected};

use tf_findings::is_found_by;
use tf_rules::{Finding, Rule};

/// Returns whether the finding is selected, if those selected before it end before token `past`.
pub fn is_selected(one: &Finding, past: u32) -> bool
    ensures { result ≡ (is_fixable one.now.fix && not (nat_lt one.now.first past)) }
{
    one.is_fixable() && past <= one.first()
}

/// Returns how many findings of a rule one step of a fix selects; those of other rules are ignored.
/// One that can be fixed is selected if it begins after all that were selected before it. In the
/// order of a report these are the findings that share no token with one selected before (law
/// `selected_are_apart`).
pub fn selected_count(findings: &[Finding], rule: Rule) -> usize
    ensures { result ≡ length (selected (filter (is_found_by rule) findings.now)) }
{
    let mut count = 0;
    let mut past = 0;
    for one in findings {
        if is_found_by(rule, one) && is_selected(one, past) {
            count += 1;
            past = one.past();
        }
    }
    count
}
