//! Issues, counted by their rules.

use crate::report::Report;
use anyhow::Result;
use std::fmt::Write;
use tf_lint::{Issue, Rule};

/// How many texts a rule is to have an issue in that can be fixed; one without a fix, an issue.
fn wanted(rule: Rule) -> u64 {
    if rule.has_fix() { 5 } else { 1 }
}

/// The rule's name without what all begin with.
fn short(rule: Rule) -> &'static str {
    let name = rule.name();
    name.strip_prefix("terraform_").unwrap_or(name)
}

/// Writes the rules of the issues after the line, in their order, each with the number of its
/// issues.
pub fn write_counts(issues: &[Issue], line: &mut String, report: &mut Report) {
    for rule in Rule::ALL {
        let count = issues.iter().filter(|issue| issue.rule == rule).count();
        if count > 0 {
            let name = short(rule);
            let is_put = write!(line, " {name}={count}").is_ok();
            report.hold(is_put, "memory is wanting");
        }
    }
}

/// In how many texts the rules have issues that count for them, in the order of the rules.
#[derive(Drop)]
pub struct Tally {
    texts: [u64; Rule::COUNT],
}

/// Whether the issue is one of the rule, and can be fixed if the rule has a fix.
fn counts_for(issue: &Issue, rule: Rule) -> bool {
    issue.rule == rule && (issue.fixable || !rule.has_fix())
}

impl Tally {
    pub fn new() -> Tally {
        Tally {
            texts: [0; Rule::COUNT],
        }
    }

    /// Counts a text with these issues.
    pub fn add(&mut self, issues: &[Issue]) {
        for (i, rule) in Rule::ALL.iter().enumerate() {
            let occurs = issues.iter().any(|issue| counts_for(issue, *rule));
            if let Some(texts) = self.texts.get_mut(i) {
                *texts = texts.saturating_add(u64::from(occurs));
            }
        }
    }

    /// Reports the rules that occur too seldom.
    pub fn print_rare(&self, rt: &HostRuntime) -> Result<()> {
        for (rule, texts) in Rule::ALL.iter().zip(self.texts.iter()) {
            if *texts < wanted(*rule) {
                let name = short(*rule);
                println!(rt; "{name}: in {texts} texts")?;
            }
        }
        Ok(())
    }
}
