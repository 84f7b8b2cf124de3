//! A search for what the rules of a set find in a text.

ghost use Rattle.std.specs.Prelude.{OnOk};
ghost use Rattle.tf_rules.specs.Findings.{finding_at, Adds};

use crate::finding::is_valid_at;
use crate::{Finding, Fix, Message, Rule, RuleSet};
use hcl_scan::Scanned;
use std::alloc::AllocError;

/// The text that is searched, and the rules.
#[derive(Clone, Copy)]
pub struct LintContext<'s, 't> {
    pub scanned: &'s Scanned<'t>,
    pub rules: RuleSet,
}

impl<'s, 't> LintContext<'s, 't> {
    /// Adds what a rule finds at the tokens from number `first` to number `past` (exclusive), if it
    /// is valid in the text.
    ///
    /// # Errors
    ///
    /// `AllocError` if memory runs out.
    pub fn report(
        &self,
        rule: Rule,
        first: u32,
        past: u32,
        message: Message,
        fix: Option<Fix>,
        found: &mut Vec<Finding>,
    ) -> Result<(), AllocError>
        ensures { OnOk result (Adds self.now.scanned.now.pairs found.old.items found.new.items
            (finding_at rule first past message fix)) }
    {
        // what is given is tested: a finding would have to be unpacked again
        let is_valid = is_valid_at(self.scanned.count(), first, past, &fix);
        let finding = Finding::new(rule, first, past, message, fix);
        if is_valid {
            found.push(finding)?;
        }
        Ok(())
    }
}
