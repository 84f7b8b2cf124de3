//! A text that was searched.

use crate::member::LintedMember;
use hcl_scan::{Scanned, TokenList};
use tf_rules::{Finding, RuleSet};

/// A text that parses: its tokens, and what the rules find in it.
#[derive(Drop)]
pub struct LintedText<'t> {
    pub scanned: Scanned<'t>,
    /// The enabled rules.
    pub rules: RuleSet,
    /// What they find, in the order of a report, without what comments silence.
    pub found: Vec<Finding>,
    /// The attributes and blocks of its body, each with what they find in it; none where nothing
    /// will come of the text.
    pub members: Vec<LintedMember>,
}

/// What linting the next text needs of one that was linted, without the text, which is freed as
/// soon as the next one was linted.
#[derive(Drop)]
pub struct PreviousText {
    pub tokens: TokenList,
    /// How many these are.
    pub count: usize,
    /// The enabled rules.
    pub rules: RuleSet,
    /// The attributes and blocks of its body, each with what the rules find in it.
    pub members: Vec<LintedMember>,
}
