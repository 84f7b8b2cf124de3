//! A search of a text by rules.

use crate::member::LintedMember;
use hcl_scan::Scanned;
use tf_rules::RuleSet;

/// A text that is searched by rules, and what may be reused of another one. No call changes it.
#[derive(Clone, Copy)]
pub struct Search<'s, 't, 'o> {
    pub scanned: &'s Scanned<'t>,
    pub rules: RuleSet,
    /// Another text that was searched by the same rules; if there is none, this one.
    pub old: &'s Scanned<'o>,
    /// Members of that text, in order. If the tokens of one are in this text too, its findings are
    /// reused.
    pub old_members: &'s [LintedMember],
    /// Whether the members of this text are kept; else each is freed as soon as it was linted.
    pub keep_members: bool,
}
