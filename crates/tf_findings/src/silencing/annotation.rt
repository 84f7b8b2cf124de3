//! Lines with silencing comments.

ghost use Rattle.std.specs.Prelude.{◌≡◌, ◌||◌, ◌&&◌, ◌==◌, ◌+◌};
ghost use Rattle.tf_rules.specs.declared.rule.Rule.{Rule};
ghost use Rattle.tf_rules.specs.RuleSets.{has_rule};
ghost use Rattle.tf_findings.specs.Silencing.{covers_line};
ghost use Rattle.tf_findings.specs.Inner.Annotations.{covers};

use tf_rules::{Rule, RuleSet};

/// A line on which silencing comments begin, counted from 1, and the rules that these silence on it
/// and on the next.
#[derive(Clone, Copy)]
pub struct Annotation {
    pub line: usize,
    pub rules: RuleSet,
}

/// Whether a comment that begins on line `comment` silences on this line: it and the next.
fn covers_line(line: usize, comment: usize) -> bool
    ensures { result ≡ covers_line line comment }
{
    line == comment || (line > comment && line - comment == 1)
}

impl Annotation {
    /// Returns the annotation of the same line that silences these rules too.
    pub fn merge(self, rules: RuleSet) -> Annotation
        ensures line { result.line ≡ self.line }
        ensures rules { (rule : Rule)
            → has_rule result.rules rule ≡ (has_rule self.rules rule || has_rule rules rule) }
    {
        Annotation {
            line: self.line,
            rules: self.rules.union(rules),
        }
    }

    /// Whether it silences what the rule finds on this line.
    pub fn covers(&self, rule: Rule, line: usize) -> bool
        ensures { result ≡ covers rule line self.now }
    {
        covers_line(line, self.line) && self.rules.has(rule)
    }
}
