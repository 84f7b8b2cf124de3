//! Sets of rules.

ghost use Rattle.std.specs.Prelude.{◌≡◌, ◌≢◌, ◌||◌, true, false};
ghost use Rattle.std.specs.Str.{bytes_eq};
ghost use Rattle.tf_rules.specs.declared.rule.Rule.{Rule};
ghost use Rattle.tf_rules.specs.RuleSets.{has_rule};
ghost use Rattle.tf_rules.specs.Table.{name_of};
ghost use Rattle.tf_rules.specs.SingleRule.{only};

use crate::rule::Rule;

/// A set of rules. It takes no memory.
#[derive(Clone, Copy, Debug, PartialEq, Eq)]
pub struct RuleSet {
    enabled: [bool; Rule::COUNT],
}

impl RuleSet {
    /// Returns the set of all rules.
    pub fn all() -> RuleSet
        ensures { (rule : Rule) → has_rule result rule ≡ true }
    {
        RuleSet {
            enabled: [true; Rule::COUNT],
        }
    }

    /// Returns the set without rules.
    pub fn none() -> RuleSet
        ensures { (rule : Rule) → has_rule result rule ≡ false }
    {
        RuleSet {
            enabled: [false; Rule::COUNT],
        }
    }

    /// Returns the set of this rule alone.
    pub fn only(rule: Rule) -> RuleSet
        ensures { result ≡ only rule }
    {
        let mut on = [false; Rule::COUNT];
        on[rule.index()] = true;
        RuleSet { enabled: on }
    }

    /// Returns the set of the rule with exactly this name, or the set without rules if none has it.
    pub fn from_name(name: &[u8]) -> RuleSet
        ensures { (rule : Rule) → has_rule result rule ≡ bytes_eq name.now (name_of rule) }
    {
        RuleSet {
            enabled: Rule::ALL.map(
                |rule: Rule| -> bool
                    ensures { result ≡ bytes_eq name.entry.now (name_of rule) }
                { name == rule.name().as_bytes() },
            ),
        }
    }

    /// Returns the set of the rules that are in one of the two sets or in both.
    pub fn union(self, other: RuleSet) -> RuleSet
        ensures { (rule : Rule)
            → has_rule result rule ≡ (has_rule self rule || has_rule other rule) }
    {
        RuleSet {
            enabled: Rule::ALL.map(
                |rule: Rule| -> bool
                    ensures { result ≡ (has_rule self rule || has_rule other rule) }
                { self.has(rule) || other.has(rule) },
            ),
        }
    }

    /// Returns the set with the rule added; if it has the rule already, the same set.
    pub fn with(self, rule: Rule) -> RuleSet
        ensures added { has_rule result rule ≡ true }
        ensures others { (other : Rule) → other ≢ rule
            → has_rule result other ≡ has_rule self other }
    {
        let mut set = self;
        set.enabled[rule.index()] = true;
        set
    }

    /// Returns the set with the rule removed; if it does not have the rule, the same set.
    pub fn without(self, rule: Rule) -> RuleSet
        ensures removed { has_rule result rule ≡ false }
        ensures others { (other : Rule) → other ≢ rule
            → has_rule result other ≡ has_rule self other }
    {
        let mut set = self;
        set.enabled[rule.index()] = false;
        set
    }

    /// Whether the rule is in the set.
    pub fn has(self, rule: Rule) -> bool
        ensures { result ≡ has_rule self rule }
    {
        self.enabled[rule.index()]
    }
}
