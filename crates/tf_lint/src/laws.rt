//! Laws of fixes: functions that do nothing, for callers whose proofs want what
//! their clauses say.

ghost use Rattle.std.specs.Prelude.{◌≡◌, ℕ, List, [], ◌∷◌};
ghost use Rattle.tf_rules.specs.declared.rule.Rule.TheVariants.{CommentSyntax, DeprecatedIndex};
ghost use Rattle.tf_rules.specs.declared.rule.Rule.TheVariants.{DeprecatedInterpolation, EmptyListEquality};
ghost use Rattle.tf_rules.specs.declared.rule.Rule.TheVariants.{DeprecatedLookup};
ghost use Rattle.tf_rules.specs.declared.rule_set.RuleSet.{RuleSet};
ghost use Rattle.tf_lint.specs.Steps.{FixHasEdits, FixIsUnique, fix_order};

use edit_record::laws::{
    composable_lists_squash, make_is_exact, pieces_make_valid_edits, pieces_transform,
    squash_all_is_unique,
};
use hcl_scan::laws::one_tokenization;
use hcl_text_laws::laws::{one_parse, parsed_tokens_are_apart};
use tf_findings::laws::findings_are_unique;
use tf_rules::is_valid_is_exact;
use tf_rules_laws::laws::findings_match_their_rule;

/// A text has at most one fix by these rules, at most one error of a step that can't be done, and
/// never both.
pub fn fix_is_unique()
    ensures { (rules : RuleSet) (text : List ℕ) → FixIsUnique rules text }
{
    one_tokenization();
    one_parse();
    findings_are_unique();
    squash_all_is_unique();
}

/// What a fix makes of a text, it makes by some list of edits: those of its steps become one.
pub fn fix_has_edits()
    ensures { FixHasEdits }
{
    pieces_transform();
    pieces_make_valid_edits();
    make_is_exact();
    composable_lists_squash();
    parsed_tokens_are_apart();
    findings_match_their_rule();
    is_valid_is_exact();
}

/// The steps of a fix are those of these rules, in this order.
pub fn fix_order_is_rule_order()
    ensures { fix_order
        ≡ CommentSyntax ∷ DeprecatedIndex ∷ DeprecatedInterpolation ∷ EmptyListEquality
        ∷ DeprecatedLookup ∷ [] }
{}
