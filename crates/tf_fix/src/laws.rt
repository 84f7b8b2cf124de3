//! What holds of the texts that a fix makes. Each law is the contract of a function that does
//! nothing.

ghost use Rattle.std.specs.Prelude.{◌≡◌, ◌≤◌, ℕ, false, List, length};
ghost use Rattle.hcl_token.specs.TokenizedText.{TokenizedText};
ghost use Rattle.hcl_token.specs.Tokens.{Pair, whole_text};
ghost use Rattle.hcl_scan.specs.Tokenization.{MAX_TEXT, IsTokenization};
ghost use Rattle.hcl_scan.specs.Follows.{AreApart};
ghost use Rattle.tf_rules.specs.ValidFindings.{AreValidFindings};
ghost use Rattle.tf_rules.specs.declared.finding.Finding.{Finding};
ghost use Rattle.tf_rules.specs.declared.rule.Rule.{Rule};
ghost use Rattle.tf_rules.specs.declared.rule.Rule.TheVariants.{CommentSyntax};
ghost use Rattle.tf_fix.specs.StepText.{fixed_pairs_from, fix_step_text};
ghost use Rattle.tf_rules.specs.Table.{is_comment_rule};
ghost use Rattle.tf_fix.specs.Edits.FindingReplacements.{step_replacements};
ghost use Rattle.tf_fix.specs.OfRule.{AreOfRule};
ghost use Rattle.tf_fix.specs.Edits.Parts.{parts};
ghost use Rattle.tf_fix.specs.Edits.Replacements.{replaced_text};
ghost use Rattle.tf_fix.specs.Selection.{selected, SelectedAreApart};

/// The text by pairs is the text by parts: gaps and tokens of each finding go and others come, and
/// then tokens that join get a space.
pub fn pairs_and_parts_agree()
    ensures { (rule : Rule) (tokenized : TokenizedText) (findings : List Finding)
        → is_comment_rule rule ≡ false → AreOfRule rule tokenized.pairs findings
        → AreValidFindings (length tokenized.pairs) findings
        → fix_step_text tokenized findings
        ≡ replaced_text (parts tokenized) (step_replacements tokenized.pairs findings) }
{}

/// The fix of a comment needs no space: no token joins with a comment.
pub fn comment_fixes_need_no_space()
    ensures { (tokenized : TokenizedText) (findings : List Finding) → AreApart tokenized.pairs
        → AreOfRule CommentSyntax tokenized.pairs findings
        → AreValidFindings (length tokenized.pairs) findings
        → fix_step_text tokenized findings
        ≡ whole_text (fixed_pairs_from 0 tokenized.pairs (selected findings)) tokenized.last }
{}

/// Of findings in order by their first tokens, as in a report, one step of a fix takes those that
/// can be fixed and share no token with one that was taken before.
pub fn selected_are_apart()
    ensures { SelectedAreApart }
{}

/// One step of a fix takes no more findings than a text can have bytes.
pub fn selected_are_within_limit()
    ensures { (text : List ℕ) (pairs : List Pair) (last : List ℕ) (findings : List Finding)
        → IsTokenization text pairs last → AreValidFindings (length pairs) findings
        → length (selected findings) ≤ MAX_TEXT }
{}
