//! The lines of a text with silencing comments.

ghost use Rattle.std.specs.Prelude.{◌≡◌, ◌++◌, [], ◌∷◌, ◌||◌, ◌<◌, ℕ, length, OnOk, IfOk};
ghost use Rattle.hcl_token.specs.Place.{line_of};
ghost use Rattle.tf_rules.specs.declared.rule.Rule.{Rule};
ghost use Rattle.tf_rules.specs.RuleSets.{has_rule};
ghost use Rattle.tf_findings.specs.Inner.Annotations.{AreLinesIncreasing, AreIncreasing, covers};
ghost use Rattle.tf_findings.specs.Inner.Annotations.{is_silenced_by, silences_at, silences_among};

use crate::silencing::annotation::Annotation;
use crate::silencing::comment::silenced_rules;
use hcl_scan::{Lines, Scanned};
use std::alloc::{AllocError, Global};

/// Adds an annotation after those of earlier lines; on the line of the last, the two become one, so
/// that each line has one at most.
fn add_annotation(
    annotations: &mut Vec<Annotation>,
    annotation: Annotation,
) -> Result<(), AllocError>
    requires before { AreLinesIncreasing 0 annotations.old.items annotation.line }
    requires line { 0 < annotation.line }
    ensures after { OnOk result (AreLinesIncreasing 0 annotations.new.items annotation.line) }
    ensures silenced { OnOk result
        ((rule : Rule) (line : ℕ)
        → is_silenced_by rule line annotations.new.items
        ≡ (is_silenced_by rule line annotations.old.items || covers rule line annotation)) }
{
    match annotations.pop() {
        None => push_annotation(annotations, annotation),
        Some(last) => {
            if last.line == annotation.line {
                return push_annotation(annotations, last.merge(annotation.rules));
            }
            push_annotation(annotations, last)?;
            push_annotation(annotations, annotation)
        }
    }
}

/// Adds an annotation at the end.
fn push_annotation(
    annotations: &mut Vec<Annotation>,
    annotation: Annotation,
) -> Result<(), AllocError>
    ensures { OnOk result (annotations.new.items ≡ annotations.old.items ++ annotation ∷ []) }
{
    annotations.push(annotation)?;
    Ok(())
}

/// Adds what token `i` silences, if it is a comment that silences anything.
fn add_comment_annotation(
    annotations: &mut Vec<Annotation>,
    scanned: &Scanned<'_>,
    lines: &mut Lines<'_>,
    i: usize,
) -> Result<(), AllocError>
    requires lines { lines.old ≡ scanned.now.pairs }
    requires within { i < length scanned.now.pairs }
    requires before { AreLinesIncreasing 0 annotations.old.items (line_of scanned.now.pairs i) }
    ensures lines { lines.new ≡ lines.old }
    ensures after { OnOk result (AreLinesIncreasing 0 annotations.new.items (line_of scanned.now.pairs i)) }
    ensures silenced { OnOk result
        ((rule : Rule) (line : ℕ)
        → is_silenced_by rule line annotations.new.items
        ≡ (is_silenced_by rule line annotations.old.items || silences_at scanned.now.pairs rule line i)) }
{
    match silenced_rules(scanned.kind(i), scanned.spelling(i)) {
        None => Ok(()),
        Some(rules) => {
            let line = lines.of(i);
            add_annotation(annotations, Annotation { line, rules })?;
            Ok(())
        }
    }
}

/// Returns the annotations of a text, by line, in which the tokens of these numbers silence
/// something, and no other token does.
pub fn annotations_of(
    alloc: Global,
    scanned: &Scanned<'_>,
    silencing_tokens: &[usize],
) -> Result<Vec<Annotation>, AllocError>
    requires order { AreIncreasing 0 silencing_tokens.now (length scanned.now.pairs) }
    ensures order { IfOk result (λ annotations. (b : ℕ) × AreLinesIncreasing 0 annotations.items b) }
    ensures silenced { IfOk result
        (λ annotations. (rule : Rule) (line : ℕ)
        → is_silenced_by rule line annotations.items
        ≡ silences_among scanned.now.pairs rule line silencing_tokens.now) }
{
    let mut annotations = Vec::new(alloc);
    let mut lines = scanned.lines();
    for i in silencing_tokens {
        add_comment_annotation(&mut annotations, scanned, &mut lines, *i)?;
    }
    Ok(annotations)
}
