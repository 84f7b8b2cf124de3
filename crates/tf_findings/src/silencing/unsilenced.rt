//! Findings without those that a comment silences.

ghost use Rattle.std.specs.Prelude.{◌≡◌, ◌<◌, ◌≤◌, ◌+◌, ◌++◌, [], ◌∷◌, ℕ, not, nat_lt, filter, length, take};
ghost use Rattle.std.specs.Prelude.{drop, IfOk, if◌then◌else◌};
ghost use Rattle.hcl_token.specs.Place.{line_of};
ghost use Rattle.tf_rules.specs.declared.rule.Rule.{Rule};
ghost use Rattle.tf_rules.specs.ValidFindings.{AreValidFindings};
ghost use Rattle.tf_findings.specs.Silencing.{is_silenced, is_silenced_on};
ghost use Rattle.tf_findings.specs.Inner.Annotations.{AreLinesIncreasing, AreIncreasing, is_silenced_by};
ghost use Rattle.tf_findings.specs.Inner.Annotations.{silences_among, CanSilence};

use crate::silencing::annotation::Annotation;
use crate::silencing::annotations::annotations_of;
use hcl_scan::Scanned;
use std::alloc::{AllocError, Global};
use tf_rules::{Finding, Rule};

/// Returns whether a line is after the one that follows the annotation's.
fn is_out_of_reach(line: usize, annotation: &Annotation) -> bool
    ensures { result ≡ nat_lt (annotation.now.line + 1) line }
{
    line > annotation.line && line - annotation.line > 1
}

/// Returns the annotations from the first on that can silence anything on this line.
fn annotations_from(annotations: &[Annotation], line: usize) -> &[Annotation]
    requires { (b : ℕ) × AreLinesIncreasing 0 annotations.now b }
    ensures order { (b : ℕ) × AreLinesIncreasing 0 result.now b }
    ensures next { CanSilence line result.now }
    ensures same { (rule : Rule) (l : ℕ) → line ≤ l
        → is_silenced_by rule l result.now ≡ is_silenced_by rule l annotations.now }
{
    let mut rest = annotations;
    while let Some((annotation, others)) = rest.split_first() {
        if !is_out_of_reach(line, annotation) {
            return rest;
        }
        rest = others;
    }
    rest
}

/// Returns the annotations that can silence something on `line` or on later lines. `rest` is the
/// previous answer, for `last_line`, so that rising lines take one pass.
fn annotations_at<'m>(
    annotations: &'m [Annotation],
    rest: &'m [Annotation],
    last_line: usize,
    line: usize,
) -> &'m [Annotation]
    requires all { (b : ℕ) × AreLinesIncreasing 0 annotations.now b }
    requires order { (b : ℕ) × AreLinesIncreasing 0 rest.now b }
    requires same { (rule : Rule) (l : ℕ) → last_line ≤ l
        → is_silenced_by rule l rest.now ≡ is_silenced_by rule l annotations.now }
    ensures order { (b : ℕ) × AreLinesIncreasing 0 result.now b }
    ensures next { CanSilence line result.now }
    ensures same { (rule : Rule) (l : ℕ) → line ≤ l
        → is_silenced_by rule l result.now ≡ is_silenced_by rule l annotations.now }
{
    if line < last_line {
        // Never if the findings are in order; without it the answer would be wrong for others.
        return annotations_from(annotations, line);
    }
    annotations_from(rest, line)
}

/// Whether the first annotation silences what the rule finds on this line.
fn first_covers(annotations: &[Annotation], rule: Rule, line: usize) -> bool
    ensures { result ≡ is_silenced_by rule line (take 1 annotations.now) }
{
    match annotations.split_first() {
        None => false,
        Some((annotation, _)) => annotation.covers(rule, line),
    }
}

/// Returns whether an annotation silences what the rule finds on this line. Only the first two can.
fn is_silenced_by(annotations: &[Annotation], rule: Rule, line: usize) -> bool
    requires { CanSilence line annotations.now }
    ensures { result ≡ is_silenced_by rule line annotations.now }
{
    match annotations.split_first() {
        None => false,
        Some((annotation, others)) => annotation.covers(rule, line)
            || first_covers(others, rule, line),
    }
}

/// Moves a finding to index `kept` of a list, if it is not silenced, and returns how many are kept.
fn retain_one(found: &mut [Finding], kept: usize, f: Finding, is_silenced: bool) -> usize
    requires { kept < length found.old }
    ensures retained { take result found.new
        ≡ take kept found.old ++ (if is_silenced then [] else f ∷ []) }
    ensures rest_unchanged { (n : ℕ) → kept < n → drop n found.new ≡ drop n found.old }
    ensures within { result ≤ kept + 1 }
{
    if is_silenced {
        return kept;
    }
    found[kept] = f;
    kept + 1
}

/// Moves the findings that no annotation silences to the start of a list, in the same order, and
/// returns how many these are.
fn retain_unsilenced(
    scanned: &Scanned<'_>,
    found: &mut [Finding],
    annotations: &[Annotation],
) -> usize
    requires valid { AreValidFindings (length scanned.now.pairs) found.old }
    requires order { (b : ℕ) × AreLinesIncreasing 0 annotations.now b }
    ensures { take result found.new
        ≡ filter (λ f. not
        (is_silenced_by f.rule (line_of scanned.now.pairs f.first) annotations.now)) found.old }
{
    let mut kept = 0;
    let mut rest = annotations;
    let mut last_line = 0;
    let mut lines = scanned.lines();
    for i in 0..found.len() {
        let f = found[i];
        let line = lines.of(f.first() as usize);
        rest = annotations_at(annotations, rest, last_line, line);
        last_line = line;
        kept = retain_one(found, kept, f, is_silenced_by(rest, f.rule(), line));
    }
    kept
}

/// Returns the findings that no annotation silences.
fn unsilenced(
    scanned: &Scanned<'_>,
    found: Vec<Finding>,
    annotations: &[Annotation],
) -> Vec<Finding>
    requires valid { AreValidFindings (length scanned.now.pairs) found.items }
    requires order { (b : ℕ) × AreLinesIncreasing 0 annotations.now b }
    ensures { result.items
        ≡ filter (λ f. not
        (is_silenced_by f.rule (line_of scanned.now.pairs f.first) annotations.now)) found.items }
{
    let mut remaining = found;
    let kept = retain_unsilenced(scanned, &mut remaining, annotations);
    remaining.truncate(kept);
    remaining
}

/// Returns the findings that no comment of the text silences, in the same order and in the same
/// list. `silencing_tokens` are the numbers of the tokens that silence anything. If there are any,
/// it takes one pass over findings that are in order.
///
/// TFLint, Annotations.
pub fn remove_silenced(
    alloc: Global,
    scanned: &Scanned<'_>,
    found: Vec<Finding>,
    silencing_tokens: &[usize],
) -> Result<Vec<Finding>, AllocError>
    requires valid { AreValidFindings (length scanned.now.pairs) found.items }
    requires order { AreIncreasing 0 silencing_tokens.now (length scanned.now.pairs) }
    requires silence { (rule : Rule) (line : ℕ)
        → silences_among scanned.now.pairs rule line silencing_tokens.now
        ≡ is_silenced_on scanned.now.pairs rule line }
    ensures { IfOk result
        (λ kept. kept.items ≡ filter (λ f. not (is_silenced scanned.now.pairs f)) found.items) }
{
    if silencing_tokens.is_empty() {
        return Ok(found);
    }
    let annotations = annotations_of(alloc, scanned, silencing_tokens)?;
    Ok(unsilenced(scanned, found, annotations.as_slice()))
}
