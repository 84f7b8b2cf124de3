//! The steps of several rules, one after another.

ghost use Rattle.std.specs.Prelude.{◌≡◌, ◌≤◌, ◌⊎◌, ◌+◌, ◌*◌, ℕ, List, Err, IfOk, IfErr, IfSome};
ghost use Rattle.std.specs.Option.{is_some};
ghost use Rattle.edit_record.specs.Lists.Pieces.{EditList, Transforms};
ghost use Rattle.edit_record.specs.Squashes.Squash.{AreComposable, IsSquash};
ghost use Rattle.tf_lint.specs.FixResult.{rewrite_of, changed_text, fixed_text_or, FixesTo};
ghost use Rattle.hcl_scan.specs.Tokenization.{MAX_TEXT};
ghost use Rattle.tf_lint.specs.LintedText.{IsPreviousOf, IsLintOf};
ghost use Rattle.tf_lint.specs.Inner.FixState.{IsFixState};
ghost use Rattle.tf_lint.specs.Inner.LeadsTo.{LeadsTo, IsFixOutcome, KeepsEdits};
ghost use Rattle.tf_lint.specs.Remaining.{IsRemaining};
ghost use Rattle.tf_lint.specs.Steps.{Fixes, Refuses};
ghost use Rattle.tf_lint.specs.Inner.FirstChange.{has_step, RunFixable, max_fixes, IsFirstChange, FixesFrom};
ghost use Rattle.tf_lint.specs.Inner.FirstChange.{RefusesFrom, rewrite_by};
ghost use Rattle.tf_lint.specs.declared.fault.FixFault.{FixFault};
ghost use Rattle.tf_fix.specs.declared.parsed.Parsed.{Parsed};

use crate::fault::FixFault;
use crate::linted_text::{LintedText, PreviousText};
use crate::relint::{RelintSource, into_previous, lint_text, relint_step, replaced_ranges};
use crate::remaining::Remaining;
use crate::step::{NewText, StepResult, apply_step};
use edit_record::laws::{composable_lists_squash, edits_are_valid, transformed_lengths_match};
use edit_record::lists::Edits;
use edit_record::squashes::{Unmet, squash};
use hcl_scan::Span;
use std::alloc::Global;
use tf_rules::{Finding, Rule, RuleSet};

/// What a fix made of a text.
#[derive(Drop)]
pub struct FixResult {
    /// None where no rule changes the text.
    pub change: Option<NewText>,
    /// How many findings were fixed.
    pub fixed: usize,
    /// What the chosen rules find in the new text.
    pub left: Remaining,
}

/// What a fix made of a text, without the edits.
#[derive(Drop)]
pub struct FixedText {
    /// None where no rule changes the text.
    pub text: Option<Vec<u8>>,
    /// How many findings were fixed.
    pub fixed: usize,
    /// What the chosen rules find in the new text.
    pub left: Remaining,
}

/// What the rules up to the first that changes the text did.
#[derive(Drop)]
enum FirstChange<'o> {
    /// None changes the text.
    NoChange {
        fixed: usize,
    },
    /// This rule is the first that does; the rest follow it.
    Changed {
        fixed: usize,
        change: NewText,
        by: Rule,
        rest: &'o [Rule],
    },
}

/// Composes the edits up to there with those of one more step. If none are kept, none are made.
fn compose(
    alloc: Global,
    edits_so_far: Option<Edits>,
    more: &Edits,
) -> Result<Option<Edits>, FixFault>
    requires { (edits : EditList) × (old : List ℕ) × (between : List ℕ) × (new : List ℕ)
        × LeadsTo edits_so_far edits old between × Transforms more.now between new }
    ensures composed { (edits : EditList) (old between new : List ℕ) → LeadsTo edits_so_far edits old between
        → Transforms more.now between new
        → IfOk result (λ composed. (all : EditList) × IsSquash edits more.now all
        × LeadsTo composed all old new) }
    ensures kept { IfOk result (λ composed. is_some composed ≡ is_some edits_so_far) }
    ensures fault { IfErr result (λ fault. fault ≡ FixFault.Memory) }
{
    edits_are_valid(more);
    match edits_so_far {
        None => {
            composable_lists_squash();
            Ok(None)
        }
        Some(edits_so_far) => {
            let composed = squash_two(alloc, &edits_so_far, more)?;
            edits_are_valid(&composed);
            Ok(Some(composed))
        }
    }
}

/// Composes two lists of edits. The second edits the text that the first makes.
fn squash_two(alloc: Global, edits_so_far: &Edits, more: &Edits) -> Result<Edits, FixFault>
    requires { AreComposable edits_so_far.now more.now }
    ensures composed { IfOk result (λ composed. IsSquash edits_so_far.now more.now composed) }
    ensures fault { IfErr result (λ fault. fault ≡ FixFault.Memory) }
{
    transformed_lengths_match();
    match squash(alloc, edits_so_far, more) {
        Ok(composed) => Ok(composed),
        Err(unmet) => {
            prove!(matches!(unmet, Unmet::Memory));
            Err(FixFault::Memory)
        }
    }
}

/// Whether a fix by these rules has a step of this one.
fn has_step(rules: RuleSet, rule: Rule) -> bool
    ensures { result ≡ has_step rules rule }
{
    rule.has_fix() && rules.has(rule)
}

/// Finds the first of the rules that changes the text. `count` findings were fixed before.
fn find_first_change<'o>(
    alloc: Global,
    linted: &LintedText<'_>,
    order: &'o [Rule],
    count: usize,
) -> Result<FirstChange<'o>, FixFault>
    requires linted { (p : Parsed) × IsLintOf p linted.now }
    requires count_within_limit { count + max_fixes order.now ≤ MAX_TEXT * 16 }
    ensures found_change { (p : Parsed) → IsLintOf p linted.now
        → IfOk result (λ found_change. IsFirstChange linted.now.rules order.now p count found_change) }
    ensures fault { (p : Parsed) → IsLintOf p linted.now
        → IfErr result (λ fault. (fault ≡ FixFault.Memory)
        ⊎ RunFixable linted.now.rules order.now p (Err fault)) }
{
    if let [rule, rest @ ..] = order {
        if !has_step(linted.rules, *rule) {
            return find_first_change(alloc, linted, rest, count);
        }
        let StepResult {
            count: taken,
            change,
        } = apply_step(alloc, linted, *rule)?;
        let fixed = count + taken;
        match change {
            None => find_first_change(alloc, linted, rest, fixed),
            Some(change) => Ok(FirstChange::Changed {
                fixed,
                change,
                by: *rule,
                rest,
            }),
        }
    } else {
        Ok(FirstChange::NoChange { fixed: count })
    }
}

/// A text that a step made, and what the rules up to the first that changes it did.
#[derive(Drop)]
struct FixState<'o> {
    text: Vec<u8>,
    previous: PreviousText,
    /// What was found in it.
    found: Vec<Finding>,
    /// The memory of the tokens of the text before.
    token_buffer: Vec<Span>,
    found_change: FirstChange<'o>,
}

/// Lints `text`, which the step of rule `by` made from the source's, and finds the first of the
/// rules `order` that changes it.
fn next_state<'o>(
    alloc: Global,
    source: RelintSource<'_>,
    text: Vec<u8>,
    order: &'o [Rule],
    by: Rule,
    count: usize,
) -> Result<FixState<'o>, FixFault>
    requires linted { (p : Parsed) × (p.scanned.text ≡ source.old_text.now)
        × IsPreviousOf p source.previous }
    requires count_within_limit { count + max_fixes order.now ≤ MAX_TEXT * 16 }
    ensures advanced { IfOk result (λ state. (p : Parsed) × IsFixState order.now count p state) }
    ensures text { IfOk result (λ state. state.text ≡ text) }
    ensures rules { IfOk result (λ state. state.previous.rules ≡ source.entry.previous.rules) }
    ensures fault { IfErr result
        (λ fault. RefusesFrom source.entry.previous.rules order.now text.items by fault) }
{
    let made = relint_step(alloc, &text, source, by)?;
    let token_buffer = made.token_buffer;
    let found_change = find_first_change(alloc, &made.linted, order, count)?;
    let (previous, found) = into_previous(made.linted);
    Ok(FixState {
        text,
        previous,
        found,
        token_buffer,
        found_change,
    })
}

/// What all steps did to a text that the first of them changed.
#[derive(Drop)]
struct EditedText {
    text: Vec<u8>,
    /// The edits that lead to it, where they are kept.
    edits: Option<Edits>,
    fixed: usize,
    left: Remaining,
}

/// Runs the remaining steps, composing their edits with `edits` if these are kept. After each step
/// the text before it and its findings are freed, and its token buffer is reused.
fn run_steps(
    alloc: Global,
    state: FixState<'_>,
    edits: Option<Edits>,
) -> Result<EditedText, FixFault>
    requires advanced { (order : List Rule) × (count : ℕ) × (p : Parsed)
        × IsFixState order count p state }
    requires leads_to { (all : EditList) × (old : List ℕ) × LeadsTo edits all old state.text.items }
    ensures made { (order : List Rule) (count : ℕ) (p : Parsed) (all : EditList) (old : List ℕ)
        → IsFixState order count p state.entry → LeadsTo edits all old state.entry.text.items
        → IfOk result (λ ended. (more : EditList) × LeadsTo ended.edits more old ended.text.items
        × FixesFrom state.entry.previous.rules order state.entry.text.items all count
        (rewrite_by more ended)) }
    ensures kept { IfOk result (λ ended. is_some ended.edits ≡ is_some edits) }
    ensures left { IfOk result
        (λ ended. IsRemaining state.entry.previous.rules ended.text.items ended.left) }
    ensures fault { (order : List Rule) (count : ℕ) (p : Parsed) (by : Rule)
        → IsFixState order count p state.entry
        → IfErr result (RefusesFrom state.entry.previous.rules order state.entry.text.items by) }
{
    let FixState {
        text,
        previous,
        found,
        token_buffer,
        found_change,
    } = state;
    match found_change {
        FirstChange::NoChange { fixed } => Ok(EditedText {
            text,
            edits,
            fixed,
            left: Remaining {
                tokens: previous.tokens,
                found,
            },
        }),
        FirstChange::Changed {
            fixed,
            change,
            by,
            rest,
        } => {
            drop(found);
            let NewText {
                text: new,
                edits: more,
            } = change;
            let composed = compose(alloc, edits, &more)?;
            let replaced = replaced_ranges(alloc, &more)?;
            drop(more);
            let source = RelintSource {
                old_text: &text,
                previous,
                token_buffer,
                replaced,
            };
            let next = next_state(alloc, source, new, rest, by, fixed)?;
            drop(text);
            run_steps(alloc, next, composed)
        }
    }
}

/// What the steps of all rules did to a text.
#[derive(Drop)]
enum FixOutcome {
    /// No rule changes it.
    Unchanged { fixed: usize, left: Remaining },
    Edited(EditedText),
}

/// Returns the edits of the first step if those of a fix are kept, and otherwise `None`.
fn first_edits(edits: Edits, keep_edits: bool) -> Option<Edits>
    ensures edits { IfSome result (λ kept. kept ≡ edits) }
    ensures kept { is_some result ≡ keep_edits }
{
    if keep_edits { Some(edits) } else { None }
}

/// Makes the steps of all rules of the set over a text, in the order of their table.
fn run_all_steps(
    alloc: Global,
    text: &[u8],
    rules: RuleSet,
    keep_edits: bool,
) -> Result<FixOutcome, FixFault>
    ensures outcome { IfOk result (IsFixOutcome rules text.now) }
    ensures kept { IfOk result (KeepsEdits keep_edits) }
    ensures fault { IfErr result (λ fault. Refuses rules text.now fault) }
{
    let linted = lint_text(alloc, text, rules, true)?;
    let found_change = find_first_change(alloc, &linted, &Rule::ALL, 0)?;
    let (previous, found) = into_previous(linted);
    match found_change {
        FirstChange::NoChange { fixed } => Ok(FixOutcome::Unchanged {
            fixed,
            left: Remaining {
                tokens: previous.tokens,
                found,
            },
        }),
        FirstChange::Changed {
            fixed,
            change,
            by,
            rest,
        } => {
            drop(found);
            let NewText { text: new, edits } = change;
            let replaced = replaced_ranges(alloc, &edits)?;
            edits_are_valid(&edits);
            let edits = first_edits(edits, keep_edits);
            let source = RelintSource {
                old_text: text,
                previous,
                token_buffer: Vec::new(alloc),
                replaced,
            };
            let first = next_state(alloc, source, new, rest, by, fixed)?;
            let ended = run_steps(alloc, first, edits)?;
            Ok(FixOutcome::Edited(ended))
        }
    }
}

/// Returns the text fixed by the rules of the set, in the order of their table, each over the text
/// that the one before left.
///
/// A text is read once for each rule that changes it, and once more.
///
/// # Errors
///
/// `Scan` if the text can't be tokenized; `Parse` if its tokens have no tree within `MAX_NESTING`;
/// `FixBroken` if what a rule makes does not parse; `TooLong` if it would have more than
/// `MAX_TEXT` bytes; `Memory`.
pub fn fix_text(alloc: Global, text: &[u8], rules: RuleSet) -> Result<FixResult, FixFault>
    ensures made { IfOk result (λ fixed. Fixes rules text.now (rewrite_of text.now fixed)) }
    ensures transforms { IfOk result
        (λ fixed. IfSome fixed.change (λ change. Transforms change.edits text.now change.text.items)) }
    ensures left { IfOk result
        (λ fixed. IsRemaining rules (changed_text text.now fixed.change) fixed.left) }
    ensures fault { IfErr result (λ fault. Refuses rules text.now fault) }
{
    match run_all_steps(alloc, text, rules, true)? {
        FixOutcome::Unchanged { fixed, left } => Ok(FixResult {
            change: None,
            fixed,
            left,
        }),
        FixOutcome::Edited(
            EditedText {
                text,
                edits,
                fixed,
                left,
            },
        ) => Ok(FixResult {
            change: Some(NewText {
                text,
                edits: edits.unwrap(),
            }),
            fixed,
            left,
        }),
    }
}

/// Fixes a text like [`fix_text`], but does not keep the edits, and so needs less memory.
///
/// # Errors
///
/// Those of [`fix_text`].
pub fn fix_without_edits(alloc: Global, text: &[u8], rules: RuleSet) -> Result<FixedText, FixFault>
    ensures made { IfOk result (FixesTo rules text.now) }
    ensures left { IfOk result
        (λ fixed. IsRemaining rules (fixed_text_or text.now fixed.text) fixed.left) }
    ensures fault { IfErr result (λ fault. Refuses rules text.now fault) }
{
    match run_all_steps(alloc, text, rules, false)? {
        FixOutcome::Unchanged { fixed, left } => Ok(FixedText {
            text: None,
            fixed,
            left,
        }),
        FixOutcome::Edited(ended) => Ok(FixedText {
            text: Some(ended.text),
            fixed: ended.fixed,
            left: ended.left,
        }),
    }
}
