//! Version 1 of the journal's text: whether a text is of it, and its records, whose steps are
//! squashed into one list of edits. The decoder calls `is_version_1` and `old_record`; of that
//! version other modules have only the name of its error, `BadSteps`.
ghost use Rattle.std.specs.Prelude.{◌≡◌, IfErr};
ghost use Rattle.edit_record.specs.declared.fault.FaultKind.TheVariants.{Steps};
ghost use Rattle.edit_record.specs.Decoding.{IsVersion};
ghost use Rattle.edit_record.specs.Inner.ParseResults.{IsRead, ParsesAs, HasError, IsSquashOrStop};
ghost use Rattle.edit_record.specs.Inner.ParseResults.{OldRecordAt};
ghost use Rattle.edit_record.specs.Inner.Allocating.{step_allocates, old_head_allocates, steps_allocate};
ghost use Rattle.edit_record.specs.Inner.Allocating.{old_record_allocates};
ghost use Rattle.edit_record.specs.OldParsing.{step_at, old_head_at, SquashAt, StepsError, OldRecordError};
ghost use Rattle.edit_record.specs.Inner.Faults.{stop_of};
ghost use Rattle.edit_record.specs.Inner.OldHead.{head_view};

use crate::fault::{DecodeStop, FaultKind, TextError};
use crate::lists::{Edits, Record, Word};
use crate::readers::{expect, list_of_edits, number, word};
use crate::squashes::{Unmet, squash};
use std::alloc::Global;

/// The most steps of a record.
const MAX_STEPS: usize = 64;

/// Returns whether a text is of version 1, by the mark of its first record.
pub(crate) fn is_version_1(text: &[u8]) -> bool
    ensures { IsVersion result text.now }
{
    text.starts_with(b"tfrec 1")
}

/// Reads a step.
#[tactic(auto, unfolding(crate::specs::OldParsing::step_at, crate::specs::Inner::Allocating::step_allocates))]
fn step(alloc: Global, text: &[u8]) -> Result<(Edits, &[u8]), DecodeStop>
    ensures { IsRead (λ x. (x.0, x.1.now)) (step_allocates text.now) result (step_at text.now) }
{
    let rest = expect(b"step ", FaultKind::Head, text)?;
    list_of_edits(alloc, text.len(), rest)
}

/// Reads `count` further steps, and squashes `first` and these, each with the result before it.
fn squash_steps(
    alloc: Global,
    first: Edits,
    count: usize,
    text: &[u8],
) -> Result<(Edits, &[u8]), DecodeStop>
    ensures parses { ParsesAs (λ x. x.0) (λ x. x.1.now) (steps_allocate count text.now) result
        (SquashAt first count text.now) }
    ensures error { IfErr result (λ stop. HasError stop (StepsError count first text.now)) }
{
    let mut edits = first;
    let mut rest = text;
    for _ in 0..count {
        let (next, after) = step(alloc, rest)?;
        edits = squash_two(alloc, &edits, &next, rest.len())?;
        rest = after;
    }
    Ok((edits, rest))
}

/// Returns why a step is not squashed with those before it: an error that is not memory is `left`
/// bytes before the end of the text.
fn stop_of(unmet: Unmet, left: usize) -> DecodeStop
    ensures { result ≡ stop_of unmet left }
{
    let bad = TextError {
        kind: FaultKind::Steps,
        left,
    };
    match unmet {
        Unmet::LengthsDiffer => DecodeStop::Bad(bad),
        Unmet::Contradicts { edit: _ } => DecodeStop::Bad(bad),
        Unmet::Memory => DecodeStop::Memory,
    }
}

/// Squashes two steps. If they cannot follow each other, the error is `left` bytes before the end
/// of the text. It allocates only if their lengths match and one of them has an edit.
fn squash_two(
    alloc: Global,
    first: &Edits,
    second: &Edits,
    left: usize,
) -> Result<Edits, DecodeStop>
    ensures squash { IsSquashOrStop first.now second.now result }
    ensures error { IfErr result
        (λ stop. HasError stop (λ e. e ≡ record { kind = Steps; left = left })) }
{
    match squash(alloc, first, second) {
        Ok(edits) => Ok(edits),
        Err(unmet) => Err(stop_of(unmet, left)),
    }
}

/// The part of a record before its second step.
struct OldHead {
    word: Word,
    first: Edits,
    /// The number of further steps.
    others: usize,
}

/// Reads the part of a record before its second step.
#[tactic(auto, unfolding(crate::specs::OldParsing::old_head_at, crate::specs::Inner::Allocating::old_head_allocates))]
fn old_head(alloc: Global, text: &[u8]) -> Result<(OldHead, &[u8]), DecodeStop>
    ensures { IsRead (λ x. (head_view x.0, x.1.now)) (old_head_allocates text.now) result
        (old_head_at text.now) }
{
    let rest = expect(b"tfrec 1 ", FaultKind::Head, text)?;
    let (word, rest) = word(rest)?;
    let (count, rest) = number(1, MAX_STEPS, b'\n', rest)?;
    let (first, rest) = step(alloc, rest)?;
    let others = count - 1;
    let head = OldHead {
        word,
        first,
        others,
    };
    Ok((head, rest))
}

/// Reads a record and squashes its steps into one list.
pub(crate) fn old_record(alloc: Global, text: &[u8]) -> Result<(Record, &[u8]), DecodeStop>
    ensures parses { ParsesAs (λ x. x.0) (λ x. x.1.now) (old_record_allocates text.now) result
        (OldRecordAt text.now) }
    ensures error { IfErr result (λ stop. HasError stop (OldRecordError text.now)) }
{
    let (head, rest) = old_head(alloc, text)?;
    let OldHead {
        word,
        first,
        others,
    } = head;
    let (edits, rest) = squash_steps(alloc, first, others, rest)?;
    let rest = expect(b"end\n", FaultKind::End, rest)?;
    Ok((Record::make(word, edits), rest))
}
