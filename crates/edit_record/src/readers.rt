//! Readers of the parts of a record. Each returns the part that a text begins with, and the rest of
//! the text.
ghost use Rattle.std.specs.Prelude.{◌≡◌, ◌<◌, ◌^◌, option_map, IfOk, IfErr, OnOk, ◌≤◌, is_ok, true, vec_len};
ghost use Rattle.std.specs.Prelude.{vec_capacity};
ghost use Rattle.edit_record.specs.Inner.ParseResults.{IsParsed, IsRead, IsStop, IsPushed};
ghost use Rattle.edit_record.specs.Inner.Allocating.{edits_allocate, edit_list_allocates};
ghost use Rattle.edit_record.specs.Inner.EditLengths.{after_head_at};
ghost use Rattle.edit_record.specs.Inner.EditSums.{AreSummedUp};
ghost use Rattle.edit_record.specs.Inner.ListCapacity.{HasFewSpare};
ghost use Rattle.edit_record.specs.Lists.Validity.{make_edits};
ghost use Rattle.edit_record.specs.Text.{max_number, space};
ghost use Rattle.edit_record.specs.Parsing.{strip, expect, number_at, bytes_at, edit_head_at, edit_at};
ghost use Rattle.edit_record.specs.Parsing.{edits_at, if_valid, list_head_at, edit_list_at, bare_word_at};
ghost use Rattle.edit_record.specs.Parsing.{word_at};
ghost use Rattle.edit_record.specs.declared.fault.FaultKind.{FaultKind};

use crate::edit_sums::EditSums;
use crate::fault::{DecodeStop, FaultKind, TextError};
use crate::list_capacity::{push_edit, reserve_next};
use crate::lists::{Edit, Edits, MAX_TEXT, Word};
use crate::short_edits::{
    next_edit, plain_head, plain_lengths, plain_list_head, short_edit, short_place,
};
use std::alloc::Global;

/// The greatest number that is read: twice the most bytes of a text, since the edits of a list are
/// no more than the bytes that they remove and add.
pub(crate) const MAX_NUMBER: usize = 2 * MAX_TEXT;

/// The text ends too early.
const CUT_SHORT: TextError = TextError {
    kind: FaultKind::CutShort,
    left: 0,
};

/// Returns the bytes after `prefix`, if the text begins with it.
fn strip<'t>(prefix: &[u8], text: &'t [u8]) -> Option<&'t [u8]>
    ensures { option_map (λ x. x.now) result ≡ strip prefix.now text.now }
{
    text.strip_prefix(prefix)
}

/// Skips `expected` and returns the rest of the text. If the text ends within `expected`, the error
/// is `CutShort`; if it has other bytes, it is `kind`.
pub(crate) fn expect<'t>(
    expected: &[u8],
    kind: FaultKind,
    text: &'t [u8],
) -> Result<&'t [u8], TextError>
    ensures { IsParsed (λ x. x.now) result (expect expected.now kind text.now) }
{
    if let Some(rest) = strip(expected, text) {
        return Ok(rest);
    }
    if strip(text, expected).is_some() {
        return Err(CUT_SHORT);
    }
    Err(TextError {
        kind,
        left: text.len(),
    })
}

/// Reads a number from `min` to `max` that `terminator` follows, and skips both.
#[tactic(auto, unfolding(crate::specs::Parsing::number_at))]
pub(crate) fn number(
    min: usize,
    max: usize,
    terminator: u8,
    text: &[u8],
) -> Result<(usize, &[u8]), TextError>
    requires { max < 2 ^ 32 }
    ensures agrees { IsParsed (λ x. (x.0, x.1.now)) result (number_at min max terminator text.now) }
    ensures least { IfOk result (λ x. min ≤ x.0) }
{
    let bad = TextError {
        kind: FaultKind::Number,
        left: text.len(),
    };
    let mut some = false;
    let mut value = 0usize;
    let mut remaining = text;
    while let [digit, rest @ ..] = remaining {
        let digit = *digit;
        if !digit.is_ascii_digit() {
            if !some || value < min {
                return Err(bad);
            }
            if digit != terminator {
                return Err(TextError {
                    kind: FaultKind::Head,
                    left: remaining.len(),
                });
            }
            return Ok((value, rest));
        }
        if some && value == 0 {
            return Err(bad);
        }
        value = value * 10 + (digit - b'0') as usize;
        if value > max {
            return Err(bad);
        }
        some = true;
        remaining = rest;
    }
    if some && value < min {
        return Err(bad);
    }
    Err(CUT_SHORT)
}

/// Splits the text after `count` bytes.
#[tactic(auto, unfolding(crate::specs::Parsing::bytes_at))]
fn bytes(count: usize, text: &[u8]) -> Result<(&[u8], &[u8]), TextError>
    ensures { IsParsed (λ x. (x.0.now, x.1.now)) result (bytes_at count text.now) }
{
    if text.len() < count {
        return Err(CUT_SHORT);
    }
    Ok(text.split_at(count))
}

/// Reads the head of an edit: its place, how many bytes it removes, and how many it adds.
#[tactic(auto, unfolding(crate::specs::Parsing::edit_head_at))]
fn edit_head(text: &[u8]) -> Result<((usize, usize, usize), &[u8]), TextError>
    ensures { IsParsed (λ x. (x.0, x.1.now)) result (edit_head_at text.now) }
{
    let (at, rest) = number(0, MAX_NUMBER, b' ', text)?;
    let (removed, rest) = number(0, MAX_NUMBER, b' ', rest)?;
    let (added, rest) = number(0, MAX_NUMBER, b'\n', rest)?;
    Ok(((at, removed, added), rest))
}

/// Reads what follows the head of an edit. It allocates only after all bytes of the edit, and its
/// line end, are read.
#[inline(always)]
#[tactic(auto, unfolding(crate::specs::Inner::EditLengths::after_head_at))]
fn after_head(
    alloc: Global,
    at: usize,
    removed: usize,
    added: usize,
    text: &[u8],
) -> Result<(Edit, &[u8]), DecodeStop>
    ensures { IsRead (λ x. (x.0, x.1.now)) (is_ok (after_head_at at removed added text.now)) result
        (after_head_at at removed added text.now) }
{
    let (removed, rest) = bytes(removed, text)?;
    let (added, rest) = bytes(added, rest)?;
    let rest = expect(b"\n", FaultKind::End, rest)?;
    Ok((Edit::new(alloc, at, removed, added)?, rest))
}

/// Reads an edit, part by part. It allocates as `after_head` does. It is called where the head has
/// an error, which it returns.
#[inline(never)]
#[tactic(auto, unfolding(crate::specs::Parsing::edit_at, crate::specs::Inner::EditLengths::after_head_at))]
fn any_edit(alloc: Global, text: &[u8]) -> Result<(Edit, &[u8]), DecodeStop>
    ensures { IsRead (λ x. (x.0, x.1.now)) (is_ok (edit_at text.now)) result (edit_at text.now) }
{
    let ((at, removed, added), rest) = edit_head(text)?;
    after_head(alloc, at, removed, added, rest)
}

/// Reads any edit, pushes it, and returns the rest of the text. It allocates only after the edit is
/// read.
#[inline(never)]
fn push_any<'t>(
    alloc: Global,
    edits: &mut Vec<Edit>,
    count: usize,
    text: &'t [u8],
) -> Result<&'t [u8], DecodeStop>
    ensures pushed { IfOk result (λ rest. IsPushed edits.old.items edits.new.items text.now rest.now) }
    ensures stops { IfErr result
        (λ stop. IsStop (is_ok (edit_at text.now)) stop (edit_at text.now)) }
    ensures few { HasFewSpare (vec_len edits.old) (vec_capacity edits.old)
        → HasFewSpare (vec_len edits.new) (vec_capacity edits.new) }
{
    let Some(((at, removed, added), rest)) = plain_head(text) else {
        // for the proof: `any_edit` answers an error here, and nothing is pushed
        let (next, after) = any_edit(alloc, text)?;
        push_edit(edits, next, count, after.len())?;
        return Ok(after);
    };
    if let Some((next, after)) = short_edit(at, removed, added, rest) {
        push_edit(edits, next, count, after.len())?;
        return Ok(after);
    }
    let (next, after) = after_head(alloc, at, removed, added, rest)?;
    push_edit(edits, next, count, after.len())?;
    Ok(after)
}

/// Reads an edit whose place is read already, and pushes it, as `push_any` does. `whole` begins
/// with the edit, `text` is what follows its place.
#[inline(never)]
#[tactic(auto, using(crate::proofs::ShortEdits::head_read))]
fn push_placed<'t>(
    alloc: Global,
    edits: &mut Vec<Edit>,
    count: usize,
    whole: &'t [u8],
    at: usize,
    text: &'t [u8],
) -> Result<&'t [u8], DecodeStop>
    requires { number_at 0 max_number space whole.now ≡ Ok (at, text.now) }
    ensures pushed { IfOk result (λ rest. IsPushed edits.old.items edits.new.items whole.now rest.now) }
    ensures stops { IfErr result
        (λ stop. IsStop (is_ok (edit_at whole.now)) stop (edit_at whole.now)) }
    ensures few { HasFewSpare (vec_len edits.old) (vec_capacity edits.old)
        → HasFewSpare (vec_len edits.new) (vec_capacity edits.new) }
{
    let Some(((removed, added), rest)) = plain_lengths(text) else {
        return push_any(alloc, edits, count, whole);
    };
    if let Some((next, after)) = short_edit(at, removed, added, rest) {
        push_edit(edits, next, count, after.len())?;
        return Ok(after);
    }
    let (next, after) = after_head(alloc, at, removed, added, rest)?;
    push_edit(edits, next, count, after.len())?;
    Ok(after)
}

/// Reserves memory for an edit that is read, if the list has none left. For the proof: `text`,
/// which begins with the edit, is named in clauses alone.
#[inline(always)]
fn reserve_read(
    edits: &mut Vec<Edit>,
    count: usize,
    left: usize,
    text: &[u8],
) -> Result<(), DecodeStop>
    requires { is_ok (edit_at text.now) ≡ true }
    ensures items { edits.new.items ≡ edits.old.items }
    ensures spare { OnOk result (vec_len edits.new < vec_capacity edits.new) }
    ensures capacity { vec_len edits.old < vec_capacity edits.old → is_ok result ≡ true }
    ensures stops { IfErr result
        (λ stop. IsStop (is_ok (edit_at text.now)) stop (edit_at text.now)) }
    ensures few { HasFewSpare (vec_len edits.old) (vec_capacity edits.old)
        → HasFewSpare (vec_len edits.new) (vec_capacity edits.new) }
{
    let _ = text;
    reserve_next(edits, count, left)?;
    Ok(())
}

/// Reads `count` edits, and returns their sums too. It allocates only after the first of them is
/// read. A short edit is pushed where it is read, so that its parts stay in registers.
#[tactic(auto, unfolding(crate::specs::Parsing::edits_at))]
fn edits(
    alloc: Global,
    count: usize,
    text: &[u8],
) -> Result<(Vec<Edit>, EditSums, &[u8]), DecodeStop>
    ensures read { IsRead (λ x. (x.0.items, x.2.now)) (edits_allocate count text.now) result
        (edits_at count text.now) }
    ensures summed { IfOk result (λ x. AreSummedUp x.0.items x.1) }
    ensures few { IfOk result (λ x. HasFewSpare (vec_len x.0) (vec_capacity x.0)) }
{
    let mut edits = Vec::new(alloc);
    let mut sums = EditSums::none();
    let mut rest = text;
    for _ in 0..count {
        match short_place(rest) {
            Some((at, start)) => match next_edit(sums, at, start, rest) {
                Some((removed, added, texts, after)) => {
                    reserve_read(&mut edits, count, after.len(), rest)?;
                    sums = sums.with_next(at, removed, added, texts);
                    edits.push_reserved(Edit::from_adjacent(at, removed, added, *texts));
                    rest = after;
                }
                None => {
                    let lengths = &rest[start..];
                    rest = push_placed(alloc, &mut edits, count, rest, at, lengths)?;
                    sums = sums.with_last(&edits);
                }
            },
            None => {
                rest = push_any(alloc, &mut edits, count, rest)?;
                sums = sums.with_last(&edits);
            }
        }
    }
    Ok((edits, sums, rest))
}

/// Makes a list of the edits, which have these sums. If `Edits::make` refuses them, the error is
/// `left` bytes before the end of the text.
fn checked_list(
    old_len: usize,
    edits: Vec<Edit>,
    sums: EditSums,
    left: usize,
) -> Result<Edits, TextError>
    requires { AreSummedUp edits.items sums }
    ensures { (rest : _) → IsParsed (λ x. (x, rest)) result
        (if_valid left (make_edits old_len edits.items) rest) }
{
    if let Some(new_len) = sums.new_len(old_len) {
        return Ok(Edits::from_valid(old_len, new_len, edits));
    }
    match Edits::make(old_len, edits) {
        Ok(list) => Ok(list),
        Err(_) => Err(TextError {
            kind: FaultKind::Edits,
            left,
        }),
    }
}

/// Reads the head of a list of edits: the length of the texts that they apply to, and how many they
/// are.
#[tactic(auto, unfolding(crate::specs::Parsing::list_head_at))]
fn list_head(text: &[u8]) -> Result<((usize, usize), &[u8]), TextError>
    ensures { IsParsed (λ x. (x.0, x.1.now)) result (list_head_at text.now) }
{
    if let Some(head) = plain_list_head(text) {
        return Ok(head);
    }
    let (old_len, rest) = number(0, MAX_NUMBER, b' ', text)?;
    let (count, rest) = number(0, MAX_NUMBER, b'\n', rest)?;
    Ok(((old_len, count), rest))
}

/// Reads a list of edits. If the edits are no list, the error is `left` bytes before the end of the
/// text.
#[tactic(auto, unfolding(crate::specs::Parsing::edit_list_at, crate::specs::Inner::Allocating::edit_list_allocates))]
pub(crate) fn list_of_edits(
    alloc: Global,
    left: usize,
    text: &[u8],
) -> Result<(Edits, &[u8]), DecodeStop>
    ensures { IsRead (λ x. (x.0, x.1.now)) (edit_list_allocates text.now) result
        (edit_list_at left text.now) }
{
    let ((old_len, count), rest) = list_head(text)?;
    let (edits, sums, rest) = edits(alloc, count, rest)?;
    let list = checked_list(old_len, edits, sums, left)?;
    Ok((list, rest))
}

/// Reads the word of a command and the space that follows it.
#[inline(always)]
pub(crate) fn word(text: &[u8]) -> Result<(Word, &[u8]), TextError>
    ensures { IsParsed (λ x. (x.0, x.1.now)) result (word_at text.now) }
{
    if let Some(rest) = strip(b"fmt ", text) {
        return Ok((Word::Fmt, rest));
    }
    if let Some(rest) = strip(b"fix ", text) {
        return Ok((Word::Fix, rest));
    }
    word_by_parts(text)
}

/// Reads the word and then the space. It is called where there is an error.
#[inline(never)]
#[tactic(auto, unfolding(crate::specs::Parsing::word_at))]
fn word_by_parts(text: &[u8]) -> Result<(Word, &[u8]), TextError>
    ensures { IsParsed (λ x. (x.0, x.1.now)) result (word_at text.now) }
{
    let (word, rest) = bare_word(text)?;
    let rest = expect(b" ", FaultKind::Head, rest)?;
    Ok((word, rest))
}

/// Reads the word of a command.
fn bare_word(text: &[u8]) -> Result<(Word, &[u8]), TextError>
    ensures { IsParsed (λ x. (x.0, x.1.now)) result (bare_word_at text.now) }
{
    if let Some(rest) = strip(b"fmt", text) {
        return Ok((Word::Fmt, rest));
    }
    if let Some(rest) = strip(b"fix", text) {
        return Ok((Word::Fix, rest));
    }
    if strip(text, b"fmt").is_some() || strip(text, b"fix").is_some() {
        return Err(CUT_SHORT);
    }
    Err(TextError {
        kind: FaultKind::Head,
        left: text.len(),
    })
}
