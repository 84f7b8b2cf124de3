//! Reading heads and short edits in one straight pass, for speed alone. `None` says nothing of the
//! text: what is unusual (an error, a long edit, the end of the text near) is left to readers.rt.
//!
//! Of the columns there `plain_list_head` repeats both numbers of a list's head, `plain_head` the
//! three of an edit's, and `plain_lengths` the last two of these, each with any digits.
//! `short_lengths` repeats these two where each has one digit, `short_texts` and `short_edit` what
//! follows the head of an edit that stores its bytes inline, `short_place` the place of an edit
//! where it has seven digits at most, and `quick_edit` and `next_edit` all that follows the place
//! where both lengths have one digit.
ghost use Rattle.std.specs.Prelude.{◌≡◌, ◌+◌, ◌<◌, ◌≤◌, ◌∷◌, false, ℕ, List, length, take, drop, IfSome};
ghost use Rattle.edit_record.specs.Text.{max_number, space};
ghost use Rattle.edit_record.specs.Parsing.{is_digit, number_at, list_head_at, edit_at};
ghost use Rattle.edit_record.specs.Inner.EditLengths.{lengths_at, after_head_at};
ghost use Rattle.edit_record.specs.Inner.EditSums.{Follows};
ghost use Rattle.edit_record.specs.declared.columns.TheConstants.{QUICK_BYTES, QUICK_DIGITS, QUICK_LENGTHS};
ghost use Rattle.edit_record.specs.declared.columns.TheConstants.{QUICK_REST};
ghost use Rattle.edit_record.specs.declared.digits.TheConstants.{EIGHT_DIGITS};
ghost use Rattle.edit_record.specs.declared.lists.edit.TheConstants.{INLINE_CAPACITY};

use crate::columns::{QUICK_BYTES, QUICK_DIGITS, QUICK_REST};
use crate::edit_sums::EditSums;
use crate::lists::{Edit, INLINE_CAPACITY, MAX_TEXT};
use crate::readers::MAX_NUMBER;

/// Reads a number that `terminator` follows, and skips both.
#[inline(always)]
#[tactic(auto, unfolding(crate::specs::Parsing::number_at))]
fn plain_number(terminator: u8, text: &[u8]) -> Option<(usize, &[u8])>
    ensures { IfSome result
        (λ x. number_at 0 max_number terminator text.now ≡ Ok (x.0, x.1.now)) }
{
    let [first, remaining @ ..] = text else {
        return None;
    };
    let first = *first;
    if !first.is_ascii_digit() {
        return None;
    }
    if first == b'0' {
        return zero_end(terminator, remaining);
    }
    let mut value = (first - b'0') as usize;
    let mut remaining = remaining;
    while let [digit, rest @ ..] = remaining {
        let digit = *digit;
        if !digit.is_ascii_digit() {
            return if digit == terminator {
                Some((value, rest))
            } else {
                None
            };
        }
        value = value * 10 + (digit - b'0') as usize;
        if value > MAX_NUMBER {
            return None;
        }
        remaining = rest;
    }
    None
}

/// Skips the end of the number 0.
#[inline(always)]
fn zero_end(terminator: u8, text: &[u8]) -> Option<(usize, &[u8])>
    ensures { IfSome result (λ x. (x.0 ≡ 0) × (is_digit terminator ≡ false)
        × (text.now ≡ terminator ∷ x.1.now)) }
{
    let [end, rest @ ..] = text else {
        return None;
    };
    if *end != terminator || terminator.is_ascii_digit() {
        return None;
    }
    Some((0, rest))
}

/// Reads the head of a list of edits.
#[inline(always)]
#[tactic(auto, unfolding(crate::specs::Parsing::list_head_at))]
pub(crate) fn plain_list_head(text: &[u8]) -> Option<((usize, usize), &[u8])>
    ensures { IfSome result (λ x. list_head_at text.now ≡ Ok (x.0, x.1.now)) }
{
    let Some((old_len, rest)) = plain_number(b' ', text) else {
        return None;
    };
    let Some((count, rest)) = plain_number(b'\n', rest) else {
        return None;
    };
    Some(((old_len, count), rest))
}

/// Reads how many bytes an edit removes and adds, where both numbers have one digit.
#[inline(always)]
fn short_lengths(text: &[u8]) -> Option<((usize, usize), &[u8])>
    ensures lengths { IfSome result (λ x. lengths_at text.now ≡ Ok (x.0, x.1.now)) }
    ensures rest { IfSome result (λ x. x.1.now ≡ drop QUICK_LENGTHS text.now) }
    ensures left { IfSome result (λ x. length x.1.now + QUICK_LENGTHS ≡ length text.now) }
{
    let [removed, space, added, end, rest @ ..] = text else {
        return None;
    };
    let removed = *removed as usize;
    let added = *added as usize;
    if *space != b' ' || *end != b'\n' {
        return None;
    }
    if removed < 48 || removed > 57 || added < 48 || added > 57 {
        return None;
    }
    Some(((removed - 48, added - 48), rest))
}

/// Reads how many bytes an edit removes and adds.
#[inline(always)]
pub(crate) fn plain_lengths(text: &[u8]) -> Option<((usize, usize), &[u8])>
    ensures { IfSome result (λ x. lengths_at text.now ≡ Ok (x.0, x.1.now)) }
{
    if let Some(short) = short_lengths(text) {
        return Some(short);
    }
    let Some((removed, rest)) = plain_number(b' ', text) else {
        return None;
    };
    let Some((added, rest)) = plain_number(b'\n', rest) else {
        return None;
    };
    Some(((removed, added), rest))
}

/// Reads the head of an edit: its place, how many bytes it removes, and how many it adds.
#[inline(always)]
pub(crate) fn plain_head(text: &[u8]) -> Option<((usize, usize, usize), &[u8])>
    ensures { IfSome result
        (λ x. edit_at text.now ≡ after_head_at x.0.0 x.0.1 x.0.2 x.1.now) }
{
    let Some((at, rest)) = plain_number(b' ', text) else {
        return None;
    };
    let Some(((removed, added), rest)) = plain_lengths(rest) else {
        return None;
    };
    Some(((at, removed, added), rest))
}

/// Reads what follows the head of an edit that stores its bytes inline. Returns an array that
/// begins with these bytes, and the rest of the text.
#[inline(always)]
fn short_texts(removed: usize, added: usize, text: &[u8]) -> Option<(&[u8; INLINE_CAPACITY], &[u8])>
    ensures few { IfSome result (λ _. removed + added ≤ INLINE_CAPACITY) }
    ensures read { IfSome result (λ x. (at : ℕ) → after_head_at at removed added text.now
        ≡ Ok (
          record {
            at = at;
            removed = take removed x.0.now;
            added = take added (drop removed x.0.now);
          },
          x.1.now,
        )) }
    ensures rest { IfSome result (λ x. x.1.now ≡ drop (removed + added + 1) text.now) }
    ensures within { IfSome result (λ _. removed + added < length text.now) }
{
    let len = removed.saturating_add(added);
    if len > INLINE_CAPACITY || text.len() <= INLINE_CAPACITY {
        return None;
    }
    let Some((texts, _others)) = text.split_first_chunk::<INLINE_CAPACITY>() else {
        return None;
    };
    if text[len] != b'\n' {
        return None;
    }
    Some((texts, &text[len + 1..]))
}

/// Reads what follows the head of an edit that stores its bytes inline.
#[inline(always)]
pub(crate) fn short_edit(
    at: usize,
    removed: usize,
    added: usize,
    text: &[u8],
) -> Option<(Edit, &[u8])>
    ensures { IfSome result (λ x. after_head_at at removed added text.now ≡ Ok (x.0, x.1.now)) }
{
    let Some((texts, after)) = short_texts(removed, added, text) else {
        return None;
    };
    Some((Edit::from_adjacent(at, removed, added, *texts), after))
}

/// Reads a place of at most seven digits, the first of which is not 0, and the space that follows
/// it, if `QUICK_BYTES` or more are left. Returns the place, and how many bytes were read.
#[inline(always)]
#[tactic(auto, unfolding(crate::specs::Parsing::number_at))]
pub(crate) fn short_place(text: &[u8]) -> Option<(usize, usize)>
    ensures read { IfSome result
        (λ x. number_at 0 max_number space text.now ≡ Ok (x.0, drop x.1 text.now)) }
    ensures near { IfSome result (λ x. x.0 < EIGHT_DIGITS) }
    ensures within { IfSome result (λ x. x.1 ≤ QUICK_DIGITS + 1) }
    ensures left { IfSome result (λ _. QUICK_BYTES ≤ length text.now) }
{
    if text.len() < QUICK_BYTES {
        return None;
    }
    let first = text[0];
    if !first.is_ascii_digit() || first == b'0' {
        return None;
    }
    let mut value = (first - b'0') as usize;
    for i in 1..QUICK_DIGITS {
        let digit = text[i];
        if !digit.is_ascii_digit() {
            return if digit == b' ' {
                Some((value, i + 1))
            } else {
                None
            };
        }
        value = value * 10 + (digit - b'0') as usize;
    }
    if text[QUICK_DIGITS] != b' ' {
        return None;
    }
    Some((value, QUICK_DIGITS + 1))
}

/// Reads what follows the place of a short edit, whose lengths have one digit each, as those of
/// nearly every edit. Returns how many bytes it removes, how many it adds, an array that begins
/// with these bytes, and the rest of the text. The edit is made of them where it is stored, so that
/// it isn't moved.
#[inline(always)]
fn quick_edit(text: &[u8]) -> Option<(usize, usize, &[u8; INLINE_CAPACITY], &[u8])>
    ensures few { IfSome result (λ x. x.0 + x.1 ≤ INLINE_CAPACITY) }
    ensures read { IfSome result (λ x. (whole : List ℕ) (at : ℕ)
        → number_at 0 max_number space whole ≡ Ok (at, text.now)
        → edit_at whole
        ≡ Ok (
          record {
            at = at;
            removed = take x.0 x.2.now;
            added = take x.1 (drop x.0 x.2.now);
          },
          x.3.now,
        )) }
    ensures rest { IfSome result (λ x. x.3.now ≡ drop (x.0 + x.1 + QUICK_REST) text.now) }
    ensures within { IfSome result (λ x. x.0 + x.1 + QUICK_REST ≤ length text.now) }
{
    let Some(((removed, added), rest)) = short_lengths(text) else {
        return None;
    };
    let Some((texts, after)) = short_texts(removed, added, rest) else {
        return None;
    };
    Some((removed, added, texts, after))
}

/// Reads a short edit as `quick_edit` does, if it is not empty and begins after the edits with
/// these sums: `at` is its place, and `start` where its lengths begin in the text.
#[inline(always)]
pub(crate) fn next_edit(
    sums: EditSums,
    at: usize,
    start: usize,
    text: &[u8],
) -> Option<(usize, usize, &[u8; INLINE_CAPACITY], &[u8])>
    requires { start ≤ length text.now }
    ensures follows { IfSome result (λ x. Follows sums at x.0 x.1) }
    ensures few { IfSome result (λ x. x.0 + x.1 ≤ INLINE_CAPACITY) }
    ensures read { IfSome result
        (λ x. number_at 0 max_number space text.now ≡ Ok (at, drop start text.now)
        → edit_at text.now
        ≡ Ok (
          record {
            at = at;
            removed = take x.0 x.2.now;
            added = take x.1 (drop x.0 x.2.now);
          },
          x.3.now,
        )) }
{
    let Some((removed, added, texts, _after)) = quick_edit(&text[start..]) else {
        return None;
    };
    // The rest by one sum: in the three steps of `quick_edit` it takes some 15 instructions more.
    let len = removed + added;
    if len == 0 || at < sums.end || sums.added > MAX_TEXT {
        return None;
    }
    Some((removed, added, texts, &text[start + len + QUICK_REST..]))
}
