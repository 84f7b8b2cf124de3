//! Two lists of edits as one.

use crate::actual::Answer;
use crate::edit_syntax::{journal_of, list_of, spell};
use crate::row::Row;
use edit_record::laws::{squash_all_is_unique, squash_is_associative, squash_is_unique};
use edit_record::{Edits, Journal, Unmet, squash};
use std::alloc::Global;

pub fn answer(row: &Row, out: &mut Answer) {
    match row.word(0) {
        "squash" => squashed(row, out),
        "three" => three(row, out),
        "journal" => journal(row, out),
        _ => out.show(&Unmet::Memory),
    }
}

fn put_result(answer: Result<Edits, Unmet>, out: &mut Answer) {
    match answer {
        Ok(list) => spell(&list, out),
        Err(fault) => out.refuse(&fault),
    }
}

fn squashed(row: &Row, out: &mut Answer) {
    let first = list_of(row.word(1), out);
    let second = list_of(row.word(2), out);
    put_result(squash(out.alloc, &first, &second), out);
}

/// Three lists in both groupings.
fn three(row: &Row, out: &mut Answer) {
    let a = list_of(row.word(1), out);
    let b = list_of(row.word(2), out);
    let c = list_of(row.word(3), out);
    squash_is_unique(&a, &b);
    squash_is_associative(&a, &b, &c);
    squash_all_is_unique();
    put_result(from_left(out.alloc, &a, &b, &c), out);
    let mut right = Answer::new(out.alloc);
    put_result(from_right(out.alloc, &a, &b, &c), &mut right);
    out.hold(right.text() == out.text(), "the groupings differ");
}

fn from_left(alloc: Global, a: &Edits, b: &Edits, c: &Edits) -> Result<Edits, Unmet> {
    let both = squash(alloc, a, b)?;
    squash(alloc, &both, c)
}

fn from_right(alloc: Global, a: &Edits, b: &Edits, c: &Edits) -> Result<Edits, Unmet> {
    let both = squash(alloc, b, c)?;
    squash(alloc, a, &both)
}

/// A list and those of the following records, as one.
fn journal(row: &Row, out: &mut Answer) {
    let first = list_of(row.word(1), out);
    let journal = journal_of(row.word(2), out);
    put_result(all(out.alloc, first, &journal), out);
}

fn all(alloc: Global, first: Edits, journal: &Journal) -> Result<Edits, Unmet> {
    let mut one = first;
    for record in journal.records() {
        one = squash(alloc, &one, record.edits())?;
    }
    Ok(one)
}
