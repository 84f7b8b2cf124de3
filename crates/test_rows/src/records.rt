//! Edits, records and journals: what is made, applied and undone.

use crate::actual::Answer;
use crate::edit_syntax::{edits_of, journal_of, list_of, name_of, word_of};
use crate::row::Row;
use edit_record::laws::{
    apply_is_exact, change_is_one_to_one, edit_results_are_exact, make_is_exact,
    pieces_make_valid_edits, pieces_transform, transformed_lengths_match, undo_is_exact,
};
use edit_record::{Change, Edits, Record, Refused, Word, apply_all, undo_all};
use std::fmt::Write;

pub fn answer(row: &Row, out: &mut Answer) {
    match row.word(0) {
        "make" => made(row, out),
        "placed" => lengths(&Edits::from_valid(3, 3, Vec::new(out.alloc)), out),
        "edits" => change(&list_of(row.word(1), out), row, out),
        "record" => record(row, out),
        "turns" => change(
            &Record::make(Word::Fmt, list_of(row.word(1), out)),
            row,
            out,
        ),
        "journal" => change(&journal_of(row.word(1), out), row, out),
        "all" => all(row, out),
        "popped" => popped(row, out),
        "laws" => laws(&list_of(row.word(1), out), out),
        _ => out.show(&Refused::Memory),
    }
}

fn made(row: &Row, out: &mut Answer) {
    match Edits::make(row.number(1), edits_of(row.word(2), out)) {
        Ok(edits) => lengths(&edits, out),
        Err(fault) => out.refuse(&fault),
    }
}

fn lengths(edits: &Edits, out: &mut Answer) {
    let (old_len, new_len) = (edits.old_len(), edits.new_len());
    let count = edits.edits().len();
    let _ = write!(out, "{old_len} to {new_len} bytes, {count} edits");
}

fn record(row: &Row, out: &mut Answer) {
    let record = Record::make(word_of(row.word(1)), list_of(row.word(2), out));
    out.put(name_of(record.word()));
    out.put(", ");
    lengths(record.edits(), out);
}

fn change<C: Change>(change: &C, row: &Row, out: &mut Answer) {
    turned(change, row.word(2), row.text(3), out);
}

/// The text as the change makes it, or as it was before it (`undo`), or as the change makes it if
/// that undoes to the old one (`both`).
pub fn turned<C: Change>(change: &C, way: &str, text: &[u8], out: &mut Answer) {
    let answer = if way == "undo" {
        change.undo(out.alloc, text)
    } else {
        change.apply(out.alloc, text)
    };
    match answer {
        Ok(new) => {
            out.put_bytes(&new);
            if way == "both" {
                is_back(change.undo(out.alloc, &new), text, out);
            }
        }
        Err(fault) => out.refuse(&fault),
    }
}

fn is_back(undone: Result<Vec<u8>, Refused>, text: &[u8], out: &mut Answer) {
    let is_back = match undone {
        Ok(old) => old.as_slice() == text,
        Err(_) => false,
    };
    out.hold(is_back, "the old text does not come back");
}

/// The records of a journal, one after the other and back.
fn all(row: &Row, out: &mut Answer) {
    let journal = journal_of(row.word(1), out);
    let text = row.text(2);
    match apply_all(out.alloc, journal.records(), text) {
        Ok(new) => {
            out.put_bytes(&new);
            is_back(undo_all(out.alloc, journal.records(), &new), text, out);
        }
        Err(fault) => out.refuse(&fault),
    }
}

/// The old lengths of the records as they are popped, with what is left of the journal each time.
fn popped(row: &Row, out: &mut Answer) {
    let mut journal = journal_of(row.word(1), out);
    for _ in 0..journal.records().len() {
        if let Some(last) = journal.pop() {
            let (old_len, left) = (last.edits().old_len(), journal.records().len());
            let _ = write!(out, "{old_len} before {left}, ");
        }
    }
    out.hold(journal.pop().is_none(), "a record is left");
}

fn laws(edits: &Edits, out: &mut Answer) {
    apply_is_exact(edits);
    undo_is_exact(edits);
    change_is_one_to_one(edits);
    edit_results_are_exact(edits);
    transformed_lengths_match();
    make_is_exact();
    pieces_transform();
    pieces_make_valid_edits();
    lengths(edits, out);
}
