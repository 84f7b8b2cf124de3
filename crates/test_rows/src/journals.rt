//! The text of journals.

use crate::actual::Answer;
use crate::edit_syntax::journal_of;
use crate::row::Row;
use edit_record::laws::{
    migration_preserves_meaning, text_is_unambiguous, text_prefix_is_unambiguous,
};
use edit_record::{Journal, Record, RecordFault, decode, decode_owned, encode, encoded_len};
use std::alloc::Global;
use std::fmt::Write;

pub fn answer(row: &Row, out: &mut Answer) {
    match row.word(0) {
        "read" => read(row.text(1), out),
        "written" => written(&journal_of(row.word(1), out), out),
        "fronts" => check_prefixes(row.text(1), out),
        "marks" => marks(row.text(1), row.text(2), out),
        "bytes" => bytes(row.text(1), out),
        "popped" => popped(row.text(1), out),
        "replaced" => replaced(row.text(1), row.number(2), row.text(3), out),
        "shown" => shown(row.text(1), out),
        _ => out.show(&RecordFault::Memory),
    }
}

/// What is read of a text, as it is written.
fn read(text: &[u8], out: &mut Answer) {
    text_is_unambiguous();
    text_prefix_is_unambiguous();
    migration_preserves_meaning();
    match decode(out.alloc, text) {
        Ok(journal) => written(&journal, out),
        Err(fault) => out.refuse(&fault),
    }
}

fn written(journal: &Journal, out: &mut Answer) {
    match encode(out.alloc, journal) {
        Ok(text) => {
            out.put_bytes(&text);
            let has_len = encoded_len(journal) == text.len();
            out.hold(has_len, "the text has another length");
        }
        Err(fault) => out.refuse(&fault),
    }
}

/// The journal of a text, which it keeps.
fn kept(text: &[u8], out: &mut Answer) -> Option<Journal> {
    let Ok(owned) = Vec::from_slice(out.alloc, text) else {
        out.refuse(&RecordFault::Memory);
        return None;
    };
    match decode_owned(out.alloc, owned) {
        Ok(journal) => Some(journal),
        Err(fault) => {
            out.refuse(&fault);
            None
        }
    }
}

/// What is written of a text's journal without its last record.
fn popped(text: &[u8], out: &mut Answer) {
    if let Some(mut journal) = kept(text, out) {
        let _ = journal.pop();
        written(&journal, out);
    }
}

/// The records of a text.
fn records_of(text: &[u8], out: &mut Answer) -> Vec<Record> {
    let mut records = Vec::new(out.alloc);
    if let Some(journal) = kept(text, out) {
        for record in journal.records() {
            let is_put = match record.clone() {
                Ok(record) => records.push(record).is_ok(),
                Err(_) => false,
            };
            out.hold(is_put, "no memory");
        }
    }
    records
}

/// What is written of a text's journal with other records from this number on.
fn replaced(text: &[u8], from: usize, others: &[u8], out: &mut Answer) {
    let others = records_of(others, out);
    if let Some(mut journal) = kept(text, out) {
        if from.saturating_add(others.len()) > journal.records().len() {
            return out.put("too many records");
        }
        journal.replace_from(from, others);
        written(&journal, out);
    }
}

/// How a text's journal is printed for a developer, on a line and on many.
fn shown(text: &[u8], out: &mut Answer) {
    if let Some(journal) = kept(text, out) {
        let _ = write!(out, "{journal:?} {journal:#?}");
    }
}

/// Whether each prefix of the text but the empty one is cut short, at its end; the places of those
/// that are not.
fn check_prefixes(text: &[u8], out: &mut Answer) {
    for at in 1..text.len() {
        if decode(out.alloc, &text[..at]).err() != Some(RecordFault::CutShort { at }) {
            let _ = write!(out, "byte {at}, ");
        }
    }
    out.put("cut short");
}

/// What an `x` in the place of the byte at this place leads to, where `mark` says what the byte
/// belongs to; the last mark is that of a byte that an edit adds.
fn fault_at(mark: u8, at: usize, end: usize) -> Option<RecordFault> {
    match mark {
        b'T' => Some(RecordFault::BadHead { at: 0 }),
        b'W' => Some(RecordFault::BadHead { at: 8 }),
        b'S' => Some(RecordFault::BadHead { at: 14 }),
        b'h' => Some(RecordFault::BadHead { at }),
        b'n' => Some(RecordFault::BadNumber { at }),
        b'e' => Some(RecordFault::BadEnd { at }),
        b'E' => Some(RecordFault::BadEnd { at: end }),
        _ => None,
    }
}

/// Whether an `x` in the place of each byte is refused as the marks say; the places where it is
/// not.
fn marks(text: &[u8], marks: &[u8], out: &mut Answer) {
    let end = text.len().saturating_sub(4);
    for (at, mark) in marks.iter().enumerate() {
        let changed = with_byte(text, at, b'x', out);
        if decode(out.alloc, &changed).err() != fault_at(*mark, at, end) {
            let _ = write!(out, "byte {at}, ");
        }
    }
    let count = marks.len();
    let _ = write!(out, "{count} marks");
}

/// The text with another byte at this place.
pub fn with_byte(text: &[u8], at: usize, byte: u8, out: &mut Answer) -> Vec<u8> {
    let mut changed = Vec::new(out.alloc);
    let is_put = changed.extend_from_slice(text).is_ok();
    out.hold(is_put, "a text is too long");
    if let Some(place) = changed.get_mut(at) {
        *place = byte;
    }
    changed
}

/// Whether the text with another byte at any place is that of a journal, which is written so again,
/// or is refused at one of its places; where it is not so.
fn bytes(text: &[u8], out: &mut Answer) {
    for at in 0..text.len() {
        for byte in 0..=255 {
            let changed = with_byte(text, at, byte, out);
            if !is_one_spelling(out.alloc, &changed) {
                let _ = write!(out, "{byte} at {at}, ");
            }
        }
    }
    out.put("one spelling");
}

fn is_one_spelling(alloc: Global, text: &[u8]) -> bool {
    match decode(alloc, text) {
        Ok(journal) => is_written(alloc, &journal, text),
        Err(fault) => place_of(fault).is_some_and(|at| at <= text.len()),
    }
}

fn is_written(alloc: Global, journal: &Journal, text: &[u8]) -> bool {
    match encode(alloc, journal) {
        Ok(again) => again.as_slice() == text,
        Err(_) => false,
    }
}

fn place_of(fault: RecordFault) -> Option<usize> {
    match fault {
        RecordFault::Memory => None,
        RecordFault::BadHead { at }
        | RecordFault::BadNumber { at }
        | RecordFault::CutShort { at }
        | RecordFault::BadEdits { at }
        | RecordFault::BadEnd { at }
        | RecordFault::BadSteps { at } => Some(at),
    }
}
