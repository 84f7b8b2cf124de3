//! Edits and records as rows write them. The answer notes what is written otherwise.

use crate::actual::Answer;
use edit_record::{Edit, Edits, Journal, Record, Word};
use std::alloc::{AllocError, Global};
use std::fmt::Write;

/// The text before the first such character, and the text after it.
fn parted(text: &str, at: char) -> (&str, &str) {
    text.split_once(at).unwrap_or((text, ""))
}

fn number(text: &str) -> usize {
    text.parse::<usize>().unwrap_or(usize::MAX)
}

/// An edit written as `PLACE;REMOVED;ADDED`.
fn edit_of(alloc: Global, text: &str) -> Result<Edit, AllocError> {
    let (at, sides) = parted(text, ';');
    let (removed, added) = parted(sides, ';');
    Edit::new(alloc, number(at), removed.as_bytes(), added.as_bytes())
}

/// Edits, each followed by `,`.
pub fn edits_of(text: &str, out: &mut Answer) -> Vec<Edit> {
    let mut edits = Vec::new(out.alloc);
    for edit in text.split_terminator(',') {
        let is_put = match edit_of(out.alloc, edit) {
            Ok(edit) => edits.push(edit).is_ok(),
            Err(_) => false,
        };
        out.hold(is_put, "too many edits");
    }
    edits
}

/// A list written as `LENGTH:EDITS`.
pub fn list_of(text: &str, out: &mut Answer) -> Edits {
    let (old_len, edits) = parted(text, ':');
    match Edits::make(number(old_len), edits_of(edits, out)) {
        Ok(list) => list,
        Err(_) => {
            out.hold(false, "no list of edits");
            Edits::from_valid(0, 0, Vec::new(out.alloc))
        }
    }
}

/// Records written as `WORD LIST`, each followed by `&`.
pub fn journal_of(text: &str, out: &mut Answer) -> Journal {
    let mut journal = Journal::empty(out.alloc);
    for record in text.split_terminator('&') {
        let (word, list) = parted(record, ' ');
        let record = Record::make(word_of(word), list_of(list, out));
        out.hold(journal.push(record).is_ok(), "too many records");
    }
    journal
}

pub fn word_of(word: &str) -> Word {
    match word {
        "fmt" => Word::Fmt,
        _ => Word::Fix,
    }
}

pub fn name_of(word: Word) -> &'static str {
    match word {
        Word::Fmt => "fmt",
        Word::Fix => "fix",
    }
}

pub fn spell(list: &Edits, out: &mut Answer) {
    let old_len = list.old_len();
    let _ = write!(out, "{old_len}:");
    for edit in list.edits() {
        out.show(&edit.at());
        out.put(";");
        out.put_bytes(edit.removed());
        out.put(";");
        out.put_bytes(edit.added());
        out.put(",");
    }
}
