//! Lists of edits, records and journals, their text, and two lists together.

use super::{Host, given};
use edit_record::{
    BadEdits, Change, Edit, Edits, Journal, Record, RecordFault, Refused, SwapFault, Unmet, Word,
    decode, encode, squash, swap,
};

/// An edit: its place, what it removes, and what it adds.
type Row = (usize, &'static str, &'static str);

/// Returns the list of these edits of a text of `old_len` bytes.
fn edits_of(rt: &impl Host, old_len: usize, rows: &[Row]) -> Edits {
    let mut edits = Vec::new(rt.alloc());
    for (at, removed, added) in rows {
        let edit = Edit::new(rt.alloc(), *at, removed.as_bytes(), added.as_bytes());
        given(rt, edits.push(given(rt, edit)));
    }
    given(rt, Edits::make(old_len, edits))
}

/// Looks whether a change makes one text of the other, and that text of the one.
fn turns(rt: &impl Host, change: &impl Change, old: &[u8], new: &[u8]) {
    let applied = given(rt, change.apply(rt.alloc(), old));
    assert!(rt; applied.as_slice() == new);
    let undone = given(rt, change.undo(rt.alloc(), new));
    assert!(rt; undone.as_slice() == old);
}

#[test]
fn lists(rt: HostRuntime) {
    let edits = edits_of(&rt, 3, &[(0, "a", "xx"), (2, "c", "")]);
    assert!(rt; [edits.old_len(), edits.new_len(), edits.edits().len()] == [3, 3, 2]);
    turns(&rt, &edits, b"abc", b"xxb");
}

#[test]
fn refusals(rt: HostRuntime) {
    let edits = edits_of(&rt, 3, &[(0, "a", "xx")]);
    let differs = edits.undo(rt.alloc(), b"xybc").err();
    let length = edits.undo(rt.alloc(), b"xx").err();
    let too_long = Edits::make(17_000_000, Vec::new(rt.alloc())).err();
    let expected = 4;
    let found = 2;
    assert!(rt; differs == Some(Refused::Differs { step: 0, edit: 0 }));
    assert!(rt; length == Some(Refused::Length { expected, found }));
    assert!(rt; too_long == Some(BadEdits::TooLong));
}

/// Returns the record of what a fix makes of `COMMENT`.
fn comment_record(rt: &impl Host) -> Record {
    Record::make(Word::Fix, edits_of(rt, 13, &[(6, "//", "#")]))
}

const COMMENT: &[u8] = b"a = 1 // one\n";

const FIXED_COMMENT: &[u8] = b"a = 1 # one\n";

#[test]
fn records(rt: HostRuntime) {
    let record = comment_record(&rt);
    assert!(rt; record.word() == Word::Fix);
    assert!(rt; record.edits().old_len() == 13);
    turns(&rt, &record, COMMENT, FIXED_COMMENT);
}

#[test]
fn journals(rt: HostRuntime) {
    let mut journal = Journal::empty(rt.alloc());
    given(&rt, journal.push(comment_record(&rt)));
    turns(&rt, &journal, COMMENT, FIXED_COMMENT);
    let text = given(&rt, encode(rt.alloc(), &journal));
    assert!(rt; text.as_slice() == b"tfrec 2 fix 13 1\n6 2 1\n//#\nend\n".as_slice());
}

#[test]
fn journal_texts(rt: HostRuntime) {
    let text = b"tfrec 2 fix 13 1\n6 2 1\n//#\nend\n".as_slice();
    let mut journal = given(&rt, decode(rt.alloc(), text));
    assert!(rt; journal.records().len() == 1);
    assert!(rt; journal.pop().is_some());
    assert!(rt; journal.records().is_empty());
}

#[test]
fn no_journal(rt: HostRuntime) {
    let fault = decode(rt.alloc(), b"tfrec 1 fmt 1\nstep 10 4\n1 0 3\n  ").err();
    assert!(rt; fault == Some(RecordFault::CutShort { at: 32 }));
}

/// Whether the list has one edit, which is this.
fn is_one(list: &Edits, at: usize, removed: &[u8], added: &[u8]) -> bool {
    let edits = list.edits();
    match edits.first() {
        Some(edit) => {
            edits.len() == 1
                && edit.at() == at
                && edit.removed() == removed
                && edit.added() == added
        }
        None => false,
    }
}

#[test]
fn squashes(rt: HostRuntime) {
    let first = edits_of(&rt, 3, &[(1, "b", "xy")]);
    let second = edits_of(&rt, 4, &[(2, "y", "")]);
    let other = edits_of(&rt, 4, &[(2, "z", "")]);
    let both = given(&rt, squash(rt.alloc(), &first, &second));
    let unmet = squash(rt.alloc(), &first, &other).err();
    assert!(rt; is_one(&both, 1, b"b", b"x"));
    assert!(rt; unmet == Some(Unmet::Contradicts { edit: 0 }));
}

#[test]
fn swaps(rt: HostRuntime) {
    let first = edits_of(&rt, 4, &[(0, "x", "")]);
    let last = edits_of(&rt, 3, &[(2, "", "y")]);
    let (before, after) = given(&rt, swap(rt.alloc(), &first, &last));
    assert!(rt; is_one(&before, 3, b"", b"y"));
    assert!(rt; is_one(&after, 0, b"x", b""));
}

#[test]
fn no_swap(rt: HostRuntime) {
    let one = edits_of(&rt, 4, &[(0, "x", "")]);
    let other = edits_of(&rt, 3, &[(0, "b", "d")]);
    let meets = swap(rt.alloc(), &one, &other).err();
    let first = 0;
    let second = 0;
    assert!(rt; meets == Some(SwapFault::Meets { first, second }));
}
