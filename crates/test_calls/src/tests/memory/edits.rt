//! Calls on edits, records and journals.

use super::equality::{are_same_edits, are_same_records, begin_alike, is_same_record};
use super::fixtures::{
    APART_JOURNAL, COMMENTED, FIRST, JOURNAL, LAST, LEFT_JOURNAL, Row, edits_of, journal_of,
};
use super::{answered, begin, gave, wanted};
use crate::tests::{Host, given};
use edit_record::{
    Change, Edit, Edits, Journal, MoveFault, Record, Refused, SwapFault, Unmet, Word,
};

fn applied(rt: &impl Host, change: &impl Change, old: &[u8], new: &[u8]) {
    begin(rt);
    let answer = change.apply(rt.alloc(), old);
    gave(rt, answer, Refused::Memory, new);
}

fn undone(rt: &impl Host, change: &impl Change, new: &[u8], old: &[u8]) {
    begin(rt);
    let answer = change.undo(rt.alloc(), new);
    gave(rt, answer, Refused::Memory, old);
}

fn two_edits(rt: &impl Host) -> Edits {
    edits_of(rt, 3, &[(0, "a", "xx"), (2, "c", "")])
}

#[test]
fn apply_edits(rt: HostRuntime) {
    applied(&rt, &two_edits(&rt), b"abc", b"xxb");
}

#[test]
fn undo_edits(rt: HostRuntime) {
    undone(&rt, &two_edits(&rt), b"xxb", b"abc");
}

#[test]
fn apply_record(rt: HostRuntime) {
    let mut journal = journal_of(&rt, JOURNAL);
    let record = journal.pop().expect(&rt, "there is no record");
    applied(&rt, &record, COMMENTED, LAST);
}

#[test]
fn undo_record(rt: HostRuntime) {
    let mut journal = journal_of(&rt, JOURNAL);
    let record = journal.pop().expect(&rt, "there is no record");
    undone(&rt, &record, LAST, COMMENTED);
}

#[test]
fn apply_journal(rt: HostRuntime) {
    applied(&rt, &journal_of(&rt, JOURNAL), FIRST, LAST);
}

#[test]
fn undo_journal(rt: HostRuntime) {
    undone(&rt, &journal_of(&rt, JOURNAL), LAST, FIRST);
}

/// Records that add one byte each, enough for a journal of them to grow more than once. The text
/// before record N has N bytes.
fn records(rt: &impl Host) -> Vec<Record> {
    let mut records = Vec::new(rt.alloc());
    for n in 0..20 {
        let edits = edits_of(rt, n, &[(0, "", "x")]);
        given(rt, records.push(Record::make(Word::Fix, edits)));
    }
    records
}

/// A record that is not pushed is returned, and the journal is as before.
#[test]
fn journal_push(rt: HostRuntime) {
    let right = records(&rt);
    let mut left = records(&rt);
    left.reverse();
    let mut journal = Journal::empty(rt.alloc());
    begin(&rt);
    for (n, record) in right.iter().enumerate() {
        let last = left.pop().expect(&rt, "there is no record");
        if let Err(refused) = journal.push(last) {
            let is_back = is_same_record(&refused.value, record);
            let is_as_before = journal.records().len() == n
                && begin_alike(journal.records(), &right);
            wanted(&rt, is_back && is_as_before);
        }
    }
    assert!(rt; are_same_records(journal.records(), &right));
}

// Edits of both lists meet, each kind of them begins an edit, and others stay alone.

const SQUASH_FIRST: [Row; 5] = [
    (0, "a", "bb"),
    (3, "d", "xyz"),
    (6, "g", ""),
    (11, "l", "m"),
    (15, "p", "P"),
];

const SQUASH_SECOND: [Row; 6] = [
    (1, "bbc", "q"),
    (6, "z", "z"),
    (7, "ef", "fe"),
    (11, "", "-"),
    (16, "oPq", ""),
    (20, "s", ""),
];

const SQUASHED: [Row; 5] = [
    (0, "abcdefg", "bqxyzfe"),
    (9, "", "-"),
    (11, "l", "m"),
    (14, "opq", ""),
    (18, "s", ""),
];

#[test]
fn squash(rt: HostRuntime) {
    let first = edits_of(&rt, 20, &SQUASH_FIRST);
    let second = edits_of(&rt, 22, &SQUASH_SECOND);
    let right = edits_of(&rt, 20, &SQUASHED);
    begin(&rt);
    let answer = edit_record::squash(rt.alloc(), &first, &second);
    let edits = answered(&rt, answer, Unmet::Memory, true);
    assert!(rt; are_same_edits(&edits, &right));
}

// From `abcdefghi` to `aBBcegh12` by way of `aBBcdeghi`, or of `abcefgh12` in the other order.

const SWAP_FIRST: [Row; 2] = [(1, "b", "BB"), (5, "f", "")];

const SWAP_SECOND: [Row; 3] = [(4, "d", ""), (8, "i", "1"), (9, "", "2")];

const SWAP_SECOND_BEFORE: [Row; 3] = [(3, "d", ""), (8, "i", "1"), (9, "", "2")];

const SWAP_FIRST_AFTER: [Row; 2] = [(1, "b", "BB"), (4, "f", "")];

#[test]
fn swap(rt: HostRuntime) {
    let first = edits_of(&rt, 9, &SWAP_FIRST);
    let second = edits_of(&rt, 9, &SWAP_SECOND);
    let second_before = edits_of(&rt, 9, &SWAP_SECOND_BEFORE);
    let first_after = edits_of(&rt, 9, &SWAP_FIRST_AFTER);
    begin(&rt);
    let answer = edit_record::swap(rt.alloc(), &first, &second);
    let (before, after) = answered(&rt, answer, SwapFault::Memory, true);
    assert!(rt; are_same_edits(&before, &second_before));
    assert!(rt; are_same_edits(&after, &first_after));
}

/// The first record's edits as they are after the two others.
#[test]
fn move_to_end(rt: HostRuntime) {
    let journal = journal_of(&rt, APART_JOURNAL);
    let others = journal_of(&rt, LEFT_JOURNAL);
    let right = edits_of(&rt, 7, &[(3, "c", "")]);
    let (first, rest) = journal
        .records()
        .split_first()
        .expect(&rt, "there is no record");
    begin(&rt);
    let answer = edit_record::move_to_end(rt.alloc(), first.edits(), rest);
    let (records, moved) = answered(&rt, answer, MoveFault::Memory, true);
    assert!(rt; are_same_records(&records, others.records()));
    let moved = moved.expect(&rt, "the edits are gone");
    assert!(rt; are_same_edits(&moved, &right));
}

/// Edits of every fourth byte of a text of 80: a record of one edit is small beside these.
fn many_edits(rt: &impl Host) -> Edits {
    let mut edits = Vec::new(rt.alloc());
    for n in 0..20usize {
        given(
            rt,
            edits.push(given(rt, Edit::new(rt.alloc(), 4 * n, b"a", b"A"))),
        );
    }
    given(rt, Edits::make(80, edits))
}

/// A record of one edit of a text of 80 bytes.
fn one_edit(rt: &impl Host, row: Row) -> Record {
    Record::make(Word::Fix, edits_of(rt, 80, &[row]))
}

/// Many edits after one record.
#[test]
fn move_to_end_many(rt: HostRuntime) {
    let first = many_edits(&rt);
    let records = [one_edit(&rt, (2, "b", "B"))];
    begin(&rt);
    let answer = edit_record::move_to_end(rt.alloc(), &first, records.as_slice());
    let (others, moved) = answered(&rt, answer, MoveFault::Memory, true);
    assert!(rt; are_same_records(&others, records.as_slice()));
    let moved = moved.expect(&rt, "the edits are gone");
    assert!(rt; are_same_edits(&moved, &first));
}

/// The second record is blocked: it takes no more memory than if it were not there, as
/// tools/refusals compares.
#[test]
fn move_to_end_blocked(rt: HostRuntime) {
    let first = many_edits(&rt);
    let records = [one_edit(&rt, (2, "b", "B")), one_edit(&rt, (4, "A", "x"))];
    begin(&rt);
    let fault = edit_record::move_to_end(rt.alloc(), &first, records.as_slice()).err();
    if fault == Some(MoveFault::Memory) {
        wanted(&rt, true);
    }
    assert!(rt; fault == Some(MoveFault::Blocked { number: 1 }));
}
