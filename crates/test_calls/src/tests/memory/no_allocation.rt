//! Calls that take no memory, and return the right answer where every allocation fails.

use super::begin;
use super::fixtures::{
    FIRST, JOURNAL, LAST, LINE, TEXT, bytes_of, edits_of, journal_of, preallocated,
};
use crate::tests::{Host, given};
use edit_record::{Edit, Edits, Journal, Record, Word};
use hcl_scan::{Item, Kind, MAX_TEXT, Place, ScanFault, Scanned, scan};
use std::io;
use std::io::{Error, ErrorKind, Read, Write};
use tf_lint::{Rule, RuleSet};
use tf_session::{Command, Fault, RunFault, Session, Told, journal_text, put_journal, put_text};

/// The calls of a text with its tokens: gaps and tokens make the text, and the comment is where it
/// is.
#[test]
fn no_memory_scanned(rt: HostRuntime) {
    let scanned = given(&rt, scan(rt.alloc(), LINE));
    let all = given(&rt, scan(rt.alloc(), TEXT));
    begin(&rt);
    assert!(rt; is_the_line(&scanned));
    assert!(rt; makes(&scanned, LINE));
    assert!(rt; makes(&all, TEXT));
}

/// The tokens of the line. The comment has its place and its width, and could not be at the line
/// end's place with no line end.
fn is_the_line(scanned: &Scanned<'_>) -> bool {
    if scanned.len() != 5 {
        return false;
    }
    let kinds = [
        scanned.kind(0),
        scanned.kind(1),
        scanned.kind(2),
        scanned.kind(3),
        scanned.kind(4),
    ];
    let right = [
        Kind::Identifier,
        Kind::Equal,
        Kind::Number,
        Kind::LineComment,
        Kind::LineEnd,
    ];
    kinds == right
        && !scanned.is_empty()
        && scanned.last_gap().is_empty()
        && is_the_comment(scanned.item(3))
        && scanned.clusters(3) == 6
        && scanned.joins(0, 2)
        && !scanned.joins(0, 1)
}

fn is_the_comment(item: Item) -> bool {
    item.gap_at == 5 && item.start == 6 && item.stop == 12
}

/// Whether the gaps and tokens are this text, in order.
fn makes(scanned: &Scanned<'_>, text: &[u8]) -> bool {
    let mut left = text;
    for i in 0..scanned.len() {
        for part in [scanned.gap(i), scanned.spelling(i)] {
            match left.strip_prefix(part) {
                Some(rest) => left = rest,
                None => return false,
            }
        }
    }
    left == scanned.last_gap()
}

/// The place of the comment, which is the fourth token of the line: by itself, in order, and after
/// a later one.
#[test]
fn no_memory_places(rt: HostRuntime) {
    let scanned = given(&rt, scan(rt.alloc(), LINE));
    begin(&rt);
    assert!(rt; scanned.len() == 5);
    assert!(rt; are_its_places(&scanned));
}

fn are_its_places(scanned: &Scanned<'_>) -> bool {
    if scanned.len() != 5 {
        return false;
    }
    let right = Place { line: 1, column: 7 };
    let mut places = scanned.places();
    let mut lines = scanned.lines();
    let last = places.of(4);
    scanned.place_of(3) == right
        && places.of(3) == right
        && last
            == (Place {
                line: 1,
                column: 13,
            })
        && lines.of(4) == 1
        && lines.of(3) == 1
}

/// A text that is too long, and one that is not UTF-8.
#[test]
fn no_memory_scan(rt: HostRuntime) {
    let long = given(&rt, vec![in rt.alloc(); b'x'; MAX_TEXT + 1]);
    begin(&rt);
    let too_long = scan(rt.alloc(), &long).err();
    assert!(rt; too_long == Some(ScanFault::TooLong));
    let not_utf8 = scan(rt.alloc(), b"#\xff").err();
    assert!(rt; not_utf8 == Some(ScanFault::NotUtf8 { at: 1 }));
}

#[test]
fn no_memory_rules(rt: HostRuntime) {
    begin(&rt);
    let rule = Rule::DeprecatedIndex;
    let others = RuleSet::all().without(rule);
    let results = [
        rule.name() == "terraform_deprecated_index",
        Rule::by_name("terraform_deprecated_index") == Some(rule),
        Rule::by_name("terraform_required_version").is_none(),
        rule.severity().label() == "Warning",
        !others.has(rule),
        others.has(Rule::CommentSyntax),
        others.with(rule).has(rule),
        !RuleSet::none().has(rule),
    ];
    assert!(rt; results == [true; 8]);
}

fn one_edit(rt: &impl Host) -> Vec<Edit> {
    let edit = given(rt, Edit::new(rt.alloc(), 1, b"b", b"xyz"));
    given(rt, vec![in rt.alloc(); edit])
}

#[test]
fn no_memory_edits(rt: HostRuntime) {
    let edits = one_edit(&rt);
    let past_end = one_edit(&rt);
    begin(&rt);
    let is_refused = Edits::make(1, past_end).is_err();
    let edits = given(&rt, Edits::make(3, edits));
    let lengths = [edits.old_len(), edits.new_len(), edits.edits().len()];
    let record = Record::make(Word::Fmt, edits);
    let results = [
        is_refused,
        lengths == [3, 5, 1],
        record.word() == Word::Fmt,
        record.edits().old_len() == 3,
    ];
    assert!(rt; results == [true; 4]);
}

#[test]
fn no_memory_journal(rt: HostRuntime) {
    let mut journal = journal_of(&rt, JOURNAL);
    begin(&rt);
    let none = Journal::empty(rt.alloc()).records().len();
    let all = journal.records().len();
    let last = journal.pop().expect(&rt, "there is no record");
    let left = journal.records().len();
    assert!(rt; [none, all, left, last.edits().old_len()] == [0, 3, 2, 10]);
}

/// Revert finds no record; the text of an empty journal is empty.
#[test]
fn no_memory_session(rt: HostRuntime) {
    let text = bytes_of(&rt, FIRST);
    begin(&rt);
    let mut session = Session::start(text, Journal::empty(rt.alloc()));
    let reply = session.step(rt.alloc(), Command::Revert);
    let written = given(&rt, journal_text(rt.alloc(), &session));
    let results = [
        reply == Err(Fault::NoRecord),
        session.text() == FIRST,
        session.journal().records().is_empty(),
        written.is_empty(),
    ];
    assert!(rt; results == [true; 4]);
}

#[test]
fn no_memory_put(rt: HostRuntime) {
    let mut text = Told::new(preallocated(&rt));
    let mut journal = Told::new(preallocated(&rt));
    begin(&rt);
    given(&rt, put_text(LAST, &mut text));
    given(&rt, put_journal(JOURNAL, &mut journal));
    assert!(rt; text.into_inner().as_slice() == LAST);
    assert!(rt; journal.into_inner().as_slice() == JOURNAL);
}

/// Keeps the first bytes that it takes, and then fails.
#[derive(Drop)]
struct Full {
    buffer: Vec<u8>,
}

impl Write for Full {
    fn write(&mut self, buf: &[u8]) -> io::Result<usize> {
        if self.buffer.capacity() - self.buffer.len() < buf.len() {
            return Err(Error::from(ErrorKind::WriteZero));
        }
        self.buffer.write(buf)
    }

    fn flush(&mut self) -> io::Result<()> {
        Ok(())
    }
}

#[test]
fn no_memory_read_and_write(rt: HostRuntime) {
    let buffer = given(&rt, Vec::with_capacity(rt.alloc(), 3));
    begin(&rt);
    let mut reader = Told::new(LAST);
    let mut prefix = [0u8; 3];
    let read = given(&rt, reader.read(&mut prefix));
    let mut writer = Told::new(Full { buffer });
    let written = given(&rt, writer.write(&prefix));
    given(&rt, writer.flush());
    let had_failed = writer.failed();
    let is_refused = writer.write(&prefix).is_err();
    let results = [
        read == 3,
        !reader.failed(),
        written == 3,
        !had_failed,
        is_refused,
        writer.failed(),
        writer.into_inner().buffer.as_slice() == b"x =".as_slice(),
    ];
    assert!(rt; results == [true; 7]);
}

/// A journal whose text would be too long to be read.
#[test]
fn no_memory_journal_text(rt: HostRuntime) {
    let mut journal = Journal::empty(rt.alloc());
    let removed = given(&rt, vec![in rt.alloc(); 0u8; MAX_TEXT]);
    let added = given(&rt, vec![in rt.alloc(); 1u8; MAX_TEXT]);
    for _ in 0..8 {
        let edit = given(&rt, Edit::new(rt.alloc(), 0, &removed, &added));
        let edits = given(&rt, vec![in rt.alloc(); edit]);
        let edits = given(&rt, Edits::make(MAX_TEXT, edits));
        given(&rt, journal.push(Record::make(Word::Fix, edits)));
    }
    let session = Session::start(Vec::new(rt.alloc()), journal);
    begin(&rt);
    let answer = journal_text(rt.alloc(), &session).err();
    assert!(rt; answer == Some(RunFault::Endless));
}
