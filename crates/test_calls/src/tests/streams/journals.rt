//! Journals over the limit of their text, and those with no record.

ghost use Rattle.std.specs.Prelude.{Some};

use super::{Hashes, ShortWrites};
use crate::tests::{Host, given};
use edit_record::{Edit, Edits, Record, Word};
use std::alloc::Global;
use tf_session::{Journal, RunFault, Session, SessionPart, Told, load, revert_stream, save};

#[test]
fn a_journal_that_does_not_end_is_reported(rt: HostRuntime) {
    let mut journal = Told::new(Hashes::new(1 << 40, 65_536));
    let answer = load(
        rt.alloc(),
        &mut Told::new(b"a = 1\n".as_slice()),
        &mut journal,
    );
    assert!(rt; answer.err() == Some(RunFault::Endless));
    assert_eq!(rt; journal.into_inner().left, (1 << 40) - 268_435_457);
}

/// A record that removes a text as long as a text may be.
fn long_record(rt: &impl Host, alloc: Global) -> Record {
    let len = 16_777_216;
    let mut removed = given(rt, Vec::with_capacity(alloc, len));
    for _ in 0..len {
        given(rt, removed.push(b'#'));
    }
    let edit = given(rt, Edit::new(alloc, 0, &removed, b""));
    let edits = given(rt, vec![in alloc; edit]);
    Record::make(Word::Fix, given(rt, Edits::make(len, edits)))
}

#[test]
fn a_journal_over_the_limit_is_not_saved(rt: HostRuntime) {
    let alloc = rt.alloc();
    let mut journal = Journal::empty(alloc);
    for _ in 0..16 {
        given(&rt, journal.push(long_record(&rt, alloc)));
    }
    let session = Session::start(Vec::new(alloc), journal);
    let mut journal_out = Told::new(ShortWrites::new(Vec::new(alloc), 1000, 5));
    let mut text_out = Told::new(ShortWrites::new(Vec::new(alloc), 1000, 5));
    let answer = save(alloc, &session, &mut journal_out, &mut text_out);
    assert!(rt; answer == Err(RunFault::Endless));
    assert_eq!(rt; journal_out.into_inner().writes, 0);
    assert_eq!(rt; text_out.into_inner().writes, 0);
}

/// Nothing is written of a journal with no record, but its writer is flushed.
#[test]
fn an_empty_journal_is_flushed(rt: HostRuntime) {
    let alloc = rt.alloc();
    let text = given(&rt, Vec::from_slice(alloc, b"a = 1\n"));
    let session = Session::start(text, Journal::empty(alloc));
    let mut journal_out = Told::new(ShortWrites::new(Vec::new(alloc), 1000, 5));
    let mut text_out = Told::new(ShortWrites::new(Vec::new(alloc), 1000, 5));
    given(&rt, save(alloc, &session, &mut journal_out, &mut text_out));
    let journal = journal_out.into_inner();
    assert_eq!(rt; journal.writes, 0);
    assert_eq!(rt; journal.flushes, 1);
    let text = text_out.into_inner();
    assert!(rt; text.written.as_slice() == b"a = 1\n".as_slice());
    assert_eq!(rt; text.flushes, 1);
}

/// A revert of the only record leaves such a journal. Where its flush fails, nothing is written of
/// the text.
#[test]
fn a_failed_flush_of_an_empty_journal_is_reported(rt: HostRuntime) {
    let alloc = rt.alloc();
    let mut writer = ShortWrites::new(Vec::new(alloc), 1000, 5);
    writer.flush_fails_at = 1;
    let mut journal_out = Told::new(writer);
    let mut text_out = Told::new(ShortWrites::new(Vec::new(alloc), 1000, 5));
    let answer = revert_stream(
        alloc,
        &mut Told::new(b"x = 1\n".as_slice()),
        &mut Told::new(b"tfrec 2 fmt 4 2\n1 0 1\n \n2 0 1\n \nend\n".as_slice()),
        &mut journal_out,
        &mut text_out,
    );
    let part = SessionPart::Journal;
    assert!(rt; answer == Err(RunFault::Write { part, sent: 0 }));
    assert_eq!(rt; journal_out.into_inner().writes, 0);
    let text = text_out.into_inner();
    assert_eq!(rt; text.writes, 0);
    assert_eq!(rt; text.flushes, 0);
}
