//! Calls on the text of a journal, and on a text with it.

use super::equality::{are_same_records, are_same_sessions};
use super::fixtures::{
    JOURNAL, LAST, MIGRATED, OLD_JOURNAL, bytes_of, continued_journal, journal_of, preallocated,
    session_of,
};
use super::{answered, begin, gave};
use crate::tests::Host;
use edit_record::RecordFault;
use std::alloc::AllocError;
use tf_session::{RunFault, Session, Told};

#[test]
fn encode(rt: HostRuntime) {
    let journal = journal_of(&rt, JOURNAL);
    begin(&rt);
    let answer = edit_record::encode(rt.alloc(), &journal);
    gave(&rt, answer, AllocError, JOURNAL);
}

/// The record that was pushed is written after the text that the journal keeps.
#[test]
fn encode_owned(rt: HostRuntime) {
    let journal = continued_journal(&rt);
    let len = edit_record::encoded_len(&journal);
    begin(&rt);
    let answer = edit_record::encode_owned(journal, len);
    gave(&rt, answer, AllocError, JOURNAL);
}

/// Reads a journal that is written as `right`.
fn decoded(rt: &impl Host, text: &[u8], right: &[u8]) {
    let right = journal_of(rt, right);
    begin(rt);
    let answer = edit_record::decode(rt.alloc(), text);
    let journal = answered(rt, answer, RecordFault::Memory, true);
    assert!(rt; are_same_records(journal.records(), right.records()));
}

#[test]
fn decode(rt: HostRuntime) {
    decoded(&rt, JOURNAL, JOURNAL);
}

/// The steps of the old records are squashed.
#[test]
fn decode_version_1(rt: HostRuntime) {
    decoded(&rt, OLD_JOURNAL, MIGRATED);
}

#[test]
fn journal_text(rt: HostRuntime) {
    let session = session_of(&rt, LAST, JOURNAL);
    begin(&rt);
    let answer = tf_session::journal_text(rt.alloc(), &session);
    gave(&rt, answer, RunFault::Memory, JOURNAL);
}

/// Text and journal of a session that ends.
#[test]
fn saved_texts(rt: HostRuntime) {
    let session = Session::start(bytes_of(&rt, LAST), continued_journal(&rt));
    begin(&rt);
    let answer = tf_session::saved_texts(session);
    let saved = answered(&rt, answer, RunFault::Memory, true);
    assert!(rt; saved.text.as_slice() == LAST);
    assert!(rt; saved.journal.as_slice() == JOURNAL);
}

/// Loads a text, and a journal that is written as `right`.
fn loaded(rt: &impl Host, journal: &[u8], right: &[u8]) {
    let right = session_of(rt, LAST, right);
    begin(rt);
    let answer = tf_session::load(rt.alloc(), &mut Told::new(LAST), &mut Told::new(journal));
    let session = answered(rt, answer, RunFault::Memory, true);
    assert!(rt; are_same_sessions(&session, &right));
}

#[test]
fn load(rt: HostRuntime) {
    loaded(&rt, JOURNAL, JOURNAL);
}

#[test]
fn load_version_1(rt: HostRuntime) {
    loaded(&rt, OLD_JOURNAL, MIGRATED);
}

/// If an allocation fails nothing is written.
#[test]
fn save(rt: HostRuntime) {
    let session = session_of(&rt, LAST, JOURNAL);
    let mut journal = Told::new(preallocated(&rt));
    let mut text = Told::new(preallocated(&rt));
    begin(&rt);
    let answer = tf_session::save(rt.alloc(), &session, &mut journal, &mut text);
    let (journal, text) = (journal.into_inner(), text.into_inner());
    answered(
        &rt,
        answer,
        RunFault::Memory,
        journal.is_empty() && text.is_empty(),
    );
    assert!(rt; journal.as_slice() == JOURNAL);
    assert!(rt; text.as_slice() == LAST);
}
