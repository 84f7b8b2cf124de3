//! Texts and journals from readers, and to writers.

use super::{FIXED, FORMATTED, Host, ISSUES, UNFORMATTED, given};
use tf_lint::RuleSet;
use tf_session::{
    Command, Done, RecordFault, RunFault, Told, check_stream, fix_stream, fmt_stream, lint_stream,
    load, put_journal, put_text, revert_stream, save, take_text,
};

/// The journal of a fix of `ISSUES`.
const FIX_JOURNAL: &[u8] = b"tfrec 2 fix 21 3\n4 3 0\n\"${\n12 2 0\n}\"\n16 2 1\n//#\nend\n";

/// The journal of a fmt of `UNFORMATTED`.
const FMT_JOURNAL: &[u8] = b"tfrec 2 fmt 10 4\n1 0 3\n   \n2 0 1\n \n7 0 1\n \n8 0 1\n \nend\n";

/// A text, and the text of its journal.
type Texts = (&'static [u8], &'static [u8]);

/// Looks whether a command makes these texts of the others, between readers and writers.
fn streams(rt: &impl Host, command: Command, old: Texts, new: Texts) {
    let mut text_out = Vec::new(rt.alloc());
    let mut journal_out = Vec::new(rt.alloc());
    let answer = streamed(rt, command, old, &mut journal_out, &mut text_out);
    assert!(rt; given(rt, answer).changed);
    assert!(rt; text_out.as_slice() == new.0);
    assert!(rt; journal_out.as_slice() == new.1);
}

fn streamed(
    rt: &impl Host,
    command: Command,
    old: Texts,
    journal_out: &mut Vec<u8>,
    text_out: &mut Vec<u8>,
) -> Result<Done, RunFault> {
    let alloc = rt.alloc();
    let mut text = Told::new(old.0);
    let mut journal = Told::new(old.1);
    let mut journal_out = Told::new(journal_out);
    let mut out = Told::new(text_out);
    match command {
        Command::Fmt => fmt_stream(alloc, &mut text, &mut journal, &mut journal_out, &mut out),
        Command::Fix(rules) => fix_stream(
            alloc,
            &mut text,
            &mut journal,
            &mut journal_out,
            &mut out,
            rules,
        ),
        Command::Revert => {
            revert_stream(alloc, &mut text, &mut journal, &mut journal_out, &mut out)
        }
        Command::Take(_) => panic!(rt; "no stream removes a record"),
    }
}

#[test]
fn fmt_streams(rt: HostRuntime) {
    let old = (UNFORMATTED, b"".as_slice());
    streams(&rt, Command::Fmt, old, (FORMATTED, FMT_JOURNAL));
}

#[test]
fn fix_streams(rt: HostRuntime) {
    let command = Command::Fix(RuleSet::all());
    let old = (ISSUES, b"".as_slice());
    streams(&rt, command, old, (FIXED, FIX_JOURNAL));
}

#[test]
fn revert_streams(rt: HostRuntime) {
    let new = (ISSUES, b"".as_slice());
    streams(&rt, Command::Revert, (FIXED, FIX_JOURNAL), new);
}

#[test]
fn checks(rt: HostRuntime) {
    let is_formatted = given(&rt, check_stream(rt.alloc(), &mut Told::new(UNFORMATTED)));
    assert!(rt; !is_formatted);
}

#[test]
fn lints(rt: HostRuntime) {
    let mut lines = Told::new(Vec::new(rt.alloc()));
    let answer = lint_stream(
        rt.alloc(),
        "main.tf",
        &mut Told::new(ISSUES),
        &mut lines,
        RuleSet::all(),
    );
    assert!(rt; given(&rt, answer) == 2);
}

#[test]
fn taken_texts(rt: HostRuntime) {
    let mut text = Told::new(FIXED);
    let taken = given(&rt, take_text(rt.alloc(), &mut text));
    assert!(rt; !text.failed());
    assert!(rt; taken.as_slice() == FIXED);
}

#[test]
fn put_texts(rt: HostRuntime) {
    let mut text_out = Told::new(Vec::new(rt.alloc()));
    let mut journal_out = Told::new(Vec::new(rt.alloc()));
    given(&rt, put_journal(FIX_JOURNAL, &mut journal_out));
    given(&rt, put_text(FIXED, &mut text_out));
    assert!(rt; text_out.into_inner().as_slice() == FIXED);
    assert!(rt; journal_out.into_inner().as_slice() == FIX_JOURNAL);
}

#[test]
fn saves(rt: HostRuntime) {
    let mut journal = Told::new(FIX_JOURNAL);
    let session = given(&rt, load(rt.alloc(), &mut Told::new(FIXED), &mut journal));
    let mut journal_out = Told::new(Vec::new(rt.alloc()));
    let mut text_out = Told::new(Vec::new(rt.alloc()));
    given(
        &rt,
        save(rt.alloc(), &session, &mut journal_out, &mut text_out),
    );
    assert!(rt; text_out.into_inner().as_slice() == FIXED);
    assert!(rt; journal_out.into_inner().as_slice() == FIX_JOURNAL);
}

#[test]
fn no_journal(rt: HostRuntime) {
    let mut journal = Told::new(b"x".as_slice());
    let fault = load(rt.alloc(), &mut Told::new(FIXED), &mut journal).err();
    assert!(rt; fault == Some(RunFault::BadJournal(RecordFault::BadHead { at: 0 })));
}
