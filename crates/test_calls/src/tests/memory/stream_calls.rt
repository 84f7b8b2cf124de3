//! Calls over readers and writers. Where memory runs out they have written nothing.

ghost use Rattle.std.specs.Prelude.{◌≡◌, false};
ghost use Rattle.tf_stream.specs.Told.{has_failed};

use super::fixtures::{JOURNAL, LAST, TEXT, changed, fix_all, preallocated, session_of};
use super::{answered, begin, gave};
use crate::tests::{Host, given};
use tf_session::{Command, Done, Remaining, RuleSet, RunFault, Told};

/// A text of several reads, for which the memory grows more than once.
#[test]
fn take_text(rt: HostRuntime) {
    let long = given(&rt, vec![in rt.alloc(); b'x'; 300_000]);
    begin(&rt);
    let answer = tf_session::take_text(rt.alloc(), &mut Told::new(long.as_slice()));
    gave(&rt, answer, RunFault::Memory, long.as_slice());
}

#[test]
fn step_stream(rt: HostRuntime) {
    let (right, _) = changed(&rt, TEXT, b"", Command::Fmt);
    let mut out = Told::new(preallocated(&rt));
    begin(&rt);
    let answer = tf_session::step_text_stream(
        rt.alloc(),
        Command::Fmt,
        &mut Told::new(TEXT),
        &mut out,
    );
    let out = out.into_inner();
    let (session, _) = answered(&rt, answer, RunFault::Memory, out.is_empty());
    assert!(rt; session.text() == right.text());
    assert!(rt; out.as_slice() == right.text());
}

#[test]
fn format_stream(rt: HostRuntime) {
    let (right, _) = changed(&rt, TEXT, b"", Command::Fmt);
    let mut out = Told::new(preallocated(&rt));
    begin(&rt);
    let answer = tf_session::format_text_stream(rt.alloc(), &mut Told::new(TEXT), &mut out);
    let out = out.into_inner();
    answered(&rt, answer, RunFault::Memory, out.is_empty());
    assert!(rt; out.as_slice() == right.text());
}

/// A fix with no session, from a reader to a writer.
#[test]
fn fix_to_writer(rt: HostRuntime) {
    let (right, right_done) = changed(&rt, TEXT, b"", fix_all());
    let mut out = Told::new(preallocated(&rt));
    begin(&rt);
    let answer = fixed(&rt, &mut out);
    let out = out.into_inner();
    let (text, done, left) = answered(&rt, answer, RunFault::Memory, out.is_empty());
    assert!(rt; text.as_slice() == right.text());
    assert!(rt; out.as_slice() == right.text());
    assert!(rt; done == right_done);
    assert!(rt; left.len() == done.left);
}

/// A fixed text, what the fix did, and what it left.
type Fixed = (Vec<u8>, Done, Remaining);

fn fixed(rt: &impl Host, out: &mut Told<Vec<u8>>) -> Result<Fixed, RunFault>
    requires { has_failed out.old ≡ false }
{
    let bytes = tf_session::take_text(rt.alloc(), &mut Told::new(TEXT))?;
    let fixed = tf_session::fix_without_session(rt.alloc(), bytes, RuleSet::all())?;
    tf_session::put_text(&fixed.0, out)?;
    Ok(fixed)
}

/// The lines of the issues that a fix leaves, to a writer.
#[test]
fn remaining_lines_to_writer(rt: HostRuntime) {
    let mut session = session_of(&rt, TEXT, b"");
    let (_, left) = given(&rt, session.fix(rt.alloc(), RuleSet::all()));
    let right = given(&rt, left.lines(rt.alloc(), "main.tf", session.text()));
    let mut session = session_of(&rt, TEXT, b"");
    let (_, left) = given(&rt, session.fix(rt.alloc(), RuleSet::all()));
    let mut out = Told::new(preallocated(&rt));
    begin(&rt);
    let answer = match left.lines(rt.alloc(), "main.tf", session.text()) {
        Ok(lines) => tf_session::put_text(lines.as_bytes(), &mut out),
        Err(_) => Err(RunFault::Memory),
    };
    let out = out.into_inner();
    answered(&rt, answer, RunFault::Memory, out.is_empty());
    assert!(rt; out.as_slice() == right.as_bytes());
}

#[test]
fn check_stream(rt: HostRuntime) {
    begin(&rt);
    let answer = tf_session::check_stream(rt.alloc(), &mut Told::new(TEXT));
    assert!(rt; !answered(&rt, answer, RunFault::Memory, true));
}

#[test]
fn lint_stream(rt: HostRuntime) {
    let out = preallocated(&rt);
    let (answer, right) = linted(&rt, preallocated(&rt));
    let count = given(&rt, answer);
    begin(&rt);
    let (answer, out) = linted(&rt, out);
    let found = answered(&rt, answer, RunFault::Memory, out.is_empty());
    assert!(rt; found == count);
    assert!(rt; out.as_slice() == right.as_slice());
}

fn linted(rt: &impl Host, out: Vec<u8>) -> (Result<usize, RunFault>, Vec<u8>) {
    let mut out = Told::new(out);
    let answer = tf_session::lint_stream(
        rt.alloc(),
        "main.tf",
        &mut Told::new(TEXT),
        &mut out,
        RuleSet::all(),
    );
    (answer, out.into_inner())
}

/// A command between a text and its journal, and two writers.
fn through(rt: &impl Host, text: &[u8], journal: &[u8], command: Command) {
    let (right, right_done) = changed(rt, text, journal, command);
    let right_journal = given(rt, tf_session::journal_text(rt.alloc(), &right));
    let mut journal_out = preallocated(rt);
    let mut out = preallocated(rt);
    begin(rt);
    let answer = streamed(rt, text, journal, command, &mut journal_out, &mut out);
    let is_unwritten = journal_out.is_empty() && out.is_empty();
    let done = answered(rt, answer, RunFault::Memory, is_unwritten);
    assert!(rt; done == right_done);
    assert!(rt; out.as_slice() == right.text());
    assert!(rt; journal_out.as_slice() == right_journal.as_slice());
}

fn streamed(
    rt: &impl Host,
    text: &[u8],
    journal: &[u8],
    command: Command,
    journal_out: &mut Vec<u8>,
    out: &mut Vec<u8>,
) -> Result<Done, RunFault> {
    let alloc = rt.alloc();
    let mut text = Told::new(text);
    let mut journal = Told::new(journal);
    let mut journal_out = Told::new(journal_out);
    let mut out = Told::new(out);
    match command {
        Command::Fmt => {
            tf_session::fmt_stream(alloc, &mut text, &mut journal, &mut journal_out, &mut out)
        }
        Command::Fix(rules) => tf_session::fix_stream(
            alloc,
            &mut text,
            &mut journal,
            &mut journal_out,
            &mut out,
            rules,
        ),
        Command::Revert => {
            tf_session::revert_stream(alloc, &mut text, &mut journal, &mut journal_out, &mut out)
        }
        Command::Take(_) => panic!(rt; "no stream takes a record out"),
    }
}

#[test]
fn fmt_stream(rt: HostRuntime) {
    through(&rt, TEXT, JOURNAL, Command::Fmt);
}

#[test]
fn fix_stream(rt: HostRuntime) {
    through(&rt, TEXT, JOURNAL, fix_all());
}

#[test]
fn revert_stream(rt: HostRuntime) {
    through(&rt, LAST, JOURNAL, Command::Revert);
}
