//! Calls on sessions.

use super::equality::are_same_sessions;
use super::fixtures::{
    APART, APART_JOURNAL, JOURNAL, LAST, LEFT, LEFT_JOURNAL, LINE, TEXT, bytes_of, changed,
    fix_all, session_of,
};
use super::{answered, begin, wanted};
use crate::tests::{Host, given};
use std::alloc::AllocError;
use tf_session::{Command, Done, Effect, Fault, Reply, RuleSet, RunFault, SavedTexts, Session};

/// The session over this text and journal after a command, and what that did. If it runs out of
/// memory it does nothing.
fn stepped(rt: &impl Host, text: &[u8], journal: &[u8], command: Command) -> (Session, Done) {
    let before = session_of(rt, text, journal);
    let mut session = session_of(rt, text, journal);
    begin(rt);
    let answer = session.step(rt.alloc(), command);
    let is_as_before = are_same_sessions(&session, &before);
    let done = answered(rt, answer, Fault::Memory, is_as_before);
    (session, done)
}

/// A command answers and does what it did when nothing was refused.
fn step(rt: &impl Host, text: &[u8], journal: &[u8], command: Command) {
    let (right, right_done) = changed(rt, text, journal, command);
    let (session, done) = stepped(rt, text, journal, command);
    assert!(rt; done == right_done);
    assert!(rt; are_same_sessions(&session, &right));
}

#[test]
fn step_fmt(rt: HostRuntime) {
    step(&rt, TEXT, b"", Command::Fmt);
}

#[test]
fn step_fix(rt: HostRuntime) {
    step(&rt, TEXT, b"", fix_all());
}

/// No session is made, and it answers what one with no journal would have.
#[test]
fn fixed_text(rt: HostRuntime) {
    let (right, right_done) = changed(&rt, TEXT, b"", fix_all());
    let text = bytes_of(&rt, TEXT);
    begin(&rt);
    let answer = tf_session::fix_without_session(rt.alloc(), text, RuleSet::all());
    let (text, done, left) = answered(&rt, answer, Fault::Memory, true);
    assert!(rt; text.as_slice() == right.text());
    assert!(rt; done == right_done);
    assert!(rt; left.len() == done.left);
}

#[test]
fn step_revert(rt: HostRuntime) {
    step(&rt, LAST, JOURNAL, Command::Revert);
}

/// A record below others is removed: their edits change places with its own.
#[test]
fn step_take(rt: HostRuntime) {
    let right = session_of(&rt, LEFT, LEFT_JOURNAL);
    let (session, done) = stepped(&rt, APART, APART_JOURNAL, Command::Take(1));
    assert!(rt; done.changed);
    assert!(rt; are_same_sessions(&session, &right));
}

/// The removal of a record is only tried.
#[test]
fn take_refusal(rt: HostRuntime) {
    let before = session_of(&rt, APART, APART_JOURNAL);
    let session = session_of(&rt, APART, APART_JOURNAL);
    begin(&rt);
    let answer = session.take_refusal(rt.alloc(), 1);
    let is_as_before = are_same_sessions(&session, &before);
    assert!(rt; answered(&rt, answer, AllocError, is_as_before).is_none());
}

/// What a command does to a file, by its bytes and those of its journal.
fn invoked(rt: &impl Host, text: &[u8], journal: &[u8], command: Command) -> Effect {
    let mut text = bytes_of(rt, text);
    let journal = bytes_of(rt, journal);
    begin(rt);
    let answer = tf_session::invoke(rt.alloc(), &mut text, journal, command, "a.tf");
    answered(rt, answer, RunFault::Memory, true)
}

/// Whether these are the texts that are to be saved.
fn are_saved(saved: &Option<SavedTexts>, text: &[u8], journal: &[u8]) -> bool {
    match saved {
        Some(saved) => saved.text.as_slice() == text && saved.journal.as_slice() == journal,
        None => false,
    }
}

#[test]
fn invoke_fix(rt: HostRuntime) {
    let (right, right_done) = changed(&rt, TEXT, b"", fix_all());
    let journal = given(&rt, tf_session::journal_text(rt.alloc(), &right));
    let effect = invoked(&rt, TEXT, b"", fix_all());
    assert!(rt; effect.done == right_done);
    assert!(rt; are_saved(&effect.saved, right.text(), &journal));
}

#[test]
fn invoke_fmt(rt: HostRuntime) {
    let effect = invoked(&rt, b"x=1\n", b"", Command::Fmt);
    let journal = b"tfrec 2 fmt 4 2\n1 0 1\n \n2 0 1\n \nend\n";
    assert!(rt; are_saved(&effect.saved, b"x = 1\n", journal));
    assert!(rt; effect.lines.as_slice() == b"a.tf\n".as_slice());
}

/// What `run` is given.
fn commands() -> [Command; 4] {
    [fix_all(), Command::Revert, Command::Fmt, fix_all()]
}

/// How many lists come of that by leaving commands out. The number of such a list has a binary
/// digit for each command, the lowest for the first: 1 where it is in.
const LISTS: usize = 16;

/// A session, and the replies to the commands that made it.
type Ran = (Session, Vec<Reply>);

/// What a run of one of those lists answers.
fn ran(rt: &impl Host, list: usize) -> Ran {
    let mut chosen = Vec::new(rt.alloc());
    let mut left = list;
    for command in commands() {
        if left % 2 == 1 {
            given(rt, chosen.push(command));
        }
        left /= 2;
    }
    given(
        rt,
        tf_session::run(rt.alloc(), bytes_of(rt, LINE), chosen.as_slice()),
    )
}

/// The number of the list of the commands that did not run out of memory.
fn served(replies: &[Reply]) -> usize {
    let mut list = 0usize;
    for reply in replies.iter().rev() {
        list = list.wrapping_mul(2);
        if *reply != Err(Fault::Memory) {
            list = list.wrapping_add(1);
        }
    }
    list
}

/// Whether the replies that are not of memory are these.
fn are_given(replies: &[Reply], right: &[Reply]) -> bool {
    replies
        .iter()
        .filter(|reply| **reply != Err(Fault::Memory))
        .eq(right.iter())
}

/// A command that runs out of memory says so, and text, journal and all other replies are as if it
/// were not in the list.
#[test]
fn run(rt: HostRuntime) {
    let mut lists = Vec::new(rt.alloc());
    for list in 0..LISTS {
        given(&rt, lists.push(ran(&rt, list)));
    }
    let text = bytes_of(&rt, LINE);
    begin(&rt);
    let answer = tf_session::run(rt.alloc(), text, commands().as_slice());
    let (session, replies) = answered(&rt, answer, AllocError, true);
    let list = served(&replies);
    let (right, right_replies) = lists.get(list).expect(&rt, "there are too many replies");
    let is_right = replies.len() == commands().len()
        && are_given(&replies, right_replies)
        && are_same_sessions(&session, right);
    if list != LISTS - 1 {
        wanted(&rt, is_right);
    }
    assert!(rt; is_right);
}
