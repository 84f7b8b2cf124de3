//! Sessions, and runs of commands.

use super::{FORMATTED, ISSUES, UNFORMATTED, bytes_of, given};
use edit_record::Journal;
use tf_lint::RuleSet;
use tf_session::{Command, Done, Fault, Reply, Session, journal_text, run};

#[test]
fn formats(rt: HostRuntime) {
    let mut session = Session::start(bytes_of(&rt, UNFORMATTED), Journal::empty(rt.alloc()));
    let done = given(&rt, session.step(rt.alloc(), Command::Fmt));
    let text = given(&rt, journal_text(rt.alloc(), &session));
    assert!(rt; done.changed);
    assert!(rt; session.text() == FORMATTED);
    assert!(rt; session.journal().records().len() == 1);
    let right = b"tfrec 2 fmt 10 4\n1 0 3\n   \n2 0 1\n \n7 0 1\n \n8 0 1\n \nend\n".as_slice();
    assert!(rt; text.as_slice() == right);
}

#[test]
fn fixes(rt: HostRuntime) {
    let mut session = Session::start(bytes_of(&rt, ISSUES), Journal::empty(rt.alloc()));
    let done = given(&rt, session.step(rt.alloc(), Command::Fix(RuleSet::all())));
    let right = Done {
        changed: true,
        fixed: 2,
        left: 0,
    };
    assert!(rt; done == right);
}

#[test]
fn refusals(rt: HostRuntime) {
    let mut session = Session::start(bytes_of(&rt, UNFORMATTED), Journal::empty(rt.alloc()));
    let fault = session.step(rt.alloc(), Command::Revert).err();
    assert!(rt; fault == Some(Fault::NoRecord));
    let refusal = given(&rt, session.take_refusal(rt.alloc(), 1));
    assert!(rt; refusal == Some(Fault::NoRecord));
}

/// The first of two commands is undone, and then the other.
#[test]
fn runs(rt: HostRuntime) {
    let commands = [
        Command::Fix(RuleSet::all()),
        Command::Fmt,
        Command::Take(1),
        Command::Revert,
    ];
    let text = bytes_of(&rt, b"a=1 // x\n");
    let (session, replies) = given(&rt, run(rt.alloc(), text, commands.as_slice()));
    assert!(rt; are_done(&replies));
    assert!(rt; session.text() == b"a=1 // x\n".as_slice());
}

/// Whether there are four replies, and each is of a command that changed the text.
fn are_done(replies: &[Reply]) -> bool {
    for reply in replies {
        match reply {
            Ok(done) if done.changed => {}
            _ => return false,
        }
    }
    replies.len() == 4
}
