//! What is done over a session.

use crate::report::Report;
use crate::state::{State, start};
use tf_session::{Command, Fault, Rule, RuleSet, Session};

/// What a text and its journal become by commands that change it, one for each kind of change.
pub fn worked(text: &[u8], report: &mut Report) -> State {
    let mut session = start(text, report);
    let commands = [
        Command::Fix(RuleSet::none().with(Rule::CommentSyntax)),
        Command::Fmt,
        Command::Fix(RuleSet::all()),
        Command::Fmt,
    ];
    for command in commands {
        let is_done = session.step(report.alloc, command).is_ok();
        report.hold(is_done, "a command is refused");
    }
    let is_long = session.journal().records().len() > 2;
    report.hold(is_long, "its journal is too short");
    State::of(&session, report)
}

/// Reverts commands as long as there are some, and returns whether all could be; one whose record
/// does not match changes nothing.
pub fn revert_all(session: &mut Session, report: &mut Report) -> bool {
    for _ in 0..session.journal().records().len() {
        let before = State::of(session, report);
        match session.step(report.alloc, Command::Revert) {
            Ok(done) => is_shorter(session, &before, done.changed, report),
            Err(fault) => {
                let is_refused = matches!(fault, Fault::Refused(_));
                report.hold(is_refused, "a revert is refused otherwise");
                before.hold(session, report, "a refused revert changes something");
                return false;
            }
        }
    }
    let more = session.step(report.alloc, Command::Revert);
    report.hold(more == Err(Fault::NoRecord), "a revert of nothing");
    true
}

/// Whether the journal is a prefix of what it was, and the answer says whether the text is another
/// one.
fn is_shorter(session: &Session, before: &State, changed: bool, report: &mut Report) {
    let after = State::of(session, report);
    let is_prefix = before.journal.starts_with(&after.journal);
    let is_shorter = is_prefix && after.journal.len() < before.journal.len();
    report.hold(is_shorter, "a revert leaves another journal");
    let differs = after.text.as_slice() != before.text.as_slice();
    report.hold(changed == differs, "a revert reports another change");
}
