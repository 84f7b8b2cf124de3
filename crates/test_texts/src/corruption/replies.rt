//! Commands over a text: what each answers and leaves, by why the text is not read.

use crate::corruption::sessions::revert_all;
use crate::report::Report;
use crate::state::{State, start};
use tf_session::{Command, Done, Fault, RuleSet, Session};

/// Does commands over a text, of which it is known why it is not read, and reverts them.
pub fn serves(text: &[u8], refusal: Option<Fault>, report: &mut Report) {
    let mut session = start(text, report);
    has_none(&mut session, report);
    let fix = Command::Fix(RuleSet::all());
    for command in [fix, Command::Fmt, fix, Command::Fmt] {
        serve(&mut session, command, refusal, report);
    }
    let is_reverted = revert_all(&mut session, report);
    report.hold(is_reverted, "a command is not taken back");
    report.hold(session.text() == text, "the reverts lead to another text");
}

/// No command can be reverted or undone out of order if there is none.
fn has_none(session: &mut Session, report: &mut Report) {
    for command in [Command::Revert, Command::Take(0), Command::Take(1)] {
        let answer = session.step(report.alloc, command);
        let is_none = answer == Err(Fault::NoRecord);
        report.hold(is_none, "there is a record in an empty journal");
    }
}

fn serve(session: &mut Session, command: Command, refusal: Option<Fault>, report: &mut Report) {
    let before = State::of(session, report);
    match session.step(report.alloc, command) {
        Ok(done) => {
            report.hold(refusal.is_none(), "a text that is not read is changed");
            is_done(session, &before, command, done, report);
        }
        Err(fault) => {
            report.hold(
                is_refused(command, refusal, fault),
                "another fault is reported",
            );
            before.hold(session, report, "a refused command changes something");
        }
    }
}

/// Whether a command is refused so: as the text is, and a fix also where what it makes does not
/// parse.
fn is_refused(command: Command, refusal: Option<Fault>, fault: Fault) -> bool {
    match refusal {
        Some(refusal) => fault == refusal,
        None => command != Command::Fmt && matches!(fault, Fault::FixBroken { .. }),
    }
}

/// Whether the answer says whether the text changed, and the journal is longer exactly then.
fn is_done(session: &Session, before: &State, command: Command, done: Done, report: &mut Report) {
    let after = State::of(session, report);
    let differs = after.text.as_slice() != before.text.as_slice();
    report.hold(done.changed == differs, "the answer reports another change");
    let is_longer = after.journal.len() > before.journal.len();
    let is_prefix = after.journal.starts_with(&before.journal);
    report.hold(
        is_prefix && is_longer == differs,
        "the journal goes on otherwise",
    );
    let counts = done.fixed > 0 || done.left > 0;
    report.hold(command != Command::Fmt || !counts, "a fmt counts issues");
}
