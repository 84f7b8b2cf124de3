//! One command with what always holds of it, and what holds of all that a session did.

use crate::report::Report;
use crate::state::State;
use edit_record::{Change, Edits, Record, Refused, Unmet, squash};
use std::alloc::Global;
use tf_session::{Command, Done, Fault, Session};

/// Does a command, which adds a record where the text changes, and none where not.
pub fn step(session: &mut Session, command: Command, report: &mut Report) -> Done {
    let text = report.copy(session.text());
    let count = session.journal().records().len();
    match session.step(report.alloc, command) {
        Ok(done) => {
            let differs = session.text() != text.as_slice();
            report.hold(done.changed == differs, "the answer reports another change");
            let records = count.saturating_add(usize::from(differs));
            let is_longer = session.journal().records().len() == records;
            report.hold(is_longer, "the journal has another length");
            done
        }
        Err(_) => {
            report.hold(false, "a command is refused");
            Done {
                changed: false,
                fixed: 0,
                left: 0,
            }
        }
    }
}

/// Whether as many reverts as there are records lead to this text, and one more is refused.
pub fn reverts_to(session: &Session, first: &[u8], report: &mut Report) {
    let mut copy = State::of(session, report).session(report);
    for _ in 0..session.journal().records().len() {
        let is_done = copy.step(report.alloc, Command::Revert).is_ok();
        report.hold(is_done, "a revert is refused");
    }
    let is_first = copy.text() == first;
    report.hold(is_first, "the reverts lead to another text");
    let more = copy.step(report.alloc, Command::Revert);
    report.hold(more == Err(Fault::NoRecord), "there is a record too many");
}

/// Whether the edits of all records, squashed from the first on, go between this text and that of
/// the session.
pub fn is_one_list(session: &Session, first: &[u8], report: &mut Report) {
    let can_revert = match Edits::make(first.len(), Vec::new(report.alloc)) {
        Ok(none) => match squashed(report.alloc, none, session.journal().records()) {
            Ok(all) => leads_between(&all, first, session.text(), report.alloc),
            Err(_) => false,
        },
        Err(_) => false,
    };
    report.hold(
        can_revert,
        "the squashed edits do not go between the two texts",
    );
}

fn squashed(alloc: Global, first: Edits, records: &[Record]) -> Result<Edits, Unmet> {
    let mut all = first;
    for record in records {
        all = squash(alloc, &all, record.edits())?;
    }
    Ok(all)
}

fn leads_between(edits: &Edits, first: &[u8], last: &[u8], alloc: Global) -> bool {
    is(edits.apply(alloc, first), last) && is(edits.undo(alloc, last), first)
}

fn is(answer: Result<Vec<u8>, Refused>, text: &[u8]) -> bool {
    match answer {
        Ok(made) => made.as_slice() == text,
        Err(_) => false,
    }
}
