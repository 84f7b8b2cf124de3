//! Each command of a session undone out of order, in a copy of the session.

use crate::corpus::coverage::Coverage;
use crate::corpus::sessions::{is_one_list, reverts_to};
use crate::report::Report;
use crate::state::State;
use edit_record::{Edit, Record};
use tf_session::{Command, Done, Fault, Session};

/// Undoes each command out of order, and two that are not there.
pub fn take_each(session: &Session, first: &[u8], seen: &mut Coverage, report: &mut Report) {
    let state = State::of(session, report);
    for number in 0..=session.journal().records().len().saturating_add(1) {
        take(session, &state, first, number, seen, report);
    }
}

fn take(
    session: &Session,
    state: &State,
    first: &[u8],
    number: usize,
    seen: &mut Coverage,
    report: &mut Report,
) {
    let mut copy = state.session(report);
    let command = Command::Take(u32::try_from(number).unwrap_or(u32::MAX));
    match copy.step(report.alloc, command) {
        Ok(done) => {
            seen.form("a command that is taken out");
            is_taken(session, &copy, number, done, report);
            reverts_to(&copy, first, report);
            is_one_list(&copy, first, report);
        }
        Err(fault) => {
            seen.form_if(is_blocked(fault), "a command that a later one blocks");
            let is_right = is_right(fault, number, session.journal().records().len());
            report.hold(is_right, "a command is not taken out");
            state.hold(&copy, report, "a refused command changes something");
        }
    }
}

fn is_blocked(fault: Fault) -> bool {
    matches!(fault, Fault::Blocked { .. })
}

/// Whether the command of this number, of `count`, can be refused so.
fn is_right(fault: Fault, number: usize, count: usize) -> bool {
    let is_there = number > 0 && number <= count;
    match fault {
        Fault::NoRecord => !is_there,
        Fault::Blocked { number: by } => is_there && by > number && by <= count,
        _ => false,
    }
}

/// Whether all records but that of this number are there, each with what it removed and added,
/// those before it in their places.
fn is_taken(session: &Session, copy: &Session, number: usize, done: Done, report: &mut Report) {
    let differs = copy.text() != session.text();
    report.hold(done.changed == differs, "the answer reports another change");
    let counts = done.fixed > 0 || done.left > 0;
    report.hold(!counts, "a command taken out counts issues");
    let (records, left) = (session.journal().records(), copy.journal().records());
    let is_one_less = left.len().saturating_add(1) == records.len();
    report.hold(is_one_less, "the journal has another length");
    let before = number.saturating_sub(1);
    for (i, record) in left.iter().enumerate() {
        let was = if i < before { i } else { i.saturating_add(1) };
        let is_moved = match records.get(was) {
            Some(was) => is_moved(record, was, i < before),
            None => false,
        };
        report.hold(is_moved, "a record is another one");
    }
}

/// Whether a record does what another did, in the same places where those are to be kept.
fn is_moved(record: &Record, was: &Record, in_place: bool) -> bool {
    let (edits, old) = (record.edits().edits(), was.edits().edits());
    record.word() == was.word()
        && edits.len() == old.len()
        && edits
            .iter()
            .zip(old.iter())
            .all(|(edit, old)| is_same(edit, old, in_place))
}

fn is_same(edit: &Edit, old: &Edit, in_place: bool) -> bool {
    let sides = edit.removed() == old.removed() && edit.added() == old.added();
    sides && (!in_place || edit.at() == old.at())
}
