//! Journals, damaged or not, beside the text that they belong to.

use crate::corruption::mutations;
use crate::corruption::one_command::{can_stay, outside};
use crate::corruption::sessions::revert_all;
use crate::corruption::streams::{After, Drops};
use crate::report::Report;
use crate::state::State;
use tf_session::{Command, RecordFault, RunFault, Session, Told, load};

/// Tries the journal in all its damaged forms.
pub fn hold(state: &State, report: &mut Report) {
    let ends = ends(state, report);
    for number in 0..mutations::count(state.journal.len()) {
        try_one(state, &ends, number, report);
    }
}

/// The lengths of the journal's prefixes that are journals.
fn ends(state: &State, report: &mut Report) -> Vec<usize> {
    let mut session = state.session(report);
    let mut ends = Vec::new(report.alloc);
    for _ in 0..=session.journal().records().len() {
        let is_put = ends.push(State::of(&session, report).journal.len()).is_ok();
        report.hold(is_put, "memory is wanting");
        let _ = session.step(report.alloc, Command::Revert);
    }
    ends
}

fn try_one(state: &State, ends: &[usize], number: usize, report: &mut Report) {
    let journal = mutations::of(&state.journal, number, report);
    let prefix = mutations::prefix(state.journal.len(), number);
    let mut text_in = Told::new(Drops::new(&state.text, After::Nothing));
    let mut journal_in = Told::new(Drops::new(&journal, After::Nothing));
    match load(report.alloc, &mut text_in, &mut journal_in) {
        Ok(session) => {
            let is_end = prefix.is_none_or(|len| ends.contains(&len));
            report.hold(is_end, "a part of a record is read");
            is_read(&session, state, &journal, report);
        }
        Err(RunFault::BadJournal(fault)) => {
            let is_reported = is_reported(fault, prefix, &journal);
            report.hold(is_reported, "another fault of a journal is reported");
            is_refused(state, &journal, fault, report);
        }
        Err(_) => report.hold(false, "a damaged journal is refused otherwise"),
    }
}

/// Whether that journal can have this error; a prefix only that it is cut short.
fn is_reported(fault: RecordFault, prefix: Option<usize>, journal: &[u8]) -> bool {
    match prefix {
        Some(len) => fault == RecordFault::CutShort { at: len },
        None => place_of(fault).is_some_and(|at| at <= journal.len()),
    }
}

fn place_of(fault: RecordFault) -> Option<usize> {
    match fault {
        RecordFault::BadHead { at }
        | RecordFault::BadNumber { at }
        | RecordFault::CutShort { at }
        | RecordFault::BadEdits { at }
        | RecordFault::BadEnd { at }
        | RecordFault::BadSteps { at } => Some(at),
        RecordFault::Memory => None,
    }
}

/// No stream over a journal that is refused writes anything.
fn is_refused(state: &State, journal: &[u8], fault: RecordFault, report: &mut Report) {
    for command in [Command::Fmt, Command::Revert] {
        let outcome = outside(command, &state.text, journal, report.alloc);
        let fault = RunFault::BadJournal(fault);
        outcome.refuses(fault, report, "a stream goes on over a refused journal");
    }
}

/// What is read is the journal, and each command over it answers as over any journal.
fn is_read(session: &Session, state: &State, journal: &[u8], report: &mut Report) {
    let read = State::of(session, report);
    let is_journal = read.journal.as_slice() == journal;
    report.hold(is_journal, "another journal is read");
    let is_text = read.text.as_slice() == state.text.as_slice();
    report.hold(is_text, "another text is read");
    check_take(&read, report);
    same_outside(&read, Command::Fmt, report);
    same_outside(&read, Command::Revert, report);
}

/// A command undone out of order leaves others that can be reverted if all could, to the same text.
fn check_take(state: &State, report: &mut Report) {
    let mut session = state.session(report);
    let count = session.journal().records().len();
    let can_revert = revert_all(&mut session, report);
    for number in 1..=count {
        undo_command(state, number, can_revert, session.text(), report);
    }
}

fn undo_command(state: &State, number: usize, can_revert: bool, first: &[u8], report: &mut Report) {
    let mut session = state.session(report);
    let command = Command::Take(u32::try_from(number).unwrap_or(0));
    match session.step(report.alloc, command) {
        Ok(_) => {
            let again = revert_all(&mut session, report);
            report.hold(again == can_revert, "what is left is taken back otherwise");
            let is_first = !can_revert || session.text() == first;
            report.hold(is_first, "what is left leads to another text");
        }
        Err(fault) => {
            let can_stay = can_stay(fault, number);
            report.hold(can_stay, "a command is not taken out otherwise");
            state.hold(&session, report, "a refused take changes something");
        }
    }
}

/// A stream does what a session does, and writes the session's text then, or returns the same error
/// and writes nothing.
fn same_outside(state: &State, command: Command, report: &mut Report) {
    let mut session = state.session(report);
    let answer = session.step(report.alloc, command);
    let outcome = outside(command, &state.text, &state.journal, report.alloc);
    match answer {
        Ok(done) => {
            report.hold(outcome.answer == Ok(done), "a stream answers otherwise");
            outcome
                .written
                .hold(&session, report, "a stream writes something else");
        }
        Err(fault) => outcome.refuses(
            RunFault::from(fault),
            report,
            "a stream reports another fault",
        ),
    }
}
