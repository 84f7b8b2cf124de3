//! Readers that fail after each byte, and one that never ends: no call continues, and nothing is
//! written. No call reads more than one byte over the limit of a text.

use crate::corruption::one_command::stream;
use crate::corruption::streams::{After, Drops, LimitedWriter};
use crate::report::Report;
use crate::state::State;
use tf_session::{
    Command, RuleSet, RunFault, Told, check_stream, lint_stream, load, step_text_stream, take_text,
};

/// One more than a text may have.
const TAKEN: usize = 16_777_217;

/// Tries each prefix of the text of a state, and each of its journal.
pub fn hold(state: &State, report: &mut Report) {
    let (text, journal) = (state.text.as_slice(), state.journal.as_slice());
    for len in 0..=text.len() {
        let prefix = Drops::new(&text[..len], After::Failure);
        alone(prefix, RunFault::Read, report);
        fail_both(
            prefix,
            Drops::new(journal, After::Nothing),
            RunFault::Read,
            report,
        );
    }
    for len in 0..=journal.len() {
        let prefix = Drops::new(&journal[..len], After::Failure);
        fail_both(
            Drops::new(text, After::Nothing),
            prefix,
            RunFault::Read,
            report,
        );
    }
}

/// Tries a text that never ends.
pub fn hold_endless(report: &mut Report) {
    let endless = Drops::new(b"", After::Hashes);
    alone(endless, RunFault::Endless, report);
    fail_both(
        endless,
        Drops::new(b"", After::Nothing),
        RunFault::Endless,
        report,
    );
}

/// Whether this error is returned, and the reader gave as much as the error says.
fn is_reported(fault: Option<RunFault>, reader: &Drops<'_>, wanted: RunFault, report: &mut Report) {
    report.hold(
        fault == Some(wanted),
        "a call reports another fault of a reader",
    );
    let taken = if wanted == RunFault::Endless {
        TAKEN
    } else {
        0
    };
    report.hold(reader.given == taken, "another number of bytes is taken");
}

/// The calls over a text alone.
fn alone(text: Drops<'_>, wanted: RunFault, report: &mut Report) {
    takes(text, wanted, report);
    lints(text, wanted, report);
    steps(text, wanted, report);
}

fn takes(text: Drops<'_>, wanted: RunFault, report: &mut Report) {
    let mut reader = text;
    let taken = take_text(report.alloc, &mut Told::new(&mut reader));
    is_reported(taken.err(), &reader, wanted, report);
    let mut reader = text;
    let checked = check_stream(report.alloc, &mut Told::new(&mut reader));
    is_reported(checked.err(), &reader, wanted, report);
}

fn lints(text: Drops<'_>, wanted: RunFault, report: &mut Report) {
    let mut reader = text;
    let mut out = LimitedWriter::ample(report.alloc);
    let linted = lint_stream(
        report.alloc,
        "f",
        &mut Told::new(&mut reader),
        &mut Told::new(&mut out),
        RuleSet::all(),
    );
    is_reported(linted.err(), &reader, wanted, report);
    report.hold(
        out.received.is_empty(),
        "a lint of a text that is not read writes",
    );
}

fn steps(text: Drops<'_>, wanted: RunFault, report: &mut Report) {
    let mut reader = text;
    let mut out = LimitedWriter::ample(report.alloc);
    let stepped = step_text_stream(
        report.alloc,
        Command::Fmt,
        &mut Told::new(&mut reader),
        &mut Told::new(&mut out),
    );
    is_reported(stepped.err(), &reader, wanted, report);
    report.hold(
        out.received.is_empty(),
        "a fmt of a text that is not read writes",
    );
}

/// The calls over a text and its journal.
fn fail_both(text: Drops<'_>, journal: Drops<'_>, wanted: RunFault, report: &mut Report) {
    let (mut text_in, mut journal_in) = (text, journal);
    let loaded = load(
        report.alloc,
        &mut Told::new(&mut text_in),
        &mut Told::new(&mut journal_in),
    );
    is_reported(loaded.err(), &text_in, wanted, report);
    for command in [Command::Fmt, Command::Fix(RuleSet::all()), Command::Revert] {
        let (mut text_in, mut journal_in) = (text, journal);
        let (to_journal, to_text) = (
            LimitedWriter::ample(report.alloc),
            LimitedWriter::ample(report.alloc),
        );
        let outcome = stream(
            command,
            &mut text_in,
            &mut journal_in,
            to_journal,
            to_text,
            report.alloc,
        );
        outcome.refuses(wanted, report, "a stream goes on over a read that fails");
        is_reported(outcome.answer.err(), &text_in, wanted, report);
    }
}
