//! Writers that fail at each byte: what is reported as written is what was written, and nothing
//! after it.

use crate::corruption::one_command::{Outcome, outside, stream};
use crate::corruption::streams::{After, Drops, Full, LimitedWriter};
use crate::report::Report;
use crate::state::State;
use std::alloc::Global;
use tf_session::{
    Command, RuleSet, RunFault, SessionPart, Told, lint_stream, put_journal, put_text,
};

/// A writer that fails in some way after a number of bytes.
#[derive(Clone, Copy)]
struct FailingWriter {
    limit: usize,
    way: Full,
}

impl FailingWriter {
    fn writer(self, alloc: Global) -> LimitedWriter {
        let takes_all = self.way == Full::FailsToFlush;
        let limit = if takes_all { usize::MAX } else { self.limit };
        LimitedWriter::new(alloc, limit, self.way)
    }

    /// How many of `len` bytes are written when it fails; none if it takes all.
    fn sent(self, all: usize) -> Option<usize> {
        if self.way == Full::FailsToFlush {
            Some(all)
        } else if self.limit < all {
            Some(self.limit)
        } else {
            None
        }
    }

    /// Whether an answer and what the writer holds are right, where these bytes are to be written
    /// to it as this part.
    fn is_reported(
        self,
        part: SessionPart,
        right: &[u8],
        fault: Option<RunFault>,
        received: &[u8],
    ) -> bool {
        match self.sent(right.len()) {
            Some(sent) => {
                fault == Some(RunFault::Write { part, sent }) && right.get(..sent) == Some(received)
            }
            None => fault.is_none() && right == received,
        }
    }
}

/// Tries the lines of the text, what a command writes over the state, and the state's bytes by
/// themselves.
pub fn hold(text: &[u8], state: &State, report: &mut Report) {
    for way in [Full::Fails, Full::TakesNothing, Full::FailsToFlush] {
        lines(text, way, report);
        puts(&state.journal, SessionPart::Journal, way, report);
        puts(&state.text, SessionPart::Text, way, report);
        for command in [Command::Fmt, Command::Fix(RuleSet::all()), Command::Revert] {
            let right = outside(command, &state.text, &state.journal, report.alloc).written;
            journals(state, command, &right, way, report);
            texts(state, command, &right, way, report);
        }
    }
}

fn lines(text: &[u8], way: Full, report: &mut Report) {
    let mut out = LimitedWriter::ample(report.alloc);
    let fault = lint(text, &mut out, report.alloc);
    let has_lines = fault.is_none() && !out.received.is_empty();
    report.hold(has_lines, "there is no issue");
    let right = out.received;
    for limit in 0..=right.len() {
        let failing = FailingWriter { limit, way };
        let mut out = failing.writer(report.alloc);
        let fault = lint(text, &mut out, report.alloc);
        let is_reported = failing.is_reported(SessionPart::Text, &right, fault, &out.received);
        report.hold(is_reported, "lines are reported otherwise");
    }
}

fn lint(text: &[u8], out: &mut LimitedWriter, alloc: Global) -> Option<RunFault> {
    let mut reader = Told::new(Drops::new(text, After::Nothing));
    lint_stream(alloc, "f", &mut reader, &mut Told::new(out), RuleSet::all()).err()
}

fn puts(bytes: &[u8], part: SessionPart, way: Full, report: &mut Report) {
    for limit in 0..=bytes.len() {
        let failing = FailingWriter { limit, way };
        let mut out = failing.writer(report.alloc);
        let answer = match part {
            SessionPart::Journal => put_journal(bytes, &mut Told::new(&mut out)),
            SessionPart::Text => put_text(bytes, &mut Told::new(&mut out)),
        };
        let is_reported = failing.is_reported(part, bytes, answer.err(), &out.received);
        report.hold(is_reported, "bytes are reported otherwise");
    }
}

/// A journal whose writer fails; the text is written only after a whole journal.
fn journals(state: &State, command: Command, right: &State, way: Full, report: &mut Report) {
    for limit in 0..=right.journal.len() {
        let failing = FailingWriter { limit, way };
        let ample = LimitedWriter::ample(report.alloc);
        let outcome = outcome(
            state,
            command,
            failing.writer(report.alloc),
            ample,
            report.alloc,
        );
        let fault = outcome.answer.err();
        let is_reported = failing.is_reported(
            SessionPart::Journal,
            &right.journal,
            fault,
            &outcome.written.journal,
        );
        report.hold(is_reported, "a journal is reported otherwise");
        let wanted = if fault.is_none() {
            right.text.as_slice()
        } else {
            b"".as_slice()
        };
        let is_written = outcome.written.text.as_slice() == wanted;
        report.hold(is_written, "a text is written before its journal");
    }
}

fn texts(state: &State, command: Command, right: &State, way: Full, report: &mut Report) {
    for limit in 0..=right.text.len() {
        let failing = FailingWriter { limit, way };
        let ample = LimitedWriter::ample(report.alloc);
        let outcome = outcome(
            state,
            command,
            ample,
            failing.writer(report.alloc),
            report.alloc,
        );
        let is_reported = failing.is_reported(
            SessionPart::Text,
            &right.text,
            outcome.answer.err(),
            &outcome.written.text,
        );
        report.hold(is_reported, "a text is reported otherwise");
        let is_whole = outcome.written.journal.as_slice() == right.journal.as_slice();
        report.hold(is_whole, "the journal before a text is not whole");
    }
}

/// A command over the state, to these writers.
fn outcome(
    state: &State,
    command: Command,
    journal_out: LimitedWriter,
    text_out: LimitedWriter,
    alloc: Global,
) -> Outcome {
    stream(
        command,
        &mut Drops::new(&state.text, After::Nothing),
        &mut Drops::new(&state.journal, After::Nothing),
        journal_out,
        text_out,
        alloc,
    )
}
