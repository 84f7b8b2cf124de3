//! A text, damaged or not, under all calls that read a text alone.

use crate::corruption::faults::refusal;
use crate::corruption::replies::serves;
use crate::corruption::streams::{After, Drops, LimitedWriter};
use crate::report::Report;
use crate::state::start;
use tf_session::{Command, RuleSet, RunFault, Told, check_stream, lint_stream, step_text_stream};

/// Tries the text.
pub fn hold(text: &[u8], report: &mut Report) {
    let refusal = refusal(text, report);
    serves(text, refusal, report);
    let refused = refusal.map(RunFault::from);
    let layout = layout_of(text, report);
    checks(text, refused, layout.as_slice() == text, report);
    lints(text, refused, report);
    is_consistent(text, refused, &layout, report);
}

/// The text laid out, or as it is where it is not read.
fn layout_of(text: &[u8], report: &mut Report) -> Vec<u8> {
    let mut session = start(text, report);
    let _ = session.step(report.alloc, Command::Fmt);
    report.copy(session.text())
}

fn reader(text: &[u8]) -> Drops<'_> {
    Drops::new(text, After::Nothing)
}

fn checks(text: &[u8], refused: Option<RunFault>, is_formatted: bool, report: &mut Report) {
    let wanted = match refused {
        Some(fault) => Err(fault),
        None => Ok(is_formatted),
    };
    let answer = check_stream(report.alloc, &mut Told::new(reader(text)));
    report.hold(answer == wanted, "a check answers otherwise");
}

/// A line for each issue, or nothing.
fn lints(text: &[u8], refused: Option<RunFault>, report: &mut Report) {
    let mut out = Told::new(LimitedWriter::ample(report.alloc));
    let answer = lint_stream(
        report.alloc,
        "f",
        &mut Told::new(reader(text)),
        &mut out,
        RuleSet::all(),
    );
    let received = out.into_inner().received;
    let lines = received.iter().filter(|byte| **byte == b'\n').count();
    match answer {
        Ok(count) => {
            let is_so = refused.is_none() && lines == count;
            report.hold(is_so, "there are not as many lines as issues");
        }
        Err(fault) => {
            let is_so = refused == Some(fault) && received.is_empty();
            report.hold(is_so, "a lint reports another fault");
        }
    }
}

/// A fmt from a reader to a writer writes the layout, or nothing.
fn is_consistent(text: &[u8], refused: Option<RunFault>, layout: &[u8], report: &mut Report) {
    let mut out = Told::new(LimitedWriter::ample(report.alloc));
    let answer = step_text_stream(
        report.alloc,
        Command::Fmt,
        &mut Told::new(reader(text)),
        &mut out,
    );
    let received = out.into_inner().received;
    match answer {
        Ok((session, _)) => {
            let is_so = refused.is_none() && session.text() == layout;
            report.hold(is_so, "a fmt makes another text");
            report.hold(received.as_slice() == layout, "a fmt writes another text");
        }
        Err(fault) => {
            let is_so = refused == Some(fault) && received.is_empty();
            report.hold(is_so, "a fmt reports another fault");
        }
    }
}
