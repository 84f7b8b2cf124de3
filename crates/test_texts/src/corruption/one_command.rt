//! One command from readers to writers.

use crate::corruption::streams::{After, Drops, LimitedWriter};
use crate::report::Report;
use crate::state::State;
use std::alloc::Global;
use tf_session::{
    Command, Done, Fault, RuleSet, RunFault, Told, fix_stream, fmt_stream, revert_stream,
};

/// What a stream answered and wrote.
#[derive(Drop)]
pub struct Outcome {
    pub answer: Result<Done, RunFault>,
    pub written: State,
}

impl Outcome {
    /// Notes if another error than this was returned, or something was written.
    pub fn refuses(&self, fault: RunFault, report: &mut Report, what: &'static str) {
        let is_unwritten = self.written.text.is_empty() && self.written.journal.is_empty();
        report.hold(self.answer == Err(fault) && is_unwritten, what);
    }
}

/// What the stream of a command over these readers answers, and what it writes to these writers.
/// That of a fix takes all rules, and a take, which has none, reverts.
pub fn stream(
    command: Command,
    text: &mut Drops<'_>,
    journal: &mut Drops<'_>,
    journal_out: LimitedWriter,
    text_out: LimitedWriter,
    alloc: Global,
) -> Outcome {
    let text = &mut Told::new(text);
    let journal = &mut Told::new(journal);
    let mut journal_out = Told::new(journal_out);
    let mut text_out = Told::new(text_out);
    let (to_journal, to_text) = (&mut journal_out, &mut text_out);
    let answer = match command {
        Command::Fmt => fmt_stream(alloc, text, journal, to_journal, to_text),
        Command::Fix(_) => fix_stream(alloc, text, journal, to_journal, to_text, RuleSet::all()),
        Command::Revert | Command::Take(_) => {
            revert_stream(alloc, text, journal, to_journal, to_text)
        }
    };
    Outcome {
        answer,
        written: State {
            text: text_out.into_inner().received,
            journal: journal_out.into_inner().received,
        },
    }
}

/// Runs one command of a stream with readers and writers that do not fail.
pub fn outside(command: Command, text: &[u8], journal: &[u8], alloc: Global) -> Outcome {
    stream(
        command,
        &mut Drops::new(text, After::Nothing),
        &mut Drops::new(journal, After::Nothing),
        LimitedWriter::ample(alloc),
        LimitedWriter::ample(alloc),
        alloc,
    )
}

/// Whether a command of this number can stay for that reason.
pub fn can_stay(fault: Fault, number: usize) -> bool {
    match fault {
        Fault::Blocked { number: by } => by > number,
        Fault::Refused(_) => true,
        _ => false,
    }
}
