//! One command on a file's text and the text of its journal: from their bytes to what is to be
//! saved and reported.

ghost use Rattle.std.specs.Prelude.{◌≡◌, ◌++◌, true, false, [], codes, Ok, Err, IfOk, IfErr, string_bytes};
ghost use Rattle.tf_session.specs.declared.command.Command.TheVariants.{Fmt, Fix};
ghost use Rattle.tf_session.specs.Session.{contents_of, text_of, records_of};
ghost use Rattle.tf_session.specs.Journals.{JournalTextFault};
ghost use Rattle.tf_session.specs.Records.{DoesStep};
ghost use Rattle.tf_session.specs.Invocations.{file_of, contents_after, StepsFile};
ghost use Rattle.tf_session.specs.Invocations.{AreReportLines, HasEffect, HasNoEffect};
ghost use Rattle.tf_session.specs.Invocations.{StepOrLinesFault, is_limit};
ghost use Rattle.tf_session.specs.Inner.Saving.{must_save, AreSavedTexts};

use crate::command::{Command, Done};
use crate::fault::RunFault;
use crate::saver::{SavedTexts, saved_texts};
use crate::session::Session;
use edit_record::decode_owned;
use edit_record::laws::{change_result_is_unique, text_is_unambiguous};
use std::alloc::{AllocError, Global};
use std::mem;
use tf_rules::RuleSet;

/// What a command did to a file, and what is still to be done.
#[derive(Drop)]
pub struct Effect {
    pub done: Done,
    /// The new text and the text of its journal; None if the command changed neither.
    pub saved: Option<SavedTexts>,
    /// What is to be reported once they are saved: after a fmt that changed the text the file's
    /// name and LF, after a fix the line of each issue that is left.
    pub lines: Vec<u8>,
}

/// What a command did to a session, and what is to be reported of it.
#[derive(Drop)]
struct StepReport {
    done: Done,
    lines: Vec<u8>,
}

/// Does a command on a file of this name, by its text and the text of its journal; a file without a
/// journal has an empty one. The text is moved out.
///
/// # Errors
///
/// Nothing is to be saved or reported. The first that holds: `BadJournal` if the journal's bytes
/// are the text of none; the error of the command; `Endless` if the text of the new journal would
/// have more than [`MAX_JOURNAL`](crate::MAX_JOURNAL) bytes. `Memory` if an allocation fails.
/// Unless it is one of these two, the text is as it was.
pub fn invoke(
    alloc: Global,
    text: &mut Vec<u8>,
    journal: Vec<u8>,
    command: Command,
    name: &str,
) -> Result<Effect, RunFault>
    ensures done { IfOk result (λ effect. StepsFile command (file_of text.old.items journal.items)
        (Ok effect.done) (contents_after (file_of text.old.items journal.items) effect.saved)) }
    ensures refused { IfErr result (λ fault. StepsFile command
        (file_of text.old.items journal.items) (Err fault)
        (file_of text.old.items journal.items)) }
    ensures effect { IfOk result (HasEffect command name.now text.old.items journal.items) }
    ensures fault { IfErr result (HasNoEffect command text.old.items journal.items) }
    ensures text { IfErr result
        (λ fault. is_limit fault ≡ false → text.new.items ≡ text.old.items) }
{
    text_is_unambiguous();
    change_result_is_unique();
    let journal = decode_owned(alloc, journal)?;
    let mut session = Session::start(mem::replace(text, Vec::new(alloc)), journal);
    match report_step(alloc, &mut session, command, name) {
        Ok(report) => to_effect(session, command, report),
        Err(fault) => {
            let (unchanged, _) = session.into_parts();
            *text = unchanged;
            Err(fault)
        }
    }
}

/// Returns what is to be saved of the session of a command, and what is to be reported.
fn to_effect(session: Session, command: Command, report: StepReport) -> Result<Effect, RunFault>
    ensures done { IfOk result (λ effect. effect.done ≡ report.done) }
    ensures lines { IfOk result (λ effect. effect.lines ≡ report.lines) }
    ensures saved { IfOk result
        (λ effect. AreSavedTexts (must_save command report.done) (contents_of session)
        effect.saved) }
    ensures changed { IfErr result (λ fault. must_save command report.done ≡ true) }
    ensures fault { IfErr result (λ fault. JournalTextFault (records_of session) fault) }
{
    let StepReport { done, lines } = report;
    let mut saved = None;
    if must_save(command, done) {
        saved = Some(saved_texts(session)?);
    }
    Ok(Effect { done, saved, lines })
}

/// Returns whether the text or the journal is to be saved after a command. A revert removes a record
/// even if the text stays.
fn must_save(command: Command, done: Done) -> bool
    ensures { result ≡ must_save command done }
{
    match command {
        Command::Fmt | Command::Fix(_) => done.changed,
        Command::Revert | Command::Take(_) => true,
    }
}

/// Does a command to a session, and makes the lines that report it.
fn report_step(
    alloc: Global,
    session: &mut Session,
    command: Command,
    name: &str,
) -> Result<StepReport, RunFault>
    ensures done { IfOk result (λ report.
        DoesStep command (contents_of session.old) report.done (contents_of session.new)) }
    ensures lines { IfOk result (λ report.
        AreReportLines command name.now report.done (text_of session.new) report.lines.items) }
    ensures fault { IfErr result (StepOrLinesFault command (contents_of session.old)) }
    ensures text { IfErr result
        (λ fault. is_limit fault ≡ false → text_of session.new ≡ text_of session.old) }
{
    match command {
        Command::Fmt => report_fmt(alloc, session, name),
        Command::Fix(rules) => report_fix(alloc, session, name, rules),
        Command::Revert | Command::Take(_) => {
            let done = session.step(alloc, command)?;
            Ok(StepReport {
                done,
                lines: Vec::new(alloc),
            })
        }
    }
}

/// Formats a session. If the text changed, the file's name is reported.
fn report_fmt(alloc: Global, session: &mut Session, name: &str) -> Result<StepReport, RunFault>
    ensures done { IfOk result (λ report.
        DoesStep Fmt (contents_of session.old) report.done (contents_of session.new)) }
    ensures lines { IfOk result (λ report.
        AreReportLines Fmt name.now report.done (text_of session.new) report.lines.items) }
    ensures fault { IfErr result (StepOrLinesFault Fmt (contents_of session.old)) }
    ensures text { IfErr result
        (λ fault. is_limit fault ≡ false → text_of session.new ≡ text_of session.old) }
{
    let done = session.step(alloc, Command::Fmt)?;
    if !done.changed {
        return Ok(StepReport {
            done,
            lines: Vec::new(alloc),
        });
    }
    let line = name_line(alloc, name)?;
    Ok(StepReport {
        done,
        lines: line.into_bytes(),
    })
}

/// Returns a line with this name.
fn name_line(alloc: Global, name: &str) -> Result<String, AllocError>
    ensures { IfOk result (λ line. string_bytes line ≡ name.now ++ codes "\n") }
{
    format!(in alloc; "{name}\n")
}

/// Fixes the issues of a session. The lines of the issues that are left are reported.
fn report_fix(
    alloc: Global,
    session: &mut Session,
    name: &str,
    rules: RuleSet,
) -> Result<StepReport, RunFault>
    ensures done { IfOk result (λ report.
        DoesStep (Fix rules) (contents_of session.old) report.done (contents_of session.new)) }
    ensures lines { IfOk result (λ report.
        AreReportLines (Fix rules) name.now report.done (text_of session.new) report.lines.items) }
    ensures fault { IfErr result (StepOrLinesFault (Fix rules) (contents_of session.old)) }
    ensures text { IfErr result
        (λ fault. is_limit fault ≡ false → text_of session.new ≡ text_of session.old) }
{
    let (done, left) = session.fix(alloc, rules)?;
    let lines = left.lines(alloc, name, session.text())?;
    Ok(StepReport {
        done,
        lines: lines.into_bytes(),
    })
}
