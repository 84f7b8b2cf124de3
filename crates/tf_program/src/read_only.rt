//! What changes no file: all on standard input, and check, lint and list on a file.

ghost use Rattle.std.specs.Prelude.{◌≡◌, IfOk, IfErr, string_bytes};
ghost use Rattle.tf_stream.specs.Streams.{source_of};
ghost use Rattle.tf_program.specs.Answers.{AnswersName, AnswersFile, AnswersStream, AnswersText};
ghost use Rattle.tf_program.specs.Answers.{ListsFile, ListsRecords};
ghost use Rattle.tf_session.specs.Session.{contents_of, records_of};
ghost use Rattle.tf_program.specs.Answers.{is_list, PrintsAnswer, HasNoAnswer};
ghost use Rattle.tf_program.specs.Lines.{AreRecordLines};
ghost use Rattle.tf_program.specs.Printing.{console_of};

use crate::answer::{Answer, STANDARD_INPUT};
use crate::file_error::FileError;
use crate::hint::{hint_of_answer, hint_of_unread};
use crate::printing::print;
use crate::record_list::record_lines;
use crate::streams::Streams;
use std::alloc::Global;
use std::io::{Read, Write};
use tf_cli::{Action, FileOutcome, Task};
use tf_files::{ReadFile, Store, Trouble};
use tf_session::{RunFault, Session, take_text};

/// Does an action that changes no file on standard input, or on the file of this name.
///
/// # Errors
///
/// `Read` for a file that can't be opened, and those of the action. One of a text is located if the
/// task says so.
pub fn run_read_only<S: Store, I: Read, O: Write, F: Write>(
    store: &S,
    alloc: Global,
    task: &Task<'_>,
    name: &str,
    streams: &mut Streams<I, O, F>,
) -> Result<FileOutcome, FileError>
    ensures { AnswersName task.now.action task.now.locate name.now (S.known store.now) result
        (console_of I.remaining O.contents F.contents streams.old)
        (console_of I.remaining O.contents F.contents streams.new) }
{
    if name == STANDARD_INPUT {
        return answer_input(alloc, task, name, streams);
    }
    answer_file(store, alloc, task, name, streams)
}

/// Does a task that changes no file on the file of this name.
///
/// # Errors
///
/// `Read` for a file that can't be opened, and those of the task.
fn answer_file<S: Store, I: Read, O: Write, F: Write>(
    store: &S,
    alloc: Global,
    task: &Task<'_>,
    name: &str,
    streams: &mut Streams<I, O, F>,
) -> Result<FileOutcome, FileError>
    ensures answer { AnswersFile task.now.action task.now.locate name.now (S.known store.now) result
        (console_of I.remaining O.contents F.contents streams.old)
        (console_of I.remaining O.contents F.contents streams.new) }
    ensures input { streams.new.input ≡ streams.old.input }
{
    if is_list(task.action) {
        return list_file(store, alloc, name, task.locate, streams);
    }
    let text = store.read_text(alloc, name)?;
    answer_text(alloc, task, name, &text, streams)
}

/// Returns whether the action lists the recorded commands.
fn is_list(action: Action) -> bool
    ensures { result ≡ is_list action }
{
    matches!(action, Action::List)
}

/// Does a task on the text of standard input.
///
/// # Errors
///
/// Those of reading the text, and of the task.
fn answer_input<I: Read, O: Write, F: Write>(
    alloc: Global,
    task: &Task<'_>,
    name: &str,
    streams: &mut Streams<I, O, F>,
) -> Result<FileOutcome, FileError>
    ensures { AnswersStream task.now.action task.now.locate name.now result
        (source_of I.remaining streams.old.input streams.new.input)
        (console_of I.remaining O.contents F.contents streams.old)
        (console_of I.remaining O.contents F.contents streams.new) }
{
    let text = match take_text(alloc, &mut streams.input) {
        Ok(text) => text,
        Err(fault) => return Err(FileError::from(Trouble::of_text(fault))),
    };
    answer_text(alloc, task, name, &text, streams)
}

/// Does an action on a text of this name, and prints what it makes. An error is located if the task
/// says so.
///
/// # Errors
///
/// Those of the action, after which nothing is printed, and of printing.
fn answer_text<I: Read, O: Write, F: Write>(
    alloc: Global,
    task: &Task<'_>,
    name: &str,
    text: &[u8],
    streams: &mut Streams<I, O, F>,
) -> Result<FileOutcome, FileError>
    ensures answer { AnswersText task.now.action task.now.locate name.now text.now result
        (console_of I.remaining O.contents F.contents streams.old)
        (console_of I.remaining O.contents F.contents streams.new) }
    ensures input { streams.new.input ≡ streams.old.input }
{
    match print_answer(alloc, task.action, name, text, streams) {
        Ok(outcome) => Ok(outcome),
        Err(fault) => Err(FileError::of_text(alloc, fault, text, task.locate)),
    }
}

/// Does an action on a text of this name, and prints what it makes.
///
/// # Errors
///
/// Those of the action, after which nothing is printed, and of printing.
fn print_answer<I: Read, O: Write, F: Write>(
    alloc: Global,
    action: Action,
    name: &str,
    text: &[u8],
    streams: &mut Streams<I, O, F>,
) -> Result<FileOutcome, RunFault>
    ensures answer { IfOk result (λ met. PrintsAnswer action name.now text.now met
        (console_of I.remaining O.contents F.contents streams.old)
        (console_of I.remaining O.contents F.contents streams.new)) }
    ensures fault { IfErr result (λ fault. HasNoAnswer action name.now text.now fault
        (console_of I.remaining O.contents F.contents streams.old)
        (console_of I.remaining O.contents F.contents streams.new)) }
    ensures input { streams.new.input ≡ streams.old.input }
{
    let answer = Answer::of(alloc, action, name, text)?;
    print(answer.output(text), &mut streams.output)?;
    print(&answer.errors, &mut streams.errors)?;
    Ok(answer.outcome)
}

/// Prints a line for each recorded command of a file. What an error of the journal means is kept
/// with it if `locate` says so.
///
/// # Errors
///
/// Those of reading both files, and of printing; `Memory`.
fn list_file<S: Store, I: Read, O: Write, F: Write>(
    store: &S,
    alloc: Global,
    name: &str,
    locate: bool,
    streams: &mut Streams<I, O, F>,
) -> Result<FileOutcome, FileError>
    ensures lists { ListsFile name.now (S.known store.now) result
        (console_of I.remaining O.contents F.contents streams.old)
        (console_of I.remaining O.contents F.contents streams.new) }
    ensures input { streams.new.input ≡ streams.old.input }
{
    let ReadFile { text, journal } = store.read_only(alloc, name)?;
    match Session::from_texts(alloc, text, journal) {
        Ok(session) => list_session(alloc, &session, locate, streams),
        Err(fault) => {
            let hint = hint_of_unread(&fault);
            Err(FileError::unlocated(fault, hint, locate))
        }
    }
}

/// Prints a line for each recorded command of a session. An error of printing has a second line if
/// `locate` says so.
///
/// # Errors
///
/// `Memory`, and those of printing.
fn list_session<I: Read, O: Write, F: Write>(
    alloc: Global,
    session: &Session,
    locate: bool,
    streams: &mut Streams<I, O, F>,
) -> Result<FileOutcome, FileError>
    ensures lists { ListsRecords (contents_of session.now) result
        (console_of I.remaining O.contents F.contents streams.old)
        (console_of I.remaining O.contents F.contents streams.new) }
    ensures input { streams.new.input ≡ streams.old.input }
{
    let lines = list_lines(alloc, session)?;
    match print(lines.as_bytes(), &mut streams.output) {
        Ok(()) => Ok(FileOutcome::Nothing),
        Err(fault) => {
            let hint = hint_of_answer(&fault);
            Err(FileError::unlocated(fault, hint, locate))
        }
    }
}

/// Returns a line for each recorded command of a session.
fn list_lines(alloc: Global, session: &Session) -> Result<String, RunFault>
    ensures lines { IfOk result (λ lines. AreRecordLines (contents_of session.now) 1
        (records_of session.now) (string_bytes lines)) }
    ensures memory { IfErr result (λ fault. fault ≡ RunFault.Memory) }
{
    Ok(record_lines(alloc, session)?)
}
