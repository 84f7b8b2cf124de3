//! The work that the arguments ask for.

ghost use Rattle.std.specs.Prelude.{◌≡◌, ℕ, List, ◌++◌, map, None, OnOk, OnErr, string_bytes};
ghost use Rattle.tf_cli.specs.Arguments.{all_normalized};
ghost use Rattle.tf_cli.specs.Reading.{arguments_of};
ghost use Rattle.tf_program.specs.Inner.Entries.{HasNext, IsWaitingIn, PutsIn, progress};
ghost use Rattle.tf_program.specs.Printing.{channel_of, console_of, IsLineEnd, PrintsAll, PrintsPart};
ghost use Rattle.tf_program.specs.Printing.{PrintsExit, PrintsFault, PrintsHelp};
ghost use Rattle.tf_program.specs.Runs.{RunsTask, Works, world_of};
ghost use Rattle.tf_program.specs.Work.{command_of, file_command};

use crate::answer::STANDARD_INPUT;
use crate::batch::Batch;
use crate::printing::print;
use crate::read_only::run_read_only;
use crate::streams::Streams;
use std::alloc::Global;
use std::io::{Read, Write};
use tf_cli::{Action, CommandLine, Exit, RunOutcome, Task};
use tf_files::{Disk, Store, SystemFiles};
use tf_session::{Command, RunFault, Told};

const OUT_OF_MEMORY: &str = "tfk: out of memory\n";

const CANNOT_WRITE: &str = "tfk: cannot write standard output\n";

/// Does what the arguments ask for, without the name of the program, on the files of the system, and
/// returns the exit status: 1 after any error, else 2 if an issue is left, else 3 if a file that was
/// to be checked is not formatted, else 0. Reports are printed on standard output, errors on standard
/// error.
pub fn work<R: SystemFiles, I: Read, O: Write, F: Write>(
    rt: &R,
    alloc: Global,
    arguments: &[String],
    streams: &mut Streams<I, O, F>,
) -> u8
    ensures { Works (all_normalized (map string_bytes arguments.now)) result
        (world_of None (console_of I.remaining O.contents F.contents streams.old))
        (world_of None (console_of I.remaining O.contents F.contents streams.new)) }
{
    work_in(&mut Disk::new(rt), alloc, arguments, streams)
}

/// Does what the arguments ask for on the files of a store, as [`work`] does on those of the system.
pub fn work_in<S: Store, I: Read, O: Write, F: Write>(
    store: &mut S,
    alloc: Global,
    arguments: &[String],
    streams: &mut Streams<I, O, F>,
) -> u8
    ensures { Works (all_normalized (map string_bytes arguments.now)) result
        (world_of (S.known store.old) (console_of I.remaining O.contents F.contents streams.old))
        (world_of (S.known store.new) (console_of I.remaining O.contents F.contents streams.new)) }
{
    match CommandLine::new(alloc, arguments) {
        Ok(line) => run_command_line(store, alloc, &line, streams),
        Err(_) => exit_with_fault(OUT_OF_MEMORY, streams),
    }
}

/// Does the task of a command line, or prints why there is none, and returns the exit status. For
/// the proof: the command line is lent to a function that has its ways out.
fn run_command_line<S: Store, I: Read, O: Write, F: Write>(
    store: &mut S,
    alloc: Global,
    line: &CommandLine<'_>,
    streams: &mut Streams<I, O, F>,
) -> u8
    ensures { Works (arguments_of line.now) result
        (world_of (S.known store.old) (console_of I.remaining O.contents F.contents streams.old))
        (world_of (S.known store.new) (console_of I.remaining O.contents F.contents streams.new)) }
{
    match line.task(alloc) {
        Ok(task) => run_task(store, alloc, &task, streams).status(),
        Err(stop) => exit_with(&stop, streams),
    }
}

/// Prints the help, or why there is no task, and returns the exit status.
fn exit_with<I: Read, O: Write, F: Write>(stop: &Exit, streams: &mut Streams<I, O, F>) -> u8
    ensures { PrintsExit stop.now result
        (console_of I.remaining O.contents F.contents streams.old)
        (console_of I.remaining O.contents F.contents streams.new) }
{
    match stop {
        Exit::Help(text) => print_help(text.as_str(), streams),
        Exit::UsageError(text) => exit_with_fault(text.as_str(), streams),
        Exit::Memory => exit_with_fault(OUT_OF_MEMORY, streams),
    }
}

/// Prints an error and returns its exit status, which still reports the error if standard error
/// takes nothing.
fn exit_with_fault<I: Read, O: Write, F: Write>(text: &str, streams: &mut Streams<I, O, F>) -> u8
    ensures { PrintsFault text.now result
        (console_of I.remaining O.contents F.contents streams.old)
        (console_of I.remaining O.contents F.contents streams.new) }
{
    let _ = print(text.as_bytes(), &mut streams.errors);
    1
}

/// Prints a help and returns the exit status.
fn print_help<I: Read, O: Write, F: Write>(text: &str, streams: &mut Streams<I, O, F>) -> u8
    ensures { PrintsHelp text.now result
        (console_of I.remaining O.contents F.contents streams.old)
        (console_of I.remaining O.contents F.contents streams.new) }
{
    match write_help(text, &mut streams.output) {
        Ok(()) => 0,
        Err(_) => {
            let _ = print(CANNOT_WRITE.as_bytes(), &mut streams.errors);
            1
        }
    }
}

/// Prints a text, and the end of its last line where it has none.
fn write_help<O: Write>(text: &str, output: &mut Told<O>) -> Result<(), RunFault>
    ensures done { OnOk result ((end : List ℕ) × IsLineEnd end
        × PrintsAll (text.now ++ end) (channel_of O.contents output.old)
        (channel_of O.contents output.new)) }
    ensures part { OnErr result ((end : List ℕ) × IsLineEnd end
        × PrintsPart (text.now ++ end) (channel_of O.contents output.old)
        (channel_of O.contents output.new)) }
{
    print(text.as_bytes(), output)?;
    print(line_end(text).as_bytes(), output)
}

/// Returns what follows a text, so that its last line ends.
fn line_end(text: &str) -> &'static str
    ensures { IsLineEnd result.now }
{
    if text.ends_with('\n') { "" } else { "\n" }
}

/// Does a task on one file after another, in the order given; an error on one does not stop the
/// next. A file that changes may be saved after the next is read.
fn run_task<S: Store, I: Read, O: Write, F: Write>(
    store: &mut S,
    alloc: Global,
    task: &Task<'_>,
    streams: &mut Streams<I, O, F>,
) -> RunOutcome
    ensures left { result.left ≡ 0 }
    ensures runs { RunsTask task.now result
        (world_of (S.known store.old) (console_of I.remaining O.contents F.contents streams.old))
        (world_of (S.known store.new) (console_of I.remaining O.contents F.contents streams.new)) }
{
    let mut batch = Batch::new(alloc, task);
    for name in &task.files {
        run_on_file(store, task, name, &mut batch, streams);
    }
    batch.finish(store, streams);
    batch.outcome
}

/// Does a task on one file.
fn run_on_file<'a, S: Store, I: Read, O: Write, F: Write>(
    store: &mut S,
    task: &Task<'_>,
    name: &'a str,
    batch: &mut Batch<'a, S::Place>,
    streams: &mut Streams<I, O, F>,
)
    requires next { HasNext batch.old }
    requires action { batch.old.action ≡ task.now.action }
    requires locate { batch.old.locate ≡ task.now.locate }
    requires waiting { IsWaitingIn S.spot batch.old (S.known store.old) }
    ensures { PutsIn S.spot name.entry batch.old
        (progress batch.old (console_of I.remaining O.contents F.contents streams.old)
        (S.known store.old)) batch.new
        (progress batch.new (console_of I.remaining O.contents F.contents streams.new)
        (S.known store.new)) }
{
    match file_command(task.action, name) {
        Some(command) => batch.change(store, command, name, streams),
        None => {
            batch.finish(store, streams);
            let met = run_read_only(store, batch.alloc, task, name, streams);
            batch.note(name, met, streams);
        }
    }
}

/// Returns the command that the action does to the file of this name; none if the action changes no
/// files, or the name is that of standard input.
fn file_command(action: Action, name: &str) -> Option<Command>
    ensures { result ≡ file_command action name.now }
{
    if name == STANDARD_INPUT {
        None
    } else {
        command_of(action)
    }
}

/// Returns the command of an action that changes files; none for any other action.
fn command_of(action: Action) -> Option<Command>
    ensures { result ≡ command_of action }
{
    match action {
        Action::Format => Some(Command::Fmt),
        Action::Fix(rules) => Some(Command::Fix(rules)),
        Action::Revert(Some(number)) => Some(Command::Take(number)),
        Action::Revert(None) => Some(Command::Revert),
        Action::Check | Action::Lint(_) | Action::List => None,
    }
}
