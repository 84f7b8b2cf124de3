//! What an error of a command on a journal or of standard output means, and what to do.

ghost use Rattle.std.specs.Prelude.{◌≡◌};
ghost use Rattle.tf_program.specs.Inner.Hints.{hint_of, hint_of_answer, hint_of_refused, hint_of_unread};

use std::fmt;
use tf_session::{Command, Refused, RunFault};

const NO_MORE: &str = "standard output takes no more";

/// What is said of an error of a file's journal, or of standard output, beside its own text.
#[derive(Clone, Copy)]
pub enum Hint {
    /// The file has another length than the last command left.
    Changed { left: usize, now: usize },
    /// A command found another length than the one before it had left.
    ChangedBetween { left: usize, found: usize },
    /// One of these.
    ChangedSomewhere,
    /// What the command had added is not there any more.
    ChangedInPlace,
    /// There is no command to undo.
    NothingRecorded,
    /// There is no such command.
    NoCommand,
    /// A later command changed the same place.
    Blocked { number: usize },
    /// The journal can't be decoded.
    NotDecoded,
    /// Not all of the file's lines were printed, once it was saved.
    SavedNotPrinted,
    /// Not all was printed of what was made of a text, which changes no file.
    NotPrinted,
}

/// Returns what is said of an error of a command on a file with `len` bytes.
pub fn hint_of(command: Command, fault: &RunFault, len: usize) -> Option<Hint>
    ensures { result ≡ hint_of command fault.now len }
{
    match fault {
        RunFault::Refused(refused) => hint_of_refused(command, refused, len),
        RunFault::NoRecord => Some(match command {
            Command::Take(_) => Hint::NoCommand,
            _ => Hint::NothingRecorded,
        }),
        RunFault::Blocked { number } => Some(Hint::Blocked { number: *number }),
        _ => hint_of_unread(fault),
    }
}

/// Returns what is said of an error that is met before any command is done.
pub fn hint_of_unread(fault: &RunFault) -> Option<Hint>
    ensures { result ≡ hint_of_unread fault.now }
{
    match fault {
        RunFault::BadJournal(_) => Some(Hint::NotDecoded),
        _ => None,
    }
}

/// Returns what is said of an error of an action that changes no file, on a text.
pub fn hint_of_answer(fault: &RunFault) -> Option<Hint>
    ensures { result ≡ hint_of_answer fault.now }
{
    match fault {
        RunFault::Write { .. } => Some(Hint::NotPrinted),
        _ => None,
    }
}

/// Returns what is said of a record that does not fit. A plain revert compares the file with the
/// last record; a take compares records with each other before.
fn hint_of_refused(command: Command, refused: &Refused, len: usize) -> Option<Hint>
    ensures { result ≡ hint_of_refused command refused.now len }
{
    match refused {
        Refused::Length { expected, found } => Some(match command {
            Command::Take(_) if *found == len => Hint::ChangedSomewhere,
            Command::Take(_) => Hint::ChangedBetween {
                left: *found,
                found: *expected,
            },
            _ => Hint::Changed {
                left: *expected,
                now: *found,
            },
        }),
        Refused::Differs { .. } => Some(Hint::ChangedInPlace),
        Refused::Memory => None,
    }
}

impl fmt::Display for Hint {
    fn fmt<W: fmt::Write>(&self, f: &mut fmt::Formatter<W>) -> fmt::Result {
        match self {
            Hint::Changed { left, now } => write!(
                f,
                "the last command left {left} bytes, and there are {now} now: undo what you \
                 changed since, or delete the journal",
            ),
            Hint::ChangedBetween { left, found } => write!(
                f,
                "the file was changed by hand between two commands, from {left} to {found} bytes: \
                 undo the later ones and that change first, or delete the journal",
            ),
            Hint::ChangedSomewhere => f.write_str(
                "the file was changed by hand since a command: undo that change, or delete the \
                 journal",
            ),
            Hint::ChangedInPlace => f.write_str(
                "the file was changed where the command had changed it: undo that change, or \
                 delete the journal",
            ),
            Hint::NothingRecorded => {
                f.write_str("no command is recorded: there is no journal, or it is empty")
            }
            Hint::NoCommand => f.write_str(
                "no such command: tfk revert --list FILE prints those that there are",
            ),
            Hint::Blocked { number } => write!(f, "undo command {number} first"),
            Hint::SavedNotPrinted => write!(f, "{NO_MORE}; the file is saved"),
            Hint::NotPrinted => f.write_str(NO_MORE),
            Hint::NotDecoded => {
                f.write_str("the journal is damaged, or not tfk's: restore it, or delete it")
            }
        }
    }
}
