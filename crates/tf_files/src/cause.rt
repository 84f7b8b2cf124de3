//! Why a file can't be read or written, beside the error that says which of both.

ghost use Rattle.std.specs.IoError.{raw_os_error};
ghost use Rattle.std.specs.Prelude.{◌≡◌, true, Some};
ghost use Rattle.tf_files.specs.Causes.{over_limit, refused_with, with_subject};
ghost use Rattle.tf_files.specs.Causes.{is_missing, reason_of_link, cause_of_link, is_no_file};
ghost use Rattle.tf_files.specs.Opening.{is_file_fault};

use hcl_scan::MAX_TEXT;
use std::alloc::AllocError;
use std::{fmt, io};
use tf_session::{MAX_JOURNAL, RunFault};

/// The system's number of the error that there is no such file: `ENOENT` of Linux.
pub const NO_SUCH_FILE: i32 = 2;

/// The system's number of the error that a folder is read as a file: `EISDIR` of Linux.
pub const IS_FOLDER: i32 = 21;

/// Which file a cause is about.
#[derive(Clone, Copy)]
pub enum Subject {
    File,
    Journal,
    /// A journal that is not there yet.
    FirstJournal,
    NewText,
    NewJournal,
}

/// What is wrong with a file.
#[derive(Clone, Copy)]
pub enum Reason {
    /// The system refused a call, with this number (errno).
    System(i32),
    /// It is another file by now, or its bytes, its owner or its mode are others.
    Changed,
    /// Another user may have put it there.
    OfAnotherUser,
    /// It is a folder, a pipe, a device or, where none may be, a link.
    NotRegular,
    /// It is a link, and what it leads to is no journal, or the link is another user's.
    Link,
    /// It is a link, and what it leads to is not there.
    LinkToNothing,
    /// It would be longer than the limit of a file's size.
    OverSizeLimit,
    /// It has more bytes than this.
    Over(usize),
    /// It is in a folder that can't be read, so that no name in it can be made durable.
    InUnreadFolder,
}

/// Why a file, its journal or a new file can't be read or written.
#[derive(Clone, Copy)]
pub struct Cause {
    pub subject: Subject,
    pub reason: Reason,
}

/// An error of a file, and its cause if it is known.
#[derive(Clone, Copy)]
pub struct Trouble {
    pub fault: RunFault,
    pub cause: Option<Cause>,
}

impl Trouble {
    /// Returns the error of a file that can't be read.
    pub fn unread(subject: Subject, reason: Reason) -> Trouble
        ensures fault { result.fault ≡ RunFault.Read }
        ensures cause { result.cause ≡ Some (record { subject = subject; reason = reason }) }
    {
        Trouble {
            fault: RunFault::Read,
            cause: Some(Cause { subject, reason }),
        }
    }

    /// Returns the error of a file that can't be read after a call that failed so.
    pub fn unread_after(subject: Subject, error: &io::Error) -> Trouble
        ensures fault { result.fault ≡ RunFault.Read }
        ensures cause { result.cause ≡ refused_with subject (raw_os_error error.now) }
    {
        Trouble {
            fault: RunFault::Read,
            cause: Cause::after(subject, error),
        }
    }
}

impl Trouble {
    /// Returns the error of a text that was not read whole.
    pub fn of_text(fault: RunFault) -> Trouble
        ensures fault { result.fault ≡ fault }
        ensures cause { result.cause ≡ over_limit fault Subject.File MAX_TEXT }
    {
        Trouble::unless_within(fault, Subject::File, MAX_TEXT)
    }

    /// Returns the error of a journal that was not read whole.
    pub fn of_journal(fault: RunFault) -> Trouble
        ensures fault { result.fault ≡ fault }
        ensures cause { result.cause ≡ over_limit fault Subject.Journal MAX_JOURNAL }
    {
        Trouble::unless_within(fault, Subject::Journal, MAX_JOURNAL)
    }

    /// Returns the error of a file that was not read whole, which is `Endless` if it has more bytes
    /// than this.
    fn unless_within(fault: RunFault, subject: Subject, limit: usize) -> Trouble
        ensures fault { result.fault ≡ fault }
        ensures cause { result.cause ≡ over_limit fault subject limit }
    {
        let cause = match fault {
            RunFault::Endless => Some(Cause {
                subject,
                reason: Reason::Over(limit),
            }),
            _ => None,
        };
        Trouble { fault, cause }
    }
}

impl Trouble {
    /// Returns this error, of another file.
    pub fn of_subject(self, subject: Subject) -> Trouble
        ensures fault { result.fault ≡ self.fault }
        ensures cause { result.cause ≡ with_subject subject self.cause }
    {
        let cause = match self.cause {
            Some(Cause { reason, .. }) => Some(Cause { subject, reason }),
            None => None,
        };
        Trouble {
            fault: self.fault,
            cause,
        }
    }

    /// Returns this error of what a link leads to, as one of the link.
    pub fn of_link(self) -> Trouble
        ensures fault { result.fault ≡ self.fault }
        ensures cause { result.cause ≡ cause_of_link self.cause }
    {
        let cause = match self.cause {
            Some(Cause { subject, reason }) => Some(Cause {
                subject,
                reason: reason.of_link(),
            }),
            None => None,
        };
        Trouble {
            fault: self.fault,
            cause,
        }
    }

    /// Returns this error if it is one of files, else that a file can't be read.
    pub fn of_files(self) -> Trouble
        ensures fault { is_file_fault result.fault ≡ true }
        ensures kept { is_file_fault self.fault ≡ true → result ≡ self }
    {
        match self.fault {
            RunFault::Memory | RunFault::Read | RunFault::Endless | RunFault::Write { .. } => self,
            _ => Trouble::from(RunFault::Read),
        }
    }
}

impl Reason {
    /// Returns whether there is no such file.
    fn is_missing(self) -> bool
        ensures { result ≡ is_missing self }
    {
        match self {
            Reason::System(number) => number == NO_SUCH_FILE,
            _ => false,
        }
    }

    /// Returns this reason of what a link leads to, as one of the link.
    fn of_link(self) -> Reason
        ensures { result ≡ reason_of_link self }
    {
        if self.is_missing() {
            Reason::LinkToNothing
        } else {
            self
        }
    }
}

impl Cause {
    /// Returns whether there is no file of the name that was given.
    pub fn is_no_file(&self) -> bool
        ensures { result ≡ is_no_file self.now }
    {
        match self.subject {
            Subject::File => self.reason.is_missing(),
            _ => false,
        }
    }

    /// Returns the cause of a call that failed with this error; none if it isn't the system's.
    pub fn after(subject: Subject, error: &io::Error) -> Option<Cause>
        ensures { result ≡ refused_with subject (raw_os_error error.now) }
    {
        match error.raw_os_error() {
            Some(number) => Some(Cause {
                subject,
                reason: Reason::System(number),
            }),
            None => None,
        }
    }
}

impl From<AllocError> for Trouble {
    ghost use Rattle.std.specs.Prelude.{None};
    ghost use Rattle.tf_session.specs.declared.fault.RunFault.TheVariants.{Memory};

    ghost from_gives = { λ _ trouble. trouble ≡ record { fault = Memory; cause = None } };

    fn from(_: AllocError) -> Trouble {
        Trouble {
            fault: RunFault::Memory,
            cause: None,
        }
    }
}

impl From<RunFault> for Trouble {
    ghost use Rattle.std.specs.Prelude.{None};

    ghost from_gives = { λ given trouble. trouble ≡ record { fault = given; cause = None } };

    fn from(fault: RunFault) -> Trouble {
        Trouble { fault, cause: None }
    }
}

impl fmt::Display for Cause {
    fn fmt<W: fmt::Write>(&self, f: &mut fmt::Formatter<W>) -> fmt::Result {
        match self.subject {
            Subject::File => {}
            Subject::Journal => f.write_str("its journal: ")?,
            Subject::FirstJournal => f.write_str("its journal can't be created: ")?,
            Subject::NewText => f.write_str("its .tfnew: ")?,
            Subject::NewJournal => f.write_str("its .tfundo.new: ")?,
        }
        match self.reason {
            Reason::System(IS_FOLDER) => f.write_str("is a folder: name its files"),
            Reason::System(number) => { write!(f, "{}", io::Error::from_raw_os_error(number)) }
            Reason::Changed => f.write_str("changed by another program"),
            Reason::OfAnotherUser => f.write_str(
                "another user may have written it: delete it, or chmod go-w it if it is yours",
            ),
            Reason::NotRegular => f.write_str("no regular file"),
            Reason::Link => f.write_str("a link that is not followed"),
            Reason::LinkToNothing => f.write_str("a link to a file that is not there"),
            Reason::OverSizeLimit => f.write_str("over the limit of a file's size"),
            Reason::Over(limit) => write!(f, "over {limit} bytes"),
            Reason::InUnreadFolder => f.write_str("its folder can't be read"),
        }
    }
}
