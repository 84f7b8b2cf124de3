//! Why a call over readers and writers was refused.

ghost use Rattle.std.specs.Prelude.{◌≡◌};

use crate::command::Fault;
use edit_record::RecordFault;
use edit_record::lists::Refused;
use hcl_scan::{MAX_TEXT, ScanFault};
use hcl_tree::ParseFault;
use std::alloc::{AllocError, AllocFailed};
use std::error::Error;
use std::fmt;
use tf_lint::Rule;
use tf_stream::ReadFault;

/// What a writer was given.
#[derive(Clone, Copy, Debug, PartialEq, Eq)]
pub enum SessionPart {
    /// The text of a journal.
    Journal,
    /// A configuration text, or the lines of its issues.
    Text,
}

/// Why a call over readers and writers was refused.
#[derive(Clone, Copy, PartialEq, Eq)]
pub enum RunFault {
    /// The text has no tokens: it is too long, not UTF-8, or breaks a rule of the scanner.
    Scan(ScanFault),
    /// The tokens do not follow the grammar, or more than `MAX_NESTING` constructs are nested.
    Parse(ParseFault),
    /// What the fix of the rule makes of the text does not parse.
    FixBroken { rule: Rule },
    /// The new text would have more than `MAX_TEXT` bytes.
    TooLong,
    /// There is no command to revert.
    NoRecord,
    /// The text does not have what the record added, or two records do not follow each other.
    Refused(Refused),
    /// Memory ran out.
    Memory,
    /// What the command did overlaps or touches what the command of this record did, the oldest
    /// being 1.
    Blocked { number: usize },
    /// A read failed, whatever its error.
    Read,
    /// A write or a flush failed, or a write took nothing, after `sent` bytes of the part went out.
    Write { part: SessionPart, sent: usize },
    /// The reader has more bytes than the limit allows.
    Endless,
    /// What was read for a journal is the text of none.
    BadJournal(RecordFault),
}

// By hand, since a derived one does not state the message.
impl fmt::Display for RunFault {
    ghost use Rattle.tf_session.specs.Faults.{message_of};

    ghost output = { message_of };

    fn fmt<W: fmt::Write>(&self, f: &mut fmt::Formatter<W>) -> fmt::Result {
        match self {
            RunFault::Scan(fault) => fmt::Display::fmt(fault, f),
            RunFault::Parse(fault) => fmt::Display::fmt(fault, f),
            RunFault::FixBroken { rule } => {
                let name = rule.name();
                write!(f, "fix of {name} does not parse")
            }
            RunFault::TooLong => write!(f, "the text has more than {MAX_TEXT} bytes"),
            RunFault::NoRecord => f.write_str("nothing to revert"),
            RunFault::Refused(refused) => fmt::Display::fmt(refused, f),
            RunFault::Memory => f.write_str("out of memory"),
            RunFault::Blocked { number } => write!(f, "blocked by command {number}"),
            RunFault::Read => f.write_str("cannot read"),
            RunFault::Write { part: _, sent } => write!(f, "cannot write, {sent} bytes sent"),
            RunFault::Endless => f.write_str("text or journal is too long"),
            RunFault::BadJournal(fault) => write!(f, "journal: {fault}"),
        }
    }
}

impl Error for RunFault {}

// The message says all: a form of its own would only be more to prove.
impl fmt::Debug for RunFault {
    fn fmt<W: fmt::Write>(&self, f: &mut fmt::Formatter<W>) -> fmt::Result {
        fmt::Display::fmt(self, f)
    }
}

impl From<AllocError> for RunFault {
    ghost use Rattle.tf_session.specs.declared.fault.RunFault.TheVariants.{Memory};

    ghost from_gives = { λ _ e. e ≡ Memory };

    fn from(_: AllocError) -> Self {
        RunFault::Memory
    }
}

impl<T: Drop> From<AllocFailed<T>> for RunFault {
    ghost use Rattle.tf_session.specs.declared.fault.RunFault.TheVariants.{Memory};

    ghost from_gives = { λ _ e. e ≡ Memory };

    fn from(_: AllocFailed<T>) -> Self {
        RunFault::Memory
    }
}

impl From<ReadFault> for RunFault {
    ghost use Rattle.tf_session.specs.Inner.Faults.{run_fault_of_read};

    ghost from_gives = { λ fault given. given ≡ run_fault_of_read fault };

    fn from(fault: ReadFault) -> Self {
        match fault {
            ReadFault::Read => RunFault::Read,
            ReadFault::Endless => RunFault::Endless,
            ReadFault::Memory => RunFault::Memory,
        }
    }
}

impl From<RecordFault> for RunFault {
    ghost use Rattle.tf_session.specs.Faults.{run_fault_of_record};

    ghost from_gives = { λ fault given. given ≡ run_fault_of_record fault };

    fn from(fault: RecordFault) -> Self {
        match fault {
            RecordFault::Memory => RunFault::Memory,
            fault => RunFault::BadJournal(fault),
        }
    }
}

impl From<Fault> for RunFault {
    ghost use Rattle.tf_session.specs.Faults.{run_fault_of};

    ghost from_gives = { λ fault given. given ≡ run_fault_of fault };

    fn from(fault: Fault) -> Self {
        match fault {
            Fault::Scan(fault) => RunFault::Scan(fault),
            Fault::Parse(fault) => RunFault::Parse(fault),
            Fault::FixBroken { rule } => RunFault::FixBroken { rule },
            Fault::TooLong => RunFault::TooLong,
            Fault::NoRecord => RunFault::NoRecord,
            Fault::Refused(refused) => RunFault::Refused(refused),
            Fault::Memory => RunFault::Memory,
            Fault::Blocked { number } => RunFault::Blocked { number },
        }
    }
}
