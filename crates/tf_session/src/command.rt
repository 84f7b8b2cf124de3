//! The commands of a session, and its replies.

ghost use Rattle.std.specs.Prelude.{◌≡◌, ◌<◌, ◌+◌, ◌^◌};
ghost use Rattle.tf_session.specs.Inner.Faults.{fault_of_move, counted_records};

use crate::fault::RunFault;
use edit_record::lists::Refused;
use edit_record::swaps::MoveFault;
use hcl_layout::LayoutFault;
use hcl_scan::ScanFault;
use hcl_tree::ParseFault;
use std::error::Error;
use std::fmt;
use tf_lint::{FixFault, LintFault, Rule, RuleSet};

/// A command of a session.
#[derive(Clone, Copy, Debug, PartialEq, Eq)]
pub enum Command {
    /// Formats the text.
    Fmt,
    /// Fixes what the rules of the set find, as far as it can be fixed.
    Fix(RuleSet),
    /// Reverts the last command that changed the text.
    Revert,
    /// Reverts the command whose record has this number, the oldest being 1, and keeps what the
    /// later ones did.
    Take(u32),
}

/// What a command did.
#[derive(Clone, Copy, Debug, PartialEq, Eq)]
pub struct Done {
    /// Whether the text changed.
    pub changed: bool,
    /// How many issues were fixed.
    pub fixed: usize,
    /// How many issues of the chosen rules the new text has.
    pub left: usize,
}

/// Why a command was refused.
#[derive(Clone, Copy, PartialEq, Eq)]
pub enum Fault {
    /// The text has no tokens: it is too long, not UTF-8, or breaks a rule of the scanner.
    Scan(ScanFault),
    /// The tokens do not follow the grammar, or more than `MAX_NESTING` constructs are nested.
    Parse(ParseFault),
    /// What the fix of the rule makes of the text does not parse.
    FixBroken { rule: Rule },
    /// The new text would have more than `MAX_TEXT` bytes.
    TooLong,
    /// There is no command to revert.
    NoRecord,
    /// The text does not have what the record added, or two records do not follow each other.
    Refused(Refused),
    /// Memory ran out.
    Memory,
    /// What the command did overlaps or touches what the command of this record did, the oldest
    /// being 1.
    Blocked { number: usize },
}

impl fmt::Display for Fault {
    ghost use Rattle.tf_session.specs.Faults.{message_of, run_fault_of};

    ghost output = { λ fault. message_of (run_fault_of fault) };

    fn fmt<W: fmt::Write>(&self, f: &mut fmt::Formatter<W>) -> fmt::Result {
        fmt::Display::fmt(&RunFault::from(*self), f)
    }
}

impl Error for Fault {}

// The message says all: a form of its own would only be more to prove.
impl fmt::Debug for Fault {
    fn fmt<W: fmt::Write>(&self, f: &mut fmt::Formatter<W>) -> fmt::Result {
        fmt::Display::fmt(self, f)
    }
}

impl From<FixFault> for Fault {
    ghost use Rattle.tf_session.specs.Inner.Faults.{fault_of_fix};

    ghost from_gives = { λ fault given. given ≡ fault_of_fix fault };

    fn from(fault: FixFault) -> Self {
        match fault {
            FixFault::Scan(fault) => Fault::Scan(fault),
            FixFault::Parse(fault) => Fault::Parse(fault),
            FixFault::FixBroken { rule } => Fault::FixBroken { rule },
            FixFault::TooLong => Fault::TooLong,
            FixFault::Memory => Fault::Memory,
        }
    }
}

impl From<LayoutFault> for Fault {
    ghost use Rattle.tf_session.specs.Inner.Faults.{fault_of_layout};

    ghost from_gives = { λ fault given. given ≡ fault_of_layout fault };

    fn from(fault: LayoutFault) -> Self {
        match fault {
            LayoutFault::TooLong => Fault::TooLong,
            LayoutFault::Memory => Fault::Memory,
        }
    }
}

impl From<LintFault> for Fault {
    ghost use Rattle.tf_session.specs.Inner.Faults.{fault_of_lint};

    ghost from_gives = { λ fault given. given ≡ fault_of_lint fault };

    fn from(fault: LintFault) -> Self {
        match fault {
            LintFault::TooLong => Fault::TooLong,
            LintFault::Memory => Fault::Memory,
        }
    }
}

impl From<Refused> for Fault {
    ghost use Rattle.tf_session.specs.Inner.Faults.{fault_of_refused};

    ghost from_gives = { λ refused given. given ≡ fault_of_refused refused };

    fn from(refused: Refused) -> Self {
        match refused {
            Refused::Memory => Fault::Memory,
            refused => Fault::Refused(refused),
        }
    }
}

/// Converts an error of `move_to_end`, which counts the records after number `number` from 0, to
/// one of the command.
pub fn fault_of_move(fault: MoveFault, number: usize) -> Fault
    requires { number + counted_records fault < 2 ^ 64 }
    ensures { result ≡ fault_of_move number fault }
{
    match fault {
        MoveFault::Length { expected, found } => {
            Fault::Refused(Refused::Length { expected, found })
        }
        MoveFault::Blocked { number: passed } => Fault::Blocked {
            number: number + passed + 1,
        },
        MoveFault::TooLong => Fault::TooLong,
        MoveFault::Memory => Fault::Memory,
    }
}

/// The reply to one command.
pub type Reply = Result<Done, Fault>;
