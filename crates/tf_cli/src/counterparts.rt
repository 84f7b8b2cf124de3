//! Tables of the options and commands of other programs, and of options of tfk that are written
//! otherwise, with what there is in their place.
//!
//! A line of WRITING_ROWS, or of TRACKED_ROWS at `fmt` and `fix`, names a command that writes FILE,
//! or says how FILE is written; one of any other row doesn't. At each place a word is in one row at
//! most of those that do, TRACKED_ROWS aside, and in one at most of the others, which is said if
//! the arguments say to write nothing. A line that changes files if it is pasted has all that the
//! arguments choose: FILEs, rules and the command to undo. If they are not in it, it names the
//! help.

ghost use Rattle.std.specs.Prelude.{◌≡◌};
ghost use Rattle.tf_cli.specs.Inner.Advice.{line_writes};

mod changes;
mod commands;
mod formatters;
mod general;
mod linters;
mod writing;

use crate::counterparts::changes::{change_rows, revert_rows};
use crate::counterparts::commands::{command_rows, own_rows};
use crate::counterparts::formatters::{folder_rows, format_rows};
use crate::counterparts::general::{general_rows, plan_rows, stream_rows};
use crate::counterparts::linters::lint_rows;
use crate::counterparts::writing::{tracked_rows, writing_rows};

/// Where a word is given.
#[derive(Clone, Copy, PartialEq)]
pub enum Place {
    /// In a command's place.
    Command,
    /// An option before any command.
    Start,
    /// An option of this command.
    Fmt,
    Lint,
    Fix,
    Revert,
    /// An option of `fmt --check`, which reads FILE alone.
    Check,
    /// An option of `revert --list`, which reads FILE alone.
    List,
    /// An option of `revert --take`, which undoes one command.
    Take,
}

/// What is said of a word, or of arguments.
#[derive(Clone, Copy)]
pub enum Line {
    /// It names no command that writes FILE.
    Reads(&'static str),
    /// It names one, or says how FILE is written.
    Writes(&'static str),
}

impl Line {
    /// Returns whether it names a command that writes FILE, or says how FILE is written.
    pub fn writes(self) -> bool
        ensures { result ≡ line_writes self }
    {
        matches!(self, Line::Writes(_))
    }

    /// Returns its text.
    pub fn text(self) -> &'static str {
        match self {
            Line::Reads(text) => text,
            Line::Writes(text) => text,
        }
    }
}

/// A row of a table.
pub struct Counterpart {
    /// Words, options without their dashes. An option has the value that follows its `=` here; if
    /// there is no `=`, any value or none.
    pub words: &'static [&'static str],
    /// Where they are given.
    pub places: &'static [Place],
    /// What is said after the word.
    pub line: &'static str,
}

impl Counterpart {
    /// Returns whether the row has a word at a place.
    fn is_of(&self, place: Place, word: &str) -> bool {
        self.places.contains(&place) && self.words.contains(&word)
    }
}

pub const ANY: &[Place] = &[
    Place::Start,
    Place::Fmt,
    Place::Check,
    Place::Lint,
    Place::Fix,
    Place::Revert,
    Place::Take,
    Place::List,
];

/// The options of a command, whichever it is.
pub const COMMANDS: &[Place] = &[
    Place::Fmt,
    Place::Check,
    Place::Lint,
    Place::Fix,
    Place::Revert,
    Place::Take,
    Place::List,
];

pub const ANY_BUT_REVERT: &[Place] = &[
    Place::Start,
    Place::Fmt,
    Place::Check,
    Place::Lint,
    Place::Fix,
];

/// The options of `terraform fmt` and of other formatters.
pub const FORMATTER: &[Place] = &[Place::Start, Place::Fmt, Place::Check];

pub const REVERT: &[Place] = &[Place::Revert, Place::Take, Place::List];

/// The options of `revert` that undoes a command.
pub const UNDO: &[Place] = &[Place::Revert, Place::Take];

/// Options for folders.
pub const FOLDERS: &[&str] = &["recursive", "r", "R", "all"];

/// Options that say to write nothing, beside those for a check, a list or a comparison.
pub const DRY_RUN: &[&str] = &[
    "dry-run",
    "dryrun",
    "n",
    "no-write",
    "nowrite",
    "preview",
    "noop",
    "no-fix",
    "write=false",
    "w=false",
    "in-place=false",
    "i=false",
    "fix=false",
];

/// What `revert` takes, and how it is run for several files.
pub const SEVERAL: &str = "revert takes one FILE; for several, one at a time: tfk revert -- FILE";

pub const SEVERAL_LISTS: &str =
    "revert takes one FILE; for several, one at a time: tfk revert --list -- FILE";

/// What is said of several files.
pub const ON_SEVERAL: Line = Line::Writes(SEVERAL);

pub const ON_SEVERAL_LISTS: Line = Line::Reads(SEVERAL_LISTS);

/// What checks FILE in place of `fmt`, `fix` and `revert`.
pub const CHECKED: &str = "tfk fmt --check -- FILE writes nothing; see tfk fmt --help";

pub const LINTED: &str =
    "tfk lint -- FILE reports the issues and writes nothing; see tfk lint --help";

pub const LISTED: &str = "tfk revert --list -- FILE says what can be undone, and writes nothing";

/// Returns what is said after this option for folders at a place, if nothing else is given that
/// chooses what is done; none if no row has it.
pub fn folders_line_of(place: Place, word: &str) -> Option<Line> {
    let text = text_in(tracked_rows(), place, word)?;
    match place {
        Place::Fmt | Place::Fix => Some(Line::Writes(text)),
        _ => Some(Line::Reads(text)),
    }
}

/// Returns what is said after this word at a place; none if no row has it.
pub fn line_of(place: Place, word: &str) -> Option<Line> {
    match text_in(writing_rows(), place, word) {
        Some(text) => Some(Line::Writes(text)),
        None => match reading_text_of(place, word) {
            Some(text) => Some(Line::Reads(text)),
            None => None,
        },
    }
}

// For the proof: a function for each table, since one with all rows exceeds the prover's limit.

/// Returns what is said after this word at a place that names no command which writes FILE; none if
/// no row has it.
pub fn reading_text_of(place: Place, word: &str) -> Option<&'static str> {
    let tables = [
        format_rows(),
        folder_rows(),
        lint_rows(),
        change_rows(),
        revert_rows(),
        stream_rows(),
        general_rows(),
        plan_rows(),
        own_rows(),
        command_rows(),
    ];
    for table in tables {
        if let Some(text) = text_in(table, place, word) {
            return Some(text);
        }
    }
    None
}

/// Returns what the first of these rows says that has this word at a place.
fn text_in(table: &'static [Counterpart], place: Place, word: &str) -> Option<&'static str> {
    for row in table {
        if row.is_of(place, word) {
            return Some(row.line);
        }
    }
    None
}
