//! What is said before clap's text on arguments that it refuses. clap's tip is to take an unknown
//! option for a FILE, and a FILE in a command's place for another command: then it is left out. The
//! former is left out where nothing is said, too.

ghost use Rattle.std.specs.Prelude.{◌≡◌, false, IfSome};
ghost use Rattle.tf_cli.specs.Inner.Advice.{advice_writes};

mod arguments;
mod missing;
mod reverts;
mod unknown;

use crate::advice::arguments::{command_at, command_word, place_of};
use crate::advice::missing::advice_on_missing;
use crate::advice::unknown::{
    advice_before_command, advice_on_command, advice_on_option, advice_on_unknown,
};
use crate::counterparts::{CHECKED, LINTED, LISTED, Line, Place, reading_text_of};
use crate::dry_run::dry_run_word;
use crate::options::Subcommand;
use clap::error::ErrorKind;

/// What each tip in a text of clap's begins with.
pub const TIP: &str = "  tip: ";

/// What the tip begins with that names an option; the option follows.
pub const SIMILAR_TIP: &str = "  tip: a similar argument exists: '";

pub const NUMBER: &str =
    "--take N: N is the number of a command, as tfk revert --list -- FILE prints it";

pub const LIST_OR_TAKE: &str =
    "revert takes one FILE, and --list or --take N, not both; see tfk revert --help";

const NO_READING_COMMAND: &str = "name a command first: \
    tfk fmt --check -- FILE checks the layout, tfk lint -- FILE lints; see tfk --help";

/// What is said of arguments that clap refuses.
#[derive(Clone, Copy)]
pub enum Advice<'a> {
    /// There is no such word; what there is in its place.
    Unknown { word: &'a str, line: Line },
    /// An option of the command with one dash; its name.
    OneDash { word: &'a str, name: &'static str },
    /// A FILE that was taken for the rule of an option.
    TakenForRule { file: &'a str, option: &'a str },
    /// The number of a command, beside FILE.
    Number(&'a str),
    /// No FILE after this number of `--take`.
    NoFile(&'a str),
    /// Several FILEs after this number of `--take`.
    Several(&'a str),
    Line(Line),
}

impl<'a> Advice<'a> {
    /// Returns whether it names a command that writes FILE, or says how FILE is written.
    fn writes(&self) -> bool
        ensures { result ≡ advice_writes self.now }
    {
        match self {
            Advice::Unknown { line, .. } => line.writes(),
            Advice::OneDash { name, .. } => *name == "take",
            Advice::TakenForRule { .. } => false,
            Advice::Number(_) => true,
            Advice::NoFile(_) => true,
            Advice::Several(_) => true,
            Advice::Line(line) => line.writes(),
        }
    }
}

/// Returns what is said of an error of this kind that clap has said this text of; none if that says
/// enough. It names no command that writes FILE if the arguments say to write nothing.
pub fn advice_for<'a>(kind: ErrorKind, text: &str, args: &[&'a str]) -> Option<Advice<'a>> {
    let advice = any_advice_for(kind, text, args);
    match dry_run_word(args) {
        Some(word) => reading_advice(advice, word, args),
        None => advice,
    }
}

/// Returns this advice, or if it names what writes FILE, that on this word, with which the arguments
/// say to write nothing.
fn reading_advice<'a>(
    advice: Option<Advice<'a>>,
    word: &'a str,
    args: &[&'a str],
) -> Option<Advice<'a>>
    ensures { IfSome result (λ said. advice_writes said ≡ false) }
{
    match advice {
        Some(advice) if advice.writes() => Some(advice_on_dry_run(word, args)),
        _ => advice,
    }
}

/// Returns what is said of this word, with which the arguments say to write nothing; if there is
/// nothing, which command reads FILE.
fn advice_on_dry_run<'a>(word: &'a str, args: &[&'a str]) -> Advice<'a>
    ensures { advice_writes result ≡ false }
{
    match row_on_dry_run(word, args) {
        Some(advice) if !advice.writes() => advice,
        _ => Advice::Line(Line::Reads(reading_command(args))),
    }
}

/// Returns what a row says of this option, or of the word in a command's place.
fn row_on_dry_run<'a>(word: &'a str, args: &[&'a str]) -> Option<Advice<'a>> {
    let first = *args.get(1)?;
    match Subcommand::by_name(first) {
        Some(subcommand) => advice_on_option(place_of(subcommand, args), word, args, 1),
        None if first.starts_with('-') => advice_before_command(word, args),
        None => {
            let word = command_word(args)?;
            let line = Line::Reads(reading_text_of(Place::Command, word)?);
            Some(Advice::Unknown { word, line })
        }
    }
}

/// Returns which command reads FILE in place of the one that is given.
fn reading_command(args: &[&str]) -> &'static str {
    match command_at(args, 1) {
        None => NO_READING_COMMAND,
        Some(Subcommand::Fmt) => CHECKED,
        Some(Subcommand::Lint | Subcommand::Fix) => LINTED,
        Some(Subcommand::Revert) => LISTED,
    }
}

/// Returns what is said of an error of this kind that clap has said this text of; none if that says
/// enough.
fn any_advice_for<'a>(kind: ErrorKind, text: &str, args: &[&'a str]) -> Option<Advice<'a>> {
    match kind {
        // the number is the only value that clap looks into
        ErrorKind::ValueValidation => Some(Advice::Line(Line::Reads(NUMBER))),
        ErrorKind::MissingRequiredArgument => advice_on_missing(args),
        ErrorKind::InvalidSubcommand => advice_on_command(text, args),
        ErrorKind::UnknownArgument | ErrorKind::TooManyValues => advice_on_unknown(text, args),
        _ => None,
    }
}

/// Returns the option, with its dashes, that clap's text says to be similar to an unknown one; none
/// if it would write FILE where the arguments say to write nothing.
pub fn similar_option<'a>(text: &'a str, args: &[&str]) -> Option<&'a str> {
    let (_, after) = text.split_once(SIMILAR_TIP)?;
    let (option, _) = after.split_once('\'')?;
    if option == "--take" && dry_run_word(args).is_some() {
        return None;
    }
    Some(option)
}

/// Returns what is before the tips in a text of clap's, and what is after them.
pub fn around_tips(text: &str) -> (&str, &str) {
    match text.split_once(TIP) {
        Some(around) => match around.1.split_once("\n\n") {
            Some(tips) => (around.0, tips.1),
            None => (text, ""),
        },
        None => (text, ""),
    }
}
