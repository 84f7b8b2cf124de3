//! What is said of options and commands that tfk doesn't have.

use crate::advice::arguments::{
    command_at, command_index, command_word, is_file, option_word, place_of,
};
use crate::advice::reverts::advice_on_revert;
use crate::advice::{Advice, TIP};
use crate::counterparts::{Line, Place, folders_line_of, line_of};
use crate::dry_run::option_name;
use crate::options::{Flag, Subcommand};
use crate::similar::is_like_file;

const NO_COMMAND: &str =
    "name a command first: tfk fmt -- FILE formats, tfk lint -- FILE lints; see tfk --help";

const FILE_WITH_DASH: &str = "if it is a FILE, write it after --; see tfk --help";

const COMMANDS: &str = "the commands are fmt, lint, fix and revert; see tfk --help";

/// Returns what is said of a word that is no command: one of another program, a FILE, or any other
/// if clap has no tip.
pub fn advice_on_command<'a>(text: &str, args: &[&'a str]) -> Option<Advice<'a>> {
    let word = command_word(args)?;
    match advice_on_word(Place::Command, word, word) {
        Some(advice) => Some(advice),
        None if is_file(word) => Some(Advice::Line(Line::Writes(NO_COMMAND))),
        None if text.contains(TIP) => None,
        None => Some(Advice::Line(Line::Reads(COMMANDS))),
    }
}

/// Returns what is said of an unknown argument, or of an option with a value that takes none.
pub fn advice_on_unknown<'a>(text: &str, args: &[&'a str]) -> Option<Advice<'a>> {
    match command_at(args, 1) {
        None => advice_on_start(args),
        Some(Subcommand::Revert) => match advice_on_revert(text, args) {
            Some(advice) => Some(advice),
            None => advice_on_options(Subcommand::Revert, args),
        },
        Some(subcommand) => advice_on_options(subcommand, args),
    }
}

/// Returns what is said of the first argument, which clap refuses if it is an option.
fn advice_on_start<'a>(args: &[&'a str]) -> Option<Advice<'a>> {
    advice_before_command(*args.get(1)?, args)
}

/// Returns what is said of this option, if the first argument is one.
pub fn advice_before_command<'a>(option: &'a str, args: &[&'a str]) -> Option<Advice<'a>> {
    let at = command_index(args);
    match command_at(args, at) {
        Some(subcommand) => match advice_on_option(place_of(subcommand, args), option, args, at) {
            Some(advice) => Some(advice),
            None => advice_on_option(Place::Start, option, args, 0),
        },
        None => advice_on_option(Place::Start, option, args, 0),
    }
}

/// Returns what is said of the first of these that is an option of another program, or one of this
/// command with one dash.
fn advice_on_options<'a>(subcommand: Subcommand, args: &[&'a str]) -> Option<Advice<'a>> {
    let place = place_of(subcommand, args);
    for arg in args {
        if *arg == "--" {
            return None;
        }
        if let Some(advice) = advice_on_option(place, *arg, args, 1) {
            return Some(advice);
        }
        if let Some(advice) = advice_on_one_dash(subcommand, *arg) {
            return Some(advice);
        }
    }
    None
}

/// Returns what is said of an option of this command with one dash, with its value or without.
fn advice_on_one_dash<'a>(subcommand: Subcommand, arg: &'a str) -> Option<Advice<'a>> {
    let word = option_word(arg);
    let name = word.strip_prefix('-')?;
    for flag in Flag::ALL {
        if flag.is_of(subcommand) && name == flag.name() {
            return Some(Advice::OneDash {
                word,
                name: flag.name(),
            });
        }
    }
    None
}

/// Returns what is said of an option, with its value or without, among arguments of which that at
/// `command` is the command; 0 if there is none.
pub fn advice_on_option<'a>(
    place: Place,
    arg: &'a str,
    args: &[&'a str],
    command: usize,
) -> Option<Advice<'a>> {
    if let Some(line) = line_for_folders(place, arg, args, command) {
        return Some(Advice::Unknown { word: arg, line });
    }
    let name = option_name(arg)?;
    match advice_on_word(place, arg, name) {
        Some(advice) => Some(advice),
        None => match arg.split_once('=') {
            Some((option, _)) => advice_on_word(place, option, option_name(option)?),
            None => advice_on_file(arg),
        },
    }
}

/// Returns what is said of an option that is rather the name of a file.
fn advice_on_file<'a>(arg: &'a str) -> Option<Advice<'a>> {
    if !is_like_file(arg) {
        return None;
    }
    let line = Line::Reads(FILE_WITH_DASH);
    Some(Advice::Unknown { word: arg, line })
}

/// Returns the line with the command for all files that git tracks, if the option is for folders and
/// no argument but the command and `--check` chooses what is done.
fn line_for_folders(place: Place, arg: &str, args: &[&str], command: usize) -> Option<Line> {
    let name = option_name(arg)?;
    let line = folders_line_of(place, name)?;
    if is_for_all(arg, args, command) {
        Some(line)
    } else {
        None
    }
}

/// Returns whether the arguments are this option, the command, the current folder and `--check`
/// alone. The first is the name of the program.
fn is_for_all(option: &str, args: &[&str], command: usize) -> bool {
    for i in 1..args.len() {
        let arg = args[i];
        if i != command && arg != option && !matches!(arg, "." | "--check" | "-check") {
            return false;
        }
    }
    true
}

/// Returns what is said of a word with this name.
fn advice_on_word<'a>(place: Place, word: &'a str, name: &str) -> Option<Advice<'a>> {
    let line = line_of(place, name)?;
    Some(Advice::Unknown { word, line })
}
