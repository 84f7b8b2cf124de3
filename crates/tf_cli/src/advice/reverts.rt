//! What is said of an argument that `revert` doesn't take: a FILE more, a number.

use crate::advice::arguments::{
    has_take, is_given, is_number, option_word, place_of, taken_number,
};
use crate::advice::{Advice, LIST_OR_TAKE, NUMBER};
use crate::counterparts::{Line, ON_SEVERAL, ON_SEVERAL_LISTS, Place};
use crate::options::{Flag, Subcommand};

/// What clap's text on an unknown argument begins with; the argument follows, as clap reads it, so
/// that of `-recursive` it has `-r`.
const UNKNOWN_ARGUMENT: &str = "error: unexpected argument '";

const NAME: &str =
    "revert takes one FILE, --take the number of a command: tfk revert --list -- FILE prints it";

const ALL_LISTED: &str = "revert takes one FILE; tfk revert --list -- FILE lists all its commands";

/// Returns what is said of an argument that `revert` doesn't take: a FILE more, a number below 0.
pub fn advice_on_revert<'a>(text: &str, args: &[&'a str]) -> Option<Advice<'a>> {
    let argument = text.strip_prefix(UNKNOWN_ARGUMENT)?;
    let is_option = argument.starts_with('-') && has_unknown_option(args);
    match argument.as_bytes() {
        [b'-', b'0'..=b'9', ..] if is_option => Some(Advice::Line(Line::Reads(NUMBER))),
        _ if is_option => None,
        _ => match advice_on_numbers(args) {
            Some(advice) => Some(advice),
            None => Some(advice_on_files(args)),
        },
    }
}

/// Returns whether an argument before `--` begins with a dash and is no option of `revert`. If none
/// does, clap has refused a FILE.
fn has_unknown_option(args: &[&str]) -> bool {
    for arg in args {
        if *arg == "--" {
            return false;
        }
        if arg.starts_with('-') && !is_option_of(Subcommand::Revert, option_word(arg)) {
            return true;
        }
    }
    false
}

/// Returns whether a word is an option of this command.
fn is_option_of(subcommand: Subcommand, word: &str) -> bool {
    for flag in Flag::ALL {
        if flag.is_of(subcommand) && word.strip_prefix("--") == Some(flag.name()) {
            return true;
        }
    }
    false
}

/// Returns what is said of several FILEs of `revert`. It names none of them, since a shell may read
/// more in a name than the name.
fn advice_on_files<'a>(args: &[&'a str]) -> Advice<'a> {
    match place_of(Subcommand::Revert, args) {
        Place::List if has_take(args) => Advice::Line(Line::Reads(LIST_OR_TAKE)),
        Place::List => Advice::Line(ON_SEVERAL_LISTS),
        Place::Take => Advice::Several(taken_number(args)),
        _ => Advice::Line(ON_SEVERAL),
    }
}

/// Returns what is said of the first of these that may be the number or the name of a command that
/// is to be reverted; none with `--take`, which is followed by one.
fn advice_on_numbers<'a>(args: &[&'a str]) -> Option<Advice<'a>> {
    if has_take(args) {
        return None;
    }
    let is_list = is_given(args, "--list");
    for arg in args {
        match Subcommand::by_name(arg) {
            Some(Subcommand::Fmt | Subcommand::Fix) => return Some(Advice::Line(Line::Reads(NAME))),
            _ if is_number(arg) && is_list => return Some(Advice::Line(Line::Reads(ALL_LISTED))),
            _ if is_number(arg) && is_number_with_file(args) => return Some(Advice::Number(*arg)),
            _ => {}
        }
    }
    None
}

/// Returns whether `revert` is given a number and a FILE, and nothing else.
fn is_number_with_file(args: &[&str]) -> bool {
    match args {
        [_, _, first, second] => is_number(first) != is_number(second),
        _ => false,
    }
}
