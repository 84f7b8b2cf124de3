//! What there is in arguments that clap refuses: a command, options, numbers, FILEs.

use crate::counterparts::Place;
use crate::options::Subcommand;
use crate::similar::is_like_file;

/// Returns the command that an argument names; the first is the name of the program.
pub fn command_at(args: &[&str], at: usize) -> Option<Subcommand> {
    match args.get(at) {
        Some(word) => Subcommand::by_name(word),
        None => None,
    }
}

/// Returns where the command may be that is typed after the first option, or after its value. If
/// both name one it is unknown which is meant: then it returns 0, where none is.
pub fn command_index(args: &[&str]) -> usize {
    match command_at(args, 2) {
        Some(_) if command_at(args, 3).is_none() => 2,
        Some(_) => 0,
        None => 3,
    }
}

/// Returns where options of a command are given.
pub fn place_of(subcommand: Subcommand, args: &[&str]) -> Place {
    match subcommand {
        Subcommand::Fmt if is_given(args, "--check") || is_given(args, "-check") => Place::Check,
        Subcommand::Fmt => Place::Fmt,
        Subcommand::Lint => Place::Lint,
        Subcommand::Fix => Place::Fix,
        Subcommand::Revert if is_given(args, "--list") || is_given(args, "-list") => Place::List,
        Subcommand::Revert if has_take(args) => Place::Take,
        Subcommand::Revert => Place::Revert,
    }
}

/// Returns whether a word is an argument before `--`, after which each is a FILE.
pub fn is_given(args: &[&str], word: &str) -> bool {
    for arg in args {
        if *arg == "--" {
            return false;
        }
        if *arg == word {
            return true;
        }
    }
    false
}

/// Returns whether `revert` is to undo the command of a number.
pub fn has_take(args: &[&str]) -> bool {
    for arg in args {
        if *arg == "--" {
            return false;
        }
        if is_take(option_word(arg)) {
            return true;
        }
    }
    false
}

/// Returns whether a word is the option with the number of a command.
fn is_take(word: &str) -> bool {
    word == "--take" || word == "-take"
}

/// Returns an option without its value.
pub fn option_word(arg: &str) -> &str {
    match arg.split_once('=') {
        Some(parts) => parts.0,
        None => arg,
    }
}

/// Returns the number of `--take`, or `N` if digits are not what follows it.
pub fn taken_number<'a>(args: &[&'a str]) -> &'a str {
    let mut last: &'a str = "";
    for arg in args {
        if *arg == "--" {
            return "N";
        }
        let (option, number) = match arg.split_once('=') {
            Some(parts) => parts,
            None => (last, *arg),
        };
        if is_take(option) && is_number(number) {
            return number;
        }
        last = *arg;
    }
    "N"
}

/// Returns whether a word is a FILE rather than a command or a rule.
pub fn is_file(word: &str) -> bool {
    word == "-" || is_like_file(word)
}

/// Returns the word in a command's place: after `help` the word that follows it.
pub fn command_word<'a>(args: &[&'a str]) -> Option<&'a str> {
    let word = *args.get(1)?;
    match args.get(2) {
        Some(asked) if word == "help" => Some(*asked),
        _ => Some(word),
    }
}

/// Returns whether a word is digits alone.
pub fn is_number(word: &str) -> bool {
    !word.is_empty() && word.as_bytes().iter().all(|b| (48 <= *b) & (*b <= 57))
}
