//! What is said of a command with no FILE.

use crate::advice::arguments::{
    command_at, has_take, is_file, option_word, place_of, taken_number,
};
use crate::advice::{Advice, LIST_OR_TAKE};
use crate::counterparts::{Line, Place};

const AFTER_RULES: &str = "name the files after the rules: -- FILE; see tfk lint --help";

/// Returns what is said of a command with no FILE.
pub fn advice_on_missing<'a>(args: &[&'a str]) -> Option<Advice<'a>> {
    if let Some(advice) = advice_on_taken_file(args) {
        return Some(advice);
    }
    let subcommand = command_at(args, 1)?;
    match place_of(subcommand, args) {
        Place::Take => Some(Advice::NoFile(taken_number(args))),
        Place::List if has_take(args) => Some(Advice::Line(Line::Reads(LIST_OR_TAKE))),
        place => Some(Advice::Line(line_on_missing(place, args))),
    }
}

/// Returns what is said of a FILE that is the value of an option, which is a rule.
fn advice_on_taken_file<'a>(args: &[&'a str]) -> Option<Advice<'a>> {
    let mut last: &'a str = "";
    for arg in args {
        let (option, file) = match arg.split_once('=') {
            Some(parts) => parts,
            None => (last, *arg),
        };
        if is_rule_option(option) && is_file(file) {
            return Some(Advice::TakenForRule { file, option });
        }
        last = *arg;
    }
    None
}

/// Returns the line for a command with no FILE; it writes no file if the arguments write none.
fn line_on_missing(place: Place, args: &[&str]) -> Line {
    match place {
        Place::Check => {
            Line::Reads("name the files: tfk fmt --check -- *.tf; see tfk fmt --help")
        }
        Place::Fmt => Line::Writes("name the files: tfk fmt -- *.tf; see tfk fmt --help"),
        Place::Lint | Place::Fix if has_rules(args) => Line::Reads(AFTER_RULES),
        Place::Lint => Line::Reads("name the files: tfk lint -- *.tf; see tfk lint --help"),
        Place::Fix => Line::Writes("name the files: tfk fix -- *.tf; see tfk fix --help"),
        _ => Line::Reads(
            "name the file: tfk revert --list -- FILE lists its commands; see tfk revert --help",
        ),
    }
}

/// Returns whether an argument enables or disables a rule.
fn has_rules(args: &[&str]) -> bool {
    args.iter().any(|arg| is_rule_option(option_word(arg)))
}

/// Returns whether a word is an option that has a rule.
fn is_rule_option(word: &str) -> bool {
    word == "--disable-rule" || word == "--enable-rule"
}
