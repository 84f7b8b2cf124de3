//! Why there is nothing to be done, and what is then printed.

ghost use Rattle.std.specs.Prelude.{◌≡◌, ◌↔◌, true};
ghost use Rattle.clap.specs.Words.{kind_of};
ghost use Rattle.tf_cli.specs.Reading.{IsExitOfKind};
ghost use Rattle.tf_cli.specs.Tasks.{SaysUsage};

use crate::advice::{Advice, SIMILAR_TIP, advice_for, around_tips, similar_option};
use clap::Error;
use clap::error::ErrorKind;
use std::alloc::{AllocError, AllocFailed, Global};

/// Why there is nothing to be done.
#[derive(Drop)]
pub enum Exit {
    /// Help, a text for standard output.
    Help(String),
    /// The arguments are wrong: a text for standard error.
    UsageError(String),
    Memory,
}

impl From<AllocError> for Exit {
    ghost use Rattle.tf_cli.specs.declared.exits.Exit.TheVariants.{Memory};

    ghost from_gives = { λ _ e. e ≡ Memory };

    fn from(_error: AllocError) -> Exit {
        Exit::Memory
    }
}

impl<T: Drop> From<AllocFailed<T>> for Exit {
    ghost use Rattle.tf_cli.specs.declared.exits.Exit.TheVariants.{Memory};

    ghost from_gives = { λ _ e. e ≡ Memory };

    fn from(_error: AllocFailed<T>) -> Exit {
        Exit::Memory
    }
}

/// Returns the end that says this on standard error.
pub fn usage_error(alloc: Global, text: &str) -> Exit
    ensures { SaysUsage text.now result }
{
    match String::from_str(alloc, text) {
        Ok(said) => Exit::UsageError(said),
        Err(_) => Exit::Memory,
    }
}

/// Returns how the program ends that clap has stopped.
pub fn exit_for(alloc: Global, error: &Error, args: &[&str]) -> Exit
    ensures memory { kind_of error.now ≡ ErrorKind.OutOfMemory → result ≡ Exit.Memory }
    ensures kind { IsExitOfKind (kind_of error.now) result }
{
    if is_out_of_memory(error) {
        return Exit::Memory;
    }
    printed_exit(alloc, error, args)
}

/// Returns whether this error of clap's is that memory ran out.
fn is_out_of_memory(error: &Error) -> bool
    ensures { result ≡ true ↔ kind_of error.now ≡ ErrorKind.OutOfMemory }
{
    matches!(error.kind(), ErrorKind::OutOfMemory)
}

/// Returns the end that prints an error of clap's, which may be the help.
fn printed_exit(alloc: Global, error: &Error, args: &[&str]) -> Exit
    ensures { IsExitOfKind (kind_of error.now) result }
{
    match error_text(alloc, error, args) {
        Ok(text) => exit_with_text(error, text),
        Err(_) => Exit::Memory,
    }
}

/// Returns the end that prints this text of an error: help is for standard output.
fn exit_with_text(error: &Error, text: String) -> Exit
    ensures { IsExitOfKind (kind_of error.now) result }
{
    if error.use_stderr() {
        return Exit::UsageError(text);
    }
    Exit::Help(text)
}

/// Returns what is printed of an error of clap's in these arguments, which may be the help.
fn error_text(alloc: Global, error: &Error, args: &[&str]) -> Result<String, AllocError> {
    let text = error.to_string(alloc)?;
    match advice_for(error.kind(), text.as_str(), args) {
        Some(advice) => advised_text(alloc, advice, text.as_str()),
        None if matches!(error.kind(), ErrorKind::UnknownArgument) => {
            untipped_text(alloc, text.as_str(), args)
        }
        None => Ok(text),
    }
}

/// Returns a text of clap's on an unknown option in these arguments without the tip to take it for a
/// FILE, which a command would write.
fn untipped_text(alloc: Global, text: &str, args: &[&str]) -> Result<String, AllocError> {
    let (before, after) = around_tips(text);
    match similar_option(text, args) {
        Some(option) => format!(in alloc; "{before}{SIMILAR_TIP}{option}'\n\n{after}"),
        None => format!(in alloc; "{before}{after}"),
    }
}

/// Returns this advice, and after it a text of clap's without its tips.
fn advised_text(alloc: Global, advice: Advice<'_>, text: &str) -> Result<String, AllocError> {
    let (before, after) = around_tips(text);
    match advice {
        Advice::Unknown { word, line } => {
            let text = line.text();
            format!(in alloc; "tfk: no {word}: {text}\n{before}{after}")
        }
        Advice::OneDash { word, name } => {
            format!(in alloc; "tfk: no {word}: write --{name}\n{before}{after}")
        }
        Advice::TakenForRule { file, option } => format!(in alloc;
            "tfk: {file} was taken for the rule of {option}: write {option} RULE -- FILE; \
                see tfk lint --help\n{before}{after}"
        ),
        Advice::Number(number) => format!(in alloc;
            "tfk: revert takes one FILE; for its command {number} alone: \
                tfk revert --take {number} -- FILE\n{before}{after}"
        ),
        Advice::NoFile(number) => format!(in alloc;
            "tfk: name the file: tfk revert --take {number} -- FILE; \
                see tfk revert --help\n{before}{after}"
        ),
        Advice::Several(number) => format!(in alloc;
            "tfk: revert takes one FILE; for several, one at a time: \
                tfk revert --take {number} -- FILE; \
                tfk revert --list -- FILE prints its numbers\n{before}{after}"
        ),
        Advice::Line(line) => {
            let text = line.text();
            format!(in alloc; "tfk: {text}\n{before}{after}")
        }
    }
}
