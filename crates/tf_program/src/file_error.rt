//! Why the work on a file failed, and the lines that say so.

ghost use Rattle.std.specs.Prelude.{◌≡◌, ◌⊎◌, ℕ, List, [], IfSome, None, IfOk, OnOk, OnErr, length};
ghost use Rattle.std.specs.Prelude.{string_bytes, codes};
ghost use Rattle.tf_program.specs.Inner.Hints.{hint_of, hint_of_answer, said_if};
ghost use Rattle.tf_program.specs.Inner.Sentences.{IsSaidAt};
ghost use Rattle.tf_program.specs.Location.{byte_of, IsLocation, IsLocationOf, IsLocatedIn};
ghost use Rattle.tf_program.specs.Printing.{channel_of, PrintsAll, PrintsPart, Prints, PrintsError};
ghost use Rattle.tf_program.specs.Printing.{IsErrorText, IsShortErrorText, IsSecondLine};
ghost use Rattle.tf_program.specs.Printing.{IsMessage, IsReasonLine};
ghost use Rattle.tf_program.specs.Printing.{error_line, located_line};

use crate::hint::{Hint, hint_of, hint_of_answer};
use crate::location::{Location, byte_of, location_of};
use crate::printing::print;
use arrayvec::ArrayString;
use hcl_explain::{Said, say_parse_fault, say_scan_fault};
use std::alloc::{AllocError, Global};
use std::fmt::Write as _;
use std::io::Write;
use tf_files::{Cause, Trouble};
use tf_session::{Command, RunFault, Told};

/// The most bytes of a message that is printed where memory has run out. No error has one of more.
const MOST_MESSAGE: usize = 256;

const OUT_OF_MEMORY: &str = "out of memory";

/// What is said of a pattern in place of a name, which is no file's.
const NO_MATCH: &str = "no such file: is the pattern quoted, or does it match no name?";

/// What is said of a name that begins with a dash of a page or a word processor.
const NO_OPTION: &str = "no such file: write options with the hyphen `-` of the keyboard";

/// What is said of an error of a text, and where that is printed.
#[derive(Drop)]
pub struct Explained {
    location: Location,
    sentence: String,
}

/// An error of a file.
#[derive(Drop)]
pub struct FileError {
    pub fault: RunFault,
    /// Where it is in the file, if that is to be reported.
    location: Option<Location>,
    /// What is to be said of it in place of its own text, unless memory ran out for that.
    explained: Option<Explained>,
    /// Why the file can't be read or written, if that is known.
    cause: Option<Cause>,
    /// What an error of the journal means.
    hint: Option<Hint>,
}

impl From<RunFault> for FileError {
    ghost use Rattle.std.specs.Prelude.{None};

    ghost from_gives = { λ given error.
        error ≡ record { fault = given; location = None; explained = None; cause = None; hint = None } };

    fn from(fault: RunFault) -> FileError {
        FileError {
            fault,
            location: None,
            explained: None,
            cause: None,
            hint: None,
        }
    }
}

impl From<Trouble> for FileError {
    ghost use Rattle.std.specs.Prelude.{None};

    ghost from_gives = { λ given error.
        error ≡ record {
          fault = given.fault;
          location = None;
          explained = None;
          cause = given.cause;
          hint = None;
        } };

    fn from(trouble: Trouble) -> FileError {
        FileError {
            fault: trouble.fault,
            location: None,
            explained: None,
            cause: trouble.cause,
            hint: None,
        }
    }
}

impl FileError {
    /// Returns the error of the file with this text, with its location if it is at a byte, and what
    /// is said of it.
    pub fn located(alloc: Global, fault: RunFault, text: &[u8], hint: Option<Hint>) -> FileError
        ensures fault { result.fault ≡ fault }
        ensures location { IsLocationOf text.now (byte_of fault) result.location }
        ensures explained { IfSome result.explained
            (λ explained. IsSaidAt text.now fault explained.location) }
        ensures cause { result.cause ≡ None }
        ensures hint { result.hint ≡ hint }
    {
        let location = location_in(&fault, text);
        let explained = explain_in(alloc, &fault, text);
        FileError {
            fault,
            location,
            explained,
            cause: None,
            hint,
        }
    }

    /// Returns the error of a command that did nothing to the file of this text, located if `locate`
    /// says so.
    pub fn of_refused(
        alloc: Global,
        command: Command,
        fault: RunFault,
        text: &[u8],
        locate: bool,
    ) -> FileError
        ensures fault { result.fault ≡ fault }
        ensures location { IsLocatedIn text.now locate result }
        ensures cause { result.cause ≡ None }
        ensures hint { result.hint ≡ said_if locate (hint_of command fault (length text.now)) }
    {
        if locate {
            let hint = hint_of(command, &fault, text.len());
            FileError::located(alloc, fault, text, hint)
        } else {
            FileError::from(fault)
        }
    }

    /// Returns an error that is at no byte of the file, with what it means if `locate` says so.
    pub fn unlocated(fault: RunFault, hint: Option<Hint>, locate: bool) -> FileError
        ensures fault { result.fault ≡ fault }
        ensures location { result.location ≡ None }
        ensures explained { result.explained ≡ None }
        ensures cause { result.cause ≡ None }
        ensures hint { result.hint ≡ said_if locate hint }
    {
        FileError {
            fault,
            location: None,
            explained: None,
            cause: None,
            hint: if locate { hint } else { None },
        }
    }

    /// Returns the error of an action on this text, located if `locate` says so.
    pub fn of_text(alloc: Global, fault: RunFault, text: &[u8], locate: bool) -> FileError
        ensures fault { result.fault ≡ fault }
        ensures location { IsLocatedIn text.now locate result }
        ensures cause { result.cause ≡ None }
        ensures hint { result.hint ≡ said_if locate (hint_of_answer fault) }
    {
        if locate {
            let hint = hint_of_answer(&fault);
            FileError::located(alloc, fault, text, hint)
        } else {
            FileError::from(fault)
        }
    }

    /// Prints the lines of the error of a file at once, so that lines of programs that run side by
    /// side don't mix. Without memory for that, the first is printed in pieces, and one that says
    /// so in place of the other. If standard error takes nothing, the exit status still reports the
    /// error.
    pub fn report<F: Write>(&self, alloc: Global, name: &str, locate: bool, errors: &mut Told<F>)
        ensures { PrintsError name.now locate self.now
            (channel_of F.contents errors.old) (channel_of F.contents errors.new) }
    {
        match self.lines(alloc, name, locate) {
            Ok(lines) => {
                let _ = print(lines.as_bytes(), errors);
            }
            Err(_) => {
                let _ = self.print_in_pieces(name, locate, errors);
            }
        }
    }

    /// Prints the lines of the error where there is no memory for them.
    ///
    /// # Errors
    ///
    /// Those of printing.
    fn print_in_pieces<F: Write>(
        &self,
        name: &str,
        locate: bool,
        errors: &mut Told<F>,
    ) -> Result<(), RunFault>
        ensures { (text : List ℕ) × IsShortErrorText name.now self.now text
            × Prints text (channel_of F.contents errors.old) (channel_of F.contents errors.new) }
    {
        let message = short_message(self.fault);
        print_line(name, message.as_str(), errors)?;
        if self.has_second_line(locate) {
            return print_line(name, OUT_OF_MEMORY, errors);
        }
        Ok(())
    }

    /// Returns whether there is more to say than the error.
    fn has_second_line(&self, locate: bool) -> bool {
        self.location.is_some() || self.hint.is_some() || (locate && self.cause.is_some())
    }

    /// Returns the line `tfk: NAME: ERROR` and, if errors are located, one that says where it is in
    /// the file and begins with `NAME:LINE:COLUMN`, or why the file can't be read or written.
    fn lines(&self, alloc: Global, name: &str, locate: bool) -> Result<String, AllocError>
        ensures { IfOk result (λ lines. IsErrorText name.now locate self.now (string_bytes lines)) }
    {
        let second = self.second_line(alloc, name, locate)?;
        let message = message_of(alloc, self.fault)?;
        let text = format!(in alloc; "tfk: {name}: {message}\n{second}")?;
        Ok(text)
    }

    /// Returns the line that says more of the error, with the line feed; nothing if there is none.
    fn second_line(&self, alloc: Global, name: &str, locate: bool) -> Result<String, AllocError>
        ensures { IfOk result (λ line. IsSecondLine name.now locate self.now.explained
            self.now.location self.now.cause self.now.hint (string_bytes line)) }
    {
        if let Some(Explained { location, sentence }) = &self.explained {
            return located_line(alloc, name, *location, sentence.as_str());
        }
        if let Some(location) = self.location {
            let message = message_of(alloc, self.fault)?;
            return located_line(alloc, name, location, text_after_byte(message.as_str()));
        }
        reason_line(alloc, name, locate, self.cause, self.hint)
    }
}

/// Returns the message of an error; if it is too long for that, the one that memory ran out.
fn short_message(fault: RunFault) -> ArrayString<MOST_MESSAGE>
    ensures { IsMessage fault result.bytes ⊎ (result.bytes ≡ codes "out of memory") }
{
    let mut message = ArrayString::new();
    if write!(message, "{fault}").is_ok() {
        return message;
    }
    out_of_memory()
}

/// Returns the message that memory ran out.
fn out_of_memory() -> ArrayString<MOST_MESSAGE>
    ensures { result.bytes ≡ codes "out of memory" }
{
    let mut message = ArrayString::new();
    message.push_str(OUT_OF_MEMORY);
    message
}

/// Prints the line `tfk: NAME: MESSAGE` in pieces.
///
/// # Errors
///
/// Those of printing.
fn print_line<F: Write>(name: &str, message: &str, errors: &mut Told<F>) -> Result<(), RunFault>
    ensures done { OnOk result (PrintsAll (error_line name.now message.now)
        (channel_of F.contents errors.old) (channel_of F.contents errors.new)) }
    ensures part { OnErr result (PrintsPart (error_line name.now message.now)
        (channel_of F.contents errors.old) (channel_of F.contents errors.new)) }
{
    print(b"tfk: ", errors)?;
    print(name.as_bytes(), errors)?;
    print(b": ", errors)?;
    print(message.as_bytes(), errors)?;
    print(b"\n", errors)
}

/// Returns the message of an error.
fn message_of(alloc: Global, fault: RunFault) -> Result<String, AllocError>
    ensures { IfOk result (λ message. IsMessage fault (string_bytes message)) }
{
    format!(in alloc; "{fault}")
}

/// Returns the line that says why a file can't be read or written, or what an error of its journal
/// means; nothing if that is not known, or not to be said.
fn reason_line(
    alloc: Global,
    name: &str,
    locate: bool,
    cause: Option<Cause>,
    hint: Option<Hint>,
) -> Result<String, AllocError>
    ensures { IfOk result (λ line. IsReasonLine name.now locate cause hint (string_bytes line)) }
{
    let sentence = match (cause, hint) {
        (Some(cause), _) if locate => cause_sentence(alloc, name, cause)?,
        (None, Some(hint)) => format!(in alloc; "{hint}")?,
        _ => return Ok(String::new(alloc)),
    };
    format!(in alloc; "{name}: error: {sentence}\n")
}

/// Returns why the file of this name can't be read or written.
fn cause_sentence(alloc: Global, name: &str, cause: Cause) -> Result<String, AllocError> {
    if !cause.is_no_file() {
        return format!(in alloc; "{cause}");
    }
    if has_dash(name) {
        return String::from_str(alloc, NO_OPTION);
    }
    if is_pattern(name) {
        return String::from_str(alloc, NO_MATCH);
    }
    format!(in alloc; "{cause}")
}

/// Returns whether a name begins with a dash that is no hyphen: U+2010 to U+2015, or U+2212.
fn has_dash(name: &str) -> bool {
    name.chars().next().is_some_and(|first| matches!(first, '\u{2010}'..='\u{2015}' | '\u{2212}'))
}

/// Returns whether a name has what a shell takes for a part of a pattern.
fn is_pattern(name: &str) -> bool {
    name.bytes().any(|byte| matches!(byte, b'*' | b'?' | b'['))
}

/// Returns the line of an error at this location, of which this is said.
fn located_line(
    alloc: Global,
    name: &str,
    location: Location,
    sentence: &str,
) -> Result<String, AllocError>
    ensures { IfOk result (λ line. string_bytes line ≡ located_line name.now location sentence.now) }
{
    let Location { line, column } = location;
    format!(in alloc; "{name}:{line}:{column}: error: {sentence}\n")
}

/// Returns what is said of an error of this text, and where; none of any other error, or if memory
/// runs out.
fn explain_in(alloc: Global, fault: &RunFault, text: &[u8]) -> Option<Explained>
    ensures { IfSome result (λ explained. IsSaidAt text.now fault.now explained.location) }
{
    match fault {
        RunFault::Scan(fault) => match say_scan_fault(alloc, text, *fault) {
            Ok(Some(said)) => Some(explained_at(text, said)),
            _ => None,
        },
        RunFault::Parse(fault) => match say_parse_fault(alloc, text, *fault) {
            Ok(Some(said)) => Some(explained_at(text, said)),
            _ => None,
        },
        _ => None,
    }
}

/// Returns what is said of an error, with its location.
fn explained_at(text: &[u8], said: Said) -> Explained
    ensures { IsLocation text.now said.at result.location }
{
    Explained {
        location: location_of(text, said.at),
        sentence: said.sentence,
    }
}

/// Returns where an error is in this text, if it is at a byte.
fn location_in(fault: &RunFault, text: &[u8]) -> Option<Location>
    ensures { IsLocationOf text.now (byte_of fault.now) result }
{
    match byte_of(fault) {
        Some(at) => Some(location_of(text, at)),
        None => None,
    }
}

/// Returns the text of an error without its byte: `byte 5: not UTF-8` is `not UTF-8`.
fn text_after_byte(text: &str) -> &str {
    match text.split_once(": ") {
        Some((_, after)) => after,
        None => text,
    }
}
