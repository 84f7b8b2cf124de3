//! Texts and journals that are cut off or have a wrong byte, readers and writers that fail: what
//! each call answers, and that nothing else changes.
//!
//! What is printed are the texts at which something is not as it is to be, each with the first such
//! thing, and that no text is lost.

mod failing_readers;
mod failing_writers;
mod faults;
mod journals;
mod mutations;
mod one_command;
mod replies;
mod sessions;
mod streams;
mod texts;

use crate::report::{Report, print_least};
use anyhow::Result;
use std::fs;

/// Tries the texts of these names, each in the file `damage/NAME.tf`.
pub fn run(rt: &HostRuntime, names: &[String]) -> Result<()> {
    let mut texts = 0usize;
    for name in names {
        texts = texts.saturating_add(try_one(rt, name.as_str())?);
    }
    let mut report = Report::new(rt.alloc());
    failing_readers::hold_endless(&mut report);
    print_failures(rt, "a reader without an end", &report)?;
    print_least(rt, texts, 2500, "damaged texts")
}

fn print_failures(rt: &HostRuntime, what: &str, report: &Report) -> Result<()> {
    if let Some(wrong) = report.wrong() {
        println!(rt; "{what}: {wrong}")?;
    }
    Ok(())
}

/// Tries a text in all ways, and answers how many damaged ones were made of it.
fn try_one(rt: &HostRuntime, name: &str) -> Result<usize> {
    let file = format!(in rt.alloc(); "damage/{name}.tf")?;
    let text = fs::read(rt, file.as_str())?;
    corrupted_texts(rt, name, &text)?;
    let mut report = Report::new(rt.alloc());
    worked_text(&text, &mut report);
    print_failures(rt, name, &report)?;
    Ok(mutations::count(text.len()))
}

/// Reports the corrupted texts at which something is wrong.
fn corrupted_texts(rt: &HostRuntime, name: &str, text: &[u8]) -> Result<()> {
    for number in 0..mutations::count(text.len()) {
        let mut report = Report::new(rt.alloc());
        let changed = mutations::of(text, number, &mut report);
        texts::hold(&changed, &mut report);
        if let Some(wrong) = report.wrong() {
            println!(rt; "{name}, damage {number}: {wrong}")?;
        }
    }
    Ok(())
}

/// What can be done to the text, and its journal.
fn worked_text(text: &[u8], report: &mut Report) {
    let state = sessions::worked(text, report);
    journals::hold(&state, report);
    failing_readers::hold(&state, report);
    failing_writers::hold(text, &state, report);
}
