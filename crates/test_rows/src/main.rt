//! Rows of examples: each has a call, its text, and the expected answer.
//!
//! The arguments name subjects; the rows of a subject are in the file `SUBJECT.rows`. What is
//! printed are the rows with another answer, each with that answer, and whether all were tried.
#![tactic(auto)]

mod actual;
mod edit_syntax;
mod journals;
mod layouts;
mod lints;
mod mistakes;
mod parses;
mod records;
mod rescan;
mod row;
mod sessions;
mod squashes;
mod swaps;
mod tokens;

use actual::Answer;
use anyhow::Result;
use row::Row;
use std::{env, fs};

/// How many rows there are at least.
const LEAST: u64 = 2300;

fn main(rt: HostRuntime) -> Result<()> {
    let words: Vec<String> = env::args(&rt)?.collect(rt.alloc())?;
    let mut count = 0u64;
    for subject in words.iter().skip(1) {
        let rows = run(&rt, subject.as_str())?;
        count = count.saturating_add(rows);
    }
    if count < LEAST {
        println!(rt; "{count} rows, fewer than {LEAST}")?;
    }
    Ok(())
}

/// Tries the rows of a subject, and answers how many there are.
fn run(rt: &HostRuntime, subject: &str) -> Result<u64> {
    let name = format!(in rt.alloc(); "{subject}.rows")?;
    let text = fs::read_to_string(rt, name.as_str())?;
    let count = match subject {
        "sessions" => sessions::try_rows(rt, text.as_str())?,
        _ => try_rows(rt, subject, text.as_str())?,
    };
    print_count(rt, name.as_str(), count, rows_in(text.as_str()))?;
    Ok(count)
}

/// Prints whether all rows of a file, which has some, were tried.
fn print_count(rt: &HostRuntime, name: &str, count: u64, rows: u64) -> Result<()> {
    if count == rows && rows > 0 {
        println!(rt; "{name}: all rows")?;
    } else {
        println!(rt; "{name}: {count} of {rows} rows")?;
    }
    Ok(())
}

/// The number of rows of a text, counted by the bytes with which lines begin, so that one that is
/// not tried is found.
fn rows_in(text: &str) -> u64 {
    let mut count = 0u64;
    let mut before = b'\n';
    for byte in text.bytes() {
        if before == b'\n' && byte != b'\n' && byte != b'#' {
            count = count.saturating_add(1);
        }
        before = byte;
    }
    count
}

/// Tries the rows of a text, and answers how many there are.
fn try_rows(rt: &HostRuntime, subject: &str, text: &str) -> Result<u64> {
    let mut count = 0u64;
    for (number, line) in text.lines().enumerate() {
        if !line.is_empty() && !line.starts_with('#') {
            count = count.saturating_add(1);
            try_row(rt, subject, number.saturating_add(1), line)?;
        }
    }
    Ok(count)
}

/// Prints the answer if it is not the one of the row.
fn try_row(rt: &HostRuntime, subject: &str, number: usize, line: &str) -> Result<()> {
    let row = Row::read(rt.alloc(), line);
    let mut out = Answer::new(rt.alloc());
    run_row(subject, &row, &mut out);
    if !out.is_of(&row) {
        let found = out.as_text();
        println!(rt; "{subject}.rows:{number}: {line}\n  answered: {found}")?;
    }
    Ok(())
}

fn run_row(subject: &str, row: &Row, out: &mut Answer) {
    match subject {
        "records" => records::answer(row, out),
        "squashes" => squashes::answer(row, out),
        "swaps" => swaps::answer(row, out),
        "journals" => journals::answer(row, out),
        "tokens" => tokens::answer(row, out),
        "parses" => parses::answer(row, out),
        "mistakes" => mistakes::answer(row, out),
        "layouts" => layouts::answer(row, out),
        "lints" => lints::answer(row, out),
        _ => out.hold(false, "no such subject"),
    }
}
