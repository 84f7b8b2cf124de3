//! Texts with mistakes: where each is, what is said of it, and which line terraform names.

use crate::actual::Answer;
use crate::row::Row;
use hcl_explain::{Said, say_parse_fault, say_scan_fault};
use hcl_scan::scan;
use hcl_token::clusters;
use std::alloc::AllocError;
use std::fmt::Write;
use std::str::from_utf8;

pub fn answer(row: &Row, out: &mut Answer) {
    let text = row.text(1);
    match scan(out.alloc, text) {
        Ok(scanned) => match hcl_tree::check(out.alloc, &scanned) {
            Ok(()) => out.put("parses"),
            Err(fault) => write_said(row, say_parse_fault(out.alloc, text, fault), out),
        },
        Err(fault) => write_said(row, say_scan_fault(out.alloc, text, fault), out),
    }
}

/// Writes the line of what is said of the error.
fn write_said(row: &Row, said: Result<Option<Said>, AllocError>, out: &mut Answer) {
    match said {
        Ok(Some(said)) => {
            let before = text_before(row.text(1), said.at);
            let (line, column) = (line_after(before), column_after(before));
            let sentence = said.sentence.as_str();
            let _ = write!(out, "{line}:{column}: error: {sentence}");
            is_beside_terraform(row.word(2), line, out);
        }
        Ok(None) => out.put("nothing is said"),
        Err(_) => out.hold(false, "out of memory"),
    }
}

/// The line is that of terraform, or before it if the row says `opening`.
fn is_beside_terraform(named: &str, line: usize, out: &mut Answer) {
    match named.split_once(' ') {
        Some((number, reason)) => {
            let is_before = line < number.parse::<usize>().unwrap_or(0);
            out.hold(
                is_before && reason == "opening",
                ", which is not before terraform's line",
            );
        }
        None => {
            let number = named.parse::<usize>().unwrap_or(0);
            out.hold(line == number, ", which is not terraform's line");
        }
    }
}

/// The text before a byte, without the byte order mark.
fn text_before(text: &[u8], at: usize) -> &[u8] {
    let before = if at < text.len() { &text[..at] } else { text };
    before.strip_prefix(b"\xef\xbb\xbf").unwrap_or(before)
}

fn line_after(before: &[u8]) -> usize {
    let mut line = 1usize;
    for byte in before {
        if *byte == b'\n' {
            line = line.saturating_add(1);
        }
    }
    line
}

fn column_after(before: &[u8]) -> usize {
    let mut start = 0usize;
    for (i, byte) in before.iter().enumerate() {
        if *byte == b'\n' {
            start = i.saturating_add(1);
        }
    }
    let line = if start < before.len() {
        &before[start..]
    } else {
        &[]
    };
    let columns = match from_utf8(line) {
        Ok(_) => clusters(line),
        Err(_) => line.len(),
    };
    columns.saturating_add(1)
}
