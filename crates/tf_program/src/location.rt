//! The line and the column of a byte, for errors.

ghost use Rattle.std.specs.Prelude.{◌≡◌, ◌≤◌, count_by, length, take, slice_index};
ghost use Rattle.hcl_scan.specs.Characters.{is_prefix_of};
ghost use Rattle.hcl_scan.specs.Tokenization.{byte_order_mark};
ghost use Rattle.hcl_token.specs.Place.{is_lf, last_line};
ghost use Rattle.tf_program.specs.Location.{IsLocation, without_mark, columns};
ghost use Rattle.tf_program.specs.Location.{byte_of, byte_of_parse_fault};

use hcl_token::clusters;
use memchr::memrchr;
use tf_session::{ParseFault, RunFault};

/// A line and a column, both counted from 1. A column counts extended grapheme clusters.
#[derive(Clone, Copy)]
pub struct Location {
    pub line: usize,
    pub column: usize,
}

/// Returns the line and the column of the byte `at` of a text, which is counted from 0; where the
/// text has no such byte, those of its end. The byte order mark at the start of a text takes no
/// column. It is one pass over the text before the byte and another over the line, and takes no
/// memory.
pub fn location_of(text: &[u8], at: usize) -> Location
    ensures { IsLocation text.now at result }
{
    let before = without_mark(prefix(text, at));
    Location {
        line: 1 + count_line_feeds(before),
        column: 1 + columns(last_line(before)),
    }
}

/// Returns the first `at` bytes of a text, or all of it if it has fewer.
fn prefix(text: &[u8], at: usize) -> &[u8]
    ensures { result.now ≡ take at text.now }
{
    if at < text.len() { &text[..at] } else { text }
}

/// Returns a text without the byte order mark that it may begin with.
fn without_mark(text: &[u8]) -> &[u8]
    ensures { result.now ≡ without_mark text.now }
{
    if has_mark(text) { &text[3..] } else { text }
}

/// Returns whether a text begins with a byte order mark.
fn has_mark(text: &[u8]) -> bool
    ensures { result ≡ is_prefix_of byte_order_mark text.now }
{
    byte_at(text, 0) == 0xef && byte_at(text, 1) == 0xbb && byte_at(text, 2) == 0xbf
}

/// Returns a byte of a text; 0 after its end.
fn byte_at(text: &[u8], at: usize) -> u8
    ensures { result ≡ slice_index text.now at }
{
    if at < text.len() { text[at] } else { 0 }
}

/// Returns how many line feeds a text has.
fn count_line_feeds(text: &[u8]) -> usize
    ensures count { result ≡ count_by is_lf text.now }
    ensures within { result ≤ length text.now }
{
    let mut count = 0;
    for byte in text {
        if *byte == b'\n' {
            count += 1;
        }
    }
    count
}

/// Returns what follows the last line feed of a text; all of it if there is none.
fn last_line(text: &[u8]) -> &[u8]
    ensures { result.now ≡ last_line text.now }
{
    match memrchr(b'\n', text) {
        Some(at) => &text[at + 1..],
        None => text,
    }
}

/// Returns how many columns a part of a line takes: its bytes, if it is not UTF-8.
fn columns(part: &[u8]) -> usize
    ensures count { result ≡ columns part.now }
    ensures within { result ≤ length part.now }
{
    match str::from_utf8(part) {
        Ok(_) => clusters(part),
        Err(_) => part.len(),
    }
}

/// Returns the byte of the file at which an error is, if it is at one. The errors of a journal are
/// at none.
pub fn byte_of(fault: &RunFault) -> Option<usize>
    ensures { result ≡ byte_of fault.now }
{
    match fault {
        RunFault::Scan(fault) => fault.at(),
        RunFault::Parse(fault) => byte_of_parse_fault(fault),
        _ => None,
    }
}

/// Returns the byte at which parsing failed, if it failed at one.
fn byte_of_parse_fault(fault: &ParseFault) -> Option<usize>
    ensures { result ≡ byte_of_parse_fault fault.now }
{
    match fault {
        ParseFault::Syntax { at } | ParseFault::TooDeep { at } => Some(*at),
        ParseFault::Memory => None,
    }
}
