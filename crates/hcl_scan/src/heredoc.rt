//! Heredocs: where one opens, and its text.

ghost use Rattle.std.specs.Prelude.{◌≡◌, ◌+◌, ◌<◌, ◌≤◌, ◌&&◌, true, length, drop, IsUtf8, if◌then◌else◌};
ghost use Rattle.std.specs.Prelude.{Some, None};
ghost use Rattle.hcl_scan.specs.Characters.{is_prefix_of};
ghost use Rattle.hcl_scan.specs.Closing.{is_at_line_end_or_eof, is_closing_line, heredoc_unit};
ghost use Rattle.hcl_scan.specs.Inner.LexemeStarts.{identifier, is_at_opening, opening};
ghost use Rattle.hcl_scan.specs.Inner.RunLength.{run_length};
ghost use Rattle.hcl_scan.specs.Inner.HeredocToken.{line_end_length, heredoc_start_length};
ghost use Rattle.hcl_scan.specs.Inner.HeredocToken.{is_at_heredoc_start, open_with_marker, here_open};
ghost use Rattle.hcl_scan.specs.Inner.HeredocToken.{closing_line_length, heredoc_text_token, heredoc_token};

use crate::bytes::{byte_at, is_at_line_end, skip_whitespace, slice, whitespace_end};
use crate::ident::{identifier, is_word_start};
use crate::runs::{Unit, is_sigil, ordinary_end, sigil_len};
use crate::sixteen::count_heredoc_bytes;
use hcl_token::Kind;

/// Whether a line ends at the place.
fn is_at_line_end_or_eof(text: &[u8], at: usize) -> bool
    requires { at ≤ length text.now }
    ensures { result ≡ is_at_line_end_or_eof (drop at text.now) }
{
    at == text.len() || is_at_line_end(text, at)
}

/// Whether the marker is at the place. Most lines begin with another byte than it.
#[inline(always)]
fn is_marker_at(text: &[u8], at: usize, marker: &[u8]) -> bool
    requires { at ≤ length text.now }
    ensures value { result ≡ is_prefix_of marker.now (drop at text.now) }
    ensures within { result ≡ true → at + length marker.now ≤ length text.now }
{
    if !marker.is_empty() && byte_at(text, at) != marker[0] {
        false
    } else {
        has_marker_at(text, at, marker)
    }
}

/// Whether the marker is at the place, by all its bytes.
#[inline(never)]
fn has_marker_at(text: &[u8], at: usize, marker: &[u8]) -> bool
    requires { at ≤ length text.now }
    ensures value { result ≡ is_prefix_of marker.now (drop at text.now) }
    ensures within { result ≡ true → at + length marker.now ≤ length text.now }
{
    slice(text, at, text.len()).starts_with(marker)
}

/// Whether the heredoc closes at the place, if a line begins there.
#[inline(always)]
fn closes_at(text: &[u8], at: usize, marker: &[u8], at_line_start: bool) -> bool
    requires { at ≤ length text.now }
    ensures { result ≡ (at_line_start && is_closing_line marker.now (drop at text.now)) }
{
    at_line_start && is_closing_line(text, at, marker)
}

/// Whether the line that begins at the place closes the heredoc.
#[inline(always)]
fn is_closing_line(text: &[u8], at: usize, marker: &[u8]) -> bool
    requires { at ≤ length text.now }
    ensures { result ≡ is_closing_line marker.now (drop at text.now) }
{
    let (name, _) = skip_whitespace(text, at);
    if !is_marker_at(text, name, marker) {
        return false;
    }
    let end = whitespace_end(text, name + marker.len());
    is_at_line_end_or_eof(text, end)
}

/// Returns the number of bytes of the closing line that begins at the place, if one does.
#[inline(never)]
fn closing_line_len(text: &[u8], at: usize, marker: &[u8]) -> Option<usize>
    requires { at ≤ length text.now }
    ensures { result ≡ (if is_closing_line marker.now (drop at text.now)
        then Some (closing_line_length marker.now (drop at text.now)) else None) }
{
    let name = whitespace_end(text, at);
    if !is_marker_at(text, name, marker) {
        return None;
    }
    let end = whitespace_end(text, name + marker.len());
    if is_at_line_end_or_eof(text, end) {
        Some(end - at)
    } else {
        None
    }
}

/// Returns what `closing_line_len` does if a line of the heredoc begins at the place, else none.
#[inline(always)]
fn closing_token_len(text: &[u8], at: usize, marker: &[u8], at_line_start: bool) -> Option<usize>
    requires { at ≤ length text.now }
    ensures { result ≡ (if at_line_start && is_closing_line marker.now (drop at text.now)
        then Some (closing_line_length marker.now (drop at text.now)) else None) }
{
    if at_line_start {
        closing_line_len(text, at, marker)
    } else {
        None
    }
}

/// A unit of the text of the heredoc with this marker.
#[derive(Clone, Copy)]
struct HeredocUnit<'t> {
    marker: &'t [u8],
}

impl<'t> Unit for HeredocUnit<'t> {
    ghost len = { λ unit. heredoc_unit unit.marker.now };

    #[tactic(auto, using(crate::proofs::HeredocPlaces::heredoc_unit_at))]
    fn len_at(&self, text: &[u8], at: usize, at_line_start: bool) -> usize {
        // for the proof: the trait requires this test; `text_end` calls this where no line begins
        if closing_token_len(text, at, self.marker, at_line_start).is_some() {
            return 0;
        }
        let b = text[at];
        if is_sigil(b) {
            sigil_len(text, at + 1, b)
        } else {
            1
        }
    }

    fn is_ordinary(&self, b: u8) -> bool {
        !(is_sigil(b) | (b == b'\n'))
    }

    #[inline(always)]
    fn count_ordinary_of_16(&self, text: &[u8], at: usize) -> usize {
        count_heredoc_bytes(text, at)
    }
}

/// Returns the end of the longest run of units of a heredoc's text from a place on; `at_line_start`
/// says whether a line begins there.
///
/// A line is read as one piece where it does not close the heredoc.
#[inline(always)]
fn text_end(text: &[u8], from: usize, at_line_start: bool, marker: &[u8]) -> usize
    requires { from ≤ length text.now }
    ensures value { result
        ≡ from + run_length (heredoc_unit marker.now) at_line_start (drop from text.now) }
    ensures within { result ≤ length text.now }
{
    let unit = HeredocUnit { marker };
    let mut at = from;
    let mut is_line_start = at_line_start;
    // for the proof: the label names the loop's invariant
    'lines: loop {
        if closes_at(text, at, marker, is_line_start) {
            return at;
        }
        let on = ordinary_end(&unit, text, at);
        if on == text.len() {
            return on;
        }
        if text[on] == b'\n' {
            at = on + 1;
            is_line_start = true;
            continue 'lines;
        }
        let len = unit.len_at(text, on, false);
        if len == 0 {
            return on;
        }
        at = on + len;
        is_line_start = text[at - 1] == b'\n';
    }
}

/// Whether the opening of a template sequence is at the place: `${` or `%{`.
///
/// HCL native syntax specification, Template Interpolations and Template Directives.
pub fn is_at_opening(text: &[u8], at: usize) -> bool
    requires { at ≤ length text.now }
    ensures { result ≡ is_at_opening (drop at text.now) }
{
    is_sigil(byte_at(text, at)) && byte_at(text, at + 1) == b'{'
}

/// Returns the opening of a template sequence at a place where there is one: its kind, and the
/// number of its bytes, of which a `~` is one.
pub fn opening(text: &[u8], at: usize) -> (Kind, usize)
    requires { at ≤ length text.now }
    ensures { result ≡ opening (drop at text.now) }
{
    let kind = if byte_at(text, at) == b'$' {
        Kind::InterpOpen
    } else {
        Kind::DirectiveOpen
    };
    let len = if byte_at(text, at + 2) == b'~' { 3 } else { 2 };
    (kind, len)
}

/// Returns the opening or the literal text at a place where the heredoc is not closed.
fn heredoc_text_token(
    text: &[u8],
    at: usize,
    marker: &[u8],
    at_line_start: bool,
) -> Option<(Kind, usize)>
    requires { at ≤ length text.now }
    ensures { result ≡ heredoc_text_token marker.now at_line_start (drop at text.now) }
{
    if is_at_opening(text, at) {
        return Some(opening(text, at));
    }
    let end = text_end(text, at, at_line_start, marker);
    if end == at {
        None
    } else {
        Some((Kind::HereLit, end - at))
    }
}

/// Returns the token in the text of a heredoc with this marker; `at_line_start` says whether a line
/// begins at the place.
pub fn heredoc_token(
    text: &[u8],
    at: usize,
    marker: &[u8],
    at_line_start: bool,
) -> Option<(Kind, usize)>
    requires { at ≤ length text.now }
    ensures { result ≡ heredoc_token marker.now at_line_start (drop at text.now) }
{
    match closing_token_len(text, at, marker, at_line_start) {
        Some(len) => Some((Kind::HereClose, len)),
        None => heredoc_text_token(text, at, marker, at_line_start),
    }
}

/// Returns the number of bytes of the line end at the place, 0 if there is none.
fn line_end_len(text: &[u8], at: usize) -> usize
    requires { at ≤ length text.now }
    ensures value { result ≡ line_end_length (drop at text.now) }
    ensures within { at + result ≤ length text.now }
{
    let first = byte_at(text, at);
    if first == b'\n' {
        1
    } else if first == b'\r' && byte_at(text, at + 1) == b'\n' {
        2
    } else {
        0
    }
}

/// Returns the number of bytes of the `<<` or `<<-` at the place.
fn heredoc_start_len(text: &[u8], at: usize) -> usize
    requires { at ≤ length text.now }
    ensures { result ≡ heredoc_start_length (drop at text.now) }
{
    if byte_at(text, at + 2) == b'-' { 3 } else { 2 }
}

/// Returns the opening of a heredoc whose marker is `before` bytes after the place, if a line end
/// follows the marker.
fn open_with_marker(text: &str, at: usize, before: usize) -> Option<(Kind, usize)>
    requires within { at + before ≤ length text.now }
    requires utf8 { IsUtf8 (drop (at + before) text.now) }
    ensures { result ≡ open_with_marker before (drop (at + before) text.now)
        (identifier (drop (at + before) text.now)) }
{
    let bytes = text.as_bytes();
    let name = at + before;
    if !is_word_start(byte_at(bytes, name)) {
        return None;
    }
    match identifier(text, name) {
        Some((_, len)) => {
            let end = line_end_len(bytes, name + len);
            if end == 0 {
                None
            } else {
                Some((Kind::HereOpen, before + len + end))
            }
        }
        None => None,
    }
}

/// Whether `<<` is at the place.
pub fn is_at_heredoc_start(text: &[u8], at: usize) -> bool
    requires { at ≤ length text.now }
    ensures { result ≡ is_at_heredoc_start (drop at text.now) }
{
    byte_at(text, at) == b'<' && byte_at(text, at + 1) == b'<'
}

/// Returns the opening of a heredoc at the place, if there is one: `<<` or `<<-`, the marker, and
/// the line end.
///
/// HCL native syntax specification, Template Expressions.
pub fn here_open(text: &str, at: usize) -> Option<(Kind, usize)>
    requires within { at ≤ length text.now }
    requires utf8 { IsUtf8 (drop at text.now) }
    ensures { result ≡ here_open (drop at text.now) }
{
    let bytes = text.as_bytes();
    if is_at_heredoc_start(bytes, at) {
        open_with_marker(text, at, heredoc_start_len(bytes, at))
    } else {
        None
    }
}
