//! Lines of a text: where one ends, and the one that should close a heredoc.

ghost use Rattle.std.specs.Prelude.{◌≡◌, ◌==◌, drop, take, slice_index};
ghost use Rattle.std.specs.List.{prefix_len};
ghost use Rattle.hcl_token.specs.Bytes.{line_feed};
ghost use Rattle.hcl_scan.specs.Characters as scanner;
ghost use Rattle.hcl_scan.specs.Closing as closing;
ghost use Rattle.hcl_scan.specs.Inner.Openings.{is_not_line_break};
ghost use Rattle.hcl_scan.specs.Modes as modes;
ghost use Rattle.hcl_explain.specs.Lines as spec;

/// Returns the first `at` bytes of a text, or all of it if it has fewer.
pub fn prefix(text: &[u8], at: usize) -> &[u8]
    ensures { result.now ≡ take at text.now }
{
    if at < text.len() { &text[..at] } else { text }
}

/// Returns the bytes of a text from one on, or none if it has fewer.
pub fn bytes_from(text: &[u8], at: usize) -> &[u8]
    ensures { result.now ≡ drop at text.now }
{
    if at < text.len() { &text[at..] } else { &[] }
}

fn is_not_line_feed(b: u8) -> bool
    ensures { result ≡ spec.is_not_line_feed b }
{
    !(b == b'\n')
}

/// Returns how many bytes are before the first LF of a text, or how many it has.
fn line_len(text: &[u8]) -> usize
    ensures { result ≡ prefix_len spec.is_not_line_feed text.now }
{
    let mut at = 0usize;
    while at < text.len() && is_not_line_feed(text[at]) {
        at += 1;
    }
    at
}

/// Returns the first line of a text, without its LF.
pub fn first_line(text: &[u8]) -> &[u8]
    ensures { result.now ≡ spec.first_line text.now }
{
    prefix(text, line_len(text))
}

/// Returns a text from its first LF on, or none of it if it has none.
pub fn after_line(text: &[u8]) -> &[u8]
    ensures { result.now ≡ spec.after_line text.now }
{
    bytes_from(text, line_len(text))
}

/// Returns where the line of a byte ends.
pub fn line_end(text: &[u8], at: usize) -> usize
    ensures { result ≡ spec.line_end text.now at }
{
    let rest = bytes_from(text, at);
    let after = bytes_from(rest, line_len(rest));
    text.len().saturating_sub(after.len())
}

/// Returns the number of the line of a byte, from 1.
pub fn line_number(text: &[u8], at: usize) -> usize {
    let mut line = 1usize;
    for byte in prefix(text, at) {
        if *byte == b'\n' {
            line = line.saturating_add(1);
        }
    }
    line
}

/// Whether this byte of a text is a LF.
fn is_line_feed_at(text: &[u8], i: usize) -> bool
    ensures { result ≡ (slice_index text.now i == line_feed) }
{
    match bytes_from(text, i) {
        [first, ..] => *first == b'\n',
        [] => false,
    }
}

/// Returns where the line of a byte begins.
pub fn line_start(text: &[u8], at: usize) -> usize
    ensures { result ≡ spec.line_start text.now at }
{
    let mut start = at;
    while start > 0 {
        let before = start - 1;
        if is_line_feed_at(text, before) {
            return start;
        }
        start = before;
    }
    0
}

fn is_whitespace(b: u8) -> bool
    ensures { result ≡ scanner.is_whitespace b }
{
    (b == b' ') | (b == b'\t')
}

/// Returns how many spaces and tabs a text begins with.
pub fn whitespace_len(text: &[u8]) -> usize
    ensures { result ≡ prefix_len scanner.is_whitespace text.now }
{
    let mut at = 0usize;
    while at < text.len() && is_whitespace(text[at]) {
        at += 1;
    }
    at
}

/// Whether a text begins with a line end, or is empty.
pub fn is_at_line_end_or_eof(text: &[u8]) -> bool
    ensures { result ≡ closing.is_at_line_end_or_eof text.now }
{
    match text {
        [] => true,
        [b'\n', ..] => true,
        [b'\r', b'\n', ..] => true,
        _ => false,
    }
}

/// Whether a text begins with this marker.
fn has_marker(text: &[u8], marker: &[u8]) -> bool
    ensures { result ≡ scanner.is_prefix_of marker.now text.now }
{
    text.starts_with(marker)
}

/// Whether the first line of a text is this marker alone.
fn is_closing_line(text: &[u8], marker: &[u8]) -> bool
    ensures { result ≡ closing.is_closing_line marker.now text.now }
{
    let name = bytes_from(text, whitespace_len(text));
    if !has_marker(name, marker) {
        return false;
    }
    let after = bytes_from(name, marker.len());
    is_at_line_end_or_eof(bytes_from(after, whitespace_len(after)))
}

/// Returns the text from the first line on, but for its own first, that is this marker alone.
fn from_closing<'t>(text: &'t [u8], marker: &[u8]) -> &'t [u8]
    ensures { result.now ≡ spec.from_closing marker.now text.now }
{
    let mut at = 0usize;
    while at < text.len() {
        let is_line_feed = text[at] == b'\n';
        at += 1;
        if is_line_feed && is_closing_line(bytes_from(text, at), marker) {
            return bytes_from(text, at);
        }
    }
    &[]
}

fn is_not_line_break(b: u8) -> bool
    ensures { result ≡ is_not_line_break b }
{
    !((b == b'\n') | (b == b'\r'))
}

/// Returns how many bytes are before the first LF or CR of a text, or how many it has.
fn marker_len(text: &[u8]) -> usize
    ensures { result ≡ prefix_len is_not_line_break text.now }
{
    let mut at = 0usize;
    while at < text.len() && is_not_line_break(text[at]) {
        at += 1;
    }
    at
}

/// Returns what follows the `<<` or `<<-` with which a text begins.
pub fn after_opening(text: &[u8]) -> &[u8]
    ensures { result.now ≡ spec.after_opening text.now }
{
    match text {
        [_, _, b'-', rest @ ..] => rest,
        [_, _, rest @ ..] => rest,
        _ => &[],
    }
}

/// Returns the marker of the heredoc with which a text begins: what follows `<<` or `<<-` in its
/// line.
pub fn marker_of(text: &[u8]) -> &[u8]
    ensures { result.now ≡ modes.marker_of text.now }
{
    let marker = after_opening(text);
    prefix(marker, marker_len(marker))
}

/// Returns where the first line begins that is the marker alone of the heredoc of a byte; the end
/// of the text, if there is none.
pub fn closing_place(text: &[u8], at: usize) -> usize
    ensures { result ≡ spec.closing_place text.now at }
{
    let rest = bytes_from(text, at);
    let line = from_closing(rest, marker_of(rest));
    text.len().saturating_sub(line.len())
}
