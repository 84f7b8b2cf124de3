//! The tokens that leave the openings as they are, one after the other: those outside of literal
//! text, and the text in quotes.
//!
//! Most tokens are such, and a `"`, its text and the `"` after it are so together. Here no call is
//! given the address of the list, so its place and its length are in registers, and a token's kind
//! is tested where it is known.
//!
//! How many tokens are added here is not fixed by a clause: it decides only how long a scan takes.
//! `tokenize_str` adds each token that is not added here.

ghost use Rattle.std.specs.Prelude.{◌≡◌, ◌+◌, ◌<◌, ◌≤◌, ◌++◌, ◌∷◌, ℕ, List, [], true, false, length, drop};
ghost use Rattle.std.specs.Prelude.{slice_index, Some, IfSome, IsUtf8, vec_len, vec_capacity};
ghost use Rattle.hcl_token.specs.declared.kind.Kind.TheVariants.{QuoteOpen, QuoteLit, QuoteClose};
ghost use Rattle.hcl_scan.specs.Tokenization.{MAX_TEXT};
ghost use Rattle.hcl_scan.specs.Modes as spec;
ghost use Rattle.hcl_scan.specs.Modes.{mode_of, is_literal};
ghost use Rattle.hcl_scan.specs.Modes.Mode.{Quoted};
ghost use Rattle.hcl_scan.specs.Lexeme.{quote_unit};
ghost use Rattle.hcl_scan.specs.Inner.Additions.{IfAdded, IfNotAdded};
ghost use Rattle.hcl_scan.specs.Inner.NextToken.{gap_length, token};
ghost use Rattle.hcl_scan.specs.Inner.MarkToken.{token_at};
ghost use Rattle.hcl_scan.specs.Inner.OpeningPlaces.{LeavesOpenings};
ghost use Rattle.hcl_scan.specs.Inner.Openings.{mode_view, region_of, modes_of, places_of};
ghost use Rattle.hcl_scan.specs.Inner.RunLength.{run_length};
ghost use Rattle.hcl_scan.specs.Inner.TextAfter.{IsTextAfter};
ghost use Rattle.hcl_scan.specs.Inner.TokenizedTo.{IsTokenizedTo};

use crate::bytes::byte_at;
use crate::mode::{Mode, Opening, Region, can_change_openings_in, mode_in};
use crate::quoted::{is_at_end, quoted_len};
use crate::token::{
    NextToken, next_heredoc_token, next_plain_token, next_plain_token_apart, next_quoted_token,
};
use hcl_token::{Kind, MAX_TEXT, Span};

/// Tokens that leave the openings as they are, and what follows them.
#[derive(Drop)]
pub struct PlainTokens {
    /// The list to which they were added.
    pub tokens: Vec<Span>,
    /// Where they stop.
    pub at: usize,
    /// The gap and the token there.
    pub next: NextToken,
    /// If that token is a `"`, the length of the text after it; 0 if that is not known.
    pub text_len: usize,
}

/// Adds a token in reserved memory.
#[inline(always)]
pub fn put(tokens: &mut Vec<Span>, start: usize, stop: usize, kind: Kind)
    requires start { start < MAX_TEXT }
    requires stop { stop ≤ MAX_TEXT }
    requires reserved { vec_len tokens.old < vec_capacity tokens.old }
    ensures items { tokens.new.items ≡ tokens.old.items ++ token_at start stop kind ∷ [] }
    ensures len { vec_len tokens.new ≡ vec_len tokens.old + 1 }
    ensures capacity { vec_capacity tokens.new ≡ vec_capacity tokens.old }
{
    tokens.push_reserved(Span::new(start as u32, stop as u32, kind));
}

/// Adds a `"`, the text from a place up to another, and the `"` after it.
#[inline(always)]
fn put_text(tokens: &mut Vec<Span>, start: usize, from: usize, to: usize)
    requires ordered { (start < from) × (from ≤ to) }
    requires short { to < MAX_TEXT }
    requires reserved { vec_len tokens.old + 3 ≤ vec_capacity tokens.old }
    ensures items { tokens.new.items
        ≡ ((tokens.old.items ++ token_at start from QuoteOpen ∷ [])
        ++ token_at from to QuoteLit ∷ [])
        ++ token_at to (to + 1) QuoteClose ∷ [] }
    ensures capacity { vec_capacity tokens.new ≡ vec_capacity tokens.old }
{
    put(tokens, start, from, Kind::QuoteOpen);
    put(tokens, from, to, Kind::QuoteLit);
    put(tokens, to, to + 1, Kind::QuoteClose);
}

/// Adds a `"` and the `"` after it.
#[inline(always)]
fn put_empty(tokens: &mut Vec<Span>, start: usize, from: usize)
    requires ordered { start < from }
    requires short { from < MAX_TEXT }
    requires reserved { vec_len tokens.old + 2 ≤ vec_capacity tokens.old }
    ensures items { tokens.new.items
        ≡ (tokens.old.items ++ token_at start from QuoteOpen ∷ [])
        ++ token_at from (from + 1) QuoteClose ∷ [] }
    ensures capacity { vec_capacity tokens.new ≡ vec_capacity tokens.old }
{
    put(tokens, start, from, Kind::QuoteOpen);
    put(tokens, from, from + 1, Kind::QuoteClose);
}

/// Adds the `"` at a place, the text after it, if there is any, and the `"` after that.
#[inline(always)]
fn put_string(tokens: &mut Vec<Span>, text: &[u8], start: usize, first: usize, len: usize)
    requires first { 0 < first }
    requires len { len ≡ run_length quote_unit false (drop (start + first) text.now) }
    requires quote { slice_index text.now (start + first + len) ≡ 34 }
    requires within { start + first + len < length text.now }
    requires short { length text.now ≤ MAX_TEXT }
    requires reserved { vec_len tokens.old + 3 ≤ vec_capacity tokens.old }
    ensures capacity { vec_capacity tokens.new ≡ vec_capacity tokens.old }
    ensures state { (at : ℕ) (modes : List spec.Mode) (places : List ℕ)
        → start ≡ at + gap_length (mode_of modes) (drop at text.now)
        → token (mode_of modes) (drop start text.now) ≡ Some (QuoteOpen, first)
        → IsTokenizedTo text.now tokens.old.items at modes places
        → IsTokenizedTo text.now tokens.new.items (start + first + len + 1) modes places }
{
    let from = start + first;
    if len == 0 {
        put_empty(tokens, start, from);
        return;
    }
    put_text(tokens, start, from, from + len);
}

/// Adds the quoted text at a place, if there is any and memory is reserved, and returns where it
/// stops.
#[inline(always)]
fn put_quoted(tokens: &mut Vec<Span>, text: &[u8], from: usize) -> usize
    requires within { from ≤ length text.now }
    requires short { length text.now ≤ MAX_TEXT }
    ensures onward { from ≤ result }
    ensures state { (modes : List spec.Mode) (places : List ℕ) → Quoted ≡ mode_of modes
        → IsTokenizedTo text.now tokens.old.items from modes places
        → IsTokenizedTo text.now tokens.new.items result modes places }
{
    if tokens.len() == tokens.capacity() || is_at_end(text, from) {
        return from;
    }
    let len = quoted_len(text, from);
    if len == 0 {
        return from;
    }
    put(tokens, from, from + len, Kind::QuoteLit);
    from + len
}

/// What `put_plain` added.
enum Addition {
    /// Tokens, which stop here.
    Added { stop: usize },
    /// None: the token is another. If it is a `"`, this is the length of the text after it; 0 if
    /// that is not known.
    NotAdded { text_len: usize },
}

/// Adds a token that leaves the openings as they are, or quoted text in quotes, and returns what
/// was added. If `is_free`, the token is known to leave the openings so.
///
/// Nothing is added if the token is another. The text after a `"` has been read then, so its length
/// is returned.
#[inline(always)]
fn put_plain(
    tokens: &mut Vec<Span>,
    text: &[u8],
    start: usize,
    kind: Kind,
    len: usize,
    mode: Mode<'_>,
    is_free: bool,
) -> Addition
    requires short { length text.now ≤ MAX_TEXT }
    requires some { 0 < len }
    requires within { start + len ≤ length text.now }
    requires reserved { vec_len tokens.old + 3 ≤ vec_capacity tokens.old }
    requires free { is_free ≡ true → LeavesOpenings kind }
    ensures none { IfNotAdded result (λ _. tokens.new.items ≡ tokens.old.items) }
    ensures text { IfNotAdded result (λ text_len. 0 < text_len
        → IsTextAfter text.now start (Some (kind, len)) text_len) }
    ensures capacity { vec_capacity tokens.new ≡ vec_capacity tokens.old }
    ensures onward { IfAdded result (λ stop. start < stop) }
    ensures state { IfAdded result (λ stop. (at : ℕ) (modes : List spec.Mode) (places : List ℕ)
        → mode_view mode.entry ≡ mode_of modes
        → start ≡ at + gap_length (mode_of modes) (drop at text.now)
        → token (mode_of modes) (drop start text.now) ≡ Some (kind, len)
        → IsTokenizedTo text.now tokens.old.items at modes places
        → IsTokenizedTo text.now tokens.new.items stop modes places) }
{
    let stop = start + len;
    if is_free {
        put(tokens, start, stop, kind);
        return Addition::Added { stop };
    }
    match kind {
        Kind::QuoteOpen => {
            let text_len = quoted_len(text, stop);
            if byte_at(text, stop + text_len) == b'"' {
                put_string(tokens, text, start, len, text_len);
                Addition::Added {
                    stop: stop + text_len + 1,
                }
            } else {
                Addition::NotAdded { text_len }
            }
        }
        _ => {
            if can_change_openings_in(mode, kind) {
                Addition::NotAdded { text_len: 0 }
            } else {
                put(tokens, start, stop, kind);
                Addition::Added { stop }
            }
        }
    }
}

/// Returns a mode that is not literal as it is, so that no marker is kept in registers for it.
#[inline(always)]
fn without_marker<'t>(mode: Mode<'t>) -> Mode<'t>
    requires { is_literal (mode_view mode) ≡ false }
    ensures { mode_view result ≡ mode_view mode.entry }
{
    match mode {
        Mode::Sequence => Mode::Sequence,
        Mode::Braces => Mode::Braces,
        _ => Mode::Expression,
    }
}

/// Adds tokens outside of literal text, as `push_plain_tokens` does.
#[inline(always)]
fn push_in_mode(
    buffer: Vec<Span>,
    text: &str,
    from: usize,
    mode: Mode<'_>,
    openings: &Vec<Opening<'_>>,
) -> PlainTokens
    requires short { length text.now ≤ MAX_TEXT }
    requires state { IsTokenizedTo text.now buffer.items from
        (modes_of openings.now.items) (places_of openings.now.items) }
    requires mode { mode_view mode ≡ mode_of (modes_of openings.now.items) }
    requires plain { is_literal (mode_view mode) ≡ false }
    ensures state { IsTokenizedTo text.now result.tokens.items result.at
        (modes_of openings.now.items) (places_of openings.now.items) }
    ensures onward { from ≤ result.at }
    ensures gap { result.next.start
        ≡ result.at + gap_length (mode_of (modes_of openings.now.items)) (drop result.at text.now) }
    ensures start { result.next.start ≤ length text.now }
    ensures token { result.next.token
        ≡ token (mode_of (modes_of openings.now.items)) (drop result.next.start text.now) }
    ensures within { IfSome result.next.token
        (λ found. (0 < found.1) × (result.next.start + found.1 ≤ length text.now)) }
    ensures text { 0 < result.text_len
        → IsTextAfter text.now result.next.start result.next.token result.text_len }
{
    let bytes = text.as_bytes();
    let mut tokens = buffer;
    let mut at = from;
    let limit = tokens.capacity().saturating_sub(2);
    while tokens.len() < limit {
        let (next, is_free) = next_plain_token(text, at, mode);
        let Some((kind, len)) = next.token else {
            return PlainTokens {
                tokens,
                at,
                next,
                text_len: 0,
            };
        };
        match put_plain(&mut tokens, bytes, next.start, kind, len, mode, is_free) {
            Addition::Added { stop } => at = stop,
            Addition::NotAdded { text_len } => {
                return PlainTokens {
                    tokens,
                    at,
                    next,
                    text_len,
                };
            }
        }
    }
    let next = next_plain_token_apart(text, at, without_marker(mode));
    PlainTokens {
        tokens,
        at,
        next,
        text_len: 0,
    }
}

/// Adds quoted text, as `push_plain_tokens` does.
#[inline(always)]
fn push_in_quotes(
    buffer: Vec<Span>,
    text: &str,
    from: usize,
    openings: &Vec<Opening<'_>>,
) -> PlainTokens
    requires short { length text.now ≤ MAX_TEXT }
    requires state { IsTokenizedTo text.now buffer.items from
        (modes_of openings.now.items) (places_of openings.now.items) }
    requires mode { Quoted ≡ mode_of (modes_of openings.now.items) }
    ensures state { IsTokenizedTo text.now result.tokens.items result.at
        (modes_of openings.now.items) (places_of openings.now.items) }
    ensures onward { from ≤ result.at }
    ensures gap { result.next.start
        ≡ result.at + gap_length (mode_of (modes_of openings.now.items)) (drop result.at text.now) }
    ensures start { result.next.start ≤ length text.now }
    ensures token { result.next.token
        ≡ token (mode_of (modes_of openings.now.items)) (drop result.next.start text.now) }
    ensures within { IfSome result.next.token
        (λ found. (0 < found.1) × (result.next.start + found.1 ≤ length text.now)) }
    ensures text { result.text_len ≡ 0 }
{
    let mut tokens = buffer;
    let at = put_quoted(&mut tokens, text.as_bytes(), from);
    let next = next_quoted_token(text, at);
    PlainTokens {
        tokens,
        at,
        next,
        text_len: 0,
    }
}

/// Adds the tokens from a place on that leave the openings as they are, and quoted text in quotes,
/// while memory is reserved for them; returns the list and what follows these tokens.
#[inline(always)]
pub fn push_plain_tokens(
    buffer: Vec<Span>,
    text: &str,
    from: usize,
    region: Region,
    openings: &Vec<Opening<'_>>,
) -> PlainTokens
    requires short { length text.now ≤ MAX_TEXT }
    requires state { IsTokenizedTo text.now buffer.items from
        (modes_of openings.now.items) (places_of openings.now.items) }
    requires region { region ≡ region_of (mode_of (modes_of openings.now.items)) }
    ensures state { IsTokenizedTo text.now result.tokens.items result.at
        (modes_of openings.now.items) (places_of openings.now.items) }
    ensures onward { from ≤ result.at }
    ensures gap { result.next.start
        ≡ result.at + gap_length (mode_of (modes_of openings.now.items)) (drop result.at text.now) }
    ensures start { result.next.start ≤ length text.now }
    ensures token { result.next.token
        ≡ token (mode_of (modes_of openings.now.items)) (drop result.next.start text.now) }
    ensures within { IfSome result.next.token
        (λ found. (0 < found.1) × (result.next.start + found.1 ≤ length text.now)) }
    ensures text { 0 < result.text_len
        → IsTextAfter text.now result.next.start result.next.token result.text_len }
{
    let mode = mode_in(region, openings);
    match mode {
        Mode::Quoted => push_in_quotes(buffer, text, from, openings),
        Mode::Heredoc {
            marker,
            at_line_start,
        } => {
            let next = next_heredoc_token(text, from, marker, at_line_start);
            PlainTokens {
                tokens: buffer,
                at: from,
                next,
                text_len: 0,
            }
        }
        _ => push_in_mode(buffer, text, from, mode, openings),
    }
}
