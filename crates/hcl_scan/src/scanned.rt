//! A text with its tokens.

ghost use Rattle.std.specs.Prelude.{◌≡◌, ◌+◌, ◌<◌, ◌≤◌, ◌↔◌, [], Some, IsTrue, IsUtf8, length, drop};
ghost use Rattle.hcl_token.specs.TokenizedText.{TokenizedText, AreUtf8, kind_of, spelling_of, gap_of};
ghost use Rattle.hcl_token.specs.TokenizedText.{clusters_of, item_of, joins_of, pairs_in_range};
ghost use Rattle.hcl_token.specs.Pairs.{InOrder, IsWellFormed, pairs_of, tokenized_text};
ghost use Rattle.hcl_token.specs.Place.{place_of};
ghost use Rattle.hcl_scan.specs.Tokenization.{IsTokenization, MAX_TEXT};
ghost use Rattle.hcl_scan.specs.TokenLists.{IsTokenListOf};
ghost use Rattle.hcl_scan.specs.ScanResult.{IsScanResult};

use crate::fault::ScanFault;
use crate::token_list::TokenList;
use crate::tokenize::tokenize;
use hcl_token::{
    Item, Kind, Lines, Place, Places, Span, are_same_tokens, clusters, gap_at, joins, slice,
    token_range,
};
use std::alloc::Global;
use std::marker::Model;

/// A text with its tokens, each with the gap before it, and the gap after the last.
///
/// Tokens are numbered from 0. No call allocates.
#[derive(Drop)]
pub struct Scanned<'t> {
    text: &'t [u8],
    tokens: Vec<Span>,
    last_gap_at: u32,
}

impl<'t> Model for Scanned<'t> {
    ghost Value = { TokenizedText };

    ghost view = { λ s. tokenized_text s.text.now s.tokens.items s.last_gap_at };

    ghost invariant = { λ s. IsWellFormed s.text.now s.tokens.items s.last_gap_at
        × IsTokenization s.text.now (pairs_of s.text.now s.tokens.items) (drop s.last_gap_at s.text.now) };
}

/// Returns the tokens of a text.
///
/// # Errors
///
/// The text's own error, or `Memory`. A text of more than `MAX_TEXT` bytes, or that is not UTF-8,
/// is refused before anything is allocated.
///
/// HCL native syntax specification, Lexical Elements and Templates.
pub fn scan<'t>(alloc: Global, text: &'t [u8]) -> Result<Scanned<'t>, ScanFault>
    ensures { IsScanResult text.now result }
{
    scan_in(alloc, Vec::new(alloc), text)
}

/// Returns the tokens of a text, as `scan` does, in a buffer, as `Scanned::into_buffer` returns it.
/// The elements of the buffer are dropped.
///
/// # Errors
///
/// Those of `scan`.
pub fn scan_in<'t>(
    alloc: Global,
    buffer: Vec<Span>,
    text: &'t [u8],
) -> Result<Scanned<'t>, ScanFault>
    ensures { IsScanResult text.now result }
{
    let (tokens, last_gap_at) = tokenize(alloc, buffer, text)?;
    Ok(Scanned::of_tokens(text, tokens, last_gap_at))
}

/// Returns a place in a text in 32 bits.
#[inline]
fn to_u32(place: usize) -> u32
    requires { place ≤ MAX_TEXT }
    ensures { result ≡ place }
{
    place as u32
}

/// Returns the bytes of a text from one offset on.
#[inline]
fn slice_from(text: &[u8], from: u32) -> &[u8]
    requires { from ≤ length text.now }
    ensures { result.now ≡ drop from text.now }
{
    &text[from as usize..]
}

impl<'t> Scanned<'t> {
    /// Returns a text with its tokens; the gap after the last begins at byte `last_gap_at`.
    pub fn of_tokens(text: &'t [u8], tokens: Vec<Span>, last_gap_at: usize) -> Scanned<'t>
        requires tokenization { IsTokenization text.now (pairs_of text.now tokens.items)
            (drop last_gap_at text.now) }
        requires order { InOrder 0 tokens.items last_gap_at }
        requires within { last_gap_at ≤ length text.now }
        ensures text { result.text ≡ text.now }
        ensures tokenization { IsTokenization text.now result.pairs result.last }
    {
        Scanned {
            text,
            tokens,
            last_gap_at: to_u32(last_gap_at),
        }
    }

    /// Returns the buffer of the tokens, emptied.
    pub fn into_buffer(self) -> Vec<Span>
        ensures { result.items ≡ [] }
    {
        let mut buffer = self.tokens;
        buffer.clear();
        buffer
    }

    /// Returns the tokens without the text, which may then be moved; `attach` joins them again.
    pub fn detach(self) -> TokenList
        ensures { IsTokenListOf self.entry result }
    {
        TokenList {
            tokens: self.tokens,
            last_gap_at: self.last_gap_at,
        }
    }

    /// Returns the text with its tokens, which were detached.
    pub fn attach(text: &'t [u8], list: TokenList) -> Scanned<'t>
        requires { (tokenized : TokenizedText) × (tokenized.text ≡ text.now)
            × IsTokenListOf tokenized list
            × IsTokenization tokenized.text tokenized.pairs tokenized.last }
        ensures { (tokenized : TokenizedText) → tokenized.text ≡ text.now
            → IsTokenListOf tokenized list → result ≡ tokenized }
    {
        Scanned {
            text,
            tokens: list.tokens,
            last_gap_at: list.last_gap_at,
        }
    }

    /// Returns the text: the gaps and the tokens, in order.
    pub fn text(&self) -> &'t [u8]
        ensures text { result.now ≡ self.now.text }
        ensures tokenization { IsTokenization self.now.text self.now.pairs self.now.last }
        ensures utf8 { AreUtf8 self.now.pairs }
    {
        self.text
    }

    /// Returns the number of tokens.
    pub fn len(&self) -> usize
        ensures value { result ≡ length self.now.pairs }
        ensures tokenization { IsTokenization self.now.text self.now.pairs self.now.last }
    {
        self.tokens.len()
    }

    /// Returns the number of tokens in 32 bits, as nodes of a tree hold it: at most `MAX_TEXT`.
    #[inline]
    pub fn count(&self) -> u32
        ensures { result ≡ length self.now.pairs }
    {
        self.len() as u32
    }

    /// Whether there is no token.
    pub fn is_empty(&self) -> bool
        ensures { IsTrue result ↔ (self.now.pairs ≡ []) }
    {
        self.tokens.is_empty()
    }

    /// Returns the kind of token `i`, its place and that of the gap before it, in bytes from 0.
    pub fn item(&self, i: usize) -> Item
        requires { i < length self.now.pairs }
        ensures { Some result ≡ item_of self.now.pairs i }
    {
        let token = self.tokens[i];
        Item {
            gap_at: gap_at(&self.tokens, i),
            start: token.start(),
            stop: token.stop(),
            kind: token.kind(),
        }
    }

    /// Returns the kind of token `i`.
    pub fn kind(&self, i: usize) -> Kind
        requires { i < length self.now.pairs }
        ensures { Some result ≡ kind_of self.now.pairs i }
    {
        let token = self.tokens[i];
        token.kind()
    }

    /// Returns the spelling of token `i`.
    pub fn spelling(&self, i: usize) -> &'t [u8]
        requires { i < length self.now.pairs }
        ensures value { Some result.now ≡ spelling_of self.now.pairs i }
        ensures utf8 { IsUtf8 result.now }
    {
        let token = self.tokens[i];
        slice(self.text, token.start(), token.stop())
    }

    /// Returns the gap before token `i`.
    pub fn gap(&self, i: usize) -> &'t [u8]
        requires { i < length self.now.pairs }
        ensures value { Some result.now ≡ gap_of self.now.pairs i }
        ensures utf8 { IsUtf8 result.now }
    {
        let token = self.tokens[i];
        slice(self.text, gap_at(&self.tokens, i), token.start())
    }

    /// Returns the gap after the last token.
    pub fn last_gap(&self) -> &'t [u8]
        ensures { result.now ≡ self.now.last }
    {
        slice_from(self.text, self.last_gap_at)
    }

    /// Whether token `i` joins with token `j`, if `j` follows it after an empty gap: the two, and
    /// what follows, could then be read as other tokens.
    pub fn joins(&self, i: usize, j: usize) -> bool
        requires first { i < length self.now.pairs }
        requires second { j < length self.now.pairs }
        ensures { Some result ≡ joins_of self.now.pairs i j }
    {
        joins(
            self.kind(i),
            self.spelling(i),
            self.kind(j),
            self.spelling(j),
        )
    }

    /// Returns how many extended grapheme clusters token `i` has.
    pub fn clusters(&self, i: usize) -> usize
        requires { i < length self.now.pairs }
        ensures { Some result ≡ clusters_of self.now.pairs i }
    {
        clusters(self.spelling(i))
    }

    /// Whether `count` tokens from number `from` on are those of another text from number `to` on:
    /// kinds, spellings and the gaps between them are the same. The gaps before the first are not
    /// compared.
    pub fn has_same_tokens(&self, from: usize, other: &Scanned<'_>, to: usize, count: usize) -> bool
        requires self_range { from + count ≤ length self.now.pairs }
        requires other_range { to + count ≤ length other.now.pairs }
        ensures { IsTrue result
            ↔ (pairs_in_range self.now.pairs from count ≡ pairs_in_range other.now.pairs to count) }
    {
        if count == 0 {
            return true;
        }
        let tokens = token_range(&self.tokens, from, from + count);
        let others = token_range(&other.tokens, to, to + count);
        are_same_tokens(self.text, tokens, other.text, others)
    }

    /// Returns the line and the column of token `i`, from 1, counted from the start of the text.
    pub fn place_of(&self, i: usize) -> Place
        requires { i < length self.now.pairs }
        ensures { result ≡ place_of self.now.pairs i }
    {
        self.places().of(i)
    }

    /// Returns a cursor over the lines and columns of tokens, from 1.
    pub fn places(&self) -> Places<'_>
        ensures { result ≡ self.now.pairs }
    {
        Places::new(self.text, &self.tokens)
    }

    /// Returns a cursor over the lines of tokens, from 1.
    pub fn lines(&self) -> Lines<'_>
        ensures { result ≡ self.now.pairs }
    {
        Lines::new(self.text, &self.tokens)
    }
}
