//! The places of the tokens of a text.

ghost use Rattle.std.specs.Prelude.{◌≡◌, ◌<◌, ℕ, List, length};
ghost use Rattle.hcl_token.specs.Tokens.{Pair};
ghost use Rattle.hcl_token.specs.Pairs.{IsWellFormed, pairs_of, spans_from};
ghost use Rattle.hcl_token.specs.Inner.LineColumn.{IsGapPlace};
ghost use Rattle.hcl_token.specs.Place.{place_of};

use crate::line_column::{FIRST_PLACE, begins_with_mark, gap_place, token_place};
use crate::place::Place;
use crate::span::Span;
use std::marker::Model;

/// A cursor over the lines and columns of the tokens of a text. The text is read forward, from the
/// token of the last call; from the start, for a token before that one. No call allocates.
#[derive(Drop)]
pub struct Places<'s> {
    text: &'s [u8],
    tokens: &'s [Span],
    /// The number of a token, and the place of the gap before it.
    from: usize,
    at: Place,
}

impl<'s> Model for Places<'s> {
    ghost Value = { List Pair };

    ghost view = { λ p. pairs_of p.text.now p.tokens.now };

    ghost invariant = { λ p. (last : ℕ) × IsGapPlace p.text.now p.tokens.now last p.from p.at };
}

impl<'s> Places<'s> {
    /// Returns a cursor at the start of a text with these tokens.
    pub fn new(text: &'s [u8], tokens: &'s [Span]) -> Places<'s>
        requires { (last : ℕ) × IsWellFormed text.now tokens.now last }
        ensures { result ≡ pairs_of text.now tokens.now }
    {
        // a byte order mark is counted by itself: tokens with one among them are counted singly
        let from = usize::from(begins_with_mark(tokens));
        Places {
            text,
            tokens,
            from,
            at: gap_place(text, tokens, 0, FIRST_PLACE, from),
        }
    }

    /// Returns the tokens, each with its place in bytes.
    pub fn spans(&self) -> &'s [Span]
        ensures { result.now ≡ spans_from 0 self.now }
    {
        self.tokens
    }

    /// Returns the line and the column of token `i`, from 1.
    pub fn of(&mut self, i: usize) -> Place
        requires { i < length self.old }
        ensures place { result ≡ place_of self.old i }
        ensures same { self.new ≡ self.old }
    {
        let at = if i < self.from {
            gap_place(self.text, self.tokens, 0, FIRST_PLACE, i)
        } else {
            gap_place(self.text, self.tokens, self.from, self.at, i)
        };
        self.from = i;
        self.at = at;
        token_place(self.text, self.tokens, i, at)
    }
}
