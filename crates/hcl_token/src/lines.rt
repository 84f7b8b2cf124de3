//! The lines of the tokens of a text.

ghost use Rattle.std.specs.Prelude.{◌≡◌, ◌<◌, ℕ, List, length};
ghost use Rattle.hcl_token.specs.Tokens.{Pair};
ghost use Rattle.hcl_token.specs.Pairs.{IsWellFormed, pairs_of};
ghost use Rattle.hcl_token.specs.Inner.LineColumn.{IsOnLine};
ghost use Rattle.hcl_token.specs.Place.{MarksHaveNoLf, line_of};

use crate::line_column::{gap_line, token_line};
use crate::span::Span;
use std::marker::Model;

/// A cursor over the lines of the tokens of a text. The text is read forward, from the token of the
/// last call; from the start, for a token before that one. Line feeds are counted and no columns.
/// No call allocates.
#[derive(Drop)]
pub struct Lines<'s> {
    text: &'s [u8],
    tokens: &'s [Span],
    /// The number of a token, and the line on which the gap before it begins.
    from: usize,
    line: usize,
}

impl<'s> Model for Lines<'s> {
    ghost Value = { List Pair };

    ghost view = { λ p. pairs_of p.text.now p.tokens.now };

    ghost invariant = { λ p. (last : ℕ) × IsOnLine p.text.now p.tokens.now last p.from p.line };
}

impl<'s> Lines<'s> {
    /// Returns a cursor at the start of a text with these tokens, of which no byte order mark has a
    /// line feed.
    pub fn new(text: &'s [u8], tokens: &'s [Span]) -> Lines<'s>
        requires order { (last : ℕ) × IsWellFormed text.now tokens.now last }
        requires marks { MarksHaveNoLf (pairs_of text.now tokens.now) }
        ensures { result ≡ pairs_of text.now tokens.now }
    {
        Lines {
            text,
            tokens,
            from: 0,
            line: 1,
        }
    }

    /// Returns the line of token `i`, from 1.
    pub fn of(&mut self, i: usize) -> usize
        requires { i < length self.old }
        ensures line { result ≡ line_of self.old i }
        ensures same { self.new ≡ self.old }
    {
        let line = if i < self.from {
            gap_line(self.text, self.tokens, 0, 1, i)
        } else {
            gap_line(self.text, self.tokens, self.from, self.line, i)
        };
        self.from = i;
        self.line = line;
        token_line(self.text, self.tokens, i, line)
    }
}
