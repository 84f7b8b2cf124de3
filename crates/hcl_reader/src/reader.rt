//! A text, as it is read at one place: its next token, and constructs that open there.
//!
//! `specs/ReaderRules` says what a place is. The place itself is an argument, `at`.

ghost use Rattle.std.specs.Prelude.{◌≡◌, ◌<◌, ◌+◌, ◌^◌, true, false, length, slice_get, OnSome};
ghost use Rattle.hcl_reader.specs.ReaderRules as spec;
ghost use Rattle.hcl_reader.specs.ReaderRules.{Enters, EntersTwo};
ghost use Rattle.hcl_grammar.specs.Pure.Reading.{ReadsExactly};
ghost use Rattle.hcl_grammar.specs.Tokens as tokens;
ghost use Rattle.hcl_grammar.specs.declared.fault.TokenFault.TheVariants as fault;
ghost use Rattle.hcl_scan.specs.Follows.{tokens_of};

use crate::lookahead;
use hcl_grammar::MAX_NESTING;
use hcl_grammar::fault::TokenFault;
use hcl_scan::Scanned;
use hcl_token::Kind;
use std::alloc::Global;
use std::marker::Model;

/// A text, as it is read at one place.
#[derive(Drop)]
pub struct Reader<'s, 't> {
    alloc: Global,
    scanned: &'s Scanned<'t>,
    /// Whether line ends and line comments are dropped here.
    skip_newlines: bool,
    /// How many constructs may still nest.
    depth: usize,
}

impl<'s, 't> Model for Reader<'s, 't> {
    ghost use Rattle.hcl_reader.specs.ReaderRules.{ReaderState};
    ghost use Rattle.hcl_scan.specs.Follows.{tokens_of};

    ghost Value = { ReaderState };

    ghost view = { λ r. record {
      tokens = tokens_of r.scanned.now.pairs;
      skip_newlines = r.skip_newlines;
      depth = r.depth;
    } };
}

impl<'s, 't> Reader<'s, 't> {
    /// Returns a reader of the text outside of all constructs.
    pub fn new(alloc: Global, scanned: &'s Scanned<'t>) -> Reader<'s, 't>
        ensures { result ≡ record {
          tokens = tokens_of scanned.now.pairs;
          skip_newlines = false;
          depth = MAX_NESTING;
        } }
    {
        Reader {
            alloc,
            scanned,
            skip_newlines: false,
            depth: MAX_NESTING,
        }
    }

    /// Returns the allocator of nodes.
    pub fn alloc(&self) -> Global {
        self.alloc
    }

    /// Returns the number of tokens.
    pub fn len(&self) -> u32
        ensures { result ≡ length self.now.tokens }
    {
        self.scanned.count()
    }

    /// Returns the number of the next token that is not dropped, and its kind; the number of
    /// tokens, if there is none.
    pub fn next_token(&self, at: u32) -> (u32, Option<Kind>)
        ensures number { result.0 ≡ spec.next_index self.now at }
        ensures kind { result.1 ≡ spec.next_kind self.now at }
        ensures within { OnSome result.1 (result.0 < length self.now.tokens) }
        ensures fits { OnSome result.1 (result.0 + 1 < 2 ^ 32) }
    {
        let (number, kind) = self.next_token_usize(at as usize);
        (number as u32, kind)
    }

    /// Returns the same as `next_token`, from a place in a `usize`: for a loop over many tokens,
    /// which would widen each place in 32 bits.
    pub fn next_token_usize(&self, at: usize) -> (usize, Option<Kind>)
        ensures number { result.0 ≡ spec.next_index self.now at }
        ensures kind { result.1 ≡ spec.next_kind self.now at }
        ensures within { OnSome result.1 (result.0 < length self.now.tokens) }
        ensures fits { OnSome result.1 (result.0 + 1 < 2 ^ 32) }
        ensures place { at < 2 ^ 32 → result.0 < 2 ^ 32 }
    {
        lookahead::next_token(self.scanned, self.skip_newlines, at)
    }

    /// Returns the same as `next_token` outside of brackets. Most often it is the token at this
    /// place, as one look shows.
    #[inline(always)]
    pub fn next_outside(&self, at: u32) -> (u32, Option<Kind>)
        ensures number { result.0 ≡ spec.next_index (spec.outside_brackets self.now) at }
        ensures kind { result.1 ≡ spec.next_kind (spec.outside_brackets self.now) at }
        ensures fits { OnSome result.1 (result.0 + 1 < 2 ^ 32) }
    {
        lookahead::next_outside(self.scanned, at)
    }

    /// Returns the number of the next token.
    pub fn next_index(&self, at: u32) -> u32
        ensures { result ≡ spec.next_index self.now at }
    {
        self.next_token(at).0
    }

    /// Returns the kind of the next token.
    pub fn next_kind(&self, at: u32) -> Option<Kind>
        ensures { result ≡ spec.next_kind self.now at }
    {
        self.next_token(at).1
    }

    /// Takes a token of this kind, if it comes next.
    #[tactic(auto, unfolding(hcl_grammar::specs::Pure::Reading::next_is, hcl_grammar::specs::Pure::Reading::after_if_next, hcl_grammar::specs::Tokens::after_next))]
    pub fn eat(&self, kind: Kind, at: &mut u32) -> bool
        ensures found { result ≡ spec.next_is self.now kind at.old }
        ensures after { at.new ≡ spec.after_if_next self.now kind at.old }
    {
        let (number, next) = self.next_token(*at);
        let Some(found) = next else {
            return false;
        };
        if !lookahead::same_kind(found, kind) {
            return false;
        }
        *at = number + 1;
        true
    }

    /// Returns the error that the next token is not allowed.
    pub fn syntax_fault(&self, at: u32) -> TokenFault
        ensures { result ≡ fault.Syntax (spec.next_index self.now at) }
    {
        TokenFault::Syntax(self.next_index(at))
    }

    /// Takes a token of this kind, which must come next.
    ///
    /// # Errors
    ///
    /// `Syntax`, with the next token's number, if another token or none comes next.
    #[tactic(auto, unfolding(hcl_grammar::specs::Pure::Reading::expect, hcl_grammar::specs::Pure::Reading::after_if_next))]
    pub fn expect(&self, kind: Kind, at: &mut u32) -> Result<(), TokenFault>
        ensures { ReadsExactly (spec.expect self.now kind at.old) result at.new }
    {
        if self.eat(kind, at) {
            Ok(())
        } else {
            Err(self.syntax_fault(*at))
        }
    }

    /// Returns this reader in brackets, where line ends are dropped.
    pub fn in_brackets(&self) -> Reader<'s, 't>
        ensures { result ≡ spec.in_brackets self.now }
    {
        Reader {
            alloc: self.alloc,
            scanned: self.scanned,
            skip_newlines: true,
            depth: self.depth,
        }
    }

    /// Opens a construct at this token, if one more may nest.
    ///
    /// # Errors
    ///
    /// `TooDeep`, with this token, if no more may nest.
    pub fn enter(&self, opening: u32, at: &mut u32) -> Result<Reader<'s, 't>, TokenFault>
        ensures { Enters self.now opening at.old result at.new }
    {
        if self.depth == 0 {
            return Err(TokenFault::TooDeep(opening));
        }
        Ok(Reader {
            alloc: self.alloc,
            scanned: self.scanned,
            skip_newlines: self.skip_newlines,
            depth: self.depth - 1,
        })
    }

    /// Returns this reader outside of brackets, where line ends count.
    pub fn outside_brackets(&self) -> Reader<'s, 't>
        ensures { result ≡ spec.outside_brackets self.now }
    {
        Reader {
            alloc: self.alloc,
            scanned: self.scanned,
            skip_newlines: false,
            depth: self.depth,
        }
    }

    /// Opens a directive and its braces at this token, if two more constructs may nest.
    ///
    /// # Errors
    ///
    /// `TooDeep`, with this token, if fewer than two more may nest.
    pub fn enter_two(
        &self,
        opening: u32,
        at: &mut u32,
    ) -> Result<(Reader<'s, 't>, Reader<'s, 't>), TokenFault>
        ensures { EntersTwo self.now opening at.old result at.new }
    {
        if self.depth < 2 {
            return Err(TokenFault::TooDeep(opening));
        }
        let directive = Reader {
            alloc: self.alloc,
            scanned: self.scanned,
            skip_newlines: self.skip_newlines,
            depth: self.depth - 1,
        };
        let braces = Reader {
            alloc: self.alloc,
            scanned: self.scanned,
            skip_newlines: true,
            depth: self.depth - 2,
        };
        Ok((directive, braces))
    }

    /// Whether token `number` is an identifier with this spelling.
    pub fn is_word(&self, number: u32, word: &[u8]) -> bool
        requires { number < length self.now.tokens }
        ensures { result ≡ tokens.is_word word.now (slice_get self.now.tokens number) }
    {
        lookahead::is_word(self.scanned, number, word)
    }

    /// Returns the number of the first token between two places; the first place, if they are
    /// equal.
    #[tactic(auto, unfolding(hcl_grammar::specs::Tokens::first_token_in))]
    pub fn first_token_in(&self, from: u32, to: u32) -> u32
        ensures { result ≡ tokens.first_token_in self.now.tokens self.now.skip_newlines from to }
    {
        if from == to {
            from
        } else {
            self.next_index(from)
        }
    }
}
