//! Steps whose first token was looked at, so that several steps look at it once. For speed alone:
//! the plain forms are `Reader::eat`, `expect` and `eat_newline`.

ghost use Rattle.std.specs.Prelude.{◌≡◌, ◌<◌, ◌+◌, ◌^◌, false, Ok, OnSome};
ghost use Rattle.hcl_reader.specs.ReaderRules as spec;
ghost use Rattle.hcl_reader.specs.ReaderRules.{outside_brackets};
ghost use Rattle.hcl_grammar.specs.Pure.Reading.{ReadsExactly};

use crate::lookahead::same_kind;
use crate::reader::Reader;
use hcl_grammar::fault::TokenFault;
use hcl_token::Kind;

/// The number of a token and its kind, as `Reader::next_token` returns them.
pub type Next = (u32, Option<Kind>);

impl<'s, 't> Reader<'s, 't> {
    /// Takes the next token, `next`, if it has this kind.
    #[inline(always)]
    #[tactic(auto, unfolding(hcl_grammar::specs::Pure::Reading::next_is, hcl_grammar::specs::Pure::Reading::after_if_next, hcl_grammar::specs::Tokens::after_next))]
    pub fn eat_next(&self, next: Next, kind: Kind, at: &mut u32) -> bool
        requires number { next.0 ≡ spec.next_index self.now at.old }
        requires kind { next.1 ≡ spec.next_kind self.now at.old }
        requires fits { OnSome next.1 (next.0 + 1 < 2 ^ 32) }
        ensures found { result ≡ spec.next_is self.now kind at.old }
        ensures after { at.new ≡ spec.after_if_next self.now kind at.old }
        ensures kept { result ≡ false → at.new ≡ at.old }
    {
        let (number, found) = next;
        match found {
            Some(found) => {
                if !same_kind(found, kind) {
                    return false;
                }
                *at = number + 1;
                true
            }
            None => false,
        }
    }

    /// Takes the next token, `next`, which must have this kind.
    ///
    /// # Errors
    ///
    /// `Syntax`, with the number of `next`, if it has another kind or there is none.
    #[inline(always)]
    #[tactic(auto, unfolding(hcl_grammar::specs::Pure::Reading::expect, hcl_grammar::specs::Pure::Reading::after_if_next))]
    pub fn expect_next(&self, next: Next, kind: Kind, at: &mut u32) -> Result<(), TokenFault>
        requires number { next.0 ≡ spec.next_index self.now at.old }
        requires kind { next.1 ≡ spec.next_kind self.now at.old }
        requires fits { OnSome next.1 (next.0 + 1 < 2 ^ 32) }
        ensures { ReadsExactly (spec.expect self.now kind at.old) result at.new }
    {
        if self.eat_next(next, kind, at) {
            Ok(())
        } else {
            Err(TokenFault::Syntax(next.0))
        }
    }

    /// Takes a line end with the comment before it, if it comes next. The next token outside of
    /// brackets is `next`.
    #[inline(always)]
    #[tactic(auto, unfolding(hcl_grammar::specs::Pure::Steps::eat_newline, hcl_grammar::specs::Pure::Reading::next_is, hcl_grammar::specs::Pure::Reading::after_if_next, hcl_grammar::specs::Tokens::after_next, hcl_grammar::specs::Tokens::same_kind))]
    pub fn eat_newline_next(&self, next: Next, at: &mut u32) -> bool
        requires number { next.0 ≡ spec.next_index (outside_brackets self.now) at.old }
        requires kind { next.1 ≡ spec.next_kind (outside_brackets self.now) at.old }
        requires fits { OnSome next.1 (next.0 + 1 < 2 ^ 32) }
        ensures line { spec.eat_newline self.now at.old ≡ Ok (result, at.new) }
        ensures kept { result ≡ false → at.new ≡ at.old }
    {
        let (number, found) = next;
        match found {
            Some(Kind::LineEnd) => {
                *at = number + 1;
                true
            }
            Some(Kind::LineComment) => {
                let mut end = *at;
                if !self.eat_newline(&mut end) {
                    return false;
                }
                *at = end;
                true
            }
            _ => false,
        }
    }
}
