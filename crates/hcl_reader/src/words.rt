//! Words with a meaning of their own, and names.

ghost use Rattle.std.specs.Prelude.{◌≡◌, true, false};
ghost use Rattle.hcl_reader.specs.ReaderRules as spec;
ghost use Rattle.hcl_grammar.specs.Pure.Reading.{ReadsExactly};

use crate::reader::Reader;
use hcl_grammar::fault::TokenFault;
use hcl_token::Kind;

impl<'s, 't> Reader<'s, 't> {
    /// Whether this word comes next.
    #[tactic(auto, unfolding(hcl_grammar::specs::Pure::Reading::next_is_word, hcl_grammar::specs::Tokens::next_token))]
    pub fn next_is_word(&self, word: &[u8], at: u32) -> bool
        ensures { result ≡ spec.next_is_word self.now word.now at }
    {
        let (number, next) = self.next_token(at);
        match next {
            Some(_kind) => self.is_word(number, word),
            None => false,
        }
    }

    /// Takes this word, which must come next.
    ///
    /// # Errors
    ///
    /// `Syntax`, with the next token's number, if another token or none comes next.
    #[tactic(auto, unfolding(hcl_grammar::specs::Pure::Reading::expect_word, hcl_grammar::specs::Pure::Reading::next_is_word, hcl_grammar::specs::Tokens::next_token, hcl_grammar::specs::Tokens::after_next))]
    pub fn expect_word(&self, word: &[u8], at: &mut u32) -> Result<(), TokenFault>
        ensures { ReadsExactly (spec.expect_word self.now word.now at.old) result at.new }
    {
        let (number, next) = self.next_token(*at);
        match next {
            Some(_kind) => {
                if !self.is_word(number, word) {
                    return Err(TokenFault::Syntax(number));
                }
                *at = number + 1;
                Ok(())
            }
            None => Err(TokenFault::Syntax(number)),
        }
    }

    /// Takes a word, if it comes next.
    #[tactic(auto, unfolding(hcl_grammar::specs::Pure::Reading::next_is_word, hcl_grammar::specs::Tokens::next_token, hcl_grammar::specs::Tokens::after_next))]
    pub fn eat_word(&self, word: &[u8], at: &mut u32) -> bool
        ensures found { result ≡ spec.next_is_word self.now word.now at.old }
        ensures taken { result ≡ true → at.new ≡ spec.after_next self.now at.old }
        ensures kept { result ≡ false → at.new ≡ at.old }
    {
        let (number, next) = self.next_token(*at);
        match next {
            Some(_kind) => {
                let found = self.is_word(number, word);
                if found {
                    *at = number + 1;
                }
                found
            }
            None => false,
        }
    }

    /// Takes the second name of a `for`, if it has one.
    ///
    /// # Errors
    ///
    /// `Syntax` if no name follows the comma.
    #[tactic(auto, unfolding(hcl_grammar::specs::Pure::Steps::second_name))]
    pub fn second_name(&self, at: &mut u32) -> Result<Option<u32>, TokenFault>
        ensures { ReadsExactly (spec.second_name self.now at.old) result at.new }
    {
        let bracketed = self.in_brackets();
        if !bracketed.eat(Kind::Comma, at) {
            return Ok(None);
        }
        let name = bracketed.next_index(*at);
        bracketed.expect(Kind::Identifier, at)?;
        Ok(Some(name))
    }
}
