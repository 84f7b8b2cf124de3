//! Line ends, and what separates the elements of an object. For speed, `skip_newlines`,
//! `eat_separator_or_brace` and `eol` look once before what takes them in general.

ghost use Rattle.std.specs.Prelude.{◌≡◌, Ok, true, false};
ghost use Rattle.hcl_token.specs.declared.kind.Kind.TheVariants as k;
ghost use Rattle.hcl_reader.specs.ReaderRules as spec;
ghost use Rattle.hcl_grammar.specs.Pure.Reading.{ReadsExactly};

use crate::lookahead::same_kind;
use crate::reader::Reader;
use hcl_grammar::fault::TokenFault;
use hcl_token::Kind;

impl<'s, 't> Reader<'s, 't> {
    /// Takes a line end with the comment before it, if it comes next. A comment at the end of the
    /// text is left.
    #[tactic(auto, unfolding(hcl_grammar::specs::Pure::Steps::eat_newline, hcl_grammar::specs::Pure::Reading::next_is, hcl_grammar::specs::Pure::Reading::after_if_next, hcl_grammar::specs::Tokens::after_next))]
    pub fn eat_newline(&self, at: &mut u32) -> bool
        ensures { spec.eat_newline self.now at.old ≡ Ok (result, at.new) }
    {
        let lines = self.outside_brackets();
        let (number, next) = lines.next_token(*at);
        let Some(kind) = next else {
            return false;
        };
        let mut after = number + 1;
        let is_line = if same_kind(kind, Kind::LineComment) {
            lines.eat(Kind::LineEnd, &mut after)
        } else {
            same_kind(kind, Kind::LineEnd)
        };
        if is_line {
            *at = after;
        }
        is_line
    }

    /// Takes a line end with the comment before it, if one of them comes next. A comment must
    /// be followed by a line end.
    ///
    /// # Errors
    ///
    /// `Syntax` if no line end follows the comment.
    #[tactic(auto, unfolding(hcl_grammar::specs::Pure::Steps::eat_inner_newline))]
    pub fn eat_inner_newline(&self, at: &mut u32) -> Result<bool, TokenFault>
        ensures { ReadsExactly (spec.eat_inner_newline self.now at.old) result at.new }
    {
        let lines = self.outside_brackets();
        if lines.eat(Kind::LineComment, at) {
            lines.expect(Kind::LineEnd, at)?;
            return Ok(true);
        }
        Ok(lines.eat(Kind::LineEnd, at))
    }

    /// Returns whether neither a line end comes next nor a comment up to one.
    #[inline(always)]
    #[tactic(auto, unfolding(hcl_grammar::specs::Pure::Reading::next_is, hcl_grammar::specs::Tokens::same_kind))]
    fn is_in_line(&self, at: u32) -> bool
        ensures comment { result ≡ true → spec.next_is self.now k.LineComment at ≡ false }
        ensures line { result ≡ true → spec.next_is self.now k.LineEnd at ≡ false }
    {
        match self.next_kind(at) {
            Some(Kind::LineEnd) | Some(Kind::LineComment) => false,
            _ => true,
        }
    }

    /// Takes the line ends that come next. Most often there is none, as one look shows.
    ///
    /// # Errors
    ///
    /// `Syntax` if no line end follows a comment.
    #[inline(always)]
    pub fn skip_newlines(&self, at: &mut u32) -> Result<(), TokenFault>
        ensures { ReadsExactly (spec.skip_newlines self.now at.old) result at.new }
    {
        if self.outside_brackets().is_in_line(*at) {
            return Ok(());
        }
        self.each_newline(at)
    }

    /// Takes the line ends that come next, one by one.
    ///
    /// # Errors
    ///
    /// `Syntax` if no line end follows a comment.
    fn each_newline(&self, at: &mut u32) -> Result<(), TokenFault>
        ensures { ReadsExactly (spec.skip_newlines self.now at.old) result at.new }
    {
        for _turn in 0..self.len() {
            if !self.eat_inner_newline(at)? {
                return Ok(());
            }
        }
        Ok(())
    }

    /// Takes a separator of elements, if one comes next.
    #[tactic(auto, unfolding(hcl_grammar::specs::Pure::Steps::eat_separator))]
    fn eat_separator(&self, at: &mut u32) -> Result<bool, TokenFault>
        ensures { ReadsExactly (spec.eat_separator self.now at.old) result at.new }
    {
        let is_comma = self.outside_brackets().eat(Kind::Comma, at);
        if !is_comma && !self.eat_inner_newline(at)? {
            return Ok(false);
        }
        self.each_newline(at)?;
        Ok(true)
    }

    /// Takes a separator of elements, else the closing brace. Most often two looks show which.
    ///
    /// # Errors
    ///
    /// `Syntax` if neither comes next, or no line end follows a comment.
    #[inline(always)]
    #[tactic(auto, unfolding(hcl_grammar::specs::Tokens::after_next))]
    pub fn eat_separator_or_brace(&self, at: &mut u32) -> Result<bool, TokenFault>
        ensures { ReadsExactly (spec.eat_separator_or_brace self.now at.old) result at.new }
    {
        let lines = self.outside_brackets();
        let (number, next) = lines.next_token(*at);
        match next {
            Some(Kind::CloseBrace) => {
                *at = number + 1;
                Ok(false)
            }
            Some(Kind::Comma) | Some(Kind::LineEnd) => {
                *at = number + 1;
                match self.skip_newlines(at) {
                    Ok(()) => Ok(true),
                    Err(fault) => Err(fault),
                }
            }
            _ => self.separator_or_brace(at),
        }
    }

    /// Takes a separator of elements, else the closing brace.
    ///
    /// # Errors
    ///
    /// `Syntax` if neither comes next, or no line end follows a comment.
    #[inline(never)]
    #[tactic(auto, unfolding(hcl_grammar::specs::Pure::Steps::eat_separator_or_brace))]
    fn separator_or_brace(&self, at: &mut u32) -> Result<bool, TokenFault>
        ensures { ReadsExactly (spec.eat_separator_or_brace self.now at.old) result at.new }
    {
        if self.eat_separator(at)? {
            return Ok(true);
        }
        self.outside_brackets().expect(Kind::CloseBrace, at)?;
        Ok(false)
    }

    /// Returns an error if a token comes next.
    ///
    /// # Errors
    ///
    /// `Syntax`, with the number of the token that comes next.
    pub fn expect_end(&self, at: &mut u32) -> Result<(), TokenFault>
        ensures { ReadsExactly (spec.expect_end self.now at.old) result at.new }
    {
        let lines = self.outside_brackets();
        match lines.next_kind(*at) {
            Some(_kind) => Err(lines.syntax_fault(*at)),
            None => Ok(()),
        }
    }

    /// Takes the end of a line: a line end with the comment before it, or the end of the text after
    /// a comment or none. Most often one look shows that it is a line end.
    ///
    /// # Errors
    ///
    /// `Syntax` if another token comes next.
    #[inline(always)]
    #[tactic(auto, unfolding(hcl_grammar::specs::Pure::Steps::eol))]
    pub fn eol(&self, at: &mut u32) -> Result<(), TokenFault>
        ensures { ReadsExactly (spec.eol self.now at.old) result at.new }
    {
        let next = self.next_outside(*at);
        if self.eat_newline_next(next, at) {
            return Ok(());
        }
        self.line_or_text_end(at)
    }

    /// Takes the end of a line: a line end with the comment before it, or the end of the text after
    /// a comment or none.
    ///
    /// # Errors
    ///
    /// `Syntax` if another token comes next.
    #[inline(never)]
    #[tactic(auto, unfolding(hcl_grammar::specs::Pure::Steps::eol))]
    fn line_or_text_end(&self, at: &mut u32) -> Result<(), TokenFault>
        ensures { ReadsExactly (spec.eol self.now at.old) result at.new }
    {
        if self.eat_newline(at) {
            return Ok(());
        }
        let _is_comment = self.outside_brackets().eat(Kind::LineComment, at);
        self.expect_end(at)
    }
}
