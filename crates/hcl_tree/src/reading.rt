//! A text read one attribute or block at a time, for a caller that keeps no whole tree (the
//! linter).

ghost use Rattle.hcl_grammar.specs.Pure.NodeMakers.{nodes};
ghost use Rattle.hcl_grammar.specs.Pure.Reading.{Reads};
ghost use Rattle.hcl_grammar_laws.specs.Members.{IsMemberResult};
ghost use Rattle.hcl_parse.specs.BodyRules as spec;

pub use hcl_grammar::TokenFault;
use hcl_grammar::tree::Member;
pub use hcl_reader::Reader;

/// Takes the next member of a text's body, if one comes next.
///
/// Line ends before it are not taken. `parse` makes its tree of a text's members in order.
///
/// # Errors
///
/// The first error, reading from left to right; `Memory` if an allocation fails before that.
pub fn member(reader: &Reader<'_, '_>, at: &mut u32) -> Result<Option<Member>, TokenFault>
    ensures derived { IsMemberResult reader.now.tokens reader.now.depth at.old result at.new }
    ensures reads { Reads (spec.member nodes reader.now at.old) result at.new }
{
    hcl_grammar_laws::laws::member_parser_is_exact();
    hcl_parse::next_member(reader, at)
}
