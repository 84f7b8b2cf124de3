//! The parser with either builder, by the pure parser that makes nodes.

ghost use Rattle.hcl_grammar.specs.Pure.NodeMakers.{nodes};
ghost use Rattle.hcl_grammar.specs.Pure.Reading.{Reads};
ghost use Rattle.hcl_parse.specs.BodyRules as spec;
ghost use Rattle.hcl_parse.specs.Roots.{Ends};

use crate::builder::Taken;
use crate::nodes::Nodes;
use crate::nothing::Nothing;
use crate::{bodies, laws};
use hcl_grammar::tree::{Member, Tree};
use hcl_reader::Reader;

/// Takes a whole text, and returns its tree.
///
/// # Errors
///
/// The first error, reading from left to right; `Memory` if an allocation fails before that.
pub fn parse(reader: &Reader, at: &mut u32) -> Taken<Tree>
    ensures { Reads (spec.file nodes reader.now at.old) result at.new }
{
    let alloc = reader.alloc();
    bodies::file::<Nodes>(&Nodes { alloc }, reader, at)
}

/// Takes an attribute or a block, if one comes next, and returns its node.
///
/// # Errors
///
/// The first error, reading from left to right; `Memory` if an allocation fails before that.
pub fn next_member(reader: &Reader, at: &mut u32) -> Taken<Option<Member>>
    ensures { Reads (spec.member nodes reader.now at.old) result at.new }
{
    let alloc = reader.alloc();
    bodies::member::<Nodes>(&Nodes { alloc }, reader, at)
}

/// Takes a whole text, and makes nothing of it.
///
/// # Errors
///
/// The first error, reading from left to right. Memory does not run out, since none is taken.
pub fn check(reader: &Reader, at: &mut u32) -> Taken<()>
    ensures { Ends (spec.file nodes reader.now at.old) result at.new }
{
    laws::both_end_alike();
    bodies::file::<Nothing>(&Nothing, reader, at)
}
