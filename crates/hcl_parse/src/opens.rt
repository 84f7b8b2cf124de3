//! Constructs that open. They nest at most `MAX_NESTING` deep.

ghost use Rattle.hcl_parse.specs.Rules as spec;

use crate::builder::{Builder, Taken};
use hcl_reader::Reader;

/// Opens a construct at this token, if one more may nest.
#[inline(always)]
pub fn enter<'s, 't, S: Builder>(
    builder: &S,
    reader: &Reader<'s, 't>,
    opening: u32,
    at: &mut u32,
) -> Taken<Reader<'s, 't>>
    ensures { spec.Opens (S.make builder.now) reader.now opening at.old result at.new }
{
    reader.enter(opening, at)
}

/// Opens a directive and its braces at this token, if two more constructs may nest.
#[inline(always)]
pub fn enter_two<'s, 't, S: Builder>(
    builder: &S,
    reader: &Reader<'s, 't>,
    opening: u32,
    at: &mut u32,
) -> Taken<(Reader<'s, 't>, Reader<'s, 't>)>
    ensures { spec.OpensTwo (S.make builder.now) reader.now opening at.old result at.new }
{
    reader.enter_two(opening, at)
}
