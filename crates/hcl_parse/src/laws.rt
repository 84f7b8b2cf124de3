//! That the parser ends at the same place with either builder. Each law is the contract of a function
//! that does nothing.

ghost use Rattle.hcl_parse.specs.Laws.{EndAlike};

/// A parser that makes nothing ends where the one ends that makes nodes, or has the same error,
/// which is not that memory ran out.
pub fn both_end_alike()
    ensures { EndAlike }
{}
