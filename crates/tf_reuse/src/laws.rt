//! A law of members: a function that does nothing, for callers whose proofs want what its clause
//! says.

ghost use Rattle.tf_reuse.specs.OneMember.{PrependedMemberExtendsBody};

/// A member by itself, before the members of a body, begins a body.
pub fn prepended_member_extends_body()
    ensures { PrependedMemberExtendsBody }
{}
