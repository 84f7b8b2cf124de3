//! A replacement in few bytes.

ghost use Rattle.std.specs.Prelude.{◌≡◌, ◌++◌, ◌∷◌, [], OnOk};
ghost use Rattle.tf_fix.specs.Inner.Packed.{boundary_at};

use crate::boundary::Boundary;
use crate::splice::Replacement;
use std::alloc::AllocError;
use std::marker::Model;
use tf_rules::Insertion;

/// A replacement in the list of all that one step makes, in 16 bytes.
#[derive(Drop)]
pub struct PackedReplacement {
    from: u32,
    to: u32,
    first: u32,
    insertion: Insertion,
    /// Whether it begins directly before a token, after its gap.
    is_from_token: bool,
    /// Whether it ends directly before a token, after its gap.
    is_to_token: bool,
}

// A step has one or more for each finding that it fixes.
const _: () = prove!(size_of::<PackedReplacement>() == 16);

impl Model for PackedReplacement {
    ghost use Rattle.tf_fix.specs.declared.splice.Replacement.{Replacement};
    ghost use Rattle.tf_fix.specs.Inner.Packed.{boundary_at};

    ghost Value = { Replacement };

    ghost view = { λ p. record {
      from = boundary_at p.is_from_token p.from;
      to = boundary_at p.is_to_token p.to;
      first = p.first;
      insertion = p.insertion;
    } };
}

/// Returns whether a place is directly before a token, after its gap, and the number of the token.
fn pack_boundary(boundary: Boundary) -> (bool, u32)
    ensures { boundary_at result.0 result.1 ≡ boundary }
{
    match boundary {
        Boundary::Gap(i) => (false, i),
        Boundary::Token(i) => (true, i),
    }
}

/// Returns the place directly before token `i`, or the place before its gap.
fn unpack_boundary(is_token: bool, i: u32) -> Boundary
    ensures { result ≡ boundary_at is_token i }
{
    if is_token {
        Boundary::Token(i)
    } else {
        Boundary::Gap(i)
    }
}

impl PackedReplacement {
    /// Packs a replacement.
    pub fn new(one: Replacement) -> PackedReplacement
        ensures { result ≡ one }
    {
        let (is_from_token, from) = pack_boundary(one.from);
        let (is_to_token, to) = pack_boundary(one.to);
        PackedReplacement {
            from,
            to,
            first: one.first,
            insertion: one.insertion,
            is_from_token,
            is_to_token,
        }
    }

    /// Returns the replacement that was packed.
    pub fn unpack(&self) -> Replacement
        ensures { result ≡ self.now }
    {
        Replacement {
            from: unpack_boundary(self.is_from_token, self.from),
            to: unpack_boundary(self.is_to_token, self.to),
            first: self.first,
            insertion: self.insertion,
        }
    }
}

/// Appends a replacement.
pub fn push_packed(all: &mut Vec<PackedReplacement>, one: Replacement) -> Result<(), AllocError>
    ensures { OnOk result (all.new.items ≡ all.old.items ++ one ∷ []) }
{
    all.push(PackedReplacement::new(one))?;
    Ok(())
}
