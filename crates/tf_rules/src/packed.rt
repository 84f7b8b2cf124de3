//! The packed form of a fix: what it does, and the numbers of the tokens that it keeps.

ghost use Rattle.std.specs.Prelude.{◌≡◌, Some, is_some};
ghost use Rattle.std.specs.Option.{option_map};
ghost use Rattle.tf_rules.specs.declared.fix.Fix.TheVariants.{Tokens};
ghost use Rattle.tf_rules.specs.Findings.{is_fixable};
ghost use Rattle.tf_rules.specs.Inner.Unpacking.{unpack_kept, unpack_fix, unpack_name};
ghost use Rattle.tf_rules.specs.Inner.Unpacking.{IsCanonicalRange, IsCanonical, IsCanonicalName};

use crate::fix::{Fix, Insertion, KeptTokens};

/// What a fix does, without the numbers of the tokens that it keeps: at most two ranges, each with
/// what is inserted after it.
#[derive(Clone, Copy)]
pub enum PackedFixKind {
    Nothing,
    CommentMarker,
    Tokens {
        before: Insertion,
        one: Option<Insertion>,
        two: Option<Insertion>,
    },
}

/// Tokens that are kept; 0 where none are.
#[derive(Clone, Copy)]
pub struct PackedRange {
    pub from: u32,
    pub to: u32,
}

const EMPTY_RANGE: PackedRange = PackedRange { from: 0, to: 0 };

/// A fix, or none.
#[derive(Clone, Copy)]
pub struct PackedFix {
    kind: PackedFixKind,
    one: PackedRange,
    two: PackedRange,
}

/// Returns the number of what a message names, 0 if it names nothing.
pub fn pack_name(name: Option<u32>) -> u32
    ensures unpacks { unpack_name (is_some name) result ≡ name }
    ensures canonical { IsCanonicalName (is_some name) result }
{
    match name {
        None => 0,
        Some(number) => number,
    }
}

/// Returns the numbers of what is kept, and what is inserted after it.
fn pack_kept(kept: Option<KeptTokens>) -> (PackedRange, Option<Insertion>)
    ensures unpacks { option_map (unpack_kept result.0) result.1 ≡ kept }
    ensures canonical { IsCanonicalRange result.1 result.0 }
{
    match kept {
        None => (EMPTY_RANGE, None),
        Some(kept) => {
            let range = PackedRange {
                from: kept.from,
                to: kept.to,
            };
            (range, Some(kept.after))
        }
    }
}

/// Returns the tokens that are kept, or `None` if nothing says what is inserted after them.
fn unpack_kept(range: PackedRange, after: Option<Insertion>) -> Option<KeptTokens>
    ensures { result ≡ option_map (unpack_kept range) after }
{
    match after {
        None => None,
        Some(after) => Some(KeptTokens {
            from: range.from,
            to: range.to,
            after,
        }),
    }
}

/// Returns the packed fix of this kind, with both ranges of tokens empty.
fn without_tokens(kind: PackedFixKind) -> PackedFix
    ensures { result ≡ record { kind = kind; one = EMPTY_RANGE; two = EMPTY_RANGE } }
{
    PackedFix {
        kind,
        one: EMPTY_RANGE,
        two: EMPTY_RANGE,
    }
}

/// Packs a fix that keeps whole tokens.
fn pack_tokens(before: Insertion, kept: [Option<KeptTokens>; 2]) -> PackedFix
    ensures unpacks { unpack_fix result ≡ Some (Tokens before kept) }
    ensures canonical { IsCanonical result }
{
    let (one, after_one) = pack_kept(kept[0]);
    let (two, after_two) = pack_kept(kept[1]);
    PackedFix {
        kind: PackedFixKind::Tokens {
            before,
            one: after_one,
            two: after_two,
        },
        one,
        two,
    }
}

impl PackedFix {
    /// Packs a fix, or that there is none.
    pub fn of(fix: Option<Fix>) -> PackedFix
        ensures unpacks { unpack_fix result ≡ fix }
        ensures canonical { IsCanonical result }
    {
        match fix {
            None => without_tokens(PackedFixKind::Nothing),
            Some(Fix::CommentMarker) => without_tokens(PackedFixKind::CommentMarker),
            Some(Fix::Tokens { before, kept }) => pack_tokens(before, kept),
        }
    }

    /// Whether it is a fix.
    #[inline]
    pub fn is_fix(&self) -> bool
        ensures { result ≡ is_fixable (unpack_fix self.now) }
    {
        match self.kind {
            PackedFixKind::Nothing => false,
            _ => true,
        }
    }

    /// Returns the fix that was packed, or `None` if none was.
    pub fn fix(&self) -> Option<Fix>
        ensures { result ≡ unpack_fix self.now }
    {
        match self.kind {
            PackedFixKind::Nothing => None,
            PackedFixKind::CommentMarker => Some(Fix::CommentMarker),
            PackedFixKind::Tokens { before, one, two } => Some(Fix::Tokens {
                before,
                kept: [unpack_kept(self.one, one), unpack_kept(self.two, two)],
            }),
        }
    }
}
