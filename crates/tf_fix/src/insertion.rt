//! The text that replaces removed parts.

ghost use Rattle.std.specs.Prelude.{◌≡◌, ℕ, IfOk};
ghost use Rattle.tf_fix.specs.Edits.Parts.{text_of_parts};
ghost use Rattle.tf_fix.specs.Edits.SettledSpaces.{prev_of_parts, settled};
ghost use Rattle.tf_fix.specs.Inner.Views.{prev_view, HasByte};
ghost use Rattle.tf_fix.specs.Edits.FindingReplacements.{pairs_parts};
ghost use Rattle.tf_fix.specs.Insertions.{inserted};

use crate::prev_token::{PrevToken, joins_prev};
use crate::splice::Replacement;
use hcl_scan::Scanned;
use hcl_token::Kind;
use std::alloc::{AllocError, Global};
use tf_rules::Insertion;

/// Returns the text of the insertion after `prev`, with a space before it if they would join.
pub fn added_text(
    alloc: Global,
    scanned: &Scanned<'_>,
    prev: PrevToken<'_>,
    one: Replacement,
) -> Result<Vec<u8>, AllocError>
    requires { HasByte scanned.now.pairs one.first }
    ensures { IfOk result
        (λ text. text.items
        ≡ text_of_parts (settled (prev_view prev.entry)
        (pairs_parts (inserted scanned.now.pairs one.first one.insertion)))) }
{
    let mut text = Vec::new(alloc);
    match one.insertion {
        Insertion::Nothing => {}
        Insertion::Index => {
            text.extend_from_slice(b"[")?;
            text.extend_from_slice(&scanned.spelling(one.first as usize)[1..])?;
            text.extend_from_slice(b"]")?;
        }
        Insertion::Length => {
            if joins_prev(prev, Kind::Identifier, b"length") {
                text.extend_from_slice(b" length(")?;
            } else {
                text.extend_from_slice(b"length(")?;
            }
        }
        Insertion::IsZero => text.extend_from_slice(b") == 0")?,
        Insertion::IsPositive => text.extend_from_slice(b") > 0")?,
        Insertion::OpenBracket => text.extend_from_slice(b"[")?,
        Insertion::CloseBracket => text.extend_from_slice(b"]")?,
    }
    Ok(text)
}

/// Returns the last token after the insertion.
pub fn prev_after_insertion<'t>(prev: PrevToken<'t>, insertion: Insertion) -> PrevToken<'t>
    ensures { (pairs : _) (first : ℕ)
        → prev_view result
        ≡ prev_of_parts (prev_view prev.entry) (pairs_parts (inserted pairs first insertion)) }
{
    match insertion {
        Insertion::Nothing => prev,
        Insertion::Index | Insertion::CloseBracket => PrevToken::Token {
            kind: Kind::CloseBracket,
            spelling: b"]",
        },
        Insertion::Length => PrevToken::Token {
            kind: Kind::OpenParen,
            spelling: b"(",
        },
        Insertion::IsZero | Insertion::IsPositive => PrevToken::Token {
            kind: Kind::Number,
            spelling: b"0",
        },
        Insertion::OpenBracket => PrevToken::Token {
            kind: Kind::OpenBracket,
            spelling: b"[",
        },
    }
}
