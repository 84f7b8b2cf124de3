//! Words and names by the numbers of their tokens.

ghost use Rattle.std.specs.Prelude.{◌≡◌};
ghost use Rattle.std.specs.Str.{bytes_eq};
ghost use Rattle.tf_rules.specs.Spelling.{token_text, name_text};

use hcl_scan::Scanned;

/// Returns the spelling of token `n`, from 0, or no bytes if there is no such token.
#[inline(always)]
pub fn token_text<'t>(scanned: &Scanned<'t>, n: u32) -> &'t [u8]
    ensures { result.now ≡ token_text scanned.now.pairs n }
{
    if n >= scanned.count() {
        return b"";
    }
    scanned.spelling(n as usize)
}

/// Returns the spelling of a name, or no bytes if it has no token, as the label `""` has none.
#[inline(always)]
pub fn name_text<'t>(scanned: &Scanned<'t>, name: Option<u32>) -> &'t [u8]
    ensures { result.now ≡ name_text scanned.now.pairs name }
{
    match name {
        Some(n) => token_text(scanned, n),
        None => b"",
    }
}

/// Whether the spelling of a token is this one, byte for byte.
#[inline(always)]
pub fn is_spelled(spelling: &[u8], expected: &[u8]) -> bool
    ensures { result ≡ bytes_eq spelling.now expected.now }
{
    spelling == expected
}
