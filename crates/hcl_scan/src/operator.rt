//! The operators.

ghost use Rattle.std.specs.Prelude.{◌≡◌, Some, None, IfSome, if◌then◌else◌};
ghost use Rattle.hcl_scan.specs.Inner.NextToken.{single, compound, operator};
ghost use Rattle.hcl_scan.specs.Inner.OpeningPlaces.{LeavesOpenings};

use hcl_token::Kind;

/// Returns the longest operator that begins with these bytes, and its length. A byte is 0 at the
/// end of the text and after it.
///
/// HCL native syntax specification, Operators and Delimiters.
pub fn operator(first: u8, second: u8, third: u8) -> Option<(Kind, usize)>
    ensures { result ≡ operator first second third }
{
    match first {
        b'=' | b'.' | b':' | b'!' | b'<' | b'>' | b'&' | b'|' | b'/' => {
            compound(first, second, third)
        }
        _ => single(first),
    }
}

/// Returns the operator of one byte with which no other begins, and its length.
fn single(first: u8) -> Option<(Kind, usize)>
    ensures { result ≡ single first }
{
    match first {
        b'{' => Some((Kind::OpenBrace, 1)),
        b'[' => Some((Kind::OpenBracket, 1)),
        b']' => Some((Kind::CloseBracket, 1)),
        b'(' => Some((Kind::OpenParen, 1)),
        b')' => Some((Kind::CloseParen, 1)),
        b',' => Some((Kind::Comma, 1)),
        b'?' => Some((Kind::Question, 1)),
        b'+' => Some((Kind::Plus, 1)),
        b'-' => Some((Kind::Minus, 1)),
        b'*' => Some((Kind::Star, 1)),
        b'%' => Some((Kind::Percent, 1)),
        _ => None,
    }
}

/// Returns one of the operators of which several begin with the same byte, and its length.
fn compound(first: u8, second: u8, third: u8) -> Option<(Kind, usize)>
    ensures { result ≡ compound first second third }
{
    match first {
        b'=' => equal(second),
        b'.' => {
            if second == b'.' && third == b'.' {
                Some((Kind::Ellipsis, 3))
            } else {
                Some((Kind::Dot, 1))
            }
        }
        b':' => either(second == b':', Kind::DoubleColon, Kind::Colon),
        b'!' => either(second == b'=', Kind::NotEqual, Kind::Bang),
        b'<' => either(second == b'=', Kind::LessEqual, Kind::Less),
        b'>' => either(second == b'=', Kind::GreaterEqual, Kind::Greater),
        b'&' if second == b'&' => Some((Kind::And, 2)),
        b'|' if second == b'|' => Some((Kind::Or, 2)),
        b'/' if second != b'*' && second != b'/' => Some((Kind::Slash, 1)),
        _ => None,
    }
}

/// Returns the operator that begins with `=`, by its second byte, and its length.
pub fn equal(second: u8) -> Option<(Kind, usize)>
    ensures value { result ≡ compound 61 second 0 }
    ensures kind { IfSome result (λ found. LeavesOpenings found.0) }
{
    match second {
        b'=' => Some((Kind::DoubleEqual, 2)),
        b'>' => Some((Kind::FatArrow, 2)),
        _ => Some((Kind::Equal, 1)),
    }
}

/// Returns the operator of two bytes if `two`, else that of the first byte alone, and its length.
#[inline(always)]
pub fn either(two: bool, long: Kind, short: Kind) -> Option<(Kind, usize)>
    ensures value { result ≡ (if two then Some (long, 2) else Some (short, 1)) }
    ensures kind { LeavesOpenings long → LeavesOpenings short
        → IfSome result (λ found. LeavesOpenings found.0) }
{
    if two {
        Some((long, 2))
    } else {
        Some((short, 1))
    }
}

/// Returns the operator of two bytes and its length if `two`, else none.
#[inline(always)]
pub fn both(two: bool, kind: Kind) -> Option<(Kind, usize)>
    ensures value { result ≡ (if two then Some (kind, 2) else None) }
    ensures kind { LeavesOpenings kind → IfSome result (λ found. LeavesOpenings found.0) }
{
    if two { Some((kind, 2)) } else { None }
}
