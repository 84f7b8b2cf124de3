//! Why a text does not parse.

ghost use Rattle.std.specs.Prelude.{◌≡◌};
ghost use Rattle.hcl_text_laws.specs.Faults.{byte_offset, to_parse_fault};

use hcl_grammar::MAX_NESTING;
use hcl_grammar::fault::TokenFault;
use hcl_scan::Scanned;
use thiserror::Error;

/// Why a text does not parse, and where. Places count bytes from 0.
///
/// The text is read from left to right, and the error is the first.
#[derive(Clone, Copy, Debug, PartialEq, Eq, Error)]
pub enum ParseFault {
    /// The first token that the grammar does not allow here; the length of the text, where it
    /// ends too early.
    #[error("byte {at}: syntax error")]
    Syntax { at: usize },
    /// The token that opens the construct which is nested too deep (`MAX_NESTING`).
    #[error("byte {at}: nested more than {} deep", MAX_NESTING)]
    TooDeep { at: usize },
    /// An allocation failed.
    #[error("out of memory")]
    Memory,
}

/// Returns the byte where a token begins; the length of the text, if there is none.
fn byte_offset(scanned: &Scanned<'_>, number: u32) -> usize
    ensures { result ≡ byte_offset scanned.now number }
{
    if number < scanned.count() {
        scanned.item(number as usize).start as usize
    } else {
        scanned.text().len()
    }
}

/// Returns an error by the number of its token as one by its byte.
pub fn to_parse_fault(scanned: &Scanned<'_>, fault: TokenFault) -> ParseFault
    ensures { result ≡ to_parse_fault scanned.now fault }
{
    match fault {
        TokenFault::Syntax(number) => ParseFault::Syntax {
            at: byte_offset(scanned, number),
        },
        TokenFault::TooDeep(number) => ParseFault::TooDeep {
            at: byte_offset(scanned, number),
        },
        TokenFault::Memory => ParseFault::Memory,
    }
}
