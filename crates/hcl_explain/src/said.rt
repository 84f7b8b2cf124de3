//! The place and the sentence of an error of a text.

ghost use Rattle.std.specs.Prelude.{◌≡◌, IfOk, IfSome, IfNone, None};
ghost use Rattle.hcl_explain.specs.Explanations.{IsAtNoToken};
ghost use Rattle.hcl_explain.specs.ScanExplanations.{IsScanExplanation};
ghost use Rattle.hcl_explain.specs.Said.{IsSaidOfScan, IsSaidOfParse, IsAtNoTokenOf};

use crate::explanation::explain;
use crate::heredoc::none_unless_memory;
use crate::scan_error::explain_scan;
use hcl_scan::{ScanFault, Scanned, scan};
use hcl_text_laws::ParseFault;
use std::alloc::{AllocError, Global};

/// What is said of an error of a text, and the byte at which it is printed, from 0.
#[derive(Drop)]
pub struct Said {
    pub at: usize,
    /// One line, without its end.
    pub sentence: String,
}

/// Returns what is said of the error that `scan` has for a text, if it is at a byte.
///
/// # Errors
///
/// `AllocError` if memory runs out.
pub fn say_scan_fault(
    alloc: Global,
    text: &[u8],
    fault: ScanFault,
) -> Result<Option<Said>, AllocError>
    ensures said { IfOk result (λ o. IfSome o (λ said. IsSaidOfScan text.now fault said.at)) }
    ensures none { IfOk result (λ o. IfNone o (IsScanExplanation text.now fault None)) }
{
    match explain_scan(alloc, text, fault)? {
        Some(explanation) => {
            let sentence = explanation.sentence(alloc, text)?;
            Ok(Some(Said {
                at: explanation.at,
                sentence,
            }))
        }
        None => Ok(None),
    }
}

/// Returns what is said of the error of a text that has tokens and does not parse, if it is at one
/// of them or at the end of the text.
///
/// # Errors
///
/// `AllocError` if memory runs out.
pub fn say_parse_fault(
    alloc: Global,
    text: &[u8],
    fault: ParseFault,
) -> Result<Option<Said>, AllocError>
    ensures said { IfOk result (λ o. IfSome o (λ said. IsSaidOfParse text.now fault said.at)) }
    ensures none { IfOk result (λ o. IfNone o (IsAtNoTokenOf text.now fault)) }
{
    hcl_scan::laws::one_tokenization();
    hcl_scan::laws::no_tokenization_with_fault();
    match scan(alloc, text) {
        Ok(scanned) => say_of_tokens(alloc, &scanned, fault),
        Err(fault) => none_unless_memory(fault),
    }
}

/// Returns what is said of the error of a text with these tokens.
fn say_of_tokens(
    alloc: Global,
    scanned: &Scanned<'_>,
    fault: ParseFault,
) -> Result<Option<Said>, AllocError>
    ensures said { IfOk result
        (λ o. IfSome o (λ said. IsSaidOfParse scanned.now.text fault said.at)) }
    ensures none { IfOk result (λ o. IfNone o (IsAtNoToken scanned.now fault)) }
{
    // for the proof: a clause of `text` says that these are the tokens of the text
    let _text = scanned.text();
    match explain(scanned, fault) {
        Some(explanation) => {
            let at = explanation.place(scanned);
            let sentence = explanation.sentence(alloc, scanned)?;
            Ok(Some(Said { at, sentence }))
        }
        None => Ok(None),
    }
}
