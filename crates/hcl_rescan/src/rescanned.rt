//! What of a new text is scanned.

use hcl_scan::Span;

/// The beginning of a new text that is scanned: the tokens of its first `at` bytes.
#[derive(Drop)]
pub(crate) struct Rescanned {
    pub tokens: Vec<Span>,
    pub at: usize,
}
