//! The tokens of a text, without it.

use hcl_token::Span;

/// The tokens of a text, without the text, which may be moved while nothing reads it.
#[derive(Drop)]
pub struct TokenList {
    pub(crate) tokens: Vec<Span>,
    pub(crate) last_gap_at: u32,
}
