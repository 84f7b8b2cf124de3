//! The size limit of a text.

/// The greatest number of bytes of a text.
pub const MAX_TEXT: usize = 16_777_216;
