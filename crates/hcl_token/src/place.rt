//! Lines and columns, and grapheme clusters.

/// The place of a token: its line and its column, both counted from 1.
///
/// Each LF ends a line, also one inside a token. A column counts extended grapheme clusters
/// (Unicode Standard Annex #29), token by token and gap by gap.
#[derive(Clone, Copy, Debug, PartialEq, Eq)]
pub struct Place {
    pub line: usize,
    pub column: usize,
}
