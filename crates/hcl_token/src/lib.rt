//! Tokens of the HCL native syntax: their kinds, their places in a text, and the gaps between them.
#![tactic(auto)]

mod graphemes;
mod item;
mod join_table;
mod kind;
mod limit;
mod line_column;
mod lines;
mod place;
mod places;
mod same_tokens;
mod span;

pub use graphemes::clusters;
pub use item::Item;
pub use join_table::joins;
pub use kind::Kind;
pub use limit::MAX_TEXT;
pub use line_column::{gap_at, slice, token_range};
pub use lines::Lines;
pub use place::Place;
pub use places::Places;
pub use same_tokens::are_same_tokens;
pub use span::Span;
