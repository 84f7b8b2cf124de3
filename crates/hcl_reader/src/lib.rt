//! A text's tokens, as a parser reads them at one place: the next token, words, line ends, and
//! constructs that open.
#![tactic(auto)]

mod lines;
mod lookahead;
mod next_token;
pub mod reader;
mod words;

pub use lookahead::same_kind;
pub use next_token::Next;
pub use reader::Reader;
