//! Splits a text of the HCL native syntax into tokens.
//!
//! `scan` returns the tokens of a text, as `Scanned`, or its error. `laws` has what is proved of
//! them: a text has tokens or an error, one alone, and a text that is written token by token has
//! the tokens that were written.
#![tactic(auto)]

mod bytes;
mod fault;
mod heredoc;
mod ident;
pub mod laws;
mod mode;
mod number;
mod operator;
mod plain;
mod quoted;
mod runs;
mod scanned;
mod sixteen;
mod token;
mod token_list;
mod tokenize;

pub use fault::ScanFault;
pub use hcl_token::{Item, Kind, Lines, MAX_TEXT, Place, Places, Span};
pub use scanned::{Scanned, scan, scan_in};
pub use token_list::TokenList;
