//! One parser of the HCL native syntax, generic in what it makes: nodes, nothing, or what a crate
//! above wants (tf_glance).
#![tactic(auto)]

mod bodies;
mod builder;
mod exprs;
mod for_exprs;
mod grouping;
pub mod laws;
mod nodes;
mod nothing;
mod opens;
mod plain;
mod reads;
mod tails;
mod templates;
mod terms;

pub use bodies::{file, member};
pub use builder::{Builder, Made, Taken, Tokens};
pub use exprs::expr;
pub use nodes::Nodes;
pub use nothing::Nothing;
pub use reads::{check, next_member, parse};
