//! The parser of the HCL native syntax: the tree of a text, if it parses.
//!
//! `parse` returns the one tree of a text, by its tokens. `hcl_grammar` and `hcl_text_laws` say
//! which texts parse, and to which tree.
#![tactic(auto)]

mod checker;
pub mod laws;
mod parser;
pub mod reading;

pub use checker::check;
pub use hcl_grammar::tree::{
    Attribute, BinaryOperator, Block, Body, Call, Content, Elem, Expr, ExprKind, ForDirective,
    ForObject, ForTuple, IfDirective, Intro, Label, Member, Operation, Part, Primary, Tail,
    Template, Term, Tree, UnaryOperator,
};
pub use hcl_grammar::{Boxed, Items, MAX_NESTING, tree};
pub use hcl_text_laws::ParseFault;
pub use parser::parse;
