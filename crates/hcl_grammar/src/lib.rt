//! The syntax tree of a text, and the grammar of the HCL native syntax: which tree is derived over
//! which tokens.
//!
//! `Boxed` owns one value and `Items` many; contracts see the value and the list, so a tree of them
//! is plain data.
#![tactic(auto)]

pub mod bounds;
mod boxed;
pub mod fault;
pub mod goal;
mod items;
pub mod operators;
pub mod tree;

pub use bounds::MAX_NESTING;
pub use boxed::Boxed;
pub use fault::TokenFault;
pub use goal::Goal;
pub use items::Items;
pub use tree::{
    Attribute, BinaryOperator, Block, Body, Call, Content, Elem, Expr, ExprKind, ForDirective,
    ForObject, ForTuple, IfDirective, Intro, Label, Member, Operation, Part, Primary, Tail,
    Template, Term, Tree, UnaryOperator,
};
