//! What a parser of expressions has to read.

/// What is to be parsed.
#[derive(Clone, Copy)]
pub enum Goal {
    /// A whole expression.
    Whole,
    /// The operand of an operator before it.
    Operand,
}
