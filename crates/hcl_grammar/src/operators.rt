//! Which kinds of tokens are operators, and their levels.
//!
//! HCL native syntax specification, Operations.

ghost use Rattle.std.specs.Prelude.{◌≡◌};
ghost use Rattle.hcl_grammar.specs.Operators as operators;

use crate::tree::{BinaryOperator, UnaryOperator};
use hcl_token::Kind;

/// Returns the operator before an operand that a token is, if it is one.
pub fn unary_operator(kind: Kind) -> Option<UnaryOperator>
    ensures { result ≡ operators.unary_operator kind }
{
    match kind {
        Kind::Minus => Some(UnaryOperator::Minus),
        Kind::Bang => Some(UnaryOperator::Not),
        _ => None,
    }
}

/// Returns the operator between two operands that a token is, if it is one.
pub fn operator_between(kind: Kind) -> Option<BinaryOperator>
    ensures { result ≡ operators.operator_between kind }
{
    match kind {
        Kind::Star => Some(BinaryOperator::Times),
        Kind::Slash => Some(BinaryOperator::Divide),
        Kind::Percent => Some(BinaryOperator::Modulo),
        Kind::Plus => Some(BinaryOperator::Plus),
        Kind::Minus => Some(BinaryOperator::Minus),
        Kind::Greater => Some(BinaryOperator::Greater),
        Kind::GreaterEqual => Some(BinaryOperator::GreaterEqual),
        Kind::Less => Some(BinaryOperator::Less),
        Kind::LessEqual => Some(BinaryOperator::LessEqual),
        Kind::DoubleEqual => Some(BinaryOperator::Equal),
        Kind::NotEqual => Some(BinaryOperator::NotEqual),
        Kind::And => Some(BinaryOperator::And),
        Kind::Or => Some(BinaryOperator::Or),
        _ => None,
    }
}

/// How many levels there are.
pub const LEVELS: u32 = 6;

/// Returns the level of an operator: level 0 binds closest.
pub fn operator_level(operator: BinaryOperator) -> u32
    ensures { result ≡ operators.operator_level operator }
{
    match operator {
        BinaryOperator::Times | BinaryOperator::Divide | BinaryOperator::Modulo => 0,
        BinaryOperator::Plus | BinaryOperator::Minus => 1,
        BinaryOperator::Greater
        | BinaryOperator::GreaterEqual
        | BinaryOperator::Less
        | BinaryOperator::LessEqual => 2,
        BinaryOperator::Equal | BinaryOperator::NotEqual => 3,
        BinaryOperator::And => 4,
        BinaryOperator::Or => 5,
    }
}
