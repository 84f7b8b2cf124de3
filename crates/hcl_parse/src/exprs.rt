//! Expressions: operators and the operands between them. For speed alone: `expr_next` tries
//! `eat_plain_expr` before `general_expr`, and `after_operand` looks once before `chain`.
//!
//! HCL native syntax specification, Expressions.

ghost use Rattle.std.specs.Prelude.{◌≡◌, ◌<◌, ◌≤◌, ◌+◌, ◌^◌, Ok, true, false, None, OnSome};
ghost use Rattle.hcl_token.specs.declared.kind.Kind.TheVariants as k;
ghost use Rattle.hcl_reader.specs.ReaderRules as tokens;
ghost use Rattle.hcl_parse.specs.Rules as spec;
ghost use Rattle.hcl_parse.specs.Rules.{Yields};

use crate::builder::{Builder, Taken, Tokens};
use crate::opens::enter;
use crate::plain::{Portion, eat_plain_expr};
use crate::tails::{has_tail, more_tails, post};
use crate::terms::is_called;
use hcl_grammar::fault::TokenFault;
use hcl_grammar::operators::{operator_between, unary_operator};
use hcl_grammar::tree::{BinaryOperator, UnaryOperator};
use hcl_reader::{Next, Reader, same_kind};
use hcl_token::Kind;

/// Takes a binary operator, of whatever level, if one comes next.
#[inline(always)]
#[tactic(auto, unfolding(hcl_grammar::specs::Pure::Steps::eat_operator, hcl_grammar::specs::Tokens::after_next))]
fn eat_operator(reader: &Reader, at: &mut u32) -> Option<BinaryOperator>
    ensures { spec.eat_operator reader.now at.old ≡ Ok (result, at.new) }
{
    let (number, next) = reader.next_token(*at);
    match next {
        Some(kind) => match operator_between(kind) {
            Some(found) => {
                *at = number + 1;
                Some(found)
            }
            None => None,
        },
        None => None,
    }
}

/// Takes an `Expr`.
#[cycle(nest)]
#[inline(always)]
pub fn expr<S: Builder>(builder: &S, reader: &Reader, at: &mut u32) -> Taken<S::Expr>
    ensures { Yields S.may_run_out
        (spec.expr (S.make builder.now) reader.now at.old) result at.new }
{
    let next = reader.next_token(*at);
    expr_next::<S>(builder, reader, next, at)
}

/// Takes an `Expr` whose first token is `next`.
#[cycle(nest)]
#[inline(always)]
pub fn expr_next<S: Builder>(
    builder: &S,
    reader: &Reader,
    next: Next,
    at: &mut u32,
) -> Taken<S::Expr>
    requires number { next.0 ≡ tokens.next_index reader.now at.old }
    requires kind { next.1 ≡ tokens.next_kind reader.now at.old }
    requires fits { OnSome next.1 (next.0 + 1 < 2 ^ 32) }
    ensures { Yields S.may_run_out
        (spec.expr (S.make builder.now) reader.now at.old) result at.new }
{
    match eat_plain_expr::<S>(builder, reader, next, at)? {
        Portion::Whole(made) => Ok(made),
        Portion::Term {
            turns,
            end,
            head,
            tails,
        } => { expr_after_term::<S>(builder, reader, next.0, turns, end, head, tails, at) }
        Portion::Nothing => general_expr::<S>(builder, reader, at),
    }
}

/// Takes an `Expr`, where `eat_plain_expr` takes none.
#[cycle(nest)]
pub fn general_expr<S: Builder>(builder: &S, reader: &Reader, at: &mut u32) -> Taken<S::Expr>
    ensures { Yields S.may_run_out
        (spec.expr (S.make builder.now) reader.now at.old) result at.new }
{
    whole::<S>(builder, reader, at)
}

/// Takes an `Expr`, where `eat_plain_expr` read a term and tails of it up to `end`. At most `turns`
/// tails follow.
#[cycle(nest)]
#[inline(never)]
pub fn expr_after_term<S: Builder>(
    builder: &S,
    reader: &Reader,
    first: u32,
    turns: u32,
    end: u32,
    head: S::Term,
    tails: S::Tails,
    at: &mut u32,
) -> Taken<S::Expr>
    requires { spec.is_called reader.now end ≡ false
        → spec.expr (S.make builder.now) reader.now at.old
        ≡ spec.rest_of_expr (S.make builder.now) reader.now turns first head tails end }
    ensures { Yields S.may_run_out
        (spec.expr (S.make builder.now) reader.now at.old) result at.new }
{
    let next = reader.next_kind(end);
    if is_called(reader, next, end) {
        return general_expr::<S>(builder, reader, at);
    }
    *at = end;
    rest_of_expr::<S>(builder, reader, next, first, turns, head, tails, at)
}

/// Takes the rest of an `Expr`, after a term and tails of it. At most `turns` tails follow. The
/// next token is `next`.
#[cycle(nest)]
#[inline(always)]
fn rest_of_expr<S: Builder>(
    builder: &S,
    reader: &Reader,
    next: Option<Kind>,
    first: u32,
    turns: u32,
    head: S::Term,
    tails: S::Tails,
    at: &mut u32,
) -> Taken<S::Expr>
    requires { next ≡ tokens.next_kind reader.now at.old }
    ensures { Yields S.may_run_out
        (spec.rest_of_expr (S.make builder.now) reader.now
        turns first head tails at.old) result at.new }
{
    if !has_tail::<S>(builder, reader, next, *at) {
        let alone = builder.postfix(Tokens { first, past: *at }, head, tails)?;
        return chain::<S>(builder, reader, first, alone, at);
    }
    let operand = more_tails::<S>(builder, reader, first, turns, head, tails, at)?;
    after_operand::<S>(builder, reader, first, operand, at)
}

/// Takes the `Unary` after a `-` or `!`.
#[cycle(nest)]
#[inline(always)]
fn operand<S: Builder>(builder: &S, reader: &Reader, at: &mut u32) -> Taken<S::Expr>
    ensures { Yields S.may_run_out
        (spec.operand (S.make builder.now) reader.now at.old) result at.new }
{
    unary::<S>(builder, reader, at)
}

/// Takes the rest of a `Unary`, after its `-` or `!`, which is token `first`. What follows is one
/// construct deeper.
#[cycle(nest)]
#[inline(never)]
fn unary_with<S: Builder>(
    builder: &S,
    reader: &Reader,
    first: u32,
    kind: Kind,
    operator: UnaryOperator,
    at: &mut u32,
) -> Taken<S::Expr>
    ensures { Yields S.may_run_out
        (spec.unary_with (S.make builder.now) reader.now first kind operator at.old) result at.new }
{
    let inner = enter::<S>(builder, reader, first, at)?;
    let operand = operand::<S>(builder, &inner, at)?;
    Ok(builder.unary(Tokens { first, past: *at }, operator, operand)?)
}

/// Returns whether an operand is a whole `Expr`: neither an operator comes next nor `?`.
#[tactic(auto, unfolding(hcl_grammar::specs::Pure::Steps::eat_operator, hcl_grammar::specs::Pure::Reading::next_is))]
fn ends(reader: &Reader, at: u32) -> bool
    ensures operator { result ≡ true → spec.eat_operator reader.now at ≡ Ok (None, at) }
    ensures question { result ≡ true → tokens.next_is reader.now k.Question at ≡ false }
{
    match reader.next_kind(at) {
        Some(kind) => operator_between(kind).is_none() && !same_kind(kind, Kind::Question),
        None => true,
    }
}

/// Takes an `Expr`: `Or ("?" Expr ":" Expr)?`.
#[cycle(nest)]
#[inline(never)]
#[tactic(auto, unfolding(hcl_grammar::specs::Pure::Parser::whole))]
fn whole<S: Builder>(builder: &S, reader: &Reader, at: &mut u32) -> Taken<S::Expr>
    ensures { Yields S.may_run_out
        (spec.whole (S.make builder.now) reader.now at.old) result at.new }
{
    let first = reader.next_index(*at);
    let head = unary::<S>(builder, reader, at)?;
    after_operand::<S>(builder, reader, first, head, at)
}

/// Takes what follows the first operand of an `Expr`. Most are one operand, as one look shows.
#[cycle(nest)]
#[inline(always)]
fn after_operand<S: Builder>(
    builder: &S,
    reader: &Reader,
    first: u32,
    head: S::Expr,
    at: &mut u32,
) -> Taken<S::Expr>
    ensures { Yields S.may_run_out
        (spec.after_operand (S.make builder.now) reader.now first head at.old) result at.new }
{
    if ends(reader, *at) {
        return Ok(head);
    }
    chain::<S>(builder, reader, first, head, at)
}

/// Takes what follows the first operand of an `Expr`: operators, each with its operand, and the
/// rest of a conditional.
#[cycle(nest)]
#[inline(always)]
#[tactic(auto, unfolding(hcl_grammar::specs::Pure::Parser::chain))]
fn chain<S: Builder>(
    builder: &S,
    reader: &Reader,
    first: u32,
    head: S::Expr,
    at: &mut u32,
) -> Taken<S::Expr>
    ensures { Yields S.may_run_out
        (spec.after_operand (S.make builder.now) reader.now first head at.old) result at.new }
{
    let found = operations::<S>(builder, reader, at)?;
    let condition = builder.chain(head, found)?;
    conditional::<S>(builder, reader, first, condition, at)
}

/// Takes the operators that come next, each with the `Unary` after it.
#[cycle(nest)]
#[inline(never)]
fn operations<S: Builder>(builder: &S, reader: &Reader, at: &mut u32) -> Taken<S::Operations>
    ensures { Yields S.may_run_out
        (spec.operations (S.make builder.now) reader.now at.old) result at.new }
{
    let mut found = builder.no_operations();
    for _turn in 0..reader.len() {
        let Some(operator) = eat_operator(reader, at) else {
            return Ok(found);
        };
        let operand = unary::<S>(builder, reader, at)?;
        builder.add_operation(&mut found, operator, operand)?;
    }
    Ok(found)
}

/// Takes the rest of a conditional, if one comes next: `("?" Expr ":" Expr)?`.
#[cycle(nest)]
#[inline(never)]
#[tactic(auto, unfolding(hcl_grammar::specs::Pure::Parser::conditional))]
fn conditional<S: Builder>(
    builder: &S,
    reader: &Reader,
    first: u32,
    condition: S::Expr,
    at: &mut u32,
) -> Taken<S::Expr>
    ensures { Yields S.may_run_out
        (spec.conditional (S.make builder.now) reader.now first condition at.old) result at.new }
{
    let opening = reader.next_index(*at);
    if !reader.eat(Kind::Question, at) {
        return Ok(condition);
    }
    let inner = enter::<S>(builder, reader, opening, at)?;
    let then_branch = expr::<S>(builder, &inner, at)?;
    reader.expect(Kind::Colon, at)?;
    let else_branch = expr::<S>(builder, &inner, at)?;
    Ok(builder.conditional(
        Tokens { first, past: *at },
        condition,
        then_branch,
        else_branch,
    )?)
}

/// Takes a `Unary`: `("-"|"!") Unary | Post`.
#[cycle(nest)]
#[inline(always)]
#[tactic(auto, unfolding(hcl_grammar::specs::Pure::Parser::unary, hcl_grammar::specs::Tokens::after_next))]
fn unary<S: Builder>(builder: &S, reader: &Reader, at: &mut u32) -> Taken<S::Expr>
    ensures { Yields S.may_run_out
        (spec.unary (S.make builder.now) reader.now at.old) result at.new }
{
    let (first, next) = reader.next_token(*at);
    match next {
        Some(kind) => {
            *at = first + 1;
            match unary_operator(kind) {
                Some(operator) => unary_with::<S>(builder, reader, first, kind, operator, at),
                None => post::<S>(builder, reader, first, kind, at),
            }
        }
        None => Err(TokenFault::Syntax(first)),
    }
}
