//! The tails of a term: attributes, indices and splats.

ghost use Rattle.std.specs.Prelude.{◌≡◌, Ok, false, None, length};
ghost use Rattle.hcl_reader.specs.ReaderRules as tokens;
ghost use Rattle.hcl_grammar.specs.Pure.Reading.{ReadsExactly};
ghost use Rattle.hcl_parse.specs.Rules as spec;
ghost use Rattle.hcl_parse.specs.Rules.{Yields};

use crate::builder::{Builder, Taken, Tokens};
use crate::exprs::expr;
use crate::opens::enter;
use crate::terms::term;
use hcl_grammar::fault::TokenFault;
use hcl_reader::{Reader, same_kind};
use hcl_token::Kind;

/// Takes the rest of a `Tail`, after its `.`: a name, or `*`.
#[tactic(auto, unfolding(hcl_grammar::specs::Pure::Parser::dot_tail, hcl_grammar::specs::Pure::Reading::next_is, hcl_grammar::specs::Pure::Reading::after_if_next, hcl_grammar::specs::Pure::Reading::expect, hcl_grammar::specs::Tokens::after_next))]
fn dot_tail<S: Builder>(builder: &S, reader: &Reader, at: &mut u32) -> Taken<S::Tail>
    ensures { ReadsExactly (spec.dot_tail (S.make builder.now) reader.now at.old) result at.new }
{
    let (number, next) = reader.next_token(*at);
    match next {
        Some(kind) => {
            if same_kind(kind, Kind::Star) {
                *at = number + 1;
                return Ok(builder.attribute_splat());
            }
            if !same_kind(kind, Kind::Identifier) {
                return Err(TokenFault::Syntax(number));
            }
            *at = number + 1;
            Ok(builder.name_tail(number))
        }
        None => Err(TokenFault::Syntax(number)),
    }
}

/// Takes the rest of a `Tail`, after its `[`, which is token `first`: `*` or an `Expr`, and `]`.
#[cycle(nest)]
#[tactic(auto, unfolding(hcl_grammar::specs::Pure::Parser::bracket_tail))]
fn bracket_tail<S: Builder>(
    builder: &S,
    reader: &Reader,
    first: u32,
    at: &mut u32,
) -> Taken<S::Tail>
    ensures { Yields S.may_run_out
        (spec.bracket_tail (S.make builder.now) reader.now first at.old) result at.new }
{
    let inner = enter::<S>(builder, reader, first, at)?.in_brackets();
    if inner.eat(Kind::Star, at) {
        inner.expect(Kind::CloseBracket, at)?;
        return Ok(builder.full_splat());
    }
    let key = expr::<S>(builder, &inner, at)?;
    inner.expect(Kind::CloseBracket, at)?;
    Ok(builder.index(key)?)
}

/// Takes a `Tail`, if one comes next.
#[cycle(nest)]
#[tactic(auto, unfolding(hcl_grammar::specs::Pure::Parser::tail_of, hcl_grammar::specs::Tokens::after_next))]
fn tail<S: Builder>(builder: &S, reader: &Reader, at: &mut u32) -> Taken<Option<S::Tail>>
    ensures { Yields S.may_run_out
        (spec.tail (S.make builder.now) reader.now at.old) result at.new }
{
    let (first, next) = reader.next_token(*at);
    match next {
        Some(Kind::Dot) => {
            *at = first + 1;
            Ok(Some(dot_tail::<S>(builder, reader, at)?))
        }
        Some(Kind::DotIndex) => {
            *at = first + 1;
            Ok(Some(builder.legacy_index(first)))
        }
        Some(Kind::OpenBracket) => {
            *at = first + 1;
            Ok(Some(bracket_tail::<S>(builder, reader, first, at)?))
        }
        _ => Ok(None),
    }
}

/// Returns whether a `Tail` comes next. The next token is `next`.
#[tactic(auto, unfolding(hcl_grammar::specs::Pure::Parser::tail_of))]
pub fn has_tail<S: Builder>(builder: &S, reader: &Reader, next: Option<Kind>, at: u32) -> bool
    requires { next ≡ tokens.next_kind reader.now at }
    ensures { result ≡ false → spec.tail (S.make builder.now) reader.now at ≡ Ok (None, at) }
{
    match next {
        Some(Kind::Dot) | Some(Kind::DotIndex) | Some(Kind::OpenBracket) => true,
        _ => false,
    }
}

/// Takes the tails that come next, one by one, at most `turns`.
#[cycle(nest)]
#[inline(never)]
pub fn each_tail<S: Builder>(
    builder: &S,
    reader: &Reader,
    turns: u32,
    found: S::Tails,
    at: &mut u32,
) -> Taken<S::Tails>
    ensures { Yields S.may_run_out
        (spec.tails_from (S.make builder.now) reader.now turns found at.old) result at.new }
{
    let mut all = found;
    for _turn in 0..turns {
        match tail::<S>(builder, reader, at)? {
            Some(more) => builder.add_tail(&mut all, more)?,
            None => return Ok(all),
        }
    }
    Ok(all)
}

/// Takes the rest of a `Post`, after its first token, which is `first`: `Term Tail*`. Most have no
/// tail, as one look shows.
#[cycle(nest)]
#[inline(always)]
#[tactic(auto, unfolding(hcl_grammar::specs::Pure::Parser::post_by))]
pub fn post<S: Builder>(
    builder: &S,
    reader: &Reader,
    first: u32,
    kind: Kind,
    at: &mut u32,
) -> Taken<S::Expr>
    ensures { Yields S.may_run_out
        (spec.post (S.make builder.now) reader.now first kind at.old) result at.new }
{
    let head = term::<S>(builder, reader, first, kind, at)?;
    let next = reader.next_kind(*at);
    if !has_tail::<S>(builder, reader, next, *at) {
        return Ok(builder.term_expr(Tokens { first, past: *at }, head));
    }
    with_tails::<S>(builder, reader, first, head, at)
}

/// Takes the tails that come next, after the term before them.
#[cycle(nest)]
#[inline(always)]
fn with_tails<S: Builder>(
    builder: &S,
    reader: &Reader,
    first: u32,
    head: S::Term,
    at: &mut u32,
) -> Taken<S::Expr>
    ensures { Yields S.may_run_out (let n = length reader.now.tokens in
        spec.with_tails (S.make builder.now) reader.now n first head
        (S.make builder.now).no_tails at.old) result at.new }
{
    let tails = builder.no_tails();
    more_tails::<S>(builder, reader, first, reader.len(), head, tails, at)
}

/// Takes the tails that come next, at most `turns`, after a term and tails of it.
#[cycle(nest)]
#[inline(always)]
#[tactic(auto, unfolding(hcl_grammar::specs::Pure::Parser::with_tails))]
pub fn more_tails<S: Builder>(
    builder: &S,
    reader: &Reader,
    first: u32,
    turns: u32,
    head: S::Term,
    tails: S::Tails,
    at: &mut u32,
) -> Taken<S::Expr>
    ensures { Yields S.may_run_out
        (spec.with_tails (S.make builder.now) reader.now
        turns first head tails at.old) result at.new }
{
    let all = each_tail::<S>(builder, reader, turns, tails, at)?;
    Ok(builder.postfix(Tokens { first, past: *at }, head, all)?)
}
