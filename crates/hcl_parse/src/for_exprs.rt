//! `for` expressions.

ghost use Rattle.hcl_parse.specs.Rules as spec;
ghost use Rattle.hcl_parse.specs.Rules.{Yields};

use crate::builder::{Builder, Taken, Tokens};
use crate::exprs::expr;
use hcl_reader::Reader;
use hcl_token::Kind;

/// Takes an `Intro`: `"for" Identifier ("," Identifier)? "in" Expr`.
#[cycle(nest)]
#[tactic(auto, unfolding(hcl_grammar::specs::Pure::Parser::intro))]
pub fn intro<S: Builder>(builder: &S, reader: &Reader, at: &mut u32) -> Taken<S::Intro>
    ensures { Yields S.may_run_out
        (spec.intro (S.make builder.now) reader.now at.old) result at.new }
{
    let inside = reader.in_brackets();
    let first = inside.next_index(*at);
    inside.expect_word(b"for", at)?;
    let name = inside.next_index(*at);
    inside.expect(Kind::Identifier, at)?;
    let second = inside.second_name(at)?;
    inside.expect_word(b"in", at)?;
    let collection = expr::<S>(builder, &inside, at)?;
    Ok(builder.intro(Tokens { first, past: *at }, name, second, collection))
}

/// Takes the filter of a `For`, `"if" Expr`, if it has one, and the bracket that closes it.
#[cycle(nest)]
#[tactic(auto, unfolding(hcl_grammar::specs::Pure::Parser::filter))]
fn filter<S: Builder>(
    builder: &S,
    reader: &Reader,
    close: Kind,
    at: &mut u32,
) -> Taken<Option<S::Expr>>
    ensures { Yields S.may_run_out
        (spec.filter (S.make builder.now) reader.now close at.old) result at.new }
{
    let inside = reader.in_brackets();
    if !inside.eat_word(b"if", at) {
        inside.expect(close, at)?;
        return Ok(None);
    }
    let value = expr::<S>(builder, &inside, at)?;
    inside.expect(close, at)?;
    Ok(Some(value))
}

/// Takes the rest of a `For` in brackets, after its `[`, which is token `first`.
#[cycle(nest)]
#[tactic(auto, unfolding(hcl_grammar::specs::Pure::Parser::for_tuple))]
pub fn for_tuple<S: Builder>(
    builder: &S,
    reader: &Reader,
    first: u32,
    at: &mut u32,
) -> Taken<S::Term>
    ensures { Yields S.may_run_out
        (spec.for_tuple (S.make builder.now) reader.now first at.old) result at.new }
{
    let inside = reader.in_brackets();
    let begin = intro::<S>(builder, &inside, at)?;
    inside.expect(Kind::Colon, at)?;
    let value = expr::<S>(builder, &inside, at)?;
    let filter = filter::<S>(builder, &inside, Kind::CloseBracket, at)?;
    Ok(builder.for_tuple(Tokens { first, past: *at }, begin, value, filter)?)
}

/// Takes the rest of a `For` in braces, after its key.
#[cycle(nest)]
#[tactic(auto, unfolding(hcl_grammar::specs::Pure::Parser::for_value))]
fn for_value<S: Builder>(
    builder: &S,
    reader: &Reader,
    first: u32,
    begin: S::Intro,
    key: S::Expr,
    at: &mut u32,
) -> Taken<S::Term>
    ensures { Yields S.may_run_out
        (spec.for_value (S.make builder.now) reader.now first begin key at.old) result at.new }
{
    let inside = reader.in_brackets();
    inside.expect(Kind::FatArrow, at)?;
    let value = expr::<S>(builder, &inside, at)?;
    let grouped = inside.eat(Kind::Ellipsis, at);
    let filter = filter::<S>(builder, &inside, Kind::CloseBrace, at)?;
    Ok(builder.for_object(
        Tokens { first, past: *at },
        begin,
        key,
        value,
        grouped,
        filter,
    )?)
}

/// Takes the rest of a `For` in braces, after its `{`, which is token `first`.
#[cycle(nest)]
#[tactic(auto, unfolding(hcl_grammar::specs::Pure::Parser::for_object))]
pub fn for_object<S: Builder>(
    builder: &S,
    reader: &Reader,
    first: u32,
    at: &mut u32,
) -> Taken<S::Term>
    ensures { Yields S.may_run_out
        (spec.for_object (S.make builder.now) reader.now first at.old) result at.new }
{
    let inside = reader.in_brackets();
    let begin = intro::<S>(builder, &inside, at)?;
    inside.expect(Kind::Colon, at)?;
    let key = expr::<S>(builder, &inside, at)?;
    for_value::<S>(builder, &inside, first, begin, key, at)
}
