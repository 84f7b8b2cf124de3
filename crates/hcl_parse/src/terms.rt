//! Terms.

ghost use Rattle.std.specs.Prelude.{◌≡◌, ◌<◌, ◌+◌, ◌^◌, OnSome};
ghost use Rattle.hcl_reader.specs.ReaderRules as tokens;
ghost use Rattle.hcl_reader.specs.ReaderRules.{outside_brackets};
ghost use Rattle.hcl_grammar.specs.Pure.Reading.{ReadsExactly};
ghost use Rattle.hcl_parse.specs.Rules as spec;
ghost use Rattle.hcl_parse.specs.Rules.{Yields};

use crate::builder::{Builder, Taken, Tokens};
use crate::exprs::{expr, expr_next};
use crate::for_exprs::{for_object, for_tuple};
use crate::opens::enter;
use crate::templates::template;
use hcl_grammar::fault::TokenFault;
use hcl_reader::{Next, Reader, same_kind};
use hcl_token::Kind;

/// Takes the names of a function after the first: `("::" Identifier)*`.
fn names<S: Builder>(builder: &S, reader: &Reader, first: u32, at: &mut u32) -> Taken<S::Names>
    ensures { Yields S.may_run_out
        (spec.names (S.make builder.now) reader.now first at.old) result at.new }
{
    let mut found = builder.first_name(first)?;
    for _turn in 0..reader.len() {
        if !reader.eat(Kind::DoubleColon, at) {
            return Ok(found);
        }
        let number = reader.next_index(*at);
        reader.expect(Kind::Identifier, at)?;
        builder.add_name(&mut found, number)?;
    }
    Ok(found)
}

/// Takes the arguments of a `Call` and the `)` after them.
#[cycle(nest)]
fn arguments<S: Builder>(builder: &S, reader: &Reader, at: &mut u32) -> Taken<(S::Exprs, bool)>
    ensures { Yields S.may_run_out
        (spec.arguments (S.make builder.now) reader.now at.old) result at.new }
{
    let inside = reader.in_brackets();
    let mut found = builder.no_exprs();
    for _turn in 0..inside.len() {
        let next = inside.next_token(*at);
        if inside.eat_next(next, Kind::CloseParen, at) {
            return Ok((found, false));
        }
        let item = expr_next::<S>(builder, &inside, next, at)?;
        builder.add_expr(&mut found, item)?;
        let after = inside.next_token(*at);
        if !inside.eat_next(after, Kind::Comma, at) {
            if !inside.eat_next(after, Kind::Ellipsis, at) {
                inside.expect_next(after, Kind::CloseParen, at)?;
                return Ok((found, false));
            }
            inside.expect(Kind::CloseParen, at)?;
            return Ok((found, true));
        }
    }
    Err(inside.syntax_fault(*at))
}

/// Takes the items of a `Tuple`, and its `]`.
#[cycle(nest)]
fn tuple_items<S: Builder>(builder: &S, reader: &Reader, at: &mut u32) -> Taken<S::Exprs>
    ensures { Yields S.may_run_out
        (spec.tuple_items (S.make builder.now) reader.now at.old) result at.new }
{
    let inside = reader.in_brackets();
    let mut found = builder.no_exprs();
    for _turn in 0..inside.len() {
        let next = inside.next_token(*at);
        if inside.eat_next(next, Kind::CloseBracket, at) {
            return Ok(found);
        }
        let item = expr_next::<S>(builder, &inside, next, at)?;
        builder.add_expr(&mut found, item)?;
        let after = inside.next_token(*at);
        if !inside.eat_next(after, Kind::Comma, at) {
            inside.expect_next(after, Kind::CloseBracket, at)?;
            return Ok(found);
        }
    }
    Err(inside.syntax_fault(*at))
}

/// Takes the rest of a `Tuple`, after its `[`, which is token `first`.
#[cycle(nest)]
#[tactic(auto, unfolding(hcl_grammar::specs::Pure::Parser::tuple))]
fn tuple<S: Builder>(builder: &S, reader: &Reader, first: u32, at: &mut u32) -> Taken<S::Term>
    ensures { Yields S.may_run_out
        (spec.tuple (S.make builder.now) reader.now first at.old) result at.new }
{
    let found = tuple_items::<S>(builder, reader, at)?;
    Ok(builder.tuple(Tokens { first, past: *at }, found)?)
}

/// Takes an `Elem`, and adds it to those that were found. Its first token is `next`.
#[cycle(nest)]
#[inline(always)]
#[tactic(auto, unfolding(hcl_grammar::specs::Pure::Parser::elem))]
fn elem<S: Builder>(
    builder: &S,
    reader: &Reader,
    next: Next,
    found: S::Elems,
    at: &mut u32,
) -> Taken<S::Elems>
    requires number { next.0 ≡ tokens.next_index (outside_brackets reader.now) at.old }
    requires kind { next.1 ≡ tokens.next_kind (outside_brackets reader.now) at.old }
    requires fits { OnSome next.1 (next.0 + 1 < 2 ^ 32) }
    ensures { Yields S.may_run_out
        (spec.elem (S.make builder.now) reader.now found at.old) result at.new }
{
    let lines = reader.outside_brackets();
    let mut all = found;
    let key = expr_next::<S>(builder, &lines, next, at)?;
    equals_or_colon(&lines, at)?;
    let value = expr::<S>(builder, &lines, at)?;
    builder.add_elem(&mut all, key, value)?;
    Ok(all)
}

/// Takes the `=` or `:` after a key.
#[inline(always)]
#[tactic(auto, unfolding(hcl_grammar::specs::Pure::Steps::equals_or_colon))]
fn equals_or_colon(reader: &Reader, at: &mut u32) -> Taken<()>
    ensures { ReadsExactly (spec.equals_or_colon reader.now at.old) result at.new }
{
    let lines = reader.outside_brackets();
    let sign = lines.next_token(*at);
    if lines.eat_next(sign, Kind::Equal, at) {
        return Ok(());
    }
    lines.expect_next(sign, Kind::Colon, at)
}

/// Takes the elements of an `Object` and the `}` after them: `(Elem (Sep Elem)* Sep?)?`.
#[cycle(nest)]
fn elems<S: Builder>(builder: &S, reader: &Reader, at: &mut u32) -> Taken<S::Elems>
    ensures { Yields S.may_run_out
        (spec.elems (S.make builder.now) reader.now at.old) result at.new }
{
    let lines = reader.outside_brackets();
    let mut found = builder.no_elems();
    for _turn in 0..lines.len() {
        let next = lines.next_token(*at);
        if lines.eat_next(next, Kind::CloseBrace, at) {
            return Ok(found);
        }
        found = elem::<S>(builder, &lines, next, found, at)?;
        if !lines.eat_separator_or_brace(at)? {
            return Ok(found);
        }
    }
    Err(lines.syntax_fault(*at))
}

/// Takes the rest of an `Object`, after its `{`, which is token `first`.
#[cycle(nest)]
#[tactic(auto, unfolding(hcl_grammar::specs::Pure::Parser::object))]
fn object<S: Builder>(builder: &S, reader: &Reader, first: u32, at: &mut u32) -> Taken<S::Term>
    ensures { Yields S.may_run_out
        (spec.object (S.make builder.now) reader.now first at.old) result at.new }
{
    reader.skip_newlines(at)?;
    let found = elems::<S>(builder, reader, at)?;
    Ok(builder.object(Tokens { first, past: *at }, found)?)
}

/// Takes the rest of a `Tuple`, or of a `For` in brackets, after its `[`, which is token `first`.
#[cycle(nest)]
#[inline(never)]
#[tactic(auto, unfolding(hcl_grammar::specs::Pure::Parser::tuple_or_for))]
fn tuple_or_for<S: Builder>(
    builder: &S,
    reader: &Reader,
    first: u32,
    at: &mut u32,
) -> Taken<S::Term>
    ensures { Yields S.may_run_out
        (spec.tuple_or_for (S.make builder.now) reader.now first at.old) result at.new }
{
    let inner = enter::<S>(builder, reader, first, at)?.in_brackets();
    if inner.next_is_word(b"for", *at) {
        for_tuple::<S>(builder, &inner, first, at)
    } else {
        tuple::<S>(builder, &inner, first, at)
    }
}

/// Takes the rest of an `Object`, or of a `For` in braces, after its `{`, which is token `first`.
#[cycle(nest)]
#[inline(never)]
#[tactic(auto, unfolding(hcl_grammar::specs::Pure::Parser::object_or_for))]
fn object_or_for<S: Builder>(
    builder: &S,
    reader: &Reader,
    first: u32,
    at: &mut u32,
) -> Taken<S::Term>
    ensures { Yields S.may_run_out
        (spec.object_or_for (S.make builder.now) reader.now first at.old) result at.new }
{
    let inner = enter::<S>(builder, reader, first, at)?.in_brackets();
    if inner.next_is_word(b"for", *at) {
        for_object::<S>(builder, &inner, first, at)
    } else {
        object::<S>(builder, &inner, first, at)
    }
}

/// Takes an `Expr` and what closes it, after an opening that is token `first`: parentheses or an
/// `Interp`.
#[cycle(nest)]
#[inline(always)]
#[tactic(auto, unfolding(hcl_grammar::specs::Pure::Parser::enclosed))]
pub fn enclosed<S: Builder>(
    builder: &S,
    reader: &Reader,
    close: Kind,
    first: u32,
    at: &mut u32,
) -> Taken<S::Expr>
    ensures { Yields S.may_run_out
        (spec.enclosed (S.make builder.now) reader.now close first at.old) result at.new }
{
    let inner = enter::<S>(builder, reader, first, at)?.in_brackets();
    let value = expr::<S>(builder, &inner, at)?;
    inner.expect(close, at)?;
    Ok(value)
}

/// Takes an `Expr` in parentheses, and the `)`.
#[cycle(nest)]
#[inline(always)]
#[tactic(auto, unfolding(hcl_grammar::specs::Pure::Parser::parens))]
fn parens<S: Builder>(builder: &S, reader: &Reader, first: u32, at: &mut u32) -> Taken<S::Term>
    ensures { Yields S.may_run_out
        (spec.parens (S.make builder.now) reader.now first at.old) result at.new }
{
    let value = enclosed::<S>(builder, reader, Kind::CloseParen, first, at)?;
    Ok(builder.parens(Tokens { first, past: *at }, value)?)
}

/// Takes the rest of a `Quoted`, after its quote.
#[cycle(nest)]
#[inline(never)]
#[tactic(auto, unfolding(hcl_grammar::specs::Pure::Parser::quoted))]
fn quoted<S: Builder>(builder: &S, reader: &Reader, first: u32, at: &mut u32) -> Taken<S::Term>
    ensures { Yields S.may_run_out
        (spec.quoted (S.make builder.now) reader.now first at.old) result at.new }
{
    let inner = enter::<S>(builder, reader, first, at)?;
    let made = template::<S>(builder, &inner, at)?;
    inner.expect(Kind::QuoteClose, at)?;
    Ok(builder.quoted(Tokens { first, past: *at }, made)?)
}

/// Takes the rest of a `Heredoc`, after its opening.
#[cycle(nest)]
#[inline(never)]
#[tactic(auto, unfolding(hcl_grammar::specs::Pure::Parser::heredoc))]
fn heredoc<S: Builder>(builder: &S, reader: &Reader, first: u32, at: &mut u32) -> Taken<S::Term>
    ensures { Yields S.may_run_out
        (spec.heredoc (S.make builder.now) reader.now first at.old) result at.new }
{
    let inner = enter::<S>(builder, reader, first, at)?;
    let made = template::<S>(builder, &inner, at)?;
    inner.expect(Kind::HereClose, at)?;
    Ok(builder.heredoc(Tokens { first, past: *at }, made)?)
}

/// Takes the rest of a `Call`, after the first name of the function.
#[cycle(nest)]
#[inline(never)]
#[tactic(auto, unfolding(hcl_grammar::specs::Pure::Parser::call))]
fn call<S: Builder>(builder: &S, reader: &Reader, first: u32, at: &mut u32) -> Taken<S::Term>
    ensures { Yields S.may_run_out
        (spec.call (S.make builder.now) reader.now first at.old) result at.new }
{
    let found = names::<S>(builder, reader, first, at)?;
    let opening = reader.next_index(*at);
    reader.expect(Kind::OpenParen, at)?;
    let inner = enter::<S>(builder, reader, opening, at)?;
    let (given, expand_final) = arguments::<S>(builder, &inner, at)?;
    Ok(builder.call(Tokens { first, past: *at }, found, given, expand_final)?)
}

/// Returns whether `(` or `::` comes next, so that the identifier before it is a function's name.
/// The next token is `next`.
#[inline(always)]
#[tactic(auto, unfolding(hcl_grammar::specs::Pure::Reading::next_is))]
pub fn is_called(reader: &Reader, next: Option<Kind>, at: u32) -> bool
    requires { next ≡ tokens.next_kind reader.now at }
    ensures { result ≡ spec.is_called reader.now at }
{
    match next {
        Some(kind) => same_kind(kind, Kind::OpenParen) || same_kind(kind, Kind::DoubleColon),
        None => false,
    }
}

/// Takes the rest of a `Call`, after its identifier, if it is one.
#[cycle(nest)]
#[inline(always)]
#[tactic(auto, unfolding(hcl_grammar::specs::Pure::Parser::identifier_or_call))]
fn identifier_or_call<S: Builder>(
    builder: &S,
    reader: &Reader,
    first: u32,
    at: &mut u32,
) -> Taken<S::Term>
    ensures { Yields S.may_run_out
        (spec.identifier_or_call (S.make builder.now) reader.now first at.old) result at.new }
{
    let next = reader.next_kind(*at);
    if is_called(reader, next, *at) {
        call::<S>(builder, reader, first, at)
    } else {
        Ok(builder.identifier(Tokens { first, past: *at }))
    }
}

/// Takes the rest of a `Term`, after its first token, which is `first`.
#[cycle(nest)]
#[inline(always)]
pub fn term<S: Builder>(
    builder: &S,
    reader: &Reader,
    first: u32,
    kind: Kind,
    at: &mut u32,
) -> Taken<S::Term>
    ensures { Yields S.may_run_out
        (spec.term (S.make builder.now) reader.now first kind at.old) result at.new }
{
    match kind {
        Kind::Number => Ok(builder.number(Tokens { first, past: *at })),
        Kind::Identifier => identifier_or_call::<S>(builder, reader, first, at),
        Kind::OpenBracket => tuple_or_for::<S>(builder, reader, first, at),
        Kind::OpenBrace => object_or_for::<S>(builder, reader, first, at),
        Kind::OpenParen => parens::<S>(builder, reader, first, at),
        Kind::QuoteOpen => quoted::<S>(builder, reader, first, at),
        Kind::HereOpen => heredoc::<S>(builder, reader, first, at),
        _ => Err(TokenFault::Syntax(first)),
    }
}
