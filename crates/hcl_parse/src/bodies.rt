//! Bodies, blocks and attributes. For speed, the next token is looked at once by `next_outside`.
//!
//! HCL native syntax specification, Structural Elements.

ghost use Rattle.std.specs.Prelude.{◌≡◌, ◌<◌, ◌+◌, ◌^◌, OnSome};
ghost use Rattle.hcl_grammar.specs.Pure.Reading.{ReadsExactly};
ghost use Rattle.hcl_reader.specs.ReaderRules as tokens;
ghost use Rattle.hcl_reader.specs.ReaderRules.{outside_brackets};
ghost use Rattle.hcl_parse.specs.BodyRules as spec;
ghost use Rattle.hcl_parse.specs.Rules.{Yields};

use crate::builder::{Builder, Taken, Tokens};
use crate::exprs::expr;
use crate::opens::enter;
use hcl_reader::{Next, Reader};
use hcl_token::Kind;

/// Takes the rest of a `Label` in quotes, after its quote, which is token `first`.
#[tactic(auto, unfolding(hcl_grammar::specs::Pure::BodyParser::quoted_label))]
fn quoted_label<S: Builder>(
    builder: &S,
    reader: &Reader,
    first: u32,
    at: &mut u32,
) -> Taken<S::Label>
    ensures { ReadsExactly
        (spec.quoted_label (S.make builder.now) reader.now first at.old) result at.new }
{
    let lines = reader.outside_brackets();
    let number = lines.next_index(*at);
    if lines.eat(Kind::QuoteLit, at) {
        lines.expect(Kind::QuoteClose, at)?;
        return Ok(builder.label(Tokens { first, past: *at }, Some(number)));
    }
    lines.expect(Kind::QuoteClose, at)?;
    Ok(builder.label(Tokens { first, past: *at }, None))
}

/// Takes a `Label`, if one comes next: `Identifier | QuoteOpen QuoteLit? QuoteClose`.
#[tactic(auto, unfolding(hcl_grammar::specs::Pure::BodyParser::label_of, hcl_grammar::specs::Tokens::after_next))]
fn label<S: Builder>(builder: &S, reader: &Reader, at: &mut u32) -> Taken<Option<S::Label>>
    ensures { ReadsExactly (spec.label (S.make builder.now) reader.now at.old) result at.new }
{
    let (first, next) = reader.outside_brackets().next_token(*at);
    match next {
        Some(Kind::Identifier) => {
            *at = first + 1;
            Ok(Some(builder.label(Tokens { first, past: *at }, Some(first))))
        }
        Some(Kind::QuoteOpen) => {
            *at = first + 1;
            Ok(Some(quoted_label::<S>(builder, reader, first, at)?))
        }
        _ => Ok(None),
    }
}

/// Takes the labels of a block: `Label*`.
fn labels<S: Builder>(builder: &S, reader: &Reader, at: &mut u32) -> Taken<S::Labels>
    ensures { Yields S.may_run_out
        (spec.labels (S.make builder.now) reader.now at.old) result at.new }
{
    let mut found = builder.no_labels();
    for _turn in 0..reader.len() {
        let Some(more) = label::<S>(builder, reader, at)? else {
            return Ok(found);
        };
        builder.add_label(&mut found, more)?;
    }
    Ok(found)
}

/// Takes what a block on one line has in its braces: `(Identifier "=" Expr)?`.
#[tactic(auto, unfolding(hcl_grammar::specs::Pure::BodyParser::one_line_body))]
fn one_line_body<S: Builder>(builder: &S, reader: &Reader, at: &mut u32) -> Taken<S::Content>
    ensures { Yields S.may_run_out
        (spec.one_line_body (S.make builder.now) reader.now at.old) result at.new }
{
    let lines = reader.outside_brackets();
    let first = lines.next_index(*at);
    if !lines.eat(Kind::Identifier, at) {
        return Ok(builder.one_line(None)?);
    }
    lines.expect(Kind::Equal, at)?;
    let value = expr::<S>(builder, &lines, at)?;
    let attribute = builder.attribute(Tokens { first, past: *at }, value)?;
    Ok(builder.one_line(Some(attribute))?)
}

/// Takes the rest of an attribute, after its name, which is token `first`, and `=`: `Expr Eol`.
#[tactic(auto, unfolding(hcl_grammar::specs::Pure::BodyParser::attribute_by))]
fn attribute<S: Builder>(builder: &S, reader: &Reader, first: u32, at: &mut u32) -> Taken<S::Member>
    ensures { Yields S.may_run_out
        (spec.attribute (S.make builder.now) reader.now first at.old) result at.new }
{
    let value = expr::<S>(builder, &reader.outside_brackets(), at)?;
    reader.eol(at)?;
    let made = builder.attribute(Tokens { first, past: *at }, value)?;
    Ok(builder.attribute_member(made))
}

/// Takes the body of a block that was opened.
#[cycle(nest)]
#[tactic(auto, unfolding(hcl_grammar::specs::Pure::BodyParser::nested_body))]
fn nested_body<S: Builder>(builder: &S, reader: &Reader, at: &mut u32) -> Taken<S::Content>
    ensures { Yields S.may_run_out
        (spec.nested_body (S.make builder.now) reader.now at.old) result at.new }
{
    let from = *at;
    let found = members::<S>(builder, reader, at)?;
    let first = reader.outside_brackets().first_token_in(from, *at);
    let body = builder.body(Tokens { first, past: *at }, found);
    Ok(builder.block_body(body)?)
}

/// Takes what is in the braces of a block: `nl Body`, or what a block on one line has.
#[cycle(nest)]
#[tactic(auto, unfolding(hcl_grammar::specs::Pure::BodyParser::block_content))]
fn block_content<S: Builder>(builder: &S, reader: &Reader, at: &mut u32) -> Taken<S::Content>
    ensures { Yields S.may_run_out
        (spec.block_content (S.make builder.now) reader.now at.old) result at.new }
{
    if reader.eat_inner_newline(at)? {
        return nested_body::<S>(builder, reader, at);
    }
    one_line_body::<S>(builder, reader, at)
}

/// Takes the rest of a block, after its word, which is token `first`: `Label*`, the braces with
/// their content, `Eol`.
#[cycle(nest)]
#[inline(never)]
#[tactic(auto, unfolding(hcl_grammar::specs::Pure::BodyParser::block_by))]
fn block<S: Builder>(builder: &S, reader: &Reader, first: u32, at: &mut u32) -> Taken<S::Member>
    ensures { Yields S.may_run_out
        (spec.block (S.make builder.now) reader.now first at.old) result at.new }
{
    let lines = reader.outside_brackets();
    let found = labels::<S>(builder, reader, at)?;
    let opening = lines.next_token(*at);
    lines.expect_next(opening, Kind::OpenBrace, at)?;
    let braces = enter::<S>(builder, reader, opening.0, at)?;
    let content = block_content::<S>(builder, &braces, at)?;
    let close = reader.next_outside(*at);
    lines.expect_next(close, Kind::CloseBrace, at)?;
    reader.eol(at)?;
    Ok(builder.block(Tokens { first, past: *at }, found, content))
}

/// Takes the rest of an attribute or of a block, after its first word, which is token `first`.
#[cycle(nest)]
#[inline(always)]
#[tactic(auto, unfolding(hcl_grammar::specs::Pure::BodyParser::attribute_or_block))]
fn attribute_or_block<S: Builder>(
    builder: &S,
    reader: &Reader,
    first: u32,
    at: &mut u32,
) -> Taken<S::Member>
    ensures { Yields S.may_run_out
        (spec.attribute_or_block (S.make builder.now) reader.now first at.old) result at.new }
{
    let next = reader.next_outside(*at);
    if reader.outside_brackets().eat_next(next, Kind::Equal, at) {
        attribute::<S>(builder, reader, first, at)
    } else {
        block::<S>(builder, reader, first, at)
    }
}

/// Takes an attribute or a block, if one comes next.
pub fn member<S: Builder>(builder: &S, reader: &Reader, at: &mut u32) -> Taken<Option<S::Member>>
    ensures { Yields S.may_run_out
        (spec.member (S.make builder.now) reader.now at.old) result at.new }
{
    let next = reader.next_outside(*at);
    member_next::<S>(builder, reader, next, at)
}

/// Takes an attribute or a block, if one comes next. The next token is `next`.
#[cycle(nest)]
#[inline(always)]
#[tactic(auto, unfolding(hcl_grammar::specs::Pure::BodyParser::member_of))]
fn member_next<S: Builder>(
    builder: &S,
    reader: &Reader,
    next: Next,
    at: &mut u32,
) -> Taken<Option<S::Member>>
    requires number { next.0 ≡ tokens.next_index (outside_brackets reader.now) at.old }
    requires kind { next.1 ≡ tokens.next_kind (outside_brackets reader.now) at.old }
    requires fits { OnSome next.1 (next.0 + 1 < 2 ^ 32) }
    ensures { Yields S.may_run_out
        (spec.member (S.make builder.now) reader.now at.old) result at.new }
{
    if !reader
        .outside_brackets()
        .eat_next(next, Kind::Identifier, at)
    {
        return Ok(None);
    }
    Ok(Some(attribute_or_block::<S>(builder, reader, next.0, at)?))
}

/// Takes a `Body`: `(nl | Attr | Block)*`.
#[cycle(nest)]
fn members<S: Builder>(builder: &S, reader: &Reader, at: &mut u32) -> Taken<S::Members>
    ensures { Yields S.may_run_out
        (spec.members (S.make builder.now) reader.now at.old) result at.new }
{
    let mut found = builder.no_members();
    for _turn in 0..reader.len() {
        let next = reader.next_outside(*at);
        if reader.eat_newline_next(next, at) {
            continue;
        }
        let Some(more) = member_next::<S>(builder, reader, next, at)? else {
            return Ok(found);
        };
        builder.add_member(&mut found, more)?;
    }
    Ok(found)
}

/// Takes a `File`, which is all tokens: `Mark? Body (LineComment)? end`.
#[tactic(auto, unfolding(hcl_grammar::specs::Pure::BodyParser::file))]
pub fn file<S: Builder>(builder: &S, reader: &Reader, at: &mut u32) -> Taken<S::Tree>
    ensures { Yields S.may_run_out
        (spec.file (S.make builder.now) reader.now at.old) result at.new }
{
    let lines = reader.outside_brackets();
    let _is_mark = lines.eat(Kind::Mark, at);
    let from = *at;
    let found = members::<S>(builder, reader, at)?;
    let to = *at;
    let _is_comment = lines.eat(Kind::LineComment, at);
    reader.expect_end(at)?;
    let first = lines.first_token_in(from, to);
    let body = builder.body(Tokens { first, past: to }, found);
    Ok(builder.tree(reader.len(), body))
}
