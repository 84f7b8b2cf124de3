//! Templates: literal text with interpolations and directives.
//!
//! HCL native syntax specification, Templates.

ghost use Rattle.std.specs.Prelude.{◌≡◌, true, false, codes, length};
ghost use Rattle.hcl_grammar.specs.Pure.Reading as reading;
ghost use Rattle.hcl_grammar.specs.Pure.Reading.{ReadsExactly};
ghost use Rattle.hcl_reader.specs.ReaderRules as tokens;
ghost use Rattle.hcl_parse.specs.Rules as spec;
ghost use Rattle.hcl_parse.specs.Rules.{Yields};

use crate::builder::{Builder, Taken, Tokens};
use crate::exprs::expr;
use crate::for_exprs::intro;
use crate::opens::enter_two;
use crate::terms::enclosed;
use hcl_reader::Reader;
use hcl_token::Kind;

/// Takes a directive that is one word: `DirectiveOpen word SeqClose`.
#[tactic(auto, unfolding(hcl_grammar::specs::Pure::Steps::keyword_directive))]
fn keyword_directive(reader: &Reader, word: &[u8], at: &mut u32) -> Taken<()>
    ensures { ReadsExactly (tokens.keyword_directive reader.now word.now at.old) result at.new }
{
    let braces = reader.in_brackets();
    reader.expect(Kind::DirectiveOpen, at)?;
    braces.expect_word(word, at)?;
    braces.expect(Kind::SeqClose, at)
}

/// Takes the next token, if this word follows it.
#[tactic(auto, unfolding(hcl_grammar::specs::Tokens::after_next))]
fn eat_directive_open(reader: &Reader, word: &[u8], at: &mut u32) -> bool
    ensures found { result
        ≡ reading.next_is_word reader.now.tokens true word.now
        (tokens.after_next reader.now at.old) }
    ensures taken { result ≡ true → at.new ≡ tokens.after_next reader.now at.old }
    ensures kept { result ≡ false → at.new ≡ at.old }
{
    let (number, next) = reader.next_token(*at);
    match next {
        Some(_kind) => {
            let found = reader.in_brackets().next_is_word(word, number + 1);
            if found {
                *at = number + 1;
            }
            found
        }
        None => false,
    }
}

/// Takes `Parts`, in a construct that was opened.
#[cycle(nest)]
#[tactic(auto, unfolding(hcl_grammar::specs::Pure::Parser::template))]
pub fn template<S: Builder>(builder: &S, reader: &Reader, at: &mut u32) -> Taken<S::Template>
    ensures { Yields S.may_run_out
        (spec.template (S.make builder.now) reader.now at.old) result at.new }
{
    let from = *at;
    let found = parts::<S>(builder, reader, at)?;
    let first = reader.first_token_in(from, *at);
    Ok(builder.template(Tokens { first, past: *at }, found))
}

/// Takes the rest of an `Interp`, after its opening, which is token `first`.
#[cycle(nest)]
#[tactic(auto, unfolding(hcl_grammar::specs::Pure::Parser::interpolation))]
fn interpolation<S: Builder>(
    builder: &S,
    reader: &Reader,
    first: u32,
    at: &mut u32,
) -> Taken<S::Part>
    ensures { Yields S.may_run_out
        (spec.interpolation (S.make builder.now) reader.now first at.old) result at.new }
{
    let value = enclosed::<S>(builder, reader, Kind::SeqClose, first, at)?;
    Ok(builder.interpolation(value)?)
}

/// Takes what follows the parts of an `IfDir`: its `else` with parts, if it has one, and `endif`.
#[cycle(nest)]
#[tactic(auto, unfolding(hcl_grammar::specs::Pure::Parser::else_and_endif))]
fn else_and_endif<S: Builder>(
    builder: &S,
    reader: &Reader,
    at: &mut u32,
) -> Taken<Option<S::Template>>
    ensures { Yields S.may_run_out
        (spec.else_and_endif (S.make builder.now) reader.now at.old) result at.new }
{
    let mut after = *at;
    if !eat_directive_open(reader, b"else", &mut after) {
        keyword_directive(reader, b"endif", at)?;
        return Ok(None);
    }
    keyword_directive(reader, b"else", at)?;
    let made = template::<S>(builder, reader, at)?;
    keyword_directive(reader, b"endif", at)?;
    Ok(Some(made))
}

/// Takes the rest of an `IfDir`, after its opening, which is token `first`.
#[cycle(nest)]
#[tactic(auto, unfolding(hcl_grammar::specs::Pure::Parser::if_directive, hcl_grammar::specs::Pure::Reading::expect_word))]
fn if_directive<S: Builder>(
    builder: &S,
    reader: &Reader,
    first: u32,
    at: &mut u32,
) -> Taken<S::Part>
    requires { reading.next_is_word reader.now.tokens true (codes "if") at.old ≡ true }
    ensures { Yields S.may_run_out
        (spec.if_directive (S.make builder.now) reader.now first at.old) result at.new }
{
    let (inner, braces) = enter_two::<S>(builder, reader, first, at)?;
    braces.expect_word(b"if", at)?;
    let condition = expr::<S>(builder, &braces, at)?;
    braces.expect(Kind::SeqClose, at)?;
    let then_branch = template::<S>(builder, &inner, at)?;
    let else_branch = else_and_endif::<S>(builder, &inner, at)?;
    Ok(builder.if_directive(
        Tokens { first, past: *at },
        condition,
        then_branch,
        else_branch,
    )?)
}

/// Takes the rest of a `ForDir`, after its opening, which is token `first`.
#[cycle(nest)]
#[tactic(auto, unfolding(hcl_grammar::specs::Pure::Parser::for_directive))]
fn for_directive<S: Builder>(
    builder: &S,
    reader: &Reader,
    first: u32,
    at: &mut u32,
) -> Taken<S::Part>
    ensures { Yields S.may_run_out
        (spec.for_directive (S.make builder.now) reader.now first at.old) result at.new }
{
    let (inner, braces) = enter_two::<S>(builder, reader, first, at)?;
    let begin = intro::<S>(builder, &braces, at)?;
    braces.expect(Kind::SeqClose, at)?;
    let body = template::<S>(builder, &inner, at)?;
    keyword_directive(&inner, b"endfor", at)?;
    Ok(builder.for_directive(Tokens { first, past: *at }, begin, body)?)
}

/// Takes an `IfDir` or a `ForDir`, if one comes next.
#[cycle(nest)]
#[inline(never)]
#[tactic(auto, unfolding(hcl_grammar::specs::Pure::Parser::directive))]
fn directive<S: Builder>(
    builder: &S,
    reader: &Reader,
    first: u32,
    at: &mut u32,
) -> Taken<Option<S::Part>>
    ensures { Yields S.may_run_out
        (spec.directive (S.make builder.now) reader.now first at.old) result at.new }
{
    if eat_directive_open(reader, b"if", at) {
        return Ok(Some(if_directive::<S>(builder, reader, first, at)?));
    }
    if eat_directive_open(reader, b"for", at) {
        return Ok(Some(for_directive::<S>(builder, reader, first, at)?));
    }
    Ok(None)
}

/// Takes one of the `Parts`, if one comes next: `QuoteLit | HereLit | Interp | IfDir | ForDir`.
#[cycle(nest)]
#[inline(always)]
#[tactic(auto, unfolding(hcl_grammar::specs::Pure::Parser::part_of, hcl_grammar::specs::Tokens::after_next))]
fn part<S: Builder>(builder: &S, reader: &Reader, at: &mut u32) -> Taken<Option<S::Part>>
    ensures { Yields S.may_run_out
        (spec.part (S.make builder.now) reader.now at.old) result at.new }
{
    let (first, next) = reader.next_token(*at);
    match next {
        Some(Kind::QuoteLit) | Some(Kind::HereLit) => {
            *at = first + 1;
            Ok(Some(builder.literal(first)))
        }
        Some(Kind::InterpOpen) => {
            *at = first + 1;
            Ok(Some(interpolation::<S>(builder, reader, first, at)?))
        }
        Some(Kind::DirectiveOpen) => directive::<S>(builder, reader, first, at),
        _ => Ok(None),
    }
}

/// Takes `Parts`, one by one.
#[cycle(nest)]
#[inline(always)]
fn each_part<S: Builder>(builder: &S, reader: &Reader, at: &mut u32) -> Taken<S::Parts>
    ensures { Yields S.may_run_out (spec.parts_from (S.make builder.now) reader.now
        (length reader.now.tokens) (S.make builder.now).no_parts at.old) result at.new }
{
    let mut found = builder.no_parts();
    for _turn in 0..reader.len() {
        let Some(more) = part::<S>(builder, reader, at)? else {
            return Ok(found);
        };
        builder.add_part(&mut found, more)?;
    }
    Ok(found)
}

/// Takes `Parts`.
#[cycle(nest)]
#[inline(always)]
fn parts<S: Builder>(builder: &S, reader: &Reader, at: &mut u32) -> Taken<S::Parts>
    ensures { Yields S.may_run_out
        (spec.parts (S.make builder.now) reader.now at.old) result at.new }
{
    each_part::<S>(builder, reader, at)
}
