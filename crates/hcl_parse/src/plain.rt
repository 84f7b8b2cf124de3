//! Operands with no construct in them, as most are: a name with the names after it, a number, a
//! text without a template. For speed alone.

ghost use Rattle.std.specs.Prelude.{◌≡◌, ◌<◌, ◌+◌, ◌^◌, true, false, Ok, None, Some, OnSome};
ghost use Rattle.std.specs.Prelude.{IfSome, IfOk, IfErr};
ghost use Rattle.hcl_token.specs.declared.kind.Kind.TheVariants as k;
ghost use Rattle.hcl_grammar.specs.Operators as operators;
ghost use Rattle.hcl_reader.specs.ReaderRules as tokens;
ghost use Rattle.hcl_parse.specs.Rules as spec;
ghost use Rattle.hcl_parse.specs.Tried.{IsRead, IsTried};

use crate::builder::{Builder, Made, Tokens};
use crate::opens::enter;
use hcl_reader::{Next, Reader, same_kind};
use hcl_token::Kind;

/// How much of an `Expr` was taken.
#[derive(Drop)]
pub enum Portion<E, T, L> {
    /// Nothing.
    Nothing,
    /// Nothing, but a term and tails of it were read.
    Term {
        /// How many tails may follow at most.
        turns: u32,
        /// Where what was read ends.
        end: u32,
        /// The term.
        head: T,
        /// Its tails.
        tails: L,
    },
    /// All of it.
    Whole(E),
}

/// A term and tails of it that were read.
#[derive(Drop)]
pub struct Read<T, L> {
    /// How many tails may follow at most.
    pub turns: u32,
    /// The term.
    pub head: T,
    /// Its tails.
    pub tails: L,
}

/// Returns whether a term before this place is known to be a whole `Expr`: what comes next ends it.
#[inline(always)]
#[tactic(auto, unfolding(hcl_grammar::specs::Pure::Steps::eat_operator, hcl_grammar::specs::Pure::Parser::tail_of, hcl_grammar::specs::Pure::Reading::next_is, hcl_grammar::specs::Tokens::same_kind))]
fn ends_expr<S: Builder>(builder: &S, reader: &Reader, at: u32) -> bool
    ensures operator { result ≡ true → spec.eat_operator reader.now at ≡ Ok (None, at) }
    ensures question { result ≡ true → tokens.next_is reader.now k.Question at ≡ false }
    ensures tail { result ≡ true → spec.tail (S.make builder.now) reader.now at ≡ Ok (None, at) }
    ensures called { result ≡ true → spec.is_called reader.now at ≡ false }
{
    match reader.next_kind(at) {
        Some(Kind::LineEnd)
        | Some(Kind::LineComment)
        | Some(Kind::Comma)
        | Some(Kind::Equal)
        | Some(Kind::CloseBracket)
        | Some(Kind::CloseParen)
        | Some(Kind::CloseBrace)
        | Some(Kind::SeqClose)
        | Some(Kind::Colon)
        | Some(Kind::Identifier) => true,
        _ => false,
    }
}

/// Takes a `Tail` with a dot, if one comes next: `"." (Identifier|"*") | DotIndex`.
#[inline(always)]
#[tactic(auto, unfolding(hcl_grammar::specs::Pure::Parser::tail_of, hcl_grammar::specs::Pure::Parser::dot_tail, hcl_grammar::specs::Pure::Reading::next_is, hcl_grammar::specs::Pure::Reading::after_if_next, hcl_grammar::specs::Pure::Reading::expect, hcl_grammar::specs::Tokens::after_next, hcl_grammar::specs::Tokens::same_kind))]
fn eat_dotted<S: Builder>(builder: &S, reader: &Reader, at: &mut usize) -> Option<S::Tail>
    ensures taken { IfSome result (λ t.
        spec.tail (S.make builder.now) reader.now at.old ≡ Ok (Some t, at.new)) }
    ensures called { OnSome result (spec.is_called reader.now at.old ≡ false) }
    ensures kept { result ≡ None → at.new ≡ at.old }
    ensures place { at.old < 2 ^ 32 → at.new < 2 ^ 32 }
{
    let (number, next) = reader.next_token_usize(*at);
    match next {
        Some(kind) => {
            if !same_kind(kind, Kind::Dot) {
                if !same_kind(kind, Kind::DotIndex) {
                    return None;
                }
                *at = number + 1;
                return Some(builder.legacy_index(number as u32));
            }
            let (second, name) = reader.next_token_usize(number + 1);
            match name {
                Some(Kind::Identifier) => {
                    *at = second + 1;
                    Some(builder.name_tail(second as u32))
                }
                Some(Kind::Star) => {
                    *at = second + 1;
                    Some(builder.attribute_splat())
                }
                _ => None,
            }
        }
        None => None,
    }
}

/// Takes the tails with dots after a name. Returns them, and how many more its rule would take at
/// most.
#[inline(always)]
fn eat_all_dotted<S: Builder>(
    builder: &S,
    reader: &Reader,
    first: u32,
    at: &mut u32,
) -> Made<Read<S::Term, S::Tails>>
    ensures read { IfOk result (λ r. IsRead (S.make builder.now) reader.now first k.Identifier
        r.turns r.head r.tails at.old at.new) }
    ensures memory { IfErr result (λ _. S.may_run_out ≡ true) }
{
    let head = builder.identifier(Tokens { first, past: *at });
    let mut tails = builder.no_tails();
    let most = reader.len();
    let mut place = *at as usize;
    for turn in 0..most {
        match eat_dotted::<S>(builder, reader, &mut place) {
            Some(tail) => builder.add_tail(&mut tails, tail)?,
            None => {
                *at = place as u32;
                return Ok(Read {
                    turns: most - turn,
                    head,
                    tails,
                });
            }
        }
    }
    *at = place as u32;
    Ok(Read {
        turns: 0,
        head,
        tails,
    })
}

/// Takes a text without a template and the quotes after it.
#[inline(always)]
#[tactic(auto, unfolding(hcl_grammar::specs::Tokens::after_next))]
fn eat_text<S: Builder>(
    builder: &S,
    reader: &Reader,
    first: u32,
    at: &mut u32,
) -> Made<Option<S::Term>>
    ensures read { IfOk result (λ o. IfSome o (λ head.
        spec.quoted (S.make builder.now) reader.now first at.old ≡ Ok (head, at.new))) }
    ensures memory { IfErr result (λ _. S.may_run_out ≡ true) }
{
    let from = *at;
    match enter::<S>(builder, reader, first, at) {
        Ok(_inner) => {
            let (next, kind) = reader.next_token(from);
            match kind {
                Some(Kind::QuoteClose) => {
                    *at = next + 1;
                    let past = from;
                    let parts = builder.no_parts();
                    let template = builder.template(Tokens { first: from, past }, parts);
                    let head = builder.quoted(Tokens { first, past: *at }, template)?;
                    Ok(Some(head))
                }
                Some(Kind::QuoteLit) => {
                    let past = next + 1;
                    let (second, close) = reader.next_token(past);
                    match close {
                        Some(Kind::QuoteClose) => {
                            *at = second + 1;
                            let mut parts = builder.no_parts();
                            let literal = builder.literal(next);
                            builder.add_part(&mut parts, literal)?;
                            let template = builder.template(Tokens { first: next, past }, parts);
                            let head = builder.quoted(Tokens { first, past: *at }, template)?;
                            Ok(Some(head))
                        }
                        _ => Ok(None),
                    }
                }
                _ => Ok(None),
            }
        }
        Err(_fault) => Ok(None),
    }
}

/// Takes the rest of such a term with its tails, after its first token, which is `first`.
#[inline(always)]
fn eat_term<S: Builder>(
    builder: &S,
    reader: &Reader,
    first: u32,
    kind: Kind,
    at: &mut u32,
) -> Made<Option<Read<S::Term, S::Tails>>>
    ensures first { IfOk result (λ o. OnSome o (operators.unary_operator kind ≡ None)) }
    ensures read { IfOk result (λ o. IfSome o (λ r.
        IsRead (S.make builder.now) reader.now first kind r.turns r.head r.tails at.old at.new)) }
    ensures memory { IfErr result (λ _. S.may_run_out ≡ true) }
{
    match kind {
        Kind::Identifier => {
            let read = eat_all_dotted::<S>(builder, reader, first, at)?;
            Ok(Some(read))
        }
        Kind::Number => {
            let head = builder.number(Tokens { first, past: *at });
            let tails = builder.no_tails();
            Ok(Some(Read {
                turns: reader.len(),
                head,
                tails,
            }))
        }
        Kind::QuoteOpen => match eat_text::<S>(builder, reader, first, at)? {
            Some(head) => {
                let tails = builder.no_tails();
                Ok(Some(Read {
                    turns: reader.len(),
                    head,
                    tails,
                }))
            }
            None => Ok(None),
        },
        _ => Ok(None),
    }
}

/// Takes an `Expr` that is one such term, if the token after it shows that it is. Its first token
/// is `next`.
#[inline(always)]
pub fn eat_plain_expr<S: Builder>(
    builder: &S,
    reader: &Reader,
    next: Next,
    at: &mut u32,
) -> Made<Portion<S::Expr, S::Term, S::Tails>>
    requires number { next.0 ≡ tokens.next_index reader.now at.old }
    requires kind { next.1 ≡ tokens.next_kind reader.now at.old }
    requires fits { OnSome next.1 (next.0 + 1 < 2 ^ 32) }
    ensures tried { IfOk result
        (λ u. IsTried (S.make builder.now) reader.now next.0 at.old u at.new) }
    ensures memory { IfErr result (λ _. S.may_run_out ≡ true) }
{
    let (first, found) = next;
    match found {
        Some(kind) => {
            let mut end = first + 1;
            match eat_term::<S>(builder, reader, first, kind, &mut end)? {
                Some(Read { turns, head, tails }) => {
                    if !ends_expr::<S>(builder, reader, end) {
                        return Ok(Portion::Term {
                            turns,
                            end,
                            head,
                            tails,
                        });
                    }
                    *at = end;
                    let made = builder.postfix(Tokens { first, past: end }, head, tails)?;
                    Ok(Portion::Whole(made))
                }
                None => Ok(Portion::Nothing),
            }
        }
        None => Ok(Portion::Nothing),
    }
}
