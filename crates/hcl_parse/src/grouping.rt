//! A chain of operators, grouped by levels.
//!
//! HCL native syntax specification, Operations.

ghost use Rattle.std.specs.Prelude.{◌≡◌, ◌<◌, suc, [], ◌∷◌, ◌++◌, IfOk, OnOk, MatchOption};
ghost use Rattle.hcl_grammar.specs.Operators as operators;
ghost use Rattle.hcl_grammar.specs.Nodes as node;
ghost use Rattle.hcl_parse.specs.Chains.{before, after, first_level};
ghost use Rattle.hcl_grammar.specs.Pure.NodeMakers as spec;

use crate::builder::{Made, Tokens};
use crate::nodes::{expr, operation};
use hcl_grammar::operators::{LEVELS, operator_level};
use hcl_grammar::tree::{Expr, ExprKind, Operation};
use hcl_grammar::{Boxed, Items};
use std::alloc::Global;
use std::collections::VecDeque;
use std::marker::Model;

/// A queue. Contracts see the list of its elements alone.
#[derive(Drop)]
pub struct Queue<T> {
    elements: VecDeque<T>,
}

impl<T> Model for Queue<T> {
    ghost use Rattle.std.specs.Prelude.{List};
    ghost use Rattle.std.specs.Coded.{coded_list};

    ghost Value = { List T };

    ghost coded = { coded_list T.code };

    ghost view = { λ q. q.elements.items };
}

impl<T> Queue<T> {
    /// Returns an empty queue.
    pub fn new(alloc: Global) -> Queue<T>
        ensures { result ≡ [] }
    {
        Queue {
            elements: VecDeque::new(alloc),
        }
    }

    /// Takes the first element.
    fn pop(&mut self) -> Option<T>
        ensures { MatchOption result ((self.old ≡ []) × (self.new ≡ []))
            (λ x. self.old ≡ x ∷ self.new) }
    {
        self.elements.pop_front()
    }
}

impl<T: Drop> Queue<T> {
    /// Adds an element at the end.
    ///
    /// # Errors
    ///
    /// Returns `AllocError` if memory runs out.
    pub fn push(&mut self, element: T) -> Made<()>
        ensures { OnOk result (self.new ≡ self.old ++ element ∷ []) }
    {
        self.elements.push_back(element)?;
        Ok(())
    }
}

/// Returns the level of the first operator; the number of levels, if there is none.
fn first_level(operations: &Queue<Operation>) -> u32
    ensures { result ≡ first_level operations.now }
{
    match operations.elements.front() {
        Some(first) => operator_level(first.operator),
        None => LEVELS,
    }
}

/// Returns an operand followed by operators of one level; with none, the operand alone.
fn binary(alloc: Global, at: Tokens, head: Expr, links: Items<Operation>) -> Made<Expr>
    ensures { IfOk result (λ e. e ≡ node.binary at.first at.past head links) }
{
    if links.is_empty() {
        return Ok(head);
    }
    let head = Boxed::new(alloc, head)?;
    let links = Boxed::new(alloc, links)?;
    Ok(expr(at, ExprKind::Binary(head, links)))
}

/// Takes the operators of the levels below `level` that follow an operand, and returns them with
/// it, and the place after them.
#[cycle(climb)]
fn climb(alloc: Global, level: u32, head: Expr, rest: &mut Queue<Operation>) -> Made<(Expr, u32)>
    ensures made { IfOk result (λ r. r.0 ≡ spec.group level head (before level rest.old)) }
    ensures past { IfOk result (λ r. r.1 ≡ spec.chain_end head.past (before level rest.old)) }
    ensures left { OnOk result (rest.new ≡ after level rest.old) }
{
    let past = head.past;
    let next = first_level(rest);
    if next >= level {
        return Ok((head, past));
    }
    let first = head.first;
    let (lower, past) = climb(alloc, level - 1, head, rest)?;
    let (links, past) = links(alloc, level - 1, past, rest)?;
    let made = binary(alloc, Tokens { first, past }, lower, links)?;
    Ok((made, past))
}

/// Takes the operators of a level that come next, each with its operand and the operators of the
/// levels below that follow it. They follow a place; the place after them is returned, too.
#[cycle(climb)]
fn links(
    alloc: Global,
    level: u32,
    past: u32,
    rest: &mut Queue<Operation>,
) -> Made<(Items<Operation>, u32)>
    requires { before level rest.old ≡ [] }
    ensures made { IfOk result (λ r.
        r.0 ≡ (spec.split_level level (spec.group level) (before (suc level) rest.old)).1) }
    ensures past { IfOk result (λ r. r.1 ≡ spec.chain_end past (before (suc level) rest.old)) }
    ensures left { OnOk result (rest.new ≡ after (suc level) rest.old) }
{
    let mut found = Items::new(alloc);
    let mut end = past;
    // for the proof: the label names the loop's invariant
    'each: while first_level(rest) == level {
        match rest.pop() {
            Some(next) => {
                let (operand, after) = climb(alloc, level, next.operand, rest)?;
                found.push(operation(next.operator, operand))?;
                end = after;
            }
            None => return Ok((found, end)),
        }
    }
    Ok((found, end))
}

/// Returns an operand with the operators that follow it, grouped by levels.
pub fn group(alloc: Global, head: Expr, operations: Queue<Operation>) -> Made<Expr>
    ensures { IfOk result (λ e. e ≡ spec.group operators.levels head operations) }
{
    let mut rest = operations;
    let (made, _past) = climb(alloc, LEVELS, head, &mut rest)?;
    Ok(made)
}
