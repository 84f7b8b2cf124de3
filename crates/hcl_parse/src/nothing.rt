//! A builder that makes nothing.

ghost use Rattle.std.specs.Prelude.{false};
ghost use Rattle.hcl_parse.specs.Made.{IsMade};
ghost use Rattle.hcl_parse.specs.Nothing.{nothing};

use crate::builder::{Builder, Made, Tokens};
use hcl_grammar::tree::{BinaryOperator, UnaryOperator};

/// Makes nothing, and takes no memory.
pub struct Nothing;

impl Builder for Nothing {
    type Expr = ();

    type Exprs = ();

    type Operations = ();

    type Term = ();

    type Tail = ();

    type Tails = ();

    type Names = ();

    type Elems = ();

    type Intro = ();

    type Template = ();

    type Part = ();

    type Parts = ();

    type Attribute = ();

    type Label = ();

    type Labels = ();

    type Content = ();

    type Member = ();

    type Members = ();

    type Body = ();

    type Tree = ();

    ghost make = { λ _. nothing };

    ghost may_run_out = { false };

    #[inline(always)]
    fn conditional(
        &self,
        _at: Tokens,
        _condition: (),
        _then_branch: (),
        _else_branch: (),
    ) -> Made<()> {
        Ok(())
    }

    #[inline(always)]
    fn chain(&self, _head: (), _operations: ()) -> Made<()> {
        Ok(())
    }

    #[inline(always)]
    fn no_operations(&self) -> () {
        ()
    }

    #[inline(always)]
    fn add_operation(
        &self,
        _operations: &mut (),
        _operator: BinaryOperator,
        _operand: (),
    ) -> Made<()> {
        Ok(())
    }

    #[inline(always)]
    fn unary(&self, _at: Tokens, _operator: UnaryOperator, _operand: ()) -> Made<()> {
        Ok(())
    }

    #[inline(always)]
    fn postfix(&self, _at: Tokens, _head: (), _tails: ()) -> Made<()> {
        Ok(())
    }

    #[inline(always)]
    fn term_expr(&self, _at: Tokens, _head: ()) -> () {
        ()
    }

    #[inline(always)]
    fn no_tails(&self) -> () {
        ()
    }

    #[inline(always)]
    fn add_tail(&self, _tails: &mut (), _tail: ()) -> Made<()> {
        Ok(())
    }

    #[inline(always)]
    fn name_tail(&self, _number: u32) -> () {
        ()
    }

    #[inline(always)]
    fn legacy_index(&self, _number: u32) -> () {
        ()
    }

    #[inline(always)]
    fn attribute_splat(&self) -> () {
        ()
    }

    #[inline(always)]
    fn full_splat(&self) -> () {
        ()
    }

    #[inline(always)]
    fn index(&self, _key: ()) -> Made<()> {
        Ok(())
    }

    #[inline(always)]
    fn number(&self, _at: Tokens) -> () {
        ()
    }

    #[inline(always)]
    fn identifier(&self, _at: Tokens) -> () {
        ()
    }

    #[inline(always)]
    fn call(&self, _at: Tokens, _names: (), _arguments: (), _expand_final: bool) -> Made<()> {
        Ok(())
    }

    #[inline(always)]
    fn first_name(&self, _number: u32) -> Made<()> {
        Ok(())
    }

    #[inline(always)]
    fn add_name(&self, _names: &mut (), _number: u32) -> Made<()> {
        Ok(())
    }

    #[inline(always)]
    fn no_exprs(&self) -> () {
        ()
    }

    #[inline(always)]
    fn add_expr(&self, _exprs: &mut (), _expr: ()) -> Made<()> {
        Ok(())
    }

    #[inline(always)]
    fn tuple(&self, _at: Tokens, _exprs: ()) -> Made<()> {
        Ok(())
    }

    #[inline(always)]
    fn object(&self, _at: Tokens, _elems: ()) -> Made<()> {
        Ok(())
    }

    #[inline(always)]
    fn no_elems(&self) -> () {
        ()
    }

    #[inline(always)]
    fn add_elem(&self, _elems: &mut (), _key: (), _value: ()) -> Made<()> {
        Ok(())
    }

    #[inline(always)]
    fn intro(&self, _at: Tokens, _name: u32, _second_name: Option<u32>, _collection: ()) -> () {
        ()
    }

    #[inline(always)]
    fn for_tuple(&self, at: Tokens, intro: (), value: (), filter: Option<()>) -> Made<()>
        ensures { IsMade false result (nothing.for_tuple at.first at.past intro value filter) }
    {
        Ok(())
    }

    #[inline(always)]
    fn for_object(
        &self,
        at: Tokens,
        intro: (),
        key: (),
        value: (),
        grouped: bool,
        filter: Option<()>,
    ) -> Made<()>
        ensures { IsMade false result
            (nothing.for_object at.first at.past intro key value grouped filter) }
    {
        Ok(())
    }

    #[inline(always)]
    fn quoted(&self, _at: Tokens, _template: ()) -> Made<()> {
        Ok(())
    }

    #[inline(always)]
    fn heredoc(&self, _at: Tokens, _template: ()) -> Made<()> {
        Ok(())
    }

    #[inline(always)]
    fn parens(&self, _at: Tokens, _expr: ()) -> Made<()> {
        Ok(())
    }

    #[inline(always)]
    fn template(&self, _at: Tokens, _parts: ()) -> () {
        ()
    }

    #[inline(always)]
    fn no_parts(&self) -> () {
        ()
    }

    #[inline(always)]
    fn add_part(&self, _parts: &mut (), _part: ()) -> Made<()> {
        Ok(())
    }

    #[inline(always)]
    fn literal(&self, _number: u32) -> () {
        ()
    }

    #[inline(always)]
    fn interpolation(&self, _expr: ()) -> Made<()> {
        Ok(())
    }

    #[inline(always)]
    fn if_directive(
        &self,
        at: Tokens,
        condition: (),
        then_branch: (),
        else_branch: Option<()>,
    ) -> Made<()>
        ensures { IsMade false result
            (nothing.if_directive at.first at.past condition then_branch else_branch) }
    {
        Ok(())
    }

    #[inline(always)]
    fn for_directive(&self, _at: Tokens, _intro: (), _body: ()) -> Made<()> {
        Ok(())
    }

    #[inline(always)]
    fn attribute(&self, _at: Tokens, _value: ()) -> Made<()> {
        Ok(())
    }

    #[inline(always)]
    fn label(&self, _at: Tokens, _name: Option<u32>) -> () {
        ()
    }

    #[inline(always)]
    fn no_labels(&self) -> () {
        ()
    }

    #[inline(always)]
    fn add_label(&self, _labels: &mut (), _label: ()) -> Made<()> {
        Ok(())
    }

    #[inline(always)]
    fn one_line(&self, attribute: Option<()>) -> Made<()>
        ensures { IsMade false result (nothing.one_line attribute) }
    {
        Ok(())
    }

    #[inline(always)]
    fn block_body(&self, _body: ()) -> Made<()> {
        Ok(())
    }

    #[inline(always)]
    fn attribute_member(&self, _attribute: ()) -> () {
        ()
    }

    #[inline(always)]
    fn block(&self, _at: Tokens, _labels: (), _content: ()) -> () {
        ()
    }

    #[inline(always)]
    fn no_members(&self) -> () {
        ()
    }

    #[inline(always)]
    fn add_member(&self, _members: &mut (), _member: ()) -> Made<()> {
        Ok(())
    }

    #[inline(always)]
    fn body(&self, _at: Tokens, _members: ()) -> () {
        ()
    }

    #[inline(always)]
    fn tree(&self, _past: u32, _body: ()) -> () {
        ()
    }
}
