//! The builder of summaries, with a method for each node.

ghost use Rattle.std.specs.Prelude.{true};
ghost use Rattle.hcl_parse.specs.Made.{IsMade};
ghost use Rattle.tf_glance.specs.Inner.SummaryMakers.{summaries};

use crate::members::Summaries;
use crate::summary::{
    BodyContent, Piece, add_one, add_piece, chain, directive, interpolation, is_clean_operand,
    is_clean_option, is_clean_template_option, joined, no_content, plain_if, quoted, tuple,
};
use hcl_grammar::tree::{BinaryOperator, UnaryOperator};
use hcl_parse::{Builder, Made, Tokens};
use std::alloc::AllocError;
use tf_rules::{Count, Pieces, Value, may_find_at_call};

impl<'s, 't> Builder for Summaries<'s, 't> {
    type Expr = Value;

    type Exprs = Count;

    type Operations = Count;

    type Term = Value;

    type Tail = bool;

    type Tails = bool;

    type Names = Option<u32>;

    type Elems = bool;

    type Intro = bool;

    type Template = Pieces;

    type Part = Piece;

    type Parts = Pieces;

    type Attribute = BodyContent;

    type Label = Option<u32>;

    type Labels = Count;

    type Content = BodyContent;

    type Member = BodyContent;

    type Members = BodyContent;

    type Body = BodyContent;

    type Tree = BodyContent;

    ghost make = { λ g. summaries g.scanned.now.pairs g.block_type };

    ghost may_run_out = { true };

    #[inline(always)]
    fn conditional(
        &self,
        _at: Tokens,
        condition: Self::Expr,
        then_branch: Self::Expr,
        else_branch: Self::Expr,
    ) -> Made<Self::Expr> {
        plain_if(condition.is_clean() && then_branch.is_clean() && else_branch.is_clean())
    }

    #[inline(always)]
    fn chain(&self, head: Self::Expr, operations: Self::Operations) -> Made<Self::Expr> {
        chain(head, operations)
    }

    #[inline(always)]
    fn no_operations(&self) -> Self::Operations {
        Count::Zero
    }

    #[inline(always)]
    fn add_operation(
        &self,
        operations: &mut Self::Operations,
        _operator: BinaryOperator,
        operand: Self::Expr,
    ) -> Made<()> {
        *operations = add_one(*operations, is_clean_operand(operand))?;
        Ok(())
    }

    #[inline(always)]
    fn unary(
        &self,
        _at: Tokens,
        _operator: UnaryOperator,
        operand: Self::Expr,
    ) -> Made<Self::Expr> {
        plain_if(operand.is_clean())
    }

    #[inline(always)]
    fn postfix(&self, _at: Tokens, head: Self::Term, tails: Self::Tails) -> Made<Self::Expr> {
        if tails { Ok(head) } else { Err(AllocError) }
    }

    #[inline(always)]
    fn term_expr(&self, _at: Tokens, head: Self::Term) -> Self::Expr {
        head
    }

    #[inline(always)]
    fn no_tails(&self) -> Self::Tails {
        true
    }

    #[inline(always)]
    fn add_tail(&self, _tails: &mut Self::Tails, tail: Self::Tail) -> Made<()> {
        if !tail {
            return Err(AllocError);
        }
        Ok(())
    }

    #[inline(always)]
    fn name_tail(&self, _number: u32) -> Self::Tail {
        true
    }

    #[inline(always)]
    fn legacy_index(&self, _number: u32) -> Self::Tail {
        false
    }

    #[inline(always)]
    fn attribute_splat(&self) -> Self::Tail {
        true
    }

    #[inline(always)]
    fn full_splat(&self) -> Self::Tail {
        true
    }

    #[inline(always)]
    fn index(&self, key: Self::Expr) -> Made<Self::Tail> {
        Ok(key.is_clean())
    }

    #[inline(always)]
    fn number(&self, _at: Tokens) -> Self::Term {
        Value::Plain
    }

    #[inline(always)]
    fn identifier(&self, _at: Tokens) -> Self::Term {
        Value::Plain
    }

    #[inline(always)]
    fn call(
        &self,
        _at: Tokens,
        names: Self::Names,
        arguments: Self::Exprs,
        expand_final: bool,
    ) -> Made<Self::Term> {
        let may_find = may_find_at_call(self.scanned, names, arguments, expand_final);
        plain_if(arguments.is_clean() && !may_find)
    }

    #[inline(always)]
    fn first_name(&self, number: u32) -> Made<Self::Names> {
        Ok(Some(number))
    }

    #[inline(always)]
    fn add_name(&self, names: &mut Self::Names, _number: u32) -> Made<()> {
        *names = None;
        Ok(())
    }

    #[inline(always)]
    fn no_exprs(&self) -> Self::Exprs {
        Count::Zero
    }

    #[inline(always)]
    fn add_expr(&self, exprs: &mut Self::Exprs, expr: Self::Expr) -> Made<()> {
        *exprs = add_one(*exprs, expr.is_clean())?;
        Ok(())
    }

    #[inline(always)]
    fn tuple(&self, _at: Tokens, exprs: Self::Exprs) -> Made<Self::Term> {
        Ok(tuple(exprs))
    }

    #[inline(always)]
    fn object(&self, _at: Tokens, elems: Self::Elems) -> Made<Self::Term> {
        plain_if(elems)
    }

    #[inline(always)]
    fn no_elems(&self) -> Self::Elems {
        true
    }

    #[inline(always)]
    fn add_elem(&self, elems: &mut Self::Elems, key: Self::Expr, value: Self::Expr) -> Made<()> {
        *elems = *elems && key.is_clean() && value.is_clean();
        Ok(())
    }

    #[inline(always)]
    fn intro(
        &self,
        _at: Tokens,
        _name: u32,
        _second_name: Option<u32>,
        collection: Self::Expr,
    ) -> Self::Intro {
        collection.is_clean()
    }

    #[inline(always)]
    fn for_tuple(
        &self,
        at: Tokens,
        intro: Self::Intro,
        value: Self::Expr,
        filter: Option<Self::Expr>,
    ) -> Made<Self::Term>
        ensures { IsMade true result
            ((summaries self.now.scanned.now.pairs self.now.block_type).for_tuple at.first at.past
            intro value filter) }
    {
        plain_if(intro && value.is_clean() && is_clean_option(filter))
    }

    #[inline(always)]
    fn for_object(
        &self,
        at: Tokens,
        intro: Self::Intro,
        key: Self::Expr,
        value: Self::Expr,
        grouped: bool,
        filter: Option<Self::Expr>,
    ) -> Made<Self::Term>
        ensures { IsMade true result
            ((summaries self.now.scanned.now.pairs self.now.block_type).for_object at.first at.past
            intro key value grouped filter) }
    {
        plain_if(intro && key.is_clean() && value.is_clean() && is_clean_option(filter))
    }

    #[inline(always)]
    fn quoted(&self, _at: Tokens, template: Self::Template) -> Made<Self::Term> {
        quoted(template)
    }

    #[inline(always)]
    fn heredoc(&self, _at: Tokens, template: Self::Template) -> Made<Self::Term> {
        plain_if(template.is_clean())
    }

    #[inline(always)]
    fn parens(&self, _at: Tokens, expr: Self::Expr) -> Made<Self::Term> {
        plain_if(expr.is_clean())
    }

    #[inline(always)]
    fn template(&self, _at: Tokens, parts: Self::Parts) -> Self::Template {
        parts
    }

    #[inline(always)]
    fn no_parts(&self) -> Self::Parts {
        Pieces::Empty
    }

    #[inline(always)]
    fn add_part(&self, parts: &mut Self::Parts, part: Self::Part) -> Made<()> {
        *parts = add_piece(*parts, part);
        Ok(())
    }

    #[inline(always)]
    fn literal(&self, _number: u32) -> Self::Part {
        Piece::Other
    }

    #[inline(always)]
    fn interpolation(&self, expr: Self::Expr) -> Made<Self::Part> {
        interpolation(expr.is_clean())
    }

    #[inline(always)]
    fn if_directive(
        &self,
        at: Tokens,
        condition: Self::Expr,
        then_branch: Self::Template,
        else_branch: Option<Self::Template>,
    ) -> Made<Self::Part>
        ensures { IsMade true result
            ((summaries self.now.scanned.now.pairs self.now.block_type).if_directive at.first
            at.past condition then_branch else_branch) }
    {
        directive(
            condition.is_clean() && then_branch.is_clean() && is_clean_template_option(else_branch),
        )
    }

    #[inline(always)]
    fn for_directive(
        &self,
        _at: Tokens,
        intro: Self::Intro,
        body: Self::Template,
    ) -> Made<Self::Part> {
        directive(intro && body.is_clean())
    }

    #[inline(always)]
    fn attribute(&self, at: Tokens, value: Self::Expr) -> Made<Self::Attribute> {
        self.attribute_content(at.first, value)
    }

    #[inline(always)]
    fn label(&self, _at: Tokens, name: Option<u32>) -> Self::Label {
        name
    }

    #[inline(always)]
    fn no_labels(&self) -> Self::Labels {
        Count::Zero
    }

    #[inline(always)]
    fn add_label(&self, labels: &mut Self::Labels, label: Self::Label) -> Made<()> {
        *labels = add_one(*labels, self.is_clean_label(*labels, label))?;
        Ok(())
    }

    #[inline(always)]
    fn one_line(&self, attribute: Option<Self::Attribute>) -> Made<Self::Content>
        ensures { IsMade true result
            ((summaries self.now.scanned.now.pairs self.now.block_type).one_line attribute) }
    {
        match attribute {
            Some(content) => Ok(content),
            None => Ok(no_content()),
        }
    }

    #[inline(always)]
    fn block_body(&self, body: Self::Body) -> Made<Self::Content> {
        Ok(body)
    }

    #[inline(always)]
    fn attribute_member(&self, attribute: Self::Attribute) -> Self::Member {
        attribute
    }

    #[inline(always)]
    fn block(&self, at: Tokens, labels: Self::Labels, content: Self::Content) -> Self::Member {
        self.block_content(at.first, labels, content)
    }

    #[inline(always)]
    fn no_members(&self) -> Self::Members {
        no_content()
    }

    #[inline(always)]
    fn add_member(&self, members: &mut Self::Members, member: Self::Member) -> Made<()> {
        *members = joined(*members, member)?;
        Ok(())
    }

    #[inline(always)]
    fn body(&self, _at: Tokens, members: Self::Members) -> Self::Body {
        members
    }

    #[inline(always)]
    fn tree(&self, _past: u32, body: Self::Body) -> Self::Tree {
        body
    }
}
