//! A builder that makes the nodes of the tree.

ghost use Rattle.std.specs.Prelude.{◌≡◌, [], true, IfOk};
ghost use Rattle.hcl_grammar.specs.Nodes as node;
ghost use Rattle.hcl_grammar.specs.Pure.NodeMakers.{nodes};
ghost use Rattle.hcl_parse.specs.Made.{IsMade};

use crate::builder::{Builder, Made, Tokens};
use crate::grouping::{Queue, group};
use hcl_grammar::tree::{
    Attribute, BinaryOperator, Block, Body, Call, Content, Elem, Expr, ExprKind, ForDirective,
    ForObject, ForTuple, IfDirective, Intro, Label, Member, Operation, Part, Primary, Tail,
    Template, Term, Tree, UnaryOperator,
};
use hcl_grammar::{Boxed, Items};
use std::alloc::Global;

/// Makes the nodes of the tree.
#[derive(Drop)]
pub struct Nodes {
    /// The allocator of nodes.
    pub alloc: Global,
}

/// Returns an expression.
#[inline(always)]
#[tactic(auto, unfolding(hcl_grammar::specs::Nodes::expr))]
pub fn expr(at: Tokens, kind: ExprKind) -> Expr
    ensures { result ≡ node.expr at.first at.past kind }
{
    Expr {
        first: at.first,
        past: at.past,
        kind,
    }
}

/// Returns a term.
#[inline(always)]
#[tactic(auto, unfolding(hcl_grammar::specs::Nodes::term))]
fn term(at: Tokens, kind: Primary) -> Term
    ensures { result ≡ node.term at.first at.past kind }
{
    Term {
        first: at.first,
        past: at.past,
        kind,
    }
}

/// Returns an operator with its second operand.
#[tactic(auto, unfolding(hcl_grammar::specs::Nodes::operation))]
pub fn operation(operator: BinaryOperator, operand: Expr) -> Operation
    ensures { result ≡ node.operation operator operand }
{
    Operation { operator, operand }
}

/// Puts an expression into a box, if there is one.
fn boxed_option(alloc: Global, expr: Option<Expr>) -> Made<Option<Boxed<Expr>>>
    ensures { IfOk result (λ o. o ≡ expr) }
{
    match expr {
        Some(expr) => Ok(Some(Boxed::new(alloc, expr)?)),
        None => Ok(None),
    }
}

impl Builder for Nodes {
    type Expr = Expr;

    type Exprs = Items<Expr>;

    type Operations = Queue<Operation>;

    type Term = Term;

    type Tail = Tail;

    type Tails = Items<Tail>;

    type Names = Items<u32>;

    type Elems = Items<Elem>;

    type Intro = Intro;

    type Template = Template;

    type Part = Part;

    type Parts = Items<Part>;

    type Attribute = Attribute;

    type Label = Label;

    type Labels = Items<Label>;

    type Content = Content;

    type Member = Member;

    type Members = Items<Member>;

    type Body = Body;

    type Tree = Tree;

    ghost make = { λ _. nodes };

    ghost may_run_out = { true };

    #[inline]
    fn conditional(
        &self,
        at: Tokens,
        condition: Self::Expr,
        then_branch: Self::Expr,
        else_branch: Self::Expr,
    ) -> Made<Self::Expr> {
        let condition = Boxed::new(self.alloc, condition)?;
        let then_branch = Boxed::new(self.alloc, then_branch)?;
        let else_branch = Boxed::new(self.alloc, else_branch)?;
        let kind = ExprKind::Conditional(condition, then_branch, else_branch);
        Ok(expr(at, kind))
    }

    #[inline]
    fn chain(&self, head: Self::Expr, operations: Self::Operations) -> Made<Self::Expr> {
        group(self.alloc, head, operations)
    }

    #[inline]
    fn no_operations(&self) -> Self::Operations {
        Queue::new(self.alloc)
    }

    #[inline]
    fn add_operation(
        &self,
        operations: &mut Self::Operations,
        operator: BinaryOperator,
        operand: Self::Expr,
    ) -> Made<()> {
        operations.push(operation(operator, operand))
    }

    #[inline]
    fn unary(&self, at: Tokens, operator: UnaryOperator, operand: Self::Expr) -> Made<Self::Expr> {
        let operand = Boxed::new(self.alloc, operand)?;
        Ok(expr(at, ExprKind::Unary(operator, operand)))
    }

    #[inline]
    fn postfix(&self, at: Tokens, head: Self::Term, tails: Self::Tails) -> Made<Self::Expr> {
        if tails.is_empty() {
            return Ok(expr(at, ExprKind::Term(head)));
        }
        let head = Boxed::new(self.alloc, head)?;
        let tails = Boxed::new(self.alloc, tails)?;
        Ok(expr(at, ExprKind::Postfix(head, tails)))
    }

    #[inline]
    fn term_expr(&self, at: Tokens, head: Self::Term) -> Self::Expr {
        expr(at, ExprKind::Term(head))
    }

    #[inline]
    fn no_tails(&self) -> Self::Tails {
        Items::new(self.alloc)
    }

    #[inline]
    fn add_tail(&self, tails: &mut Self::Tails, tail: Self::Tail) -> Made<()> {
        tails.push(tail)
    }

    #[inline]
    fn name_tail(&self, number: u32) -> Self::Tail {
        Tail::Name(number)
    }

    #[inline]
    fn legacy_index(&self, number: u32) -> Self::Tail {
        Tail::LegacyIndex(number)
    }

    #[inline]
    fn attribute_splat(&self) -> Self::Tail {
        Tail::AttributeSplat
    }

    #[inline]
    fn full_splat(&self) -> Self::Tail {
        Tail::FullSplat
    }

    #[inline]
    fn index(&self, key: Self::Expr) -> Made<Self::Tail> {
        Ok(Tail::Index(Boxed::new(self.alloc, key)?))
    }

    #[inline]
    fn number(&self, at: Tokens) -> Self::Term {
        term(at, Primary::Number)
    }

    #[inline]
    fn identifier(&self, at: Tokens) -> Self::Term {
        term(at, Primary::Identifier)
    }

    #[inline]
    #[tactic(auto, unfolding(hcl_grammar::specs::Nodes::call))]
    fn call(
        &self,
        at: Tokens,
        names: Self::Names,
        arguments: Self::Exprs,
        expand_final: bool,
    ) -> Made<Self::Term> {
        let call = Call {
            names,
            arguments,
            expand_final,
        };
        Ok(term(at, Primary::Call(Boxed::new(self.alloc, call)?)))
    }

    #[inline]
    fn first_name(&self, number: u32) -> Made<Self::Names> {
        let mut names = Items::new(self.alloc);
        names.push(number)?;
        Ok(names)
    }

    #[inline]
    fn add_name(&self, names: &mut Self::Names, number: u32) -> Made<()> {
        names.push(number)
    }

    #[inline]
    fn no_exprs(&self) -> Self::Exprs {
        Items::new(self.alloc)
    }

    #[inline]
    fn add_expr(&self, exprs: &mut Self::Exprs, expr: Self::Expr) -> Made<()> {
        exprs.push(expr)
    }

    #[inline]
    fn tuple(&self, at: Tokens, exprs: Self::Exprs) -> Made<Self::Term> {
        let exprs = Boxed::new(self.alloc, exprs)?;
        Ok(term(at, Primary::Tuple(exprs)))
    }

    #[inline]
    fn object(&self, at: Tokens, elems: Self::Elems) -> Made<Self::Term> {
        let elems = Boxed::new(self.alloc, elems)?;
        Ok(term(at, Primary::Object(elems)))
    }

    #[inline]
    fn no_elems(&self) -> Self::Elems {
        Items::new(self.alloc)
    }

    #[inline]
    #[tactic(auto, unfolding(hcl_grammar::specs::Nodes::elem))]
    fn add_elem(&self, elems: &mut Self::Elems, key: Self::Expr, value: Self::Expr) -> Made<()> {
        elems.push(Elem { key, value })
    }

    #[inline]
    #[tactic(auto, unfolding(hcl_grammar::specs::Nodes::intro))]
    fn intro(
        &self,
        at: Tokens,
        name: u32,
        second_name: Option<u32>,
        collection: Self::Expr,
    ) -> Self::Intro {
        Intro {
            first: at.first,
            past: at.past,
            name,
            second_name,
            collection,
        }
    }

    #[inline]
    #[tactic(auto, unfolding(hcl_grammar::specs::Nodes::for_tuple))]
    fn for_tuple(
        &self,
        at: Tokens,
        intro: Self::Intro,
        value: Self::Expr,
        filter: Option<Self::Expr>,
    ) -> Made<Self::Term>
        ensures { IsMade true result (nodes.for_tuple at.first at.past intro value filter) }
    {
        let filter = boxed_option(self.alloc, filter)?;
        let comprehension = ForTuple {
            intro,
            value,
            filter,
        };
        Ok(term(
            at,
            Primary::ForTuple(Boxed::new(self.alloc, comprehension)?),
        ))
    }

    #[inline]
    #[tactic(auto, unfolding(hcl_grammar::specs::Nodes::for_object))]
    fn for_object(
        &self,
        at: Tokens,
        intro: Self::Intro,
        key: Self::Expr,
        value: Self::Expr,
        grouped: bool,
        filter: Option<Self::Expr>,
    ) -> Made<Self::Term>
        ensures { IsMade true result
            (nodes.for_object at.first at.past intro key value grouped filter) }
    {
        let filter = boxed_option(self.alloc, filter)?;
        let comprehension = ForObject {
            intro,
            key,
            value,
            grouped,
            filter,
        };
        Ok(term(
            at,
            Primary::ForObject(Boxed::new(self.alloc, comprehension)?),
        ))
    }

    #[inline]
    fn quoted(&self, at: Tokens, template: Self::Template) -> Made<Self::Term> {
        let template = Boxed::new(self.alloc, template)?;
        Ok(term(at, Primary::Quoted(template)))
    }

    #[inline]
    fn heredoc(&self, at: Tokens, template: Self::Template) -> Made<Self::Term> {
        let template = Boxed::new(self.alloc, template)?;
        Ok(term(at, Primary::Heredoc(template)))
    }

    #[inline]
    fn parens(&self, at: Tokens, expr: Self::Expr) -> Made<Self::Term> {
        let expr = Boxed::new(self.alloc, expr)?;
        Ok(term(at, Primary::Parens(expr)))
    }

    #[inline]
    #[tactic(auto, unfolding(hcl_grammar::specs::Nodes::template))]
    fn template(&self, at: Tokens, parts: Self::Parts) -> Self::Template {
        Template {
            first: at.first,
            past: at.past,
            parts,
        }
    }

    #[inline]
    fn no_parts(&self) -> Self::Parts {
        Items::new(self.alloc)
    }

    #[inline]
    fn add_part(&self, parts: &mut Self::Parts, part: Self::Part) -> Made<()> {
        parts.push(part)
    }

    #[inline]
    fn literal(&self, number: u32) -> Self::Part {
        Part::Literal(number)
    }

    #[inline]
    fn interpolation(&self, expr: Self::Expr) -> Made<Self::Part> {
        Ok(Part::Interp(Boxed::new(self.alloc, expr)?))
    }

    #[inline]
    #[tactic(auto, unfolding(hcl_grammar::specs::Nodes::if_part))]
    fn if_directive(
        &self,
        at: Tokens,
        condition: Self::Expr,
        then_branch: Self::Template,
        else_branch: Option<Self::Template>,
    ) -> Made<Self::Part>
        ensures { IsMade true result
            (nodes.if_directive at.first at.past condition then_branch else_branch) }
    {
        let Tokens { first, past } = at;
        let directive = IfDirective {
            first,
            past,
            condition,
            then_branch,
            else_branch,
        };
        Ok(Part::If(Boxed::new(self.alloc, directive)?))
    }

    #[inline]
    #[tactic(auto, unfolding(hcl_grammar::specs::Nodes::for_part))]
    fn for_directive(
        &self,
        at: Tokens,
        intro: Self::Intro,
        body: Self::Template,
    ) -> Made<Self::Part> {
        let directive = ForDirective {
            first: at.first,
            past: at.past,
            intro,
            body,
        };
        Ok(Part::For(Boxed::new(self.alloc, directive)?))
    }

    #[inline]
    #[tactic(auto, unfolding(hcl_grammar::specs::Nodes::attribute))]
    fn attribute(&self, at: Tokens, value: Self::Expr) -> Made<Self::Attribute> {
        let value = Boxed::new(self.alloc, value)?;
        Ok(Attribute {
            first: at.first,
            past: at.past,
            name: at.first,
            value,
        })
    }

    #[inline]
    #[tactic(auto, unfolding(hcl_grammar::specs::Nodes::label))]
    fn label(&self, at: Tokens, name: Option<u32>) -> Self::Label {
        Label {
            first: at.first,
            past: at.past,
            name,
        }
    }

    #[inline]
    fn no_labels(&self) -> Self::Labels {
        Items::new(self.alloc)
    }

    #[inline]
    fn add_label(&self, labels: &mut Self::Labels, label: Self::Label) -> Made<()> {
        labels.push(label)
    }

    #[inline]
    fn one_line(&self, attribute: Option<Self::Attribute>) -> Made<Self::Content>
        ensures { IsMade true result (nodes.one_line attribute) }
    {
        match attribute {
            Some(attribute) => Ok(Content::OneLine(Some(Boxed::new(self.alloc, attribute)?))),
            None => Ok(Content::OneLine(None)),
        }
    }

    #[inline]
    fn block_body(&self, body: Self::Body) -> Made<Self::Content> {
        Ok(Content::Body(Boxed::new(self.alloc, body)?))
    }

    #[inline]
    fn attribute_member(&self, attribute: Self::Attribute) -> Self::Member {
        Member::Attribute(attribute)
    }

    #[inline]
    #[tactic(auto, unfolding(hcl_grammar::specs::Nodes::block))]
    fn block(&self, at: Tokens, labels: Self::Labels, content: Self::Content) -> Self::Member {
        let Tokens { first, past } = at;
        Member::Block(Block {
            first,
            past,
            block_type: first,
            labels,
            content,
        })
    }

    #[inline]
    fn no_members(&self) -> Self::Members {
        Items::new(self.alloc)
    }

    #[inline]
    fn add_member(&self, members: &mut Self::Members, member: Self::Member) -> Made<()> {
        members.push(member)
    }

    #[inline]
    #[tactic(auto, unfolding(hcl_grammar::specs::Nodes::body))]
    fn body(&self, at: Tokens, members: Self::Members) -> Self::Body {
        Body {
            first: at.first,
            past: at.past,
            members,
        }
    }

    #[inline]
    #[tactic(auto, unfolding(hcl_grammar::specs::Nodes::tree))]
    fn tree(&self, past: u32, body: Self::Body) -> Self::Tree {
        Tree {
            first: 0,
            past,
            body,
        }
    }
}
