//! What a parser makes of what it reads.

ghost use Rattle.std.specs.Prelude.{◌≡◌, Bool};
ghost use Rattle.hcl_grammar.specs.Pure.Makers.{Makers};
ghost use Rattle.hcl_parse.specs.Made.{IsMade, IsAdded};

use hcl_grammar::fault::TokenFault;
use hcl_grammar::tree::{BinaryOperator, UnaryOperator};
use std::alloc::AllocError;

/// The tokens of a node, by their numbers.
#[derive(Clone, Copy)]
pub struct Tokens {
    /// The number of its first token.
    pub first: u32,
    /// The number of the one after its last token.
    pub past: u32,
}

/// What a method makes; `AllocError` if memory ran out, or if the builder wants no more, as that of
/// tf_glance at a suspect node.
pub type Made<T> = Result<T, AllocError>;

/// What a rule takes, or its error.
pub type Taken<T> = Result<T, TokenFault>;

/// What a parser makes of what it reads: a type for each kind of node, and a method for each node.
pub trait Builder {
    type Expr: Drop;

    type Exprs: Drop;

    type Operations: Drop;

    type Term: Drop;

    type Tail: Drop;

    type Tails: Drop;

    type Names: Drop;

    type Elems: Drop;

    type Intro: Drop;

    type Template: Drop;

    type Part: Drop;

    type Parts: Drop;

    type Attribute: Drop;

    type Label: Drop;

    type Labels: Drop;

    type Content: Drop;

    type Member: Drop;

    type Members: Drop;

    type Body: Drop;

    type Tree: Drop;

    ghost make: { Self → Makers (record {
      Expr = Self.Expr;
      Exprs = Self.Exprs;
      Operations = Self.Operations;
      Term = Self.Term;
      Tail = Self.Tail;
      Tails = Self.Tails;
      Names = Self.Names;
      Elems = Self.Elems;
      Intro = Self.Intro;
      Template = Self.Template;
      Part = Self.Part;
      Parts = Self.Parts;
      Attribute = Self.Attribute;
      Label = Self.Label;
      Labels = Self.Labels;
      Content = Self.Content;
      Member = Self.Member;
      Members = Self.Members;
      Body = Self.Body;
      Tree = Self.Tree;
    }) };

    /// Whether a method may answer `AllocError`.
    ghost may_run_out: { Bool };

    /// Makes a conditional.
    fn conditional(
        &self,
        at: Tokens,
        condition: Self::Expr,
        then_branch: Self::Expr,
        else_branch: Self::Expr,
    ) -> Made<Self::Expr>
        ensures { IsMade may_run_out result
            ((make self.now).conditional at.first at.past condition then_branch else_branch) };

    /// Makes an expression of an operand and the operators that follow it.
    fn chain(&self, head: Self::Expr, operations: Self::Operations) -> Made<Self::Expr>
        ensures { IsMade may_run_out result ((make self.now).chain head operations) };

    /// Makes an empty list of operators.
    fn no_operations(&self) -> Self::Operations
        ensures { result ≡ (make self.now).no_operations };

    /// Adds an operator and its second operand.
    fn add_operation(
        &self,
        operations: &mut Self::Operations,
        operator: BinaryOperator,
        operand: Self::Expr,
    ) -> Made<()>
        ensures { IsAdded may_run_out result operations.new
            ((make self.now).add_operation operations.old operator operand) };

    /// Makes an operator and its operand.
    fn unary(&self, at: Tokens, operator: UnaryOperator, operand: Self::Expr) -> Made<Self::Expr>
        ensures { IsMade may_run_out result
            ((make self.now).unary at.first at.past operator operand) };

    /// Makes a term with its tails.
    fn postfix(&self, at: Tokens, head: Self::Term, tails: Self::Tails) -> Made<Self::Expr>
        ensures { IsMade may_run_out result ((make self.now).postfix at.first at.past head tails) };

    /// Makes a term without tails.
    fn term_expr(&self, at: Tokens, head: Self::Term) -> Self::Expr
        ensures { result ≡ (make self.now).postfix at.first at.past head (make self.now).no_tails };

    /// Makes an empty list of tails.
    fn no_tails(&self) -> Self::Tails
        ensures { result ≡ (make self.now).no_tails };

    /// Adds a tail.
    fn add_tail(&self, tails: &mut Self::Tails, tail: Self::Tail) -> Made<()>
        ensures { IsAdded may_run_out result tails.new ((make self.now).add_tail tails.old tail) };

    /// Makes a name after a dot.
    fn name_tail(&self, number: u32) -> Self::Tail
        ensures { result ≡ (make self.now).name_tail number };

    /// Makes a legacy index.
    fn legacy_index(&self, number: u32) -> Self::Tail
        ensures { result ≡ (make self.now).legacy_index number };

    /// Makes `.*`.
    fn attribute_splat(&self) -> Self::Tail
        ensures { result ≡ (make self.now).attribute_splat };

    /// Makes `[*]`.
    fn full_splat(&self) -> Self::Tail
        ensures { result ≡ (make self.now).full_splat };

    /// Makes an index.
    fn index(&self, key: Self::Expr) -> Made<Self::Tail>
        ensures { IsMade may_run_out result ((make self.now).index key) };

    /// Makes a number.
    fn number(&self, at: Tokens) -> Self::Term
        ensures { result ≡ (make self.now).number at.first at.past };

    /// Makes a name.
    fn identifier(&self, at: Tokens) -> Self::Term
        ensures { result ≡ (make self.now).identifier at.first at.past };

    /// Makes a call of a function.
    fn call(
        &self,
        at: Tokens,
        names: Self::Names,
        arguments: Self::Exprs,
        expand_final: bool,
    ) -> Made<Self::Term>
        ensures { IsMade may_run_out result
            ((make self.now).call at.first at.past names arguments expand_final) };

    /// Makes a list of a function's first name.
    fn first_name(&self, number: u32) -> Made<Self::Names>
        ensures { IsMade may_run_out result ((make self.now).first_name number) };

    /// Adds a name.
    fn add_name(&self, names: &mut Self::Names, number: u32) -> Made<()>
        ensures { IsAdded may_run_out result names.new
            ((make self.now).add_name names.old number) };

    /// Makes an empty list of expressions.
    fn no_exprs(&self) -> Self::Exprs
        ensures { result ≡ (make self.now).no_exprs };

    /// Adds an expression.
    fn add_expr(&self, exprs: &mut Self::Exprs, expr: Self::Expr) -> Made<()>
        ensures { IsAdded may_run_out result exprs.new ((make self.now).add_expr exprs.old expr) };

    /// Makes a tuple.
    fn tuple(&self, at: Tokens, exprs: Self::Exprs) -> Made<Self::Term>
        ensures { IsMade may_run_out result ((make self.now).tuple at.first at.past exprs) };

    /// Makes an object.
    fn object(&self, at: Tokens, elems: Self::Elems) -> Made<Self::Term>
        ensures { IsMade may_run_out result ((make self.now).object at.first at.past elems) };

    /// Makes an empty list of an object's elements.
    fn no_elems(&self) -> Self::Elems
        ensures { result ≡ (make self.now).no_elems };

    /// Adds a key and its value.
    fn add_elem(&self, elems: &mut Self::Elems, key: Self::Expr, value: Self::Expr) -> Made<()>
        ensures { IsAdded may_run_out result elems.new
            ((make self.now).add_elem elems.old key value) };

    /// Makes what a `for` begins with.
    fn intro(
        &self,
        at: Tokens,
        name: u32,
        second_name: Option<u32>,
        collection: Self::Expr,
    ) -> Self::Intro
        ensures { result ≡ (make self.now).intro at.first at.past name second_name collection };

    /// Makes a `for` in brackets.
    fn for_tuple(
        &self,
        at: Tokens,
        intro: Self::Intro,
        value: Self::Expr,
        filter: Option<Self::Expr>,
    ) -> Made<Self::Term>
        ensures { IsMade may_run_out result
            ((make self.now).for_tuple at.first at.past intro value filter) };

    /// Makes a `for` in braces.
    fn for_object(
        &self,
        at: Tokens,
        intro: Self::Intro,
        key: Self::Expr,
        value: Self::Expr,
        grouped: bool,
        filter: Option<Self::Expr>,
    ) -> Made<Self::Term>
        ensures { IsMade may_run_out result
            ((make self.now).for_object at.first at.past intro key value grouped filter) };

    /// Makes a quoted text.
    fn quoted(&self, at: Tokens, template: Self::Template) -> Made<Self::Term>
        ensures { IsMade may_run_out result ((make self.now).quoted at.first at.past template) };

    /// Makes a heredoc.
    fn heredoc(&self, at: Tokens, template: Self::Template) -> Made<Self::Term>
        ensures { IsMade may_run_out result ((make self.now).heredoc at.first at.past template) };

    /// Makes parentheses.
    fn parens(&self, at: Tokens, expr: Self::Expr) -> Made<Self::Term>
        ensures { IsMade may_run_out result ((make self.now).parens at.first at.past expr) };

    /// Makes a template of its parts.
    fn template(&self, at: Tokens, parts: Self::Parts) -> Self::Template
        ensures { result ≡ (make self.now).template at.first at.past parts };

    /// Makes an empty list of a template's parts.
    fn no_parts(&self) -> Self::Parts
        ensures { result ≡ (make self.now).no_parts };

    /// Adds a part.
    fn add_part(&self, parts: &mut Self::Parts, part: Self::Part) -> Made<()>
        ensures { IsAdded may_run_out result parts.new ((make self.now).add_part parts.old part) };

    /// Makes literal text.
    fn literal(&self, number: u32) -> Self::Part
        ensures { result ≡ (make self.now).literal number };

    /// Makes an interpolation.
    fn interpolation(&self, expr: Self::Expr) -> Made<Self::Part>
        ensures { IsMade may_run_out result ((make self.now).interpolation expr) };

    /// Makes an `if` directive.
    fn if_directive(
        &self,
        at: Tokens,
        condition: Self::Expr,
        then_branch: Self::Template,
        else_branch: Option<Self::Template>,
    ) -> Made<Self::Part>
        ensures { IsMade may_run_out result
            ((make self.now).if_directive at.first at.past condition then_branch else_branch) };

    /// Makes a `for` directive.
    fn for_directive(
        &self,
        at: Tokens,
        intro: Self::Intro,
        body: Self::Template,
    ) -> Made<Self::Part>
        ensures { IsMade may_run_out result
            ((make self.now).for_directive at.first at.past intro body) };

    /// Makes an attribute.
    fn attribute(&self, at: Tokens, value: Self::Expr) -> Made<Self::Attribute>
        ensures { IsMade may_run_out result ((make self.now).attribute at.first at.past value) };

    /// Makes a label.
    fn label(&self, at: Tokens, name: Option<u32>) -> Self::Label
        ensures { result ≡ (make self.now).label at.first at.past name };

    /// Makes an empty list of labels.
    fn no_labels(&self) -> Self::Labels
        ensures { result ≡ (make self.now).no_labels };

    /// Adds a label.
    fn add_label(&self, labels: &mut Self::Labels, label: Self::Label) -> Made<()>
        ensures { IsAdded may_run_out result labels.new
            ((make self.now).add_label labels.old label) };

    /// Makes the content of a block on one line.
    fn one_line(&self, attribute: Option<Self::Attribute>) -> Made<Self::Content>
        ensures { IsMade may_run_out result ((make self.now).one_line attribute) };

    /// Makes the content of a block on lines of its own.
    fn block_body(&self, body: Self::Body) -> Made<Self::Content>
        ensures { IsMade may_run_out result ((make self.now).block_body body) };

    /// Makes an attribute of a body.
    fn attribute_member(&self, attribute: Self::Attribute) -> Self::Member
        ensures { result ≡ (make self.now).attribute_member attribute };

    /// Makes a block.
    fn block(&self, at: Tokens, labels: Self::Labels, content: Self::Content) -> Self::Member
        ensures { result ≡ (make self.now).block at.first at.past labels content };

    /// Makes an empty list of attributes and blocks.
    fn no_members(&self) -> Self::Members
        ensures { result ≡ (make self.now).no_members };

    /// Adds an attribute or a block.
    fn add_member(&self, members: &mut Self::Members, member: Self::Member) -> Made<()>
        ensures { IsAdded may_run_out result members.new
            ((make self.now).add_member members.old member) };

    /// Makes a body.
    fn body(&self, at: Tokens, members: Self::Members) -> Self::Body
        ensures { result ≡ (make self.now).body at.first at.past members };

    /// Makes the tree of a whole text.
    fn tree(&self, past: u32, body: Self::Body) -> Self::Tree
        ensures { result ≡ (make self.now).tree past body };
}
