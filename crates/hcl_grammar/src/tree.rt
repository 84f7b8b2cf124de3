//! The tree of a text.
//!
//! A node has the numbers of its tokens in the text's list of tokens, from 0: `first` is that of
//! its first token, and `past` the one after its last; they are equal where the node has no token.
//! They have 32 bits, since a text has at most `MAX_TEXT` tokens.
//! What is dropped between two tokens of a node (comments and, inside brackets, line ends) is
//! counted, what precedes its first is not.
//!
//! HCL native syntax specification, Structural Elements, Expressions and Templates.

use crate::{Boxed, Items};

/// An operator before its operand.
#[derive(Clone, Copy)]
pub enum UnaryOperator {
    /// `-`
    Minus,
    /// `!`
    Not,
}

/// An operator between two operands.
#[derive(Clone, Copy)]
pub enum BinaryOperator {
    /// `||`
    Or,
    /// `&&`
    And,
    /// `==`
    Equal,
    /// `!=`
    NotEqual,
    /// `<`
    Less,
    /// `<=`
    LessEqual,
    /// `>`
    Greater,
    /// `>=`
    GreaterEqual,
    /// `+`
    Plus,
    /// `-`
    Minus,
    /// `*`
    Times,
    /// `/`
    Divide,
    /// `%`
    Modulo,
}

/// An expression.
#[cycle(tree)]
#[derive(Drop)]
pub struct Expr {
    /// The number of its first token.
    pub first: u32,
    /// The number after its last token.
    pub past: u32,
    /// What it is.
    pub kind: ExprKind,
}

// In a box of its own it takes 48 bytes of memory: malloc adds 8.
const _: () = prove!(size_of::<Expr>() == 40);

/// What an expression is.
#[cycle(tree)]
#[derive(Drop)]
pub enum ExprKind {
    /// `A ? B : C`
    Conditional(Boxed<Expr>, Boxed<Expr>, Boxed<Expr>),
    /// An operand, and one or more operators of one level, each with its second operand.
    Binary(Boxed<Expr>, Boxed<Items<Operation>>),
    /// `-A` or `!A`
    Unary(UnaryOperator, Boxed<Expr>),
    /// A term with one or more tails.
    Postfix(Boxed<Term>, Boxed<Items<Tail>>),
    /// A term without tails.
    Term(Term),
}

/// An operator of a chain, and its second operand. The operator is the only token between the
/// operand before it and this one.
#[cycle(tree)]
#[derive(Drop)]
pub struct Operation {
    /// The operator.
    pub operator: BinaryOperator,
    /// The second operand.
    pub operand: Expr,
}

/// An attribute, an index or a splat that follows a term.
#[cycle(tree)]
#[derive(Drop)]
pub enum Tail {
    /// `.NAME`, by the number of the name's token.
    Name(u32),
    /// `.0`, the legacy index, by the number of its token.
    LegacyIndex(u32),
    /// `.*`
    AttributeSplat,
    /// `[*]`
    FullSplat,
    /// `[A]`
    Index(Boxed<Expr>),
}

/// A term: an expression without operators and tails.
#[cycle(tree)]
#[derive(Drop)]
pub struct Term {
    /// The number of its first token.
    pub first: u32,
    /// The number after its last token.
    pub past: u32,
    /// What it is.
    pub kind: Primary,
}

/// What a term is.
#[cycle(tree)]
#[derive(Drop)]
pub enum Primary {
    /// A number.
    Number,
    /// A name.
    Identifier,
    /// `NAME(A, B)`
    Call(Boxed<Call>),
    /// `[A, B]`
    Tuple(Boxed<Items<Expr>>),
    /// `{ A = B }`
    Object(Boxed<Items<Elem>>),
    /// `[for NAME in A : B]`
    ForTuple(Boxed<ForTuple>),
    /// `{for NAME in A : B => C}`
    ForObject(Boxed<ForObject>),
    /// `"..."`
    Quoted(Boxed<Template>),
    /// A heredoc.
    Heredoc(Boxed<Template>),
    /// `(A)`
    Parens(Boxed<Expr>),
}

/// A call of a function.
#[cycle(tree)]
#[derive(Drop)]
pub struct Call {
    /// The numbers of the tokens of the function's name: one or more names with `::` between them.
    pub names: Items<u32>,
    /// The arguments.
    pub arguments: Items<Expr>,
    /// Whether `...` follows the last argument.
    pub expand_final: bool,
}

/// An element of an object.
#[cycle(tree)]
#[derive(Drop)]
pub struct Elem {
    /// The expression before `=` or `:`.
    pub key: Expr,
    /// The expression after it.
    pub value: Expr,
}

/// What begins a `for`: `for NAME in A`, or `for NAME, NAME in A`.
#[cycle(tree)]
#[derive(Drop)]
pub struct Intro {
    /// The number of its first token, the word `for`.
    pub first: u32,
    /// The number after its last token.
    pub past: u32,
    /// The number of the first name's token.
    pub name: u32,
    /// The number of the second name's token, if there is one.
    pub second_name: Option<u32>,
    /// What is gone through.
    pub collection: Expr,
}

/// A `for` in brackets: `[INTRO : VALUE if FILTER]`.
#[cycle(tree)]
#[derive(Drop)]
pub struct ForTuple {
    /// What begins it.
    pub intro: Intro,
    /// The expression after the colon.
    pub value: Expr,
    /// The condition after `if`, if there is one.
    pub filter: Option<Boxed<Expr>>,
}

/// A `for` in braces: `{INTRO : KEY => VALUE... if FILTER}`.
#[cycle(tree)]
#[derive(Drop)]
pub struct ForObject {
    /// What begins it.
    pub intro: Intro,
    /// The expression after the colon.
    pub key: Expr,
    /// The expression after `=>`.
    pub value: Expr,
    /// Whether `...` follows the value.
    pub grouped: bool,
    /// The condition after `if`, if there is one.
    pub filter: Option<Boxed<Expr>>,
}

/// Literal text with interpolations and directives: the content of a quoted text, of a heredoc, or
/// of a directive.
#[cycle(tree)]
#[derive(Drop)]
pub struct Template {
    /// The number of its first token; where it has none, the number after the token before it.
    pub first: u32,
    /// The number after its last token.
    pub past: u32,
    /// Its parts, in order.
    pub parts: Items<Part>,
}

/// A part of a template.
#[cycle(tree)]
#[derive(Drop)]
pub enum Part {
    /// Literal text, by the number of its token.
    Literal(u32),
    /// `${A}`
    Interp(Boxed<Expr>),
    /// `%{if A}..%{else}..%{endif}`
    If(Boxed<IfDirective>),
    /// `%{for NAME in A}..%{endfor}`
    For(Boxed<ForDirective>),
}

/// `%{if CONDITION}MET%{else}UNMET%{endif}`, or without `%{else}UNMET`.
#[cycle(tree)]
#[derive(Drop)]
pub struct IfDirective {
    /// The number of its first token, the `%{` before `if`.
    pub first: u32,
    /// The number after its last token, the `}` after `endif`.
    pub past: u32,
    /// The condition after `if`.
    pub condition: Expr,
    /// The text up to `else` or `endif`.
    pub then_branch: Template,
    /// The text after `else`, if that is there.
    pub else_branch: Option<Template>,
}

/// `%{INTRO}BODY%{endfor}`.
#[cycle(tree)]
#[derive(Drop)]
pub struct ForDirective {
    /// The number of its first token, the `%{` before `for`.
    pub first: u32,
    /// The number after its last token, the `}` after `endfor`.
    pub past: u32,
    /// What its first braces contain.
    pub intro: Intro,
    /// The text between its braces.
    pub body: Template,
}

/// `NAME = A`, with the end of its line; in a block on one line, without.
#[derive(Drop)]
pub struct Attribute {
    /// The number of its first token, the name.
    pub first: u32,
    /// The number after its last token; the comment and the line end that follow are its tokens.
    pub past: u32,
    /// The number of the name's token.
    pub name: u32,
    /// The expression after `=`.
    pub value: Boxed<Expr>,
}

/// A label of a block: a name, or quoted text.
#[derive(Clone, Copy)]
pub struct Label {
    /// The number of its first token: the name, or the quote that opens it.
    pub first: u32,
    /// The number after its last token.
    pub past: u32,
    /// The number of the token that is its text, without quotes; none where nothing is between
    /// the quotes.
    pub name: Option<u32>,
}

/// A block: `WORD LABELS { .. }`, with the end of its line.
#[cycle(body)]
#[derive(Drop)]
pub struct Block {
    /// The number of its first token, the word.
    pub first: u32,
    /// The number after its last token; the comment and the line end after the brace are its
    /// tokens.
    pub past: u32,
    /// The number of the token of the word that it begins with.
    pub block_type: u32,
    /// The labels between the word and the brace.
    pub labels: Items<Label>,
    /// What the braces contain.
    pub content: Content,
}

/// What the braces of a block contain.
#[cycle(body)]
#[derive(Drop)]
pub enum Content {
    /// A body, on lines of its own.
    Body(Boxed<Body>),
    /// At most one attribute, on the line of the braces.
    OneLine(Option<Boxed<Attribute>>),
}

/// The attributes and blocks of a text or of a block, in order.
#[cycle(body)]
#[derive(Drop)]
pub struct Body {
    /// The number of its first token, blank lines and comments too; where it has none, the number
    /// after the token before it.
    pub first: u32,
    /// The number after its last token.
    pub past: u32,
    /// Its attributes and blocks.
    pub members: Items<Member>,
}

/// An attribute or a block of a body.
#[cycle(body)]
#[derive(Drop)]
pub enum Member {
    /// `NAME = A`
    Attribute(Attribute),
    /// `WORD LABELS { .. }`
    Block(Block),
}

/// The tree of a whole text.
#[derive(Drop)]
pub struct Tree {
    /// 0.
    pub first: u32,
    /// How many tokens the text has.
    pub past: u32,
    /// What the text holds, without byte order mark and last comment.
    pub body: Body,
}
