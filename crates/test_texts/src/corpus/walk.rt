//! A walk over a tree, which notes each production that it meets.

use crate::corpus::coverage::Coverage;
use crate::report::Report;
use hcl_scan::{Kind, Scanned};
use hcl_tree::{
    Attribute, BinaryOperator, Block, Boxed, Call, Content, Elem, Expr, ExprKind, ForDirective,
    ForObject, ForTuple, IfDirective, Intro, Items, Label, Member, Operation, Part, Primary, Tail,
    Template, Tree, UnaryOperator,
};

/// More nodes than the tree of any of the texts has.
const NODES: usize = 1_000_000;

/// A node that is still to be looked at.
#[derive(Clone, Copy)]
enum Node<'t> {
    Member(&'t Member),
    Expr(&'t Expr),
    Tail(&'t Tail),
    Elem(&'t Elem),
    Part(&'t Part),
}

/// The nodes that are still to be looked at, and whether there was memory for all of them.
#[derive(Drop)]
struct Left<'t> {
    nodes: Vec<Node<'t>>,
    is_whole: bool,
}

/// Notes the nodes of a text's tree.
pub fn see(scanned: &Scanned<'_>, tree: &Tree, seen: &mut Coverage, report: &mut Report) {
    let mut left = Left {
        nodes: Vec::new(report.alloc),
        is_whole: true,
    };
    left.members(&tree.body.members);
    for _ in 0..NODES {
        match left.nodes.pop() {
            Some(node) => see_node(scanned, node, &mut left, seen),
            None => break,
        }
    }
    let is_whole = left.is_whole && left.nodes.is_empty();
    report.hold(is_whole, "it has too many nodes");
}

fn see_node<'t>(scanned: &Scanned<'_>, node: Node<'t>, left: &mut Left<'t>, seen: &mut Coverage) {
    match node {
        Node::Member(Member::Attribute(attribute)) => left.attribute(attribute, seen),
        Node::Member(Member::Block(block)) => left.block(block, seen),
        Node::Expr(expr) => left.form(&expr.kind, seen),
        Node::Tail(tail) => left.tail(tail, seen),
        Node::Elem(elem) => {
            see_elem(scanned, elem, seen);
            left.expr(&elem.key);
            left.expr(&elem.value);
        }
        Node::Part(part) => left.part(part, seen),
    }
}

impl<'t> Left<'t> {
    fn put(&mut self, node: Node<'t>) {
        let is_put = self.nodes.push(node).is_ok();
        self.is_whole = self.is_whole && is_put;
    }

    fn expr(&mut self, expr: &'t Expr) {
        self.put(Node::Expr(expr));
    }

    fn members(&mut self, members: &'t Items<Member>) {
        for member in members.as_slice() {
            self.put(Node::Member(member));
        }
    }

    fn exprs(&mut self, exprs: &'t Items<Expr>) {
        for expr in exprs.as_slice() {
            self.expr(expr);
        }
    }

    fn block(&mut self, block: &'t Block, seen: &mut Coverage) {
        see_labels(&block.labels, seen);
        match &block.content {
            Content::Body(body) => {
                seen.form("a block on lines");
                self.members(&body.get().members);
            }
            Content::OneLine(Some(attribute)) => {
                seen.form("a block on a line, with an attribute");
                self.attribute(attribute.get(), seen);
            }
            Content::OneLine(None) => seen.form("a block on a line, empty"),
        }
    }

    fn attribute(&mut self, attribute: &'t Attribute, seen: &mut Coverage) {
        seen.form("NAME = A");
        self.expr(attribute.value.get());
    }

    fn form(&mut self, kind: &'t ExprKind, seen: &mut Coverage) {
        match kind {
            ExprKind::Conditional(condition, met, unmet) => {
                seen.form("A ? B : C");
                self.expr(condition.get());
                self.expr(met.get());
                self.expr(unmet.get());
            }
            ExprKind::Binary(head, links) => {
                self.expr(head.get());
                self.links(links.get(), seen);
            }
            ExprKind::Unary(prefix, operand) => {
                seen.form(name_of_prefix(*prefix));
                self.expr(operand.get());
            }
            ExprKind::Postfix(term, tails) => {
                self.shape(&term.get().kind, seen);
                self.tails(tails.get());
            }
            ExprKind::Term(term) => self.shape(&term.kind, seen),
        }
    }

    fn links(&mut self, links: &'t Items<Operation>, seen: &mut Coverage) {
        for link in links.as_slice() {
            seen.form(name_of(link.operator));
            self.expr(&link.operand);
        }
    }

    fn tails(&mut self, tails: &'t Items<Tail>) {
        for tail in tails.as_slice() {
            self.put(Node::Tail(tail));
        }
    }

    fn tail(&mut self, tail: &'t Tail, seen: &mut Coverage) {
        match tail {
            Tail::Name(_) => seen.form("A.NAME"),
            Tail::LegacyIndex(_) => seen.form("A.0"),
            Tail::AttributeSplat => seen.form("A.*"),
            Tail::FullSplat => seen.form("A[*]"),
            Tail::Index(expr) => {
                seen.form("A[B]");
                self.expr(expr.get());
            }
        }
    }

    fn shape(&mut self, kind: &'t Primary, seen: &mut Coverage) {
        seen.form(name_of_shape(kind));
        match kind {
            Primary::Number | Primary::Identifier => {}
            Primary::Call(call) => self.call(call.get(), seen),
            Primary::Tuple(exprs) => self.exprs(exprs.get()),
            Primary::Object(elems) => self.elems(elems.get()),
            Primary::ForTuple(each) => self.for_tuple(each.get(), seen),
            Primary::ForObject(each) => self.for_object(each.get(), seen),
            Primary::Quoted(template) | Primary::Heredoc(template) => self.parts(template.get()),
            Primary::Parens(expr) => self.expr(expr.get()),
        }
    }

    fn elems(&mut self, elems: &'t Items<Elem>) {
        for elem in elems.as_slice() {
            self.put(Node::Elem(elem));
        }
    }

    fn call(&mut self, call: &'t Call, seen: &mut Coverage) {
        seen.form_if(call.arguments.is_empty(), "a call without arguments");
        seen.form_if(call.expand_final, "a call with ...");
        self.exprs(&call.arguments);
    }

    fn intro(&mut self, intro: &'t Intro, seen: &mut Coverage) {
        seen.form(match intro.second_name {
            Some(_) => "for NAME, NAME in A",
            None => "for NAME in A",
        });
        self.expr(&intro.collection);
    }

    fn filter(&mut self, filter: &'t Option<Boxed<Expr>>) {
        if let Some(expr) = filter {
            self.expr(expr.get());
        }
    }

    fn for_tuple(&mut self, each: &'t ForTuple, seen: &mut Coverage) {
        seen.form_if(each.filter.is_some(), "[for with if");
        self.intro(&each.intro, seen);
        self.expr(&each.value);
        self.filter(&each.filter);
    }

    fn for_object(&mut self, each: &'t ForObject, seen: &mut Coverage) {
        seen.form_if(each.filter.is_some(), "{for with if");
        seen.form_if(each.grouped, "{for with ...");
        self.intro(&each.intro, seen);
        self.expr(&each.key);
        self.expr(&each.value);
        self.filter(&each.filter);
    }

    fn parts(&mut self, template: &'t Template) {
        for part in template.parts.as_slice() {
            self.put(Node::Part(part));
        }
    }

    fn part(&mut self, part: &'t Part, seen: &mut Coverage) {
        match part {
            Part::Literal(_) => seen.form("literal text"),
            Part::Interp(expr) => {
                seen.form("an interpolation");
                self.expr(expr.get());
            }
            Part::If(choice) => self.if_directive(choice.get(), seen),
            Part::For(each) => self.for_directive(each.get(), seen),
        }
    }

    fn if_directive(&mut self, choice: &'t IfDirective, seen: &mut Coverage) {
        self.expr(&choice.condition);
        self.parts(&choice.then_branch);
        match &choice.else_branch {
            Some(unmet) => {
                seen.form("%{if with else");
                self.parts(unmet);
            }
            None => seen.form("%{if"),
        }
    }

    fn for_directive(&mut self, each: &'t ForDirective, seen: &mut Coverage) {
        seen.form("%{for");
        self.intro(&each.intro, seen);
        self.parts(&each.body);
    }
}

fn see_elem(scanned: &Scanned<'_>, elem: &Elem, seen: &mut Coverage) {
    let (between, first) = (elem.key.past, elem.value.first);
    let is_colon = is_there(scanned, Kind::Colon, between, first);
    seen.form(if is_colon { "KEY : A" } else { "KEY = A" });
    let past = elem.value.past;
    let following = past.saturating_add(1);
    let is_comma = is_there(scanned, Kind::Comma, past, following);
    seen.form_if(is_comma, "elements after a comma");
    let is_end = is_there(scanned, Kind::LineEnd, past, following);
    seen.form_if(is_end, "elements after a line end");
}

/// Whether a token of this kind is among these of the text.
fn is_there(scanned: &Scanned<'_>, kind: Kind, first: u32, past: u32) -> bool {
    let mut is_there = false;
    for i in first..past {
        is_there = is_there || (i < scanned.count() && scanned.kind(i as usize) == kind);
    }
    is_there
}

fn name_of_shape(kind: &Primary) -> &'static str {
    match kind {
        Primary::Number => "a number",
        Primary::Identifier => "a name",
        Primary::Call(call) if call.get().names.len() > 1 => "a call of a name with ::",
        Primary::Call(_) => "a call",
        Primary::Tuple(exprs) if exprs.get().is_empty() => "a tuple without elements",
        Primary::Tuple(_) => "a tuple",
        Primary::Object(elems) if elems.get().is_empty() => "an object without elements",
        Primary::Object(_) => "an object",
        Primary::ForTuple(_) => "[for",
        Primary::ForObject(_) => "{for",
        Primary::Quoted(template) if template.get().parts.is_empty() => "quotes alone",
        Primary::Quoted(_) => "quoted text",
        Primary::Heredoc(template) if template.get().parts.is_empty() => "a heredoc without a line",
        Primary::Heredoc(_) => "a heredoc",
        Primary::Parens(_) => "( )",
    }
}

fn see_labels(labels: &Items<Label>, seen: &mut Coverage) {
    for label in labels.as_slice() {
        seen.form(if label.name == Some(label.first) {
            "a label that is a name"
        } else if label.name.is_some() {
            "a label in quotes"
        } else {
            "a label of quotes alone"
        });
    }
}

fn name_of_prefix(prefix: UnaryOperator) -> &'static str {
    match prefix {
        UnaryOperator::Minus => "-A",
        UnaryOperator::Not => "!A",
    }
}

fn name_of(operator: BinaryOperator) -> &'static str {
    match operator {
        BinaryOperator::Or => "||",
        BinaryOperator::And => "&&",
        BinaryOperator::Equal => "==",
        BinaryOperator::NotEqual => "!=",
        BinaryOperator::Less => "<",
        BinaryOperator::LessEqual => "<=",
        BinaryOperator::Greater => ">",
        BinaryOperator::GreaterEqual => ">=",
        BinaryOperator::Plus => "+",
        BinaryOperator::Minus => "-",
        BinaryOperator::Times => "*",
        BinaryOperator::Divide => "/",
        BinaryOperator::Modulo => "%",
    }
}
