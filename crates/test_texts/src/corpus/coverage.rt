//! What has to occur in some text.

use anyhow::Result;
use hcl_scan::Kind;

/// The kinds of tokens.
const KINDS: [Kind; 44] = [
    Kind::Mark,
    Kind::LineEnd,
    Kind::LineComment,
    Kind::InlineComment,
    Kind::Identifier,
    Kind::Number,
    Kind::DotIndex,
    Kind::Plus,
    Kind::Minus,
    Kind::Star,
    Kind::Slash,
    Kind::Percent,
    Kind::And,
    Kind::Or,
    Kind::Bang,
    Kind::DoubleEqual,
    Kind::NotEqual,
    Kind::Less,
    Kind::Greater,
    Kind::LessEqual,
    Kind::GreaterEqual,
    Kind::Question,
    Kind::Colon,
    Kind::DoubleColon,
    Kind::Equal,
    Kind::FatArrow,
    Kind::OpenBrace,
    Kind::CloseBrace,
    Kind::OpenBracket,
    Kind::CloseBracket,
    Kind::OpenParen,
    Kind::CloseParen,
    Kind::Comma,
    Kind::Dot,
    Kind::Ellipsis,
    Kind::QuoteOpen,
    Kind::HereOpen,
    Kind::SeqClose,
    Kind::QuoteClose,
    Kind::InterpOpen,
    Kind::DirectiveOpen,
    Kind::QuoteLit,
    Kind::HereClose,
    Kind::HereLit,
];

/// Forms of tokens, nodes of the tree, and results of undoing a command out of order.
const FORMS: [&str; 78] = [
    "LF",
    "CR LF",
    "# comment",
    "// comment",
    "<<MARKER",
    "<<-MARKER",
    "${",
    "${~",
    "%{",
    "%{~",
    "}",
    "~}",
    "a name with letters that are not ASCII",
    "literal text with letters that are not ASCII",
    "a comment with letters that are not ASCII",
    "a comment at the end of the text",
    "a last line without an end",
    "NAME = A",
    "a block on lines",
    "a block on a line, with an attribute",
    "a block on a line, empty",
    "a label that is a name",
    "a label in quotes",
    "a label of quotes alone",
    "A ? B : C",
    "||",
    "&&",
    "==",
    "!=",
    "<",
    "<=",
    ">",
    ">=",
    "+",
    "-",
    "*",
    "/",
    "%",
    "-A",
    "!A",
    "A.NAME",
    "A.0",
    "A.*",
    "A[*]",
    "A[B]",
    "a number",
    "a name",
    "a call",
    "a call of a name with ::",
    "a call without arguments",
    "a call with ...",
    "a tuple",
    "a tuple without elements",
    "an object",
    "an object without elements",
    "KEY = A",
    "KEY : A",
    "elements after a comma",
    "elements after a line end",
    "[for",
    "[for with if",
    "{for",
    "{for with if",
    "{for with ...",
    "for NAME in A",
    "for NAME, NAME in A",
    "quoted text",
    "quotes alone",
    "a heredoc",
    "a heredoc without a line",
    "( )",
    "literal text",
    "an interpolation",
    "%{if",
    "%{if with else",
    "%{for",
    "a command that is taken out",
    "a command that a later one blocks",
];

/// What has occurred up to there, in the order of `KINDS` and of `FORMS`.
#[derive(Drop)]
pub struct Coverage {
    kinds: [bool; 44],
    forms: [bool; 78],
    /// What occurred and is not in these lists.
    unlisted: bool,
}

/// Notes the entry at this index of a list, and returns whether the list has it.
fn note(seen: &mut [bool], at: Option<usize>) -> bool {
    let Some(i) = at else {
        return false;
    };
    match seen.get_mut(i) {
        Some(seen) => {
            *seen = true;
            true
        }
        None => false,
    }
}

impl Coverage {
    pub fn new() -> Coverage {
        Coverage {
            kinds: [false; 44],
            forms: [false; 78],
            unlisted: false,
        }
    }

    pub fn kind(&mut self, kind: Kind) {
        let at = KINDS.iter().position(|known| *known == kind);
        let is_listed = note(&mut self.kinds, at);
        self.unlisted = self.unlisted || !is_listed;
    }

    pub fn form(&mut self, form: &str) {
        let at = FORMS.iter().position(|known| *known == form);
        let is_listed = note(&mut self.forms, at);
        self.unlisted = self.unlisted || !is_listed;
    }

    pub fn form_if(&mut self, occurs: bool, form: &str) {
        if occurs {
            self.form(form);
        }
    }

    /// Reports what has not occurred.
    pub fn print_missing(&self, rt: &HostRuntime) -> Result<()> {
        self.print_missing_kinds(rt)?;
        self.print_missing_forms(rt)?;
        if self.unlisted {
            println!(rt; "something occurs that is not listed")?;
        }
        Ok(())
    }

    fn print_missing_kinds(&self, rt: &HostRuntime) -> Result<()> {
        for (kind, seen) in KINDS.iter().zip(self.kinds.iter()) {
            if !*seen {
                println!(rt; "in no text: {kind:?}")?;
            }
        }
        Ok(())
    }

    fn print_missing_forms(&self, rt: &HostRuntime) -> Result<()> {
        for (form, seen) in FORMS.iter().zip(self.forms.iter()) {
            if !*seen {
                println!(rt; "in no text: {form}")?;
            }
        }
        Ok(())
    }
}
