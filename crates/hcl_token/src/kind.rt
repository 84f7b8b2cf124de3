//! The kinds of tokens.

/// What a token is. Each operator has a kind of its own.
///
/// Tokens of the kinds from `OpenBrace` on can change the openings of the scanner
/// (`can_change_openings` of hcl_scan). They are the last ones, so that one comparison tells them
/// apart from the others.
///
/// HCL native syntax specification, Lexical Elements and Templates.
#[derive(Clone, Copy, Debug, PartialEq, Eq)]
pub enum Kind {
    /// The byte order mark, U+FEFF, at the start of a text.
    Mark,
    /// LF, or CR LF.
    LineEnd,
    /// `#` or `//` and all up to the end of the line.
    LineComment,
    /// `/*` and all up to the first `*/` after it.
    InlineComment,
    /// A name.
    Identifier,
    /// A number without a sign.
    Number,
    /// `.` followed by digits: the legacy index.
    DotIndex,
    /// `+`
    Plus,
    /// `-`
    Minus,
    /// `*`
    Star,
    /// `/`
    Slash,
    /// `%`
    Percent,
    /// `&&`
    And,
    /// `||`
    Or,
    /// `!`
    Bang,
    /// `==`
    DoubleEqual,
    /// `!=`
    NotEqual,
    /// `<`
    Less,
    /// `>`
    Greater,
    /// `<=`
    LessEqual,
    /// `>=`
    GreaterEqual,
    /// `?`
    Question,
    /// `:`
    Colon,
    /// `::`
    DoubleColon,
    /// `=`
    Equal,
    /// `=>`
    FatArrow,
    /// `[`
    OpenBracket,
    /// `]`
    CloseBracket,
    /// `(`
    OpenParen,
    /// `)`
    CloseParen,
    /// `,`
    Comma,
    /// `.`
    Dot,
    /// `...`
    Ellipsis,
    /// Literal text in quotes.
    QuoteLit,
    /// `{`
    OpenBrace,
    /// `}` that closes a `{`, or nothing
    CloseBrace,
    /// `"` before quoted text.
    QuoteOpen,
    /// `<<` or `<<-`, the marker, and the end of the line.
    HereOpen,
    /// `}` or `~}` that closes a template sequence.
    SeqClose,
    /// `"` after quoted text.
    QuoteClose,
    /// `${` or `${~`: an interpolation begins.
    InterpOpen,
    /// `%{` or `%{~`: a template directive begins.
    DirectiveOpen,
    /// The line that closes a heredoc, without its line end.
    HereClose,
    /// Literal text of a heredoc.
    HereLit,
}
