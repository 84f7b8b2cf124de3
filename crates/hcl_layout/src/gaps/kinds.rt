//! Kinds of tokens, as the rows of `specs/Gaps/Space` tell them apart.

ghost use Rattle.std.specs.Prelude.{◌≡◌, [], ◌∷◌};
ghost use Rattle.hcl_token.specs.declared.kind.Kind.TheVariants.{Identifier, Number, DotIndex, Minus, Bang};
ghost use Rattle.hcl_token.specs.declared.kind.Kind.TheVariants.{DoubleColon, OpenBrace, CloseBrace};
ghost use Rattle.hcl_token.specs.declared.kind.Kind.TheVariants.{OpenBracket, CloseBracket, OpenParen};
ghost use Rattle.hcl_token.specs.declared.kind.Kind.TheVariants.{CloseParen, Comma, Dot, Ellipsis, SeqClose};
ghost use Rattle.hcl_token.specs.declared.kind.Kind.TheVariants.{QuoteClose, InterpOpen, DirectiveOpen};
ghost use Rattle.hcl_token.specs.Kinds.{is_line_end, is_line_comment};
ghost use Rattle.hcl_layout.specs.Gaps.Kinds.{among, is_inline_comment, is_identifier, ends_operand};
ghost use Rattle.hcl_layout.specs.Gaps.Kinds.{is_equal, is_skipped_by_spacing};
ghost use Rattle.hcl_layout.specs.Gaps.Inner.CodeViews.{is_here_open};
ghost use Rattle.hcl_layout.specs.Gaps.Inner.SpacingFlags.{is_star};

use hcl_token::Kind;

/// Whether a token of this kind is a line end.
pub(crate) fn is_line_end(kind: Kind) -> bool
    ensures { result ≡ is_line_end kind }
{
    matches!(kind, Kind::LineEnd)
}

/// Whether a token of this kind is a comment up to the end of its line.
pub(crate) fn is_line_comment(kind: Kind) -> bool
    ensures { result ≡ is_line_comment kind }
{
    matches!(kind, Kind::LineComment)
}

/// Whether a token of this kind is a comment between `/*` and `*/`.
pub(crate) fn is_inline_comment(kind: Kind) -> bool
    ensures { result ≡ is_inline_comment kind }
{
    matches!(kind, Kind::InlineComment)
}

/// Whether a token of this kind is an identifier.
pub(crate) fn is_identifier(kind: Kind) -> bool
    ensures { result ≡ is_identifier kind }
{
    matches!(kind, Kind::Identifier)
}

/// Whether a token of this kind is `(`.
pub(crate) fn is_open_paren(kind: Kind) -> bool
    ensures { result ≡ among (OpenParen ∷ []) kind }
{
    matches!(kind, Kind::OpenParen)
}

/// Whether a token of this kind is `::`.
pub(crate) fn is_double_colon(kind: Kind) -> bool
    ensures { result ≡ among (DoubleColon ∷ []) kind }
{
    matches!(kind, Kind::DoubleColon)
}

/// Whether a token of this kind is `.`.
pub(crate) fn is_dot(kind: Kind) -> bool
    ensures { result ≡ among (Dot ∷ []) kind }
{
    matches!(kind, Kind::Dot)
}

/// Whether a token of this kind is `.`, or `.` with a number as one token (`.0`).
pub(crate) fn is_dot_or_index(kind: Kind) -> bool
    ensures { result ≡ among (Dot ∷ DotIndex ∷ []) kind }
{
    matches!(kind, Kind::Dot | Kind::DotIndex)
}

/// Whether a token of this kind is `,`.
pub(crate) fn is_comma(kind: Kind) -> bool
    ensures { result ≡ among (Comma ∷ []) kind }
{
    matches!(kind, Kind::Comma)
}

/// Whether a token of this kind is `,` or `...`.
pub(crate) fn is_comma_or_ellipsis(kind: Kind) -> bool
    ensures { result ≡ among (Comma ∷ Ellipsis ∷ []) kind }
{
    matches!(kind, Kind::Comma | Kind::Ellipsis)
}

/// Whether a token of this kind is `[`.
pub(crate) fn is_open_bracket(kind: Kind) -> bool
    ensures { result ≡ among (OpenBracket ∷ []) kind }
{
    matches!(kind, Kind::OpenBracket)
}

/// Whether an index may follow a token of this kind, with no space between.
pub(crate) fn can_be_indexed(kind: Kind) -> bool
    ensures { result
        ≡ among (Identifier ∷ Number ∷ DotIndex ∷ QuoteClose ∷ CloseParen ∷ CloseBracket
        ∷ CloseBrace ∷ []) kind }
{
    matches!(
        kind,
        Kind::Identifier
            | Kind::Number
            | Kind::DotIndex
            | Kind::QuoteClose
            | Kind::CloseParen
            | Kind::CloseBracket
            | Kind::CloseBrace
    )
}

/// Whether a token of this kind ends an operand. The `*` of a splat does too, but not by its kind.
pub(crate) fn ends_operand(kind: Kind) -> bool
    ensures { result ≡ ends_operand kind }
{
    matches!(
        kind,
        Kind::Identifier
            | Kind::Number
            | Kind::DotIndex
            | Kind::QuoteClose
            | Kind::HereClose
            | Kind::CloseParen
            | Kind::CloseBracket
            | Kind::CloseBrace
    )
}

/// Whether a token of this kind is `!`.
pub(crate) fn is_bang(kind: Kind) -> bool
    ensures { result ≡ among (Bang ∷ []) kind }
{
    matches!(kind, Kind::Bang)
}

/// Whether a token of this kind is `-`.
pub(crate) fn is_minus(kind: Kind) -> bool
    ensures { result ≡ among (Minus ∷ []) kind }
{
    matches!(kind, Kind::Minus)
}

/// Whether a token of this kind is `*`.
pub(crate) fn is_star(kind: Kind) -> bool
    ensures { result ≡ is_star kind }
{
    matches!(kind, Kind::Star)
}

/// Whether a token of this kind is `{`.
pub(crate) fn is_open_brace(kind: Kind) -> bool
    ensures { result ≡ among (OpenBrace ∷ []) kind }
{
    matches!(kind, Kind::OpenBrace)
}

/// Whether a token of this kind is `}`.
pub(crate) fn is_close_brace(kind: Kind) -> bool
    ensures { result ≡ among (CloseBrace ∷ []) kind }
{
    matches!(kind, Kind::CloseBrace)
}

/// Whether a token of this kind opens a template sequence: `${` or `%{`.
pub(crate) fn is_sequence_open(kind: Kind) -> bool
    ensures { result ≡ among (InterpOpen ∷ DirectiveOpen ∷ []) kind }
{
    matches!(kind, Kind::InterpOpen | Kind::DirectiveOpen)
}

/// Whether a token of this kind closes a template sequence.
pub(crate) fn is_seq_close(kind: Kind) -> bool
    ensures { result ≡ among (SeqClose ∷ []) kind }
{
    matches!(kind, Kind::SeqClose)
}

/// Whether a token of this kind opens something that begins with no space.
pub(crate) fn opens_tight(kind: Kind) -> bool
    ensures { result ≡ among (OpenParen ∷ OpenBracket ∷ InterpOpen ∷ DirectiveOpen ∷ []) kind }
{
    matches!(
        kind,
        Kind::OpenParen | Kind::OpenBracket | Kind::InterpOpen | Kind::DirectiveOpen
    )
}

/// Whether a token of this kind closes something that ends with no space.
pub(crate) fn closes_tight(kind: Kind) -> bool
    ensures { result ≡ among (CloseParen ∷ CloseBracket ∷ SeqClose ∷ []) kind }
{
    matches!(kind, Kind::CloseParen | Kind::CloseBracket | Kind::SeqClose)
}

/// Whether a token of this kind is `=`.
pub(crate) fn is_equal(kind: Kind) -> bool
    ensures { result ≡ is_equal kind }
{
    matches!(kind, Kind::Equal)
}

/// Whether the spacing ignores a token of this kind when it looks for the tokens before a gap.
pub(crate) fn is_skipped_by_spacing(kind: Kind) -> bool
    ensures { result ≡ is_skipped_by_spacing kind }
{
    matches!(
        kind,
        Kind::LineComment | Kind::InlineComment | Kind::LineEnd | Kind::Mark
    )
}

/// Whether a token of this kind opens a heredoc.
pub(crate) fn is_here_open(kind: Kind) -> bool
    ensures { result ≡ is_here_open kind }
{
    matches!(kind, Kind::HereOpen)
}
