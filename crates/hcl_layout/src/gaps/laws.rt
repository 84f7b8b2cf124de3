//! Laws of layouts of any tokens. Each law is the contract of a function that does nothing.

ghost use Rattle.std.specs.Prelude.{◌≡◌, ℕ, List};
ghost use Rattle.hcl_token.specs.Tokens.{Pair};
ghost use Rattle.hcl_scan.specs.Tokenization.{IsTokenization};
ghost use Rattle.hcl_scan.specs.Follows.{tokens_of};
ghost use Rattle.hcl_layout.specs.Gaps.Lines.{Line, lines_of, pairs_in};
ghost use Rattle.hcl_layout.specs.Gaps.Cells.{assignment, closing_comment, aligned};
ghost use Rattle.hcl_layout.specs.Gaps.Columns.{AreAligned, CommentsEndLines};
ghost use Rattle.hcl_layout.specs.Gaps.Layout.{layout_pairs, layout_lines};

use hcl_scan::laws::tokenization_follows_modes;

/// States that the lines of a text have all its tokens, in order.
pub fn lines_have_all_tokens()
    ensures { (pairs : List Pair) → pairs_in (lines_of pairs) ≡ pairs }
{}

/// States that the layout has the tokens of the text, line ends and comments among them.
pub fn keeps_tokens()
    ensures { (pairs : List Pair) → tokens_of (layout_pairs pairs) ≡ tokens_of pairs }
{}

/// States that the layout of a layout is that layout.
pub fn own_layout()
    ensures { (pairs : List Pair) → layout_pairs (layout_pairs pairs) ≡ layout_pairs pairs }
{}

/// States that lines aligned by their assignments, or by their closing comments, have those of
/// consecutive lines in one column.
pub fn cells_in_columns()
    ensures assignments { (lines : List Line) → AreAligned assignment (aligned assignment lines) }
    ensures comments { (lines : List Line)
        → AreAligned closing_comment (aligned closing_comment lines) }
{}

/// States that in the lines of a layout the assignments of consecutive lines begin in one column,
/// and so do their closing comments: to align comments moves no assignment, since a line comment
/// continues to the end of its line.
pub fn layouts_have_columns()
    ensures ends { (text : List ℕ) (pairs : List Pair) (last : List ℕ)
        → IsTokenization text pairs last → CommentsEndLines pairs }
    ensures assignments { (pairs : List Pair)
        → CommentsEndLines pairs → AreAligned assignment (layout_lines (lines_of pairs)) }
    ensures comments { (pairs : List Pair)
        → AreAligned closing_comment (layout_lines (lines_of pairs)) }
{
    tokenization_follows_modes();
}
