//! What holds of the grammar. Each law is the contract of a function that does nothing.

ghost use Rattle.hcl_grammar_laws.specs.Comments.{CommentTextIsIgnored};
ghost use Rattle.hcl_grammar_laws.specs.Glue.{NoGlue};
ghost use Rattle.hcl_grammar_laws.specs.Nesting.{NestingIsMonotone};
ghost use Rattle.hcl_grammar_laws.specs.OneTree.{OneTree};
ghost use Rattle.hcl_grammar_laws.specs.Pure.ParserResults.{FileParserIsExact, MemberParserIsExact};

/// From the same tokens at most one tree is derived.
pub fn one_tree()
    ensures { OneTree }
{}

/// Lists of tokens that differ in what their line comments say, and in nothing else, have the same
/// trees.
pub fn comment_text_is_ignored()
    ensures { CommentTextIsIgnored }
{}

/// What nests no deeper than a number nests no deeper than a greater one.
pub fn nesting_is_monotone()
    ensures { NestingIsMonotone }
{}

/// Where the grammar is followed, `<` is not next to `<`, `.` not next to `.` or a legacy
/// index, nor a number next to a name that begins with `e` or `E`.
pub fn no_glue()
    ensures { NoGlue }
{}

/// For a parser: an answer that is the pure parser's, memory aside, is the tree that is derived, or
/// the error.
pub fn file_parser_is_exact()
    ensures { FileParserIsExact }
{}

/// For a parser: an answer that is the pure parser's at one member of a body, memory aside, is the
/// member there, or the error.
pub fn member_parser_is_exact()
    ensures { MemberParserIsExact }
{}
