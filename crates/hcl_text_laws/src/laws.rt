//! What holds of texts that parse. Each law is the contract of a function that does nothing.

ghost use Rattle.hcl_text_laws.specs.Parses.{OneParse, ParsedTokensAreApart, OtherGapsParse};

/// A text has one tree at most.
pub fn one_parse()
    ensures { OneParse }
{
    hcl_scan::laws::one_tokenization();
    hcl_grammar_laws::laws::one_tree();
}

/// A text that parses has no empty gap between two tokens that join.
pub fn parsed_tokens_are_apart()
    ensures { ParsedTokensAreApart }
{
    hcl_grammar_laws::laws::no_glue();
}

/// The same tokens with other gaps that are allowed between them parse to the same tree.
pub fn other_gaps_parse()
    ensures { OtherGapsParse }
{
    hcl_scan::laws::tokenization_follows_modes();
    hcl_scan::laws::other_gaps();
    hcl_scan::laws::writes_back();
}
