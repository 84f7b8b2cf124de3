//! Laws of layouts of texts. Each law is the contract of a function that does nothing.

ghost use Rattle.hcl_layout.specs.LayoutLaws.{LayoutFits, LayoutTokenizes, LaidOutIsText, OneLayout};
ghost use Rattle.hcl_layout.specs.LayoutLaws.{LayoutParses, LayoutKeepsTokens, LayoutIsLaidOut};
ghost use Rattle.hcl_layout.specs.LayoutLaws.{LayoutOfLayout};

/// States that the gaps of a layout are allowed between the tokens, and none is empty between two
/// that join.
pub fn layout_fits()
    ensures { LayoutFits }
{
    hcl_scan::laws::tokenization_follows_modes();
    hcl_scan::laws::gaps_of();
    crate::gaps::laws::lines_have_all_tokens();
}

/// States that a layout within the limit is tokenized into the same tokens, with the gaps of the
/// layout.
pub fn layout_tokenizes()
    ensures { LayoutTokenizes }
{
    layout_fits();
    hcl_scan::laws::tokenization_follows_modes();
    hcl_scan::laws::other_gaps();
    hcl_scan::laws::writes_back();
    crate::gaps::laws::keeps_tokens();
}

/// States that the gaps are those of the layout if and only if the layout is the text.
pub fn laid_out_is_text()
    ensures { LaidOutIsText }
{
    layout_tokenizes();
    hcl_scan::laws::one_tokenization();
}

/// States that a text has one layout at most.
pub fn one_layout()
    ensures { OneLayout }
{
    hcl_scan::laws::one_tokenization();
}

/// States that the layout of a text that parses, if it is within the limit, parses to the same
/// tree.
pub fn layout_parses()
    ensures { LayoutParses }
{
    layout_tokenizes();
    hcl_scan::laws::one_tokenization();
    crate::gaps::laws::keeps_tokens();
    hcl_text_laws::laws::parsed_tokens_are_apart();
}

/// States that the layout of a text that parses, if it is within the limit, has the same tokens.
pub fn layout_keeps_tokens()
    ensures { LayoutKeepsTokens }
{
    layout_tokenizes();
    hcl_scan::laws::one_tokenization();
    crate::gaps::laws::keeps_tokens();
    hcl_text_laws::laws::parsed_tokens_are_apart();
}

/// States that the layout of a text that parses, if it is within the limit, is its own layout.
pub fn layout_is_laid_out()
    ensures { LayoutIsLaidOut }
{
    layout_tokenizes();
    hcl_scan::laws::one_tokenization();
    crate::gaps::laws::own_layout();
    hcl_text_laws::laws::parsed_tokens_are_apart();
}

/// States that to format such a layout again changes nothing.
pub fn layout_of_layout()
    ensures { LayoutOfLayout }
{
    layout_is_laid_out();
    one_layout();
}
