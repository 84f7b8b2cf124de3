//! What all bytes of a text say of its gaps and tokens. For speed alone: the processor tests many
//! bytes of a text at once, and those of a gap or a token one by one.

ghost use Rattle.std.specs.Prelude.{◌≡◌, ◌&&◌, ◌||◌, ◌<◌, Some, length};
ghost use Rattle.hcl_token.specs.TokenizedText.{clusters_of};
ghost use Rattle.hcl_layout.specs.Gaps.Inner.CodeViews.{has_short_tokens, is_plain, is_without_tab};
ghost use Rattle.hcl_layout.specs.Gaps.Inner.CodeViews.{AreSpaces, AreByteClusters};

use hcl_scan::Scanned;

/// Returns whether bytes are ASCII from the space on and LF alone.
fn is_plain(text: &[u8]) -> bool
    ensures { result ≡ is_plain text.now }
{
    // no early end, so that many bytes are tested at once
    let mut plain = true;
    for byte in text {
        plain &= ((32 <= *byte) & (*byte < 128)) | (*byte == 10);
    }
    plain
}

/// Returns whether there is no tab among the bytes.
fn is_without_tab(text: &[u8]) -> bool
    ensures { result ≡ is_without_tab text.now }
{
    // no early end, so that many bytes are tested at once
    let mut none = true;
    for byte in text {
        none &= *byte != 9;
    }
    none
}

/// How many bytes a token has at most, on an average, where the bytes of a text are looked at.
const SHORT: usize = 32;

/// Returns whether a text has many tokens for its length. Else it is nearly all comments or literal
/// text, of which a layout reads few bytes, and its bytes are not all read for this either.
fn has_short_tokens(scanned: &Scanned<'_>) -> bool
    ensures { result ≡ has_short_tokens scanned.now.text scanned.now.pairs }
{
    scanned.text().len() / SHORT <= scanned.len()
}

/// Returns whether a text is ASCII from the space on and LF alone: its gaps are then spaces, since
/// it has no tab, and each byte of its tokens is a cluster.
fn are_bytes_plain(scanned: &Scanned<'_>) -> bool
    ensures value { result ≡ is_plain scanned.now.text }
    ensures spaces { AreSpaces result scanned.now.pairs }
    ensures clusters { AreByteClusters result scanned.now.pairs }
{
    is_plain(scanned.text())
}

/// Returns whether a text with short tokens is ASCII from the space on and LF alone.
pub(crate) fn is_plain_text(scanned: &Scanned<'_>) -> bool
    ensures value { result
        ≡ (has_short_tokens scanned.now.text scanned.now.pairs && is_plain scanned.now.text) }
    ensures spaces { AreSpaces result scanned.now.pairs }
    ensures clusters { AreByteClusters result scanned.now.pairs }
{
    if !has_short_tokens(scanned) {
        return false;
    }
    are_bytes_plain(scanned)
}

/// Returns whether a text has no tab: its gaps are then spaces.
fn has_no_tab(scanned: &Scanned<'_>) -> bool
    ensures value { result ≡ is_without_tab scanned.now.text }
    ensures spaces { AreSpaces result scanned.now.pairs }
{
    is_without_tab(scanned.text())
}

/// Returns whether each gap is known to be spaces; a text with short tokens is read if it is not.
pub(crate) fn are_spaces(scanned: &Scanned<'_>, all_spaces: bool) -> bool
    requires { AreSpaces all_spaces scanned.now.pairs }
    ensures value { result
        ≡ (all_spaces || (has_short_tokens scanned.now.text scanned.now.pairs
        && is_without_tab scanned.now.text)) }
    ensures spaces { AreSpaces result scanned.now.pairs }
{
    if all_spaces {
        return true;
    }
    if !has_short_tokens(scanned) {
        return false;
    }
    has_no_tab(scanned)
}

/// Returns how many clusters token `i` has; the token is not read if each byte is known to be one.
pub(crate) fn cluster_count(scanned: &Scanned<'_>, i: usize, byte_clusters: bool) -> usize
    requires within { i < length scanned.now.pairs }
    requires bytes { AreByteClusters byte_clusters scanned.now.pairs }
    ensures { Some result ≡ clusters_of scanned.now.pairs i }
{
    if byte_clusters {
        return scanned.spelling(i).len();
    }
    scanned.clusters(i)
}
