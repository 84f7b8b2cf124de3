//! Grapheme clusters.

ghost use Rattle.std.specs.Prelude.{◌≡◌, IsUtf8};
ghost use Rattle.hcl_token.specs.Place.{clusters};
ghost use Rattle.hcl_token.specs.Inner.AsciiText.{is_ascii_without_cr};

use unicode_segmentation::UnicodeSegmentation;

/// Whether a text is ASCII without CR, so that each byte is a cluster.
pub(crate) fn is_ascii_without_cr(text: &[u8]) -> bool
    ensures { result ≡ is_ascii_without_cr text.now }
{
    // no early end: the processor does many bytes at once
    let mut ascii = true;
    for byte in text {
        ascii &= (*byte < 128) & (*byte != 13);
    }
    ascii
}

/// Returns the number of extended grapheme clusters of a text.
fn clusters_of_str(text: &str) -> usize
    ensures { result ≡ clusters text.now }
{
    text.graphemes(true).count()
}

/// Returns the number of extended grapheme clusters of a text in UTF-8.
///
/// Unicode Standard Annex #29.
pub fn clusters(text: &[u8]) -> usize
    requires { IsUtf8 text.now }
    ensures { result ≡ clusters text.now }
{
    if is_ascii_without_cr(text) {
        return text.len();
    }
    match str::from_utf8(text) {
        Ok(text) => clusters_of_str(text),
        Err(_) => 0,
    }
}
