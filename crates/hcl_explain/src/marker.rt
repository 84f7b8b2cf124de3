//! A line that git writes into a file where a merge has a conflict.

ghost use Rattle.std.specs.Prelude.{◌≡◌, ◌==◌};
ghost use Rattle.std.specs.List.{prefix_len};
ghost use Rattle.hcl_explain.specs.Lines as spec;

/// How many signs such a line begins with.
const MARKER_LEN: usize = 7;

/// Whether a text begins with the signs of such a line.
pub fn is_conflict_marker(line: &[u8]) -> bool
    ensures { result ≡ spec.is_conflict_marker line.now }
{
    match line {
        [first, ..] => is_sign(*first) && repeated(line, *first) == MARKER_LEN,
        [] => false,
    }
}

fn is_sign(b: u8) -> bool
    ensures { result ≡ spec.is_marker_sign b }
{
    (b == b'<') | (b == b'|') | (b == b'=') | (b == b'>')
}

/// Returns how many times a text has this byte at its start.
fn repeated(text: &[u8], byte: u8) -> usize
    ensures { result ≡ prefix_len (λ b. b == byte) text.now }
{
    let mut at = 0usize;
    while at < text.len() && text[at] == byte {
        at += 1;
    }
    at
}
