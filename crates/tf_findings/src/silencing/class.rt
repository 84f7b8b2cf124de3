//! Classes of bytes in a comment.

ghost use Rattle.std.specs.Prelude.{◌≡◌, ◌≤◌, length};
ghost use Rattle.tf_findings.specs.Inner.ByteCounts.{is_in_class, class_prefix_len};

/// A class of bytes.
#[derive(Clone, Copy)]
pub enum ByteClass {
    /// A space or a tab.
    Whitespace,
    /// An ASCII letter, a digit, `_` or `-`.
    NameByte,
    /// Anything but a comma.
    NotComma,
    /// Anything but `#`.
    NotHash,
}

/// Whether a byte is of the class.
pub fn is_in_class(class: ByteClass, b: u8) -> bool
    ensures { result ≡ is_in_class class b }
{
    match class {
        ByteClass::Whitespace => b == b' ' || b == b'\t',
        ByteClass::NameByte => (b >= b'a' && b <= b'z')
            || ((b >= b'A' && b <= b'Z') || ((b >= b'0' && b <= b'9') || (b == b'_' || b == b'-'))),
        ByteClass::NotComma => !(b == b','),
        ByteClass::NotHash => !(b == b'#'),
    }
}

/// Returns how many bytes at the start are of the class.
pub fn class_prefix_len(class: ByteClass, t: &[u8]) -> usize
    ensures value { result ≡ class_prefix_len class t.now }
    ensures within { result ≤ length t.now }
{
    let mut n = 0;
    for b in t {
        if !is_in_class(class, *b) {
            return n;
        }
        n += 1;
    }
    n
}
