//! Where a line of a text begins, without keeping what is open from token to token: a line end is
//! in no opening if as many template sequences were closed before it as were opened, and these are
//! counted by a table.

ghost use Rattle.std.specs.Prelude.{◌≡◌, ◌<◌, ◌≤◌, ◌+◌, ◌-◌, ◌*◌, ◌%◌, ◌^◌, true, length, slice_get};
ghost use Rattle.hcl_rescan.specs.Inner.Sequences.{opens, closes, opened, closed};

use hcl_scan::{Kind, Span};

/// One more than by how much the number of open template sequences grows after a token, by the
/// number of its kind.
static CHANGES: [u64; 44] = [
    1, 1, 1, 1, 1, 1, 1, 1, 1, 1, 1, 1, 1, 1, 1, 1, 1, 1, 1, 1, 1, 1, 1, 1, 1, 1, 1, 1, 1, 1, 1, 1,
    1, 1, 1, 1, 1, 1, 0, 1, 2, 2, 1, 1,
];

/// Returns one more than by how much the number of open template sequences grows after a token of
/// the kind.
#[inline]
fn change(kind: Kind) -> u64
    ensures { result + closes kind ≡ 1 + opens kind }
{
    CHANGES[kind as usize]
}

/// Whether tokens close as many template sequences as they open.
pub(crate) fn close_what_they_open(tokens: &[Span]) -> bool
    ensures { result ≡ true → opened tokens.now ≡ closed tokens.now }
{
    let mut sum: u64 = 0;
    for k in 0..tokens.len() {
        sum = sum.wrapping_add(change(tokens[k].kind()));
    }
    sum == tokens.len() as u64
}

/// Returns the number of the first token from number `from` on that stops after byte `limit`, if
/// the tokens are those of a text.
///
/// The steps of the search grow, so that a short way takes few.
pub(crate) fn first_beyond(tokens: &[Span], from: usize, limit: usize) -> usize
    requires { from ≤ length tokens.now }
    ensures before { from ≤ result }
    ensures within { result ≤ length tokens.now }
{
    let mut low = from;
    let mut high = tokens.len();
    let mut step = 1;
    while low < high {
        let middle = low + step.min((high - low) / 2);
        if tokens[middle].stop() as usize <= limit {
            low = middle + 1;
            step = step.saturating_mul(2);
        } else {
            high = middle;
        }
    }
    low
}
