//! The bytes of a name 16 at a time, for speed alone: `is_valid_rest` says the same byte by byte.

ghost use Rattle.std.specs.Prelude.{◌≡◌, ◌≤◌, ◌+◌, ◌-◌, ◌==◌, true, drop, length, slice_index};
ghost use Rattle.tf_rules.specs.Inner.SnakeCaseRest.{is_valid_next, is_valid_rest, AreValid};
ghost use Rattle.tf_rules.specs.declared.snake_units.TheConstants.{UNIT};

/// How many bytes are looked at together.
const UNIT: usize = 16;

/// Returns whether a byte may come next in a name, after an underscore or not. All is looked at, so
/// that there is no jump.
#[inline(always)]
fn is_valid_next(after_underscore: bool, c: u8) -> bool
    ensures { result ≡ is_valid_next after_underscore c }
{
    ((c >= b'a') & (c <= b'z')) | ((c >= b'0') & (c <= b'9')) | ((c == b'_') & !after_underscore)
}

/// Returns whether each of the bytes of a unit may come after the one before it. No early end: the
/// processor looks at all of them at once.
#[inline(always)]
fn is_valid_unit(name: &[u8], at: usize) -> bool
    requires later { 1 ≤ at }
    requires within { at + UNIT ≤ length name.now }
    ensures { result ≡ true → AreValid name.now at (at + UNIT) }
{
    let mut is_valid = true;
    for i in 0..UNIT {
        is_valid &= is_valid_next(name[at + i - 1] == b'_', name[at + i]);
    }
    is_valid
}

/// Passes units of bytes that may come one after the other. Returns a place with a byte before it.
#[inline(always)]
fn past_whole_units(name: &[u8]) -> usize
    requires { 1 ≤ length name.now }
    ensures later { 1 ≤ result }
    ensures within { result ≤ length name.now }
    ensures valid { AreValid name.now 1 result }
{
    let mut at = 1;
    // for the proof: the label names the loop's invariant
    'units: while name.len() - at >= UNIT {
        if !is_valid_unit(name, at) {
            return at;
        }
        at += UNIT;
    }
    at
}

/// Passes bytes that may come one after the other, as many as units show: the last unit ends with
/// the name, so that it may overlap the one before. Returns a place with a byte before it.
pub fn past_units(name: &[u8]) -> usize
    requires { 1 ≤ length name.now }
    ensures later { 1 ≤ result }
    ensures within { result ≤ length name.now }
    ensures rest { is_valid_rest (slice_index name.now (result - 1) == 95) (drop result name.now)
        ≡ is_valid_rest (slice_index name.now 0 == 95) (drop 1 name.now) }
{
    let at = past_whole_units(name);
    let count = name.len();
    if count > UNIT && count - at < UNIT && is_valid_unit(name, count - UNIT) {
        return count;
    }
    at
}
