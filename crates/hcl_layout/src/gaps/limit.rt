//! Whether the formatted text is within the limit.

ghost use Rattle.std.specs.Prelude.{◌≡◌, ◌≤◌, ◌<◌, ◌*◌, [], length, sum_by, IfOk, IfErr};
ghost use Rattle.hcl_scan.specs.Tokenization.{MAX_TEXT};
ghost use Rattle.hcl_token.specs.Tokens.{whole_text};
ghost use Rattle.hcl_layout.specs.declared.gaps.fault.LayoutFault.TheVariants.{TooLong};
ghost use Rattle.hcl_layout.specs.Gaps.Inner.Stages.{resolved_len, space_count, with_gaps};

use crate::gaps::fault::LayoutFault;
use crate::gaps::gap_numbers::KEEP_GAP;
use hcl_scan::{MAX_TEXT, Scanned};
use hcl_token::Item;

/// Returns the number of bytes of a token with the gap before it that a number means: at most twice
/// 2^32, since each of the two has 32 bits.
fn token_len(item: Item, new: u32) -> usize
    requires gap { item.gap_at ≤ item.start }
    requires token { item.start ≤ item.stop }
    ensures value { result ≡ resolved_len new item }
    ensures bounded { result ≤ 8589934592 }
{
    if new == KEEP_GAP {
        return (item.stop - item.gap_at) as usize;
    }
    new as usize + (item.stop - item.start) as usize
}

/// Returns the number of bytes of the text with its new gaps.
///
/// # Errors
///
/// `TooLong` if and only if they are more than `MAX_TEXT`. It takes no memory, so there is no
/// other.
fn len_within_limit(scanned: &Scanned<'_>, gaps: &[u32]) -> Result<usize, LayoutFault>
    requires { length gaps.now ≡ length scanned.now.pairs }
    ensures len { IfOk result (λ len.
        len ≡ length (whole_text (with_gaps gaps.now scanned.now.pairs) [])) }
    ensures short { IfOk result (λ len. len ≤ MAX_TEXT) }
    ensures err { IfErr result (λ e. (e ≡ TooLong)
        × (MAX_TEXT < length (whole_text (with_gaps gaps.now scanned.now.pairs) []))) }
{
    let mut total = 0;
    for i in 0..scanned.len() {
        total += token_len(scanned.item(i), gaps[i]);
    }
    if total > MAX_TEXT {
        return Err(LayoutFault::TooLong);
    }
    Ok(total)
}

/// Returns how many spaces a number means; none if the gap stays.
fn space_count(new: u32) -> u32
    ensures { result ≡ space_count new }
{
    if new == KEEP_GAP { 0 } else { new }
}

/// Returns how many spaces numbers mean, without those of gaps that stay.
fn total_space_count(gaps: &[u32]) -> usize
    requires { length gaps.now ≤ MAX_TEXT }
    ensures value { result ≡ sum_by space_count gaps.now }
    ensures bounded { result ≤ 4294967295 * MAX_TEXT }
{
    let mut total = 0;
    for new in gaps {
        total += space_count(*new) as usize;
    }
    total
}

/// Returns a capacity for the text with its new gaps. It counts the old gaps too if `MAX_TEXT`
/// allows it, since then it needn't read the tokens.
///
/// # Errors
///
/// `TooLong` if and only if the text has more than `MAX_TEXT` bytes. It takes no memory, so there
/// is no other.
pub(crate) fn capacity_within_limit(
    scanned: &Scanned<'_>,
    gaps: &[u32],
) -> Result<usize, LayoutFault>
    requires { length gaps.now ≡ length scanned.now.pairs }
    ensures short { IfOk result (λ capacity.
        length (whole_text (with_gaps gaps.now scanned.now.pairs) []) ≤ MAX_TEXT) }
    ensures err { IfErr result (λ e. (e ≡ TooLong)
        × (MAX_TEXT < length (whole_text (with_gaps gaps.now scanned.now.pairs) []))) }
{
    let text = scanned.text();
    let most = text.len() + total_space_count(gaps);
    if most <= MAX_TEXT {
        return Ok(most);
    }
    len_within_limit(scanned, gaps)
}
