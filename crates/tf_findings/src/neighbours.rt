//! Findings that are one place out of order. Most of what is found is in the order of a report but
//! for such pairs: the name of a block is looked at before what the block lacks. Exchanging them
//! makes a few long runs of what a sort would else compare many times.

ghost use Rattle.std.specs.Prelude.{◌≡◌, ◌<◌, ◌+◌, true, length, slice_index_or};
ghost use Rattle.std.specs.List.Sorted.{IsPermutation, IsStable};
ghost use Rattle.std.specs.Ordering.{is_lt};
ghost use Rattle.tf_findings.specs.Order.{report_order};
ghost use Rattle.tf_rules.specs.declared.finding.Finding.{Finding};

use crate::order::order;
use tf_rules::Finding;

/// Whether a finding is before another in a report, and may not be after it.
fn is_before(a: &Finding, b: &Finding) -> bool
    ensures { result ≡ is_lt (report_order a.now b.now) }
{
    order(a, b).is_lt()
}

/// Whether findings `i` and `i + 1`, which are out of order, are two of three and more that fall.
/// Those are left as they are: a sort turns them around as a whole. The answer decides only how
/// long a sort takes, so that no clause states it.
fn is_in_fall(found: &[Finding], i: usize) -> bool
    requires { (0 < i) × (i + 1 < length found.now) }
{
    is_before(&found[i + 1], &found[i - 1])
        || (found.len() - i > 2 && is_before(&found[i + 2], &found[i + 1]))
}

/// Exchanges findings `i` and `i + 1`, which are out of order, if no others beside them fall.
fn exchange_pair(found: &mut [Finding], i: usize)
    requires within { (0 < i) × (i + 1 < length found.old) }
    requires falls { (d : Finding)
        → is_lt (report_order (slice_index_or found.old (i + 1) d) (slice_index_or found.old i d))
        ≡ true }
    ensures permutation { IsPermutation found.old found.new }
    ensures stable { IsStable report_order found.old found.new }
    ensures len { length found.new ≡ length found.old }
{
    if is_in_fall(found, i) {
        return;
    }
    found.swap(i, i + 1);
}

/// Exchanges findings `i` and `i + 1`, if the second is to be before the first and no others beside
/// them fall.
fn exchange_at(found: &mut [Finding], i: usize)
    requires { (0 < i) × (i + 1 < length found.old) }
    ensures permutation { IsPermutation found.old found.new }
    ensures stable { IsStable report_order found.old found.new }
    ensures len { length found.new ≡ length found.old }
{
    if is_before(&found[i + 1], &found[i]) {
        exchange_pair(found, i);
    }
}

/// Exchanges neighbours that are out of order, if no others beside them fall. The first two of all
/// are left to the sort.
pub fn exchange_neighbours(found: &mut [Finding])
    ensures permutation { IsPermutation found.old found.new }
    ensures stable { IsStable report_order found.old found.new }
    ensures len { length found.new ≡ length found.old }
{
    for i in 1..found.len().saturating_sub(1) {
        exchange_at(found, i);
    }
}
