//! The gaps of a text as numbers of 32 bits, one for each token. For speed alone: the gaps
//! themselves, as texts, say the same, and take many times the memory.

ghost use Rattle.std.specs.Prelude.{◌≡◌, ◌<◌, Some, length, option_map, replicate, slice_get, IfOk};
ghost use Rattle.hcl_token.specs.Tokens.{Pair};
ghost use Rattle.hcl_layout.specs.Gaps.Inner.Stages.{KEEP_GAP, with_gaps};

use hcl_scan::Scanned;
use std::alloc::{AllocError, Global};

/// The number of a gap that stays as it is; any other is the number of spaces of a gap.
pub(crate) const KEEP_GAP: u32 = u32::MAX;

/// Returns a number for each token, by which all gaps stay.
pub(crate) fn kept_gaps(alloc: Global, scanned: &Scanned<'_>) -> Result<Vec<u32>, AllocError>
    ensures { IfOk result (λ gaps. gaps.items ≡ replicate (length scanned.now.pairs) KEEP_GAP) }
{
    vec![in alloc; KEEP_GAP; scanned.len()]
}

/// Returns the number of bytes of the gap before token `i`, as it is set up to here.
pub(crate) fn current_gap_len(scanned: &Scanned<'_>, gaps: &[u32], i: usize) -> usize
    requires same { length gaps.now ≡ length scanned.now.pairs }
    requires within { i < length scanned.now.pairs }
    ensures { Some result
        ≡ option_map (λ (p : Pair). length p.gap)
        (slice_get (with_gaps gaps.now scanned.now.pairs) i) }
{
    let len = gaps[i];
    if len == KEEP_GAP {
        return scanned.gap(i).len();
    }
    len as usize
}
