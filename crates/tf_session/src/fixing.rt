//! What a fix makes of a text.

ghost use Rattle.std.specs.Prelude.{◌≡◌, List, IfOk, IfErr};
ghost use Rattle.tf_lint.specs.FixResult.{fixed_text_or};
ghost use Rattle.edit_record.specs.Lists.Journal.{JournalEntry};
ghost use Rattle.tf_session.specs.Machine.{done};
ghost use Rattle.tf_session.specs.Records.{DoesStep, RefusesStep};
ghost use Rattle.tf_session.specs.Session.{with_records, without_records};
ghost use Rattle.tf_session.specs.declared.command.Command.TheVariants.{Fix};
ghost use Rattle.tf_lint.specs.Remaining.{IsRemaining};

use crate::command::{Done, Fault};
use std::alloc::Global;
use tf_lint::{FixedText, Remaining, fix_without_edits};
use tf_rules::RuleSet;

/// Fixes a text by the rules of the set, as a session with no journal does, but makes no session
/// and keeps no edits. Returns the new text, none if it is the old one; what the fix did; and what
/// the rules find in the new text.
///
/// # Errors
///
/// Those of a fix: `Scan` or `Parse` if the text does not parse, `FixBroken` if the text after a
/// step does not, `TooLong` if it would have more than `MAX_TEXT` bytes; `Memory`.
pub fn fix_alone(
    alloc: Global,
    text: &[u8],
    rules: RuleSet,
) -> Result<(Option<Vec<u8>>, Done, Remaining), Fault>
    ensures done { IfOk result (λ r. (records : List JournalEntry)
        × DoesStep (Fix rules) (without_records text.now) r.1
        (with_records (fixed_text_or text.now r.0) records)) }
    ensures left { IfOk result (λ r. IsRemaining rules (fixed_text_or text.now r.0) r.2) }
    ensures refused { IfErr result
        (λ fault. RefusesStep (Fix rules) (without_records text.now) fault) }
{
    let FixedText {
        text: new,
        fixed,
        left,
    } = fix_without_edits(alloc, text, rules)?;
    let count = left.len();
    let Some(new) = new else {
        return Ok((None, done_of(false, fixed, count), left));
    };
    let changed = new.as_slice() != text;
    Ok((Some(new), done_of(changed, fixed, count), left))
}

/// Fixes a text as [`fix_alone`] does, and returns the new text, or the old one.
///
/// # Errors
///
/// As for [`fix_alone`].
pub fn fix_without_session(
    alloc: Global,
    text: Vec<u8>,
    rules: RuleSet,
) -> Result<(Vec<u8>, Done, Remaining), Fault>
    ensures done { IfOk result (λ r. (records : List JournalEntry)
        × DoesStep (Fix rules) (without_records text.items) r.1 (with_records r.0.items records)) }
    ensures left { IfOk result (λ r. IsRemaining rules r.0.items r.2) }
    ensures refused { IfErr result
        (λ fault. RefusesStep (Fix rules) (without_records text.items) fault) }
{
    let (new, done, left) = fix_alone(alloc, &text, rules)?;
    match new {
        Some(new) => Ok((new, done, left)),
        None => Ok((text, done, left)),
    }
}

/// Returns the reply to a fix, by what it changed, fixed and left.
fn done_of(changed: bool, fixed: usize, left: usize) -> Done
    ensures { result ≡ done changed fixed left }
{
    Done {
        changed,
        fixed,
        left,
    }
}
