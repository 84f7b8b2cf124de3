//! The rule that is meant by a name that no rule has.

ghost use Rattle.std.specs.Prelude.{◌≡◌, ◌≤◌, ◌↔◌, ◌⊎◌, true, IfOk};
ghost use Rattle.tf_rules.specs.Table.{name_of};
ghost use Rattle.tf_cli.specs.Choices.{distance, is_like_file, IsSimilarRule};

use std::alloc::{AllocError, Global};
use strsim::levenshtein;
use tf_rules::Rule;

/// Returns the first rule whose name is similar to this one, also without `terraform_` before it;
/// none if no rule has such a name.
///
/// # Errors
///
/// `AllocError` if memory runs out.
pub fn similar_rule(alloc: Global, name: &str) -> Result<Option<Rule>, AllocError>
    ensures { IfOk result (λ similar. IsSimilarRule name.now similar) }
{
    let whole = format!(in alloc; "terraform_{name}")?;
    for i in 0..Rule::COUNT {
        let rule = Rule::ALL[i];
        if is_one_similar(alloc, name, whole.as_str(), rule)? {
            return Ok(Some(rule));
        }
    }
    Ok(None)
}

/// Returns whether a name is rather one of a file than of a rule: it has a dot or a slash.
pub fn is_like_file(name: &str) -> bool
    ensures { result ≡ is_like_file name.now }
{
    name.as_bytes().contains(&b'.') || name.as_bytes().contains(&b'/')
}

/// Returns whether one of two names is similar to that of a rule: at most three characters have to
/// be inserted, removed or replaced.
fn is_one_similar(alloc: Global, name: &str, whole: &str, rule: Rule) -> Result<bool, AllocError>
    ensures { IfOk result (λ similar. similar ≡ true
        ↔ (distance name.now (name_of rule) ≤ 3) ⊎ (distance whole.now (name_of rule) ≤ 3)) }
{
    let from_name = levenshtein(alloc, name, rule.name())?;
    let from_whole = levenshtein(alloc, whole, rule.name())?;
    Ok(from_name <= 3 || from_whole <= 3)
}
