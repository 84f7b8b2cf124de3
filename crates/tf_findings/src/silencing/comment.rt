//! What a comment silences.

ghost use Rattle.std.specs.Prelude.{◌≡◌, ◌==◌, ◌&&◌, ◌||◌, ◌<◌, ◌≤◌, ◌+◌, ℕ, List, false, length, take, drop};
ghost use Rattle.std.specs.Prelude.{codes};
ghost use Rattle.std.specs.List.{list_all, list_any};
ghost use Rattle.std.specs.Str.{bytes_eq};
ghost use Rattle.tf_rules.specs.declared.rule.Rule.{Rule};
ghost use Rattle.tf_rules.specs.RuleSets.{has_rule};
ghost use Rattle.hcl_token.specs.Kinds.{is_line_comment, is_comment};
ghost use Rattle.tf_findings.specs.Comments.{comment_body, silences};
ghost use Rattle.tf_findings.specs.Inner.Annotations.{option_has};
ghost use Rattle.tf_findings.specs.Inner.ByteCounts.{skip_whitespace, is_all_whitespace, ends_in_whitespace};
ghost use Rattle.tf_findings.specs.Inner.ByteCounts.{split_commas, leading_name, is_name, names_rule};
ghost use Rattle.tf_findings.specs.Inner.ByteCounts.{list_names, body_silences};

use crate::silencing::class::{ByteClass, class_prefix_len, is_in_class};
use hcl_token::Kind;
use tf_rules::RuleSet;

/// Returns the text without the spaces and tabs that it begins with.
fn skip_whitespace(t: &[u8]) -> &[u8]
    ensures { result.now ≡ skip_whitespace t.now }
{
    &t[class_prefix_len(ByteClass::Whitespace, t)..]
}

/// Whether a part has spaces and tabs alone, or nothing.
fn is_all_whitespace(t: &[u8]) -> bool
    ensures { result ≡ is_all_whitespace t.now }
{
    class_prefix_len(ByteClass::Whitespace, t) == t.len()
}

/// Whether a part ends in a space or a tab.
fn ends_in_whitespace(t: &[u8]) -> bool
    ensures { result ≡ ends_in_whitespace t.now }
{
    !t.is_empty() && is_in_class(ByteClass::Whitespace, t[t.len() - 1])
}

/// Returns the name that a part begins with, after whitespace.
fn leading_name(part: &[u8]) -> &[u8]
    ensures { result.now ≡ leading_name part.now }
{
    let trimmed = skip_whitespace(part);
    &trimmed[..class_prefix_len(ByteClass::NameByte, trimmed)]
}

/// Whether a part is one name, with or without whitespace around it.
fn is_name(part: &[u8]) -> bool
    ensures { result ≡ is_name part.now }
{
    let trimmed = skip_whitespace(part);
    let n = class_prefix_len(ByteClass::NameByte, trimmed);
    n > 0 && is_all_whitespace(&trimmed[n..])
}

/// Whether a name is `all`, which means every rule.
fn is_all(name: &[u8]) -> bool
    ensures { result ≡ bytes_eq name.now (codes "all") }
{
    name == b"all".as_slice()
}

/// Returns the rules that a part names: all of them for `all`, and none for an unknown name.
fn item_rules(part: &[u8]) -> RuleSet
    ensures { (rule : Rule) → has_rule result rule ≡ names_rule rule part.now }
{
    let name = leading_name(part);
    if is_all(name) {
        return RuleSet::all();
    }
    RuleSet::from_name(name)
}

/// Returns the rules that are named between commas, or `None` if one of the parts is not a name.
fn listed_rules(t: &[u8]) -> Option<RuleSet>
    ensures { (rule : Rule)
        → option_has result rule
        ≡ (list_all is_name (split_commas t.now) && list_any (names_rule rule) (split_commas t.now)) }
{
    let mut rest = t;
    let mut rules = RuleSet::none();
    loop {
        let n = class_prefix_len(ByteClass::NotComma, rest);
        let part = first_bytes(rest, n);
        if !is_name(part) {
            return None;
        }
        rules = rules.union(item_rules(part));
        if n >= rest.len() {
            return Some(rules);
        }
        rest = after_separator(rest, n);
    }
}

/// Returns the first `n` bytes.
fn first_bytes(t: &[u8], n: usize) -> &[u8]
    requires { n ≤ length t.now }
    ensures { result.now ≡ take n t.now }
{
    &t[..n]
}

/// Returns the text after the byte that follows the first `n`.
fn after_separator(t: &[u8], n: usize) -> &[u8]
    requires { n < length t.now }
    ensures value { result.now ≡ drop (n + 1) t.now }
    ensures less { length result.now < length t.now }
{
    &t[n + 1..]
}

/// Returns the rules of the list after `tflint-ignore:`, up to the reason after `#`, if there is
/// one, or `None` if a part of the list is not a name, or no whitespace is before the `#`.
fn list_rules(t: &[u8]) -> Option<RuleSet>
    ensures { (rule : Rule) → option_has result rule ≡ list_names rule t.now }
{
    let n = class_prefix_len(ByteClass::NotHash, t);
    let listing = first_bytes(t, n);
    if n == t.len() || ends_in_whitespace(listing) {
        return listed_rules(listing);
    }
    None
}

/// Returns the rules that a comment silences, by its text without what opens and closes it, or
/// `None` if no valid list after `tflint-ignore:` is in it.
fn body_rules(t: &[u8]) -> Option<RuleSet>
    ensures { (rule : Rule) → option_has result rule ≡ body_silences rule t.now }
{
    match skip_whitespace(t).strip_prefix(b"tflint-ignore:".as_slice()) {
        Some(rest) => list_rules(rest),
        None => None,
    }
}

/// Returns a comment without what opens and closes it, or no bytes for another token.
fn comment_body(kind: Kind, spelling: &[u8]) -> &[u8]
    ensures { result.now ≡ comment_body kind spelling.now }
{
    match kind {
        Kind::LineComment => {
            if !spelling.is_empty() && spelling[0] == b'#' {
                return &spelling[1..];
            }
            &spelling[spelling.len().min(2)..]
        }
        Kind::InlineComment => {
            if spelling.len() < 4 {
                return b"";
            }
            &spelling[2..spelling.len() - 2]
        }
        _ => b"",
    }
}

/// Whether a token of the kind is a comment: no other can silence anything.
pub fn is_comment(kind: Kind) -> bool
    ensures value { result ≡ is_comment kind }
    ensures silences_none { (spelling : List ℕ) (rule : Rule) → result ≡ false
        → silences kind spelling rule ≡ false }
    ensures other { result ≡ false → is_line_comment kind ≡ false }
{
    matches!(kind, Kind::LineComment | Kind::InlineComment)
}

/// Returns the rules that a token silences, or `None` if it is not a comment with a valid list
/// after `tflint-ignore:`. A list of unknown names alone silences no rule.
pub fn silenced_rules(kind: Kind, spelling: &[u8]) -> Option<RuleSet>
    ensures { (rule : Rule) → option_has result rule ≡ silences kind spelling.now rule }
{
    body_rules(comment_body(kind, spelling))
}

/// Whether a token is a comment with a valid list after `tflint-ignore:`: no other can silence
/// anything.
pub fn silences_any(kind: Kind, spelling: &[u8]) -> bool
    ensures { (rule : Rule) → result ≡ false → silences kind spelling.now rule ≡ false }
{
    match silenced_rules(kind, spelling) {
        None => false,
        Some(_) => true,
    }
}
