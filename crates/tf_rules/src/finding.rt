//! What a rule finds.

ghost use Rattle.std.specs.Prelude.{◌≡◌, ◌++◌, ◌&&◌, ℕ, nat_lt, nat_le, true, OnOk, OnErr};
ghost use Rattle.std.specs.Prelude.{filter, List, ◌∷◌, []};
ghost use Rattle.tf_rules.specs.declared.finding.Finding.{Finding};
ghost use Rattle.tf_rules.specs.Findings.{is_fix_valid, is_fixable, is_valid};
ghost use Rattle.tf_rules.specs.ValidFindings.{IsValidFinding};

use crate::fix::Fix;
use crate::packed::{PackedFix, pack_name};
use crate::rule::Rule;
use std::alloc::AllocError;
use std::marker::Model;

/// What a name stands for.
#[derive(Clone, Copy, Debug)]
pub enum NameKind {
    Resource,
    Data,
    Variable,
    Output,
    Module,
    Local,
}

/// What the message of a finding names beside the words of its rule. An empty name in quotes has no
/// token.
#[derive(Clone, Copy, Debug)]
pub struct Message {
    pub kind: Option<NameKind>,
    pub name: Option<u32>,
}

impl Message {
    /// The words of the rule alone.
    pub const PLAIN: Message = Message {
        kind: None,
        name: None,
    };
}

/// What a rule has found: its tokens, from number `first` to number `past` (exclusive).
///
/// A text may have as many as it has tokens, so it is held in few bytes.
#[derive(Clone, Copy)]
pub struct Finding {
    rule: Rule,
    kind: Option<NameKind>,
    has_name: bool,
    first: u32,
    past: u32,
    /// 0 where there is none.
    name: u32,
    packed_fix: PackedFix,
}

impl Model for Finding {
    ghost use Rattle.tf_rules.specs.FindingModel.{FindingModel};

    ghost Value = { FindingModel };

    ghost use Rattle.std.specs.Prelude.{refl};
    ghost use Rattle.tf_rules.specs.Inner.Unpacking.{unpack_fix, unpack_name, IsCanonicalName, IsCanonical};
    ghost use Rattle.tf_rules.specs.Inner.Packing.{pack_fix, is_named, pack_name};
    ghost use Rattle.tf_rules.specs.Inner.Packing.{fix_round_trip, name_round_trip, has_name_round_trip};

    ghost view = { λ f. record {
      rule = f.rule;
      first = f.first;
      past = f.past;
      message = record { kind = f.kind; name = unpack_name f.has_name f.name };
      fix = unpack_fix f.packed_fix;
    } };

    ghost invariant = { λ f. IsCanonicalName f.has_name f.name × IsCanonical f.packed_fix };

    ghost inverse = { λ v. record {
      rule = v.rule;
      kind = v.message.kind;
      first = v.first;
      past = v.past;
      has_name = is_named v.message.name;
      name = pack_name v.message.name;
      packed_fix = pack_fix v.fix;
    } };

    ghost inverse_ok = { λ f h. rw (
      has_name_round_trip f.has_name f.name,
      name_round_trip f.has_name f.name h.0,
      fix_round_trip f.packed_fix h.1,
    ) refl };
}

/// Whether what a fix keeps is in order and inside of these tokens; so it is without a fix.
fn is_fix_valid(first: u32, past: u32, fix: &Option<Fix>) -> bool
    ensures { result ≡ is_fix_valid first past fix.now }
{
    match fix {
        None => true,
        Some(fix) => fix.is_in_order(first, past),
    }
}

/// Whether a finding of these tokens with this fix is valid in a text that has `count` tokens.
pub fn is_valid_at(count: u32, first: u32, past: u32, fix: &Option<Fix>) -> bool
    ensures { result ≡ (nat_lt first past && (nat_le past count && is_fix_valid first past fix.now)) }
{
    first < past && past <= count && is_fix_valid(first, past, fix)
}

impl Finding {
    /// Creates a finding.
    #[inline]
    pub fn new(rule: Rule, first: u32, past: u32, message: Message, fix: Option<Fix>) -> Finding
        ensures { result ≡ record {
          rule = rule;
          first = first;
          past = past;
          message = message;
          fix = fix;
        } }
    {
        let name = pack_name(message.name);
        let packed_fix = PackedFix::of(fix);
        Finding {
            rule,
            kind: message.kind,
            has_name: message.name.is_some(),
            first,
            past,
            name,
            packed_fix,
        }
    }

    /// Returns the rule whose finding it is.
    #[inline]
    pub fn rule(&self) -> Rule
        ensures { result ≡ self.now.rule }
    {
        self.rule
    }

    /// Returns the number of its first token, from 0.
    #[inline]
    pub fn first(&self) -> u32
        ensures { result ≡ self.now.first }
    {
        self.first
    }

    /// Returns the number of the token after its last, from 0.
    #[inline]
    pub fn past(&self) -> u32
        ensures { result ≡ self.now.past }
    {
        self.past
    }

    /// Returns its message.
    pub fn message(&self) -> Message
        ensures { result ≡ self.now.message }
    {
        let name = if self.has_name { Some(self.name) } else { None };
        Message {
            kind: self.kind,
            name,
        }
    }

    /// Returns its fix, or `None` if it has none.
    pub fn fix(&self) -> Option<Fix>
        ensures { result ≡ self.now.fix }
    {
        self.packed_fix.fix()
    }

    /// Whether it has a fix.
    #[inline]
    pub fn is_fixable(&self) -> bool
        ensures { result ≡ is_fixable self.now.fix }
    {
        self.packed_fix.is_fix()
    }

    /// Whether its tokens are tokens of a text that has `count`, and what its fix keeps is in order
    /// and inside of them.
    pub fn is_valid(&self, count: u32) -> bool
        ensures { result ≡ is_valid count self.now }
    {
        is_valid_at(count, self.first(), self.past(), &self.fix())
    }
}

/// Adds a finding to those in a text that has `count` tokens, if it is valid there; each finding in
/// the text's own tree is.
///
/// # Errors
///
/// Returns `AllocError` if memory runs out; then nothing is added.
pub fn add_finding(found: &mut Vec<Finding>, count: u32, finding: Finding) -> Result<(), AllocError>
    ensures added { OnOk result
        (found.new.items ≡ found.old.items ++ filter (is_valid count) (finding ∷ [])) }
    ensures kept { OnErr result (found.new.items ≡ found.old.items) }
{
    if finding.is_valid(count) {
        found.push(finding)?;
    }
    Ok(())
}

/// A finding passes the test of `Finding::is_valid` if and only if it is valid.
pub fn is_valid_is_exact()
    ensures valid { (count : ℕ) (finding : Finding) → is_valid count finding ≡ true
        → IsValidFinding count finding }
    ensures passes { (count : ℕ) (finding : Finding) → IsValidFinding count finding
        → is_valid count finding ≡ true }
{}
