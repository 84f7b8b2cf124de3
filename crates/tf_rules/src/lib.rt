//! The rules, sets of rules, findings as data, and what each rule finds, at the nodes of a syntax
//! tree, at top-level blocks and at comments: a module a rule in `rules`.
#![tactic(auto)]

mod attributes;
mod context;
mod finding;
mod fix;
mod packed;
mod role;
mod rule;
mod rule_set;
mod rules;
mod snake_case;
mod snake_units;
mod spelling;
mod summary;
mod trivia;
mod unbroken;

pub use context::LintContext;
pub use finding::{Finding, Message, NameKind, add_finding, is_valid_is_exact};
pub use fix::{Fix, Insertion, KeptTokens};
pub use role::Role;
pub use rule::{Rule, RuleInfo, Severity};
pub use rule_set::RuleSet;
pub use rules::comment_syntax::check_comment;
pub use rules::{
    add_top_level_findings, add_top_level_member_findings, check_expr, check_tail,
    check_term_beyond, may_find_at_call, may_find_at_operand, may_find_at_quoted,
};
pub use snake_case::is_snake_case;
pub use spelling::{is_spelled, name_text, token_text};
pub use summary::{Count, Pieces, Value};
pub use unbroken::Unbroken;
