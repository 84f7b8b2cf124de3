//! What a walk knows at a node.

use tf_rules::{LintContext, Unbroken};

/// A search, and tokens of its text that are known to have no line end among them.
#[derive(Clone, Copy)]
pub struct WalkContext<'s, 't> {
    pub lint: LintContext<'s, 't>,
    pub unbroken: Unbroken,
}
