//! How much a text may nest.

/// How deep constructs may be nested. `specs/Grammar` says which constructs nest.
pub const MAX_NESTING: usize = 100;
