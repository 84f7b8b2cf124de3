//! A text with its tokens and its tree.

use hcl_grammar::tree::Tree;
use hcl_scan::Scanned;

/// A text that parses: its tokens, and the tree over them.
#[derive(Drop)]
pub struct Parsed<'t> {
    pub scanned: Scanned<'t>,
    pub tree: Tree,
}
