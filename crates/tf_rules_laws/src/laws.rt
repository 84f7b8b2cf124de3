//! What holds of what the rules find. Each law is the contract of a function that does nothing.

ghost use Rattle.tf_rules_laws.specs.NodeSpans.{NodesSpanTheirTokens};
ghost use Rattle.tf_rules_laws.specs.Payload.{ChildrenAreComplete, PreorderDeterminesTree};
ghost use Rattle.tf_rules_laws.specs.NothingDropped.{NoFindingIsDropped};
ghost use Rattle.tf_rules_laws.specs.LegacyIndices.{LegacyIndicesAreAll, LegacyIndicesAreTokens};
ghost use Rattle.tf_rules_laws.specs.Roles.{RolesAreRight};
ghost use Rattle.tf_rules_laws.specs.OneRule.{FindingsOfOneRule, FindingsMatchTheirRule};
ghost use Rattle.tf_rules_laws.specs.MembersKeep.{UnchangedMembersKeepFindings};

/// A node is determined by its own data and its children: the list of children leaves none out.
pub fn children_are_complete()
    ensures { ChildrenAreComplete }
{}

/// The nodes of a tree determine it, each by what it has of its own and by how many children it
/// has: nothing of a tree is left out of the list of them.
pub fn preorder_determines_tree()
    ensures { PreorderDeterminesTree }
{}

/// The tree of a list of tokens has a list of all its nodes, and each is derived by the tokens from
/// its `first` up to its `past`; so are the bodies, labels and templates, what begins a `for` and
/// the attribute of a block on one line, which are no nodes. A tail, a literal and an interpolation
/// have no such numbers: some of the tokens derive each.
pub fn nodes_span_their_tokens()
    ensures { NodesSpanTheirTokens }
{}

/// The expressions and terms in a node have the roles that they have in the syntax tree, and no
/// other: the whole value of an attribute, an element of a tuple, a key, and so on; and a tail says
/// whether `.*` precedes it, with only names and legacy indices in between.
pub fn roles_are_right()
    ensures { RolesAreRight }
{}

/// In a text that parses, each legacy index that the rules visit has the number of a token of that
/// kind.
pub fn legacy_indices_are_tokens()
    ensures { LegacyIndicesAreTokens }
{
    tf_findings::laws::preorder_is_unique();
}

/// In a text that parses, the legacy indices among its tokens are those that the rules visit, each
/// once and in order.
pub fn legacy_indices_are_all()
    ensures { LegacyIndicesAreAll }
{
    tf_findings::laws::preorder_is_unique();
}

/// Over a text that parses, what the rules find is all that they name: the test of a finding's
/// numbers drops none.
pub fn no_finding_is_dropped()
    ensures { NoFindingIsDropped }
{
    tf_findings::laws::preorder_is_unique();
}

/// What one rule of a set finds is what is of that rule in what the set finds.
pub fn findings_of_one_rule()
    ensures { FindingsOfOneRule }
{}

/// What a rule by itself finds is of that rule: the rule on comments finds comments that begin with
/// `//`, and no other rule does; and if a finding of a rule has a fix, the rule has a step in a
/// fix.
pub fn findings_match_their_rule()
    ensures { FindingsMatchTheirRule }
{}

/// A member whose tokens are also elsewhere is a member there, and what the rules find in it is the
/// same, with its numbers moved.
pub fn unchanged_members_keep_findings()
    ensures { UnchangedMembersKeepFindings }
{}
