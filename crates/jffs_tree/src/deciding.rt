//! Laws over decisions. The functions do nothing: their contracts are the laws.

ghost use Rattle.jffs_tree.specs.Deciding.{DecidedNodesKeepRules, CleaningCopiesKeepRules};

/// A decided node is lawful and keeps the rules of a tree, and so does the copy that cleaning
/// makes:
/// whoever appends such nodes alone to a lawful log keeps it lawful. What is asked of the wish,
/// `Tree::decide` says of each.
pub fn decided_nodes_keep_rules()
    ensures decided { DecidedNodesKeepRules }
    ensures cleaning { CleaningCopiesKeepRules }
{}
