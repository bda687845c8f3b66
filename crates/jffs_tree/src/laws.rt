//! Laws over the definitions. The functions do nothing: their contracts are the laws.

ghost use Rattle.std.specs.Prelude.{◌≡◌, []};
ghost use Rattle.jffs_tree.specs.Origin.{tree_of};
ghost use Rattle.jffs_tree.specs.Laws.{TrueCopiesKeepState, ErasingKeepsState, ErasingKeepsTree};
ghost use Rattle.jffs_tree.specs.Laws.{ErasingKeepsOrigins, RulesGiveOrigins, ErasingKeepsRules};
ghost use Rattle.jffs_tree.specs.Laws.{BytesComeFromOrigins, TreesStepByNodes, TreesTestAsNodes};
ghost use Rattle.jffs_tree.specs.Laws.{DecidesByTree, AcceptedCopiesAreTrue, CleaningCopiesAreTrue};
ghost use Rattle.jffs_tree.specs.Done.{DecidedIsDone, NewInodesAreFree};
ghost use Rattle.jffs_tree.specs.Listing.{ListingsAreOne, NamesBegin, NamesFollow};
ghost use Rattle.jffs_tree.specs.Examples.{Overwriting, Truncating, Copying, Removing};
ghost use Rattle.jffs_tree.specs.Examples.{Doing};

/// Without nodes the tree is empty.
pub fn tree_of_none()
    ensures { tree_of [] ≡ [] }
{}

/// Nodes and contents of these wishes are as these examples say.
pub fn examples_are_decided()
    ensures overwriting { Overwriting }
    ensures truncating { Truncating }
    ensures copying { Copying }
    ensures removing { Removing }
    ensures doing { Doing }
{}

/// A copy that says what is so changes nothing.
pub fn true_copies_keep_state()
    ensures { TrueCopiesKeepState }
{}

/// The oldest nodes may go where none of them is live.
pub fn erasing_keeps_tree()
    ensures state { ErasingKeepsState }
    ensures tree { ErasingKeepsTree }
    ensures origins { ErasingKeepsOrigins }
    ensures given { RulesGiveOrigins }
    ensures rules { ErasingKeepsRules }
{}

/// The byte at each offset is the byte of its origin, or 0 where it has none.
pub fn bytes_come_from_origins()
    ensures { BytesComeFromOrigins }
{}

/// The tree of one node more is the tree after that node, so a tree is a fold over its nodes.
pub fn trees_step_by_nodes()
    ensures { TreesStepByNodes }
{}

/// The test of a node on a tree is the test of the node on the tree's nodes.
pub fn trees_test_as_nodes()
    ensures { TreesTestAsNodes }
{}

/// The decision needs no more than the tree, and a copy that it accepts is true.
pub fn decisions_hold()
    ensures by_tree { DecidesByTree }
    ensures copies { AcceptedCopiesAreTrue }
    ensures cleaning { CleaningCopiesAreTrue }
{}

/// The node of a granted wish does to files and directories what the wish asks for, and nothing
/// else; and a new entry has a number that no entry had.
pub fn decided_is_done()
    ensures done { DecidedIsDone }
    ensures free { NewInodesAreFree }
{}

/// Who begins with the first name of a directory, and goes on from each to the first after it, goes
/// through its listing.
pub fn names_follow()
    ensures one { ListingsAreOne }
    ensures begin { NamesBegin }
    ensures follow { NamesFollow }
{}
