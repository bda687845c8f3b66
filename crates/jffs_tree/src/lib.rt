//! What the file system knows in memory, and every decision that it takes.
//!
//! A `Tree` is what a list of nodes makes: for each inode its kind, parent, name and bytes, and
//! byte by byte the version of the node that wrote it. Besides them it keeps how often each
//! version is live, so that no call walks the inodes for that. `Tree::apply` takes in the next
//! node, `Tree::decide` says which node a wish gets or why it gets none, and the other calls
//! look. Its inodes are those of `jffs_inodes`, its counts those of `jffs_marks`, and it knows
//! nothing of flash, sectors or threads. Each call of `Tree` is proved against the definitions in
//! `specs/`; the laws over those stand in `laws`.
#![tactic(auto)]

mod check;
mod children;
mod cleaning;
mod copy;
mod decide;
mod deciding;
mod fits;
mod laws;
mod look;
mod names;
mod tree;
mod wish;

pub use cleaning::CopySource;
pub use deciding::decided_nodes_keep_rules;
pub use laws::{
    bytes_come_from_origins, decided_is_done, decisions_hold, erasing_keeps_tree,
    examples_are_decided, names_follow, tree_of_none, trees_step_by_nodes, trees_test_as_nodes,
    true_copies_keep_state,
};
pub use tree::Tree;
pub use wish::{Cause, Limits, NewNode, Outcome, Wish};
