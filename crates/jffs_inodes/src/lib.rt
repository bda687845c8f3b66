//! What is kept of each inode: its kind, parent and name, its bytes as the fragments that nodes
//! wrote, and the marks of both.
//!
//! `Inodes` finds an inode by its number, and an `Inode` reads its bytes and says who wrote them.
//! `write_marked` carries the promise: it writes a node over its inode as `held_after` in
//! `specs/Held.antt` has it, and the marks stay those of all inodes. It stands on `jffs_node` and
//! `jffs_marks`, and knows nothing of paths, wishes, or which nodes came before.
#![tactic(auto)]

mod fragment;
mod fragment_map;
mod inode;
mod inodes;
mod leaving;
mod piece;
mod writing;

pub use inode::Inode;
pub use inodes::Inodes;
pub use writing::write_marked;
