//! How often each version is live in each inode.
//!
//! A `Marks` is a list of counts that a tree keeps besides its inodes: it grows and shrinks with
//! what nodes write and cover, so that no call counts anew. It stands on nothing of ours, and knows
//! versions and inodes as numbers alone. Each call of `Marks` is proved against the sums in
//! `specs/Marks.antt`; that the marks are those of a tree is the matter of the crates above.
#![tactic(auto)]

mod marks;

pub use marks::Marks;
