//! Tests of `jffs_tree`: wishes one by one on a tree, look-ups, and how often a version is live.
#![tactic(auto)]

#[cfg(test)]
mod tests;
