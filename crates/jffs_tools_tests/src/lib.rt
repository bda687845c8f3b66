//! Tests of `jffs_tools`: replays and images, against the rules and against streams that fail.
#![tactic(auto)]

#[cfg(test)]
mod tests;
