//! Tests of `jffs_line`: lines that are made, used by threads, and settled.
#![tactic(auto)]

#[cfg(test)]
mod tests;
