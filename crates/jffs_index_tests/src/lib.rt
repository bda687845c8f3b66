//! Tests of `jffs_index`: what readers see of what was published, and when memory fails.
#![tactic(auto)]

#[cfg(test)]
mod tests;
