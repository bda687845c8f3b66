//! Tests of `jffs_node`: records against the bytes of two written examples, paths, names and data.
#![tactic(auto)]

#[cfg(test)]
mod tests;
