//! Tests of `jffs_file`: a device over a store that fails, and one in a file that is opened again.
#![tactic(auto)]

#[cfg(test)]
mod tests;
