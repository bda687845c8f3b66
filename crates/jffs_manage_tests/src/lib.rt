//! Tests of `jffs_manage`: calls of `jffs_volume`, each with its status and what it writes.
#![tactic(auto)]

#[cfg(test)]
mod tests;
