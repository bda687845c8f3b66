//! Tests of `jffs_flash`: each call through the bound `Flash`, and what a device that fails leaves.
#![tactic(auto)]

#[cfg(test)]
mod dooming_tests;
#[cfg(test)]
mod tests;
