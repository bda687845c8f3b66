//! Tests of `jffs_core`: requests on a core, without threads: rows, sweeps over faults, work and
//! wear.
#![tactic(auto)]

#[cfg(test)]
mod tests;
