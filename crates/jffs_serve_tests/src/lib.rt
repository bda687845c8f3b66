//! Tests of `jffs_serve`: rounds of serving and cleaning, and what stands after a failed
//! allocation.
#![tactic(auto)]

#[cfg(test)]
mod tests;
