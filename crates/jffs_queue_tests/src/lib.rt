//! Tests of `jffs_queue`: what waits, what reads see of it, and what a caller's medium then holds.
#![tactic(auto)]

#[cfg(test)]
mod tests;
