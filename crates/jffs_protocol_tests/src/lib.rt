//! Tests of `jffs_protocol`: requests, and what a server that only names them is asked.
#![tactic(auto)]

#[cfg(test)]
mod tests;
