//! Tests of `jffs_session`: what an owner asks, puts, and what is left where that is stopped.
#![tactic(auto)]

#[cfg(test)]
mod tests;
