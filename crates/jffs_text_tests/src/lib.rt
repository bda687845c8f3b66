//! Tests of `jffs_text`: the script's grammar at its bounds, what is told of mistakes, and dumps.
#![tactic(auto)]

#[cfg(test)]
mod tests;
