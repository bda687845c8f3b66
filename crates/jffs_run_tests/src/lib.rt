//! Tests of `jffs_run` and `jffs_program`: scripts from their text to the lines that are printed.
#![tactic(auto)]

#[cfg(test)]
mod tests;
