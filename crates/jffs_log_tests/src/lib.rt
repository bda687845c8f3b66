//! Tests of `jffs_log`: what a scan finds, what is saved of images that it refuses, the log on
//! devices that work or fail, and what is found once an erase was cut off or a bit went wrong.
#![tactic(auto)]

#[cfg(test)]
mod cut_erases;
#[cfg(test)]
mod cut_states;
#[cfg(test)]
mod erases_run;
#[cfg(test)]
mod flipped_bits;
#[cfg(test)]
mod salvage_tests;
#[cfg(test)]
mod scan_tests;
#[cfg(test)]
mod tests;
