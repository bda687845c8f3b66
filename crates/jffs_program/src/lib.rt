//! What the program `jffs` does: it reads a script, runs it, and prints what became of it.
//!
//! `run_called` does what the words of a call ask for; `run_program` and `run_program_on_file` are
//! the program over any input and output, on a volume in memory and on one in a file.
//! `print_answers` and its neighbours write the lines of answers, readers and the end. It stands on
//! `jffs_run`, whose `run_threads` carries the promise, and on `jffs_file` for the volume's file.
#![tactic(auto)]

mod ending;
mod printing;
mod program;
mod reading;

pub use printing::{print_answers, print_ending, print_readers};
pub use program::{run_called, run_program, run_program_on_file};
