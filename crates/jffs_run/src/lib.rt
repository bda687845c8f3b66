//! A run of a script in threads.
//!
//! `run_threads` starts a thread for the log, one for each writer and each reader, and one for the
//! cleaner where the script asks for it, and joins them all; its contract is the headline. The
//! functions of `laws` say what follows from it. It stands on `jffs_text` for scripts, on
//! `jffs_line` and `jffs_index` for what flows between the threads, and on `jffs_serve` for the
//! log's side.
#![tactic(auto)]

mod cleaner;
mod crew;
mod fault;
mod joining;
mod laws;
mod log_thread;
mod outcome;
mod promise;
mod reader;
mod run;
mod signals;
mod starting;
mod threads;
mod writer;

pub use fault::{RunFault, RunWhy};
pub use jffs_serve::Served;
pub use jffs_text::{DumpFault, Script, ScriptFault, ScriptWhy, dump};
pub use laws::{
    answers_are_durable, failed_stays_failed, granted_is_done, no_space_means_no_room,
    readers_see_answers, runs_end_unmounted, runs_have_room, runs_leave_contents, runs_wear_evenly,
    runs_without_faults, runs_work_little, sessions_are_done, space_is_sure,
};
pub use outcome::{AcceptedBy, Run};
pub use reader::ReaderEnd;
pub use run::run_threads;
pub use writer::{Gate, NoGate};
