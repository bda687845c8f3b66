//! Serving: the log side takes requests from a line, answers them and publishes each answer, and a
//! cleaner asks for copies of what still lives in the oldest sector.
//!
//! It stands on `jffs_core` for answers, on `jffs_line` for requests, and on `jffs_index` for what
//! readers see. `serve` carries the promise: each request that is taken is answered once, in the
//! order in which it was taken, and each answer is published, also where memory is refused on the
//! way.
//! The answers are a lawful run of the requests, with no node between them, and the core
//! represents the history after them.
#![tactic(auto)]

mod answering;
mod cleaner;
mod copies;
mod jobs;
mod laws;
mod pauses;
mod serving;
mod session;

pub use cleaner::{CleanerEnd, clean_loop, clean_until};
pub use jobs::{JOBS_MAX, JobEnd, Jobs, job_ring};
pub use laws::{
    failures_are_faults, full_volumes_are_heavy, replies_are_lawful, sessions_are_chains,
    turns_are_real,
};
pub use pauses::{Ended, Pauses};
pub use serving::serve;
pub use session::{Served, Session};
