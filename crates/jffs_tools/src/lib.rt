//! Two tools to look inside: what is on an image, and what a core does, step by step.
//!
//! It stands on `jffs_core` and `jffs_log`, and on `jffs_text` for words and dumps. `run_image` and
//! `run_replay` are the programs, and `run_lines` is what the second does with its lines;
//! `Operation` is one of them, `Replay` what stands between two; `answered_text` and its neighbours
//! are the lines that both print.
#![tactic(auto)]

mod did;
mod fault;
mod image;
mod names;
mod operation;
mod program;
mod reading;
mod replay;
mod telling;
mod texts;

pub use did::{Answered, Did, Totals};
pub use fault::ToolFault;
pub use image::{Seen, print_image};
pub use operation::{Fuse, Operation};
pub use program::{Stopped, run_image, run_lines, run_replay};
pub use replay::Replay;
pub use texts::{
    answered_text, digest_text, mounted_next_text, mounted_text, next_text, record_text,
    scan_refused_text, sectors_text,
};
