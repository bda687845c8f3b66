//! The core: one answer for each request, over a mounted device.
//!
//! It stands on `jffs_log` for the device and on `jffs_tree` for decisions. A request is decided
//! on, room is made for its node by cleaning, and the node is taken in by the tree and appended to
//! the log. What a `Core` represents is the log that was mounted and the history since
//! (`specs/Past`); no value of the program holds it, so each contract says that a core which
//! represented a history before the call represents the one after. [`Core::answer`] carries the
//! promise:
//! its answer is a lawful step (`specs/Step`) from one to the other.
#![tactic(auto)]

mod answer;
mod answering;
mod appending;
mod cleaning;
mod jobs;
mod laws;
mod mounted_core;
mod opening;

pub use answer::{Answer, Answered};
pub use cleaning::Cleaned;
pub use laws::{
    answers_are_done, answers_copy_little, cleaning_is_lawful, contents_are_kept, mounts_go_on,
    mounts_read_each_byte_once, one_sector_is_erased, runs_go_on, scans_find_contents,
};
pub use mounted_core::Core;
pub use opening::Opened;
