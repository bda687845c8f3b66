//! The log on flash: what a scan of an image finds, what can be saved of one that it refuses, how a
//! node is appended, and how the oldest sector is erased.
//!
//! It stands on `jffs_flash` for the device, on `jffs_node` for records, and on `jffs_tree`
//! for the tree that the log makes.
#![tactic(auto)]

mod dead;
mod erasing;
mod examples;
mod folding;
mod healing;
mod laws;
mod log;
mod log_index;
mod log_sectors;
mod oldest;
mod place;
mod room;
mod salvaging;
mod scanning;
mod sector;
mod shown;
mod weighing;
mod writing;

pub use examples::{
    example_is_cleaned, example_is_copied_again, example_is_erased_in_turn, examples_are_scanned,
};
pub use healing::{Healed, heal};
pub use laws::{
    cleaning_keeps_room, cleanings_copy_little, copies_take_over, erases_are_healed,
    full_logs_are_heavy, histories_stay_lawful, mounts_are_sound, puts_keep_room, wear_is_even,
    weight_is_kept,
};
pub use log::{Log, sector_after};
pub use log_index::{LogIndex, RecordRef};
pub use place::Place;
pub use room::Room;
pub use salvaging::{CutSector, Salvaged, SavedRecord, salvage};
pub use scanning::{Mounted, ScanFault, ScanWhy, scan};
pub use sector::RECORDS_PER_SECTOR;
pub use writing::RECORD_MAX;
