//! Flash that stays: its bytes stand in memory, and in a file.
//!
//! It stands on `jffs_flash`. [`FileFlash`] meets the trait `Flash`, and writes each change through
//! to its [`Store`] before the call returns; its contract says that the store holds what the device
//! shows, for every store that says what it holds. [`FileStore`] is an open file. No contract can
//! say what an open file holds: that the operating system keeps what was written, and of a write
//! that was cut off some first part, is the premise. [`open_image`] and [`create_image`] give the
//! file, and [`FileImage::into_flash`] the flash in it.
//!
//! Where the host loses its power, of what was written since the last sync any blocks of 512 bytes
//! may be missing. So [`FileFlash`] syncs where the order of two writes matters, and its contract
//! says in which order a store that notes what is asked of it was written and synced.
#![tactic(auto)]

mod directory;
mod flash;
mod flight;
mod image;
mod laws;
mod making;
mod span;
mod store;
mod syncing;

pub use flash::FileFlash;
pub use image::{FileFault, FileImage, create_image, open_image};
pub use laws::gates_follow_records;
pub use span::Span;
pub use store::{FileStore, Store, StoreEvent, StoreFault};
pub use syncing::SyncFlash;
