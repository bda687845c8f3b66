//! Devices whose bytes are brought to a medium.

use crate::flash::FileFlash;
use crate::store::{FileStore, StoreFault};
use jffs_flash::MemoryFlash;
use std::fs::OpenFile;
use std::io::{Seek, Write};

/// A device whose bytes can be brought to their medium.
pub trait SyncFlash {
    /// Brings all that was written to the medium, and waits for it. `StoreFault`: nobody knows what
    /// the medium holds.
    fn sync_flash(&self) -> Result<(), StoreFault>;
}

impl<X: Write + Seek + OpenFile + Drop> SyncFlash for FileFlash<FileStore<X>> {
    fn sync_flash(&self) -> Result<(), StoreFault> {
        self.sync()
    }
}

/// Memory has no medium.
impl SyncFlash for MemoryFlash {
    fn sync_flash(&self) -> Result<(), StoreFault> {
        Ok(())
    }
}
