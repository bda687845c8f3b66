//! Settings: numbers, each in a small file of a volume.

use jffs_flash::{DoomingFlash, FlashNew, MemoryFlash};
use jffs_log::{ScanFault, ScanWhy};
use jffs_node::{Path, PathFault, copied};
use jffs_session::Session;
use jffs_tree::{Cause, Outcome, Wish};
use std::alloc::{AllocError, Global};
use std::io;
use thiserror::Error;

/// Why settings can't be opened, looked at or set.
#[derive(Clone, Copy, Debug, PartialEq, Eq, Error)]
pub enum SettingFault {
    #[error("{0}")]
    Flash(#[from] FlashNew),
    #[error("{0}")]
    NoVolume(ScanWhy),
    #[error("{0}")]
    Key(#[from] PathFault),
    #[error("{0}")]
    Refused(Cause),
    #[error("out of memory")]
    Memory,
    #[error("the values can't be printed")]
    Print,
}

/// The settings on a volume. A key is a path.
#[derive(Drop)]
pub struct Settings {
    alloc: Global,
    session: Session<DoomingFlash<MemoryFlash>>,
}

impl Settings {
    /// Opens the volume on this flash, and ends an erase that was cut off; erased flash is an empty
    /// one.
    pub fn open(alloc: Global, flash: MemoryFlash) -> Result<Settings, SettingFault> {
        Ok(Settings {
            alloc,
            session: Session::open(alloc, DoomingFlash::new(flash))?.session,
        })
    }

    /// The value of a key, if it was set.
    pub fn get(&self, key: &str) -> Result<Option<u32>, SettingFault> {
        let path = Path::parse(self.alloc, key)?;
        let Some(inode) = self.session.tree().resolve(&path) else {
            return Ok(None);
        };
        let mut bytes = [0; 4];
        let count = self.session.tree().read(inode, 0, &mut bytes);
        Ok(if count == 4 {
            Some(u32::from_le_bytes(bytes))
        } else {
            None
        })
    }

    /// Sets a key. After an error, and after a crash at any moment, it has its old value or the new
    /// one: a value is one write, and so one record of the log.
    pub fn set(&mut self, key: &str, value: u32) -> Result<(), SettingFault> {
        let path = Path::parse(self.alloc, key)?;
        if self.session.tree().resolve(&path).is_none() {
            self.ask(Wish::Create(path.clone()?))?;
        }
        let bytes = copied(self.alloc, &value.to_le_bytes())?;
        self.ask(Wish::Write {
            path,
            offset: 0,
            bytes,
        })
    }

    /// Has a wish answered.
    fn ask(&mut self, wish: Wish) -> Result<(), SettingFault> {
        match self.session.ask(wish) {
            Outcome::Refused(cause) => Err(SettingFault::Refused(cause)),
            _ => Ok(()),
        }
    }

    /// The flash as it is now, without an unmount: as if the power had failed.
    pub fn crash(self) -> MemoryFlash {
        self.session.into_core().into_flash().into_inner()
    }
}

impl From<ScanFault<DoomingFlash<MemoryFlash>>> for SettingFault {
    fn from(fault: ScanFault<DoomingFlash<MemoryFlash>>) -> SettingFault {
        SettingFault::NoVolume(fault.why)
    }
}

impl From<AllocError> for SettingFault {
    fn from(_: AllocError) -> SettingFault {
        SettingFault::Memory
    }
}

impl From<io::Error> for SettingFault {
    fn from(_: io::Error) -> SettingFault {
        SettingFault::Print
    }
}
