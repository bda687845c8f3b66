//! Where the bytes of a device stay.

ghost use Rattle.std.specs.Prelude.{◌≡◌, ℕ, List, Option, None, OnOk, OnErr, length};
ghost use Rattle.jffs_file.specs.declared.store.StoreEvent.{StoreEvent};
ghost use Rattle.jffs_file.specs.Stored.{Overwrites, wrote, Notes, NotesCall};
ghost use Rattle.jffs_file.specs.declared.store.StoreEvent.TheVariants.{Synced};

use crate::span::Span;
use std::cell::Cell;
use std::fs::OpenFile;
use std::io::{Seek, SeekFrom, Write};
use thiserror::Error;

/// Bytes could not be written, or not all of them; or not brought to the medium.
#[derive(Clone, Copy, Debug, PartialEq, Eq, Error)]
#[error("the bytes could not be written")]
pub struct StoreFault;

/// What a store was asked to do.
#[derive(Clone, Copy, Debug, PartialEq, Eq)]
pub enum StoreEvent {
    /// To write over these bytes. Where that failed some first part of them was written.
    Wrote(Span),
    /// To bring all to the medium that was written before, and it did.
    Synced,
}

/// Bytes that stay, one after another, of which any range can be written over.
///
/// What was written outlasts the program. Of what was written since the last sync, a loss of power
/// of the whole machine may leave any part, by blocks.
pub trait Store {
    // All bytes, where they are known. An open file doesn't say.
    ghost stored: { Self → Option (List ℕ) } = { λ _. None };

    // What was asked of it, the newest first, where that is noted. An open file doesn't say.
    ghost past: { Self → Option (List StoreEvent) } = { λ _. None };

    /// Writes these bytes over those from `at` on, an index in bytes. They stay before the call
    /// returns.
    ///
    /// After a failure some first part of them is written, and the rest of the range is as it was.
    fn overwrite(&mut self, at: u64, bytes: &[u8]) -> Result<(), StoreFault>
        ensures bytes { Overwrites at bytes.now result (stored self.old) (stored self.new) }
        ensures noted { NotesCall (wrote at (length bytes.now)) result (past self.old)
            (past self.new) };

    /// Brings all that was written to the medium, and waits for it. No byte is another one after
    /// it.
    ///
    /// After a failure nobody knows what the medium holds. A store without a medium can't do it, and
    /// fails.
    fn sync(&mut self) -> Result<(), StoreFault>
        ensures same { stored self.new ≡ stored self.old }
        ensures noted { OnOk result (Notes Synced (past self.old) (past self.new)) }
        ensures failed { OnErr result (past self.new ≡ past self.old) }
    {
        Err(StoreFault)
    }

    /// Whether a sync would have nothing to do, as far as the store knows, and so takes no time.
    fn is_synced(&self) -> bool {
        false
    }
}

/// What is known of an open file's medium.
#[derive(Clone, Copy, Debug, PartialEq, Eq)]
enum Medium {
    /// It may lack what was written.
    Behind,
    /// It has all.
    Synced,
    /// A sync failed: nobody knows what it has.
    Unknown,
}

/// An open file, which the operating system keeps, as a store.
///
/// Once a sync has failed each write fails.
#[derive(Drop)]
pub struct FileStore<F: Write + Seek + OpenFile + Drop> {
    file: F,
    medium: Cell<Medium>,
}

impl<F: Write + Seek + OpenFile + Drop> FileStore<F> {
    /// A store in this file, from its first byte on. What its medium has isn't known.
    pub fn new(file: F) -> FileStore<F> {
        FileStore {
            file,
            medium: Cell::new(Medium::Behind),
        }
    }

    /// Has the operating system bring the bytes to the medium itself, and waits for it, whether or
    /// not anything was written.
    pub(crate) fn sync_file(&self) -> Result<(), StoreFault> {
        if self.medium.get() == Medium::Unknown {
            return Err(StoreFault);
        }
        match self.file.sync_data() {
            Ok(()) => {
                self.medium.set(Medium::Synced);
                Ok(())
            }
            Err(_) => {
                self.medium.set(Medium::Unknown);
                Err(StoreFault)
            }
        }
    }
}

impl<F: Write + Seek + OpenFile + Drop> Store for FileStore<F> {
    fn overwrite(&mut self, at: u64, bytes: &[u8]) -> Result<(), StoreFault> {
        if self.medium.get() == Medium::Unknown {
            return Err(StoreFault);
        }
        self.medium.set(Medium::Behind);
        let offset = SeekFrom::Start(at);
        if self.file.seek(offset).is_err() || self.file.write_all(bytes).is_err() {
            return Err(StoreFault);
        }
        match self.file.flush() {
            Ok(()) => Ok(()),
            Err(_) => Err(StoreFault),
        }
    }

    fn sync(&mut self) -> Result<(), StoreFault> {
        if self.is_synced() {
            return Ok(());
        }
        self.sync_file()
    }

    fn is_synced(&self) -> bool {
        self.medium.get() == Medium::Synced
    }
}
