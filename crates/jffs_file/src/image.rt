//! A file of the operating system that holds the bytes of a device.

ghost use Rattle.std.specs.Prelude.{◌≡◌, ◌≢◌, ◌*◌, ◌↔◌, true, false, vec_len, replicate, IsErr, IfOk};
ghost use Rattle.std.specs.Prelude.{OnOk, IsTrue, IsErrOf};
ghost use Rattle.jffs_flash.specs.Image.{erased_byte};
ghost use Rattle.jffs_flash.specs.Device.{device_of};
ghost use Rattle.jffs_flash.specs.Sizes.{is_geometry as allows_geometry};

use crate::directory::sync_directory_of;
use crate::flash::FileFlash;
use crate::making::make_file;
use crate::store::FileStore;
use jffs_flash::{ERASED_BYTE, MemoryFlash, VOLUME_MAX, is_geometry};
use std::alloc::{AllocError, AllocFailed};
use std::fs::{OpenFile, OpenOptions};
use std::io::{ErrorKind, Read, Seek, Write};
use std::rt::Files;
use std::{fs, io};
use thiserror::Error;

/// Why there is no flash in a file.
#[derive(Clone, Copy, Debug, PartialEq, Eq, Error)]
pub enum FileFault {
    /// A volume may not have these sizes.
    #[error("a volume may not have so many sectors of this size")]
    Geometry,
    /// There is no such file.
    #[error("there is no such file")]
    Missing,
    /// There is such a file already.
    #[error("there is such a file already")]
    Taken,
    /// The directory that should hold a new file isn't there.
    #[error("the directory that should hold the file isn't there")]
    NoDirectory,
    /// Each name is taken under which a new file could be made.
    #[error("FILE.new is taken, and so is each name up to FILE.new99: rm one, a new file is made \
    under it")]
    Beside,
    /// The file is longer than any volume, or not as long as these sectors together.
    #[error("the file has another length than the sectors together")]
    Length,
    /// The file can't be opened for reading and writing, or can't be read.
    #[error("the file can't be opened for reading and writing")]
    Open,
    /// The file can't be written.
    #[error("the file can't be written")]
    Write,
    /// What was made of a new file on the way to its name can't be removed.
    #[error("the file can't be made in order, and what FILE.new has of it can't be removed: rm it")]
    Left,
    /// Allocation failed.
    #[error("out of memory")]
    Memory,
}

impl From<AllocError> for FileFault {
    fn from(_: AllocError) -> FileFault {
        FileFault::Memory
    }
}

impl<T: Drop> From<AllocFailed<T>> for FileFault {
    fn from(_: AllocFailed<T>) -> FileFault {
        FileFault::Memory
    }
}

impl FileFault {
    /// What an error of a file ends a call with, if it is no want of memory and no missing file.
    fn of(error: io::Error, other: FileFault) -> FileFault {
        match error.kind() {
            ErrorKind::OutOfMemory => FileFault::Memory,
            ErrorKind::NotFound => FileFault::Missing,
            _ => other,
        }
    }

    /// What an error ends a call with that makes a new file.
    pub(crate) fn of_new(error: io::Error) -> FileFault {
        match error.kind() {
            ErrorKind::AlreadyExists => FileFault::Taken,
            ErrorKind::NotADirectory => FileFault::NoDirectory,
            _ => match FileFault::of(error, FileFault::Write) {
                FileFault::Missing => FileFault::NoDirectory,
                fault => fault,
            },
        }
    }
}

/// An open file, and the bytes that it holds.
#[derive(Drop)]
pub struct FileImage<F: Write + Seek + OpenFile + Drop> {
    bytes: Vec<u8>,
    file: F,
}

/// Opens a file for reading and writing, and reads it.
///
/// `Missing` where there is none, `Length` where it is longer than any volume, `Open` where it
/// can't be opened so or can't be read, `Memory`. The file is the same afterwards.
pub fn open_image<R: Files + AllocGlobal>(
    rt: &R,
    path: &str,
) -> Result<FileImage<R::File>, FileFault> {
    let mut file = match OpenOptions::new().read(true).write(true).open(rt, path) {
        Ok(file) => file,
        Err(error) => return Err(FileFault::of(error, FileFault::Open)),
    };
    let mut bytes = Vec::new(rt.alloc());
    if let Err(error) = (&mut file).take(VOLUME_MAX + 1).read_to_end(&mut bytes) {
        return Err(FileFault::of(error, FileFault::Open));
    }
    if bytes.len() as u64 > VOLUME_MAX {
        return Err(FileFault::Length);
    }
    Ok(FileImage { bytes, file })
}

/// Makes a file of erased bytes, as many as `sectors` sectors of `sector_size` bytes have.
///
/// It is made under another name, of which there was no file, and has its own once it is whole: so
/// there is a whole file under its name, or none, and no other file is changed. A host that gives no
/// file two names has it under its own name from the start.
///
/// `Geometry` where a volume may not have these sizes, which is tried first, `Taken` where there is
/// such a file already, `NoDirectory` where the directory that should hold it isn't there, `Beside`
/// where each of the other names is taken, `Write` where it can't be made or written, `Memory`: no
/// file is left of these. `Left` where that can't be removed which was made of it, or its other
/// name, though it is whole. `Write` also where its directory can't be synced, after which it is
/// there, whole.
pub fn create_image<R: Files + AllocGlobal>(
    rt: &R,
    path: &str,
    sectors: u32,
    sector_size: u32,
) -> Result<FileImage<R::File>, FileFault>
    ensures erased { IfOk result
        (λ image. image.bytes.items ≡ replicate (sectors * sector_size) erased_byte) }
    ensures allowed { OnOk result (IsTrue (allows_geometry sectors sector_size)) }
    ensures geometry { (allows_geometry sectors sector_size ≡ false)
        → IsErrOf result FileFault.Geometry }
{
    if !is_geometry(sectors, sector_size) {
        return Err(FileFault::Geometry);
    }
    if fs::symlink_metadata(rt, path).is_ok() {
        return Err(FileFault::Taken);
    }
    let bytes = vec![in rt.alloc(); ERASED_BYTE; sectors as usize * sector_size as usize]?;
    let file = make_file(rt, path, &bytes)?;
    match sync_directory_of(rt, path) {
        Ok(()) => Ok(FileImage { bytes, file }),
        Err(error) => Err(FileFault::of(error, FileFault::Write)),
    }
}

impl<F: Write + Seek + OpenFile + Drop> FileImage<F> {
    /// The bytes of the file.
    pub fn bytes(&self) -> &[u8]
        ensures { result.now ≡ self.now.bytes.items }
    {
        &self.bytes
    }

    /// Flash of `sectors` sectors of `sector_size` bytes in this file. `Length` where the file has
    /// another length.
    pub fn into_flash(
        self,
        sectors: u32,
        sector_size: u32,
    ) -> Result<FileFlash<FileStore<F>>, FileFault>
        ensures length { IsErr result ↔ (vec_len self.bytes ≢ sectors * sector_size) }
        ensures held { IfOk result
            (λ flash. flash.held ≡ device_of sectors sector_size self.bytes.items) }
        ensures sound { IfOk result (λ flash. flash.faults ≡ 0) }
        ensures ordered { IfOk result (λ flash. flash.on_medium ≡ true) }
    {
        let FileImage { bytes, file } = self;
        if bytes.len() as u64 != u64::from(sectors) * u64::from(sector_size) {
            return Err(FileFault::Length);
        }
        let held = MemoryFlash::from_bytes(sectors, sector_size, bytes);
        Ok(FileFlash::on_medium(held, FileStore::new(file)))
    }
}
