//! The volume in a file.

ghost use Rattle.std.specs.Prelude.{◌≡◌, ◌*◌, IfOk};

use crate::fault::VolumeFault;
use jffs_core::{Core, Opened};
use jffs_file::{FileFlash, FileStore, open_image};
use jffs_flash::{MemoryFlash, SECTOR_SIZES, VOLUME_MAX, is_geometry};
use jffs_log::ScanWhy;
use jffs_session::Session;
use jffs_tree::Cause;
use std::alloc::Global;
use std::fs::{File, TryLockError};
use std::io::Read;
use std::rt::Files;

/// A mounted volume in a file.
pub(crate) type FileSession<Rt> = Session<FileFlash<FileStore<<Rt as Files>::File>>>;

/// Mounts the volume in a file, to change it, of sectors of this size, in bytes; where none is
/// given, of the one size that makes a volume of the file. An erase that was cut off is ended.
///
/// `File` or `Large` where the file can't be used, `SectorSize` or `Length` where sectors of this
/// size can't be its own, `NoVolume` where there is none in it, `NoSize` or `NoLength` where there
/// is none of any size, `Sizes` where there is one of several, `Memory`. The file stays as it is.
/// `Refused` with Device where it can't be written, to end an erase.
pub(crate) fn mount<Rt: Files + AllocGlobal>(
    rt: &Rt,
    file: &str,
    sector_size: Option<u32>,
) -> Result<FileSession<Rt>, VolumeFault> {
    let image = open_image(rt, file)?;
    let size = match sector_size {
        Some(size) => size,
        None => find_volume(rt.alloc(), image.bytes())?.0,
    };
    let sectors = sectors_of(image.bytes().len(), size)?;
    match Session::open(rt.alloc(), image.into_flash(sectors, size)?) {
        Ok(opened) => Ok(opened.session),
        Err(fault) => Err(refused(fault.why)),
    }
}

/// Takes the lock of a file, which whoever changes it holds: the operating system gives it back
/// once the handle is gone, also where the program is killed, and leaves nothing behind.
///
/// `Locked` where another program holds it, `NoLock` where the file can't be locked, `Unread` or
/// `File` where it can't be opened, `Memory`.
pub(crate) fn lock<Rt: Files<File = File>>(rt: &Rt, file: &str) -> Result<File, VolumeFault> {
    let opened = File::open(rt, file).map_err(VolumeFault::of_file_read)?;
    match opened.try_lock() {
        Ok(()) => Ok(opened),
        Err(TryLockError::WouldBlock) => Err(VolumeFault::Locked),
        Err(TryLockError::Error(_)) => Err(VolumeFault::NoLock),
    }
}

/// Mounts a copy of the volume in a file, to look at it, as [`mount`] does: an erase that was cut off
/// is ended in the copy. The file need not be one that can be written. `Unread` where it can't be
/// read.
pub(crate) fn mount_copy<Rt: Files + AllocGlobal>(
    rt: &Rt,
    file: &str,
    sector_size: Option<u32>,
) -> Result<Opened<MemoryFlash>, VolumeFault> {
    let bytes = read_image(rt, file)?;
    match sector_size {
        Some(size) => mount_bytes(rt.alloc(), bytes, size),
        None => Ok(find_volume(rt.alloc(), &bytes)?.1),
    }
}

/// The bytes of a file, which are no more than a volume has.
pub(crate) fn read_image<Rt: Files + AllocGlobal>(
    rt: &Rt,
    file: &str,
) -> Result<Vec<u8>, VolumeFault> {
    let opened = File::open(rt, file).map_err(VolumeFault::of_file_read)?;
    let mut bytes = Vec::new(rt.alloc());
    opened
        .take(VOLUME_MAX + 1)
        .read_to_end(&mut bytes)
        .map_err(VolumeFault::of_file_read)?;
    if bytes.len() as u64 > VOLUME_MAX {
        return Err(VolumeFault::Large);
    }
    Ok(bytes)
}

/// Mounts a copy of these bytes with each size of the sectors that may be theirs, and gives the one
/// volume that is found, after the size of its sectors.
pub(crate) fn find_volume(
    alloc: Global,
    bytes: &[u8],
) -> Result<(u32, Opened<MemoryFlash>), VolumeFault> {
    let mut found = None;
    let mut fits = false;
    for &size in SECTOR_SIZES.iter() {
        if !may_have(bytes.len(), size) {
            continue;
        }
        fits = true;
        match mount_bytes(alloc, bytes.to_vec(alloc)?, size) {
            Ok(_) if found.is_some() => return Err(VolumeFault::Sizes),
            Ok(opened) => found = Some((size, opened)),
            Err(VolumeFault::NoVolume(_)) => {}
            Err(fault) => return Err(fault),
        }
    }
    if !fits {
        return Err(VolumeFault::NoLength(bytes.len() as u64));
    }
    found.ok_or(VolumeFault::NoSize)
}

/// Mounts flash in memory that holds these bytes, of sectors of this size; an erase that was cut off
/// is ended there.
pub(crate) fn mount_bytes(
    alloc: Global,
    bytes: Vec<u8>,
    size: u32,
) -> Result<Opened<MemoryFlash>, VolumeFault> {
    let sectors = sectors_of(bytes.len(), size)?;
    match Core::open(alloc, MemoryFlash::from_bytes(sectors, size, bytes)) {
        Ok(opened) => Ok(opened),
        Err(fault) => Err(refused(fault.why)),
    }
}

/// The one size that the sectors of a volume of so many bytes may have. `AnySize` where they may
/// have several, `NoLength` where they may have none.
pub(crate) fn only_size(len: usize) -> Result<u32, VolumeFault> {
    let mut only = None;
    for &size in SECTOR_SIZES.iter() {
        if !may_have(len, size) {
            continue;
        }
        if only.is_some() {
            return Err(VolumeFault::AnySize);
        }
        only = Some(size);
    }
    only.ok_or(VolumeFault::NoLength(len as u64))
}

/// Whether a volume of so many bytes may have sectors of this size.
fn may_have(len: usize, size: u32) -> bool {
    match sectors_of(len, size) {
        Ok(sectors) => is_geometry(sectors, size),
        Err(_) => false,
    }
}

/// How many sectors of this size `len` bytes are. `SectorSize` where no volume has such sectors,
/// `Length` where they are no whole number of them.
pub(crate) fn sectors_of(len: usize, size: u32) -> Result<u32, VolumeFault>
    ensures whole { IfOk result (λ sectors. len ≡ sectors * size) }
{
    if !SECTOR_SIZES.contains(&size) {
        return Err(VolumeFault::SectorSize(size));
    }
    let found = len as u64;
    let most = u32::try_from(len).unwrap_or(u32::MAX);
    let sectors = most.checked_div(size).unwrap_or(0);
    if u64::from(sectors) * u64::from(size) != found {
        return Err(VolumeFault::Length { found, size });
    }
    Ok(sectors)
}

fn refused(why: ScanWhy) -> VolumeFault {
    match why {
        ScanWhy::Memory => VolumeFault::Memory,
        ScanWhy::Device => VolumeFault::Refused(Cause::Device),
        _ => VolumeFault::NoVolume(why),
    }
}
