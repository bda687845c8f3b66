//! A device over a store that fails, and one in a file that is opened again.
//! What a store has to hold is what was programmed, and after a fault the half of it.

mod ordered;

ghost use Rattle.std.specs.Prelude.{◌≡◌, ◌+◌, ◌≤◌, ◌↔◌, length, IsTrue};

use jffs_file::{
    FileFault, FileFlash, FileImage, FileStore, Store, StoreFault, create_image, open_image,
};
use jffs_flash::{Flash, FlashFault, MemoryFlash};
use std::alloc::Global;
use std::fs::{OpenFile, OpenOptions};
use std::io::{Seek, Write};
use std::os::unix::fs::symlink;
use std::process::Abort;
use std::rt::Files;
use std::test::Fail;
use std::{fs, io};

/// A store in memory that passes `passes` writes, and then does the first half of each and fails.
#[derive(Drop)]
struct Failing {
    bytes: Vec<u8>,
    passes: u32,
}

impl Store for Failing {
    fn overwrite(&mut self, at: u64, bytes: &[u8]) -> Result<(), StoreFault> {
        let from = at as usize;
        let whole = self.bytes.len();
        if from > whole || bytes.len() > whole - from {
            return Err(StoreFault);
        }
        let passes = self.passes > 0;
        let count = if passes { bytes.len() } else { bytes.len() / 2 };
        self.bytes[from..from + count].copy_from_slice(&bytes[..count]);
        self.passes = self.passes.saturating_sub(1);
        if passes { Ok(()) } else { Err(StoreFault) }
    }

    fn sync(&mut self) -> Result<(), StoreFault> {
        Ok(())
    }
}

/// How many bytes the device has.
fn size_of<F: Flash>(flash: &F) -> usize
    ensures { result ≡ length (F.device flash.now).image }
{
    flash.sectors() as usize * flash.sector_size() as usize
}

/// Whether the device has `len` bytes from `at` on.
fn reaches<F: Flash>(flash: &F, at: u32, len: usize) -> bool
    ensures { IsTrue result ↔ (at + len ≤ length (F.device flash.now).image) }
{
    let whole = size_of(flash);
    len <= whole && at as usize <= whole - len
}

fn program<F: Flash>(
    rt: &impl Abort,
    flash: &mut F,
    at: u32,
    bytes: &[u8],
) -> Result<(), FlashFault> {
    assert!(rt; reaches(flash, at, bytes.len()));
    flash.program(at, bytes)
}

fn erase<F: Flash>(rt: &impl Abort, flash: &mut F, sector: u32) -> Result<(), FlashFault> {
    assert!(rt; sector < flash.sectors());
    flash.erase(sector)
}

/// The bytes from `from` up to `to`, or none where there are fewer.
fn part(bytes: &[u8], from: usize, to: usize) -> &[u8] {
    bytes.get(from..to).unwrap_or(&[])
}

/// A device of erased bytes over a store on a medium that passes `passes` writes.
fn failing_after(alloc: Global, passes: u32) -> Result<FileFlash<Failing>, Fail> {
    let held = MemoryFlash::new(alloc, 6, 1024)?;
    let bytes = held.bytes().to_vec(alloc)?;
    Ok(FileFlash::on_medium(held, Failing { bytes, passes }))
}

/// Four writes: two over the end of the first sector, the doom of the second and its erase.
fn change_two_sectors<F: Flash>(rt: &impl Abort, flash: &mut F) -> Result<(), FlashFault> {
    program(rt, flash, 1022, &[0x0f, 0xf0, 0x3c])?;
    program(rt, flash, 1022, &[0xf3, 0xff, 0x18])?;
    erase(rt, flash, 1)
}

/// The store holds what the device shows.
fn is_stored(rt: &impl Abort, flash: &FileFlash<Failing>) {
    assert_eq!(rt; flash.bytes(), flash.store().bytes.as_slice());
    let seen = part(flash.bytes(), 1021, 1025);
    assert_eq!(rt; seen, [0xff, 0x03, 0xf0, 0xff].as_slice());
    assert_eq!(rt; flash.faults(), 0);
}

/// The first half of the failed write stands in the store, and nothing of a later one.
fn is_half_written(rt: &impl Abort, store: &Failing) {
    let left = part(&store.bytes, 699, 704);
    assert_eq!(rt; left, [0xff, 0, 0, 0xff, 0xff].as_slice());
    assert_eq!(rt; part(&store.bytes, 800, 801), [0xff].as_slice());
}

/// After one fault each program and each erase is another.
fn is_stopped<F: Flash>(rt: &impl Abort, flash: &mut F) {
    assert!(rt; program(rt, flash, 800, &[0]).is_err());
    assert!(rt; erase(rt, flash, 0).is_err());
    assert_eq!(rt; flash.faults(), 3);
}

/// What a read shows of the bytes that were written first.
fn two_bytes<F: Flash>(rt: &impl Abort, flash: &mut F) -> Result<[u8; 2], FlashFault> {
    let mut buffer = [0; 2];
    assert!(rt; reaches(flash, 1022, 2));
    flash.read(1022, &mut buffer)?;
    Ok(buffer)
}

#[test]
fn a_failed_write_stops_the_device_and_its_store(rt: HostRuntime) -> Result<(), Fail> {
    let mut flash = failing_after(rt.alloc(), 4)?;
    change_two_sectors(&rt, &mut flash)?;
    is_stored(&rt, &flash);

    assert!(rt; program(&rt, &mut flash, 700, &[0; 4]).is_err());
    is_half_written(&rt, flash.store());
    is_stopped(&rt, &mut flash);
    is_half_written(&rt, flash.store());
    assert_eq!(rt; two_bytes(&rt, &mut flash)?, [0x03, 0xf0]);
    Ok(())
}

/// Why no file is opened there.
fn fault_of_opening<R: Files + AllocGlobal>(rt: &R, path: &str) -> Option<FileFault> {
    open_image(rt, path).err()
}

/// Why no file of `sectors` sectors is made there.
fn fault_of_making<R: Files + AllocGlobal>(rt: &R, path: &str, sectors: u32) -> Option<FileFault> {
    create_image(rt, path, sectors, 1024).err()
}

/// `count` zeros.
fn zeros(alloc: Global, count: usize) -> Result<Vec<u8>, Fail> {
    Ok(vec![in alloc; 0u8; count]?)
}

/// Flash of six sectors in a new file.
fn made<R: Files + AllocGlobal>(
    rt: &R,
    path: &str,
) -> Result<FileFlash<FileStore<R::File>>, FileFault> {
    create_image(rt, path, 6, 1024)?.into_flash(6, 1024)
}

/// Two bytes over the end of a sector, and a whole sector that is erased again.
fn write_some<F: Flash>(rt: &impl Abort, flash: &mut F, sector: &[u8]) -> Result<(), FlashFault> {
    program(rt, flash, 1023, &[0x5a, 0xa5])?;
    program(rt, flash, 5 * 1024, sector)?;
    erase(rt, flash, 5)
}

/// The file's bytes are those of the device, as they were written.
fn is_as_written(rt: &impl Abort, found: &[u8], shown: &[u8]) {
    assert_eq!(rt; found, shown);
    let seen = part(found, 1022, 1026);
    assert_eq!(rt; seen, [0xff, 0x5a, 0xa5, 0xff].as_slice());
}

/// Why there is no flash of seven sectors in a file.
fn fault_of_seven<F: Write + Seek + OpenFile + Drop>(image: FileImage<F>) -> Option<FileFault> {
    image.into_flash(7, 1024).err()
}

/// The file holds these bytes, and is no device of seven sectors.
fn is_found<R: Abort + Files + AllocGlobal>(
    rt: &R,
    path: &str,
    bytes: &[u8],
) -> Result<(), FileFault> {
    let found = open_image(rt, path)?;
    is_as_written(rt, found.bytes(), bytes);
    assert_eq!(rt; fault_of_seven(found), Some(FileFault::Length));
    Ok(())
}

/// Whether no bit of the file is clear.
fn has_all_ones<R: Files + AllocGlobal>(rt: &R, path: &str) -> io::Result<bool> {
    Ok(fs::read(rt, path)?.iter().all(|byte| *byte == 0xff))
}

/// A device of three greater sectors in the same file erases the first of them.
fn is_erased_anew<R: Abort + Files + AllocGlobal>(rt: &R, path: &str) -> Result<(), Fail> {
    let mut again = open_image(rt, path)?.into_flash(3, 2048)?;
    erase(rt, &mut again, 0)?;
    assert!(rt; has_all_ones(rt, path)?);
    Ok(())
}

/// With one byte more than a volume may have, the file is none.
fn is_too_long<R: Abort + Files + AllocGlobal>(rt: &R, path: &str) -> Result<(), Fail> {
    fs::write(rt, path, zeros(rt.alloc(), 1_048_577)?)?;
    assert_eq!(rt; fault_of_opening(rt, path), Some(FileFault::Length));
    Ok(())
}

#[test]
fn what_was_programmed_stands_in_the_file(rt: HostRuntime) -> Result<(), Fail> {
    let path = "jffs_file_test.image";
    let _ = fs::remove_file(&rt, path);
    assert_eq!(rt; fault_of_opening(&rt, path), Some(FileFault::Missing));
    assert_eq!(rt; fault_of_making(&rt, path, 5), Some(FileFault::Geometry));
    let sector = zeros(rt.alloc(), 1024)?;
    let mut flash = made(&rt, path)?;
    assert_eq!(rt; fault_of_making(&rt, path, 6), Some(FileFault::Taken));
    write_some(&rt, &mut flash, &sector)?;
    flash.sync()?;
    is_found(&rt, path, flash.bytes())?;
    is_erased_anew(&rt, path)?;
    is_too_long(&rt, path)?;
    fs::remove_file(&rt, path)?;
    Ok(())
}

/// Whether a new volume beside these files leaves what they hold.
fn leaves_beside<R: Abort + Files + AllocGlobal>(rt: &R) -> Result<(), Fail> {
    let _ = made(rt, "beside.image")?;
    assert!(rt; fs::read(rt, "beside.image.new")?.as_slice() == b"mine".as_slice());
    assert!(rt; fs::read(rt, "beside.target")?.as_slice() == b"mine too".as_slice());
    assert!(rt; fs::symlink_metadata(rt, "beside.image.new2")?.is_symlink());
    assert!(rt; fs::symlink_metadata(rt, "beside.image")?.is_file());
    assert!(rt; fs::symlink_metadata(rt, "beside.image.new3").is_err());
    Ok(())
}

#[test]
fn a_new_file_harms_no_other(rt: HostRuntime) -> Result<(), Fail> {
    for name in ["beside.image", "beside.image.new2"] {
        let _ = fs::remove_file(&rt, name);
    }
    fs::write(&rt, "beside.image.new", "mine")?;
    fs::write(&rt, "beside.target", "mine too")?;
    symlink(&rt, "beside.target", "beside.image.new2")?;
    leaves_beside(&rt)?;
    assert_eq!(rt;
        fault_of_making(&rt, "none/beside.image", 6),
        Some(FileFault::NoDirectory)
    );
    assert_eq!(rt;
        fault_of_making(&rt, "beside.target/x", 6),
        Some(FileFault::NoDirectory)
    );
    for name in [
        "beside.image",
        "beside.image.new",
        "beside.image.new2",
        "beside.target",
    ] {
        fs::remove_file(&rt, name)?;
    }
    Ok(())
}

/// The file of Linux that is always full.
fn full_file<R: Files>(rt: &R) -> io::Result<R::File> {
    OpenOptions::new()
        .read(true)
        .write(true)
        .open(rt, "/dev/full")
}

/// A device in that file.
fn in_a_full_file<R: Files + AllocGlobal>(rt: &R) -> Result<FileFlash<FileStore<R::File>>, Fail> {
    let full = full_file(rt)?;
    let held = MemoryFlash::new(rt.alloc(), 6, 1024)?;
    Ok(FileFlash::on_medium(held, FileStore::new(full)))
}

/// Linux has a device that is always full, and that nothing can be brought to a medium of.
#[test]
fn a_medium_that_fails_is_told(rt: HostRuntime) -> Result<(), Fail> {
    let mut flash = in_a_full_file(&rt)?;
    assert_eq!(rt; flash.sync(), Err(StoreFault));
    assert!(rt; program(&rt, &mut flash, 0, &[0x5a]).is_err());
    assert!(rt; erase(&rt, &mut flash, 0).is_err());
    assert_eq!(rt; flash.faults(), 2);
    Ok(())
}
