//! Looking and carrying: what is on an image, a core that is driven line by line, and files that go
//! into a volume in a store and come back.

use crate::Scale;
use crate::digest::Digest;
use crate::fault::Fault;
use crate::household::{Household, Plan};
use crate::mounts::flash_of;
use crate::random::{Random, noise, noisy};
use crate::volume::{LARGE, Volume};
use jffs_file::{FileFlash, Store, StoreFault};
use jffs_flash::MemoryFlash;
use jffs_tools::{Replay, print_image, run_lines};
use std::alloc::Global;
use std::io::Write;
use std::rt::Files;

/// Shows images, replays operations, and loads files.
pub(crate) fn carry<R: Files + AllocGlobal>(
    rt: &R,
    seed: u64,
    scale: Scale,
) -> Result<Digest, Fault> {
    let mut digest = Digest::new();
    show_images(rt.alloc(), seed, scale, &mut digest)?;
    for part in 0..scale.times(15) {
        let mut random = Random::new(seed, u64::from(part) + 100);
        replay(rt, &mut random, scale.times(5000), &mut digest)?;
    }
    for part in 0..scale.times(30) {
        let mut random = Random::new(seed, u64::from(part) + 200);
        digest.add(load(rt.alloc(), &mut random, scale.times(60))?);
    }
    Ok(digest)
}

/// Shows images of three devices.
fn show_images(alloc: Global, seed: u64, scale: Scale, digest: &mut Digest) -> Result<(), Fault> {
    for (part, percent) in [(0u64, 20u32), (1, 60), (2, 90)] {
        let mut household = Household::new(alloc, Plan::large(percent), seed, part)?;
        household.set_up()?;
        for _ in 0..scale.times(40) {
            household.live_on(200)?;
            show(&household.volume, digest)?;
        }
    }
    Ok(())
}

/// Shows what is on a volume's image.
fn show(volume: &Volume<MemoryFlash>, digest: &mut Digest) -> Result<(), Fault> {
    let bytes = volume.core().log().flash().bytes().to_vec(volume.alloc)?;
    let flash = flash_of(LARGE.sectors, LARGE.sector_size, bytes)?;
    let mut out = Vec::new(volume.alloc);
    match print_image(volume.alloc, flash, &mut out) {
        Ok(_) => {
            digest.add_bytes(&out);
            Ok(())
        }
        Err(_) => Err(Fault::Refused),
    }
}

/// Replays so many operations.
fn replay<R: Files + AllocGlobal>(
    rt: &R,
    random: &mut Random,
    count: u32,
    digest: &mut Digest,
) -> Result<(), Fault> {
    let text = operations(rt.alloc(), random, count)?;
    let mut out = Vec::new(rt.alloc());
    let mut replay = Replay::new(rt.alloc());
    let ended = run_lines(rt, &mut replay, &mut text.as_slice(), &mut out);
    digest.add(u64::from(ended.is_ok()));
    digest.add_bytes(&out);
    Ok(())
}

/// The lines of a replay.
fn operations(alloc: Global, random: &mut Random, count: u32) -> Result<Vec<u8>, Fault> {
    let mut text = Vec::new(alloc);
    text.write_all(b"flash 16 4096\nmount\n")?;
    for seq in 1..=count {
        match random.below(50) {
            0 => text.write_all(b"clean_oldest\n")?,
            1..=9 => text.write_all(b"erase_dead\n")?,
            10 if random.once_in(20) => text.write_all(b"image\n")?,
            _ => {
                write!(text, "request 1 {seq} ")?;
                add_request(random, &mut text)?;
            }
        }
    }
    Ok(text)
}

fn add_request(random: &mut Random, text: &mut Vec<u8>) -> Result<(), Fault> {
    let file = random.below(12);
    let offset = random.below(600);
    match random.below(20) {
        0..=7 => add_change(random, file, text),
        8..=12 => {
            writeln!(
                text,
                "write /f{file} {offset} 00112233445566778899aabbccddeeff"
            )?;
            Ok(())
        }
        _ => {
            let count = random.from(1, 199);
            writeln!(text, "fill /f{file} {offset} {count} 5a")?;
            Ok(())
        }
    }
}

/// A request that is no write.
fn add_change(random: &mut Random, file: u32, text: &mut Vec<u8>) -> Result<(), Fault> {
    let directory = random.below(12);
    match random.below(8) {
        0 | 1 => writeln!(text, "create /f{file}")?,
        2 => writeln!(text, "mkdir /d{directory}")?,
        3 => writeln!(text, "truncate /f{file} {directory}")?,
        4 => writeln!(text, "rename /f{file} /d{directory}/g")?,
        5 => writeln!(text, "rename /d{directory}/g /f{file}")?,
        6 => writeln!(text, "remove /f{file}")?,
        _ => writeln!(text, "remove /d{directory}")?,
    }
    Ok(())
}

/// A store in memory: the bytes of a file.
#[derive(Drop)]
struct Kept {
    bytes: Vec<u8>,
}

impl Store for Kept {
    fn overwrite(&mut self, at: u64, bytes: &[u8]) -> Result<(), StoreFault> {
        let start = at as usize;
        let len = self.bytes.len();
        if start > len || bytes.len() > len - start {
            return Err(StoreFault);
        }
        self.bytes[start..start + bytes.len()].copy_from_slice(bytes);
        Ok(())
    }
}

/// A volume in a store.
type KeptVolume = Volume<FileFlash<Kept>>;

/// Loads files into a volume in a store, each beside an old one that it replaces, and reads them
/// back from a volume on what the store holds after the unmount.
fn load(alloc: Global, random: &mut Random, files: u32) -> Result<u64, Fault> {
    let noise = noise(alloc, random)?;
    let mut volume = kept_volume(alloc)?;
    volume.make_dir("/loaded")?;
    for file in 0..files {
        put(&mut volume, random, &noise, file % 20)?;
    }
    let mut stored = mount_stored(alloc, volume)?;
    for file in 0..20u32 {
        read_back(&mut stored, file)?;
    }
    Ok(stored.digest.number())
}

/// An erased volume in a store.
fn kept_volume(alloc: Global) -> Result<KeptVolume, Fault> {
    let held = LARGE.flash(alloc)?;
    let bytes = held.bytes().to_vec(alloc)?;
    Volume::mount(alloc, FileFlash::new(held, Kept { bytes }))
}

/// Unmounts a volume, and mounts the bytes of its store, not those that its flash has in memory.
fn mount_stored(alloc: Global, volume: KeptVolume) -> Result<Volume<MemoryFlash>, Fault> {
    let (flash, mut digest) = volume.close()?;
    let bytes = flash.store().bytes.to_vec(alloc)?;
    digest.add_bytes(&bytes);
    let stored = flash_of(LARGE.sectors, LARGE.sector_size, bytes)?;
    let mut volume = Volume::mount(alloc, stored)?;
    volume.digest = digest;
    Ok(volume)
}

/// Puts a file of up to 100,000 bytes in the place of an old one.
fn put(volume: &mut KeptVolume, random: &mut Random, noise: &[u8], file: u32) -> Result<(), Fault> {
    let len = if random.once_in(4) {
        random.below(100_000)
    } else {
        random.below(8_000)
    };
    volume.create("/loaded/.put.new")?;
    write_parts(volume, random, noise, len)?;
    let path = format!(in volume.alloc; "/loaded/file{file}")?;
    volume.remove(path.as_str())?;
    volume.rename("/loaded/.put.new", path.as_str())?;
    Ok(())
}

/// Writes so many bytes to a new file, in writes as long as may be.
fn write_parts(
    volume: &mut KeptVolume,
    random: &mut Random,
    noise: &[u8],
    len: u32,
) -> Result<(), Fault> {
    let most = volume.core().limits().data_max.max(1);
    for part in 0..=len / most {
        let offset = part.saturating_mul(most);
        let data = noisy(noise, random, most.min(len.saturating_sub(offset)));
        volume.write("/loaded/.put.new", offset, data)?;
    }
    Ok(())
}

/// Reads a file from its start to its end.
fn read_back(volume: &mut Volume<MemoryFlash>, file: u32) -> Result<(), Fault> {
    let path = format!(in volume.alloc; "/loaded/file{file}")?;
    volume.look_through(path.as_str())
}
