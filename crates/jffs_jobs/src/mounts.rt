//! Power comes back: mounts of what devices left, and the first looks.

use crate::Scale;
use crate::digest::Digest;
use crate::fault::Fault;
use crate::household::{Household, Plan};
use crate::random::{Random, count, noise, noisy};
use crate::volume::{LARGE, SMALL, Sizes, Volume};
use jffs_core::Core;
use jffs_flash::{ERASED_BYTE, MemoryFlash};
use jffs_node::{
    HEADER_LEN, Kind, Name, Node, ROOT_INODE, copied, encode_into, is_lawful, record_len,
};
use std::alloc::Global;

/// Every so many steps of a large device its volume is mounted.
const LARGE_STEPS: u32 = 60;

/// Every so many steps of a small device its volume is mounted.
const SMALL_STEPS: u32 = 10;

/// How many of the files that an older program left are looked at after each mount.
const OLDER_LOOKS: u32 = 20;

/// Mounts of devices with much and with little that stands still, of volumes that an older program
/// began, and of volumes that fill up with names or with long records.
pub(crate) fn mount_all(alloc: Global, seed: u64, scale: Scale) -> Result<Digest, Fault> {
    let mut digest = Digest::new();
    for (part, percent) in [(0u64, 2u32), (1, 33), (2, 66), (3, 92)] {
        let mut large = Household::new(alloc, Plan::large(percent), seed, part)?;
        mount_along(&mut large, LARGE_STEPS, scale.times(120), &mut digest)?;
        let mut small = Household::new(alloc, Plan::small(percent), seed, part + 100)?;
        mount_along(&mut small, SMALL_STEPS, scale.times(500), &mut digest)?;
    }
    mount_older(alloc, seed, scale, &mut digest)?;
    let mut random = Random::new(seed, 300);
    mount_names(alloc, &mut random, scale.times(40), &mut digest)?;
    for sizes in [LARGE, SMALL] {
        mount_long_writes(alloc, &mut random, sizes, scale.times(80), &mut digest)?;
    }
    Ok(digest)
}

/// Mounts copies of a device's volume, every so many of its steps.
fn mount_along(
    household: &mut Household<MemoryFlash>,
    steps: u32,
    mounts: u32,
    digest: &mut Digest,
) -> Result<(), Fault> {
    household.set_up()?;
    for mount in 0..mounts {
        let copy = copy_after(household, steps, mount)?;
        digest.add(told(&copy));
    }
    mount_last(&household.volume, digest)
}

/// Has a device make some steps, mounts a copy of its volume, and looks at it; each second copy is
/// torn.
fn copy_after(
    household: &mut Household<MemoryFlash>,
    steps: u32,
    mount: u32,
) -> Result<Volume<MemoryFlash>, Fault> {
    household.live_on(steps)?;
    let mut copy = mounted_copy(&household.volume, mount % 2 == 0)?;
    household.look_at(&mut copy)?;
    Ok(copy)
}

/// Mounts a copy of a volume for the last time, looks at all that stands there, and adds what the
/// volume's own requests were answered.
fn mount_last(volume: &Volume<MemoryFlash>, digest: &mut Digest) -> Result<(), Fault> {
    let mut copy = mounted_copy(volume, false)?;
    copy.look_at_all()?;
    digest.add(told(&copy));
    digest.add(volume.digest.number());
    Ok(())
}

/// Mounts a volume that an older program began.
fn mount_older(alloc: Global, seed: u64, scale: Scale, digest: &mut Digest) -> Result<(), Fault> {
    let older = Volume::mount(alloc, older_flash(alloc, LARGE, 12)?)?;
    let files = count(&older.tree().names(ROOT_INODE)?);
    let mut older = Household::on(older, Plan::large(50), Random::new(seed, 200))?;
    let mut random = Random::new(seed, 201);
    older.set_up()?;
    for mount in 0..scale.times(60) {
        let mut copy = copy_after(&mut older, LARGE_STEPS, mount)?;
        look_at_older(&mut copy, &mut random, files)?;
        digest.add(told(&copy));
    }
    mount_last(&older.volume, digest)
}

/// Looks at some of the files that an older program left.
fn look_at_older(
    copy: &mut Volume<MemoryFlash>,
    random: &mut Random,
    files: u32,
) -> Result<(), Fault> {
    for _ in 0..OLDER_LOOKS {
        let file = random.from(1, files.saturating_sub(1));
        let path = format!(in copy.alloc; "/older{file}")?;
        copy.look_through(path.as_str())?;
    }
    Ok(())
}

/// A mounted copy of a volume as it is, as if the power had failed; where it is torn, a record that
/// was begun stands after the last one.
fn mounted_copy(volume: &Volume<MemoryFlash>, is_torn: bool) -> Result<Volume<MemoryFlash>, Fault> {
    let log = volume.core().log();
    let mut bytes = log.flash().bytes().to_vec(volume.alloc)?;
    if is_torn {
        if let Some(at) = end_of_tail(volume.core()) {
            tear(&mut bytes, at);
        }
    }
    Volume::mount(
        volume.alloc,
        flash_of(log.sectors(), log.sector_size(), bytes)?,
    )
}

/// The index in the image of what stands after the last record, unless its sector is full.
fn end_of_tail(core: &Core<MemoryFlash>) -> Option<usize> {
    let size = u64::from(core.log().sector_size());
    let last = core.log().records().back()?;
    let inside = u64::from(last.offset).saturating_add(u64::from(last.length));
    if inside.saturating_add(HEADER_LEN as u64) > size {
        return None;
    }
    let at = u64::from(last.sector)
        .saturating_mul(size)
        .saturating_add(inside);
    Some(at as usize)
}

/// Begins a record whose gate stays open.
fn tear(bytes: &mut [u8], at: usize) {
    for (index, byte) in b"JFF1\x01\x00\x04".iter().enumerate() {
        if let Some(place) = bytes.get_mut(at.saturating_add(index)) {
            *place &= *byte;
        }
    }
}

/// Flash with these bytes.
pub(crate) fn flash_of(
    sectors: u32,
    sector_size: u32,
    bytes: Vec<u8>,
) -> Result<MemoryFlash, Fault> {
    if bytes.len() as u64 != u64::from(sectors) * u64::from(sector_size) {
        return Err(Fault::Refused);
    }
    Ok(MemoryFlash::from_bytes(sectors, sector_size, bytes))
}

/// What a mounted volume tells of itself.
fn told(volume: &Volume<MemoryFlash>) -> u64 {
    let mut digest = volume.digest;
    let core = volume.core();
    digest.add(u64::from(core.clean()));
    digest.add_some(core.limits().next_version);
    digest.add_some(core.limits().next_inode);
    digest.add(core.log().records().len() as u64);
    digest.add(volume.weight());
    digest.number()
}

/// Mounts a volume that fills up with files in directories of up to eight levels, and looks at all
/// names.
fn mount_names(
    alloc: Global,
    random: &mut Random,
    mounts: u32,
    digest: &mut Digest,
) -> Result<(), Fault> {
    let mut volume = Volume::erased(alloc, LARGE)?;
    make_places(&mut volume)?;
    for mount in 0..mounts {
        for file in 0..90u32 {
            add_name(&mut volume, random, mount, file)?;
        }
        let mut copy = mounted_copy(&volume, false)?;
        copy.look("/a/b/c/d/e/f/g", 0)?;
        copy.look_at_all()?;
        digest.add(told(&copy));
    }
    digest.add(volume.digest.number());
    Ok(())
}

/// Seven directories, each in the one before.
fn make_places(volume: &mut Volume<MemoryFlash>) -> Result<(), Fault> {
    for place in [
        "/a",
        "/a/b",
        "/a/b/c",
        "/a/b/c/d",
        "/a/b/c/d/e",
        "/a/b/c/d/e/f",
    ] {
        volume.make_dir(place)?;
    }
    volume.make_dir("/a/b/c/d/e/f/g")?;
    Ok(())
}

/// A file in one of the directories.
fn add_name(
    volume: &mut Volume<MemoryFlash>,
    random: &mut Random,
    mount: u32,
    file: u32,
) -> Result<(), Fault> {
    let place = match random.below(4) {
        0 => "/a",
        1 => "/a/b/c",
        2 => "/a/b/c/d/e",
        _ => "/a/b/c/d/e/f/g",
    };
    let number = random.below(1_000_000);
    let path = format!(in volume.alloc; "{place}/{number}-{mount}-{file}")?;
    volume.create(path.as_str())?;
    Ok(())
}

/// Mounts a volume that fills up with the longest writes.
fn mount_long_writes(
    alloc: Global,
    random: &mut Random,
    sizes: Sizes,
    mounts: u32,
    digest: &mut Digest,
) -> Result<(), Fault> {
    let noise = noise(alloc, random)?;
    let mut volume = Volume::erased(alloc, sizes)?;
    volume.create("/long")?;
    let most = volume.core().limits().data_max;
    for mount in 0..mounts {
        let offset = mount.saturating_mul(most);
        volume.write("/long", offset, noisy(&noise, random, most))?;
        let mut copy = mounted_copy(&volume, false)?;
        copy.look("/long", offset / 2)?;
        digest.add(told(&copy));
    }
    mount_last(&volume, digest)
}

/// Flash of which some sectors hold records of the first form, which states no size.
fn older_flash(alloc: Global, sizes: Sizes, sectors: u32) -> Result<MemoryFlash, Fault> {
    let mut bytes = Vec::new(alloc);
    let mut version = 0u32;
    for sector in 0..sizes.sectors {
        let mut part = vec![in alloc; ERASED_BYTE; sizes.sector_size as usize]?;
        if sector < sectors {
            fill_older(alloc, &mut part, &mut version)?;
        }
        bytes.extend_from_slice(&part)?;
    }
    flash_of(sizes.sectors, sizes.sector_size, bytes)
}

/// Fills a sector with files of 100 bytes, one record each.
fn fill_older(alloc: Global, sector: &mut [u8], version: &mut u32) -> Result<(), Fault> {
    let mut at = 0usize;
    for _ in 0..sector.len() / HEADER_LEN {
        let next = version.saturating_add(1);
        let Some(len) = put_older(alloc, sector, at, next)? else {
            return Ok(());
        };
        *version = next;
        at = at.saturating_add(len);
    }
    Ok(())
}

/// Writes a record into a sector, and returns its length; nothing where it has no room there.
fn put_older(
    alloc: Global,
    sector: &mut [u8],
    at: usize,
    version: u32,
) -> Result<Option<usize>, Fault> {
    let node = older_node(alloc, version)?;
    if !is_lawful(&node) || node.bytes.len() > 1000 {
        return Err(Fault::Refused);
    }
    let len = record_len(&node) as usize;
    let end = at.saturating_add(len);
    if end.saturating_add(HEADER_LEN) > sector.len() || end - at != len {
        return Ok(None);
    }
    encode_into(&node, &mut sector[at..end]);
    Ok(Some(len))
}

/// A file of the root with 100 bytes, as an older program wrote it.
fn older_node(alloc: Global, version: u32) -> Result<Node, Fault> {
    let name = format!(in alloc; "older{version}")?;
    Ok(Node {
        kind: Kind::File,
        deleted: false,
        copy: false,
        inode: version.saturating_add(1),
        parent: 1,
        version,
        offset: 0,
        rsize: 0,
        writer: 1,
        seq: version,
        size: None,
        name: Name::from_bytes(name.as_bytes()),
        bytes: copied(alloc, &[b'o'; 100])?,
    })
}
