//! The awkward jobs: files of many pieces, large directories, deep paths, holes, what is refused,
//! full volumes, and versions with gaps. Of most of them what stands at the end is looked at after
//! another mount.

use crate::Scale;
use crate::digest::Digest;
use crate::fault::Fault;
use crate::random::{Random, noise, noisy};
use crate::refusals::ask_in_vain;
use crate::volume::{LARGE, SMALL, SMALLEST, Sizes, Volume};
use jffs_flash::MemoryFlash;
use jffs_node::{Path, copied};
use jffs_text::dump;
use jffs_tree::{Cause, Limits, Outcome, Tree, Wish};
use std::alloc::Global;

/// All of them, one after another.
pub(crate) fn try_all(alloc: Global, seed: u64, scale: Scale) -> Result<Digest, Fault> {
    let mut digest = Digest::new();
    let mut random = Random::new(seed, 0);
    let noise = noise(alloc, &mut random)?;
    digest.add(write_pieces(alloc, &mut random, &noise, scale.times(350))?);
    for _ in 0..scale.times(20) {
        digest.add(fill_directory(alloc, &mut random, scale.times(3500))?);
    }
    digest.add(go_deep(alloc, &mut random, &noise, scale.times(150_000))?);
    digest.add(show_holes(alloc, &mut random, scale.times(100))?);
    digest.add(ask_in_vain(alloc, &mut random, &noise, scale.times(600_000))?);
    digest.add(fill_up(alloc, &mut random, SMALLEST, scale.times(10_000))?);
    digest.add(fill_up(alloc, &mut random, SMALL, scale.times(750))?);
    digest.add(leave_gaps(alloc, &mut random, &noise, scale.times(375_000))?);
    Ok(digest)
}

/// Files of a thousand small pieces, which are written across and cut; the last one stays.
fn write_pieces(
    alloc: Global,
    random: &mut Random,
    noise: &[u8],
    files: u32,
) -> Result<u64, Fault> {
    let mut volume = Volume::erased(alloc, LARGE)?;
    for _ in 0..files {
        write_in_pieces(&mut volume, random, noise)?;
    }
    volume.end()
}

/// Removes the file before, if any, and makes the next one.
fn write_in_pieces(
    volume: &mut Volume<MemoryFlash>,
    random: &mut Random,
    noise: &[u8],
) -> Result<(), Fault> {
    volume.remove("/pieces")?;
    volume.create("/pieces")?;
    for _ in 0..1000u32 {
        let offset = random.below(60_000);
        volume.write("/pieces", offset, noisy(noise, random, 16))?;
    }
    for _ in 0..10u32 {
        let offset = random.below(60_000);
        volume.write("/pieces", offset, noisy(noise, random, 4000))?;
        volume.look("/pieces", offset / 2)?;
    }
    let size = random.below(40_000);
    volume.truncate("/pieces", size)?;
    volume.look_through("/pieces")
}

/// A directory with thousands of names, of which one half is then renamed and the other removed.
fn fill_directory(alloc: Global, random: &mut Random, names: u32) -> Result<u64, Fault> {
    let paths = new_paths(alloc, random, names)?;
    let mut volume = Volume::erased(alloc, LARGE)?;
    use_directory(alloc, &mut volume, &paths)?;
    volume.end()
}

/// Paths in one directory, in no order.
fn new_paths(alloc: Global, random: &mut Random, names: u32) -> Result<Vec<String>, Fault> {
    let mut paths = Vec::new(alloc);
    for name in 0..names {
        let number = random.below(1_000_000);
        paths.push(format!(in alloc; "/many/{number:06}-{name}")?)?;
    }
    Ok(paths)
}

/// Makes files at these paths, lists them, renames each second one and looks at the others; looks
/// at all, and asks to remove what stood at each path, in vain where it was renamed.
fn use_directory(
    alloc: Global,
    volume: &mut Volume<MemoryFlash>,
    paths: &[String],
) -> Result<(), Fault> {
    volume.make_dir("/many")?;
    for path in paths {
        volume.create(path.as_str())?;
    }
    list(alloc, volume, "/many")?;
    for (index, path) in paths.iter().enumerate() {
        if index % 2 == 0 {
            rename_to(alloc, volume, path.as_str(), index)?;
        } else {
            volume.look(path.as_str(), 0)?;
        }
    }
    volume.look_at_all()?;
    for path in paths {
        volume.remove(path.as_str())?;
    }
    Ok(())
}

fn list(alloc: Global, volume: &mut Volume<MemoryFlash>, path: &str) -> Result<(), Fault> {
    let path = Path::parse(alloc, path)?;
    if let Some(inode) = volume.tree().resolve(&path) {
        let names = volume.tree().names(inode)?;
        for (name, inode) in names.iter() {
            volume.digest.add_bytes(name.bytes());
            volume.digest.add(u64::from(*inode));
        }
    }
    Ok(())
}

fn rename_to(
    alloc: Global,
    volume: &mut Volume<MemoryFlash>,
    path: &str,
    number: usize,
) -> Result<(), Fault> {
    let to = format!(in alloc; "/many/new{number}")?;
    volume.rename(path, to.as_str())?;
    Ok(())
}

/// Requests with paths of eight names.
fn go_deep(alloc: Global, random: &mut Random, noise: &[u8], requests: u32) -> Result<u64, Fault> {
    let mut volume = Volume::erased(alloc, LARGE)?;
    for depth in 1..8u32 {
        let directory = deep_path(alloc, depth, 0)?;
        volume.make_dir(directory.as_str())?;
    }
    for _ in 0..requests {
        ask_deep(alloc, &mut volume, random, noise)?;
    }
    volume.end()
}

/// A path of so many names, of which the last has a number.
fn deep_path(alloc: Global, depth: u32, number: u32) -> Result<String, Fault> {
    let mut path = String::new(alloc);
    for _ in 1..depth {
        path.push_str("/level0")?;
    }
    path.push_str(format!(in alloc; "/level{number}")?.as_str())?;
    Ok(path)
}

fn ask_deep(
    alloc: Global,
    volume: &mut Volume<MemoryFlash>,
    random: &mut Random,
    noise: &[u8],
) -> Result<(), Fault> {
    let number = random.below(40);
    let path = deep_path(alloc, 8, number)?;
    match random.below(10) {
        0 | 1 => volume.create(path.as_str())?,
        2 => volume.remove(path.as_str())?,
        _ => volume.write(path.as_str(), number, noisy(noise, random, 100))?,
    };
    Ok(())
}

/// Files of holes, which are shown whole.
fn show_holes(alloc: Global, random: &mut Random, files: u32) -> Result<u64, Fault> {
    let mut volume = Volume::erased(alloc, SMALLEST)?;
    volume.create("/holes")?;
    for _ in 0..files {
        let size = random.from(1_000_000, 48_000);
        volume.truncate("/holes", size)?;
        volume.write("/holes", random.below(1_000_000), b"not a hole")?;
        show(alloc, &mut volume)?;
        volume.truncate("/holes", 0)?;
    }
    Ok(volume.digest.number())
}

/// Shows a whole volume.
fn show(alloc: Global, volume: &mut Volume<MemoryFlash>) -> Result<(), Fault> {
    let mut out = Vec::new(alloc);
    match dump(alloc, volume.tree(), &mut out) {
        Ok(()) => {
            volume.digest.add_bytes(&out);
            Ok(())
        }
        Err(_) => Err(Fault::Memory),
    }
}

/// A volume that is filled until nothing more has room, and then asked again and again.
fn fill_up(alloc: Global, random: &mut Random, sizes: Sizes, requests: u32) -> Result<u64, Fault> {
    let mut volume = Volume::erased(alloc, sizes)?;
    for file in 0..10_000u32 {
        if !add_file(alloc, &mut volume, random, file)? {
            break;
        }
    }
    for request in 0..requests {
        ask_full(alloc, &mut volume, random, request)?;
    }
    volume.end()
}

/// Makes a file with a few bytes, and says whether there was room for it.
fn add_file(
    alloc: Global,
    volume: &mut Volume<MemoryFlash>,
    random: &mut Random,
    file: u32,
) -> Result<bool, Fault> {
    let path = format!(in alloc; "/f{file}")?;
    if volume.create(path.as_str())? == Outcome::Refused(Cause::NoSpace) {
        return Ok(false);
    }
    let data = [7u8; 100];
    let len = random.below(100) as usize;
    volume.write(path.as_str(), 0, &data[..len])?;
    Ok(true)
}

/// Asks a full volume for more, and now and then frees a little.
fn ask_full(
    alloc: Global,
    volume: &mut Volume<MemoryFlash>,
    random: &mut Random,
    request: u32,
) -> Result<(), Fault> {
    let file = random.below(30);
    let path = format!(in alloc; "/f{file}")?;
    match request % 16 {
        15 => volume.remove(path.as_str())?,
        14 => volume.create(path.as_str())?,
        _ => volume.write(path.as_str(), 100, b"there is no room for so many bytes")?,
    };
    Ok(())
}

/// A tree of nodes whose versions have gaps, and one of whose oldest nodes stays live.
fn leave_gaps(alloc: Global, random: &mut Random, noise: &[u8], nodes: u32) -> Result<u64, Fault> {
    let mut digest = Digest::new();
    let mut tree = Tree::new(alloc);
    let mut version = 1u32;
    for node in 0..nodes {
        version = version.saturating_add(random.from(1, 999));
        let wish = gap_wish(alloc, random, noise, node)?;
        digest.add_some(grant(&mut tree, &wish, version)?);
        digest.add_some(tree.first_live(version / 2, version));
        let inode = random.from(2, 50);
        digest.add(u64::from(tree.live(inode, version)));
    }
    digest.add_tree(alloc, &tree)?;
    Ok(digest.number())
}

/// The creation of a file, or a write to one; the first stays as it is.
fn gap_wish(alloc: Global, random: &mut Random, noise: &[u8], node: u32) -> Result<Wish, Fault> {
    let file = if node < 50 { node } else { random.from(1, 48) };
    let text = format!(in alloc; "/f{file}")?;
    let path = Path::parse(alloc, text.as_str())?;
    if node < 50 {
        return Ok(Wish::Create(path));
    }
    let offset = random.below(20) * 100;
    let bytes = copied(alloc, noisy(noise, random, 100))?;
    Ok(Wish::Write {
        path,
        offset,
        bytes,
    })
}

/// Takes the node of a wish into a tree, and returns its inode; nothing where it is refused.
fn grant(tree: &mut Tree, wish: &Wish, version: u32) -> Result<Option<u32>, Fault> {
    let limits = Limits {
        data_max: 4032,
        next_inode: Some(version.saturating_add(1)),
        next_version: Some(version),
    };
    let Ok(new) = tree.decide(limits, wish) else {
        return Ok(None);
    };
    let node = new.with(version, 1, version);
    if !tree.can_apply(&node) {
        return Err(Fault::Refused);
    }
    tree.apply(&node)?;
    Ok(Some(node.inode))
}
