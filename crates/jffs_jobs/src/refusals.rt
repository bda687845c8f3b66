//! Requests that are refused, copies that come too late among them.

use crate::fault::Fault;
use crate::random::{Random, count, noisy};
use crate::volume::{SMALL, Volume};
use jffs_flash::MemoryFlash;
use jffs_node::{FILE_MAX, Name, copied};
use jffs_tree::{Outcome, Tree, Wish};
use std::alloc::Global;
use std::mem::swap;

/// The directories, each with `FILES` files.
const DIRECTORIES: u32 = 16;

/// The files of each directory.
const FILES: u32 = 6;

/// After so many requests the tree is changed.
const CHANGE_EVERY: u32 = 500;

/// Paths of which the requests are made.
#[derive(Drop)]
struct Place {
    directory: String,
    /// Where a file of that directory stands.
    taken: String,
    /// Where nothing stands in that directory, but where that file stood or will stand.
    free: String,
    /// A path below a file, or below a name that nothing has.
    astray: String,
    /// The name that the file has at first.
    name: Name,
}

/// Requests that are refused, on a tree that is changed now and then.
pub(crate) fn ask_in_vain(
    alloc: Global,
    random: &mut Random,
    noise: &[u8],
    requests: u32,
) -> Result<u64, Fault> {
    let mut places = make_places(alloc)?;
    let mut volume = Volume::erased(alloc, SMALL)?;
    set_up(&mut volume, random, noise, &places)?;
    for request in 0..requests {
        if request % CHANGE_EVERY == 0 {
            change(&mut volume, random, noise, &mut places)?;
        }
        ask_one_in_vain(&mut volume, random, noise, &places)?;
    }
    volume.end()
}

/// A place for each file.
fn make_places(alloc: Global) -> Result<Vec<Place>, Fault> {
    let mut places = Vec::new(alloc);
    for directory in 0..DIRECTORIES {
        for file in 0..FILES {
            places.push(make_place(alloc, directory, file)?)?;
        }
    }
    Ok(places)
}

fn make_place(alloc: Global, directory: u32, file: u32) -> Result<Place, Fault> {
    let astray = match file % 3 {
        0 => format!(in alloc; "/nowhere{directory}/file{file}")?,
        1 => format!(in alloc; "/there{directory}/nothing/file{file}")?,
        _ => format!(in alloc; "/there{directory}/file{file}/below")?,
    };
    let name = format!(in alloc; "file{file}")?;
    let Some(name) = Name::from_bytes(name.as_bytes()) else {
        return Err(Fault::Refused);
    };
    Ok(Place {
        directory: format!(in alloc; "/there{directory}")?,
        taken: format!(in alloc; "/there{directory}/file{file}")?,
        free: format!(in alloc; "/there{directory}/other{file}")?,
        astray,
        name,
    })
}

/// Makes the directories and files, and a file of many pieces.
fn set_up(
    volume: &mut Volume<MemoryFlash>,
    random: &mut Random,
    noise: &[u8],
    places: &[Place],
) -> Result<(), Fault> {
    for place in places {
        // In vain but for the first file of a directory.
        volume.make_dir(place.directory.as_str())?;
        volume.create(place.taken.as_str())?;
        volume.write(place.taken.as_str(), 0, noisy(noise, random, 60))?;
    }
    volume.create("/pieces")?;
    for piece in 0..20u32 {
        volume.write("/pieces", piece * 10, noisy(noise, random, 10))?;
    }
    Ok(())
}

/// Renames a file within its directory, and writes it over.
fn change(
    volume: &mut Volume<MemoryFlash>,
    random: &mut Random,
    noise: &[u8],
    places: &mut [Place],
) -> Result<(), Fault> {
    let at = random.below(count(places)) as usize;
    let Some(place) = places.get_mut(at) else {
        return Err(Fault::Refused);
    };
    let outcome = volume.rename(place.taken.as_str(), place.free.as_str())?;
    if let Outcome::Appended { .. } = outcome {
        swap(&mut place.taken, &mut place.free);
    }
    volume.write(place.taken.as_str(), 0, noisy(noise, random, 60))?;
    Ok(())
}

fn ask_one_in_vain(
    volume: &mut Volume<MemoryFlash>,
    random: &mut Random,
    noise: &[u8],
    places: &[Place],
) -> Result<(), Fault> {
    let number = random.below(1000);
    let at = random.below(count(places)) as usize;
    let Some(place) = places.get(at) else {
        return Err(Fault::Refused);
    };
    let directory = place.directory.as_str();
    let taken = place.taken.as_str();
    let astray = place.astray.as_str();
    match random.below(10) {
        0 if number % 4 == 0 => volume.create(directory)?,
        0 => volume.create(taken)?,
        1 => volume.create(astray)?,
        2 => volume.remove(directory)?,
        3 => volume.write(directory, number, noisy(noise, random, 11))?,
        4 => volume.truncate(taken, FILE_MAX + 1 + number)?,
        5 if number % 4 == 0 => volume.remove(astray)?,
        5 => volume.remove(place.free.as_str())?,
        _ => copy_late(volume, random, noise, place)?,
    };
    Ok(())
}

/// Asks for a copy of what isn't live any more or not yet, five times in eight, or for one that
/// isn't current: what stands there are other bytes, or fewer.
fn copy_late(
    volume: &mut Volume<MemoryFlash>,
    random: &mut Random,
    noise: &[u8],
    place: &Place,
) -> Result<Outcome, Fault> {
    let next = volume.core().limits().next_version.unwrap_or(1).max(1);
    let version = random.below(next);
    let live = if random.below(8) < 3 {
        live_from(volume.tree(), version)
    } else {
        None
    };
    let source = live.unwrap_or(Source {
        version: dead_at(volume.tree(), version, next),
        parent: random.from(1, 200),
        name: place.name,
    });
    let bytes = copied(volume.alloc, noisy(noise, random, 10))?;
    volume.ask(Wish::Copy {
        source: source.version,
        parent: source.parent,
        name: source.name,
        offset: random.below(300),
        bytes,
    })
}

/// What a copy is of.
#[derive(Clone, Copy)]
struct Source {
    version: u32,
    parent: u32,
    name: Name,
}

/// The first live version from this one on, with the parent and the name that its inode has.
fn live_from(tree: &Tree, version: u32) -> Option<Source> {
    let (version, inode) = tree.next_live(version)?;
    let (parent, name) = tree.parent_name(inode)?;
    Some(Source {
        version,
        parent,
        name,
    })
}

/// This version where no node of it is live, and else one that is still to come.
fn dead_at(tree: &Tree, version: u32, next: u32) -> u32 {
    if tree.any_live(version, version) {
        next.saturating_add(version)
    } else {
        version
    }
}
