//! What is saved of a volume that a mount refuses.

use crate::arguments::VolumeWork;
use crate::fault::VolumeFault;
use crate::hosting::{has_dots, save, save_all};
use crate::mounting::{find_volume, mount_bytes, only_size, read_image, sectors_of};
use crate::reached::Reached;
use crate::walking::{Entry, below, is_second, joined};
use jffs_log::{Salvaged, ScanWhy, salvage};
use jffs_node::{Name, ROOT_INODE};
use jffs_tree::Tree;
use std::alloc::Global;
use std::collections::BTreeSet;
use std::io;
use std::io::Write;
use std::rt::Files;

/// Where that is saved which has no place in the tree. No name on a volume is as long.
const LOST: &str = "/lost+found-of-the-volume";

/// Saves a volume as [`save`] does; and where a mount refuses it, what its records make, as
/// [`salvage`] takes them. What is missing then, and what is saved elsewhere, goes to `errors`, a
/// line for each, before anything is written. The volume's file is only read.
///
/// `AnySize` where sectors of several sizes may be meant, `NoVolume` where no volume has these
/// sizes, `Errors` where a line can't be written: nothing is saved. Else as `mount_copy` and
/// [`save`], but for `Dots`.
pub(crate) fn save_damaged<Rt: Files + AllocGlobal, E: Write>(
    rt: &Rt,
    work: &VolumeWork<'_>,
    directory: &str,
    reached: &mut Reached,
    errors: &mut E,
) -> Result<(), VolumeFault> {
    let alloc = rt.alloc();
    let bytes = read_image(rt, work.file)?;
    let size = size_of(alloc, &bytes, work.sector_size)?;
    let sectors = sectors_of(bytes.len(), size)?;
    let why = match mount_bytes(alloc, bytes.to_vec(alloc)?, size) {
        Ok(opened) => return save(rt, opened.core.tree(), directory, reached),
        Err(VolumeFault::NoVolume(why)) if why != ScanWhy::Geometry => why,
        Err(fault) => return Err(fault),
    };
    let made = salvage(alloc, &bytes, sectors, size)?;
    let lost = lost_inodes(alloc, &made)?;
    let all = entries_of(alloc, &made.tree, &lost)?;
    let told = tell_loss(work.file, why, &made, errors).and_then(|()| tell_lost(
        work.file, directory, &made.tree, &lost, errors,
    ));
    if told.is_err() {
        return Err(VolumeFault::Errors);
    }
    save_all(rt, &made.tree, &all, directory, reached)
}

/// The size that was given; else that with which there is a volume, or that the file must have.
fn size_of(alloc: Global, bytes: &[u8], given: Option<u32>) -> Result<u32, VolumeFault> {
    if let Some(size) = given {
        return Ok(size);
    }
    match find_volume(alloc, bytes) {
        Ok((size, _)) => Ok(size),
        Err(VolumeFault::NoSize) => only_size(bytes.len()),
        Err(fault) => Err(fault),
    }
}

/// The inodes whose directory is missing, and those that the host can't have under their name.
fn lost_inodes(alloc: Global, made: &Salvaged) -> Result<Vec<u32>, VolumeFault> {
    let mut inodes = BTreeSet::new(alloc);
    inodes.insert(ROOT_INODE)?;
    for taken in made.taken.iter() {
        inodes.insert(taken.inode)?;
    }
    let mut lost = Vec::new(alloc);
    for inode in inodes.iter() {
        if has_no_directory(&made.tree, *inode) {
            lost.push(*inode)?;
        }
        let names = made.tree.names(*inode)?;
        for (at, (name, below)) in names.iter().enumerate() {
            if is_second(&names, at) || is_dots(name) {
                lost.push(*below)?;
            }
        }
    }
    Ok(lost)
}

/// Whether each directory of the host has the name.
fn is_dots(name: &Name) -> bool {
    matches!(name.bytes(), b"." | b"..")
}

/// Whether the inode is there and its directory isn't.
fn has_no_directory(tree: &Tree, inode: u32) -> bool {
    match tree.parent_name(inode) {
        Some((parent, _)) => !tree.is_directory(parent),
        None => false,
    }
}

/// What is to be saved, each directory before what is in it: the tree, and the lost inodes with all
/// below them, each in a directory of its own number.
fn entries_of(alloc: Global, tree: &Tree, lost: &[u32]) -> Result<Vec<Entry>, VolumeFault> {
    let mut all = Vec::new(alloc);
    add_below(alloc, tree, "", ROOT_INODE, &mut all)?;
    if !lost.is_empty() {
        all.push(Entry {
            path: String::from_str(alloc, LOST)?,
            inode: ROOT_INODE,
        })?;
    }
    for inode in lost {
        let path = format!(in alloc; "{LOST}/{inode}")?;
        if let Some((_, name)) = tree.parent_name(*inode) {
            let top = if is_dots(&name) {
                format!(in alloc; "{path}/dots")?
            } else {
                joined(alloc, path.as_str(), &name)?
            };
            all.push(Entry {
                path,
                inode: ROOT_INODE,
            })?;
            add_below(alloc, tree, top.as_str(), *inode, &mut all)?;
        }
    }
    Ok(all)
}

/// Adds what stands at a path, and all below it that has its place there.
fn add_below(
    alloc: Global,
    tree: &Tree,
    path: &str,
    inode: u32,
    all: &mut Vec<Entry>,
) -> Result<(), VolumeFault> {
    for entry in below(alloc, tree, path, inode)? {
        if !has_dots(entry.path.as_str()) {
            all.push(entry)?;
        }
    }
    Ok(())
}

/// Writes why there is no volume, and which parts of its sectors and which records are left out.
fn tell_loss<E: Write>(
    file: &str,
    why: ScanWhy,
    made: &Salvaged,
    errors: &mut E,
) -> io::Result<()> {
    let refused = VolumeFault::NoVolume(why);
    writeln!(
        errors,
        "jffs_volume: {file}: {refused}; what its other records make is saved"
    )?;
    for cut in made.cut.iter() {
        let sector = cut.sector;
        let offset = cut.offset;
        write!(
            errors,
            "jffs_volume: {file}: sector {sector} is left out from byte {offset} on: "
        )?;
        match cut.why {
            Some(why) => writeln!(errors, "the record there is bad: {why:?}")?,
            None => writeln!(errors, "no complete record stands there")?,
        }
    }
    for left in made.left_out.iter() {
        let sector = left.sector;
        let offset = left.offset;
        writeln!(
            errors,
            "jffs_volume: {file}: the record at byte {offset} of sector {sector} is left out: it \
            doesn't fit those before it"
        )?;
    }
    Ok(())
}

/// Writes where the lost inodes are saved.
fn tell_lost<E: Write>(
    file: &str,
    directory: &str,
    tree: &Tree,
    lost: &[u32],
    errors: &mut E,
) -> io::Result<()> {
    for inode in lost {
        let because = reason(tree, *inode);
        writeln!(
            errors,
            "jffs_volume: {file}: inode {inode} is saved in {directory}{LOST}/{inode}: {because}"
        )?;
    }
    Ok(())
}

/// Why a lost inode has no place.
fn reason(tree: &Tree, inode: u32) -> &'static str {
    match tree.parent_name(inode) {
        Some((parent, _)) if !tree.is_directory(parent) => "its directory is missing",
        Some((_, name)) if is_dots(&name) => "the host can't have its name",
        _ => "another has its name",
    }
}
