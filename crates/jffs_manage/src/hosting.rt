//! Directories of the host: all of a volume into one, and all of one into a volume.

use crate::asking::ask;
use crate::changing::{put, read_some};
use crate::fault::VolumeFault;
use crate::leftover::UNFINISHED;
use crate::looking::show;
use crate::reached::Reached;
use crate::walking::{Entry, below};
use jffs_flash::Flash;
use jffs_node::{Path, ROOT_INODE};
use jffs_session::Session;
use jffs_tree::{Tree, Wish};
use std::alloc::Global;
use std::fs::{File, OpenOptions};
use std::io::{BufRead, BufReader, ErrorKind};
use std::rt::Files;
use std::{fs, io};

/// Writes all directories and files of a volume into a directory of the host, which is made where
/// there is none. Directories that are there are used, and no file is written over.
///
/// `Dots` where a name on the volume is `.` or `..`: nothing is written. `HostTaken` where
/// something stands in the way, `HostMissing` where the directory that should hold it isn't there,
/// `HostMake`, `HostWrite`, `Memory`: what was written stays, the file at which it stopped with a
/// first part of its bytes. `reached` is left with the path at which it stopped, or empty.
pub(crate) fn save<Rt: Files + AllocGlobal>(
    rt: &Rt,
    tree: &Tree,
    directory: &str,
    reached: &mut Reached,
) -> Result<(), VolumeFault> {
    let all = below(rt.alloc(), tree, "", ROOT_INODE)?;
    save_all(rt, tree, &all, directory, reached)
}

/// Writes these directories and files of a tree into a directory of the host, as [`save`] does.
pub(crate) fn save_all<Rt: Files + AllocGlobal>(
    rt: &Rt,
    tree: &Tree,
    all: &[Entry],
    directory: &str,
    reached: &mut Reached,
) -> Result<(), VolumeFault> {
    for found in all.iter() {
        if has_dots(found.path.as_str()) {
            reached.set(found.path.as_str())?;
            return Err(VolumeFault::Dots);
        }
    }
    for found in all.iter() {
        let path = found.path.as_str();
        reached.set(path)?;
        let target = format!(in rt.alloc(); "{directory}{path}")?;
        if tree.is_directory(found.inode) {
            make_directory(rt, target.as_str())?;
        } else {
            save_file(rt, tree, found.inode, target.as_str())?;
        }
    }
    reached.clear();
    Ok(())
}

/// Whether a name of a path is one that each directory of the host has.
pub(crate) fn has_dots(path: &str) -> bool {
    path.split('/').any(|name| name == "." || name == "..")
}

/// Makes a directory on the host, unless one stands there.
fn make_directory<Rt: Files>(rt: &Rt, path: &str) -> Result<(), VolumeFault> {
    let Err(error) = fs::create_dir(rt, path) else {
        return Ok(());
    };
    match fs::metadata(rt, path) {
        Ok(found) if found.is_dir() && error.kind() == ErrorKind::AlreadyExists => Ok(()),
        _ => Err(VolumeFault::of_host_make(error)),
    }
}

/// Writes the bytes of a file of the volume into a new file on the host.
fn save_file<Rt: Files>(rt: &Rt, tree: &Tree, inode: u32, path: &str) -> Result<(), VolumeFault> {
    let mut file = OpenOptions::new()
        .write(true)
        .create_new(true)
        .open(rt, path)
        .map_err(VolumeFault::of_host_make)?;
    show(tree, inode, &mut file).map_err(VolumeFault::of_host_write)
}

/// Puts all directories and files below a directory of the host into a volume's root, by their
/// bytes, each directory before what is in it. A directory that is there is used, and a file
/// replaced as [`put`] does.
///
/// All names are looked at first. `Path` where one can't be on a volume, `Reserved` where it is
/// that of an unfinished file, `Special` where it is neither a file nor a directory, `HostMissing`,
/// `HostRead`: nothing is changed. Where a file can't be read, or a directory or file can't be put,
/// what was put stays. `reached` is left with the path at which it stopped, or empty.
pub(crate) fn load<Rt: Files + AllocGlobal + Clone + Drop, F: Flash>(
    rt: &Rt,
    volume: &mut Session<F>,
    directory: &str,
    reached: &mut Reached,
) -> Result<(), VolumeFault> {
    let alloc = rt.alloc();
    for (path, is_directory) in host_paths(rt, directory, reached)?.iter() {
        let path = path.as_str();
        reached.set(path)?;
        if *is_directory {
            keep_directory(alloc, volume, path)?;
        } else {
            let from = format!(in alloc; "{directory}{path}")?;
            put(alloc, volume, path, &read_file(rt, from.as_str())?)?;
        }
    }
    reached.clear();
    Ok(())
}

/// Makes a directory on the volume, unless one stands there.
fn keep_directory<F: Flash>(
    alloc: Global,
    volume: &mut Session<F>,
    text: &str,
) -> Result<(), VolumeFault> {
    let path = Path::parse(alloc, text)?;
    match volume.tree().resolve(&path) {
        Some(inode) if volume.tree().is_directory(inode) => Ok(()),
        _ => ask(volume, Wish::MakeDir(path)),
    }
}

/// The bytes of a file of the host, or one more than a file may have.
fn read_file<Rt: Files + AllocGlobal>(rt: &Rt, path: &str) -> Result<Vec<u8>, VolumeFault> {
    let mut file = File::open(rt, path).map_err(VolumeFault::of_host_read)?;
    read_some(rt.alloc(), &mut file).map_err(VolumeFault::of_host_read)
}

/// The paths below a directory of the host, as a volume has them, each with whether it is a
/// directory; by their bytes, and so each directory before what is in it.
fn host_paths<Rt: Files + AllocGlobal + Clone + Drop>(
    rt: &Rt,
    directory: &str,
    reached: &mut Reached,
) -> Result<Vec<(String, bool)>, VolumeFault> {
    let alloc = rt.alloc();
    let mut found = Vec::new(alloc);
    add_paths(rt, directory, "", &mut found, reached)?;
    for at in 0..usize::MAX {
        let path = match found.get(at) {
            Some((path, true)) => path.clone()?,
            Some((_, false)) => continue,
            None => break,
        };
        reached.set(path.as_str())?;
        add_paths(rt, directory, path.as_str(), &mut found, reached)?;
    }
    found.sort()?;
    Ok(found)
}

/// What a load ends with at an entry of a directory that can't be read. `reached` is left with the
/// path of an entry whose name is no text.
fn no_entry<Rt: Files + AllocGlobal>(
    rt: &Rt,
    from: &str,
    inside: &str,
    error: io::Error,
    reached: &mut Reached,
) -> VolumeFault {
    if error.kind() != ErrorKind::InvalidFilename {
        return VolumeFault::of_host_read(error);
    }
    let named = match odd_name(rt, from) {
        Ok(name) => reached.set_in(inside, &name),
        Err(error) => return VolumeFault::of_host_read(error),
    };
    match named {
        Ok(()) => VolumeFault::of_host_read(error),
        Err(_) => VolumeFault::Memory,
    }
}

/// The first name in a directory of the host that is no text.
fn odd_name<Rt: Files + AllocGlobal>(rt: &Rt, directory: &str) -> io::Result<Vec<u8>> {
    let alloc = rt.alloc();
    let path = format!(in alloc; "{directory}/")?;
    let mut names = BufReader::new(alloc, rt.open_dir(path.as_str())?)?;
    let mut name = Vec::new(alloc);
    // A directory is read as its names, each with a zero after it.
    for _ in 0..u64::MAX {
        name.clear();
        if names.read_until(0, &mut name)? == 0 {
            break;
        }
        name.pop();
        if str::from_utf8(&name).is_err() {
            break;
        }
    }
    Ok(name)
}

/// Adds the paths of what stands in one directory of the host.
fn add_paths<Rt: Files + AllocGlobal + Clone + Drop>(
    rt: &Rt,
    directory: &str,
    inside: &str,
    found: &mut Vec<(String, bool)>,
    reached: &mut Reached,
) -> Result<(), VolumeFault> {
    let alloc = rt.alloc();
    let from = format!(in alloc; "{directory}{inside}")?;
    let entries = fs::read_dir(rt, from.as_str()).map_err(VolumeFault::of_host_read)?;
    for entry in entries {
        let entry = match entry {
            Ok(entry) => entry,
            Err(error) => return Err(no_entry(rt, from.as_str(), inside, error, reached)),
        };
        let name = entry.file_name();
        let path = format!(in alloc; "{inside}/{name}")?;
        reached.set(path.as_str())?;
        Path::check(path.as_str())?;
        if name == UNFINISHED {
            return Err(VolumeFault::Reserved);
        }
        let kind = entry.file_type().map_err(VolumeFault::of_host_read)?;
        if !kind.is_dir() && !kind.is_file() {
            return Err(VolumeFault::Special);
        }
        found.push((path, kind.is_dir()))?;
    }
    Ok(())
}
