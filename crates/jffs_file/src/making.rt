//! How a new file comes to be: whole and under its name, or not at all.

use crate::image::FileFault;
use std::alloc::{AllocError, Global};
use std::fs::{OpenFile, OpenOptions};
use std::io::{ErrorKind, Write};
use std::rt::Files;
use std::{fs, io};

/// How many names are tried for a file that isn't whole yet.
const NAMES_MAX: u32 = 99;

/// A new file of these bytes, which stand on their medium, open for reading and writing.
///
/// It is made under a name that nobody has: the first free one of `PATH.new`, `PATH.new2` and so
/// on. Once it is whole, `path` becomes another name of it, which replaces nothing, and the first
/// one is removed. Where the host gives no file two names, or takes no such name, it is made under
/// `path` itself.
///
/// `Taken` where something has the name `path` by then, `NoDirectory` where the directory that
/// should hold it isn't there, `Beside` where all the first names are taken, `Write` where the file
/// can't be made or written, `Memory`: nothing is left. `Left` where a file that isn't whole can't
/// be removed, or the first name of one that is.
pub(crate) fn make_file<R: Files + AllocGlobal>(
    rt: &R,
    path: &str,
    bytes: &[u8],
) -> Result<R::File, FileFault> {
    let Some(begun) = begin_beside(rt, path)? else {
        return make_in_place(rt, path, bytes);
    };
    let (beside, mut file) = begun;
    let beside = beside.as_str();
    if let Err(error) = fill(&mut file, bytes) {
        return Err(removed(rt, beside, FileFault::of_new(error)));
    }
    let linked = fs::hard_link(rt, beside, path);
    if fs::remove_file(rt, beside).is_err() {
        return Err(FileFault::Left);
    }
    match linked {
        Ok(()) => Ok(file),
        Err(error) if error.kind() == ErrorKind::AlreadyExists => Err(FileFault::Taken),
        Err(_) => make_in_place(rt, path, bytes),
    }
}

/// A new file without bytes under the first free name beside `path`, after that name; `None` where
/// the host takes no such name.
fn begin_beside<R: Files + AllocGlobal>(
    rt: &R,
    path: &str,
) -> Result<Option<(String, R::File)>, FileFault> {
    for number in 0..NAMES_MAX {
        let name = name_beside(rt.alloc(), path, number)?;
        match open_new(rt, name.as_str()) {
            Ok(file) => return Ok(Some((name, file))),
            Err(error) => match error.kind() {
                ErrorKind::AlreadyExists => {}
                ErrorKind::InvalidFilename => return Ok(None),
                _ => return Err(FileFault::of_new(error)),
            },
        }
    }
    Err(FileFault::Beside)
}

/// The name beside `path` with this number, from 0: `PATH.new`, `PATH.new2`, `PATH.new3`.
fn name_beside(alloc: Global, path: &str, number: u32) -> Result<String, AllocError> {
    if number == 0 {
        return format!(in alloc; "{path}.new");
    }
    let count = number.saturating_add(1);
    format!(in alloc; "{path}.new{count}")
}

/// A new file of these bytes under its name from the start, which is removed if it can't be filled.
fn make_in_place<R: Files>(rt: &R, path: &str, bytes: &[u8]) -> Result<R::File, FileFault> {
    let mut file = match open_new(rt, path) {
        Ok(file) => file,
        Err(error) => return Err(FileFault::of_new(error)),
    };
    match fill(&mut file, bytes) {
        Ok(()) => Ok(file),
        Err(error) => Err(removed(rt, path, FileFault::of_new(error))),
    }
}

/// Opens a file that wasn't there. Nothing that has the name is opened, nor what a link leads to.
fn open_new<R: Files>(rt: &R, path: &str) -> io::Result<R::File> {
    OpenOptions::new()
        .read(true)
        .write(true)
        .create_new(true)
        .open(rt, path)
}

/// Writes these bytes, and waits until they stand on their medium.
fn fill<F: Write + OpenFile>(file: &mut F, bytes: &[u8]) -> io::Result<()> {
    file.write_all(bytes)?;
    file.sync_all()
}

/// Removes a file that isn't whole, and gives the fault for which it isn't, or `Left`.
fn removed<R: Files>(rt: &R, path: &str, fault: FileFault) -> FileFault {
    match fs::remove_file(rt, path) {
        Ok(()) => fault,
        Err(_) => FileFault::Left,
    }
}
