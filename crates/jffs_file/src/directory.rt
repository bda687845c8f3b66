//! The directory in which a file has its name.

use std::fs::{OpenFile, OpenOptions};
use std::io;
use std::rt::Files;

/// Has the operating system bring the directory of a path to its medium, and waits for it: the name
/// of a file that was made or renamed stays only then.
///
/// An error where the directory can't be opened for reading, or not be synced.
pub(crate) fn sync_directory_of<R: Files>(rt: &R, path: &str) -> io::Result<()> {
    let directory = match path.rsplit_once('/') {
        Some(("", _)) => "/",
        Some((directory, _)) => directory,
        None => ".",
    };
    let opened = OpenOptions::new().read(true).open(rt, directory)?;
    opened.sync_all()
}
