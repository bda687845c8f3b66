//! Sessions on flash in memory, of sectors of 1,024 bytes.
//! What is expected was worked out on paper from docs/SCRIPT.md and docs/TOOLS.md.

mod asked;
mod looks;
mod puts;
mod stopped;

use jffs_flash::{Flash, MemoryFlash};
use jffs_node::{Path, copied};
use jffs_session::{PutFault, PutPaths, Session, are_beside};
use jffs_tree::Wish;
use std::alloc::Global;
use std::test::Fail;

/// The size of each sector, in bytes.
const SECTOR_SIZE: u32 = 1024;

/// Mounts a device.
fn mount<F: Flash + Drop>(alloc: Global, flash: F) -> Result<Session<F>, Fail> {
    match Session::mount(alloc, flash) {
        Ok(session) => Ok(session),
        Err(fault) => Err(fault.why.into()),
    }
}

/// A session on erased flash.
fn erased(alloc: Global, sectors: u32) -> Result<Session<MemoryFlash>, Fail> {
    mount(alloc, MemoryFlash::new(alloc, sectors, SECTOR_SIZE)?)
}

/// A file that is made.
fn create(alloc: Global, text: &str) -> Result<Wish, Fail> {
    Ok(Wish::Create(Path::parse(alloc, text)?))
}

/// These bytes in a file from its begin on.
fn write(alloc: Global, text: &str, bytes: &[u8]) -> Result<Wish, Fail> {
    Ok(Wish::Write {
        path: Path::parse(alloc, text)?,
        offset: 0,
        bytes: copied(alloc, bytes)?,
    })
}

/// The bytes of what stands at a path, if anything does.
fn bytes_at<F: Flash>(
    session: &Session<F>,
    alloc: Global,
    text: &str,
) -> Result<Option<Vec<u8>>, Fail> {
    let path = Path::parse(alloc, text)?;
    let Some(inode) = session.tree().resolve(&path) else {
        return Ok(None);
    };
    let size = session.tree().size(inode).unwrap_or(0);
    let mut bytes = vec![in alloc; 0u8; size as usize]?;
    session.tree().read(inode, 0, &mut bytes);
    Ok(Some(bytes))
}

/// Whether a file with these bytes stands at a path.
fn holds<F: Flash>(
    session: &Session<F>,
    alloc: Global,
    text: &str,
    bytes: &[u8],
) -> Result<bool, Fail> {
    Ok(match bytes_at(session, alloc, text)? {
        Some(found) => found.as_slice() == bytes,
        None => false,
    })
}

/// Whether nothing stands at a path.
fn is_free<F: Flash>(session: &Session<F>, alloc: Global, text: &str) -> Result<bool, Fail> {
    Ok(session.tree().resolve(&Path::parse(alloc, text)?).is_none())
}

/// Puts bytes at a path of the root, by way of `/.new`.
fn put<F: Flash>(
    session: &mut Session<F>,
    alloc: Global,
    text: &str,
    bytes: &[u8],
) -> Result<Result<(), PutFault>, Fail> {
    let path = Path::parse(alloc, text)?;
    let unfinished = Path::parse(alloc, "/.new")?;
    if !are_beside(&path, &unfinished) {
        return Err("they aren't beside each other".into());
    }
    let paths = PutPaths {
        path: &path,
        unfinished: &unfinished,
    };
    Ok(session.put(paths, bytes))
}
