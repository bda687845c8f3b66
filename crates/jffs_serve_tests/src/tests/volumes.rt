//! What writers ask for, and mounted volumes after some of that.

use jffs_core::Core;
use jffs_flash::{Flash, MemoryFlash};
use jffs_line::Request;
use jffs_node::{Path, copied};
use jffs_tree::{Outcome, Wish};
use std::alloc::Global;
use std::test::Fail;

/// A wish in words that take no memory.
#[derive(Clone, Copy)]
pub(super) enum Ask {
    Dir(&'static str),
    File(&'static str),
    Rename(&'static str, &'static str),
    Cut(&'static str, u32),
    /// A text at offset 0.
    Text(&'static str, &'static str),
    /// Bytes at this offset, in a record that takes a quarter of a sector.
    Fill(&'static str, u32),
    Unmount,
}

/// A file of 1,728 bytes is truncated to that size, and then the control unmounts.
pub(super) const CUT_AND_UNMOUNT: [Ask; 2] = [Ask::Cut("/f", 1728), Ask::Unmount];

/// How many bytes a quarter of a sector has room for.
const FILLED: usize = 192;

fn rename(alloc: Global, from: &str, to: &str) -> Result<Wish, Fail> {
    Ok(Wish::Rename {
        from: Path::parse(alloc, from)?,
        to: Path::parse(alloc, to)?,
    })
}

fn write(alloc: Global, path: &str, offset: u32, bytes: &[u8]) -> Result<Wish, Fail> {
    Ok(Wish::Write {
        path: Path::parse(alloc, path)?,
        offset,
        bytes: copied(alloc, bytes)?,
    })
}

/// A write whose record takes a quarter of a sector.
fn fill(alloc: Global, path: &str, offset: u32) -> Result<Wish, Fail> {
    let bytes = vec![in alloc; 0x61u8; FILLED]?;
    write(alloc, path, offset, &bytes)
}

/// The wish itself.
pub(super) fn wish_of(alloc: Global, ask: Ask) -> Result<Wish, Fail> {
    match ask {
        Ask::Dir(path) => Ok(Wish::MakeDir(Path::parse(alloc, path)?)),
        Ask::File(path) => Ok(Wish::Create(Path::parse(alloc, path)?)),
        Ask::Rename(from, to) => rename(alloc, from, to),
        Ask::Cut(path, size) => {
            let path = Path::parse(alloc, path)?;
            Ok(Wish::Truncate { path, size })
        }
        Ask::Text(path, text) => write(alloc, path, 0, text.as_bytes()),
        Ask::Fill(path, offset) => fill(alloc, path, offset),
        Ask::Unmount => Ok(Wish::Unmount),
    }
}

/// A core over a device that mounts.
pub(super) fn mounted<F: Flash + Drop>(alloc: Global, flash: F) -> Result<Core<F>, Fail> {
    match Core::mount(alloc, flash) {
        Ok(core) => Ok(core),
        Err(fault) => Err(fault.why.into()),
    }
}

/// An erased volume, mounted.
pub(super) fn erased(alloc: Global, sectors: u32) -> Result<Core<MemoryFlash>, Fail> {
    mounted(alloc, MemoryFlash::new(alloc, sectors, 1024)?)
}

/// What a request is answered.
pub(super) fn answered<F: Flash>(core: &mut Core<F>, request: Request) -> Result<Outcome, Fail> {
    core.reserve_answer()?;
    Ok(core.answer(request))
}

/// Answers a wish of writer 1, which has to be granted.
fn grant(alloc: Global, core: &mut Core<MemoryFlash>, seq: u32, ask: Ask) -> Result<(), Fail> {
    let wish = wish_of(alloc, ask)?;
    let request = Request {
        writer: 1,
        seq,
        wish,
    };
    match answered(core, request)? {
        Outcome::Appended { .. } => Ok(()),
        Outcome::Refused(cause) => Err(cause.into()),
        _ => Err("it is appended".into()),
    }
}

/// Answers the wishes of writer 1, in order.
fn grant_all(alloc: Global, core: &mut Core<MemoryFlash>, asks: &[Ask]) -> Result<(), Fail> {
    let mut seq = 0u32;
    for ask in asks {
        seq = seq.saturating_add(1);
        grant(alloc, core, seq, *ask)?;
    }
    Ok(())
}

/// A volume of six sectors after these wishes.
fn volume(alloc: Global, asks: &[Ask]) -> Result<Core<MemoryFlash>, Fail> {
    let mut core = erased(alloc, 6)?;
    grant_all(alloc, &mut core, asks)?;
    Ok(core)
}

/// A file of 1,728 bytes: four records in sector 0, three in sector 1, three in sector 2.
pub(super) fn filled(alloc: Global) -> Result<Core<MemoryFlash>, Fail> {
    let asks = [
        Ask::File("/f"),
        Ask::Fill("/f", 0),
        Ask::Fill("/f", 192),
        Ask::Fill("/f", 384),
        Ask::Fill("/f", 576),
        Ask::Fill("/f", 768),
        Ask::Fill("/f", 960),
        Ask::Fill("/f", 1152),
        Ask::Fill("/f", 1344),
        Ask::Fill("/f", 1536),
    ];
    volume(alloc, &asks)
}

/// In sector 0 `/d`, `/d/a` with five bytes that was renamed to `/d/b`, and `/z`, of which the last
/// of three writes stands in sector 1.
pub(super) fn moved(alloc: Global) -> Result<Core<MemoryFlash>, Fail> {
    let asks = [
        Ask::Dir("/d"),
        Ask::File("/d/a"),
        Ask::Text("/d/a", "hello"),
        Ask::Rename("/d/a", "/d/b"),
        Ask::File("/z"),
        Ask::Fill("/z", 0),
        Ask::Fill("/z", 0),
        Ask::Fill("/z", 0),
    ];
    volume(alloc, &asks)
}

/// A file of 192 bytes that was written so often that three sectors hold the log. Only the last
/// record lives.
pub(super) fn dead_below_tail(alloc: Global) -> Result<Core<MemoryFlash>, Fail> {
    let asks = [
        Ask::File("/z"),
        Ask::Fill("/z", 0),
        Ask::Fill("/z", 0),
        Ask::Fill("/z", 0),
        Ask::Fill("/z", 0),
        Ask::Fill("/z", 0),
        Ask::Fill("/z", 0),
        Ask::Fill("/z", 0),
        Ask::Fill("/z", 0),
    ];
    volume(alloc, &asks)
}

/// Six empty files, all in the first sector.
pub(super) fn six_created(alloc: Global) -> Result<Core<MemoryFlash>, Fail> {
    let asks = [
        Ask::File("/a"),
        Ask::File("/b"),
        Ask::File("/c"),
        Ask::File("/d"),
        Ask::File("/e"),
        Ask::File("/f"),
    ];
    volume(alloc, &asks)
}
