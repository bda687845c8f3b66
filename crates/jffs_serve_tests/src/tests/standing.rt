//! What stands after a refusal: of a copy that the cleaner handed in, and of an image that found a
//! ring full. Where records stand is counted from the rules of docs/FORMAT.md.

use crate::tests::cleaning::moved_copies;
use crate::tests::images::{ring, sends, sent_back, taken, takes};
use crate::tests::volumes::{Ask, answered, moved, wish_of};
use jffs_core::Core;
use jffs_flash::MemoryFlash;
use jffs_line::{CLEANER, Request};
use jffs_node::{Name, Path, ROOT_INODE, copied};
use jffs_serve::{JobEnd, Jobs};
use jffs_tree::{Cause, Outcome, Tree, Wish};
use std::alloc::Global;
use std::process::Abort;
use std::test::Fail;

/// The sector, the offset and the version of each record once two copies were granted. The first
/// takes 64 bytes, the second 72.
const RECORDS: [(u32, u32, u32); 10] = [
    (0, 0, 1),
    (0, 64, 2),
    (0, 128, 3),
    (0, 200, 4),
    (0, 264, 5),
    (0, 328, 6),
    (0, 584, 7),
    (1, 0, 8),
    (1, 256, 9),
    (1, 320, 10),
];

/// How many records the log has.
pub(super) fn count_records(core: &Core<MemoryFlash>) -> usize {
    core.log().records().len()
}

/// Where a record stands, and its version.
fn record_at(core: &Core<MemoryFlash>, index: usize) -> Option<(u32, u32, u32)> {
    let record = core.log().records().get(index)?;
    Some((
        u32::from(record.sector),
        u32::from(record.offset),
        record.version,
    ))
}

/// That the log has these records and no others.
fn has_records(rt: &impl Abort, core: &Core<MemoryFlash>, wanted: &[(u32, u32, u32)]) {
    assert_eq!(rt; count_records(core), wanted.len());
    let mut index = 0usize;
    for place in wanted {
        assert_eq!(rt; record_at(core, index), Some(*place));
        index = index.saturating_add(1);
    }
}

/// How many names a directory has.
pub(super) fn names_in(tree: &Tree, inode: u32) -> Result<usize, Fail> {
    Ok(tree.names(inode)?.len())
}

/// What stands at a path.
pub(super) fn resolved(alloc: Global, tree: &Tree, path: &str) -> Result<Option<u32>, Fail> {
    let path = Path::parse(alloc, path)?;
    Ok(tree.resolve(&path))
}

/// Whether a file has the bytes `hello` and no others.
fn is_hello(tree: &Tree, inode: u32) -> bool {
    let mut bytes = [0u8; 8];
    let count = tree.read(inode, 0, &mut bytes);
    &bytes[..count] == b"hello".as_slice()
}

/// That the root has the directory `d` and the file `z` of 192 bytes, and below `d` stands `b`
/// with five bytes.
pub(super) fn has_its_files(rt: &impl Abort, alloc: Global, tree: &Tree) -> Result<(), Fail> {
    assert_eq!(rt; names_in(tree, ROOT_INODE)?, 2);
    assert_eq!(rt; names_in(tree, 2)?, 1);
    let found = resolved(alloc, tree, "/d/b")?.ok_or("/d/b")?;
    assert!(rt; is_hello(tree, found));
    let found = resolved(alloc, tree, "/z")?.ok_or("/z")?;
    assert_eq!(rt; tree.size(found), Some(192));
    Ok(())
}

/// How many dead sectors are erased.
pub(super) fn erased_dead(core: &mut Core<MemoryFlash>) -> Result<u32, Cause> {
    core.erase_dead()
}

/// Answers two of three copies, which are granted, and gives the last.
fn all_but_last(
    rt: &impl Abort,
    core: &mut Core<MemoryFlash>,
    copies: Vec<Request>,
) -> Result<Request, Fail> {
    let mut copies = copies;
    let last = copies.pop().ok_or("three copies")?;
    for copy in copies {
        let outcome = answered(core, copy)?;
        assert!(rt; matches!(outcome, Outcome::Copied { .. }));
    }
    Ok(last)
}

/// That a copy is refused, and changes no byte.
fn is_refused(
    rt: &(impl Abort + AllocGlobal),
    core: &mut Core<MemoryFlash>,
    copy: Request,
) -> Result<(), Fail> {
    let before = core.log().flash().bytes().to_vec(rt.alloc())?;
    let outcome = answered(core, copy)?;
    assert_eq!(rt; outcome, Outcome::Refused(Cause::NotNeeded));
    assert!(rt; core.log().flash().bytes() == before.as_slice());
    Ok(())
}

/// A core that was handed three copies by a cleaner, of which it refused the last: that one
/// changed no byte.
fn with_refused_copy(
    rt: &(impl Abort + AllocGlobal),
    core: &mut Core<MemoryFlash>,
    copies: Vec<Request>,
) -> Result<(), Fail> {
    let last = all_but_last(rt, core, copies)?;
    has_records(rt, core, &RECORDS);
    is_refused(rt, core, last)?;
    has_records(rt, core, &RECORDS);
    has_its_files(rt, rt.alloc(), core.tree())
}

/// A copy of the one write of `/z` that lives, as the cleaner's fourth request.
fn copy_of_z(alloc: Global) -> Result<Request, Fail> {
    let bytes = vec![in alloc; 0x61u8; 192]?;
    Ok(Request {
        writer: CLEANER,
        seq: 4,
        wish: Wish::Copy {
            source: 8,
            parent: ROOT_INODE,
            name: Name::from_bytes(b"z").ok_or("a name")?,
            offset: 0,
            bytes: copied(alloc, &bytes)?,
        },
    })
}

/// That another copy is granted, and then a change.
fn grants_both(rt: &(impl Abort + AllocGlobal), core: &mut Core<MemoryFlash>) -> Result<(), Fail> {
    let next = answered(core, copy_of_z(rt.alloc())?)?;
    assert_eq!(rt; next, Outcome::Copied { version: 11 });
    has_its_files(rt, rt.alloc(), core.tree())?;
    let made = Request {
        writer: 1,
        seq: 9,
        wish: wish_of(rt.alloc(), Ask::File("/n"))?,
    };
    let wanted = Outcome::Appended {
        inode: 5,
        version: 12,
    };
    assert_eq!(rt; answered(core, made)?, wanted);
    Ok(())
}

/// The records that are left once the first sector is erased.
const LEFT: [(u32, u32, u32); 5] = [
    (1, 0, 8),
    (1, 256, 9),
    (1, 320, 10),
    (1, 392, 11),
    (1, 648, 12),
];

/// The next copy is granted, and so is the next change.
#[test]
fn a_refused_copy_changes_nothing_and_the_next_is_granted(rt: HostRuntime) -> Result<(), Fail> {
    let alloc = rt.alloc();
    let mut core = moved(alloc)?;
    let copies = moved_copies(&rt, alloc, &core)?;
    with_refused_copy(&rt, &mut core, copies)?;
    grants_both(&rt, &mut core)?;
    assert_eq!(rt; erased_dead(&mut core), Ok(1));
    has_records(&rt, &core, &LEFT);
    Ok(())
}

/// That a third image comes back from a full ring, and is sent once the first was taken.
fn third_is_sent(
    rt: &(impl Abort + AllocGlobal),
    jobs: &mut Jobs,
    end: &mut JobEnd,
) -> Result<(), Fail> {
    let image = vec![in rt.alloc(); 3u8]?;
    let back = sent_back(jobs, image).ok_or("the ring is full")?;
    assert!(rt; takes(end, &[1]));
    assert!(rt; sent_back(jobs, back).is_none());
    Ok(())
}

#[test]
fn a_full_ring_takes_an_image_once_one_was_taken(rt: HostRuntime) -> Result<(), Fail> {
    let alloc = rt.alloc();
    let (mut jobs, mut end) = ring(alloc, 2)?;
    for byte in [1u8, 2] {
        assert!(rt; sends(alloc, &mut jobs, byte)?);
    }
    third_is_sent(&rt, &mut jobs, &mut end)?;
    for byte in [2u8, 3] {
        assert!(rt; takes(&mut end, &[byte]));
    }
    assert!(rt; taken(&mut end).is_none());
    Ok(())
}
