//! What a refused request leaves.
//! Causes are those of docs/SCRIPT.md; what has to stand is what stood before.

use crate::tests::copies::copies_to_the_full;
use crate::tests::images::{image_of_last_inode, image_of_last_version};
use crate::tests::session::Session;
use jffs_flash::{Flash, MemoryFlash};
use jffs_tree::Limits;
use std::alloc::Global;
use std::process::Abort;
use std::test::Fail;

/// What is counted of a session, by the device and in memory.
#[derive(Clone, Copy, PartialEq, Eq)]
struct Counts {
    faults: u64,
    erases: u64,
    held: u32,
    records: usize,
    limits: Limits,
    clean: bool,
}

fn counts_of(session: &Session<MemoryFlash>) -> Counts {
    let core = &session.core;
    Counts {
        faults: core.log().flash().faults(),
        erases: core.log().erases(),
        held: core.log().held(),
        records: core.log().records().len(),
        limits: core.limits(),
        clean: core.clean(),
    }
}

/// Each line's wish is answered as it says, and no byte and no count is changed.
pub(super) fn changes_nothing(
    rt: &impl Abort,
    session: &mut Session<MemoryFlash>,
    script: &str,
) -> Result<(), Fail> {
    let image = session.image()?;
    let counts = counts_of(session);
    for line in script.lines() {
        session.play(rt, line)?;
        assert!(rt; session.bytes() == image.as_slice(), "at {line}");
        assert!(rt; counts_of(session) == counts, "at {line}");
    }
    Ok(())
}

/// A file, a directory with a name in it, and an oldest sector without a live record.
fn over_dead_records(rt: &impl Abort, alloc: Global) -> Result<Session<MemoryFlash>, Fail> {
    let mut session = Session::erased(alloc, 8)?;
    session.play(
        rt,
        "create /f : appended 2 1
         write /f 0 192*a : appended 2 2
         write /f 0 192*a : appended 2 3
         write /f 0 192*a : appended 2 4
         write /f 0 192*a : appended 2 5
         mkdir /d : appended 3 6
         create /d/a : appended 4 7
         is oldest-dead : true",
    )?;
    Ok(session)
}

/// A file whose last node was copied until a further copy has no room, over two dead sectors.
fn full_of_copies(rt: &impl Abort, alloc: Global) -> Result<Session<MemoryFlash>, Fail> {
    let mut session = Session::erased(alloc, 6)?;
    copies_to_the_full(rt, &mut session)?;
    session.play(rt, "is oldest-dead : true")?;
    Ok(session)
}

#[test]
fn a_refused_request_changes_nothing(rt: HostRuntime) -> Result<(), Fail> {
    changes_nothing(
        &rt,
        &mut over_dead_records(&rt, rt.alloc())?,
        "mkdir / : refused RootFixed
         create /x/y : refused NoParent
         mkdir /f : refused NameTaken
         remove /x : refused NotFound
         write /d 0 x : refused IsDirectory
         write /f 0 193*a : refused DataLong
         truncate /f 1048577 : refused FileLong
         remove /d : refused NotEmpty
         copy 2 f 0 192*a : refused NotNeeded
         copy 5 g 0 192*a : refused Stale",
    )?;
    changes_nothing(
        &rt,
        &mut full_of_copies(&rt, rt.alloc())?,
        "copy 45 f 0 - : refused NoSpace",
    )
}

#[test]
fn a_request_without_a_number_changes_nothing(rt: HostRuntime) -> Result<(), Fail> {
    let alloc = rt.alloc();
    changes_nothing(
        &rt,
        &mut Session::mounted(alloc, 6, image_of_last_inode(alloc)?)?,
        "create /x : refused InodesSpent
         mkdir /x : refused InodesSpent",
    )?;
    changes_nothing(
        &rt,
        &mut Session::mounted(alloc, 6, image_of_last_version(alloc)?)?,
        "create /x : refused VersionsSpent
         unmount : refused VersionsSpent",
    )
}
