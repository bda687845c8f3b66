//! Requests of writer 1 on a core, without threads.
//! Outcomes, versions and contents are worked out on paper from docs/SCRIPT.md and docs/FORMAT.md.

mod calls;
mod cleaned;
mod copies;
mod durable;
mod examples;
mod faults;
mod images;
mod looks;
mod metered;
mod opened;
mod refusals;
mod session;
mod sweeps;
mod unchanged;
mod unread;
mod versions;
mod wear;
mod wishes;
mod work;

use crate::tests::images::{
    TRUNCATED, WRITTEN_BEHIND, WRITTEN_NOTHING, image_of_last_version, image_of_old_form,
};
use crate::tests::session::Session;
use jffs_core::Answer;
use jffs_flash::MemoryFlash;
use jffs_tree::{Cause, Outcome};
use std::alloc::Global;
use std::process::Abort;
use std::test::Fail;

#[test]
fn clean_mount_stays_closed(rt: HostRuntime) -> Result<(), Fail> {
    let session = Session::erased(rt.alloc(), 8)?.remounted_after(&rt, "unmount : closed")?;
    let image = session.image()?;
    session.played(
        &rt,
        "is clean : true
         is closed : false",
    )?;
    stays_closed(&rt, rt.alloc(), image)
}

/// An image that was closed is closed again without a change.
fn stays_closed(rt: &impl Abort, alloc: Global, image: Vec<u8>) -> Result<(), Fail> {
    let mut session = Session::mounted(alloc, 8, image.clone()?)?;
    session.play(
        rt,
        "unmount : closed
         is closed : true
         is clean : true",
    )?;
    assert!(rt; session.bytes() == image.as_slice());
    Ok(())
}

#[test]
fn overlapping_writes(rt: HostRuntime) -> Result<(), Fail> {
    let session = Session::erased(rt.alloc(), 8)?.remounted_after(
        &rt,
        "create /f : appended 2 1
         write /f 0 hello : appended 2 2
         write /f 1 EY : appended 2 3
         write /f 5 !! : appended 2 4
         write /f 6 abc : appended 2 5
         show contents 2 : hEYlo!abc",
    )?;
    session.played(&rt, "show contents 2 : hEYlo!abc")
}

#[test]
fn holes_and_growth(rt: HostRuntime) -> Result<(), Fail> {
    let session = Session::erased(rt.alloc(), 8)?.remounted_after(
        &rt,
        "create /f : appended 2 1
         write /f 0 hello : appended 2 2
         truncate /f 5 : appended 2 3
         truncate /f 6 : appended 2 4
         show contents 2 : hello\0
         truncate /f 0 : appended 2 5
         write /f 1 A : appended 2 6
         show contents 2 : \0A",
    )?;
    session.played(&rt, "show contents 2 : \0A")
}

#[test]
fn versions_spent(rt: HostRuntime) -> Result<(), Fail> {
    let image = image_of_last_version(rt.alloc())?;
    let mut session = Session::mounted(rt.alloc(), 6, image.clone()?)?;
    session.play(
        &rt,
        "create /x : refused VersionsSpent
         mkdir /a : refused NameTaken
         unmount : refused VersionsSpent",
    )?;
    assert!(rt; session.bytes() == image.as_slice());
    Ok(())
}

#[test]
fn old_form_volume_goes_on(rt: HostRuntime) -> Result<(), Fail> {
    let image = image_of_old_form(rt.alloc())?;
    let session = Session::mounted(rt.alloc(), 8, image)?.remounted_after(
        &rt,
        "is clean : true
         write /f 8 ! : appended 2 4
         show contents 2 : hello\0\0\0!
         truncate /f 12 : appended 2 5
         truncate /f 1048577 : refused FileLong
         write /f 1048576 ! : refused FileLong
         write /f 1048576 - : appended 2 6",
    )?;
    session.holds(&rt, 200, WRITTEN_BEHIND.as_slice());
    session.holds(&rt, 284, TRUNCATED.as_slice());
    session.holds(&rt, 332, WRITTEN_NOTHING.as_slice());
    session.played(&rt, "show contents 2 : hello\0\0\0!\0\0\0")
}

/// The answers to a file that is created twice.
const CREATED_TWICE: [Answer; 2] = [
    Answer {
        writer: 1,
        seq: 1,
        outcome: Outcome::Appended {
            inode: 2,
            version: 1,
        },
    },
    Answer {
        writer: 1,
        seq: 2,
        outcome: Outcome::Refused(Cause::NameTaken),
    },
];

#[test]
fn answers_are_kept_in_order(rt: HostRuntime) -> Result<(), Fail> {
    let mut session = Session::erased(rt.alloc(), 6)?;
    session.ask("create /f")?;
    session.ask("create /f")?;
    assert_eq!(rt; session.core.answers(), CREATED_TWICE.as_slice());
    Ok(())
}

#[test]
fn overwrites_need_no_copy(rt: HostRuntime) -> Result<(), Fail> {
    let mut session = Session::erased(rt.alloc(), 6)?;
    session.play(&rt, "create /f : appended 2 1")?;
    overwrites(&rt, &mut session)?;
    session.play(
        &rt,
        "count erased-sectors : 5
         unmount : closed",
    )?;
    session.holds(&rt, 3088, &[0, 0, 0, 101]);
    session.holds(&rt, 3344, &[0, 0, 0, 102]);
    Ok(())
}

/// The file is written over up to version 101, and each time what is dead is erased.
fn overwrites(rt: &impl Abort, session: &mut Session<MemoryFlash>) -> Result<(), Fail> {
    for version in 2..102 {
        let line = format!(in session.alloc; "write /f 0 192*a : appended 2 {version}")?;
        session.play(rt, line.as_str())?;
        session.erase_dead()?;
    }
    Ok(())
}
