//! The last versions are used by the copies of a cleaning.
//! How many copies there are is counted from the lengths of records in docs/FORMAT.md.

use crate::tests::session::{SECTOR_SIZE, Session};
use jffs_flash::MemoryFlash;
use jffs_tree::Outcome;
use std::alloc::Global;
use std::test::Fail;

/// How many bytes a record without data takes.
const RECORD: usize = 64;

/// Where a record has its version, in bytes from its start.
const VERSION_AT: usize = 16;

/// How many such records a sector takes that leave 64 bytes after the last.
const IN_A_SECTOR: u32 = 15;

/// Three of six sectors full: as many as fresh records take.
const DIRECTORIES: u32 = 3 * IN_A_SECTOR;

/// Three sectors full of directories, all live.
fn filled(alloc: Global) -> Result<Session<MemoryFlash>, Fail> {
    let mut session = Session::erased(alloc, 6)?;
    for number in 0..DIRECTORIES {
        let line = format!(in alloc; "mkdir /d{number}")?;
        if !is_made(&mut session, line.as_str())? {
            return Err("a directory isn't made".into());
        }
    }
    Ok(session)
}

fn is_made(session: &mut Session<MemoryFlash>, line: &str) -> Result<bool, Fail> {
    Ok(matches!(session.ask(line)?, Outcome::Appended { .. }))
}

/// Gives the record that begins at an offset another version.
fn renumber(image: &mut [u8], at: usize, version: u32) -> Result<(), Fail> {
    let mut place = at.saturating_add(VERSION_AT);
    for byte in version.to_be_bytes() {
        *image.get_mut(place).ok_or("no such record")? = byte;
        place = place.saturating_add(1);
    }
    Ok(())
}

/// After the newest of the directories `left` versions are left.
fn renumber_all(image: &mut [u8], left: u32) -> Result<(), Fail> {
    for number in 0..DIRECTORIES {
        let sector = (number / IN_A_SECTOR * SECTOR_SIZE) as usize;
        let at = sector + (number % IN_A_SECTOR) as usize * RECORD;
        let version = (u32::MAX - DIRECTORIES + 1 + number).saturating_sub(left);
        renumber(image, at, version)?;
    }
    Ok(())
}

/// Three sectors full of directories, all live, after the newest of which `left` versions are left.
fn with_versions_left(alloc: Global, left: u32) -> Result<Session<MemoryFlash>, Fail> {
    let mut image = filled(alloc)?.image()?;
    renumber_all(&mut image, left)?;
    Session::mounted(alloc, 6, image)
}

#[test]
fn the_last_version_is_used_while_room_is_made(rt: HostRuntime) -> Result<(), Fail> {
    let session = with_versions_left(rt.alloc(), 3)?.remounted_after(
        &rt,
        "mkdir /more : refused VersionsSpent
         mkdir /d0 : refused NameTaken
         unmount : refused VersionsSpent
         count records-in 3 : 3
         count erases : 0",
    )?;
    session.played(&rt, "show names : 45")
}

#[test]
fn a_cleaning_stops_where_no_version_is_left_for_a_copy(rt: HostRuntime) -> Result<(), Fail> {
    let session = with_versions_left(rt.alloc(), 14)?.remounted_after(
        &rt,
        "clean-oldest : refused VersionsSpent
         count records-in 3 : 14
         count records-in 0 : 15",
    )?;
    session.played(&rt, "show names : 45")
}

#[test]
fn a_cleaning_may_use_the_last_version(rt: HostRuntime) -> Result<(), Fail> {
    let session = with_versions_left(rt.alloc(), 15)?.remounted_after(
        &rt,
        "clean-oldest : erased 0 copied 15
         mkdir /more : refused VersionsSpent",
    )?;
    session.played(&rt, "show names : 45")
}
