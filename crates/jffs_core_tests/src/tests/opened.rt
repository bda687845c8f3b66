//! A device that is opened after an erase that was cut off.
//! What it holds then is worked out on paper from docs/FORMAT.md.

use crate::tests::session::{SECTOR_SIZE, Session, mount_or_why};
use jffs_core::{Core, Opened};
use jffs_flash::MemoryFlash;
use jffs_log::ScanWhy;
use jffs_node::Why;
use std::alloc::Global;
use std::process::Abort;
use std::test::Fail;

/// A record of 64 bytes and three of 256 fill the first sector. The one after them stands in the
/// second one, and takes over from all of them.
const DEAD_OLDEST: &str = "create /f : appended 2 1
     write /f 0 192*a : appended 2 2
     write /f 0 192*b : appended 2 3
     write /f 0 192*c : appended 2 4
     write /f 0 192*d : appended 2 5
     count live-in 0 : 0";

/// What a volume holds whose oldest sector is dead.
fn dead_oldest(rt: &impl Abort, alloc: Global) -> Result<Vec<u8>, Fail> {
    let mut session = Session::erased(alloc, 6)?;
    session.play(rt, DEAD_OLDEST)?;
    Ok(session.image()?)
}

/// Flash of six sectors with these bytes.
fn flash_of(image: Vec<u8>) -> Result<MemoryFlash, Fail> {
    if image.len() != 6 * SECTOR_SIZE as usize {
        return Err("another length".into());
    }
    Ok(MemoryFlash::from_bytes(6, SECTOR_SIZE, image))
}

/// The session on a device that was opened, and the sector whose erase was ended.
fn opened(alloc: Global, image: Vec<u8>) -> Result<(Session<MemoryFlash>, Option<u32>), Fail> {
    match Core::open(alloc, flash_of(image)?) {
        Ok(Opened { core, sector }) => Ok((Session::of(alloc, core), sector)),
        Err(fault) => Err(fault.why.into()),
    }
}

#[test]
fn an_erase_that_was_cut_off_is_ended(rt: HostRuntime) -> Result<(), Fail> {
    let mut image = dead_oldest(&rt, rt.alloc())?;
    for byte in image.iter_mut().take(4) {
        *byte = 0;
    }
    let why = ScanWhy::BadRecord {
        sector: 0,
        place: 0,
        why: Why::Magic,
    };
    assert_eq!(rt;
        mount_or_why(rt.alloc(), flash_of(image.clone()?)?).err(),
        Some(why)
    );
    let (mut session, sector) = opened(rt.alloc(), image)?;
    assert_eq!(rt; sector, Some(0));
    assert!(rt; session.is_blank(0, SECTOR_SIZE as usize));
    session.play(
        &rt,
        "count erased-sectors : 5
         write /f 0 H : appended 2 6
         truncate /f 5 : appended 2 7
         show contents 2 : Hdddd",
    )?;
    session.remounted()?.played(&rt, "show contents 2 : Hdddd")
}

#[test]
fn a_device_without_such_a_sector_stays_as_it_is(rt: HostRuntime) -> Result<(), Fail> {
    let image = dead_oldest(&rt, rt.alloc())?;
    let (session, sector) = opened(rt.alloc(), image.clone()?)?;
    assert_eq!(rt; sector, None);
    assert!(rt; session.bytes() == image.as_slice());
    session.played(&rt, "count erased-sectors : 4")
}
