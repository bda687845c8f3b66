//! What is done between two answers: dead sectors are erased, and then perhaps an image is sent.
//! How many sectors are held and erased is counted from the lengths of records in docs/FORMAT.md.

use crate::tests::images::taken;
use crate::tests::rounds::served;
use crate::tests::volumes::{Ask, dead_below_tail};
use jffs_core::Core;
use jffs_flash::MemoryFlash;
use jffs_serve::Served;
use std::test::Fail;

/// How many sectors hold the log, and how many were erased.
fn held_and_erases(core: &Core<MemoryFlash>) -> (u32, u64) {
    let log = core.log();
    (log.held(), log.erases())
}

#[test]
fn dead_sectors_are_erased_between_answers(rt: HostRuntime) -> Result<(), Fail> {
    let alloc = rt.alloc();
    let core = dead_below_tail(alloc)?;
    assert_eq!(rt; held_and_erases(&core), (3, 0));
    let mut left = served(&rt, alloc, core, &[Ask::File("/f")])?;
    assert_eq!(rt; left.served, Served::Ended);
    assert_eq!(rt; held_and_erases(left.session.core()), (1, 2));
    // Before they were erased a cleaner was wanted for the first of them.
    assert!(rt; taken(&mut left.end).is_none());
    Ok(())
}

#[test]
fn nothing_is_erased_after_the_unmount(rt: HostRuntime) -> Result<(), Fail> {
    let alloc = rt.alloc();
    let left = served(&rt, alloc, dead_below_tail(alloc)?, &[Ask::Unmount])?;
    assert_eq!(rt; left.served, Served::Closed);
    assert_eq!(rt; held_and_erases(left.session.core()), (3, 0));
    assert!(rt; left.session.core().clean());
    Ok(())
}
