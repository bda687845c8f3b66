//! Devices that fail.
//! Outcomes, names and offsets are worked out on paper from docs/SCRIPT.md and docs/FORMAT.md.

use crate::tests::session::{Session, erased_flash};
use jffs_flash::{Fail as FuseFail, FuseFlash, Fused, MemoryFlash};
use std::alloc::Global;
use std::process::Abort;
use std::test::Fail;

/// On a device whose fuse blows after so many writes.
fn fused(alloc: Global, calls: u64, fail: FuseFail) -> Result<Session<FuseFlash>, Fail> {
    let flash = erased_flash(alloc, 6)?;
    Session::over(alloc, FuseFlash::new(flash, calls, Fused::Writes, fail))
}

/// What a mount finds after a script on the device without its fuse.
fn left_by(
    rt: &impl Abort,
    mut session: Session<FuseFlash>,
    script: &str,
) -> Result<Session<MemoryFlash>, Fail> {
    session.play(rt, script)?;
    let alloc = session.alloc;
    Session::over(alloc, session.into_flash().into_inner())
}

#[test]
fn device_fault_then_remount(rt: HostRuntime) -> Result<(), Fail> {
    let fused = fused(rt.alloc(), 3, FuseFail::Nothing)?;
    let mut session = left_by(
        &rt,
        fused,
        "create /a : appended 2 1
         create /b : refused Device
         create /c : refused Failed
         clean-oldest : refused Failed
         erase-dead : refused Failed",
    )?;
    session.play(
        &rt,
        "is clean : false
         show names : 1
         create /c : appended 3 2",
    )?;
    session.holds(&rt, 1024, b"JFF1");
    Ok(())
}

#[test]
fn half_record_does_not_count(rt: HostRuntime) -> Result<(), Fail> {
    let fused = fused(rt.alloc(), 1, FuseFail::Half)?;
    let mut session = left_by(&rt, fused, "create /a : refused Device")?;
    session.play(
        &rt,
        "is clean : false
         show names : 0
         create /c : appended 2 1
         erase-dead : 1",
    )?;
    session.holds(&rt, 1024, b"JFF1");
    Ok(())
}
