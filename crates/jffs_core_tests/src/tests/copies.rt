//! Copies that a sender hands in.
//! Causes are those of docs/SCRIPT.md, and where records stand is counted from docs/FORMAT.md.

use crate::tests::session::Session;
use crate::tests::unchanged::changes_nothing;
use jffs_flash::MemoryFlash;
use std::process::Abort;
use std::test::Fail;

#[test]
fn stale_and_needless_copies(rt: HostRuntime) -> Result<(), Fail> {
    let mut session = Session::erased(rt.alloc(), 8)?;
    session.play(
        &rt,
        "create /f : appended 2 1
         write /f 0 hello : appended 2 2
         write /f 0 J : appended 2 3
         copy 2 f 0 hello : refused Stale
         copy 2 g 0 Jello : refused Stale
         copy 2 f 0 Jello : copied 4
         copy 1 f 0 - : refused NotNeeded
         remove /f : appended 2 5
         copy 4 f 0 Jello : refused NotNeeded",
    )?;
    assert!(rt; session.is_blank(352, 8192));
    Ok(())
}

#[test]
fn copies_never_clean(rt: HostRuntime) -> Result<(), Fail> {
    let mut session = Session::erased(rt.alloc(), 6)?;
    copies_to_the_full(&rt, &mut session)?;
    changes_nothing(&rt, &mut session, "copy 45 f 0 - : refused NoSpace")?;
    session.play(
        &rt,
        "count records-in 0 : 15
         count records-in 1 : 15
         count records-in 2 : 15
         copy 45 f 0 193*\0 : refused DataLong
         copy 0 f 0 - : refused NotNeeded
         copy 44 f 0 - : refused NotNeeded
         copy 45 f 1 - : refused Stale
         write /f 0 x : appended 2 46",
    )?;
    assert!(rt; session.is_blank(0, 1024));
    session.holds(&rt, 3088, &[0, 0, 0, 46]);
    Ok(())
}

/// The last node of a file is copied until a further copy has no room.
pub(super) fn copies_to_the_full(
    rt: &impl Abort,
    session: &mut Session<MemoryFlash>,
) -> Result<(), Fail> {
    session.play(rt, "create /f : appended 2 1")?;
    for source in 1..45 {
        copies_again(rt, session, source)?;
    }
    Ok(())
}

/// The node of this version is copied, with the next one.
fn copies_again(
    rt: &impl Abort,
    session: &mut Session<MemoryFlash>,
    source: u32,
) -> Result<(), Fail> {
    let version = source.saturating_add(1);
    let line = format!(in session.alloc; "copy {source} f 0 - : copied {version}")?;
    session.play(rt, line.as_str())
}
