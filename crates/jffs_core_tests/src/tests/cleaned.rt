//! Cleaning.
//! Sectors, versions and a copy's bytes are worked out on paper from docs/FORMAT.md.

use crate::tests::session::Session;
use jffs_flash::MemoryFlash;
use std::process::Abort;
use std::test::Fail;

/// Nine appending writes of 192 bytes fill three sectors with live records. A tenth is refused once
/// they were copied.
const FILLED: &str = "create /f : appended 2 1
     write /f 0 192*a : appended 2 2
     write /f 192 192*a : appended 2 3
     write /f 384 192*a : appended 2 4
     write /f 576 192*a : appended 2 5
     write /f 768 192*a : appended 2 6
     write /f 960 192*a : appended 2 7
     write /f 1152 192*a : appended 2 8
     write /f 1344 192*a : appended 2 9
     write /f 1536 192*a : appended 2 10
     count erased-sectors : 3
     count live-weight : 2304
     write /f 1728 192*a : refused NoSpace
     count erased-sectors : 3
     count erases : 3
     show records : 3/11/2 3/12/2 3/13/2 4/14/2 4/15/2 4/16/2 5/17/2 5/18/2 5/19/2";

#[test]
fn full_of_live_data(rt: HostRuntime) -> Result<(), Fail> {
    let mut session = Session::erased(rt.alloc(), 6)?;
    session.play(&rt, FILLED)?;
    is_written(&rt, &session)?;
    session.play(
        &rt,
        "remove /f : appended 2 20
         show records : 3/11/2 3/12/2 3/13/2 4/14/2 4/15/2 4/16/2 5/17/2 5/18/2 5/19/2 5/20/2
         erase-dead : 2
         show records : 5/17/2 5/18/2 5/19/2 5/20/2",
    )?;
    assert!(rt; session.is_blank(0, 5120));
    Ok(())
}

/// The file has what the nine writes wrote.
fn is_written(rt: &impl Abort, session: &Session<MemoryFlash>) -> Result<(), Fail> {
    let bytes = session.whole(2)?;
    assert_eq!(rt; bytes.len(), 1728);
    for byte in &bytes {
        assert_eq!(rt; *byte, b'a');
    }
    Ok(())
}

/// A file that was renamed, and another that is written over and over.
const RENAMED: &str = "mkdir /d : appended 2 1
     create /d/a : appended 3 2
     write /d/a 0 hello : appended 3 3
     rename /d/a /d/b : appended 3 4
     create /z : appended 4 5
     write /z 0 192*a : appended 4 6
     write /z 0 192*a : appended 4 7
     write /z 0 192*a : appended 4 8
     count marks 3 : 5
     count marks 4 : 1
     count marks 7 : 0
     count marks 8 : 193
     count live-in 0 : 3
     count live-in 1 : 1
     is oldest-dead : false
     clean-oldest : erased 0 copied 2
     count live-in 0 : 0
     clean-oldest : one sector";

/// The copy of the write of `hello` under its file's new name.
const COPIED: [u8; 72] = [
    0x4A, 0x46, 0x46, 0x31, 1, 2, 1, 0, 0, 0, 0, 3, 0, 0, 0, 2, 0, 0, 0, 10, 0, 0, 0, 0, 0, 0, 0,
    5, 0, 0, 0, 5, 0, 0, 0, 2, 0, 0, 0, 0, 0, 0, 0, 5, 0x62, 0, 0, 0, 0, 0, 0, 0, 0, 0, 0, 0, 0, 0,
    0, 0, 0, 0, 0, 0, 0x68, 0x65, 0x6C, 0x6C, 0x6F, 0xFF, 0xFF, 0xFF,
];

#[test]
fn cleaning_copies_current_names(rt: HostRuntime) -> Result<(), Fail> {
    let session = Session::erased(rt.alloc(), 6)?.remounted_after(&rt, RENAMED)?;
    session.holds(&rt, 1344, COPIED.as_slice());
    session.played(
        &rt,
        "show contents 3 : hello
         show inode-at /d/b : Some(3)",
    )
}

#[test]
fn removed_inode_leaves_no_record(rt: HostRuntime) -> Result<(), Fail> {
    Session::erased(rt.alloc(), 6)?.played(
        &rt,
        "create /a : appended 2 1
         write /a 0 hello : appended 2 2
         remove /a : appended 2 3
         create /z : appended 3 4
         write /z 0 192*a : appended 3 5
         write /z 0 192*a : appended 3 6
         write /z 0 192*a : appended 3 7
         clean-oldest : erased 0 copied 0
         show records : 1/7/3
         create /a : appended 4 8",
    )
}
