//! Operations one by one.
//! Lines are worked out from docs/SCRIPT.md and docs/FORMAT.md.

use super::records::{DIRECTORY, FILE, Record, image_of};
use super::{replayed, replays, replays_from};
use jffs_tools::run_replay;
use std::process::Abort;
use std::rt::Files;
use std::test::Fail;

#[test]
fn an_erased_volume_is_closed_once(rt: HostRuntime) -> Result<(), Fail> {
    replays(
        &rt,
        "flash 8 1024\n\
        image\n\
        mount\n\
        request 10 1 unmount\n\
        image\n\
        mount\n\
        request 10 1 unmount\n\
        image\n",
        "ready\n\
        7d2c7ac4888bfd75cd5f56e8d61f69595121183afc81556c876732fd3782c62f\n\
        mounted unclean next 1 2 | d /\n\
        closed at 0 ; erased 7 erases 0 weight 0 next 2 2\n\
        479391381a079cebb156c9e3a5edd6ee02a8987817e6466bcc0695f98f6fda8c\n\
        mounted clean next 2 2 | d /\n\
        closed ; erased 7 erases 0 weight 0 next 2 2\n\
        479391381a079cebb156c9e3a5edd6ee02a8987817e6466bcc0695f98f6fda8c\n",
    )
}

#[test]
fn hostile_copies_are_refused(rt: HostRuntime) -> Result<(), Fail> {
    replays(
        &rt,
        "flash 6 1024\n\
        mount\n\
        request 1 1 create /f\n\
        request 1 2 write /f 0 68656c6c6f\n\
        request 1 3 write /f 0 4a\n\
        request 9 1 copy 2 1 f 0 68656c6c6f\n\
        request 9 2 copy 2 1 g 0 4a656c6c6f\n\
        request 9 3 copy 2 1 f 6 -\n\
        request 9 4 copy 2 1 f 0 4a656c6c6f\n\
        request 9 5 copy 1 1 f 0 -\n\
        request 1 4 remove /f\n\
        request 9 6 copy 4 1 f 0 4a656c6c6f\n",
        "ready\n\
        mounted unclean next 1 2 | d /\n\
        appended 2 1 at 0 ; erased 5 erases 0 weight 64 next 2 3\n\
        appended 2 2 at 64 ; erased 5 erases 0 weight 72 next 3 3\n\
        appended 2 3 at 136 ; erased 5 erases 0 weight 140 next 4 3\n\
        refused Stale ; erased 5 erases 0 weight 140 next 4 3\n\
        refused Stale ; erased 5 erases 0 weight 140 next 4 3\n\
        refused Stale ; erased 5 erases 0 weight 140 next 4 3\n\
        copied 4 at 204 ; erased 5 erases 0 weight 72 next 5 3\n\
        refused NotNeeded ; erased 5 erases 0 weight 72 next 5 3\n\
        appended 2 5 at 276 ; erased 5 erases 0 weight 0 next 6 3\n\
        refused NotNeeded ; erased 5 erases 0 weight 0 next 6 3\n",
    )
}

#[test]
fn a_failed_core_tells_of_nothing_more(rt: HostRuntime) -> Result<(), Fail> {
    replays(
        &rt,
        "flash 6 1024\n\
        fuse 3 Writes Nothing\n\
        mount\n\
        request 1 1 create /a\n\
        request 1 2 create /b\n\
        request 1 3 create /c\n\
        clean_oldest\n\
        erase_dead\n\
        mount\n\
        request 1 1 create /c\n",
        "ready\n\
        ready\n\
        mounted unclean next 1 2 | d /\n\
        appended 2 1 at 0 ; erased 5 erases 0 weight 64 next 2 3\n\
        refused Device\n\
        refused Failed\n\
        refused Failed\n\
        refused Failed\n\
        mounted unclean next 2 3 | d / | f /a 0 -\n\
        appended 3 2 at 1024 ; erased 4 erases 0 weight 128 next 3 4\n",
    )
}

#[test]
fn half_a_record_does_not_count(rt: HostRuntime) -> Result<(), Fail> {
    replays(
        &rt,
        "fuse 1 Writes Half\n\
        flash 6 1024\n\
        mount\n\
        request 1 1 create /a\n\
        mount\n\
        request 1 1 create /c\n\
        erase_dead\n\
        clean_oldest\n",
        "ready\n\
        ready\n\
        mounted unclean next 1 2 | d /\n\
        refused Device\n\
        mounted unclean next 1 2 | d /\n\
        appended 2 1 at 1024 ; erased 4 erases 0 weight 64 next 2 3\n\
        erased 1 ; erased 5 erases 1 weight 64 next 2 3\n\
        one sector ; erased 5 erases 1 weight 64 next 2 3\n",
    )
}

#[test]
fn a_read_that_fails_refuses_the_mount(rt: HostRuntime) -> Result<(), Fail> {
    replays(
        &rt,
        "flash 6 1024\nfuse 0 All Half\nmount\nmount\n",
        "ready\nready\nrefused Device\nmounted unclean next 1 2 | d /\n",
    )
}

#[test]
fn spent_numbers_are_none(rt: HostRuntime) -> Result<(), Fail> {
    let last = Record {
        version: u32::MAX,
        ..DIRECTORY
    };
    replays_from(
        &rt,
        image_of(rt.alloc(), &[&[last]], 6)?,
        "mount\nrequest 1 1 create /x\nrequest 1 2 mkdir /a\nrequest 10 1 unmount\n",
        "mounted unclean next none 3 | d / | d /a\n\
        refused VersionsSpent ; erased 5 erases 0 weight 64 next none 3\n\
        refused NameTaken ; erased 5 erases 0 weight 64 next none 3\n\
        refused VersionsSpent ; erased 5 erases 0 weight 64 next none 3\n",
    )?;
    let highest = Record {
        inode: u32::MAX,
        ..FILE
    };
    replays_from(
        &rt,
        image_of(rt.alloc(), &[&[highest]], 6)?,
        "mount\nrequest 1 1 create /x\nrequest 1 2 rename /f /x\n",
        "mounted unclean next 2 none | d / | f /f 0 -\n\
        refused InodesSpent ; erased 5 erases 0 weight 64 next 2 none\n\
        appended 4294967295 2 at 64 ; erased 5 erases 0 weight 64 next 3 none\n",
    )?;
    Ok(())
}

#[test]
fn the_last_version_is_counted(rt: HostRuntime) -> Result<(), Fail> {
    let last = Record {
        version: u32::MAX - 1,
        ..DIRECTORY
    };
    replays_from(
        &rt,
        image_of(rt.alloc(), &[&[last]], 6)?,
        "mount\nrequest 10 1 unmount\n",
        "mounted unclean next 4294967295 3 | d / | d /a\n\
        closed at 64 ; erased 5 erases 0 weight 64 next none 3\n",
    )?;
    Ok(())
}

/// Each line stands fourth in a script that was sound before it.
fn stops<Rt: Abort + Files + AllocGlobal>(rt: &Rt, rows: &[(&str, &str)]) -> Result<(), Fail> {
    for (line, wanted) in rows {
        let script = format!(in rt.alloc();
            "# A comment.\n\nfuse 1 All Nothing\n{line}\nfuse 1 All Nothing\n"
        )?;
        let mut input = script.as_bytes();
        let mut out = Vec::new(rt.alloc());
        let mut errors = Vec::new(rt.alloc());
        let ended = run_replay(rt, &[], &mut input, &mut out, &mut errors);
        assert_eq!(rt; ended, 2, "of {line}");
        assert_eq!(rt; out.as_slice(), b"ready\n".as_slice(), "of {line}");
        let wanted = format!(in rt.alloc(); "jffs_replay: line 4: {wanted}\n")?;
        assert_eq!(rt; errors.as_slice(), wanted.as_str().as_bytes());
    }
    Ok(())
}

#[test]
fn what_is_no_operation_stops_a_replay(rt: HostRuntime) -> Result<(), Fail> {
    stops(
        &rt,
        &[
            ("mount", "there is no flash yet"),
            ("image", "there is no flash yet"),
            ("request 1 1 create /a", "nothing is mounted"),
            ("clean_oldest", "nothing is mounted"),
            ("flash 6", "a word is missing: flash S Z"),
            ("flash 6 1k", "number expected, got '1k'"),
            (
                "frobnicate",
                "unknown operation 'frobnicate'; operations are flash, image, fuse, mount, \
                request, clean_oldest and erase_dead",
            ),
            ("mount now", "unexpected word 'now': mount"),
            (
                "fuse 1 Reads Half",
                "'Writes' or 'All' expected, got 'Reads'",
            ),
            (
                "fuse 1 All Much",
                "'Nothing' or 'Half' expected, got 'Much'",
            ),
            (
                "image no_such_file 6 1024",
                "there is no file 'no_such_file'",
            ),
            ("image . 6 1024", "the file '.' can't be read"),
            (
                "image f 6",
                "a word is missing: image FILE S Z, or image alone",
            ),
        ],
    )
}

#[test]
fn what_is_no_request_stops_a_replay(rt: HostRuntime) -> Result<(), Fail> {
    stops(
        &rt,
        &[
            (
                "request 65536 1 create /a",
                "number from 0 to 65535 expected, got '65536'",
            ),
            (
                "request 1 1",
                "a word is missing: request WRITER SEQ COMMAND",
            ),
            ("request 1 1 unmount now", "unexpected word 'now': unmount"),
            (
                "request 1 1 copy 1 1 a/b 0 -",
                "name expected, got 'a/b': 1 to 20 printable bytes, and no slash",
            ),
            (
                "request 1 1 copy 1 1 a 0",
                "a word is missing: copy SOURCE PARENT NAME OFFSET HEX",
            ),
            (
                "request 1 1 write /a 0 6",
                "hex expected, got '6': the number of its digits is odd",
            ),
            (
                "request 1 1 writer",
                "unknown command 'writer'; commands are mkdir, create, write, fill, truncate, \
                rename, remove, copy and unmount",
            ),
        ],
    )
}

#[test]
fn a_closed_core_takes_no_request(rt: HostRuntime) -> Result<(), Fail> {
    let out = replayed(
        &rt,
        "flash 6 1024\nmount\nrequest 10 1 unmount\nrequest 1 1 create /a\n",
        2,
    )?;
    assert!(rt; out.as_str().ends_with("next 2 2\n"));
    Ok(())
}

#[test]
fn a_write_without_bytes_has_the_limit_of_a_file(rt: HostRuntime) -> Result<(), Fail> {
    replays(
        &rt,
        "flash 6 1024\n\
        mount\n\
        request 1 1 create /f\n\
        request 1 2 write /f 1048576 -\n\
        request 1 3 write /f 1048577 -\n",
        "ready\n\
        mounted unclean next 1 2 | d /\n\
        appended 2 1 at 0 ; erased 5 erases 0 weight 64 next 2 3\n\
        appended 2 2 at 64 ; erased 5 erases 0 weight 64 next 3 3\n\
        refused FileLong ; erased 5 erases 0 weight 64 next 3 3\n",
    )
}

#[test]
fn a_copy_of_a_directory_has_no_bytes_and_no_offset(rt: HostRuntime) -> Result<(), Fail> {
    replays(
        &rt,
        "flash 6 1024\n\
        mount\n\
        clean_oldest\n\
        request 1 1 mkdir /d\n\
        request 9 1 copy 1 1 d 1 -\n\
        request 9 2 copy 1 1 d 0 61\n\
        request 9 3 copy 1 1 d 0 -\n",
        "ready\n\
        mounted unclean next 1 2 | d /\n\
        one sector ; erased 6 erases 0 weight 0 next 1 2\n\
        appended 2 1 at 0 ; erased 5 erases 0 weight 64 next 2 3\n\
        refused Stale ; erased 5 erases 0 weight 64 next 2 3\n\
        refused Stale ; erased 5 erases 0 weight 64 next 2 3\n\
        copied 2 at 64 ; erased 5 erases 0 weight 64 next 3 3\n",
    )
}

#[test]
fn a_fuse_waits_for_the_next_mount(rt: HostRuntime) -> Result<(), Fail> {
    replays(
        &rt,
        "fuse 7 All Half\n\
        fuse 0 Writes Nothing\n\
        flash 6 1024\n\
        mount\n\
        request 1 1 mkdir /d\n\
        fuse 0 Writes Nothing\n\
        flash 5 1024\n\
        mount\n\
        flash 6 1024\n\
        mount\n\
        request 1 1 mkdir /d\n",
        "ready\n\
        ready\n\
        ready\n\
        mounted unclean next 1 2 | d /\n\
        refused Device\n\
        ready\n\
        ready\n\
        refused Geometry\n\
        ready\n\
        mounted unclean next 1 2 | d /\n\
        appended 2 1 at 0 ; erased 5 erases 0 weight 64 next 2 3\n",
    )
}

#[test]
fn a_closed_core_is_still_cleaned(rt: HostRuntime) -> Result<(), Fail> {
    let mut script = String::from_str(
        rt.alloc(),
        "flash 6 1024\nmount\nrequest 1 1 mkdir /d\nrequest 1 2 create /f\n",
    )?;
    for seq in 3..17 {
        script.push_str(format!(in rt.alloc(); "request 1 {seq} truncate /f 0\n")?.as_str())?;
    }
    script.push_str("request 10 1 unmount\nclean_oldest\nerase_dead\nmount\n")?;
    let out = replayed(&rt, script.as_str(), 0)?;
    let wanted = "closed at 1088 ; erased 4 erases 0 weight 128 next 18 4\n\
        erased sector 0 copies 1 ; erased 5 erases 1 weight 128 next 19 4\n\
        erased 0 ; erased 5 erases 1 weight 128 next 19 4\n\
        mounted unclean next 19 4 | d / | d /d | f /f 0 -\n";
    assert!(rt; out.as_str().ends_with(wanted), "got {out}");
    Ok(())
}
