//! Images byte by byte, by the format's page: some that no command leaves, written by hand, and
//! what commands leave.

use super::plays;
use jffs_manage::run_volume;
use std::alloc::Global;
use std::fs;
use std::fs::File;
use std::process::Abort;
use std::rt::Files;
use std::test::Fail;

/// The record of a directory with the name `d`.
fn directory(inode: u32, parent: u32, version: u32) -> [u8; 64] {
    let mut record = [0u8; 64];
    record[..8].copy_from_slice(b"JFF1\x02\x00\x01\x00");
    record[8..12].copy_from_slice(&inode.to_be_bytes());
    record[12..16].copy_from_slice(&parent.to_be_bytes());
    record[16..20].copy_from_slice(&version.to_be_bytes());
    record[35] = 1;
    record[44] = b'd';
    record
}

/// What an erased sector begins with.
const FREE: [u8; 64] = [0xFF; 64];

/// The image of sectors of 1,024 bytes that begin with these bytes, and are erased after them.
fn image_of(alloc: Global, sectors: &[[u8; 64]]) -> Result<Vec<u8>, Fail> {
    let mut image = Vec::new(alloc);
    for sector in sectors {
        image.extend_from_slice(sector)?;
        for _ in 64..1024 {
            image.push(0xFFu8)?;
        }
    }
    Ok(image)
}

#[test]
fn versions_that_are_spent_have_their_text(rt: HostRuntime) -> Result<(), Fail> {
    let spent = directory(2, 1, u32::MAX);
    let image = image_of(rt.alloc(), &[spent, FREE, FREE, FREE, FREE, FREE])?;
    fs::write(&rt, "n.image", image)?;
    plays(
        &rt,
        &[
            ("check n.image", "", 0, "volume unclean, 1 records\n"),
            ("ls n.image", "", 0, "d d\n"),
            (
                "mkdir n.image /e",
                "",
                4,
                "jffs_volume: n.image: /e: no version is left\n",
            ),
            (
                "rm n.image /d",
                "",
                4,
                "jffs_volume: n.image: /d: no version is left\n",
            ),
        ],
    )?;
    fs::remove_file(&rt, "n.image")?;
    Ok(())
}

/// What a call writes to standard error, which ends with status 0.
fn told_of<Rt: Abort + Files<File = File> + AllocGlobal + Clone + Drop>(
    rt: &Rt,
    words: &[&str],
    input: &[u8],
    wanted: &str,
) -> Result<String, Fail> {
    let mut called = Vec::new(rt.alloc());
    for word in words {
        called.push(String::from_str(rt.alloc(), *word)?)?;
    }
    let mut input = input;
    let mut out = Vec::new(rt.alloc());
    let mut errors = Vec::new(rt.alloc());
    let ended = run_volume(rt, &called, &mut input, &mut out, &mut errors, false);
    assert_eq!(rt; ended, 0);
    assert_eq!(rt; out.as_slice(), wanted.as_bytes());
    Ok(String::from_utf8(errors)?)
}

const NO_UNMOUNT: &str = "jffs_volume: m.image: no version is left: the last change is done, and \
the volume can't be unmounted any more\n";

/// A change takes the last version, and so none is left for the unmount.
#[test]
fn the_last_version_is_used_and_told_of(rt: HostRuntime) -> Result<(), Fail> {
    let last = directory(2, 1, u32::MAX - 1);
    let image = image_of(rt.alloc(), &[last, FREE, FREE, FREE, FREE, FREE])?;
    for (words, input, answers, left) in [
        (
            ["serve", "m.image"].as_slice(),
            "create 2\n/funmount\n",
            "pumpgrape 1\nok\nrefused VersionsSpent\n",
            "d d\nf 0 f\n",
        ),
        (
            ["serve", "m.image"].as_slice(),
            "create 2\n/f",
            "pumpgrape 1\nok\n",
            "d d\nf 0 f\n",
        ),
        (["mkdir", "m.image", "/e"].as_slice(), "", "", "d d\nd e\n"),
        (["mv", "m.image", "/d", "/e"].as_slice(), "", "", "d e\n"),
        (["rm", "m.image", "/d"].as_slice(), "", "", ""),
    ] {
        fs::write(&rt, "m.image", image.clone()?)?;
        let mut call = Vec::new(rt.alloc());
        call.push("jffs_volume")?;
        call.extend_from_slice(words)?;
        let told = told_of(&rt, &call, input.as_bytes(), answers)?;
        assert_eq!(rt; told.as_str(), NO_UNMOUNT);
        plays(&rt, &[("ls m.image", "", 0, left)])?;
    }
    fs::remove_file(&rt, "m.image")?;
    Ok(())
}

#[test]
fn inodes_that_are_spent_have_their_text(rt: HostRuntime) -> Result<(), Fail> {
    let spent = directory(u32::MAX, 1, 1);
    let image = image_of(rt.alloc(), &[spent, FREE, FREE, FREE, FREE, FREE])?;
    fs::write(&rt, "i.image", image)?;
    plays(
        &rt,
        &[
            (
                "mkdir i.image /e",
                "",
                4,
                "jffs_volume: i.image: /e: no inode number is left\n",
            ),
            (
                "put i.image /e",
                "text",
                4,
                "jffs_volume: i.image: /e: no inode number is left\n",
            ),
            ("mv i.image /d /e", "", 0, ""),
            ("ls i.image", "", 0, "d e\n"),
        ],
    )?;
    fs::remove_file(&rt, "i.image")?;
    Ok(())
}

/// Each record here has 64 bytes, and the last byte of its request's number is its fortieth. The
/// control asks for each unmount.
#[test]
fn each_request_of_a_call_has_the_next_number(rt: HostRuntime) -> Result<(), Fail> {
    let _ = fs::remove_file(&rt, "q.image");
    plays(
        &rt,
        &[
            ("format q.image 6 1024", "", 0, ""),
            ("mkdir q.image /d", "", 0, ""),
            ("mkdir q.image /d/e", "", 0, ""),
            ("mkdir q.image /d/f", "", 0, ""),
            ("rm -r q.image /d", "", 0, ""),
        ],
    )?;
    let image = fs::read(&rt, "q.image")?;
    let mut at = 39usize;
    for wanted in [1u8, 1, 1, 1, 1, 1, 1, 2, 3, 1] {
        assert_eq!(rt; image.get(at).copied(), Some(wanted), "at {at}");
        at = at.saturating_add(64);
    }
    fs::remove_file(&rt, "q.image")?;
    Ok(())
}

/// A sector whose one byte 0 stands before an open gate is torn: no record, and not erased.
#[test]
fn each_image_that_is_no_volume_has_its_text(rt: HostRuntime) -> Result<(), Fail> {
    let mut torn = FREE;
    torn[0] = 0;
    let (second, lost, older) = (directory(2, 1, 2), directory(9, 5, 1), directory(2, 5, 1));
    for (sectors, wanted) in [
        (
            [torn, torn, torn, torn, torn, torn],
            "jffs_volume: w.image: no volume: no sector is erased\n",
        ),
        (
            [torn, FREE, torn, FREE, FREE, FREE],
            "jffs_volume: w.image: no volume: the erased sectors are scattered\n",
        ),
        (
            [second, second, FREE, FREE, FREE, FREE],
            "jffs_volume: w.image: no volume: the versions of the log don't rise\n",
        ),
        (
            [lost, FREE, FREE, FREE, FREE, FREE],
            "jffs_volume: w.image: no volume: the nodes of the log make no tree\n",
        ),
        (
            [FREE, FREE, older, FREE, FREE, FREE],
            "jffs_volume: w.image: no volume: the record at byte 0 of sector 2 is bad: Size\n",
        ),
    ] {
        fs::write(&rt, "w.image", image_of(rt.alloc(), &sectors)?)?;
        plays(&rt, &[("check w.image --sector-size 1024", "", 3, wanted)])?;
    }
    fs::remove_file(&rt, "w.image")?;
    Ok(())
}

/// The record of an unmount with this version, which the control asked for as its first request.
fn unmount(version: u32) -> [u8; 64] {
    let mut record = [0u8; 64];
    record[..8].copy_from_slice(b"JFF1\x03\x00\x00\x00");
    record[16..20].copy_from_slice(&version.to_be_bytes());
    record[33] = 10;
    record[35] = 1;
    record[39] = 1;
    record
}

#[test]
fn the_control_ends_each_session(rt: HostRuntime) -> Result<(), Fail> {
    let _ = fs::remove_file(&rt, "e.image");
    plays(
        &rt,
        &[
            ("format e.image 6 1024", "", 0, ""),
            ("mkdir e.image /d", "", 0, ""),
            ("mkdir e.image /e", "", 0, ""),
        ],
    )?;
    let image = fs::read(&rt, "e.image")?;
    for (at, version) in [(64, 2), (192, 4)] {
        assert_eq!(rt; image.get(at..at + 64), Some(unmount(version).as_slice()));
    }
    fs::remove_file(&rt, "e.image")?;
    Ok(())
}
