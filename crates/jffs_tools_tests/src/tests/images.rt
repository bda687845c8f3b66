//! What is shown of images, and which the scan refuses.
//! Lines are worked out from docs/TOOLS.md and docs/FORMAT.md.

use super::records::{DIRECTORY, FILE, OLD_FORM, Record, UNMOUNT, changed, image_of};
use super::{called, replays_from, shows};
use jffs_tools::run_image;
use std::process::Abort;
use std::rt::Files;
use std::test::Fail;

/// That the image is refused, by both programs, in these words.
fn refuses<Rt: Abort + Files + AllocGlobal>(
    rt: &Rt,
    image: Vec<u8>,
    why: &str,
) -> Result<(), Fail> {
    let line = format!(in rt.alloc(); "refused {why}\n")?;
    shows(rt, &image, 3, line.as_str())?;
    replays_from(rt, image, "mount", line.as_str())?;
    Ok(())
}

#[test]
fn an_erased_volume_is_shown(rt: HostRuntime) -> Result<(), Fail> {
    let image = image_of(rt.alloc(), &[], 6)?;
    shows(&rt, &image, 0, "mounted unclean\nnext 1 2\nsectors\nd /\n")
}

#[test]
fn a_log_of_the_old_form_is_shown(rt: HostRuntime) -> Result<(), Fail> {
    let image = image_of(rt.alloc(), &[&OLD_FORM], 8)?;
    shows(
        &rt,
        &image,
        0,
        "mounted clean\n\
        next 4 3\n\
        sectors 0\n\
        record 0 0 64 1 dead\n\
        record 0 64 72 2 live\n\
        record 0 136 64 3 dead\n\
        d /\n\
        f /f 5 68656c6c6f\n",
    )
}

#[test]
fn a_log_of_the_new_form_is_shown(rt: HostRuntime) -> Result<(), Fail> {
    let node = Record {
        version: 7,
        offset: 4,
        form: 2,
        size: 5,
        bytes: b"a",
        ..FILE
    };
    let image = image_of(rt.alloc(), &[&[], &[node]], 6)?;
    shows(
        &rt,
        &image,
        0,
        "mounted unclean\nnext 8 3\nsectors 1\nrecord 1 0 68 7 live\nd /\nf /f 5 0000000061\n",
    )
}

#[test]
fn a_log_of_the_old_form_goes_on_in_the_new_one(rt: HostRuntime) -> Result<(), Fail> {
    let image = image_of(rt.alloc(), &[&OLD_FORM], 8)?;
    let replay = replays_from(
        &rt,
        image,
        "mount\n\
        request 1 1 write /f 8 21\n\
        request 1 2 truncate /f 12\n\
        request 1 3 truncate /f 1048577\n",
        "mounted clean next 4 3 | d / | f /f 5 68656c6c6f\n\
        appended 2 4 at 200 ; erased 7 erases 0 weight 140 next 5 3\n\
        appended 2 5 at 268 ; erased 7 erases 0 weight 204 next 6 3\n\
        refused FileLong ; erased 7 erases 0 weight 204 next 6 3\n",
    )?;
    let image = replay.bytes()?.to_vec(rt.alloc())?;
    shows(
        &rt,
        &image,
        0,
        "mounted unclean\n\
        next 6 3\n\
        sectors 0\n\
        record 0 0 64 1 dead\n\
        record 0 64 72 2 live\n\
        record 0 136 64 3 dead\n\
        record 0 200 68 4 live\n\
        record 0 268 64 5 live\n\
        d /\n\
        f /f 12 68656c6c6f00000021000000\n",
    )
}

#[test]
fn a_cut_record_is_none(rt: HostRuntime) -> Result<(), Fail> {
    let image = changed(image_of(rt.alloc(), &[&[FILE]], 8)?, 7, 0x0F);
    shows(
        &rt,
        &image,
        0,
        "mounted unclean\nnext 1 2\nsectors 0\nd /\n",
    )
}

#[test]
fn a_ring_is_shown_from_its_oldest_sector_on(rt: HostRuntime) -> Result<(), Fail> {
    let first = Record {
        version: 3,
        ..DIRECTORY
    };
    let second = Record {
        version: 5,
        inode: 9,
        name: b'b',
        ..DIRECTORY
    };
    let third = Record {
        version: 6,
        ..UNMOUNT
    };
    let image = image_of(
        rt.alloc(),
        &[&[second], &[third], &[], &[], &[], &[first]],
        6,
    )?;
    shows(
        &rt,
        &image,
        0,
        "mounted clean\n\
        next 7 10\n\
        sectors 5 0 1\n\
        record 5 0 64 3 live\n\
        record 0 0 64 5 live\n\
        record 1 0 64 6 dead\n\
        d /\n\
        d /a\n\
        d /b\n",
    )
}

#[test]
fn volumes_are_refused_by_their_sectors(rt: HostRuntime) -> Result<(), Fail> {
    let alloc = rt.alloc();
    refuses(&rt, image_of(alloc, &[], 5)?, "Geometry")?;
    let mut spoiled = image_of(alloc, &[], 8)?;
    for sector in 0..8usize {
        spoiled = changed(spoiled, sector * 1024, 0);
    }
    refuses(&rt, spoiled, "NoErased")?;
    let later = Record { version: 2, ..FILE };
    refuses(
        &rt,
        image_of(alloc, &[&[FILE], &[], &[later]], 8)?,
        "Scattered",
    )
}

#[test]
fn volumes_are_refused_by_their_logs(rt: HostRuntime) -> Result<(), Fail> {
    let alloc = rt.alloc();
    let later = Record { version: 2, ..FILE };
    refuses(&rt, image_of(alloc, &[&[later, FILE]], 8)?, "BadOrder")?;
    let lost = Record { parent: 9, ..FILE };
    refuses(&rt, image_of(alloc, &[&[lost]], 8)?, "BadTree")?;
    let holed = Record {
        offset: 4,
        bytes: b"a",
        ..FILE
    };
    refuses(&rt, image_of(alloc, &[&[holed]], 8)?, "BadTree")
}

#[test]
fn volumes_are_refused_by_a_record(rt: HostRuntime) -> Result<(), Fail> {
    for (at, byte, why) in [
        (0, 0, "BadRecord 0 0 Magic"),
        (4, 9, "BadRecord 0 0 Kind"),
        (5, 4, "BadRecord 0 0 Flags"),
        (6, 2, "BadRecord 0 0 Name"),
        (64 + 35, 3, "BadRecord 0 64 Form"),
        (106, 1, "BadRecord 0 64 Spare"),
        (64 + 19, 0, "BadRecord 0 64 Size"),
        (133, 0, "BadRecord 0 64 Pad"),
    ] {
        let image = image_of(rt.alloc(), &[&OLD_FORM], 8)?;
        refuses(&rt, changed(image, at, byte), why)?;
    }
    let image = image_of(rt.alloc(), &[&[], &[], &OLD_FORM], 8)?;
    refuses(&rt, changed(image, 2048 + 133, 0), "BadRecord 2 64 Pad")
}

#[test]
fn an_image_is_called_for_by_two_numbers(rt: HostRuntime) -> Result<(), Fail> {
    let alloc = rt.alloc();
    for (words, status, wanted) in [
        (
            ["jffs_image", "6", "1024"].as_slice(),
            2,
            "jffs_image: the image has 9 bytes, and its sectors have 6144 together\n",
        ),
        (
            ["jffs_image", "0", "1024"].as_slice(),
            2,
            "jffs_image: the image is longer than its sectors, which have 0 bytes together\n",
        ),
        (
            ["jffs_image", "6", "1k"].as_slice(),
            2,
            "jffs_image: SECTORS and SECTOR_SIZE are wanted, two numbers, got '1k'; the image \
            comes on standard input\n",
        ),
        (
            ["jffs_image", "v.image"].as_slice(),
            2,
            "jffs_image: SECTORS and SECTOR_SIZE are wanted, two numbers; the image comes on \
            standard input\n",
        ),
        (
            ["jffs_image", "6", "1024", "v.image"].as_slice(),
            2,
            "jffs_image: unexpected word 'v.image': the image comes on standard input\n",
        ),
        (
            ["jffs_image", "-6", "1024"].as_slice(),
            2,
            "jffs_image: unknown option '-6'; options are --help and --version\n",
        ),
        (
            ["jffs_image", "6", "--help"].as_slice(),
            2,
            "jffs_image: unexpected word '6' beside '--help', which stands alone\n",
        ),
        (["jffs_image", "--help"].as_slice(), 0, ""),
        (["jffs_image", "-h"].as_slice(), 0, ""),
        (["jffs_image", "--version"].as_slice(), 0, ""),
    ] {
        let called = called(alloc, words)?;
        let mut input = b"too short".as_slice();
        let mut out = Vec::new(alloc);
        let mut errors = Vec::new(alloc);
        let ended = run_image(alloc, &called, &mut input, &mut out, &mut errors);
        assert_eq!(rt; ended, status);
        assert_eq!(rt; errors.as_slice(), wanted.as_bytes());
        assert_eq!(rt; out.is_empty(), status != 0);
    }
    Ok(())
}

#[test]
fn two_numbers_the_wrong_way_round_are_told_of(rt: HostRuntime) -> Result<(), Fail> {
    let alloc = rt.alloc();
    let words = called(alloc, &["jffs_image", "1024", "6"])?;
    let image = image_of(alloc, &[], 6)?;
    let mut out = Vec::new(alloc);
    let mut errors = Vec::new(alloc);
    let ended = run_image(alloc, &words, &mut image.as_slice(), &mut out, &mut errors);
    assert_eq!(rt; ended, 3);
    assert_eq!(rt; out.as_slice(), b"refused Geometry\n".as_slice());
    assert_eq!(rt;
        errors.as_slice(),
        b"jffs_image: SECTORS comes first, and SECTOR_SIZE after it\n".as_slice()
    );
    Ok(())
}
