//! Volumes on which an erase was cut off: what looks at them, what changes them, and what is damage.
//! The images are written by hand from the format's page.

use super::damaged::{DIRECTORY, FILE, Record, image_of};
use super::{plays, refuses};
use std::fs;
use std::fs::File;
use std::process::Abort;
use std::rt::Files;
use std::test::Fail;

/// What stands in the sector before the log, and in the one with which it begins.
const SECTORS: [&[Record<'_>]; 6] = [
    &[
        (DIRECTORY, 2, 1, 1, b'd', b""),
        (FILE, 3, 1, 2, b'f', b"old!"),
    ],
    &[(FILE, 3, 1, 3, b'f', b"new!")],
    &[],
    &[],
    &[],
    &[],
];

/// Writes the image, of which the first bytes are others.
fn write_image<Rt: Abort + Files<File = File> + AllocGlobal>(
    rt: &Rt,
    file: &str,
    magic: &[u8; 4],
) -> Result<Vec<u8>, Fail> {
    let mut image = image_of(rt.alloc(), &SECTORS)?;
    assert!(rt; image.len() == 6 * 1024);
    image[..4].copy_from_slice(magic);
    fs::write(rt, file, &image)?;
    Ok(image)
}

#[test]
fn looks_show_what_the_next_change_finds(rt: HostRuntime) -> Result<(), Fail> {
    let image = write_image(&rt, "o.image", &[0; 4])?;
    plays(
        &rt,
        &[
            (
                "check o.image",
                "",
                0,
                "volume unclean, 1 records\nsector 0 was being erased\n",
            ),
            ("ls o.image", "", 0, "f 4 f\n"),
        ],
    )?;
    assert!(&rt; fs::read(&rt, "o.image")? == image);
    plays(
        &rt,
        &[
            ("mkdir o.image /e", "", 0, ""),
            ("check o.image", "", 0, "volume clean, 3 records\n"),
            ("ls o.image", "", 0, "d e\nf 4 f\n"),
        ],
    )?;
    fs::remove_file(&rt, "o.image")?;
    Ok(())
}

#[test]
fn a_bit_of_a_live_record_that_went_wrong_is_damage(rt: HostRuntime) -> Result<(), Fail> {
    let image = write_image(&rt, "b.image", b"HFF1")?;
    refuses(
        &rt,
        "jffs_volume: b.image: ",
        &[
            (
                "check --sector-size 1024 b.image",
                3,
                "no volume: the record at byte 0 of sector 0 is bad: Magic",
            ),
            (
                "put --sector-size 1024 b.image /e",
                3,
                "/e: no volume: the record at byte 0 of sector 0 is bad: Magic",
            ),
        ],
    )?;
    assert!(&rt; fs::read(&rt, "b.image")? == image);
    fs::remove_file(&rt, "b.image")?;
    Ok(())
}
