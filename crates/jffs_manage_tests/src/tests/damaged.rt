//! Volumes that a mount refuses, and what `save --from-damaged` has of each. The images are written
//! by hand from the format's page.

use jffs_manage::run_volume;
use std::alloc::{AllocError, Global};
use std::fs::File;
use std::io::{ErrorKind, Write};
use std::process::Abort;
use std::rt::Files;
use std::test::Fail;
use std::{fs, io};

/// A record of one node: its kind, inode, directory, version and name, and the data of a file.
pub(super) type Record<'a> = (u8, u32, u32, u32, u8, &'a [u8]);

pub(super) const FILE: u8 = 1;

pub(super) const DIRECTORY: u8 = 2;

/// Appends the record of a node whose bytes stand at the start of a file that ends with them.
fn spell(out: &mut Vec<u8>, record: Record<'_>) -> Result<(), AllocError> {
    let (kind, inode, parent, version, name, data) = record;
    let len = u32::try_from(data.len()).unwrap_or(u32::MAX).to_be_bytes();
    let form = if kind == FILE { 2 } else { 1 };
    out.extend_from_slice(&[b'J', b'F', b'F', b'1', kind, 0, 1, 0])?;
    for field in [inode, parent, version, 0] {
        out.extend_from_slice(&field.to_be_bytes())?;
    }
    out.extend_from_slice(&len)?;
    out.extend_from_slice(&len)?;
    out.extend_from_slice(&[0, 1, 0, form, 0, 0, 0, 1])?;
    out.extend_from_slice(&len)?;
    out.push(name)?;
    out.extend_from_slice(&[0; 19])?;
    out.extend_from_slice(data)?;
    for _ in 0..(4 - data.len() % 4) % 4 {
        out.push(0xFF)?;
    }
    Ok(())
}

/// The image of sectors of 1,024 bytes, each with these records.
pub(super) fn image_of(alloc: Global, sectors: &[&[Record<'_>]]) -> Result<Vec<u8>, AllocError> {
    let mut image = Vec::new(alloc);
    for records in sectors {
        let mut sector = Vec::new(alloc);
        for &record in records.iter() {
            spell(&mut sector, record)?;
        }
        for _ in sector.len()..1024 {
            sector.push(0xFF)?;
        }
        image.extend_from_slice(&sector)?;
    }
    Ok(image)
}

/// The records of a directory and two files, of which one is written anew in the second sector. The
/// first file's record stands at byte 64, the second's at byte 132.
const FIRST: [Record<'_>; 3] = [
    (DIRECTORY, 2, 1, 1, b'd', b""),
    (FILE, 3, 2, 2, b'f', b"old!"),
    (FILE, 4, 1, 3, b'g', b"some"),
];

const SECOND: [Record<'_>; 1] = [(FILE, 3, 2, 4, b'f', b"new!")];

/// Saves what is in an image, and looks at the status and at all that goes to standard error; the
/// image's file stays as it is.
fn saves<Rt: Abort + Files<File = File> + AllocGlobal + Clone + Drop>(
    rt: &Rt,
    image: &[u8],
    option: &str,
    status: u8,
    told: &str,
) -> Result<(), Fail> {
    fs::write(rt, "h.image", image)?;
    let mut words = Vec::new(rt.alloc());
    for word in ["jffs_volume", "save", "--from-damaged", "h.image", "had"] {
        words.push(String::from_str(rt.alloc(), word)?)?;
    }
    for word in option.split_whitespace() {
        words.push(String::from_str(rt.alloc(), word)?)?;
    }
    let mut input: &[u8] = b"";
    let mut out = Vec::new(rt.alloc());
    let mut errors = Vec::new(rt.alloc());
    let ended = run_volume(rt, &words, &mut input, &mut out, &mut errors, false);
    assert_eq!(rt; errors.as_slice(), told.as_bytes());
    assert_eq!(rt; (ended, out.len()), (status, 0));
    let after = fs::read(rt, "h.image")?;
    assert!(rt; after.as_slice() == image, "the image has changed");
    fs::remove_file(rt, "h.image")?;
    Ok(())
}

/// Each of these files of the host is there with these bytes, and those without bytes aren't there.
fn has<Rt: Abort + Files + AllocGlobal>(rt: &Rt, files: &[(&str, &str)]) -> Result<(), Fail> {
    for (path, wanted) in files {
        if wanted.is_empty() {
            assert!(rt; fs::metadata(rt, *path).is_err(), "{path} is there");
        } else {
            let found = fs::read(rt, *path)?;
            assert_eq!(rt; found.as_slice(), wanted.as_bytes(), "of {path}");
        }
    }
    fs::remove_dir_all(rt, "had")?;
    Ok(())
}

fn changed(rt: &impl Abort, image: Vec<u8>, at: usize, byte: u8) -> Vec<u8> {
    let mut image = image;
    assert!(rt; at < image.len());
    image[at] = byte;
    image
}

const ALL: [(&str, &str); 2] = [("had/d/f", "new!"), ("had/g", "some")];

#[test]
fn a_volume_that_is_not_damaged_is_saved_the_same(rt: HostRuntime) -> Result<(), Fail> {
    let _ = fs::remove_dir_all(&rt, "had");
    let image = image_of(rt.alloc(), &[&FIRST, &SECOND, &[], &[], &[], &[]])?;
    saves(&rt, &image, "", 0, "")?;
    has(&rt, &ALL)
}

#[test]
fn a_bad_record_loses_what_follows_it_in_its_sector(rt: HostRuntime) -> Result<(), Fail> {
    let _ = fs::remove_dir_all(&rt, "had");
    let image = image_of(rt.alloc(), &[&FIRST, &SECOND, &[], &[], &[], &[]])?;
    let image = changed(&rt, image, 68, 9);
    saves(
        &rt,
        &image,
        "",
        0,
        "jffs_volume: h.image: no volume: the record at byte 64 of sector 0 is bad: Kind; what its \
        other records make is saved\n\
        jffs_volume: h.image: sector 0 is left out from byte 64 on: the record there is bad: \
        Kind\n",
    )?;
    has(&rt, &[("had/d/f", "new!"), ("had/g", "")])
}

#[test]
fn a_ring_that_is_not_found_loses_nothing(rt: HostRuntime) -> Result<(), Fail> {
    let _ = fs::remove_dir_all(&rt, "had");
    let scattered = image_of(rt.alloc(), &[&SECOND, &[], &[], &FIRST, &[], &[]])?;
    let told = "jffs_volume: h.image: no volume: the erased sectors are scattered; what its other \
    records make is saved\n";
    saves(&rt, &scattered, "", 0, told)?;
    has(&rt, &ALL)?;
    let mut full = image_of(rt.alloc(), &[&FIRST, &SECOND, &[], &[], &[], &[]])?;
    for sector in 2..6usize {
        full = changed(&rt, full, sector * 1024, 0);
    }
    saves(
        &rt,
        &full,
        "",
        0,
        "jffs_volume: h.image: no volume: no sector is erased; what its other records make is \
        saved\n\
        jffs_volume: h.image: sector 2 is left out from byte 0 on: no complete record stands there\n\
        jffs_volume: h.image: sector 3 is left out from byte 0 on: no complete record stands there\n\
        jffs_volume: h.image: sector 4 is left out from byte 0 on: no complete record stands there\n\
        jffs_volume: h.image: sector 5 is left out from byte 0 on: no complete record stands \
        there\n",
    )?;
    has(&rt, &ALL)
}

#[test]
fn a_log_out_of_order_is_taken_by_versions(rt: HostRuntime) -> Result<(), Fail> {
    let _ = fs::remove_dir_all(&rt, "had");
    let mut later = FIRST;
    later[2].3 = 9;
    let image = image_of(rt.alloc(), &[&later, &SECOND, &[], &[], &[], &[]])?;
    let told = "jffs_volume: h.image: no volume: the versions of the log don't rise; what its \
    other records make is saved\n";
    saves(&rt, &image, "", 0, told)?;
    has(&rt, &ALL)
}

#[test]
fn a_record_that_does_not_fit_is_left_out(rt: HostRuntime) -> Result<(), Fail> {
    let _ = fs::remove_dir_all(&rt, "had");
    let unfit: [Record<'_>; 2] = [
        (FILE, 2, 1, 4, b'd', b"file"),
        (FILE, 4, 1, 5, b'g', b"more"),
    ];
    let image = image_of(rt.alloc(), &[&FIRST, &unfit, &[], &[], &[], &[]])?;
    saves(
        &rt,
        &image,
        "",
        0,
        "jffs_volume: h.image: no volume: the nodes of the log make no tree; what its other \
        records make is saved\n\
        jffs_volume: h.image: the record at byte 0 of sector 1 is left out: it doesn't fit those \
        before it\n",
    )?;
    has(&rt, &[("had/d/f", "old!"), ("had/g", "more")])
}

#[test]
fn what_has_lost_its_place_is_saved_elsewhere(rt: HostRuntime) -> Result<(), Fail> {
    let _ = fs::remove_dir_all(&rt, "had");
    let lost: [Record<'_>; 7] = [
        (DIRECTORY, 3, 2, 1, b'e', b""),
        (FILE, 4, 3, 2, b'f', b"in e"),
        (FILE, 5, 2, 3, b'g', b"in d"),
        (FILE, 6, 1, 4, b'h', b"this"),
        (FILE, 7, 1, 5, b'h', b"that"),
        (DIRECTORY, 8, 1, 6, b'.', b""),
        (FILE, 9, 8, 7, b'k', b"in ."),
    ];
    let image = image_of(rt.alloc(), &[&lost, &[], &[], &[], &[], &[]])?;
    saves(
        &rt,
        &image,
        "",
        0,
        "jffs_volume: h.image: no volume: the nodes of the log make no tree; what its other \
        records make is saved\n\
        jffs_volume: h.image: inode 8 is saved in had/lost+found-of-the-volume/8: the host can't \
        have its name\n\
        jffs_volume: h.image: inode 7 is saved in had/lost+found-of-the-volume/7: another has its \
        name\n\
        jffs_volume: h.image: inode 3 is saved in had/lost+found-of-the-volume/3: its directory is \
        missing\n\
        jffs_volume: h.image: inode 5 is saved in had/lost+found-of-the-volume/5: its directory is \
        missing\n",
    )?;
    has(
        &rt,
        &[
            ("had/h", "this"),
            ("had/lost+found-of-the-volume/3/e/f", "in e"),
            ("had/lost+found-of-the-volume/5/g", "in d"),
            ("had/lost+found-of-the-volume/7/h", "that"),
            ("had/lost+found-of-the-volume/8/dots/k", "in ."),
        ],
    )
}

/// A stream that takes nothing.
#[derive(Drop)]
struct Closed;

impl Write for Closed {
    fn write(&mut self, _buf: &[u8]) -> io::Result<usize> {
        Err(io::Error::from(ErrorKind::BrokenPipe))
    }

    fn flush(&mut self) -> io::Result<()> {
        Ok(())
    }
}

#[test]
fn nothing_is_saved_if_what_is_missing_cannot_be_told(rt: HostRuntime) -> Result<(), Fail> {
    let lost = image_of(rt.alloc(), &[&SECOND, &[], &[], &[], &[], &[]])?;
    fs::write(&rt, "k.image", lost)?;
    let mut words = Vec::new(rt.alloc());
    for word in ["jffs_volume", "save", "--from-damaged", "k.image", "kept"] {
        words.push(String::from_str(rt.alloc(), word)?)?;
    }
    let mut input: &[u8] = b"";
    let mut out = Vec::new(rt.alloc());
    let ended = run_volume(&rt, &words, &mut input, &mut out, &mut Closed, false);
    assert_eq!(rt; ended, 1);
    assert!(rt; fs::metadata(&rt, "kept").is_err(), "something is saved");
    fs::remove_file(&rt, "k.image")?;
    Ok(())
}

#[test]
fn a_file_that_can_be_no_volume_is_not_saved(rt: HostRuntime) -> Result<(), Fail> {
    let few = image_of(rt.alloc(), &[&FIRST, &SECOND, &[], &[], &[]])?;
    let told = "jffs_volume: h.image: had: no volume: no volume has these sizes\n";
    saves(&rt, &few, "--sector-size 1024", 3, told)?;
    let sectors: [&[Record<'_>]; 12] = [
        &SECOND,
        &[],
        &[],
        &FIRST,
        &[],
        &[],
        &[],
        &[],
        &[],
        &[],
        &[],
        &[],
    ];
    let many = image_of(rt.alloc(), &sectors)?;
    let told = "jffs_volume: h.image: had: no volume, and the file may have sectors of more than \
    one size: give --sector-size\n";
    saves(&rt, &many, "", 2, told)
}
