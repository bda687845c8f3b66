//! Volumes that are filled until a put is refused.
//! Whether a put has room isn't worked out: what stands after each has to be whole.

use super::plays;
use jffs_manage::run_volume;
use std::fs;
use std::fs::File;
use std::process::Abort;
use std::rt::Files;
use std::test::Fail;

/// The status of a call, and what it wrote to standard output.
fn called<Rt: Files<File = File> + AllocGlobal + Clone + Drop>(
    rt: &Rt,
    line: &str,
    input: &[u8],
) -> Result<(u8, Vec<u8>), Fail> {
    let mut words = Vec::new(rt.alloc());
    for word in line.split(' ') {
        words.push(String::from_str(rt.alloc(), word)?)?;
    }
    let mut input = input;
    let mut out = Vec::new(rt.alloc());
    let mut errors = Vec::new(rt.alloc());
    let status = run_volume(rt, &words, &mut input, &mut out, &mut errors, false);
    Ok((status, out))
}

/// Puts files of so many bytes until one is refused, replaces the first ones, and then sees that no
/// unfinished file is left and that each file can be removed.
fn is_filled<Rt: Abort + Files<File = File> + AllocGlobal + Clone + Drop>(
    rt: &Rt,
    size: usize,
) -> Result<(), Fail> {
    let bytes = vec![in rt.alloc(); b'x'; size]?;
    let mut count = 0u32;
    for number in 0..64u32 {
        let line = format!(in rt.alloc(); "jffs_volume put g.image /f{number}")?;
        let (status, _) = called(rt, line.as_str(), &bytes)?;
        if status != 0 {
            assert_eq!(rt; status, 4, "with {size}");
            break;
        }
        count = count.saturating_add(1);
    }
    assert!(rt; count > 0 && count < 64, "with {size}");
    for number in 0..count {
        let line = format!(in rt.alloc(); "jffs_volume put g.image /f{number}")?;
        let (status, _) = called(rt, line.as_str(), &bytes)?;
        assert!(rt; status == 0 || status == 4, "with {size}");
    }
    let (_, listed) = called(rt, "jffs_volume ls g.image", b"")?;
    let lines = listed.split(|byte| *byte == b'\n').count();
    assert_eq!(rt; lines, (count as usize).saturating_add(1), "with {size}");
    for number in 0..count {
        let line = format!(in rt.alloc(); "jffs_volume rm g.image /f{number}")?;
        let (status, _) = called(rt, line.as_str(), b"")?;
        assert_eq!(rt; status, 0, "with {size}");
    }
    Ok(())
}

#[test]
fn a_put_without_room_leaves_nothing(rt: HostRuntime) -> Result<(), Fail> {
    for size in [60, 193, 400, 700] {
        let _ = fs::remove_file(&rt, "g.image");
        plays(&rt, &[("format g.image 6 1024", "", 0, "")])?;
        is_filled(&rt, size)?;
    }
    fs::remove_file(&rt, "g.image")?;
    Ok(())
}

/// A file that stays keeps its sector from being erased, so one that is replaced again and again
/// has room only since that sector is cleaned.
#[test]
fn a_put_has_room_once_the_oldest_sector_is_cleaned(rt: HostRuntime) -> Result<(), Fail> {
    let _ = fs::remove_file(&rt, "o.filled");
    plays(
        &rt,
        &[
            ("format o.filled 6 1024", "", 0, ""),
            ("put o.filled /kept", "kept", 0, ""),
        ],
    )?;
    let bytes = vec![in rt.alloc(); b'x'; 400]?;
    for turn in 0..12u32 {
        let (status, _) = called(&rt, "jffs_volume put o.filled /f", &bytes)?;
        assert_eq!(rt; status, 0, "at turn {turn}");
    }
    plays(
        &rt,
        &[
            ("ls o.filled", "", 0, "f 400 f\nf 4 kept\n"),
            ("cat o.filled /kept", "", 0, "kept"),
        ],
    )?;
    fs::remove_file(&rt, "o.filled")?;
    Ok(())
}

/// A program that runs may be read, and not be written.
#[test]
fn a_file_that_may_only_be_read_is_read(rt: HostRuntime) -> Result<(), Fail> {
    let whole = fs::metadata(&rt, "/proc/self/exe")?.len();
    let told = if whole > 1_048_576 {
        "the file has more than 1048576 bytes, which no volume has"
    } else {
        "no volume"
    };
    for (line, word) in [
        ("jffs_volume check /proc/self/exe", ""),
        (
            "jffs_volume save --from-damaged /proc/self/exe had",
            "had: ",
        ),
    ] {
        let mut words = Vec::new(rt.alloc());
        for word in line.split(' ') {
            words.push(String::from_str(rt.alloc(), word)?)?;
        }
        let mut out = Vec::new(rt.alloc());
        let mut errors = Vec::new(rt.alloc());
        let _ = run_volume(
            &rt,
            &words,
            &mut b"".as_slice(),
            &mut out,
            &mut errors,
            false,
        );
        let errors = String::from_utf8(errors)?;
        let head = format!(in rt.alloc(); "jffs_volume: /proc/self/exe: {word}{told}")?;
        assert!(rt; errors.as_str().starts_with(head.as_str()), "got {errors}");
    }
    plays(
        &rt,
        &[(
            "rm /proc/self/exe /f",
            "",
            2,
            "jffs_volume: /proc/self/exe: /f: the file can't be opened for reading and writing\n",
        )],
    )
}
