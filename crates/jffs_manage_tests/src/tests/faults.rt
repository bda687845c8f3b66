//! Each line that a command may end with on standard error, and its status.
//! Lines and statuses are those of docs/TOOLS.md.

use super::{plays, refuses};
use std::fs;
use std::fs::File;
use std::process::Abort;
use std::rt::Files;
use std::test::Fail;

#[test]
fn a_volume_that_is_not_there_or_not_made_has_its_line(rt: HostRuntime) -> Result<(), Fail> {
    let _ = fs::remove_file(&rt, "r.image");
    refuses(
        &rt,
        "jffs_volume: r.image: ",
        &[
            ("ls r.image", 2, "there is no such file"),
            (
                "format r.image 5 1024",
                2,
                "a volume has 6 to 64 sectors, got 5",
            ),
            (
                "format r.image 1024 6",
                2,
                "a volume has 6 to 64 sectors, got 1024",
            ),
            (
                "format r.image 6 1000",
                2,
                "a sector has 1024, 2048, 4096, 8192 or 16384 bytes, got 1000",
            ),
        ],
    )?;
    plays(&rt, &[("format r.image 8 4096", "", 0, "")])?;
    refuses(
        &rt,
        "jffs_volume: r.image: ",
        &[("format r.image 8 4096", 2, "there is such a file already")],
    )?;
    fs::remove_file(&rt, "r.image")?;
    refuses(
        &rt,
        "jffs_volume: none\\\\\\n\\u{1b}/r: ",
        &[(
            "format none\\\n\u{1b}/r 6 1024",
            2,
            "the directory that should hold the file isn't there",
        )],
    )
}

#[test]
fn each_sector_size_that_is_wrong_has_its_line(rt: HostRuntime) -> Result<(), Fail> {
    let _ = fs::remove_file(&rt, "u.image");
    plays(&rt, &[("format u.image 8 4096", "", 0, "")])?;
    refuses(
        &rt,
        "jffs_volume: u.image: ",
        &[
            (
                "ls u.image",
                2,
                "the file is a volume with sectors of more than one size: give --sector-size",
            ),
            (
                "ls u.image --sector-size 3000",
                2,
                "a sector has 1024, 2048, 4096, 8192 or 16384 bytes, got 3000",
            ),
            (
                "ls u.image --sector-size 16384",
                3,
                "no volume: no volume has these sizes",
            ),
        ],
    )?;
    fs::remove_file(&rt, "u.image")?;
    Ok(())
}

#[test]
fn each_length_that_is_wrong_has_its_line(rt: HostRuntime) -> Result<(), Fail> {
    fs::write(&rt, "y.image", vec![in rt.alloc(); 0xFFu8; 5000]?)?;
    for (line, status, told) in [
        (
            "check y.image",
            3,
            "no volume has 5000 bytes: it has 6 to 64 sectors of 1024, 2048, 4096, 8192 or 16384",
        ),
        (
            "rm y.image /f",
            3,
            "/f: no volume has 5000 bytes: it has 6 to 64 sectors of 1024, 2048, 4096, 8192 or \
            16384",
        ),
        (
            "df y.image --sector-size 1024",
            2,
            "the file has 5000 bytes, which are no whole number of sectors of 1024 bytes",
        ),
    ] {
        refuses(&rt, "jffs_volume: y.image: ", &[(line, status, told)])?;
    }
    fs::write(&rt, "y.image", vec![in rt.alloc(); 0xFFu8; 1_048_577]?)?;
    refuses(
        &rt,
        "jffs_volume: y.image: ",
        &[
            (
                "ls y.image",
                2,
                "the file has more than 1048576 bytes, which no volume has",
            ),
            (
                "rm y.image /f",
                2,
                "/f: the file has more than 1048576 bytes, which no volume has",
            ),
        ],
    )?;
    fs::remove_file(&rt, "y.image")?;
    Ok(())
}

/// Each path that is wrong has its line.
fn refuses_paths<Rt: Abort + Files<File = File> + AllocGlobal + Clone + Drop>(
    rt: &Rt,
) -> Result<(), Fail> {
    refuses(
        rt,
        "jffs_volume: q.image: ",
        &[
            (
                "mkdir q.image d --sector-size 4096",
                2,
                "d: a path begins with a slash",
            ),
            (
                "rm q.image /d --sector-size 4096",
                4,
                "/d: nothing stands at the path",
            ),
            (
                "cat q.image /d --sector-size 4096",
                4,
                "/d: nothing stands at the path",
            ),
            (
                "cat q.image / --sector-size 4096",
                4,
                "/: a directory stands at the path",
            ),
            (
                "put q.image /.put.new --sector-size 4096",
                2,
                "/.put.new: the name '.put.new' is kept for puts that aren't finished",
            ),
        ],
    )
}

#[test]
fn a_path_that_is_wrong_changes_nothing(rt: HostRuntime) -> Result<(), Fail> {
    let _ = fs::remove_file(&rt, "q.image");
    plays(&rt, &[("format q.image 8 4096", "", 0, "")])?;
    refuses_paths(&rt)?;
    plays(
        &rt,
        &[(
            "df q.image --sector-size 4096",
            "",
            0,
            "sectors 8 of 4096 bytes, 8 erased\n\
            live 0 bytes in records, room is sure below 12032\n",
        )],
    )?;
    fs::remove_file(&rt, "q.image")?;
    Ok(())
}

#[test]
fn a_file_that_is_no_volume_has_its_line(rt: HostRuntime) -> Result<(), Fail> {
    fs::write(&rt, "z.image", vec![in rt.alloc(); 0u8; 6144]?)?;
    refuses(
        &rt,
        "jffs_volume: z.image: no volume",
        &[
            (
                "check z.image",
                3,
                ", whatever the size of its sectors: --sector-size tells why not",
            ),
            (
                "check z.image --sector-size 1024",
                3,
                ": the record at byte 0 of sector 0 is bad: Magic",
            ),
        ],
    )?;
    fs::remove_file(&rt, "z.image")?;
    Ok(())
}

#[test]
fn each_cause_of_the_file_system_has_its_text(rt: HostRuntime) -> Result<(), Fail> {
    let _ = fs::remove_file(&rt, "c.image");
    plays(
        &rt,
        &[
            ("format c.image 6 1024", "", 0, ""),
            ("mkdir c.image /d", "", 0, ""),
            ("mkdir c.image /e", "", 0, ""),
        ],
    )?;
    refuses(
        &rt,
        "jffs_volume: c.image: ",
        &[
            ("rm c.image /", 4, "/: the root stays as it is"),
            ("rm -r c.image /", 4, "/: the root stays as it is"),
            ("rm -r c.image /x", 4, "/x: nothing stands at the path"),
            (
                "mkdir c.image /x/y",
                4,
                "/x/y: the directory of the path isn't there",
            ),
            ("mkdir c.image /d", 4, "/d: the path is taken"),
            ("mv c.image /x /y", 4, "/x: /y: nothing stands at the path"),
            (
                "mv c.image /d /e/d",
                4,
                "/d: /e/d: this can't be done to a directory",
            ),
            ("put c.image /d", 4, "/d: a directory stands at the path"),
        ],
    )?;
    plays(&rt, &[("ls c.image", "", 0, "d d\nd e\n")])?;
    fs::remove_file(&rt, "c.image")?;
    Ok(())
}

#[test]
fn what_has_no_room_leaves_the_volume(rt: HostRuntime) -> Result<(), Fail> {
    let _ = fs::remove_file(&rt, "f.image");
    let long = vec![in rt.alloc(); b'x'; 4000]?;
    let long = std::str::from_utf8(&long)?;
    plays(
        &rt,
        &[
            ("format f.image 6 1024", "", 0, ""),
            ("mkdir f.image /d", "", 0, ""),
            ("mkdir f.image /e", "", 0, ""),
            (
                "put f.image /f",
                long,
                4,
                "jffs_volume: f.image: /f: the log has no room: rm what can go, and ask again; df \
                tells how full it is\n",
            ),
            ("ls f.image", "", 0, "d d\nd e\n"),
            ("check f.image", "", 0, "volume clean, 4 records\n"),
        ],
    )?;
    fs::remove_file(&rt, "f.image")?;
    Ok(())
}

#[test]
fn each_fault_of_a_path_has_its_text(rt: HostRuntime) -> Result<(), Fail> {
    let _ = fs::remove_file(&rt, "k.image");
    plays(
        &rt,
        &[
            ("format k.image 6 1024", "", 0, ""),
            ("mkdir k.image /d", "", 0, ""),
        ],
    )?;
    refuses(
        &rt,
        "jffs_volume: k.image: ",
        &[
            ("cat k.image /d/", 2, "/d/: a name is empty"),
            (
                "cat k.image /123456789012345678901",
                2,
                "/123456789012345678901: a name is longer than 20 bytes",
            ),
            (
                "cat k.image /\u{e9}",
                2,
                "/\u{e9}: a name has a byte that is not allowed",
            ),
            (
                "cat k.image /1/2/3/4/5/6/7/8/9",
                2,
                "/1/2/3/4/5/6/7/8/9: a path has more than 8 names",
            ),
        ],
    )?;
    fs::remove_file(&rt, "k.image")?;
    Ok(())
}
