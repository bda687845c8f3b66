//! What a host's directories and files are refused for, each with its line and its status.
//! Lines and statuses are those of docs/TOOLS.md.

use super::{plays, refuses};
use std::fs;
use std::fs::File;
use std::process::Abort;
use std::rt::Files;
use std::test::Fail;

#[test]
fn each_place_of_the_host_that_is_wrong_has_its_text(rt: HostRuntime) -> Result<(), Fail> {
    let _ = fs::remove_file(&rt, "h.image");
    let _ = fs::remove_dir_all(&rt, "host");
    fs::create_dir(&rt, "host")?;
    refuses(
        &rt,
        "jffs_volume: ",
        &[("ls host", 2, "host: the file can't be read")],
    )?;
    plays(&rt, &[("format h.image 6 1024", "", 0, "")])?;
    for (line, told) in [
        (
            "load h.image none",
            "none: the host has no such directory or file",
        ),
        (
            "load h.image h.image",
            "h.image: the host's directory or file can't be read",
        ),
        (
            "save h.image none/a",
            "none/a: the host has no such directory or file",
        ),
        (
            "save h.image h.image",
            "h.image: the host has something of that name already",
        ),
        (
            "save h.image h.image/a",
            "h.image/a: the host's directory or file can't be made",
        ),
    ] {
        refuses(&rt, "jffs_volume: h.image: ", &[(line, 2, told)])?;
    }
    fs::remove_dir_all(&rt, "host")?;
    fs::remove_file(&rt, "h.image")?;
    Ok(())
}

#[test]
fn a_name_of_dots_is_not_saved(rt: HostRuntime) -> Result<(), Fail> {
    let _ = fs::remove_file(&rt, "d.image");
    let _ = fs::remove_dir_all(&rt, "dots");
    fs::create_dir(&rt, "dots")?;
    plays(
        &rt,
        &[
            ("format d.image 6 1024", "", 0, ""),
            ("mkdir d.image /..", "", 0, ""),
            (
                "save d.image dots/a",
                "",
                2,
                "jffs_volume: d.image: dots/a: /..: a name '.' or '..' can't be saved: mv it\n",
            ),
        ],
    )?;
    let is_made = fs::exists(&rt, "dots/a")?;
    assert!(rt; !is_made);
    fs::remove_dir_all(&rt, "dots")?;
    fs::remove_file(&rt, "d.image")?;
    Ok(())
}

#[test]
fn what_a_load_refuses_has_its_text(rt: HostRuntime) -> Result<(), Fail> {
    let _ = fs::remove_file(&rt, "o.image");
    let _ = fs::remove_dir_all(&rt, "odd");
    fs::create_dir(&rt, "odd")?;
    plays(
        &rt,
        &[
            ("format o.image 6 1024", "", 0, ""),
            ("mkdir o.image /..", "", 0, ""),
        ],
    )?;
    rt.symlink("odd", "odd/link")?;
    refuses(
        &rt,
        "jffs_volume: o.image: odd: /link: ",
        &[(
            "load o.image odd",
            2,
            "what the host has there is neither a file nor a directory",
        )],
    )?;
    fs::remove_file(&rt, "odd/link")?;
    fs::write(&rt, "odd/.put.new", "left")?;
    refuses(
        &rt,
        "jffs_volume: o.image: odd: /.put.new: ",
        &[(
            "load o.image odd",
            2,
            "the name '.put.new' is kept for puts that aren't finished",
        )],
    )?;
    fs::remove_file(&rt, "odd/.put.new")?;
    fs::write(&rt, "odd/a\n\u{7f}b", "odd")?;
    refuses(
        &rt,
        "jffs_volume: o.image: odd: /a\\n\\u{7f}b: ",
        &[(
            "load o.image odd",
            2,
            "a name has a byte that is not allowed",
        )],
    )?;
    fs::remove_dir_all(&rt, "odd")?;
    fs::remove_file(&rt, "o.image")?;
    Ok(())
}
