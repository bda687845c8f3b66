//! Whole trees: removed, saved and loaded.
//! What is listed and saved has to be what was put.

use super::plays;
use std::fs;
use std::fs::File;
use std::process::Abort;
use std::rt::Files;
use std::test::Fail;

#[test]
fn a_directory_is_removed_with_all_below_it(rt: HostRuntime) -> Result<(), Fail> {
    let _ = fs::remove_file(&rt, "t.image");
    plays(
        &rt,
        &[
            ("format t.image 8 1024", "", 0, ""),
            ("mkdir t.image /d", "", 0, ""),
            ("mkdir t.image /d/e", "", 0, ""),
            ("put t.image /d/e/f", "one", 0, ""),
            ("put t.image /d/g", "two", 0, ""),
            ("put t.image /dd", "three", 0, ""),
            (
                "rm t.image /d",
                "",
                4,
                "jffs_volume: t.image: /d: the directory isn't empty\n",
            ),
            ("rm -r t.image /d/e/f", "", 0, ""),
            ("ls t.image /d", "", 0, "d e\nf 3 g\n"),
            ("rm -r t.image /d", "", 0, ""),
            ("ls t.image", "", 0, "f 5 dd\n"),
            ("rm t.image /dd -r", "", 0, ""),
            ("ls t.image", "", 0, ""),
        ],
    )?;
    fs::remove_file(&rt, "t.image")?;
    Ok(())
}

fn saves_a_tree<Rt: Abort + Files<File = File> + AllocGlobal + Clone + Drop>(
    rt: &Rt,
) -> Result<(), Fail> {
    plays(
        rt,
        &[
            ("format s.image 8 1024", "", 0, ""),
            ("mkdir s.image /d", "", 0, ""),
            ("mkdir s.image /d/e", "", 0, ""),
            ("put s.image /d/e/f", "one", 0, ""),
            ("put s.image /g", "two", 0, ""),
            ("put s.image /empty", "", 0, ""),
            ("save s.image saved", "", 0, ""),
            (
                "save s.image saved",
                "",
                2,
                "jffs_volume: s.image: saved: /empty: the host has something of that name \
                already\n",
            ),
        ],
    )?;
    for (path, wanted) in [
        ("saved/d/e/f", "one"),
        ("saved/g", "two"),
        ("saved/empty", ""),
    ] {
        let found = fs::read(rt, path)?;
        assert_eq!(rt; found.as_slice(), wanted.as_bytes(), "of {path}");
    }
    Ok(())
}

/// The saved tree is changed on the host, and loaded over the same volume.
fn loads_the_tree<Rt: Abort + Files<File = File> + AllocGlobal + Clone + Drop>(
    rt: &Rt,
) -> Result<(), Fail> {
    fs::write(rt, "saved/g", "another")?;
    fs::create_dir(rt, "saved/new")?;
    fs::write(rt, "saved/new/h", "four!")?;
    plays(
        rt,
        &[
            ("rm s.image /empty", "", 0, ""),
            ("put s.image /kept", "kept", 0, ""),
            ("load s.image saved/", "", 0, ""),
            (
                "ls s.image",
                "",
                0,
                "d d\nf 0 empty\nf 7 g\nf 4 kept\nd new\n",
            ),
            ("cat s.image /d/e/f", "", 0, "one"),
            ("cat s.image /g", "", 0, "another"),
            ("cat s.image /new/h", "", 0, "four!"),
        ],
    )
}

#[test]
fn what_is_saved_loads_again(rt: HostRuntime) -> Result<(), Fail> {
    let _ = fs::remove_file(&rt, "s.image");
    let _ = fs::remove_dir_all(&rt, "saved");
    saves_a_tree(&rt)?;
    loads_the_tree(&rt)?;
    fs::remove_dir_all(&rt, "saved")?;
    fs::remove_file(&rt, "s.image")?;
    Ok(())
}

#[test]
fn a_load_looks_at_all_names_first(rt: HostRuntime) -> Result<(), Fail> {
    let _ = fs::remove_file(&rt, "l.image");
    let _ = fs::remove_dir_all(&rt, "loaded");
    fs::create_dir(&rt, "loaded")?;
    fs::write(&rt, "loaded/a", "first")?;
    fs::create_dir(&rt, "loaded/b")?;
    fs::write(&rt, "loaded/b/with a blank", "second")?;
    plays(
        &rt,
        &[
            ("format l.image 8 1024", "", 0, ""),
            (
                "load l.image loaded",
                "",
                2,
                "jffs_volume: l.image: loaded: /b/with a blank: a name has a byte that is not \
                allowed\n",
            ),
            ("ls l.image", "", 0, ""),
            ("check l.image", "", 0, "volume unclean, 0 records\n"),
        ],
    )?;
    fs::rename(&rt, "loaded/b/with a blank", "loaded/b/c")?;
    fs::write(&rt, "loaded/d", vec![in rt.alloc(); 7u8; 1_048_577]?)?;
    plays(
        &rt,
        &[
            (
                "load l.image loaded",
                "",
                4,
                "jffs_volume: l.image: loaded: /d: the file would be too long\n",
            ),
            ("ls l.image", "", 0, "f 5 a\nd b\n"),
            ("ls l.image /b", "", 0, "f 6 c\n"),
        ],
    )?;
    fs::remove_dir_all(&rt, "loaded")?;
    fs::remove_file(&rt, "l.image")?;
    Ok(())
}
