//! What takes the room of a volume, counted by hand from the lengths of its records.

use super::plays;
use jffs_manage::run_volume;
use std::alloc::Global;
use std::fs;
use std::fs::File;
use std::process::Abort;
use std::rt::Files;
use std::test::Fail;

/// The records: 64 bytes of /d, an unmount, 64 of a new file, 72 of its bytes, 64 of its new name,
/// an unmount. Those of the unmounts are dead, and that of the new file since it was renamed. A
/// sector has 64 cells of 16 bytes.
#[test]
fn room_is_counted_by_records(rt: HostRuntime) -> Result<(), Fail> {
    let _ = fs::remove_file(&rt, "m.image");
    plays(
        &rt,
        &[
            ("format m.image 6 1024", "", 0, ""),
            ("mkdir m.image /d", "", 0, ""),
            ("put m.image /d/f", "first", 0, ""),
            ("ls -l m.image", "", 0, "d 0 64 d\n"),
            ("ls m.image /d -l", "", 0, "f 5 136 f\n"),
            ("ls -l m.image /d/f", "", 0, "f 5 136 f\n"),
            (
                "df m.image",
                "",
                0,
                "sectors 6 of 1024 bytes, 5 erased\n\
                live 200 bytes in records, room is sure below 1408\n",
            ),
            (
                "map m.image",
                "",
                0,
                concat!(
                    " 0 tail ####xxxxxxxx#########xxxx.......................................\n",
                    " 1      ................................................................\n",
                    " 2      ................................................................\n",
                    " 3      ................................................................\n",
                    " 4      ................................................................\n",
                    " 5      ................................................................\n",
                    "# live, x dead, - unused, . erased; a cell is 16 bytes\n",
                    "200 bytes live, 192 dead, 0 unused, 5752 erased\n"
                ),
            ),
        ],
    )?;
    fs::remove_file(&rt, "m.image")?;
    Ok(())
}

/// The map of six erased sectors as it stands on a terminal.
fn coloured_map(alloc: Global) -> Result<String, Fail> {
    let dots = "................................................................";
    let mut map = String::new(alloc);
    for sector in 0u32..6 {
        map.push_str(format!(in alloc; " {sector}      \u{1b}[2m{dots}\u{1b}[0m\n")?.as_str())?;
    }
    map.push_str("# live, x dead, - unused, . erased; a cell is 16 bytes\n")?;
    map.push_str("0 bytes live, 0 dead, 0 unused, 6144 erased\n")?;
    Ok(map)
}

/// The same map as a picture.
fn picture_map(alloc: Global) -> Result<String, Fail> {
    let mut map = String::from_str(
        alloc,
        "<svg xmlns=\"http://www.w3.org/2000/svg\" width=\"592\" height=\"128\" \
        font-family=\"monospace\" font-size=\"12\">\n",
    )?;
    for sector in 0u32..6 {
        let (top, line) = (sector * 16, sector * 16 + 12);
        map.push_str(format!(in alloc; "<text x=\"8\" y=\"{line}\">{sector} </text>\n")?.as_str())?;
        map.push_str(format!(in alloc;
            "<rect x=\"72\" y=\"{top}\" width=\"512\" height=\"14\" fill=\"#dddddd\"/>\n"
        )?.as_str())?;
    }
    for (left, fill, word) in [
        (72u32, "#2e7d32", "live"),
        (168, "#c62828", "dead"),
        (264, "#f9a825", "unused"),
        (360, "#dddddd", "erased"),
    ] {
        let behind = left + 16;
        map.push_str(format!(in alloc;
            "<rect x=\"{left}\" y=\"112\" width=\"8\" height=\"14\" fill=\"{fill}\"/>\n"
        )?.as_str())?;
        map.push_str(format!(in alloc;
            "<text x=\"{behind}\" y=\"124\">{word}</text>\n"
        )?.as_str())?;
    }
    map.push_str("</svg>\n")?;
    Ok(map)
}

/// What `map` writes to a terminal, without option or with one.
fn shows<Rt: Abort + Files<File = File> + AllocGlobal + Clone + Drop>(
    rt: &Rt,
    option: Option<&str>,
    wanted: &str,
) -> Result<(), Fail> {
    let mut words = Vec::new(rt.alloc());
    for word in ["jffs_volume", "map", "p.image"] {
        words.push(String::from_str(rt.alloc(), word)?)?;
    }
    if let Some(word) = option {
        words.push(String::from_str(rt.alloc(), word)?)?;
    }
    let mut input = b"".as_slice();
    let mut out = Vec::new(rt.alloc());
    let mut errors = Vec::new(rt.alloc());
    let ended = run_volume(rt, &words, &mut input, &mut out, &mut errors, true);
    assert_eq!(rt; ended, 0);
    assert_eq!(rt; out.as_slice(), wanted.as_bytes());
    Ok(())
}

/// An empty volume has a run of erased cells in each row, and no sector is the tail.
#[test]
fn a_map_is_coloured_or_a_picture(rt: HostRuntime) -> Result<(), Fail> {
    let _ = fs::remove_file(&rt, "p.image");
    plays(&rt, &[("format p.image 6 1024", "", 0, "")])?;
    shows(&rt, None, coloured_map(rt.alloc())?.as_str())?;
    shows(&rt, Some("--svg"), picture_map(rt.alloc())?.as_str())?;
    fs::remove_file(&rt, "p.image")?;
    Ok(())
}
