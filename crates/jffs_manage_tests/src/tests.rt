//! Calls of the program, each with its status and what it writes.
//! Lines and statuses are those of docs/TOOLS.md.

mod cut_erases;
mod damaged;
mod faults;
mod filling;
mod hosts;
mod images;
mod maps;
mod served;
mod streams;
mod texts;
mod trees;
mod words;

use jffs_manage::run_volume;
use std::fs;
use std::fs::File;
use std::process::Abort;
use std::rt::Files;
use std::test::Fail;

/// A call's words, what stands on standard input, the status, and what is written: to standard
/// output where the status is 0, else to standard error.
type Row<'a> = (&'a str, &'a str, u8, &'a str);

fn plays<Rt: Abort + Files<File = File> + AllocGlobal + Clone + Drop>(
    rt: &Rt,
    rows: &[Row<'_>],
) -> Result<(), Fail> {
    for (line, input, status, wanted) in rows {
        let mut words = Vec::new(rt.alloc());
        words.push(String::from_str(rt.alloc(), "jffs_volume")?)?;
        for word in line.split(' ') {
            words.push(String::from_str(rt.alloc(), word)?)?;
        }
        let mut out = Vec::new(rt.alloc());
        let mut errors = Vec::new(rt.alloc());
        let mut input = input.as_bytes();
        let ended = run_volume(rt, &words, &mut input, &mut out, &mut errors, false);
        assert_eq!(rt; ended, *status, "of {line}");
        let told = if ended == 0 { &out } else { &errors };
        assert_eq!(rt; told.as_slice(), wanted.as_bytes(), "of {line}");
    }
    Ok(())
}

/// Calls without input, each with its status and the line that it writes to standard error after
/// `head`.
fn refuses<Rt: Abort + Files<File = File> + AllocGlobal + Clone + Drop>(
    rt: &Rt,
    head: &str,
    rows: &[(&str, u8, &str)],
) -> Result<(), Fail> {
    for (line, status, told) in rows {
        let wanted = format!(in rt.alloc(); "{head}{told}\n")?;
        plays(rt, &[(*line, "", *status, wanted.as_str())])?;
    }
    Ok(())
}

#[test]
fn what_is_put_comes_back(rt: HostRuntime) -> Result<(), Fail> {
    let _ = fs::remove_file(&rt, "v.image");
    plays(
        &rt,
        &[
            ("format v.image 6 1024", "", 0, ""),
            ("ls v.image", "", 0, ""),
            ("check v.image", "", 0, "volume unclean, 0 records\n"),
            ("mkdir v.image /d", "", 0, ""),
            ("put v.image /d/f", "first", 0, ""),
            ("cat v.image /d/f", "", 0, "first"),
            ("put v.image /d/f", "second text", 0, ""),
            ("cat v.image /d/f", "", 0, "second text"),
            ("ls v.image /d", "", 0, "f 11 f\n"),
            ("ls v.image /d/f", "", 0, "f 11 f\n"),
            ("mv v.image /d/f /g", "", 0, ""),
            ("rm v.image /d", "", 0, ""),
            ("ls v.image", "", 0, "f 11 g\n"),
            ("put v.image /empty", "", 0, ""),
            ("cat v.image /empty", "", 0, ""),
            ("mv v.image /g /.put.new", "", 0, ""),
            (
                "put v.image /h",
                "",
                4,
                "jffs_volume: v.image: /h: a put wasn't finished, and left what it had in the file \
                '.put.new' beside the path: mv it or rm it\n",
            ),
            ("cat v.image /.put.new", "", 0, "second text"),
        ],
    )?;
    fs::remove_file(&rt, "v.image")?;
    Ok(())
}
