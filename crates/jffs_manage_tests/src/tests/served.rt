//! A volume that is served: requests on standard input, and what they are answered.

use super::plays;
use jffs_manage::run_volume;
use std::fs;
use std::fs::File;
use std::process::Abort;
use std::rt::Files;
use std::test::Fail;

/// The first line of what is written.
const GREETING: &str = "pumpgrape 1\n";

/// Serves a volume to the end of these requests, and looks at the status and all answers.
fn serves<Rt: Abort + Files<File = File> + AllocGlobal + Clone + Drop>(
    rt: &Rt,
    file: &str,
    input: &[u8],
    status: u8,
    wanted: &str,
) -> Result<(), Fail> {
    let mut words = Vec::new(rt.alloc());
    for word in ["jffs_volume", "serve", file] {
        words.push(String::from_str(rt.alloc(), word)?)?;
    }
    let mut input = input;
    let mut out = Vec::new(rt.alloc());
    let mut errors = Vec::new(rt.alloc());
    let ended = run_volume(rt, &words, &mut input, &mut out, &mut errors, false);
    assert_eq!(rt; ended, status);
    let told = String::from_utf8(out)?;
    let wanted = format!(in rt.alloc(); "{GREETING}{wanted}")?;
    assert_eq!(rt; told.as_str(), wanted.as_str());
    Ok(())
}

/// Requests, each with its answer; a session has all of them.
fn answers<Rt: Abort + Files<File = File> + AllocGlobal + Clone + Drop>(
    rt: &Rt,
    file: &str,
    rows: &[(&str, &str)],
) -> Result<(), Fail> {
    let mut asked = String::new(rt.alloc());
    let mut wanted = String::new(rt.alloc());
    for (request, answer) in rows {
        asked.push_str(request)?;
        wanted.push_str(answer)?;
    }
    serves(rt, file, asked.as_bytes(), 0, wanted.as_str())
}

#[test]
fn each_request_is_answered(rt: HostRuntime) -> Result<(), Fail> {
    let _ = fs::remove_file(&rt, "a.served");
    plays(&rt, &[("format a.served 6 1024", "", 0, "")])?;
    answers(
        &rt,
        "a.served",
        &[
            ("limits\n", "ok 192 168 20 8 1048576\n"),
            ("room\n", "ok 6 1024 6 0 1408\n"),
            ("check\n", "ok unclean 0\n"),
            ("create 2\n/f", "ok\n"),
            ("write 2 0 5\n/fhello", "ok\n"),
            ("stat 2\n/f", "ok f 5 72\n"),
            ("read 2 1 3\n/f", "ok 3\nell"),
            ("read 2 4 9\n/f", "ok 1\no"),
            ("read 2 7 9\n/f", "ok 0\n"),
            ("mkdir 2\n/d", "ok\n"),
            ("stat 2\n/d", "ok d 0 64\n"),
            ("rename 2 4\n/f/d/g", "ok\n"),
            ("list 1\n/", "ok 1 4\nd d\n"),
            ("list 2\n/d", "ok 1 6\nf 5 g\n"),
            ("list 4\n/d/g", "ok 1 6\nf 5 g\n"),
            ("truncate 4 2\n/d/g", "ok\n"),
            ("read 4 0 100\n/d/g", "ok 2\nhe"),
            ("sync\n", "ok\n"),
            ("remove 4\n/d/g", "ok\n"),
            ("remove 2\n/d", "ok\n"),
            ("list 1\n/", "ok 0 0\n"),
            ("check\n", "ok unclean 7\n"),
            ("unmount\n", "ok\n"),
            ("room\n", ""),
        ],
    )?;
    plays(
        &rt,
        &[("check a.served", "", 0, "volume clean, 8 records\n")],
    )?;
    fs::remove_file(&rt, "a.served")?;
    Ok(())
}

#[test]
fn each_refusal_has_its_cause(rt: HostRuntime) -> Result<(), Fail> {
    let _ = fs::remove_file(&rt, "r.served");
    plays(
        &rt,
        &[
            ("format r.served 6 1024", "", 0, ""),
            ("mkdir r.served /d", "", 0, ""),
            ("put r.served /d/f", "", 0, ""),
        ],
    )?;
    answers(
        &rt,
        "r.served",
        &[
            ("stat 2\n/x", "refused NotFound\n"),
            ("list 2\n/x", "refused NotFound\n"),
            ("read 2 0 1\n/x", "refused NotFound\n"),
            ("read 2 0 1\n/d", "refused IsDirectory\n"),
            ("create 4\n/d/f", "refused NameTaken\n"),
            ("mkdir 4\n/x/y", "refused NoParent\n"),
            ("mkdir 1\n/", "refused RootFixed\n"),
            ("write 2 0 1\n/dA", "refused IsDirectory\n"),
            ("write 4 1048576 1\n/d/fA", "refused FileLong\n"),
            ("truncate 4 1048577\n/d/f", "refused FileLong\n"),
            ("remove 2\n/d", "refused NotEmpty\n"),
            ("remove 2\n/x", "refused NotFound\n"),
            ("rename 2 2\n/d/d", "refused NameTaken\n"),
            ("stat 4\n/d/f", "ok f 0 64\n"),
        ],
    )?;
    fs::remove_file(&rt, "r.served")?;
    Ok(())
}

#[test]
fn what_is_no_request_is_answered_and_the_next_one_too(rt: HostRuntime) -> Result<(), Fail> {
    let _ = fs::remove_file(&rt, "m.served");
    plays(&rt, &[("format m.served 6 1024", "", 0, "")])?;
    for line in [
        "\n",
        "stat\n",
        "stat x\n",
        "stat 01\n",
        "stat +1\n",
        "stat  1\n",
        " stat 1\n",
        "stat 1 \n",
        "stat 1 1\n",
        "stat 4294967296\n",
        "Stat 1\n",
        "room 0\n",
        "write 2 0\n",
        "read 2 -1 1\n",
        "unmount now\n",
        "room\r\n",
        "\u{e9}\n",
        "stat 00000000000000000000000000000000000000000000000000000000000000000000000000000000000000000000001\n",
        // A path that is none, with what it counts.
        "stat 0\n",
        "stat 1\nf",
        "stat 2\n//",
        "create 3\n/f\n",
        "create 7\n/room\n\n",
        "stat 3\n/\u{e9}",
        "stat 22\n/aaaaaaaaaaaaaaaaaaaaa",
        "rename 2 2\n/ff/",
    ] {
        answers(
            &rt,
            "m.served",
            &[(line, "malformed\n"), ("list 1\n/", "ok 0 0\n")],
        )?;
    }
    fs::remove_file(&rt, "m.served")?;
    Ok(())
}

/// A request that counts more bytes than it may is dropped with all of them.
#[test]
fn counts_over_the_limits_are_dropped(rt: HostRuntime) -> Result<(), Fail> {
    let _ = fs::remove_file(&rt, "c.served");
    plays(&rt, &[("format c.served 6 1024", "", 0, "")])?;
    for (line, count, wanted) in [
        ("stat 168\n", 168usize, "malformed\nok\n"),
        ("stat 169\n", 169, "malformed\nok\n"),
        ("stat 1000\n", 1000, "malformed\nok\n"),
        ("write 1 0 192\n", 193, "malformed\nok\n"),
        ("write 1 0 193\n", 194, "malformed\nok\n"),
        ("rename 1 193\n", 194, "malformed\nok\n"),
    ] {
        let mut asked = Vec::new(rt.alloc());
        asked.extend_from_slice(line.as_bytes())?;
        for _ in 0..count {
            asked.push(b'x')?;
        }
        asked.extend_from_slice(b"sync\n")?;
        serves(&rt, "c.served", &asked, 0, wanted)?;
    }
    fs::remove_file(&rt, "c.served")?;
    Ok(())
}

/// What is done before the input ends stays, and what the input ends in is not done.
#[test]
fn the_end_of_the_input_unmounts(rt: HostRuntime) -> Result<(), Fail> {
    let _ = fs::remove_file(&rt, "e.served");
    plays(&rt, &[("format e.served 6 1024", "", 0, "")])?;
    serves(&rt, "e.served", b"", 0, "")?;
    serves(&rt, "e.served", b"create 2\n/f", 0, "ok\n")?;
    serves(&rt, "e.served", b"create 2\n/", 0, "")?;
    serves(&rt, "e.served", b"create 2", 0, "")?;
    serves(&rt, "e.served", b"write 2 0 9\n/fdata", 0, "")?;
    serves(&rt, "e.served", b"write 2 0 999\n/fdata", 0, "")?;
    plays(
        &rt,
        &[
            ("ls e.served", "", 0, "f 0 f\n"),
            ("check e.served", "", 0, "volume clean, 2 records\n"),
        ],
    )?;
    fs::remove_file(&rt, "e.served")?;
    Ok(())
}

/// Who holds the lock alone may change the file; the others may look.
#[test]
fn a_locked_file_is_not_changed(rt: HostRuntime) -> Result<(), Fail> {
    let _ = fs::remove_file(&rt, "l.served");
    plays(&rt, &[("format l.served 6 1024", "", 0, "")])?;
    let held = File::open(&rt, "l.served")?;
    assert!(rt; held.try_lock().is_ok());
    plays(
        &rt,
        &[
            (
                "mkdir l.served /d",
                "",
                2,
                "jffs_volume: l.served: /d: another program has the file locked: one at a time \
                may change it\n",
            ),
            (
                "serve l.served",
                "create 2\n/f",
                2,
                "jffs_volume: l.served: another program has the file locked: one at a time may \
                change it\n",
            ),
            ("ls l.served", "", 0, ""),
        ],
    )?;
    assert!(rt; held.unlock().is_ok());
    plays(&rt, &[("mkdir l.served /d", "", 0, "")])?;
    fs::remove_file(&rt, "l.served")?;
    Ok(())
}
