//! What people are told of a script that is refused.
//! Lines and reasons are those of docs/SCRIPT.md.

use jffs_text::{Script, ScriptMistake, ScriptWhy};
use std::alloc::Global;
use std::process::Abort;
use std::test::Fail;

/// That a script is refused for this kind of reason, and what is told of it.
fn tells(
    rt: &impl Abort,
    alloc: Global,
    script: &[u8],
    why: ScriptWhy,
    wanted: &str,
) -> Result<(), Fail> {
    match Script::read(alloc, script).err() {
        None => assert!(rt; false, "accepted, and not refused as {wanted}"),
        Some(mistake) => {
            is_told(rt, alloc, &mistake, wanted)?;
            assert_eq!(rt; mistake.fault.why, why, "of {wanted}");
            assert_eq!(rt; Script::parse(alloc, script).err(), Some(mistake.fault));
        }
    }
    Ok(())
}

fn is_told(
    rt: &impl Abort,
    alloc: Global,
    mistake: &ScriptMistake,
    wanted: &str,
) -> Result<(), Fail> {
    let told = format!(in alloc; "{mistake}")?;
    assert_eq!(rt; told.as_str(), wanted);
    Ok(())
}

#[test]
fn a_script_without_volume_is_told_of(rt: HostRuntime) -> Result<(), Fail> {
    for (script, wanted) in [
        (
            "mkdir /a",
            "line 1: the first statement has to be 'volume S Z', got 'mkdir'",
        ),
        (
            "\n#\n volume 8 1024",
            "line 3: the first statement has to be 'volume S Z', got an empty word (a space too \
            many)",
        ),
        (
            "aaaaaaaaaaaaaaaaaaaaaaaaaaaaaaaaaaaaaaaaaaaaaaaaaaaaaaaaaaaa",
            "line 1: the first statement has to be 'volume S Z', got \
            'aaaaaaaaaaaaaaaaaaaaaaaaaaaaaaaaaaaaaaaa..'",
        ),
    ] {
        tells(
            &rt,
            rt.alloc(),
            script.as_bytes(),
            ScriptWhy::Volume,
            wanted,
        )?;
    }
    for script in ["", "\n# nothing\n"] {
        tells(
            &rt,
            rt.alloc(),
            script.as_bytes(),
            ScriptWhy::Empty,
            "line 1: there is no statement; the first is 'volume S Z'",
        )?;
    }
    Ok(())
}

#[test]
fn a_volume_of_wrong_sizes_is_told_of(rt: HostRuntime) -> Result<(), Fail> {
    for (script, wanted) in [
        ("volume 8", "a word is missing: volume S Z"),
        ("volume 8 1024 2", "unexpected word '2': volume S Z"),
        (
            "volume  8 1024",
            "a space too many: words stand one space apart, and none stands at an end of the line",
        ),
        ("volume 8 1k", "number expected, got '1k'"),
        ("volume 5 1024", "a volume has 6 to 64 sectors, got 5"),
        ("volume 65 1000", "a volume has 6 to 64 sectors, got 65"),
        ("volume 5 x", "a volume has 6 to 64 sectors, got 5"),
        (
            "volume 8 512",
            "a sector has 1024, 2048, 4096, 8192 or 16384 bytes, got 512",
        ),
    ] {
        let wanted = format!(in rt.alloc(); "line 1: {wanted}")?;
        tells(
            &rt,
            rt.alloc(),
            script.as_bytes(),
            ScriptWhy::Volume,
            wanted.as_str(),
        )?;
    }
    Ok(())
}

#[test]
fn bytes_that_are_not_allowed_are_told_of(rt: HostRuntime) -> Result<(), Fail> {
    let alloc = rt.alloc();
    for (script, wanted) in [
        (
            b"volume 8 1024\r\nwriter\r\n".as_slice(),
            "line 1: the line ends with CR LF, where LF alone is wanted: tr -d '\\r' mends it",
        ),
        (
            b"\nvolume\t8 1024\r".as_slice(),
            "line 2: byte 7 is a tab, where one space is wanted",
        ),
        (
            b"volume 8 1024\n# \xc3\xa4".as_slice(),
            "line 2: byte 3 has the value 195, and only printable ASCII is allowed, 32 to 126",
        ),
        (
            b"volume 8\r 1024\n".as_slice(),
            "line 1: byte 9 has the value 13, and only printable ASCII is allowed, 32 to 126",
        ),
        (
            b"volume 8 1024\nwriter\ncreate f\x7f g".as_slice(),
            "line 3: byte 9 has the value 127, and only printable ASCII is allowed, 32 to 126",
        ),
        (
            b"volume 8 1024\nmkdir /\xff".as_slice(),
            "line 2: byte 8 has the value 255, and only printable ASCII is allowed, 32 to 126",
        ),
    ] {
        tells(&rt, alloc, script, ScriptWhy::Text, wanted)?;
    }
    let long = vec![in alloc; b'#'; 16_385]?;
    tells(
        &rt,
        alloc,
        &long,
        ScriptWhy::Text,
        "line 1: the line has more than 16384 bytes",
    )
}

/// Statements after `volume 8 1024` and `writer`, so that they are on line 3.
fn refuses_commands(
    rt: &impl Abort,
    alloc: Global,
    why: ScriptWhy,
    rows: &[(&str, &str)],
) -> Result<(), Fail> {
    for (line, wanted) in rows {
        let script = format!(in alloc; "volume 8 1024\nwriter\n{line}\n")?;
        let wanted = format!(in alloc; "line 3: {wanted}")?;
        tells(rt, alloc, script.as_str().as_bytes(), why, wanted.as_str())?;
    }
    Ok(())
}

#[test]
fn a_word_missing_or_too_many_is_told_of(rt: HostRuntime) -> Result<(), Fail> {
    refuses_commands(
        &rt,
        rt.alloc(),
        ScriptWhy::Command,
        &[
            ("create", "a word is missing: create PATH"),
            ("write /f 0", "a word is missing: write PATH OFFSET HEX"),
            (
                "fill /f 0 1",
                "a word is missing: fill PATH OFFSET COUNT HH",
            ),
            ("mkdir /a /b /c", "unexpected word '/b': mkdir PATH"),
            ("truncate /f 1 2", "unexpected word '2': truncate PATH SIZE"),
            ("truncate f x 2", "unexpected word '2': truncate PATH SIZE"),
            ("rename /f /g to", "unexpected word 'to': rename PATH PATH"),
        ],
    )
}

#[test]
fn a_statement_that_is_no_command_is_told_of(rt: HostRuntime) -> Result<(), Fail> {
    refuses_commands(
        &rt,
        rt.alloc(),
        ScriptWhy::Command,
        &[
            (
                "creat /f",
                "unknown command 'creat'; commands are mkdir, create, write, fill, truncate, \
                rename and remove, and before them stand volume, line, cleaner, reader and \
                writer",
            ),
            (
                "remove /f ",
                "a space too many: words stand one space apart, and none stands at an end of the \
                line",
            ),
            (
                " mkdir /a",
                "a space too many: words stand one space apart, and none stands at an end of the \
                line",
            ),
            ("volume 8 1024", "a second 'volume', where a script has one"),
        ],
    )
}

#[test]
fn a_number_that_is_wrong_is_told_of(rt: HostRuntime) -> Result<(), Fail> {
    refuses_commands(
        &rt,
        rt.alloc(),
        ScriptWhy::Number,
        &[
            ("write /f 01 66", "number expected, got '01' (leading zero)"),
            ("write /f -1 66", "number expected, got '-1'"),
            (
                "write /f  66",
                "number expected, got an empty word (a space too many)",
            ),
            (
                "write /f 4294967296 66",
                "number from 0 to 4294967295 expected, got '4294967296'",
            ),
            (
                "fill /f 0 4097 61",
                "number from 0 to 4096 expected, got '4097'",
            ),
        ],
    )
}

#[test]
fn hex_that_is_wrong_is_told_of(rt: HostRuntime) -> Result<(), Fail> {
    refuses_commands(
        &rt,
        rt.alloc(),
        ScriptWhy::Hex,
        &[
            (
                "fill /f 0 1 6",
                "one byte expected, as two digits of hex, got '6'",
            ),
            (
                "write /f 0 6",
                "hex expected, got '6': the number of its digits is odd",
            ),
            (
                "write /f 0 6G",
                "hex expected, got '6G': digits 0 to 9 and a to f, two for each byte, or '-' for \
                no bytes",
            ),
        ],
    )
}

#[test]
fn a_path_that_is_wrong_is_told_of(rt: HostRuntime) -> Result<(), Fail> {
    refuses_commands(
        &rt,
        rt.alloc(),
        ScriptWhy::Path,
        &[
            (
                "create f",
                "path expected, got 'f': a path begins with a slash",
            ),
            (
                "create /a//f",
                "path expected, got '/a//f': a name is empty",
            ),
            (
                "create /aaaaaaaaaaaaaaaaaaaaa",
                "path expected, got '/aaaaaaaaaaaaaaaaaaaaa': a name is longer than 20 bytes",
            ),
            (
                "create /1/2/3/4/5/6/7/8/9",
                "path expected, got '/1/2/3/4/5/6/7/8/9': a path has more than 8 names",
            ),
        ],
    )
}

#[test]
fn statements_in_a_wrong_place_are_told_of(rt: HostRuntime) -> Result<(), Fail> {
    refuses_commands(
        &rt,
        rt.alloc(),
        ScriptWhy::Header,
        &[
            (
                "line shared 1",
                "'line' has to come before the first 'writer'",
            ),
            (
                "cleaner 1",
                "'cleaner' has to come before the first 'writer'",
            ),
            (
                "reader 1 1 /f",
                "'reader' has to come before the first 'writer'",
            ),
        ],
    )?;
    tells(
        &rt,
        rt.alloc(),
        b"volume 8 1024\nmkdir /a",
        ScriptWhy::Outside,
        "line 2: a command before the first 'writer'",
    )
}

#[test]
fn a_header_that_is_wrong_is_told_of(rt: HostRuntime) -> Result<(), Fail> {
    for (script, why, wanted) in [
        (
            "volume 8 1024\nline rings 1\nline shared 1",
            ScriptWhy::Header,
            "line 3: a second 'line', where a script has one",
        ),
        (
            "volume 8 1024\ncleaner 1\ncleaner 1",
            ScriptWhy::Header,
            "line 3: a second 'cleaner', where a script has one",
        ),
        (
            "volume 8 1024\nline queue 1",
            ScriptWhy::Command,
            "line 2: 'shared' or 'rings' expected, got 'queue'",
        ),
        (
            "volume 8 1024\nline shared",
            ScriptWhy::Command,
            "line 2: a word is missing: line shared C, or line rings C",
        ),
        (
            "volume 8 1024\nline shared 0",
            ScriptWhy::Number,
            "line 2: number from 1 to 256 expected, got '0'",
        ),
        (
            "volume 8 1024\nwriter 1",
            ScriptWhy::Command,
            "line 2: unexpected word '1': writer",
        ),
    ] {
        tells(&rt, rt.alloc(), script.as_bytes(), why, wanted)?;
    }
    Ok(())
}

#[test]
fn what_is_too_many_is_told_of(rt: HostRuntime) -> Result<(), Fail> {
    let alloc = rt.alloc();
    for (begin, line, count, wanted) in [
        (
            "volume 8 1024\n",
            "reader 1 1 /f\n",
            17,
            "line 18: more than 16 readers",
        ),
        (
            "volume 8 1024\n",
            "writer\n",
            9,
            "line 10: more than 8 writers",
        ),
        (
            "volume 8 1024\nwriter\n",
            "mkdir /\n",
            4097,
            "line 4099: more than 4096 commands of one writer",
        ),
    ] {
        let mut script = String::from_str(alloc, begin)?;
        for _ in 0..count {
            script.push_str(line)?;
        }
        tells(&rt, alloc, script.as_bytes(), ScriptWhy::Many, wanted)?;
    }
    Ok(())
}
