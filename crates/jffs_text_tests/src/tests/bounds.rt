//! Each bound of a script: what is accepted up to it, and refused beyond it.
//! The bounds are those of docs/SCRIPT.md.

use jffs_text::{LineChoice, LineForm, Script, ScriptFault, ScriptWhy};
use std::alloc::Global;
use std::process::Abort;
use std::test::Fail;

/// After these lines the one is accepted, and the other refused for this kind of reason.
fn bounds(
    rt: &impl Abort,
    alloc: Global,
    begin: &str,
    rows: &[(&str, &str, ScriptWhy)],
) -> Result<(), Fail> {
    let line = begin.split('\n').count();
    for (accepted, refused, why) in rows {
        let fault = fault_of(alloc, begin, accepted)?;
        assert_eq!(rt; fault, None, "of {accepted}");
        let fault = fault_of(alloc, begin, refused)?;
        assert_eq!(rt;
            fault,
            Some(ScriptFault { line, why: *why }),
            "of {refused}"
        );
    }
    Ok(())
}

/// Why a script with this line at its end is refused.
fn fault_of(alloc: Global, begin: &str, last: &str) -> Result<Option<ScriptFault>, Fail> {
    let script = format!(in alloc; "{begin}{last}\n")?;
    Ok(Script::parse(alloc, script.as_bytes()).err())
}

#[test]
fn a_volume_has_sizes_up_to_its_bounds(rt: HostRuntime) -> Result<(), Fail> {
    let why = ScriptWhy::Volume;
    bounds(
        &rt,
        rt.alloc(),
        "",
        &[
            ("volume 6 1024", "volume 5 1024", why),
            ("volume 64 16384", "volume 65 16384", why),
            ("volume 6 16384", "volume 6 32768", why),
            ("volume 64 1024", "volume 64 512", why),
            ("volume 8 2048", "volume 8 3072", why),
        ],
    )
}

#[test]
fn a_header_has_numbers_up_to_their_bounds(rt: HostRuntime) -> Result<(), Fail> {
    let why = ScriptWhy::Number;
    bounds(
        &rt,
        rt.alloc(),
        "volume 8 1024\n",
        &[
            ("line shared 1", "line shared 0", why),
            ("line shared 256", "line shared 257", why),
            ("line rings 1", "line rings 0", why),
            ("line rings 256", "line rings 257", why),
            ("cleaner 1", "cleaner 0", why),
            ("cleaner 1000000", "cleaner 1000001", why),
            ("reader 1 1 /f", "reader 0 1 /f", why),
            ("reader 8 1 /f", "reader 9 1 /f", why),
            ("reader 1 1 /", "reader 1 0 /", why),
            ("reader 1 4294967295 /f", "reader 1 4294967296 /f", why),
        ],
    )
}

#[test]
fn a_command_has_words_up_to_their_bounds(rt: HostRuntime) -> Result<(), Fail> {
    let number = ScriptWhy::Number;
    bounds(
        &rt,
        rt.alloc(),
        "volume 8 1024\nwriter\n",
        &[
            ("fill /f 0 4096 61", "fill /f 0 4097 61", number),
            ("fill /f 0 0 61", "fill /f 0 00 61", number),
            ("write /f 4294967295 66", "write /f 4294967296 66", number),
            ("truncate /f 4294967295", "truncate /f 4294967296", number),
            ("write /f 0 -", "write /f 0 --", ScriptWhy::Hex),
            ("write /f 0 6a", "write /f 0 6A", ScriptWhy::Hex),
            ("write /f 0 09", "write /f 0 0", ScriptWhy::Hex),
            ("create /~", "create /\x7F", ScriptWhy::Text),
            (
                "create /aaaaaaaaaaaaaaaaaaaa",
                "create /aaaaaaaaaaaaaaaaaaaaa",
                ScriptWhy::Path,
            ),
            (
                "create /1/2/3/4/5/6/7/8",
                "create /1/2/3/4/5/6/7/8/9",
                ScriptWhy::Path,
            ),
        ],
    )
}

/// The first lines, then one line so many times, and then a last one.
fn repeated(
    alloc: Global,
    begin: &str,
    line: &str,
    count: usize,
    last: &str,
) -> Result<String, Fail> {
    let mut script = String::from_str(alloc, begin)?;
    for _ in 0..count {
        script.push_str(line)?;
    }
    script.push_str(last)?;
    Ok(script)
}

fn commands_of(script: &Script<'_>, writer: usize) -> Option<usize> {
    script
        .writers
        .get(writer)
        .map(|writer| writer.commands.len())
}

#[test]
fn as_many_are_accepted_as_a_script_may_have(rt: HostRuntime) -> Result<(), Fail> {
    let alloc = rt.alloc();
    accepts_readers(&rt, alloc)?;
    accepts_writers(&rt, alloc)?;
    accepts_commands(&rt, alloc)?;
    let text = repeated(alloc, "#", "a", 16_383, "\nvolume 8 1024")?;
    assert!(rt; Script::parse(alloc, text.as_bytes()).is_ok());
    Ok(())
}

fn accepts_readers(rt: &impl Abort, alloc: Global) -> Result<(), Fail> {
    let text = repeated(alloc, "volume 8 1024\n", "reader 2 3 /f\n", 16, "writer\n")?;
    let script = Script::parse(alloc, text.as_bytes())?;
    assert_eq!(rt; (script.readers.len(), script.writers.len()), (16, 1));
    assert!(rt;
        script
            .readers
            .iter()
            .all(|reader| (reader.writer, reader.seq) == (2, 3))
    );
    Ok(())
}

fn accepts_writers(rt: &impl Abort, alloc: Global) -> Result<(), Fail> {
    let text = repeated(alloc, "volume 8 1024\n", "writer\n", 8, "mkdir /\n")?;
    let script = Script::parse(alloc, text.as_bytes())?;
    assert_eq!(rt; script.writers.len(), 8);
    assert_eq!(rt; commands_of(&script, 7), Some(1));
    Ok(())
}

fn accepts_commands(rt: &impl Abort, alloc: Global) -> Result<(), Fail> {
    let text = repeated(
        alloc,
        "volume 8 1024\nwriter\n",
        "mkdir /\n",
        4096,
        "writer\n",
    )?;
    let script = Script::parse(alloc, text.as_bytes())?;
    assert_eq!(rt; commands_of(&script, 0), Some(4096));
    Ok(())
}

#[test]
fn a_reader_too_many_after_a_writer_is_late(rt: HostRuntime) -> Result<(), Fail> {
    let alloc = rt.alloc();
    let late = "writer\nreader 1 1 /f\n";
    let text = repeated(alloc, "volume 8 1024\n", "reader 1 1 /f\n", 16, late)?;
    let fault = ScriptFault {
        line: 19,
        why: ScriptWhy::Header,
    };
    assert_eq!(rt; Script::parse(alloc, text.as_bytes()).err(), Some(fault));
    Ok(())
}

/// What a script says of its volume's sizes, its line and its cleaner.
type Part = (u32, u32, LineChoice, Option<u32>);

fn part_of(alloc: Global, text: &[u8]) -> Result<Part, Fail> {
    let script = Script::parse(alloc, text)?;
    Ok((
        script.sectors,
        script.sector_size,
        script.line,
        script.cleaner,
    ))
}

#[test]
fn a_script_says_who_takes_part(rt: HostRuntime) -> Result<(), Fail> {
    let alloc = rt.alloc();
    let usual = LineChoice {
        form: LineForm::Shared,
        capacity: 16,
    };
    let part = part_of(alloc, b"volume 8 1024")?;
    assert_eq!(rt; part, (8, 1024, usual, None));
    let rings = LineChoice {
        form: LineForm::Rings,
        capacity: 3,
    };
    let part = part_of(alloc, b"volume 6 4096\nline rings 3\ncleaner 7")?;
    assert_eq!(rt; part, (6, 4096, rings, Some(7)));
    Ok(())
}
