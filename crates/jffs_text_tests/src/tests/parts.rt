//! The parts of the grammar, each called as the tools call it. The values are those of
//! docs/SCRIPT.md.

use jffs_text::{
    Command, LINE_MAX, Mistake, Quote, Script, ScriptWhy, SpelledPath, Words, cause_name,
    line_text, write_hex,
};
use jffs_tree::{Cause, Wish};
use std::alloc::Global;
use std::process::Abort;
use std::test::Fail;

/// Longer than any piece that is written at once.
#[test]
fn bytes_are_written_in_lower_case_hex(rt: HostRuntime) -> Result<(), Fail> {
    let alloc = rt.alloc();
    let mut out = Vec::new(alloc);
    let written = write_hex(&[0, 0x0F, 0xA0, 0xFF], &mut out);
    assert!(rt; written.is_ok());
    assert_eq!(rt; out.as_slice(), b"000fa0ff".as_slice());
    let mut out = Vec::new(alloc);
    let many = [0x1Eu8; 600];
    assert!(rt; write_hex(&many, &mut out).is_ok());
    assert!(rt; out == "1e".repeat(alloc, 600)?.into_bytes());
    Ok(())
}

const CAUSES: [(Cause, &str); 16] = [
    (Cause::RootFixed, "RootFixed"),
    (Cause::NoParent, "NoParent"),
    (Cause::NameTaken, "NameTaken"),
    (Cause::NotFound, "NotFound"),
    (Cause::IsDirectory, "IsDirectory"),
    (Cause::DataLong, "DataLong"),
    (Cause::FileLong, "FileLong"),
    (Cause::NotEmpty, "NotEmpty"),
    (Cause::NotNeeded, "NotNeeded"),
    (Cause::Stale, "Stale"),
    (Cause::InodesSpent, "InodesSpent"),
    (Cause::VersionsSpent, "VersionsSpent"),
    (Cause::Memory, "Memory"),
    (Cause::NoSpace, "NoSpace"),
    (Cause::Device, "Device"),
    (Cause::Failed, "Failed"),
];

#[test]
fn each_cause_has_its_name(rt: HostRuntime) {
    for (cause, name) in CAUSES {
        assert_eq!(rt; cause_name(cause), name);
    }
}

/// That a word is the next path, and leads to the name `b` in the directory `a`.
fn is_path(rt: &impl Abort, names: &[jffs_node::Name]) {
    assert_eq!(rt; names.len(), 2);
    for (name, wanted) in names.iter().zip([b"a", b"b"]) {
        assert_eq!(rt; name.bytes(), wanted.as_slice());
    }
}

#[test]
fn a_path_has_its_names(rt: HostRuntime) -> Result<(), Fail> {
    let alloc = rt.alloc();
    let mut words = Words::of("/a/b ff 00");
    is_path(&rt, words.take_path(alloc)?.names());
    assert_eq!(rt; words.take_byte(), Ok(255));
    assert_eq!(rt; words.take_byte(), Ok(0));
    is_path(&rt, SpelledPath::of("/a/b")?.path(alloc)?.names());
    Ok(())
}

#[test]
fn a_statement_has_as_many_words_as_its_form(rt: HostRuntime) {
    let form = "mkdir PATH";
    let told = Words::of("mkdir /a").as_many(2, form, 7);
    assert_eq!(rt; told, Ok(7));
    let told = Words::of("mkdir").as_many(2, form, 7);
    assert_eq!(rt; told, Err(Mistake::Few(form)));
    let told = Words::of("mkdir /a /b").as_many(2, form, 7);
    let word = Quote::of("/b");
    assert_eq!(rt; told, Err(Mistake::Extra { word, form }));
    let told = Words::of("mkdir  /a").as_many(2, form, 7);
    assert_eq!(rt; told, Err(Mistake::Spaces));
    assert_eq!(rt; Mistake::Spaces.why(), ScriptWhy::Command);
}

/// What a request of a replay wishes for.
fn wished(alloc: Global, line: &str) -> Result<Wish, Fail> {
    Ok(Command::of_words(alloc, Words::of(line))?.wish(alloc)?)
}

#[test]
fn a_command_of_words_is_a_wish(rt: HostRuntime) -> Result<(), Fail> {
    let alloc = rt.alloc();
    match wished(alloc, "fill /a/b 3 2 61")? {
        Wish::Write {
            path,
            offset,
            bytes,
        } => {
            is_path(&rt, path.names());
            assert_eq!(rt; offset, 3);
            assert_eq!(rt; bytes.as_slice(), b"aa".as_slice());
        }
        _ => return Err("a write".into()),
    }
    match wished(alloc, "truncate /a/b 9")? {
        Wish::Truncate { path, size } => {
            is_path(&rt, path.names());
            assert_eq!(rt; size, 9);
        }
        _ => return Err("a truncate".into()),
    }
    Ok(())
}

#[test]
fn a_line_is_text_up_to_its_bound(rt: HostRuntime) -> Result<(), Fail> {
    assert_eq!(rt; line_text(b"create /f ~"), Ok("create /f ~"));
    let longest = "~".repeat(rt.alloc(), LINE_MAX)?;
    assert_eq!(rt; line_text(longest.as_bytes()), Ok(longest.as_str()));
    let longer = "~".repeat(rt.alloc(), LINE_MAX + 1)?;
    assert_eq!(rt; line_text(longer.as_bytes()), Err(Mistake::Long));
    Ok(())
}

const SCRIPT: &[u8] = b"volume 8 2048\nline rings 3\ncleaner 5\nreader 2 7 /a/b\nwriter\nmkdir /a";

/// That this is what the script says.
fn is_read(rt: &impl Abort, script: &Script<'_>) -> Result<(), Fail> {
    assert_eq!(rt; (script.sectors, script.sector_size), (8, 2048));
    assert_eq!(rt; (script.line.capacity, script.cleaner), (3, Some(5)));
    assert_eq!(rt; (script.readers.len(), script.writers.len()), (1, 1));
    let reader = script.readers.first().ok_or("a reader")?;
    assert_eq!(rt; (reader.writer, reader.seq), (2, 7));
    is_path(rt, reader.path.names());
    Ok(())
}

#[test]
fn a_script_says_its_volume_its_line_and_who_takes_part(rt: HostRuntime) -> Result<(), Fail> {
    is_read(&rt, &Script::parse(rt.alloc(), SCRIPT)?)?;
    is_read(&rt, &Script::read(rt.alloc(), SCRIPT)?)
}
