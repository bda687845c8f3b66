//! What messages show of words, and how much of a script has to be read. The values are those of
//! docs/TOOLS.md and docs/SCRIPT.md.

use jffs_text::{Mistake, QUOTE_MAX, Quote, SCRIPT_MAX, Script, ScriptWhy, Shown};
use std::alloc::Global;
use std::process::Abort;
use std::test::Fail;

#[test]
fn bytes_are_shown_on_one_line(rt: HostRuntime) -> Result<(), Fail> {
    for (bytes, wanted) in [
        (b"/a b~'\"".as_slice(), "/a b~'\""),
        (b"a\\b".as_slice(), "a\\\\b"),
        (b"a\nb\r\t".as_slice(), "a\\nb\\r\\t"),
        (b"\x1b[31m\x7f".as_slice(), "\\u{1b}[31m\\u{7f}"),
        (b"\xc3\xa4\xff\xc3".as_slice(), "\u{e4}\\xff\\xc3"),
        ("\u{85}\u{2028}".as_bytes(), "\\u{85}\\u{2028}"),
    ] {
        let shown = format!(in rt.alloc(); "{}", Shown::bytes(bytes))?;
        assert_eq!(rt; shown.as_str(), wanted);
    }
    let shown = format!(in rt.alloc(); "{}", Shown::text("a\u{0}"))?;
    assert_eq!(rt; shown.as_str(), "a\\0");
    Ok(())
}

#[test]
fn a_long_word_is_cut_between_characters(rt: HostRuntime) -> Result<(), Fail> {
    let alloc = rt.alloc();
    let start = "x".repeat(alloc, QUOTE_MAX - 1)?;
    let word = format!(in alloc; "{start}\u{e4}")?;
    let shown = format!(in alloc; "{}", Quote::of(word.as_str()))?;
    assert_eq!(rt; shown.as_str(), format!(in alloc; "'{start}..'")?.as_str());
    let word = format!(in alloc; "{start}\n")?;
    let shown = format!(in alloc; "{}", Quote::of(word.as_str()))?;
    assert_eq!(rt; shown.as_str(), format!(in alloc; "'{start}\\n'")?.as_str());
    let shown = format!(in alloc; "{}", Quote::of_bytes(b"a\xffb"))?;
    assert_eq!(rt; shown.as_str(), "'a\\xffb'");
    Ok(())
}

/// Why a script that begins so is refused, whatever follows.
fn so_far(alloc: Global, text: &[u8]) -> Option<(usize, ScriptWhy)> {
    let mistake = Script::mistake_so_far(alloc, text)?;
    Some((mistake.fault.line, mistake.fault.why))
}

#[test]
fn a_script_is_refused_by_its_beginning(rt: HostRuntime) -> Result<(), Fail> {
    let alloc = rt.alloc();
    for (text, wanted) in [
        ("", None),
        ("#", None),
        ("# only\n\n", None),
        ("vol", None),
        ("volume 6 1024\nwri", None),
        ("volume 6 1024\n\nwri\n", Some((3, ScriptWhy::Command))),
        ("\nvolume 5 1024\nwri", Some((2, ScriptWhy::Volume))),
    ] {
        assert_eq!(rt; so_far(alloc, text.as_bytes()), wanted, "of {text}");
    }
    let long = "~".repeat(alloc, 16_385)?;
    assert_eq!(rt; so_far(alloc, long.as_bytes()), Some((1, ScriptWhy::Text)));
    let longest = "~".repeat(alloc, 16_384)?;
    assert_eq!(rt; so_far(alloc, longest.as_bytes()), None);
    Ok(())
}

#[test]
fn a_script_has_a_greatest_length(rt: HostRuntime) -> Result<(), Fail> {
    assert_eq!(rt; SCRIPT_MAX, 537_346_075);
    assert_eq!(rt; Mistake::Endless.why(), ScriptWhy::Text);
    let told = format!(in rt.alloc(); "{}", Mistake::Endless)?;
    assert_eq!(rt; told.as_str(), "the script has more than 537346075 bytes");
    Ok(())
}
