//! What people are told of a call.
//! What a call is refused for, and with which status, is counted word by word from its words.

use jffs_text::{Usage, Work};
use std::alloc::Global;
use std::test::Fail;

/// A program with the option `--on` and two plain words.
const USAGE: Usage = Usage {
    program: "tool",
    help: "tool [WORD] [WORD]",
    option: Some("--on"),
    options: "--on WORD, --help and --version",
    most: 2,
};

/// What the program does of a call: the status of one that is over with what it wrote, or the words
/// of one for its work.
fn called(alloc: Global, words: &[&str]) -> Result<String, Fail> {
    let call = call_of(alloc, words)?;
    let mut out = Vec::new(alloc);
    let mut errors = Vec::new(alloc);
    match USAGE.work(alloc, &call, &mut out, &mut errors) {
        Ok(Work { value, words }) => {
            let value = value.unwrap_or("none");
            Ok(format!(in alloc; "{} words, on {value}", words.len())?)
        }
        Err(0) => status_told(alloc, 0, &out),
        Err(status) => status_told(alloc, status, &errors),
    }
}

/// The program's name, and then these words.
pub(super) fn call_of(alloc: Global, words: &[&str]) -> Result<Vec<String>, Fail> {
    let mut call = Vec::new(alloc);
    add_word(alloc, &mut call, "tool")?;
    for word in words {
        add_word(alloc, &mut call, word)?;
    }
    Ok(call)
}

fn add_word(alloc: Global, call: &mut Vec<String>, word: &str) -> Result<(), Fail> {
    let word = String::from_str(alloc, word)?;
    call.push(word)?;
    Ok(())
}

fn status_told(alloc: Global, status: u8, written: &[u8]) -> Result<String, Fail> {
    let written = str::from_utf8(written)?;
    Ok(format!(in alloc; "{status} {written}")?)
}

#[test]
fn a_word_that_is_wrong_is_named(rt: HostRuntime) -> Result<(), Fail> {
    let alloc = rt.alloc();
    for (words, wanted) in [
        ([].as_slice(), "0 words, on none"),
        (["a", "b"].as_slice(), "2 words, on none"),
        (
            ["a", "--on", "--help", "b"].as_slice(),
            "2 words, on --help",
        ),
        (["--help"].as_slice(), "0 tool [WORD] [WORD]"),
        (["-h"].as_slice(), "0 tool [WORD] [WORD]"),
        (["--version"].as_slice(), "0 tool 0.1.0\n"),
        (
            ["a", "--help", "--bad"].as_slice(),
            "2 tool: unexpected word 'a' beside '--help', which stands alone\n",
        ),
        (
            ["--version", "-"].as_slice(),
            "2 tool: unexpected word '-' beside '--version', which stands alone\n",
        ),
        (
            ["a", "-"].as_slice(),
            "2 tool: unknown option '-'; options are --on WORD, --help and --version\n",
        ),
        (
            ["a", ""].as_slice(),
            "2 tool: an empty word; --help tells which words there are\n",
        ),
        (
            ["--on", ""].as_slice(),
            "2 tool: an empty word; --help tells which words there are\n",
        ),
        (
            ["--bad", "--help"].as_slice(),
            "2 tool: unknown option '--bad'; options are --on WORD, --help and --version\n",
        ),
        (
            ["a", "-v"].as_slice(),
            "2 tool: unknown option '-v'; options are --on WORD, --help and --version\n",
        ),
        (
            ["a", "b", "c"].as_slice(),
            "2 tool: unexpected word 'c'; --help tells more\n",
        ),
        (
            ["--on"].as_slice(),
            "2 tool: a word is wanted after '--on'\n",
        ),
        (
            ["--on", "a", "--on", "b"].as_slice(),
            "2 tool: '--on' stands twice\n",
        ),
    ] {
        let told = called(alloc, words)?;
        assert_eq!(rt; told.as_str(), wanted);
    }
    Ok(())
}
