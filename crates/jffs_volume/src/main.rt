//! The program `jffs_volume`: looks into the volume in a file, and changes what is there.
#![tactic(auto)]

use jffs_manage::run_volume;
use jffs_text::{see_streams, words_given};
use std::io;
use std::io::{BufWriter, IsTerminal, Write};
use std::process::ExitCode;

fn main(rt: HostRuntime) -> ExitCode {
    let ran = match begin(&rt) {
        Ok(words) => run(&rt, &words),
        Err(status) => Ok(status),
    };
    match ran {
        Ok(status) => ExitCode::from(status),
        Err(error) => {
            let _ = writeln!(rt.stderr(), "jffs_volume: {error}");
            ExitCode::FAILURE
        }
    }
}

/// The words that it was called with; else the status that it ends with.
fn begin(rt: &HostRuntime) -> Result<Vec<String>, u8> {
    see_streams("jffs_volume", &rt.stdin(), &rt.stdout(), &mut rt.stderr())?;
    words_given(rt, "jffs_volume", &mut rt.stderr())
}

/// The status of a run with these words, or why it couldn't begin.
fn run(rt: &HostRuntime, words: &[String]) -> io::Result<u8> {
    let mut input = rt.stdin();
    let coloured = rt.stdout().is_terminal();
    let mut out = BufWriter::new(rt.alloc(), rt.stdout())?;
    let mut errors = rt.stderr();
    Ok(run_volume(rt, words, &mut input, &mut out, &mut errors, coloured))
}
