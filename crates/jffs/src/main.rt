//! The program `jffs`: a script in a file or on standard input, what became of it on standard
//! output. With `--volume FILE` the volume stays in that file.
#![tactic(auto)]

use jffs_program::run_called;
use jffs_text::{see_streams, words_given};
use std::io;
use std::io::{BufWriter, Write};
use std::process::ExitCode;

fn main(rt: HostRuntime) -> ExitCode {
    let words = match begin(&rt) {
        Ok(words) => words,
        Err(status) => return ExitCode::from(status),
    };
    match BufWriter::new(rt.alloc(), io::writer(&rt)) {
        Ok(mut out) => {
            let mut input = rt.reader();
            let status = run_called(&rt, &words, &mut input, &mut out, &mut rt.stderr());
            ExitCode::from(status)
        }
        Err(error) => {
            let _ = writeln!(rt.stderr(), "jffs: {error}");
            ExitCode::FAILURE
        }
    }
}

/// The words that it was called with; else the status that it ends with.
fn begin(rt: &HostRuntime) -> Result<Vec<String>, u8> {
    see_streams("jffs", &rt.stdin(), &rt.stdout(), &mut rt.stderr())?;
    words_given(rt, "jffs", &mut rt.stderr())
}
