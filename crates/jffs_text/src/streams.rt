//! The standard streams of a program.

use std::fmt;
use std::fmt::Display;
use std::io::Write;
use std::os::fd::AsFd;

/// The status of a program that was started without one of its standard streams.
const BROKEN: u8 = 1;

/// A standard stream of a program.
#[derive(Clone, Copy, Debug, PartialEq, Eq)]
enum Stream {
    Input,
    Output,
    Errors,
}

impl Display for Stream {
    fn fmt<W: fmt::Write>(&self, f: &mut fmt::Formatter<W>) -> fmt::Result {
        f.write_str(match *self {
            Stream::Input => "standard input",
            Stream::Output => "standard output",
            Stream::Errors => "standard error",
        })
    }
}

/// Looks whether the three standard streams are open. A program does so before it opens anything:
/// a file that is opened while one of them is closed takes its place, and would then be read or
/// written as that stream.
///
/// An error is the exit status, 1, where one of them is closed, or where no more files can be
/// opened, so that nobody can tell. One line then goes to `errors`, unless that is the one.
pub fn see_streams<I: AsFd, O: AsFd, E: AsFd + Write>(
    program: &str,
    input: &I,
    out: &O,
    errors: &mut E,
) -> Result<(), u8> {
    match closed_of(input, out, errors) {
        None => Ok(()),
        Some(Stream::Errors) => Err(BROKEN),
        Some(stream) => {
            let why = "is closed, or no more files can be opened";
            let _ = writeln!(errors, "{program}: {stream} {why}");
            Err(BROKEN)
        }
    }
}

/// The first of these streams that can't be seen to be open; standard error before the others.
fn closed_of<I: AsFd, O: AsFd, E: AsFd>(input: &I, out: &O, errors: &E) -> Option<Stream> {
    if !is_open(errors) {
        Some(Stream::Errors)
    } else if !is_open(input) {
        Some(Stream::Input)
    } else if !is_open(out) {
        Some(Stream::Output)
    } else {
        None
    }
}

/// Whether a stream is seen to be open. A second descriptor of it is made, which is above the
/// standard ones and is closed at once: the system refuses that of a closed one.
fn is_open<S: AsFd>(stream: &S) -> bool {
    stream.as_fd().try_clone_to_owned().is_ok()
}
