//! Standard input and output that fail.
//! Lines and statuses are those of docs/TOOLS.md.

use super::plays;
use jffs_manage::run_volume;
use std::fs::File;
use std::io::{ErrorKind, Read, Write};
use std::process::Abort;
use std::rt::Files;
use std::test::Fail;
use std::{fs, io};

/// A stream whose every call fails in this way.
#[derive(Drop)]
struct Broken {
    kind: ErrorKind,
}

impl Read for Broken {
    fn read(&mut self, _buf: &mut [u8]) -> io::Result<usize> {
        Err(io::Error::from(self.kind))
    }
}

impl Write for Broken {
    fn write(&mut self, _buf: &[u8]) -> io::Result<usize> {
        Err(io::Error::from(self.kind))
    }

    fn flush(&mut self) -> io::Result<()> {
        Ok(())
    }
}

#[test]
fn each_fault_of_a_stream_has_its_text(rt: HostRuntime) -> Result<(), Fail> {
    let _ = fs::remove_file(&rt, "b.image");
    plays(
        &rt,
        &[
            ("format b.image 6 1024", "", 0, ""),
            ("mkdir b.image /d", "", 0, ""),
        ],
    )?;
    for (command, kind, wanted) in [
        (
            "put",
            ErrorKind::BrokenPipe,
            "jffs_volume: b.image: /f: standard input can't be read\n",
        ),
        (
            "put",
            ErrorKind::OutOfMemory,
            "jffs_volume: b.image: /f: out of memory\n",
        ),
        (
            "ls",
            ErrorKind::BrokenPipe,
            "jffs_volume: b.image: /: standard output can't be written\n",
        ),
    ] {
        let path = if command == "put" { "/f" } else { "/" };
        let mut words = Vec::new(rt.alloc());
        for word in ["jffs_volume", command, "b.image", path] {
            words.push(String::from_str(rt.alloc(), word)?)?;
        }
        let mut input = Broken { kind };
        let mut out = Broken { kind };
        let mut errors = Vec::new(rt.alloc());
        let ended = run_volume(&rt, &words, &mut input, &mut out, &mut errors, false);
        assert_eq!(rt; ended, 1, "of {command}");
        assert_eq!(rt; errors.as_slice(), wanted.as_bytes(), "of {command}");
    }
    fs::remove_file(&rt, "b.image")?;
    Ok(())
}

/// A session of `serve` over these streams, which ends so.
fn serves<R: Read, W: Write>(
    rt: &(impl Abort + Files<File = File> + AllocGlobal + Clone + Drop),
    input: &mut R,
    out: &mut W,
    told: &str,
) -> Result<(), Fail> {
    let mut words = Vec::new(rt.alloc());
    for word in ["jffs_volume", "serve", "t.image"] {
        words.push(String::from_str(rt.alloc(), word)?)?;
    }
    let mut errors = Vec::new(rt.alloc());
    let ended = run_volume(rt, &words, input, out, &mut errors, false);
    let wanted = format!(in rt.alloc(); "jffs_volume: t.image: {told}\n")?;
    assert_eq!(rt; errors.as_slice(), wanted.as_bytes());
    assert_eq!(rt; ended, 1, "of {told}");
    Ok(())
}

#[test]
fn a_stream_that_fails_ends_a_session(rt: HostRuntime) -> Result<(), Fail> {
    let _ = fs::remove_file(&rt, "t.image");
    plays(&rt, &[("format t.image 6 1024", "", 0, "")])?;
    for (kind, told) in [
        (ErrorKind::BrokenPipe, "standard input can't be read"),
        (ErrorKind::OutOfMemory, "out of memory"),
    ] {
        let mut input = b"create 2\n/f".as_slice().chain(Broken { kind });
        let mut out = Vec::new(rt.alloc());
        serves(&rt, &mut input, &mut out, told)?;
        let mut sync = b"sync\n".as_slice();
        let told = "standard output can't be written";
        serves(&rt, &mut sync, &mut Broken { kind }, told)?;
    }
    plays(&rt, &[("ls t.image", "", 0, "f 0 f\n")])?;
    fs::remove_file(&rt, "t.image")?;
    Ok(())
}
