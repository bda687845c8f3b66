//! Calls of the program, each with its status, what it prints and what people are told.
//! Lines and statuses are those of docs/SCRIPT.md; each text names the word that was changed.

use jffs_program::{run_called, run_program_on_file};
use std::io::{ErrorKind, Read, Write};
use std::process::Abort;
use std::rt::Files;
use std::sync::Wait;
use std::test::Fail;
use std::thread::Threads;
use std::{fs, io};

const SCRIPT: &str = "volume 6 1024\nwriter\ncreate /f\n";

const PRINTED: &str = "1.1 appended\nclosed\nscan clean\nd /\nf /f 0 -\n";

/// The words after the program's name, what standard input gives, the status, and what is written
/// to standard output and to standard error.
type Row<'a> = (&'a str, &'a str, u8, &'a str, &'a str);

fn plays<Rt: Abort + AllocGlobal + Files<File: Send> + Threads + Wait + Sync>(
    rt: &Rt,
    rows: &[Row<'_>],
) -> Result<(), Fail> {
    for (line, input, status, printed, told) in rows {
        let line = format!(in rt.alloc(); "jffs {line}")?;
        let mut words = Vec::new(rt.alloc());
        for word in line.as_str().trim_end().split(' ') {
            words.push(String::from_str(rt.alloc(), word)?)?;
        }
        let mut out = Vec::new(rt.alloc());
        let mut errors = Vec::new(rt.alloc());
        let mut input = input.as_bytes();
        let ended = run_called(rt, &words, &mut input, &mut out, &mut errors);
        assert_eq!(rt; errors.as_slice(), told.as_bytes(), "of {line}");
        assert_eq!(rt; out.as_slice(), printed.as_bytes(), "of {line}");
        assert_eq!(rt; ended, *status, "of {line}");
    }
    Ok(())
}

#[test]
fn a_script_comes_from_a_file_or_from_standard_input(rt: HostRuntime) -> Result<(), Fail> {
    let _ = fs::remove_file(&rt, "c.image");
    fs::write(&rt, "c.script", SCRIPT)?;
    plays(
        &rt,
        &[
            ("", SCRIPT, 0, PRINTED, ""),
            ("c.script", "no script", 0, PRINTED, ""),
            ("--volume c.image c.script", "no script", 0, PRINTED, ""),
            (
                "--volume c.image",
                SCRIPT,
                0,
                "1.1 refused NameTaken\nclosed\nscan clean\nd /\nf /f 0 -\n",
                "",
            ),
            (
                "c.script --volume c.image",
                "",
                0,
                "1.1 refused NameTaken\nclosed\nscan clean\nd /\nf /f 0 -\n",
                "",
            ),
            ("--version", "", 0, "jffs 0.1.0\n", ""),
            (
                "--volume c.image",
                "volume 6 1024\nwriter\ncreate /f 1",
                2,
                "bad script, line 3: Command\n",
                "jffs: line 3: unexpected word '1': create PATH\n",
            ),
        ],
    )?;
    fs::remove_file(&rt, "c.image")?;
    fs::remove_file(&rt, "c.script")?;
    Ok(())
}

#[test]
fn a_script_that_is_bad_or_not_there_is_told_of(rt: HostRuntime) -> Result<(), Fail> {
    fs::write(&rt, "bad.script", "volume 8 1024\n\ncreat /f\n")?;
    plays(
        &rt,
        &[
            (
                "bad.script",
                "",
                2,
                "bad script, line 3: Command\n",
                "jffs: line 3: unknown command 'creat'; commands are mkdir, create, write, fill, \
                truncate, rename and remove, and before them stand volume, line, cleaner, reader \
                and writer\n",
            ),
            (
                "no.script",
                SCRIPT,
                2,
                "",
                "jffs: no.script: there is no such file\n",
            ),
            (".", SCRIPT, 2, "", "jffs: .: the file can't be read\n"),
        ],
    )?;
    fs::remove_file(&rt, "bad.script")?;
    Ok(())
}

#[test]
fn a_call_that_is_wrong_is_told_of(rt: HostRuntime) -> Result<(), Fail> {
    fs::write(&rt, "w.script", SCRIPT)?;
    plays(
        &rt,
        &[
            (
                "w.script more",
                SCRIPT,
                2,
                "",
                "jffs: unexpected word 'more'; --help tells more\n",
            ),
            (
                "--volumes w.image",
                SCRIPT,
                2,
                "",
                "jffs: unknown option '--volumes'; \
                options are --volume VOLUME, --help and --version\n",
            ),
            (
                "--volume w.script",
                SCRIPT,
                1,
                "",
                "jffs: w.script: the file has 31 bytes, and the script's sectors have 6144 \
                together\n",
            ),
            (
                "w.script --help",
                SCRIPT,
                2,
                "",
                "jffs: unexpected word 'w.script' beside '--help', which stands alone\n",
            ),
        ],
    )?;
    fs::remove_file(&rt, "w.script")?;
    Ok(())
}

#[test]
fn a_file_without_volume_is_told_of(rt: HostRuntime) -> Result<(), Fail> {
    fs::write(&rt, "zero.image", vec![in rt.alloc(); 0u8; 6144]?)?;
    plays(
        &rt,
        &[(
            "--volume zero.image",
            SCRIPT,
            1,
            "fault: Mount\n",
            "jffs: zero.image: no volume, BadRecord: the record at byte 0 of sector 0 is bad: \
            Magic\n",
        )],
    )?;
    fs::remove_file(&rt, "zero.image")?;
    Ok(())
}

/// A stream whose every call fails.
#[derive(Clone, Copy, Drop)]
struct Broken {
    kind: ErrorKind,
}

impl Read for Broken {
    fn read(&mut self, _buf: &mut [u8]) -> io::Result<usize> {
        Err(io::Error::from(self.kind))
    }
}

impl Write for Broken {
    fn write(&mut self, _buf: &[u8]) -> io::Result<usize> {
        Err(io::Error::from(self.kind))
    }

    fn flush(&mut self) -> io::Result<()> {
        Ok(())
    }
}

/// A call that ends with status 1, and what people are told.
fn fails<Rt, R: Read, W: Write>(
    rt: &Rt,
    words: &[&str],
    input: &mut R,
    out: &mut W,
    told: &str,
) -> Result<(), Fail>
where
    Rt: Abort + AllocGlobal + Files<File: Send> + Threads + Wait + Sync,
{
    let mut owned = Vec::new(rt.alloc());
    for word in words {
        owned.push(String::from_str(rt.alloc(), word)?)?;
    }
    let mut errors = Vec::new(rt.alloc());
    assert_eq!(rt; run_called(rt, &owned, input, out, &mut errors), 1);
    assert_eq!(rt; errors.as_slice(), told.as_bytes());
    Ok(())
}

#[test]
fn a_fault_of_a_stream_is_told_of(rt: HostRuntime) -> Result<(), Fail> {
    for (kind, line, of_input, of_output) in [
        (
            ErrorKind::BrokenPipe,
            "fault: Read\n",
            "jffs: standard input can't be read\n",
            "jffs: standard output can't be written\n",
        ),
        (
            ErrorKind::OutOfMemory,
            "fault: Memory\n",
            "jffs: out of memory\n",
            "jffs: out of memory\n",
        ),
    ] {
        let mut broken = Broken { kind };
        let mut out = Vec::new(rt.alloc());
        fails(&rt, &["jffs"], &mut broken, &mut out, of_input)?;
        assert_eq!(rt; out.as_slice(), line.as_bytes());
        let mut input = SCRIPT.as_bytes();
        fails(&rt, &["jffs"], &mut input, &mut broken, of_output)?;
        fails(&rt, &["jffs", "--help"], &mut input, &mut broken, of_output)?;
    }
    Ok(())
}

/// A stream that gives the same byte over and over, and fails after so many calls.
#[derive(Drop)]
struct Endless {
    byte: u8,
    calls: u32,
}

impl Read for Endless {
    fn read(&mut self, buf: &mut [u8]) -> io::Result<usize> {
        if self.calls == 0 {
            return Err(io::Error::from(ErrorKind::BrokenPipe));
        }
        self.calls -= 1;
        for place in buf.iter_mut() {
            *place = self.byte;
        }
        Ok(buf.len())
    }
}

#[test]
fn input_without_an_end_is_refused(rt: HostRuntime) -> Result<(), Fail> {
    for byte in [0u8, b'#', b'x'] {
        let mut input = Endless { byte, calls: 1000 };
        let mut out = Vec::new(rt.alloc());
        let words = [String::from_str(rt.alloc(), "jffs")?];
        let mut errors = Vec::new(rt.alloc());
        assert_eq!(rt;
            run_called(&rt, &words, &mut input, &mut out, &mut errors),
            2
        );
        assert_eq!(rt; out.as_slice(), b"bad script, line 1: Text\n".as_slice());
        let told = b"jffs: line 1: the line has more than 16384 bytes\n".as_slice();
        assert_eq!(rt; errors.as_slice(), told);
    }
    Ok(())
}

#[test]
fn a_program_goes_on_with_the_volume_in_its_file(rt: HostRuntime) -> Result<(), Fail> {
    let _ = fs::remove_file(&rt, "p.image");
    for (script, status, printed, told) in [
        (SCRIPT, 0, PRINTED, ""),
        (
            SCRIPT,
            0,
            "1.1 refused NameTaken\nclosed\nscan clean\nd /\nf /f 0 -\n",
            "",
        ),
        (
            "volume 8 1024\n",
            1,
            "",
            "jffs: p.image: the file has 6144 bytes, and the script's sectors have 8192 together\n",
        ),
    ] {
        let mut input = script.as_bytes();
        let mut out = Vec::new(rt.alloc());
        let mut errors = Vec::new(rt.alloc());
        let ended = run_program_on_file(&rt, "p.image", &mut input, &mut out, &mut errors);
        assert_eq!(rt; out.as_slice(), printed.as_bytes());
        assert_eq!(rt; errors.as_slice(), told.as_bytes());
        assert_eq!(rt; ended, status, "of {printed}{told}");
    }
    fs::remove_file(&rt, "p.image")?;
    Ok(())
}

/// A stream that takes so many bytes, and then no more.
#[derive(Drop)]
struct Ending {
    room: usize,
    kind: ErrorKind,
}

impl Write for Ending {
    fn write(&mut self, buf: &[u8]) -> io::Result<usize> {
        let count = buf.len().min(self.room);
        if count == 0 {
            return Err(io::Error::from(self.kind));
        }
        self.room -= count;
        Ok(count)
    }

    fn flush(&mut self) -> io::Result<()> {
        Ok(())
    }
}

#[test]
fn a_stream_that_ends_in_the_tree_is_told_of(rt: HostRuntime) -> Result<(), Fail> {
    for (kind, told) in [
        (
            ErrorKind::BrokenPipe,
            "jffs: standard output can't be written\n",
        ),
        (ErrorKind::OutOfMemory, "jffs: out of memory\n"),
    ] {
        let room = PRINTED.len().saturating_sub(1);
        let mut out = Ending { room, kind };
        fails(&rt, &["jffs"], &mut SCRIPT.as_bytes(), &mut out, told)?;
        assert_eq!(rt; out.room, 0);
    }
    Ok(())
}
