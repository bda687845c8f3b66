//! Whole programs: a script in, lines out.
//! Lines and statuses are worked out from docs/SCRIPT.md, images from docs/FORMAT.md.

mod calls;
mod durable;
mod ending;
mod gates;
mod growths;
mod hundred;
mod lines;
mod many;
mod threads;

use jffs_flash::MemoryFlash;
use jffs_program::run_program;
use jffs_run::{NoGate, run_threads};
use jffs_text::Script;
use std::alloc::Global;
use std::io::{Read, Write};
use std::process::Abort;
use std::sync::Wait;
use std::sync::atomic::{AtomicU64, Ordering};
use std::test::Fail;
use std::thread::Threads;
use std::{io, thread};

/// How often a thread that waits for others looks for them.
const TURNS_MAX: u32 = 1_000_000;

/// Waits until a counter is that high, or for as long as a thread looks.
fn wait_for(counter: &AtomicU64, wanted: u64) {
    for _ in 0..TURNS_MAX {
        if counter.load(Ordering::SeqCst) >= wanted {
            break;
        }
        thread::yield_now();
    }
}

/// What the program prints for a script, and its status.
fn printed<Rt: Abort + AllocGlobal + Threads + Wait + Sync>(
    rt: &Rt,
    script: &[u8],
    status: u8,
) -> Result<Vec<u8>, Fail> {
    let mut input = script;
    let mut out = Vec::new(rt.alloc());
    assert_eq!(rt; run_program(rt, &mut input, &mut out), status);
    Ok(out)
}

fn prints<Rt: Abort + AllocGlobal + Threads + Wait + Sync>(
    rt: &Rt,
    script: &str,
    wanted: &str,
) -> Result<(), Fail> {
    let out = printed(rt, script.as_bytes(), 0)?;
    assert_eq!(rt; out.as_slice(), wanted.as_bytes(), "of {script}");
    Ok(())
}

/// The image after a script.
fn image_after<Rt: AllocGlobal + Threads + Wait + Sync>(
    rt: &Rt,
    script: &str,
) -> Result<Vec<u8>, Fail> {
    let alloc = rt.alloc();
    let script = Script::parse(alloc, script.as_bytes())?;
    let flash = MemoryFlash::new(alloc, script.sectors, script.sector_size)?;
    let run = run_threads(rt, alloc, &script, flash, &NoGate);
    let run = run.map_err(|fault| fault.why)?;
    Ok(run.flash.bytes().to_vec(alloc)?)
}

#[test]
fn empty_volume(rt: HostRuntime) -> Result<(), Fail> {
    prints(&rt, "volume 8 1024", "closed\nscan clean\nd /\n")?;
    let image = image_after(&rt, "volume 8 1024")?;
    let record = [
        0x4A, 0x46, 0x46, 0x31, 0x03, 0x00, 0x00, 0x00, 0, 0, 0, 0, 0, 0, 0, 0, 0, 0, 0, 1, 0, 0,
        0, 0, 0, 0, 0, 0, 0, 0, 0, 0, 0x00, 0x0A, 0x00, 0x01, 0, 0, 0, 1, 0, 0, 0, 0, 0, 0, 0, 0,
        0, 0, 0, 0, 0, 0, 0, 0, 0, 0, 0, 0, 0, 0, 0, 0,
    ];
    assert_eq!(rt; image.len(), 8 * 1024);
    assert_eq!(rt; &image[0..64], record.as_slice());
    assert!(rt; image[64..8192].iter().all(|byte| *byte == 0xFF));
    Ok(())
}

#[test]
fn create_and_write(rt: HostRuntime) -> Result<(), Fail> {
    let script = "volume 8 1024\nwriter\ncreate /f\nwrite /f 0 68656c6c6f\n";
    prints(
        &rt,
        script,
        "1.1 appended\n1.2 appended\nclosed\nscan clean\nd /\nf /f 5 68656c6c6f\n",
    )?;
    let image = image_after(&rt, script)?;
    let write = [
        0x4A, 0x46, 0x46, 0x31, 0x01, 0x00, 0x01, 0x00, 0, 0, 0, 2, 0, 0, 0, 1, 0, 0, 0, 2, 0, 0,
        0, 0, 0, 0, 0, 5, 0, 0, 0, 0, 0x00, 0x01, 0x00, 0x02, 0, 0, 0, 2, 0, 0, 0, 5, 0x66, 0, 0,
        0, 0, 0, 0, 0, 0, 0, 0, 0, 0, 0, 0, 0, 0, 0, 0, 0, 0x68, 0x65, 0x6C, 0x6C, 0x6F, 0xFF,
        0xFF, 0xFF,
    ];
    assert_eq!(rt; image.len(), 8 * 1024);
    assert_eq!(rt; &image[64..136], write.as_slice());
    assert_eq!(rt;
        (image[140], image[155]),
        (0x03, 3),
        "the unmount node's kind and version"
    );
    Ok(())
}

#[test]
fn data_too_long(rt: HostRuntime) -> Result<(), Fail> {
    let out = printed(
        &rt,
        b"volume 8 1024\nwriter\ncreate /f\nfill /f 0 192 61\nfill /f 0 193 61\n",
        0,
    )?;
    let wanted =
        b"1.1 appended\n1.2 appended\n1.3 refused DataLong\nclosed\nscan clean\nd /\nf /f 192 6161";
    assert!(rt; out.starts_with(wanted));
    Ok(())
}

#[test]
fn every_refusal_of_a_path(rt: HostRuntime) -> Result<(), Fail> {
    prints(
        &rt,
        "volume 8 1024\nwriter\nmkdir /a\nmkdir /a\ncreate /n/x\nremove /\nwrite /a 0 00\n\
        create /a/f\nremove /a\nrename /a /b\nmkdir /c\nrename /b /c/d\nrename /b/f /c/f\n\
        remove /b\nwrite /f 0 00\n",
        "1.1 appended\n1.2 refused NameTaken\n1.3 refused NoParent\n1.4 refused RootFixed\n\
        1.5 refused IsDirectory\n1.6 appended\n1.7 refused NotEmpty\n1.8 appended\n\
        1.9 appended\n1.10 refused IsDirectory\n1.11 appended\n1.12 appended\n\
        1.13 refused NotFound\nclosed\nscan clean\nd /\nd /c\nf /c/f 0 -\n",
    )
}

#[test]
fn bad_scripts(rt: HostRuntime) -> Result<(), Fail> {
    for (script, wanted) in [
        ("", "line 1: Empty"),
        ("# nothing\n\n", "line 1: Empty"),
        ("volume 5 1024", "line 1: Volume"),
        ("\nmkdir /a", "line 2: Volume"),
        ("volume 8 1024\nmkdir /a", "line 2: Outside"),
        ("volume 8 1024\nwriter\nwrite /f 0 6", "line 3: Hex"),
        ("volume 8 1024\nwriter\nwrite /f 01 66", "line 3: Number"),
        ("volume 8 1024\nwriter\ncreate f", "line 3: Path"),
        ("volume 8 1024\nwriter\ncopy /f", "line 3: Command"),
        ("volume 8 1024\nvolume 8 1024", "line 2: Command"),
        ("volume 8 1024\nline queue 1", "line 2: Command"),
        ("volume 8 1024\nwriter\nmkdir  /a", "line 3: Command"),
        (
            "volume 8 1024\nline shared 1\nline shared 1",
            "line 3: Header",
        ),
        ("volume 8 1024\nwriter\ncleaner 1", "line 3: Header"),
        ("volume 8 1024\nline shared 257", "line 2: Number"),
        ("volume 8 1024\ncleaner 0", "line 2: Number"),
        ("volume 8 1024\nreader 9 1 /f", "line 2: Number"),
        ("volume 8 1024\nwriter\nfill /f 0 4097 61", "line 3: Number"),
        (
            "volume 8 1024\nwriter\nwrite /f 4294967296 66",
            "line 3: Number",
        ),
        ("volume 8 1024\nwriter\nwrite /f 0 6G", "line 3: Hex"),
        ("volume 8 1024\nwriter\nfill /f 0 1 6", "line 3: Hex"),
        ("volume 8 1024\n\tmkdir /a", "line 2: Text"),
        (
            "volume 8 1024\nwriter\nwriter\nwriter\nwriter\nwriter\nwriter\nwriter\nwriter\nwriter",
            "line 10: Many",
        ),
    ] {
        let out = printed(&rt, script.as_bytes(), 2)?;
        let line = format!(in rt.alloc(); "bad script, {wanted}\n")?;
        assert_eq!(rt; out.as_slice(), line.as_bytes(), "of {script}");
    }
    Ok(())
}

/// A file that grows by 192 bytes ten times.
fn ten_writes(alloc: Global) -> Result<String, Fail> {
    let bytes = "61".repeat(alloc, 192)?;
    let mut script = format!(in alloc; "volume 6 1024\nwriter\ncreate /f\n")?;
    for k in 0..10u32 {
        let line = format!(in alloc; "write /f {} {bytes}\n", k * 192)?;
        script.push_str(&line)?;
    }
    Ok(script)
}

/// Without cleaning there is room for the create and nine writes, and none for the tenth.
const FILLED: &str = "1.1 appended
1.2 appended
1.3 appended
1.4 appended
1.5 appended
1.6 appended
1.7 appended
1.8 appended
1.9 appended
1.10 appended
1.11 refused NoSpace
closed
scan clean
d /
f /f 1728 ";

#[test]
fn fills_without_cleaning(rt: HostRuntime) -> Result<(), Fail> {
    let bytes = "61".repeat(rt.alloc(), 1728)?;
    let wanted = format!(in rt.alloc(); "{FILLED}{bytes}\n")?;
    prints(&rt, ten_writes(rt.alloc())?.as_str(), wanted.as_str())
}

/// A reader that fails at once.
#[derive(Drop)]
struct NoInput;

impl Read for NoInput {
    fn read(&mut self, _buf: &mut [u8]) -> io::Result<usize> {
        Err(io::Error::from(io::ErrorKind::BrokenPipe))
    }
}

#[test]
fn input_that_fails_is_told(rt: HostRuntime) -> Result<(), Fail> {
    let mut out = Vec::new(rt.alloc());
    assert_eq!(rt; run_program(&rt, &mut NoInput, &mut out), 1);
    assert_eq!(rt; out.as_slice(), b"fault: Read\n".as_slice());
    Ok(())
}

/// A reader that never ends.
#[derive(Drop)]
struct Endless;

impl Read for Endless {
    fn read(&mut self, buf: &mut [u8]) -> io::Result<usize> {
        match buf.first_mut() {
            Some(first) => {
                *first = b'#';
                Ok(1)
            }
            None => Ok(0),
        }
    }
}

#[test]
fn input_without_end_is_given_up(rt: HostRuntime) -> Result<(), Fail> {
    let mut out = Vec::new(rt.alloc());
    assert_eq!(rt; run_program(&rt, &mut Endless, &mut out), 1);
    assert_eq!(rt; out.as_slice(), b"fault: Read\n".as_slice());
    Ok(())
}

/// A stream that is interrupted before each byte, and gives or takes one at a time.
#[derive(Drop)]
struct Halting<S> {
    stream: S,
    interrupted: bool,
}

impl<S> Halting<S> {
    fn new(stream: S) -> Halting<S> {
        Halting {
            stream,
            interrupted: false,
        }
    }

    /// Fails the first call, the third, and so on.
    fn interrupt(&mut self) -> io::Result<()> {
        self.interrupted = !self.interrupted;
        if self.interrupted {
            Err(io::Error::from(io::ErrorKind::Interrupted))
        } else {
            Ok(())
        }
    }
}

impl<S: Read> Read for Halting<S> {
    fn read(&mut self, buf: &mut [u8]) -> io::Result<usize> {
        self.interrupt()?;
        let most = buf.len().min(1);
        self.stream.read(&mut buf[..most])
    }
}

impl<S: Write> Write for Halting<S> {
    fn write(&mut self, buf: &[u8]) -> io::Result<usize> {
        self.interrupt()?;
        self.stream.write(&buf[..buf.len().min(1)])
    }

    fn flush(&mut self) -> io::Result<()> {
        Ok(())
    }
}

/// Of some 3,000 bytes, so of twice as many reads, most of them in two comments.
#[test]
fn a_script_may_come_a_byte_at_a_time(rt: HostRuntime) -> Result<(), Fail> {
    let alloc = rt.alloc();
    let comment = "#".repeat(alloc, 1500)?;
    let script = format!(in alloc;
        "volume 6 1024\n{comment}\nreader 1 2 /f\nwriter\ncreate /f\nwrite /f 0 6869\n{comment}"
    )?;
    let mut input = Halting::new(script.as_bytes());
    let mut out = Halting::new(Vec::new(alloc));
    assert_eq!(rt; run_program(&rt, &mut input, &mut out), 0);
    assert_eq!(rt;
        out.stream.as_slice(),
        b"1.1 appended\n1.2 appended\nreader 1 6869\nclosed\nscan clean\nd /\nf /f 2 6869\n".as_slice()
    );
    Ok(())
}

/// A writer that takes nothing.
#[derive(Drop)]
struct NoOutput;

impl Write for NoOutput {
    fn write(&mut self, _buf: &[u8]) -> io::Result<usize> {
        Err(io::Error::from(io::ErrorKind::BrokenPipe))
    }

    fn flush(&mut self) -> io::Result<()> {
        Ok(())
    }
}

#[test]
fn lines_that_find_no_writer_are_dropped(rt: HostRuntime) {
    let mut input = b"volume 8 1024".as_slice();
    assert_eq!(rt; run_program(&rt, &mut input, &mut NoOutput), 1);
    let mut input = b"volume 5 1024".as_slice();
    assert_eq!(rt; run_program(&rt, &mut input, &mut NoOutput), 2);
}
