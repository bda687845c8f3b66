//! What is read and when it is answered, and streams that fail.
//! Lines and statuses are those of docs/TOOLS.md and docs/SCRIPT.md.

use super::records::{OLD_FORM, image_of};
use super::{called, replayed, replays};
use jffs_node::NoMemory;
use jffs_tools::{ToolFault, run_image, run_replay};
use std::alloc::{AllocError, AllocFailed};
use std::io;
use std::io::{BufWriter, ErrorKind, Read, Write};
use std::test::Fail;

/// A stream whose every call fails in this way.
#[derive(Drop)]
struct Broken {
    kind: ErrorKind,
}

/// A stream that takes so many bytes, and fails in this way after them.
#[derive(Drop)]
struct Ending {
    room: usize,
    kind: ErrorKind,
}

impl Write for Ending {
    fn write(&mut self, buf: &[u8]) -> io::Result<usize> {
        let count = buf.len().min(self.room);
        if count == 0 {
            return Err(io::Error::from(self.kind));
        }
        self.room -= count;
        Ok(count)
    }

    fn flush(&mut self) -> io::Result<()> {
        Ok(())
    }
}

/// A stream that is interrupted before each byte, and gives or takes one at a time.
#[derive(Drop)]
struct Halting<S> {
    stream: S,
    interrupted: bool,
}

impl<S> Halting<S> {
    fn new(stream: S) -> Halting<S> {
        Halting {
            stream,
            interrupted: false,
        }
    }

    /// Fails the first call, the third, and so on.
    fn interrupt(&mut self) -> io::Result<()> {
        self.interrupted = !self.interrupted;
        if self.interrupted {
            Err(io::Error::from(ErrorKind::Interrupted))
        } else {
            Ok(())
        }
    }
}

impl<S: Read> Read for Halting<S> {
    fn read(&mut self, buf: &mut [u8]) -> io::Result<usize> {
        self.interrupt()?;
        let most = buf.len().min(1);
        self.stream.read(&mut buf[..most])
    }
}

impl<S: Write> Write for Halting<S> {
    fn write(&mut self, buf: &[u8]) -> io::Result<usize> {
        self.interrupt()?;
        self.stream.write(&buf[..buf.len().min(1)])
    }

    fn flush(&mut self) -> io::Result<()> {
        Ok(())
    }
}

impl Read for Broken {
    fn read(&mut self, _buf: &mut [u8]) -> io::Result<usize> {
        Err(io::Error::from(self.kind))
    }
}

impl Write for Broken {
    fn write(&mut self, _buf: &[u8]) -> io::Result<usize> {
        Err(io::Error::from(self.kind))
    }

    fn flush(&mut self) -> io::Result<()> {
        Ok(())
    }
}

#[test]
fn an_image_is_read_no_further_than_one_byte_after_it(rt: HostRuntime) -> Result<(), Fail> {
    let alloc = rt.alloc();
    for (sectors, size, status, read, wanted) in [
        ("6", "1024", 2, 6145, ""),
        ("64", "16384", 2, 1_048_577, ""),
        ("60000", "16384", 3, 1_048_577, "refused Geometry\n"),
        ("0", "1024", 2, 1, ""),
    ] {
        let words = called(alloc, &["jffs_image", sectors, size])?;
        let mut input = io::repeat(0).take(1 << 32);
        let mut out = Vec::new(alloc);
        let mut errors = Vec::new(alloc);
        let ended = run_image(alloc, &words, &mut input, &mut out, &mut errors);
        assert_eq!(rt; ended, status, "of {sectors}");
        assert_eq!(rt;
            (1u64 << 32).saturating_sub(input.limit()),
            read,
            "of {sectors}"
        );
        assert_eq!(rt; out.as_slice(), wanted.as_bytes(), "of {sectors}");
    }
    Ok(())
}

#[test]
fn flash_larger_than_any_volume_takes_no_memory(rt: HostRuntime) -> Result<(), Fail> {
    replays(
        &rt,
        "flash 60000 16384\n\
        mount\n\
        flash 4294967295 4294967295\n\
        mount\n\
        image /dev/zero 60000 16384\n\
        mount\n\
        flash 65 1024\n\
        mount\n",
        "ready\n\
        refused Geometry\n\
        ready\n\
        refused Geometry\n\
        ready\n\
        refused Geometry\n\
        ready\n\
        refused Geometry\n",
    )?;
    let digest = replayed(&rt, "flash 60000 16384\nimage\n", 2)?;
    assert_eq!(rt; digest.as_str(), "ready\n");
    let endless = replayed(&rt, "image /dev/zero 64 16384\n", 2)?;
    assert_eq!(rt; endless.as_str(), "");
    Ok(())
}

#[test]
fn an_image_may_come_a_byte_at_a_time(rt: HostRuntime) -> Result<(), Fail> {
    let alloc = rt.alloc();
    let words = called(alloc, &["jffs_image", "8", "1024"])?;
    let image = image_of(alloc, &[&OLD_FORM], 8)?;
    let mut input = Halting::new(image.as_slice());
    let mut out = Halting::new(Vec::new(alloc));
    let mut errors = Vec::new(alloc);
    let ended = run_image(alloc, &words, &mut input, &mut out, &mut errors);
    assert!(rt; errors.is_empty());
    assert_eq!(rt;
        out.stream.as_slice(),
        b"mounted clean\n\
        next 4 3\n\
        sectors 0\n\
        record 0 0 64 1 dead\n\
        record 0 64 72 2 live\n\
        record 0 136 64 3 dead\n\
        d /\n\
        f /f 5 68656c6c6f\n"
            .as_slice()
    );
    assert_eq!(rt; ended, 0);
    Ok(())
}

#[test]
fn operations_may_come_a_byte_at_a_time(rt: HostRuntime) -> Result<(), Fail> {
    let alloc = rt.alloc();
    let mut input = Halting::new(b"flash 6 1024\n\nmount\nrequest 1 1 create /f".as_slice());
    let mut out = Halting::new(Vec::new(alloc));
    let mut errors = Vec::new(alloc);
    let ended = run_replay(&rt, &[], &mut input, &mut out, &mut errors);
    assert!(rt; errors.is_empty());
    assert_eq!(rt;
        out.stream.as_slice(),
        b"ready\n\
        mounted unclean next 1 2 | d /\n\
        appended 2 1 at 0 ; erased 5 erases 0 weight 64 next 2 3\n"
            .as_slice()
    );
    assert_eq!(rt; ended, 0);
    Ok(())
}

#[test]
fn a_line_is_answered_before_the_next_is_read(rt: HostRuntime) -> Result<(), Fail> {
    let alloc = rt.alloc();
    for (kind, wanted) in [
        (
            ErrorKind::BrokenPipe,
            "jffs_replay: line 3: standard input can't be read\n",
        ),
        (
            ErrorKind::OutOfMemory,
            "jffs_replay: line 3: out of memory\n",
        ),
    ] {
        let mut input = b"flash 6 1024\nmount\n".as_slice().chain(Broken { kind });
        let mut out = BufWriter::new(alloc, Vec::new(alloc))?;
        let mut errors = Vec::new(alloc);
        let ended = run_replay(&rt, &[], &mut input, &mut out, &mut errors);
        assert_eq!(rt; ended, 1);
        assert_eq!(rt; errors.as_slice(), wanted.as_bytes());
        assert_eq!(rt;
            out.get_ref().as_slice(),
            b"ready\nmounted unclean next 1 2 | d /\n".as_slice()
        );
    }
    Ok(())
}

#[test]
fn a_line_without_end_is_no_operation(rt: HostRuntime) -> Result<(), Fail> {
    let alloc = rt.alloc();
    let mut input = io::repeat(b'#').take(1 << 32);
    let mut errors = Vec::new(alloc);
    let ended = run_replay(&rt, &[], &mut input, &mut Vec::new(alloc), &mut errors);
    assert_eq!(rt; ended, 2);
    assert_eq!(rt;
        errors.as_slice(),
        b"jffs_replay: line 1: the line has more than 16384 bytes\n".as_slice()
    );
    assert!(rt; input.limit() > (1 << 32) - 65_536);
    let longest = String::from_utf8(vec![in alloc; b'#'; 16_384]?)?;
    let script = format!(in alloc; "{longest}\nflash 6 1024\n{longest}")?;
    replays(&rt, script.as_str(), "ready\n")?;
    replayed(&rt, format!(in alloc; "{longest}#")?.as_str(), 2)?;
    Ok(())
}

#[test]
fn a_fault_of_a_stream_is_named(rt: HostRuntime) -> Result<(), Fail> {
    let alloc = rt.alloc();
    let words = called(alloc, &["jffs_image", "6", "1024"])?;
    let help = called(alloc, &["jffs_replay", "--help"])?;
    for (kind, unread, unwritten) in [
        (
            ErrorKind::BrokenPipe,
            "jffs_image: standard input can't be read\n",
            "jffs_replay: line 1: standard output can't be written\n\
            jffs_replay: standard output can't be written\n",
        ),
        (
            ErrorKind::OutOfMemory,
            "jffs_image: out of memory\n",
            "jffs_replay: line 1: out of memory\njffs_replay: out of memory\n",
        ),
    ] {
        let mut errors = Vec::new(alloc);
        let mut input = Broken { kind };
        let ended = run_image(alloc, &words, &mut input, &mut Vec::new(alloc), &mut errors);
        assert_eq!(rt; ended, 1);
        assert_eq!(rt; errors.as_slice(), unread.as_bytes());
        errors.clear();
        let mut input = b"flash 6 1024\n".as_slice();
        let mut out = Broken { kind };
        assert_eq!(rt; run_replay(&rt, &[], &mut input, &mut out, &mut errors), 1);
        assert_eq!(rt;
            run_replay(&rt, &help, &mut input, &mut out, &mut errors),
            1
        );
        assert_eq!(rt; errors.as_slice(), unwritten.as_bytes());
    }
    Ok(())
}

#[test]
fn a_replay_takes_no_words(rt: HostRuntime) -> Result<(), Fail> {
    let alloc = rt.alloc();
    for (word, wanted) in [
        (
            "bogus",
            "jffs_replay: unexpected word 'bogus'; --help tells more\n",
        ),
        (
            "--bogus",
            "jffs_replay: unknown option '--bogus'; options are --help and --version\n",
        ),
    ] {
        let words = called(alloc, &["jffs_replay", word])?;
        let mut errors = Vec::new(alloc);
        let mut input = b"flash 6 1024\n".as_slice();
        let mut out = Vec::new(alloc);
        assert_eq!(rt;
            run_replay(&rt, &words, &mut input, &mut out, &mut errors),
            2
        );
        assert_eq!(rt; errors.as_slice(), wanted.as_bytes());
        assert!(rt; out.is_empty());
    }
    Ok(())
}

/// The lines before the tree can be written, and nothing of the tree's, a part of it or all.
#[test]
fn a_stream_that_ends_in_the_tree_is_told_of(rt: HostRuntime) -> Result<(), Fail> {
    let alloc = rt.alloc();
    let words = called(alloc, &["jffs_image", "6", "1024"])?;
    let image = image_of(alloc, &[], 6)?;
    let before = "mounted unclean\nnext 1 2\nsectors\n".len();
    for (room, kind, status, wanted) in [
        (
            before,
            ErrorKind::BrokenPipe,
            1,
            "jffs_image: standard output can't be written\n",
        ),
        (
            before.saturating_add(3),
            ErrorKind::OutOfMemory,
            1,
            "jffs_image: out of memory\n",
        ),
        (before.saturating_add(4), ErrorKind::BrokenPipe, 0, ""),
    ] {
        let mut input = image.as_slice();
        let mut out = Ending { room, kind };
        let mut errors = Vec::new(alloc);
        let ended = run_image(alloc, &words, &mut input, &mut out, &mut errors);
        assert_eq!(rt;
            errors.as_slice(),
            wanted.as_bytes(),
            "with room for {room}"
        );
        assert_eq!(rt; (ended, out.room), (status, 0), "with room for {room}");
    }
    Ok(())
}

/// Memory is ample in a test, so what an allocation that failed gives is made here.
#[test]
fn each_want_of_memory_is_told_as_one(rt: HostRuntime) -> Result<(), Fail> {
    for fault in [
        ToolFault::from(AllocError),
        ToolFault::from(AllocFailed { value: 0u8 }),
        ToolFault::from(NoMemory),
    ] {
        let told = format!(in rt.alloc(); "{fault}")?;
        assert_eq!(rt; told.as_str(), "out of memory");
    }
    Ok(())
}
