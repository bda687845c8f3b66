//! Writers that fail and memory that is refused, and what is told of them.
//! The whole text of a dump is worked out from docs/SCRIPT.md.

use super::calls::call_of;
use super::{dumped, grown};
use jffs_node::NoMemory;
use jffs_text::{DumpFault, Mistake, ScriptWhy, Usage, dump};
use jffs_tree::Tree;
use std::alloc::{AllocError, AllocFailed, Global};
use std::io;
use std::io::{ErrorKind, Write};
use std::test::Fail;

/// A writer that takes so many bytes, and fails in this way after them.
#[derive(Drop)]
struct Ending {
    room: usize,
    kind: ErrorKind,
}

impl Write for Ending {
    fn write(&mut self, buf: &[u8]) -> io::Result<usize> {
        let count = buf.len().min(self.room);
        if count == 0 {
            return Err(io::Error::from(self.kind));
        }
        self.room -= count;
        Ok(count)
    }

    fn flush(&mut self) -> io::Result<()> {
        Ok(())
    }
}

/// What is told of a dump that has so much room, and the room that is left.
fn dumped_into(
    alloc: Global,
    tree: &Tree,
    room: usize,
    kind: ErrorKind,
) -> (Result<(), DumpFault>, usize) {
    let mut out = Ending { room, kind };
    let told = dump(alloc, tree, &mut out);
    (told, out.room)
}

#[test]
fn a_dump_tells_how_its_writer_failed(rt: HostRuntime) -> Result<(), Fail> {
    let alloc = rt.alloc();
    let script = "volume 8 1024\nwriter\nmkdir /d\ncreate /d/f\nwrite /d/f 0 6869\ncreate /e";
    let tree = grown(&rt, alloc, script)?;
    let whole = dumped(alloc, &tree)?.len();
    assert_eq!(rt; whole, "d /\nd /d\nf /d/f 2 6869\nf /e 0 -\n".len());
    for (kind, fault) in [
        (ErrorKind::BrokenPipe, DumpFault::Write),
        (ErrorKind::OutOfMemory, DumpFault::Memory),
    ] {
        for room in 0..whole {
            let told = dumped_into(alloc, &tree, room, kind);
            assert_eq!(rt; told, (Err(fault), 0), "with room for {room}");
        }
        assert_eq!(rt; dumped_into(alloc, &tree, whole, kind), (Ok(()), 0));
    }
    Ok(())
}

/// A writer that is interrupted before each byte that it takes, and takes one at a time.
#[derive(Drop)]
struct Halting {
    taken: Vec<u8>,
    interrupted: bool,
}

impl Write for Halting {
    fn write(&mut self, buf: &[u8]) -> io::Result<usize> {
        self.interrupted = !self.interrupted;
        if self.interrupted {
            return Err(io::Error::from(ErrorKind::Interrupted));
        }
        self.taken.write(&buf[..buf.len().min(1)])
    }

    fn flush(&mut self) -> io::Result<()> {
        Ok(())
    }
}

#[test]
fn a_dump_goes_on_after_each_interruption(rt: HostRuntime) -> Result<(), Fail> {
    let alloc = rt.alloc();
    let script = "volume 8 1024\nwriter\nmkdir /d\ncreate /d/f\nwrite /d/f 0 6869\ncreate /e";
    let tree = grown(&rt, alloc, script)?;
    let mut out = Halting {
        taken: Vec::new(alloc),
        interrupted: false,
    };
    assert_eq!(rt; dump(alloc, &tree, &mut out), Ok(()));
    let wanted = b"d /\nd /d\nf /d/f 2 6869\nf /e 0 -\n".as_slice();
    assert_eq!(rt; out.taken.as_slice(), wanted);
    Ok(())
}

/// A program with one plain word.
const USAGE: Usage = Usage {
    program: "tool",
    help: "tool [WORD]",
    option: None,
    options: "--help and --version",
    most: 1,
};

#[test]
fn help_that_is_not_written_is_told_of(rt: HostRuntime) -> Result<(), Fail> {
    let alloc = rt.alloc();
    let words = call_of(alloc, &["--help"])?;
    for (kind, wanted) in [
        (
            ErrorKind::BrokenPipe,
            "tool: standard output can't be written\n",
        ),
        (ErrorKind::OutOfMemory, "tool: out of memory\n"),
    ] {
        let mut out = Ending { room: 4, kind };
        let mut errors = Vec::new(alloc);
        let work = USAGE.work(alloc, &words, &mut out, &mut errors);
        assert_eq!(rt; work.err(), Some(1));
        assert_eq!(rt; errors.as_slice(), wanted.as_bytes());
    }
    Ok(())
}

/// Memory is ample in a test, so what an allocation that failed gives is made here.
#[test]
fn each_want_of_memory_is_told_as_one(rt: HostRuntime) -> Result<(), Fail> {
    for mistake in [
        Mistake::from(AllocError),
        Mistake::from(AllocFailed { value: 0u8 }),
        Mistake::from(NoMemory),
    ] {
        let told = format!(in rt.alloc(); "{mistake}")?;
        assert_eq!(rt; told.as_str(), "out of memory");
        assert_eq!(rt; mistake.why(), ScriptWhy::Memory);
    }
    assert_eq!(rt; DumpFault::from(AllocError), DumpFault::Memory);
    assert_eq!(rt; DumpFault::from(NoMemory), DumpFault::Memory);
    Ok(())
}
