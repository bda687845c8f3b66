//! Requests as bytes, and what is given for them.

ghost use Rattle.std.specs.Prelude.{⊤};

use jffs_protocol::{Ask, Failure, Room, Said, Server, StreamFault, serve};
use std::alloc::Global;
use std::io;
use std::io::{ErrorKind, Read, Write};
use std::process::Abort;
use std::test::Fail;

/// A server that answers with the bytes after a request's line, in brackets.
#[derive(Drop)]
struct Echo {
    /// What it says to a `sync`.
    said: Said,
}

impl Server for Echo {
    ghost manner = { λ _ _ _ _ _ _. ⊤ };

    fn answer(&mut self, ask: Ask, body: &[u8], out: &mut Vec<u8>) -> Said {
        match ask {
            Ask::Unmount => return Said::Last,
            Ask::Sync => return self.said,
            _ => {}
        }
        if write_in_brackets(body, out).is_err() {
            return Said::Memory;
        }
        Said::Answered
    }
}

fn write_in_brackets(body: &[u8], out: &mut Vec<u8>) -> io::Result<()> {
    out.write_all(b"[")?;
    out.write_all(body)?;
    out.write_all(b"]")
}

/// What is given for these bytes, by a server that says this to a `sync`.
fn given(alloc: Global, input: &[u8], said: Said) -> Result<Vec<u8>, Fail> {
    let mut room = Room::new(alloc, 8, 10)?;
    let mut server = Echo { said };
    let mut input = input;
    let mut out = Vec::new(alloc);
    let _ = serve(&mut server, &mut room, &mut input, &mut out);
    Ok(out)
}

fn gives(rt: &impl Abort, alloc: Global, input: &str, wanted: &str) -> Result<(), Fail> {
    let out = given(alloc, input.as_bytes(), Said::Done)?;
    let wanted = format!(in alloc; "pumpgrape 1\n{wanted}")?;
    assert_eq!(rt; out.as_slice(), wanted.as_bytes(), "of {input}");
    Ok(())
}

#[test]
fn each_request_takes_what_it_counts(rt: HostRuntime) -> Result<(), Fail> {
    for (input, wanted) in [
        ("", ""),
        ("room\nlimits\ncheck\n", "[][][]"),
        ("stat 3\n/\n/list 1\n/", "[/\n/][/]"),
        ("read 2 0 9\n/acreate 2\n/b", "[/a][/b]"),
        ("mkdir 2\n/atruncate 2 7\n/aremove 2\n/a", "[/a][/a][/a]"),
        (
            "write 2 0 4\n/a\n\n\n\nrename 2 3\n/a/bc",
            "[/a\n\n\n\n][/a/bc]",
        ),
        ("write 2 5 0\n/async\n", "[/a]ok\n"),
        ("stat 0\nunmount\nroom\n", "[]ok\n"),
        (
            "stat 8\n12345678stat 9\n123456789room\n",
            "[12345678]malformed\n[]",
        ),
        (
            "write 8 0 10\n12345678abcdefghijwrite 1 0 11\n1abcdefghijkroom\n",
            "[12345678abcdefghij]malformed\n[]",
        ),
        (
            "stat\nstat 1 1\nroom 1\n\nroom\n",
            "malformed\nmalformed\nmalformed\nmalformed\n[]",
        ),
        (
            "stat 01\n ROOM\nroom \n  room\n",
            "malformed\nmalformed\nmalformed\nmalformed\n",
        ),
        (
            "stat 4294967296\nstat +1\nread 1 0\n",
            "malformed\nmalformed\nmalformed\n",
        ),
        ("stat 3\n/a", ""),
        ("room\nstat 99\n/a", "[]"),
        ("room\nroom", "[]"),
    ] {
        gives(&rt, rt.alloc(), input, wanted)?;
    }
    Ok(())
}

/// A line of 100 bytes is read whole, and of a longer one no byte is a request.
#[test]
fn a_long_line_is_no_request(rt: HostRuntime) -> Result<(), Fail> {
    for length in [99usize, 100, 101, 1000] {
        let mut input = vec![in rt.alloc(); b' '; length]?;
        input.extend_from_slice(b"\nroom\n")?;
        let out = given(rt.alloc(), &input, Said::Done)?;
        assert_eq!(rt;
            out.as_slice(),
            b"pumpgrape 1\nmalformed\n[]".as_slice(),
            "of {length}"
        );
    }
    Ok(())
}

#[test]
fn each_thing_said_has_its_line(rt: HostRuntime) -> Result<(), Fail> {
    for (said, wanted) in [
        (Said::Answered, "pumpgrape 1\n[]"),
        (Said::Done, "pumpgrape 1\nok\n[]"),
        (Said::Last, "pumpgrape 1\nok\n"),
        (Said::Malformed, "pumpgrape 1\nmalformed\n[]"),
        (Said::Memory, "pumpgrape 1\nmemory\n[]"),
        (
            Said::Failed(Failure::Device),
            "pumpgrape 1\nfailed Device\n",
        ),
        (
            Said::Failed(Failure::Medium),
            "pumpgrape 1\nfailed Medium\n",
        ),
        (
            Said::Failed(Failure::Memory),
            "pumpgrape 1\nfailed Memory\n",
        ),
    ] {
        let out = given(rt.alloc(), b"sync\nroom\n", said)?;
        assert_eq!(rt; out.as_slice(), wanted.as_bytes());
    }
    Ok(())
}

/// A stream whose every call fails in this way.
#[derive(Drop)]
struct Broken {
    kind: ErrorKind,
}

impl Read for Broken {
    fn read(&mut self, _buf: &mut [u8]) -> io::Result<usize> {
        Err(io::Error::from(self.kind))
    }
}

impl Write for Broken {
    fn write(&mut self, _buf: &[u8]) -> io::Result<usize> {
        Err(io::Error::from(self.kind))
    }

    fn flush(&mut self) -> io::Result<()> {
        Ok(())
    }
}

#[test]
fn a_stream_that_fails_is_named(rt: HostRuntime) -> Result<(), Fail> {
    let mut room = Room::new(rt.alloc(), 8, 10)?;
    let mut server = Echo { said: Said::Done };
    let mut broken = Broken {
        kind: ErrorKind::BrokenPipe,
    };
    let mut out = Vec::new(rt.alloc());
    let ended = serve(&mut server, &mut room, &mut broken, &mut out);
    assert_eq!(rt; ended, Err(StreamFault::Input));
    assert_eq!(rt; out.as_slice(), b"pumpgrape 1\n".as_slice());
    let ended = serve(&mut server, &mut room, &mut b"".as_slice(), &mut broken);
    assert_eq!(rt; ended, Err(StreamFault::Output));
    let mut lacking = Broken {
        kind: ErrorKind::OutOfMemory,
    };
    let ended = serve(&mut server, &mut room, &mut lacking, &mut out);
    assert_eq!(rt; ended, Err(StreamFault::Memory));
    Ok(())
}
