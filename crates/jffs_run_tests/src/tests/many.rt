//! Scripts with more than one thread besides the log's, over both lines.
//! Lines are worked out from docs/SCRIPT.md.

use super::{printed, prints};
use std::alloc::Global;
use std::io::Write;
use std::process::Abort;
use std::sync::Wait;
use std::test::Fail;
use std::thread::Threads;

/// The same script over each of two lines prints the same.
fn prints_over_both<Rt: Abort + AllocGlobal + Threads + Wait + Sync>(
    rt: &Rt,
    lines: [&str; 2],
    script: &str,
    wanted: &str,
) -> Result<(), Fail> {
    for line in lines {
        let script = format!(in rt.alloc(); "volume 8 1024\nline {line}\n{script}")?;
        prints(rt, script.as_str(), wanted)?;
    }
    Ok(())
}

#[test]
fn two_writers_example(rt: HostRuntime) -> Result<(), Fail> {
    prints_over_both(
        &rt,
        ["shared 1", "rings 4"],
        "writer\nmkdir /a\ncreate /a/x\nwrite /a/x 0 68656c6c6f\nwrite /a/x 5 21\n\
        writer\nmkdir /b\ncreate /b/y\nwrite /b/y 0 6f6b\ntruncate /b/y 1\nremove /c\n",
        "1.1 appended\n1.2 appended\n1.3 appended\n1.4 appended\n\
        2.1 appended\n2.2 appended\n2.3 appended\n2.4 appended\n2.5 refused NotFound\n\
        closed\nscan clean\nd /\nd /a\nf /a/x 6 68656c6c6f21\nd /b\nf /b/y 1 6f\n",
    )
}

#[test]
fn reader_waits_for_write(rt: HostRuntime) -> Result<(), Fail> {
    prints(
        &rt,
        "volume 8 1024\nreader 1 2 /f\nwriter\ncreate /f\nwrite /f 0 68656c6c6f\n",
        "1.1 appended\n1.2 appended\nreader 1 68656c6c6f\n\
        closed\nscan clean\nd /\nf /f 5 68656c6c6f\n",
    )
}

/// One reader waits for an answer that never comes, one for a refusal, and the others read what is
/// no file and a file without bytes.
#[test]
fn readers_end_each_in_its_way(rt: HostRuntime) -> Result<(), Fail> {
    prints(
        &rt,
        "volume 8 1024\nline rings 1\n\
        reader 1 4 /f\nreader 1 3 /n\nreader 1 1 /\nreader 1 2 /f\nreader 2 1 /f\n\
        writer\nmkdir /d\ncreate /f\nremove /n\n",
        "1.1 appended\n1.2 appended\n1.3 refused NotFound\n\
        reader 1 not seen\nreader 2 none\nreader 3 none\nreader 4 -\nreader 5 not seen\n\
        closed\nscan clean\nd /\nd /d\nf /f 0 -\n",
    )
}

/// A script that overwrites one file so often that the log goes round, beside a cleaner.
fn forty_fills(alloc: Global, line: &str) -> Result<String, Fail> {
    let fills = "fill /f 0 192 61\n".repeat(alloc, 40)?;
    Ok(format!(in alloc;
        "volume 6 1024\nline {line}\ncleaner 1000\n\
        writer\ncreate /k\nwrite /k 0 6b\ncreate /f\n{fills}"
    )?)
}

/// What is printed for it.
fn forty_filled(alloc: Global) -> Result<Vec<u8>, Fail> {
    let mut wanted = Vec::new(alloc);
    for seq in 1..=43u32 {
        writeln!(wanted, "1.{seq} appended")?;
    }
    let bytes = "61".repeat(alloc, 192)?;
    writeln!(
        wanted,
        "closed\nscan clean\nd /\nf /f 192 {bytes}\nf /k 1 6b"
    )?;
    Ok(wanted)
}

#[test]
fn forty_fills_with_cleaner(rt: HostRuntime) -> Result<(), Fail> {
    let alloc = rt.alloc();
    let wanted = forty_filled(alloc)?;
    for line in ["shared 4", "rings 4"] {
        let out = printed(&rt, forty_fills(alloc, line)?.as_bytes(), 0)?;
        assert_eq!(rt; out.as_slice(), wanted.as_slice());
    }
    Ok(())
}

/// Eight writers, each of which makes a file and writes a byte to it.
fn eight(alloc: Global, line: &str) -> Result<Vec<u8>, Fail> {
    let mut script = Vec::new(alloc);
    writeln!(script, "volume 8 1024\nline {line}")?;
    for n in 1..=8u32 {
        writeln!(script, "writer\ncreate /a{n}\nwrite /a{n} 0 3{n}")?;
    }
    Ok(script)
}

/// What is printed for them.
fn eight_wrote(alloc: Global) -> Result<Vec<u8>, Fail> {
    let mut wanted = Vec::new(alloc);
    for n in 1..=8u32 {
        writeln!(wanted, "{n}.1 appended\n{n}.2 appended")?;
    }
    wanted.write_all(b"closed\nscan clean\nd /\n")?;
    for n in 1..=8u32 {
        writeln!(wanted, "f /a{n} 1 3{n}")?;
    }
    Ok(wanted)
}

#[test]
fn eight_writers(rt: HostRuntime) -> Result<(), Fail> {
    let alloc = rt.alloc();
    let wanted = eight_wrote(alloc)?;
    for line in ["rings 1", "shared 1"] {
        let out = printed(&rt, eight(alloc, line)?.as_slice(), 0)?;
        assert_eq!(rt; out.as_slice(), wanted.as_slice());
    }
    Ok(())
}
