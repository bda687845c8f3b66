//! The same scripts again and again, each run held against plain counting.

use jffs_core::Answer;
use jffs_flash::MemoryFlash;
use jffs_line::Request;
use jffs_log::scan;
use jffs_run::{NoGate, ReaderEnd, Served, run_threads};
use jffs_text::{Script, dump};
use jffs_tree::{Cause, Outcome};
use std::alloc::Global;
use std::io::Write;
use std::process::Abort;
use std::sync::Wait;
use std::test::Fail;
use std::thread::Threads;

const WRITERS: u32 = 8;

/// How many commands each writer has.
const COMMANDS: u32 = 8;

const READERS: u32 = 16;

/// How often each form of the line is run.
const TIMES: u32 = 50;

/// The highest number of a sender: the control's.
const LAST_SENDER: usize = 10;

/// How many of the writers' nodes find room in any order: each weighs at most 68 bytes, and below
/// 1,408 bytes of live records no request is refused for room on 6 sectors of 1,024 bytes.
const SURE: u32 = 20;

/// A file as a plain fold over the appended commands has it.
#[derive(Drop)]
struct File {
    is_made: bool,
    bytes: Vec<u8>,
}

/// Each writer makes the file `/a0`, which all share, and one of its own, and then writes to them
/// by turns, each time another byte.
fn script_text(alloc: Global, line: &str) -> Result<Vec<u8>, Fail> {
    let mut text = Vec::new(alloc);
    writeln!(text, "volume 6 1024\nline {line}\ncleaner 100")?;
    for reader in 0..READERS {
        writeln!(text, "reader {} 3 /a0", reader % WRITERS + 1)?;
    }
    for writer in 1..=WRITERS {
        put_writer(&mut text, writer)?;
    }
    Ok(text)
}

fn put_writer(text: &mut Vec<u8>, writer: u32) -> Result<(), Fail> {
    writeln!(text, "writer\ncreate /a0\ncreate /a{writer}")?;
    for seq in 3..=COMMANDS {
        if seq % 2 == 1 {
            writeln!(text, "fill /a0 {writer} 3 {seq}{writer}")?;
        } else {
            writeln!(text, "fill /a{writer} {seq} 2 {seq}{writer}")?;
        }
    }
    Ok(())
}

/// Writes `count` equal bytes from an offset on; what lies between the end and the offset is 0.
fn fill(bytes: &mut Vec<u8>, offset: usize, count: usize, byte: u8) -> Result<(), Fail> {
    for at in (0..count).map(|k| offset.saturating_add(k)) {
        for _ in bytes.len()..=at {
            bytes.push(0)?;
        }
        if let Some(there) = bytes.get_mut(at) {
            *there = byte;
        }
    }
    Ok(())
}

/// What the command of this writer with this number does to the files.
fn carry_out(files: &mut Vec<File>, writer: u16, seq: u32) -> Result<(), Fail> {
    let is_shared = seq % 2 == 1;
    let slot = if is_shared { 0 } else { usize::from(writer) };
    let file = files.get_mut(slot).ok_or("a file that no command names")?;
    if seq <= 2 {
        file.is_made = true;
        return Ok(());
    }
    let byte = (seq % 16 * 16 + u32::from(writer % 16)) as u8;
    if is_shared {
        fill(&mut file.bytes, usize::from(writer), 3, byte)
    } else {
        fill(&mut file.bytes, seq as usize, 2, byte)
    }
}

/// The files after the appended commands, in the order of their answers.
fn files_after(alloc: Global, answers: &[Answer]) -> Result<Vec<File>, Fail> {
    let mut files = Vec::new(alloc);
    for _ in 0..=WRITERS {
        files.push(File {
            is_made: false,
            bytes: Vec::new(alloc),
        })?;
    }
    for answer in answers {
        if let Outcome::Appended { .. } = answer.outcome {
            carry_out(&mut files, answer.writer, answer.seq)?;
        }
    }
    Ok(files)
}

/// The line of a dump for a file. Both halves of each byte are below ten.
fn write_file(text: &mut Vec<u8>, number: usize, file: &File) -> Result<(), Fail> {
    write!(text, "f /a{number} {} ", file.bytes.len())?;
    if file.bytes.is_empty() {
        text.write_all(b"-")?;
    }
    for byte in &file.bytes {
        write!(text, "{}{}", byte / 16, byte % 16)?;
    }
    text.write_all(b"\n")?;
    Ok(())
}

/// The dump of a root with these files.
fn dump_of(alloc: Global, files: &[File]) -> Result<Vec<u8>, Fail> {
    let mut text = Vec::new(alloc);
    text.write_all(b"d /\n")?;
    for (number, file) in files.iter().enumerate() {
        if file.is_made {
            write_file(&mut text, number, file)?;
        }
    }
    Ok(text)
}

/// Counts a request of this sender, whose number has to be the next one.
fn count(counts: &mut Vec<u32>, sender: u16, seq: u32) -> Result<(), Fail> {
    let last = counts
        .get_mut(usize::from(sender))
        .ok_or("a sender that is none")?;
    *last = last.saturating_add(1);
    if *last != seq {
        return Err("a number that is not the next".into());
    }
    Ok(())
}

/// How many requests each sender has, the answered ones and then those that wait.
fn counts_of(alloc: Global, answers: &[Answer], waiting: &[Request]) -> Result<Vec<u32>, Fail> {
    let mut counts = vec![in alloc; 0u32; LAST_SENDER + 1]?;
    for answer in answers {
        count(&mut counts, answer.writer, answer.seq)?;
    }
    for request in waiting {
        count(&mut counts, request.writer, request.seq)?;
    }
    Ok(counts)
}

/// Each writer had all its commands accepted, and the control its Unmount.
fn check_counts(counts: &[u32]) -> Result<(), Fail> {
    for (sender, count) in counts.iter().enumerate() {
        let is_right = match sender {
            0 => *count == 0,
            1..=8 => *count == COMMANDS,
            9 => true,
            _ => *count == 1,
        };
        if !is_right {
            return Err("a sender with too many or too few requests".into());
        }
    }
    Ok(())
}

/// The version of the node that was appended, if any was.
fn version_of(outcome: Outcome) -> Option<u32> {
    match outcome {
        Outcome::Appended { inode: _, version } => Some(version),
        Outcome::Copied { version } => Some(version),
        Outcome::Closed | Outcome::Refused(_) => None,
    }
}

/// Versions rise, and Closed is the last answer.
fn check_order(answers: &[Answer]) -> Result<(), Fail> {
    let mut version = 0;
    let mut is_closed = false;
    for answer in answers {
        if is_closed {
            return Err("an answer after Closed".into());
        }
        if let Some(next) = version_of(answer.outcome) {
            if next <= version {
                return Err("a version that was there already".into());
            }
            version = next;
        }
        is_closed = answer.outcome == Outcome::Closed;
    }
    if !is_closed {
        return Err("no answer is Closed".into());
    }
    Ok(())
}

/// The first nodes all find room; the one name that is taken is that of the shared file, and only
/// a cleaner's copies may be superfluous.
fn check_granted(answers: &[Answer]) -> Result<(), Fail> {
    let mut granted = 0u32;
    for answer in answers {
        match answer.outcome {
            Outcome::Appended { .. } => granted = granted.saturating_add(1),
            Outcome::Copied { .. } | Outcome::Closed => {}
            Outcome::Refused(_) if answer.writer == 9 => {}
            Outcome::Refused(Cause::NameTaken) if answer.seq == 1 && granted >= 1 => {}
            Outcome::Refused(Cause::NoSpace | Cause::NotFound) if granted >= SURE => {}
            Outcome::Refused(_) => return Err("a request was refused without need".into()),
        }
    }
    if granted < SURE {
        return Err("too few requests were granted".into());
    }
    Ok(())
}

fn run_once<Rt: Abort + AllocGlobal + Threads + Wait + Sync>(
    rt: &Rt,
    script: &Script<'_>,
) -> Result<(), Fail> {
    let alloc = rt.alloc();
    let flash = MemoryFlash::new(alloc, script.sectors, script.sector_size)?;
    let run = run_threads(rt, alloc, script, flash, &NoGate);
    let run = run.map_err(|fault| fault.why)?;
    assert_eq!(rt; run.served, Served::Closed);
    assert_eq!(rt; run.readers.len(), READERS as usize);
    assert!(rt;
        run.readers
            .iter()
            .all(|end| matches!(end, ReaderEnd::Bytes(_)))
    );
    check_granted(&run.answers)?;
    check_order(&run.answers)?;
    check_counts(&counts_of(alloc, &run.answers, &run.waiting)?)?;
    let wanted = dump_of(alloc, &files_after(alloc, &run.answers)?)?;
    let mounted = scan(alloc, run.flash).map_err(|_| "the flash is not mounted again")?;
    assert!(rt; mounted.clean);
    let mut found = Vec::new(alloc);
    dump(alloc, &mounted.tree, &mut found)?;
    assert_eq!(rt; found.as_slice(), wanted.as_slice());
    Ok(())
}

fn run_often<Rt: Abort + AllocGlobal + Threads + Wait + Sync>(
    rt: &Rt,
    line: &str,
) -> Result<(), Fail> {
    let alloc = rt.alloc();
    let text = script_text(alloc, line)?;
    let script = Script::parse(alloc, &text)?;
    for _ in 0..TIMES {
        run_once(rt, &script)?;
    }
    Ok(())
}

#[test]
fn a_hundred_runs_are_as_counted(rt: HostRuntime) -> Result<(), Fail> {
    run_often(&rt, "shared 2")?;
    run_often(&rt, "rings 2")
}
