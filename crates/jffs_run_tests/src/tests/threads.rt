//! Runs by `run_threads`.
//! Outcomes are worked out from docs/SCRIPT.md, and the record's bytes from docs/FORMAT.md.

ghost use Rattle.std.specs.Prelude.{◌≡◌, length, IfOk};

use super::TURNS_MAX;
use jffs_flash::{Flash, MemoryFlash};
use jffs_node::Path;
use jffs_run::{AcceptedBy, Gate, NoGate, RunFault, RunWhy, Served, run_threads};
use jffs_text::{READERS_MAX, ReaderStatement, Script};
use jffs_tree::Outcome;
use std::alloc::{AllocError, Global};
use std::io::Write;
use std::process::Abort;
use std::sync::Wait;
use std::sync::atomic::{AtomicU64, Ordering};
use std::test::Fail;
use std::thread;
use std::thread::Threads;

/// Waits before each writer's first wish until all writers came, and counts those who met all.
#[derive(Drop)]
struct Meeting {
    writers: u64,
    came: AtomicU64,
    met: AtomicU64,
}

impl Gate for Meeting {
    fn before(&self, _writer: u16, seq: u32) {
        if seq != 1 {
            return;
        }
        self.came.fetch_add(1, Ordering::SeqCst);
        for _ in 0..TURNS_MAX {
            if self.came.load(Ordering::SeqCst) == self.writers {
                self.met.fetch_add(1, Ordering::SeqCst);
                return;
            }
            thread::yield_now();
        }
    }
}

fn meet<Rt: Abort + AllocGlobal + Threads + Wait + Sync>(
    rt: &Rt,
    line: &str,
    writers: u32,
) -> Result<(), Fail> {
    let alloc = rt.alloc();
    let mut text = Vec::new(alloc);
    writeln!(text, "volume 8 1024\nline {line}")?;
    for n in 1..=writers {
        writeln!(text, "writer\ncreate /a{n}")?;
    }
    let gate = Meeting {
        writers: u64::from(writers),
        came: AtomicU64::new(0),
        met: AtomicU64::new(0),
    };
    let script = Script::parse(alloc, &text)?;
    let flash = MemoryFlash::new(alloc, script.sectors, script.sector_size)?;
    let run = run_threads(rt, alloc, &script, flash, &gate);
    let run = run.map_err(|fault| fault.why)?;
    assert_eq!(rt; run.served, Served::Closed);
    assert_eq!(rt; gate.met.load(Ordering::SeqCst), u64::from(writers));
    Ok(())
}

#[test]
fn two_writers_at_once(rt: HostRuntime) -> Result<(), Fail> {
    meet(&rt, "shared 1", 2)?;
    meet(&rt, "rings 1", 2)
}

#[test]
fn eight_writers_at_once(rt: HostRuntime) -> Result<(), Fail> {
    meet(&rt, "shared 1", 8)?;
    meet(&rt, "rings 1", 8)
}

/// The record of a new file `f`.
const RECORD: [u8; 64] = [
    0x4A, 0x46, 0x46, 0x31, 1, 0, 1, 0, 0, 0, 0, 2, 0, 0, 0, 1, 0, 0, 0, 1, 0, 0, 0, 0, 0, 0, 0, 0,
    0, 0, 0, 0, 0, 1, 0, 2, 0, 0, 0, 1, 0, 0, 0, 0, 0x66, 0, 0, 0, 0, 0, 0, 0, 0, 0, 0, 0, 0, 0, 0,
    0, 0, 0, 0, 0,
];

/// 8 sectors of 1024 bytes, with records in sectors 0 and 2 alone: no ring begins there.
fn scattered(alloc: Global) -> Result<Vec<u8>, AllocError>
    ensures { IfOk result (λ image. length image.items ≡ 8192) }
{
    let mut image = vec![in alloc; 0xFFu8; 8 * 1024]?;
    image[..64].copy_from_slice(&RECORD);
    image[2048..2112].copy_from_slice(&RECORD);
    Ok(image)
}

#[test]
fn constructors_refuse(rt: HostRuntime) -> Result<(), Fail> {
    let alloc = rt.alloc();
    let script = Script::parse(alloc, b"volume 8 1024\nwriter\ncreate /f\n")?;
    let image = scattered(alloc)?;
    let flash = MemoryFlash::from_bytes(8, 1024, image.clone()?);
    let fault = match run_threads(&rt, alloc, &script, flash, &NoGate) {
        Ok(_) => return Err("it was mounted".into()),
        Err(fault) => fault,
    };
    let RunFault {
        why,
        flash,
        answers,
    } = fault;
    assert_eq!(rt; why, RunWhy::Mount);
    assert!(rt; answers.is_empty());
    let flash = flash.ok_or("the device is gone")?;
    assert!(rt; flash.bytes() == image.as_slice());
    Ok(())
}

/// The device that comes back of a run that couldn't mount it, with sector 2 erased by hand.
fn mended<Rt: AllocGlobal + Threads + Wait + Sync>(
    rt: &Rt,
    script: &Script<'_>,
) -> Result<MemoryFlash, Fail> {
    let flash = MemoryFlash::from_bytes(8, 1024, scattered(rt.alloc())?);
    let fault = match run_threads(rt, rt.alloc(), script, flash, &NoGate) {
        Ok(_) => return Err("it was mounted".into()),
        Err(fault) => fault,
    };
    let RunFault {
        why: _,
        flash,
        answers: _,
    } = fault;
    let mut flash = flash.ok_or("the device is gone")?;
    if flash.faults() != 0 || flash.sectors() != 8 {
        return Err("another device came back".into());
    }
    flash.erase(2).map_err(|_| "it is erased")?;
    Ok(flash)
}

/// Its record in sector 0 is still there, and the next run is granted what it asks for.
#[test]
fn a_device_that_did_not_mount_serves_once_it_is_mended(rt: HostRuntime) -> Result<(), Fail> {
    let alloc = rt.alloc();
    let script = Script::parse(alloc, b"volume 8 1024\nwriter\ncreate /g\n")?;
    let run = run_threads(&rt, alloc, &script, mended(&rt, &script)?, &NoGate);
    let run = run.map_err(|fault| fault.why)?;
    assert_eq!(rt; run.served, Served::Closed);
    let outcomes = run.answers.iter().map(|answer| answer.outcome);
    let created = Outcome::Appended {
        inode: 3,
        version: 2,
    };
    assert!(rt; outcomes.eq([created, Outcome::Closed].into_iter()));
    assert!(rt; run.flash.bytes().starts_with(&RECORD));
    Ok(())
}

/// Runs a script over an erased device, and looks that the run is given up for this reason, and
/// hands the device back as it was.
fn is_given_up<Rt: Abort + AllocGlobal + Threads + Wait + Sync>(
    rt: &Rt,
    script: &Script<'_>,
    wanted: RunWhy,
) -> Result<(), Fail> {
    let erased = vec![in rt.alloc(); 0xFFu8; 8 * 1024]?;
    let flash = MemoryFlash::from_bytes(8, 1024, erased.clone()?);
    let fault = match run_threads(rt, rt.alloc(), script, flash, &NoGate) {
        Ok(_) => return Err("it wasn't given up".into()),
        Err(fault) => fault,
    };
    let RunFault {
        why,
        flash,
        answers,
    } = fault;
    assert_eq!(rt; why, wanted);
    assert!(rt; answers.is_empty());
    let flash = flash.ok_or("the device is gone")?;
    assert!(rt; flash.bytes() == erased.as_slice());
    Ok(())
}

#[test]
fn a_run_without_a_line_gives_its_device_back(rt: HostRuntime) -> Result<(), Fail> {
    for text in ["line shared 1", "line rings 1"] {
        let mut whole = Vec::new(rt.alloc());
        writeln!(whole, "volume 8 1024\n{text}\nwriter\ncreate /f")?;
        let mut script = Script::parse(rt.alloc(), &whole)?;
        script.line.capacity = 0;
        is_given_up(&rt, &script, RunWhy::Line)?;
    }
    Ok(())
}

#[test]
fn a_run_without_an_index_gives_its_device_back(rt: HostRuntime) -> Result<(), Fail> {
    let mut script = Script::parse(rt.alloc(), b"volume 8 1024\nwriter\ncreate /f\n")?;
    // One more than a script's text may have.
    for _ in 0..=READERS_MAX {
        script.readers.push(ReaderStatement {
            writer: 1,
            seq: 1,
            path: Path::parse(rt.alloc(), "/f")?,
        })?;
    }
    is_given_up(&rt, &script, RunWhy::Index)
}

#[test]
fn a_run_has_the_line_of_its_script(rt: HostRuntime) -> Result<(), Fail> {
    let alloc = rt.alloc();
    for (line, is_shared) in [("shared", true), ("rings", false)] {
        let mut text = Vec::new(alloc);
        writeln!(text, "volume 8 1024\nline {line} 4\nwriter\ncreate /f")?;
        let script = Script::parse(alloc, &text)?;
        let flash = MemoryFlash::new(alloc, script.sectors, script.sector_size)?;
        let run = run_threads(&rt, alloc, &script, flash, &NoGate);
        let run = run.map_err(|fault| fault.why)?;
        let has_shared = matches!(run.accepted, AcceptedBy::Shared(_));
        assert_eq!(rt; has_shared, is_shared);
        assert_eq!(rt; run.answers.len(), 2);
    }
    Ok(())
}
