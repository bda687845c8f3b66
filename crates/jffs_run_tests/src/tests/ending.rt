//! A run whose device fails: no Unmount closes the session, and all threads end all the same.
//! The outcomes follow from docs/SCRIPT.md: Device once, and Failed from then on.

use jffs_core::Answer;
use jffs_flash::{FuseFlash, Fused, MemoryFlash};
use jffs_line::CONTROL;
use jffs_run::{NoGate, Run, Served, run_threads};
use jffs_text::Script;
use jffs_tree::{Cause, Outcome};
use std::sync::Wait;
use std::test::Fail;
use std::thread::Threads;
use std::time::{Clock, Instant};

/// A cleaner that no one ends takes ten seconds for its rounds, of which each is a sleep of a
/// millisecond.
const SCRIPT: &[u8] = b"volume 6 1024\ncleaner 10000\nwriter\ncreate /f\n";

/// The time of such a run whose cleaner ends with the log thread, which is done in milliseconds.
const SECONDS_MAX: u64 = 5;

/// A run on a device whose first program fails.
fn run_on_fuse<Rt: AllocGlobal + Threads + Wait + Sync>(rt: &Rt) -> Result<Run<FuseFlash>, Fail> {
    let alloc = rt.alloc();
    let script = Script::parse(alloc, SCRIPT)?;
    let flash = MemoryFlash::new(alloc, script.sectors, script.sector_size)?;
    let flash = FuseFlash::new(flash, 0, Fused::Writes, jffs_flash::Fail::Nothing);
    match run_threads(rt, alloc, &script, flash, &NoGate) {
        Ok(run) => Ok(run),
        Err(fault) => Err(fault.why.into()),
    }
}

fn refused(writer: u16, cause: Cause) -> Answer {
    Answer {
        writer,
        seq: 1,
        outcome: Outcome::Refused(cause),
    }
}

#[test]
fn a_cleaner_ends_with_the_log_thread_of_its_run(rt: HostRuntime) -> Result<(), Fail> {
    let start = Instant::now(&rt)?;
    let run = run_on_fuse(&rt)?;
    let seconds = start.elapsed(&rt)?.as_secs();
    assert_eq!(rt; run.served, Served::NotClosed(Cause::Failed));
    let wanted = [refused(1, Cause::Device), refused(CONTROL, Cause::Failed)];
    assert_eq!(rt; run.answers.as_slice(), wanted.as_slice());
    assert!(rt; seconds < SECONDS_MAX, "after {seconds} seconds");
    Ok(())
}
