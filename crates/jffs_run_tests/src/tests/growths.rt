//! A run in which any one allocation may fail. A writer's requests are answered in the order of its
//! script, each once (docs/SCRIPT.md).

use jffs_flash::MemoryFlash;
use jffs_line::CONTROL;
use jffs_run::{NoGate, Run, Served, run_threads};
use jffs_text::Script;
use jffs_tree::{Cause, Outcome};
use std::sync::Wait;
use std::test::Fail;
use std::thread::Threads;

const SCRIPT: &[u8] =
    b"volume 6 1024\nwriter\ncreate /f\nwrite /f 0 68656c6c6f\nwrite /f 5 21\nremove /f\n";

fn run<Rt: AllocGlobal + Threads + Wait + Sync>(rt: &Rt) -> Result<Run<MemoryFlash>, Fail> {
    let script = Script::parse(rt.alloc(), SCRIPT)?;
    let flash = MemoryFlash::new(rt.alloc(), script.sectors, script.sector_size)?;
    match run_threads(rt, rt.alloc(), &script, flash, &NoGate) {
        Ok(run) => Ok(run),
        Err(_) => Err("memory was refused to the run".into()),
    }
}

// Run it with each allocation failing in turn.
#[test]
fn a_run_is_served_to_its_end_after_a_failed_allocation(rt: HostRuntime) -> Result<(), Fail> {
    let run = run(&rt)?;
    let is_ended = run.served == Served::Closed || run.served == Served::NotClosed(Cause::Memory);
    assert!(rt; is_ended);
    let answered = run.answers.iter().map(|answer| (answer.writer, answer.seq));
    let asked = [(1, 1), (1, 2), (1, 3), (1, 4), (CONTROL, 1)];
    assert!(rt; answered.eq(asked.into_iter()));
    let memory = Outcome::Refused(Cause::Memory);
    let refused = run.answers.iter().filter(|answer| answer.outcome == memory);
    assert!(rt; refused.count() <= 1);
    Ok(())
}
