//! The parts of a script's run, one after another in one process.

use crate::fault::Fault;
use crate::measure::Measure;
use crate::volume::Volume;
use jffs_flash::MemoryFlash;
use jffs_log::{Mounted, scan};
use jffs_node::{Path, copied};
use jffs_run::{NoGate, Script, run_threads};
use jffs_text::dump;
use jffs_tree::{Tree, Wish};
use std::alloc::Global;
use std::io::Write;
use std::sync::Wait;
use std::thread::Threads;
use std::time::{Clock, Instant};

/// How many copies are asked for.
const COPIES: u32 = 100;

/// Reads the script, answers its requests on a core alone, runs it in threads, mounts what that
/// left, and dumps the tree.
pub(crate) fn measure_parts<R: Threads + Wait + Sync + Clock, W: Write + Drop>(
    rt: &R,
    alloc: Global,
    text: &[u8],
    measure: &mut Measure<W>,
) -> Result<(), Fault> {
    let start = Instant::now(rt)?;
    let script = Script::parse(alloc, text)?;
    measure.part(rt, "parse", start)?;
    measure_core(rt, alloc, &script, measure)?;
    let flash = measure_run(rt, alloc, &script, measure)?;
    let tree = measure_mount(rt, alloc, flash, measure)?;
    measure_dump(rt, alloc, &tree, measure)
}

/// A mount of the erased volume, and the requests on that core alone.
fn measure_core<R: Clock, W: Write + Drop>(
    rt: &R,
    alloc: Global,
    script: &Script<'_>,
    measure: &mut Measure<W>,
) -> Result<(), Fault> {
    let flash = MemoryFlash::new(alloc, script.sectors, script.sector_size)?;
    let start = Instant::now(rt)?;
    let mut volume = Volume::mounted(alloc, flash)?;
    measure.part(rt, "empty_mount", start)?;
    let start = Instant::now(rt)?;
    let refused = volume.answer_all(script)?;
    measure.part(rt, "core", start)?;
    measure.count("erases", volume.core.log().erases())?;
    measure.count("refused", refused)?;
    let start = Instant::now(rt)?;
    ask_copies(&mut volume)?;
    measure.part(rt, "copies", start)
}

/// Asks for copies of a version that no node has. Nothing is erased between them, since a refused
/// request leaves nothing dead.
fn ask_copies(volume: &mut Volume) -> Result<(), Fault> {
    let path = Path::parse(volume.alloc, "/x")?;
    let Some(name) = path.names().first() else {
        return Err(Fault::Refused);
    };
    for seq in 0..COPIES {
        let wish = Wish::Copy {
            source: 0,
            parent: 1,
            name: *name,
            offset: 0,
            bytes: copied(volume.alloc, &[])?,
        };
        volume.answer(9, seq, wish)?;
    }
    Ok(())
}

/// The run in threads; the flash that it left.
fn measure_run<R: Threads + Wait + Sync + Clock, W: Write + Drop>(
    rt: &R,
    alloc: Global,
    script: &Script<'_>,
    measure: &mut Measure<W>,
) -> Result<MemoryFlash, Fault> {
    let flash = MemoryFlash::new(alloc, script.sectors, script.sector_size)?;
    let start = Instant::now(rt)?;
    let run = run_threads(rt, alloc, script, flash, &NoGate)?;
    measure.part(rt, "threads", start)?;
    measure.count("answers", run.answers.len() as u64)?;
    Ok(run.flash)
}

/// A mount of a flash, beside a plain copy of its bytes; the tree on it.
fn measure_mount<R: Clock, W: Write + Drop>(
    rt: &R,
    alloc: Global,
    flash: MemoryFlash,
    measure: &mut Measure<W>,
) -> Result<Tree, Fault> {
    let start = Instant::now(rt)?;
    let copied = flash.bytes().to_vec(alloc)?;
    measure.part(rt, "memcpy", start)?;
    drop(copied);
    let start = Instant::now(rt)?;
    let Mounted { log, tree, .. } = scan(alloc, flash)?;
    measure.part(rt, "scan", start)?;
    measure.count("records", log.records().len() as u64)?;
    Ok(tree)
}

fn measure_dump<R: Clock, W: Write + Drop>(
    rt: &R,
    alloc: Global,
    tree: &Tree,
    measure: &mut Measure<W>,
) -> Result<(), Fault> {
    let mut dumped = Vec::new(alloc);
    let start = Instant::now(rt)?;
    dump(alloc, tree, &mut dumped)?;
    measure.part(rt, "dump", start)?;
    measure.count("dump_bytes", dumped.len() as u64)
}
