//! The program: a script in, lines out.

use crate::ending::{Fault, ProgramWhy, status_of};
use crate::printing::{print_answers, print_ending, print_readers};
use crate::reading::{read_file, read_script};
use jffs_core::Answer;
use jffs_file::{FileFault, FileFlash, FileStore, SyncFlash, create_image, open_image};
use jffs_flash::{Flash, MemoryFlash};
use jffs_log::{Healed, Mounted, ScanFault, heal, scan};
use jffs_run::{NoGate, ReaderEnd, Run, RunFault, RunWhy, run_threads};
use jffs_text::{Script, Usage, dump};
use jffs_tree::Tree;
use std::alloc::Global;
use std::io::{Read, Write};
use std::rt::Files;
use std::sync::Wait;
use std::thread::{Scope, Threads};
use std::{io, thread};

const USAGE: Usage = Usage {
    program: "jffs",
    help: "jffs [--volume VOLUME] [SCRIPT]

Runs the script in the file SCRIPT, or the one on standard input, in threads, and prints what became
of each request, and the tree that a scan finds after the run. With --volume the volume stays in the
file VOLUME, which is made where there is none; else it stands in memory.

A script begins with the volume: 6 to 64 sectors S of 1024, 2048, 4096, 8192 or 16384 bytes Z.
  volume S Z
  line shared C | line rings C     how requests wait: C is 1 to 256
  cleaner N                        a cleaner, for 1 to 1000000 rounds
  reader W N PATH                  reads PATH once request N of writer W is answered
Each of 1 to 8 writers then has its commands, at most 4096:
  writer
  mkdir PATH | create PATH | write PATH OFFSET HEX | fill PATH OFFSET COUNT HH
  truncate PATH SIZE | rename PATH PATH | remove PATH
A write has at most Z / 4 - 64 bytes, a file 1048576, a name 20, and a path 8 names.

  printf '%s\\n' 'volume 8 1024' writer 'create /f' 'write /f 0 68656c6c6f' > hello.script
  jffs hello.script
  jffs --volume notes.image < hello.script

Status: 0; 1 after a fault of memory, a stream, a thread or the volume's file; 2 after a wrong call,
and where the script is refused or its file can't be read. A line on standard error says why.
docs/SCRIPT.md has more.
",
    option: Some("--volume"),
    options: "--volume VOLUME, --help and --version",
    most: 1,
};

/// Does what the words of a call ask for, of which the first is the program's own name: it runs the
/// script in the file that they name, or else the one that `input` gives, on the volume in the file
/// after `--volume`, or else as `run_program` does.
///
/// Returns the exit status, that of `run_program` or `run_program_on_file`; 0 after `--help` and
/// `--version`; 2 after a wrong call, and where the script's file can't be read. For all but 0 a
/// line goes to `errors`.
pub fn run_called<
    Rt: AllocGlobal + Files<File: Send> + Threads + Wait + Sync,
    R: Read,
    W: Write,
    E: Write,
>(rt: &Rt, words: &[String], input: &mut R, out: &mut W, errors: &mut E) -> u8 {
    match USAGE.work(rt.alloc(), words, out, errors) {
        Ok(work) => {
            let ended = match work.words.first() {
                Some(script) => run_file(rt, work.value, *script, out),
                None => run_input(rt, work.value, input, out),
            };
            status_of(ended, out, errors)
        }
        Err(status) => status,
    }
}

/// Runs the script that `input` gives in threads, on erased flash in memory, and writes what became
/// of it to `out`, after the run and a fresh scan.
///
/// Returns the exit status: 0, 1 after a line `fault: WHY`, 2 after a line that refuses the script.
/// Such a line is dropped where it can't be written.
pub fn run_program<Rt: AllocGlobal + Threads + Wait + Sync, R: Read, W: Write>(
    rt: &Rt,
    input: &mut R,
    out: &mut W,
) -> u8 {
    status_of(run_new(rt, input, out), out, &mut io::sink())
}

/// Runs the script that a reader gives as `run_program` does, on the volume in a file, which is
/// made, erased, where there is none; its sectors are those of the script.
///
/// Returns the same exit status, and 1 where the file can't be used. For all but 0 a line goes to
/// `errors`.
pub fn run_program_on_file<
    Rt: AllocGlobal + Files<File: Send> + Threads + Wait + Sync,
    R: Read,
    W: Write,
    E: Write,
>(rt: &Rt, path: &str, input: &mut R, out: &mut W, errors: &mut E) -> u8 {
    status_of(run_input(rt, Some(path), input, out), out, errors)
}

/// Runs the script that a reader gives on a new volume in memory.
fn run_new<'a, Rt: AllocGlobal + Threads + Wait + Sync, R: Read, W: Write>(
    rt: &Rt,
    input: &mut R,
    out: &mut W,
) -> Result<(), Fault<'a>> {
    let text = read_script(rt.alloc(), input)?;
    run_in_memory(rt, &script_of(rt.alloc(), &text)?, out)?;
    Ok(())
}

/// Runs the script in a file.
fn run_file<'a, Rt: AllocGlobal + Files<File: Send> + Threads + Wait + Sync, W: Write>(
    rt: &Rt,
    volume: Option<&'a str>,
    path: &'a str,
    out: &mut W,
) -> Result<(), Fault<'a>> {
    let text = match read_file(rt, path) {
        Ok(text) => text,
        Err(why) => return Err(Fault::NoScript { path, why }),
    };
    run_script(rt, volume, &script_of(rt.alloc(), &text)?, out)
}

/// Runs the script that a reader gives.
fn run_input<'a, Rt: AllocGlobal + Files<File: Send> + Threads + Wait + Sync, R: Read, W: Write>(
    rt: &Rt,
    volume: Option<&'a str>,
    input: &mut R,
    out: &mut W,
) -> Result<(), Fault<'a>> {
    let text = read_script(rt.alloc(), input)?;
    run_script(rt, volume, &script_of(rt.alloc(), &text)?, out)
}

/// Runs a script on the volume in a file, or on a new one in memory.
fn run_script<'a, Rt: AllocGlobal + Files<File: Send> + Threads + Wait + Sync, W: Write>(
    rt: &Rt,
    volume: Option<&'a str>,
    script: &Script<'_>,
    out: &mut W,
) -> Result<(), Fault<'a>> {
    let Some(path) = volume else {
        run_in_memory(rt, script, out)?;
        return Ok(());
    };
    let flash = flash_in(rt, path, script.sectors, script.sector_size)?;
    match run_on(rt, script, flash, out) {
        Ok(()) => Ok(()),
        Err(why) => Err(Fault::on_file(path, why)),
    }
}

/// Runs a script on erased flash in memory.
fn run_in_memory<Rt: AllocGlobal + Threads + Wait + Sync, W: Write>(
    rt: &Rt,
    script: &Script<'_>,
    out: &mut W,
) -> Result<(), ProgramWhy> {
    let flash = MemoryFlash::new(rt.alloc(), script.sectors, script.sector_size)?;
    run_on(rt, script, flash, out)
}

/// The flash in a file, which is made, erased, where there is none. `NoFlash` or `OtherLength`
/// where the file can't be used.
fn flash_in<'a, Rt: AllocGlobal + Files>(
    rt: &Rt,
    path: &'a str,
    sectors: u32,
    sector_size: u32,
) -> Result<FileFlash<FileStore<Rt::File>>, Fault<'a>> {
    let opened = match open_image(rt, path) {
        Err(FileFault::Missing) => create_image(rt, path, sectors, sector_size),
        opened => opened,
    };
    let image = match opened {
        Ok(image) => image,
        Err(why) => return Err(Fault::NoFlash { path, why }),
    };
    let found = image.bytes().len() as u64;
    match image.into_flash(sectors, sector_size) {
        Ok(flash) => Ok(flash),
        Err(_) => Err(Fault::OtherLength {
            path,
            found,
            wanted: u64::from(sectors) * u64::from(sector_size),
        }),
    }
}

/// What a run came to, and what a scan finds after it.
#[derive(Drop)]
struct RunReport {
    answers: Vec<Answer>,
    readers: Vec<ReaderEnd>,
    tree: Tree,
    clean: bool,
}

/// Runs a script on a device, which may hold a volume already, and writes what became of it. All is
/// run, scanned and brought to the device's medium before the first line is written.
fn run_on<Rt: AllocGlobal + Threads + Wait + Sync, F: Flash + SyncFlash + Send + Drop, W: Write>(
    rt: &Rt,
    script: &Script<'_>,
    flash: F,
    out: &mut W,
) -> Result<(), ProgramWhy> {
    let report = run_and_scan(rt, script, flash)?;
    print_report(rt.alloc(), &report, out)
}

/// Runs a script on a device, and then scans the device and syncs it.
fn run_and_scan<Rt: AllocGlobal + Threads + Wait + Sync, F: Flash + SyncFlash + Send + Drop>(
    rt: &Rt,
    script: &Script<'_>,
    flash: F,
) -> Result<RunReport, ProgramWhy> {
    let Run {
        accepted: _,
        answers,
        waiting: _,
        readers,
        served: _,
        flash,
    } = run_apart(rt, script, flash)?;
    let answers = moved_apart(answers)?;
    let Mounted {
        log,
        tree,
        clean,
        limits: _,
    } = scan(rt.alloc(), flash).map_err(scan_fault)?;
    log.flash().sync_flash()?;
    Ok(RunReport {
        answers,
        readers,
        tree,
        clean,
    })
}

/// Writes what became of a run, and the tree that the scan found.
fn print_report<W: Write>(
    alloc: Global,
    report: &RunReport,
    out: &mut W,
) -> Result<(), ProgramWhy> {
    print_answers(&report.answers, out)?;
    print_readers(&report.readers, out)?;
    print_ending(&report.answers, out)?;
    let clean = if report.clean { "clean" } else { "unclean" };
    writeln!(out, "scan {clean}")?;
    dump(alloc, &report.tree, out)?;
    out.flush()?;
    Ok(())
}

/// Runs a script in a thread of its own, and waits for its end. A thread that frees memory keeps
/// some pieces of each small size for itself as long as it lives, and these hold on to all memory
/// below them; so what a run freed goes back to the system before the scan needs as much again.
fn run_apart<Rt: AllocGlobal + Threads + Wait + Sync, F: Flash + Send + Drop>(
    rt: &Rt,
    script: &Script<'_>,
    flash: F,
) -> Result<Run<F>, ProgramWhy> {
    thread::scope(
        thread::scope_env(),
        rt,
        |scope| -> Result<Run<F>, ProgramWhy> { run_in(rt, scope, script, flash) },
    )
}

fn run_in<'s, E, Rt: AllocGlobal + Threads + Wait + Sync, F: Flash + Send + Drop + 's>(
    rt: &'s Rt,
    scope: &'s Scope<'s, E>,
    script: &'s Script<'s>,
    flash: F,
) -> Result<Run<F>, ProgramWhy> {
    let started = scope.spawn(move || -> Result<Run<F>, ProgramWhy> {
        run_opened(rt, script, flash)
    });
    match started {
        Ok(handle) => handle.join(rt),
        Err(_) => Err(ProgramWhy::Run(RunWhy::Spawn)),
    }
}

/// The same answers in a new allocation. The old one lies among what the log thread freed, and
/// would keep all before it from going back to the system while the scan needs as much again.
fn moved_apart(answers: Vec<Answer>) -> Result<Vec<Answer>, ProgramWhy> {
    answers.clone().map_err(|_| ProgramWhy::Memory)
}

/// The script that a text is.
fn script_of<'a, 't>(alloc: Global, text: &'t [u8]) -> Result<Script<'t>, Fault<'a>> {
    match Script::read(alloc, text) {
        Ok(script) => Ok(script),
        Err(mistake) => Err(Fault::Script(mistake)),
    }
}

/// Runs a script on a device; where that doesn't mount since an erase was cut off on it, the erase
/// is ended, and the script run then.
fn run_opened<Rt: AllocGlobal + Threads + Wait + Sync, F: Flash + Send + Drop>(
    rt: &Rt,
    script: &Script<'_>,
    flash: F,
) -> Result<Run<F>, ProgramWhy> {
    let fault = match run_threads(rt, rt.alloc(), script, flash, &NoGate) {
        Ok(run) => return Ok(run),
        Err(fault) => fault,
    };
    let flash = healed(rt.alloc(), fault)?;
    match run_threads(rt, rt.alloc(), script, flash, &NoGate) {
        Ok(run) => Ok(run),
        Err(fault) => Err(ProgramWhy::Run(fault.why)),
    }
}

/// The device of a run that was given up since it didn't mount, once an erase that was cut off on
/// it is ended. `Mount` with the reason where it holds no volume, else why the run was given up.
fn healed<F: Flash + Drop>(alloc: Global, fault: RunFault<F>) -> Result<F, ProgramWhy> {
    let RunFault {
        why,
        flash,
        answers: _,
    } = fault;
    if why != RunWhy::Mount {
        return Err(ProgramWhy::Run(why));
    }
    let Some(flash) = flash else {
        return Err(ProgramWhy::Run(why));
    };
    match heal(alloc, flash) {
        Ok(Healed { mounted, sector: _ }) => Ok(mounted.log.into_flash()),
        Err(ScanFault { why, flash: _ }) => Err(ProgramWhy::Mount(why)),
    }
}

fn scan_fault<F: Drop>(_: ScanFault<F>) -> ProgramWhy {
    ProgramWhy::Scan
}
