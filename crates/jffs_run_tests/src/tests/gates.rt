//! Which wishes a gate is called for, and what a cleaner does while a gate holds a writer up.
//! How often a gate is called is counted from the script and from the line's capacity.

use super::wait_for;
use jffs_flash::{Flash, FlashFault, MemoryFlash};
use jffs_line::CLEANER;
use jffs_run::{Gate, Run, run_threads};
use jffs_text::Script;
use std::alloc::Global;
use std::sync::Wait;
use std::sync::atomic::{AtomicU64, Ordering};
use std::test::Fail;
use std::thread;
use std::thread::Threads;
use std::time::{Clock, Duration};

/// How long a writer is held up before each wish.
const NAP_MILLIS: u64 = 10;

/// Counts its calls, and adds up what it is called with.
#[derive(Drop)]
struct Counting {
    calls: AtomicU64,
    writers: AtomicU64,
    numbers: AtomicU64,
}

impl Counting {
    fn new() -> Counting {
        Counting {
            calls: AtomicU64::new(0),
            writers: AtomicU64::new(0),
            numbers: AtomicU64::new(0),
        }
    }
}

impl Gate for Counting {
    fn before(&self, writer: u16, seq: u32) {
        self.calls.fetch_add(1, Ordering::SeqCst);
        self.writers.fetch_add(u64::from(writer), Ordering::SeqCst);
        self.numbers.fetch_add(u64::from(seq), Ordering::SeqCst);
    }
}

/// Holds each writer up before each wish.
#[derive(Drop)]
struct Napping<'a, R> {
    rt: &'a R,
}

impl<'a, R: Clock> Gate for Napping<'a, R> {
    fn before(&self, _writer: u16, _seq: u32) {
        thread::sleep(self.rt, Duration::from_millis(NAP_MILLIS));
    }
}

fn run_with<Rt: AllocGlobal + Threads + Wait + Sync, G: Gate + Sync>(
    rt: &Rt,
    script: &str,
    gate: &G,
) -> Result<Run<MemoryFlash>, Fail> {
    let alloc = rt.alloc();
    let script = Script::parse(alloc, script.as_bytes())?;
    let flash = MemoryFlash::new(alloc, script.sectors, script.sector_size)?;
    let run = run_threads(rt, alloc, &script, flash, gate);
    Ok(run.map_err(|fault| fault.why)?)
}

#[test]
fn a_gate_is_called_for_each_wish_once(rt: HostRuntime) -> Result<(), Fail> {
    for line in ["shared 1", "rings 4"] {
        let gate = Counting::new();
        let script = format!(in rt.alloc();
            "volume 8 1024\n\
            line {line}\n\
            writer\n\
            mkdir /a\n\
            mkdir /\n\
            mkdir /b\n\
            writer\n\
            mkdir /c\n\
            mkdir /d\n"
        )?;
        run_with(&rt, script.as_str(), &gate)?;
        assert_eq!(rt; gate.calls.load(Ordering::SeqCst), 5);
        assert_eq!(rt; gate.writers.load(Ordering::SeqCst), 1 * 3 + 2 * 2);
        assert_eq!(rt; gate.numbers.load(Ordering::SeqCst), 1 + 2 + 3 + 1 + 2);
    }
    Ok(())
}

/// Nine pieces of a file that all live, and then the last of them ten times more.
fn half_full(alloc: Global) -> Result<String, Fail> {
    let mut script = String::from_str(alloc, "volume 6 1024\ncleaner 1000000\nwriter\n")?;
    script.push_str("create /f\n")?;
    for turn in 0..19u32 {
        let piece = turn.min(8) * 192;
        script.push_str(&format!(in alloc; "fill /f {piece} 192 61\n")?)?;
    }
    Ok(script)
}

#[test]
fn the_cleaner_of_a_script_hands_in_copies(rt: HostRuntime) -> Result<(), Fail> {
    let script = half_full(rt.alloc())?;
    let run = run_with(&rt, script.as_str(), &Napping { rt: &rt })?;
    let mut answers = run.answers.iter();
    assert!(rt; answers.any(|answer| answer.writer == CLEANER));
    Ok(())
}

/// Memory flash whose first write waits until a gate was called so often, and notes how often it
/// was.
#[derive(Drop)]
struct Held<'a> {
    inner: MemoryFlash,
    gate: &'a Counting,
    wanted: u64,
    noted: &'a AtomicU64,
}

impl<'a> Flash for Held<'a> {
    ghost use Rattle.jffs_flash.specs.Device.{device_of};

    ghost device = { λ h. device_of h.inner.sectors h.inner.sector_size h.inner.image };

    fn sectors(&self) -> u32 {
        self.inner.sectors()
    }

    fn sector_size(&self) -> u32 {
        self.inner.sector_size()
    }

    fn faults(&self) -> u64 {
        self.inner.faults()
    }

    fn read(&mut self, at: u32, buffer: &mut [u8]) -> Result<(), FlashFault> {
        self.inner.read(at, buffer)
    }

    fn program(&mut self, at: u32, bytes: &[u8]) -> Result<(), FlashFault> {
        if self.noted.load(Ordering::SeqCst) == 0 {
            wait_for(&self.gate.calls, self.wanted);
            self.noted
                .store(self.gate.calls.load(Ordering::SeqCst), Ordering::SeqCst);
        }
        self.inner.program(at, bytes)
    }

    fn erase(&mut self, sector: u32) -> Result<(), FlashFault> {
        self.inner.erase(sector)
    }
}

/// How often a gate was called until no writer could go on, while the log thread stood in the write
/// of a first node, where the device waits for `wanted` calls; and how many answers came in all.
fn calls_while_held<Rt: AllocGlobal + Threads + Wait + Sync>(
    rt: &Rt,
    script: &str,
    wanted: u64,
) -> Result<(u64, usize), Fail> {
    let alloc = rt.alloc();
    let gate = Counting::new();
    let noted = AtomicU64::new(0);
    let script = Script::parse(alloc, script.as_bytes())?;
    let flash = Held {
        inner: MemoryFlash::new(alloc, script.sectors, script.sector_size)?,
        gate: &gate,
        wanted,
        noted: &noted,
    };
    match run_threads(rt, alloc, &script, flash, &gate) {
        Ok(run) => Ok((noted.load(Ordering::SeqCst), run.answers.len())),
        Err(fault) => Err(fault.why.into()),
    }
}

/// Four more of a writer's wishes wait on a line of capacity 4, and the sixth finds no place.
#[test]
fn a_line_has_the_capacity_of_its_script(rt: HostRuntime) -> Result<(), Fail> {
    for line in ["shared 4", "rings 4"] {
        let script = format!(in rt.alloc();
            "volume 8 1024\nline {line}\nwriter\n\
            mkdir /a\nmkdir /b\nmkdir /c\nmkdir /d\nmkdir /e\nmkdir /f\nmkdir /g\nmkdir /h\n"
        )?;
        assert_eq!(rt; calls_while_held(&rt, script.as_str(), 6)?, (6, 9));
    }
    Ok(())
}

/// On a shared line four wishes of both writers wait, and each writer has one more in hand; with
/// rings four of each wait. One call more never comes.
#[test]
fn two_writers_share_a_line_or_have_a_ring_each(rt: HostRuntime) -> Result<(), Fail> {
    for (line, calls) in [("shared 4", 1u64 + 4 + 2), ("rings 4", 1 + 4 + 4 + 2)] {
        let script = format!(in rt.alloc();
            "volume 8 1024\nline {line}\n\
            writer\nmkdir /a\nmkdir /b\nmkdir /c\nmkdir /d\nmkdir /e\nmkdir /f\nmkdir /g\n\
            writer\nmkdir /h\nmkdir /i\nmkdir /j\nmkdir /k\nmkdir /l\nmkdir /m\nmkdir /n\n"
        )?;
        let held = calls_while_held(&rt, script.as_str(), calls.saturating_add(1))?;
        assert_eq!(rt; held, (calls, 15));
    }
    Ok(())
}
