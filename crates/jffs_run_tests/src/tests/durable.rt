//! What the medium of a run's device holds once a request was answered.
//! Who was answered is known from the line: where it has room for one request, a writer has the
//! fourth in hand only once the second was taken, and so the first was answered.

use super::wait_for;
use jffs_core::Core;
use jffs_flash::{Flash, FlashFault, MemoryFlash};
use jffs_node::ROOT_INODE;
use jffs_run::{Gate, run_threads};
use jffs_text::Script;
use std::alloc::Global;
use std::io::Write;
use std::sync::Wait;
use std::sync::atomic::{AtomicU8, AtomicU64, Ordering};
use std::test::Fail;
use std::thread::Threads;

const SECTORS: u32 = 8;

const SECTOR_SIZE: u32 = 1024;

/// How many directories are asked for, one after another.
const WISHES: u64 = 20;

/// How many requests of a writer may be unanswered when it has one in hand, that one among them.
const UNANSWERED: u64 = 3;

/// The bytes of a medium, which a thread may look at while another one writes.
type Medium = Vec<AtomicU8>;

fn erased(alloc: Global) -> Result<Medium, Fail> {
    let mut medium = Vec::new(alloc);
    for _ in 0..SECTORS * SECTOR_SIZE {
        medium.push(AtomicU8::new(0xFF))?;
    }
    Ok(medium)
}

/// How many directories a mount of the medium finds; `None` where it doesn't mount.
fn directories(alloc: Global, medium: &Medium) -> Option<u64> {
    let mut bytes = Vec::new(alloc);
    for byte in medium.iter() {
        bytes.push(byte.load(Ordering::SeqCst)).ok()?;
    }
    if bytes.len() != SECTORS as usize * SECTOR_SIZE as usize {
        return None;
    }
    let flash = MemoryFlash::from_bytes(SECTORS, SECTOR_SIZE, bytes);
    let core = Core::mount(alloc, flash).ok()?;
    let names = core.tree().names(ROOT_INODE).ok()?;
    Some(names.len() as u64)
}

/// Before each wish mounts what the medium holds, and counts where an answer is missing there.
#[derive(Drop)]
struct Looking<'a, R> {
    rt: &'a R,
    medium: &'a Medium,
    /// Up to which of a writer's wishes was looked.
    looked: &'a AtomicU64,
    missing: &'a AtomicU64,
}

impl<'a, R: AllocGlobal> Gate for Looking<'a, R> {
    fn before(&self, _writer: u16, seq: u32) {
        let answered = u64::from(seq).saturating_sub(UNANSWERED);
        match directories(self.rt.alloc(), self.medium) {
            Some(found) if found >= answered => {}
            _ => {
                self.missing.fetch_add(1, Ordering::SeqCst);
            }
        }
        self.looked.store(u64::from(seq), Ordering::SeqCst);
    }
}

/// Memory flash with a medium. A late one has each gate on its medium with the next call.
#[derive(Drop)]
struct Watched<'a> {
    inner: MemoryFlash,
    medium: &'a Medium,
    looked: &'a AtomicU64,
    records: u64,
    is_late: bool,
    /// The gate that is not on the medium yet.
    gate: Option<u32>,
}

impl<'a> Watched<'a> {
    /// Waits until the writer has as many wishes in hand or on the line as can be, while no record
    /// of its next one was begun.
    fn wait(&self) {
        let wanted = self.records.saturating_add(UNANSWERED).min(WISHES);
        wait_for(self.looked, wanted);
    }

    /// Brings a range to the medium.
    fn bring(&self, at: u32, len: usize) {
        let at = at as usize;
        for place in at..at.saturating_add(len) {
            if let (Some(byte), Some(held)) = (
                self.inner.bytes().get(place),
                self.medium.get(place),
            ) {
                held.store(*byte, Ordering::SeqCst);
            }
        }
    }
}

impl<'a> Flash for Watched<'a> {
    ghost use Rattle.jffs_flash.specs.Device.{device_of};

    ghost device = { λ w. device_of w.inner.sectors w.inner.sector_size w.inner.image };

    fn sectors(&self) -> u32 {
        self.inner.sectors()
    }

    fn sector_size(&self) -> u32 {
        self.inner.sector_size()
    }

    fn faults(&self) -> u64 {
        self.inner.faults()
    }

    fn read(&mut self, at: u32, buffer: &mut [u8]) -> Result<(), FlashFault> {
        self.inner.read(at, buffer)
    }

    fn program(&mut self, at: u32, bytes: &[u8]) -> Result<(), FlashFault> {
        let is_gate = bytes.len() == 1;
        if !is_gate {
            self.wait();
            self.records = self.records.saturating_add(1);
        }
        if let Some(gate) = self.gate.take() {
            self.bring(gate, 1);
        }
        let done = self.inner.program(at, bytes);
        if is_gate && self.is_late {
            self.gate = Some(at);
        } else {
            self.bring(at, bytes.len());
        }
        done
    }

    fn erase(&mut self, sector: u32) -> Result<(), FlashFault> {
        let done = self.inner.erase(sector);
        let size = self.inner.sector_size();
        self.bring(sector.saturating_mul(size), size as usize);
        done
    }
}

/// How often an answer was missing on the medium of a run's device.
fn missing<Rt: AllocGlobal + Threads + Wait + Sync>(rt: &Rt, is_late: bool) -> Result<u64, Fail> {
    let alloc = rt.alloc();
    let mut text = Vec::new(alloc);
    writeln!(
        text,
        "volume {SECTORS} {SECTOR_SIZE}\nline shared 1\nwriter"
    )?;
    for wish in 0..WISHES {
        writeln!(text, "mkdir /{wish}")?;
    }
    let script = Script::parse(alloc, &text)?;
    let medium = erased(alloc)?;
    let (looked, missing) = (AtomicU64::new(0), AtomicU64::new(0));
    let flash = Watched {
        inner: MemoryFlash::new(alloc, SECTORS, SECTOR_SIZE)?,
        medium: &medium,
        looked: &looked,
        records: 0,
        is_late,
        gate: None,
    };
    let gate = Looking {
        rt,
        medium: &medium,
        looked: &looked,
        missing: &missing,
    };
    match run_threads(rt, alloc, &script, flash, &gate) {
        Ok(run) if run.answers.len() as u64 == WISHES + 1 => Ok(missing.load(Ordering::SeqCst)),
        Ok(_) => Err("a wish was not answered".into()),
        Err(fault) => Err(fault.why.into()),
    }
}

/// A loss of power as soon as a request was answered loses nothing of it. A device whose gates come
/// late would lose the last answer, and is noticed.
#[test]
fn the_gate_of_a_record_is_closed_before_its_answer(rt: HostRuntime) -> Result<(), Fail> {
    assert_eq!(rt; missing(&rt, false)?, 0);
    assert!(rt; missing(&rt, true)? > 0);
    Ok(())
}
