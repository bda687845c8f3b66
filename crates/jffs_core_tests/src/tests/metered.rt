//! Memory flash that counts what it is called for.

use crate::tests::session::{SECTOR_SIZE, Session, erased_flash};
use jffs_flash::{Flash, FlashFault, MemoryFlash};
use std::alloc::Global;
use std::test::Fail;

/// How many sectors it has.
pub(super) const SECTORS: usize = 6;

/// What a device was called for.
#[derive(Clone, Copy, PartialEq, Eq)]
pub(super) struct Calls {
    /// How many bytes were programmed, and in how many calls.
    pub(super) bytes: u64,
    pub(super) programs: u64,
    /// How often each sector was erased.
    pub(super) erased: [u32; SECTORS],
}

impl Calls {
    /// How many erases there were.
    pub(super) fn erases(&self) -> u32 {
        let mut erases = 0u32;
        for count in self.erased {
            erases = erases.saturating_add(count);
        }
        erases
    }
}

/// Memory flash that counts its calls.
#[derive(Drop)]
pub(super) struct Metered {
    inner: MemoryFlash,
    calls: Calls,
    /// How often each byte was read.
    pub(super) reads: Vec<u8>,
}

impl Flash for Metered {
    ghost use Rattle.jffs_flash.specs.Device.{device_of};

    ghost device = { λ m. device_of m.inner.sectors m.inner.sector_size m.inner.image };

    ghost wear = { λ m. record { erases = m.calls.erased; bytes = m.calls.bytes } };

    fn sectors(&self) -> u32 {
        self.inner.sectors()
    }

    fn sector_size(&self) -> u32 {
        self.inner.sector_size()
    }

    fn faults(&self) -> u64 {
        self.inner.faults()
    }

    fn read(&mut self, at: u32, buffer: &mut [u8]) -> Result<(), FlashFault> {
        count_reads(&mut self.reads, at as usize, buffer.len());
        self.inner.read(at, buffer)
    }

    fn program(&mut self, at: u32, bytes: &[u8]) -> Result<(), FlashFault> {
        self.calls.bytes = self.calls.bytes.saturating_add(bytes.len() as u64);
        self.calls.programs = self.calls.programs.saturating_add(1);
        self.inner.program(at, bytes)
    }

    fn erase(&mut self, sector: u32) -> Result<(), FlashFault> {
        let index = sector as usize;
        if index < SECTORS {
            self.calls.erased[index] = self.calls.erased[index].saturating_add(1);
        }
        self.inner.erase(sector)
    }
}

/// Counts a read of so many bytes from a place on.
fn count_reads(reads: &mut [u8], at: usize, len: usize) {
    for place in at..at.saturating_add(len) {
        if let Some(count) = reads.get_mut(place) {
            *count = count.saturating_add(1);
        }
    }
}

/// Such a device, erased.
fn erased_metered(alloc: Global) -> Result<Metered, Fail> {
    let reads = vec![in alloc; 0u8; SECTORS * SECTOR_SIZE as usize]?;
    Ok(Metered {
        inner: erased_flash(alloc, SECTORS as u32)?,
        calls: Calls {
            bytes: 0,
            programs: 0,
            erased: [0; SECTORS],
        },
        reads,
    })
}

/// A session on an erased device.
pub(super) fn over_metered(alloc: Global) -> Result<Session<Metered>, Fail> {
    Session::over(alloc, erased_metered(alloc)?)
}

/// What the device of a session was called for.
pub(super) fn calls_of(session: &Session<Metered>) -> Calls {
    session.core.log().flash().calls
}
