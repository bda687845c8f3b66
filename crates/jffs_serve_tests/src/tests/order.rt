//! What was published when a sector is erased.
//! One answer was given, so one has to be seen.

use crate::tests::rounds::{answered_seen, served_seen};
use crate::tests::volumes::{Ask, dead_below_tail, mounted};
use jffs_flash::{Flash, FlashFault, MemoryFlash};
use jffs_index::Reader;
use jffs_serve::Served;
use std::cell::Cell;
use std::test::Fail;

/// Memory flash that has a reader look at the index before the first sector is erased, and notes
/// how many answers it saw.
#[derive(Drop)]
struct Watching<'a> {
    inner: MemoryFlash,
    reader: &'a Cell<Option<Reader>>,
    seen: &'a Cell<Option<u64>>,
}

impl<'a> Flash for Watching<'a> {
    ghost use Rattle.jffs_flash.specs.Device.{device_of};

    ghost device = { λ w. device_of w.inner.sectors w.inner.sector_size w.inner.image };

    fn sectors(&self) -> u32 {
        self.inner.sectors()
    }

    fn sector_size(&self) -> u32 {
        self.inner.sector_size()
    }

    fn faults(&self) -> u64 {
        self.inner.faults()
    }

    fn read(&mut self, at: u32, buffer: &mut [u8]) -> Result<(), FlashFault> {
        self.inner.read(at, buffer)
    }

    fn program(&mut self, at: u32, bytes: &[u8]) -> Result<(), FlashFault> {
        self.inner.program(at, bytes)
    }

    fn erase(&mut self, sector: u32) -> Result<(), FlashFault> {
        if let Some(mut reader) = self.reader.replace(None) {
            self.seen.set(answered_seen(&mut reader));
        }
        self.inner.erase(sector)
    }
}

#[test]
fn an_answer_is_published_before_a_sector_is_erased(rt: HostRuntime) -> Result<(), Fail> {
    let alloc = rt.alloc();
    let slot = Cell::new(None);
    let seen = Cell::new(None);
    let flash = Watching {
        inner: dead_below_tail(alloc)?.into_flash(),
        reader: &slot,
        seen: &seen,
    };
    let core = mounted(alloc, flash)?;
    let left = served_seen(&rt, alloc, core, &[Ask::File("/f")], &slot, 1)?;
    assert_eq!(rt; left.served, Served::Ended);
    assert_eq!(rt; seen.get(), Some(1));
    Ok(())
}
