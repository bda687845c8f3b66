//! In which order a device writes and syncs its store. What is expected was worked out on paper,
//! from the blocks of 512 bytes in which each write lies.

ghost use Rattle.std.specs.Prelude.{Some, reverse};

use super::{erase, program};
use jffs_file::{FileFlash, Span, Store, StoreEvent, StoreFault};
use jffs_flash::{Flash, FlashFault, MemoryFlash};
use std::alloc::Global;
use std::process::Abort;
use std::test::Fail;

/// A store that notes what is asked of it, and keeps no bytes.
#[derive(Drop)]
struct Noting {
    events: Vec<StoreEvent>,
}

impl Store for Noting {
    ghost past = { λ s. Some (reverse s.events.items) };

    fn overwrite(&mut self, at: u64, bytes: &[u8]) -> Result<(), StoreFault> {
        let Some(to) = at.checked_add(bytes.len() as u64) else {
            return Err(StoreFault);
        };
        match self.events.push(StoreEvent::Wrote(Span { from: at, to })) {
            Ok(()) => Ok(()),
            Err(_) => Err(StoreFault),
        }
    }

    fn sync(&mut self) -> Result<(), StoreFault> {
        match self.events.push(StoreEvent::Synced) {
            Ok(()) => Ok(()),
            Err(_) => Err(StoreFault),
        }
    }
}

/// Six erased sectors of 1,024 bytes, and a store for them.
fn new_noting(alloc: Global) -> Result<(MemoryFlash, Noting), Fail> {
    let held = MemoryFlash::new(alloc, 6, 1024)?;
    let events = Vec::new(alloc);
    Ok((held, Noting { events }))
}

const SYNCED: StoreEvent = StoreEvent::Synced;

fn wrote(from: u64, to: u64) -> StoreEvent {
    StoreEvent::Wrote(Span { from, to })
}

/// A record of 64 bytes or more: all of it, and then its gate.
fn write_record<F: Flash>(
    rt: &impl Abort,
    flash: &mut F,
    at: u32,
    bytes: &[u8],
) -> Result<(), FlashFault> {
    program(rt, flash, at, bytes)?;
    program(rt, flash, at.saturating_add(7), &[0])
}

/// What was asked of the store since there were so many events.
fn is_next(rt: &impl Abort, flash: &FileFlash<Noting>, after: usize, wanted: &[StoreEvent]) {
    let events = flash.store().events.as_slice();
    assert_eq!(rt; events.get(after..).unwrap_or(&[]), wanted);
}

/// Records that lie in one block, that span two, and that begin a sector.
fn append_some(rt: &impl Abort, flash: &mut FileFlash<Noting>) -> Result<(), FlashFault> {
    // What a program wrote that was killed may not be on the medium yet.
    write_record(rt, flash, 0, &[0xf0; 64])?;
    is_next(rt, flash, 0, &[SYNCED, wrote(0, 64), wrote(7, 8)]);
    write_record(rt, flash, 64, &[0xf0; 64])?;
    is_next(rt, flash, 3, &[wrote(64, 128), wrote(71, 72)]);
    write_record(rt, flash, 480, &[0xf0; 64])?;
    is_next(rt, flash, 5, &[wrote(480, 544), SYNCED, wrote(487, 488)]);
    // The record before it has to be whole in its sector first.
    write_record(rt, flash, 1024, &[0xf0; 64])?;
    is_next(
        rt,
        flash,
        8,
        &[wrote(1024, 1088), SYNCED, wrote(1031, 1032)],
    );
    Ok(())
}

/// An erase after records, and what is programmed while it is in flight.
fn erase_some(rt: &impl Abort, flash: &mut FileFlash<Noting>) -> Result<(), FlashFault> {
    erase(rt, flash, 0)?;
    is_next(
        rt,
        flash,
        11,
        &[SYNCED, wrote(0, 4), SYNCED, wrote(0, 1024)],
    );
    write_record(rt, flash, 1088, &[0xf0; 64])?;
    is_next(rt, flash, 15, &[wrote(1088, 1152), wrote(1095, 1096)]);
    // The sector before the erased one in the ring, of which the last is the one before the first.
    program(rt, flash, 5120, &[0xf0; 64])?;
    is_next(rt, flash, 17, &[SYNCED, wrote(5120, 5184)]);
    // Another sector is begun while that one may be erased still.
    program(rt, flash, 2048, &[0xf0; 64])?;
    is_next(rt, flash, 19, &[SYNCED, wrote(2048, 2112)]);
    Ok(())
}

/// One erase after another, and a program into a sector that may not be erased yet.
fn erase_more(rt: &impl Abort, flash: &mut FileFlash<Noting>) -> Result<(), FlashFault> {
    erase(rt, flash, 1)?;
    is_next(
        rt,
        flash,
        21,
        &[SYNCED, wrote(1024, 1028), SYNCED, wrote(1024, 2048)],
    );
    erase(rt, flash, 2)?;
    is_next(
        rt,
        flash,
        25,
        &[SYNCED, wrote(2048, 2052), SYNCED, wrote(2048, 3072)],
    );
    program(rt, flash, 3008, &[0xf0; 64])?;
    is_next(rt, flash, 29, &[SYNCED, wrote(3008, 3072)]);
    Ok(())
}

#[test]
fn a_store_is_synced_where_the_order_of_writes_matters(rt: HostRuntime) -> Result<(), Fail> {
    let (held, store) = new_noting(rt.alloc())?;
    let mut flash = FileFlash::on_medium(held, store);
    append_some(&rt, &mut flash)?;
    erase_some(&rt, &mut flash)?;
    erase_more(&rt, &mut flash)?;
    Ok(())
}

#[test]
fn a_store_without_a_medium_is_never_synced(rt: HostRuntime) -> Result<(), Fail> {
    let (held, store) = new_noting(rt.alloc())?;
    let mut flash = FileFlash::new(held, store);
    write_record(&rt, &mut flash, 480, &[0xf0; 64])?;
    erase(&rt, &mut flash, 0)?;
    is_next(
        &rt,
        &flash,
        0,
        &[wrote(480, 544), wrote(487, 488), wrote(0, 1024)],
    );
    Ok(())
}
