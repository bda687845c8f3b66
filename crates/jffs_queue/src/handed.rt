//! Queued flash behind a `&`.

ghost use Rattle.std.specs.Prelude.{◌≡◌, length};
ghost use Rattle.jffs_queue.specs.Queue.{seen_device};

use crate::call::Call;
use crate::queue::QueuedFlash;
use jffs_flash::{Flash, FlashFault, MemoryFlash};
use std::alloc::Global;
use std::cell::Cell;

/// A [`QueuedFlash`] that takes note behind a `&` of what has been carried out.
///
/// Whoever has lent a device to a core can only look at it. So how many calls have been carried out
/// stands in a cell, and they leave the queue when the device is called next.
#[derive(Drop)]
pub struct HandedFlash {
    queue: QueuedFlash,
    done: Cell<usize>,
}

impl HandedFlash {
    /// A device whose medium holds the bytes of `medium`. Nothing waits.
    pub fn new(alloc: Global, medium: MemoryFlash) -> HandedFlash
        ensures { seen_device result.queue ≡ medium }
    {
        HandedFlash {
            queue: QueuedFlash::new(alloc, medium),
            done: Cell::new(0),
        }
    }

    /// The first call that has not been carried out; `None` where all have been.
    pub fn next(&self) -> Option<&Call> {
        self.queue.calls().get(self.done.get())
    }

    /// How many calls have not been carried out.
    pub fn left(&self) -> usize {
        self.queue.calls().len().saturating_sub(self.done.get())
    }

    /// How many calls are kept: those that have not been carried out, and those that have since the
    /// device was called last.
    pub fn kept(&self) -> usize
        ensures { result ≡ length self.now.queue.calls }
    {
        self.queue.calls().len()
    }

    /// Takes note that the call that [`next`](HandedFlash::next) gives has been carried out.
    pub fn carried_out(&self) {
        if self.left() > 0 {
            self.done.set(self.done.get().saturating_add(1));
        }
    }

    /// Lets the calls go that have been carried out.
    fn let_go(&mut self)
        ensures { seen_device self.new.queue ≡ seen_device self.old.queue }
    {
        self.queue.first_carried_out(self.done.replace(0));
    }
}

impl Flash for HandedFlash {
    ghost device = { λ f. seen_device f.queue };

    fn sectors(&self) -> u32 {
        self.queue.sectors()
    }

    fn sector_size(&self) -> u32 {
        self.queue.sector_size()
    }

    fn faults(&self) -> u64 {
        self.queue.faults()
    }

    fn read(&mut self, at: u32, buffer: &mut [u8]) -> Result<(), FlashFault> {
        self.let_go();
        self.queue.read(at, buffer)
    }

    fn program(&mut self, at: u32, bytes: &[u8]) -> Result<(), FlashFault> {
        self.let_go();
        self.queue.program(at, bytes)
    }

    fn erase(&mut self, sector: u32) -> Result<(), FlashFault> {
        self.let_go();
        self.queue.erase(sector)
    }
}
