//! Flash of which each byte can be read only so often.

ghost use Rattle.std.specs.Prelude.{◌≡◌, ◌+◌, ◌≤◌, ◌↔◌, length, IfOk, IsTrue};
ghost use Rattle.jffs_flash.specs.Limited.{limited_to, limited_device};
ghost use Rattle.jffs_flash.specs.ReadsLeft.{HasSpent, TakesOne};

use crate::flash::{Flash, FlashFault};
use crate::memory::MemoryFlash;
use std::alloc::{AllocError, Global};
use std::marker::Model;

/// Flash in memory of which each byte can be read a number of times. A read fails, and changes
/// nothing, once some byte of its range was read that often.
#[derive(Drop)]
pub struct LimitedFlash {
    inner: MemoryFlash,
    /// How often each byte can still be read.
    left: Vec<u8>,
    faults: u64,
}

impl Model for LimitedFlash {
    ghost use Rattle.std.specs.Prelude.{◌≡◌, length, vec_len};
    ghost use Rattle.jffs_flash.specs.Limited.{Limited};

    ghost Value = { Limited };

    ghost view = { λ f. record { inner = f.inner; left = f.left.items; faults = f.faults } };

    ghost invariant = { λ f. vec_len f.left ≡ length f.inner.image };
}

impl LimitedFlash {
    /// Flash with the bytes of `inner`, of which each can be read `reads` times.
    ///
    /// No read fails any more once [`faults`](Flash::faults) has its last value, 2^64 - 1.
    pub fn new(alloc: Global, inner: MemoryFlash, reads: u8) -> Result<LimitedFlash, AllocError>
        ensures { IfOk result (λ f. f ≡ limited_to reads inner) }
    {
        let left = vec![in alloc; reads; inner.bytes().len()]?;
        Ok(LimitedFlash {
            inner,
            left,
            faults: 0,
        })
    }
}

/// Whether some byte of the range can't be read once more.
fn is_spent(left: &[u8], at: usize, len: usize) -> bool
    requires { at + len ≤ length left.now }
    ensures { IsTrue result ↔ HasSpent left.now at len }
{
    for i in at..at + len {
        if left[i] == 0 {
            return true;
        }
    }
    false
}

/// Counts a read of the range.
fn take_one(left: &mut [u8], at: usize, len: usize)
    requires { at + len ≤ length left.old }
    ensures taken { TakesOne at len left.old left.new }
    ensures length { length left.new ≡ length left.old }
{
    for i in at..at + len {
        left[i] = left[i].saturating_sub(1);
    }
}

impl Flash for LimitedFlash {
    ghost device = { limited_device };

    ghost reads_left = { λ f. f.left };

    fn sectors(&self) -> u32 {
        self.inner.sectors()
    }

    fn sector_size(&self) -> u32 {
        self.inner.sector_size()
    }

    fn faults(&self) -> u64 {
        self.faults
    }

    fn read(&mut self, at: u32, buffer: &mut [u8]) -> Result<(), FlashFault> {
        let from = at as usize;
        if self.faults < u64::MAX && is_spent(&self.left, from, buffer.len()) {
            self.faults += 1;
            return Err(FlashFault);
        }
        take_one(&mut self.left, from, buffer.len());
        self.inner.copy_out(at, buffer);
        Ok(())
    }

    fn program(&mut self, at: u32, bytes: &[u8]) -> Result<(), FlashFault> {
        self.inner.clear_bits(at, bytes);
        Ok(())
    }

    fn erase(&mut self, sector: u32) -> Result<(), FlashFault> {
        let len = self.inner.sector_size();
        self.inner.set_bits(sector, len);
        Ok(())
    }
}
