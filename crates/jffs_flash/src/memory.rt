//! Flash in memory, which never fails.

ghost use Rattle.std.specs.Prelude.{◌≡◌, ◌+◌, ◌*◌, ◌≤◌, ◌<◌, ◌↔◌, false, length, vec_len};
ghost use Rattle.std.specs.Prelude.{replicate, IsTrue, IfOk, OnOk, IsErrOf};
ghost use Rattle.jffs_flash.specs.Sizes.{is_geometry as allows_geometry};
ghost use Rattle.jffs_flash.specs.Image.{window, replaced, programmed, both_bits, erased_byte};
ghost use Rattle.jffs_flash.specs.Device.{IsWhole, with_image, device_of, erased_device};

use crate::flash::{ERASED_BYTE, Flash, FlashFault};
use crate::sizes::is_geometry;
use std::alloc::Global;
use std::marker::Model;
use thiserror::Error;

/// Why no flash in memory was made, in the order in which the reasons are tried.
#[derive(Clone, Copy, Debug, PartialEq, Eq, Error)]
pub enum FlashNew {
    /// A volume may not have these sizes.
    #[error("a volume may not have so many sectors of this size")]
    Geometry,

    /// Allocation failed.
    #[error("out of memory")]
    Memory,
}

/// Flash whose bytes stand in memory. Its calls never fail.
#[derive(Drop)]
pub struct MemoryFlash {
    sectors: u32,
    sector_size: u32,
    bytes: Vec<u8>,
}

impl Model for MemoryFlash {
    ghost use Rattle.std.specs.Prelude.{◌≡◌, ◌*◌, vec_len};
    ghost use Rattle.jffs_flash.specs.Device.{Device, device_of};

    ghost Value = { Device };

    ghost view = { λ f. device_of f.sectors f.sector_size f.bytes.items };

    ghost invariant = { λ f. vec_len f.bytes ≡ f.sectors * f.sector_size };
}

impl MemoryFlash {
    /// Erased flash of `sectors` sectors of `sector_size` bytes each.
    ///
    /// `Geometry` where a volume may not have these sizes (see
    /// [`is_geometry`](crate::is_geometry)); `Memory` if allocation failed.
    pub fn new(alloc: Global, sectors: u32, sector_size: u32) -> Result<MemoryFlash, FlashNew>
        ensures erased { IfOk result (λ flash. flash ≡ erased_device sectors sector_size) }
        ensures allowed { OnOk result (IsTrue (allows_geometry sectors sector_size)) }
        ensures geometry { IsErrOf result FlashNew.Geometry
            ↔ (allows_geometry sectors sector_size ≡ false) }
    {
        if !is_geometry(sectors, sector_size) {
            return Err(FlashNew::Geometry);
        }
        let length = sectors as usize * sector_size as usize;
        match vec![in alloc; ERASED_BYTE; length] {
            Ok(bytes) => Ok(MemoryFlash::from_bytes(sectors, sector_size, bytes)),
            Err(_) => Err(FlashNew::Memory),
        }
    }

    /// Flash that holds these bytes, the sectors one after another. Any sizes will do, in bytes and
    /// sectors. Precondition: there are `sectors` times `sector_size` bytes. Takes no memory.
    pub fn from_bytes(sectors: u32, sector_size: u32, bytes: Vec<u8>) -> MemoryFlash
        requires { vec_len bytes ≡ sectors * sector_size }
        ensures { result ≡ device_of sectors sector_size bytes.items }
    {
        MemoryFlash {
            sectors,
            sector_size,
            bytes,
        }
    }

    /// The image: all bytes, the sectors one after another.
    pub fn bytes(&self) -> &[u8]
        ensures { result.now ≡ self.now.image }
    {
        &self.bytes
    }

    /// Fills the buffer with the bytes from `at` on.
    pub(crate) fn copy_out(&self, at: u32, buffer: &mut [u8])
        requires { at + length buffer.old ≤ length self.now.image }
        ensures { buffer.new ≡ window at (length buffer.old) self.now.image }
    {
        let from = at as usize;
        let end = from + buffer.len();
        buffer.copy_from_slice(&self.bytes[from..end]);
    }

    /// Turns to zero the bits of the range that are zero in these bytes.
    pub(crate) fn clear_bits(&mut self, at: u32, bytes: &[u8])
        requires { at + length bytes.now ≤ length self.old.image }
        ensures { self.new ≡ with_image self.old (programmed at bytes.now self.old.image) }
    {
        let from = at as usize;
        let end = from + bytes.len();
        keep_both_bits(&mut self.bytes[from..end], bytes);
    }

    /// Turns to ones the first `len` bytes of a sector.
    pub(crate) fn set_bits(&mut self, sector: u32, len: u32)
        requires inside { sector < self.old.sectors }
        requires short { len ≤ self.old.sector_size }
        ensures { self.new ≡ with_image self.old
            (replaced (sector * self.old.sector_size) (replicate len erased_byte) self.old.image) }
    {
        let from = sector as usize * self.sector_size as usize;
        let end = from + len as usize;
        self.bytes[from..end].fill(ERASED_BYTE);
    }
}

/// Each byte keeps the bits that the other has too.
fn keep_both_bits(old: &mut [u8], bytes: &[u8])
    requires { length old.old ≡ length bytes.now }
    ensures { old.new ≡ both_bits old.old bytes.now }
{
    for i in 0..bytes.len() {
        old[i] &= bytes[i];
    }
}

impl Flash for MemoryFlash {
    ghost device = { λ f. device_of f.sectors f.sector_size f.image };

    fn sectors(&self) -> u32 {
        self.sectors
    }

    fn sector_size(&self) -> u32
        ensures size { result ≡ self.now.sector_size }
        ensures whole { IsWhole self.now }
    {
        self.sector_size
    }

    fn faults(&self) -> u64 {
        0
    }

    fn read(&mut self, at: u32, buffer: &mut [u8]) -> Result<(), FlashFault> {
        self.copy_out(at, buffer);
        Ok(())
    }

    fn program(&mut self, at: u32, bytes: &[u8]) -> Result<(), FlashFault> {
        self.clear_bits(at, bytes);
        Ok(())
    }

    fn erase(&mut self, sector: u32) -> Result<(), FlashFault> {
        let len = self.sector_size;
        self.set_bits(sector, len);
        Ok(())
    }
}
