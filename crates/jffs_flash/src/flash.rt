//! What a flash device promises.

ghost use Rattle.std.specs.Prelude.{◌≡◌, ℕ, ◌+◌, ◌<◌, ◌≤◌, List, [], length, OnOk};
ghost use Rattle.jffs_flash.specs.Image.{window};
ghost use Rattle.jffs_flash.specs.Device.{Device, IsWhole, Reads, Programs, Erases};
ghost use Rattle.jffs_flash.specs.ReadsLeft.{TakesReads};
ghost use Rattle.jffs_flash.specs.Wear.{Wear, Wears, uncounted, no_erase, one_erase};

use thiserror::Error;

/// A byte after an erase: all its bits are ones.
pub const ERASED_BYTE: u8 = 0xff;

/// A call of the device failed, and [`Flash::faults`] has risen.
#[derive(Clone, Copy, Debug, PartialEq, Eq, Error)]
#[error("a call of the flash device failed")]
pub struct FlashFault;

/// A flash device: sectors of one size, one after another.
///
/// Its image is the list of all its bytes; `at` is an index into it, in bytes, and a range may
/// cross sectors. The number of sectors and their size never change. A call fails exactly where
/// [`faults`](Flash::faults) has risen, and its one error is `FlashFault`.
pub trait Flash {
    // The device as its callers see it.
    ghost device: { Self → Device };

    // How often the byte at each index can still be read before a read of it may fail: not once
    // where the list is too short. A device that promises nothing of the kind has an empty one.
    ghost reads_left: { Self → List ℕ } = { λ _. [] };

    // What the device counts of the erases and programs that it was called for. A device that
    // counts nothing says 0 for ever.
    ghost wear: { Self → Wear } = { λ _. uncounted };

    /// How many sectors the device has. The image is as long as all of them together.
    fn sectors(&self) -> u32
        ensures count { result ≡ (device self.now).sectors }
        ensures whole { IsWhole (device self.now) };

    /// How long each sector is, in bytes.
    fn sector_size(&self) -> u32
        ensures { result ≡ (device self.now).sector_size };

    /// How many calls have failed: it rises with each that does, and with no other.
    fn faults(&self) -> u64
        ensures { result ≡ (device self.now).faults };

    /// Fills the buffer with the bytes from `at` on. Precondition: the range lies inside the
    /// device.
    ///
    /// The image stays as it is, after a failure too; the buffer may then hold any bytes. Each byte
    /// of the range is read once. Where the device says how often each can still be read, a read
    /// fails only once some byte of the range has none left.
    fn read(&mut self, at: u32, buffer: &mut [u8]) -> Result<(), FlashFault>
        requires { at + length buffer.old ≤ length (device self.old).image }
        ensures device { Reads result (device self.old) (device self.new) }
        ensures filled { OnOk result
            (buffer.new ≡ window at (length buffer.old) (device self.old).image) }
        ensures left { TakesReads at (length buffer.old) result (reads_left self.old)
            (reads_left self.new) }
        ensures unworn { wear self.new ≡ wear self.old };

    /// Programs the bytes from `at` on: each byte `old` of the range becomes `old & new`.
    /// Precondition: the range lies inside the device.
    ///
    /// After a failure some bits of the range may not be cleared yet: none that was zero is one,
    /// and none that should stay one is zero. Outside the range nothing changes, whether the call
    /// failed or not. A device that counts what is programmed counts these bytes at most. No byte
    /// is read.
    fn program(&mut self, at: u32, bytes: &[u8]) -> Result<(), FlashFault>
        requires { at + length bytes.now ≤ length (device self.old).image }
        ensures device { Programs at bytes.now result (device self.old) (device self.new) }
        ensures worn { Wears no_erase (length bytes.now) (wear self.old) (wear self.new) }
        ensures unread { reads_left self.new ≡ reads_left self.old };

    /// Erases a sector, counted from 0: each of its bytes becomes [`ERASED_BYTE`]. Precondition:
    /// the device has that sector.
    ///
    /// After a failure that sector may hold any bytes. The rest of the image is the same either
    /// way. A device that counts its erases counts one of this sector at most. No byte is read.
    fn erase(&mut self, sector: u32) -> Result<(), FlashFault>
        requires { sector < (device self.old).sectors }
        ensures device { Erases sector result (device self.old) (device self.new) }
        ensures worn { Wears (one_erase sector) 0 (wear self.old) (wear self.new) }
        ensures unread { reads_left self.new ≡ reads_left self.old };
}
