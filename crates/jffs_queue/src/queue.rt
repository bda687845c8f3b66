//! The device.

ghost use Rattle.std.specs.Prelude.{◌≡◌, ◌+◌, ◌*◌, ◌<◌, ◌≤◌, false, List, [], ◌∷◌, ◌++◌, length};
ghost use Rattle.std.specs.Prelude.{drop};
ghost use Rattle.std.specs.Prelude.{OnOk, OnErr, IfOk, IsOk, MatchOption};
ghost use Rattle.jffs_flash.specs.Image.{window, programmed, erased};
ghost use Rattle.jffs_flash.specs.Device.{Reads, Programs, Erases};
ghost use Rattle.jffs_flash.specs.ReadsLeft.{TakesReads};
ghost use Rattle.jffs_flash.specs.Wear.{Wears, uncounted, no_erase, one_erase};
ghost use Rattle.jffs_queue.specs.declared.call.Call.{Call};
ghost use Rattle.jffs_queue.specs.Queue.{queued_of, seen_device, with_call, IsInside};
ghost use Rattle.jffs_queue.specs.Queue.{IsProgram, Adds, AddsErase, IsDoom, can_doom};

use crate::call::Call;
use crate::overlay::lay_over;
use jffs_flash::{DOOM_LEN, Flash, FlashFault, MemoryFlash};
use std::alloc::{AllocError, Global};
use std::collections::VecDeque;
use std::marker::Model;

/// Flash of which the bytes stand in memory as the medium has them, and the calls that are to
/// change it.
///
/// A call fails only where memory is wanting for it, and then changes nothing. No call fails any
/// more after 2<sup>64</sup> - 1 have failed.
#[derive(Drop)]
pub struct QueuedFlash {
    alloc: Global,
    medium: MemoryFlash,
    calls: VecDeque<Call>,
    faults: u64,
    failed_erases: u64,
}

impl Model for QueuedFlash {
    ghost use Rattle.jffs_queue.specs.Queue.{Queued, IsQueue};

    ghost Value = { Queued };

    ghost view = { λ f. record {
      sectors = f.medium.sectors;
      sector_size = f.medium.sector_size;
      medium = f.medium.image;
      calls = f.calls.items;
      faults = f.faults;
      failed_erases = f.failed_erases;
    } };

    ghost invariant = { λ f.
        IsQueue (record {
          sectors = f.medium.sectors;
          sector_size = f.medium.sector_size;
          medium = f.medium.image;
          calls = f.calls.items;
          faults = f.faults;
          failed_erases = f.failed_erases;
        }) };
}

impl QueuedFlash {
    /// A device whose medium holds the bytes of `medium`. Nothing waits.
    pub fn new(alloc: Global, medium: MemoryFlash) -> QueuedFlash
        ensures { result ≡ queued_of medium.sectors medium.sector_size medium.image }
    {
        // Brings in that the medium has the bytes of its sectors.
        let _sectors = medium.sectors();
        QueuedFlash {
            alloc,
            medium,
            calls: VecDeque::new(alloc),
            faults: 0,
            failed_erases: 0,
        }
    }

    /// The calls that wait, the first to be carried out first.
    pub fn calls(&self) -> &VecDeque<Call>
        ensures { result.now.items ≡ self.now.calls }
    {
        &self.calls
    }

    /// Takes note that the first call that waits, if one does, has been carried out. What callers
    /// see of the device stays as it is.
    pub fn carried_out(&mut self)
        ensures first { (call : Call) → (later : List Call) → self.old.calls ≡ call ∷ later
            → self.new ≡ with_call (record self.old { calls = later }) call }
        ensures none { self.old.calls ≡ [] → self.new ≡ self.old }
        ensures seen { seen_device self.new ≡ seen_device self.old }
    {
        if let Some(call) = self.calls.pop_front() {
            self.carry_out(&call);
        }
    }

    /// Carries out a call on the bytes that the medium has.
    fn carry_out(&mut self, call: &Call)
        requires { IsInside self.old.sectors self.old.sector_size call.now }
        ensures { self.new ≡ with_call self.old call.now }
    {
        match call {
            Call::Erase { sector } => self.erase_medium(*sector),
            Call::Program { at, bytes } => self.program_medium(*at, bytes),
        }
    }

    fn program_medium(&mut self, at: u32, bytes: &[u8])
        requires { at + length bytes.now ≤ self.old.sectors * self.old.sector_size }
        ensures { self.new
            ≡ record self.old { medium = programmed at bytes.now self.old.medium } }
    {
        let _never_fails = self.medium.program(at, bytes);
    }

    fn erase_medium(&mut self, sector: u32)
        requires { sector < self.old.sectors }
        ensures { self.new ≡ record self.old
            { medium = erased self.old.sector_size sector self.old.medium } }
    {
        let _never_fails = self.medium.erase(sector);
    }

    /// Takes note that so many calls, the first that wait, or all, have been carried out. None of
    /// them is kept.
    pub(crate) fn first_carried_out(&mut self, count: usize)
        ensures kept { self.new.calls ≡ drop count self.old.calls }
        ensures seen { seen_device self.new ≡ seen_device self.old }
    {
        for _ in 0..count {
            self.carried_out();
        }
    }

    /// Carries out all that waits.
    fn carry_out_all(&mut self)
        ensures none { self.new.calls ≡ [] }
        ensures seen { seen_device self.new ≡ seen_device self.old }
    {
        let count = self.calls.len();
        self.first_carried_out(count);
    }

    /// Has one more program wait.
    fn add_program(&mut self, at: u32, bytes: &[u8]) -> Result<(), AllocError>
        requires { at + length bytes.now ≤ self.old.sectors * self.old.sector_size }
        ensures added { OnOk result
            ((call : Call) × IsProgram at bytes.now call × Adds call self.old self.new) }
        ensures refused { OnErr result (self.new ≡ self.old) }
    {
        let bytes = bytes.to_vec(self.alloc)?;
        self.calls.push_back(Call::Program { at, bytes })?;
        Ok(())
    }

    /// Has one more erase wait, and before it, where it can be, the doom of its sector.
    fn add_erase(&mut self, sector: u32) -> Result<(), AllocError>
        requires { sector < self.old.sectors }
        ensures added { OnOk result (AddsErase sector self.old self.new) }
        ensures refused { OnErr result (self.new ≡ self.old) }
    {
        match self.doom_of(sector)? {
            Some(doom) => self.add_both(doom, Call::Erase { sector }),
            None => {
                self.calls.push_back(Call::Erase { sector })?;
                Ok(())
            }
        }
    }

    /// The program that clears the first bytes of a sector; `None` where it is shorter, or stands
    /// where no `u32` tells.
    fn doom_of(&self, sector: u32) -> Result<Option<Call>, AllocError>
        requires { sector < self.now.sectors }
        ensures { IfOk result (λ doom. MatchOption doom
            (can_doom sector self.now.sector_size ≡ false)
            (λ call. IsDoom sector self.now.sector_size call)) }
    {
        let size = self.medium.sector_size();
        if (size as usize) < DOOM_LEN {
            return Ok(None);
        }
        let Some(at) = sector.checked_mul(size) else {
            return Ok(None);
        };
        let bytes = [0; DOOM_LEN].to_vec(self.alloc)?;
        Ok(Some(Call::Program { at, bytes }))
    }

    /// Has two more calls wait, or none.
    fn add_both(&mut self, first: Call, second: Call) -> Result<(), AllocError>
        requires first { IsInside self.old.sectors self.old.sector_size first }
        requires second { IsInside self.old.sectors self.old.sector_size second }
        ensures added { OnOk result
            (self.new ≡ record self.old { calls = self.old.calls ++ first ∷ second ∷ [] }) }
        ensures refused { OnErr result (self.new ≡ self.old) }
    {
        self.calls.reserve(2)?;
        self.calls.push_back_reserved(first);
        self.calls.push_back_reserved(second);
        Ok(())
    }
}

impl Flash for QueuedFlash {
    ghost device = { seen_device };

    fn sectors(&self) -> u32 {
        self.medium.sectors()
    }

    fn sector_size(&self) -> u32 {
        self.medium.sector_size()
    }

    fn faults(&self) -> u64 {
        self.faults
    }

    /// Never fails, and changes nothing. It takes a step for each call that waits, besides those
    /// for the bytes that it fills.
    fn read(&mut self, at: u32, buffer: &mut [u8]) -> Result<(), FlashFault>
        requires { at + length buffer.old ≤ length (seen_device self.old).image }
        ensures passes { IsOk result × (self.new ≡ self.old) }

        // What each device promises.
        ensures device { Reads result (seen_device self.old) (seen_device self.new) }
        ensures filled { OnOk result
            (buffer.new ≡ window at (length buffer.old) (seen_device self.old).image) }
        ensures left { TakesReads at (length buffer.old) result [] [] }
        ensures unworn { uncounted ≡ uncounted }
    {
        self.medium.read(at, buffer)?;
        let size = self.medium.sector_size();
        'calls: for call in self.calls.iter() {
            lay_over(call, size, at, buffer);
        }
        Ok(())
    }

    /// One more program waits, of these bytes; the medium is as it was. Fails where memory is
    /// wanting, and then nothing waits for it.
    fn program(&mut self, at: u32, bytes: &[u8]) -> Result<(), FlashFault>
        requires { at + length bytes.now ≤ length (seen_device self.old).image }
        ensures waits { OnOk result (self.old.faults < u64.MAX
            → (call : Call) × IsProgram at bytes.now call × Adds call self.old self.new) }
        ensures refused { OnErr result
            (self.new ≡ record self.old { faults = self.old.faults + 1 }) }

        // What each device promises.
        ensures device { Programs at bytes.now result (seen_device self.old)
            (seen_device self.new) }
        ensures worn { Wears no_erase (length bytes.now) uncounted uncounted }
    {
        if self.faults == u64::MAX {
            self.carry_out_all();
            self.program_medium(at, bytes);
            return Ok(());
        }
        match self.add_program(at, bytes) {
            Ok(()) => Ok(()),
            Err(_) => {
                self.faults += 1;
                Err(FlashFault)
            }
        }
    }

    /// One more erase waits, and before it a program that clears the first
    /// [`DOOM_LEN`] bytes of its sector, if it has so many; the medium is as it was. Fails where
    /// memory is wanting, and then nothing waits for it.
    fn erase(&mut self, sector: u32) -> Result<(), FlashFault>
        requires { sector < self.old.sectors }
        ensures waits { OnOk result (self.old.faults < u64.MAX
            → AddsErase sector self.old self.new) }
        ensures refused { OnErr result
            (self.new ≡ record self.old {
              faults = self.old.faults + 1;
              failed_erases = self.old.failed_erases + 1;
            }) }

        // What each device promises.
        ensures device { Erases sector result (seen_device self.old) (seen_device self.new) }
        ensures worn { Wears (one_erase sector) 0 uncounted uncounted }
    {
        if self.faults == u64::MAX {
            self.carry_out_all();
            self.erase_medium(sector);
            return Ok(());
        }
        match self.add_erase(sector) {
            Ok(()) => Ok(()),
            Err(_) => {
                self.faults += 1;
                self.failed_erases += 1;
                Err(FlashFault)
            }
        }
    }
}
