//! Flash that fails from a chosen call on.

ghost use Rattle.std.specs.Prelude.{◌≡◌, ◌+◌, ◌<◌, ◌≤◌, ◌↔◌, ◌&&◌, length, OnOk, OnErr, IsErr};
ghost use Rattle.std.specs.Prelude.{[], IsTrue, MatchResult};
ghost use Rattle.jffs_flash.specs.Device.{Reads, Programs, Erases};
ghost use Rattle.jffs_flash.specs.ReadsLeft.{TakesReads};
ghost use Rattle.jffs_flash.specs.Wear.{Wears, uncounted, no_erase, one_erase};
ghost use Rattle.jffs_flash.specs.Image.{window, programmed, erased};
ghost use Rattle.jffs_flash.specs.Fuse.{seen_device, is_blown, fuses_reads, after_pass, after_read};
ghost use Rattle.jffs_flash.specs.Fuse.{after_fault, after_failed_erase, program_left, erase_left};
ghost use Rattle.jffs_flash.specs.Fuse.{fuse_of, FailsRead};

use crate::flash::{Flash, FlashFault};
use crate::memory::MemoryFlash;
use std::marker::Model;

/// Which calls are counted, and fail once none is left.
#[derive(Clone, Copy, Debug, PartialEq, Eq)]
pub enum Fused {
    /// `program` and `erase`.
    Writes,

    /// `program`, `erase` and `read`.
    All,
}

/// What a call does that fails.
#[derive(Clone, Copy, Debug, PartialEq, Eq)]
pub enum Fail {
    /// It changes nothing.
    Nothing,

    /// It does the first half of its range, rounded down.
    Half,
}

/// Flash in memory that lets a number of fused calls pass and then fails each.
#[derive(Drop)]
pub struct FuseFlash {
    inner: MemoryFlash,
    calls_left: u64,
    fused: Fused,
    fail: Fail,
    faults: u64,
    /// How many erases are among the faults.
    failed_erases: u64,
}

impl Model for FuseFlash {
    ghost use Rattle.std.specs.Prelude.{◌≤◌};
    ghost use Rattle.jffs_flash.specs.Fuse.{Fuse};

    ghost Value = { Fuse };

    ghost view = { λ f. record {
      inner = f.inner;
      calls_left = f.calls_left;
      fused = f.fused;
      fail = f.fail;
      faults = f.faults;
      failed_erases = f.failed_erases;
    } };

    ghost invariant = { λ f. f.failed_erases ≤ f.faults };
}

impl FuseFlash {
    /// A fuse over `inner`: `calls` calls of the kind `fused` pass, and each one after them fails
    /// and does what `fail` says.
    ///
    /// None fails any more once [`faults`](Flash::faults) has its last value, 2^64 - 1. Takes no
    /// memory.
    pub fn new(inner: MemoryFlash, calls: u64, fused: Fused, fail: Fail) -> FuseFlash
        ensures { result ≡ fuse_of inner calls fused fail }
    {
        FuseFlash {
            inner,
            calls_left: calls,
            fused,
            fail,
            faults: 0,
            failed_erases: 0,
        }
    }

    /// The flash inside, with the bytes that the calls left.
    pub fn into_inner(self) -> MemoryFlash
        ensures { result ≡ self.inner }
    {
        self.inner
    }

    /// The flash inside, to be looked at: no call of the device is counted.
    pub fn inner(&self) -> &MemoryFlash
        ensures { result.now ≡ self.now.inner }
    {
        &self.inner
    }

    /// Whether a fused call fails now.
    fn is_blown(&self) -> bool
        ensures { IsTrue result ↔ IsTrue (is_blown self.now) }
    {
        self.calls_left == 0 && self.faults < u64::MAX
    }

    /// Counts a fused call that passed.
    fn count_pass(&mut self)
        ensures { self.new ≡ after_pass self.old self.old.inner.image }
    {
        self.calls_left = self.calls_left.saturating_sub(1);
    }

    /// Counts a fused call that failed.
    fn count_fault(&mut self)
        requires { IsTrue (is_blown self.old) }
        ensures { self.new ≡ after_fault self.old self.old.inner.image }
    {
        self.faults += 1;
    }

    /// A read that fails.
    fn fail_read(&mut self, at: u32, buffer: &mut [u8])
        requires inside { at + length buffer.old ≤ length self.old.inner.image }
        requires blown { IsTrue (is_blown self.old) }
        ensures { FailsRead at buffer.old buffer.new self.old self.new }
    {
        match self.fail {
            Fail::Nothing => {}
            Fail::Half => {
                let half = buffer.len() / 2;
                self.inner.copy_out(at, &mut buffer[..half]);
            }
        }
        self.count_fault();
    }

    /// A program that fails.
    fn fail_program(&mut self, at: u32, bytes: &[u8])
        requires inside { at + length bytes.now ≤ length self.old.inner.image }
        requires blown { IsTrue (is_blown self.old) }
        ensures { self.new ≡ after_fault self.old
            (program_left self.old.fail at bytes.now self.old.inner.image) }
    {
        match self.fail {
            Fail::Nothing => {}
            Fail::Half => self.inner.clear_bits(at, &bytes[..bytes.len() / 2]),
        }
        self.count_fault();
    }

    /// An erase that fails.
    fn fail_erase(&mut self, sector: u32)
        requires inside { sector < self.old.inner.sectors }
        requires blown { IsTrue (is_blown self.old) }
        ensures { self.new ≡ after_failed_erase self.old
            (erase_left self.old.fail self.old.inner.sector_size sector self.old.inner.image) }
    {
        match self.fail {
            Fail::Nothing => {}
            Fail::Half => {
                let half = self.inner.sector_size() / 2;
                self.inner.set_bits(sector, half);
            }
        }
        self.count_fault();
        self.failed_erases += 1;
    }
}

impl Flash for FuseFlash {
    ghost device = { seen_device };

    fn sectors(&self) -> u32 {
        self.inner.sectors()
    }

    fn sector_size(&self) -> u32 {
        self.inner.sector_size()
    }

    fn faults(&self) -> u64 {
        self.faults
    }

    /// Fails exactly where reads are fused and the fuse is blown. The buffer then holds what the
    /// fuse's failure left.
    fn read(&mut self, at: u32, buffer: &mut [u8]) -> Result<(), FlashFault>
        requires { at + length buffer.old ≤ length self.old.inner.image }
        ensures fails { IsErr result ↔ IsTrue (fuses_reads self.old.fused && is_blown self.old) }
        ensures done { MatchResult result (λ _. self.new ≡ after_read self.old.fused self.old)
            (λ _. FailsRead at buffer.old buffer.new self.old self.new) }

        // What each device promises.
        ensures device { Reads result (seen_device self.old) (seen_device self.new) }
        ensures filled { OnOk result
            (buffer.new ≡ window at (length buffer.old) self.old.inner.image) }
        ensures left { TakesReads at (length buffer.old) result [] [] }
        ensures unworn { uncounted ≡ uncounted }
    {
        if self.fused == Fused::Writes {
            self.inner.copy_out(at, buffer);
            return Ok(());
        }
        if self.is_blown() {
            self.fail_read(at, buffer);
            return Err(FlashFault);
        }
        self.inner.copy_out(at, buffer);
        self.count_pass();
        Ok(())
    }

    /// Fails exactly where the fuse is blown, and then leaves what the fuse's failure says.
    fn program(&mut self, at: u32, bytes: &[u8]) -> Result<(), FlashFault>
        requires { at + length bytes.now ≤ length self.old.inner.image }
        ensures fails { IsErr result ↔ IsTrue (is_blown self.old) }
        ensures passed { OnOk result
            (self.new ≡ after_pass self.old (programmed at bytes.now self.old.inner.image)) }
        ensures failed { OnErr result
            (self.new ≡ after_fault self.old
            (program_left self.old.fail at bytes.now self.old.inner.image)) }

        // What each device promises.
        ensures device { Programs at bytes.now result (seen_device self.old)
            (seen_device self.new) }
        ensures worn { Wears no_erase (length bytes.now) uncounted uncounted }
    {
        if self.is_blown() {
            self.fail_program(at, bytes);
            return Err(FlashFault);
        }
        self.inner.clear_bits(at, bytes);
        self.count_pass();
        Ok(())
    }

    /// Fails exactly where the fuse is blown, and then leaves what the fuse's failure says.
    fn erase(&mut self, sector: u32) -> Result<(), FlashFault>
        requires { sector < self.old.inner.sectors }
        ensures fails { IsErr result ↔ IsTrue (is_blown self.old) }
        ensures passed { OnOk result
            (self.new ≡ after_pass self.old
            (erased self.old.inner.sector_size sector self.old.inner.image)) }
        ensures failed { OnErr result
            (self.new ≡ after_failed_erase self.old
            (erase_left self.old.fail self.old.inner.sector_size sector self.old.inner.image)) }

        // What each device promises.
        ensures device { Erases sector result (seen_device self.old) (seen_device self.new) }
        ensures worn { Wears (one_erase sector) 0 uncounted uncounted }
    {
        let size = self.inner.sector_size();
        if self.is_blown() {
            self.fail_erase(sector);
            return Err(FlashFault);
        }
        self.inner.set_bits(sector, size);
        self.count_pass();
        Ok(())
    }
}
