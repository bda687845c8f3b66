//! Flash whose bytes stand in memory and in a store.

ghost use Rattle.std.specs.Prelude.{◌≡◌, ◌+◌, ◌*◌, ◌<◌, ◌≤◌, length, vec_len, OnOk, OnErr};
ghost use Rattle.std.specs.Prelude.{IsErr, IsTrue, ◌↔◌, ℕ, List, All, true, false};
ghost use Rattle.jffs_flash.specs.Image.{window, programmed, erased, IsHalfProgrammed};
ghost use Rattle.jffs_flash.specs.Image.{IsHalfErased};
ghost use Rattle.jffs_flash.specs.Device.{Device, with_image, device_of, Reads, Programs, Erases};
ghost use Rattle.jffs_flash.specs.Wear.{Wears, uncounted, no_erase, one_erase};
ghost use Rattle.jffs_file.specs.Kept.{seen_device, IsKept, IsLeftAs};
ghost use Rattle.jffs_file.specs.Stored.{Overwrites, Rewrites, ChangesOnly};
ghost use Rattle.jffs_file.specs.Stored.{Notes, NotesCall, NotesDoom, wrote};
ghost use Rattle.jffs_file.specs.declared.span.Span.{Span};
ghost use Rattle.jffs_file.specs.declared.store.StoreEvent.TheVariants.{Synced};
ghost use Rattle.jffs_file.specs.Order.{MayProgram};
ghost use Rattle.jffs_file.specs.Flying.{IsKnown, WasInOrder, IsInOrder, KeepsOrder};
ghost use Rattle.jffs_file.specs.Flying.{no_flight, any_flight};

use crate::flight::InFlight;
use crate::span::Span;
use crate::store::{FileStore, Store, StoreFault};
use jffs_flash::{DOOM_LEN, Flash, FlashFault, MemoryFlash};
use std::fs::OpenFile;
use std::io::{Seek, Write};

/// Flash whose bytes stand in memory and in a store, which is written before a call returns.
///
/// A store [on a medium](FileFlash::on_medium) is synced where the order of what is written
/// matters, should the host lose its power and each block of the store that was written since the
/// last sync be there or not: a program that lies over another in flight, as a gate over its
/// record, comes after a sync, unless both are in one block and nothing is in flight in another
/// sector; and an erase comes after one, and is doomed first: zeros are written over the first four
/// bytes of its sector, and synced.
///
/// A write that fails is a fault of the device. From then on each `program` and `erase` fails, and
/// the store is written no more: so it stays as the failed call left it, which is what the device
/// may hold after such a call, and is known once it is opened anew. Reads never fail, and show the
/// bytes in memory. No call fails any more after
/// 2<sup>64</sup> - 1 have failed.
#[derive(Drop)]
pub struct FileFlash<S: Store> {
    held: MemoryFlash,
    store: S,
    faults: u64,
    /// How many erases are among the faults, once there are any.
    failed_erases: u64,
    /// Whether the store is synced, and the order of its writes kept.
    on_medium: bool,
    flight: InFlight,
}

impl<S: Store> FileFlash<S> {
    /// A device with the bytes of `held`, over a store that has no medium below it, as memory: it is
    /// never synced.
    ///
    /// *Precondition:* the store has the same bytes, from its first one on. Without it the device
    /// works as well, but the store isn't what it shows.
    pub fn new(held: MemoryFlash, store: S) -> FileFlash<S>
        ensures { result ≡ record {
          held = held;
          store = store;
          faults = 0;
          failed_erases = 0;
          on_medium = false;
          flight = any_flight;
        } }
    {
        FileFlash {
            held,
            store,
            faults: 0,
            failed_erases: 0,
            on_medium: false,
            // A program that was killed may have written what isn't on the medium yet.
            flight: InFlight::unknown(),
        }
    }

    /// A device with the bytes of `held`, over a store with a medium that a loss of power may leave
    /// behind: it is synced where the order of what is written matters.
    ///
    /// *Precondition:* as that of [`new`](FileFlash::new).
    pub fn on_medium(held: MemoryFlash, store: S) -> FileFlash<S>
        ensures made { result ≡ record {
          held = held;
          store = store;
          faults = 0;
          failed_erases = 0;
          on_medium = true;
          flight = any_flight;
        } }
        ensures ordered { WasInOrder held (S.past store)
            → IsInOrder held (S.past result.store) result.flight }
    {
        let mut flash = FileFlash::new(held, store);
        flash.on_medium = true;
        flash
    }

    /// The image that stands in memory.
    pub fn bytes(&self) -> &[u8]
        ensures { result.now ≡ self.now.held.image }
    {
        self.held.bytes()
    }

    /// The store, to be looked at.
    pub fn store(&self) -> &S
        ensures { result.now ≡ self.now.store }
    {
        &self.store
    }

    /// Whether a call fails because an earlier one has.
    fn has_stopped(&self) -> bool
        ensures { IsTrue result ↔ ((0 < self.now.faults) × (self.now.faults < u64.MAX)) }
    {
        0 < self.faults && self.faults < u64::MAX
    }

    /// Whether an erase fails because an earlier call has. Erases that failed are among the faults,
    /// so they are never more: the second test is for the proof.
    fn erases_have_stopped(&self) -> bool
        ensures { IsTrue result ↔ ((0 < self.now.faults) × (self.now.faults < u64.MAX)
            × (self.now.failed_erases < u64.MAX)) }
    {
        self.has_stopped() && self.failed_erases < u64::MAX
    }

    /// Whether the store is written: no more once a call has failed.
    fn is_written(&self) -> bool
        ensures { IsTrue result ↔ (self.now.faults ≡ 0) }
    {
        self.faults == 0
    }

    /// The range of so many bytes from `at` on.
    fn span(&self, at: u64, len: usize) -> Span
        requires { at + len ≤ length self.now.held.image }
        ensures { result ≡ record { from = at; to = at + len } }
    {
        // Brings in that the sum fits.
        let _whole = self.held.bytes().len();
        Span {
            from: at,
            to: at + len as u64,
        }
    }

    /// Writes a range of the bytes in memory over those of the store.
    fn write_through(&mut self, at: u64, len: usize) -> Result<(), StoreFault>
        requires { at + len ≤ length self.old.held.image }
        ensures rest { self.new ≡ record self.old { store = self.new.store } }
        ensures written { Overwrites at (window at len self.old.held.image) result
            (S.stored self.old.store) (S.stored self.new.store) }
        ensures noted { NotesCall (wrote at len) result (S.past self.old.store)
            (S.past self.new.store) }
    {
        let from = at as usize;
        self.store
            .overwrite(at, &self.held.bytes()[from..from + len])
    }

    /// Syncs the store, after which nothing is in flight.
    fn settle(&mut self) -> Result<(), StoreFault>
        ensures rest { self.new
            ≡ record self.old { store = self.new.store; flight = self.new.flight } }
        ensures same { S.stored self.new.store ≡ S.stored self.old.store }
        ensures noted { OnOk result (Notes Synced (S.past self.old.store) (S.past self.new.store)) }
        ensures none { OnOk result (self.new.flight ≡ no_flight) }
        ensures failed { OnErr result ((S.past self.new.store ≡ S.past self.old.store)
            × (self.new.flight ≡ self.old.flight)) }
    {
        self.store.sync()?;
        self.flight = InFlight::none();
        Ok(())
    }

    /// Syncs the store where that has to come before a program of these bytes, or costs nothing.
    fn make_way(&mut self, write: Span) -> Result<(), StoreFault>
        ensures rest { self.new
            ≡ record self.old { store = self.new.store; flight = self.new.flight } }
        ensures same { S.stored self.new.store ≡ S.stored self.old.store }
        ensures ordered { self.old.on_medium ≡ true
            → KeepsOrder self.old.held (S.past self.old.store)
            self.old.flight (S.past self.new.store) self.new.flight }
        ensures ready { OnOk result (self.old.on_medium ≡ true → (flying : List Span)
            → All (IsKnown self.old.held.sector_size self.new.flight) flying
            → MayProgram self.old.held.sectors self.old.held.sector_size flying write) }
    {
        if !self.on_medium {
            return Ok(());
        }
        let sectors = self.held.sectors();
        let sector_size = self.held.sector_size();
        if !self.store.is_synced() && !self.flight.delays(sectors, sector_size, write) {
            return Ok(());
        }
        self.settle()
    }

    /// Programs in the store what was programmed in memory, unless it is written no more.
    fn program_store(&mut self, at: u32, len: usize) -> Result<(), StoreFault>
        requires { at + len ≤ length self.old.held.image }
        ensures rest { self.new
            ≡ record self.old { store = self.new.store; flight = self.new.flight } }
        ensures sound { IsErr result → self.old.faults ≡ 0 }
        ensures written { self.old.faults ≡ 0
            → Overwrites at (window at len self.old.held.image) result (S.stored self.old.store)
            (S.stored self.new.store) }
        ensures stopped { 0 < self.old.faults → self.new.store ≡ self.old.store }
        ensures ordered { self.old.on_medium ≡ true → len < self.old.held.sector_size
            → KeepsOrder self.old.held (S.past self.old.store)
            self.old.flight (S.past self.new.store) self.new.flight }
    {
        if !self.is_written() {
            return Ok(());
        }
        let from = u64::from(at);
        let write = self.span(from, len);
        self.make_way(write)?;
        self.flight.add(self.held.sector_size(), write);
        self.write_through(from, len)
    }

    /// Erases in the store the sector at `at`, of `size` bytes, which was erased in memory, unless
    /// it is written no more.
    fn erase_store(&mut self, at: u64, size: u32) -> Result<(), StoreFault>
        requires inside { at + size ≤ length self.old.held.image }
        requires size { size ≡ self.old.held.sector_size }
        ensures rest { self.new
            ≡ record self.old { store = self.new.store; flight = self.new.flight } }
        ensures sound { IsErr result → self.old.faults ≡ 0 }
        ensures written { self.old.faults ≡ 0
            → Rewrites at size (window at size self.old.held.image) result
            (S.stored self.old.store) (S.stored self.new.store) }
        ensures stopped { 0 < self.old.faults → self.new.store ≡ self.old.store }
        ensures ordered { self.old.on_medium ≡ true → DOOM_LEN < size
            → KeepsOrder self.old.held (S.past self.old.store)
            self.old.flight (S.past self.new.store) self.new.flight }
    {
        if !self.is_written() {
            return Ok(());
        }
        self.begin_erase(at, size)?;
        self.flight = InFlight::erase(self.span(at, size as usize));
        self.write_through(at, size as usize)
    }

    /// Dooms a sector, if the store is on a medium.
    fn begin_erase(&mut self, at: u64, size: u32) -> Result<(), StoreFault>
        requires inside { at + size ≤ length self.old.held.image }
        requires size { size ≡ self.old.held.sector_size }
        ensures rest { self.new
            ≡ record self.old { store = self.new.store; flight = self.new.flight } }
        ensures changes { ChangesOnly at size (S.stored self.old.store) (S.stored self.new.store) }
        ensures noted { OnOk result (self.old.on_medium ≡ true → DOOM_LEN < size
            → NotesDoom at DOOM_LEN (S.past self.old.store) (S.past self.new.store)) }
        ensures ordered { self.old.on_medium ≡ true → DOOM_LEN < size
            → KeepsOrder self.old.held (S.past self.old.store)
            self.old.flight (S.past self.new.store) self.new.flight }
    {
        if !self.on_medium {
            return Ok(());
        }
        self.doom(at, size)
    }

    /// Writes zeros over the first bytes of a sector, between two syncs.
    fn doom(&mut self, at: u64, size: u32) -> Result<(), StoreFault>
        requires inside { at + size ≤ length self.old.held.image }
        requires size { size ≡ self.old.held.sector_size }
        ensures rest { self.new
            ≡ record self.old { store = self.new.store; flight = self.new.flight } }
        ensures changes { ChangesOnly at size (S.stored self.old.store) (S.stored self.new.store) }
        ensures none { OnOk result (self.new.flight ≡ no_flight) }
        ensures noted { OnOk result (DOOM_LEN < size
            → NotesDoom at DOOM_LEN (S.past self.old.store) (S.past self.new.store)) }
        ensures ordered { DOOM_LEN < size
            → KeepsOrder self.old.held (S.past self.old.store)
            self.old.flight (S.past self.new.store) self.new.flight }
    {
        // What was copied from the sector stays before it goes.
        self.settle()?;
        self.write_zeros(at, DOOM_LEN.min(size as usize))?;
        self.settle()
    }

    /// Writes some zeros from `at` on, after a sync.
    fn write_zeros(&mut self, at: u64, len: usize) -> Result<(), StoreFault>
        requires few { len ≤ DOOM_LEN }
        requires inside { at + len ≤ length self.old.held.image }
        requires settled { self.old.flight ≡ no_flight }
        ensures rest { self.new
            ≡ record self.old { store = self.new.store; flight = self.new.flight } }
        ensures changes { (size : ℕ) → len ≤ size
            → ChangesOnly at size (S.stored self.old.store) (S.stored self.new.store) }
        ensures noted { NotesCall (wrote at len) result (S.past self.old.store)
            (S.past self.new.store) }
        ensures ordered { len < self.old.held.sector_size
            → KeepsOrder self.old.held (S.past self.old.store)
            self.old.flight (S.past self.new.store) self.new.flight }
    {
        let write = self.span(at, len);
        self.flight.add(self.held.sector_size(), write);
        self.store.overwrite(at, &[0; DOOM_LEN][..len])
    }
}

impl<F: Write + Seek + OpenFile + Drop> FileFlash<FileStore<F>> {
    /// Has the operating system bring all that was written to the medium itself, and waits for it.
    /// Nothing else outlasts a loss of power of the whole machine for sure; what the program wrote
    /// outlasts the program without it.
    ///
    /// After a failure nobody knows what the medium holds, and the store is written no more.
    pub fn sync(&self) -> Result<(), StoreFault> {
        self.store.sync_file()
    }
}

impl<S: Store> Flash for FileFlash<S> {
    ghost device = { λ f. seen_device f.held f.faults f.failed_erases };

    fn sectors(&self) -> u32 {
        self.held.sectors()
    }

    fn sector_size(&self) -> u32 {
        self.held.sector_size()
    }

    fn faults(&self) -> u64 {
        self.faults
    }

    /// Never fails: the bytes stand in memory.
    fn read(&mut self, at: u32, buffer: &mut [u8]) -> Result<(), FlashFault> {
        self.held.read(at, buffer)
    }

    fn program(&mut self, at: u32, bytes: &[u8]) -> Result<(), FlashFault>
        requires { at + length bytes.now ≤ length self.old.held.image }
        ensures kept { OnOk result
            (IsKept (S.stored self.old.store) self.old.held self.old.faults
            → IsKept (S.stored self.new.store) self.new.held self.new.faults) }
        ensures left { OnErr result
            (IsKept (S.stored self.old.store) self.old.held self.old.faults
            → IsLeftAs (S.stored self.new.store)
            (IsHalfProgrammed at bytes.now self.old.held.image)) }
        ensures stopped { 0 < self.old.faults → self.new.store ≡ self.old.store }
        ensures ordered { self.old.on_medium ≡ true
            → length bytes.now < self.old.held.sector_size
            → KeepsOrder self.old.held (S.past self.old.store)
            self.old.flight (S.past self.new.store) self.new.flight }

        // What each device promises.
        ensures device { Programs at bytes.now result
            (seen_device self.old.held self.old.faults self.old.failed_erases)
            (seen_device self.new.held self.new.faults self.new.failed_erases) }
        ensures worn { Wears no_erase (length bytes.now) uncounted uncounted }
    {
        if self.has_stopped() {
            self.faults += 1;
            return Err(FlashFault);
        }
        self.held.program(at, bytes)?;
        match self.program_store(at, bytes.len()) {
            Ok(()) => Ok(()),
            Err(_) => {
                // The first fault.
                self.faults += 1;
                self.failed_erases = 0;
                Err(FlashFault)
            }
        }
    }

    fn erase(&mut self, sector: u32) -> Result<(), FlashFault>
        requires { sector < self.old.held.sectors }
        ensures kept { OnOk result
            (IsKept (S.stored self.old.store) self.old.held self.old.faults
            → IsKept (S.stored self.new.store) self.new.held self.new.faults) }
        ensures left { OnErr result
            (IsKept (S.stored self.old.store) self.old.held self.old.faults
            → IsLeftAs (S.stored self.new.store)
            (IsHalfErased (sector * self.old.held.sector_size) self.old.held.sector_size
            self.old.held.image)) }
        ensures stopped { 0 < self.old.faults → self.new.store ≡ self.old.store }
        ensures ordered { self.old.on_medium ≡ true → DOOM_LEN < self.old.held.sector_size
            → KeepsOrder self.old.held (S.past self.old.store)
            self.old.flight (S.past self.new.store) self.new.flight }

        // What each device promises.
        ensures device { Erases sector result
            (seen_device self.old.held self.old.faults self.old.failed_erases)
            (seen_device self.new.held self.new.faults self.new.failed_erases) }
        ensures worn { Wears (one_erase sector) 0 uncounted uncounted }
    {
        let size = self.held.sector_size();
        if self.erases_have_stopped() {
            self.faults += 1;
            self.failed_erases += 1;
            return Err(FlashFault);
        }
        self.held.erase(sector)?;
        let at = u64::from(sector) * u64::from(size);
        match self.erase_store(at, size) {
            Ok(()) => Ok(()),
            Err(_) => {
                // The first fault.
                self.faults += 1;
                self.failed_erases = 1;
                Err(FlashFault)
            }
        }
    }
}
