//! Flash that dooms each sector before it is erased.

ghost use Rattle.std.specs.Prelude.{◌≡◌, ◌⊎◌, ◌+◌, ◌*◌, ◌<◌, ◌≤◌, OnErr};
ghost use Rattle.std.specs.Prelude.{is_err, if◌then◌else◌, IfSome, IsSome};
ghost use Rattle.jffs_flash.specs.Image.{IsHalfProgrammed};
ghost use Rattle.jffs_flash.specs.Device.{Erases, Fails};
ghost use Rattle.jffs_flash.specs.Wear.{Wears, no_erase, one_erase};
ghost use Rattle.jffs_flash.specs.Dooming.{doom, with_failed_dooms, without_dooms};
ghost use Rattle.jffs_flash.specs.Dooming.{IsDoomed, IsDoomAt};

use crate::flash::{Flash, FlashFault};

/// How many bytes of a sector are cleared before it is erased: as many as a record's magic has.
pub const DOOM_LEN: usize = 4;

/// Any flash, of which the first [`DOOM_LEN`] bytes of a sector are cleared by a program of their
/// own before it is erased.
///
/// So where power goes while a sector is erased, its first bytes tell that it counts for nothing,
/// whatever else it holds by then. To the callers both are one erase, which fails if either does.
/// What is said of the wear leaves the dooms out; the flash [`inside`](DoomingFlash::inner) counts
/// them. Nothing is doomed in sectors shorter than that, nor after 2<sup>64</sup> - 1 dooms.
#[derive(Drop)]
pub struct DoomingFlash<F: Flash> {
    inner: F,
    dooms: u64,
    failed_dooms: u64,
    ghost fewer: { failed_dooms ≤ (F.device inner).faults },
}

impl<F: Flash> DoomingFlash<F> {
    /// Flash that dooms each sector of `inner` before it is erased.
    pub fn new(inner: F) -> DoomingFlash<F>
        ensures inner { result.inner ≡ inner }
        ensures dooms { result.dooms ≡ 0 }
        ensures failed { result.failed_dooms ≡ 0 }
    {
        DoomingFlash {
            inner,
            dooms: 0,
            failed_dooms: 0,
        }
    }

    /// The flash inside, to be looked at.
    pub fn inner(&self) -> &F
        ensures { result.now ≡ self.now.inner }
    {
        &self.inner
    }

    /// The flash inside.
    pub fn into_inner(self) -> F
        ensures { result ≡ self.inner }
    {
        let DoomingFlash {
            inner,
            dooms: _,
            failed_dooms: _,
        } = self;
        inner
    }

    /// Where the doom of a sector is programmed; `None` where the sector is too short for it, or
    /// stands where no `u32` tells, or where no doom more can be counted.
    fn doom_at(&self, sector: u32) -> Option<u32>
        requires { sector < (F.device self.now.inner).sectors }
        ensures inside { IfSome result (IsDoomAt sector (F.device self.now.inner)) }
        ensures counted { IsSome result → self.now.dooms < u64.MAX }
    {
        let size = self.inner.sector_size();
        // Brings in that the image has the bytes of the sectors.
        let _sectors = self.inner.sectors();
        if (size as usize) < DOOM_LEN || self.dooms == u64::MAX {
            return None;
        }
        sector.checked_mul(size)
    }

    /// Clears the first bytes of a sector, where they can be.
    fn doom(&mut self, sector: u32) -> Result<(), FlashFault>
        requires { sector < (F.device self.old.inner).sectors }
        ensures device { IsDoomed sector result (F.device self.old.inner)
            (F.device self.new.inner) }
        ensures counted { self.new.failed_dooms
            ≡ self.old.failed_dooms + (if is_err result then 1 else 0) }
        ensures inside { Wears no_erase DOOM_LEN (F.wear self.old.inner)
            (F.wear self.new.inner) }
        ensures worn { Wears no_erase 0 (without_dooms self.old.dooms (F.wear self.old.inner))
            (without_dooms self.new.dooms (F.wear self.new.inner)) }
        ensures unread { F.reads_left self.new.inner ≡ F.reads_left self.old.inner }
    {
        let Some(at) = self.doom_at(sector) else {
            return Ok(());
        };
        let doomed = self.inner.program(at, &[0; DOOM_LEN]);
        self.dooms += 1;
        if doomed.is_err() {
            // Brings in that the count of faults, which has risen, fits.
            let _faults = self.inner.faults();
            self.failed_dooms += 1;
        }
        doomed
    }
}

impl<F: Flash> Flash for DoomingFlash<F> {
    ghost device = { λ f. with_failed_dooms f.failed_dooms (F.device f.inner) };

    ghost reads_left = { λ f. F.reads_left f.inner };

    ghost wear = { λ f. without_dooms f.dooms (F.wear f.inner) };

    fn sectors(&self) -> u32 {
        self.inner.sectors()
    }

    fn sector_size(&self) -> u32 {
        self.inner.sector_size()
    }

    fn faults(&self) -> u64 {
        self.inner.faults()
    }

    fn read(&mut self, at: u32, buffer: &mut [u8]) -> Result<(), FlashFault> {
        self.inner.read(at, buffer)
    }

    fn program(&mut self, at: u32, bytes: &[u8]) -> Result<(), FlashFault> {
        self.inner.program(at, bytes)
    }

    /// Clears the first bytes of the sector, and then erases it. Where the first fails nothing is
    /// erased.
    fn erase(&mut self, sector: u32) -> Result<(), FlashFault>
        requires { sector < (F.device self.old.inner).sectors }
        ensures stops { OnErr result ((self.new.failed_dooms ≡ self.old.failed_dooms)
            ⊎ Fails (IsHalfProgrammed (sector * (F.device self.old.inner).sector_size) doom
            (F.device self.old.inner).image) (F.device self.old.inner) (F.device self.new.inner)) }
        ensures inside { Wears (one_erase sector) DOOM_LEN (F.wear self.old.inner)
            (F.wear self.new.inner) }

        // What each device promises.
        ensures device { Erases sector result
            (with_failed_dooms self.old.failed_dooms (F.device self.old.inner))
            (with_failed_dooms self.new.failed_dooms (F.device self.new.inner)) }
        ensures worn { Wears (one_erase sector) 0
            (without_dooms self.old.dooms (F.wear self.old.inner))
            (without_dooms self.new.dooms (F.wear self.new.inner)) }
        ensures unread { F.reads_left self.new.inner ≡ F.reads_left self.old.inner }
    {
        self.doom(sector)?;
        self.inner.erase(sector)
    }
}
