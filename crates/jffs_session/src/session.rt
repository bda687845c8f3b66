//! A mounted volume with one owner.

ghost use Rattle.std.specs.Prelude.{◌≡◌, IfOk, IfErr, IsErr, MatchResult, true, false};
ghost use Rattle.jffs_flash.specs.Wear.{Wears};
ghost use Rattle.jffs_log.specs.ScanFound.{IsRefused};
ghost use Rattle.jffs_log.specs.Heal.{begun_on, healed_device, erase_of, IsUnhealed};
ghost use Rattle.jffs_tree.specs.declared.wish.Wish.TheVariants as wishes;
ghost use Rattle.jffs_core.specs.Past.{IsFresh, IsLeftBy};
ghost use Rattle.jffs_core.specs.Trees.{KeepsTree};
ghost use Rattle.jffs_session.specs.Session.{SessionState, IsMounted};
ghost use Rattle.jffs_session.specs.Told.{Asks, IsTold, Changes, LeavesFiles, StaysFailed};
ghost use Rattle.jffs_session.specs.Told.{CarriesOut, is_stop};
ghost use Rattle.jffs_session.specs.Cleaned.{Cleaning, Erasing};

use jffs_core::{Cleaned, Core};
use jffs_flash::Flash;
use jffs_line::{CONTROL, Request};
use jffs_log::ScanFault;
use jffs_tree::{Cause, Limits, Outcome, Tree, Wish};
use std::alloc::Global;
use std::marker::Model;

/// The owner's number in the records.
const OWNER: u16 = 1;

/// A mounted volume with one owner, who has a request answered before the next is made.
#[derive(Drop)]
pub struct Session<F: Flash> {
    alloc: Global,
    core: Core<F>,
    /// The number of the owner's last request.
    seq: u32,
    /// The number of the last unmount that was asked for.
    unmounts: u32,
    begun: Limits,
}

/// A volume that was opened.
#[derive(Drop)]
pub struct Opened<F: Flash> {
    pub session: Session<F>,
    /// The sector whose erase was ended; `None` where none had been cut off, and nothing changed.
    pub sector: Option<u32>,
}

impl<F: Flash> Model for Session<F> {
    ghost Value = { SessionState };

    ghost view = { λ s. record { core = s.core; begun = s.begun } };

    ghost invariant = { λ s. IsMounted s.core };
}

impl<F: Flash> Session<F> {
    /// A session with a core that was just mounted.
    fn of(alloc: Global, core: Core<F>) -> Session<F>
        requires { IsMounted core }
        ensures { result ≡ record { core = core; begun = core.limits } }
    {
        let begun = core.limits();
        Session {
            alloc,
            core,
            seq: 0,
            unmounts: 0,
            begun,
        }
    }

    /// Mounts a device, as [`Core::mount`] does, and never writes to it.
    pub fn mount(alloc: Global, flash: F) -> Result<Session<F>, ScanFault<F>>
        ensures mounted { IfOk result (λ s. IsFresh (F.device flash) s.core) }
        ensures begun { IfOk result (λ s. s.begun ≡ s.core.limits) }
        ensures refused { IfErr result (λ f. IsRefused (F.device flash) f.why (F.device f.flash)) }
    {
        match Core::mount(alloc, flash) {
            Ok(core) => Ok(Session::of(alloc, core)),
            Err(fault) => Err(fault),
        }
    }

    /// Opens a device, as [`Core::open`] does: an erase that was cut off on it is ended first.
    pub fn open(alloc: Global, flash: F) -> Result<Opened<F>, ScanFault<F>>
        ensures opened { IfOk result
            (λ o. IsFresh (healed_device (F.device flash)) o.session.core) }
        ensures begun { IfOk result (λ o. o.session.begun ≡ o.session.core.limits) }
        ensures sector { IfOk result (λ o. o.sector ≡ begun_on (F.device flash)) }
        ensures refused { IfErr result
            (λ f. IsUnhealed (F.device flash) f.why (F.device f.flash)) }
    {
        match Core::open(alloc, flash) {
            Ok(opened) => Ok(Opened {
                session: Session::of(alloc, opened.core),
                sector: opened.sector,
            }),
            Err(fault) => Err(fault),
        }
    }

    pub(crate) fn alloc(&self) -> Global {
        self.alloc
    }

    /// The core, to be looked at.
    pub fn core(&self) -> &Core<F>
        ensures core { result.now ≡ self.now.core }
        ensures mounted { IsMounted self.now.core }
    {
        &self.core
    }

    /// The tree, to be looked at.
    pub fn tree(&self) -> &Tree
        ensures { result.now ≡ self.now.core.tree }
    {
        self.core.tree()
    }

    /// Whether a node was appended since the mount, so that an unmount has something to end.
    pub fn is_changed(&self) -> bool
        ensures { result ≡ false → self.now.core.limits ≡ self.now.begun }
    {
        self.core.limits() != self.begun
    }

    /// Has a wish answered, and keeps no answer. `Memory` may also say that nothing was asked,
    /// since memory lacked for the answer.
    pub fn ask(&mut self, wish: Wish) -> Outcome
        ensures asked { Asks wish result self.old.core self.new.core }
        ensures told { self.old.core.failed ≡ false
            → IsTold wish result self.old.core self.new.core }
        ensures failed { self.old.core.failed ≡ true → StaysFailed result self.new.core }
        ensures mounted { IsMounted self.new.core }
        ensures begun { self.new.begun ≡ self.old.begun }
    {
        self.seq = self.seq.saturating_add(1);
        let seq = self.seq;
        self.ask_as(OWNER, seq, wish)
    }

    /// Has a change done, and erases what died by it. The causes are the core's; `Device` may also
    /// say that the erase failed, and `Memory` that nothing was asked.
    pub fn change(&mut self, wish: Wish) -> Result<(), Cause>
        ensures changes { self.old.core.failed ≡ false
            → Changes wish result self.old.core self.new.core }
        ensures asked { CarriesOut wish result self.old.core self.new.core }
        ensures failed { self.old.core.failed ≡ true
            → IsErr result × (self.new.core.failed ≡ true) }
        ensures mounted { IsMounted self.new.core }
        ensures begun { self.new.begun ≡ self.old.begun }
    {
        if let Outcome::Refused(cause) = self.ask(wish) {
            return Err(cause);
        }
        match self.erase_dead() {
            Ok(_) => Ok(()),
            Err(cause) => Err(cause),
        }
    }

    /// Has the control ask for the unmount.
    pub fn unmount(&mut self) -> Outcome
        ensures asked { Asks wishes.Unmount result self.old.core self.new.core }
        ensures told { self.old.core.failed ≡ false
            → IsTold wishes.Unmount result self.old.core self.new.core }
        ensures failed { self.old.core.failed ≡ true → StaysFailed result self.new.core }
        ensures begun { self.new.begun ≡ self.old.begun }
    {
        self.unmounts = self.unmounts.saturating_add(1);
        let seq = self.unmounts;
        self.ask_as(CONTROL, seq, Wish::Unmount)
    }

    /// Has a request of this sender answered.
    fn ask_as(&mut self, writer: u16, seq: u32, wish: Wish) -> Outcome
        ensures asked { Asks wish result self.old.core self.new.core }
        ensures told { self.old.core.failed ≡ false
            → IsTold wish result self.old.core self.new.core }
        ensures failed { self.old.core.failed ≡ true → StaysFailed result self.new.core }
        ensures mounted { IsMounted self.new.core }
        ensures begun { self.new.begun ≡ self.old.begun }
    {
        let Ok(outcome) = self.core.ask(Request { writer, seq, wish }) else {
            return Outcome::Refused(Cause::Memory);
        };
        outcome
    }

    /// Erases dead sectors, as [`Core::erase_dead`] does.
    pub fn erase_dead(&mut self) -> Result<u32, Cause>
        ensures kept { self.old.core.failed ≡ false → LeavesFiles self.old.core self.new.core }
        ensures fails { MatchResult result (λ count. self.new.core.failed ≡ false)
            (λ cause. (self.new.core.failed ≡ true) × (is_stop cause ≡ true)) }
        ensures erased { Erasing result self.old.core self.new.core }
        ensures tree { KeepsTree self.old.core self.new.core }
        ensures mounted { IsMounted self.new.core }
        ensures begun { self.new.begun ≡ self.old.begun }
    {
        self.core.erase_dead()
    }

    /// Cleans the oldest sector, as [`Core::clean_oldest`] does.
    pub fn clean_oldest(&mut self) -> Result<Cleaned, Cause>
        ensures kept { self.old.core.failed ≡ false → LeavesFiles self.old.core self.new.core }
        ensures cleaned { Cleaning result self.old.core self.new.core }
        ensures begun { self.new.begun ≡ self.old.begun }
    {
        self.core.clean_oldest()
    }

    /// Gives the core back.
    pub fn into_core(self) -> Core<F>
        ensures { result ≡ self.core }
    {
        let Session {
            alloc: _,
            core,
            seq: _,
            unmounts: _,
            begun: _,
        } = self;
        core
    }
}
