//! A mounted device.

ghost use Rattle.std.specs.Prelude.{◌≡◌, IfOk, IfErr, MatchResult};
ghost use Rattle.jffs_flash.specs.ReadsLeft.{FailsWhereSpent};
ghost use Rattle.jffs_log.specs.ScanFound.{IsRefused};

use crate::answer::Answer;
use jffs_flash::Flash;
use jffs_log::{Log, Mounted, ScanFault, scan};
use jffs_tree::{Limits, Tree};
use std::alloc::Global;
use std::marker::Model;

/// A mounted device: its log, the tree that the log makes, and the answers since the mount.
#[derive(Drop)]
pub struct Core<F: Flash> {
    pub(crate) alloc: Global,
    pub(crate) log: Log<F>,
    pub(crate) tree: Tree,
    /// The longest data of a node, and the numbers that come next. None is given twice.
    pub(crate) limits: Limits,
    /// Whether the log ends with an unmount node, and nothing was programmed after it.
    pub(crate) clean: bool,
    pub(crate) closed: bool,
    pub(crate) answers: Vec<Answer>,
}

impl<F: Flash> Model for Core<F> {
    ghost use Rattle.jffs_core.specs.CoreState.{CoreState};
    ghost use Rattle.jffs_core.specs.Past.{HasLogIndex};
    ghost use Rattle.std.specs.Prelude.{vec_capacity};

    ghost Value = { CoreState };

    ghost view = { λ c. record {
      image = c.log.device.image;
      faults = c.log.device.faults;
      failed_erases = c.log.device.failed_erases;
      erase_failed = c.log.erase_failed;
      wear = c.log.wear;
      reads_left = c.log.reads_left;
      index = c.log.index;
      tree = c.tree;
      limits = c.limits;
      clean = c.clean;
      failed = c.log.failed;
      closed = c.closed;
      answers = c.answers.items;
      capacity = vec_capacity c.answers;
    } };

    ghost invariant = { λ c.
        HasLogIndex c.log.failed c.log.device.sectors c.log.device.sector_size c.log.device.image
        c.log.index c.tree c.limits c.clean };
}

impl<F: Flash> Core<F> {
    ghost use Rattle.jffs_flash.specs.Device.{Device};
    ghost use Rattle.jffs_log.specs.ScanFound.{IsMounted};
    ghost use Rattle.jffs_core.specs.Past.{IsFresh, IsLeftBy};

    /// Mounts a device: scans it, whatever it holds, and never writes to it. The core represents
    /// the log that was found, without answers.
    ///
    /// Each refusal is that of the scan, and hands the device back with the bytes that it had. Its
    /// reason is in the image and none that is tried before it is, but for `Device`, where a read
    /// failed, and `Memory`, where allocation failed. No read fails on a device each of whose bytes
    /// can be read once more.
    pub fn mount(alloc: Global, flash: F) -> Result<Core<F>, ScanFault<F>>
        ensures mounted { IfOk result (λ c. IsFresh (F.device flash) c) }
        ensures refused { IfErr result (λ f. IsRefused (F.device flash) f.why (F.device f.flash)) }
        ensures once { IfErr result
            (λ f. FailsWhereSpent (F.reads_left flash) (F.device flash) (F.device f.flash)) }
        ensures unworn { MatchResult result (λ c. c.wear ≡ F.wear flash)
            (λ f. F.wear f.flash ≡ F.wear flash) }
    {
        Ok(Core::of_log(alloc, scan(alloc, flash)?))
    }

    /// The core of a log that was found on a device, without answers.
    pub(crate) fn of_log(alloc: Global, mounted: Mounted<F>) -> Core<F>
        requires { (device : Device) × IsMounted device mounted.log mounted.tree mounted.clean
            mounted.limits }
        ensures fresh { (device : Device) → IsMounted device mounted.log mounted.tree mounted.clean
            mounted.limits → IsFresh device result }
        ensures wear { result.wear ≡ mounted.log.wear }
    {
        let Mounted {
            log,
            tree,
            clean,
            limits,
        } = mounted;
        Core {
            alloc,
            log,
            tree,
            limits,
            clean,
            closed: false,
            answers: Vec::new(alloc),
        }
    }

    /// The most bytes of data that a node may have, and the version and inode that come next, if
    /// any is left.
    pub fn limits(&self) -> Limits
        ensures { result ≡ self.now.limits }
    {
        self.limits
    }

    /// Whether the log ends with an unmount node, and nothing was programmed after it.
    pub fn clean(&self) -> bool
        ensures { result ≡ self.now.clean }
    {
        self.clean
    }

    /// Whether an Unmount was answered Closed.
    pub fn closed(&self) -> bool
        ensures { result ≡ self.now.closed }
    {
        self.closed
    }

    /// Whether the device failed in this session; from then on each request is answered Failed.
    pub fn failed(&self) -> bool
        ensures { result ≡ self.now.failed }
    {
        self.log.failed()
    }

    /// The answers since the mount, in order.
    pub fn answers(&self) -> &[Answer]
        ensures { result.now ≡ self.now.answers }
    {
        &self.answers
    }

    /// The tree that all nodes of the log make.
    pub fn tree(&self) -> &Tree
        ensures { result.now ≡ self.now.tree }
    {
        &self.tree
    }

    /// The log, to be looked at.
    pub fn log(&self) -> &Log<F>
        ensures image { result.now.device.image ≡ self.now.image }
        ensures wear { result.now.wear ≡ self.now.wear }
        ensures index { result.now.index ≡ self.now.index }
        ensures failed { result.now.failed ≡ self.now.failed }
    {
        &self.log
    }

    /// Gives the device back. The answers are dropped.
    pub fn into_flash(self) -> F
        ensures device { IsLeftBy self (F.device result) }
        ensures wear { F.wear result ≡ self.wear }
    {
        let (flash, _) = self.into_parts();
        flash
    }

    /// Gives the device and the answers back.
    pub fn into_parts(self) -> (F, Vec<Answer>)
        ensures device { IsLeftBy self (F.device result.0) }
        ensures wear { F.wear result.0 ≡ self.wear }
        ensures answers { result.1.items ≡ self.answers }
    {
        let Core {
            alloc: _,
            log,
            tree: _,
            limits: _,
            clean: _,
            closed: _,
            answers,
        } = self;
        (log.into_flash(), answers)
    }
}
