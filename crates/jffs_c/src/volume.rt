//! A mounted volume, and how far its caller is with the calls of its device.

ghost use Rattle.std.specs.Prelude.{◌≡◌};
ghost use Rattle.jffs_c.specs.Blocked.{blocked, looks_blocked};
ghost use Rattle.jffs_c.specs.Opened.{phase_after};

use crate::code::Code;
use crate::place::Place;
use jffs_core::Core;
use jffs_queue::HandedFlash;
use jffs_session::{Opened, Session};
use jffs_tree::Tree;
use std::alloc::Global;
use std::marker::Model;

/// How far a volume is with the calls of its device.
#[derive(Clone, Copy, Debug, PartialEq, Eq)]
pub enum Phase {
    /// None is left.
    Ready,
    /// Some are left.
    Carrying,
    /// One failed, or memory was refused for one.
    Failed,
}

/// A mounted volume whose device's calls its caller carries out.
#[derive(Drop)]
pub struct Volume {
    pub(crate) alloc: Global,
    pub(crate) session: Session<HandedFlash>,
    pub(crate) phase: Phase,
    /// The name that was told last, where nothing was asked for since: the next one is found from
    /// there.
    pub(crate) place: Option<Place>,
}

impl Model for Volume {
    ghost use Rattle.std.specs.Prelude.{IfSome};
    ghost use Rattle.jffs_c.specs.Volume.{VolumeState, IsPlace};

    ghost Value = { VolumeState };

    ghost view = { λ v. record { core = v.session.core; phase = v.phase } };

    ghost invariant = { λ v. IfSome v.place (IsPlace v.session.core.tree) };
}

impl Volume {
    /// A volume that was just opened. Calls are left where an erase was ended.
    pub(crate) fn new(alloc: Global, opened: Opened<HandedFlash>) -> Volume
        ensures core { result.core ≡ opened.session.core }
        ensures phase { result.phase ≡ phase_after opened.sector }
    {
        Volume {
            alloc,
            session: opened.session,
            phase: match opened.sector {
                Some(_) => Phase::Carrying,
                None => Phase::Ready,
            },
            place: None,
        }
    }

    pub(crate) fn core(&self) -> &Core<HandedFlash>
        ensures { result.now ≡ self.now.core }
    {
        self.session.core()
    }

    pub(crate) fn tree(&self) -> &Tree
        ensures { result.now ≡ self.now.core.tree }
    {
        self.session.tree()
    }

    /// Whether it may be changed. `CallsLeft`, `Failed`.
    pub(crate) fn may_change(&self) -> Result<(), Code>
        ensures { result ≡ blocked self.now.phase }
    {
        match self.phase {
            Phase::Ready => Ok(()),
            Phase::Carrying => Err(Code::CallsLeft),
            Phase::Failed => Err(Code::Failed),
        }
    }

    /// Whether it may be looked at. `Failed`.
    pub(crate) fn may_look(&self) -> Result<(), Code>
        ensures { result ≡ looks_blocked self.now.phase }
    {
        if self.phase == Phase::Failed {
            return Err(Code::Failed);
        }
        Ok(())
    }

    /// The phase that the core and its device are in.
    pub(crate) fn turn(&mut self)
        ensures rest { self.new ≡ record self.old { phase = self.new.phase } }
        ensures core { self.new.core ≡ self.old.core }
    {
        self.phase = if self.core().failed() {
            Phase::Failed
        } else if self.core().log().flash().left() > 0 {
            Phase::Carrying
        } else {
            Phase::Ready
        };
    }
}
