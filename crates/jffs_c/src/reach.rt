//! From the pointer that C holds to the volume, and back.
//!
//! The proofs of `into_box`, `volume` and `of_loose`, and of the function in `loose`, are written by
//! hand; no other function makes or follows a pointer.

ghost use Rattle.std.specs.Prelude.{◌≡◌, Some};
ghost use types.Logic.{sem};
ghost use Rattle.jffs_c.specs.Handle.{handle_follows};

use crate::handle::{Handle, Slot};
use crate::loose::Loose;
use crate::volume::Volume;
use std::alloc::Global;

impl Handle {
    /// The box that the pointer was made of.
    pub(crate) fn into_box(self, alloc: Global) -> Box<Volume>
        ensures { result.value ≡ self.value }
    {
        let Handle { at } = self;
        unsafe { Box::from_raw(alloc, at.cast::<Volume>()) }
    }

    /// The volume behind the pointer.
    pub(crate) fn volume(&mut self) -> &mut Volume
        ensures* writes_back { sem 𝓛 (handle_follows self.entry result) }
        ensures value { result.now ≡ self.old.value }
    {
        unsafe { &mut *self.at.cast::<Volume>() }
    }
}

impl Slot {
    /// What C gets of a volume.
    pub(crate) fn of(volume: Box<Volume>) -> Slot
        ensures { result.held ≡ Some volume.value }
    {
        Slot::of_loose(Loose::of(volume))
    }

    fn of_loose(volume: Loose<Volume>) -> Slot
        ensures { result.held ≡ Some volume.value }
    {
        let Loose { at } = volume;
        Slot {
            at: at.cast::<u8>(),
        }
    }
}
