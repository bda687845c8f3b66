//! The handle that a program in C gets of a volume.

ghost use Rattle.std.specs.Prelude.{◌≡◌, ◌≢◌, Some, None};

use crate::exports::pg_open;
use crate::handle::{Handle, Slot};
use crate::opening::Refusal;
use std::alloc::Global;

/// Why `pg_open` opened no volume.
#[derive(Clone, Copy)]
pub(super) struct NotOpened {
    pub(super) code: u32,
    pub(super) refusal: Refusal,
}

/// Opens a medium.
pub(super) fn open_medium(
    alloc: Global,
    medium: &[u8],
    sector_size: u32,
) -> Result<Handle, NotOpened> {
    let mut slot = empty_slot();
    let mut refusal = Refusal {
        sector: 77,
        place: 77,
        rule: 77,
    };
    let code = pg_open(alloc, medium, sector_size, &mut slot, &mut refusal);
    if code == 0 {
        Ok(handle_in(slot))
    } else {
        Err(NotOpened { code, refusal })
    }
}

/// A slot with nothing behind it. The proof of this function and of the next is written by hand.
fn empty_slot() -> Slot
    ensures { result.held ≡ None }
{
    Slot {
        at: std::ptr::null_mut(),
    }
}

/// What C has of the volume that a slot has.
fn handle_in(slot: Slot) -> Handle
    requires { slot.held ≢ None }
    ensures { slot.held ≡ Some result.value }
{
    let Slot { at } = slot;
    Handle { at }
}
