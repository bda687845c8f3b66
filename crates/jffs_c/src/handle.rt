//! A volume as C holds it.

ghost use Rattle.std.specs.Prelude.{Option};
ghost use Rattle.jffs_c.specs.declared.volume.Volume.{Volume};

use std::marker::Model;

/// What a C program has of a volume: the pointer that `pg_open` wrote. Only this crate looks behind
/// it.
#[repr(C)]
pub struct Handle {
    pub(crate) at: *mut u8,
    pub(crate) ghost value: { Volume },
}

impl Model for Handle {
    ghost use Rattle.jffs_c.specs.contracts.volume.Volume.{the_row};
    ghost use Rattle.std_alloc.specs.Box.Ownership.{box_owns};
    ghost use Rattle.jffs_c.specs.Heap.{chunk};

    // the block of a box with the volume in it
    ghost also_owns = { λ h. box_owns chunk the_row h.at h.value };
}

/// Where `pg_open` writes the pointer. Before that it leads to nothing.
#[repr(C)]
#[derive(Drop)]
pub struct Slot {
    pub(crate) at: *mut u8,
    pub(crate) ghost held: { Option Volume },
}

impl Model for Slot {
    ghost use Rattle.jffs_c.specs.Handle.{slot_owns};

    ghost also_owns = { λ s. slot_owns s.at s.held };
}
