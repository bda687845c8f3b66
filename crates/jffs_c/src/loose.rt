//! A box as its pointer.

ghost use Rattle.std.specs.Prelude.{◌≡◌};

use std::alloc::Global;
use std::marker::Model;

/// The pointer of a box, and what it owns.
pub(crate) struct Loose<T> {
    pub(crate) at: *mut T,
    pub(crate) ghost value: { T },
}

impl<T> Model for Loose<T> {
    ghost use Rattle.std_alloc.specs.Box.Ownership.{box_owns};
    ghost use Rattle.jffs_c.specs.Heap.{chunk};

    ghost also_owns = { λ l. box_owns chunk T.row l.at l.value };
}

impl<T: Drop> Loose<T> {
    /// Takes a box apart.
    pub(crate) fn of(value: Box<T, Global>) -> Loose<T>
        ensures { result.value ≡ value.value }
    {
        let at = Box::into_raw(value);
        Loose { at }
    }
}
