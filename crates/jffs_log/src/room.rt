//! Which record may stand where.

ghost use Rattle.std.specs.Prelude.{◌≡◌};
ghost use Rattle.jffs_log.specs.Room.{tail_need as need_of_tail, erased_need as need_of_erased};

use jffs_node::HEADER_LEN;

/// Whose record asks for room.
#[derive(Clone, Copy, Debug, PartialEq, Eq)]
pub enum Room {
    /// A fresh node, or a copy that a sender handed in.
    Fresh,
    /// A copy that cleaning makes.
    Copy,
    /// The node of an unmount.
    Unmount,
}

impl Room {
    /// How many sectors must be erased for the record to open the next one.
    pub(crate) fn erased_need(self) -> u32
        ensures { result ≡ need_of_erased self }
    {
        match self {
            Room::Fresh => 4,
            Room::Copy | Room::Unmount => 2,
        }
    }

    /// How many bytes must be free in the tail for a record of this length to stand there.
    /// All but an unmount node leave room for an unmount node after them.
    pub(crate) fn tail_need(self, len: u32) -> u64
        ensures { result ≡ need_of_tail self len }
    {
        match self {
            Room::Unmount => HEADER_LEN as u64,
            Room::Fresh | Room::Copy => len as u64 + HEADER_LEN as u64,
        }
    }
}
