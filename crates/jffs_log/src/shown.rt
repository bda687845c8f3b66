//! The bytes of a device as a scan is to see them.

ghost use Rattle.std.specs.Prelude.{◌≡◌, ◌≤◌, length};
ghost use Rattle.jffs_log.specs.Shown.{shown_bytes};

use jffs_node::{ERASED, MAGIC};

/// How a scan sees the bytes of a device.
#[derive(Clone, Copy)]
pub(crate) enum Shown {
    /// As they are.
    AsTheyAre,
    /// As if this sector were erased.
    Erased(u32),
    /// As if this sector began with the magic of a record.
    Restored(u32),
}

impl Shown {
    /// Makes of the bytes of a sector those that are shown of it.
    pub(crate) fn show(self, sector: u32, bytes: &mut [u8])
        requires { 4 ≤ length bytes.old }
        ensures { bytes.new ≡ shown_bytes self sector bytes.old }
    {
        match self {
            Shown::AsTheyAre => {}
            Shown::Erased(k) => {
                if k == sector {
                    bytes.fill(ERASED);
                }
            }
            Shown::Restored(k) => {
                if k == sector {
                    bytes[..MAGIC.len()].copy_from_slice(&MAGIC);
                }
            }
        }
    }
}
