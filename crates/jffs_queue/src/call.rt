//! A change of a device that waits to be carried out.

/// A change of a device.
#[derive(Drop)]
pub enum Call {
    /// Each byte of a sector, counted from 0, becomes [`ERASED_BYTE`](jffs_flash::ERASED_BYTE).
    Erase { sector: u32 },

    /// Each byte `old` of the range that begins at `at`, in bytes, becomes `old & new`.
    Program { at: u32, bytes: Vec<u8> },
}
