//! NOR flash: a program clears bits, and only the erase of a whole sector sets them again.
//!
//! The crate stands on nothing but std. Its promise is the contract of [`Flash`]: what the device's
//! image, one list of bytes, holds after each call, whether the call passed or failed.
//! [`MemoryFlash`] is a device in memory that never fails, [`FuseFlash`] one that fails from a
//! chosen call on, [`LimitedFlash`] one of which each byte can be read only so often, and
//! [`is_geometry`] says which sizes a volume may have.
#![tactic(auto)]

mod dooming;
mod flash;
mod fuse;
mod limited;
mod memory;
mod sizes;

pub use dooming::{DOOM_LEN, DoomingFlash};
pub use flash::{ERASED_BYTE, Flash, FlashFault};
pub use fuse::{Fail, FuseFlash, Fused};
pub use limited::LimitedFlash;
pub use memory::{FlashNew, MemoryFlash};
pub use sizes::{MAX_SECTORS, MIN_SECTORS, SECTOR_SIZES, VOLUME_MAX, is_geometry};
