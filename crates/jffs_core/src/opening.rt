//! A device that is opened, whatever was cut off on it.

ghost use Rattle.std.specs.Prelude.{◌≡◌, IfOk, IfErr, MatchResult};
ghost use Rattle.jffs_flash.specs.Wear.{Wears};
ghost use Rattle.jffs_log.specs.Heal.{begun_on, healed_device, erase_of, IsUnhealed};

use crate::mounted_core::Core;
use jffs_flash::Flash;
use jffs_log::{ScanFault, heal};
use std::alloc::Global;

/// A device that was opened.
#[derive(Drop)]
pub struct Opened<F: Flash> {
    pub core: Core<F>,
    /// The sector whose erase was ended; `None` where none had been cut off, and nothing changed.
    pub sector: Option<u32>,
}

impl<F: Flash> Core<F> {
    ghost use Rattle.jffs_core.specs.Past.{IsFresh};

    /// Opens a device: mounts it as [`mount`](Core::mount) does, and where an erase was cut off on
    /// it, ends that first, as [`heal`] does. The core represents the log that was found then,
    /// without answers.
    ///
    /// Each refusal is that of the scan, and hands the device back with the bytes that it had. But
    /// `Device` may also say that the erase failed: then that sector may hold any bytes.
    pub fn open(alloc: Global, flash: F) -> Result<Opened<F>, ScanFault<F>>
        ensures opened { IfOk result (λ o. IsFresh (healed_device (F.device flash)) o.core) }
        ensures sector { IfOk result (λ o. o.sector ≡ begun_on (F.device flash)) }
        ensures refused { IfErr result
            (λ f. IsUnhealed (F.device flash) f.why (F.device f.flash)) }
        ensures worn { MatchResult result
            (λ o. Wears (erase_of (begun_on (F.device flash))) 0 (F.wear flash) o.core.wear)
            (λ f. Wears (erase_of (begun_on (F.device flash))) 0 (F.wear flash)
            (F.wear f.flash)) }
    {
        let healed = heal(alloc, flash)?;
        Ok(Opened {
            core: Core::of_log(alloc, healed.mounted),
            sector: healed.sector,
        })
    }
}
