//! A core that is driven operation by operation.

ghost use Rattle.std.specs.Prelude.{◌≡◌, ◌*◌, vec_len};
ghost use Rattle.jffs_flash.specs.Device.{device_of};

use crate::did::{Answered, Did};
use crate::fault::ToolFault;
use crate::operation::Fuse;
use crate::reading::device_length;
use crate::telling::{count_given, did, last_offset, own_records, totals};
use crate::texts::{digest_text, mounted_next_text, scan_refused_text};
use jffs_core::{Cleaned, Core};
use jffs_flash::{ERASED_BYTE, Fail, FuseFlash, Fused, MemoryFlash, VOLUME_MAX};
use jffs_line::Request;
use jffs_log::{ScanFault, ScanWhy};
use jffs_text::dump;
use std::alloc::Global;
use std::io::Write;
use std::mem;

/// The flash, as it stands between two operations.
#[derive(Drop)]
enum Device {
    Absent,
    /// Larger than any volume: no scan would take it, so its bytes aren't kept.
    Large,
    /// Not mounted.
    Bare(MemoryFlash),
    Mounted(Core<FuseFlash>),
}

/// What stands between two operations: the flash, or the core that is mounted on it, and the fuse
/// for the next mount.
#[derive(Drop)]
pub struct Replay {
    alloc: Global,
    device: Device,
    fuse: Option<Fuse>,
}

impl Replay {
    /// A replay without flash.
    pub fn new(alloc: Global) -> Replay {
        Replay {
            alloc,
            device: Device::Absent,
            fuse: None,
        }
    }

    /// Begins with erased flash of `sectors` sectors of `sector_size` bytes, instead of any that
    /// stood there. Flash that is larger than any volume takes no memory: a mount refuses it as
    /// Geometry.
    ///
    /// `Memory` if allocation failed: nothing is changed.
    pub fn begin_erased(&mut self, sectors: u32, sector_size: u32) -> Result<(), ToolFault> {
        let length = device_length(sectors, sector_size);
        if length > VOLUME_MAX {
            self.device = Device::Large;
            return Ok(());
        }
        let bytes = vec![in self.alloc; ERASED_BYTE; length as usize]?;
        self.begin(sectors, sector_size, bytes)
    }

    /// Begins with flash that holds these bytes, instead of any that stood there. Where the bytes
    /// and the flash are larger than any volume they aren't kept, and a mount refuses the flash as
    /// Geometry.
    ///
    /// `Short` or `Long` if they aren't as many as the sectors have together: nothing is changed.
    pub fn begin(
        &mut self,
        sectors: u32,
        sector_size: u32,
        bytes: Vec<u8>,
    ) -> Result<(), ToolFault> {
        self.device = match image_of(sectors, sector_size, bytes)? {
            Image::Large => Device::Large,
            Image::Flash(flash) => Device::Bare(flash),
        };
        Ok(())
    }

    /// Puts a fuse round the flash at the next mount, instead of one that waits for it.
    pub fn fuse(&mut self, fuse: Fuse) {
        self.fuse = Some(fuse);
    }

    /// Mounts the bare flash, with its fuse if one waits, and writes what the mount found, or why
    /// it is refused.
    ///
    /// `NoFlash` where there is none; `Write` or `Memory` if the line can't be written or
    /// allocation failed.
    pub fn mount<W: Write>(&mut self, out: &mut W) -> Result<(), ToolFault> {
        let flash = match mem::replace(&mut self.device, Device::Absent) {
            Device::Absent => return Err(ToolFault::NoFlash),
            Device::Large => return self.refuse_large(out),
            Device::Bare(flash) => flash,
            Device::Mounted(core) => core.into_flash().into_inner(),
        };
        let flash = fused(flash, mem::replace(&mut self.fuse, None));
        match Core::mount(self.alloc, flash) {
            Ok(core) => {
                write_mounted(self.alloc, &core, out)?;
                self.device = Device::Mounted(core);
            }
            Err(ScanFault { why, flash }) => {
                let text = scan_refused_text(self.alloc, why)?;
                out.write_all(text.as_bytes())?;
                self.device = Device::Bare(flash.into_inner());
            }
        }
        Ok(())
    }

    /// Writes why flash that is larger than any volume isn't mounted; the fuse is spent, as at
    /// any mount.
    fn refuse_large<W: Write>(&mut self, out: &mut W) -> Result<(), ToolFault> {
        self.device = Device::Large;
        self.fuse = None;
        out.write_all(scan_refused_text(self.alloc, ScanWhy::Geometry)?.as_bytes())?;
        Ok(())
    }

    /// Answers a request.
    ///
    /// `NotMounted` without a core, `Closed` where an Unmount was answered Closed, `Memory` if
    /// allocation failed for the answer: nothing is changed.
    pub fn request(&mut self, request: Request) -> Result<Answered, ToolFault> {
        let core = self.core()?;
        if core.closed() {
            return Err(ToolFault::Closed);
        }
        let before = count_given(core);
        let outcome = core.ask(request).map_err(|_| ToolFault::Memory)?;
        let appended = count_given(core).saturating_sub(before);
        Ok(Answered {
            did: did(outcome, appended, last_offset(core)),
            copies: appended.saturating_sub(own_records(outcome, appended)),
            totals: totals(core),
        })
    }

    /// Cleans the oldest sector. `NotMounted` without a core.
    pub fn clean_oldest(&mut self) -> Result<Answered, ToolFault> {
        let core = self.core()?;
        let did = match core.clean_oldest() {
            Ok(Cleaned::Erased { sector, copies }) => Did::Cleaned { sector, copies },
            Ok(Cleaned::OneSector) => Did::OneSector,
            Err(cause) => Did::Refused(cause),
        };
        Ok(Answered {
            did,
            copies: 0,
            totals: totals(core),
        })
    }

    /// Erases dead sectors, the oldest first. `NotMounted` without a core.
    pub fn erase_dead(&mut self) -> Result<Answered, ToolFault> {
        let core = self.core()?;
        let did = match core.erase_dead() {
            Ok(erased) => Did::Erased(erased),
            Err(cause) => Did::Refused(cause),
        };
        Ok(Answered {
            did,
            copies: 0,
            totals: totals(core),
        })
    }

    /// Writes the SHA-256 digest of the whole image in lower case hex.
    ///
    /// `NoFlash` where there is none, `Large` of flash that is larger than any volume, `Memory` if
    /// allocation failed, `Write` if the writer did.
    pub fn digest<W: Write>(&self, out: &mut W) -> Result<(), ToolFault> {
        out.write_all(digest_text(self.alloc, self.bytes()?)?.as_bytes())?;
        Ok(())
    }

    /// The bytes of the whole image, as the digest is of.
    ///
    /// `NoFlash` where there is none, `Large` of flash that is larger than any volume.
    pub fn bytes(&self) -> Result<&[u8], ToolFault> {
        match &self.device {
            Device::Absent => Err(ToolFault::NoFlash),
            Device::Large => Err(ToolFault::Large),
            Device::Bare(flash) => Ok(flash.bytes()),
            Device::Mounted(core) => Ok(core.log().flash().inner().bytes()),
        }
    }

    fn core(&mut self) -> Result<&mut Core<FuseFlash>, ToolFault> {
        match &mut self.device {
            Device::Mounted(core) => Ok(core),
            Device::Bare(_) | Device::Large | Device::Absent => Err(ToolFault::NotMounted),
        }
    }
}

/// The bytes that a device begins with.
#[derive(Drop)]
pub(crate) enum Image {
    /// The sectors, and the bytes, are larger than any volume.
    Large,
    Flash(MemoryFlash),
}

/// What `read_image` read for a device of these sizes. `Short` or `Long` where it isn't as long as
/// the sectors together; where both are larger than any volume they aren't compared.
pub(crate) fn image_of(sectors: u32, sector_size: u32, bytes: Vec<u8>) -> Result<Image, ToolFault> {
    let wanted = device_length(sectors, sector_size);
    let found = bytes.len() as u64;
    if wanted > VOLUME_MAX && found > VOLUME_MAX {
        Ok(Image::Large)
    } else if found < wanted {
        Err(ToolFault::Short { found, wanted })
    } else if found > wanted {
        Err(ToolFault::Long(wanted))
    } else {
        Ok(Image::Flash(flash_of(sectors, sector_size, bytes)))
    }
}

/// Flash that holds these bytes, which are as many as the sectors have together.
fn flash_of(sectors: u32, sector_size: u32, bytes: Vec<u8>) -> MemoryFlash
    requires length { vec_len bytes ≡ sectors * sector_size }
    ensures flash { result ≡ device_of sectors sector_size bytes.items }
{
    MemoryFlash::from_bytes(sectors, sector_size, bytes)
}

/// The flash with its fuse; without one no call fails.
fn fused(flash: MemoryFlash, fuse: Option<Fuse>) -> FuseFlash {
    match fuse {
        Some(Fuse { calls, fused, fail }) => FuseFlash::new(flash, u64::from(calls), fused, fail),
        None => FuseFlash::new(flash, u64::MAX, Fused::Writes, Fail::Nothing),
    }
}

/// `mounted clean next V I`, and each line of the dump after a bar.
fn write_mounted<W: Write>(
    alloc: Global,
    core: &Core<FuseFlash>,
    out: &mut W,
) -> Result<(), ToolFault> {
    let mounted = mounted_next_text(alloc, core.clean(), &core.limits())?;
    let mut lines = Vec::new(alloc);
    dump(alloc, core.tree(), &mut lines)?;
    out.write_all(mounted.as_bytes())?;
    for line in lines.split(|byte| *byte == b'\n') {
        if line.len() > 0 {
            out.write_all(b" | ")?;
            out.write_all(line)?;
        }
    }
    Ok(())
}
