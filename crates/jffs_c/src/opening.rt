//! A volume from the bytes of its medium.

ghost use Rattle.std.specs.Prelude.{◌≡◌, ◌*◌, IfOk, IfErr, IfSome, None, length};
ghost use Rattle.jffs_c.specs.Opened.{IsOpened, IsNotOpened, HasNoGeometry};
ghost use Rattle.jffs_c.specs.Opened.{number_of_rule, told_of, told_plainly};

use crate::code::Code;
use crate::volume::Volume;
use jffs_flash::{MemoryFlash, is_geometry};
use jffs_log::ScanWhy;
use jffs_node::Why;
use jffs_queue::HandedFlash;
use jffs_session::Session;
use std::alloc::Global;

/// What a refused volume is refused for. All are 0 but for `BadRecord`.
#[repr(C)]
#[derive(Clone, Copy, Debug, PartialEq, Eq)]
pub struct Refusal {
    /// The sector of the bad record, counted from 0.
    pub sector: u32,
    /// Where it begins in the sector, in bytes.
    pub place: u32,
    /// The rule that it breaks, from 1: Magic, Kind, Flags, Name, Form, Spare, Size, Pad.
    pub rule: u32,
}

/// Why no volume is opened.
#[derive(Drop)]
pub(crate) struct Refused {
    pub code: Code,
    pub refusal: Refusal,
}

/// Opens a copy of these bytes, of sectors of this size. Where an erase was cut off on them, the
/// calls that end it are left.
///
/// `Geometry` where no volume has these sizes, then the causes of a scan; `Memory`.
pub(crate) fn open(alloc: Global, bytes: &[u8], sector_size: u32) -> Result<Box<Volume>, Refused>
    ensures opened { IfOk result (λ volume. IsOpened bytes.now sector_size volume.value) }
    ensures refused { IfErr result (λ refused. IsNotOpened bytes.now sector_size refused) }
{
    let Some(sectors) = sectors_of(bytes, sector_size) else {
        return Err(plain(Code::Geometry));
    };
    let Ok(bytes) = bytes.to_vec(alloc) else {
        return Err(plain(Code::Memory));
    };
    let medium = MemoryFlash::from_bytes(sectors, sector_size, bytes);
    match Session::open(alloc, HandedFlash::new(alloc, medium)) {
        Ok(opened) => match Box::new(alloc, Volume::new(alloc, opened)) {
            Ok(volume) => Ok(volume),
            Err(_) => Err(plain(Code::Memory)),
        },
        Err(fault) => Err(refusal_of(fault.why)),
    }
}

/// How many sectors of this size the bytes are; `None` where no volume has these sizes.
fn sectors_of(bytes: &[u8], sector_size: u32) -> Option<u32>
    ensures whole { IfSome result (λ sectors. length bytes.now ≡ sectors * sector_size) }
    ensures none { result ≡ None → HasNoGeometry bytes.now sector_size }
{
    let len = u32::try_from(bytes.len()).ok()?;
    let sectors = len.checked_div(sector_size)?;
    let whole = u64::from(sectors) * u64::from(sector_size) == u64::from(len);
    if whole && is_geometry(sectors, sector_size) {
        Some(sectors)
    } else {
        None
    }
}

/// A refusal that is told by its code alone.
fn plain(code: Code) -> Refused
    ensures { result ≡ told_plainly code }
{
    Refused {
        code,
        refusal: Refusal {
            sector: 0,
            place: 0,
            rule: 0,
        },
    }
}

/// What is told of a scan. This device fails only where memory is wanting for a call.
fn refusal_of(why: ScanWhy) -> Refused
    ensures { result ≡ told_of why }
{
    match why {
        ScanWhy::BadRecord { sector, place, why } => Refused {
            code: Code::BadRecord,
            refusal: Refusal {
                sector,
                place,
                rule: rule_of(why),
            },
        },
        ScanWhy::Geometry => plain(Code::Geometry),
        ScanWhy::NoErased => plain(Code::NoErased),
        ScanWhy::Scattered => plain(Code::Scattered),
        ScanWhy::BadOrder => plain(Code::BadOrder),
        ScanWhy::BadTree => plain(Code::BadTree),
        ScanWhy::Device | ScanWhy::Memory => plain(Code::Memory),
    }
}

/// The number of a rule.
fn rule_of(why: Why) -> u32
    ensures { result ≡ number_of_rule why }
{
    match why {
        Why::Magic => 1,
        Why::Kind => 2,
        Why::Flags => 3,
        Why::Name => 4,
        Why::Form => 5,
        Why::Spare => 6,
        Why::Size => 7,
        Why::Pad => 8,
    }
}
