//! What ends a command before its work is done.

ghost use Rattle.std.specs.Prelude.{◌≡◌, ◌⊎◌};

use crate::leftover::Leftover;
use jffs_file::{FileFault, StoreFault};
use jffs_flash::{MAX_SECTORS, MIN_SECTORS, VOLUME_MAX};
use jffs_log::ScanWhy;
use jffs_node::{NoMemory, PathFault};
use jffs_protocol::StreamFault;
use jffs_tree::Cause;
use std::alloc::{AllocError, AllocFailed};
use std::io;
use std::io::ErrorKind;
use thiserror::Error;

/// The status of a command that was done.
pub(crate) const DONE: u8 = 0;
/// The status where memory was lacking, or a stream or the medium failed.
pub(crate) const BROKEN: u8 = 1;
/// The status of a wrong call, or a file that can't be used.
pub(crate) const MISUSED: u8 = 2;
/// The status where no volume is in the file.
pub(crate) const NO_VOLUME: u8 = 3;
/// The status where the file system refused what was asked for.
pub(crate) const REFUSED: u8 = 4;

/// Why a command ends before its work is done.
#[derive(Clone, Copy, Debug, PartialEq, Eq, Error)]
pub enum VolumeFault {
    /// There is no flash in the file.
    #[error("{0}")]
    File(FileFault),
    /// The file can't be read.
    #[error("the file can't be read")]
    Unread,
    /// The file has more bytes than any volume.
    #[error("the file has more than {VOLUME_MAX} bytes, which no volume has")]
    Large,
    /// Another program changes the file, or may: it holds its lock.
    #[error("another program has the file locked: one at a time may change it")]
    Locked,
    /// The file can't be locked.
    #[error("the file can't be locked")]
    NoLock,
    /// The file has so many bytes, which are no whole number of sectors of this size.
    #[error("the file has {found} bytes, which are no whole number of sectors of {size} bytes")]
    Length { found: u64, size: u32 },
    /// A volume may not have so many sectors.
    #[error("a volume has {MIN_SECTORS} to {MAX_SECTORS} sectors, got {0}")]
    Sectors(u32),
    /// A sector may not have so many bytes.
    #[error("a sector has 1024, 2048, 4096, 8192 or 16384 bytes, got {0}")]
    SectorSize(u32),
    /// More than one size of the sectors makes a volume of the file.
    #[error("the file is a volume with sectors of more than one size: give --sector-size")]
    Sizes,
    /// No size of the sectors makes a volume of the file, and it may have more than one.
    #[error("no volume, and the file may have sectors of more than one size: give --sector-size")]
    AnySize,
    /// No size of the sectors makes a volume of the file.
    #[error("no volume, whatever the size of its sectors: --sector-size tells why not")]
    NoSize,
    /// The file has so many bytes, as no volume has.
    #[error("no volume has {0} bytes: it has {MIN_SECTORS} to {MAX_SECTORS} sectors of 1024, 2048, \
    4096, 8192 or 16384")]
    NoLength(u64),
    /// There is no volume in the file.
    #[error("no volume: {0}")]
    NoVolume(ScanWhy),
    /// A word is no path.
    #[error("{0}")]
    Path(PathFault),
    /// Nothing stands at the path.
    #[error("nothing stands at the path")]
    Nothing,
    /// A directory stands at the path, where a file was wanted.
    #[error("a directory stands at the path")]
    Directory,
    /// A file of a put that wasn't finished stands in the directory.
    #[error("a put wasn't finished, and left what it had in the file '.put.new' beside the \
    path: mv it or rm it")]
    Left,
    /// A put was stopped, for this cause, and has left this.
    #[error("{cause}; {left}")]
    Unfinished { cause: Cause, left: Leftover },
    /// Each change is done, and the unmount after them was refused, for this cause.
    #[error("what was asked for is done, but the volume isn't unmounted: {0}")]
    NotClosed(Cause),
    /// The log has no room.
    #[error("the log has no room: rm what can go, and ask again; df tells how full it is")]
    NoSpace,
    /// The log has no room for a removal.
    #[error("the log has no room, not even to remove something: save it, and load it into a \
    larger volume")]
    Stuck,
    /// The path is one that an unfinished put has.
    #[error("the name '.put.new' is kept for puts that aren't finished")]
    Reserved,
    /// The request was refused.
    #[error("{0}")]
    Refused(Cause),
    /// There is no such directory or file on the host.
    #[error("the host has no such directory or file")]
    HostMissing,
    /// Something of that name stands on the host already.
    #[error("the host has something of that name already")]
    HostTaken,
    /// A directory or file of the host can't be opened or read.
    #[error("the host's directory or file can't be read")]
    HostRead,
    /// A directory or file of the host can't be made.
    #[error("the host's directory or file can't be made")]
    HostMake,
    /// A file of the host can't be written.
    #[error("the host's file can't be written")]
    HostWrite,
    /// What stands there on the host is no plain file and no directory.
    #[error("what the host has there is neither a file nor a directory")]
    Special,
    /// A name on the volume means something else in a path of the host.
    #[error("a name '.' or '..' can't be saved: mv it")]
    Dots,
    /// The medium under the file failed.
    #[error("the file can't be brought to its medium")]
    Medium,
    /// Standard input can't be read.
    #[error("standard input can't be read")]
    Read,
    /// Standard output can't be written.
    #[error("standard output can't be written")]
    Write,
    /// Standard error can't be written, where that says what is missing.
    #[error("standard error can't be written")]
    Errors,
    /// Allocation failed.
    #[error("out of memory")]
    Memory,
}

impl VolumeFault {
    /// The status that the program ends with: 1 to 4, as `run_volume` says.
    pub fn status(self) -> u8 {
        match self {
            VolumeFault::File(FileFault::Memory | FileFault::Write | FileFault::Left)
            | VolumeFault::HostWrite => { BROKEN },
            VolumeFault::File(_)
            | VolumeFault::Unread
            | VolumeFault::Large
            | VolumeFault::Locked
            | VolumeFault::NoLock
            | VolumeFault::Length { .. }
            | VolumeFault::Sectors(_)
            | VolumeFault::SectorSize(_)
            | VolumeFault::Sizes
            | VolumeFault::AnySize
            | VolumeFault::Path(_)
            | VolumeFault::Reserved
            | VolumeFault::HostMissing
            | VolumeFault::HostTaken
            | VolumeFault::HostRead
            | VolumeFault::HostMake
            | VolumeFault::Special
            | VolumeFault::Dots => { MISUSED },
            VolumeFault::NoSize | VolumeFault::NoLength(_) | VolumeFault::NoVolume(_) => NO_VOLUME,
            VolumeFault::Refused(cause)
            | VolumeFault::Unfinished { cause, .. }
            | VolumeFault::NotClosed(cause) => status_of(cause),
            VolumeFault::Nothing
            | VolumeFault::Directory
            | VolumeFault::Left
            | VolumeFault::NoSpace
            | VolumeFault::Stuck => { REFUSED },
            VolumeFault::Medium
            | VolumeFault::Read
            | VolumeFault::Write
            | VolumeFault::Errors
            | VolumeFault::Memory => { BROKEN },
        }
    }

    /// The cause of a refusal, as the script's page has it.
    pub(crate) fn cause(self) -> Option<Cause> {
        match self {
            VolumeFault::Refused(cause) | VolumeFault::Unfinished { cause, .. } => Some(cause),
            VolumeFault::NoSpace | VolumeFault::Stuck => Some(Cause::NoSpace),
            VolumeFault::Memory => Some(Cause::Memory),
            _ => None,
        }
    }

    /// What an error of the volume's file ends a command with that only reads it.
    pub fn of_file_read(error: io::Error) -> VolumeFault {
        match error.kind() {
            ErrorKind::OutOfMemory => VolumeFault::Memory,
            ErrorKind::NotFound => VolumeFault::File(FileFault::Missing),
            _ => VolumeFault::Unread,
        }
    }

    /// What an error of standard input ends a command with.
    pub fn of_input(error: io::Error) -> VolumeFault {
        match error.kind() {
            ErrorKind::OutOfMemory => VolumeFault::Memory,
            _ => VolumeFault::Read,
        }
    }

    /// What an error of a directory or file of the host ends a command with that reads it. A name
    /// that is no text is one that no path has.
    pub fn of_host_read(error: io::Error) -> VolumeFault {
        match error.kind() {
            ErrorKind::OutOfMemory => VolumeFault::Memory,
            ErrorKind::NotFound => VolumeFault::HostMissing,
            ErrorKind::InvalidFilename => VolumeFault::Path(PathFault::NameByte),
            _ => VolumeFault::HostRead,
        }
    }

    /// What an error ends a command with that makes a directory or file of the host.
    pub fn of_host_make(error: io::Error) -> VolumeFault {
        match error.kind() {
            ErrorKind::OutOfMemory => VolumeFault::Memory,
            ErrorKind::NotFound => VolumeFault::HostMissing,
            ErrorKind::AlreadyExists => VolumeFault::HostTaken,
            _ => VolumeFault::HostMake,
        }
    }

    /// What an error ends a command with that writes a file of the host.
    pub fn of_host_write(error: io::Error) -> VolumeFault {
        match error.kind() {
            ErrorKind::OutOfMemory => VolumeFault::Memory,
            _ => VolumeFault::HostWrite,
        }
    }
}

/// The status of a command that was refused for this cause.
fn status_of(cause: Cause) -> u8 {
    match cause {
        Cause::Memory | Cause::Device | Cause::Failed => BROKEN,
        _ => REFUSED,
    }
}

/// An error of standard output.
impl From<io::Error> for VolumeFault {
    ghost use Rattle.jffs_manage.specs.declared.fault.VolumeFault.TheVariants.{Memory, Write};

    ghost from_gives = { λ _ fault. (fault ≡ Memory) ⊎ (fault ≡ Write) };

    fn from(error: io::Error) -> VolumeFault {
        match error.kind() {
            ErrorKind::OutOfMemory => VolumeFault::Memory,
            _ => VolumeFault::Write,
        }
    }
}

impl From<FileFault> for VolumeFault {
    fn from(fault: FileFault) -> VolumeFault {
        match fault {
            FileFault::Length => VolumeFault::Large,
            _ => VolumeFault::File(fault),
        }
    }
}

impl From<PathFault> for VolumeFault {
    fn from(fault: PathFault) -> VolumeFault {
        match fault {
            PathFault::Memory => VolumeFault::Memory,
            _ => VolumeFault::Path(fault),
        }
    }
}

impl From<StreamFault> for VolumeFault {
    fn from(fault: StreamFault) -> VolumeFault {
        match fault {
            StreamFault::Input => VolumeFault::Read,
            StreamFault::Output => VolumeFault::Write,
            StreamFault::Memory => VolumeFault::Memory,
        }
    }
}

impl From<StoreFault> for VolumeFault {
    fn from(_: StoreFault) -> VolumeFault {
        VolumeFault::Medium
    }
}

impl From<NoMemory> for VolumeFault {
    ghost use Rattle.jffs_manage.specs.declared.fault.VolumeFault.TheVariants.{Memory};

    ghost from_gives = { λ _ fault. fault ≡ Memory };

    fn from(_: NoMemory) -> VolumeFault {
        VolumeFault::Memory
    }
}

impl From<AllocError> for VolumeFault {
    fn from(_: AllocError) -> VolumeFault {
        VolumeFault::Memory
    }
}

impl<T: Drop> From<AllocFailed<T>> for VolumeFault {
    fn from(_: AllocFailed<T>) -> VolumeFault {
        VolumeFault::Memory
    }
}
