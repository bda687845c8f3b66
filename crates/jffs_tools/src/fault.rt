//! What ends a tool before its work is done.

ghost use Rattle.std.specs.Prelude.{◌≡◌, ◌≢◌};
ghost use Rattle.std.specs.IoError.{error_kind};
ghost use Rattle.jffs_tools.specs.Faults.{status_of};

use jffs_node::NoMemory;
use jffs_text::{DumpFault, Mistake, Quote};
use std::alloc::{AllocError, AllocFailed};
use std::io;
use std::io::ErrorKind;
use thiserror::Error;

/// The status of a tool that did all that it was asked for.
pub(crate) const DONE: u8 = 0;
/// The status of a tool that lacked memory, or that could not read its input or write its output.
pub(crate) const BROKEN: u8 = 1;
/// The status of a tool that was called in a wrong way.
pub(crate) const MISUSED: u8 = 2;
/// The status of an image that the scan refuses.
pub(crate) const REFUSED: u8 = 3;

/// Why a tool ends before its work is done.
#[derive(Clone, Copy, Debug, PartialEq, Eq, Error)]
pub enum ToolFault {
    /// A line that is no operation.
    #[error("{0}")]
    Operation(Mistake),
    /// An operation that wants flash, before any stands there.
    #[error("there is no flash yet")]
    NoFlash,
    /// An operation that wants a core, where none is mounted.
    #[error("nothing is mounted")]
    NotMounted,
    /// A request to a core that was unmounted.
    #[error("the core is closed")]
    Closed,
    /// There is no such file.
    #[error("there is no file {0}")]
    Missing(Quote),
    /// A file that can't be read.
    #[error("the file {0} can't be read")]
    File(Quote),
    /// An image of fewer bytes than its sectors have together.
    #[error("the image has {found} bytes, and its sectors have {wanted} together")]
    Short { found: u64, wanted: u64 },
    /// An image of more bytes than its sectors have together, which are so many.
    #[error("the image is longer than its sectors, which have {0} bytes together")]
    Long(u64),
    /// The digest of flash that is larger than any volume, whose bytes aren't kept.
    #[error("the flash is larger than any volume")]
    Large,
    /// A call has fewer words than two.
    #[error("SECTORS and SECTOR_SIZE are wanted, two numbers; the image comes on standard input")]
    Few,
    /// A word of a call isn't a number.
    #[error("SECTORS and SECTOR_SIZE are wanted, two numbers, got {0}; the image comes on \
    standard input")]
    Word(Quote),
    /// A call has a word after its two numbers.
    #[error("unexpected word {0}: the image comes on standard input")]
    Extra(Quote),
    /// Standard input can't be read.
    #[error("standard input can't be read")]
    Read,
    /// Standard output can't be written.
    #[error("standard output can't be written")]
    Write,
    /// Allocation failed.
    #[error("out of memory")]
    Memory,
}

impl ToolFault {
    /// The status that a tool ends with.
    pub(crate) fn status(self) -> u8
        ensures { result ≡ status_of self }
    {
        match self {
            ToolFault::Read | ToolFault::Write | ToolFault::Memory => BROKEN,
            _ => MISUSED,
        }
    }

    /// What an error of standard input ends a tool with.
    pub(crate) fn of_input(error: io::Error) -> ToolFault {
        ToolFault::of_stream(error, ToolFault::Read)
    }

    /// What an error of the file of this name ends a tool with.
    pub(crate) fn of_file(file: &str, error: io::Error) -> ToolFault {
        let file = Quote::of(file);
        match error.kind() {
            ErrorKind::NotFound => ToolFault::Missing(file),
            _ => ToolFault::of_stream(error, ToolFault::File(file)),
        }
    }

    /// Memory where allocation failed, which is no fault of the stream, and else the stream's own
    /// fault.
    fn of_stream(error: io::Error, fault: ToolFault) -> ToolFault
        ensures memory { error_kind error ≡ ErrorKind.OutOfMemory → result ≡ ToolFault.Memory }
        ensures other { error_kind error ≢ ErrorKind.OutOfMemory → result ≡ fault }
    {
        match error.kind() {
            ErrorKind::OutOfMemory => ToolFault::Memory,
            _ => fault,
        }
    }
}

/// An error of standard output.
impl From<io::Error> for ToolFault {
    fn from(error: io::Error) -> ToolFault {
        ToolFault::of_stream(error, ToolFault::Write)
    }
}

impl From<DumpFault> for ToolFault {
    fn from(fault: DumpFault) -> ToolFault {
        match fault {
            DumpFault::Write => ToolFault::Write,
            DumpFault::Memory => ToolFault::Memory,
        }
    }
}

impl From<NoMemory> for ToolFault {
    fn from(_: NoMemory) -> ToolFault {
        ToolFault::Memory
    }
}

impl From<AllocError> for ToolFault {
    fn from(_: AllocError) -> ToolFault {
        ToolFault::Memory
    }
}

impl<T: Drop> From<AllocFailed<T>> for ToolFault {
    fn from(_: AllocFailed<T>) -> ToolFault {
        ToolFault::Memory
    }
}
