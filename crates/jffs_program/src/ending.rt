//! What ends the program before its lines are whole: what is printed then, what people are told,
//! and the status.

use crate::reading::{InputFault, Unread};
use jffs_file::{FileFault, StoreFault};
use jffs_flash::FlashNew;
use jffs_log::ScanWhy;
use jffs_run::RunWhy;
use jffs_text::{DumpFault, ScriptMistake, Shown};
use std::io;
use std::io::{ErrorKind, Write};
use thiserror::Error;

/// The status of a program that printed all its lines.
pub(crate) const DONE: u8 = 0;
/// The status of a program that was given up.
const BROKEN: u8 = 1;
/// The status of a script that is refused, or whose file can't be read.
const REFUSED: u8 = 2;

/// What ends the program before its lines are whole; as people are told of it.
#[derive(Clone, Copy, Debug, PartialEq, Eq, Error)]
pub(crate) enum Fault<'a> {
    /// The one line `bad script, ..`, status 2.
    #[error("{0}")]
    Script(ScriptMistake),
    /// The script's file can't be read: no line, status 2, or 1 for want of memory.
    #[error("{}: {why}", Shown::text(path))]
    NoScript {
        path: &'a str,
        why: Unread,
    },
    /// There is no flash in the volume's file: no line, status 1.
    #[error("{}: {why}", Shown::text(path))]
    NoFlash {
        path: &'a str,
        why: FileFault,
    },
    /// The volume's file isn't as long as the script's sectors together: no line, status 1.
    #[error("{}: the file has {found} bytes, and the script's sectors have {wanted} together", Shown::text(path))]
    OtherLength {
        path: &'a str,
        found: u64,
        wanted: u64,
    },
    /// There is no volume in the file: the line `fault: Mount`, status 1.
    #[error("{}: no volume, {name}: {why}", Shown::text(path))]
    NoVolume {
        path: &'a str,
        name: &'static str,
        why: ScanWhy,
    },
    /// The line `fault: WHY`, status 1.
    #[error("{}", .0.text())]
    Broken(ProgramWhy),
}

/// The name in a line `fault: WHY`.
#[derive(Clone, Copy, Debug, PartialEq, Eq, Error)]
pub(crate) enum ProgramWhy {
    #[error("Read")]
    Read,
    #[error("Write")]
    Write,
    #[error("Memory")]
    Memory,
    #[error("Geometry")]
    Geometry,
    #[error("Scan")]
    Scan,
    /// What was written didn't reach the medium of the volume's file.
    #[error("Medium")]
    Medium,
    /// The volume can't be mounted, for this reason.
    #[error("Mount")]
    Mount(ScanWhy),
    #[error("{0}")]
    Run(RunWhy),
}

impl ProgramWhy {
    /// What people are told.
    fn text(self) -> &'static str {
        match self {
            ProgramWhy::Read => "standard input can't be read",
            ProgramWhy::Write => "standard output can't be written",
            ProgramWhy::Memory | ProgramWhy::Run(RunWhy::Memory) => "out of memory",
            ProgramWhy::Geometry => "a volume may not have so many sectors of this size",
            ProgramWhy::Scan => "what the run left on the flash is no volume, or can't be read",
            ProgramWhy::Medium => "the volume's file can't be brought to its medium",
            ProgramWhy::Mount(_) | ProgramWhy::Run(RunWhy::Mount) => "the volume can't be mounted",
            ProgramWhy::Run(RunWhy::Line) => "the line of requests can't be made",
            ProgramWhy::Run(RunWhy::Index) => "the index that readers look into can't be made",
            ProgramWhy::Run(RunWhy::Spawn) => "a thread can't be started",
            ProgramWhy::Run(RunWhy::Numbers) => "a writer's last number is used",
            ProgramWhy::Run(RunWhy::Settle) => "the ends of the line can't be taken back",
        }
    }
}

impl<'a> Fault<'a> {
    /// Why a run on the volume in a file was given up.
    pub(crate) fn on_file(path: &'a str, why: ProgramWhy) -> Fault<'a> {
        match why {
            ProgramWhy::Mount(why) => Fault::NoVolume {
                path,
                name: refusal_name(why),
                why,
            },
            why => Fault::Broken(why),
        }
    }

    /// The exit status.
    fn status(self) -> u8 {
        match self {
            Fault::NoScript {
                why: Unread::Memory,
                ..
            } => BROKEN,
            Fault::Script(_) | Fault::NoScript { .. } => REFUSED,
            Fault::NoFlash { .. }
            | Fault::OtherLength { .. }
            | Fault::NoVolume { .. }
            | Fault::Broken(_) => { BROKEN },
        }
    }

    /// Writes the line that a program reads, where there is one.
    fn print<W: Write>(self, out: &mut W) -> io::Result<()> {
        match self {
            Fault::Script(mistake) => writeln!(out, "{}", mistake.fault)?,
            Fault::NoVolume { why, .. } => writeln!(out, "fault: {}", ProgramWhy::Mount(why))?,
            Fault::Broken(why) => writeln!(out, "fault: {why}")?,
            Fault::NoScript { .. } | Fault::NoFlash { .. } | Fault::OtherLength { .. } => {}
        }
        out.flush()
    }
}

/// The exit status of a program that ended so. A fault is told of on `errors`, and its line is
/// written to `out`; each is dropped where it can't be written.
pub(crate) fn status_of<W: Write, E: Write>(
    ended: Result<(), Fault<'_>>,
    out: &mut W,
    errors: &mut E,
) -> u8 {
    match ended {
        Ok(()) => DONE,
        Err(fault) => {
            let _ = writeln!(errors, "jffs: {fault}");
            let _ = fault.print(out);
            fault.status()
        }
    }
}

/// The name of a refusal, as the format's page and the tools have it.
fn refusal_name(why: ScanWhy) -> &'static str {
    match why {
        ScanWhy::Geometry => "Geometry",
        ScanWhy::Device => "Device",
        ScanWhy::BadRecord { .. } => "BadRecord",
        ScanWhy::NoErased => "NoErased",
        ScanWhy::Scattered => "Scattered",
        ScanWhy::BadOrder => "BadOrder",
        ScanWhy::BadTree => "BadTree",
        ScanWhy::Memory => "Memory",
    }
}

impl<'a> From<ProgramWhy> for Fault<'a> {
    fn from(why: ProgramWhy) -> Fault<'a> {
        Fault::Broken(why)
    }
}

/// An error of standard output.
impl From<io::Error> for ProgramWhy {
    fn from(error: io::Error) -> ProgramWhy {
        match error.kind() {
            ErrorKind::OutOfMemory => ProgramWhy::Memory,
            _ => ProgramWhy::Write,
        }
    }
}

impl From<StoreFault> for ProgramWhy {
    fn from(_: StoreFault) -> ProgramWhy {
        ProgramWhy::Medium
    }
}

impl From<DumpFault> for ProgramWhy {
    fn from(fault: DumpFault) -> ProgramWhy {
        match fault {
            DumpFault::Write => ProgramWhy::Write,
            DumpFault::Memory => ProgramWhy::Memory,
        }
    }
}

impl From<FlashNew> for ProgramWhy {
    fn from(fault: FlashNew) -> ProgramWhy {
        match fault {
            FlashNew::Geometry => ProgramWhy::Geometry,
            FlashNew::Memory => ProgramWhy::Memory,
        }
    }
}

impl<'a> From<InputFault> for Fault<'a> {
    fn from(fault: InputFault) -> Fault<'a> {
        Fault::Broken(match fault {
            InputFault::Read => ProgramWhy::Read,
            InputFault::Memory => ProgramWhy::Memory,
        })
    }
}
