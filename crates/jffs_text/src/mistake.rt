//! What is wrong with a line, as people are told of it.

use crate::fault::{ScriptFault, ScriptWhy};
use crate::quote::Quote;
use crate::script::{COMMANDS_MAX, LINE_MAX, READERS_MAX, SCRIPT_MAX, WRITERS_MAX};
use jffs_flash::{MAX_SECTORS, MIN_SECTORS};
use jffs_node::{NoMemory, PathFault};
use std::alloc::{AllocError, AllocFailed};
use thiserror::Error;

/// What is wrong with a line of a script or of a replay, with the word that it is about.
#[derive(Clone, Copy, Debug, PartialEq, Eq, Error)]
pub enum Mistake {
    /// Each line is empty or a comment.
    #[error("there is no statement; the first is 'volume S Z'")]
    Empty,
    /// A line of too many bytes.
    #[error("the line has more than {LINE_MAX} bytes")]
    Long,
    /// A line with which the script has too many bytes.
    #[error("the script has more than {SCRIPT_MAX} bytes")]
    Endless,
    /// The line's one byte that isn't allowed is a CR at its end.
    #[error("the line ends with CR LF, where LF alone is wanted: tr -d '\\r' mends it")]
    CarriageReturn,
    /// A tab; the line's bytes count from 1.
    #[error("byte {at} is a tab, where one space is wanted")]
    Tab { at: usize },
    /// A byte that isn't printable ASCII; the line's bytes count from 1.
    #[error("byte {at} has the value {byte}, and only printable ASCII is allowed, 32 to 126")]
    Byte { at: usize, byte: u8 },
    /// The first statement of a script is another one than `volume`.
    #[error("the first statement has to be 'volume S Z', got {0}")]
    NoVolume(Quote),
    /// A volume may not have so many sectors.
    #[error("a volume has {MIN_SECTORS} to {MAX_SECTORS} sectors, got {0}")]
    Sectors(u32),
    /// A sector may not have so many bytes.
    #[error("a sector has 1024, 2048, 4096, 8192 or 16384 bytes, got {0}")]
    SectorSize(u32),
    /// The first word is none of a script's.
    #[error("unknown command {0}; commands are mkdir, create, write, fill, truncate, rename and \
    remove, and before them stand volume, line, cleaner, reader and writer")]
    Command(Quote),
    /// The first word of a replay's request is none of its own.
    #[error("unknown command {0}; commands are mkdir, create, write, fill, truncate, rename, \
    remove, copy and unmount")]
    Request(Quote),
    /// The first word of a replay's line is none of its own.
    #[error("unknown operation {0}; operations are flash, image, fuse, mount, request, \
    clean_oldest and erase_dead")]
    Operation(Quote),
    /// A word that may be only one of these.
    #[error("{wanted} expected, got {word}")]
    Choice { wanted: &'static str, word: Quote },
    /// Two spaces in a row, or one at an end of the line.
    #[error("a space too many: words stand one space apart, and none stands at an end of the line")]
    Spaces,
    /// A statement of fewer words than it has; the form shows them.
    #[error("a word is missing: {0}")]
    Few(&'static str),
    /// A statement of more words than it has, the first that is too many, and the statement's form.
    #[error("unexpected word {word}: {form}")]
    Extra { word: Quote, form: &'static str },
    /// `volume` once more.
    #[error("a second 'volume', where a script has one")]
    SecondVolume,
    /// `line` or `cleaner` once more.
    #[error("a second '{0}', where a script has one")]
    Second(&'static str),
    /// `line`, `cleaner` or `reader` after a writer.
    #[error("'{0}' has to come before the first 'writer'")]
    Late(&'static str),
    /// A command before the first `writer`.
    #[error("a command before the first 'writer'")]
    Outside,
    /// Too many readers.
    #[error("more than {READERS_MAX} readers")]
    Readers,
    /// Too many writers.
    #[error("more than {WRITERS_MAX} writers")]
    Writers,
    /// Too many commands of one writer.
    #[error("more than {COMMANDS_MAX} commands of one writer")]
    Commands,
    /// A word that isn't a number.
    #[error("number expected, got {0}")]
    Number(Quote),
    /// A number with a zero before it.
    #[error("number expected, got {0} (leading zero)")]
    LeadingZero(Quote),
    /// A number that is too small or too large.
    #[error("number from {least} to {most} expected, got {word}")]
    Range { least: u32, most: u32, word: Quote },
    /// A word that isn't hex.
    #[error("hex expected, got {0}: digits 0 to 9 and a to f, two for each byte, or '-' \
    for no bytes")]
    Hex(Quote),
    /// Hex of an odd number of digits.
    #[error("hex expected, got {0}: the number of its digits is odd")]
    OddHex(Quote),
    /// A word that isn't the two digits of one byte.
    #[error("one byte expected, as two digits of hex, got {0}")]
    OneByte(Quote),
    /// A word that isn't a path.
    #[error("path expected, got {word}: {fault}")]
    Path { word: Quote, fault: PathFault },
    /// A word that isn't a name.
    #[error("name expected, got {0}: 1 to 20 printable bytes, and no slash")]
    Name(Quote),
    /// Allocation failed.
    #[error("out of memory")]
    Memory,
}

impl Mistake {
    /// What kind of refusal it is. On the first statement of a script each kind but `Text` counts
    /// as
    /// `Volume`.
    pub fn why(self) -> ScriptWhy {
        match self {
            Mistake::Empty => ScriptWhy::Empty,
            Mistake::Long
            | Mistake::Endless
            | Mistake::CarriageReturn
            | Mistake::Tab { .. }
            | Mistake::Byte { .. } => ScriptWhy::Text,
            Mistake::NoVolume(_) | Mistake::Sectors(_) | Mistake::SectorSize(_) => {
                ScriptWhy::Volume
            }
            Mistake::Command(_)
            | Mistake::Request(_)
            | Mistake::Operation(_)
            | Mistake::Choice { .. }
            | Mistake::Spaces
            | Mistake::Few(_)
            | Mistake::Extra { .. }
            | Mistake::SecondVolume => ScriptWhy::Command,
            Mistake::Second(_) | Mistake::Late(_) => ScriptWhy::Header,
            Mistake::Outside => ScriptWhy::Outside,
            Mistake::Readers | Mistake::Writers | Mistake::Commands => ScriptWhy::Many,
            Mistake::Number(_) | Mistake::LeadingZero(_) | Mistake::Range { .. } => {
                ScriptWhy::Number
            }
            Mistake::Hex(_) | Mistake::OddHex(_) | Mistake::OneByte(_) => ScriptWhy::Hex,
            Mistake::Path { .. } | Mistake::Name(_) => ScriptWhy::Path,
            Mistake::Memory => ScriptWhy::Memory,
        }
    }
}

impl From<AllocError> for Mistake {
    fn from(_: AllocError) -> Mistake {
        Mistake::Memory
    }
}

impl From<NoMemory> for Mistake {
    fn from(_: NoMemory) -> Mistake {
        Mistake::Memory
    }
}

impl<T: Drop> From<AllocFailed<T>> for Mistake {
    fn from(_: AllocFailed<T>) -> Mistake {
        Mistake::Memory
    }
}

/// Why a script is refused, as a program is told of it and as people are. Shown as `line N: ` and
/// what is wrong there.
#[derive(Clone, Copy, Debug, PartialEq, Eq, Error)]
#[error("line {}: {mistake}", .fault.line)]
pub struct ScriptMistake {
    /// The first line that is refused, from 1, and the kind of refusal.
    pub fault: ScriptFault,
    /// What is wrong on that line.
    pub mistake: Mistake,
}
