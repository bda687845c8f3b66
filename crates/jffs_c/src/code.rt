//! What the functions of the header answer.

ghost use Rattle.std.specs.Prelude.{◌≡◌, IfSome};
ghost use Rattle.jffs_c.specs.Codes.{number_of};

use jffs_node::PathFault;
use jffs_tree::Cause;

/// What a function answers. In C it is a number, which [`Code::number`] states for each: a new code
/// gets the next one, and none is given anew.
#[derive(Clone, Copy, Debug, PartialEq, Eq)]
pub enum Code {
    Done,
    RootFixed,
    NoParent,
    NameTaken,
    NotFound,
    IsDirectory,
    DataLong,
    FileLong,
    NotEmpty,
    NotNeeded,
    Stale,
    InodesSpent,
    VersionsSpent,
    Memory,
    NoSpace,
    Device,
    Failed,
    /// Calls of the device are left.
    CallsLeft,
    /// There is none: no call of the device, no name of this number, no sector to be cleaned.
    Nothing,
    /// The buffer is too short.
    BufferShort,
    PathNoSlash,
    PathNameEmpty,
    PathNameLong,
    PathNameByte,
    PathDeep,
    Geometry,
    BadRecord,
    NoErased,
    Scattered,
    BadOrder,
    BadTree,
}

/// Each code.
const CODES: [Code; 31] = [
    Code::Done,
    Code::RootFixed,
    Code::NoParent,
    Code::NameTaken,
    Code::NotFound,
    Code::IsDirectory,
    Code::DataLong,
    Code::FileLong,
    Code::NotEmpty,
    Code::NotNeeded,
    Code::Stale,
    Code::InodesSpent,
    Code::VersionsSpent,
    Code::Memory,
    Code::NoSpace,
    Code::Device,
    Code::Failed,
    Code::CallsLeft,
    Code::Nothing,
    Code::BufferShort,
    Code::PathNoSlash,
    Code::PathNameEmpty,
    Code::PathNameLong,
    Code::PathNameByte,
    Code::PathDeep,
    Code::Geometry,
    Code::BadRecord,
    Code::NoErased,
    Code::Scattered,
    Code::BadOrder,
    Code::BadTree,
];

impl Code {
    /// The code with this number; `None` where none has it.
    pub(crate) fn of_number(number: u32) -> Option<Code>
        ensures { IfSome result (λ code. number_of code ≡ number) }
    {
        for code in &CODES {
            if code.number() == number {
                return Some(*code);
            }
        }
        None
    }

    /// Its number.
    pub(crate) fn number(self) -> u32
        ensures { result ≡ number_of self }
    {
        match self {
            Code::Done => 0,
            Code::RootFixed => 1,
            Code::NoParent => 2,
            Code::NameTaken => 3,
            Code::NotFound => 4,
            Code::IsDirectory => 5,
            Code::DataLong => 6,
            Code::FileLong => 7,
            Code::NotEmpty => 8,
            Code::NotNeeded => 9,
            Code::Stale => 10,
            Code::InodesSpent => 11,
            Code::VersionsSpent => 12,
            Code::Memory => 13,
            Code::NoSpace => 14,
            Code::Device => 15,
            Code::Failed => 16,
            Code::CallsLeft => 17,
            Code::Nothing => 18,
            Code::BufferShort => 19,
            Code::PathNoSlash => 20,
            Code::PathNameEmpty => 21,
            Code::PathNameLong => 22,
            Code::PathNameByte => 23,
            Code::PathDeep => 24,
            Code::Geometry => 25,
            Code::BadRecord => 26,
            Code::NoErased => 27,
            Code::Scattered => 28,
            Code::BadOrder => 29,
            Code::BadTree => 30,
        }
    }
}

impl From<Cause> for Code {
    ghost use Rattle.jffs_c.specs.Asked.{code_of_cause};

    ghost from_gives = { λ cause code. code ≡ code_of_cause cause };

    fn from(cause: Cause) -> Code {
        match cause {
            Cause::RootFixed => Code::RootFixed,
            Cause::NoParent => Code::NoParent,
            Cause::NameTaken => Code::NameTaken,
            Cause::NotFound => Code::NotFound,
            Cause::IsDirectory => Code::IsDirectory,
            Cause::DataLong => Code::DataLong,
            Cause::FileLong => Code::FileLong,
            Cause::NotEmpty => Code::NotEmpty,
            Cause::NotNeeded => Code::NotNeeded,
            Cause::Stale => Code::Stale,
            Cause::InodesSpent => Code::InodesSpent,
            Cause::VersionsSpent => Code::VersionsSpent,
            Cause::Memory => Code::Memory,
            Cause::NoSpace => Code::NoSpace,
            Cause::Device => Code::Device,
            Cause::Failed => Code::Failed,
        }
    }
}

impl From<PathFault> for Code {
    ghost use Rattle.jffs_c.specs.Seen.{code_of_fault};

    ghost from_gives = { λ fault code. code ≡ code_of_fault fault };

    fn from(fault: PathFault) -> Code {
        match fault {
            PathFault::NoSlash => Code::PathNoSlash,
            PathFault::NameEmpty => Code::PathNameEmpty,
            PathFault::NameLong => Code::PathNameLong,
            PathFault::NameByte => Code::PathNameByte,
            PathFault::Deep => Code::PathDeep,
            PathFault::Memory => Code::Memory,
        }
    }
}
