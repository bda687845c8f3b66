//! The names and texts of codes.

use crate::code::Code;

/// The name of a code, as it is written in the header.
pub(crate) fn name_of(code: Code) -> &'static str {
    match code {
        Code::Done => "Done",
        Code::RootFixed => "RootFixed",
        Code::NoParent => "NoParent",
        Code::NameTaken => "NameTaken",
        Code::NotFound => "NotFound",
        Code::IsDirectory => "IsDirectory",
        Code::DataLong => "DataLong",
        Code::FileLong => "FileLong",
        Code::NotEmpty => "NotEmpty",
        Code::NotNeeded => "NotNeeded",
        Code::Stale => "Stale",
        Code::InodesSpent => "InodesSpent",
        Code::VersionsSpent => "VersionsSpent",
        Code::Memory => "Memory",
        Code::NoSpace => "NoSpace",
        Code::Device => "Device",
        Code::Failed => "Failed",
        Code::CallsLeft => "CallsLeft",
        Code::Nothing => "Nothing",
        Code::BufferShort => "BufferShort",
        Code::PathNoSlash => "PathNoSlash",
        Code::PathNameEmpty => "PathNameEmpty",
        Code::PathNameLong => "PathNameLong",
        Code::PathNameByte => "PathNameByte",
        Code::PathDeep => "PathDeep",
        Code::Geometry => "Geometry",
        Code::BadRecord => "BadRecord",
        Code::NoErased => "NoErased",
        Code::Scattered => "Scattered",
        Code::BadOrder => "BadOrder",
        Code::BadTree => "BadTree",
    }
}

/// What a code says, in plain words.
pub(crate) fn text_of(code: Code) -> &'static str {
    match code {
        Code::Done => "done",
        Code::RootFixed => "the root stays as it is",
        Code::NoParent => "the directory of the path isn't there",
        Code::NameTaken => "the path is taken",
        Code::NotFound => "nothing stands at the path",
        Code::IsDirectory => "this can't be done to a directory",
        Code::DataLong => "the data is too long for one node",
        Code::FileLong => "the file would be too long",
        Code::NotEmpty => "the directory isn't empty",
        Code::NotNeeded => "no live node has this version",
        Code::Stale => "the copy isn't current",
        Code::InodesSpent => "no inode number is left",
        Code::VersionsSpent => "no version is left",
        Code::Memory => "memory was refused",
        Code::NoSpace => "the log has no room",
        Code::Device => "the flash failed",
        Code::Failed => "the flash failed earlier",
        Code::CallsLeft => "calls of the device are left",
        Code::Nothing => "there is none",
        Code::BufferShort => "the buffer is too short",
        Code::PathNoSlash => "a path begins with a slash",
        Code::PathNameEmpty => "a name is empty",
        Code::PathNameLong => "a name is longer than 20 bytes",
        Code::PathNameByte => "a name has a byte that is not allowed",
        Code::PathDeep => "a path has more than 8 names",
        Code::Geometry => "no volume has these sizes",
        Code::BadRecord => "a record is bad",
        Code::NoErased => "no sector is erased",
        Code::Scattered => "the erased sectors are scattered",
        Code::BadOrder => "the versions of the log don't rise",
        Code::BadTree => "the nodes of the log make no tree",
    }
}
