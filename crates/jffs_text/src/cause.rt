//! The names of causes.

ghost use Rattle.std.specs.Prelude.{◌≡◌};
ghost use Rattle.jffs_text.specs.Causes.{cause_text};

use jffs_tree::Cause;

/// The name of a cause, as it is printed.
pub fn cause_name(cause: Cause) -> &'static str
    ensures { result.now ≡ cause_text cause }
{
    match cause {
        Cause::RootFixed => "RootFixed",
        Cause::NoParent => "NoParent",
        Cause::NameTaken => "NameTaken",
        Cause::NotFound => "NotFound",
        Cause::IsDirectory => "IsDirectory",
        Cause::DataLong => "DataLong",
        Cause::FileLong => "FileLong",
        Cause::NotEmpty => "NotEmpty",
        Cause::NotNeeded => "NotNeeded",
        Cause::Stale => "Stale",
        Cause::InodesSpent => "InodesSpent",
        Cause::VersionsSpent => "VersionsSpent",
        Cause::Memory => "Memory",
        Cause::NoSpace => "NoSpace",
        Cause::Device => "Device",
        Cause::Failed => "Failed",
    }
}
