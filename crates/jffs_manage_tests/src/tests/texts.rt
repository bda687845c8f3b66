//! The texts of faults that no call meets on a machine that works, from plain values.

use jffs_file::{FileFault, StoreFault};
use jffs_log::ScanWhy;
use jffs_manage::{CallFault, Leftover, Unseen, VolumeFault};
use jffs_node::{NoMemory, PathFault};
use jffs_tree::Cause;
use std::alloc::{AllocError, AllocFailed, Global};
use std::io;
use std::io::ErrorKind;
use std::process::Abort;
use std::test::Fail;

/// What was to be looked for, whose numbers no text has.
const UNSEEN: Unseen = Unseen {
    len: 7,
    renamed: true,
};

fn stopped(cause: Cause, left: Leftover) -> VolumeFault {
    VolumeFault::Unfinished { cause, left }
}

fn has_text(
    rt: &impl Abort,
    alloc: Global,
    fault: VolumeFault,
    status: u8,
    wanted: &str,
) -> Result<(), Fail> {
    let told = format!(in alloc; "{fault}")?;
    assert_eq!(rt; told.as_str(), wanted);
    assert_eq!(rt; fault.status(), status, "of {fault}");
    Ok(())
}

#[test]
fn what_fails_on_the_machine_has_its_text(rt: HostRuntime) -> Result<(), Fail> {
    for (fault, wanted) in [
        (
            VolumeFault::File(FileFault::Write),
            "the file can't be written",
        ),
        (VolumeFault::File(FileFault::Memory), "out of memory"),
        (VolumeFault::HostWrite, "the host's file can't be written"),
        (
            VolumeFault::from(StoreFault),
            "the file can't be brought to its medium",
        ),
        (VolumeFault::from(PathFault::Memory), "out of memory"),
        (VolumeFault::Refused(Cause::Memory), "memory was refused"),
        (VolumeFault::Refused(Cause::Device), "the flash failed"),
        (
            VolumeFault::Refused(Cause::Failed),
            "the flash failed earlier",
        ),
        (
            VolumeFault::File(FileFault::Left),
            "the file can't be made in order, and what FILE.new has of it can't be removed: rm it",
        ),
        (
            VolumeFault::NotClosed(Cause::Device),
            "what was asked for is done, but the volume isn't unmounted: the flash failed",
        ),
        (
            stopped(Cause::Device, Leftover::Done),
            "the flash failed; the new file stands at the path, whole",
        ),
        (
            stopped(Cause::Device, Leftover::Unseen(UNSEEN)),
            "the flash failed; nobody could look what is left of the new file as '.put.new' beside \
            the path",
        ),
    ] {
        has_text(&rt, rt.alloc(), fault, 1, wanted)?;
    }
    let told = format!(in rt.alloc(); "{}", CallFault::Memory)?;
    assert_eq!(rt; told.as_str(), "out of memory");
    Ok(())
}

/// The causes are of requests that no command makes.
#[test]
fn what_no_command_meets_has_its_text(rt: HostRuntime) -> Result<(), Fail> {
    has_text(
        &rt,
        rt.alloc(),
        VolumeFault::NoVolume(ScanWhy::Device),
        3,
        "no volume: the flash failed",
    )?;
    has_text(
        &rt,
        rt.alloc(),
        VolumeFault::Errors,
        1,
        "standard error can't be written",
    )?;
    for (fault, wanted) in [
        (
            stopped(Cause::VersionsSpent, Leftover::Part),
            "no version is left; a part of the new file is left as '.put.new' beside the path: rm it",
        ),
        (
            stopped(Cause::VersionsSpent, Leftover::Whole),
            "no version is left; the new file is left whole as '.put.new' beside the path, where the \
            old one still stands: rm it",
        ),
        (
            stopped(Cause::VersionsSpent, Leftover::Alone),
            "no version is left; the new file is left whole as '.put.new' beside the path: mv it",
        ),
        (
            VolumeFault::Stuck,
            "the log has no room, not even to remove something: save it, and load it into a \
            larger volume",
        ),
    ] {
        has_text(&rt, rt.alloc(), fault, 4, wanted)?;
    }
    for (cause, wanted) in [
        (Cause::DataLong, "the data is too long for one node"),
        (Cause::NotNeeded, "no live node has this version"),
        (Cause::Stale, "the copy isn't current"),
    ] {
        has_text(&rt, rt.alloc(), VolumeFault::Refused(cause), 4, wanted)?;
    }
    Ok(())
}

/// What an error ends a command with, where standard input, a directory or file of the host to be
/// read, made or written, or standard output has it.
fn is_named_by_place(rt: &impl Abort, kind: ErrorKind, wanted: [VolumeFault; 5]) {
    let found = [
        VolumeFault::of_input(io::Error::from(kind)),
        VolumeFault::of_host_read(io::Error::from(kind)),
        VolumeFault::of_host_make(io::Error::from(kind)),
        VolumeFault::of_host_write(io::Error::from(kind)),
        VolumeFault::from(io::Error::from(kind)),
    ];
    assert_eq!(rt; found, wanted);
}

#[test]
fn memory_and_full_storage_are_named_by_their_place(rt: HostRuntime) {
    is_named_by_place(
        &rt,
        ErrorKind::OutOfMemory,
        [
            VolumeFault::Memory,
            VolumeFault::Memory,
            VolumeFault::Memory,
            VolumeFault::Memory,
            VolumeFault::Memory,
        ],
    );
    is_named_by_place(
        &rt,
        ErrorKind::StorageFull,
        [
            VolumeFault::Read,
            VolumeFault::HostRead,
            VolumeFault::HostMake,
            VolumeFault::HostWrite,
            VolumeFault::Write,
        ],
    );
}

#[test]
fn an_error_of_a_name_is_named_by_its_place(rt: HostRuntime) {
    is_named_by_place(
        &rt,
        ErrorKind::NotFound,
        [
            VolumeFault::Read,
            VolumeFault::HostMissing,
            VolumeFault::HostMissing,
            VolumeFault::HostWrite,
            VolumeFault::Write,
        ],
    );
    is_named_by_place(
        &rt,
        ErrorKind::AlreadyExists,
        [
            VolumeFault::Read,
            VolumeFault::HostRead,
            VolumeFault::HostTaken,
            VolumeFault::HostWrite,
            VolumeFault::Write,
        ],
    );
    is_named_by_place(
        &rt,
        ErrorKind::InvalidFilename,
        [
            VolumeFault::Read,
            VolumeFault::Path(PathFault::NameByte),
            VolumeFault::HostMake,
            VolumeFault::HostWrite,
            VolumeFault::Write,
        ],
    );
}

#[test]
fn an_error_of_the_file_of_a_volume_is_named(rt: HostRuntime) {
    for (kind, wanted) in [
        (ErrorKind::OutOfMemory, VolumeFault::Memory),
        (ErrorKind::NotFound, VolumeFault::File(FileFault::Missing)),
        (ErrorKind::PermissionDenied, VolumeFault::Unread),
    ] {
        let found = VolumeFault::of_file_read(io::Error::from(kind));
        assert_eq!(rt; found, wanted);
    }
}

/// Memory is ample in a test, so what an allocation that failed gives is made here.
#[test]
fn each_want_of_memory_is_told_as_one(rt: HostRuntime) -> Result<(), Fail> {
    for fault in [
        VolumeFault::from(AllocError),
        VolumeFault::from(AllocFailed { value: 0u8 }),
        VolumeFault::from(NoMemory),
        VolumeFault::from(PathFault::from(AllocError)),
        VolumeFault::File(FileFault::from(AllocError)),
        VolumeFault::File(FileFault::from(AllocFailed { value: 0u8 })),
    ] {
        has_text(&rt, rt.alloc(), fault, 1, "out of memory")?;
    }
    let fault = CallFault::from(AllocFailed { value: 0u8 });
    let told = format!(in rt.alloc(); "{fault}")?;
    assert_eq!(rt; told.as_str(), "out of memory");
    Ok(())
}
