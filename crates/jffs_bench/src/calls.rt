//! The calls of the library for C, each as a program in Rattle makes it. `tools/sweep/c_cost.c` makes
//! the same ones in C, so that what both take can be compared.

use crate::fault::Fault;
use crate::handed::{HandedVolume, WRITE_LEN};
use jffs_node::{NAME_MAX, Path, copied};
use jffs_tree::Wish;
use std::alloc::Global;

/// Which call.
#[derive(Clone, Copy, Debug, PartialEq, Eq)]
pub(crate) enum Call {
    Create,
    Write,
    Truncate,
    Rename,
    Remove,
    Refused,
    Clean,
    Look,
    Read,
    Entry,
    Usage,
}

/// The calls by their names.
const NAMED: [(&str, Call); 11] = [
    ("create", Call::Create),
    ("write", Call::Write),
    ("truncate", Call::Truncate),
    ("rename", Call::Rename),
    ("remove", Call::Remove),
    ("refused", Call::Refused),
    ("clean", Call::Clean),
    ("look", Call::Look),
    ("read", Call::Read),
    ("entry", Call::Entry),
    ("usage", Call::Usage),
];

impl Call {
    /// The call of this name.
    pub(crate) fn of_name(name: &str) -> Option<Call> {
        for (known, call) in NAMED {
            if known == name {
                return Some(call);
            }
        }
        None
    }
}

/// Makes each call once, on a volume of its own.
pub(crate) fn make_each(alloc: Global) -> Result<(), Fault> {
    for (_, call) in NAMED {
        make_often(alloc, call, 1)?;
    }
    Ok(())
}

/// Makes a call so often, each time on the next file.
pub(crate) fn make_often(alloc: Global, call: Call, count: usize) -> Result<(), Fault> {
    let mut volume = HandedVolume::filled(alloc)?;
    for number in 0..count {
        make(&mut volume, call, number)?;
    }
    Ok(())
}

/// Makes a call on the file with this number.
fn make(volume: &mut HandedVolume, call: Call, number: usize) -> Result<(), Fault> {
    match call {
        Call::Look => look(volume, number),
        Call::Read => read(volume, number),
        Call::Entry => next_entry(volume),
        Call::Usage => usage(volume),
        Call::Clean => volume.clean(),
        Call::Refused => refused(volume, number),
        _ => change(volume, call, number),
    }
}

fn change(volume: &mut HandedVolume, call: Call, number: usize) -> Result<(), Fault> {
    let wish = match call {
        Call::Create => Wish::Create(volume.other(number)?),
        Call::Truncate => Wish::Truncate {
            path: volume.path(number)?,
            size: 100,
        },
        Call::Rename => Wish::Rename {
            from: volume.path(number)?,
            to: volume.other(number)?,
        },
        Call::Remove => Wish::Remove(volume.path(number)?),
        _ => Wish::Write {
            path: volume.path(number)?,
            offset: 0,
            bytes: copied(volume.alloc, &[b'Z'; WRITE_LEN])?,
        },
    };
    volume.change(wish)
}

/// A file is made that is there.
fn refused(volume: &mut HandedVolume, number: usize) -> Result<(), Fault> {
    let path = volume.path(number)?;
    match volume.change(Wish::Create(path)) {
        Err(Fault::Refused) => Ok(()),
        _ => Err(Fault::Words),
    }
}

fn look(volume: &HandedVolume, number: usize) -> Result<(), Fault> {
    let path = volume.path(number)?;
    match volume.session.look(&path) {
        Some(sight) if !sight.directory => Ok(()),
        _ => Err(Fault::Refused),
    }
}

fn read(volume: &HandedVolume, number: usize) -> Result<(), Fault> {
    let path = volume.path(number)?;
    let mut part = [0; 64];
    if volume.session.read(&path, 3, &mut part)? != part.len() {
        return Err(Fault::Refused);
    }
    Ok(())
}

/// The next name in the directory of the files, and what stands there.
fn next_entry(volume: &mut HandedVolume) -> Result<(), Fault> {
    let path = Path::parse(volume.alloc, "/d")?;
    let Some(entry) = volume.session.name_after(&path, volume.told) else {
        return Err(Fault::Refused);
    };
    let mut buffer = [0; NAME_MAX];
    let bytes = entry.name.bytes();
    if bytes.len() <= buffer.len() {
        buffer[..bytes.len()].copy_from_slice(bytes);
    }
    volume.told = Some(entry.name);
    if entry.sight.directory || buffer[0] == 0 {
        return Err(Fault::Refused);
    }
    Ok(())
}

/// How full the volume is.
fn usage(volume: &HandedVolume) -> Result<(), Fault> {
    let core = volume.session.core();
    let records = core.log().records().len() as u64;
    if core.log().live_weight(core.tree()) < records || core.log().erased() > core.log().sectors() {
        return Err(Fault::Refused);
    }
    Ok(())
}
