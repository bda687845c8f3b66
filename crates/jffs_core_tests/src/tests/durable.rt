//! Power that is lost right after an answer.
//! What a mount has to find are the plain files that the test keeps beside the volume.

use crate::tests::session::Session;
use jffs_flash::MemoryFlash;
use jffs_tree::Outcome;
use std::alloc::{AllocError, Global};
use std::process::Abort;
use std::test::Fail;

/// What is asked for of a file.
#[derive(Clone, Copy)]
enum Ask {
    Create,
    Write { offset: usize, len: usize },
    Cut { size: usize },
    Remove,
}

/// A file is created, written, cut, written again and removed, one of four at each turn.
fn ask_of(turn: usize) -> Ask {
    match turn % 5 {
        0 => Ask::Create,
        1 => Ask::Remove,
        2 => Ask::Write {
            offset: 7,
            len: turn % 30 + 1,
        },
        3 => Ask::Cut { size: turn % 60 },
        _ => Ask::Write {
            offset: turn % 40,
            len: turn % 93 + 100,
        },
    }
}

fn line_of(alloc: Global, ask: Ask, name: char) -> Result<String, AllocError> {
    match ask {
        Ask::Create => format!(in alloc; "create /{name}"),
        Ask::Write { offset, len } => format!(in alloc; "write /{name} {offset} {len}*x"),
        Ask::Cut { size } => format!(in alloc; "truncate /{name} {size}"),
        Ask::Remove => format!(in alloc; "remove /{name}"),
    }
}

/// A file that the test keeps, whether it is there or not.
#[derive(Drop)]
struct Kept {
    name: char,
    there: bool,
    bytes: Vec<u8>,
}

impl Kept {
    fn new(alloc: Global, name: char) -> Kept {
        Kept {
            name,
            there: false,
            bytes: Vec::new(alloc),
        }
    }

    /// Does what is asked for, and says whether it could be done.
    fn take(&mut self, ask: Ask) -> Result<bool, AllocError> {
        match ask {
            Ask::Create => Ok(self.create()),
            Ask::Write { offset, len } => self.write(offset, len),
            Ask::Cut { size } => self.cut(size),
            Ask::Remove => Ok(self.remove()),
        }
    }

    fn create(&mut self) -> bool {
        let granted = !self.there;
        self.there = true;
        granted
    }

    fn write(&mut self, offset: usize, len: usize) -> Result<bool, AllocError> {
        if self.there {
            put(&mut self.bytes, offset, len)?;
        }
        Ok(self.there)
    }

    fn cut(&mut self, size: usize) -> Result<bool, AllocError> {
        if self.there {
            grow(&mut self.bytes, size)?;
            self.bytes.truncate(size);
        }
        Ok(self.there)
    }

    fn remove(&mut self) -> bool {
        let granted = self.there;
        self.there = false;
        self.bytes.clear();
        granted
    }
}

fn grow(bytes: &mut Vec<u8>, size: usize) -> Result<(), AllocError> {
    for _ in bytes.len()..size {
        bytes.push(0)?;
    }
    Ok(())
}

fn put(bytes: &mut Vec<u8>, offset: usize, len: usize) -> Result<(), AllocError> {
    let end = offset.saturating_add(len);
    grow(bytes, end)?;
    for place in offset..end {
        if let Some(byte) = bytes.get_mut(place) {
            *byte = b'x';
        }
    }
    Ok(())
}

/// The four files; none is there.
fn none_kept(alloc: Global) -> Result<Vec<Kept>, AllocError> {
    let mut files = Vec::new(alloc);
    for name in ['a', 'b', 'c', 'd'] {
        files.push(Kept::new(alloc, name))?;
    }
    Ok(files)
}

/// After another mount of what the device has now, each file is as the test keeps it.
fn found(rt: &impl Abort, session: &Session<MemoryFlash>, files: &[Kept]) -> Result<(), Fail> {
    let image = session.image()?;
    are_kept(rt, &Session::mounted(session.alloc, 6, image)?, files)
}

/// Each file is as the test keeps it.
fn are_kept(rt: &impl Abort, session: &Session<MemoryFlash>, files: &[Kept]) -> Result<(), Fail> {
    for file in files {
        assert!(rt; is_kept(session, file)?, "at {}", file.name);
    }
    Ok(())
}

/// Whether a file is as the test keeps it.
fn is_kept(session: &Session<MemoryFlash>, file: &Kept) -> Result<bool, Fail> {
    match inode_of(session, file.name)? {
        Some(inode) => Ok(file.there && has_whole(session, inode, &file.bytes)?),
        None => Ok(!file.there),
    }
}

fn inode_of(session: &Session<MemoryFlash>, name: char) -> Result<Option<u32>, Fail> {
    let path = format!(in session.alloc; "/{name}")?;
    session.inode_at(path.as_str())
}

/// Whether a file has these bytes and no more.
fn has_whole(session: &Session<MemoryFlash>, inode: u32, bytes: &[u8]) -> Result<bool, AllocError> {
    let whole = session.whole(inode)?;
    Ok(whole.as_slice() == bytes)
}

/// Asks for what is wanted of a file. It is granted where it can be done to the kept one.
fn asked(
    rt: &impl Abort,
    session: &mut Session<MemoryFlash>,
    file: &mut Kept,
    ask: Ask,
) -> Result<(), Fail> {
    let line = line_of(session.alloc, ask, file.name)?;
    let granted = matches!(session.ask(line.as_str())?, Outcome::Appended { .. });
    assert!(rt; granted == file.take(ask)?, "at {line}");
    Ok(())
}

#[test]
fn what_is_answered_outlives_a_loss_of_power(rt: HostRuntime) -> Result<(), Fail> {
    let mut session = Session::erased(rt.alloc(), 6)?;
    outlive(&rt, &mut session, &mut none_kept(rt.alloc())?)?;
    assert!(rt; session.erases() > 6);
    Ok(())
}

/// Files are asked for one after another. After each answer a mount finds what was answered.
fn outlive(
    rt: &impl Abort,
    session: &mut Session<MemoryFlash>,
    files: &mut [Kept],
) -> Result<(), Fail> {
    for turn in 0..300 {
        let file = files.get_mut(turn % 4).ok_or("no such file")?;
        asked(rt, session, file, ask_of(turn))?;
        found(rt, session, files)?;
    }
    Ok(())
}
