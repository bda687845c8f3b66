//! Wishes in words.

use jffs_node::{Bytes, Name, Path, PathFault, copied};
use jffs_tree::Wish;
use std::alloc::{AllocError, Global};
use std::test::Fail;

/// The words of a line that are still to come.
#[derive(Clone, Copy)]
struct Words<'a> {
    alloc: Global,
    rest: &'a str,
}

impl<'a> Words<'a> {
    /// The next word; an empty one where none is left.
    fn take(&mut self) -> &'a str {
        let (word, rest) = self.rest.split_once(' ').unwrap_or((self.rest, ""));
        self.rest = rest;
        word
    }

    fn take_path(&mut self) -> Result<Path, Fail> {
        path(self.alloc, self.take())
    }

    fn take_name(&mut self) -> Result<Name, Fail> {
        Ok(Name::from_bytes(self.take().as_bytes()).ok_or("no name")?)
    }

    fn take_number(&mut self) -> Result<u32, Fail> {
        Ok(self.take().parse::<u32>()?)
    }

    /// The bytes of a word. `-` stands for none, and `192*a` for 192 times the same byte.
    fn take_bytes(&mut self) -> Result<Bytes, Fail> {
        let word = self.take();
        match word.split_once('*') {
            Some((times, byte)) => many(self.alloc, times.parse::<usize>()?, byte.as_bytes()),
            None if word == "-" => Ok(Bytes::new()),
            None => bytes(self.alloc, word.as_bytes()),
        }
    }

    fn take_create(&mut self) -> Result<Wish, Fail> {
        Ok(Wish::Create(self.take_path()?))
    }

    fn take_make_dir(&mut self) -> Result<Wish, Fail> {
        Ok(Wish::MakeDir(self.take_path()?))
    }

    fn take_remove(&mut self) -> Result<Wish, Fail> {
        Ok(Wish::Remove(self.take_path()?))
    }

    fn take_write(&mut self) -> Result<Wish, Fail> {
        Ok(Wish::Write {
            path: self.take_path()?,
            offset: self.take_number()?,
            bytes: self.take_bytes()?,
        })
    }

    fn take_truncate(&mut self) -> Result<Wish, Fail> {
        Ok(Wish::Truncate {
            path: self.take_path()?,
            size: self.take_number()?,
        })
    }

    fn take_rename(&mut self) -> Result<Wish, Fail> {
        Ok(Wish::Rename {
            from: self.take_path()?,
            to: self.take_path()?,
        })
    }

    /// A copy into the root.
    fn take_copy(&mut self) -> Result<Wish, Fail> {
        Ok(Wish::Copy {
            source: self.take_number()?,
            parent: 1,
            name: self.take_name()?,
            offset: self.take_number()?,
            bytes: self.take_bytes()?,
        })
    }
}

/// The wish that a line says. What stands after it is not read.
pub(super) fn wish_of(alloc: Global, line: &str) -> Result<Wish, Fail> {
    let mut words = Words {
        alloc,
        rest: line.trim(),
    };
    match words.take() {
        "create" => words.take_create(),
        "mkdir" => words.take_make_dir(),
        "remove" => words.take_remove(),
        "rename" => words.take_rename(),
        "truncate" => words.take_truncate(),
        "write" => words.take_write(),
        "copy" => words.take_copy(),
        "unmount" => Ok(Wish::Unmount),
        _ => Err("no wish".into()),
    }
}

/// A path; if allocation fails it is read again.
fn path(alloc: Global, text: &str) -> Result<Path, Fail> {
    match Path::parse(alloc, text) {
        Err(PathFault::Memory) => Ok(Path::parse(alloc, text)?),
        Err(fault) => Err(fault.into()),
        Ok(path) => Ok(path),
    }
}

/// Bytes; if allocation fails they are copied again.
fn bytes(alloc: Global, bytes: &[u8]) -> Result<Bytes, Fail> {
    if let Ok(bytes) = copied(alloc, bytes) {
        return Ok(bytes);
    }
    Ok(copied(alloc, bytes)?)
}

/// The same byte `times` times, at most 256.
fn many(alloc: Global, times: usize, byte: &[u8]) -> Result<Bytes, Fail> {
    let byte = *byte.first().ok_or("no byte")?;
    if times > 256 {
        return Err("too many bytes".into());
    }
    bytes(alloc, &repeated(alloc, byte, times)?)
}

/// If allocation fails they are repeated again.
fn repeated(alloc: Global, byte: u8, times: usize) -> Result<Vec<u8>, AllocError> {
    match vec![in alloc; byte; times] {
        Ok(bytes) => Ok(bytes),
        Err(_) => vec![in alloc; byte; times],
    }
}
