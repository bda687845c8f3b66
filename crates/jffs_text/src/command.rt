//! What a script's writer asks for.

ghost use Rattle.std.specs.Prelude.{◌≡◌, IfOk};
ghost use Rattle.jffs_text.specs.Scripts.{IsCommand};
ghost use Rattle.jffs_text.specs.Wishes.{wish_of};

use crate::keyword::Edit;
use crate::mistake::Mistake;
use crate::quote::Quote;
use crate::spelled::SpelledPath;
use crate::word::Words;
use jffs_node::{Bytes, NoMemory};
use jffs_tree::Wish;
use std::alloc::Global;

/// The most bytes that one `fill` writes.
pub const FILL_MAX: u32 = 4096;

/// A command of a script, whose text has its paths. A writer makes its wish of it when its turn
/// comes.
#[derive(Drop)]
pub enum Command<'a> {
    MakeDir(SpelledPath<'a>),
    Create(SpelledPath<'a>),
    Write {
        path: SpelledPath<'a>,
        offset: u32,
        /// Boxed, so that a command without bytes takes no room for them.
        bytes: Box<Bytes>,
    },
    /// A write of `count` times the same byte.
    Fill {
        path: SpelledPath<'a>,
        offset: u32,
        count: u32,
        byte: u8,
    },
    Truncate {
        path: SpelledPath<'a>,
        size: u32,
    },
    Rename {
        from: SpelledPath<'a>,
        to: SpelledPath<'a>,
    },
    Remove(SpelledPath<'a>),
}

impl<'a> Command<'a> {
    /// Reads one command from all the words that are left.
    ///
    /// A mistake of the kind `Command` where they begin with no command's word, or are too few or
    /// too many; then that of the first word, from the left, that isn't what should stand there:
    /// of the kind `Path`, `Number` or `Hex`, or `Memory` if allocation failed.
    pub fn of_words(alloc: Global, mut words: Words<'a>) -> Result<Command<'a>, Mistake>
        ensures { IfOk result IsCommand }
    {
        let line = words;
        let word = words.take();
        match Edit::of(word) {
            Some(edit) => match Command::parse(alloc, edit, words) {
                Err(found) => Err(edit.has_form(line).err().unwrap_or(found)),
                command => command,
            },
            None if word.is_empty() => Err(Mistake::Spaces),
            None => Err(Mistake::Request(Quote::of(word))),
        }
    }

    /// Reads the words after the command's first one, from left to right, with none left over. What
    /// is wrong with their number is for `Edit::has_form` to tell.
    pub(crate) fn parse(
        alloc: Global,
        edit: Edit,
        mut words: Words<'a>,
    ) -> Result<Command<'a>, Mistake>
        ensures { IfOk result IsCommand }
    {
        let path = words.take_spelled()?;
        let command = match edit {
            Edit::MakeDir => Command::MakeDir(path),
            Edit::Create => Command::Create(path),
            Edit::Remove => Command::Remove(path),
            Edit::Write => Command::parse_write(alloc, path, &mut words)?,
            Edit::Fill => Command::parse_fill(path, &mut words)?,
            Edit::Truncate => {
                let size = words.take_number(0, u32::MAX)?;
                Command::Truncate { path, size }
            }
            Edit::Rename => {
                let to = words.take_spelled()?;
                Command::Rename { from: path, to }
            }
        };
        words.end()?;
        Ok(command)
    }

    fn parse_write(
        alloc: Global,
        path: SpelledPath<'a>,
        words: &mut Words<'a>,
    ) -> Result<Command<'a>, Mistake>
        ensures { IfOk result IsCommand }
    {
        let offset = words.take_number(0, u32::MAX)?;
        let bytes = Bytes::from_vec(words.take_bytes(alloc)?)?;
        Ok(Command::Write {
            path,
            offset,
            bytes: Box::new(alloc, bytes)?,
        })
    }

    fn parse_fill(path: SpelledPath<'a>, words: &mut Words<'a>) -> Result<Command<'a>, Mistake>
        ensures { IfOk result IsCommand }
    {
        let offset = words.take_number(0, u32::MAX)?;
        let count = words.take_number(0, FILL_MAX)?;
        let byte = words.take_byte()?;
        Ok(Command::Fill {
            path,
            offset,
            count,
            byte,
        })
    }

    /// The wish of a command. The command stays: the wish has a path of its own, and shares the
    /// bytes.
    ///
    /// `NoMemory` if allocation failed.
    pub fn wish(&self, alloc: Global) -> Result<Wish, NoMemory>
        ensures { IfOk result (λ wish. wish ≡ wish_of self.now) }
    {
        Ok(match self {
            Command::MakeDir(path) => Wish::MakeDir(path.path(alloc)?),
            Command::Create(path) => Wish::Create(path.path(alloc)?),
            Command::Remove(path) => Wish::Remove(path.path(alloc)?),
            Command::Write {
                path,
                offset,
                bytes,
            } => Wish::Write {
                path: path.path(alloc)?,
                offset: *offset,
                bytes: Bytes::clone(bytes)?,
            },
            Command::Fill {
                path,
                offset,
                count,
                byte,
            } => Wish::Write {
                path: path.path(alloc)?,
                offset: *offset,
                bytes: Bytes::from_vec(vec![in alloc; *byte; *count as usize]?)?,
            },
            Command::Truncate { path, size } => Wish::Truncate {
                path: path.path(alloc)?,
                size: *size,
            },
            Command::Rename { from, to } => Wish::Rename {
                from: from.path(alloc)?,
                to: to.path(alloc)?,
            },
        })
    }
}
