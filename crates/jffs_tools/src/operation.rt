//! The operations of a replay.

use jffs_flash::{Fail, Fused};
use jffs_line::Request;
use jffs_node::{Bytes, Name};
use jffs_text::{Command, Mistake, Quote, Words};
use jffs_tree::Wish;
use std::alloc::Global;

/// Flash that fails from a chosen call on.
#[derive(Clone, Copy, Debug, PartialEq, Eq)]
pub struct Fuse {
    /// How many fused calls pass.
    pub calls: u32,
    /// Which calls are fused.
    pub fused: Fused,
    /// What a call does that fails.
    pub fail: Fail,
}

/// One line of a replay.
#[derive(Drop)]
pub enum Operation<'a> {
    /// Erased flash of these sizes; the second is in bytes.
    Flash {
        sectors: u32,
        sector_size: u32,
    },
    /// Flash of these sizes with a file's bytes.
    Open {
        file: &'a str,
        sectors: u32,
        sector_size: u32,
    },
    /// A fuse that goes round the flash at the next mount.
    Fuse(Fuse),
    /// The flash is mounted.
    Mount,
    /// A request to the core.
    Request(Request),
    /// The oldest sector is cleaned.
    CleanOldest,
    /// Dead sectors are erased, the oldest first.
    EraseDead,
    /// The digest of the whole image.
    Digest,
}

impl<'a> Operation<'a> {
    /// Reads an operation from the words of its line.
    ///
    /// A mistake of the kind `Command` where the first word or the number of words is wrong; then
    /// that of the first word, from the left, that isn't what should stand there, which is of the
    /// kind `Path` for a name too; `Memory` if allocation failed.
    pub fn parse(alloc: Global, mut words: Words<'a>) -> Result<Operation<'a>, Mistake> {
        let line = words;
        match words.take() {
            "flash" => {
                line.as_many(3, "flash S Z", ())?;
                let (sectors, sector_size) = read_sizes(&mut words)?;
                Ok(Operation::Flash {
                    sectors,
                    sector_size,
                })
            }
            "image" if line.count() == 1 => Ok(Operation::Digest),
            "image" => {
                line.as_many(4, "image FILE S Z, or image alone", ())?;
                read_open(words)
            }
            "fuse" => {
                line.as_many(4, "fuse CALLS WHICH WHAT", ())?;
                Ok(Operation::Fuse(read_fuse(words)?))
            }
            "mount" => {
                line.as_many(1, "mount", ())?;
                Ok(Operation::Mount)
            }
            "request" if line.count() < 4 => Err(Mistake::Few("request WRITER SEQ COMMAND")),
            "request" => Ok(Operation::Request(read_request(alloc, words)?)),
            "clean_oldest" => {
                line.as_many(1, "clean_oldest", ())?;
                Ok(Operation::CleanOldest)
            }
            "erase_dead" => {
                line.as_many(1, "erase_dead", ())?;
                Ok(Operation::EraseDead)
            }
            "" => Err(Mistake::Spaces),
            other => Err(Mistake::Operation(Quote::of(other))),
        }
    }
}

/// How many sectors there are, and how many bytes each has.
fn read_sizes(words: &mut Words<'_>) -> Result<(u32, u32), Mistake> {
    let sectors = words.take_number(0, u32::MAX)?;
    let sector_size = words.take_number(0, u32::MAX)?;
    Ok((sectors, sector_size))
}

fn read_open<'a>(mut words: Words<'a>) -> Result<Operation<'a>, Mistake> {
    let file = words.take();
    let (sectors, sector_size) = read_sizes(&mut words)?;
    Ok(Operation::Open {
        file,
        sectors,
        sector_size,
    })
}

fn read_fuse(mut words: Words<'_>) -> Result<Fuse, Mistake> {
    let calls = words.take_number(0, u32::MAX)?;
    let fused = match words.take() {
        "Writes" => Fused::Writes,
        "All" => Fused::All,
        word => return Err(no_choice("'Writes' or 'All'", word)),
    };
    let fail = match words.take() {
        "Nothing" => Fail::Nothing,
        "Half" => Fail::Half,
        word => return Err(no_choice("'Nothing' or 'Half'", word)),
    };
    Ok(Fuse { calls, fused, fail })
}

fn no_choice(wanted: &'static str, word: &str) -> Mistake {
    Mistake::Choice {
        wanted,
        word: Quote::of(word),
    }
}

fn read_request(alloc: Global, mut words: Words<'_>) -> Result<Request, Mistake> {
    let writer = words.take_number(0, u32::from(u16::MAX))?;
    let seq = words.take_number(0, u32::MAX)?;
    Ok(Request {
        writer: writer as u16,
        seq,
        wish: read_wish(alloc, words)?,
    })
}

/// What is asked for: an unmount, a copy, or a command of a script.
fn read_wish(alloc: Global, words: Words<'_>) -> Result<Wish, Mistake> {
    let mut rest = words;
    match rest.take() {
        "unmount" => {
            words.as_many(1, "unmount", ())?;
            Ok(Wish::Unmount)
        }
        "copy" => {
            words.as_many(6, "copy SOURCE PARENT NAME OFFSET HEX", ())?;
            read_copy(alloc, rest)
        }
        _ => Ok(Command::of_words(alloc, words)?.wish(alloc)?),
    }
}

fn read_copy(alloc: Global, mut words: Words<'_>) -> Result<Wish, Mistake> {
    let source = words.take_number(0, u32::MAX)?;
    let parent = words.take_number(0, u32::MAX)?;
    let word = words.take();
    let Some(name) = Name::from_bytes(word.as_bytes()) else {
        return Err(Mistake::Name(Quote::of(word)));
    };
    let offset = words.take_number(0, u32::MAX)?;
    let bytes = Bytes::from_vec(words.take_bytes(alloc)?)?;
    Ok(Wish::Copy {
        source,
        parent,
        name,
        offset,
        bytes,
    })
}
