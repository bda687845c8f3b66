//! What a request's line asks for.

ghost use Rattle.std.specs.Prelude.{◌≡◌, IfOk, IfSome, OnOk};
ghost use Rattle.std.specs.Io.KnownBytes.{Appends};
ghost use Rattle.jffs_protocol.specs.Asks.{ask_line, first_len, second_len};

use std::io;
use std::io::Write;

/// A request, as its line says it. A path and data are the bytes that stand after the line: `path`,
/// `from` and `to` say how many bytes a path has.
#[derive(Clone, Copy)]
pub enum Ask {
    /// What stands at the path.
    Stat { path: u32 },
    /// The names in the directory at the path.
    List { path: u32 },
    /// At most `len` bytes of the file at the path, from `offset` on.
    Read { path: u32, offset: u32, len: u32 },
    /// How full the volume is.
    Room,
    /// The longest that a request may be.
    Limits,
    /// Whether the volume is clean.
    Check,
    /// A new file at the path.
    Create { path: u32 },
    /// A new directory at the path.
    MakeDir { path: u32 },
    /// `len` bytes for the file at the path, from `offset` on; they stand after the path.
    Write { path: u32, offset: u32, len: u32 },
    /// `size` bytes for the file at the path.
    Truncate { path: u32, size: u32 },
    /// Nothing at the path.
    Remove { path: u32 },
    /// What stands at the first path, at the second.
    Rename { from: u32, to: u32 },
    /// All that was changed, on the medium.
    Sync,
    /// The end of the session.
    Unmount,
}

impl Ask {
    /// How many bytes the first path has that stands after the line; 0 where none does.
    pub fn first_len(self) -> u32
        ensures { result ≡ first_len self }
    {
        match self {
            Ask::Stat { path }
            | Ask::List { path }
            | Ask::Read { path, .. }
            | Ask::Create { path }
            | Ask::MakeDir { path }
            | Ask::Write { path, .. }
            | Ask::Truncate { path, .. }
            | Ask::Remove { path } => path,
            Ask::Rename { from, .. } => from,
            Ask::Room | Ask::Limits | Ask::Check | Ask::Sync | Ask::Unmount => 0,
        }
    }

    /// How many bytes stand after the first path: those of the second, or the data.
    pub fn second_len(self) -> u32
        ensures { result ≡ second_len self }
    {
        match self {
            Ask::Write { len, .. } => len,
            Ask::Rename { to, .. } => to,
            _ => 0,
        }
    }
}

/// The request of a line, without its line feed; `None` where it is that of no request. `written`
/// is left with the line of the request that was thought of.
pub(crate) fn ask_of(line: &[u8], written: &mut Vec<u8>) -> io::Result<Option<Ask>>
    ensures { IfOk result (λ found. IfSome found (λ ask. line.now ≡ ask_line ask)) }
{
    let Ok(text) = std::str::from_utf8(line) else {
        return Ok(None);
    };
    let Some(ask) = first_try(text) else {
        return Ok(None);
    };
    written.clear();
    write_line(ask, written)?;
    if written.as_slice() == line {
        Ok(Some(ask))
    } else {
        Ok(None)
    }
}

/// The request that a line's first word names, with the numbers after it; 0 for one that isn't
/// there. The line may say something else.
fn first_try(line: &str) -> Option<Ask> {
    let mut words = line.split(' ');
    let verb = words.next()?;
    let a = number(words.next());
    let b = number(words.next());
    let c = number(words.next());
    match verb {
        "stat" => Some(Ask::Stat { path: a }),
        "list" => Some(Ask::List { path: a }),
        "read" => Some(Ask::Read {
            path: a,
            offset: b,
            len: c,
        }),
        "room" => Some(Ask::Room),
        "limits" => Some(Ask::Limits),
        "check" => Some(Ask::Check),
        "create" => Some(Ask::Create { path: a }),
        "mkdir" => Some(Ask::MakeDir { path: a }),
        "write" => Some(Ask::Write {
            path: a,
            offset: b,
            len: c,
        }),
        "truncate" => Some(Ask::Truncate { path: a, size: b }),
        "remove" => Some(Ask::Remove { path: a }),
        "rename" => Some(Ask::Rename { from: a, to: b }),
        "sync" => Some(Ask::Sync),
        "unmount" => Some(Ask::Unmount),
        _ => None,
    }
}

/// The number that a word spells, and 0 where it spells none.
fn number(word: Option<&str>) -> u32 {
    match word {
        Some(word) => word.parse::<u32>().unwrap_or(0),
        None => 0,
    }
}

/// Writes the line of a request, without its line feed.
fn write_line<W: Write>(ask: Ask, out: &mut W) -> io::Result<()>
    ensures { OnOk result (Appends (W.contents out.old) (W.contents out.new) (ask_line ask)) }
{
    match ask {
        Ask::Stat { path } => write!(out, "stat {path}"),
        Ask::List { path } => write!(out, "list {path}"),
        Ask::Read { path, offset, len } => write!(out, "read {path} {offset} {len}"),
        Ask::Room => out.write_all(b"room"),
        Ask::Limits => out.write_all(b"limits"),
        Ask::Check => out.write_all(b"check"),
        Ask::Create { path } => write!(out, "create {path}"),
        Ask::MakeDir { path } => write!(out, "mkdir {path}"),
        Ask::Write { path, offset, len } => write!(out, "write {path} {offset} {len}"),
        Ask::Truncate { path, size } => write!(out, "truncate {path} {size}"),
        Ask::Remove { path } => write!(out, "remove {path}"),
        Ask::Rename { from, to } => write!(out, "rename {from} {to}"),
        Ask::Sync => out.write_all(b"sync"),
        Ask::Unmount => out.write_all(b"unmount"),
    }
}
