//! What a request wants, once its bytes are there.

ghost use Rattle.std.specs.Prelude.{◌≡◌, ◌≤◌, IfOk, IfSome, length, Ok};
ghost use Rattle.jffs_text.specs.Spelling.{spelled};
ghost use Rattle.jffs_protocol.specs.Asks.{first_len};
ghost use Rattle.jffs_manage.specs.Wanting.{wanted_by, wanted_of};

use jffs_node::{NoMemory, Path, PathFault, copied};
use jffs_protocol::Ask;
use jffs_tree::Wish;
use std::alloc::Global;

/// What is looked for.
#[derive(Drop)]
pub(crate) enum Query {
    /// What stands at the path.
    Stat(Path),
    /// The names in the directory at the path.
    List(Path),
    /// At most `len` bytes of the file at the path, from `offset` on.
    Read { path: Path, offset: u32, len: u32 },
    Room,
    Limits,
    Check,
}

/// What a request wants.
#[derive(Drop)]
pub(crate) enum Wanted {
    /// A look at the volume, which stays as it is.
    Query(Query),
    /// A change.
    Change(Wish),
    Sync,
    Unmount,
}

/// What a request wants with these bytes after its line. `None` where a path is none. `Memory`.
pub(crate) fn wants(alloc: Global, ask: Ask, body: &[u8]) -> Result<Option<Wanted>, NoMemory>
    requires { first_len ask ≤ length body.now }
    ensures { IfOk result (λ found. IfSome found (λ w. w ≡ wanted_of ask body.now)) }
{
    let (first, rest) = body.split_at(ask.first_len() as usize);
    match ask {
        Ask::Room => Ok(Some(Wanted::Query(Query::Room))),
        Ask::Limits => Ok(Some(Wanted::Query(Query::Limits))),
        Ask::Check => Ok(Some(Wanted::Query(Query::Check))),
        Ask::Sync => Ok(Some(Wanted::Sync)),
        Ask::Unmount => Ok(Some(Wanted::Unmount)),
        _ => match path_at(alloc, first)? {
            Some(path) => wanted_at(alloc, ask, path, rest),
            None => Ok(None),
        },
    }
}

/// What a request wants with this path, and the bytes after it.
fn wanted_at(alloc: Global, ask: Ask, path: Path, rest: &[u8]) -> Result<Option<Wanted>, NoMemory>
    ensures { IfOk result (λ found. IfSome found (λ w. w ≡ wanted_by ask path rest.now)) }
{
    let wish = match ask {
        Ask::Stat { .. } => return Ok(Some(Wanted::Query(Query::Stat(path)))),
        Ask::List { .. } => return Ok(Some(Wanted::Query(Query::List(path)))),
        Ask::Read { offset, len, .. } => {
            return Ok(Some(Wanted::Query(Query::Read { path, offset, len })));
        }
        Ask::Create { .. } => Wish::Create(path),
        Ask::MakeDir { .. } => Wish::MakeDir(path),
        Ask::Write { offset, .. } => Wish::Write {
            path,
            offset,
            bytes: copied(alloc, rest)?,
        },
        Ask::Truncate { size, .. } => Wish::Truncate { path, size },
        Ask::Remove { .. } => Wish::Remove(path),
        Ask::Rename { .. } => match path_at(alloc, rest)? {
            Some(to) => Wish::Rename { from: path, to },
            None => return Ok(None),
        },
        Ask::Room | Ask::Limits | Ask::Check | Ask::Sync | Ask::Unmount => return Ok(None),
    };
    Ok(Some(Wanted::Change(wish)))
}

/// The path that bytes spell; `None` where they spell none. `Memory`.
fn path_at(alloc: Global, bytes: &[u8]) -> Result<Option<Path>, NoMemory>
    ensures { IfOk result (λ found. IfSome found (λ path. path ≡ spelled bytes.now)) }
{
    let Ok(text) = std::str::from_utf8(bytes) else {
        return Ok(None);
    };
    match Path::parse(alloc, text) {
        Ok(path) => Ok(Some(path)),
        Err(PathFault::Memory) => Err(NoMemory),
        Err(_) => Ok(None),
    }
}
