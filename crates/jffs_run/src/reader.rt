//! A reader's thread: it looks until its request is answered, and reads a file in that very view.

ghost use Rattle.std.specs.Prelude.{◌≡◌, Some, IfOk, IfSome};
ghost use Rattle.jffs_tree.specs.Look.{kind_in, bytes_in};
ghost use Rattle.jffs_index.specs.Ends.{index_of, known};
ghost use Rattle.jffs_index.specs.Histories.{view_of};
ghost use Rattle.jffs_run.specs.Looking.{FitsView, FitsPath};

use jffs_index::{Reader, View};
use jffs_node::{Kind, Path};
use jffs_serve::{Ended, Pauses};
use jffs_text::ReaderStatement;
use std::alloc::{AllocError, Global};
use std::sync::Wait;

/// How often a reader looks before it gives up. With the sleeps between, that takes more than an
/// hour.
const LOOKS_MAX: u32 = 1_000_000;

/// The longest sleep between two looks, in microseconds.
const SLEEP_MAX: u64 = 10_000;

/// What became of a reader.
#[derive(Drop)]
pub enum ReaderEnd {
    /// It did not see its request answered.
    NotSeen,
    /// In the view that showed the answer its path was no file.
    NoFile,
    /// The file's bytes in the view that showed the answer.
    Bytes(Vec<u8>),
}

/// What a reader's thread gives back.
#[derive(Drop)]
pub(crate) struct ReaderStop {
    pub(crate) reader: Reader,
    pub(crate) end: ReaderEnd,
}

/// Looks until the awaited request is answered, and reads the path then. `NotSeen`: it looked
/// too often, the session closed or the log thread ended without that answer, or the bytes could
/// not be allocated.
pub(crate) fn run_reader<R: Wait>(
    rt: &R,
    alloc: Global,
    reader: Reader,
    statement: &ReaderStatement,
    ended: &Ended,
) -> ReaderStop
    ensures index { index_of result.reader ≡ index_of reader }
    ensures end { FitsView (view_of (known result.reader)) statement.now result.end }
{
    let mut reader = reader;
    let mut pauses = Pauses::up_to(SLEEP_MAX);
    for _ in 0..LOOKS_MAX {
        let is_last = ended.is_told();
        let found = reader.look(
            |view: &View| -> Option<ReaderEnd>
                ensures { IfSome result (FitsView view.now statement.entry.now) }
            { end_in(view, alloc, statement) },
        );
        match found {
            Some(Some(end)) => return ReaderStop { reader, end },
            Some(None) if !is_last => pauses.pause(rt, ended),
            _ => break,
        }
    }
    ReaderStop {
        reader,
        end: ReaderEnd::NotSeen,
    }
}

/// What a view makes of a reader; None where it has to look again.
fn end_in(view: &View, alloc: Global, statement: &ReaderStatement) -> Option<ReaderEnd>
    ensures { IfSome result (FitsView view.now statement.now) }
{
    let is_answered = match u16::try_from(statement.writer) {
        Ok(writer) => view.answer(writer, statement.seq).is_some(),
        Err(_) => false,
    };
    if !is_answered {
        return view.closed().then_some(ReaderEnd::NotSeen);
    }
    Some(read_path(view, alloc, &statement.path))
}

/// The bytes of the file at a path. `NotSeen` where memory for them was refused.
fn read_path(view: &View, alloc: Global, path: &Path) -> ReaderEnd
    ensures { FitsPath view.now path.now result }
{
    let Some(inode) = view.resolve(path) else {
        return ReaderEnd::NoFile;
    };
    if view.kind(inode) != Some(Kind::File) {
        return ReaderEnd::NoFile;
    }
    match read_file(view, alloc, inode) {
        Ok(bytes) => ReaderEnd::Bytes(bytes),
        Err(AllocError) => ReaderEnd::NotSeen,
    }
}

fn read_file(view: &View, alloc: Global, inode: u32) -> Result<Vec<u8>, AllocError>
    requires { kind_in view.now.tree inode ≡ Some Kind.File }
    ensures { IfOk result (λ bytes. bytes.items ≡ bytes_in view.now.tree inode) }
{
    let size = view.size(inode).unwrap_or(0);
    let mut bytes = vec![in alloc; 0u8; size as usize]?;
    let out: &mut [u8] = &mut bytes;
    view.read(inode, 0, out);
    Ok(bytes)
}
