//! Paths: the names from the root to an inode.

ghost use Rattle.std.specs.Prelude.{◌≡◌, ◌≢◌, ◌<◌, ◌==◌, [], ◌∷◌, ◌++◌, not};
ghost use Rattle.std.specs.Prelude.{OnOk, IfOk, Err, Some, position, length, ◌≤◌};
ghost use Rattle.std.specs.Option.{option_copied};
ghost use Rattle.std.specs.Result.{result_err};
ghost use Rattle.jffs_node.specs.Path.{IsPath, path_of, path_after, named, name_fault, pieces_of};
ghost use Rattle.jffs_node.specs.Path.{left_len, length_fault};
ghost use Rattle.jffs_node.specs.Name.{is_name_byte as name_byte_test};

use crate::name::{NAME_MAX, Name, are_name_bytes, is_name_byte};
use smallvec::SmallVec;
use std::alloc::{AllocError, Global};
use std::marker::Model;
use thiserror::Error;

/// The most names of a path: no inode is deeper in the tree.
pub const PATH_DEPTH_MAX: usize = 8;

/// What stands before each name.
const SLASH: u8 = b'/';

/// How many names a path holds without an allocation.
const NAMES_INLINE: usize = 2;

/// A path: the names from the root on, at most eight. The root's own path has none.
#[derive(Drop)]
pub struct Path {
    names: SmallVec<Name, NAMES_INLINE>,
}

impl Model for Path {
    ghost use Rattle.std.specs.Prelude.{List, ℕ};

    ghost Value = { List (List ℕ) };

    ghost use Rattle.jffs_node.specs.Path.{IsPath};

    ghost view = { λ a. a.names.items };

    ghost invariant = { λ a. IsPath a.names.items };
}

/// Why a text is no path. Of several faults the first in this order is given: no slash at its
/// start; the leftmost bad name; too many names.
#[derive(Clone, Copy, Debug, Error, PartialEq, Eq)]
pub enum PathFault {
    /// The text doesn't begin with a slash.
    #[error("a path begins with a slash")]
    NoSlash,
    /// Nothing stands between two slashes, or after the last.
    #[error("a name is empty")]
    NameEmpty,
    /// A name has more than 20 bytes.
    #[error("a name is longer than {NAME_MAX} bytes")]
    NameLong,
    /// A name has a byte that isn't printable, or a blank.
    #[error("a name has a byte that is not allowed")]
    NameByte,
    /// There are more than eight names.
    #[error("a path has more than {PATH_DEPTH_MAX} names")]
    Deep,
    /// Allocation failed.
    #[error("out of memory")]
    Memory,
}

impl From<AllocError> for PathFault {
    ghost use Rattle.jffs_node.specs.declared.path.PathFault.TheVariants.{Memory};
    ghost use Rattle.std.specs.Prelude.{◌≡◌};

    ghost from_gives = { λ _ fault. fault ≡ Memory };

    fn from(_refused: AllocError) -> PathFault {
        PathFault::Memory
    }
}

impl Path {
    /// The path that a text spells: a slash before each name, and a slash alone for the root.
    ///
    /// `Memory` if allocation failed for the names; it may come instead of a fault further to the
    /// right. Every other fault is that of the text.
    pub fn parse(alloc: Global, text: &str) -> Result<Path, PathFault>
        ensures { result ≢ Err PathFault.Memory → result ≡ path_of text.now }
    {
        let mut left = after_slash(text.as_bytes())?;
        let mut names = SmallVec::new(alloc);
        let mut deep = false;
        while let Some(text) = left {
            let first = first_name(text);
            let name = first.name()?;
            if names.len() < PATH_DEPTH_MAX {
                add(&mut names, name)?;
            } else {
                deep = true;
            }
            left = first.behind;
        }
        if deep {
            Err(PathFault::Deep)
        } else {
            Ok(Path { names })
        }
    }

    /// Whether a text spells a path; an error is the fault of the text, never `Memory`. Takes no
    /// memory.
    pub fn check(text: &str) -> Result<(), PathFault>
        ensures { result_err result ≡ result_err (path_of text.now) }
    {
        let mut left = after_slash(text.as_bytes())?;
        let mut count = 0;
        while let Some(text) = left {
            let first = first_name(text);
            if let Some(fault) = first.fault {
                return Err(fault);
            }
            count += 1;
            left = first.behind;
        }
        if count > PATH_DEPTH_MAX {
            Err(PathFault::Deep)
        } else {
            Ok(())
        }
    }

    /// The names from the root on, at most 8. Takes no memory.
    pub fn names(&self) -> &[Name]
        ensures value { result.now ≡ self.now }
        ensures lawful { IsPath self.now }
    {
        self.names.as_slice()
    }
}

impl Clone for Path {
    ghost use Rattle.std.specs.Prelude.{◌≡◌};

    ghost is_clone = { λ source copy. copy ≡ source };

    fn clone(&self) -> Result<Path, AllocError> {
        let names = self.names.clone()?;
        Ok(Path { names })
    }
}

/// Adds a name. The first that isn't held inline takes room for all that a path may have.
fn add(names: &mut SmallVec<Name, NAMES_INLINE>, name: Name) -> Result<(), AllocError>
    ensures { OnOk result (names.new.items ≡ names.old.items ++ name ∷ []) }
{
    if names.len() == NAMES_INLINE {
        names.reserve(PATH_DEPTH_MAX - NAMES_INLINE)?;
    }
    names.push(name)?;
    Ok(())
}

/// What stands after a path's first slash, if anything does.
fn after_slash(text: &[u8]) -> Result<Option<&[u8]>, PathFault>
    ensures read { path_of text.now ≡ path_after result }
    ensures shorter { IfOk result (λ rest. left_len (option_copied rest) ≤ length text.now) }
{
    match text.split_first() {
        Some((&SLASH, [])) => Ok(None),
        Some((&SLASH, rest)) => Ok(Some(rest)),
        _ => Err(PathFault::NoSlash),
    }
}

/// What stands before the first slash of a text, why that is no name if it isn't one, and what
/// stands after the slash if there is one.
#[derive(Clone, Copy)]
struct FirstName<'a> {
    bytes: &'a [u8],
    fault: Option<PathFault>,
    behind: Option<&'a [u8]>,
}

impl FirstName<'_> {
    /// The name that the bytes spell, or their fault.
    fn name(&self) -> Result<Name, PathFault>
        requires { self.now.fault ≡ name_fault self.now.bytes.now }
        ensures { result ≡ named self.now.bytes.now }
    {
        match self.fault {
            None => Ok(Name::spelled(self.bytes)),
            Some(fault) => Err(fault),
        }
    }
}

/// Takes a text's first name apart from the rest. It is read once, where no byte of it is wrong.
fn first_name(text: &[u8]) -> FirstName<'_>
    ensures pieces { pieces_of (Some text.now)
        ≡ result.bytes.now ∷ pieces_of (option_copied result.behind) }
    ensures fault { result.fault ≡ name_fault result.bytes.now }
    ensures shorter { left_len (option_copied result.behind) < left_len (Some text.now) }
{
    match end_of_name(text) {
        None => FirstName {
            bytes: text,
            fault: fault_of_length(text.len()),
            behind: None,
        },
        Some(end) if text[end] == SLASH => FirstName {
            bytes: &text[..end],
            fault: fault_of_length(end),
            behind: Some(&text[end + 1..]),
        },
        Some(_) => {
            let (bytes, behind) = split_first_name(text);
            FirstName {
                bytes,
                fault: fault_in(bytes),
                behind,
            }
        }
    }
}

/// Where the first byte stands that no name has, if there is one.
fn end_of_name(text: &[u8]) -> Option<usize>
    ensures { result ≡ position (λ c. not (name_byte_test c)) text.now }
{
    text.iter().position(|byte| !is_name_byte(*byte))
}

/// Why so many bytes are no name, where they are too few or too many.
fn fault_of_length(length: usize) -> Option<PathFault>
    ensures { result ≡ length_fault length }
{
    if length == 0 {
        Some(PathFault::NameEmpty)
    } else if length > NAME_MAX {
        Some(PathFault::NameLong)
    } else {
        None
    }
}

/// Why bytes are no name, where they aren't one.
fn fault_in(bytes: &[u8]) -> Option<PathFault>
    ensures { result ≡ name_fault bytes.now }
{
    match fault_of_length(bytes.len()) {
        Some(fault) => Some(fault),
        None if are_name_bytes(bytes) => None,
        None => Some(PathFault::NameByte),
    }
}

/// What stands before the first slash, and what after it if there is one.
fn split_first_name(text: &[u8]) -> (&[u8], Option<&[u8]>)
    ensures pieces { pieces_of (Some text.now) ≡ result.0.now ∷ pieces_of (option_copied result.1) }
    ensures shorter { left_len (option_copied result.1) < left_len (Some text.now) }
{
    match slash_in(text) {
        Some(end) => (&text[..end], Some(&text[end + 1..])),
        None => (text, None),
    }
}

/// Where the first slash stands, if there is one.
fn slash_in(text: &[u8]) -> Option<usize>
    ensures { result ≡ position (λ c. c == 47) text.now }
{
    text.iter().position(|byte| *byte == SLASH)
}
