//! The input, read to its end, or until it is no script.

ghost use Rattle.std.specs.Prelude.{◌+◌, ◌≤◌, length, vec_len, IfOk, OnOk};
ghost use Rattle.std.specs.Io.KnownBytes.{Consumes};
ghost use Rattle.jffs_program.specs.Read.{Grows};

use jffs_text::{SCRIPT_MAX, Script};
use std::alloc::Global;
use std::fs;
use std::io::{ErrorKind, Read};
use std::rt::Files;
use thiserror::Error;

/// The most calls of `read`; a reader that gives little at a time and never ends is given up.
const READS_MAX: u32 = 1_000_000;
/// How many bytes one call asks for.
const CHUNK_LEN: usize = 4096;
/// After how many bytes it is first looked whether the script can be taken at all, and then each
/// time that there are twice as many.
const FIRST_LOOK: usize = 1 << 20;

/// Why the input could not be read.
#[derive(Clone, Copy, Debug, PartialEq, Eq)]
pub(crate) enum InputFault {
    Read,
    Memory,
}

/// All bytes of a reader, if they can be a script. Else as many as show that they can't be one, and
/// no more than twice as many, with a million, or than [`SCRIPT_MAX`] and one chunk.
pub(crate) fn read_script<R: Read>(alloc: Global, input: &mut R) -> Result<Vec<u8>, InputFault>
    ensures taken { IfOk result
        (λ text. Consumes (R.remaining input.old) (R.remaining input.new) text.items) }
    ensures bounded { IfOk result (λ text. vec_len text ≤ SCRIPT_MAX + CHUNK_LEN) }
{
    let mut text = Vec::new(alloc);
    let mut chunk = [0u8; CHUNK_LEN];
    let mut next_look = FIRST_LOOK;
    for _ in 0..READS_MAX {
        if !read_chunk(input, &mut chunk, &mut text)? || text.len() > SCRIPT_MAX {
            return Ok(text);
        }
        if text.len() >= next_look {
            if Script::mistake_so_far(alloc, &text).is_some() {
                return Ok(text);
            }
            next_look = next_look.saturating_mul(2);
        }
    }
    Err(InputFault::Read)
}

/// Adds some bytes of a reader to a text, at most as many as the chunk has. False at its end.
fn read_chunk<R: Read>(
    input: &mut R,
    chunk: &mut [u8],
    text: &mut Vec<u8>,
) -> Result<bool, InputFault>
    ensures { OnOk result (Grows (R.remaining input.old) (R.remaining input.new) text.old.items
        text.new.items (length chunk.old)) }
{
    match input.read(chunk) {
        Ok(0) => Ok(false),
        Ok(count) => {
            text.extend_from_slice(&chunk[..count])
                .map_err(|_| InputFault::Memory)?;
            Ok(true)
        }
        Err(fault) => match fault.kind() {
            ErrorKind::Interrupted => Ok(true),
            ErrorKind::OutOfMemory => Err(InputFault::Memory),
            _ => Err(InputFault::Read),
        },
    }
}

/// Why a script's file could not be read.
#[derive(Clone, Copy, Debug, PartialEq, Eq, Error)]
pub(crate) enum Unread {
    #[error("there is no such file")]
    Missing,
    #[error("the file can't be opened for reading")]
    Closed,
    #[error("the file can't be read")]
    Read,
    #[error("out of memory")]
    Memory,
}

/// All bytes of a file, if they can be a script, as [`read_script`] reads them.
pub(crate) fn read_file<Rt: AllocGlobal + Files>(rt: &Rt, path: &str) -> Result<Vec<u8>, Unread> {
    let mut file = fs::open(rt, path).map_err(|error| match error.kind() {
        ErrorKind::NotFound => Unread::Missing,
        ErrorKind::OutOfMemory => Unread::Memory,
        _ => Unread::Closed,
    })?;
    read_script(rt.alloc(), &mut file).map_err(|fault| match fault {
        InputFault::Read => Unread::Read,
        InputFault::Memory => Unread::Memory,
    })
}
