//! The words that the operating system hands to a program.

use crate::quote::Quote;
use std::alloc::AllocError;
use std::env;
use std::env::FillError;
use std::io::{ErrorKind, Write};
use std::rt::Env;
use thiserror::Error;

/// The status of a program that lacked memory.
const BROKEN: u8 = 1;
/// The status of a program that was called in a wrong way.
const MISUSED: u8 = 2;

/// How many bytes a word is read into first. It is read again into twice as many where it is longer.
const WORD_LEN: usize = 256;
/// How often that is done: no system hands out longer words.
const DOUBLINGS: u32 = 24;

/// Why there are no words.
#[derive(Clone, Copy, Debug, PartialEq, Eq, Error)]
enum NoWords {
    /// A word isn't text.
    #[error("the word {0} is no text in UTF-8")]
    Text(Quote),
    /// Allocation failed.
    #[error("out of memory")]
    Memory,
}

impl From<AllocError> for NoWords {
    fn from(_: AllocError) -> NoWords {
        NoWords::Memory
    }
}

impl NoWords {
    /// The status that the program ends with.
    fn status(self) -> u8 {
        match self {
            NoWords::Text(_) => MISUSED,
            NoWords::Memory => BROKEN,
        }
    }
}

/// The words that a program is called with, its own name first.
///
/// An error is the exit status: 2 where a word isn't UTF-8, 1 where allocation failed. One line
/// then goes to `errors`, with the word that is wrong.
pub fn words_given<Rt: Env + AllocGlobal, E: Write>(
    rt: &Rt,
    program: &str,
    errors: &mut E,
) -> Result<Vec<String>, u8> {
    match words_of(rt) {
        Ok(words) => Ok(words),
        Err(why) => {
            let _ = writeln!(errors, "{program}: {why}");
            Err(why.status())
        }
    }
}

fn words_of<Rt: Env + AllocGlobal>(rt: &Rt) -> Result<Vec<String>, NoWords> {
    match env::args(rt) {
        Ok(words) => Ok(words.collect(rt.alloc())?),
        Err(error) if error.kind() == ErrorKind::InvalidData => Err(NoWords::Text(odd_word(rt)?)),
        Err(_) => Err(NoWords::Memory),
    }
}

/// The first word that isn't UTF-8.
fn odd_word<Rt: Env + AllocGlobal>(rt: &Rt) -> Result<Quote, AllocError> {
    for number in 0..usize::MAX {
        match word_at(rt, number)? {
            Some(word) if str::from_utf8(&word).is_ok() => {}
            Some(word) => return Ok(Quote::of_bytes(&word)),
            None => break,
        }
    }
    Ok(Quote::of(""))
}

/// The bytes of a word of the call; `None` after the last.
fn word_at<Rt: Env + AllocGlobal>(rt: &Rt, number: usize) -> Result<Option<Vec<u8>>, AllocError> {
    let mut word = vec![in rt.alloc(); 0u8; WORD_LEN]?;
    for _ in 0..DOUBLINGS {
        match rt.arg(number, &mut word) {
            Ok(len) => {
                word.truncate(len);
                return Ok(Some(word));
            }
            Err(FillError::NotPresent) => break,
            Err(FillError::TooLong) => {
                let len = word.len().saturating_mul(2);
                word.resize(len, 0)?;
            }
        }
    }
    Ok(None)
}
