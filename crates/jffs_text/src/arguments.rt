//! The words that a program is called with.

use crate::quote::Shown;
use std::alloc::{AllocFailed, Global};
use std::io;
use std::io::{ErrorKind, Write};
use thiserror::Error;

/// What `--version` prints after a program's name.
const VERSION: &str = "0.1.0";

/// The status of a program that said what `--help` or `--version` asks for.
const DONE: u8 = 0;
/// The status of a program that lacked memory, or could not write.
const BROKEN: u8 = 1;
/// The status of a program that was called in a wrong way.
const MISUSED: u8 = 2;

/// How a program is called: with plain words, and with options, which begin with `-`.
#[derive(Clone, Copy, Debug, PartialEq, Eq)]
pub struct Usage {
    /// The program's name.
    pub program: &'static str,
    /// What `--help` prints.
    pub help: &'static str,
    /// The option that the next word belongs to, where there is one.
    pub option: Option<&'static str>,
    /// All options, as a message names them.
    pub options: &'static str,
    /// The most plain words.
    pub most: usize,
}

/// The words of a call for a program's work.
#[derive(Debug, Drop)]
pub struct Work<'a> {
    /// The word after the option.
    pub value: Option<&'a str>,
    /// The plain words, in order.
    pub words: Vec<&'a str>,
}

/// What a program is called for.
#[derive(Debug, Drop)]
pub(crate) enum CalledFor<'a> {
    /// To say how it is called.
    Help,
    /// To say its version.
    Version,
    Work(Work<'a>),
}

/// Why a call ends before the program's work, with the word that is wrong.
#[derive(Clone, Copy, Debug, PartialEq, Eq, Error)]
pub(crate) enum UsageFault<'a> {
    /// An option that the program hasn't got.
    #[error("unknown option '{}'; options are {options}", Shown::text(word))]
    Option {
        word: &'a str,
        options: &'static str,
    },
    /// A plain word after the last that is wanted.
    #[error("unexpected word '{}'; --help tells more", Shown::text(.0))]
    Extra(&'a str),
    /// A word beside one that stands alone.
    #[error("unexpected word '{}' beside '{alone}', which stands alone", Shown::text(word))]
    Beside {
        word: &'a str,
        alone: &'a str,
    },
    /// A word without bytes.
    #[error("an empty word; --help tells which words there are")]
    Empty,
    /// The option that the next word belongs to is the last word.
    #[error("a word is wanted after '{0}'")]
    NoValue(&'a str),
    /// The same option once more.
    #[error("'{0}' stands twice")]
    Twice(&'a str),
    /// What was asked for can't be written.
    #[error("standard output can't be written")]
    Write,
    /// Allocation failed.
    #[error("out of memory")]
    Memory,
}

impl<'a> UsageFault<'a> {
    /// The status that the program ends with.
    fn status(self) -> u8 {
        match self {
            UsageFault::Write | UsageFault::Memory => BROKEN,
            _ => MISUSED,
        }
    }
}

impl<'a, T: Drop> From<AllocFailed<T>> for UsageFault<'a> {
    fn from(_: AllocFailed<T>) -> UsageFault<'a> {
        UsageFault::Memory
    }
}

/// An error of standard output.
impl<'a> From<io::Error> for UsageFault<'a> {
    fn from(error: io::Error) -> UsageFault<'a> {
        match error.kind() {
            ErrorKind::OutOfMemory => UsageFault::Memory,
            _ => UsageFault::Write,
        }
    }
}

impl Usage {
    /// The words of a call for the program's work; `words` has its own name first. What `--help`
    /// and `--version` ask for is written to `out` here, which is flushed.
    ///
    /// An error is the exit status of a call that is over by now: 0 after `--help` and `--version`,
    /// 2 after a wrong call, 1 where `out` can't be written or allocation failed. For the last two
    /// one line goes to `errors`, which names the word that is wrong.
    pub fn work<'a, W: Write, E: Write>(
        &self,
        alloc: Global,
        words: &'a [String],
        out: &mut W,
        errors: &mut E,
    ) -> Result<Work<'a>, u8> {
        match self.answer(alloc, words, out) {
            Ok(Some(work)) => Ok(work),
            Ok(None) => Err(DONE),
            Err(fault) => {
                let _ = writeln!(errors, "{}: {fault}", self.program);
                Err(fault.status())
            }
        }
    }

    /// The words of a call for work. None once another call is answered.
    fn answer<'a, W: Write>(
        &self,
        alloc: Global,
        words: &'a [String],
        out: &mut W,
    ) -> Result<Option<Work<'a>>, UsageFault<'a>> {
        match self.call(alloc, words)? {
            CalledFor::Work(work) => return Ok(Some(work)),
            CalledFor::Help => out.write_all(self.help.as_bytes())?,
            CalledFor::Version => writeln!(out, "{} {VERSION}", self.program)?,
        }
        out.flush()?;
        Ok(None)
    }

    /// What the words ask for, of which the first is the program's own name. They are read from the
    /// left; `--help`, or `-h`, and `--version` stand alone.
    ///
    /// `Option`, `Extra`, `Twice` or `NoValue` with the first word that is wrong, `Empty` for an
    /// empty one; `Beside` with the first word that stands beside `--help` or `--version`; `Memory`
    /// if allocation failed.
    pub(crate) fn call<'a>(
        &self,
        alloc: Global,
        words: &'a [String],
    ) -> Result<CalledFor<'a>, UsageFault<'a>> {
        let mut plain = Vec::new(alloc);
        let mut value = None;
        let mut open = None;
        for word in words.iter().skip(1) {
            let word = word.as_str();
            if word.is_empty() {
                return Err(UsageFault::Empty);
            } else if open.is_some() {
                value = Some(word);
                open = None;
            } else if word == "--help" || word == "-h" {
                return alone(words, word, CalledFor::Help);
            } else if word == "--version" {
                return alone(words, word, CalledFor::Version);
            } else if self.option == Some(word) {
                if value.is_some() {
                    return Err(UsageFault::Twice(word));
                }
                open = Some(word);
            } else if word.starts_with('-') {
                let options = self.options;
                return Err(UsageFault::Option { word, options });
            } else if plain.len() >= self.most {
                return Err(UsageFault::Extra(word));
            } else {
                plain.push(word)?;
            }
        }
        match open {
            Some(option) => Err(UsageFault::NoValue(option)),
            None => Ok(CalledFor::Work(Work {
                value,
                words: plain,
            })),
        }
    }
}

/// What a word asks for that stands alone in a call. `Beside` with the first other word.
fn alone<'a>(
    words: &'a [String],
    asked: &'a str,
    call: CalledFor<'a>,
) -> Result<CalledFor<'a>, UsageFault<'a>> {
    for word in words.iter().skip(1) {
        let word = word.as_str();
        if word != asked {
            return Err(UsageFault::Beside { word, alone: asked });
        }
    }
    Ok(call)
}
