//! Why a script is refused.

use thiserror::Error;

/// Why a script is refused. On one line the reasons are tried as they stand here, with two
/// exceptions: `Empty` is known only at the end, and `Memory` comes wherever allocation fails.
#[derive(Clone, Copy, Debug, PartialEq, Eq, Error)]
pub enum ScriptWhy {
    /// Each line is empty or a comment.
    #[error("Empty")]
    Empty,
    /// The first statement isn't `volume` with sizes that a volume may have.
    #[error("Volume")]
    Volume,
    /// A byte that isn't printable ASCII, or a line that is too long.
    #[error("Text")]
    Text,
    /// A statement that isn't one of the script's: its first word, its number of words, or the form
    /// of `line`; or `volume` once more.
    #[error("Command")]
    Command,
    /// A second `line` or `cleaner`, or any of `line`, `cleaner` and `reader` below a `writer`.
    #[error("Header")]
    Header,
    /// A command before the first `writer`.
    #[error("Outside")]
    Outside,
    /// Too many readers, writers, or commands of a writer.
    #[error("Many")]
    Many,
    /// No number stands where one should, or it is too small or too large.
    #[error("Number")]
    Number,
    /// A word that isn't hex.
    #[error("Hex")]
    Hex,
    /// A word that isn't a path.
    #[error("Path")]
    Path,
    /// Allocation failed.
    #[error("Memory")]
    Memory,
}

/// The first line at which a script is refused, counted from 1, and why.
#[derive(Clone, Copy, Debug, PartialEq, Eq, Error)]
#[error("bad script, line {line}: {why}")]
pub struct ScriptFault {
    pub line: usize,
    pub why: ScriptWhy,
}
