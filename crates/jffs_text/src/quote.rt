//! Words that messages show.

use std::fmt;
use std::fmt::Display;

/// The most bytes of a word that a message shows.
pub const QUOTE_MAX: usize = 40;

/// Bytes as a message shows them, so that they stay on its line and do nothing to a terminal: text
/// as it is, but a backslash as two, a character that doesn't print as Rust writes it in a text,
/// `\n` or `\u{1b}`, and a byte that is no part of a text as `\xNN`.
#[derive(Clone, Copy, Debug, PartialEq, Eq)]
pub struct Shown<'a> {
    bytes: &'a [u8],
}

impl<'a> Shown<'a> {
    /// How a message shows a text.
    pub fn text(text: &'a str) -> Shown<'a> {
        Shown::bytes(text.as_bytes())
    }

    /// How a message shows bytes that may be no text.
    pub fn bytes(bytes: &'a [u8]) -> Shown<'a> {
        Shown { bytes }
    }
}

impl<'a> Display for Shown<'a> {
    fn fmt<W: fmt::Write>(&self, f: &mut fmt::Formatter<W>) -> fmt::Result {
        for part in self.bytes.utf8_chunks() {
            for character in part.valid().chars() {
                match character {
                    '\'' | '"' => f.write_char(character)?,
                    _ => write!(f, "{}", character.escape_debug())?,
                }
            }
            for byte in part.invalid() {
                write!(f, "\\x{byte:02x}")?;
            }
        }
        Ok(())
    }
}

/// A word that a message shows in quotes, or the beginning of a long one. It has its own copy and
/// takes no memory.
#[derive(Clone, Copy, Debug, PartialEq, Eq)]
pub struct Quote {
    start: [u8; QUOTE_MAX],
    /// How many bytes of it are shown.
    shown: u32,
    /// Whether the word has more bytes.
    cut: bool,
}

impl Quote {
    /// The quote of a word. A long one is cut between two characters.
    pub fn of(word: &str) -> Quote {
        let mut most = QUOTE_MAX.min(word.len());
        // No character has more than four bytes.
        for _ in 0..3 {
            if !word.is_char_boundary(most) {
                most = most.saturating_sub(1);
            }
        }
        Quote::cut_at(word.as_bytes(), most)
    }

    /// The quote of a word that may be no text.
    pub fn of_bytes(word: &[u8]) -> Quote {
        Quote::cut_at(word, QUOTE_MAX)
    }

    /// The quote of at most so many first bytes of a word.
    fn cut_at(word: &[u8], most: usize) -> Quote {
        let mut start = [0; QUOTE_MAX];
        for (kept, byte) in start.iter_mut().zip(word) {
            *kept = *byte;
        }
        Quote {
            start,
            shown: most.min(word.len()).min(QUOTE_MAX) as u32,
            cut: most < word.len(),
        }
    }
}

/// `'word'`, as [`Shown`] has it; of a word of more than [`QUOTE_MAX`] bytes its beginning, and then
/// two dots. An empty word is told of as one.
impl Display for Quote {
    fn fmt<W: fmt::Write>(&self, f: &mut fmt::Formatter<W>) -> fmt::Result {
        if self.shown == 0 {
            return f.write_str("an empty word (a space too many)");
        }
        let shown = self.start.get(..self.shown as usize).unwrap_or(&self.start);
        let dots = if self.cut { ".." } else { "" };
        write!(f, "'{}{dots}'", Shown::bytes(shown))
    }
}
