//! The words of a line.

ghost use Rattle.std.specs.Prelude.{◌≡◌, ◌≤◌, ◌<◌, ◌*◌, true, length, IfOk};
ghost use Rattle.jffs_text.specs.Dump.{hex, hex_digit};

use crate::mistake::Mistake;
use crate::quote::Quote;
use crate::spelled::SpelledPath;
use jffs_node::{Path, PathFault};
use std::alloc::Global;

/// The words of a line that are still to come. Words are separated by one space, so two
/// spaces have an empty word between them.
#[derive(Clone, Copy)]
pub struct Words<'a> {
    /// What is left of the line, where the last word isn't taken.
    rest: Option<&'a str>,
}

impl<'a> Words<'a> {
    /// The words of a line, all of them still to come.
    pub fn of(line: &'a str) -> Words<'a> {
        Words { rest: Some(line) }
    }

    /// How many words are left.
    pub fn count(&self) -> usize {
        match self.rest {
            Some(rest) => spaces_in(rest.as_bytes()) + 1,
            None => 0,
        }
    }

    /// Takes the next word; it is empty where none is left.
    pub fn take(&mut self) -> &'a str {
        let Some(rest) = self.rest else {
            return "";
        };
        match rest.split_once(' ') {
            Some((word, behind)) => {
                self.rest = Some(behind);
                word
            }
            None => {
                self.rest = None;
                rest
            }
        }
    }

    /// That no word is left. `Spaces` if one is.
    pub(crate) fn end(self) -> Result<(), Mistake> {
        match self.rest {
            Some(_) => Err(Mistake::Spaces),
            None => Ok(()),
        }
    }

    /// What a statement of so many words is, if so many are left. `Few` or `Extra` with the
    /// statement's form if they aren't, `Spaces` where one of too many is empty.
    pub fn as_many<T: Copy>(
        self,
        wanted: usize,
        form: &'static str,
        statement: T,
    ) -> Result<T, Mistake> {
        let count = self.count();
        if count == wanted {
            Ok(statement)
        } else if count < wanted {
            Err(Mistake::Few(form))
        } else {
            Err(self.too_many(wanted, form))
        }
    }

    /// What is wrong where more words are left than these.
    #[cold]
    fn too_many(mut self, wanted: usize, form: &'static str) -> Mistake {
        let mut extra = Quote::of("");
        for index in 0..self.count() {
            let word = self.take();
            if word.is_empty() {
                return Mistake::Spaces;
            }
            if index == wanted {
                extra = Quote::of(word);
            }
        }
        Mistake::Extra { word: extra, form }
    }

    /// Takes the next word, a number from `least` to `most`. A mistake of the kind `Number` if it
    /// isn't one.
    pub fn take_number(&mut self, least: u32, most: u32) -> Result<u32, Mistake>
        ensures least { IfOk result (λ n. least ≤ n) }
        ensures most { IfOk result (λ n. n ≤ most) }
    {
        let word = self.take();
        match number(word) {
            Some(value) if least <= value && value <= most => Ok(value),
            _ => Err(no_number(word, least, most)),
        }
    }

    /// Takes the next word, a path. `Path` if it isn't one, `Memory` if allocation failed.
    pub fn take_path(&mut self, alloc: Global) -> Result<Path, Mistake> {
        let word = self.take();
        Path::parse(alloc, word).map_err(|fault| no_path(word, fault))
    }

    /// Takes the next word, a path, as it is spelled there. `Path` if it isn't one.
    pub(crate) fn take_spelled(&mut self) -> Result<SpelledPath<'a>, Mistake> {
        let word = self.take();
        SpelledPath::of(word).map_err(|fault| no_path(word, fault))
    }

    /// Takes the next word, bytes in lower case hex; `-` stands for none. `Hex` or `OddHex` if it
    /// isn't that, `Memory` if allocation failed.
    pub fn take_bytes(&mut self, alloc: Global) -> Result<Vec<u8>, Mistake> {
        let word = self.take();
        if word == "-" {
            return Ok(Vec::new(alloc));
        }
        bytes_of_hex(alloc, word)
    }

    /// Takes the next word, one byte as two digits of hex. `OneByte` if it isn't that.
    pub fn take_byte(&mut self) -> Result<u8, Mistake> {
        let word = self.take();
        let digits = word.as_bytes();
        let mut byte = [0u8; 1];
        if digits.len() == 2 && read_hex(digits, &mut byte) {
            Ok(byte[0])
        } else {
            Err(Mistake::OneByte(Quote::of(word)))
        }
    }
}

/// What is wrong with a word that is no path.
#[cold]
#[inline(never)]
fn no_path(word: &str, fault: PathFault) -> Mistake {
    match fault {
        PathFault::Memory => Mistake::Memory,
        fault => Mistake::Path {
            word: Quote::of(word),
            fault,
        },
    }
}

fn spaces_in(text: &[u8]) -> usize
    ensures { result ≤ length text.now }
{
    let mut spaces = 0;
    for index in 0..text.len() {
        spaces += usize::from(text[index] == b' ');
    }
    spaces
}

/// A decimal number without leading zeros, of at most 32 bits.
fn number(word: &str) -> Option<u32> {
    let digits = word.as_bytes();
    if matches!(digits, [] | [b'0', _, ..]) {
        return None;
    }
    let mut value = 0u64;
    for digit in digits {
        if !digit.is_ascii_digit() {
            return None;
        }
        value = value * 10 + u64::from(*digit - b'0');
        if value > u64::from(u32::MAX) {
            return None;
        }
    }
    Some(value as u32)
}

/// Why a word is no number from `least` to `most`.
#[cold]
fn no_number(word: &str, least: u32, most: u32) -> Mistake {
    let quote = Quote::of(word);
    let digits = word.as_bytes();
    if digits.is_empty() || !digits.iter().all(|b| b.is_ascii_digit()) {
        return Mistake::Number(quote);
    }
    match digits {
        [b'0', _, ..] => Mistake::LeadingZero(quote),
        _ => Mistake::Range {
            least,
            most,
            word: quote,
        },
    }
}

/// Lower case hex, two digits a byte, at least one byte.
fn bytes_of_hex(alloc: Global, word: &str) -> Result<Vec<u8>, Mistake>
    ensures { IfOk result (λ bytes. hex bytes.items ≡ word.now) }
{
    let digits = word.as_bytes();
    if digits.len() == 0 {
        return Err(Mistake::Hex(Quote::of(word)));
    }
    if digits.len() % 2 != 0 {
        return Err(Mistake::OddHex(Quote::of(word)));
    }
    let mut bytes = vec![in alloc; 0u8; digits.len() / 2]?;
    if read_hex(digits, &mut bytes) {
        Ok(bytes)
    } else {
        Err(Mistake::Hex(Quote::of(word)))
    }
}

/// Reads two digits a byte, and answers whether each of them is one.
fn read_hex(digits: &[u8], bytes: &mut [u8]) -> bool
    requires { length digits.now ≡ 2 * length bytes.old }
    ensures { result ≡ true → hex bytes.new ≡ digits.now }
{
    // No early exit, so that the compiler can vectorize the loop.
    let mut all_read = true;
    for index in 0..bytes.len() {
        let high = digit_value(digits[2 * index]);
        let low = digit_value(digits[2 * index + 1]);
        bytes[index] = high % 16 * 16 + low % 16;
        all_read &= high < 16 && low < 16;
    }
    all_read
}

/// The value of a lower case digit, below 16, and 16 for any other byte.
fn digit_value(digit: u8) -> u8
    ensures { result < 16 → hex_digit result ≡ digit }
{
    match digit {
        b'0'..=b'9' => digit - b'0',
        b'a'..=b'f' => digit - b'a' + 10,
        _ => 16,
    }
}
