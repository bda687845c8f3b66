//! The lines of a text, and what may stand in one.

ghost use Rattle.std.specs.Prelude.{◌≡◌, ◌+◌, length};
ghost use Rattle.std.specs.Int.{is_in_range};
ghost use Rattle.std.specs.Iterator.{at_most};
ghost use Rattle.std.specs.List.{list_all};
ghost use Rattle.std.specs.Option.{option_copied};
ghost use Rattle.jffs_node.specs.Path.{left_len};

use crate::mistake::Mistake;
use crate::script::LINE_MAX;
use memchr::memchr;

/// What stands between the line feeds of a text, from its start on. An empty text is one empty
/// line.
#[derive(Drop)]
pub(crate) struct Lines<'a> {
    /// What is left of the text, where the last line isn't taken.
    rest: Option<&'a [u8]>,
}

impl<'a> Lines<'a> {
    pub(crate) fn of(text: &'a [u8]) -> Lines<'a>
        ensures { left_len (option_copied result.rest) ≡ length text.now + 1 }
    {
        Lines { rest: Some(text) }
    }
}

impl<'a> Iterator for Lines<'a> {
    type Item = &'a [u8];

    ghost remaining = { λ s. at_most (left_len (option_copied s.rest)) };

    fn next(&mut self) -> Option<&'a [u8]> {
        let rest = self.rest?;
        match memchr(b'\n', rest) {
            Some(end) => {
                self.rest = Some(&rest[end + 1..]);
                Some(&rest[..end])
            }
            None => {
                self.rest = None;
                Some(rest)
            }
        }
    }
}

/// A line as text. A mistake of the kind `Text` if it has a byte outside `20` to `7E`, or more than
/// [`LINE_MAX`] bytes.
pub fn line_text(line: &[u8]) -> Result<&str, Mistake> {
    let text = utf8_text(line)?;
    all_printable(line)?;
    Ok(text)
}

/// A line as text, whose characters may be others than a line's. Else as [`line_text`].
pub(crate) fn utf8_text(line: &[u8]) -> Result<&str, Mistake> {
    if line.len() > LINE_MAX {
        return Err(Mistake::Long);
    }
    str::from_utf8(line).map_err(|_| unprintable(line))
}

/// That a line has no byte outside `20` to `7E`. A mistake of the kind `Text` if it has one.
pub(crate) fn all_printable(line: &[u8]) -> Result<(), Mistake> {
    if is_printable(line) {
        Ok(())
    } else {
        Err(unprintable(line))
    }
}

/// What is wrong with a line that has a byte outside `20` to `7E`.
#[cold]
fn unprintable(line: &[u8]) -> Mistake {
    for (before, byte) in line.iter().enumerate() {
        let at = before + 1;
        match *byte {
            b' '..=b'~' => {}
            b'\r' if at == line.len() => return Mistake::CarriageReturn,
            b'\t' => return Mistake::Tab { at },
            byte => return Mistake::Byte { at, byte },
        }
    }
    Mistake::Long
}

fn is_printable(line: &[u8]) -> bool
    ensures { result ≡ list_all (is_in_range 32 126) line.now }
{
    // No early exit, so that the compiler can vectorize the loop.
    let mut printable = true;
    for byte in line {
        printable &= matches!(byte, b' '..=b'~');
    }
    printable
}
