//! The words of a line.

use std::alloc::Global;
use std::test::Fail;

/// The words of a line that are still to come.
#[derive(Clone, Copy)]
pub(super) struct Words<'a> {
    pub(super) rest: &'a str,
}

impl<'a> Words<'a> {
    /// The next word; an empty one where none is left.
    pub(super) fn take(&mut self) -> &'a str {
        let (word, rest) = self.rest.split_once(' ').unwrap_or((self.rest, ""));
        self.rest = rest;
        word
    }

    pub(super) fn take_number(&mut self) -> Result<u32, Fail> {
        Ok(self.take().parse::<u32>()?)
    }

    /// The bytes of a word. `192*a` stands for 192 times the same one.
    pub(super) fn take_bytes(&mut self, alloc: Global) -> Result<Vec<u8>, Fail> {
        let word = self.take();
        let Some((times, one)) = word.split_once('*') else {
            return Ok(word.as_bytes().to_vec(alloc)?);
        };
        let byte = one.as_bytes().first().copied().unwrap_or(0);
        Ok(vec![in alloc; byte; times.parse::<usize>()?]?)
    }
}
