//! Paths that stay in a script's text.

ghost use Rattle.std.specs.Prelude.{◌≡◌, IfOk};
ghost use Rattle.jffs_node.specs.Path.{path_of};

use jffs_node::{NoMemory, Path, PathFault};
use std::alloc::Global;
use std::marker::Model;

/// A path as a text spells it. It takes no memory but the text's; its names are told apart when
/// they are asked for.
#[derive(Drop)]
pub struct SpelledPath<'a> {
    text: &'a str,
}

impl<'a> Model for SpelledPath<'a> {
    ghost use Rattle.std.specs.Prelude.{◌≡◌, ℕ, List, Ok};

    ghost Value = { List (List ℕ) };

    ghost use Rattle.jffs_node.specs.Path.{path_of};
    ghost use Rattle.jffs_text.specs.Spelling.{spelled};

    ghost view = { λ p. spelled p.text.now };

    ghost invariant = { λ p. path_of p.text.now ≡ Ok (spelled p.text.now) };
}

impl<'a> SpelledPath<'a> {
    /// The path that a text spells, or the text's fault, which is never `Memory`.
    pub fn of(text: &'a str) -> Result<SpelledPath<'a>, PathFault>
        ensures { result ≡ path_of text.now }
    {
        Path::check(text)?;
        Ok(SpelledPath { text })
    }

    /// The path with its names told apart.
    ///
    /// `NoMemory` if allocation failed.
    pub fn path(&self, alloc: Global) -> Result<Path, NoMemory>
        ensures { IfOk result (λ path. path ≡ self.now) }
    {
        Path::parse(alloc, self.text).map_err(|_| NoMemory)
    }
}
