//! How far a walk came.

use jffs_text::Shown;
use std::alloc::{AllocError, Global};
use std::fmt;
use std::fmt::Display;

/// The path at which a command stopped, which the line about it shows; empty where there is none.
#[derive(Drop)]
pub(crate) struct Reached {
    path: Vec<u8>,
}

impl Reached {
    /// No path.
    pub fn new(alloc: Global) -> Reached {
        Reached {
            path: Vec::new(alloc),
        }
    }

    /// This path, in place of the one before.
    pub fn set(&mut self, path: &str) -> Result<(), AllocError> {
        self.path.clear();
        self.path.extend_from_slice(path.as_bytes())
    }

    /// The path of this name in a directory. The name may be no text.
    pub fn set_in(&mut self, directory: &str, name: &[u8]) -> Result<(), AllocError> {
        self.set(directory)?;
        self.path.push(b'/')?;
        self.path.extend_from_slice(name)
    }

    /// No path any more.
    pub fn clear(&mut self) {
        self.path.clear();
    }

    pub fn is_empty(&self) -> bool {
        self.path.is_empty()
    }

    /// The path; the empty text where it is none.
    pub fn text(&self) -> &str {
        str::from_utf8(&self.path).unwrap_or("")
    }
}

impl Display for Reached {
    fn fmt<W: fmt::Write>(&self, f: &mut fmt::Formatter<W>) -> fmt::Result {
        Display::fmt(&Shown::bytes(&self.path), f)
    }
}
