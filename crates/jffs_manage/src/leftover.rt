//! What a put that was stopped has left.

ghost use Rattle.std.specs.Prelude.{◌≡◌};
ghost use Rattle.jffs_manage.specs.Left.{left_of, whole_left};

use jffs_node::Path;
use jffs_tree::Tree;
use thiserror::Error;

/// The name of a file that a put hasn't finished.
pub(crate) const UNFINISHED: &str = ".put.new";

/// What a put that was stopped has left, besides what stood there before.
#[derive(Clone, Copy, Debug, PartialEq, Eq, Error)]
pub enum Leftover {
    /// A part of the new file.
    #[error("a part of the new file is left as '.put.new' beside the path: rm it")]
    Part,
    /// All of the new file, beside what stands at its path.
    #[error("the new file is left whole as '.put.new' beside the path, where the old one still \
    stands: rm it")]
    Whole,
    /// All of the new file, and nothing at its path.
    #[error("the new file is left whole as '.put.new' beside the path: mv it")]
    Alone,
    /// The new file at its path.
    #[error("the new file stands at the path, whole")]
    Done,
    /// What isn't known, since the device failed.
    #[error("nobody could look what is left of the new file as '.put.new' beside the path")]
    Unseen(Unseen),
}

/// What was to be looked for after a device failed.
#[derive(Clone, Copy, Debug, PartialEq, Eq)]
pub struct Unseen {
    /// How many bytes the new file has.
    pub len: u32,
    /// Whether it was being renamed.
    pub renamed: bool,
}

impl Unseen {
    /// What a put has left on the volume whose tree this is. `None` where nothing is left.
    pub(crate) fn left_on(self, tree: &Tree, path: &Path, unfinished: &Path) -> Option<Leftover> {
        match left_in(tree, path, unfinished, self.len) {
            None if self.renamed => Some(Leftover::Done),
            left => left,
        }
    }
}

/// What is left of a new file of `len` bytes that stands at `unfinished` until it is renamed to
/// `path`. `None` where nothing stands there.
pub(crate) fn left_in(tree: &Tree, path: &Path, unfinished: &Path, len: u32) -> Option<Leftover>
    ensures { result ≡ left_of tree.now path.now unfinished.now len }
{
    let inode = tree.resolve(unfinished)?;
    if tree.size(inode).unwrap_or(0) == len {
        Some(whole_in(tree, path))
    } else {
        Some(Leftover::Part)
    }
}

/// What is left where the new file is whole.
fn whole_in(tree: &Tree, path: &Path) -> Leftover
    ensures { result ≡ whole_left tree.now path.now }
{
    match tree.resolve(path) {
        Some(_) => Leftover::Whole,
        None => Leftover::Alone,
    }
}
