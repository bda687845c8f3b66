//! Ranges of a store's bytes.

ghost use Rattle.std.specs.Prelude.{◌↔◌, Some, IsTrue};
ghost use Rattle.jffs_file.specs.Order.{Meets, IsInPiece, Begins};
ghost use Rattle.jffs_file.specs.declared.span.Span.{Span};
ghost use Rattle.jffs_file.specs.Held.{IsHeld};

/// How many bytes a medium writes whole or not at all; they begin at a multiple of as many.
pub(crate) const BLOCK_LEN: u64 = 512;

/// The greatest index of a store.
pub(crate) const INDEX_MAX: u64 = u64::MAX;

/// The bytes of a store from the index `from` on, up to the one before `to`.
#[derive(Clone, Copy, Debug, PartialEq, Eq)]
pub struct Span {
    pub from: u64,
    pub to: u64,
}

impl Span {
    /// Whether both have a byte of one index.
    pub(crate) fn meets(self, other: Span) -> bool
        ensures { IsTrue result ↔ Meets self other }
    {
        self.from < other.to && other.from < self.to
    }

    /// Whether it lies in one piece with the byte at `at`, where pieces of `size` bytes follow one
    /// another from the store's first byte on.
    pub(crate) fn is_in_piece(self, size: u64, at: u64) -> bool
        ensures { IsTrue result → IsInPiece size at self }
    {
        if size == 0 {
            return false;
        }
        let begin = at - at % size;
        begin <= self.from && self.to.saturating_sub(begin) <= size
    }

    /// Whether it begins with a piece of `size` bytes.
    pub(crate) fn begins(self, size: u64) -> bool
        ensures { Begins size self → IsTrue result }
    {
        size == 0 || self.from % size == 0
    }

    /// The least range that holds both.
    pub(crate) fn hull(self, other: Span) -> Span
        ensures one { (s : Span) → IsHeld (Some self) s → IsHeld (Some result) s }
        ensures other { (s : Span) → IsHeld (Some other) s → IsHeld (Some result) s }
    {
        Span {
            from: self.from.min(other.from),
            to: self.to.max(other.to),
        }
    }
}
