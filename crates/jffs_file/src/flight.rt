//! What was written to a store and not synced, as far as the order of what comes next needs it.

ghost use Rattle.std.specs.Prelude.{◌≡◌, ◌⊎◌, ℕ, List, [], ◌∷◌, All, Some, false, IsTrue};
ghost use Rattle.jffs_file.specs.declared.span.Span.{Span};
ghost use Rattle.jffs_file.specs.Order.{Meets, Begins, IsInPiece, IsBefore, IsErase};
ghost use Rattle.jffs_file.specs.Order.{MayProgram};
ghost use Rattle.jffs_file.specs.Held.{IsHeld};

use crate::span::{BLOCK_LEN, INDEX_MAX, Span};

/// The writes of a store that are in flight: a loss of power may undo any of their blocks.
///
/// It takes the same room whatever is in flight: of all programs before the last one it keeps the
/// least range that holds them.
#[derive(Clone, Copy)]
pub(crate) struct InFlight {
    /// The last program; its gate may come next.
    last: Option<Span>,
    /// Where all programs before that one are.
    rest: Option<Span>,
    /// Whether one of these programs begins a sector.
    begun: bool,
    /// The sector that is being erased.
    erasing: Option<Span>,
}

impl InFlight {
    ghost use Rattle.jffs_file.specs.Flying.{IsKnown, IsOneBlock, no_flight, any_flight};

    /// Nothing is.
    pub fn none() -> InFlight
        ensures { result ≡ no_flight }
    {
        InFlight {
            last: None,
            rest: None,
            begun: false,
            erasing: None,
        }
    }

    /// Anything may be.
    pub fn unknown() -> InFlight
        ensures { result ≡ any_flight }
    {
        InFlight {
            last: None,
            rest: Some(Span {
                from: 0,
                to: INDEX_MAX,
            }),
            begun: true,
            erasing: None,
        }
    }

    /// The erase of a sector is, and nothing else.
    pub fn erase(sector: Span) -> InFlight
        ensures { (size : ℕ) → IsErase size sector → All (IsKnown size result) (sector ∷ []) }
    {
        InFlight {
            last: None,
            rest: None,
            begun: false,
            erasing: Some(sector),
        }
    }

    /// One more program is.
    pub fn add(&mut self, sector_size: u32, write: Span)
        ensures { (flying : List Span) → All (IsKnown sector_size self.old) flying
            → All (IsKnown sector_size self.new) (write ∷ flying) }
    {
        self.rest = joined(self.rest, self.last);
        self.last = Some(write);
        if write.begins(u64::from(sector_size)) {
            self.begun = true;
        }
    }

    /// Whether a program of these bytes has to wait until what is in flight was synced, on a device
    /// of so many sectors of `sector_size` bytes.
    pub fn delays(&self, sectors: u32, sector_size: u32, write: Span) -> bool
        ensures { result ≡ false → (flying : List Span)
            → All (IsKnown sector_size self.now) flying
            → MayProgram sectors sector_size flying write }
    {
        let size = u64::from(sector_size);
        self.lies_over_others(write)
            || self.lies_apart(size, write)
            || self.delays_begin(u64::from(sectors) * size, size, write)
    }

    /// Whether a program lies over another one than the last, or over what is being erased.
    fn lies_over_others(&self, write: Span) -> bool
        ensures rest { result ≡ false → (s : Span) → IsHeld self.now.rest s → Meets s write → ⊥ }
        ensures erasing { result ≡ false
            → (s : Span) → IsHeld self.now.erasing s → Meets s write → ⊥ }
    {
        lies_over(self.rest, write) || lies_over(self.erasing, write)
    }

    /// Whether a program lies over the last one, and not in one block with it, or while one of
    /// another sector is in flight.
    fn lies_apart(&self, size: u64, write: Span) -> bool
        ensures { result ≡ false
            → ((s : Span) → IsHeld self.now.last s → Meets s write → ⊥)
            ⊎ IsOneBlock size self.now write }
    {
        lies_over(self.last, write) && !self.is_one_block(size, write)
    }

    /// Whether a program and the last one are in one block, and none is in another sector.
    fn is_one_block(&self, size: u64, write: Span) -> bool
        ensures { IsTrue result → IsOneBlock size self.now write }
    {
        write.is_in_piece(BLOCK_LEN, write.from)
            && are_in_piece(self.last, BLOCK_LEN, write.from)
            && are_in_piece(self.last, size, write.from)
            && are_in_piece(self.rest, size, write.from)
    }

    /// Whether a program begins a sector that may not be begun yet: another one was, or it is the
    /// one before that which is being erased, of `whole` bytes in sectors of `size`.
    fn delays_begin(&self, whole: u64, size: u64, write: Span) -> bool
        ensures begun { result ≡ false → Begins size write → self.now.begun ≡ false }
        ensures before { result ≡ false → Begins size write
            → (s : Span) → self.now.erasing ≡ Some s → IsBefore whole size write s → ⊥ }
    {
        write.begins(size) && (self.begun || self.erases_after(whole, size, write))
    }

    /// Whether the sector after the one that a program begins is being erased.
    fn erases_after(&self, whole: u64, size: u64, write: Span) -> bool
        ensures { result ≡ false
            → (s : Span) → self.now.erasing ≡ Some s → IsBefore whole size write s → ⊥ }
    {
        match self.erasing {
            Some(sector) => is_before(whole, size, write, sector),
            None => false,
        }
    }
}

/// Whether bytes lie over those of a range, where there is one.
fn lies_over(range: Option<Span>, write: Span) -> bool
    ensures { result ≡ false → (s : Span) → IsHeld range s → Meets s write → ⊥ }
{
    match range {
        Some(range) => range.meets(write),
        None => false,
    }
}

/// Whether all of a range, where there is one, lies in one piece of `size` bytes with this byte.
fn are_in_piece(range: Option<Span>, size: u64, at: u64) -> bool
    ensures { IsTrue result → (s : Span) → IsHeld range s → IsInPiece size at s }
{
    match range {
        Some(range) => range.is_in_piece(size, at),
        None => true,
    }
}

/// A range that holds both, where there are any.
fn joined(one: Option<Span>, other: Option<Span>) -> Option<Span>
    ensures { (s : Span) → IsHeld one s ⊎ IsHeld other s → IsHeld result s }
{
    match one {
        Some(range) => Some(hull(range, other)),
        None => other,
    }
}

/// A range that holds one, and another, where there is one.
fn hull(one: Span, other: Option<Span>) -> Span
    ensures one { (s : Span) → IsHeld (Some one) s → IsHeld (Some result) s }
    ensures other { (s : Span) → IsHeld other s → IsHeld (Some result) s }
{
    match other {
        Some(other) => one.hull(other),
        None => one,
    }
}

/// Whether the one sector of `size` bytes comes before the other in the ring, of `whole` bytes.
fn is_before(whole: u64, size: u64, span: Span, other: Span) -> bool
    ensures { result ≡ false → IsBefore whole size span other → ⊥ }
{
    other.from.checked_sub(size) == Some(span.from)
        || other.from == 0 && whole.checked_sub(size) == Some(span.from)
}
