//! The data of nodes, which stand in memory once: who needs them again shares them.

ghost use Rattle.std.specs.Prelude.{◌≡◌, ◌<◌, length, IfOk, OnErr};

use bytes::Bytes;
use std::alloc::{AllocError, Global};

/// A copy of a slice. Takes no memory where the slice is empty.
///
/// `AllocError` where allocation failed; it never comes for an empty slice.
pub fn copied(alloc: Global, source: &[u8]) -> Result<Bytes, AllocError>
    ensures copied { IfOk result (λ b. b ≡ source.now) }
    ensures refused { OnErr result (0 < length source.now) }
{
    if source.is_empty() {
        return Ok(Bytes::new());
    }
    Bytes::copy_from_slice(alloc, source)
}

/// The same data for one more owner. No byte is copied.
///
/// `AllocError` where the data have as many owners as can be counted; it never comes for no data.
pub fn shared(source: &Bytes) -> Result<Bytes, AllocError>
    ensures same { IfOk result (λ b. b ≡ source.now) }
    ensures refused { OnErr result (0 < length source.now) }
{
    source.slice(0..source.len())
}
