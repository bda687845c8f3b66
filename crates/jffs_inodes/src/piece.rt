//! Pieces: what one fragment, or the hole before the next one, says of a file's bytes from an
//! offset on.

ghost use Rattle.std.specs.Prelude.{◌≡◌, ◌≤◌, ◌<◌, ◌+◌, ℕ, length, map, take, drop, replicate};
ghost use Rattle.std.specs.Prelude.{None, Some, IfSome, IfNone, slice_index_or, is_some};
ghost use Rattle.std.specs.List.{list_all};
ghost use Rattle.std.specs.Ordering.{nat_cmp};
ghost use Rattle.jffs_node.specs.Record.{file_max};
ghost use Rattle.jffs_inodes.specs.Fragments.{AreLaid, NoneHolds, Says, get, laid, end_of};
ghost use Rattle.jffs_inodes.specs.Fragments.{writer_of};

use crate::fragment::{Fragment, first_between};
use crate::fragment_map::Fragments;

/// Copies what stands from an offset on into the front of a slice, as far as one fragment or one
/// hole goes, and returns how many bytes that are.
pub(crate) fn copy_piece(fragments: &Fragments, at: u32, out: &mut [u8]) -> usize
    requires laid { AreLaid 0 file_max fragments.now.entries }
    requires inside { (0 < length out.old) × (at + length out.old ≤ file_max) }
    ensures count { (0 < result) × (result ≤ length out.old) }
    ensures copied { Says fragments.now.entries at (take result out.new) }
    ensures rest { drop result out.new ≡ drop result out.old }
{
    let Some(bytes) = bytes_at(fragments, at) else {
        let count = hole_at(fragments, at, out.len());
        out[..count].fill(0);
        return count;
    };
    let count = bytes.len().min(out.len());
    out[..count].copy_from_slice(&bytes[..count]);
    count
}

/// The bytes of the fragment that holds an offset, from there on. None in a hole.
fn bytes_at(fragments: &Fragments, at: u32) -> Option<&[u8]>
    requires laid { AreLaid 0 file_max fragments.now.entries }
    requires inside { at < file_max }
    ensures there { IfSome result
        (λ bytes. (0 < length bytes.now)
        × ((n : ℕ) → Says fragments.now.entries at (take n bytes.now))) }
    ensures none { IfNone result (NoneHolds at fragments.now.entries) }
{
    let (first, fragment) = holding(fragments, at)?;
    Some(&fragment.bytes.as_slice()[(at - first) as usize..])
}

/// How many bytes no fragment holds from an offset on that none holds, up to a number.
fn hole_at(fragments: &Fragments, at: u32, most: usize) -> usize
    requires laid { AreLaid 0 file_max fragments.now.entries }
    requires inside { (0 < most) × (at + most ≤ file_max) }
    requires hole { NoneHolds at fragments.now.entries }
    ensures count { (0 < result) × (result ≤ most) }
    ensures zeros { Says fragments.now.entries at (replicate result 0) }
{
    match first_between(fragments, at, at + most as u32) {
        Some(next) => (next - at) as usize,
        None => most,
    }
}

/// The fragment that holds an offset, with the offset where it begins.
fn holding(fragments: &Fragments, at: u32) -> Option<(u32, &Fragment)>
    requires laid { AreLaid 0 file_max fragments.now.entries }
    requires inside { at < file_max }
    ensures there { IfSome result
        (λ p. (get nat_cmp fragments.now p.0 ≡ Some p.1.now) × (p.0 ≤ at)
        × (at < end_of (p.0, p.1.now))) }
    ensures none { IfNone result (NoneHolds at fragments.now.entries) }
{
    let Some((first, fragment)) = fragments.last_up_to(at) else {
        return None;
    };
    if at < first + fragment.len() {
        Some((first, fragment))
    } else {
        None
    }
}

/// The version that wrote the byte at an offset of a file of a size, if one did.
pub(crate) fn writer_at(fragments: &Fragments, size: u32, at: u32) -> Option<u32>
    requires laid { AreLaid 0 size fragments.now.entries }
    requires small { size ≤ file_max }
    ensures { result ≡ slice_index_or (map writer_of (laid 0 size fragments.now.entries)) at None }
{
    if size <= at {
        return None;
    }
    let (_, fragment) = holding(fragments, at)?;
    Some(fragment.writer)
}

/// Whether the fragments hold all bytes of a file of a size.
pub(crate) fn are_whole(fragments: &Fragments, size: u32) -> bool
    requires laid { AreLaid 0 size fragments.now.entries }
    requires small { size ≤ file_max }
    ensures { result ≡ list_all is_some (map writer_of (laid 0 size fragments.now.entries)) }
{
    let mut end = 0;
    let mut rest = fragments.from_last();
    while let Some((first, fragment)) = rest.next_back() {
        if first.0 != end {
            return false;
        }
        end += fragment.len();
    }
    end == size
}
