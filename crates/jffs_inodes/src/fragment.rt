//! Fragments: the ranges of a file's bytes that nodes wrote.

ghost use Rattle.std.specs.Prelude.{◌≡◌, ◌≤◌, ◌<◌, ◌+◌, ◌==◌, ℕ, length, Some};
ghost use Rattle.std.specs.Prelude.{OnOk, OnErr, IfOk, IfSome, IfNone, if◌then◌else◌};
ghost use Rattle.std.specs.BTreeMap.{insert_entry};
ghost use Rattle.std.specs.Option.{option_map_or};
ghost use Rattle.std.specs.Ordering.{nat_cmp};
ghost use Rattle.jffs_node.specs.Record.{file_max};
ghost use Rattle.jffs_marks.specs.Marks.{mark_of};
ghost use Rattle.jffs_inodes.specs.Marked.{brought_by};
ghost use Rattle.jffs_inodes.specs.Fragments.{AreLaid, AreCut, AreShort, FitsFile, IsFileAfter};
ghost use Rattle.jffs_inodes.specs.Fragments.{SameCells, HasAmounts, end_of, outside, get};
ghost use Rattle.jffs_inodes.specs.Fragments.{with_node_data, amount_by, part_by};

use crate::fragment_map::Fragments;
use crate::leaving::take_out;
use jffs_marks::Marks;
use jffs_node::{Bytes, FILE_MAX, Node, shared};
use std::alloc::AllocError;

/// Bytes that one node wrote and that no later one did, and the node's version. It shares the
/// block of the node's bytes.
#[derive(Drop)]
pub(crate) struct Fragment {
    pub(crate) bytes: Bytes,
    pub(crate) writer: u32,
}

impl Clone for Fragment {
    ghost is_clone = { λ old new. new ≡ old };

    fn clone(&self) -> Result<Fragment, AllocError> {
        Ok(Fragment {
            bytes: self.bytes.clone()?,
            writer: self.writer,
        })
    }
}

impl Fragment {
    /// How many bytes it has.
    pub(crate) fn len(&self) -> u32
        requires { length self.now.bytes ≤ file_max }
        ensures { result ≡ length self.now.bytes }
    {
        self.bytes.len() as u32
    }
}

/// The first offset of the fragment that reaches across an offset, in a file of a size. At the
/// file's first byte and at its end there is none, without a search.
fn across(fragments: &Fragments, size: u32, at: u32) -> Option<u32>
    requires laid { AreLaid 0 size fragments.now.entries × (size ≤ file_max) }
    ensures there { IfSome result
        (λ first. (f : Fragment) × (get nat_cmp fragments.now first ≡ Some f) × (first < at)
        × (at < end_of (first, f))) }
    ensures none { IfNone result (AreCut at fragments.now.entries) }
{
    if at == 0 || size <= at {
        return None;
    }
    let Some((first, fragment)) = fragments.last_up_to(at - 1) else {
        return None;
    };
    if at < first + fragment.len() {
        Some(first)
    } else {
        None
    }
}

/// Cuts the fragment that reaches across an offset in two there, in a file of a size. Where an
/// allocation failed, nothing is cut.
pub(crate) fn split_at(fragments: &mut Fragments, size: u32, at: u32) -> Result<(), AllocError>
    requires laid { AreLaid 0 size fragments.old.entries × (size ≤ file_max) }
    ensures ok { OnOk result (SameCells fragments.old.entries fragments.new.entries) }
    ensures cut { OnOk result (AreCut at fragments.new.entries) }
    ensures err { OnErr result (fragments.new.entries ≡ fragments.old.entries) }
{
    match across(fragments, size, at) {
        Some(first) => cut(fragments, size, first, at),
        None => Ok(()),
    }
}

/// Cuts the fragment that begins at an offset in two at another, in a file of a size. Where an
/// allocation failed, nothing is cut.
fn cut(fragments: &mut Fragments, size: u32, first: u32, at: u32) -> Result<(), AllocError>
    requires laid { AreLaid 0 size fragments.old.entries × (size ≤ file_max) }
    requires there { (f : Fragment) × (get nat_cmp fragments.old first ≡ Some f) × (first < at)
        × (at < end_of (first, f)) }
    ensures ok { OnOk result (SameCells fragments.old.entries fragments.new.entries) }
    ensures cut { OnOk result (AreCut at fragments.new.entries) }
    ensures err { OnErr result (fragments.new.entries ≡ fragments.old.entries) }
{
    let Some(whole) = fragments.get(first) else {
        return Ok(());
    };
    let writer = whole.writer;
    let mut front = whole.bytes.clone()?;
    let rest = front.split_off((at - first) as usize)?;
    fragments.insert(
        at,
        Fragment {
            bytes: rest,
            writer,
        },
    )?;
    fragments.set(
        first,
        Fragment {
            bytes: front,
            writer,
        },
    );
    Ok(())
}

/// Writes a node over the fragments of a file of a size, and returns the size after it. Where an
/// allocation failed, the file reads as before.
pub(crate) fn write_over(
    fragments: &mut Fragments,
    size: u32,
    node: &Node,
    marks: &mut Marks,
) -> Result<u32, AllocError>
    requires laid { AreLaid 0 size fragments.old.entries }
    requires fits { FitsFile node.now size }
    requires marked { (v : ℕ)
        → amount_by v fragments.old.entries + brought_by v node.now
        ≤ mark_of marks.old v node.now.inode }
    ensures ok { IfOk result
        (λ after. IsFileAfter node.now size fragments.old.entries after fragments.new.entries) }
    ensures moved { OnOk result
        ((v i : ℕ) → mark_of marks.new v i
        + (if i == node.now.inode then amount_by v fragments.old.entries + brought_by v node.now
        else 0) ≡ mark_of marks.old v i
        + (if i == node.now.inode then amount_by v fragments.new.entries else 0)) }
    ensures err { OnErr result
        (SameCells fragments.old.entries fragments.new.entries × (marks.new ≡ marks.old)) }
{
    if size <= node.offset {
        return append(fragments, size, node, marks);
    }
    if let Some(after) = replace(fragments, size, node, marks)? {
        return Ok(after);
    }
    splice(fragments, size, node, marks)
}

/// Writes a node over a file that ends where the node begins, or before: no fragment is in its way.
fn append(
    fragments: &mut Fragments,
    size: u32,
    node: &Node,
    marks: &mut Marks,
) -> Result<u32, AllocError>
    requires laid { AreLaid 0 size fragments.old.entries }
    requires fits { FitsFile node.now size × (size ≤ node.now.offset) }
    requires marked { (v : ℕ)
        → amount_by v fragments.old.entries + brought_by v node.now
        ≤ mark_of marks.old v node.now.inode }
    ensures ok { IfOk result
        (λ after. IsFileAfter node.now size fragments.old.entries after fragments.new.entries) }
    ensures moved { OnOk result
        ((v i : ℕ) → mark_of marks.new v i
        + (if i == node.now.inode then amount_by v fragments.old.entries + brought_by v node.now
        else 0) ≡ mark_of marks.old v i
        + (if i == node.now.inode then amount_by v fragments.new.entries else 0)) }
    ensures err { OnErr result
        ((fragments.new.entries ≡ fragments.old.entries) × (marks.new ≡ marks.old)) }
{
    if node.bytes.is_empty() {
        return Ok(node.size.unwrap_or(node.offset));
    }
    let fragment = fragment_of(node)?;
    put(fragments, node.offset, fragment, node.inode, marks)?;
    Ok(node.size.unwrap_or(node.offset + node.bytes.len() as u32))
}

/// Writes a node over the one fragment that has the range of its data, as when a record is written
/// over: one search does. Returns the file's size after it, or `None` where there is no such
/// fragment or the rest of the file changes too. Then, and where an allocation failed, nothing is
/// changed.
fn replace(
    fragments: &mut Fragments,
    size: u32,
    node: &Node,
    marks: &mut Marks,
) -> Result<Option<u32>, AllocError>
    requires fits { AreLaid 0 size fragments.old.entries × FitsFile node.now size }
    requires marked { HasAmounts marks.old node.now.inode fragments.old.entries }
    ensures replaced { IfOk result (λ some. IfSome some
        (λ after. IsFileAfter node.now size fragments.old.entries after fragments.new.entries)) }
    ensures moved { IfOk result (λ some. IfSome some (λ after. (v i : ℕ) → mark_of marks.new v i
        + (if i == node.now.inode then amount_by v fragments.old.entries + brought_by v node.now
        else 0) ≡ mark_of marks.old v i
        + (if i == node.now.inode then amount_by v fragments.new.entries else 0))) }
    ensures none { IfOk result (λ some. IfNone some
        ((fragments.new.entries ≡ fragments.old.entries) × (marks.new ≡ marks.old))) }
    ensures err { OnErr result
        ((fragments.new.entries ≡ fragments.old.entries) × (marks.new ≡ marks.old)) }
{
    let after = node.size.unwrap_or(size);
    if node.bytes.len() as u32 != node.rsize || after < size {
        return Ok(None);
    }
    let Some(covered) = fragments.swap(node)? else {
        return Ok(None);
    };
    marks.lower(covered.writer, node.inode, covered.len());
    Ok(Some(after))
}

/// Cuts the fragments at the ends of a node's range, and writes the node between. Where an
/// allocation failed, the file reads as before.
fn splice(
    fragments: &mut Fragments,
    size: u32,
    node: &Node,
    marks: &mut Marks,
) -> Result<u32, AllocError>
    requires laid { AreLaid 0 size fragments.old.entries }
    requires fits { FitsFile node.now size }
    requires marked { (v : ℕ)
        → amount_by v fragments.old.entries + brought_by v node.now
        ≤ mark_of marks.old v node.now.inode }
    ensures ok { IfOk result
        (λ after. IsFileAfter node.now size fragments.old.entries after fragments.new.entries) }
    ensures moved { OnOk result
        ((v i : ℕ) → mark_of marks.new v i
        + (if i == node.now.inode then amount_by v fragments.old.entries + brought_by v node.now
        else 0) ≡ mark_of marks.old v i
        + (if i == node.now.inode then amount_by v fragments.new.entries else 0)) }
    ensures err { OnErr result
        (SameCells fragments.old.entries fragments.new.entries × (marks.new ≡ marks.old)) }
{
    let amount = node.bytes.len() as u32;
    let reached = node.offset + amount;
    let moves = amount != node.rsize;
    let end = if moves { FILE_MAX } else { reached };
    make_cuts(fragments, size, node, end)?;
    overwrite(fragments, size, node, end, marks)?;
    match node.size {
        Some(stated) if stated < size => {
            take_out(fragments, stated, FILE_MAX, node.inode, marks);
            Ok(stated)
        }
        Some(stated) => Ok(stated),
        None if moves => Ok(reached),
        None => Ok(reached.max(size)),
    }
}

/// Cuts the fragments of a file of a size at both ends of what a node writes and at the size that
/// it states, so that only whole ones are to be taken out. Where an allocation failed, the file
/// reads as before.
pub(crate) fn make_cuts(
    fragments: &mut Fragments,
    size: u32,
    node: &Node,
    end: u32,
) -> Result<(), AllocError>
    requires laid { AreLaid 0 size fragments.old.entries × (size ≤ file_max) }
    ensures same { SameCells fragments.old.entries fragments.new.entries }
    ensures offset { OnOk result (AreCut node.now.offset fragments.new.entries) }
    ensures end { OnOk result (AreCut end fragments.new.entries) }
    ensures size { OnOk result (IfSome node.now.size (λ s. AreCut s fragments.new.entries)) }
{
    split_at(fragments, size, node.offset)?;
    split_at(fragments, size, end)?;
    if let Some(stated) = node.size {
        split_at(fragments, size, stated)?;
    }
    Ok(())
}

/// The first offset, from one on and before another, at which a fragment begins.
pub(crate) fn first_between(fragments: &Fragments, from: u32, to: u32) -> Option<u32>
    ensures there { IfSome result
        (λ first. (f : Fragment) × (get nat_cmp fragments.now first ≡ Some f) × (from ≤ first)
        × (first < to)) }
    ensures least { IfSome result
        (λ first. outside from first fragments.now.entries ≡ fragments.now.entries) }
    ensures none { IfNone result (outside from to fragments.now.entries ≡ fragments.now.entries) }
{
    let Some((first, _)) = fragments.first_from(from) else {
        return None;
    };
    if first < to { Some(first) } else { None }
}

/// The fragment of a node's data, which it shares. `AllocError` where no owner more can be counted.
pub(crate) fn fragment_of(node: &Node) -> Result<Fragment, AllocError>
    ensures { IfOk result
        (λ fragment. fragment ≡ record { bytes = node.now.bytes; writer = node.now.version }) }
{
    Ok(Fragment {
        bytes: shared(&node.bytes)?,
        writer: node.version,
    })
}

/// Puts a fragment in at an offset. One that began there goes, and its marks: returns how many
/// bytes it had, or 0. Where an allocation failed, nothing is changed.
fn put(
    fragments: &mut Fragments,
    offset: u32,
    fragment: Fragment,
    inode: u32,
    marks: &mut Marks,
) -> Result<u32, AllocError>
    requires short { AreShort fragments.old.entries }
    requires marked { HasAmounts marks.old inode fragments.old.entries }
    ensures ok { OnOk result
        (fragments.new.entries ≡ insert_entry nat_cmp fragments.old.entries offset fragment) }
    ensures covered { IfOk result
        (λ n. n ≡ option_map_or (λ f. length f.bytes) (get nat_cmp fragments.old offset) 0) }
    ensures moved { OnOk result
        ((v i : ℕ) → mark_of marks.new v i
        + (if i == inode then amount_by v fragments.old.entries + part_by v fragment else 0)
        ≡ mark_of marks.old v i
        + (if i == inode then amount_by v fragments.new.entries else 0)) }
    ensures err { OnErr result
        ((fragments.new.entries ≡ fragments.old.entries) × (marks.new ≡ marks.old)) }
{
    if let Some(covered) = fragments.insert(offset, fragment)? {
        let amount = covered.len();
        marks.lower(covered.writer, inode, amount);
        return Ok(amount);
    }
    Ok(0)
}

/// Writes a node's data over the fragments of a file of a size, from its offset to an end, across
/// neither of which one reaches. Where an allocation failed, nothing is changed.
pub(crate) fn overwrite(
    fragments: &mut Fragments,
    size: u32,
    node: &Node,
    end: u32,
    marks: &mut Marks,
) -> Result<(), AllocError>
    requires laid { AreLaid 0 size fragments.old.entries × (size ≤ file_max) }
    requires range { (node.now.offset + length node.now.bytes ≤ end) × (end ≤ file_max) }
    requires marked { (v : ℕ)
        → amount_by v fragments.old.entries + brought_by v node.now
        ≤ mark_of marks.old v node.now.inode }
    ensures ok { OnOk result
        (fragments.new.entries ≡ with_node_data end node.now fragments.old.entries) }
    ensures moved { OnOk result
        ((v i : ℕ) → mark_of marks.new v i
        + (if i == node.now.inode then amount_by v fragments.old.entries + brought_by v node.now
        else 0) ≡ mark_of marks.old v i
        + (if i == node.now.inode then amount_by v fragments.new.entries else 0)) }
    ensures err { OnErr result
        ((fragments.new.entries ≡ fragments.old.entries) × (marks.new ≡ marks.old)) }
{
    if node.bytes.is_empty() {
        take_out(fragments, node.offset, end, node.inode, marks);
        return Ok(());
    }
    let fragment = fragment_of(node)?;
    let covered = put(fragments, node.offset, fragment, node.inode, marks)?;
    // Where the one that it replaces reached the end, or the file's, no other begins before that.
    let covered_to = node.offset + covered;
    let last = end.min(size);
    if last <= covered_to {
        return Ok(());
    }
    take_out(fragments, node.offset + 1, end, node.inode, marks);
    Ok(())
}
