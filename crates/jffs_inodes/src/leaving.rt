//! Fragments that leave a file, and their marks with them.

ghost use Rattle.std.specs.Prelude.{◌≡◌, ◌<◌, length, [], IsSome};
ghost use Rattle.std.specs.BTreeMap.{is_at};
ghost use Rattle.std.specs.Map.{remove_entry};
ghost use Rattle.std.specs.Ordering.{nat_cmp};
ghost use Rattle.jffs_inodes.specs.Fragments.{AreShort, HasAmounts, MovesAmounts, outside, get};

use crate::fragment::first_between;
use crate::fragment_map::Fragments;
use jffs_marks::Marks;

/// Takes the fragments out that begin from an offset on and before another, and their marks.
pub(crate) fn take_out(fragments: &mut Fragments, from: u32, to: u32, inode: u32, marks: &mut Marks)
    requires short { AreShort fragments.old.entries }
    requires marked { HasAmounts marks.old inode fragments.old.entries }
    ensures left { fragments.new.entries ≡ outside from to fragments.old.entries }
    ensures moved { MovesAmounts marks.old marks.new inode fragments.old.entries
        fragments.new.entries }
{
    // The node of a rename, and its copy, stands for no range: there is nothing to search for.
    if to <= from {
        return;
    }
    if from == 0 && fragments.first_from(to).is_none() {
        take_all(fragments, inode, marks);
        return;
    }
    while let Some(first) = first_between(fragments, from, to) {
        take_one(fragments, first, inode, marks);
    }
}

/// Takes all fragments out, and their marks, the first one first: none is searched for. The map
/// isn't cleared, which would free its last block: the file's next write asks for no memory there.
fn take_all(fragments: &mut Fragments, inode: u32, marks: &mut Marks)
    requires short { AreShort fragments.old.entries }
    requires marked { HasAmounts marks.old inode fragments.old.entries }
    ensures left { fragments.new.entries ≡ [] }
    ensures moved { MovesAmounts marks.old marks.new inode fragments.old.entries [] }
{
    while let Some(gone) = fragments.pop_first() {
        marks.lower(gone.writer, inode, gone.len());
    }
}

/// Takes the fragment out that begins at an offset, and its marks.
fn take_one(fragments: &mut Fragments, first: u32, inode: u32, marks: &mut Marks)
    requires short { AreShort fragments.old.entries }
    requires marked { HasAmounts marks.old inode fragments.old.entries }
    requires there { IsSome (get nat_cmp fragments.old first) }
    ensures left { fragments.new.entries
        ≡ remove_entry (is_at (nat_cmp first)) fragments.old.entries }
    ensures fewer { length fragments.new.entries < length fragments.old.entries }
    ensures moved { MovesAmounts marks.old marks.new inode fragments.old.entries
        fragments.new.entries }
{
    if let Some(gone) = fragments.remove(first) {
        marks.lower(gone.writer, inode, gone.len());
    }
}

/// Takes the marks of all fragments of an inode away, and leaves the fragments.
pub(crate) fn lower_all(fragments: &Fragments, inode: u32, marks: &mut Marks)
    requires short { AreShort fragments.now.entries }
    requires marked { HasAmounts marks.old inode fragments.now.entries }
    ensures { MovesAmounts marks.old marks.new inode fragments.now.entries [] }
{
    for (_, fragment) in fragments.from_last() {
        marks.lower(fragment.writer, inode, fragment.len());
    }
}
