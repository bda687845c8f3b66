//! The index of children, by which a name is found without a walk over all inodes.

ghost use Rattle.std.specs.Prelude.{◌≡◌, ◌==◌, ◌&&◌, ◌≤◌, ℕ, true, false, Some, None, Option};
ghost use Rattle.std.specs.Prelude.{IfSome, IfNone, IfOk, ◌<◌, ◌^◌};
ghost use Rattle.std.specs.List.Sorted.{IsStrictlySortedBy};
ghost use Rattle.std.specs.Option.{option_map_or};
ghost use Rattle.jffs_tree.specs.Index.{ChildKey, has_child, is_named, names_under};
ghost use Rattle.jffs_tree.specs.Index.{key_cmp, namesakes, apart_from};
ghost use Rattle.jffs_tree.specs.Look.{name_cmp};
ghost use Rattle.jffs_tree.specs.Index.{HaveNames};
ghost use Rattle.jffs_tree.specs.Listing.{is_past};
ghost use Rattle.std.specs.List.{find};

use jffs_node::Name;
use std::alloc::{AllocError, Global};
use std::collections::BTreeSet;
use std::ops::Bound;

/// A directory, a name in it and the inode that stands there. A key without a name is before
/// all names of its directory.
pub(crate) type ChildKey = (u32, Option<Name>, u32);

/// The smallest inode of a name in a directory.
pub(crate) fn first_named(children: &BTreeSet<ChildKey>, parent: u32, name: &Name) -> Option<u32>
    ensures there { IfSome result
        (λ i. has_child children.now.keys (parent, Some name.now, i) ≡ true) }
    ensures least { IfSome result
        (λ i. (j : ℕ) → has_child children.now.keys (parent, Some name.now, j) ≡ true → i ≤ j) }
    ensures none { IfNone result
        ((j : ℕ) → has_child children.now.keys (parent, Some name.now, j) ≡ false) }
{
    let mut rest = children.range((parent, Some(*name), 0)..);
    let Some(first) = rest.next() else {
        return None;
    };
    if bears(*first, parent, name) {
        Some(first.2)
    } else {
        None
    }
}

/// Whether something stands in the directory.
pub(crate) fn any_named(children: &BTreeSet<ChildKey>, parent: u32) -> bool
    ensures some { result ≡ true
        → (q : ChildKey) × (has_child children.now.keys q ≡ true) × (q.0 ≡ parent) }
    ensures none { result ≡ false → (q : ChildKey) → q.0 ≡ parent
        → has_child children.now.keys q ≡ false }
{
    let mut rest = children.range((parent, None, 0)..);
    match rest.next() {
        Some(first) => first.0 == parent,
        None => false,
    }
}

/// The names in a directory, each with its inode, in the order of their keys.
pub(crate) fn names_of(
    alloc: Global,
    children: &BTreeSet<ChildKey>,
    parent: u32,
) -> Result<Vec<(Name, u32)>, AllocError>
    ensures all { IfOk result (λ names. names.items ≡ names_under parent children.now.keys) }
    ensures rising { IfOk result (λ names. IsStrictlySortedBy name_cmp names.items) }
{
    let mut names = Vec::new(alloc);
    for key in children.range((parent, None, 0)..) {
        let (directory, name, inode) = *key;
        if directory != parent {
            break;
        }
        if let Some(name) = name {
            names.push((name, inode))?;
        }
    }
    Ok(names)
}

/// The first name in a directory whose key is after the one of this name and inode.
pub(crate) fn name_past(
    children: &BTreeSet<ChildKey>,
    parent: u32,
    name: Option<Name>,
    inode: u32,
) -> Option<(Name, u32)>
    requires named { HaveNames children.now.keys }
    ensures first { result
        ≡ find (is_past (parent, name, inode)) (names_under parent children.now.keys) }
    ensures ordered { IsStrictlySortedBy key_cmp children.now.keys }
    ensures fits { IfSome result (λ found. found.1 < 2 ^ 32) }
{
    let from = (parent, name, inode);
    let mut rest = children.range((Bound::Excluded(from), Bound::Unbounded));
    let Some(key) = rest.next() else {
        return None;
    };
    let (directory, found, inode) = *key;
    if directory != parent {
        return None;
    }
    match found {
        Some(name) => Some(entry(name, inode)),
        None => None,
    }
}

/// A name with its inode.
fn entry(name: Name, inode: u32) -> (Name, u32)
    ensures is { result ≡ (name, inode) }
    ensures fits { inode < 2 ^ 32 }
{
    (name, inode)
}

/// The same keys once more.
pub(crate) fn copy_keys(children: &BTreeSet<ChildKey>) -> Result<BTreeSet<ChildKey>, AllocError>
    ensures { IfOk result (λ copy. copy.keys ≡ children.now.keys) }
{
    children.clone()
}

/// Whether no key is of the same name and directory as the one before it. Keys stand in order, so
/// no two are then.
pub(crate) fn are_apart(children: &BTreeSet<ChildKey>) -> bool
    ensures apart { result ≡ apart_from None children.now.keys }
    ensures ordered { IsStrictlySortedBy key_cmp children.now.keys }
{
    let mut before = None;
    for key in children.iter() {
        if is_namesake(&before, key) {
            return false;
        }
        before = Some(*key);
    }
    true
}

/// Whether the key is of the same name and directory as another one, where there is one.
fn is_namesake(other: &Option<ChildKey>, key: &ChildKey) -> bool
    ensures { result ≡ option_map_or (λ o. namesakes o key.now) other.now false }
{
    match other {
        Some((directory, Some(name), _)) => bears(*key, *directory, name),
        _ => false,
    }
}

/// Whether the key is one of that name in that directory.
pub(crate) fn bears(key: ChildKey, parent: u32, name: &Name) -> bool
    ensures { result ≡ ((key.0 == parent) && is_named name.now key.1) }
{
    match key.1 {
        Some(found) => key.0 == parent && *name == found,
        None => false,
    }
}
