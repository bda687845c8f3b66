//! The fragments of a file, found by their offsets.

ghost use Rattle.std.specs.Prelude.{◌≡◌, ℕ, ◌+◌, ◌≤◌, ◌++◌, ◌∷◌, [], length, Some, is_some};
ghost use Rattle.std.specs.Prelude.{OnOk, OnErr, IfOk, IfSome, IfNone, if◌then◌else◌};
ghost use Rattle.std.specs.Option.{option_copied};
ghost use Rattle.std.specs.BTreeMap.{insert_entry, is_at};
ghost use Rattle.std.specs.List.Sorted.{IsStrictlySortedBy};
ghost use Rattle.std.specs.Map.{keys_of, remove_entry, set_value};
ghost use Rattle.std.specs.Ordering.{nat_cmp};
ghost use Rattle.jffs_inodes.specs.Fragments.{Fragments as Entries, Swaps, ascending, get, before};
ghost use Rattle.jffs_inodes.specs.Fragments.{from};

use crate::fragment::{Fragment, fragment_of};
use jffs_node::Node;
use std::alloc::{AllocError, Global};
use std::cmp::Reverse;
use std::collections::BTreeMap;
use std::collections::btree_map::Iter;
use std::marker::Model;
use std::mem;

/// The fragments of a file, each under its first offset. The last stands first in the map, since a
/// map is searched from its first key on and most writes append.
#[derive(Drop)]
pub(crate) struct Fragments {
    map: BTreeMap<Reverse<u32>, Fragment>,
}

impl Model for Fragments {
    ghost use Rattle.std.specs.List.Sorted.{IsStrictlySortedBy};
    ghost use Rattle.std.specs.Map.{keys_of};
    ghost use Rattle.jffs_inodes.specs.Fragments.{FragmentMap, ascending, late_cmp};

    ghost Value = { FragmentMap };

    ghost view = { λ f. record { entries = ascending f.map.entries } };

    ghost invariant = { λ f. IsStrictlySortedBy late_cmp (keys_of f.map.entries) };
}

impl Fragments {
    /// No fragments. Takes no memory.
    pub(crate) fn new(alloc: Global) -> Fragments
        ensures { result.entries ≡ [] }
    {
        Fragments {
            map: BTreeMap::new(alloc),
        }
    }

    /// The fragment that begins at an offset.
    pub(crate) fn get(&self, first: u32) -> Option<&Fragment>
        ensures { option_copied result ≡ get nat_cmp self.now first }
    {
        self.map.get(&Reverse(first))
    }

    /// Puts a fragment in at an offset, and returns the one that began there. Where the allocation
    /// failed, nothing is changed.
    pub(crate) fn insert(
        &mut self,
        first: u32,
        fragment: Fragment,
    ) -> Result<Option<Fragment>, AllocError>
        ensures old { IfOk result (λ old. old ≡ get nat_cmp self.old first) }
        ensures entries { OnOk result
            (self.new.entries ≡ insert_entry nat_cmp self.old.entries first fragment) }
        ensures err { OnErr result (self.new ≡ self.old) }
        ensures was_ordered { IsStrictlySortedBy nat_cmp (keys_of self.old.entries) }
    {
        Ok(self.map.insert(Reverse(first), fragment)?)
    }

    /// Puts a fragment in the place of the one that begins at an offset, if there is one.
    pub(crate) fn set(&mut self, first: u32, fragment: Fragment)
        ensures { self.new.entries
            ≡ set_value (is_at (nat_cmp first)) self.old.entries fragment }
    {
        let Some(there) = self.map.get_mut(&Reverse(first)) else {
            return;
        };
        *there = fragment;
    }

    /// Puts a node's fragment in the place of the one that has the range of its data, and returns
    /// that one. Where there is none, and where an allocation failed, nothing is changed.
    pub(crate) fn swap(&mut self, node: &Node) -> Result<Option<Fragment>, AllocError>
        ensures swapped { IfOk result
            (λ some. IfSome some (Swaps node.now self.old self.new)) }
        ensures none { IfOk result (λ some. IfNone some (self.new ≡ self.old)) }
        ensures err { OnErr result (self.new ≡ self.old) }
    {
        let Some(there) = self.map.get_mut(&Reverse(node.offset)) else {
            return Ok(None);
        };
        if there.bytes.len() != node.bytes.len() {
            return Ok(None);
        }
        Ok(Some(mem::replace(there, fragment_of(node)?)))
    }

    /// Takes the fragment out that begins at an offset, and returns it.
    pub(crate) fn remove(&mut self, first: u32) -> Option<Fragment>
        ensures value { result ≡ get nat_cmp self.old first }
        ensures entries { self.new.entries
            ≡ remove_entry (is_at (nat_cmp first)) self.old.entries }
        ensures len { length self.new.entries + (if is_some result then 1 else 0)
            ≡ length self.old.entries }
    {
        self.map.remove(&Reverse(first))
    }

    /// Takes the first fragment out, and returns it: no offset is searched for.
    pub(crate) fn pop_first(&mut self) -> Option<Fragment>
        ensures first { IfSome result
            (λ f. (first : ℕ) × (self.old.entries ≡ (first, f) ∷ self.new.entries)) }
        ensures none { IfNone result (self.old.entries ≡ []) }
        ensures len { length self.new.entries + (if is_some result then 1 else 0)
            ≡ length self.old.entries }
    {
        let (_, first) = self.map.pop_last()?;
        Some(first)
    }

    /// The last fragment that begins at an offset or before it.
    pub(crate) fn last_up_to(&self, at: u32) -> Option<(u32, &Fragment)>
        ensures last { IfSome result (λ p. (es : Entries)
            × (before (at + 1) self.now.entries ≡ es ++ (p.0, p.1.now) ∷ [])) }
        ensures there { IfSome result
            (λ p. (get nat_cmp self.now p.0 ≡ Some p.1.now) × (p.0 ≤ at)) }
        ensures none { IfNone result (before (at + 1) self.now.entries ≡ []) }
    {
        let mut earlier = self.map.range(Reverse(at)..);
        let Some((first, fragment)) = earlier.next() else {
            return None;
        };
        Some((first.0, fragment))
    }

    /// The first fragment that begins at an offset or after it.
    pub(crate) fn first_from(&self, at: u32) -> Option<(u32, &Fragment)>
        ensures first { IfSome result (λ p. (es : Entries)
            × (from at self.now.entries ≡ (p.0, p.1.now) ∷ es)) }
        ensures there { IfSome result
            (λ p. (get nat_cmp self.now p.0 ≡ Some p.1.now) × (at ≤ p.0)) }
        ensures none { IfNone result (from at self.now.entries ≡ []) }
        ensures ordered { IsStrictlySortedBy nat_cmp (keys_of self.now.entries) }
    {
        let mut later = self.map.range(..=Reverse(at));
        let Some((first, fragment)) = later.next_back() else {
            return None;
        };
        Some((first.0, fragment))
    }

    /// All fragments, the last one first.
    pub(crate) fn from_last(&self) -> Iter<'_, Reverse<u32>, Fragment>
        ensures { ascending result ≡ self.now.entries }
    {
        self.map.iter()
    }
}

impl Clone for Fragments {
    ghost is_clone = { λ old new. new ≡ old };

    fn clone(&self) -> Result<Fragments, AllocError> {
        Ok(Fragments {
            map: self.map.clone()?,
        })
    }
}
