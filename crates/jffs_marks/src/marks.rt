//! How often each version is live, kept under the changes of a tree and never counted anew.

ghost use Rattle.std.specs.Prelude.{◌≡◌, ◌+◌, ◌-◌, ◌<◌, ◌≤◌, ◌^◌, ℕ, [], true, false, min, IfSome};
ghost use Rattle.std.specs.Prelude.{◌⊎◌, All, IfNone, IfOk, IfErr, OnOk, OnErr, nat_lt, slice_get};
ghost use Rattle.std.specs.Option.{option_map_or};
ghost use Rattle.jffs_marks.specs.Marks.{AreKept, HaveMore, SameMarks, mark_key, mark_of, marks_of};
ghost use Rattle.jffs_marks.specs.Marks.{IsKeyAt, BelongsAt, SplitsAt, IsPlaceWithin, mark_cmp};
ghost use Rattle.std.specs.Ordering.{is_lt};

use std::alloc::{AllocError, Global};
use std::cmp::Reverse;
use std::collections::VecDeque;
use std::marker::Model;

/// A version and an inode.
type MarkKey = (Reverse<u32>, u32);

/// For a version and an inode how many bytes of the inode the version wrote, and one more where
/// it is the inode's newest.
///
/// The entries stand by version, the newest first, and then by inode: each node brings the newest
/// version, and what is asked for first is the oldest. An entry whose count became zero is *spent*:
/// it stays where it is, so that nothing is taken out of the middle, until it is the last one or
/// the deque is full.
#[derive(Drop)]
pub struct Marks {
    counts: VecDeque<(MarkKey, u32)>,
}

impl Model for Marks {
    ghost use Rattle.jffs_marks.specs.Marks.{Counts, AreKept};

    ghost Value = { Counts };

    ghost view = { λ m. m.counts.items };

    ghost invariant = { λ m. AreKept m.counts.items };
}

impl Marks {
    /// None. Takes no memory.
    pub fn new(alloc: Global) -> Marks
        ensures { result ≡ [] }
    {
        Marks {
            counts: VecDeque::new(alloc),
        }
    }

    /// The marks of a version in an inode.
    pub fn at(&self, version: u32, inode: u32) -> u32
        ensures { result ≡ mark_of self.now version inode }
    {
        match self.place(version, inode) {
            Ok(index) => self.counts[index].1,
            Err(_) => 0,
        }
    }

    /// The marks of a version in an inode, as [`at`](Marks::at) gives them: they are looked for just
    /// before an index first. The index becomes the one where they stand, or where they would.
    pub fn at_near(&self, version: u32, inode: u32, near: &mut usize) -> u32
        ensures marks { result ≡ mark_of self.now version inode }
        ensures placed { IsKeyAt self.now (mark_key version inode) near.new
            ⊎ BelongsAt self.now (mark_key version inode) near.new }
    {
        // Along a log the next record's entry stands just before the last one's. Where it was
        // dropped, it would stand between the two.
        let next = near.wrapping_sub(1);
        if let Some(entry) = self.counts.get(next) {
            if entry.0 == (Reverse(version), inode) {
                *near = next;
                return entry.1;
            }
            if version < entry.0.0.0 && self.is_older_at(*near, version) {
                return 0;
            }
        }
        match self.place(version, inode) {
            Ok(index) => {
                *near = index;
                self.counts[index].1
            }
            Err(index) => {
                *near = index;
                0
            }
        }
    }

    /// Whether the entry at an index is of an older version, or none is there.
    fn is_older_at(&self, index: usize, version: u32) -> bool
        ensures { result
            ≡ option_map_or (λ e. nat_lt e.0.0.0 version) (slice_get self.now index) true }
    {
        match self.counts.get(index) {
            Some(entry) => entry.0.0.0 < version,
            None => true,
        }
    }

    /// The index of the entry of a version in an inode, or the one where it belongs.
    fn place(&self, version: u32, inode: u32) -> Result<usize, usize>
        ensures there { IfOk result (IsKeyAt self.now (mark_key version inode)) }
        ensures absent { IfErr result (BelongsAt self.now (mark_key version inode)) }
        ensures kept { AreKept self.now }
    {
        let Some((front, _)) = self.counts.front() else {
            return Err(0);
        };
        let newest = front.0.0;
        if newest < version {
            return Err(0);
        }
        // Versions mostly follow one another and have one entry each: then it stands at the guess.
        // Where spent ones were dropped, it stands before. Where the guess is the last entry, all
        // may be newer.
        let key = (Reverse(version), inode);
        let len = self.counts.len();
        let guess = ((newest - version) as usize).min(len - 1);
        let found = self.counts[guess].0;
        if found == key {
            return Ok(guess);
        }
        if is_before(found, key) {
            self.search(key, guess + 1, len)
        } else {
            self.search(key, 0, guess)
        }
    }

    /// As `place`, of a key whose place is known to lie between two indices.
    fn search(&self, key: MarkKey, first: usize, end: usize) -> Result<usize, usize>
        requires { IsPlaceWithin self.now key first end }
        ensures there { IfOk result (IsKeyAt self.now key) }
        ensures absent { IfErr result (BelongsAt self.now key) }
        ensures kept { AreKept self.now }
    {
        let mut from = first;
        let mut to = end;
        'halves: while from < to {
            let mid = from + (to - from) / 2;
            if is_before(self.counts[mid].0, key) {
                from = mid + 1;
            } else {
                to = mid;
            }
        }
        let Some(entry) = self.counts.get(from) else {
            return Err(from);
        };
        if entry.0 == key { Ok(from) } else { Err(from) }
    }

    /// How many entries are of versions above this one. So its first one, if any, stands there.
    fn start(&self, version: u32) -> usize
        ensures { SplitsAt self.now (version + 1) result }
    {
        match self.place(version, 0) {
            Ok(index) => index,
            Err(index) => index,
        }
    }

    /// Adds marks of a version in an inode. Precondition: with them it has less than 2^32 there.
    ///
    /// `AllocError` if allocation failed: the marks are the same.
    pub fn raise(&mut self, version: u32, inode: u32, count: u32) -> Result<(), AllocError>
        requires { mark_of self.old version inode + count < 2 ^ 32 }
        ensures ok { OnOk result (HaveMore self.old self.new version inode count) }
        ensures err { OnErr result (SameMarks self.old self.new) }
    {
        self.make_room()?;
        match self.place(version, inode) {
            Ok(index) => self.counts[index].1 += count,
            Err(0) => self.counts.push_front(((Reverse(version), inode), count))?,
            Err(index) => self
                .counts
                .insert(index, ((Reverse(version), inode), count))?,
        }
        Ok(())
    }

    /// Makes room for one more entry. A full deque loses its spent entries, and only if more than
    /// half of it is still taken, it grows to twice that. So a call costs little on the average,
    /// and the deque has room for about twice the entries that were live at once. Where the
    /// allocation failed, the marks are the same too.
    fn make_room(&mut self) -> Result<(), AllocError>
        ensures { SameMarks self.old self.new }
    {
        if self.counts.len() < self.counts.capacity() {
            return Ok(());
        }
        self.drop_spent();
        let live = self.counts.len();
        if self.counts.capacity() / 2 < live {
            self.counts.reserve(live)?;
        }
        Ok(())
    }

    /// Drops all spent entries.
    fn drop_spent(&mut self)
        ensures same { SameMarks self.old self.new }
        ensures live { All (λ e. 0 < e.1) self.new }
    {
        self.counts.retain(|entry| entry.1 > 0);
    }

    /// Takes marks of a version in an inode away. Takes no memory. Precondition: it has as many.
    pub fn lower(&mut self, version: u32, inode: u32, count: u32)
        requires { count ≤ mark_of self.old version inode }
        ensures { HaveMore self.new self.old version inode count }
    {
        match self.place(version, inode) {
            Ok(index) => self.counts[index].1 -= count,
            Err(_) => return,
        }
        self.drop_last_spent();
    }

    /// Drops the spent entries at the back, so that `next` finds the oldest live one at once.
    fn drop_last_spent(&mut self)
        ensures { SameMarks self.old self.new }
    {
        while let Some((_, count)) = self.counts.back() {
            if *count > 0 {
                return;
            }
            self.counts.pop_back();
        }
    }

    /// The smallest inode where the version has marks.
    pub fn holder(&self, version: u32) -> Option<u32>
        ensures there { IfSome result (λ i. 0 < mark_of self.now version i) }
        ensures least { IfSome result (λ i. (j : ℕ) → 0 < mark_of self.now version j → i ≤ j) }
        ensures none { IfNone result ((j : ℕ) → mark_of self.now version j ≡ 0) }
    {
        // A late copy is of a version older than all that live.
        let Some((oldest, _)) = self.next(0) else {
            return None;
        };
        if version < oldest {
            return None;
        }
        for index in self.start(version)..self.counts.len() {
            let (key, count) = self.counts[index];
            if key.0.0 != version {
                return None;
            }
            if count > 0 {
                return Some(key.1);
            }
        }
        None
    }

    /// The least version from `first` on that has marks, and an inode where it has them.
    pub fn next(&self, first: u32) -> Option<(u32, u32)>
        ensures some { IfSome result (λ p. (first ≤ p.0) × (0 < mark_of self.now p.0 p.1)) }
        ensures least { IfSome result
            (λ p. (w i : ℕ) → first ≤ w → w < p.0 → mark_of self.now w i ≡ 0) }
        ensures none { IfNone result ((v i : ℕ) → first ≤ v → mark_of self.now v i ≡ 0) }
    {
        let mut index = self.end(first);
        while index > 0 {
            index -= 1;
            let (key, count) = self.counts[index];
            if count > 0 {
                return Some((key.0.0, key.1));
            }
        }
        None
    }

    /// How many entries are of versions from `first` on.
    fn end(&self, first: u32) -> usize
        ensures { SplitsAt self.now first result }
    {
        // A log asks from its oldest record on, and there the last entry answers without a search.
        let Some((oldest, _)) = self.counts.back() else {
            return 0;
        };
        if oldest.0.0 < first {
            self.start(first - 1)
        } else {
            self.counts.len()
        }
    }

    /// The least version from `first` to `last`, both included, that has marks.
    pub fn least(&self, first: u32, last: u32) -> Option<u32>
        ensures some { IfSome result
            (λ v. (i : ℕ) × (first ≤ v) × (v ≤ last) × (0 < mark_of self.now v i)) }
        ensures least { IfSome result
            (λ v. (w i : ℕ) → first ≤ w → w < v → mark_of self.now w i ≡ 0) }
        ensures none { IfNone result ((v i : ℕ) → first ≤ v → v ≤ last → mark_of self.now v i ≡ 0) }
    {
        let Some((version, _)) = self.next(first) else {
            return None;
        };
        if version <= last { Some(version) } else { None }
    }

    /// Whether a version of that range, with both its ends, has marks.
    pub fn any(&self, first: u32, last: u32) -> bool
        ensures some { result ≡ true
            → (v : ℕ) × (i : ℕ) × (first ≤ v) × (v ≤ last) × (0 < mark_of self.now v i) }
        ensures none { result ≡ false → (v i : ℕ) → first ≤ v → v ≤ last
            → mark_of self.now v i ≡ 0 }
    {
        self.least(first, last).is_some()
    }

    /// All marks of a version, or the greatest `u32` where there are more.
    pub fn total(&self, version: u32) -> u32
        ensures total { result ≡ min (marks_of self.now version) (2 ^ 32 - 1) }
        ensures kept { AreKept self.now }
    {
        let mut total = 0u32;
        for index in self.start(version)..self.counts.len() {
            let (key, count) = self.counts[index];
            if key.0.0 != version {
                return total;
            }
            total = total.saturating_add(count);
        }
        total
    }
}

/// Whether a key stands before another one. Both parts are compared at once, without a branch.
fn is_before(key: MarkKey, other: MarkKey) -> bool
    ensures { result ≡ is_lt (mark_cmp key other) }
{
    let version = key.0.0;
    let pivot = other.0.0;
    (pivot < version) | ((pivot == version) & (key.1 < other.1))
}

impl Clone for Marks {
    ghost is_clone = { λ old new. new ≡ old };

    fn clone(&self) -> Result<Marks, AllocError> {
        Ok(Marks {
            counts: self.counts.clone()?,
        })
    }
}
