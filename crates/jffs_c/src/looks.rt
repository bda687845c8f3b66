//! Looks at a volume. They change nothing, and see the changes whose calls are left as made.

ghost use Rattle.std.specs.Prelude.{◌≡◌, ◌≢◌, IfOk, IfErr, IsOk, Ok, Err, length};
ghost use Rattle.jffs_core.specs.Jobs.{wants_cleaning};
ghost use Rattle.jffs_c.specs.Blocked.{looks_blocked};
ghost use Rattle.jffs_c.specs.Seen.{LeadsTo, LeadsNowhere, sight_in, IsSeen, IsRead, IsEntry};
ghost use Rattle.jffs_c.specs.Seen.{IsUnreached, IsUnread, IsUntold, IsUsage};
ghost use Rattle.jffs_c.specs.Volume.{IsPlaceAt, IsNoPlace};

use crate::calls::put;
use crate::code::Code;
use crate::place::{Place, next_place, some_place};
use crate::volume::Volume;
use jffs_node::{FILE_MAX, NAME_MAX, PATH_DEPTH_MAX};
use jffs_tree::Tree;

/// The most bytes of a path: eight names, each after a slash.
const PATH_TEXT_MAX: u32 = (PATH_DEPTH_MAX * (NAME_MAX + 1)) as u32;

/// What stands at a path: `pg_sight` of `pumpgrape.h`.
#[repr(C)]
#[derive(Clone, Copy, Debug, PartialEq, Eq)]
pub struct PathSight {
    /// Whether it is a directory; else it is a file.
    pub directory: bool,
    /// How many bytes a file has; 0 for a directory.
    pub size: u32,
}

/// How long things may be, in bytes, but for the depth: `pg_longest` of `pumpgrape.h`.
#[repr(C)]
#[derive(Clone, Copy, Debug, PartialEq, Eq)]
pub struct Longest {
    /// What one write carries.
    pub write: u32,
    pub path: u32,
    pub name: u32,
    /// How many names a path has.
    pub depth: u32,
    pub file: u32,
}

/// How full a volume is: `pg_usage` of `pumpgrape.h`.
#[repr(C)]
#[derive(Clone, Copy, Debug, PartialEq, Eq)]
pub struct VolumeUsage {
    pub sectors: u32,
    /// How many bytes a sector has.
    pub sector_size: u32,
    /// How many sectors are erased.
    pub erased: u32,
    /// How many records the log has.
    pub records: u32,
    /// What the live records weigh, in bytes.
    pub weight: u64,
    /// The weight below which no change is refused for want of room while two sectors are erased.
    pub sure: u64,
}

impl Volume {
    /// What stands at a path. `Failed`, the path's faults, `NotFound`.
    pub(crate) fn look(&self, path: &[u8]) -> Result<PathSight, Code>
        ensures held_back { IfErr (looks_blocked self.now.phase) (λ why. result ≡ Err why) }
        ensures seen { IfOk result (λ sight. IsSeen path.now self.now sight) }
        ensures none { result ≡ Err Code.NotFound → LeadsNowhere path.now self.now }
        ensures refused { IfErr result (λ code. code ≢ Code.Done) }
        ensures why { looks_blocked self.now.phase ≡ Ok tt
            → IfErr result (IsUnreached path.now self.now) }
    {
        self.may_look()?;
        let inode = self.inode_at(path)?;
        Ok(sight_of(self.tree(), inode))
    }

    /// Copies the bytes of a file from `offset` on, as many as there are and as `buffer` takes, and
    /// returns how many. `Failed`, the path's faults, `NotFound`, `IsDirectory`.
    pub(crate) fn read(&self, path: &[u8], offset: u32, buffer: &mut [u8]) -> Result<usize, Code>
        ensures held_back { IfErr (looks_blocked self.now.phase) (λ why. result ≡ Err why) }
        ensures read { IfOk result
            (λ count. IsRead path.now self.now offset count buffer.old buffer.new) }
        ensures none { result ≡ Err Code.NotFound → LeadsNowhere path.now self.now }
        ensures refused { IfErr result
            (λ code. (code ≢ Code.Done) × (buffer.new ≡ buffer.old)) }
        ensures why { looks_blocked self.now.phase ≡ Ok tt
            → IfErr result (IsUnread path.now self.now) }
    {
        self.may_look()?;
        let inode = self.inode_at(path)?;
        let tree = self.tree();
        if tree.is_directory(inode) {
            return Err(Code::IsDirectory);
        }
        Ok(tree.read(inode, offset, buffer))
    }

    /// What stands in a directory under the name with this number, counted from 0 in the order of
    /// their bytes, and how long the name is; its bytes go to the start of `buffer`.
    ///
    /// `Failed`, the path's faults, `NotFound`, `Nothing` where there are fewer names or this is a
    /// file, `BufferShort` where the buffer can't take the name, `Memory`.
    pub(crate) fn entry(
        &mut self,
        path: &[u8],
        number: u32,
        buffer: &mut [u8],
    ) -> Result<(PathSight, usize), Code>
        ensures held_back { IfErr (looks_blocked self.old.phase) (λ why. result ≡ Err why) }
        ensures entry { IfOk result
            (λ e. IsEntry path.now self.old number e.0 e.1 buffer.old buffer.new) }
        ensures none { result ≡ Err Code.NotFound → LeadsNowhere path.now self.old }
        ensures refused { IfErr result
            (λ code. (code ≢ Code.Done) × (buffer.new ≡ buffer.old)) }
        ensures why { looks_blocked self.old.phase ≡ Ok tt
            → IfErr result (IsUntold path.now self.old number (length buffer.old)) }
        ensures kept { self.new ≡ self.old }
    {
        self.may_look()?;
        let inode = self.inode_at(path)?;
        let place = self.place_at(inode, number)?;
        let bytes = place.name.bytes();
        match put(bytes, buffer) {
            Code::Done => Ok((sight_of(self.tree(), place.inode), bytes.len())),
            _ => Err(Code::BufferShort),
        }
    }

    /// The place of the name with this number in a directory, from which the next one is found.
    fn place_at(&mut self, directory: u32, number: u32) -> Result<Place, Code>
        ensures there { IfOk result (IsPlaceAt self.old.core.tree directory number) }
        ensures none { IfErr result (IsNoPlace self.old.core.tree directory number) }
        ensures kept { self.new ≡ self.old }
    {
        let found = self.find_place(directory, number);
        if let Ok(place) = &found {
            self.place = Some(*place);
        }
        found
    }

    /// The place of the name with this number. `Nothing` where there are fewer names; `Memory`, but
    /// not of the first name, nor of the one that was told last, nor of the one after that.
    fn find_place(&self, directory: u32, number: u32) -> Result<Place, Code>
        ensures there { IfOk result (IsPlaceAt self.now.core.tree directory number) }
        ensures none { IfErr result (IsNoPlace self.now.core.tree directory number) }
    {
        let Some(place) = self.place else {
            return some_place(self.tree(), directory, number);
        };
        if place.directory != directory || place.number > number {
            return some_place(self.tree(), directory, number);
        }
        match number - place.number {
            0 => Ok(place),
            1 => next_place(self.tree(), place),
            _ => some_place(self.tree(), directory, number),
        }
    }

    /// How long things may be. `Failed`.
    pub(crate) fn longest(&self) -> Result<Longest, Code>
        ensures held_back { IfErr (looks_blocked self.now.phase) (λ why. result ≡ Err why) }
        ensures write { IfOk result (λ longest. longest.write ≡ self.now.core.limits.data_max) }
        ensures refused { IfErr result (λ code. code ≢ Code.Done) }
        ensures answered { looks_blocked self.now.phase ≡ Ok tt → IsOk result }
    {
        self.may_look()?;
        Ok(Longest {
            write: self.core().limits().data_max,
            path: PATH_TEXT_MAX,
            name: NAME_MAX as u32,
            depth: PATH_DEPTH_MAX as u32,
            file: FILE_MAX,
        })
    }

    /// How full it is. `Failed`.
    pub(crate) fn usage(&self) -> Result<VolumeUsage, Code>
        ensures held_back { IfErr (looks_blocked self.now.phase) (λ why. result ≡ Err why) }
        ensures usage { IfOk result (λ usage. IsUsage self.now usage) }
        ensures refused { IfErr result (λ code. code ≢ Code.Done) }
        ensures answered { looks_blocked self.now.phase ≡ Ok tt → IsOk result }
    {
        self.may_look()?;
        let log = self.core().log();
        Ok(VolumeUsage {
            sectors: log.sectors(),
            sector_size: log.sector_size(),
            erased: log.erased(),
            records: u32::try_from(log.records().len()).unwrap_or(u32::MAX),
            weight: log.live_weight(self.tree()),
            sure: log.sure_weight(),
        })
    }

    /// Whether cleaning is worth it: the oldest sector isn't the tail, and at most half of the
    /// sectors are erased. `Failed`.
    pub(crate) fn wants_cleaning(&self) -> Result<bool, Code>
        ensures held_back { IfErr (looks_blocked self.now.phase) (λ why. result ≡ Err why) }
        ensures wants { IfOk result (λ wants. wants ≡ wants_cleaning self.now.core) }
        ensures refused { IfErr result (λ code. code ≢ Code.Done) }
        ensures answered { looks_blocked self.now.phase ≡ Ok tt → IsOk result }
    {
        self.may_look()?;
        Ok(self.core().wants_cleaning())
    }

    /// Whether the log ends with an unmount node, and nothing was programmed after it. `Failed`.
    pub(crate) fn clean_log(&self) -> Result<bool, Code>
        ensures held_back { IfErr (looks_blocked self.now.phase) (λ why. result ≡ Err why) }
        ensures clean { IfOk result (λ clean. clean ≡ self.now.core.clean) }
        ensures refused { IfErr result (λ code. code ≢ Code.Done) }
        ensures answered { looks_blocked self.now.phase ≡ Ok tt → IsOk result }
    {
        self.may_look()?;
        Ok(self.core().clean())
    }

    /// The inode at a path. The path's faults, `NotFound`.
    fn inode_at(&self, path: &[u8]) -> Result<u32, Code>
        ensures found { IfOk result (λ inode. LeadsTo path.now self.now inode) }
        ensures none { result ≡ Err Code.NotFound → LeadsNowhere path.now self.now }
        ensures refused { IfErr result (λ code. code ≢ Code.Done) }
        ensures why { IfErr result (IsUnreached path.now self.now) }
    {
        let path = self.path(path)?;
        match self.tree().resolve(&path) {
            Some(inode) => Ok(inode),
            None => Err(Code::NotFound),
        }
    }
}

fn sight_of(tree: &Tree, inode: u32) -> PathSight
    ensures { result ≡ sight_in tree.now inode }
{
    PathSight {
        directory: tree.is_directory(inode),
        size: tree.size(inode).unwrap_or(0),
    }
}
