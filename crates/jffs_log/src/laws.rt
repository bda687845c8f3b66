//! Laws over the definitions. The functions do nothing: their contracts are the laws.

ghost use Rattle.jffs_log.specs.Begun.{ErasesAreHealed, DoomsAreHealable, DoomsGoOn, ErasesGoOn};
ghost use Rattle.jffs_log.specs.Begun.{LawfulStay};
ghost use Rattle.jffs_log.specs.Laws.{ErasingKeepsWeight};
ghost use Rattle.jffs_log.specs.RoomLaws.{CopiesTakeOver, UnmountNodesAreDead, CopiesKeepSound};
ghost use Rattle.jffs_log.specs.RoomLaws.{HandledAreDead};
ghost use Rattle.jffs_log.specs.RoomLaws.{PutsKeepErased, FreshKeepsTwo, PutsKeepSound};
ghost use Rattle.jffs_log.specs.RoomLaws.{ErasingKeepsSound, UnmountHasRoom};
ghost use Rattle.jffs_log.specs.RoomLaws.{CleaningHasRoom, CleaningMayStop, HandledInParts};
ghost use Rattle.jffs_log.specs.RoomLaws.{OldestStays, MakingRoomKeepsSound, CleaningsAreFew};
ghost use Rattle.jffs_log.specs.RoomLaws.{FullLogsAreHeavy, FullLogsFill, LogsWeighLess};
ghost use Rattle.jffs_log.specs.RoomLaws.{PutsAreNewest, ErasedAreOldest, VersionsFollow};
ghost use Rattle.jffs_log.specs.RoomLaws.{MountsAreSound};
ghost use Rattle.jffs_log.specs.Work.{CleaningsCopyTheLive, CleaningsFitASector};
ghost use Rattle.jffs_log.specs.Work.{MakingRoomCopiesLittle, MakingRoomCopiesTheWeight};
ghost use Rattle.jffs_log.specs.Work.{CopiesAreFew};
ghost use Rattle.jffs_log.specs.History.{MountsAreHistories, HistoriesAreScanned};
ghost use Rattle.jffs_log.specs.History.{AppendsKeepHistory, CutsKeepHistory, ErasingKeepsHistory};
ghost use Rattle.jffs_log.specs.Wear.{WearIsEven, TurnsGoOn, ImagesFixFirst};
ghost use Rattle.jffs_log.specs.Wear.{ErasesAreEven};

/// What is erased without live nodes weighed nothing.
pub fn weight_is_kept()
    ensures { ErasingKeepsWeight }
{}

/// The copy that cleaning makes of a live node takes over from it, and no other node comes to life.
pub fn copies_take_over()
    ensures copies { CopiesTakeOver }
    ensures unmounts { UnmountNodesAreDead }
    ensures sound { CopiesKeepSound }
    ensures dead { HandledAreDead }
{}

/// A record that has room leaves a sector erased, and the log lawful.
pub fn puts_keep_room()
    ensures one { PutsKeepErased }
    ensures two { FreshKeepsTwo }
    ensures sound { PutsKeepSound }
    ensures erased { ErasingKeepsSound }
    ensures unmount { UnmountHasRoom }
{}

/// Cleaning opens at most one sector, so its copies have room, and a turn of it erases each sector
/// once at most.
pub fn cleaning_keeps_room()
    ensures one { CleaningHasRoom }
    ensures stopped { CleaningMayStop }
    ensures parts { HandledInParts }
    ensures oldest { OldestStays }
    ensures turn { MakingRoomKeepsSound }
    ensures few { CleaningsAreFew }
{}

/// Where a fresh node has no room after a whole turn of cleaning, what was live weighed much.
pub fn full_logs_are_heavy()
    ensures heavy { FullLogsAreHeavy }
    ensures filled { FullLogsFill }
    ensures part { LogsWeighLess }
    ensures newest { PutsAreNewest }
    ensures oldest { ErasedAreOldest }
    ensures versions { VersionsFollow }
{}

/// A mounted image has a lawful log.
pub fn mounts_are_sound()
    ensures { MountsAreSound }
{}

/// The history of a log stays lawful where lawful nodes are appended and records that aren't live
/// are erased, and a scan finds its log and the tree of the whole of it: so no chain of appends and
/// erases makes a volume that can't be mounted, or that is mounted as another.
pub fn histories_stay_lawful()
    ensures mounted { MountsAreHistories }
    ensures scanned { HistoriesAreScanned }
    ensures appended { AppendsKeepHistory }
    ensures cut { CutsKeepHistory }
    ensures erased { ErasingKeepsHistory }
{}

/// A cleaning copies no more bytes than the live records of the oldest sector take, and no more
/// records than are live there; so it copies less than a sector holds. All cleanings that make room
/// for one node copy no more bytes than the live records of the log took, with what was free in the
/// tail: a copy that is put there may be copied once more.
pub fn cleanings_copy_little()
    ensures copies { CleaningsCopyTheLive }
    ensures fits { CleaningsFitASector }
    ensures turn { MakingRoomCopiesLittle }
    ensures weighs { MakingRoomCopiesTheWeight }
    ensures few { CopiesAreFew }
{}

/// Erased one after another around the ring, no sector is erased more than once more often than
/// another. A scan finds the log begin with the sector that it began with when it was left, where
/// any held it; so it is over any number of sessions, of which each goes on where the last stopped.
pub fn wear_is_even()
    ensures even { WearIsEven }
    ensures on { TurnsGoOn }
    ensures fixed { ImagesFixFirst }
    ensures sessions { ErasesAreEven }
{}

/// Where the erase of a sector was cut off, healing and the scan after it find the tree of before:
/// while it is doomed whichever bits are cleared, and then whatever bytes the sector holds, but for
/// a first record with a closed gate and the right magic that isn't as dead as it was, and for bytes
/// that with that magic would hold a live one. So it is again where healing is cut off. A lawful log
/// is left as it is.
pub fn erases_are_healed()
    ensures healed { ErasesAreHealed }
    ensures doomed { DoomsAreHealable }
    ensures doomed_again { DoomsGoOn }
    ensures erased_again { ErasesGoOn }
    ensures lawful { LawfulStay }
{}
