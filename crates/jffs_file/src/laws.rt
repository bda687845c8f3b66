//! Laws over the definitions. The functions do nothing: their contracts are the laws.

ghost use Rattle.jffs_file.specs.Lost.{GatesFollowRecords};

/// Of a store that was written and synced in order, a loss of power may undo any blocks of what is
/// in flight, of each any number of the newest writes. Where a gate is there, so is all of its
/// record.
pub fn gates_follow_records()
    ensures { GatesFollowRecords }
{}
