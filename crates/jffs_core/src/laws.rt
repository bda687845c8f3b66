//! Laws over the definitions. The functions do nothing: their contracts are the laws.

ghost use Rattle.jffs_core.specs.Erases.{OneIsErased, MountsGoOn};
ghost use Rattle.jffs_core.specs.History.{ContentsAreState};
ghost use Rattle.jffs_core.specs.Mounts.{MountsReadOnce};
ghost use Rattle.jffs_core.specs.RoomSteps.{CleaningOnlyCopies, StoppedOnlyCopies};
ghost use Rattle.jffs_core.specs.RoomSteps.{MakingRoomOnlyCopies, NoSpaceIsAStep, UnmountsHaveRoom};
ghost use Rattle.jffs_core.specs.Past.{ScansFindContents, FailedScansFind};
ghost use Rattle.jffs_core.specs.Finding.{DeviceScansFind, StoppedScansFind};
ghost use Rattle.jffs_core.specs.Done.{AnswersAreDone, AnswersAreFree, TreesAreDone};
ghost use Rattle.jffs_core.specs.Done.{DeviceIsDoneOrNot};
ghost use Rattle.jffs_core.specs.Run.{RunsGoOn, LawfulRunsGrow};
ghost use Rattle.jffs_core.specs.Work.{AnswersCopyLittle, AnswersProgramLittle, RefusedAddNothing};

/// A run that nothing has closed may go on by one request and its answer.
pub fn runs_go_on()
    ensures { RunsGoOn }
{}

/// After a lawful run the state is what the fresh nodes made.
pub fn contents_are_kept()
    ensures contents { ContentsAreState }
    ensures grows { LawfulRunsGrow }
{}

/// Cleaning adds true copies alone, and where a whole turn of it made no room, NoSpace is a lawful
/// answer.
pub fn cleaning_is_lawful()
    ensures one { CleaningOnlyCopies }
    ensures stopped { StoppedOnlyCopies }
    ensures turn { MakingRoomOnlyCopies }
    ensures none { NoSpaceIsAStep }
    ensures unmounts { UnmountsHaveRoom }
{}

/// A scan of a core's image finds what the fresh nodes since the mount made. After a failure it
/// finds that, or that with one node more; after the answer Device the state before the request, or
/// that after it; and after a cleaning that stopped with Device the state before. So it is of the
/// image as it was left, where no erase failed, and of the image that [`heal`](jffs_log::heal)
/// makes of it, unless what a failed erase left of its sector could be another log's.
pub fn scans_find_contents()
    ensures works { ScansFindContents }
    ensures failed { FailedScansFind }
    ensures device { DeviceScansFind }
    ensures stopped { StoppedScansFind }
{}

/// While a core works, and so after each of its appends and erases, at least one sector is erased.
pub fn one_sector_is_erased()
    ensures { OneIsErased }
{}

/// A mount of what a working core left finds the log begin with the same sector, where any held it:
/// so the next session erases on from there.
pub fn mounts_go_on()
    ensures { MountsGoOn }
{}

/// A mount reads each byte of the device once at most: where each can be read once more, it is not
/// refused because a read failed.
pub fn mounts_read_each_byte_once()
    ensures { MountsReadOnce }
{}

/// Before an answer no more bytes are copied than the live records of the log took when the request
/// was taken, with what was free in the tail; each copy takes 64 bytes at least. By the device's
/// own count no more is programmed for it, while the core works, than the records of the copies and
/// of the request's own node take, and their gates once more. A request that is refused adds no
/// node, unless it was to make room.
pub fn answers_copy_little()
    ensures copies { AnswersCopyLittle }
    ensures programs { AnswersProgramLittle }
    ensures refused { RefusedAddNothing }
{}

/// What is answered Appended is done, in words of files and directories, and no other answer
/// changes any; a new entry never takes the place of another. After the answer Device a scan finds
/// what was asked for done, or nothing changed, in the image as `scans_find_contents` has it.
pub fn answers_are_done()
    ensures contents { AnswersAreDone }
    ensures free { AnswersAreFree }
    ensures trees { TreesAreDone }
    ensures device { DeviceIsDoneOrNot }
{}
