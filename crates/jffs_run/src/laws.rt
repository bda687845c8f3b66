//! Laws over the definitions. The functions do nothing: their contracts are the laws.

ghost use Rattle.jffs_run.specs.Done.{GrantedIsDone, RunsAreFree, EachIsDone, FailedIsDoneOrNot};
ghost use Rattle.jffs_run.specs.Heavy.{RunsHaveRoom, SpaceIsSure, SpaceIsSureThen, TurnsHaveRoom};
ghost use Rattle.jffs_run.specs.Turns.{AnswersAreDurable, FailedStaysFailed, NoSpaceMeansNoRoom};
ghost use Rattle.jffs_run.specs.Seen.{ReadersSeeAnswers};
ghost use Rattle.jffs_run.specs.Sessions.{FaultsEndSessions, RunsAreSessions, SessionsAreDone};
ghost use Rattle.jffs_run.specs.Scanned.{RunsLeaveContents, FailedRunsLeaveHistory};
ghost use Rattle.jffs_run.specs.Scanned.{RunsWithoutFaults};
ghost use Rattle.jffs_run.specs.Unmounted.{RunsEndUnmounted};
ghost use Rattle.jffs_run.specs.Wear.{RunsWearEvenly};
ghost use Rattle.jffs_run.specs.Work.{RunsWorkLittle};

/// What the contract of `run_threads` says of the core, said of the device: the answers are lawful
/// for their requests, and a scan finds what the fresh nodes appended since the mount made. Where
/// the device failed, a scan finds that, or what the node of the request that was answered Device
/// makes of it: on the device as it was left, where no erase failed, and once it is healed, unless
/// what a failed erase left of its sector could be another log's.
pub fn runs_leave_contents()
    ensures works { RunsLeaveContents }
    ensures failed { FailedRunsLeaveHistory }
{}

/// What `run_threads` serves tells how the control's Unmount was answered: Closed, or refused for
/// that cause. In both cases all commands of every writer were accepted.
pub fn runs_end_unmounted()
    ensures { RunsEndUnmounted }
{}

/// Where the device's count of faults is at the end of `run_threads` what it was at its beginning,
/// nothing was answered Device or Failed, and a scan finds what the fresh nodes appended since the
/// mount made.
pub fn runs_without_faults()
    ensures { RunsWithoutFaults }
{}

/// Where two sectors are erased when a request is taken, what `run_threads` answers NoSpace is no
/// Unmount, and a fresh node only where the live records weigh (S - 4)(3Z/4 - 64) bytes then. Two
/// are from a mount on that found two, up to the first answer Closed, Memory, VersionsSpent or
/// Device.
pub fn runs_have_room()
    ensures mounted { RunsHaveRoom }
    ensures at_turn { TurnsHaveRoom }
{}

/// Where two sectors are erased when a request is taken, as they are in the turns that
/// `runs_have_room` names, and the live records weigh less than (S - 4)(3Z/4 - 64) bytes,
/// `run_threads` refuses a fresh node that the tree allows for want of memory, of versions or of a
/// device that works, and for nothing else.
pub fn space_is_sure()
    ensures mounted { SpaceIsSure }
    ensures at_turn { SpaceIsSureThen }
{}

/// What `run_threads` answers NoSpace had no room at that very turn: its node, the free bytes and
/// the erased sectors are those when its request was taken.
pub fn no_space_means_no_room()
    ensures { NoSpaceMeansNoRoom }
{}

/// After an answer of `run_threads` that tells of a failed device each is Failed.
pub fn failed_stays_failed()
    ensures { FailedStaysFailed }
{}

/// A scan of the device as it is with any one answer that tells of no failure finds what the fresh
/// nodes up to there make: a loss of power after it loses nothing that was answered.
pub fn answers_are_durable()
    ensures { AnswersAreDurable }
{}

/// While the device works, `run_threads` erases its sectors around the ring: from the mount to each
/// answer and to the end, of any two sectors the one was erased at most once more often than the
/// other; and so it is over any number of sessions that follow one another.
pub fn runs_wear_evenly()
    ensures { RunsWearEvenly }
{}

/// Before each answer `run_threads` copies no more bytes than the live records of the log took when
/// the request was taken, with what was free in the tail, in copies of 64 bytes at least; and it
/// erases no more sectors than held the log.
pub fn runs_work_little()
    ensures { RunsWorkLittle }
{}

/// What a reader of a run read is what its path had once the request that it waited for was
/// answered, with all that was answered before, and perhaps with some answers after it.
pub fn readers_see_answers()
    ensures { ReadersSeeAnswers }
{}

/// A scan after `run_threads` finds what a scan before it found, with the granted requests done, in
/// the order of their answers and in words of files and directories, and nothing else; and so does
/// a scan of the device as it is with any one answer that tells of no failure, of those up to
/// there, whatever becomes of the device later. Where the device failed, the request that was
/// answered Device may be done besides, on the device as `runs_leave_contents` has it. A new entry
/// never takes the place of another.
pub fn granted_is_done()
    ensures works { GrantedIsDone }
    ensures each { EachIsDone }
    ensures free { RunsAreFree }
    ensures failed { FailedIsDoneOrNot }
{}

/// After any number of sessions on one device, each of which ended in order, for want of memory, or
/// by a fault of the device, a scan finds what the granted requests of all of them make of what a
/// scan found at first; of each that a fault ended perhaps the request in hand besides. Each session
/// is given the device as the one before it left it, or healed, and after one in which an erase
/// failed it is healed, unless what the erase left of its sector could be another log's. Each call
/// of `run_threads` that mounted the device is a session, that of the answers that it gave.
pub fn sessions_are_done()
    ensures done { SessionsAreDone }
    ensures runs { RunsAreSessions }
    ensures faults { FaultsEndSessions }
{}
