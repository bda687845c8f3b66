//! Laws over the definitions. The functions do nothing: their contracts are the laws.

ghost use Rattle.jffs_serve.specs.Answered.{SessionsGoOn};
ghost use Rattle.jffs_serve.specs.Stopping.{StopsGoOn};
ghost use Rattle.jffs_serve.specs.ChainLaws.{ChainsEndSo, ChainsSplit, FailedAnswersFailed};
ghost use Rattle.jffs_serve.specs.ChainLaws.{FailuresAreFaults, NoSpaceIsHeavy, NoRoomAtTheTurn};
ghost use Rattle.jffs_serve.specs.ChainLaws.{NoSpaceIsHeavyThen, RepliesAreLawful};
ghost use Rattle.jffs_serve.specs.ChainLaws.{UnmountsHaveSpace, UnmountsHaveSpaceThen};

/// The answers of a session are a lawful run of the requests.
pub fn replies_are_lawful()
    ensures { RepliesAreLawful }
{}

/// Serving goes on over any number of calls: what clause `served` of `serve` tells of two calls,
/// one after the other, it tells of both together.
pub fn sessions_go_on()
    ensures replies { SessionsGoOn }
    ensures stops { StopsGoOn }
{}

/// A session is a chain of turns. It splits at each reply, which keeps what was before it and what
/// came after it; and its end tells of erased sectors, faults, and what was in hand when the device
/// failed.
pub fn sessions_are_chains()
    ensures ends { ChainsEndSo }
    ensures splits { ChainsSplit }
{}

/// At each turn: a request is answered NoSpace only where its node has no room then, and once a
/// core has failed each answer is Failed.
pub fn turns_are_real()
    ensures no_space { NoRoomAtTheTurn }
    ensures failed { FailedAnswersFailed }
{}

/// Where two sectors are erased when a request is taken: a fresh node is answered NoSpace only
/// where the live records weigh (S - 4)(3Z/4 - 64) bytes, and an Unmount never is. Two are from a
/// mount that found two on, up to the first answer Closed, Memory, VersionsSpent or Device.
pub fn full_volumes_are_heavy()
    ensures fresh_then { NoSpaceIsHeavyThen }
    ensures unmounts_then { UnmountsHaveSpaceThen }
    ensures fresh { NoSpaceIsHeavy }
    ensures unmounts { UnmountsHaveSpace }
{}

/// Where the device's count of faults did not rise, nothing was answered Device or Failed.
pub fn failures_are_faults()
    ensures { FailuresAreFaults }
{}
