//! Laws over the definitions. The functions do nothing: their contracts are the laws.

ghost use Rattle.jffs_index.specs.Outcomes.{LatestCounts};
ghost use Rattle.jffs_index.specs.Seen.{AnswersShowTheirNodes, AnswersAreCounted};

/// Of several outcomes of one request a view has the latest.
pub fn latest_outcomes_count()
    ensures { LatestCounts }
{}

/// A view that shows how a request was answered shows in its tree the node of that answer and of
/// all before it. It counts the answers that it shows.
pub fn views_show_answers()
    ensures shown { AnswersShowTheirNodes }
    ensures counted { AnswersAreCounted }
{}
