//! Laws of what a check reports, and of runs that are replayed. The definitions are in `specs/Trees/Reports.antt`,
//! `specs/Trees/Resuming.antt` for a check that begins with a path, and `specs/Trees/Replay.antt`.
ghost use Rattle.loom_engine.specs.Trees.Replays.{AllowedReplayLaw, NoSuchFailureLaw, ReplayFollowsLaw};
ghost use Rattle.loom_engine.specs.Trees.Reports.{CompleteReportLaw, FailedReportLaw, RefusedReplayLaw, SearchLaw, StoppedReportLaw};
ghost use Rattle.loom_engine.specs.Trees.Resuming.{CompleteFromLaw, DefaultsLaw, FailedFromLaw, JoinedLaw, ResumedRunsLaw, StoppedFromLaw};

/// With the marks that schedules make any settings give a search, reduced or not and bounded or not.
pub fn marks_search<A>()
    ensures { SearchLaw A }
{}

/// A complete check has made each reachable run once, and none of them fails.
pub fn complete_report<A>()
    ensures { CompleteReportLaw A }
{}

/// A check that was stopped has made the first of the reachable runs.
pub fn stopped_report<A>()
    ensures { StoppedReportLaw A }
{}

/// A check that failed has made the reachable runs up to the first that fails, and its choices replay to that failure.
pub fn failed_report<A>()
    ensures { FailedReportLaw A }
{}

/// A path that is to follow choices makes the replayed run.
pub fn replay_follows<A>()
    ensures { ReplayFollowsLaw A }
{}

/// Choices that are options where they come replay as the run that begins with them.
pub fn allowed_replay<A>()
    ensures { AllowedReplayLaw A }
{}

/// Choices replay as not deterministic only where one of them is no option, or is left over.
pub fn refused_replay<A>()
    ensures { RefusedReplayLaw A }
{}

/// Where no run of a tree fails so by options, no choices lead to that failure, and none replay to it, unless it is one that a path
/// alone brings about (own).
pub fn no_such_failure<A>()
    ensures { NoSuchFailureLaw A }
{}

/// A complete check that began with a path has made what was left from it, each run once, and none of that fails.
pub fn complete_from_path<A>()
    ensures { CompleteFromLaw A }
{}

/// A check that began with a path and was stopped has made a part of what was left, and the path that it reached leaves the other.
pub fn stopped_from_path<A>()
    ensures { StoppedFromLaw A }
{}

/// A check that began with a path and failed did so by a run that was left, or by its first run, and then the path isn't the tree's.
pub fn failed_from_path<A>()
    ensures { FailedFromLaw A }
{}

/// The runs of a check and of one that goes on where it stopped are what one check makes.
pub fn join_checks<A>()
    ensures { JoinedLaw A }
{}

/// A check that goes on where one without a path stopped makes no run but reachable ones.
pub fn resumed_runs<A>()
    ensures { ResumedRunsLaw A }
{}

/// A path between two runs holds no schedule without a default thread.
pub fn paths_have_defaults<A>()
    ensures { DefaultsLaw A }
{}
