//! Laws of trees of runs: what a path that drives through one has to do with a walk. The definitions are in
//! `specs/Trees`.
ghost use Rattle.loom_engine.specs.Trees.Check.{CompleteLaw, EndLaw, FailureLaw, FirstRunLaw, FreshLaw, GivenLaw, PartLaw, ReplayLaw};
ghost use Rattle.loom_engine.specs.Trees.Drive.{DriveLaw};
ghost use Rattle.loom_engine.specs.Trees.Example.{ExampleLaw};
ghost use Rattle.loom_engine.specs.Trees.Foreign.{ForeignLaw};
ghost use Rattle.loom_engine.specs.Trees.Machines.{MarkingLaw, BoundLaw, EveryRunLaw, MachineLaw, ReducedLaw};

/// A tree of runs with sound questions is a machine for walks.
pub fn tree_machine<A>()
    ensures { MachineLaw A }
{}

/// A path whose nodes are those that a tree asks for drives through it as a walk's run does.
pub fn path_drives<A>()
    ensures { DriveLaw A }
{}

/// Rounds from a path at rest, up to the last, make a walk list of what was left from it.
pub fn complete_check<A>()
    ensures { CompleteLaw A }
{}

/// From a path without nodes that is what is reachable.
pub fn fresh_check<A>()
    ensures { FreshLaw A }
{}

/// Rounds that were stopped have made a part, and leave the other.
pub fn part_of_a_check<A>()
    ensures { PartLaw A }
{}

/// The choices of a run that fails lead to that failure.
pub fn failed_check<A>()
    ensures { FailureLaw A }
{}

/// A check ends.
pub fn check_ends<A>()
    ensures { EndLaw A }
{}

/// A path that follows allowed choices makes their run.
pub fn replayed_run<A>()
    ensures { ReplayLaw A }
{}

/// With a bound on preemptions no run that is reachable passes it.
pub fn bounded_runs<A>()
    ensures { BoundLaw A }
{}

/// A reduced search makes no run that the search with the same bound doesn't make.
pub fn reduced_runs<A>()
    ensures { ReducedLaw A }
{}

/// In a search that isn't reduced or bounded, of a tree that explores throughout, each run is reachable.
pub fn every_run_reachable<A>()
    ensures { EveryRunLaw A }
{}

/// What schedules mark is where the run explores and the count isn't the bound.
pub fn schedules_mark()
    ensures { MarkingLaw }
{}

/// The first run along a path that was loaded tells it apart, or meets its nodes, or fails before.
pub fn loaded_path<A>()
    ensures { FirstRunLaw A }
{}

/// A path that is to follow any choices finds them allowed, or refuses one, or fails before.
pub fn given_choices<A>()
    ensures { GivenLaw A }
{}

/// There are sound trees, and rounds make their runs in order.
pub fn example_runs()
    ensures { ExampleLaw }
{}

/// A run may fail along a path that belongs to another tree, and is then not left from that path.
pub fn foreign_path()
    ensures { ForeignLaw }
{}
