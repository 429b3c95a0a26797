//! Laws of a depth-first walk over the runs of a machine: what is left of it at each moment, and that it makes each run
//! once. The definitions are in `specs/Walk`.
ghost use Rattle.loom_engine.specs.Walk.Bound.{BoundLaw};
ghost use Rattle.loom_engine.specs.Walk.Driven.{DrivenLaw, NoSkipLaw};
ghost use Rattle.loom_engine.specs.Walk.Example.{ExampleLaw};
ghost use Rattle.loom_engine.specs.Walk.UnderWay.{OverLaw, MeetingLaw};
ghost use Rattle.loom_engine.specs.Walk.Walks.{JoinLaw, LeastLaw, RoundLaw, CompleteLaw, StoppedLaw, FreshLaw, EveryRunLaw, EndsLaw, OrderLaw};

/// What is left from a path is its run and, apart from it, what is left from the next path.
pub fn one_round()
    ensures { RoundLaw }
{}

/// Rounds up to the last make a walk list of what was left, and no run of it fails.
pub fn complete_walk()
    ensures { CompleteLaw }
{}

/// Rounds that were stopped have made one part of what was left, and leave the other.
pub fn stopped_walk()
    ensures { StoppedLaw }
{}

/// Rounds go on where others stopped.
pub fn join_walks()
    ensures { JoinLaw }
{}

/// From a path without nodes the least closed set of runs is left.
pub fn fresh_walk()
    ensures { FreshLaw }
{}

/// In a search that isn't reduced or bounded and explores throughout, every run is reachable.
pub fn every_run()
    ensures { EveryRunLaw }
{}

/// Each round makes progress, of which there is an end, so a walk ends.
pub fn walk_ends()
    ensures { EndsLaw }
{}

/// In a search that isn't reduced the runs come in order.
pub fn walk_order()
    ensures { OrderLaw }
{}

/// What is reachable is the least closed set.
pub fn least_set()
    ensures { LeastLaw }
{}

/// A run that is over and has used up the stored nodes was the path's run, met its nodes, and left the path with its marks.
pub fn run_over()
    ensures { OverLaw }
{}

/// A run that follows a path whose nodes the machine meets never meets another node, and leaves none over.
pub fn run_meets()
    ensures { MeetingLaw }
{}

/// Runs that are made by others, of whom nothing is known, try each option that is to be tried.
pub fn driven_walk()
    ensures { DrivenLaw }
{}

/// No run that is reachable counts more preemptions than the bound.
pub fn within_bound()
    ensures { BoundLaw }
{}

/// There are machines, and walks over them make their runs.
pub fn example_walks()
    ensures { ExampleLaw }
{}

/// Where each new node at which every option is to be tried skips none, no later path does.
pub fn driven_skips_none()
    ensures { NoSkipLaw }
{}
