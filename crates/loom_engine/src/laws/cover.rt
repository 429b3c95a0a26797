//! Laws of a search that remembers states: what it has covered when nothing is left to be tried. The definitions are in
//! `specs/Covering`.
ghost use Rattle.loom_engine.specs.Begun.{BeginningLaw};
ghost use Rattle.loom_engine.specs.Covering.Cut.{CheckLaw, FailLaw, JoinedLaw, ThenLaw};
ghost use Rattle.loom_engine.specs.Covering.Kept.{KeptLaw};
ghost use Rattle.loom_engine.specs.Covering.Parts.{BegunLaw, HandingLaw, NodesLaw, ScheduleLaw};
ghost use Rattle.loom_engine.specs.Covering.Points.{PointsLaw, ThemselvesLaw, YieldsLaw};
ghost use Rattle.loom_engine.specs.Covering.Seen.{TurnLaw, WholeLaw};
ghost use Rattle.loom_engine.specs.Covering.Sight.{BodyEndsLaw, SeenBodyLaw, SightMovesLaw};
ghost use Rattle.loom_engine.specs.Covering.Spread.{SpreadBodyLaw, SpreadCoversLaw, SpreadLaw};
ghost use Rattle.loom_engine.specs.Covering.States.{CoveredBodyLaw, StatesLaw};
ghost use Rattle.loom_engine.specs.Covering.Table.{TableLaw};
ghost use Rattle.loom_engine.specs.Covering.Ways.{CanEndLaw, WaysLaw};

/// A complete check whose runs may be cut off at states that were noted has covered each run of the tree (own).
pub fn check_covers<A, K>()
    ensures { CheckLaw A K }
{}

/// Where each state that such a check has met has a way to an end, each run can reach one, limits aside (own).
pub fn ways_lead_to_ends<A, K>()
    ensures { WaysLaw A K }
{}

/// So the runs of other worlds that have the same states can end, by the same ways in each (own).
pub fn runs_can_end<A, K>()
    ensures { CanEndLaw A K }
{}

/// A run of such a check that fails is one of the tree (own).
pub fn cut_run_fails<A>()
    ensures { FailLaw A }
{}

/// A check that is stopped may be gone on with, without what was noted (own).
pub fn covers_join<A, K>()
    ensures { JoinedLaw A K }
{}

/// Runs with a table of the states that were noted are such a check (own).
pub fn table_makes_a_check<A, K>()
    ensures { TableLaw A K }
{}

/// A run goes through one tree and then another, each of which may be cut (own).
pub fn cut_then<A, B>()
    ensures { ThenLaw A B }
{}

/// Where what is seen of the machine's state tells the future, runs of a body in equal states have equal futures, limits aside (own).
pub fn equal_states_have_equal_futures<D, S, K, F>()
    ensures { StatesLaw D S K F }
{}

/// A complete check of a body whose runs may be cut off at states that were noted has covered each run of the body (own).
pub fn body_is_covered<D, S, K, F>()
    ensures { CoveredBodyLaw D S K F }
{}

/// The whole state of the machine tells the future of a run (own).
pub fn whole_state_tells_the_future<D>()
    ensures { WholeLaw D }
{}

/// Whose turn it is may be left out of a state where the search explores (own).
pub fn turn_may_be_left_out<D, K, F>()
    ensures { TurnLaw D K F }
{}

/// Where what is seen of points tells their moves, the state with that in place of the points tells the future (own).
pub fn sight_of_points_tells_the_future<D, V>()
    ensures { PointsLaw D V }
{}

/// How often threads have yielded may be left out of that where the search explores, of a body that never switches that (own).
pub fn yields_may_be_left_out<D, V>()
    ensures { YieldsLaw D V }
{}

/// The points themselves tell their moves: so there is something that can be seen of them and tells that (own).
pub fn points_tell_their_moves()
    ensures { ThemselvesLaw }
{}

/// What is seen of points, which is the order of the counts that are kept of them, tells their moves, too many versions aside (own).
pub fn sight_tells_their_moves()
    ensures { SightMovesLaw }
{}

/// A complete check of a body whose runs may be cut off at states of which the same is seen has covered each run of the body
/// (own).
pub fn body_is_covered_by_sight<D, S>()
    ensures { SeenBodyLaw D S }
{}

/// Where each state of such a check has a way to an end, the body's runs can end, limits aside (own).
pub fn body_can_end<D, S>()
    ensures { BodyEndsLaw D S }
{}

/// An operation that is begun goes on from its branch point to the whole event's outcome (own).
pub fn events_go_on_from_branch_points<D>()
    ensures { BeginningLaw D }
{}

/// Where a path drives through an operation up to its branch point, the choices that it passes lead there (own).
pub fn choices_lead_to_branch_points<D, S>()
    ensures { BegunLaw D S }
{}

/// What comes of an operation up to the next schedule is the operation up to its branch point, and what comes after that (own).
pub fn parts_begin_with_operations<D, S>()
    ensures { HandingLaw D S }
{}

/// Where a path drives through a schedule up to the next turn, the choices that it passes lead there (own).
pub fn choices_lead_to_turns<D, S>()
    ensures { ScheduleLaw D S }
{}

/// A path that drives through a tree keeps its nodes, and has one where the tree begins with a question (own).
pub fn paths_keep_nodes<A>()
    ensures { NodesLaw A }
{}

/// Where the same is kept of two runs that are at branch points, they are in the same state (own).
pub fn kept_tells_the_state<D, S>()
    ensures { KeptLaw D S }
{}

/// Of a covering search that is spread over parts each option was tried once no part is left, whatever cut off its runs (own).
pub fn spread_search_tries_all()
    ensures { SpreadLaw }
{}

/// So it has covered each run of the tree (own).
pub fn spread_search_covers<A, K>()
    ensures { SpreadCoversLaw A K }
{}

/// And each run of a body, where its runs are cut off at states of which the same is seen (own).
pub fn body_is_covered_by_parts<D, S>()
    ensures { SpreadBodyLaw D S }
{}
