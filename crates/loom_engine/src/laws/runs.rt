//! Laws of the runs of a body. The definitions are in `specs/Runs`: small bodies in `Examples.antt`, and what a reduced search
//! makes of some in `ReducedExamples.antt`.
ghost use Rattle.loom_engine.specs.Runs.Growth.{GrowthLaw};
ghost use Rattle.loom_engine.specs.Runs.Once.{MadeOnceLaw};
ghost use Rattle.loom_engine.specs.Runs.Received.{InOrderLaw};
ghost use Rattle.loom_engine.specs.Runs.ReducedExamples.{ReducedRowsLaw};
ghost use Rattle.loom_engine.specs.Runs.Examples.{RowsLaw, SharedRowsLaw};
ghost use Rattle.loom_engine.specs.Runs.Sound.{RunTreeLaw, ExploresLaw, UnchosenLaw};

/// The runs of each body are a tree with sound questions. It gives a value only where the run is over, and asks nothing
/// after that. No run fails because a path doesn't meet it.
pub fn runs_are_sound<D, S>()
    ensures { RunTreeLaw D S }
{}

/// The runs of a body that never switches whether the search explores do so at each node, where they begin so.
pub fn runs_explore_throughout<D, S>()
    ensures { ExploresLaw D S }
{}

/// After a schedule at which no thread can go on the runs of a body ask nothing.
pub fn runs_end_unchosen<D, S>()
    ensures { UnchosenLaw D S }
{}

/// An operation that needs no memory makes no thread and no object when it is handed over: there are as many of both after it,
/// so memory is refused to no operation but those that are said to need it.
pub fn memory_for_what_is_made<D>()
    ensures { GrowthLaw D }
{}

/// The messages that are received from a channel, in their order, are the first of those that were sent to it, up to where its
/// receiver is dropped: none is lost, made up, or received twice or out of order.
pub fn messages_are_received_in_order<D>()
    ensures { InOrderLaw D }
{}

/// A lazy value is made once a run: where a thread was told that it has made the value of a key, no later event of the history
/// makes one of that key.
pub fn lazy_values_are_made_once<D>()
    ensures { MadeOnceLaw D }
{}

/// Runs of small bodies end with main's value, with a deadlock, or with too many nodes or steps.
pub fn example_bodies()
    ensures { RowsLaw }
{}

/// Runs of small bodies that share an atomic or a thread's result: a load reads what it may, and nothing else, and a join
/// waits, once, for the result.
pub fn example_shared_bodies()
    ensures { SharedRowsLaw }
{}

/// A reduced search makes just these runs of small bodies, in this order, without a bound on preemptions or with one: where
/// accesses depend on each other, and aren't ordered, the other order is tried.
pub fn example_reduced_searches()
    ensures { ReducedRowsLaw }
{}
