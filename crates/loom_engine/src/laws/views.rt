//! The laws of views over every history: what is proved of moves of points holds of runs. The definitions are in
//! `specs/Runs/Views.antt`, and in `specs/Runs/Loads.antt` and `specs/Runs/Stores.antt` for what is loaded and stored.
ghost use Rattle.loom_engine.specs.Runs.Loads.{LoadLaw};
ghost use Rattle.loom_engine.specs.Runs.Stores.{MutationLaw, StoresLaw};
ghost use Rattle.loom_engine.specs.Runs.Views.{AtomicReachingLaw, CellReachingLaw, GlobalPointLaw, MovesLaw};

/// Moves lead to the points of each state in which a history may leave the machine, and by each event from those before it to
/// those after it (own).
pub fn events_move_points<D>()
    ensures { MovesLaw D }
{}

/// Only an event whose operation is a sequentially consistent fence moves the global point (own).
pub fn only_sequentially_consistent_fences_move_the_global_point<D>()
    ensures { GlobalPointLaw D }
{}

/// From where a point is recorded of an atomic's load or store, also of one of a read-modify-write, its view is inside that of a
/// point just where it reaches that point, in this state of the history and in each later one (own).
pub fn loads_and_stores_are_known_by_reaching<D>()
    ensures { AtomicReachingLaw D }
{}

/// From where an access of a cell begins, the view of the point that is recorded of it is inside that of a point just where it
/// reaches that point, in this state of the history and in each later one (own).
pub fn begun_cell_accesses_are_known_by_reaching<D>()
    ensures { CellReachingLaw D }
{}

/// Where a thread hands over a load, and its next turn tells it a value, that is the value of one of the last seven stores of the
/// atomic, as it is by then: a `with_mut` may have changed it (own).
pub fn loads_are_told_one_of_the_last_stores<D>()
    ensures { LoadLaw D }
{}

/// The values of an atomic's stores are those that were there before an event, in their order, and then what the access stores of
/// which a thread is told by the event: nothing, or the one value of a store or of a read-modify-write. So it is but where the event
/// makes an atomic, or ends a mutation, which puts a value in the place of the newest (own).
pub fn stores_are_what_accesses_store<D>()
    ensures { StoresLaw D }
{}

/// The end of a `with_mut` puts its value in the place of the newest of its atomic's stores, and leaves the values of all other
/// stores as they were (own).
pub fn mutations_change_the_newest_store<D>()
    ensures { MutationLaw D }
{}
