//! The laws of an atomic's orders, over every history whose choices are options. The definitions are in `specs/Runs/Orders.antt`.
ghost use Rattle.loom_engine.specs.Runs.Orders.{OnceLaw, OrdersLaw, ReadableMovesLaw, SlotLaw, UnequalLaw, UnequalRunsLaw};

/// Moves that read what may be read lead to the points of each state in which such a history may leave the machine, and by each
/// event from those before it to those after it (own).
pub fn events_read_what_may_be_read<D>()
    ensures { ReadableMovesLaw D }
{}

/// In each such state the orders of an atomic's kept stores differ: of no two is each one's inside the other's (own).
pub fn orders_of_kept_stores_differ<D>()
    ensures { OrdersLaw D }
{}

/// So no operation that is handed over in such a state fails with `OrdersEqual`, by whichever options (own).
pub fn no_operation_meets_equal_orders<D>()
    ensures { UnequalLaw D }
{}

/// No run of a body fails with `OrdersEqual` (own).
pub fn no_run_meets_equal_orders<D, S>()
    ensures { UnequalRunsLaw D S }
{}

/// In each such state a thread that has raised its version has a slot of each atomic to choose (own).
pub fn some_slot_is_always_offered<D>()
    ensures { SlotLaw D }
{}

/// No two read-modify-writes of an atomic that succeed in a run have read the same store: where two events of such a history tell of
/// them, the stores have different numbers (own).
pub fn no_store_is_updated_twice<D>()
    ensures { OnceLaw D }
{}
