//! Laws of views, of the vectors that show them, and of the choice of a store: that the definitions mean what one expects of a
//! memory model. A law is the contract of a function that does nothing; it is stated in `specs/Laws`.
ghost use Rattle.loom_views.specs.Laws.Ends.{EndLaw};
ghost use Rattle.loom_views.specs.Laws.Examples.{ExampleLaw};
ghost use Rattle.loom_views.specs.Laws.Kept.{KeepingLaw, SlotsStayLaw};
ghost use Rattle.loom_views.specs.Laws.Reaching.{StayingLaw, BeginningLaw, UnreachedLaw};
ghost use Rattle.loom_views.specs.Laws.Moves.{AddingLaw, RecordedLaw, BesideLaw, OrderLaw};
ghost use Rattle.loom_views.specs.Laws.Orders.{ApartLaw, NeverEqualLaw, ChoosingLaw, OnceLaw};
ghost use Rattle.loom_views.specs.Laws.Sight.{ShownLaw, SightLaw};
ghost use Rattle.loom_views.specs.Laws.Views.{PastLaw, ReachingLaw, CountLaw, ComparingLaw, EqualLaw, StandingLaw, ReadableLaw, OfferingLaw, LoadingLaw, UpdatingLaw, RacingLaw, FencingLaw, MovesAsAcqRel, GlobalLaw};

/// That a chain of edges leads from one point to another can be found by one sweep from the newest point down (own).
pub fn past_is_reaching()
    ensures { PastLaw }
{}

/// A point that raises a version has its view inside another point's just where it reaches that point. So a view is known by
/// its raising points (own).
pub fn view_is_reaching()
    ensures { ReachingLaw }
{}

/// A vector that shows a point counts, for each thread, the raising points of that thread that reach the point (own).
pub fn versions_count_raising_points()
    ensures { CountLaw }
{}

/// Two vectors that show points of one graph are compared as the views of these points are, where the raising points of each
/// thread form a chain (own).
pub fn vectors_compare_as_views()
    ensures { ComparingLaw }
{}

/// Vectors that are equal by `==` have the same counts (own).
pub fn equal_vectors_are_same()
    ensures { EqualLaw }
{}

/// A vector that shows a point goes on showing it when points are added (own).
pub fn points_stay_shown()
    ensures { StandingLaw }
{}

/// Where an atomic has a store, a reader has a slot to choose; `readable` answers slots, or `OrdersEqual` (own).
pub fn some_slot_is_readable()
    ensures { ReadableLaw }
{}

/// Of what is kept of a run, a choice of slots always offers one, unless it fails: each atomic has a store (own).
pub fn some_slot_is_offered()
    ensures { OfferingLaw }
{}

/// In each slot that a choice offers a store is kept, so it may be loaded from (own).
pub fn offered_slots_are_kept()
    ensures { KeepingLaw }
{}

/// A load from a slot in which a store is kept answers the value of one of the last seven stores of its atomic (own).
pub fn loads_read_kept_stores()
    ensures { LoadingLaw }
{}

/// A read-modify-write that reads a slot in which a store is kept answers the value of one of the last seven stores of its
/// atomic (own).
pub fn updates_read_kept_stores()
    ensures { UpdatingLaw }
{}

/// A slot in which a store is kept has one still once a read-modify-write has read it, so the same read-modify-write may write
/// to it or end at it (own).
pub fn reading_keeps_slots()
    ensures { SlotsStayLaw }
{}

/// A read of a cell is a data race just where some write of it hasn't come to the thread, and a write just where some write or
/// read hasn't (own).
pub fn accesses_out_of_view_race()
    ensures { RacingLaw }
{}

/// In its graph and in each later one, a point that raises a version has its view inside another's just where it reaches that
/// point (own).
pub fn raising_points_are_known_by_reaching()
    ensures { StayingLaw }
{}

/// Where a thread has raised, the point that this made is what is recorded of the access that it begins: of a read or a write of
/// a cell, and of a load, a store or a read-modify-write of an atomic (own).
pub fn accesses_begin_at_raising_points()
    ensures { BeginningLaw }
{}

/// A read of a cell is a data race just where some write of it hasn't come to the thread, and a write just where some write or
/// read hasn't. A recorded point that raises, as that of a begin, has come to a point just where it reaches it. Any other, as that
/// of an end or of the cell's making, has come where its view is inside (own).
pub fn accesses_race_where_unreached()
    ensures { UnreachedLaw }
{}

/// Moves take no point away and forget no access that is recorded (own).
pub fn moves_keep_points_and_records()
    ensures { AddingLaw }
{}

/// In a run each point that is recorded of an atomic's load or store raises, also those of a read-modify-write (own).
pub fn recorded_loads_and_stores_raise()
    ensures { RecordedLaw }
{}

/// In a run an `unsync_load` is a data race just where some store doesn't reach the thread's present point, or the view of some
/// mutation isn't inside its view. A `with_mut` is one just where that is so, or some load doesn't reach it, or the view of some
/// `unsync_load` isn't inside (own).
pub fn unsynchronized_accesses_race_where_unreached()
    ensures { BesideLaw }
{}

/// Where an access is recorded at a point that raises, that point reaches each later access that conflicts with it and passes,
/// whatever moves come between (own).
pub fn raising_accesses_reach_later_ones()
    ensures { OrderLaw }
{}

/// In a run in which each load and read-modify-write reads what it may, the orders of an atomic's kept stores differ: of no two is
/// each one's inside the other's (own).
pub fn orders_of_kept_stores_differ()
    ensures { ApartLaw }
{}

/// So in such a run no choice of a slot meets equal orders: it is never `OrdersEqual` (own).
pub fn choices_never_meet_equal_orders()
    ensures { NeverEqualLaw }
{}

/// In such a run a thread that has raised its version has a slot of each atomic to choose (own).
pub fn some_slot_is_always_offered()
    ensures { ChoosingLaw }
{}

/// In such a run no two read-modify-writes of an atomic that succeed read the same store (own).
pub fn no_store_is_updated_twice()
    ensures { OnceLaw }
{}

/// Of the end of a read only containment is said: in a small history its point doesn't reach the point of another thread's write,
/// which passes, since its view is inside (own).
pub fn ends_may_pass_unreached()
    ensures { EndLaw }
{}

/// A sequentially consistent fence brings its thread what the earlier ones left at the global point, and leaves there what has
/// come to the thread (own).
pub fn fences_meet_at_the_global_point()
    ensures { FencingLaw }
{}

/// Once its slot is chosen, a sequentially consistent load, and the failing end of a read-modify-write, leads to the very points
/// that the same by `AcqRel` leads to. A store, and the write of a read-modify-write, does so but for the mark of the store that
/// it makes. Which slots a load may choose does depend on it (own).
pub fn sequentially_consistent_accesses_move_as_acq_rel()
    ensures { MovesAsAcqRel }
{}

/// Each move of a run leaves the global point where it was, but for a sequentially consistent fence, whose last step meets there
/// (own).
pub fn only_sequentially_consistent_fences_move_the_global_point()
    ensures { GlobalLaw }
{}

/// In small histories of one atomic: a thread that stored alone may load its last value only, also once slots are used again,
/// and beside another thread's store it may load either value (own).
pub fn example_histories()
    ensures { ExampleLaw }
{}

/// Where the same is seen of two runs' points, each move answers the same, and the same is seen of the points that it leads to. But a
/// thread may have raised its version too often in one of them alone (own).
pub fn sight_tells_moves()
    ensures { SightLaw }
{}

/// What is kept of a run says what is seen of its points, by the order of its counts alone (own).
pub fn views_say_what_is_seen()
    ensures { ShownLaw }
{}
