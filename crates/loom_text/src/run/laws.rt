//! Laws of counted states. The contract of each function is a law. The definitions are in `specs/Run/Laws.antt`.
ghost use Rattle.loom_text.specs.Run.Laws.{CoveredLaw, EachRunLaw, NeverLaw, NotBeforeItselfLaw, OrderLaw, SharedRunLaw, StatesLaw};

/// The states are the results that the filter lets through, as far as they are shown, each with as many runs as had it.
pub fn states_are_results()
    ensures { StatesLaw }
{}

/// They are in order, each once, and each has a run.
pub fn states_are_in_order()
    ensures { OrderLaw }
{}

/// No state is shown before itself.
pub fn none_is_before_itself()
    ensures { NotBeforeItselfLaw }
{}

/// Where no result was counted as one that meets the condition, none that the filter lets through meets it.
pub fn never_is_never()
    ensures { NeverLaw }
{}

/// After a complete check of all runs the states are those of each run of the machine, none of which fails. Where none was counted
/// that meets the condition, no run of the machine ends with a state that counts and meets it.
pub fn states_are_of_all_runs()
    ensures { EachRunLaw }
{}

/// And so it is after such a check by several workers.
pub fn states_are_of_shared_runs()
    ensures { SharedRunLaw }
{}

/// Where runs cover each run of main, as those do of a complete check that remembers states, and their results were counted, the states
/// are those of each run of the machine, however many operations it may hand over, and a run that fails is too long. Where none was
/// counted that meets the condition, no run of the machine ends with a state that counts and meets it.
pub fn states_are_of_covered_runs()
    ensures { CoveredLaw }
{}
