//! Laws of a bound on preemptions: which runs a search that isn't reduced makes with one, said of each run by itself. So what
//! complete checks with rising bounds leave out is known. The contract of each function is a law. The definitions are in
//! `specs/Model/Called.antt` for any machine, in `specs/Model/Within.antt` for trees of runs, and in `specs/Model/BoundExample.antt`.
ghost use Rattle.loom.specs.Model.Called.{CalledRunsLaw};
ghost use Rattle.loom.specs.Model.BoundExample.{ExampleLaw};
ghost use Rattle.loom.specs.Model.Within.{NoFailureLaw, RisingLaw, WithinLaw};

/// In a search that isn't reduced a run is reachable just where it passes over defaults only at nodes that explore, and of
/// which each option is to be tried.
pub fn called_runs()
    ensures { CalledRunsLaw }
{}

/// With a bound on preemptions these are the runs in which every choice that isn't a default is made where the run explores,
/// and at a schedule only if that counts fewer preemptions than the bound.
pub fn runs_within<A>()
    ensures { WithinLaw A }
{}

/// Where no reachable run of such a search fails, as after a complete check, none of these does.
pub fn none_within_fails<A>()
    ensures { NoFailureLaw A }
{}

/// A run that is reachable with a bound is so with each higher one.
pub fn bounds_rise<A>()
    ensures { RisingLaw A }
{}

/// A run may count no preemption, and be made only with a bound of 1: where the thread at hand waits, another than the
/// default is no preemption, and yet is tried only below the bound.
pub fn example_bounds()
    ensures { ExampleLaw }
{}
