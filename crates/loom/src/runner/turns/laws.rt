//! Laws of runs one after another, of which only the histories are known. The definitions are in `specs/Runner/Chains.antt`,
//! what is known of such runs in `specs/Runner/Laws.antt`.
ghost use Rattle.loom.specs.Runner.Laws.{AlternativesLaw, FailureLaw, OnceLaw};

/// No list of choices comes twice.
pub fn no_list_comes_twice<D>()
    ensures { OnceLaw D }
{}

/// Where nothing is left to try, each alternative that a run calls for was tried.
pub fn alternatives_are_made<D>()
    ensures { AlternativesLaw D }
{}

/// A run fails as not deterministic only where its history doesn't meet the path with which it began, and so never as the first one;
/// any other failure comes again by its choices.
pub fn failures_are_its_own<D>()
    ensures { FailureLaw D }
{}
