//! Runs that don't explore everywhere: what their rows find.
use super::finding::{Case, Shows};
use loom_examples::rows::{DEFAULTS, EXPLICIT, WHOLE};

// The one run that is made without exploring.
const DEFAULT_RUN: &str = "complete 1; t0 t1 t1 t- = 7";

/// The rows of these.
pub static CASES: [Case; 5] = [
    case!("stop_exploring", WHOLE, 1, DEFAULT_RUN),
    case!("skip_branch", WHOLE, 1, DEFAULT_RUN),
    case!("lock_beside", EXPLICIT, 1, DEFAULT_RUN),
    // Each run is made once main explores.
    case!(
        "explore_first",
        EXPLICIT,
        3,
        "complete 3; t0 t1 t1 t- = 7; t1 t1 t0 t- = 7; t1 t0 t1 t- = 7"
    ),
    case!("stop_exploring_twice", DEFAULTS, 0, "failed 19 0"),
];
