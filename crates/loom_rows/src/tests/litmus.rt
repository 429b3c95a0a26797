//! Which results main may have.
use super::finding::{Case, Shows};
use loom_examples::rows::WHOLE;
use loom_examples::rows::settings::Settings;

const TWO_PREEMPTIONS: Settings = Settings {
    preemption_bound: Some(2),
    ..WHOLE
};

/// The rows of these.
pub static CASES: [Case; 6] = [
    // Both threads may miss the stores.
    results!("store_buffering", WHOLE, "complete; 0; 1; 10; 11"),
    // With fences no two threads miss the stores.
    results!("sb_fences", WHOLE, "complete; 1; 10; 11"),
    // No two threads add to the same number.
    results!("fetch_add_atomic", WHOLE, "complete; 1; 10"),
    // Nor after stores and a load: they aren't 1 and 1.
    results!(
        "two_rmw",
        TWO_PREEMPTIONS,
        "complete; 12; 21; 101; 111; 120"
    ),
    // No load is of a later store.
    results!("load_buffering", WHOLE, "complete; 0"),
    // What is released is acquired.
    results!("check_ordering_valid", WHOLE, "complete; 0; 11"),
];
