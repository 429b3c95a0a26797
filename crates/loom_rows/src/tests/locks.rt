//! Locks, condition variables, notifiers and threads that wait: what their rows find.
use super::finding::{Case, Shows};
use loom_examples::rows::WHOLE;

/// The rows of these.
pub static CASES: [Case; 9] = [
    case!("rwlock_read_twice", WHOLE, 1, "complete 1; t0 t0 t- = 7"),
    case!(
        "rwlock_write_then_try_write",
        WHOLE,
        1,
        "complete 1; t0 t0 t- = 7"
    ),
    case!("unpark_then_park", WHOLE, 1, "complete 1; t- = 7"),
    case!(
        "notify_wait",
        WHOLE,
        2,
        "complete 2; t0 s0 t0 t- = 7; t0 s1 t0 t- = 7"
    ),
    case!(
        "yield_beside",
        WHOLE,
        2,
        "complete 2; t1 t1 t0 t- = 7; t1 t0 t1 t- = 7"
    ),
    // Main finds the number in every run.
    results!("mutex_into_inner", WHOLE, "complete; 2"),
    results!("condvar_hands_over", WHOLE, "complete; 7"),
    results!("notify_all", WHOLE, "complete; 7"),
    results!("unpark_wakes", WHOLE, "complete; 7"),
];
