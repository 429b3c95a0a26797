//! Wakers and places for them: what their rows find.
use super::finding::{Case, Shows};
use loom_examples::rows::{DEFAULTS, WHOLE};

/// The rows of these.
pub static CASES: [Case; 7] = [
    case!("ready_at_once", WHOLE, 1, "complete 1; t0 t- = 7"),
    case!(
        "waker_round",
        WHOLE,
        1,
        "complete 1; t0 t0 t0 t0 t0 t0 t- = 7"
    ),
    // Main polls three times at most, and is seen to do so.
    case!("spurious_poll", DEFAULTS, 0, "complete 35"),
    results!("spurious_poll", DEFAULTS, "complete; 1; 2; 3"),
    case!("waker_leak", DEFAULTS, 0, "failed 5 0 t0 t0 t-"),
    // A wait and a wake for whose waker none is left when they take effect.
    case!("wait_taken", DEFAULTS, 0, "failed 14 0 s0 t1 t1 t1 t1 t0"),
    case!("wake_dropped", DEFAULTS, 0, "failed 14 0 t0 t0 t0 t0"),
];
