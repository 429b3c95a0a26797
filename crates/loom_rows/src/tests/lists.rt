//! The exact runs of small bodies.
use super::finding::{Case, Shows};
use loom_examples::rows::WHOLE;

/// The rows of these.
pub static CASES: [Case; 7] = [
    case!("finish_only", WHOLE, 1, "complete 1; t- = 7"),
    case!("spawn_only", WHOLE, 1, "complete 1; t1 t1 t- = 7"),
    // One thread loads what it stored last.
    case!(
        "store_seven",
        WHOLE,
        1,
        "complete 1; t0 t0 t0 t0 t0 t0 t0 t0 l0 t- = 7"
    ),
    // Exchanges read the newest store.
    case!(
        "compare_exchange",
        WHOLE,
        1,
        "complete 1; t0 l0 t0 l0 t0 l1 t- = 13209405719799650717"
    ),
    case!(
        "fetch_update_once",
        WHOLE,
        1,
        "complete 1; t0 l0 t0 l0 t0 l1 t0 l1 t- = 13209405719799650717"
    ),
    // The default comes first.
    case!(
        "lock_beside",
        WHOLE,
        3,
        "complete 3; t0 t1 t1 t- = 7; t1 t1 t0 t- = 7; t1 t0 t1 t- = 7"
    ),
    case!(
        "load_beside",
        WHOLE,
        6,
        "complete 6; t0 l0 t1 t1 t1 t- = 0; t1 t1 t1 t0 l0 t- = 0; t1 t1 t1 t0 l1 t- = 1; t1 t1 t0 l0 t1 t- = 0; t1 t1 t0 l1 t1 t- = 1; t1 t0 l0 t1 t1 t- = 0"
    ),
];
