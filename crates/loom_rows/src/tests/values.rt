//! Threads' own values, and values that are made once a run: what their rows find.
use super::finding::{Case, Shows};
use loom_examples::rows::{DEFAULTS, WHOLE};

/// The rows of these.
pub static CASES: [Case; 6] = [
    case!("lazy_once", WHOLE, 1, "complete 1; t- = 5"),
    case!("local_order", WHOLE, 1, "complete 1; t- = 7"),
    case!("local_access_error", WHOLE, 1, "complete 1; t- = 7"),
    case!("lazy_late", DEFAULTS, 0, "failed 17 0 t1"),
    case!("local_twice", DEFAULTS, 0, "failed 22 0"),
    case!("local_gone", DEFAULTS, 0, "failed 18 0"),
];
