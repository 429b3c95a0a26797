//! Cells, counted references and tracked values: what their rows print and find.
use super::finding::{Case, Shows};
use loom_examples::rows::{DEFAULTS, WHOLE};

/// The rows of these.
pub static CASES: [Case; 4] = [
    case!("arc_count", WHOLE, 1, "complete 1; t0 t0 t0 t0 t- = 7"),
    case!("arc_unwrap", WHOLE, 1, "complete 1; t0 t0 t- = 7"),
    // A swap writes the second cell, and a cell and itself are not written.
    case!("swap beside a write", DEFAULTS, 0, "failed 3 0 t1"),
    results!("swap with itself", WHOLE, "complete; 8"),
];
