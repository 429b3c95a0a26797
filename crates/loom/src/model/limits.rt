//! How many runs a check makes at most, and what its log hears of them.
ghost use Rattle.std.specs.Prelude.{◌≡◌};
ghost use Rattle.std.specs.Option.{unwrap_or};
ghost use Rattle.loom_views.specs.Limits.{highest_count};

use log::{Log, info, target_or};

/// How many runs a check makes at most.
pub(crate) fn most_runs(max_permutations: Option<usize>) -> u64
    ensures { result ≡ unwrap_or max_permutations highest_count }
{
    match max_permutations {
        Some(most) => most as u64,
        None => u64::MAX,
    }
}

/// Logs a number of runs between these words, under the name of the loop (loom's `model.rs`).
pub fn log_runs<L: Log>(log: &L, before: &str, runs: u64, behind: &str) {
    info!(log; target: target_or(log, "loom::search"), "{}{}{}", before, runs, behind);
}
