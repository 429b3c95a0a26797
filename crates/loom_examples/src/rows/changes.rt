//! Settings that a command line names, which take the place of a row's own.
ghost use Rattle.std.specs.Prelude.{◌≡◌};
ghost use Rattle.loom_examples.specs.Rows.Changes.{changed};

use loom::model::builder::Builder;
use std::time::Duration;

/// What a command line says of a builder: None of a setting that it doesn't name.
#[derive(Clone, Copy, Debug)]
pub struct Changes {
    /// How many threads a run may have.
    pub max_threads: Option<usize>,
    /// How many nodes a run may have.
    pub max_branches: Option<usize>,
    /// How many operations the threads of a run may hand over.
    pub max_steps: Option<usize>,
    /// How many runs a check makes.
    pub max_permutations: Option<usize>,
    /// From what time on a check makes no further run.
    pub max_duration: Option<Duration>,
    /// Whether the search is reduced.
    pub reduce: Option<bool>,
    /// How many preemptions a run of a check may have.
    pub preemption_bound: Option<usize>,
    /// How many runs are made from one checkpoint to the next.
    pub checkpoint_interval: Option<usize>,
    /// Whether a run explores only from the operation `explore` on.
    pub expect_explicit_explore: Option<bool>,
    /// Whether a run of a covering check goes on from a copy of where an earlier one stood.
    pub snapshots: Option<bool>,
}

impl Changes {
    /// The builder with these settings in place of its own.
    pub fn change(self, builder: Builder) -> Builder
        ensures { result ≡ changed self builder }
    {
        Builder {
            max_threads: self.max_threads.unwrap_or(builder.max_threads),
            max_branches: self.max_branches.unwrap_or(builder.max_branches),
            max_steps: self.max_steps.unwrap_or(builder.max_steps),
            max_permutations: self.max_permutations.or(builder.max_permutations),
            max_duration: self.max_duration.or(builder.max_duration),
            reduce: self.reduce.unwrap_or(builder.reduce),
            preemption_bound: self.preemption_bound.or(builder.preemption_bound),
            checkpoint_interval: self
                .checkpoint_interval
                .unwrap_or(builder.checkpoint_interval),
            expect_explicit_explore: self
                .expect_explicit_explore
                .unwrap_or(builder.expect_explicit_explore),
            snapshots: self.snapshots.unwrap_or(builder.snapshots),
            ..builder
        }
    }
}
