//! How a row is checked, and the builder that checks it.
ghost use Rattle.std.specs.Prelude.{◌≡◌, IfOk, option_copied};
ghost use Rattle.loom_examples.specs.Rows.Builder.{IsBuilder, builder_of};

use loom::model::builder::Builder;
use std::alloc::{AllocError, Global};

/// The settings that rows have of a builder. Whatever else it has is as a builder begins with.
#[derive(Clone, Copy, Debug)]
pub struct Settings {
    /// How many threads a run may have, main included.
    pub max_threads: usize,
    /// How many nodes a run may have.
    pub max_branches: usize,
    /// How many operations the threads of a run may hand over.
    pub max_steps: usize,
    /// How many runs a check makes, if that is limited.
    pub max_permutations: Option<usize>,
    /// Whether the search is reduced.
    pub reduce: bool,
    /// How many preemptions a run of a check may have, if that is bounded.
    pub preemption_bound: Option<usize>,
    /// Whether a run explores only from the operation `explore` on.
    pub expect_explicit_explore: bool,
}

/// Settings of which a builder is made.
pub trait Builds {
    /// The builder of these settings.
    fn builder(self) -> Builder;

    /// The builder of these settings, with the checkpoint file of this name, if one is given.
    fn builder_with(self, alloc: Global, file: Option<&str>) -> Result<Builder, AllocError>;
}

impl Builds for Settings {
    fn builder(self) -> Builder
        ensures { result ≡ builder_of self }
    {
        Builder {
            max_threads: self.max_threads,
            max_branches: self.max_branches,
            max_steps: self.max_steps,
            max_permutations: self.max_permutations,
            reduce: self.reduce,
            preemption_bound: self.preemption_bound,
            expect_explicit_explore: self.expect_explicit_explore,
            ..Builder::new()
        }
    }

    fn builder_with(self, alloc: Global, file: Option<&str>) -> Result<Builder, AllocError>
        ensures { IfOk result (IsBuilder self (option_copied file.entry)) }
    {
        let mut builder = self.builder();
        if let Some(file) = file {
            builder.checkpoint_file(alloc, file)?;
        }
        Ok(builder)
    }
}
