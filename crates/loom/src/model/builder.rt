//! How a check is done: its settings, their defaults, and which values they may have.
ghost use Rattle.std.specs.Prelude.{◌≡◌, ◌≤◌, ◌<◌, Ok, OnOk, IfOk, IfErr, IfSome, Some, String, string_bytes};
ghost use Rattle.loom.specs.Model.Environment.{numbers_of, of_environment};
ghost use Rattle.loom.specs.Model.Settings.{defaults, tested, tested_bound};

use crate::model::env::{Env, EnvError, number_or, optional, seconds};
use crate::model::error::{CheckError, Variable};
use loom_engine::rt::path::MAX_BRANCHES;
use loom_views::rt::MAX_THREADS;
use std::alloc::{AllocError, Global};
use std::rt::Env as HostEnv;
use std::time::Duration;

/// How many nodes a run may have, by default (loom's `model::DEFAULT_MAX_BRANCHES`).
pub const DEFAULT_MAX_BRANCHES: usize = 1000;

/// How many operations the threads of a run may hand over, by default (own).
pub const DEFAULT_MAX_STEPS: usize = 1_000_000;

/// After how many runs a check saves its checkpoint again, by default (loom's `model::Builder::new`).
pub const DEFAULT_CHECKPOINT_INTERVAL: usize = 20_000;

/// How a check is done (loom's `model::Builder`).
#[derive(Debug, Drop)]
pub struct Builder {
    /// How many threads a run may have, main included: 1 to 5.
    pub max_threads: usize,
    /// How many nodes a run may have: 1 to 1,000,000.
    pub max_branches: usize,
    /// How many operations the threads of a run may hand over: at least 1.
    pub max_steps: usize,
    /// How many runs a check makes, if that is limited.
    pub max_permutations: Option<usize>,
    /// From what time on a check makes no further run, if that is limited. The clock tells the time.
    pub max_duration: Option<Duration>,
    /// How many different runs a walk tells apart, where it is to count them (own). It keeps a number of 64 bits of each.
    pub max_different: Option<usize>,
    /// Whether another thread is tried at a schedule only where an access calls for it (own: loom's search is always reduced).
    pub reduce: bool,
    /// How many times a run of a check, not a replay, may leave a thread that could have gone on, if that is bounded: 0 to 255.
    pub preemption_bound: Option<usize>,
    /// The file with which `check` begins, and in which it saves its checkpoints, if any.
    pub checkpoint_file: Option<String>,
    /// A check saves its checkpoint before each run whose number is a multiple of this: at least 1.
    pub checkpoint_interval: usize,
    /// Whether a run explores only from the operation `explore` on. At nodes before that it takes the default alone.
    pub expect_explicit_explore: bool,
    /// Whether a run of a covering check goes on from a copy of where an earlier one was, if the choices up to there are the same, and
    /// isn't made from its beginning. The check finds the same. The copies are those of one path, 100 at most. A check by several workers,
    /// and one of a part, makes none (own).
    pub snapshots: bool,
    /// Whether a failure has the place of its operation.
    pub location: bool,
    /// Whether it is logged which thread goes on.
    pub log: bool,
    /// Whether a check of a closure records it, and makes what is known without threads (own): see `runner::check_recorded`.
    pub recorded: bool,
}

impl Default for Builder {
    ghost is_default = { λ b. b ≡ defaults };

    fn default() -> Builder {
        Builder::new()
    }
}

impl Builder {
    /// The defaults: 5 threads, 1,000 branch points and 1,000,000 operations, in a reduced search without a bound or a limit,
    /// and a checkpoint every 20,000 runs. Nothing is recorded.
    pub fn new() -> Builder
        ensures { result ≡ defaults }
    {
        Builder {
            max_threads: MAX_THREADS,
            max_branches: DEFAULT_MAX_BRANCHES,
            max_steps: DEFAULT_MAX_STEPS,
            max_permutations: None,
            max_duration: None,
            max_different: None,
            reduce: true,
            preemption_bound: None,
            checkpoint_file: None,
            checkpoint_interval: DEFAULT_CHECKPOINT_INTERVAL,
            expect_explicit_explore: false,
            snapshots: false,
            location: false,
            log: false,
            recorded: false,
        }
    }

    /// The defaults, with what the variables of an environment say in their place. `NotANumber` where one that should be a
    /// number isn't. A check tests the ranges.
    pub fn from_env(env: Env) -> Result<Builder, CheckError>
        ensures { result ≡ of_environment env }
    {
        let said = Builder::numbers_of(&env)?;
        Ok(Builder {
            location: env.location.is_some(),
            log: env.log.is_some(),
            checkpoint_file: env.checkpoint_file,
            ..said
        })
    }

    /// `from_env` of the variables that the process has (loom's `Builder::new`). `NotRead` where one isn't UTF-8, or memory for it is
    /// refused, and `NotANumber` where `from_env` answers that.
    pub fn from_process<R: AllocGlobal + HostEnv>(rt: &R) -> Result<Builder, EnvError>
        ensures { IfOk result (λ builder. (env : Env) × (of_environment env ≡ Ok builder)) }
    {
        let env = Env::of_process(rt)?;
        let builder = Builder::from_env(env)?;
        Ok(builder)
    }

    /// The defaults, with the numbers that the variables say.
    fn numbers_of(env: &Env) -> Result<Builder, CheckError>
        ensures { result ≡ numbers_of env.now }
    {
        let max_branches = number_or(
            Variable::MaxBranches,
            &env.max_branches,
            DEFAULT_MAX_BRANCHES,
        )?;
        let max_permutations = optional(Variable::MaxPermutations, &env.max_permutations)?;
        let max_duration = seconds(&env.max_duration)?;
        let preemption_bound = optional(Variable::MaxPreemptions, &env.max_preemptions)?;
        let checkpoint_interval = number_or(
            Variable::CheckpointInterval,
            &env.checkpoint_interval,
            DEFAULT_CHECKPOINT_INTERVAL,
        )?;
        Ok(Builder {
            max_branches,
            max_permutations,
            max_duration,
            preemption_bound,
            checkpoint_interval,
            ..Builder::new()
        })
    }

    /// The file with which `check` begins, and in which it saves its checkpoints. Where memory for the name is refused the
    /// builder stays as it was.
    pub fn checkpoint_file(&mut self, alloc: Global, file: &str) -> Result<(), AllocError>
        ensures named { IfOk result (λ _. (name : String Global) × (string_bytes name ≡ file.now) × (self.new ≡ record self.old { checkpoint_file = Some name })) }
        ensures same { IfErr result (λ _. self.new ≡ self.old) }
    {
        self.checkpoint_file = Some(String::from_str(alloc, file)?);
        Ok(())
    }

    /// Tests whether each setting is in its range, and names the first one that isn't (own; a check does it by itself).
    pub fn test(&self) -> Result<(), CheckError>
        ensures tested { result ≡ tested self.now }
        ensures some { OnOk result (1 ≤ self.now.max_threads) }
        ensures few { OnOk result (self.now.max_threads ≤ 5) }
        ensures branches { OnOk result (self.now.max_branches ≤ 1000000) }
        ensures bound { OnOk result (IfSome self.now.preemption_bound (λ bound. bound ≤ 255)) }
        ensures interval { OnOk result (0 < self.now.checkpoint_interval) }
    {
        if self.max_threads < 1 || self.max_threads > MAX_THREADS {
            return Err(CheckError::MaxThreads(self.max_threads));
        }
        if self.max_branches < 1 || self.max_branches > MAX_BRANCHES as usize {
            return Err(CheckError::MaxBranches(self.max_branches));
        }
        test_bound(self.preemption_bound)?;
        if self.checkpoint_interval < 1 {
            return Err(CheckError::CheckpointInterval);
        }
        if self.max_steps < 1 {
            return Err(CheckError::MaxSteps);
        }
        Ok(())
    }
}

/// A bound, if there is one, is 255 at most.
fn test_bound(bound: Option<usize>) -> Result<(), CheckError>
    ensures tested { result ≡ tested_bound bound }
    ensures within { OnOk result (IfSome bound (λ most. most ≤ 255)) }
{
    match bound {
        Some(bound) if bound > 255 => Err(CheckError::PreemptionBound(bound)),
        _ => Ok(()),
    }
}
