//! Checks with rising bounds on preemptions, and what is proved of the runs that they leave out.
ghost use Rattle.std.specs.Prelude.{◌≡◌, ◌⊎◌, Err, IfOk, IfErr};
ghost use Rattle.loom_engine.specs.Runs.Body.{runs as runs_of};
ghost use Rattle.loom.specs.Model.Rising.{NoFailureLaw, RisesTo, bounded, is_complete};
ghost use Rattle.loom.specs.Model.Check.{ReportsAlone};
ghost use Rattle.loom.specs.Model.Settings.{explores, tested};

use crate::checkpoint::memory::MemoryStore;
use crate::model::builder::Builder;
use crate::model::error::CheckError;
use crate::model::report::Report;
use loom_objects::body::Body;
use std::alloc::Global;

/// What a check with rising bounds found.
#[derive(Debug, PartialEq, Eq, Drop)]
pub struct Risen {
    /// The bound on preemptions of the last check. The checks with lower bounds were complete.
    pub bound: usize,
    /// What the last check found.
    pub report: Report,
}

impl Report {
    /// Whether every run was made that was to be made, and none failed.
    pub fn is_complete(&self) -> bool
        ensures { result ≡ is_complete self.now }
    {
        match self {
            Report::Complete { .. } => true,
            Report::Stopped { .. } | Report::Failed { .. } => false,
        }
    }
}

impl Builder {
    /// Few preemptions first: checks with a bound of 0 preemptions, then of 1, 2 and so on up to `up_to`, which is 0 to 255, as
    /// long as each check is complete. So a failure is found in a run that leaves few threads that could have gone on.
    ///
    /// Nobody is given the runs. The builder's own bound isn't used, nor is its file; its limits hold of each check by itself.
    /// Where one was stopped, `check_with` goes on with the report's text and that bound.
    ///
    /// `PreemptionBound` where `up_to` is above 255; other settings are refused as `check` does, before any run. Besides, only
    /// `Memory` comes, where a growth was refused.
    pub fn check_rising<B: Body>(
        &self,
        alloc: Global,
        body: &B,
        up_to: usize,
    ) -> Result<Risen, CheckError>
        ensures rises { IfOk result (RisesTo self.now (runs_of B.next (explores self.now) self.now.max_threads self.now.max_steps body.now) up_to) }
        ensures refused { IfErr (tested (bounded self.now up_to)) (λ e. result ≡ Err e) }
        ensures errors { IfErr result (λ e. (e ≡ CheckError.Memory) ⊎ (tested (bounded self.now up_to) ≡ Err e)) }
    {
        self.with_bound(up_to).test()?;
        let mut bound = 0;
        loop {
            let report = self.check_bounded(alloc, body, bound)?;
            if bound >= up_to || !report.is_complete() {
                return Ok(Risen { bound, report });
            }
            bound += 1;
        }
    }

    /// A check with this bound, and without a file.
    fn check_bounded<B: Body>(
        &self,
        alloc: Global,
        body: &B,
        bound: usize,
    ) -> Result<Report, CheckError>
        ensures reports { IfOk result (ReportsAlone (bounded self.now bound) (runs_of B.next (explores self.now) self.now.max_threads self.now.max_steps body.now)) }
        ensures errors { IfErr result (λ e. (e ≡ CheckError.Memory) ⊎ (tested (bounded self.now bound) ≡ Err e)) }
    {
        self.with_bound(bound)
            .check_alone(alloc, body, &mut None::<MemoryStore>)
    }

    /// These settings, but with this bound, and without a file.
    pub(crate) fn with_bound(&self, bound: usize) -> Builder
        ensures { result ≡ bounded self.now bound }
    {
        Builder {
            max_threads: self.max_threads,
            max_branches: self.max_branches,
            max_steps: self.max_steps,
            max_permutations: self.max_permutations,
            max_duration: self.max_duration,
            max_different: self.max_different,
            reduce: self.reduce,
            preemption_bound: Some(bound),
            checkpoint_file: None,
            checkpoint_interval: self.checkpoint_interval,
            expect_explicit_explore: self.expect_explicit_explore,
            snapshots: self.snapshots,
            location: self.location,
            log: self.log,
            recorded: self.recorded,
        }
    }
}

/// Where a check that isn't reduced is complete with a bound, no run fails in which every choice that isn't a default is made where
/// the run explores, and at a schedule only if that counts fewer preemptions than the bound.
pub fn none_within_fails<D>()
    ensures { NoFailureLaw D }
{}
