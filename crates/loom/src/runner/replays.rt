//! One run of closures, by given choices.
ghost use Rattle.std.specs.Prelude.{◌≡◌, ◌≤◌, Err, IfErr, IfOk};
ghost use Rattle.std.specs.Fn.{CalledAtMut};
ghost use Rattle.loom.specs.Model.Settings.{tested};
ghost use Rattle.loom.specs.declared.runner.error.RunnerError.TheVariants.{Settings};
ghost use Rattle.loom_engine.specs.Path.Route.{IsAtStart};
ghost use Rattle.loom.specs.Runner.Refusals.{IsNoReplay, IsNoReplayAlong};
ghost use Rattle.loom.specs.Runner.Replay.{HasKept, Replays, ReplaysAlong};

use crate::model::Replay;
use crate::model::builder::Builder;
use crate::model::visitor::Visitor;
use crate::runner::error::RunnerError;
use crate::runner::exact::Exact;
use crate::runner::handle::Handle;
use crate::runner::run::make_run;
use crate::runner::run_end::RunEnd;
use crate::runner::stop::Stop;
use loom_engine::rt::execution::Limits;
use loom_engine::rt::path::Path;
use loom_objects::choice::Choice;
use std::alloc::{AllocError, Global};
use std::sync::Wait;
use std::thread::Threads;

/// Keeps the last run that it is given.
#[derive(Drop)]
pub(crate) struct Keeper<D> {
    alloc: Global,
    run: Option<(Vec<Choice>, D)>,
}

impl<D: Drop> Visitor<D> for Keeper<D> {
    ghost takes = { λ old choices value new. HasKept choices value new.run };

    fn run(&mut self, choices: &[Choice], value: D) -> Result<(), AllocError>
        ensures { IfOk result (λ _. HasKept choices.now value self.new.run) }
    {
        self.run = Some((choices.to_vec(self.alloc)?, value));
        Ok(())
    }
}

/// One run of the closure, which follows these choices and then takes defaults (own; for bodies it is `Builder::replay`). So the
/// choices of a failure make it again. A choice that is no option where it comes, or that is left over at the run's end, ends the
/// run as `NotDeterministic`. Errors are those of `check`.
pub fn replay<
    D: Exact + 'static,
    R: Threads + Wait + Clone + Send + 'static,
    F: FnMut(&mut Handle<D, R>) -> Result<D, Stop>,
>(
    rt: &R,
    alloc: Global,
    builder: &Builder,
    choices: &[Choice],
    mut closure: F,
) -> Result<Replay<D>, RunnerError>
    requires { F.IsAlwaysCallable closure }
    ensures replays { IfOk result (Replays (CalledAtMut F.FnMut) builder.now choices.now closure) }
    ensures refused { IfErr (tested builder.now) (λ e. result ≡ Err (Settings e)) }
    ensures errors { IfErr result (IsNoReplay (CalledAtMut F.FnMut) builder.now choices.now closure) }
{
    builder.test()?;
    let limits = Limits {
        max_threads: builder.max_threads,
        max_steps: builder.max_steps,
    };
    let explores = !builder.expect_explicit_explore;
    let branches = builder.max_branches as u32;
    let Ok(path) = Path::following(alloc, explores, branches, choices) else {
        return Err(RunnerError::Memory);
    };
    let mut keeper = Keeper { alloc, run: None };
    make_replay(rt, alloc, limits, &path, &mut closure, &mut keeper)
}

/// One run of the closure along this path. It has several exits and owns nothing, since what a function owns is let go at each.
fn make_replay<
    D: Exact + 'static,
    R: Threads + Wait + Clone + Send + 'static,
    F: FnMut(&mut Handle<D, R>) -> Result<D, Stop>,
>(
    rt: &R,
    alloc: Global,
    limits: Limits,
    path: &Path,
    closure: &mut F,
    keeper: &mut Keeper<D>,
) -> Result<Replay<D>, RunnerError>
    requires some { 1 ≤ limits.max_threads }
    requires few { limits.max_threads ≤ 5 }
    requires starts { IsAtStart path.now.explores path.now }
    requires callable { F.IsAlwaysCallable closure.old }
    ensures replays { IfOk result (ReplaysAlong (CalledAtMut F.FnMut) limits path.now closure.old) }
    ensures errors { IfErr result (IsNoReplayAlong (CalledAtMut F.FnMut) limits path.now closure.old) }
{
    match make_run(rt, alloc, limits, path, closure, keeper)? {
        RunEnd::Failed(failure, choices) => Ok(Replay::Failed { failure, choices }),
        RunEnd::Ended(_) => match keeper.run.take() {
            Some((choices, value)) => Ok(Replay::Ended { choices, value }),
            None => Err(RunnerError::NotSettled),
        },
    }
}
