//! What happened in one run of closures, by given choices.
ghost use Rattle.std.specs.Prelude.{◌≡◌, ◌≤◌, Err, IfErr, IfOk};
ghost use Rattle.std.specs.Fn.{CalledAtMut};
ghost use Rattle.loom.specs.Model.Settings.{tested};
ghost use Rattle.loom.specs.declared.runner.error.RunnerError.TheVariants.{Settings};
ghost use Rattle.loom_engine.specs.Path.Route.{IsAtStart};
ghost use Rattle.loom.specs.Runner.Explained.{Explains, ExplainsAlong, IsEndOf, IsSettledAndTold, IsToldOf};
ghost use Rattle.loom.specs.Runner.Refusals.{IsNoReplay, IsNoReplayAlong, IsNotTold, IsOpenOrRefused};

use crate::explain::events::telling::Told as ToldRun;
use crate::explain::{End, Explanation};
use crate::model::builder::Builder;
use crate::runner::error::{RunnerError, error_by};
use crate::runner::exact::Exact;
use crate::runner::handle::Handle;
use crate::runner::history::telling::{told_events, told_values};
use crate::runner::history::told::Told;
use crate::runner::run::call_closure;
use crate::runner::shared::share;
use crate::runner::stop::Stop;
use crate::runner::turns::Turns;
use loom_engine::rt::execution::Limits;
use loom_engine::rt::path::Path;
use loom_objects::choice::Choice;
use std::alloc::{AllocError, Global};
use std::sync::Wait;
use std::thread::Threads;

/// The run of the closure that `replay` makes of these choices, explained by its history (own; for bodies it is
/// `Builder::explain`): each reply and operation of each thread, in order, where each choice was made and of what, and how the
/// run ended. So the choices of a failure explain it. Errors are those of `replay`.
pub fn explain<
    D: Exact + 'static,
    R: Threads + Wait + Clone + Send + 'static,
    F: FnMut(&mut Handle<D, R>) -> Result<D, Stop>,
>(
    rt: &R,
    alloc: Global,
    builder: &Builder,
    choices: &[Choice],
    mut closure: F,
) -> Result<Explanation, RunnerError>
    requires { F.IsAlwaysCallable closure }
    ensures explains { IfOk result (Explains (CalledAtMut F.FnMut) builder.now choices.now closure) }
    ensures refused { IfErr (tested builder.now) (λ e. result ≡ Err (Settings e)) }
    ensures errors { IfErr result (IsNoReplay (CalledAtMut F.FnMut) builder.now choices.now closure) }
{
    explain_lent(rt, alloc, builder, choices, &mut closure)
}

/// `explain` of a closure that is called again afterwards.
pub(crate) fn explain_lent<
    D: Exact + 'static,
    R: Threads + Wait + Clone + Send + 'static,
    F: FnMut(&mut Handle<D, R>) -> Result<D, Stop>,
>(
    rt: &R,
    alloc: Global,
    builder: &Builder,
    choices: &[Choice],
    closure: &mut F,
) -> Result<Explanation, RunnerError>
    requires { F.IsAlwaysCallable closure.old }
    ensures again { F.IsAlwaysCallable closure.new }
    ensures explains { IfOk result (Explains (CalledAtMut F.FnMut) builder.now choices.now closure.old) }
    ensures refused { IfErr (tested builder.now) (λ e. result ≡ Err (Settings e)) }
    ensures errors { IfErr result (IsNoReplay (CalledAtMut F.FnMut) builder.now choices.now closure.old) }
{
    builder.test()?;
    let explores = !builder.expect_explicit_explore;
    let branches = builder.max_branches as u32;
    let Ok(path) = Path::following(alloc, explores, branches, choices) else {
        return Err(RunnerError::Memory);
    };
    let limits = Limits {
        max_threads: builder.max_threads,
        max_steps: builder.max_steps,
    };
    explain_along(rt, alloc, builder, limits, &path, closure)
}

/// One run of the closure along this path, explained by its history. It has several exits and owns nothing, since what a function
/// owns is let go at each.
fn explain_along<
    D: Exact + 'static,
    R: Threads + Wait + Clone + Send + 'static,
    F: FnMut(&mut Handle<D, R>) -> Result<D, Stop>,
>(
    rt: &R,
    alloc: Global,
    builder: &Builder,
    limits: Limits,
    path: &Path,
    closure: &mut F,
) -> Result<Explanation, RunnerError>
    requires some { 1 ≤ limits.max_threads }
    requires few { limits.max_threads ≤ 5 }
    requires starts { IsAtStart path.now.explores path.now }
    requires callable { F.IsAlwaysCallable closure.old }
    ensures again { F.IsAlwaysCallable closure.new }
    ensures explains { IfOk result (ExplainsAlong (CalledAtMut F.FnMut) limits builder.now path.now closure.old) }
    ensures errors { IfErr result (IsNoReplayAlong (CalledAtMut F.FnMut) limits path.now closure.old) }
{
    let shared = share(alloc, limits, path)?;
    let told = call_closure(rt, alloc, &shared, closure)?;
    let turns = shared.turns.lock(rt);
    tell(alloc, builder, limits, path, &*turns, told.as_slice())
}

/// The run whose state this is at its end, explained by its history, if it is settled.
fn tell<D: Exact>(
    alloc: Global,
    builder: &Builder,
    limits: Limits,
    path: &Path,
    turns: &Turns<D>,
    told: &[Told<D>],
) -> Result<Explanation, RunnerError>
    ensures told { IfOk result (IsSettledAndTold limits builder.now path.now told.now turns.now) }
    ensures errors { IfErr result (IsNotTold limits path.now turns.now told.now) }
{
    if let Some(stop) = turns.spoiled() {
        return Err(error_by(stop));
    }
    if !turns.settle(path, limits, told) {
        return Err(RunnerError::NotSettled);
    }
    let end = end_of(turns)?;
    match tell_events(alloc, builder, turns, end) {
        Ok(explanation) => Ok(explanation),
        Err(_) => Err(RunnerError::Memory),
    }
}

/// How the run ended by its history.
pub(crate) fn end_of<D: Exact>(turns: &Turns<D>) -> Result<End, RunnerError>
    ensures end { IfOk result (IsEndOf turns.now.history) }
    ensures errors { IfErr result (IsOpenOrRefused turns.now) }
{
    if let Some(failure) = turns.failure() {
        return Ok(End::Failed(failure));
    }
    match turns.value() {
        Ok(Some(_)) => Ok(End::Ended),
        Ok(None) => Err(RunnerError::NotSettled),
        Err(_) => Err(RunnerError::Memory),
    }
}

/// The explanation of a run by the state at its end.
fn tell_events<D: Exact>(
    alloc: Global,
    builder: &Builder,
    turns: &Turns<D>,
    end: End,
) -> Result<Explanation, AllocError>
    requires { IsEndOf turns.now.history end }
    ensures { IfOk result (IsToldOf builder.now turns.now) }
{
    let events = told_events(alloc, turns.events())?;
    let values = told_values(alloc, turns.events())?;
    let path = turns.path()?;
    let told = ToldRun {
        events,
        values,
        end,
    };
    builder.explained(alloc, told, &path)
}
