//! One run of a closure whose choices are drawn as it reaches them (own).
ghost use Rattle.std.specs.Prelude.{◌≤◌, IfOk, IfErr};
ghost use Rattle.std.specs.Fn.{CalledAtMut};
ghost use Rattle.loom_engine.specs.Path.Drawn.{IsDrawn};
ghost use Rattle.loom_engine.specs.Path.Route.{IsAtStart};
ghost use Rattle.loom.specs.Runner.Check.{limits_of};
ghost use Rattle.loom.specs.Runner.Walking.{IsNoDrawnRun, IsNotJudgedDrawn, JudgedDrawn, WasDrawn};

use crate::model::builder::Builder;
use crate::model::different::hash_of;
use crate::model::drawer::Drawer;
use crate::model::visitor::Visitor;
use crate::model::walk::is_cut;
use crate::runner::error::{RunnerError, error_by};
use crate::runner::exact::Exact;
use crate::runner::handle::Handle;
use crate::runner::history::told::Told;
use crate::runner::run::call_main;
use crate::runner::shared::{Children, share_drawn};
use crate::runner::stop::Stop;
use crate::runner::turns::Turns;
use crate::runner::turns::drawing::Drawing;
use crate::runner::watcher::Watcher;
use log::Log;
use loom_engine::rt::execution::Limits;
use loom_engine::rt::path::Path;
use loom_objects::choice::Choice;
use loom_objects::failure::Failure;
use std::alloc::Global;
use std::sync::Wait;
use std::thread::Threads;

/// How a run ended whose choices are drawn.
#[derive(Drop)]
pub(crate) enum DrawnEnd {
    /// It ended with main's result, and the visitor was given it. Its choices have this hash.
    Ended(u64),
    /// It was cut by its length.
    Cut,
    /// It failed so, under these choices.
    Failed(Failure, Vec<Choice>),
}

/// Makes a run of the closure, of this number and within the builder's limits, whose choices are drawn, and gives it to the visitor if it
/// ends without a failure. The path is without a node. The watcher is shown the run. Errors are those of `make_run`.
pub(crate) fn draw_run<
    D: Exact + 'static,
    R: Threads + Wait + Clone + Send + 'static,
    F: FnMut(&mut Handle<D, R>) -> Result<D, Stop>,
    V: Visitor<D>,
    L: Log + Clone + Send + 'static,
>(
    rt: &R,
    alloc: Global,
    builder: &Builder,
    path: &Path,
    number: u64,
    watcher: &Watcher<D, L>,
    drawer: &mut Drawer,
    ending: &mut Children,
    closure: &mut F,
    visitor: &mut V,
) -> Result<DrawnEnd, RunnerError>
    requires some { 1 ≤ builder.now.max_threads }
    requires few { builder.now.max_threads ≤ 5 }
    requires starts { IsAtStart path.now.explores path.now }
    requires empty { IsDrawn path.now }
    requires callable { F.IsAlwaysCallable closure.old }
    ensures again { F.IsAlwaysCallable closure.new }
    ensures made { IfOk result (λ end. WasDrawn (CalledAtMut F.FnMut) V.takes (limits_of builder.now) closure.old visitor.old path.now end closure.new visitor.new) }
    ensures errors { IfErr result (λ e. IsNoDrawnRun (CalledAtMut F.FnMut) V.takes (limits_of builder.now) closure.old visitor.old path.now e visitor.new) }
{
    let limits = Limits {
        max_threads: builder.max_threads,
        max_steps: builder.max_steps,
    };
    drawer.begin();
    let Ok(theirs) = drawer.clone() else {
        return Err(RunnerError::Memory);
    };
    let shared = share_drawn(alloc, limits, path, Drawing::Walk(theirs))?;
    watcher.show(rt, number, &shared);
    let told = call_main(rt, alloc, &shared, closure, ending)?;
    watcher.tell(rt, number, &*shared);
    let turns = shared.turns.lock(rt);
    let Ok(after) = turns.drawer() else {
        return Err(RunnerError::Memory);
    };
    if let Some(after) = after {
        *drawer = after;
    }
    let state = &*turns;
    judge(limits, path, state, told.as_slice(), visitor)
}

/// Whether the run is settled. If it ended the visitor is given it.
fn judge<D: Exact, V: Visitor<D>>(
    limits: Limits,
    path: &Path,
    turns: &Turns<D>,
    told: &[Told<D>],
    visitor: &mut V,
) -> Result<DrawnEnd, RunnerError>
    ensures judged { IfOk result (λ end. JudgedDrawn V.takes limits visitor.old path.now turns.now told.now end visitor.new) }
    ensures errors { IfErr result (λ e. IsNotJudgedDrawn limits visitor.old path.now turns.now told.now e visitor.new) }
{
    if let Some(stop) = turns.spoiled() {
        return Err(error_by(stop));
    }
    if !turns.settle_drawn(path, limits, told) {
        return Err(RunnerError::NotSettled);
    }
    let Ok(choices) = turns.choices() else {
        return Err(RunnerError::Memory);
    };
    if let Some(failure) = turns.failure() {
        if is_cut(failure.kind) {
            return Ok(DrawnEnd::Cut);
        }
        return Ok(DrawnEnd::Failed(failure, choices));
    }
    let Ok(value) = turns.value() else {
        return Err(RunnerError::Memory);
    };
    let Some(value) = value else {
        return Err(RunnerError::NotSettled);
    };
    let list = choices.as_slice();
    if visitor.run(list, value).is_err() {
        return Err(RunnerError::Memory);
    }
    Ok(DrawnEnd::Ended(hash_of(list)))
}
