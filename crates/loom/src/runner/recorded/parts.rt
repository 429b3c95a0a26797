//! Checks of a part of a search of recorded closures, some runs at a time.
ghost use Rattle.std.specs.Prelude.{◌≡◌, ◌≤◌, ◌∷◌, [], Err, IfErr, IfOk, OnErr, false};
ghost use Rattle.std.specs.Fn.{CalledAtMut};
ghost use Rattle.loom_engine.specs.Path.Route.{at_rest};
ghost use Rattle.loom.specs.Model.Parts.{CountsRuns, IsWithin};
ghost use Rattle.loom.specs.Model.Settings.{explores, search_of, tested};
ghost use Rattle.loom.specs.declared.runner.error.RunnerError.TheVariants.{Settings};
ghost use Rattle.loom.specs.Runner.Check.{limits_of};
ghost use Rattle.loom.specs.Runner.Recorded.{Function, WorksRecorded};
ghost use Rattle.loom.specs.Runner.Recording.{EndsAbove, IsTrueOf};

use crate::model::builder::Builder;
use crate::model::clock::Clock;
use crate::model::parts::{Slice, Worked, leave};
use crate::model::rounds::Round;
use crate::model::run::Ending;
use crate::model::visitor::Visitor;
use crate::runner::error::RunnerError;
use crate::runner::exact::Exact;
use crate::runner::handle::Handle;
use crate::runner::recorded::rounds::Recorder;
use crate::runner::stop::Stop;
use crate::runner::watcher::Watcher;
use log::Log;
use loom_engine::rt::execution::Limits;
use loom_engine::rt::parts::Part;
use loom_engine::rt::path::Path;
use std::alloc::{AllocError, Global};
use std::sync::Wait;
use std::thread::Threads;

/// Makes runs of a part of a search of a closure each of whose threads does what rests on nothing but the replies to it, as
/// `check_recorded` does, until none of the part is left, one fails or the slice is used up (own; for bodies it is
/// `Builder::check_part`). Each that ended without a failure is given to the visitor. The part then says what is left of it, and counts
/// them among its runs; where a run failed it stays as it was.
///
/// A setting out of range is refused, and then a part of a search with other settings. The errors besides are those of
/// `check_recorded`, but for those of a store. After an error the part is as it was.
pub fn check_part_recorded<
    D: Exact + 'static,
    R: Threads + Wait + Clone + Send + 'static,
    F: FnMut(&mut Handle<D, R>) -> Result<D, Stop>,
    V: Visitor<D>,
    C: Clock,
    L: Log + Clone + Send + 'static,
>(
    rt: &R,
    alloc: Global,
    builder: &Builder,
    mut closure: F,
    part: &mut Part,
    slice: Slice,
    visitor: &mut V,
    clock: &mut C,
    log: &L,
) -> Result<Worked, RunnerError>
    requires { F.IsAlwaysCallable closure }
    ensures works { IfOk result (WorksRecorded (CalledAtMut F.FnMut) V.takes builder.now closure visitor.old visitor.new part.old part.new) }
    ensures within { IfOk result (IsWithin slice) }
    ensures counts { IfOk result (CountsRuns part.old part.new) }
    ensures same { OnErr result (part.new ≡ part.old) }
    ensures refused { IfErr (tested builder.now) (λ e. (result ≡ Err (Settings e)) × (visitor.new ≡ visitor.old)) }
{
    builder.test()?;
    let path = builder.path_of(alloc, part)?;
    if part.is_done {
        return Ok(Worked::Made { runs: 0 });
    }
    let watcher = Watcher::start(rt, alloc, builder.log, log);
    let worked = work_on(
        rt,
        alloc,
        builder,
        &watcher,
        &mut closure,
        part,
        path,
        slice,
        visitor,
        clock,
    );
    watcher.end(rt);
    worked
}

/// Makes one run of the part after another, along this path. The settings were tested. The watcher is shown the runs of the closure.
fn work_on<
    D: Exact + 'static,
    R: Threads + Wait + Clone + Send + 'static,
    F: FnMut(&mut Handle<D, R>) -> Result<D, Stop>,
    V: Visitor<D>,
    C: Clock,
    L: Log + Clone + Send + 'static,
>(
    rt: &R,
    alloc: Global,
    builder: &Builder,
    watcher: &Watcher<D, L>,
    closure: &mut F,
    part: &mut Part,
    path: Path,
    slice: Slice,
    visitor: &mut V,
    clock: &mut C,
) -> Result<Worked, RunnerError>
    requires some { 1 ≤ builder.now.max_threads }
    requires few { builder.now.max_threads ≤ 5 }
    requires callable { F.IsAlwaysCallable closure.old }
    requires starts { path ≡ at_rest (search_of builder.now) (explores builder.now) part.old.path.nodes }
    requires left { part.old.is_done ≡ false }
    ensures works { IfOk result (WorksRecorded (CalledAtMut F.FnMut) V.takes builder.now closure.old visitor.old visitor.new part.old part.new) }
    ensures within { IfOk result (IsWithin slice) }
    ensures counts { IfOk result (CountsRuns part.old part.new) }
    ensures same { OnErr result (part.new ≡ part.old) }
{
    let limits = Limits {
        max_threads: builder.max_threads,
        max_steps: builder.max_steps,
    };
    let mut recorder = Recorder::new(alloc, limits, builder.location)?;
    work_by(
        rt,
        alloc,
        builder,
        watcher,
        closure,
        part,
        path,
        slice,
        visitor,
        clock,
        &mut recorder,
    )
}

/// Makes them by this recorder, which has recorded nothing yet.
fn work_by<
    D: Exact + 'static,
    R: Threads + Wait + Clone + Send + 'static,
    F: FnMut(&mut Handle<D, R>) -> Result<D, Stop>,
    V: Visitor<D>,
    C: Clock,
    L: Log + Clone + Send + 'static,
>(
    rt: &R,
    alloc: Global,
    builder: &Builder,
    watcher: &Watcher<D, L>,
    closure: &mut F,
    part: &mut Part,
    mut path: Path,
    slice: Slice,
    visitor: &mut V,
    clock: &mut C,
    recorder: &mut Recorder<D>,
) -> Result<Worked, RunnerError>
    requires some { 1 ≤ builder.now.max_threads }
    requires few { builder.now.max_threads ≤ 5 }
    requires callable { F.IsAlwaysCallable closure.old }
    requires starts { path ≡ at_rest (search_of builder.now) (explores builder.now) part.old.path.nodes }
    requires left { part.old.is_done ≡ false }
    requires limits { recorder.old.limits ≡ limits_of builder.now }
    requires locations { recorder.old.keeps_locations ≡ builder.now.location }
    requires fresh { (does : Function D) → IsTrueOf does ([] ∷ []) recorder.old.recording }
    ensures works { IfOk result (WorksRecorded (CalledAtMut F.FnMut) V.takes builder.now closure.old visitor.old visitor.new part.old part.new) }
    ensures within { IfOk result (IsWithin slice) }
    ensures counts { IfOk result (CountsRuns part.old part.new) }
    ensures same { OnErr result (part.new ≡ part.old) }
{
    let floor = part.base.len();
    let mut runs = 0;
    'slice: loop {
        let number = runs + 1;
        let ending = recorder.make_run(rt, alloc, number, watcher, closure, &mut path)?;
        let Ok(round) = end_above(alloc, ending, floor, visitor, &mut path) else {
            return Err(RunnerError::Memory);
        };
        match round {
            Round::Next => {
                runs += 1;
                if slice.is_used_up(runs, clock) {
                    leave(part, path, runs, false);
                    return Ok(Worked::Made { runs });
                }
            }
            Round::Last => {
                runs += 1;
                leave(part, path, runs, true);
                return Ok(Worked::Made { runs });
            }
            Round::Failed(failure, choices) => {
                return Ok(Worked::Failed {
                    runs,
                    failure,
                    choices,
                });
            }
        }
    }
}

/// The run along the path ended so. If it ended with a value the visitor is given it, and the path steps to the next one above this floor.
pub(super) fn end_above<D: Exact, V: Visitor<D>>(
    alloc: Global,
    ending: Ending<D>,
    floor: usize,
    visitor: &mut V,
    path: &mut Path,
) -> Result<Round, AllocError>
    ensures { IfOk result (λ round. EndsAbove V.takes floor ending path.old visitor.old round path.new visitor.new) }
{
    match ending {
        Ending::Failed(failure) => Ok(Round::Failed(failure, path.choices(alloc)?)),
        Ending::Ended(value) => {
            visitor.run_along(alloc, path, value)?;
            if path.step_above(floor) {
                Ok(Round::Next)
            } else {
                Ok(Round::Last)
            }
        }
    }
}
