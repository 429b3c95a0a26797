//! Checks of recorded closures that remember states: once all that their runs need is recorded, each run is made of that.
mod learning;
mod run;

ghost use Rattle.std.specs.Prelude.{◌≡◌, ◌≤◌, ◌<◌, [], IfErr, IfOk, List, OnErr, OnOk, false};
ghost use Rattle.std.specs.Fn.{CalledAtMut};
ghost use Rattle.loom_engine.specs.Path.Route.{chosen};
ghost use Rattle.loom.specs.Model.CoverStores.{StillHolds};
ghost use Rattle.loom.specs.Model.Covered.{Covering, FailsAlong};
ghost use Rattle.loom.specs.Model.Settings.{tested};
ghost use Rattle.loom.specs.declared.runner.error.RunnerError.TheVariants.{Settings};
ghost use Rattle.loom.specs.Runner.Recorded.{CoversRecorded, Function, StillHoldsRecorded, Word, by_function};
ghost use Rattle.loom.specs.Runner.Recording.{IsTrueOf};
ghost use Rattle.loom.specs.Runner.Refusals.{CountsFaults};

use crate::checkpoint::store::CheckpointStore;
use crate::model::builder::Builder;
use crate::model::clock::Clock;
use crate::model::cover::run::Ending;
use crate::model::cover::saving::{keep, save};
use crate::model::cover::{Covered, Failing, failed, stopped, told};
use crate::model::limits::log_runs;
use crate::model::visitor::Visitor;
use crate::runner::error::RunnerError;
use crate::runner::exact::Exact;
use crate::runner::handle::Handle;
use crate::runner::recorded::covering::learning::learn;
use crate::runner::recorded::covering::run::{Place, Room, run_known};
use crate::runner::recorded::recording::Recording;
use crate::runner::stop::Stop;
use crate::runner::watcher::Watcher;
use log::Log;
use loom_engine::rt::path::Path;
use loom_engine::rt::path::choices::ChoiceList;
use loom_engine::rt::states::States;
use loom_engine::rt::states::ways::Ways;
use loom_objects::failure::Failure;
use loom_views::rt::failure::FailureKind;
use loom_views::same::Same;
use std::alloc::{AllocError, Global};
use std::sync::Wait;
use std::thread::Threads;

/// A check that remembers states, of a closure each of whose threads does what rests on nothing but the replies to it (own; for bodies
/// it is `Builder::cover_with`, which says how it searches, and what it reads and saves). A failure has no place.
///
/// What the threads hand over is recorded first, by runs of the closure to wherever an answer isn't recorded. Then each run is made of
/// what is recorded, and those that ended without a failure are given to the visitor. `max_permutations` and `max_duration` hold for that,
/// and `max_duration` for both together. The log hears of a run of the closure what it hears in `check_with`, but not what happened in one
/// that failed.
///
/// A thread that hands over another operation than before after the same replies is `Changed`. `Memory` comes where a growth is refused,
/// and where a million answers don't do. The errors besides are those of `check_with`.
pub fn cover_recorded<
    D: Exact + Same + 'static,
    R: Threads + Wait + Clone + Send + 'static,
    F: FnMut(&mut Handle<D, R>) -> Result<D, Stop>,
    V: Visitor<D>,
    C: Clock,
    S: CheckpointStore,
    L: Log + Clone + Send + 'static,
>(
    rt: &R,
    alloc: Global,
    builder: &Builder,
    mut closure: F,
    visitor: &mut V,
    clock: &mut C,
    store: &mut S,
    most_states: usize,
    log: &L,
) -> Result<Covered, RunnerError>
    requires { F.IsAlwaysCallable closure }
    ensures covers { IfOk result (CoversRecorded (CalledAtMut F.FnMut) V.takes builder.now closure visitor.old visitor.new (S.gives store.old) (S.holds store.new) (C.answered clock.new)) }
    ensures refused { IfErr (tested builder.now) (λ e. (result ≡ Err (Settings e)) × (visitor.new ≡ visitor.old)) }
    ensures left { OnErr result (StillHoldsRecorded (CalledAtMut F.FnMut) builder.now closure (S.gives store.old) (S.holds store.old) (S.holds store.new)) }
    ensures faults { CountsFaults result (S.fault_count store.old) (S.fault_count store.new) }
{
    builder.test()?;
    let watcher = Watcher::start(rt, alloc, builder.log, log);
    let answer = cover_closure(
        rt,
        alloc,
        builder,
        &watcher,
        &mut closure,
        visitor,
        clock,
        store,
        most_states,
        log,
    );
    watcher.end(rt);
    answer
}

/// Records what the closure's threads do, and makes the runs of that, by settings in range. The watcher is shown those of the closure.
fn cover_closure<
    D: Exact + Same + 'static,
    R: Threads + Wait + Clone + Send + 'static,
    F: FnMut(&mut Handle<D, R>) -> Result<D, Stop>,
    V: Visitor<D>,
    C: Clock,
    S: CheckpointStore,
    L: Log + Clone + Send + 'static,
>(
    rt: &R,
    alloc: Global,
    builder: &Builder,
    watcher: &Watcher<D, L>,
    closure: &mut F,
    visitor: &mut V,
    clock: &mut C,
    store: &mut S,
    most_states: usize,
    log: &L,
) -> Result<Covered, RunnerError>
    requires some { 1 ≤ builder.now.max_threads }
    requires few { builder.now.max_threads ≤ 5 }
    requires branches { builder.now.max_branches ≤ 1000000 }
    requires interval { 0 < builder.now.checkpoint_interval }
    requires callable { F.IsAlwaysCallable closure.old }
    ensures covers { IfOk result (CoversRecorded (CalledAtMut F.FnMut) V.takes builder.now closure.old visitor.old visitor.new (S.gives store.old) (S.holds store.new) (C.answered clock.new)) }
    ensures left { OnErr result (StillHoldsRecorded (CalledAtMut F.FnMut) builder.now closure.old (S.gives store.old) (S.holds store.old) (S.holds store.new)) }
    ensures faults { CountsFaults result (S.fault_count store.old) (S.fault_count store.new) }
{
    let Ok(mut recording) = Recording::new(alloc) else {
        return Err(RunnerError::Memory);
    };
    learn(
        rt,
        alloc,
        builder,
        watcher,
        closure,
        clock,
        &mut recording,
        most_states,
    )?;
    cover_known(
        alloc,
        builder,
        &recording,
        visitor,
        clock,
        store,
        most_states,
        log,
    )
}

/// Makes the runs of what is recorded, by settings in range.
fn cover_known<D: Exact + Same, V: Visitor<D>, C: Clock, S: CheckpointStore, L: Log>(
    alloc: Global,
    builder: &Builder,
    recording: &Recording<D>,
    visitor: &mut V,
    clock: &mut C,
    store: &mut S,
    most_states: usize,
    log: &L,
) -> Result<Covered, RunnerError>
    requires some { 1 ≤ builder.now.max_threads }
    requires few { builder.now.max_threads ≤ 5 }
    requires branches { builder.now.max_branches ≤ 1000000 }
    requires interval { 0 < builder.now.checkpoint_interval }
    ensures covers { (does : Function D) → (words : List (Word D)) → IsTrueOf does words recording.now
        → IfOk result (Covering V.takes visitor.old visitor.new builder.now (by_function does) [] (S.gives store.old) (S.holds store.new) (C.answered clock.new)) }
    ensures left { (does : Function D) → (words : List (Word D)) → IsTrueOf does words recording.now
        → OnErr result (StillHolds builder.now (by_function does) [] (S.gives store.old) (S.holds store.old) (S.holds store.new)) }
    ensures faults { CountsFaults result (S.fault_count store.old) (S.fault_count store.new) }
{
    let mut room = Room::new(alloc, builder.limits())?;
    let mut states = States::new(alloc, most_states, false)?;
    cover_rounds(
        alloc,
        builder,
        recording,
        &mut room,
        &mut states,
        visitor,
        clock,
        store,
        log,
    )
}

/// Makes one run after another of what is recorded, from the path on that the store holds, with these states, of which none is noted yet,
/// and gives each that ended to the visitor. `NotSettled` where an answer isn't recorded.
fn cover_rounds<D: Exact + Same, V: Visitor<D>, C: Clock, S: CheckpointStore, L: Log>(
    alloc: Global,
    builder: &Builder,
    recording: &Recording<D>,
    room: &mut Room<D>,
    states: &mut States<D, Place>,
    visitor: &mut V,
    clock: &mut C,
    store: &mut S,
    log: &L,
) -> Result<Covered, RunnerError>
    requires some { 1 ≤ builder.now.max_threads }
    requires few { builder.now.max_threads ≤ 5 }
    requires branches { builder.now.max_branches ≤ 1000000 }
    requires interval { 0 < builder.now.checkpoint_interval }
    requires none { states.old ≡ record { states = []; led_by = []; never = false } }
    ensures covers { (does : Function D) → (words : List (Word D)) → IsTrueOf does words recording.now
        → IfOk result (Covering V.takes visitor.old visitor.new builder.now (by_function does) [] (S.gives store.old) (S.holds store.new) (C.answered clock.new)) }
    ensures left { (does : Function D) → (words : List (Word D)) → IsTrueOf does words recording.now
        → OnErr result (StillHolds builder.now (by_function does) [] (S.gives store.old) (S.holds store.old) (S.holds store.new)) }
    ensures faults { CountsFaults result (S.fault_count store.old) (S.fault_count store.new) }
{
    let interval = builder.checkpoint_interval;
    let mut path = builder.begin_cover(alloc, store)?;
    let mut until_save = interval - 1;
    let mut ways = Ways::new(alloc);
    let mut choices = ChoiceList::new(alloc);
    let (mut runs, mut met) = (0u64, 0u64);
    loop {
        if let Some(limit) = builder.reached(runs + met, clock) {
            save(alloc, &path, store)?;
            return Ok(stopped(runs, met, states.len(), limit));
        }
        until_save = keep(alloc, &path, store, log, runs + met, interval, until_save)?;
        let noted = states.len();
        let to = match run_known(room, builder.limits(), recording, &mut path, states)? {
            Ending::Ended(value) => {
                give(alloc, &path, value, visitor)?;
                runs += 1;
                None
            }
            Ending::Met(number) => {
                met += 1;
                Some(number)
            }
            Ending::Failed(failure) => {
                let failing = failing(alloc, &path, failure.kind)?;
                return Ok(failed(runs, met, states.len(), failing));
            }
        };
        choices = path.choices_after(choices)?;
        ways.add_run(states.led_by(), noted, choices.as_slice(), to)?;
        if !path.step() {
            log_runs(log, "completed in ", runs + met, " iterations");
            return Ok(told(alloc, runs, met, states.led_by(), &ways)?);
        }
    }
}

/// The failure of this kind of the run along the path, without a place, and the run's choices.
fn failing(alloc: Global, path: &Path, kind: FailureKind) -> Result<Failing, AllocError>
    ensures { (b : Builder) → IfOk result (λ failing. FailsAlong b path.now kind failing.failure failing.choices) }
{
    Ok(Failing {
        failure: Failure {
            kind,
            location: None,
        },
        choices: path.choices(alloc)?,
    })
}

/// The visitor is given the run along the path, which ended so.
fn give<D: Exact, V: Visitor<D>>(
    alloc: Global,
    path: &Path,
    value: D,
    visitor: &mut V,
) -> Result<(), AllocError>
    ensures { OnOk result (V.takes visitor.old (chosen path.now) value visitor.new) }
{
    let choices = path.choices(alloc)?;
    visitor.run(choices.as_slice(), value)
}
