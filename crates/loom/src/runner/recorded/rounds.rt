//! The loop of a check of recorded closures: a run is made of what is recorded, or of the closure where an answer isn't.
ghost use Rattle.std.specs.Prelude.{◌≡◌, ◌≤◌, ◌<◌, ◌∷◌, [], IfErr, IfOk, IfSome};
ghost use Rattle.std.specs.Fn.{CalledAtMut};
ghost use Rattle.loom_engine.specs.Path.Route.{IsAtStart};
ghost use Rattle.loom.specs.Model.Settings.{explores};
ghost use Rattle.loom.specs.Runner.Check.{limits_of};
ghost use Rattle.loom.specs.Runner.Made.{Made};
ghost use Rattle.loom.specs.Runner.Recorded.{Function, HasMadeOne, ReportsRecorded};
ghost use Rattle.loom.specs.Runner.Recording.{EndsRound, GoesOn, IsKnownRun, IsOfRun, IsTrueOf, MakesRound, MakesRun};
ghost use Rattle.loom.specs.declared.model.rounds.Round.TheVariants.{Next};
ghost use Rattle.loom.specs.Runner.Refusals.{CountsFaults};
ghost use Rattle.loom.specs.Runner.Run.{Checked};

use crate::checkpoint::store::CheckpointStore;
use crate::model::builder::Builder;
use crate::model::clock::Clock;
use crate::model::report::Report;
use crate::model::rounds::Round;
use crate::model::run::Ending;
use crate::model::saving::{Pace, keep, stop};
use crate::model::search::complete;
use crate::model::visitor::Visitor;
use crate::runner::error::{RunnerError, error_by};
use crate::runner::exact::Exact;
use crate::runner::handle::Handle;
use crate::runner::history::event::Event;
use crate::runner::history::told::Told;
use crate::runner::recorded::adding::{make_room, record_run};
use crate::runner::recorded::playing::{Room, play};
use crate::runner::recorded::recording::Recording;
use crate::runner::run::call_closure;
use crate::runner::shared::share;
use crate::runner::stop::Stop;
use crate::runner::turns::Turns;
use crate::runner::watcher::Watcher;
use log::Log;
use loom_engine::rt::execution::Limits;
use loom_engine::rt::path::Path;
use std::alloc::{AllocError, Global};
use std::sync::Wait;
use std::thread::Threads;

/// Makes one run after another, by settings in range, from the path on that the store holds: of the closure where a thread needs an
/// answer that isn't recorded, and of what is recorded elsewhere. The watcher is shown those of the closure.
pub(crate) fn make_recorded_rounds<
    D: Exact + 'static,
    R: Threads + Wait + Clone + Send + 'static,
    F: FnMut(&mut Handle<D, R>) -> Result<D, Stop>,
    V: Visitor<D>,
    C: Clock,
    S: CheckpointStore,
    L: Log + Clone + Send + 'static,
>(
    rt: &R,
    alloc: Global,
    builder: &Builder,
    watcher: &Watcher<D, L>,
    closure: &mut F,
    visitor: &mut V,
    clock: &mut C,
    store: &mut S,
    log: &L,
) -> Result<Report, RunnerError>
    requires some { 1 ≤ builder.now.max_threads }
    requires few { builder.now.max_threads ≤ 5 }
    requires branches { builder.now.max_branches ≤ 1000000 }
    requires bound { IfSome builder.now.preemption_bound (λ bound. bound ≤ 255) }
    requires interval { 0 < builder.now.checkpoint_interval }
    requires callable { F.IsAlwaysCallable closure.old }
    ensures again { F.IsAlwaysCallable closure.new }
    ensures reports { IfOk result (ReportsRecorded (CalledAtMut F.FnMut) V.takes builder.now closure.old visitor.old visitor.new (S.gives store.old) (S.holds store.new) (C.answered clock.new)) }
    ensures faults { CountsFaults result (S.fault_count store.old) (S.fault_count store.new) }
{
    let limits = Limits {
        max_threads: builder.max_threads,
        max_steps: builder.max_steps,
    };
    let mut recorder = Recorder::new(alloc, limits, builder.location)?;
    record_rounds(
        rt,
        alloc,
        builder,
        watcher,
        closure,
        visitor,
        clock,
        store,
        log,
        &mut recorder,
    )
}

/// Makes them by this recorder, which has recorded nothing yet.
fn record_rounds<
    D: Exact + 'static,
    R: Threads + Wait + Clone + Send + 'static,
    F: FnMut(&mut Handle<D, R>) -> Result<D, Stop>,
    V: Visitor<D>,
    C: Clock,
    S: CheckpointStore,
    L: Log + Clone + Send + 'static,
>(
    rt: &R,
    alloc: Global,
    builder: &Builder,
    watcher: &Watcher<D, L>,
    closure: &mut F,
    visitor: &mut V,
    clock: &mut C,
    store: &mut S,
    log: &L,
    recorder: &mut Recorder<D>,
) -> Result<Report, RunnerError>
    requires some { 1 ≤ builder.now.max_threads }
    requires few { builder.now.max_threads ≤ 5 }
    requires branches { builder.now.max_branches ≤ 1000000 }
    requires bound { IfSome builder.now.preemption_bound (λ bound. bound ≤ 255) }
    requires interval { 0 < builder.now.checkpoint_interval }
    requires callable { F.IsAlwaysCallable closure.old }
    requires limits { recorder.old.limits ≡ limits_of builder.now }
    requires locations { recorder.old.keeps_locations ≡ builder.now.location }
    requires fresh { (does : Function D) → IsTrueOf does ([] ∷ []) recorder.old.recording }
    ensures again { F.IsAlwaysCallable closure.new }
    ensures reports { IfOk result (ReportsRecorded (CalledAtMut F.FnMut) V.takes builder.now closure.old visitor.old visitor.new (S.gives store.old) (S.holds store.new) (C.answered clock.new)) }
    ensures faults { CountsFaults result (S.fault_count store.old) (S.fault_count store.new) }
{
    let mut path = builder.begin(alloc, store)?;
    let mut pace = Pace::new(builder.checkpoint_interval);
    loop {
        if let Some(limit) = builder.reached(pace.runs, clock) {
            return Ok(stop(alloc, &path, store, pace.runs, limit)?);
        }
        let left = keep(alloc, &path, store, log, &pace)?;
        pace.until_save = left;
        let number = pace.runs + 1;
        let round = recorder.make_round(rt, alloc, number, watcher, closure, visitor, &mut path)?;
        match round {
            Round::Next => pace.runs += 1,
            Round::Last => return Ok(complete(log, pace.runs + 1)),
            Round::Failed(failure, choices) => {
                return Ok(Report::Failed {
                    runs: pace.runs,
                    failure,
                    choices,
                });
            }
        }
    }
}

/// What makes the runs of a check of recorded closures.
#[derive(Drop)]
pub(crate) struct Recorder<D> {
    limits: Limits,
    keeps_locations: bool,
    pub(super) recording: Recording<D>,
    room: Room<D>,
}

impl<D: Exact + 'static> Recorder<D> {
    /// Nothing is recorded yet.
    pub(crate) fn new(
        alloc: Global,
        limits: Limits,
        keeps_locations: bool,
    ) -> Result<Recorder<D>, RunnerError>
        requires some { 1 ≤ limits.max_threads }
        requires few { limits.max_threads ≤ 5 }
        ensures limits { IfOk result (λ recorder. recorder.limits ≡ limits) }
        ensures locations { IfOk result (λ recorder. recorder.keeps_locations ≡ keeps_locations) }
        ensures fresh { IfOk result (λ recorder. (does : Function D) → IsTrueOf does ([] ∷ []) recorder.recording) }
        ensures errors { IfErr result IsOfRun }
    {
        let Ok(recording) = Recording::new(alloc) else {
            return Err(RunnerError::Memory);
        };
        match Room::new(alloc, limits) {
            Ok(room) => Ok(Recorder {
                limits,
                keeps_locations,
                recording,
                room,
            }),
            Err(_) => Err(RunnerError::Memory),
        }
    }

    /// One run along the path, and its step to the next one.
    fn make_round<
        R: Threads + Wait + Clone + Send + 'static,
        F: FnMut(&mut Handle<D, R>) -> Result<D, Stop>,
        V: Visitor<D>,
        L: Log + Clone + Send + 'static,
    >(
        &mut self,
        rt: &R,
        alloc: Global,
        number: u64,
        watcher: &Watcher<D, L>,
        closure: &mut F,
        visitor: &mut V,
        path: &mut Path,
    ) -> Result<Round, RunnerError>
        requires some { 1 ≤ self.old.limits.max_threads }
        requires few { self.old.limits.max_threads ≤ 5 }
        requires starts { IsAtStart path.old.explores path.old }
        requires callable { F.IsAlwaysCallable closure.old }
        ensures again { F.IsAlwaysCallable closure.new }
        ensures limits { self.new.limits ≡ self.old.limits }
        ensures locations { self.new.keeps_locations ≡ self.old.keeps_locations }
        ensures goes { IfOk result (λ round. round ≡ Next → GoesOn D self.old.limits path.old path.new) }
        ensures makes { IfOk result (λ round. MakesRound (CalledAtMut F.FnMut) V.takes self.old.limits self.old.keeps_locations path.old closure.old visitor.old self.old.recording round path.new closure.new visitor.new self.new.recording) }
        ensures errors { IfErr result IsOfRun }
    {
        let ending = self.make_run(rt, alloc, number, watcher, closure, path)?;
        match end_round(alloc, ending, visitor, path) {
            Ok(round) => Ok(round),
            Err(_) => Err(RunnerError::Memory),
        }
    }

    /// One run along the path: by what is recorded, and where an answer isn't by a run of the closure, which is recorded. Answers how the
    /// run ended.
    pub(crate) fn make_run<
        R: Threads + Wait + Clone + Send + 'static,
        F: FnMut(&mut Handle<D, R>) -> Result<D, Stop>,
        L: Log + Clone + Send + 'static,
    >(
        &mut self,
        rt: &R,
        alloc: Global,
        number: u64,
        watcher: &Watcher<D, L>,
        closure: &mut F,
        path: &mut Path,
    ) -> Result<Ending<D>, RunnerError>
        requires some { 1 ≤ self.old.limits.max_threads }
        requires few { self.old.limits.max_threads ≤ 5 }
        requires starts { IsAtStart path.old.explores path.old }
        requires callable { F.IsAlwaysCallable closure.old }
        ensures again { F.IsAlwaysCallable closure.new }
        ensures limits { self.new.limits ≡ self.old.limits }
        ensures locations { self.new.keeps_locations ≡ self.old.keeps_locations }
        ensures makes { IfOk result (λ ending. MakesRun (CalledAtMut F.FnMut) self.old.limits self.old.keeps_locations path.old closure.old self.old.recording ending path.new closure.new self.new.recording) }
        ensures errors { IfErr result IsOfRun }
    {
        let Ok(began) = path.try_clone(alloc) else {
            return Err(RunnerError::Memory);
        };
        let played = self.play(path);
        if let Some(known) = played? {
            return Ok(known);
        }
        let limits = self.limits;
        let events = make_real_run(rt, alloc, limits, &began, number, watcher, closure)?;
        make_room(alloc, &mut self.recording)?;
        record_run(alloc, &mut self.recording, number, events.as_slice())?;
        *path = began;
        let again = self.play(path);
        if let Some(made) = again? {
            return Ok(made);
        }
        Err(RunnerError::NotSettled)
    }

    /// One run along the path by what is recorded. None where an answer isn't.
    fn play(&mut self, path: &mut Path) -> Result<Option<Ending<D>>, RunnerError>
        requires some { 1 ≤ self.old.limits.max_threads }
        requires few { self.old.limits.max_threads ≤ 5 }
        requires starts { IsAtStart path.old.explores path.old }
        ensures limits { self.new.limits ≡ self.old.limits }
        ensures locations { self.new.keeps_locations ≡ self.old.keeps_locations }
        ensures recording { self.new.recording ≡ self.old.recording }
        ensures known { IfOk result (λ known. IfSome known (λ ending. IsKnownRun self.old.limits self.old.keeps_locations self.old.recording path.old ending path.new)) }
        ensures errors { IfErr result IsOfRun }
    {
        let played = play(
            &mut self.room,
            self.limits,
            self.keeps_locations,
            &self.recording,
            path,
        );
        match played {
            Ok(known) => Ok(known),
            Err(_) => Err(RunnerError::Memory),
        }
    }
}

/// The run along the path ended so. If it ended with a value the visitor is given it, and the path steps to the next one.
fn end_round<D: Exact, V: Visitor<D>>(
    alloc: Global,
    ending: Ending<D>,
    visitor: &mut V,
    path: &mut Path,
) -> Result<Round, AllocError>
    ensures { IfOk result (λ round. EndsRound V.takes ending path.old visitor.old round path.new visitor.new) }
{
    match ending {
        Ending::Failed(failure) => Ok(Round::Failed(failure, path.choices(alloc)?)),
        Ending::Ended(value) => {
            visitor.run_along(alloc, path, value)?;
            if path.step() {
                Ok(Round::Next)
            } else {
                Ok(Round::Last)
            }
        }
    }
}

/// Makes the run of this number of the closure, along the path. Answers its events. `Memory` and `Refused` where a growth or a thread
/// was refused, `NotSettled` where the run's end isn't settled.
pub(crate) fn make_real_run<
    D: Exact + 'static,
    R: Threads + Wait + Clone + Send + 'static,
    F: FnMut(&mut Handle<D, R>) -> Result<D, Stop>,
    L: Log + Clone + Send + 'static,
>(
    rt: &R,
    alloc: Global,
    limits: Limits,
    path: &Path,
    number: u64,
    watcher: &Watcher<D, L>,
    closure: &mut F,
) -> Result<Vec<Event<D>>, RunnerError>
    requires some { 1 ≤ limits.max_threads }
    requires few { limits.max_threads ≤ 5 }
    requires starts { IsAtStart path.now.explores path.now }
    requires callable { F.IsAlwaysCallable closure.old }
    ensures again { F.IsAlwaysCallable closure.new }
    ensures made { IfOk result (λ events. (m : Made D) × HasMadeOne (CalledAtMut F.FnMut) limits closure.old m closure.new × (m.log.history ≡ events.items)) }
    ensures errors { IfErr result IsOfRun }
{
    let shared = share(alloc, limits, path)?;
    watcher.show(rt, number, &shared);
    let told = call_closure(rt, alloc, &shared, closure)?;
    watcher.tell(rt, number, &*shared);
    let mut turns = shared.turns.lock(rt);
    settled_events(limits, path, &mut *turns, told.as_slice())
}

/// The events of the run, if its end is settled.
fn settled_events<D: Exact>(
    limits: Limits,
    path: &Path,
    turns: &mut Turns<D>,
    told: &[Told<D>],
) -> Result<Vec<Event<D>>, RunnerError>
    ensures errors { IfErr result IsOfRun }
    ensures settled { IfOk result (λ events. Checked limits path.now turns.old told.now × (events.items ≡ turns.old.history)) }
{
    if let Some(stop) = turns.spoiled() {
        return Err(error_by(stop));
    }
    if !turns.settle(path, limits, told) {
        return Err(RunnerError::NotSettled);
    }
    match turns.take_events() {
        Ok(events) => Ok(events),
        Err(_) => Err(RunnerError::Memory),
    }
}
