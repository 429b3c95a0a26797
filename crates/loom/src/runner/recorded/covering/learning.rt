//! What closures do in the runs of a search that remembers states is recorded, so that a check can be made of that.
ghost use Rattle.std.specs.Prelude.{◌≡◌, ◌≤◌, IfErr, IfOk};
ghost use Rattle.std.specs.Fn.{CalledAtMut};
ghost use Rattle.loom_engine.specs.Path.Route.{at_rest};
ghost use Rattle.loom_engine.specs.Trees.Meeting.{whole_search};
ghost use Rattle.loom.specs.Model.Settings.{explores};
ghost use Rattle.loom.specs.Runner.Check.{limits_of};
ghost use Rattle.loom.specs.Runner.Recording.{IsOfRun, Records, RecordsMore, RecordsRun};

use crate::model::builder::Builder;
use crate::model::clock::Clock;
use crate::model::cover::run::Ending;
use crate::model::paths::path_search;
use crate::runner::error::RunnerError;
use crate::runner::exact::Exact;
use crate::runner::handle::Handle;
use crate::runner::recorded::adding::record_run;
use crate::runner::recorded::covering::run::{Place, Room, run};
use crate::runner::recorded::recording::Recording;
use crate::runner::recorded::rounds::make_real_run;
use crate::runner::stop::Stop;
use crate::runner::watcher::Watcher;
use log::Log;
use loom_engine::rt::execution::Limits;
use loom_engine::rt::path::Path;
use loom_engine::rt::states::States;
use loom_views::same::Same;
use std::alloc::{AllocError, Global};
use std::sync::Wait;
use std::thread::Threads;

/// A search under way, in which answers may be missing.
#[derive(Drop)]
struct Search<D> {
    path: Path,
    states: States<D, Place>,
    // how many of its runs were begun
    runs: u64,
    // how often the closure was called in this search and those before it
    calls: u64,
    // whether an answer was missing in a run
    misses: bool,
    // whether it goes no further
    is_over: bool,
}

impl<D: Exact + Same> Search<D> {
    /// One that begins, after so many calls of the closure.
    fn begin(
        alloc: Global,
        builder: &Builder,
        most_states: usize,
        calls: u64,
    ) -> Result<Search<D>, AllocError>
        requires branches { builder.now.max_branches ≤ 1000000 }
        ensures { IfOk result (λ search. search.path ≡ at_rest (whole_search builder.now.max_branches) (explores builder.now) search.path.nodes) }
    {
        let settings = path_search(
            false,
            None,
            builder.max_branches,
            builder.expect_explicit_explore,
        );
        let states = States::new(alloc, most_states, false)?;
        let path = Path::new(alloc, settings);
        Ok(Search {
            path,
            states,
            runs: 0,
            calls,
            misses: false,
            is_over: false,
        })
    }

    /// Whether it is over, and no answer was missing.
    fn is_whole(&self) -> bool {
        self.is_over && !self.misses
    }

    /// Begins again if it is over. `Memory` where that is refused.
    fn go_round(
        &mut self,
        alloc: Global,
        builder: &Builder,
        most_states: usize,
    ) -> Result<(), RunnerError>
        requires branches { builder.now.max_branches ≤ 1000000 }
        requires rests { self.old.path ≡ at_rest (whole_search builder.now.max_branches) (explores builder.now) self.old.path.nodes }
        ensures rests { IfOk result (λ _. self.new.path ≡ at_rest (whole_search builder.now.max_branches) (explores builder.now) self.new.path.nodes) }
        ensures errors { IfErr result IsOfRun }
    {
        if !self.is_over {
            return Ok(());
        }
        match Search::begin(alloc, builder, most_states, self.calls) {
            Ok(again) => {
                *self = again;
                Ok(())
            }
            Err(_) => Err(RunnerError::Memory),
        }
    }

    /// Goes on to the next path. The search is over where none is left, and behind a run that failed.
    fn step(&mut self, has_failed: bool)
        ensures { self.new.path ≡ at_rest self.old.path.search self.old.path.explores self.new.path.nodes }
    {
        let has_next = self.path.step();
        self.is_over = !has_next || has_failed;
    }
}

/// Whether the run failed.
fn is_failed<D>(ending: &Ending<D>) -> bool {
    matches!(ending, Ending::Failed(_))
}

/// Records what threads hand over in the runs of a check that remembers states. Wherever an answer isn't recorded a run of the closure is
/// made along the choices up to there, and the search goes on with its next path. It begins again until no answer was missing in it. A
/// limit ends it, and a failure.
pub(crate) fn learn<
    D: Exact + Same + 'static,
    R: Threads + Wait + Clone + Send + 'static,
    F: FnMut(&mut Handle<D, R>) -> Result<D, Stop>,
    C: Clock,
    L: Log + Clone + Send + 'static,
>(
    rt: &R,
    alloc: Global,
    builder: &Builder,
    watcher: &Watcher<D, L>,
    closure: &mut F,
    clock: &mut C,
    recording: &mut Recording<D>,
    most_states: usize,
) -> Result<(), RunnerError>
    requires some { 1 ≤ builder.now.max_threads }
    requires few { builder.now.max_threads ≤ 5 }
    requires branches { builder.now.max_branches ≤ 1000000 }
    requires callable { F.IsAlwaysCallable closure.old }
    ensures records { IfOk result (λ _. Records (CalledAtMut F.FnMut) (limits_of builder.now) closure.old recording.old closure.new recording.new) }
    ensures errors { IfErr result IsOfRun }
{
    let limits = Limits {
        max_threads: builder.max_threads,
        max_steps: builder.max_steps,
    };
    let Ok(mut room) = Room::new(alloc, limits) else {
        return Err(RunnerError::Memory);
    };
    let Ok(mut search) = Search::begin(alloc, builder, most_states, 0) else {
        return Err(RunnerError::Memory);
    };
    'searches: for _ in rt.forever() {
        go_on(
            rt,
            alloc,
            builder,
            limits,
            watcher,
            closure,
            clock,
            recording,
            &mut room,
            &mut search,
        )?;
        if search.is_whole() {
            return Ok(());
        }
        search.go_round(alloc, builder, most_states)?;
    }
    unreachable!()
}

/// The next run of the search, by what is recorded, and its step to the one behind. Where an answer isn't recorded a run of the closure is
/// made and recorded.
fn go_on<
    D: Exact + Same + 'static,
    R: Threads + Wait + Clone + Send + 'static,
    F: FnMut(&mut Handle<D, R>) -> Result<D, Stop>,
    C: Clock,
    L: Log + Clone + Send + 'static,
>(
    rt: &R,
    alloc: Global,
    builder: &Builder,
    limits: Limits,
    watcher: &Watcher<D, L>,
    closure: &mut F,
    clock: &mut C,
    recording: &mut Recording<D>,
    room: &mut Room<D>,
    search: &mut Search<D>,
) -> Result<(), RunnerError>
    requires some { 1 ≤ limits.max_threads }
    requires few { limits.max_threads ≤ 5 }
    requires branches { builder.now.max_branches ≤ 1000000 }
    requires rests { search.old.path ≡ at_rest (whole_search builder.now.max_branches) (explores builder.now) search.old.path.nodes }
    requires callable { F.IsAlwaysCallable closure.old }
    ensures again { F.IsAlwaysCallable closure.new }
    ensures rests { IfOk result (λ _. search.new.path ≡ at_rest (whole_search builder.now.max_branches) (explores builder.now) search.new.path.nodes) }
    ensures records { IfOk result (λ _. RecordsMore (CalledAtMut F.FnMut) limits closure.old recording.old closure.new recording.new) }
    ensures errors { IfErr result IsOfRun }
{
    if builder.reached(search.runs, clock).is_some() {
        search.is_over = true;
        return Ok(());
    }
    search.runs += 1;
    match run(
        room,
        limits,
        recording,
        &mut search.path,
        &mut search.states,
    ) {
        Err(_) => Err(RunnerError::Memory),
        Ok(Some(ending)) => {
            let has_failed = is_failed(&ending);
            search.step(has_failed);
            Ok(())
        }
        Ok(None) => {
            search.misses = true;
            search.calls = search.calls.saturating_add(1);
            let number = search.calls;
            record_along(
                rt,
                alloc,
                builder,
                limits,
                number,
                &search.path,
                watcher,
                closure,
                recording,
            )?;
            search.step(false);
            Ok(())
        }
    }
}

/// Makes the run of this number of the closure along the choices that the path has so far, and records it.
fn record_along<
    D: Exact + 'static,
    R: Threads + Wait + Clone + Send + 'static,
    F: FnMut(&mut Handle<D, R>) -> Result<D, Stop>,
    L: Log + Clone + Send + 'static,
>(
    rt: &R,
    alloc: Global,
    builder: &Builder,
    limits: Limits,
    number: u64,
    path: &Path,
    watcher: &Watcher<D, L>,
    closure: &mut F,
    recording: &mut Recording<D>,
) -> Result<(), RunnerError>
    requires some { 1 ≤ limits.max_threads }
    requires few { limits.max_threads ≤ 5 }
    requires branches { builder.now.max_branches ≤ 1000000 }
    requires callable { F.IsAlwaysCallable closure.old }
    ensures again { F.IsAlwaysCallable closure.new }
    ensures records { IfOk result (λ _. RecordsRun (CalledAtMut F.FnMut) limits closure.old recording.old closure.new recording.new) }
    ensures errors { IfErr result IsOfRun }
{
    let Ok(choices) = path.choices(alloc) else {
        return Err(RunnerError::Memory);
    };
    let explores = !builder.expect_explicit_explore;
    let branches = builder.max_branches as u32;
    let Ok(along) = Path::following(alloc, explores, branches, choices.as_slice()) else {
        return Err(RunnerError::Memory);
    };
    let events = make_real_run(rt, alloc, limits, &along, number, watcher, closure)?;
    record_run(alloc, recording, number, events.as_slice())
}
