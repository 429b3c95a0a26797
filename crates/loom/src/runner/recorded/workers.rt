//! Checks of recorded closures by several threads of the host at once: each makes runs of a part of the search by what is recorded.
mod turn;
mod working;

ghost use Rattle.std.specs.Prelude.{◌≡◌, ◌≤◌, ◌∷◌, [], Err, IfErr, IfOk, IfSome};
ghost use Rattle.std.specs.Fn.{CalledAtMut};
ghost use Rattle.loom.specs.Model.Settings.{tested};
ghost use Rattle.loom.specs.declared.runner.error.RunnerError.TheVariants.{Settings};
ghost use Rattle.loom.specs.Runner.Check.{limits_of};
ghost use Rattle.loom.specs.Runner.Recorded.{FindsRecorded, Function};
ghost use Rattle.loom.specs.Runner.Recording.{IsTrueOf};

use crate::model::builder::Builder;
use crate::model::clock::Clock;
use crate::model::limits::{log_runs, most_runs};
use crate::model::visitor::Visitor;
use crate::runner::error::RunnerError;
use crate::runner::exact::Exact;
use crate::runner::handle::Handle;
use crate::runner::parallel::round::{Lost, cut_up};
use crate::runner::parallel::visitors::Visitors;
use crate::runner::parallel::{Found, Workers, tell};
use crate::runner::recorded::rounds::Recorder;
use crate::runner::recorded::workers::turn::make_turn;
use crate::runner::stop::Stop;
use crate::runner::watcher::Watcher;
use log::Log;
use loom_engine::rt::execution::Limits;
use loom_engine::rt::parts::Parts;
use std::alloc::Global;
use std::rt::Clock as HostTime;
use std::sync::Wait;
use std::thread::Threads;

/// A check by several workers, of a closure each of whose threads does what rests on nothing but the replies to it (own; for bodies it is
/// `check_parallel`, which says how parts are worked on, what the visitors are given, and what the log hears).
///
/// What the threads hand over is recorded, and the workers make runs of that alone. Before a part is handed out its next run is made: where
/// that needs an answer that isn't recorded, the closure is called, by the thread that calls this. A worker whose run lacks an answer
/// ends its turn, and with it that of the others. So the closure needn't be `Sync`, but its data have to.
///
/// In `Changed` the number of a run is by one more than that of the runs that were counted before the turn. The errors besides are those
/// of `check_recorded`, but for those of a store. After an error the list is of no use.
pub fn check_parallel_recorded<
    D: Exact + Sync + 'static,
    R: Threads + Wait + HostTime + Clone + Send + Sync + 'static,
    F: FnMut(&mut Handle<D, R>) -> Result<D, Stop>,
    V: Visitor<D> + Send + Drop,
    G: Visitors<V>,
    C: Clock,
    L: Log + Clone + Send + 'static,
>(
    rt: &R,
    alloc: Global,
    builder: &Builder,
    mut closure: F,
    workers: Workers,
    parts: &mut Parts,
    visitors: &mut G,
    clock: &mut C,
    log: &L,
) -> Result<Found, RunnerError>
    requires { F.IsAlwaysCallable closure }
    ensures finds { IfOk result (FindsRecorded (CalledAtMut F.FnMut) V.takes G.is_new G.joins builder.now closure (C.answered clock.new) parts.old parts.new visitors.old visitors.new) }
    ensures refused { IfErr (tested builder.now) (λ e. (result ≡ Err (Settings e)) × (visitors.new ≡ visitors.old) × (parts.new ≡ parts.old)) }
{
    builder.test()?;
    let watcher = Watcher::start(rt, alloc, builder.log, log);
    let found = find(
        rt,
        alloc,
        builder,
        &watcher,
        &mut closure,
        workers,
        parts,
        visitors,
        clock,
        log,
    );
    watcher.end(rt);
    found
}

/// What they find, by settings in range. The watcher is shown the runs of the closure.
fn find<
    D: Exact + Sync + 'static,
    R: Threads + Wait + HostTime + Clone + Send + Sync + 'static,
    F: FnMut(&mut Handle<D, R>) -> Result<D, Stop>,
    V: Visitor<D> + Send + Drop,
    G: Visitors<V>,
    C: Clock,
    L: Log + Clone + Send + 'static,
>(
    rt: &R,
    alloc: Global,
    builder: &Builder,
    watcher: &Watcher<D, L>,
    closure: &mut F,
    workers: Workers,
    parts: &mut Parts,
    visitors: &mut G,
    clock: &mut C,
    log: &L,
) -> Result<Found, RunnerError>
    requires some { 1 ≤ builder.now.max_threads }
    requires few { builder.now.max_threads ≤ 5 }
    requires branches { builder.now.max_branches ≤ 1000000 }
    requires bound { IfSome builder.now.preemption_bound (λ bound. bound ≤ 255) }
    requires callable { F.IsAlwaysCallable closure.old }
    ensures { IfOk result (FindsRecorded (CalledAtMut F.FnMut) V.takes G.is_new G.joins builder.now closure.old (C.answered clock.new) parts.old parts.new visitors.old visitors.new) }
{
    let limits = Limits {
        max_threads: builder.max_threads,
        max_steps: builder.max_steps,
    };
    let mut recorder = Recorder::new(alloc, limits, builder.location)?;
    find_by(
        rt,
        alloc,
        builder,
        watcher,
        closure,
        workers,
        parts,
        visitors,
        clock,
        log,
        &mut recorder,
    )
}

/// What they find by this recorder, which has recorded nothing yet.
fn find_by<
    D: Exact + Sync + 'static,
    R: Threads + Wait + HostTime + Clone + Send + Sync + 'static,
    F: FnMut(&mut Handle<D, R>) -> Result<D, Stop>,
    V: Visitor<D> + Send + Drop,
    G: Visitors<V>,
    C: Clock,
    L: Log + Clone + Send + 'static,
>(
    rt: &R,
    alloc: Global,
    builder: &Builder,
    watcher: &Watcher<D, L>,
    closure: &mut F,
    workers: Workers,
    parts: &mut Parts,
    visitors: &mut G,
    clock: &mut C,
    log: &L,
    recorder: &mut Recorder<D>,
) -> Result<Found, RunnerError>
    requires some { 1 ≤ builder.now.max_threads }
    requires few { builder.now.max_threads ≤ 5 }
    requires branches { builder.now.max_branches ≤ 1000000 }
    requires bound { IfSome builder.now.preemption_bound (λ bound. bound ≤ 255) }
    requires callable { F.IsAlwaysCallable closure.old }
    requires limits { recorder.old.limits ≡ limits_of builder.now }
    requires fresh { (does : Function D) → IsTrueOf does ([] ∷ []) recorder.old.recording }
    ensures { IfOk result (FindsRecorded (CalledAtMut F.FnMut) V.takes G.is_new G.joins builder.now closure.old (C.answered clock.new) parts.old parts.new visitors.old visitors.new) }
{
    let mut runs = 0;
    let mut told = 0;
    'turns: for _ in rt.forever() {
        if parts.is_over() {
            log_runs(log, "completed in ", runs, " iterations");
            return Ok(Found::Complete { runs });
        }
        if let Some(limit) = builder.reached(runs, clock) {
            return Ok(Found::Stopped { runs, limit });
        }
        let room = most_runs(builder.max_permutations) - runs;
        let sharing = workers.within(room);
        let number = runs + 1;
        let turn = make_turn(
            rt, alloc, builder, number, watcher, closure, sharing, parts, visitors, recorder,
        )?;
        runs += turn.runs;
        if let Some(lost) = turn.lost {
            let Lost {
                part: _,
                failure,
                choices,
            } = lost;
            return Ok(Found::Failed {
                runs,
                failure,
                choices,
            });
        }
        cut_up(alloc, parts, sharing.count)?;
        let every = builder.checkpoint_interval;
        told = tell(log, every, runs, told, parts, sharing.count);
    }
    unreachable!()
}
