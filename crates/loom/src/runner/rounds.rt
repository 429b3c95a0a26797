//! The loop of a check of closures: one run after another, until none is left, one fails or a limit is reached.
ghost use Rattle.std.specs.Prelude.{◌≡◌, ◌≤◌, ◌<◌, [], IfOk, IfErr, OnErr, IfSome};
ghost use Rattle.std.specs.Fn.{CalledAtMut};
ghost use Rattle.loom.specs.Model.Stores.{HasRisen};
ghost use Rattle.loom.specs.Runner.Alike.{IsChangedSo, ReportsAlike, trace};
ghost use Rattle.loom.specs.Runner.Check.{Reports, limits_of};
ghost use Rattle.loom.specs.Runner.Refusals.{CountsFaults, GivesUp, StillHolds};

use crate::checkpoint::store::CheckpointStore;
use crate::model::builder::Builder;
use crate::model::clock::Clock;
use crate::model::report::Report;
use crate::model::saving::{Pace, keep, stop};
use crate::model::search::complete;
use crate::model::visitor::Visitor;
use crate::runner::error::RunnerError;
use crate::runner::exact::Exact;
use crate::runner::handle::Handle;
use crate::runner::last_run::LastRun;
use crate::runner::run::make_next_run;
use crate::runner::run_end::RunEnd;
use crate::runner::shared::Room;
use crate::runner::stop::Stop;
use crate::runner::watcher::Watcher;
use log::Log;
use loom_engine::rt::execution::Limits;
use std::alloc::Global;
use std::sync::Wait;
use std::thread::Threads;

/// Makes one run of the closure after another, by settings in range, from the path on that the store holds, each of them like the
/// last one. The watcher is shown each of them, and one after another uses this room.
pub(crate) fn make_rounds<
    D: Exact + 'static,
    R: Threads + Wait + Clone + Send + 'static,
    F: FnMut(&mut Handle<D, R>) -> Result<D, Stop>,
    V: Visitor<D>,
    C: Clock,
    S: CheckpointStore,
    L: Log + Clone + Send + 'static,
>(
    rt: &R,
    alloc: Global,
    builder: &Builder,
    watcher: &Watcher<D, L>,
    room: &mut Room<D>,
    last: &mut LastRun<D>,
    closure: &mut F,
    visitor: &mut V,
    clock: &mut C,
    store: &mut S,
    log: &L,
) -> Result<Report, RunnerError>
    requires some { 1 ≤ builder.now.max_threads }
    requires few { builder.now.max_threads ≤ 5 }
    requires branches { builder.now.max_branches ≤ 1000000 }
    requires bound { IfSome builder.now.preemption_bound (λ bound. bound ≤ 255) }
    requires interval { 0 < builder.now.checkpoint_interval }
    requires first { last.old ≡ trace [] [] }
    requires callable { F.IsAlwaysCallable closure.old }
    ensures again { F.IsAlwaysCallable closure.new }
    ensures reports { IfOk result (Reports (CalledAtMut F.FnMut) V.takes builder.now closure.old visitor.old visitor.new (S.gives store.old) (S.holds store.new) (C.answered clock.new)) }
    ensures alike { IfOk result (ReportsAlike (CalledAtMut F.FnMut) V.takes (limits_of builder.now) closure.old) }
    ensures changed { IfErr result (IsChangedSo (CalledAtMut F.FnMut) V.takes (limits_of builder.now) closure.old) }
    ensures errors { IfErr result (GivesUp (CalledAtMut F.FnMut) V.takes builder.now (S.gives store.old) (HasRisen (S.fault_count store.old) (S.fault_count store.new)) closure.old visitor.old visitor.new) }
    ensures left { OnErr result (StillHolds (CalledAtMut F.FnMut) V.takes builder.now (S.gives store.old) (S.holds store.old) (S.holds store.new) closure.old visitor.old) }
    ensures faults { CountsFaults result (S.fault_count store.old) (S.fault_count store.new) }
{
    let limits = Limits {
        max_threads: builder.max_threads,
        max_steps: builder.max_steps,
    };
    let mut path = builder.begin(alloc, store)?;
    let mut pace = Pace::new(builder.checkpoint_interval);
    loop {
        if let Some(limit) = builder.reached(pace.runs, clock) {
            return Ok(stop(alloc, &path, store, pace.runs, limit)?);
        }
        let left = keep(alloc, &path, store, log, &pace)?;
        pace.until_save = left;
        let number = pace.runs + 1;
        let end = make_next_run(
            rt, alloc, limits, &path, number, watcher, room, last, closure, visitor,
        )?;
        match end {
            RunEnd::Ended(Some(next)) => {
                path = next;
                pace.runs += 1;
            }
            RunEnd::Ended(None) => return Ok(complete(log, pace.runs + 1)),
            RunEnd::Failed(failure, choices) => {
                return Ok(Report::Failed {
                    runs: pace.runs,
                    failure,
                    choices,
                });
            }
        }
    }
}
