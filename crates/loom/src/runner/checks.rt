//! Checks of a closure: one run after another, up to a report.
ghost use Rattle.std.specs.Prelude.{◌≡◌, false, IfOk, IfErr, OnErr};
ghost use Rattle.std.specs.Fn.{CalledAtMut};
ghost use Rattle.loom.specs.Model.Settings.{tested};
ghost use Rattle.loom.specs.Model.Stores.{HasRisen};
ghost use Rattle.loom.specs.declared.runner.error.RunnerError.TheVariants.{Settings};
ghost use Rattle.loom.specs.Runner.Alike.{IsChangedSo, ReportsAlike};
ghost use Rattle.loom.specs.Runner.AsAsked.{ReportsAsAsked, ReportsAsAskedAlone, ReportsAsAskedUnsaved};
ghost use Rattle.loom.specs.Runner.Check.{Reports, limits_of};
ghost use Rattle.loom.specs.Runner.Refusals.{CountsFaults, IsNoReport, IsNoReportAlone, IsNoReportUnsaved, StillHolds};

use crate::checkpoint::file::file_store;
use crate::checkpoint::memory::MemoryStore;
use crate::checkpoint::store::CheckpointStore;
use crate::model::builder::Builder;
use crate::model::clock::{Clock, NoClock};
use crate::model::report::Report;
use crate::model::visitor::Visitor;
use crate::runner::error::RunnerError;
use crate::runner::exact::Exact;
use crate::runner::failures::tell_failure;
use crate::runner::handle::Handle;
use crate::runner::last_run::LastRun;
use crate::runner::recorded::check_recorded_lent;
use crate::runner::rounds::make_rounds;
use crate::runner::shared::Room;
use crate::runner::stop::Stop;
use crate::runner::watcher::Watcher;
use log::Log;
use std::alloc::Global;
use std::rt::Files;
use std::sync::Wait;
use std::thread::Threads;

/// Makes one run of the closure after another, until nothing is left that the search tries, a run fails or `max_permutations`
/// runs were made, and gives each that ended without a failure to the visitor (own; loom's `Builder::check` takes closures). The
/// closure is main: it is called once for each run, and spawns the run's other threads by its handle. Where the builder says
/// `recorded` the check is that of `check_recorded`, which calls it more seldom.
///
/// A setting out of range is refused before any run, as `Settings`. Besides, an error comes only where a growth or a thread was
/// refused, as `Memory` and `Refused`, or where a run's end isn't settled, as `NotSettled`: mostly where the threads' operations
/// and replies aren't those of its history. Then the visitor was given just the runs that had ended before. So it was where a thread
/// hands over another operation than in the run before, after the same choices: that is `Changed`, unless the run fails as
/// `NotDeterministic`, since its path says otherwise. It has no clock: only a `max_duration` of zero stops it.
///
/// It begins with the path in the `checkpoint_file`, if one is set, and saves its checkpoints there, as `check_with` does with the
/// `FileStore` of that name.
pub fn check<
    D: Exact + 'static,
    R: Files + Threads + Wait + Clone + Send + 'static,
    F: FnMut(&mut Handle<D, R>) -> Result<D, Stop>,
    V: Visitor<D>,
>(
    rt: &R,
    alloc: Global,
    builder: &Builder,
    mut closure: F,
    visitor: &mut V,
) -> Result<Report, RunnerError>
    requires { F.IsAlwaysCallable closure }
    ensures reports { IfOk result (ReportsAsAskedAlone (CalledAtMut F.FnMut) V.takes builder.now closure visitor.old visitor.new) }
    ensures alike { builder.now.recorded ≡ false → IfOk result (ReportsAlike (CalledAtMut F.FnMut) V.takes (limits_of builder.now) closure) }
    ensures changed { builder.now.recorded ≡ false → IfErr result (IsChangedSo (CalledAtMut F.FnMut) V.takes (limits_of builder.now) closure) }
    ensures refused { IfErr (tested builder.now) (λ e. (result ≡ Err (Settings e)) × (visitor.new ≡ visitor.old)) }
    ensures errors { builder.now.recorded ≡ false → IfErr result (IsNoReportAlone (CalledAtMut F.FnMut) V.takes builder.now closure visitor.old visitor.new) }
{
    let log = None::<HostRuntime>;
    check_lent(rt, alloc, builder, &mut closure, visitor, &log)
}

/// `check` of a closure that is called again afterwards, with a log.
pub(crate) fn check_lent<
    D: Exact + 'static,
    R: Files + Threads + Wait + Clone + Send + 'static,
    F: FnMut(&mut Handle<D, R>) -> Result<D, Stop>,
    V: Visitor<D>,
    L: Log + Clone + Send + 'static,
>(
    rt: &R,
    alloc: Global,
    builder: &Builder,
    closure: &mut F,
    visitor: &mut V,
    log: &L,
) -> Result<Report, RunnerError>
    requires { F.IsAlwaysCallable closure.old }
    ensures again { F.IsAlwaysCallable closure.new }
    ensures reports { IfOk result (ReportsAsAskedAlone (CalledAtMut F.FnMut) V.takes builder.now closure.old visitor.old visitor.new) }
    ensures alike { builder.now.recorded ≡ false → IfOk result (ReportsAlike (CalledAtMut F.FnMut) V.takes (limits_of builder.now) closure.old) }
    ensures changed { builder.now.recorded ≡ false → IfErr result (IsChangedSo (CalledAtMut F.FnMut) V.takes (limits_of builder.now) closure.old) }
    ensures refused { IfErr (tested builder.now) (λ e. (result ≡ Err (Settings e)) × (visitor.new ≡ visitor.old)) }
    ensures errors { builder.now.recorded ≡ false → IfErr result (IsNoReportAlone (CalledAtMut F.FnMut) V.takes builder.now closure.old visitor.old visitor.new) }
{
    match file_store(rt, alloc, &builder.checkpoint_file) {
        Some(mut store) => check_lent_with(
            rt,
            alloc,
            builder,
            closure,
            visitor,
            &mut NoClock,
            &mut store,
            log,
        ),
        None => check_unsaved(rt, alloc, builder, closure, visitor, log),
    }
}

/// `check_lent` without a file.
pub(crate) fn check_unsaved<
    D: Exact + 'static,
    R: Threads + Wait + Clone + Send + 'static,
    F: FnMut(&mut Handle<D, R>) -> Result<D, Stop>,
    V: Visitor<D>,
    L: Log + Clone + Send + 'static,
>(
    rt: &R,
    alloc: Global,
    builder: &Builder,
    closure: &mut F,
    visitor: &mut V,
    log: &L,
) -> Result<Report, RunnerError>
    requires { F.IsAlwaysCallable closure.old }
    ensures again { F.IsAlwaysCallable closure.new }
    ensures reports { IfOk result (ReportsAsAskedUnsaved (CalledAtMut F.FnMut) V.takes builder.now closure.old visitor.old visitor.new) }
    ensures alike { builder.now.recorded ≡ false → IfOk result (ReportsAlike (CalledAtMut F.FnMut) V.takes (limits_of builder.now) closure.old) }
    ensures changed { builder.now.recorded ≡ false → IfErr result (IsChangedSo (CalledAtMut F.FnMut) V.takes (limits_of builder.now) closure.old) }
    ensures refused { IfErr (tested builder.now) (λ e. (result ≡ Err (Settings e)) × (visitor.new ≡ visitor.old)) }
    ensures errors { builder.now.recorded ≡ false → IfErr result (IsNoReportUnsaved (CalledAtMut F.FnMut) V.takes builder.now closure.old visitor.old visitor.new) }
{
    let mut store = None::<MemoryStore>;
    check_lent_with(
        rt,
        alloc,
        builder,
        closure,
        visitor,
        &mut NoClock,
        &mut store,
        log,
    )
}

/// Makes one run of the closure after another, until nothing is left that the search tries, a run fails or a limit is reached,
/// and gives each that ended without a failure to the visitor (own; for bodies it is `Builder::check_with`). It begins with the
/// path that the store holds, if there is one, and saves its path before each run whose number is a multiple of the interval, and
/// where it stops. The clock is asked once before each run, where a duration is set. `None` is no store and no log.
///
/// The log is a handle, whose clones tell the same reader. It hears of a run's number before each save, and how many were made; by the
/// builder's `log` which threads go on, at Debug; as a warning of a thread that goes on after a run has stopped, once a thousand of its
/// calls were answered so, and of one that holds the turn for ten seconds; and as an error of a run that failed, with what happened in
/// it, for which the closure is called once more. A thread of the host looks at the runs once a second for the warnings.
///
/// Where the builder says `recorded` the check is that of `check_recorded`.
///
/// A setting out of range is refused before any run, the first one first, and then a text that is no path of this check, both as
/// `Settings`; a fault of the store is one too. Its other errors are those of `check`. After an error only visitor, clock, store and
/// log have moved, and the store holds what it held, or a text of a path that the check has reached. Where the path that the store
/// held is one of another closure, the first run may fail as `NotDeterministic`.
pub fn check_with<
    D: Exact + 'static,
    R: Threads + Wait + Clone + Send + 'static,
    F: FnMut(&mut Handle<D, R>) -> Result<D, Stop>,
    V: Visitor<D>,
    C: Clock,
    S: CheckpointStore,
    L: Log + Clone + Send + 'static,
>(
    rt: &R,
    alloc: Global,
    builder: &Builder,
    mut closure: F,
    visitor: &mut V,
    clock: &mut C,
    store: &mut S,
    log: &L,
) -> Result<Report, RunnerError>
    requires { F.IsAlwaysCallable closure }
    ensures reports { IfOk result (ReportsAsAsked (CalledAtMut F.FnMut) V.takes builder.now closure visitor.old visitor.new (S.gives store.old) (S.holds store.new) (C.answered clock.new)) }
    ensures alike { builder.now.recorded ≡ false → IfOk result (ReportsAlike (CalledAtMut F.FnMut) V.takes (limits_of builder.now) closure) }
    ensures changed { builder.now.recorded ≡ false → IfErr result (IsChangedSo (CalledAtMut F.FnMut) V.takes (limits_of builder.now) closure) }
    ensures refused { IfErr (tested builder.now) (λ e. (result ≡ Err (Settings e)) × (visitor.new ≡ visitor.old)) }
    ensures errors { builder.now.recorded ≡ false → IfErr result (IsNoReport (CalledAtMut F.FnMut) V.takes builder.now (S.gives store.old) (HasRisen (S.fault_count store.old) (S.fault_count store.new)) closure visitor.old visitor.new) }
    ensures left { builder.now.recorded ≡ false → OnErr result (StillHolds (CalledAtMut F.FnMut) V.takes builder.now (S.gives store.old) (S.holds store.old) (S.holds store.new) closure visitor.old) }
    ensures faults { CountsFaults result (S.fault_count store.old) (S.fault_count store.new) }
{
    check_lent_with(rt, alloc, builder, &mut closure, visitor, clock, store, log)
}

/// `check_with` of a closure that is called again afterwards.
pub(crate) fn check_lent_with<
    D: Exact + 'static,
    R: Threads + Wait + Clone + Send + 'static,
    F: FnMut(&mut Handle<D, R>) -> Result<D, Stop>,
    V: Visitor<D>,
    C: Clock,
    S: CheckpointStore,
    L: Log + Clone + Send + 'static,
>(
    rt: &R,
    alloc: Global,
    builder: &Builder,
    closure: &mut F,
    visitor: &mut V,
    clock: &mut C,
    store: &mut S,
    log: &L,
) -> Result<Report, RunnerError>
    requires { F.IsAlwaysCallable closure.old }
    ensures again { F.IsAlwaysCallable closure.new }
    ensures reports { IfOk result (ReportsAsAsked (CalledAtMut F.FnMut) V.takes builder.now closure.old visitor.old visitor.new (S.gives store.old) (S.holds store.new) (C.answered clock.new)) }
    ensures alike { builder.now.recorded ≡ false → IfOk result (ReportsAlike (CalledAtMut F.FnMut) V.takes (limits_of builder.now) closure.old) }
    ensures changed { builder.now.recorded ≡ false → IfErr result (IsChangedSo (CalledAtMut F.FnMut) V.takes (limits_of builder.now) closure.old) }
    ensures refused { IfErr (tested builder.now) (λ e. (result ≡ Err (Settings e)) × (visitor.new ≡ visitor.old)) }
    ensures errors { builder.now.recorded ≡ false → IfErr result (IsNoReport (CalledAtMut F.FnMut) V.takes builder.now (S.gives store.old) (HasRisen (S.fault_count store.old) (S.fault_count store.new)) closure.old visitor.old visitor.new) }
    ensures left { builder.now.recorded ≡ false → OnErr result (StillHolds (CalledAtMut F.FnMut) V.takes builder.now (S.gives store.old) (S.holds store.old) (S.holds store.new) closure.old visitor.old) }
    ensures faults { CountsFaults result (S.fault_count store.old) (S.fault_count store.new) }
{
    if builder.recorded {
        check_recorded_lent(rt, alloc, builder, closure, visitor, clock, store, log)
    } else {
        check_called(rt, alloc, builder, closure, visitor, clock, store, log)
    }
}

/// `check_lent_with` where nothing is recorded: each run is a call of the closure.
fn check_called<
    D: Exact + 'static,
    R: Threads + Wait + Clone + Send + 'static,
    F: FnMut(&mut Handle<D, R>) -> Result<D, Stop>,
    V: Visitor<D>,
    C: Clock,
    S: CheckpointStore,
    L: Log + Clone + Send + 'static,
>(
    rt: &R,
    alloc: Global,
    builder: &Builder,
    closure: &mut F,
    visitor: &mut V,
    clock: &mut C,
    store: &mut S,
    log: &L,
) -> Result<Report, RunnerError>
    requires { F.IsAlwaysCallable closure.old }
    ensures again { F.IsAlwaysCallable closure.new }
    ensures reports { IfOk result (Reports (CalledAtMut F.FnMut) V.takes builder.now closure.old visitor.old visitor.new (S.gives store.old) (S.holds store.new) (C.answered clock.new)) }
    ensures alike { IfOk result (ReportsAlike (CalledAtMut F.FnMut) V.takes (limits_of builder.now) closure.old) }
    ensures changed { IfErr result (IsChangedSo (CalledAtMut F.FnMut) V.takes (limits_of builder.now) closure.old) }
    ensures refused { IfErr (tested builder.now) (λ e. (result ≡ Err (Settings e)) × (visitor.new ≡ visitor.old)) }
    ensures errors { IfErr result (IsNoReport (CalledAtMut F.FnMut) V.takes builder.now (S.gives store.old) (HasRisen (S.fault_count store.old) (S.fault_count store.new)) closure.old visitor.old visitor.new) }
    ensures left { OnErr result (StillHolds (CalledAtMut F.FnMut) V.takes builder.now (S.gives store.old) (S.holds store.old) (S.holds store.new) closure.old visitor.old) }
    ensures faults { CountsFaults result (S.fault_count store.old) (S.fault_count store.new) }
{
    builder.test()?;
    let mut room = Room::new(alloc);
    let mut last = LastRun::none(alloc);
    let watcher = Watcher::start(rt, alloc, builder.log, log);
    let answer = make_rounds(
        rt, alloc, builder, &watcher, &mut room, &mut last, closure, visitor, clock, store, log,
    );
    watcher.end(rt);
    room.end(rt);
    tell_failure(rt, alloc, builder, &answer, closure, log);
    answer
}
