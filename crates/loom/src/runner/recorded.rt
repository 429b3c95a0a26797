//! Checks of recorded closures: what each thread answers is kept by the replies to it so far, and a run whose answers are all known is made
//! without a thread of the host.
ghost use Rattle.std.specs.Prelude.{◌≡◌, IfErr, IfOk};
ghost use Rattle.std.specs.Fn.{CalledAtMut};
ghost use Rattle.loom.specs.Model.Settings.{tested};
ghost use Rattle.loom.specs.declared.runner.error.RunnerError.TheVariants.{Settings};
ghost use Rattle.loom.specs.Runner.Recorded.{ReportsRecorded};
ghost use Rattle.loom.specs.Runner.Refusals.{CountsFaults};

mod adding;
mod covering;
mod parts;
mod playing;
pub(crate) mod recording;
mod rounds;
mod workers;

use crate::checkpoint::store::CheckpointStore;
use crate::model::builder::Builder;
use crate::model::clock::Clock;
use crate::model::report::Report;
use crate::model::visitor::Visitor;
use crate::runner::error::RunnerError;
use crate::runner::exact::Exact;
use crate::runner::failures::tell_failure;
use crate::runner::handle::Handle;
use crate::runner::recorded::rounds::make_recorded_rounds;
use crate::runner::stop::Stop;
use crate::runner::watcher::Watcher;
pub use covering::cover_recorded;
use log::Log;
pub use parts::check_part_recorded;
use std::alloc::Global;
use std::sync::Wait;
use std::thread::Threads;
pub use workers::check_parallel_recorded;

/// A check of a closure each of whose threads does what rests on nothing but the replies to it (own). What `check_with` does, by fewer
/// threads of the host: what a thread hands over is recorded, and where all that a run needs is, the run is made of that. So the
/// closure is called far more seldom than runs are made, mostly at the beginning.
///
/// A thread that hands over another operation than before after the same replies, in one of the runs that are made of the closure, is
/// `Changed`. Where half a million answers are recorded they are let go, and recorded again as they come. The errors besides are those of
/// `check_with`.
pub fn check_recorded<
    D: Exact + 'static,
    R: Threads + Wait + Clone + Send + 'static,
    F: FnMut(&mut Handle<D, R>) -> Result<D, Stop>,
    V: Visitor<D>,
    C: Clock,
    S: CheckpointStore,
    L: Log + Clone + Send + 'static,
>(
    rt: &R,
    alloc: Global,
    builder: &Builder,
    mut closure: F,
    visitor: &mut V,
    clock: &mut C,
    store: &mut S,
    log: &L,
) -> Result<Report, RunnerError>
    requires { F.IsAlwaysCallable closure }
    ensures reports { IfOk result (ReportsRecorded (CalledAtMut F.FnMut) V.takes builder.now closure visitor.old visitor.new (S.gives store.old) (S.holds store.new) (C.answered clock.new)) }
    ensures refused { IfErr (tested builder.now) (λ e. (result ≡ Err (Settings e)) × (visitor.new ≡ visitor.old)) }
    ensures faults { CountsFaults result (S.fault_count store.old) (S.fault_count store.new) }
{
    check_recorded_lent(rt, alloc, builder, &mut closure, visitor, clock, store, log)
}

/// `check_recorded` of a closure that is called again afterwards.
pub(crate) fn check_recorded_lent<
    D: Exact + 'static,
    R: Threads + Wait + Clone + Send + 'static,
    F: FnMut(&mut Handle<D, R>) -> Result<D, Stop>,
    V: Visitor<D>,
    C: Clock,
    S: CheckpointStore,
    L: Log + Clone + Send + 'static,
>(
    rt: &R,
    alloc: Global,
    builder: &Builder,
    closure: &mut F,
    visitor: &mut V,
    clock: &mut C,
    store: &mut S,
    log: &L,
) -> Result<Report, RunnerError>
    requires { F.IsAlwaysCallable closure.old }
    ensures again { F.IsAlwaysCallable closure.new }
    ensures reports { IfOk result (ReportsRecorded (CalledAtMut F.FnMut) V.takes builder.now closure.old visitor.old visitor.new (S.gives store.old) (S.holds store.new) (C.answered clock.new)) }
    ensures refused { IfErr (tested builder.now) (λ e. (result ≡ Err (Settings e)) × (visitor.new ≡ visitor.old)) }
    ensures faults { CountsFaults result (S.fault_count store.old) (S.fault_count store.new) }
{
    builder.test()?;
    let watcher = Watcher::start(rt, alloc, builder.log, log);
    let answer = make_recorded_rounds(
        rt, alloc, builder, &watcher, closure, visitor, clock, store, log,
    );
    watcher.end(rt);
    tell_failure(rt, alloc, builder, &answer, closure, log);
    answer
}
