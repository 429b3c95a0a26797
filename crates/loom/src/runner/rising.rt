//! Checks of closures with rising bounds on preemptions.
ghost use Rattle.std.specs.Prelude.{◌≡◌, Err, IfErr, IfOk};
ghost use Rattle.std.specs.Fn.{CalledAtMut};
ghost use Rattle.loom.specs.Model.Rising.{bounded};
ghost use Rattle.loom.specs.Model.Settings.{tested};
ghost use Rattle.loom.specs.declared.runner.error.RunnerError.TheVariants.{Settings};
ghost use Rattle.loom.specs.Runner.Rising.{ReportsAt, RisesTo};

use crate::model::builder::Builder;
use crate::model::report::Report;
use crate::model::rising::Risen;
use crate::runner::checks::check_unsaved;
use crate::runner::defaults::NoVisitor;
use crate::runner::error::RunnerError;
use crate::runner::exact::Exact;
use crate::runner::handle::Handle;
use crate::runner::stop::Stop;
use std::alloc::Global;
use std::sync::Wait;
use std::thread::Threads;

/// Few preemptions first: checks of the closure with a bound of 0 preemptions, then of 1, 2 and so on up to `up_to`, which is 0 to
/// 255, as long as each check is complete (own; for bodies it is `Builder::check_rising`). So a failure is found in a run that
/// leaves few threads that could have gone on.
///
/// Nobody is given the runs. The builder's own bound isn't used, nor is its file; its limits hold of each check by itself.
/// `PreemptionBound` where `up_to` is above 255; other settings are refused as `check` does, before any run. Its other errors are
/// those of `check`.
pub fn check_rising<
    D: Exact + 'static,
    R: Threads + Wait + Clone + Send + 'static,
    F: FnMut(&mut Handle<D, R>) -> Result<D, Stop>,
>(
    rt: &R,
    alloc: Global,
    builder: &Builder,
    mut closure: F,
    up_to: usize,
) -> Result<Risen, RunnerError>
    requires { F.IsAlwaysCallable closure }
    ensures rises { IfOk result (RisesTo (CalledAtMut F.FnMut) builder.now up_to) }
    ensures refused { IfErr (tested (bounded builder.now up_to)) (λ e. result ≡ Err (Settings e)) }
{
    builder.with_bound(up_to).test()?;
    raise(rt, alloc, builder, &mut closure, up_to)
}

/// The checks, by settings in range.
fn raise<
    D: Exact + 'static,
    R: Threads + Wait + Clone + Send + 'static,
    F: FnMut(&mut Handle<D, R>) -> Result<D, Stop>,
>(
    rt: &R,
    alloc: Global,
    builder: &Builder,
    closure: &mut F,
    up_to: usize,
) -> Result<Risen, RunnerError>
    requires { F.IsAlwaysCallable closure.old }
    ensures { IfOk result (RisesTo (CalledAtMut F.FnMut) builder.now up_to) }
{
    let mut bound = 0;
    loop {
        let report = check_bounded(rt, alloc, builder, closure, bound)?;
        if bound >= up_to || !report.is_complete() {
            return Ok(Risen { bound, report });
        }
        bound += 1;
    }
}

/// A check with this bound, and without a file.
fn check_bounded<
    D: Exact + 'static,
    R: Threads + Wait + Clone + Send + 'static,
    F: FnMut(&mut Handle<D, R>) -> Result<D, Stop>,
>(
    rt: &R,
    alloc: Global,
    builder: &Builder,
    closure: &mut F,
    bound: usize,
) -> Result<Report, RunnerError>
    requires { F.IsAlwaysCallable closure.old }
    ensures again { F.IsAlwaysCallable closure.new }
    ensures reports { IfOk result (ReportsAt (CalledAtMut F.FnMut) builder.now bound) }
{
    let bounded = builder.with_bound(bound);
    let log = None::<HostRuntime>;
    check_unsaved(rt, alloc, &bounded, closure, &mut NoVisitor, &log)
}
