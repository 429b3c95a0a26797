//! Walks: so many runs of a closure, whose choices are drawn, for where no search would end (own).
ghost use Rattle.std.specs.Prelude.{◌≡◌, ◌≤◌, ◌<◌, [], IfOk, IfErr};
ghost use Rattle.std.specs.Fn.{CalledAtMut};
ghost use Rattle.loom.specs.Model.Settings.{tested};
ghost use Rattle.loom.specs.declared.runner.error.RunnerError.TheVariants.{Settings};
ghost use Rattle.loom.specs.Runner.Walking.{BreaksOff, IsNoWalk, Walks};

use crate::model::builder::Builder;
use crate::model::clock::Clock;
use crate::model::different::Different;
use crate::model::drawer::Drawer;
use crate::model::limits::log_runs;
use crate::model::visitor::Visitor;
use crate::model::walk::{Walk, Walked};
use crate::runner::drawn::{DrawnEnd, draw_run};
use crate::runner::error::RunnerError;
use crate::runner::exact::Exact;
use crate::runner::handle::Handle;
use crate::runner::shared::{Children, join_all};
use crate::runner::stop::Stop;
use crate::runner::watcher::Watcher;
use log::Log;
use loom_engine::rt::path::Path;
use std::alloc::Global;
use std::sync::Wait;
use std::thread::Threads;

/// Makes so many runs of the closure whose choices are drawn, until one fails or the walk's time is up, and gives each that ended
/// without a failure to the visitor (own; for bodies it is `Builder::walk`). The closure is main: it is called once for each run. A run
/// that is cut by its length is no failure: it is counted, and the visitor isn't given it. Nothing says that runs differ, and no run is
/// compared with another one. The choices of a failure make it again, by `replay`, where the closure does the same.
///
/// Where the run explores each choice is drawn, and elsewhere it is the default. `max_duration` is the walk's time, and the clock is
/// asked once before each run, where that is set. `max_different` asks how many runs differ. Of the other limits and of the search's
/// settings nothing is used. The log hears of a run's number before each whose number is a multiple of `checkpoint_interval`, how many
/// were made, and of a run what it hears in `check_with`, but not what happened in one that failed.
///
/// A setting out of range is refused before any run, as `Settings`. Besides, an error comes only where a growth or a thread was refused,
/// as `Memory` and `Refused`, or where a run's end isn't settled, as `NotSettled`. Then the visitor was given just the runs that had ended
/// before.
pub fn walk<
    D: Exact + 'static,
    R: Threads + Wait + Clone + Send + 'static,
    F: FnMut(&mut Handle<D, R>) -> Result<D, Stop>,
    V: Visitor<D>,
    C: Clock,
    L: Log + Clone + Send + 'static,
>(
    rt: &R,
    alloc: Global,
    builder: &Builder,
    walk: Walk,
    mut closure: F,
    visitor: &mut V,
    clock: &mut C,
    log: &L,
) -> Result<Walked, RunnerError>
    requires { F.IsAlwaysCallable closure }
    ensures walks { IfOk result (Walks (CalledAtMut F.FnMut) V.takes builder.now closure visitor.old visitor.new walk (C.answered clock.new)) }
    ensures refused { IfErr (tested builder.now) (λ e. (result ≡ Err (Settings e)) × (visitor.new ≡ visitor.old)) }
    ensures errors { IfErr result (IsNoWalk (CalledAtMut F.FnMut) V.takes builder.now walk closure visitor.old visitor.new) }
{
    builder.test()?;
    let watcher = Watcher::start(rt, alloc, builder.log, log);
    let mut drawer = Drawer::new(walk);
    let mut different = Different::new(alloc, builder.max_different);
    let mut ending = Vec::new(alloc);
    let answer = make_walk(
        rt,
        alloc,
        builder,
        walk,
        &watcher,
        &mut drawer,
        &mut different,
        &mut ending,
        &mut closure,
        visitor,
        clock,
        log,
    );
    watcher.end(rt);
    join_all(rt, ending);
    answer
}

/// The runs of a walk, by settings in range, whose choices this draws. The watcher is shown each of them, the threads that the last one
/// has started are put into `ending`, and no run has come yet.
fn make_walk<
    D: Exact + 'static,
    R: Threads + Wait + Clone + Send + 'static,
    F: FnMut(&mut Handle<D, R>) -> Result<D, Stop>,
    V: Visitor<D>,
    C: Clock,
    L: Log + Clone + Send + 'static,
>(
    rt: &R,
    alloc: Global,
    builder: &Builder,
    walk: Walk,
    watcher: &Watcher<D, L>,
    drawer: &mut Drawer,
    different: &mut Different,
    ending: &mut Children,
    closure: &mut F,
    visitor: &mut V,
    clock: &mut C,
    log: &L,
) -> Result<Walked, RunnerError>
    requires some { 1 ≤ builder.now.max_threads }
    requires few { builder.now.max_threads ≤ 5 }
    requires branches { builder.now.max_branches ≤ 1000000 }
    requires interval { 0 < builder.now.checkpoint_interval }
    requires new { different.old.hashes ≡ [] }
    requires callable { F.IsAlwaysCallable closure.old }
    ensures again { F.IsAlwaysCallable closure.new }
    ensures walks { IfOk result (Walks (CalledAtMut F.FnMut) V.takes builder.now closure.old visitor.old visitor.new walk (C.answered clock.new)) }
    ensures errors { IfErr result (BreaksOff (CalledAtMut F.FnMut) V.takes builder.now walk closure.old visitor.old visitor.new) }
{
    let path = Path::new(alloc, builder.drawn_search());
    let asked = walk.runs();
    let mut cut = 0u64;
    'walking: for number in 0..asked {
        let runs = number - cut;
        if builder.is_up(clock) {
            let told = different.count();
            return Ok(Walked::Made {
                runs,
                cut,
                different: told,
            });
        }
        builder.log_run(log, number);
        let run = number + 1;
        let end = draw_run(
            rt, alloc, builder, &path, run, watcher, drawer, ending, closure, visitor,
        )?;
        match end {
            DrawnEnd::Ended(hash) => different.note(hash),
            DrawnEnd::Cut => cut += 1,
            DrawnEnd::Failed(failure, choices) => {
                return Ok(Walked::Failed {
                    runs,
                    cut,
                    failure,
                    choices,
                });
            }
        }
    }
    log_runs(log, "completed in ", asked, " iterations");
    Ok(Walked::Made {
        runs: asked - cut,
        cut,
        different: different.count(),
    })
}
