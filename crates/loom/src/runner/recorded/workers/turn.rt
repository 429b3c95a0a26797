//! A turn of several workers who make runs of what is recorded: before it, the next run of each part is recorded.
ghost use Rattle.std.specs.Prelude.{◌≡◌, ◌≤◌, ◌<◌, ◌*◌, ◌^◌, IfOk, IfSome, length, max};
ghost use Rattle.std.specs.Fn.{CalledAtMut};
ghost use Rattle.loom.specs.Runner.Check.{limits_of};
ghost use Rattle.loom.specs.Runner.RecordedWorkers.{ArePlayed, TakesKnown};
ghost use Rattle.loom.specs.Runner.Recording.{Records, RecordsMore};
ghost use Rattle.loom.specs.Runner.Workers.{AreAtMost};

use crate::model::builder::Builder;
use crate::model::parts::Slice;
use crate::model::visitor::Visitor;
use crate::runner::error::RunnerError;
use crate::runner::exact::Exact;
use crate::runner::handle::Handle;
use crate::runner::parallel::Workers;
use crate::runner::parallel::round::{Done, Job, Turn, hand_out, take_back};
use crate::runner::parallel::visitors::Visitors;
use crate::runner::recorded::recording::Recording;
use crate::runner::recorded::rounds::Recorder;
use crate::runner::recorded::workers::working::work;
use crate::runner::stop::Stop;
use crate::runner::watcher::Watcher;
use log::Log;
use loom_engine::rt::parts::{Part, Parts};
use std::alloc::{AllocError, Global};
use std::rt::Clock as HostTime;
use std::sync::Wait;
use std::sync::atomic::AtomicBool;
use std::thread::{self, Threads};

/// Each worker works on one of the first parts for a while, by what is recorded then, and then they are given back.
pub(super) fn make_turn<
    D: Exact + Sync + 'static,
    R: Threads + Wait + HostTime + Clone + Send + Sync + 'static,
    F: FnMut(&mut Handle<D, R>) -> Result<D, Stop>,
    V: Visitor<D> + Send + Drop,
    G: Visitors<V>,
    L: Log + Clone + Send + 'static,
>(
    rt: &R,
    alloc: Global,
    builder: &Builder,
    number: u64,
    watcher: &Watcher<D, L>,
    closure: &mut F,
    workers: Workers,
    parts: &mut Parts,
    visitors: &mut G,
    recorder: &mut Recorder<D>,
) -> Result<Turn, RunnerError>
    requires some { 1 ≤ builder.now.max_threads }
    requires few { builder.now.max_threads ≤ 5 }
    requires branches { builder.now.max_branches ≤ 1000000 }
    requires bound { IfSome builder.now.preemption_bound (λ bound. bound ≤ 255) }
    requires callable { F.IsAlwaysCallable closure.old }
    requires limits { recorder.old.limits ≡ limits_of builder.now }
    requires fits { workers.count * max 1 workers.slice.runs < 2 ^ 64 }
    ensures again { F.IsAlwaysCallable closure.new }
    ensures limits { recorder.new.limits ≡ limits_of builder.now }
    ensures records { IfOk result (λ _. Records (CalledAtMut F.FnMut) (limits_of builder.now) closure.old recorder.old.recording closure.new recorder.new.recording) }
    ensures takes { IfOk result (TakesKnown V.takes G.is_new G.joins builder.now recorder.new.recording parts.old parts.new visitors.old visitors.new) }
    ensures within { IfOk result (λ turn. turn.runs ≤ workers.count * max 1 workers.slice.runs) }
{
    let jobs = hand_out(alloc, parts, visitors, workers.count)?;
    record_each(
        rt,
        alloc,
        builder,
        number,
        watcher,
        closure,
        jobs.as_slice(),
        recorder,
    )?;
    let done = work_on_each(rt, alloc, builder, &recorder.recording, workers.slice, jobs)?;
    let turn = take_back::<D, V, G>(alloc, parts, visitors, done)?;
    Ok(turn)
}

/// What the next run of each part needs is recorded.
fn record_each<
    D: Exact + 'static,
    R: Threads + Wait + Clone + Send + 'static,
    F: FnMut(&mut Handle<D, R>) -> Result<D, Stop>,
    V,
    L: Log + Clone + Send + 'static,
>(
    rt: &R,
    alloc: Global,
    builder: &Builder,
    number: u64,
    watcher: &Watcher<D, L>,
    closure: &mut F,
    jobs: &[Job<V>],
    recorder: &mut Recorder<D>,
) -> Result<(), RunnerError>
    requires some { 1 ≤ builder.now.max_threads }
    requires few { builder.now.max_threads ≤ 5 }
    requires branches { builder.now.max_branches ≤ 1000000 }
    requires bound { IfSome builder.now.preemption_bound (λ bound. bound ≤ 255) }
    requires callable { F.IsAlwaysCallable closure.old }
    requires limits { recorder.old.limits ≡ limits_of builder.now }
    ensures again { F.IsAlwaysCallable closure.new }
    ensures limits { recorder.new.limits ≡ limits_of builder.now }
    ensures records { IfOk result (λ _. Records (CalledAtMut F.FnMut) (limits_of builder.now) closure.old recorder.old.recording closure.new recorder.new.recording) }
{
    'jobs: for job in jobs {
        record_next(
            rt, alloc, builder, number, watcher, closure, &job.part, recorder,
        )?;
    }
    Ok(())
}

/// What the part's next run needs is recorded.
fn record_next<
    D: Exact + 'static,
    R: Threads + Wait + Clone + Send + 'static,
    F: FnMut(&mut Handle<D, R>) -> Result<D, Stop>,
    L: Log + Clone + Send + 'static,
>(
    rt: &R,
    alloc: Global,
    builder: &Builder,
    number: u64,
    watcher: &Watcher<D, L>,
    closure: &mut F,
    part: &Part,
    recorder: &mut Recorder<D>,
) -> Result<(), RunnerError>
    requires some { 1 ≤ builder.now.max_threads }
    requires few { builder.now.max_threads ≤ 5 }
    requires branches { builder.now.max_branches ≤ 1000000 }
    requires bound { IfSome builder.now.preemption_bound (λ bound. bound ≤ 255) }
    requires callable { F.IsAlwaysCallable closure.old }
    requires limits { recorder.old.limits ≡ limits_of builder.now }
    ensures again { F.IsAlwaysCallable closure.new }
    ensures limits { recorder.new.limits ≡ limits_of builder.now }
    ensures records { IfOk result (λ _. RecordsMore (CalledAtMut F.FnMut) (limits_of builder.now) closure.old recorder.old.recording closure.new recorder.new.recording) }
{
    let mut path = builder.path_of(alloc, part)?;
    let _ending = recorder.make_run(rt, alloc, number, watcher, closure, &mut path)?;
    Ok(())
}

/// Each part is worked on by a thread of the host, where one can be made.
fn work_on_each<D: Exact + Sync, R: Threads + HostTime + Sync, V: Visitor<D> + Send + Drop>(
    rt: &R,
    alloc: Global,
    builder: &Builder,
    recording: &Recording<D>,
    slice: Slice,
    jobs: Vec<Job<V>>,
) -> Result<Vec<Done<V>>, AllocError>
    ensures worked { IfOk result (λ done. ArePlayed V.takes builder.now recording.now jobs.items done.items) }
    ensures within { IfOk result (λ done. AreAtMost (max 1 slice.runs) done.items) }
    ensures len { IfOk result (λ done. length done.items ≡ length jobs.items) }
{
    let lacks = AtomicBool::new(false);
    let lacks = &lacks;
    thread::map_vec(
        rt,
        jobs,
        &|job| { work(rt, alloc, builder, recording, lacks, slice, job) },
    )
}
