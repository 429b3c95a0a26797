//! One run of a closure: it is called as main, its handle is closed, and the run is settled by its history.
ghost use Rattle.std.specs.Prelude.{◌≡◌, ◌≤◌, ◌<◌, IfOk, IfErr, length, slice_get};
ghost use Rattle.std.specs.Fn.{CalledAtMut};
ghost use Rattle.loom_engine.specs.Path.Route.{IsAtStart};
ghost use Rattle.loom.specs.Runner.Alike.{Follows};
ghost use Rattle.loom.specs.Runner.Errors.{IsRefusedByHost};
ghost use Rattle.loom.specs.Runner.Refusals.{IsNoRun};
ghost use Rattle.loom.specs.Runner.Next.{IsNoNextRun, IsNotJudgedNext, MakesNext};
ghost use Rattle.loom.specs.Runner.Run.{Judged, WasCalled, WasMade};

use crate::model::visitor::Visitor;
use crate::runner::closures::ask_closure;
use crate::runner::error::{RunnerError, error_by};
use crate::runner::exact::Exact;
use crate::runner::handle::Handle;
use crate::runner::history::told::Told;
use crate::runner::last_run::LastRun;
use crate::runner::run_end::{RunEnd, next_path};
use crate::runner::shared::{Children, Room, Shared, join_all, main_handle};
use crate::runner::stop::Stop;
use crate::runner::turns::Turns;
use crate::runner::watcher::Watcher;
use log::Log;
use loom_engine::rt::execution::Limits;
use loom_engine::rt::path::Path;
use std::alloc::Global;
use std::sync::{Arc, Wait};
use std::thread::Threads;

/// Makes a run of the closure that begins with the path, and gives it to the visitor if it ends without a failure (own). `Memory` and
/// `Refused` where a growth or a thread was refused, `NotSettled` where the run's end isn't settled: mostly where the threads'
/// operations and replies aren't those of its history.
pub fn make_run<
    D: Exact + 'static,
    R: Threads + Wait + Clone + Send + 'static,
    F: FnMut(&mut Handle<D, R>) -> Result<D, Stop>,
    V: Visitor<D>,
>(
    rt: &R,
    alloc: Global,
    limits: Limits,
    path: &Path,
    closure: &mut F,
    visitor: &mut V,
) -> Result<RunEnd, RunnerError>
    requires some { 1 ≤ limits.max_threads }
    requires few { limits.max_threads ≤ 5 }
    requires starts { IsAtStart path.now.explores path.now }
    requires callable { F.IsAlwaysCallable closure.old }
    ensures again { F.IsAlwaysCallable closure.new }
    ensures made { IfOk result (λ end. WasMade (CalledAtMut F.FnMut) V.takes limits closure.old visitor.old path.now end closure.new visitor.new) }
    ensures errors { IfErr result (λ e. IsNoRun (CalledAtMut F.FnMut) V.takes limits closure.old visitor.old path.now e visitor.new) }
{
    let mut last = LastRun::none(alloc);
    let mut room = Room::new(alloc);
    let watcher = Watcher::<D, HostRuntime>::none();
    let end = make_next_run(
        rt, alloc, limits, path, 1, &watcher, &mut room, &mut last, closure, visitor,
    );
    room.end(rt);
    end
}

/// `make_run` of the run of this number after another one. `Changed` besides, where a thread hands over another operation than in that
/// one, after the same choices, and the run didn't fail as not deterministic: then the visitor isn't given it (own). The watcher is shown
/// the run, and its threads share what is in this room.
pub fn make_next_run<
    D: Exact + 'static,
    R: Threads + Wait + Clone + Send + 'static,
    F: FnMut(&mut Handle<D, R>) -> Result<D, Stop>,
    V: Visitor<D>,
    L: Log + Clone + Send + 'static,
>(
    rt: &R,
    alloc: Global,
    limits: Limits,
    path: &Path,
    number: u64,
    watcher: &Watcher<D, L>,
    room: &mut Room<D>,
    last: &mut LastRun<D>,
    closure: &mut F,
    visitor: &mut V,
) -> Result<RunEnd, RunnerError>
    requires some { 1 ≤ limits.max_threads }
    requires few { limits.max_threads ≤ 5 }
    requires starts { IsAtStart path.now.explores path.now }
    requires callable { F.IsAlwaysCallable closure.old }
    ensures again { F.IsAlwaysCallable closure.new }
    ensures made { IfOk result (λ end. WasMade (CalledAtMut F.FnMut) V.takes limits closure.old visitor.old path.now end closure.new visitor.new) }
    ensures next { IfOk result (λ end. MakesNext (CalledAtMut F.FnMut) V.takes limits closure.old last.old end closure.new last.new) }
    ensures errors { IfErr result (λ e. IsNoNextRun (CalledAtMut F.FnMut) V.takes limits closure.old visitor.old path.now last.old number e visitor.new) }
{
    let shared = room.share(rt, alloc, limits, path)?;
    watcher.show(rt, number, &shared);
    let told = call_main(rt, alloc, &shared, closure, &mut room.ending)?;
    watcher.tell(rt, number, &*shared);
    let mut turns = shared.turns.lock(rt);
    judge(
        alloc,
        limits,
        path,
        number,
        &mut *turns,
        told.as_slice(),
        last,
        visitor,
    )
}

/// Calls the closure as main, and closes its handle. Answers the threads' told lists, main's first. All of them have ended.
pub(crate) fn call_closure<
    D: Exact + 'static,
    R: Threads + Wait + Clone + Send + 'static,
    F: FnMut(&mut Handle<D, R>) -> Result<D, Stop>,
>(
    rt: &R,
    alloc: Global,
    shared: &Arc<Shared<D>, Global>,
    closure: &mut F,
) -> Result<Vec<Told<D>>, RunnerError>
    requires callable { F.IsAlwaysCallable closure.old }
    ensures again { F.IsAlwaysCallable closure.new }
    ensures called { IfOk result (λ told. WasCalled (CalledAtMut F.FnMut) closure.old closure.new told.items) }
    ensures errors { IfErr result IsRefusedByHost }
{
    let mut ending = Vec::new(alloc);
    let told = call_main(rt, alloc, shared, closure, &mut ending);
    join_all(rt, ending);
    told
}

/// `call_closure`, but that the threads that main has started are put into `ending`, and those that were there are joined.
pub(crate) fn call_main<
    D: Exact + 'static,
    R: Threads + Wait + Clone + Send + 'static,
    F: FnMut(&mut Handle<D, R>) -> Result<D, Stop>,
>(
    rt: &R,
    alloc: Global,
    shared: &Arc<Shared<D>, Global>,
    closure: &mut F,
    ending: &mut Children,
) -> Result<Vec<Told<D>>, RunnerError>
    requires callable { F.IsAlwaysCallable closure.old }
    ensures again { F.IsAlwaysCallable closure.new }
    ensures called { IfOk result (λ told. WasCalled (CalledAtMut F.FnMut) closure.old closure.new told.items) }
    ensures errors { IfErr result IsRefusedByHost }
{
    let mut handle = main_handle(rt, alloc, shared)?;
    let answer = ask_closure(closure, &mut handle);
    let mut told = handle.close(answer, ending)?;
    put_in_order(&mut told);
    Ok(told)
}

/// Puts the lists into the order of their threads. The first one, which is main's, stays.
fn put_in_order<D>(told: &mut Vec<Told<D>>)
    ensures { slice_get told.new.items 0 ≡ slice_get told.old.items 0 }
{
    for k in 1..told.len() {
        let place = place_of(told.as_slice(), k);
        told.swap(k, place);
    }
}

/// Where the list of the thread is, from its own place on; or its own place, where it is nowhere.
fn place_of<D>(told: &[Told<D>], thread: usize) -> usize
    requires { thread < length told.now }
    ensures from { thread ≤ result }
    ensures within { result < length told.now }
{
    for place in thread..told.len() {
        let list = &told[place];
        if list.thread as usize == thread {
            return place;
        }
    }
    thread
}

/// Whether the run is settled, and like the last one. If it ended the visitor is given it, and the next path is made.
fn judge<D: Exact, V: Visitor<D>>(
    alloc: Global,
    limits: Limits,
    path: &Path,
    number: u64,
    turns: &mut Turns<D>,
    told: &[Told<D>],
    last: &mut LastRun<D>,
    visitor: &mut V,
) -> Result<RunEnd, RunnerError>
    ensures judged { IfOk result (λ end. Judged V.takes limits visitor.old path.now turns.old told.now end visitor.new) }
    ensures next { IfOk result (λ end. Follows last.old turns.old end last.new) }
    ensures errors { IfErr result (λ e. IsNotJudgedNext limits visitor.old path.now last.old number turns.old told.now e visitor.new) }
{
    if let Some(stop) = turns.spoiled() {
        return Err(error_by(stop));
    }
    if !turns.settle(path, limits, told) {
        return Err(RunnerError::NotSettled);
    }
    let Ok(choices) = turns.choices() else {
        return Err(RunnerError::Memory);
    };
    last.compare(alloc, number, choices.as_slice(), &*turns)?;
    if let Some(failure) = turns.failure() {
        return Ok(RunEnd::Failed(failure, choices));
    }
    let Ok(value) = turns.value() else {
        return Err(RunnerError::Memory);
    };
    let Some(value) = value else {
        return Err(RunnerError::NotSettled);
    };
    let next = turns.take_path();
    let Ok(events) = turns.exchange_events(last.give_room(alloc)) else {
        return Err(RunnerError::Memory);
    };
    if visitor.run(choices.as_slice(), value).is_err() {
        return Err(RunnerError::Memory);
    }
    *last = LastRun::new(choices, events);
    Ok(RunEnd::Ended(next_path(next)))
}
