//! What is beside the short forms: any operation's call, those that aren't a closure's to hand over, the search's switches,
//! and a wait without a loop.
use crate::closures::holds;
use loom::model::Report;
use loom::model::builder::Builder;
use loom::runner::{Handle, NoVisitor, Stop, check};
use loom::sync::{Condvar, Mutex};
use loom::thread::{exit, finish};
use loom::{FailureKind, Reply, thread};
use std::process::Abort;
use std::rt::Files;
use std::sync::Wait;
use std::test::Fail;
use std::thread::Threads;

/// What main does.
#[derive(Clone, Copy)]
enum Main {
    /// Asks for its number and makes a mutex, by calls.
    Calls,
    /// Calls an operation by which a thread finishes.
    Finishes,
    /// Calls the one by which it exits.
    Exits,
    /// Calls the one by which it ends.
    Ends,
    /// Calls the one by which a thread is spawned.
    Spawns,
    /// Explores from here on, and locks a mutex beside a thread.
    Explores,
    /// Ends the exploring for good before that, and turns it on and off in vain.
    SkipsBranch,
    /// Locks a mutex beside a thread.
    Locks,
    /// Waits on a condition variable until a thread notifies it.
    Waits,
}

impl Main {
    fn run<R: Threads + Wait + Clone + Send + 'static>(
        self,
        handle: &mut Handle<u64, R>,
    ) -> Result<u64, Stop> {
        match self {
            Main::Calls => calls(handle),
            Main::Finishes => told(handle.call(finish(3).request)),
            Main::Exits => told(handle.call(exit().request)),
            Main::Ends => told(handle.call(thread::end().request)),
            Main::Spawns => told(handle.call(thread::spawn(()).request)),
            Main::Explores => {
                handle.explore()?;
                lock_beside(handle)
            }
            Main::SkipsBranch => skips_branch(handle),
            Main::Locks => lock_beside(handle),
            Main::Waits => waits(handle),
        }
    }
}

/// A call's answer, of which the reply is let go.
fn told(answer: Result<Reply<u64>, Stop>) -> Result<u64, Stop> {
    answer?.let_go();
    Ok(0)
}

/// Each call is answered by its operation's reply.
fn calls<R: Wait>(handle: &mut Handle<u64, R>) -> Result<u64, Stop> {
    let who = handle.call(thread::current().request)?;
    let made = handle.call(Mutex::new(5).request)?;
    let is_so = matches!((&who, &made), (Reply::Thread(0, None), Reply::Mutex(0)));
    who.let_go();
    made.let_go();
    handle.assert(is_so)?;
    Ok(7)
}

/// Main locks a mutex beside a thread that does nothing but end.
fn lock_beside<R: Threads + Wait + Clone + Send + 'static>(
    handle: &mut Handle<u64, R>,
) -> Result<u64, Stop> {
    let mutex = handle.mutex(0)?;
    handle.spawn(|_| Ok(3))?;
    let (guard, value) = handle.lock(&mutex)?;
    handle.release(guard, value)?;
    Ok(7)
}

/// The search is switched after it was switched off for good.
fn skips_branch<R: Threads + Wait + Clone + Send + 'static>(
    handle: &mut Handle<u64, R>,
) -> Result<u64, Stop> {
    handle.skip_branch()?;
    handle.explore()?;
    handle.stop_exploring()?;
    lock_beside(handle)
}

/// A thread locks the mutex once main waits, and changes what it holds. Main has that at the end of its wait.
fn waits<R: Threads + Wait + Clone + Send + 'static>(
    handle: &mut Handle<u64, R>,
) -> Result<u64, Stop> {
    let mutex = handle.mutex(0)?;
    let condvar = handle.condvar()?;
    let (guard, value) = handle.lock(&mutex)?;
    handle.spawn(move |handle| notifies(handle, &mutex, &condvar))?;
    let (guard, value) = handle.wait(&condvar, guard, value)?;
    handle.release(guard, value)?;
    handle.assert(value == 6)?;
    Ok(value)
}

/// Changes what the mutex holds, and notifies.
fn notifies<R: Wait>(
    handle: &mut Handle<u64, R>,
    mutex: &Mutex,
    condvar: &Condvar,
) -> Result<u64, Stop> {
    let (guard, _) = handle.lock(mutex)?;
    handle.release(guard, 6)?;
    handle.notify_one(condvar)?;
    Ok(3)
}

/// What a check of main by these settings finds; None where there is no report.
fn found<R: Abort + AllocGlobal + Files + Threads + Wait + Clone + Send + 'static>(
    rt: &R,
    builder: &Builder,
    main: Main,
) -> Option<Report> {
    let closure = |handle: &mut Handle<u64, R>| main.run(handle);
    check(rt, rt.alloc(), builder, closure, &mut NoVisitor).ok()
}

/// A check of main by these settings makes so many runs, none of which fails.
fn completes<R: Abort + AllocGlobal + Files + Threads + Wait + Clone + Send + 'static>(
    rt: &R,
    builder: &Builder,
    main: Main,
    count: u64,
) {
    let report = found(rt, builder, main);
    holds(
        rt,
        matches!(report, Some(Report::Complete { runs }) if runs == count),
    );
}

/// The first run of main is a failed assertion, before any choice.
fn fails<R: Abort + AllocGlobal + Files + Threads + Wait + Clone + Send + 'static>(
    rt: &R,
    main: Main,
) {
    let is_so = match &found(rt, &Builder::new(), main) {
        Some(
            Report::Failed {
                runs: 0,
                failure,
                choices,
            },
        ) => failure.kind == FailureKind::Assertion && choices.is_empty(),
        _ => false,
    };
    holds(rt, is_so);
}

#[test]
fn a_call_is_answered_by_the_reply(rt: HostRuntime) {
    completes(&rt, &Builder::new(), Main::Calls, 1);
}

/// What a closure's end and `spawn` hand over is no closure's to hand over.
#[test]
fn reserved_operations_are_failed_assertions(rt: HostRuntime) {
    fails(&rt, Main::Finishes);
    fails(&rt, Main::Exits);
    fails(&rt, Main::Ends);
    fails(&rt, Main::Spawns);
}

/// Where the search waits to be told to explore, one run is made without that, and each one with it.
#[test]
fn the_search_is_switched_by_closures(rt: HostRuntime) {
    let mut builder = Builder::new();
    builder.reduce = false;
    completes(&rt, &builder, Main::SkipsBranch, 1);
    builder.expect_explicit_explore = true;
    completes(&rt, &builder, Main::Locks, 1);
    completes(&rt, &builder, Main::Explores, 3);
}

/// Main is notified in each run, since the thread has to wait for the mutex until main waits.
#[test]
fn a_wait_without_a_loop_ends(rt: HostRuntime) {
    let report = found(&rt, &Builder::new(), Main::Waits);
    holds(
        &rt,
        matches!(report, Some(Report::Complete { runs }) if runs > 0),
    );
}

/// A check by the settings that the environment of the process names.
#[test]
fn a_check_by_the_environment(rt: HostRuntime) -> Result<(), Fail> {
    let builder = Builder::from_process(&rt)?;
    completes(&rt, &builder, Main::Calls, 1);
    Ok(())
}
