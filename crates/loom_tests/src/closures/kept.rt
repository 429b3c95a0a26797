//! Threads that are kept over the runs of a check.
use crate::closures::children::{Child, Task, start, start_on};
use crate::closures::finding::Counter;
use crate::closures::holds;
use loom::FailureKind;
use loom::model::Report;
use loom::model::builder::Builder;
use loom::runner::{Handle, Host, NoVisitor, Pool, RunnerError, Stop, check};
use loom::sync::atomic::Ordering::AcqRel;
use loom::thread::JoinHandle;
use std::alloc::AllocError;
use std::sync::Arc;
use std::sync::atomic::AtomicU64;
use std::test::Fail;

/// What main does.
#[derive(Clone, Copy)]
enum Main {
    /// A thread adds to the same number as main.
    TwoAdds,
    /// Two threads lock two mutexes in opposite order.
    TwoMutexes,
}

/// Where the threads come from.
type Kept = Option<Pool<u64, Child>>;

impl Main {
    fn run<R: Host>(
        self,
        kept: &mut Kept,
        handle: &mut Handle<u64, R>,
        counter: &Counter,
    ) -> Result<u64, Stop> {
        match self {
            Main::TwoAdds => two_adds(kept, handle, counter),
            Main::TwoMutexes => two_mutexes(kept, handle, counter),
        }
    }
}

/// Starts a thread, one of those that are kept where any are.
fn begin<R: Host>(
    kept: &mut Kept,
    handle: &mut Handle<u64, R>,
    task: Task,
    counter: &Counter,
) -> Result<JoinHandle, Stop> {
    match kept {
        Some(pool) => start_on(pool, handle, task, counter),
        None => start(handle, task, counter),
    }
}

/// Two threads add 1 to the same number, and what they read before differs.
fn two_adds<R: Host>(
    kept: &mut Kept,
    handle: &mut Handle<u64, R>,
    counter: &Counter,
) -> Result<u64, Stop> {
    let number = handle.atomic(0u64)?;
    let child = begin(kept, handle, Task::Add(number), counter)?;
    let mine = handle.fetch_add(&number, 1, AcqRel)?;
    let theirs = handle.join(&child)?;
    handle.assert(mine != theirs)?;
    Ok(mine)
}

/// Two threads lock two mutexes in opposite order.
fn two_mutexes<R: Host>(
    kept: &mut Kept,
    handle: &mut Handle<u64, R>,
    counter: &Counter,
) -> Result<u64, Stop> {
    let a = handle.mutex(0)?;
    let b = handle.mutex(0)?;
    let first = begin(kept, handle, Task::LockBoth(a, b), counter)?;
    let second = begin(kept, handle, Task::LockBoth(b, a), counter)?;
    handle.join(&first)?;
    handle.join(&second)
}

/// What a check of main finds.
fn find<R: Host>(
    rt: &R,
    builder: &Builder,
    main: Main,
    kept: &mut Kept,
) -> Result<Result<Report, RunnerError>, AllocError> {
    let counter = Arc::new(rt.alloc(), AtomicU64::new(0))?;
    let closure = |handle: &mut Handle<u64, R>| main.run(kept, handle, &counter);
    Ok(check(rt, rt.alloc(), builder, closure, &mut NoVisitor))
}

/// How many threads are kept.
fn threads_of(kept: &Kept) -> usize {
    match kept {
        Some(pool) => pool.threads(),
        None => 0,
    }
}

/// The threads that are kept end.
fn end<R: Host>(rt: &R, kept: Kept) {
    if let Some(pool) = kept {
        pool.end(rt);
    }
}

/// Whether the check made so many runs, and is complete.
fn completes(found: &Result<Report, RunnerError>, count: u64) -> bool {
    matches!(found, Ok(Report::Complete { runs }) if *runs == count)
}

/// Whether the check found a deadlock after so many runs.
fn is_deadlock(found: &Result<Report, RunnerError>, count: u64) -> bool {
    match found {
        Ok(Report::Failed { runs, failure, .. }) => failure.kind == FailureKind::Deadlock
            && *runs == count,
        _ => false,
    }
}

/// A check finds what it finds without threads that are kept, and afterwards as many are kept as run together. A run that has failed
/// leaves them of use.
#[test]
fn threads_are_kept(rt: HostRuntime) -> Result<(), Fail> {
    let builder = Builder::new();
    let mut kept = Some(Pool::new(rt.alloc()));
    holds(&rt, threads_of(&kept) == 0);
    let found = find(&rt, &builder, Main::TwoAdds, &mut kept)?;
    holds(&rt, completes(&found, 4));
    holds(&rt, found == find(&rt, &builder, Main::TwoAdds, &mut None)?);
    holds(&rt, threads_of(&kept) == 1);
    let found = find(&rt, &builder, Main::TwoMutexes, &mut kept)?;
    holds(&rt, is_deadlock(&found, 3));
    holds(
        &rt,
        found == find(&rt, &builder, Main::TwoMutexes, &mut None)?,
    );
    holds(&rt, threads_of(&kept) == 2);
    let found = find(&rt, &builder, Main::TwoAdds, &mut kept)?;
    holds(&rt, completes(&found, 4));
    holds(&rt, threads_of(&kept) == 2);
    end(&rt, kept);
    Ok(())
}

/// Ten thousand runs and more, by one thread beside main.
#[test]
fn one_thread_serves_ten_thousand_runs(rt: HostRuntime) -> Result<(), Fail> {
    let builder = Builder::new();
    let mut kept = Some(Pool::new(rt.alloc()));
    for _ in 0..2_500u64 {
        let found = find(&rt, &builder, Main::TwoAdds, &mut kept)?;
        holds(&rt, completes(&found, 4));
    }
    holds(&rt, threads_of(&kept) == 1);
    end(&rt, kept);
    Ok(())
}
